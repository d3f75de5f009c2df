ghost use Rattle.airy_wait.specs.Finished.{OneListLaw};
ghost use Rattle.airy_wait.specs.Words.{FirstRefusedLaw};

/// A law: behind a `finish` a session has one list of replies, what there is to tell of the keys.
#[tactic(auto, using(crate::proofs::FinishedLemmas::one_list))]
pub fn one_list()
    ensures { OneListLaw }
{}

/// A law: words are refused with n exactly where n is the least number for which no command line that keeps the rules of the words
/// begins with the first n words, or, where one begins with all of them, a word is missing, and n is their count plus 1.
#[tactic(auto, using(crate::proofs::FirstLaw::first_refused))]
pub fn first_refused_word()
    ensures { FirstRefusedLaw }
{}
