ghost use Rattle.more_words.specs.FirstRefused.{FirstRefusedLaw};

/// A law: words are refused with n exactly where n is the least number for which no command line that keeps the rules of the words
/// begins with the first n words, or, where one begins with all of them, a word is missing, and n is their count plus 1.
#[tactic(auto, using(crate::proofs::FirstLaw::first_refused))]
pub fn first_refused_word()
    ensures { FirstRefusedLaw }
{}
