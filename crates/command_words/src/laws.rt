ghost use Rattle.command_words.specs.FirstRefused.{FirstRefusedLaw};

/// A law: words are refused with n exactly where n is the least number for which no command line that keeps the rules of the words
/// begins with the first n words, or, where one begins with all of them, they aren't accepted themselves, and n is their count
/// plus 1: a word is missing, or the key or the pair that they ask for isn't stable.
#[tactic(auto, using(crate::proofs::FirstLaw::first_refused))]
pub fn first_refused_word()
    ensures { FirstRefusedLaw }
{}
