ghost use Rattle.lic_text.specs.Lines.{NumbersRise, WordsAreWords};

/// Each line of a file has one word or more, and no word is empty or has a space, a tab or an LF.
///
/// It does nothing when it runs: a call tells it to the caller's proof.
pub fn words_are_words()
    ensures { WordsAreWords }
{}

/// The numbers of the lines of a file, and of the fault that ends them, rise from 1.
///
/// It does nothing when it runs: a call tells it to the caller's proof.
pub fn numbers_rise()
    ensures { NumbersRise }
{}
