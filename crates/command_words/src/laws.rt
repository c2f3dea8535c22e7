//! A law of the words of the command line, as the contract of a function that does nothing.

ghost use Rattle.command_words.specs.Laws.{WordsHaveOneAnswer};

/// A list of words has one answer, whenever it is asked for and however much memory there is,
/// unless memory runs out.
pub fn words_have_one_answer()
    ensures { WordsHaveOneAnswer }
{}
