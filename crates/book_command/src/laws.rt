//! When the run of a book is done, and what it has then written, as contracts of functions that do
//! nothing.

ghost use Rattle.book_command.specs.Laws.{BooksAreDone, WrittenMovesAreLegal};

/// The law covers an input whose first line is a game that is not over and whose other lines are
/// games. If neither the source nor the sink counted a fault, the run ends with `Done`, or because
/// memory ran out.
pub fn books_are_done()
    ensures { BooksAreDone }
{}

/// The move that a run has written is legal in the position, and was made in the games as often as
/// the line says.
pub fn written_moves_are_legal()
    ensures { WrittenMovesAreLegal }
{}
