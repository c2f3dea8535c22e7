//! Laws of positions that are alike, as contracts of functions that do nothing.

ghost use Rattle.symmetry.specs.Laws.{SymmetriesAreIsometries, MovesStayApart, MovesAreImages};
ghost use Rattle.symmetry.specs.Laws.{ImagesAreBoards, LegalMovesAreAlike, ListedMovesAreAlike};
ghost use Rattle.symmetry.specs.Laws.{AfterIsAlike, StatesAreAlike, ShiftIsOnly, ShiftIsTested};
ghost use Rattle.symmetry.specs.Laws.{TakesAreTested};
ghost use Rattle.symmetry.specs.Laws.{AlikePositionsHaveAsManyLines, TakenMovesHaveAsManyLines};
ghost use Rattle.symmetry.specs.Laws.{OwnImagesHaveAsManyLines, LegalMovesArePlaced};

/// Each of the twelve symmetries, followed by a shift, is an invertible map of the places that
/// keeps neighbours. So moves and their images are paired one to one.
pub fn symmetries_are_isometries()
    ensures isometry { SymmetriesAreIsometries }
    ensures apart { MovesStayApart }
    ensures images { MovesAreImages }
{}

/// What is on the images of the places determines a board: it is the first board with each entry
/// taken to the image of its place.
pub fn images_are_boards()
    ensures { ImagesAreBoards }
{}

/// A move is legal exactly if its image is legal in a position that is alike. It is on the list of
/// legal moves exactly if its image is on the other list. The image of the pass is the pass.
pub fn legal_moves_are_alike()
    ensures legal { LegalMovesAreAlike }
    ensures listed { ListedMovesAreAlike }
{}

/// The positions after a move and after its image are alike by the same symmetry and shift.
pub fn after_is_alike()
    ensures { AfterIsAlike }
{}

/// Positions that are alike have the same state, if a game that has not started counts as in
/// progress.
pub fn states_are_alike()
    ensures { StatesAreAlike }
{}

/// At most one shift makes two positions alike by a symmetry, and the test of a shift between their
/// keys finds it.
pub fn shift_is_only()
    ensures only { ShiftIsOnly }
    ensures tested { ShiftIsTested }
{}

/// The test of whether a symmetry and a shift take a move to another, in positions that are alike
/// by them.
pub fn takes_are_tested()
    ensures { TakesAreTested }
{}

/// Positions that are alike have the same number of lists of n legal moves. A move and its image
/// are followed by the same number. So it is enough to count after one of the moves that the
/// symmetries of a position take to each other.
pub fn lines_are_alike()
    ensures positions { AlikePositionsHaveAsManyLines }
    ensures moves { TakenMovesHaveAsManyLines }
    ensures own { OwnImagesHaveAsManyLines }
{}

/// Every legal move leads to a place that each symmetry can map.
pub fn legal_moves_are_placed()
    ensures { LegalMovesArePlaced }
{}
