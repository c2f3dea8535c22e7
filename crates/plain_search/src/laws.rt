//! Laws of positions with the same legal moves, and of the table of positions that were met, as
//! contracts of functions that do nothing.

ghost use Rattle.plain_search.specs.Met.{WhatIsKeptIsFound};
ghost use Rattle.plain_search.specs.Replies.{LikePlacementsHaveTheSameReplies};
ghost use Rattle.plain_search.specs.Rested.{RestDoesNotMatter};

/// Two pieces in hand other than queens can be placed on a place that is not beside a mosquito of
/// the other side. Whichever is placed, the other side has the same list of legal moves.
pub fn like_placements_have_the_same_replies()
    ensures { LikePlacementsHaveTheSameReplies }
{}

/// Let the piece that rests belong to the side that is not to move, and be beside no pillbug and no
/// mosquito of the side to move. Then the side to move has the same legal moves as if no piece
/// rested.
pub fn rest_does_not_matter()
    ensures { RestDoesNotMatter }
{}

/// What is stored in a row of a table of move counts, in place of what was there, is found there.
pub fn what_is_kept_is_found()
    ensures { WhatIsKeptIsFound }
{}
