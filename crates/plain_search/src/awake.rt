//! The keys under which legal moves are counted once.

ghost use Rattle.std.specs.Prelude.{◌≡◌, ℕ, IsTrue, Some};
ghost use Rattle.hive_model.specs.declared.places.Spot.{Spot as AnySpot};
ghost use Rattle.hive_model.specs.Boards.{spot_of};
ghost use Rattle.hive_model.specs.Histories.{position};
ghost use Rattle.hive_model.specs.Places.{AreNeighbours};
ghost use Rattle.plain_search.specs.Met.{IsCountKey};
ghost use Rattle.plain_search.specs.Rested.{RestsUntouched};

use hive_model::{Game, Key, Kind, Piece, Place};

/// Whether the piece, if it is on the board, is not beside the place.
fn is_apart<G: Game>(game: &G, piece: Option<Piece>, place: Place) -> bool
    ensures { IsTrue result → (x : ℕ) (t : AnySpot) → piece ≡ Some x
        → spot_of (position (G.history game.now)).board x ≡ Some t → ¬ AreNeighbours t.place place }
{
    let Some(piece) = piece else {
        return true;
    };
    let Some(spot) = game.spot(piece) else {
        return true;
    };
    spot.place.towards(place).is_none()
}

/// Whether the piece that rests belongs to the side that is not to move, and is not beside a
/// pillbug or a mosquito of the side to move.
fn is_untouched<G: Game>(game: &G, rest: Piece) -> bool
    requires { (position (G.history game.now)).rest ≡ Some rest }
    ensures { IsTrue result → RestsUntouched (position (G.history game.now)) }
{
    let side = game.side();
    if rest.colour().is(side) {
        return false;
    }
    let Some(spot) = game.spot(rest) else {
        return false;
    };
    is_apart(game, Piece::new(side, Kind::Pillbug, 0), spot.place)
        && is_apart(game, Piece::new(side, Kind::Mosquito, 0), spot.place)
}

/// A key by which the legal moves of a game are counted, if the given piece rests. It is the game's
/// own key, or the same without the resting piece if the legal moves do not depend on it.
pub fn count_key<G: Game>(game: &G, rest: Piece) -> Key
    requires { (position (G.history game.now)).rest ≡ Some rest }
    ensures { IsCountKey (position (G.history game.now)) result }
{
    game.lemma_sound();
    if is_untouched(game, rest) {
        return Key::of(game.game_type(), game, game.side(), game.turn(), None);
    }
    game.key()
}
