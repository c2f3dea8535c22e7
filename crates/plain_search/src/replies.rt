//! The number of lists of two legal moves. Placements on one place that have the same replies are
//! counted once.

ghost use Rattle.std.specs.Prelude.{
  ◌≡◌,
  ◌⊎◌,
  ℕ,
  ◌+◌,
  ◌≤◌,
  Some,
  IsTrue,
  IfSome,
  length,
  slice_get,
};
ghost use Rattle.std.specs.Option.{ForSome};
ghost use Rattle.hive_model.specs.Lists.{IsOn};
ghost use Rattle.hive_model.specs.Places.{IsWithin};
ghost use Rattle.hive_model.specs.Legal.{moves};
ghost use Rattle.hive_model.specs.Games.{after, moved};
ghost use Rattle.hive_model.specs.Minimax.{lines};
ghost use Rattle.hive_model.specs.Histories.{position};
ghost use Rattle.search_laws.specs.Nodes.{HasRoom, AreAsBefore};
ghost use Rattle.plain_search.specs.declared.replies.Counted.{Counted as AnyCounted};
ghost use Rattle.plain_search.specs.Replies.{their_mosquito, IsPlainPlacement, AreCounted};

use crate::awake::count_key;
use crate::move_counts::MoveCounts;
use arrayvec::ArrayVec;
use hive_model::{Game, Kind, Move, MoveStack, Piece, Place};

/// The number of replies to a placement on the place of any piece but a queen.
#[derive(Clone, Copy, Default)]
struct Counted {
    place: Place,
    replies: u32,
}

/// What was counted in one position. If there are more than 64 places, the first of them are known.
type CountedPlaces = ArrayVec<Counted, 64>;

/// The number of lists of two legal moves that the game can go on with. The game and the stack do
/// not change.
pub fn lines_of_two<G: Game>(game: &mut G, stack: &mut MoveStack, counts: &mut MoveCounts) -> u128
    requires few { length (position (G.history game.old)).board + 4 ≤ 44 }
    requires room { HasRoom 2 (G.history game.old) stack.old }
    ensures count { result ≡ lines (position (G.history game.old)) 2 }
    ensures before { AreAsBefore (G.history game.old) (G.history game.new) stack.old stack.new }
{
    let level = stack.levels();
    game.list(stack);
    let count = stack.level_len(level);
    let mosquito = their_mosquito(game);
    let mut counted = CountedPlaces::new();
    let mut total = 0;
    for i in 0..count {
        let m = stack.get(level, i);
        total += replies_to(game, m, mosquito, &mut counted, counts) as u128;
    }
    stack.drop_level();
    total
}

/// The place of the mosquito of the side that is not to move, if it is on the board.
fn their_mosquito<G: Game>(game: &G) -> Option<Place>
    ensures place { result ≡ their_mosquito (position (G.history game.now)) }
    ensures within { IfSome result (λ r. IsWithin 9000 r) }
{
    let Some(mosquito) = Piece::new(game.side().other(), Kind::Mosquito, 0) else {
        return None;
    };
    let Some(spot) = game.spot(mosquito) else {
        return None;
    };
    Some(spot.place)
}

/// The number of replies to a legal move. The game does not change.
fn replies_to<G: Game>(
    game: &mut G,
    m: Move,
    mosquito: Option<Place>,
    counted: &mut CountedPlaces,
    counts: &mut MoveCounts,
) -> u32
    requires legal { IsOn (moves (position (G.history game.old))) m }
    requires spare { 1 ≤ (G.history game.old).spare }
    requires mosquito { mosquito ≡ their_mosquito (position (G.history game.old)) }
    requires within { ForSome mosquito (λ r. IsWithin 9000 r) }
    requires known { AreCounted (position (G.history game.old)) counted.old.items }
    ensures count { result ≡ length (moves (after (position (G.history game.old)) m)) }
    ensures game { G.history game.new ≡ G.history game.old }
    ensures known { AreCounted (position (G.history game.old)) counted.new.items }
{
    if let Move::To { piece, place } = m {
        if is_plain(game, piece, place, mosquito) {
            return replies_to_plain(game, piece, place, counted, counts);
        }
    }
    replies_after(game, m, counts)
}

/// Whether the piece is in hand and not a queen, and the place is not beside the other side's
/// mosquito.
fn is_plain<G: Game>(game: &G, piece: Piece, place: Place, mosquito: Option<Place>) -> bool
    requires mosquito { mosquito ≡ their_mosquito (position (G.history game.now)) }
    requires within { ForSome mosquito (λ r. IsWithin 9000 r) }
    ensures { IsTrue result → IsPlainPlacement (position (G.history game.now)) piece place }
{
    if piece.kind().is(Kind::Queen) {
        return false;
    }
    if game.spot(piece).is_some() {
        return false;
    }
    let Some(from) = mosquito else {
        return true;
    };
    from.towards(place).is_none()
}

/// The number of replies to a plain placement: as many as to another one that was counted on the
/// place.
fn replies_to_plain<G: Game>(
    game: &mut G,
    piece: Piece,
    place: Place,
    counted: &mut CountedPlaces,
    counts: &mut MoveCounts,
) -> u32
    requires legal { IsOn (moves (position (G.history game.old))) (Move.To piece place) }
    requires spare { 1 ≤ (G.history game.old).spare }
    requires plain { IsPlainPlacement (position (G.history game.old)) piece place }
    requires known { AreCounted (position (G.history game.old)) counted.old.items }
    ensures count { result ≡ length (moves (after (position (G.history game.old))
        (Move.To piece place))) }
    ensures game { G.history game.new ≡ G.history game.old }
    ensures known { AreCounted (position (G.history game.old)) counted.new.items }
{
    if let Some(replies) = replies_known(counted.as_slice(), place) {
        return replies;
    }
    game.lemma_sound();
    let replies = replies_after(game, Move::To { piece, place }, counts);
    note(counted, place, replies);
    replies
}

/// The number of replies to a placement on the place, if it was counted.
fn replies_known(counted: &[Counted], place: Place) -> Option<u32>
    ensures { IfSome result (λ n. (i : ℕ) × (slice_get counted.now i
        ≡ Some (record { place = place; replies = n }))) }
{
    for known in counted {
        if known.place.is(place) {
            return Some(known.replies);
        }
    }
    None
}

/// Stores the number of replies to a placement on the place, if there is room.
fn note(counted: &mut CountedPlaces, place: Place, replies: u32)
    ensures { (i : ℕ) (e : AnyCounted) → slice_get counted.new.items i ≡ Some e
        → (slice_get counted.old.items i ≡ Some e)
        ⊎ (e ≡ record { place = place; replies = replies }) }
{
    let _ = counted.try_push(Counted { place, replies });
}

/// The number of replies to a legal move: counted after it, or looked up if the position was met
/// before.
fn replies_after<G: Game>(game: &mut G, m: Move, counts: &mut MoveCounts) -> u32
    requires legal { IsOn (moves (position (G.history game.old))) m }
    requires spare { 1 ≤ (G.history game.old).spare }
    ensures count { result ≡ length (moves (after (position (G.history game.old)) m)) }
    ensures game { G.history game.new ≡ G.history game.old }
{
    game.play(m.again());
    let replies = count_once(game, &m, counts);
    game.undo();
    replies
}

/// The number of legal moves after this move, looked up if a position with the same key was met
/// before. The game does not change.
fn count_once<G: Game>(game: &mut G, m: &Move, counts: &mut MoveCounts) -> u32
    requires { (position (G.history game.old)).rest ≡ moved m.now }
    ensures count { result ≡ length (moves (position (G.history game.old))) }
    ensures game { G.history game.new ≡ G.history game.old }
{
    let Move::To { piece, .. } = *m else {
        return game.count_moves();
    };
    if !counts.has_room() {
        return game.count_moves();
    }
    let key = count_key(game, piece);
    let place = counts.place_of(&key);
    game.lemma_sound();
    if let Some(known) = counts.look(place, &key) {
        return known;
    }
    let count = game.count_moves();
    counts.keep(place, key, count);
    count
}
