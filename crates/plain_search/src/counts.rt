//! The number of lists of legal moves (perft).

ghost use Rattle.std.specs.Prelude.{◌≡◌, ◌+◌, ◌*◌, ◌<◌, ◌≤◌, length};
ghost use Rattle.hive_model.specs.Games.{after};
ghost use Rattle.hive_model.specs.Minimax.{lines};
ghost use Rattle.hive_model.specs.Histories.{position};
ghost use Rattle.search_laws.specs.Nodes.{HasRoom, CanReply, AreAsBefore};
ghost use Rattle.plain_search.specs.Known.{AreKnown, AreSymmetriesOf};

use crate::images::{KnownLines, known_count, note, symmetries_of};
use crate::move_counts::MoveCounts;
use crate::replies::lines_of_two;
use hive_model::{Game, Move, MoveStack};
use symmetry::OwnSymmetry;

/// The number of lists of `plies` legal moves, at most 8, that the game can go on with. The last
/// ply is counted, but neither listed nor played. The game and the stack do not change.
pub fn count_lines<G: Game>(
    game: &mut G,
    plies: u32,
    stack: &mut MoveStack,
    counts: &mut MoveCounts,
) -> u128
    requires few { plies ≤ 8 }
    requires spare { plies ≤ (G.history game.old).spare }
    requires room { plies ≤ stack.old.free }
    ensures count { result ≡ lines (position (G.history game.old)) plies }
    ensures game { G.history game.new ≡ G.history game.old }
    ensures stack { stack.new ≡ stack.old }
{
    // the game is sound, so that at most 28 places of its board are occupied
    game.lemma_sound();
    lines_from(game, plies, stack, counts)
}

/// `count_lines`, if so few places are occupied that every list of moves is short. A ply occupies
/// at most two more places.
#[cycle(count)]
fn lines_from<G: Game>(
    game: &mut G,
    plies: u32,
    stack: &mut MoveStack,
    counts: &mut MoveCounts,
) -> u128
    requires deep { plies ≤ 8 }
    requires few { length (position (G.history game.old)).board + 2 * plies ≤ 44 }
    requires room { HasRoom plies (G.history game.old) stack.old }
    ensures count { result ≡ lines (position (G.history game.old)) plies }
    ensures before { AreAsBefore (G.history game.old) (G.history game.new) stack.old stack.new }
{
    if plies == 0 {
        return 1;
    }
    if plies == 1 {
        let count = game.count_moves();
        return count as u128;
    }
    if plies == 2 {
        return lines_of_two(game, stack, counts);
    }
    let own = symmetries_of(game);
    let level = stack.levels();
    game.list(stack);
    let count = stack.level_len(level);
    let mut known = KnownLines::new();
    let mut total = 0;
    for i in 0..count {
        let m = stack.get(level, i);
        let own = own.as_slice();
        total += lines_once(game, m, plies - 1, stack, counts, own, &mut known);
    }
    stack.drop_level();
    total
}

/// `lines_behind`, if it is already known how many lists follow some moves. A move that a symmetry
/// of the position takes to one of these has as many, so that it is not played.
#[cycle(count)]
fn lines_once<G: Game>(
    game: &mut G,
    m: Move,
    plies: u32,
    stack: &mut MoveStack,
    counts: &mut MoveCounts,
    own: &[OwnSymmetry],
    known: &mut KnownLines,
) -> u128
    requires deep { plies < 8 }
    requires few { length (position (G.history game.old)).board + 2 * plies + 2 ≤ 44 }
    requires can { CanReply m plies (G.history game.old) stack.old }
    requires own { AreSymmetriesOf (position (G.history game.old)) own.now }
    requires known { AreKnown (position (G.history game.old)) plies known.old.items }
    ensures count { result ≡ lines (after (position (G.history game.old)) m) plies }
    ensures before { AreAsBefore (G.history game.old) (G.history game.new) stack.old stack.new }
    ensures known { AreKnown (position (G.history game.old)) plies known.new.items }
{
    if own.is_empty() {
        return lines_behind(game, m, plies, stack, counts);
    }
    game.lemma_sound();
    let _few = game.plies();
    if let Some(count) = known_count(own, known.as_slice(), &m) {
        return count;
    }
    let count = lines_behind(game, m.again(), plies, stack, counts);
    note(known, m, count);
    count
}

/// The number of lists of `plies` legal moves that follow this legal move.
#[cycle(count)]
fn lines_behind<G: Game>(
    game: &mut G,
    m: Move,
    plies: u32,
    stack: &mut MoveStack,
    counts: &mut MoveCounts,
) -> u128
    requires deep { plies < 8 }
    requires few { length (position (G.history game.old)).board + 2 * plies + 2 ≤ 44 }
    requires can { CanReply m plies (G.history game.old) stack.old }
    ensures count { result ≡ lines (after (position (G.history game.old)) m) plies }
    ensures before { AreAsBefore (G.history game.old) (G.history game.new) stack.old stack.new }
{
    game.play(m);
    let lines = lines_from(game, plies, stack, counts);
    game.undo();
    lines
}
