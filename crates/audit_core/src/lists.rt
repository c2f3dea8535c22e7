//! Lists of moves.
ghost use Rattle.std.specs.Prelude.{◌≡◌, ◌<◌, IfOk, length};
ghost use Rattle.hive_model.specs.Stack.{level_of};
ghost use Rattle.hive_model.specs.Histories.{position, is_move};
ghost use Rattle.hive_model.specs.Legal.{moves};
ghost use Rattle.audit_core.specs.Judging.{has_move, same_moves};

use hive_model::{Game, Move, MoveList, MoveStack};
use std::alloc::{AllocError, Global};

/// Whether the two moves are the same.
fn is_move(m: Move, n: Move) -> bool
    ensures { result ≡ is_move m n }
{
    if m == n {
        return true;
    }
    false
}

/// Whether a move is on a list.
pub(crate) fn has_move(list: &[Move], m: Move) -> bool
    ensures { result ≡ has_move list.now m }
{
    list.iter().any(|n| is_move(m.again(), n.again()))
}

/// Whether two lists have the same moves in the same order.
pub(crate) fn same_moves(moves: &[Move], others: &[Move]) -> bool
    ensures { result ≡ same_moves moves.now others.now }
{
    let mut left = moves;
    let mut right = others;
    'moves: loop {
        match (left.split_first(), right.split_first()) {
            (None, None) => return true,
            (Some((m, ms)), Some((n, ns))) => {
                if !is_move(m.again(), n.again()) {
                    return false;
                }
                left = ms;
                right = ns;
            }
            _ => return false,
        }
    }
}

/// The moves of the first level, in order.
fn level_moves(alloc: Global, stack: &MoveStack) -> Result<MoveList, AllocError>
    requires { 0 < length stack.now.lists }
    ensures { IfOk result (λ l. l ≡ level_of stack.now 0) }
{
    let mut listed = MoveList::new(alloc);
    for i in 0..stack.level_len(0) {
        listed.push(stack.get(0, i))?;
    }
    Ok(listed)
}

/// The legal moves of a game. The game does not change.
pub(crate) fn legal_moves<G: Game>(alloc: Global, game: &mut G) -> Result<MoveList, AllocError>
    ensures listed { IfOk result (λ l. l ≡ moves (position (G.history game.old))) }
    ensures same { G.history game.new ≡ G.history game.old }
{
    let mut stack = MoveStack::new(alloc, 1)?;
    game.list(&mut stack);
    level_moves(alloc, &stack)
}

/// The moves of a game, in order.
pub(crate) fn moves_made<G: Game>(alloc: Global, game: &G) -> Result<MoveList, AllocError>
    ensures { IfOk result (λ l. l ≡ (G.history game.now).made) }
{
    let mut made = MoveList::new(alloc);
    for i in 0..game.plies() {
        made.push(game.move_at(i))?;
    }
    Ok(made)
}
