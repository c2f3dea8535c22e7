//! Whether a position is worth at least a number to its side to move.

ghost use Rattle.std.specs.Prelude.{◌≡◌, int_le, is_some, IsSome, IsTrue};
ghost use Rattle.hive_model.specs.Minimax.{IsInner, value, reply_value};
ghost use Rattle.hive_model.specs.Histories.{position};
ghost use Rattle.search_laws.specs.Nodes.{HasRoom, IsNode, CanReply, AreAsBefore};
ghost use Rattle.win_solver.specs.Asked.{CanBeAsked};

use crate::facts::{GREATEST_EVALUATION, keep_answer, leaf_reaches, told_by};
use hive_model::{Game, Move, MoveStack};
use search_core::{first_choice, kept_hint};
use value_table::ValueTable;
use win_bounds::{is_far_from_loss, is_far_from_win};

/// What a search for wins needs besides the game: room for the lists of moves by level, and a table
/// of what was found.
#[derive(Drop)]
pub(crate) struct Workspace {
    pub(crate) stack: MoveStack,
    pub(crate) table: ValueTable,
}

/// Whether a position is worth at least `least` to its side to move, with `depth` plies left to
/// search, from 0 to 64. The search leaves a node at the first move that decides it. The table
/// keeps what was found of positions with two or more plies to search. Game and stack are as
/// before.
#[cycle(reaches)]
pub(crate) fn reaches<G: Game>(game: &mut G, depth: u32, least: i32, space: &mut Workspace) -> bool
    requires asked { CanBeAsked least }
    requires room { HasRoom depth (G.history game.old) space.old.stack }
    ensures reached { result ≡ int_le least (value (position (G.history game.old)) depth) }
    ensures before { AreAsBefore (G.history game.old) (G.history game.new)
        space.old.stack space.new.stack }
{
    if let Some(known) = leaf_reaches(game, depth, least) {
        return known;
    }
    if depth == 1 {
        return reaches_at_once(game, least, space);
    }
    let key = game.key();
    let entry = space.table.look(&key, depth);
    if let Some(known) = told_by(&entry, least) {
        return known;
    }
    let hint = kept_hint(&space.table, &key);
    let reply = find_reply(game, depth, least, hint, space);
    keep_answer(&mut space.table, &key, depth, least, reply);
    reply.is_some()
}

/// The same if the game goes on and one ply is left. No move is listed if the board shows that no
/// move wins, or that none loses, and that decides the question.
#[cycle(reaches)]
fn reaches_at_once<G: Game>(game: &mut G, least: i32, space: &mut Workspace) -> bool
    requires asked { CanBeAsked least }
    requires inner { IsInner (position (G.history game.old)) 1 }
    requires room { HasRoom 1 (G.history game.old) space.old.stack }
    ensures reached { result ≡ int_le least (value (position (G.history game.old)) 1) }
    ensures before { AreAsBefore (G.history game.old) (G.history game.new)
        space.old.stack space.new.stack }
{
    if least > GREATEST_EVALUATION && is_far_from_win(game) {
        return false;
    }
    if least <= -GREATEST_EVALUATION && is_far_from_loss(game) {
        return true;
    }
    find_reply(game, 1, least, None, space).is_some()
}

/// A legal move that is worth at least `least` to the side that makes it, if there is one. The game
/// goes on and a ply is left. The hint is tried first.
#[cycle(reaches)]
fn find_reply<G: Game>(
    game: &mut G,
    depth: u32,
    least: i32,
    hint: Option<Move>,
    space: &mut Workspace,
) -> Option<Move>
    requires asked { CanBeAsked least }
    requires inner { IsInner (position (G.history game.old)) depth }
    requires room { HasRoom depth (G.history game.old) space.old.stack }
    ensures found { is_some result ≡ int_le least (value (position (G.history game.old)) depth) }
    ensures before { AreAsBefore (G.history game.old) (G.history game.new)
        space.old.stack space.new.stack }
{
    let level = space.stack.levels();
    game.list(&mut space.stack);
    let reply = first_reply(game, level, depth, least, hint, space);
    space.stack.drop_level();
    reply
}

/// The same if the legal moves are on the level.
#[cycle(reaches)]
fn first_reply<G: Game>(
    game: &mut G,
    level: u32,
    depth: u32,
    least: i32,
    hint: Option<Move>,
    space: &mut Workspace,
) -> Option<Move>
    requires asked { CanBeAsked least }
    requires node { IsNode depth level (G.history game.old) space.old.stack }
    ensures found { is_some result ≡ int_le least (value (position (G.history game.old)) depth) }
    ensures before { AreAsBefore (G.history game.old) (G.history game.new)
        space.old.stack space.new.stack }
{
    let hinted = hinted_reply(game, level, depth, least, hint, space);
    if hinted.is_some() {
        return hinted;
    }
    let count = space.stack.level_len(level);
    for i in 0..count {
        let m = space.stack.get(level, i);
        if reply_reaches(game, m, depth - 1, least, space) {
            space
                .table
                .note_cut(game.plies(), space.stack.get(level, i));
            return Some(space.stack.get(level, i));
        }
    }
    None
}

/// The move to try first, if it is worth at least `least`. It is the hint, or otherwise the killer
/// move: the one that last decided after this number of plies of the game.
#[cycle(reaches)]
fn hinted_reply<G: Game>(
    game: &mut G,
    level: u32,
    depth: u32,
    least: i32,
    hint: Option<Move>,
    space: &mut Workspace,
) -> Option<Move>
    requires asked { CanBeAsked least }
    requires node { IsNode depth level (G.history game.old) space.old.stack }
    ensures found { IsSome result
        → IsTrue (int_le least (value (position (G.history game.old)) depth)) }
    ensures before { AreAsBefore (G.history game.old) (G.history game.new)
        space.old.stack space.new.stack }
{
    let place = first_choice(hint, game, &space.table, &space.stack, level)?;
    if place >= space.stack.level_len(level) {
        return None;
    }
    let m = space.stack.get(level, place);
    if reply_reaches(game, m, depth - 1, least, space) {
        return Some(space.stack.get(level, place));
    }
    None
}

/// Whether a legal move is worth at least `least` to the side that makes it, with `depth` plies of
/// best play after it. The game is as before.
#[cycle(reaches)]
fn reply_reaches<G: Game>(
    game: &mut G,
    m: Move,
    depth: u32,
    least: i32,
    space: &mut Workspace,
) -> bool
    requires asked { CanBeAsked least }
    requires can { CanReply m depth (G.history game.old) space.old.stack }
    ensures reached { result
        ≡ int_le least (reply_value (position (G.history game.old)) depth m) }
    ensures before { AreAsBefore (G.history game.old) (G.history game.new)
        space.old.stack space.new.stack }
{
    game.play(m);
    let answered = reaches(game, depth, 1 - least, space);
    game.undo();
    !answered
}

/// The same as `reaches`, for 1 ply or more. It first searches with fewer plies, so that what it
/// finds says which moves to try first.
pub(crate) fn deepen<G: Game>(game: &mut G, depth: u32, least: i32, space: &mut Workspace) -> bool
    requires asked { CanBeAsked least }
    requires room { HasRoom depth (G.history game.old) space.old.stack }
    ensures reached { result ≡ int_le least (value (position (G.history game.old)) depth) }
    ensures before { AreAsBefore (G.history game.old) (G.history game.new)
        space.old.stack space.new.stack }
{
    for shallow in 1..depth {
        let _ = reaches(game, shallow, least, space);
    }
    reaches(game, depth, least, space)
}
