//! The walk of a claim over the legal moves.

ghost use Rattle.std.specs.Prelude.{◌≡◌, ◌-◌, ◌<◌, ◌≤◌, length, slice_get};
ghost use Rattle.hive_model.specs.Legal.{moves};
ghost use Rattle.hive_model.specs.Games.{after};
ghost use Rattle.hive_model.specs.Minimax.{IsInner, value};
ghost use Rattle.hive_model.specs.Histories.{position};
ghost use Rattle.search_laws.specs.Laws.{IsSmall};
ghost use Rattle.search_laws.specs.Nodes.{CanReply, HasRoom};
ghost use Rattle.certificate_walks.specs.Claims.{HasReplies};
ghost use Rattle.certificate_walks.specs.Limits.{Keeps, EachKeeps, is_kept, number};
ghost use Rattle.certificate_walks.specs.Walks.{goes_below, walk, walk_all};
ghost use Rattle.certificate_walks.specs.Follows.{Follows, range_of};
ghost use Rattle.certificate_walks.specs.Parts.{IsPart, ending_of, leaf_walked};
ghost use Rattle.certificate_walks.specs.declared.limit.Limit.TheVariants.{AtMost, AtLeast};

use crate::limit::Limit;
use crate::walker::{Took, Walked, Walker};
use hive_model::{Game, Move, MoveStack};
use search_laws::leaf_value;

/// Whether the value keeps to the limit.
fn leaf_answer<S>(limit: Limit, worth: i32) -> Walked<S>
    ensures kept { result ≡ Walked.Done → Keeps limit worth }
    ensures answer { result ≡ leaf_walked (is_kept limit worth) }
{
    let kept = match limit {
        Limit::AtMost(most) => worth <= most,
        Limit::AtLeast(least) => least <= worth,
    };
    if kept {
        Walked::Done
    } else {
        Walked::LeafFails
    }
}

/// The legal move at this place, counted from 0, or `None` if there is no such place. Game and
/// stack are as before.
fn move_at<G: Game>(game: &mut G, place: u32, stack: &mut MoveStack) -> Option<Move>
    requires { 1 ≤ stack.old.free }
    ensures move_ { result ≡ slice_get (moves (position (G.history game.old))) place }
    ensures game { G.history game.new ≡ G.history game.old }
    ensures stack { stack.new ≡ stack.old }
{
    let level = stack.levels();
    game.list(stack);
    let found = if place < stack.level_len(level) {
        Some(stack.get(level, place))
    } else {
        None
    };
    stack.drop_level();
    found
}

/// Walks a claim of the value of the position with `depth` plies left, from 0 to 64. Game and stack
/// are as before.
#[cycle(walk)]
pub fn walk_claim<G: Game, W: Walker>(
    game: &mut G,
    depth: u32,
    limit: Limit,
    walker: &mut W,
    stack: &mut MoveStack,
) -> Walked<W::Stop>
    requires small { IsSmall 1000100 (number limit) }
    requires room { HasRoom depth (G.history game.old) stack.old }
    ensures shown { W.is_true walker.old → result ≡ Walked.Done
        → Keeps limit (value (position (G.history game.old)) depth) }
    ensures true_ { W.is_true walker.old → W.is_true walker.new }
    ensures told { Follows W.sight (walk W.rules (position (G.history game.old)) depth limit)
        (W.seen walker.old) (ending_of W.rules W.ending result) (W.seen walker.new) }
    ensures part { IsPart W.parts result walker.old walker.new }
    ensures game { G.history game.new ≡ G.history game.old }
    ensures stack { stack.new ≡ stack.old }
{
    if let Some(worth) = leaf_value(game, depth) {
        return leaf_answer(limit, worth);
    }
    match limit {
        Limit::AtMost(most) => walk_every(game, depth, most, walker, stack),
        Limit::AtLeast(least) => match walker.take(game, depth, least, stack) {
            Took::Below(place) => walk_below(game, place, depth, least, walker, stack),
            Took::Shown => Walked::Done,
            Took::Stops(stop) => Walked::Stops(stop),
        },
    }
}

/// Walks a claim of at most `most`, if the game goes on and a ply is left: a claim for each move.
#[cycle(walk)]
fn walk_every<G: Game, W: Walker>(
    game: &mut G,
    depth: u32,
    most: i32,
    walker: &mut W,
    stack: &mut MoveStack,
) -> Walked<W::Stop>
    requires inner { IsInner (position (G.history game.old)) depth }
    requires small { IsSmall 1000100 most }
    requires room { HasRoom depth (G.history game.old) stack.old }
    ensures shown { W.is_true walker.old → result ≡ Walked.Done
        → Keeps (AtMost most) (value (position (G.history game.old)) depth) }
    ensures true_ { W.is_true walker.old → W.is_true walker.new }
    ensures told { Follows W.sight
        (walk W.rules (position (G.history game.old)) depth (AtMost most))
        (W.seen walker.old) (ending_of W.rules W.ending result) (W.seen walker.new) }
    ensures part { IsPart W.parts result walker.old walker.new }
    ensures game { G.history game.new ≡ G.history game.old }
    ensures stack { stack.new ≡ stack.old }
{
    let level = stack.levels();
    game.list(stack);
    let count = stack.level_len(level);
    let least = Limit::AtLeast(-most);
    let walked = walk_moves(game, level, 0, count, depth - 1, least, walker, stack);
    stack.drop_level();
    walked
}

/// Walks a claim of at least `least`, once the place of a move was taken: a claim for that move.
#[cycle(walk)]
fn walk_below<G: Game, W: Walker>(
    game: &mut G,
    place: u32,
    depth: u32,
    least: i32,
    walker: &mut W,
    stack: &mut MoveStack,
) -> Walked<W::Stop>
    requires inner { IsInner (position (G.history game.old)) depth }
    requires small { IsSmall 1000100 least }
    requires room { HasRoom depth (G.history game.old) stack.old }
    ensures shown { W.is_true walker.old → result ≡ Walked.Done
        → Keeps (AtLeast least) (value (position (G.history game.old)) depth) }
    ensures true_ { W.is_true walker.old → W.is_true walker.new }
    ensures told { Follows W.sight
        (goes_below W.rules (position (G.history game.old)) depth least place)
        (W.seen walker.old) (ending_of W.rules W.ending result) (W.seen walker.new) }
    ensures part { IsPart W.parts result walker.old walker.new }
    ensures game { G.history game.new ≡ G.history game.old }
    ensures stack { stack.new ≡ stack.old }
{
    let Some(m) = move_at(game, place, stack) else {
        return Walked::BadIndex;
    };
    let walked = walk_child(game, m, depth - 1, Limit::AtMost(-least), walker, stack);
    if !walked.is_done() {
        return walked;
    }
    walker.keep(game, depth, least);
    Walked::Done
}

/// Walks the same claim for each move of a level at places from `from` to `to - 1`, with `depth`
/// plies left after each.
#[cycle(walk)]
pub(crate) fn walk_moves<G: Game, W: Walker>(
    game: &mut G,
    level: u32,
    from: u32,
    to: u32,
    depth: u32,
    limit: Limit,
    walker: &mut W,
    stack: &mut MoveStack,
) -> Walked<W::Stop>
    requires replies { HasReplies depth level (G.history game.old) stack.old }
    requires small { IsSmall 1000100 (number limit) }
    requires before { to ≤ length (moves (position (G.history game.old))) }
    ensures shown { W.is_true walker.old → result ≡ Walked.Done
        → EachKeeps (position (G.history game.old)) depth limit
        (range_of (moves (position (G.history game.old))) from to) }
    ensures true_ { W.is_true walker.old → W.is_true walker.new }
    ensures told { Follows W.sight
        (walk_all (λ m. walk W.rules (after (position (G.history game.old)) m) depth limit)
        (range_of (moves (position (G.history game.old))) from to))
        (W.seen walker.old) (ending_of W.rules W.ending result) (W.seen walker.new) }
    ensures part { IsPart W.parts result walker.old walker.new }
    ensures game { G.history game.new ≡ G.history game.old }
    ensures stack { stack.new ≡ stack.old }
{
    for i in from..to {
        let m = stack.get(level, i);
        let walked = walk_child(game, m, depth, limit, walker, stack);
        if !walked.is_done() {
            return walked;
        }
    }
    Walked::Done
}

/// Walks a claim of the value after a legal move, with `depth` plies left after it.
#[cycle(walk)]
pub(crate) fn walk_child<G: Game, W: Walker>(
    game: &mut G,
    m: Move,
    depth: u32,
    limit: Limit,
    walker: &mut W,
    stack: &mut MoveStack,
) -> Walked<W::Stop>
    requires can { CanReply m depth (G.history game.old) stack.old }
    requires small { IsSmall 1000100 (number limit) }
    ensures shown { W.is_true walker.old → result ≡ Walked.Done
        → Keeps limit (value (after (position (G.history game.old)) m) depth) }
    ensures true_ { W.is_true walker.old → W.is_true walker.new }
    ensures told { Follows W.sight
        (walk W.rules (after (position (G.history game.old)) m) depth limit)
        (W.seen walker.old) (ending_of W.rules W.ending result) (W.seen walker.new) }
    ensures part { IsPart W.parts result walker.old walker.new }
    ensures game { G.history game.new ≡ G.history game.old }
    ensures stack { stack.new ≡ stack.old }
{
    game.play(m);
    let walked = walk_claim(game, depth, limit, walker, stack);
    game.undo();
    walked
}
