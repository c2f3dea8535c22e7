//! The work of one worker.

ghost use Rattle.std.specs.Prelude.{◌≡◌, ◌+◌, ◌%◌, ◌<◌, ◌≤◌, length, pos, ◌-ℤ◌, ◌<ℤ◌, ◌≤ℤ◌};
ghost use Rattle.hive_model.specs.Legal.{moves};
ghost use Rattle.hive_model.specs.Games.{after};
ghost use Rattle.hive_model.specs.Minimax.{reply_value, lowest, highest};
ghost use Rattle.hive_model.specs.Costs.{cost, share};
ghost use Rattle.hive_model.specs.Histories.{position};
ghost use Rattle.root_share.specs.Word.{IsSeat};
ghost use Rattle.root_share.specs.Answer.{IsAnswer, IsKnown, tried_cost, child_cost, turns_share};
ghost use Rattle.root_share.specs.Ready.{MayBegin, MayTake};
ghost use Rattle.root_share.specs.Children.{MaySearch, IsBound, IsTested, IsDepth, IsLatest};
ghost use Rattle.root_share.specs.Children.{IsChild, child_worth};
ghost use Rattle.root_share.specs.Taken.{KeepsRoot, IsClosed, HasTried, first_cost};
ghost use Rattle.root_share.specs.Workers.{HasPlayed};

use crate::behind::value_behind;
use crate::beside::{TriedBeside, try_beside};
use crate::candidate::{Candidate, better};
use crate::gate::Gate;
use crate::hint::{first_child, is_ahead};
use crate::win::look_for_win;
use crate::word::{BoundSeat, look, raise};
use crate::work::{Child, RootWork};
use deepening::Searcher;
use hive_model::{Game, Move};
use search_laws::Window;

/// A worker: its own game, and its searcher.
#[derive(Drop)]
pub struct Worker<G> {
    pub game: G,
    pub searcher: Searcher,
}

/// The window in which a child is searched if this is the bound, from the view of the other side.
pub(crate) fn window_behind(bound: i32) -> Window
    requires { IsBound bound }
    ensures alpha { result.alpha ≡ lowest }
    ensures beta { result.beta ≡ pos 1 -ℤ bound }
    ensures open_ { result.alpha <ℤ result.beta }
    ensures highest { result.beta ≤ℤ highest }
{
    Window {
        alpha: -1_000_100,
        beta: 1 - bound,
    }
}

/// The value of a child, searched, if that is at least the bound, and otherwise a number below the
/// bound.
fn value_searched<G: Game>(worker: &mut Worker<G>, m: Move, depth: u32, bound: i32) -> i32
    requires child { MaySearch (G.history worker.old.game) worker.old.searcher m depth }
    requires bound { IsBound bound }
    ensures tested { IsTested (reply_value (position (G.history worker.old.game)) depth m) bound
        result }
    ensures worker { HasPlayed G.history G.played worker.old worker.new
        (tried_cost (position (G.history worker.old.game)) depth m bound) }
{
    worker.game.play(m);
    let behind = window_behind(bound);
    let found = worker.searcher.value_in(&mut worker.game, depth, behind);
    worker.game.undo();
    -found
}

/// The value of a child if that is at least the bound, and otherwise a number below the bound. If
/// only a child that ends the game can reach the bound, it is played but not searched.
fn worth_of<G: Game>(worker: &mut Worker<G>, m: Move, depth: u32, bound: i32) -> i32
    requires child { MaySearch (G.history worker.old.game) worker.old.searcher m depth }
    requires bound { IsBound bound }
    ensures tested { IsTested (reply_value (position (G.history worker.old.game)) depth m) bound
        result }
    ensures worker { HasPlayed G.history G.played worker.old worker.new
        (tried_cost (position (G.history worker.old.game)) depth m bound) }
{
    if bound >= 1_000_000 + depth as i32 {
        return value_behind(&mut worker.game, m, depth, bound);
    }
    value_searched(worker, m, depth, bound)
}

/// Closes a child that was searched. If its value is at least the bound, the bound is raised to it
/// and the child is an answer.
pub(crate) fn settle<G: Game, T>(
    work: &RootWork<'_, G, T>,
    child: &Child,
    bound: i32,
    worth: i32,
    seat: &mut BoundSeat,
) -> Option<Candidate>
    requires seat { IsSeat work.now.word.now.table_id seat.old }
    requires depth { IsDepth seat.old.me.0.root seat.old.me.0.depth work.now.depth }
    requires here { IsChild seat.old.me.0.root child.now }
    requires bound { IsLatest seat.old.me.0.root work.now.depth seat.old.me.0.top bound }
    requires tested { IsTested (child_worth seat.old.me.0.root work.now.depth child.now) bound
        worth }
    ensures closed { IsClosed work.now child.now bound seat.old seat.new result }
{
    if worth < bound {
        return None;
    }
    raise(work.word, seat, worth);
    Some(Candidate {
        child: child.place,
        value: worth,
    })
}

/// Finds the value of a child if that is at least the bound, and raises the bound to it. The child
/// is an answer if its value is found.
pub(crate) fn close_child<G: Game, T>(
    work: &RootWork<'_, G, T>,
    child: &Child,
    bound: i32,
    seat: &mut BoundSeat,
    worker: &mut Worker<G>,
) -> Option<Candidate>
    requires bound { IsLatest seat.old.me.0.root work.now.depth seat.old.me.0.top bound }
    requires may { MayTake G.history work.now child.now worker.old seat.old }
    ensures closed { IsClosed work.now child.now bound seat.old seat.new result }
    ensures worker { HasPlayed G.history G.played worker.old worker.new
        (child_cost seat.old.me.0.root work.now.depth child.now.m bound) }
{
    let worth = worth_of(worker, child.m.again(), work.depth - 1, bound);
    settle(work, child, bound, worth, seat)
}

/// Takes a child: calls the gate, reads the bound, searches, and raises the bound. The child is an
/// answer if its value is found.
fn try_child<G: Game, T: Gate>(
    work: &RootWork<'_, G, T>,
    part: u32,
    child: &Child,
    seat: &mut BoundSeat,
    worker: &mut Worker<G>,
) -> Option<Candidate>
    requires may { MayTake G.history work.now child.now worker.old seat.old }
    ensures closed { IsClosed work.now child.now seat.old.me.0.top seat.old seat.new result }
    ensures worker { HasPlayed G.history G.played worker.old worker.new
        (child_cost seat.old.me.0.root work.now.depth child.now.m seat.old.me.0.top) }
{
    work.gate.before_child(part, child.place);
    let bound = look(work.word, seat);
    close_child(work, child, bound, seat, worker)
}

/// Takes the child with which a worker begins. If it is the one that looks best of all, it is taken
/// as any other, with one addition. After the gate and before the search, the root's move that
/// seems to win at once is played, if the bound is lower than such a win. If it is not the one that
/// looks best of all, it is left once the bound is raised meanwhile.
fn try_first<G: Game, T: Gate>(
    work: &RootWork<'_, G, T>,
    part: u32,
    first: &Child,
    seat: &mut BoundSeat,
    worker: &mut Worker<G>,
) -> TriedBeside
    requires may { MayTake G.history work.now first.now worker.old seat.old }
    ensures tried { HasTried work.now first.now seat.old seat.new result }
    ensures worker { HasPlayed G.history G.played worker.old worker.new
        (first_cost seat.old.me.0.root work.now.depth first.now.m seat.old.me.0.top result) }
{
    let ahead = is_ahead(&mut worker.game, work.root, work.parts, first.place);
    work.gate.before_child(part, first.place);
    if !ahead {
        return try_beside(work, first, seat, worker);
    }
    let bound = look_for_win(work, seat, worker);
    let found = close_child(work, first, bound, seat, worker);
    TriedBeside::Closed { found }
}

/// Tries in order the children whose index leaves the remainder `part` when divided by the parts,
/// except the one at the index `tried`, if the list is that long. The seat already knows a bound
/// for that one, and its turn costs nothing.
fn run_in_turn<G: Game, T: Gate>(
    work: &RootWork<'_, G, T>,
    part: u32,
    tried: u32,
    seat: &mut BoundSeat,
    worker: &mut Worker<G>,
) -> Option<Candidate>
    requires begin { MayBegin G.history work.now worker.old seat.old }
    requires mine { tried < length (moves seat.old.me.0.root) → tried % work.now.parts ≡ part }
    requires known { IsKnown seat.old.me.0.root work.now.depth seat.old.me.0.top tried }
    ensures seat { KeepsRoot work.now seat.old seat.new }
    ensures answer { IsAnswer seat.old.me.0.root work.now.depth
        (λ i. (i % work.now.parts ≡ part) × ¬ (i ≡ tried)) result }
    ensures worker { HasPlayed G.history G.played worker.old worker.new
        (turns_share seat.old.me.0.root work.now.depth part work.now.parts) }
    ensures spared { tried < length (moves seat.old.me.0.root) → G.played worker.new.game + 1
        ≤ G.played worker.old.game
        + turns_share seat.old.me.0.root work.now.depth part work.now.parts }
{
    let count = work.root.level_len(0);
    let mut found: Option<Candidate> = None;
    for place in 0..count {
        if place % work.parts != part {
            continue;
        }
        if place == tried {
            continue;
        }
        let child = Child {
            place,
            m: work.root.get(0, place),
        };
        let answer = try_child(work, part, &child, seat, worker);
        found = better(found, answer);
    }
    found
}

/// Tries each child whose index leaves the remainder `part` when divided by the parts: first the
/// one that looks best, and then the others in order. The worker that has the one that looks best
/// of all first looks for a move of the root that wins at once. Any other worker leaves its first
/// child until its turn, if the bound is raised meanwhile.
pub fn run_one<G: Game, T: Gate>(
    work: &RootWork<'_, G, T>,
    part: u32,
    seat: &mut BoundSeat,
    worker: &mut Worker<G>,
) -> Option<Candidate>
    requires begin { MayBegin G.history work.now worker.old seat.old }
    ensures seat { KeepsRoot work.now seat.old seat.new }
    ensures answer { IsAnswer seat.old.me.0.root work.now.depth (λ i. i % work.now.parts ≡ part)
        result }
    ensures worker { HasPlayed G.history G.played worker.old worker.new
        (share seat.old.me.0.root work.now.depth part work.now.parts) }
{
    let Some(place) = first_child(&mut worker.game, work.root, part, work.parts) else {
        return None;
    };
    let first = Child {
        place,
        m: work.root.get(0, place),
    };
    match try_first(work, part, &first, seat, worker) {
        TriedBeside::Closed { found } => {
            let others = run_in_turn(work, part, place, seat, worker);
            better(found, others)
        }
        TriedBeside::Left => {
            let none = work.root.level_len(0);
            run_in_turn(work, part, none, seat, worker)
        }
    }
}
