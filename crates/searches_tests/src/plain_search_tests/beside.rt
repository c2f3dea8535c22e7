//! Alpha-beta against minimax: the answers of `search` in several windows, and the value of the
//! position.

ghost use Rattle.std.specs.Prelude.{◌≡◌, ◌≤◌};
ghost use Rattle.hive_model.specs.Histories.{position};
ghost use Rattle.hive_model.specs.Legal as rules;

use crate::plain_search_tests::worth;
use deepening::Searcher;
use game_text::{played, read_game};
use hive_model::{Game, MoveStack, State};
use io_edge::StepClock;
use plain_game::PlainGame;
use search_core::{Node, Ticker, Window, Workspace, search};
use std::alloc::{AllocError, Global};
use std::test::Fail;
use value_table::ValueTable;

/// Games, and how many plies are searched from their ends.
const POSITIONS: [(&str, u32); 7] = [
    // the opening
    ("Base+MLP", 3),
    // throws of the side's own pieces and of the other side's
    (
        "Base+P;InProgress;White[5];wS1;bS1 wS1-;wQ -wS1;bQ bS1-;wP -wQ;bG1 bQ-;wA1 -wP;bA1 bG1-",
        2,
    ),
    // a piece that was thrown rests
    (
        "Base+P;InProgress;Black[4];wP;bA1 wP-;wQ -wP;bQ bA1/;wS1 -wQ;bQ wP/;bA1 wP\\",
        3,
    ),
    // stacks; black can only pass
    (
        concat!(
            "Base;InProgress;Black[6];wB1;bS1 wB1-;wQ \\wB1;bQ bS1-;wQ wB1/;bQ bS1\\;",
            "wB1 wQ\\;bQ wB1-;wB2 /wB1;bQ wB2-;wB2 bQ",
        ),
        3,
    ),
    // one move wins
    (
        concat!(
            "Base;InProgress;White[7];wS1;bS1 wS1-;wQ /wS1;bQ bS1-;wQ /bS1;bQ wQ-;wG1 -wS1;",
            "bG1 bS1-;wB1 /wQ;bB1 bQ-;wA1 -wB1;bA1 /bB1",
        ),
        3,
    ),
    // black has lost
    (
        concat!(
            "Base;WhiteWins;Black[7];wS1;bS1 wS1-;wQ /wS1;bQ bS1-;wQ /bS1;bQ wQ-;wG1 -wS1;",
            "bG1 bS1-;wB1 /wQ;bB1 bQ-;wA1 -wB1;bA1 /bB1;wA1 wB1-",
        ),
        3,
    ),
    // a draw
    (
        concat!(
            "Base;Draw;Black[7];wS1;bS1 wS1-;wQ /wS1;bQ bS1-;wQ wS1\\;bQ bS1\\;wG1 -wQ;",
            "bG1 bS1-;wB1 wG1\\;bB1 bQ-;wA1 -wB1;bA1 bQ\\;wA1 wQ\\",
        ),
        3,
    ),
];

/// The game of a text, if it is one.
pub(super) fn game_of(alloc: Global, text: &str) -> Result<Option<PlainGame>, AllocError> {
    if text.len() > 1000 {
        return Ok(None);
    }
    let Ok(parsed) = read_game::<PlainGame>(alloc, text.as_bytes()) else {
        return Ok(None);
    };
    let game = played(alloc, parsed.game_type, parsed.moves.items(), 0)?;
    Ok(Some(game))
}

/// Whether the answer is right for the window. Strictly inside the window it is the value; at or
/// below the lower end it is an upper bound of the value, and at or above the upper end a lower
/// bound.
fn is_found(value: i32, window: Window, answer: i32) -> bool {
    if answer <= window.alpha {
        return value <= answer;
    }
    if answer >= window.beta {
        return answer <= value;
    }
    answer == value
}

/// Whether `search` answers as it should in the window with these ends, for a position that is
/// worth `value`.
fn answers_right(
    game: &mut PlainGame,
    depth: u32,
    value: i32,
    ends: (i32, i32),
    work: &mut Workspace,
) -> Result<bool, AllocError>
    requires { depth ≤ 3 }
{
    let (alpha, beta) = ends;
    if alpha < -1_000_100 || alpha >= beta || beta > 1_000_100 {
        return Ok(false);
    }
    if game.plies() > 100 || work.stack.free_levels() < depth {
        return Ok(false);
    }
    game.reserve(depth)?;
    let window = Window { alpha, beta };
    let mut clock = StepClock::new(0, 1);
    match search(game, Node { depth, window }, work, &mut clock) {
        Some(answer) => Ok(is_found(value, window, answer)),
        None => Ok(false),
    }
}

/// The ends of the first of some windows in which the answer is wrong.
fn first_wrong(
    alloc: Global,
    game: &mut PlainGame,
    depth: u32,
) -> Result<Option<(i32, i32)>, AllocError>
    requires { depth ≤ 3 }
{
    let Some(value) = worth(alloc, game, depth)? else {
        return Ok(Some((0, 0)));
    };
    let stack = MoveStack::new(alloc, 3)?;
    let table = ValueTable::new(alloc, 1024)?;
    let mut work = Workspace::new(stack, table, Ticker::free());
    for ends in [
        (-1_000_100, 1_000_100),
        (-1, 1),
        (-40, 40),
        (8, 1_000_001),
        (-1_000_001, -8),
        (value.saturating_sub(1), value.saturating_add(1)),
        (value, value.saturating_add(1)),
        (value.saturating_sub(1), value),
    ] {
        if !answers_right(game, depth, value, ends, &mut work)? {
            return Ok(Some(ends));
        }
    }
    Ok(None)
}

/// Whether the game is over.
pub(crate) fn is_over(game: &PlainGame) -> bool
    ensures { result ≡ rules.is_over (position game.now.history) }
{
    match game.state() {
        State::NotStarted | State::InProgress => false,
        State::Draw | State::WhiteWins | State::BlackWins => true,
    }
}

/// The value that a searcher finds for the best move, and its answer in the widest window; `None`
/// if the game cannot go on.
fn by_searcher(
    alloc: Global,
    game: &mut PlainGame,
    depth: u32,
) -> Result<Option<(i32, i32)>, AllocError>
    requires some { 1 ≤ depth }
    requires few { depth ≤ 3 }
{
    if game.plies() > 100 || is_over(game) {
        return Ok(None);
    }
    game.reserve(depth)?;
    let mut searcher = Searcher::prepare(alloc, 65536, 3)?;
    let best = searcher.best_at(game, depth);
    let widest = Window {
        alpha: -1_000_100,
        beta: 1_000_100,
    };
    Ok(Some((best.value, searcher.value_in(game, depth, widest))))
}

/// The value of the game of a text at this depth, and what a searcher finds there; `None` if it is
/// no game.
fn worth_and_found(
    alloc: Global,
    text: &str,
    depth: u32,
) -> Result<Option<(i32, Option<(i32, i32)>)>, AllocError>
    requires some { 1 ≤ depth }
    requires few { depth ≤ 3 }
{
    let Some(mut game) = game_of(alloc, text)? else {
        return Ok(None);
    };
    let Some(value) = worth(alloc, &mut game, depth)? else {
        return Ok(None);
    };
    let found = by_searcher(alloc, &mut game, depth)?;
    Ok(Some((value, found)))
}

#[test]
fn searcher_beside_minimax(rt: HostRuntime) -> Result<(), Fail> {
    let (value, found) = worth_and_found(rt.alloc(), POSITIONS[3].0, 3)?.ok_or("a game")?;
    assert_eq!(rt; found, Some((value, value)));
    let (value, found) = worth_and_found(rt.alloc(), POSITIONS[4].0, 2)?.ok_or("a game")?;
    assert_eq!(rt; found, Some((value, value)));
    let mut over = game_of(rt.alloc(), POSITIONS[6].0)?.ok_or("a draw")?;
    assert_eq!(rt; by_searcher(rt.alloc(), &mut over, 1)?, None);
    Ok(())
}

#[test]
fn search_beside_minimax(rt: HostRuntime) -> Result<(), Fail> {
    for (text, deepest) in POSITIONS {
        let mut game = game_of(rt.alloc(), text)?.ok_or(text)?;
        for depth in 1..4 {
            if depth <= deepest {
                let wrong = first_wrong(rt.alloc(), &mut game, depth)?;
                assert_eq!(rt; wrong, None, "{text} at depth {depth}");
            }
        }
    }
    Ok(())
}
