//! The points of a game for each side, and for an engine.

ghost use Rattle.std.specs.Prelude.{◌≡◌, ◌<◌, ◌≤◌, length, slice_get, Some, if◌then◌else◌};
ghost use Rattle.std.specs.List.{sum_by, zip};
ghost use Rattle.match_core.specs.declared.verdict.Verdict.{Verdict as AnyVerdict};
ghost use Rattle.cup.specs.Cup.{winner, state_winner, points_of, gets, plays};

use crate::pairing::Pairing;
use hive_model::{Colour, State};
use match_core::Verdict;

/// The side that won a match, by the rules or because the other side forfeited.
fn winner(verdict: &Verdict) -> Option<Colour>
    ensures { result ≡ winner verdict.now }
{
    match verdict {
        Verdict::Rules { state } => winner_of(*state),
        Verdict::Limit => None,
        Verdict::Forfeit { side, .. } => Some(side.other()),
    }
}

/// The side that won by the rules.
fn winner_of(state: State) -> Option<Colour>
    ensures { result ≡ state_winner state }
{
    match state {
        State::WhiteWins => Some(Colour::White),
        State::BlackWins => Some(Colour::Black),
        State::NotStarted | State::InProgress | State::Draw => None,
    }
}

/// The points of a side for a match: 2 if it won, 0 if the other side won, and 1 if neither did.
pub fn points_of(verdict: &Verdict, side: Colour) -> u32
    ensures points { result ≡ points_of verdict.now side }
    ensures few { result ≤ 2 }
{
    match winner(verdict) {
        None => 1,
        Some(winner) => { if winner == side { 2 } else { 0 } }
    }
}

/// The points of a side, if the engine plays it; otherwise 0.
fn points_if(plays: bool, verdict: &Verdict, side: Colour) -> u32
    ensures points { result ≡ (if plays then points_of verdict.now side else 0) }
    ensures few { result ≤ 2 }
{
    if plays { points_of(verdict, side) } else { 0 }
}

/// The points of an engine for one game.
fn gets(engine: u32, game: &Pairing, verdict: &Verdict) -> u32
    ensures points { result ≡ gets engine (game.now, verdict.now) }
    ensures few { result ≤ 4 }
{
    let white = points_if(game.white == engine, verdict, Colour::White);
    let black = points_if(game.black == engine, verdict, Colour::Black);
    white + black
}

/// The points of an engine for the game at a place.
fn gets_at(engine: u32, games: &[Pairing], verdicts: &[Verdict], i: usize) -> u32
    requires game { i < length games.now }
    requires verdict { i < length verdicts.now }
    ensures points { (g : Pairing) (v : AnyVerdict) → slice_get games.now i ≡ Some g
        → slice_get verdicts.now i ≡ Some v → result ≡ gets engine (g, v) }
    ensures few { result ≤ 4 }
{
    gets(engine, &games[i], &verdicts[i])
}

/// The points of an engine in games with these verdicts.
pub(crate) fn all_points(engine: u32, games: &[Pairing], verdicts: &[Verdict]) -> u32
    requires same { length games.now ≡ length verdicts.now }
    requires few { length games.now ≤ 56 }
    ensures { result ≡ sum_by (gets engine) (zip games.now verdicts.now) }
{
    let mut points = 0;
    for i in 0..games.len() {
        points += gets_at(engine, games, verdicts, i);
    }
    points
}

/// In how many of the games an engine plays.
pub(crate) fn all_games(engine: u32, games: &[Pairing]) -> u32
    requires few { length games.now ≤ 56 }
    ensures { result ≡ sum_by (plays engine) games.now }
{
    let mut count = 0;
    for i in 0..games.len() {
        count += plays(engine, games[i]);
    }
    count
}

/// 1 if the engine plays in the game, otherwise 0.
fn plays(engine: u32, game: Pairing) -> u32
    ensures count { result ≡ plays engine game }
    ensures few { result ≤ 1 }
{
    if game.white == engine || game.black == engine {
        1
    } else {
        0
    }
}
