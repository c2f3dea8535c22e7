//! The lines of a game, and those of the standings.
ghost use Rattle.std.specs.Prelude.{◌≡◌, ◌≤◌, ◌++◌, decimal, length, map, OnOk, IfOk};
ghost use Rattle.std.specs.List.{flat_map};
ghost use Rattle.hive_model.specs.Games.{IsGame};
ghost use Rattle.hive_model.specs.Histories.{most_plies};
ghost use Rattle.cup.specs.Cup.{state_winner};
ghost use Rattle.match_command.specs.Texts.{ending_text, shown};
ghost use Rattle.cup_command.specs.Texts.{text_of};
ghost use Rattle.tournament_games.specs.Texts.{
  absence_outcome,
  absence_text,
  drawn,
  end_by,
  end_in,
  ends_text,
  forfeited_by,
  game_line,
  match_outcome,
  numbers_text,
  standing_text,
  verdict_line,
};

use crate::outcome::ToldGame;
use cup::Program;
use game_text::{played, write_game_under};
use hive_model::{Colour, Game, Move, ReplyText, State};
use match_command::{write_ending, write_number, write_shown};
use match_core::{Referee, Setup, Verdict};
use std::alloc::{AllocError, Global};
use tournament_core::{Fixture, GameEnd, Standing as Place};

/// A game that neither side won.
pub(crate) fn drawn() -> GameEnd
    ensures { result ≡ drawn }
{
    GameEnd {
        winner: None,
        forfeited: false,
    }
}

/// A game that a side lost by forfeit.
pub(crate) fn forfeited_by(side: Colour) -> GameEnd
    ensures { result ≡ forfeited_by side }
{
    GameEnd {
        winner: Some(side.other()),
        forfeited: true,
    }
}

/// The side that won by the rules.
fn winner_of(state: State) -> Option<Colour>
    ensures { result ≡ state_winner state }
{
    match state {
        State::WhiteWins => Some(Colour::White),
        State::BlackWins => Some(Colour::Black),
        State::NotStarted | State::InProgress | State::Draw => None,
    }
}

/// How a match ended.
fn end_by(verdict: &Verdict) -> GameEnd
    ensures { result ≡ end_by verdict.now }
{
    match verdict {
        Verdict::Rules { state } => GameEnd {
            winner: winner_of(*state),
            forfeited: false,
        },
        Verdict::Limit => drawn(),
        Verdict::Forfeit { side, .. } => forfeited_by(*side),
    }
}

/// How a match ended, if it has a verdict; otherwise it counts as drawn.
fn end_in<G: Game + Drop>(referee: &Referee<G>) -> GameEnd
    ensures { result ≡ end_in referee.now.verdict }
{
    match referee.verdict() {
        Some(verdict) => end_by(verdict),
        None => drawn(),
    }
}

/// Appends the number of a game and those of its engines, each with a space.
fn write_numbers(out: &mut ReplyText, number: u64, fixture: Fixture) -> Result<(), AllocError>
    ensures { OnOk result (out.new ≡ out.old ++ numbers_text number fixture) }
{
    write_number(out, number)?;
    out.push(b' ')?;
    write_number(out, u64::from(fixture.white))?;
    out.push(b' ')?;
    write_number(out, u64::from(fixture.black))?;
    out.push(b' ')
}

/// Appends the line of a game.
fn write_game<G: Game + Drop>(
    alloc: Global,
    out: &mut ReplyText,
    setup: Setup,
    number: u64,
    fixture: Fixture,
    game: &G,
) -> Result<(), AllocError>
    requires { (G.history game.now).game_type ≡ setup.game_type }
    ensures { OnOk result (out.new
        ≡ out.old ++ game_line setup number fixture (G.history game.now).made) }
{
    out.push_all(b"game ")?;
    write_numbers(out, number, fixture)?;
    write_game_under(alloc, game, setup.repetition, out)?;
    out.push(b'\n')
}

/// Appends the verdict of a match, as a line.
fn write_verdict<G: Game + Drop>(
    out: &mut ReplyText,
    setup: Setup,
    number: u64,
    fixture: Fixture,
    referee: &Referee<G>,
) -> Result<(), AllocError>
    ensures { OnOk result (out.new
        ≡ out.old ++ verdict_line number fixture (ending_text setup referee.now.verdict)) }
{
    out.push_all(b"verdict ")?;
    write_numbers(out, number, fixture)?;
    write_ending(out, setup, referee)?;
    out.push(b'\n')
}

/// Appends that a side's program could not be started.
fn write_absence(out: &mut ReplyText, side: Colour) -> Result<(), AllocError>
    ensures { OnOk result (out.new ≡ out.old ++ absence_text side) }
{
    match side {
        Colour::White => out.push_all(b"forfeit white nostart"),
        Colour::Black => out.push_all(b"forfeit black nostart"),
    }
}

/// Appends the verdict of a game for which a program could not be started, as a line.
fn write_forfeit(
    out: &mut ReplyText,
    number: u64,
    fixture: Fixture,
    side: Colour,
) -> Result<(), AllocError>
    ensures { OnOk result (out.new
        ≡ out.old ++ verdict_line number fixture (absence_text side)) }
{
    out.push_all(b"verdict ")?;
    write_numbers(out, number, fixture)?;
    write_absence(out, side)?;
    out.push(b'\n')
}

/// The outcome of a game with a match that was run.
pub(crate) fn tell_match<G: Game + Drop>(
    alloc: Global,
    setup: Setup,
    number: u64,
    fixture: Fixture,
    referee: &Referee<G>,
) -> Result<ToldGame, AllocError>
    requires { referee.now.setup.game_type ≡ setup.game_type }
    ensures { IfOk result (λ told. told ≡ match_outcome setup number fixture referee.now) }
{
    let mut text = ReplyText::new(alloc);
    write_game(alloc, &mut text, setup, number, fixture, referee.game())?;
    write_verdict(&mut text, setup, number, fixture, referee)?;
    Ok(ToldGame {
        text,
        ended: end_in(referee),
    })
}

/// The outcome of a game for which a side's program could not be started: the moves of its opening,
/// and the forfeit.
pub(crate) fn tell_absence<G: Game + Drop>(
    alloc: Global,
    setup: Setup,
    number: u64,
    fixture: Fixture,
    begin: &[Move],
    side: Colour,
) -> Result<ToldGame, AllocError>
    requires game { IsGame setup.game_type begin.now }
    requires few { length begin.now ≤ most_plies }
    ensures { IfOk result (λ told.
        told ≡ absence_outcome setup number fixture begin.now side) }
{
    let game: G = played(alloc, setup.game_type, begin, 0)?;
    let mut text = ReplyText::new(alloc);
    write_game(alloc, &mut text, setup, number, fixture, &game)?;
    write_forfeit(&mut text, number, fixture, side)?;
    Ok(ToldGame {
        text,
        ended: forfeited_by(side),
    })
}

/// Appends the text of the program with this number, as it is written.
fn write_text(out: &mut ReplyText, programs: &[Program], number: u32) -> Result<(), AllocError>
    ensures { OnOk result (out.new ≡ out.old ++ map shown (text_of programs.now number)) }
{
    match programs.get(number.saturating_sub(1) as usize) {
        Some(program) => write_shown(out, program.text()),
        None => Ok(()),
    }
}

/// Appends a word, with a space before and after it, and a number.
fn write_count(out: &mut ReplyText, word: &[u8], count: u64) -> Result<(), AllocError>
    ensures { OnOk result (out.new ≡ out.old ++ (word.now ++ decimal count)) }
{
    out.push_all(word)?;
    write_number(out, count)
}

/// Appends how the games of an engine ended, at the end of its line of the standings.
fn write_ends(out: &mut ReplyText, place: Place) -> Result<(), AllocError>
    ensures { OnOk result (out.new ≡ out.old ++ ends_text place) }
{
    write_count(out, b" wins ", place.wins)?;
    write_count(out, b" draws ", place.draws)?;
    write_count(out, b" losses ", place.losses)?;
    write_count(out, b" forfeits ", place.forfeits)?;
    out.push(b'\n')
}

/// Appends an engine's line of the standings.
fn write_place(out: &mut ReplyText, programs: &[Program], place: Place) -> Result<(), AllocError>
    ensures { OnOk result (out.new ≡ out.old ++ standing_text programs.now place) }
{
    write_text(out, programs, place.engine)?;
    write_count(out, b" points ", place.points)?;
    write_count(out, b" games ", place.games)?;
    write_ends(out, place)
}

/// The lines of the standings.
pub(crate) fn tell_places(
    alloc: Global,
    programs: &[Program],
    places: &[Place],
) -> Result<ReplyText, AllocError>
    ensures { IfOk result (λ text. text ≡ flat_map (standing_text programs.now) places.now) }
{
    let mut text = ReplyText::new(alloc);
    for place in places {
        write_place(&mut text, programs, *place)?;
    }
    Ok(text)
}
