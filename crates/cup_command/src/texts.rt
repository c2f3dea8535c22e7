//! The text that reports a cup.
ghost use Rattle.std.specs.Prelude.{◌≡◌, ◌≤◌, ◌++◌, List, length, map, Some, IfOk, OnOk};
ghost use Rattle.std.specs.List.{All, flat_map, zip};
ghost use Rattle.cup.specs.Cup.{pairings};
ghost use Rattle.cup.specs.declared.standing.Standing.{Standing as AnyPlace};
ghost use Rattle.cup.specs.Played.{AreStandingsOf, HasVerdict, pairing};
ghost use Rattle.match_core.specs.Setups.{setup_plain};
ghost use Rattle.match_command.specs.Texts.{shown};
ghost use Rattle.cup_command.specs.Links.{IsOf, ended_text, jobs_text};
ghost use Rattle.cup_command.specs.Texts.{
  moves_line,
  numbers_text,
  standing_text,
  text_of,
  verdict_line,
};

use cup::{CupJob, Pairing, Program, Standing as Place, standings_of};
use game_text::write_game_under;
use hive_model::{Game, ReplyText};
use io_edge::Link;
use match_command::{write_ending, write_number, write_shown};
use match_core::{Referee, Setup};
use std::alloc::{AllocError, Global};

/// Appends the numbers of a game's engines, each with a space.
fn write_numbers(out: &mut ReplyText, game: Pairing) -> Result<(), AllocError>
    ensures { OnOk result (out.new ≡ out.old ++ numbers_text game) }
{
    write_number(out, u64::from(game.white))?;
    out.push(b' ')?;
    write_number(out, u64::from(game.black))?;
    out.push(b' ')
}

/// Appends the line of a game.
fn write_moves<G: Game + Drop>(
    alloc: Global,
    out: &mut ReplyText,
    setup: Setup,
    game: Pairing,
    referee: &Referee<G>,
) -> Result<(), AllocError>
    requires { referee.now.setup ≡ setup_plain setup }
    ensures { OnOk result (out.new ≡ out.old ++ moves_line setup game referee.now) }
{
    out.push_all(b"game ")?;
    write_numbers(out, game)?;
    write_game_under(alloc, referee.game(), setup.repetition, out)?;
    out.push(b'\n')
}

/// Appends the line of a verdict.
fn write_verdict<G: Game + Drop>(
    out: &mut ReplyText,
    setup: Setup,
    game: Pairing,
    referee: &Referee<G>,
) -> Result<(), AllocError>
    ensures { OnOk result (out.new ≡ out.old ++ verdict_line setup game referee.now) }
{
    out.push_all(b"verdict ")?;
    write_numbers(out, game)?;
    write_ending(out, setup, referee)?;
    out.push(b'\n')
}

/// Appends the two lines that report a game, if it was played.
fn write_job<L: Link, G: Game + Drop>(
    alloc: Global,
    out: &mut ReplyText,
    setup: Setup,
    game: Pairing,
    job: &CupJob<L, G>,
) -> Result<(), AllocError>
    requires { IsOf setup job.now }
    ensures { OnOk result (out.new ≡ out.old ++ ended_text setup game job.now.referee) }
{
    match job.referee() {
        Some(referee) => {
            write_moves(alloc, out, setup, game, referee)?;
            write_verdict(out, setup, game, referee)
        }
        None => Ok(()),
    }
}

/// Appends the lines of all games.
fn write_jobs<L: Link, G: Game + Drop>(
    alloc: Global,
    out: &mut ReplyText,
    setup: Setup,
    games: &[Pairing],
    jobs: &[CupJob<L, G>],
) -> Result<(), AllocError>
    requires same { length games.now ≡ length jobs.now }
    requires setups { All (IsOf setup) jobs.now }
    ensures { OnOk result (out.new ≡ out.old ++ jobs_text setup (zip games.now jobs.now)) }
{
    for place in 0..jobs.len() {
        write_job(alloc, out, setup, games[place], &jobs[place])?;
    }
    Ok(())
}

/// Appends the text of the program with this number, as it is written.
fn write_text(out: &mut ReplyText, programs: &[Program], number: u32) -> Result<(), AllocError>
    ensures { OnOk result (out.new ≡ out.old ++ map shown (text_of programs.now number)) }
{
    match programs.get(number.saturating_sub(1) as usize) {
        Some(program) => write_shown(out, program.text()),
        None => Ok(()),
    }
}

/// Appends the line of an engine in the standings.
fn write_place(out: &mut ReplyText, programs: &[Program], place: Place) -> Result<(), AllocError>
    ensures { OnOk result (out.new ≡ out.old ++ standing_text programs.now place) }
{
    write_text(out, programs, place.engine)?;
    out.push_all(b" points ")?;
    write_number(out, u64::from(place.points))?;
    out.push_all(b" games ")?;
    write_number(out, u64::from(place.games))?;
    out.push(b'\n')
}

/// Appends the lines of the standings.
fn write_places(
    out: &mut ReplyText,
    programs: &[Program],
    places: &[Place],
) -> Result<(), AllocError>
    ensures { OnOk result (out.new ≡ out.old ++ flat_map (standing_text programs.now) places.now) }
{
    for place in places {
        write_place(out, programs, *place)?;
    }
    Ok(())
}

/// The text that reports a cup whose games were all played.
pub(crate) fn tell_cup<L: Link, G: Game + Drop>(
    alloc: Global,
    programs: &[Program],
    setup: Setup,
    games: &[Pairing],
    jobs: &[CupJob<L, G>],
) -> Result<ReplyText, AllocError>
    requires some { 2 ≤ length programs.now }
    requires few { length programs.now ≤ 8 }
    requires games { games.now ≡ pairings (length programs.now) }
    requires jobs { map pairing jobs.now ≡ games.now }
    requires played { All HasVerdict jobs.now }
    requires setups { All (IsOf setup) jobs.now }
    ensures { IfOk result (λ text. (places : List AnyPlace)
        × AreStandingsOf (length programs.now) jobs.now places
        × (text ≡ jobs_text setup (zip games.now jobs.now)
        ++ flat_map (standing_text programs.now) places)) }
{
    let places = standings_of(alloc, jobs, programs.len() as u32)?;
    let mut text = ReplyText::new(alloc);
    write_jobs(alloc, &mut text, setup, games, jobs)?;
    write_places(&mut text, programs, places.items())?;
    Ok(text)
}
