//! The run of a tournament: its games wave after wave, and its standings.
ghost use Rattle.std.specs.Prelude.{◌≡◌, ◌≤◌, ◌<◌, ◌+◌, ◌^◌, List, length, IfOk};
ghost use Rattle.io_edge.specs.Outside.{HasCause, Told};
ghost use Rattle.command_runs.specs.World.{Times, sides, world};
ghost use Rattle.match_command.specs.Match.{NoneIsOpen};
ghost use Rattle.tournament_core.specs.Schedules.{IsPlan, schedule};
ghost use Rattle.tournament_core.specs.Counts.{IsTallyOf};
ghost use Rattle.tournament_core.specs.declared.standing.Standing.{Standing as AnyPlace};
ghost use Rattle.tournament_games.specs.Tournaments.{head_line};
ghost use Rattle.tournament_games.specs.Waves.{
  AreNoted,
  GamesRun,
  HeadedRun,
  StandingsRun,
  TournamentRun,
  WaveRun,
  resumed,
  standings_text,
};

use crate::texts::tell_places;
use crate::tournament::Tournament;
use crate::wave::play_wave;
use command_runs::{Status, end_with};
use hive_model::{Game, ReplyText};
use io_edge::{Sink, Spawner};
use std::alloc::{AllocError, Global};
use std::thread::Threads;
use tournament_core::{GameEnd, Plan, Tally, standings};
use tournament_edge::{Clocks, Progress};
use tournament_record::{head_of, head_text};

/// A tally of the games that were played before, which are the first ones of the plan.
fn resume(alloc: Global, plan: Plan, ends: &[GameEnd]) -> Result<Tally, AllocError>
    requires valid { IsPlan plan }
    requires within { length ends.now ≤ length (schedule plan) }
    requires few { length (schedule plan) < 2 ^ 42 }
    ensures engines { IfOk result (λ tally. tally.engines ≡ plan.engines) }
    ensures games { IfOk result (λ tally. tally.games ≡ length ends.now) }
    ensures noted { IfOk result (λ tally. IsTallyOf (resumed plan ends.now) tally) }
{
    let mut tally = Tally::new(alloc, plan.engines)?;
    for place in 0..ends.len() {
        tally.note(plan.fixture(place as u64), ends[place]);
    }
    Ok(tally)
}

/// The number of games of the next wave, if so many games are left. It is at least 1, at most
/// `at_once`, and at most as many as are left.
fn wave_of(left: u64, at_once: u32) -> u32
    requires some { 1 ≤ left }
    requires wave { 1 ≤ at_once }
    ensures some { 1 ≤ result }
    ensures few { result ≤ at_once }
    ensures within { result ≤ left }
{
    if left < u64::from(at_once) {
        left as u32
    } else {
        at_once
    }
}

/// Plays a wave of `count` games after `first` earlier ones, notes them, and writes their lines.
fn write_wave<R: Threads + Sync, P: Spawner, K: Sink, G: Game + Send + Drop, M: Clocks + Sync>(
    rt: &R,
    alloc: Global,
    tournament: &Tournament,
    clocks: &M,
    first: u64,
    count: u32,
    tally: &mut Tally,
    output: &mut K,
    spawner: &mut P,
) -> Status
    requires within { first + count ≤ length (schedule tournament.now.plan) }
    requires few { first + count ≤ 2 ^ 42 }
    requires engines { tally.old.engines ≡ tournament.now.plan.engines }
    requires noted { tally.old.games ≡ first }
    ensures run { (rest : Told) (times : Times) →
        WaveRun tournament.now first count tally.old tally.new result
        (world (sides rest (K.written output.old)) times (P.engines spawner.old))
        (world (sides rest (K.written output.new)) times (P.engines spawner.new)) }
    ensures engines { tally.new.engines ≡ tally.old.engines }
    ensures count { result ≡ Status.Done → tally.new.games ≡ tally.old.games + count }
    ensures cause { HasCause (result ≡ Status.WriteFault) (K.write_faults output.old)
        (K.write_faults output.new) }
{
    match play_wave::<R, P, G, M>(rt, alloc, tournament, clocks, first, count, tally, spawner) {
        Ok(text) => end_with(text.items(), Status::Done, output),
        Err(_) => Status::Memory,
    }
}

/// Plays all games wave after wave and notes them, after the ones that were played before. The
/// lines of each wave are written as soon as it was played. Then the progress of the tournament is
/// shown.
fn write_games<
    R: Threads + Sync,
    P: Spawner,
    K: Sink,
    G: Game + Send + Drop,
    M: Clocks + Progress + Sync,
>(
    rt: &R,
    alloc: Global,
    tournament: &Tournament,
    clocks: &M,
    games: u64,
    first: u64,
    tally: &mut Tally,
    output: &mut K,
    spawner: &mut P,
) -> Status
    requires all { games ≡ length (schedule tournament.now.plan) }
    requires few { games < 2 ^ 42 }
    requires within { first ≤ games }
    requires engines { tally.old.engines ≡ tournament.now.plan.engines }
    requires noted { tally.old.games ≡ first }
    ensures run { (rest : Told) (times : Times) →
        GamesRun tournament.now first tally.old tally.new result
        (world (sides rest (K.written output.old)) times (P.engines spawner.old))
        (world (sides rest (K.written output.new)) times (P.engines spawner.new)) }
    ensures engines { tally.new.engines ≡ tally.old.engines }
    ensures cause { HasCause (result ≡ Status.WriteFault) (K.write_faults output.old)
        (K.write_faults output.new) }
{
    let at_once = tournament.at_once();
    let mut done = first;
    while done < games {
        let count = wave_of(games - done, at_once);
        match write_wave::<R, P, K, G, M>(
            rt, alloc, tournament, clocks, done, count, tally, output, spawner,
        ) {
            Status::Done => {
                done += u64::from(count);
                clocks.show(tournament.programs(), tournament.plan(), tally);
            }
            fault => return fault,
        }
    }
    Status::Done
}

/// The lines of the standings, from the games that were noted.
fn tell_standings(
    alloc: Global,
    tournament: &Tournament,
    tally: &Tally,
) -> Result<ReplyText, AllocError>
    requires { tally.now.engines ≡ tournament.now.plan.engines }
    ensures { IfOk result (λ text. (places : List AnyPlace)
        × AreNoted tournament.now tally.now places
        × (text ≡ standings_text tournament.now places)) }
{
    let places = standings(alloc, tally)?;
    tell_places(alloc, tournament.programs(), places.items())
}

/// Writes the lines of the standings, from the games that were noted.
fn write_standings<K: Sink>(
    alloc: Global,
    tournament: &Tournament,
    tally: &Tally,
    output: &mut K,
) -> Status
    requires { tally.now.engines ≡ tournament.now.plan.engines }
    ensures run { StandingsRun tournament.now tally.now result
        (K.written output.old) (K.written output.new) }
    ensures cause { HasCause (result ≡ Status.WriteFault) (K.write_faults output.old)
        (K.write_faults output.new) }
{
    match tell_standings(alloc, tournament, tally) {
        Ok(text) => end_with(text.items(), Status::Done, output),
        Err(_) => Status::Memory,
    }
}

/// Plays the games that are left, and writes their lines and the standings, after the head.
fn play_headed<
    R: Threads + Sync,
    P: Spawner,
    K: Sink,
    G: Game + Send + Drop,
    M: Clocks + Progress + Sync,
>(
    rt: &R,
    alloc: Global,
    tournament: &Tournament,
    played: &[GameEnd],
    output: &mut K,
    spawner: &mut P,
    clocks: &M,
) -> Status
    requires { length played.now ≤ length (schedule tournament.now.plan) }
    ensures run { (rest : Told) (times : Times) →
        HeadedRun tournament.now played.now result
        (world (sides rest (K.written output.old)) times (P.engines spawner.old))
        (world (sides rest (K.written output.new)) times (P.engines spawner.new)) }
    ensures closed { NoneIsOpen (P.engines spawner.old) (P.engines spawner.new) }
    ensures cause { HasCause (result ≡ Status.WriteFault) (K.write_faults output.old)
        (K.write_faults output.new) }
{
    let plan = tournament.plan();
    let games = plan.games();
    let Ok(mut tally) = resume(alloc, plan, played) else {
        return Status::Memory;
    };
    let first = played.len() as u64;
    match write_games::<R, P, K, G, M>(
        rt, alloc, tournament, clocks, games, first, &mut tally, output, spawner,
    ) {
        Status::Done => write_standings(alloc, tournament, &tally, output),
        fault => fault,
    }
}

/// The line of the head, with its LF.
fn head_line<G: Game + Drop>(
    alloc: Global,
    tournament: &Tournament,
) -> Result<ReplyText, AllocError>
    ensures { IfOk result (λ text. text ≡ head_line tournament.now) }
{
    let parts = head_of::<G>(
        alloc,
        tournament.programs(),
        tournament.plan(),
        tournament.setup(),
        tournament.openings(),
    )?;
    head_text(alloc, parts.items())
}

/// Plays a tournament and writes its text.
///
/// The head is written first, a line that says which tournament it is. The games follow in the
/// order of the plan, without the first ones, which were played before and ended as given. They are
/// played in waves of as many games as are played at once. The last wave may have fewer.
///
/// For each game of a wave white's program is started and then black's, each by its words. A
/// program that cannot be started forfeits that game. If white's cannot, black's is not started.
/// Then the games are played at once, if threads can be had. Each has two links and a clock of its
/// own, and begins with the moves of its opening. Then the programs of the wave are closed, in the
/// order of their starts. The lines of its games are written, in the order of the games:
///
/// ```text
/// game N I J GAMESTRING
/// verdict N I J VERDICT
/// ```
///
/// N is the game's number in the plan, counted from 1. I is white's engine and J black's. The
/// verdict is that of a match, or `forfeit white nostart` or `forfeit black nostart`. After the
/// last game the standings follow, a line for each engine in their order. TEXT names its program:
///
/// ```text
/// TEXT points A games B wins C draws D losses E forfeits F
/// ```
///
/// Only a tally is kept of the games of earlier waves, so neither memory nor open programs grow
/// with the number of games. Each program that was started is closed before the call returns. After
/// each wave, once its lines were written, `Progress` shows how far the tournament is.
///
/// The status says how the call ended:
/// - `Done`: the whole text was written.
/// - `WriteFault`: a write has failed. Only an initial part of the head may have been written; then
///   no program was started. Otherwise the head and the lines of earlier waves were written, and an
///   initial part, but not all, of the last wave's lines or of the standings.
/// - `Memory`: memory ran out. Nothing was written, or the head and the lines of the waves so far.
///
/// There is no other status.
pub fn play_tournament<
    R: Threads + Sync,
    P: Spawner,
    K: Sink,
    G: Game + Send + Drop,
    M: Clocks + Progress + Sync,
>(
    rt: &R,
    alloc: Global,
    tournament: &Tournament,
    played: &[GameEnd],
    output: &mut K,
    spawner: &mut P,
    clocks: &M,
) -> Status
    requires { length played.now ≤ length (schedule tournament.now.plan) }
    ensures run { (rest : Told) (times : Times) →
        TournamentRun tournament.now played.now result
        (world (sides rest (K.written output.old)) times (P.engines spawner.old))
        (world (sides rest (K.written output.new)) times (P.engines spawner.new)) }
    ensures closed { NoneIsOpen (P.engines spawner.old) (P.engines spawner.new) }
    ensures cause { HasCause (result ≡ Status.WriteFault) (K.write_faults output.old)
        (K.write_faults output.new) }
{
    let Ok(head) = head_line::<G>(alloc, tournament) else {
        return Status::Memory;
    };
    match end_with(head.items(), Status::Done, output) {
        Status::Done => play_headed::<R, P, K, G, M>(
            rt, alloc, tournament, played, output, spawner, clocks,
        ),
        fault => fault,
    }
}
