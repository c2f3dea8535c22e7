//! Starting the programs of a wave, game by game.
ghost use Rattle.std.specs.Prelude.{
  ◌≡◌,
  ◌≤◌,
  ◌<◌,
  ◌+◌,
  ◌++◌,
  ◌^◌,
  ◌∷◌,
  [],
  length,
  map,
  string_bytes,
  IfOk,
  OnErr,
  OnOk,
  Option,
  Some,
};
ghost use Rattle.std.specs.List.{All};
ghost use Rattle.std.specs.Option.{option_map};
ghost use Rattle.match_runner.specs.Wires.{Wire, wire};
ghost use Rattle.cup_command.specs.Cup.{words_of};
ghost use Rattle.tournament_core.specs.Schedules.{IsFixture, schedule};
ghost use Rattle.tournament_games.specs.Games.{AreNext, Job as AnyJob, unplayed};
ghost use Rattle.tournament_games.specs.Links.{AreStarted, IsStart, Shuts, all_links};

use crate::closing::{close_all, close_job};
use crate::job::Job;
use crate::tournament::Tournament;
use cup::Program;
use io_edge::{Spawner, StartFault};
use std::alloc::{AllocError, Global};
use tournament_core::Fixture;

/// The words of the program with this number, counted from 1.
fn words_of(programs: &[Program], number: u32) -> &[String]
    requires low { 1 ≤ number }
    requires high { number ≤ length programs.now }
    ensures some { 0 < length result.now }
    ensures words { map string_bytes result.now ≡ words_of programs.now number }
{
    programs[(number - 1) as usize].words()
}

/// Starts a program. There is no link if it could not be started. The only error is running out of
/// memory.
fn start_one<P: Spawner>(words: &[String], spawner: &mut P) -> Result<Option<P::Engine>, AllocError>
    requires some { 0 < length words.now }
    ensures started { IfOk result (λ link. IsStart (map string_bytes words.now)
        (option_map (λ l. wire (P.Engine.rest l) (P.Engine.written l)
        (P.Engine.read_faults l) (P.Engine.write_faults l)) link)
        (P.engines spawner.old) (P.engines spawner.new)) }
    ensures none { OnErr result ((P.engines spawner.new).to_come
        ≡ (P.engines spawner.old).to_come) }
    ensures unsent { OnErr result ((P.engines spawner.new).sent ≡ (P.engines spawner.old).sent) }
{
    match spawner.start(words) {
        Ok(link) => Ok(Some(link)),
        Err(StartFault::Failed) => Ok(None),
        Err(StartFault::Memory) => Err(AllocError),
    }
}

/// Starts black's program of a game after white's. If memory runs out, white's is closed.
fn start_black<P: Spawner>(
    words: &[String],
    number: u64,
    fixture: Fixture,
    white: P::Engine,
    spawner: &mut P,
) -> Result<Job<P::Engine>, AllocError>
    requires some { 0 < length words.now }
    ensures started { IfOk result (λ job. (black : Option Wire)
        × IsStart (map string_bytes words.now) black
        (P.engines spawner.old) (P.engines spawner.new)
        × (job ≡ unplayed number fixture
        (Some (wire (P.Engine.rest white) (P.Engine.written white)
        (P.Engine.read_faults white) (P.Engine.write_faults white))) black)) }
    ensures shut { OnErr result (Shuts 1 (P.engines spawner.old) (P.engines spawner.new)) }
{
    match start_one(words, spawner) {
        Ok(black) => Ok(Job::new(number, fixture, Some(white), black)),
        Err(fault) => {
            spawner.close(white);
            Err(fault)
        }
    }
}

/// Starts the programs of a game, white's first, and black's only if white's was started. If memory
/// ran out, none of them is left open.
fn start_game<P: Spawner>(
    programs: &[Program],
    number: u64,
    fixture: Fixture,
    spawner: &mut P,
) -> Result<Job<P::Engine>, AllocError>
    requires fixture { IsFixture (length programs.now) fixture }
    ensures number { IfOk result (λ job. job.number ≡ number) }
    ensures fixture { IfOk result (λ job. job.fixture ≡ fixture) }
    ensures started { IfOk result (λ job. AreStarted programs.now (job ∷ [])
        (P.engines spawner.old) (P.engines spawner.new)) }
    ensures shut { OnErr result (Shuts 0 (P.engines spawner.old) (P.engines spawner.new)) }
{
    let black = words_of(programs, fixture.black);
    match start_one(words_of(programs, fixture.white), spawner) {
        Ok(Some(white)) => start_black(black, number, fixture, white, spawner),
        Ok(None) => Ok(Job::new(number, fixture, None, None)),
        Err(fault) => Err(fault),
    }
}

/// The games with one more. If there is no memory for it, all links are closed.
fn keep_job<P: Spawner>(
    job: Job<P::Engine>,
    mut jobs: Vec<Job<P::Engine>>,
    spawner: &mut P,
) -> Result<Vec<Job<P::Engine>>, AllocError>
    ensures kept { IfOk result (λ more. more.items ≡ jobs.items ++ job ∷ []) }
    ensures untouched { OnOk result (spawner.new ≡ spawner.old) }
    ensures shut { OnErr result (Shuts (length (all_links (jobs.items ++ job ∷ [])))
        (P.engines spawner.old) (P.engines spawner.new)) }
{
    match jobs.push(job) {
        Ok(()) => Ok(jobs),
        Err(failed) => {
            close_all(jobs, spawner);
            close_job(failed.value, spawner);
            Err(AllocError)
        }
    }
}

/// Starts the programs of a further game, and adds it after the others. If memory ran out, no link
/// is left open, including those of the others.
fn start_next<P: Spawner>(
    programs: &[Program],
    number: u64,
    fixture: Fixture,
    jobs: Vec<Job<P::Engine>>,
    spawner: &mut P,
) -> Result<Vec<Job<P::Engine>>, AllocError>
    requires fixture { IsFixture (length programs.now) fixture }
    ensures kept { IfOk result (λ more. (job : AnyJob)
        × (job.number ≡ number) × (job.fixture ≡ fixture)
        × AreStarted programs.now (job ∷ []) (P.engines spawner.old) (P.engines spawner.new)
        × (more.items ≡ jobs.items ++ job ∷ [])) }
    ensures shut { OnErr result (Shuts (length (all_links jobs.items))
        (P.engines spawner.old) (P.engines spawner.new)) }
{
    match start_game(programs, number, fixture, spawner) {
        Ok(job) => keep_job(job, jobs, spawner),
        Err(fault) => {
            close_all(jobs, spawner);
            Err(fault)
        }
    }
}

/// Starts the programs of the `count` games of a wave, after `first` games that were played before.
/// If memory ran out, none of them is left open.
pub(crate) fn start_wave<P: Spawner>(
    alloc: Global,
    tournament: &Tournament,
    first: u64,
    count: u32,
    spawner: &mut P,
) -> Result<Vec<Job<P::Engine>>, AllocError>
    requires within { first + count ≤ length (schedule tournament.now.plan) }
    requires few { first + count ≤ 2 ^ 42 }
    ensures many { IfOk result (λ jobs. length jobs.items ≡ count) }
    ensures next { IfOk result (λ jobs. AreNext tournament.now.plan first jobs.items) }
    ensures fixtures { IfOk result (λ jobs.
        All (λ j. IsFixture tournament.now.plan.engines j.fixture) jobs.items) }
    ensures started { IfOk result (λ jobs. AreStarted tournament.now.engines jobs.items
        (P.engines spawner.old) (P.engines spawner.new)) }
    ensures shut { OnErr result (Shuts 0 (P.engines spawner.old) (P.engines spawner.new)) }
{
    let plan = tournament.plan();
    let mut jobs = Vec::new(alloc);
    for place in 0..count {
        let before = first + u64::from(place);
        let fixture = plan.fixture(before);
        match start_next(tournament.programs(), before + 1, fixture, jobs, spawner) {
            Ok(more) => jobs = more,
            Err(fault) => return Err(fault),
        }
    }
    Ok(jobs)
}
