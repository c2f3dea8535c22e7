//! Starts the programs of a cup, game by game.
ghost use Rattle.std.specs.Prelude.{
  ◌≡◌,
  ◌≤◌,
  ◌<◌,
  ◌++◌,
  [],
  ◌∷◌,
  length,
  map,
  string_bytes,
  IfOk,
  OnOk,
  OnErr,
  IsErrOf,
};
ghost use Rattle.std.specs.List.{All};
ghost use Rattle.io_edge.specs.Outside.{HasCause, Starts};
ghost use Rattle.match_core.specs.Keeps.{IsSetup};
ghost use Rattle.cup.specs.Cup.{pairings};
ghost use Rattle.match_command.specs.Match.{StartsNone};
ghost use Rattle.match_runner.specs.Wires.{IsFresh, Wire, wire};
ghost use Rattle.cup.specs.Played.{IsDepth, IsJob, pairing, ready};
ghost use Rattle.cup_command.specs.Cup.{cup_words, game_words, words_of};
ghost use Rattle.cup_command.specs.Links.{
  ClosesLinks,
  GivesUp,
  IsPaired,
  IsReady,
  StartsAll,
  StartsBy,
  all_links,
  links_of,
};

use crate::closing::{close_game, close_links};
use cup::{CupJob, Pairing, Program};
use hive_model::Game;
use io_edge::{Spawner, StartFault};
use match_core::Setup;
use std::alloc::Global;

/// The words of the program with this number, counted from 1.
fn words_of(programs: &[Program], number: u32) -> &[String]
    requires low { 1 ≤ number }
    requires high { number ≤ length programs.now }
    ensures some { 0 < length result.now }
    ensures words { map string_bytes result.now ≡ words_of programs.now number }
{
    programs[(number - 1) as usize].words()
}

/// The games with one more. If there is no memory for it, all links are closed.
fn keep_game<P: Spawner, G: Game + Drop>(
    job: CupJob<P::Engine, G>,
    mut jobs: Vec<CupJob<P::Engine, G>>,
    spawner: &mut P,
) -> Result<Vec<CupJob<P::Engine, G>>, StartFault>
    ensures kept { IfOk result (λ games. games.items ≡ jobs.items ++ job ∷ []) }
    ensures untouched { OnOk result (spawner.new ≡ spawner.old) }
    ensures closed { OnErr result (ClosesLinks (P.engines spawner.old).sent
        (P.engines spawner.new).sent (all_links jobs.items ++ links_of job)) }
    ensures memory { IsErrOf result StartFault.Failed → ⊥ }
    ensures none_started { StartsNone (P.engines spawner.old) (P.engines spawner.new) }
{
    match jobs.push(job) {
        Ok(()) => Ok(jobs),
        Err(failed) => {
            close_links(jobs, spawner);
            close_game(failed.value, spawner);
            Err(StartFault::Memory)
        }
    }
}

/// Starts black's program of a game, by its words, and adds the game to the others. If it does not
/// start, all links are closed, white's of this game last.
fn start_black<P: Spawner, G: Game + Drop>(
    white: P::Engine,
    words: &[String],
    game: Pairing,
    setup: Setup,
    jobs: Vec<CupJob<P::Engine, G>>,
    spawner: &mut P,
) -> Result<Vec<CupJob<P::Engine, G>>, StartFault>
    requires words { 0 < length words.now }
    requires game { IsJob game.white game.black setup }
    ensures kept { IfOk result (λ games. (black : Wire) × IsFresh black.reads black.writes
        × Starts (P.engines spawner.old).to_come (P.engines spawner.new).to_come
        black.rest black.written
        × (games.items ≡ jobs.items ++ ready setup game
        (wire (P.Engine.rest white) (P.Engine.written white)
        (P.Engine.read_faults white) (P.Engine.write_faults white)) black ∷ [])) }
    ensures starts { OnOk result (StartsBy (map string_bytes words.now ∷ [])
        (P.engines spawner.old) (P.engines spawner.new)) }
    ensures closed { OnErr result (GivesUp (IsErrOf result StartFault.Failed)
        (map string_bytes words.now ∷ [])
        (all_links jobs.items ++ wire (P.Engine.rest white) (P.Engine.written white)
        (P.Engine.read_faults white) (P.Engine.write_faults white) ∷ [])
        (P.engines spawner.old) (P.engines spawner.new)) }
    ensures cause { HasCause (IsErrOf result StartFault.Failed)
        (P.engines spawner.old).start_faults (P.engines spawner.new).start_faults }
{
    match spawner.start(words) {
        Ok(black) => {
            let job = CupJob::new(game, white, black, setup);
            keep_game(job, jobs, spawner)
        }
        Err(fault) => {
            close_links(jobs, spawner);
            spawner.close(white);
            Err(fault)
        }
    }
}

/// Starts the two programs of a game, white's first, and adds the game to the others. If one does
/// not start, all links are closed, in the order of their starts.
fn start_game<P: Spawner, G: Game + Drop>(
    programs: &[Program],
    game: Pairing,
    setup: Setup,
    jobs: Vec<CupJob<P::Engine, G>>,
    spawner: &mut P,
) -> Result<Vec<CupJob<P::Engine, G>>, StartFault>
    requires setup { IsSetup setup }
    requires depth { IsDepth setup.level }
    requires paired { IsPaired (length programs.now) game }
    ensures kept { IfOk result (λ games. (white : Wire) × (black : Wire)
        × IsFresh white.reads white.writes × IsFresh black.reads black.writes
        × StartsAll (P.engines spawner.old).to_come (P.engines spawner.new).to_come
        (white ∷ (black ∷ []))
        × (games.items ≡ jobs.items ++ ready setup game white black ∷ [])) }
    ensures starts { OnOk result (StartsBy (game_words programs.now game)
        (P.engines spawner.old) (P.engines spawner.new)) }
    ensures closed { OnErr result (GivesUp (IsErrOf result StartFault.Failed)
        (game_words programs.now game) (all_links jobs.items)
        (P.engines spawner.old) (P.engines spawner.new)) }
    ensures cause { HasCause (IsErrOf result StartFault.Failed)
        (P.engines spawner.old).start_faults (P.engines spawner.new).start_faults }
{
    let black = words_of(programs, game.black);
    match spawner.start(words_of(programs, game.white)) {
        Ok(white) => start_black(white, black, game, setup, jobs, spawner),
        Err(fault) => {
            close_links(jobs, spawner);
            Err(fault)
        }
    }
}

/// Starts the programs of all games, game by game and white's first. If one does not start, all
/// links are closed, in the order of their starts.
pub(crate) fn start_links<P: Spawner, G: Game + Drop>(
    alloc: Global,
    programs: &[Program],
    games: &[Pairing],
    setup: Setup,
    spawner: &mut P,
) -> Result<Vec<CupJob<P::Engine, G>>, StartFault>
    requires setup { IsSetup setup }
    requires depth { IsDepth setup.level }
    requires games { games.now ≡ pairings (length programs.now) }
    ensures kept { IfOk result (λ jobs. map pairing jobs.items ≡ games.now) }
    ensures ready { IfOk result (λ jobs. All (IsReady setup) jobs.items) }
    ensures next { IfOk result (λ jobs. StartsAll (P.engines spawner.old).to_come
        (P.engines spawner.new).to_come (all_links jobs.items)) }
    ensures starts { OnOk result (StartsBy (cup_words programs.now)
        (P.engines spawner.old) (P.engines spawner.new)) }
    ensures closed { OnErr result (GivesUp (IsErrOf result StartFault.Failed)
        (cup_words programs.now) []
        (P.engines spawner.old) (P.engines spawner.new)) }
    ensures cause { HasCause (IsErrOf result StartFault.Failed)
        (P.engines spawner.old).start_faults (P.engines spawner.new).start_faults }
{
    let mut jobs = Vec::new(alloc);
    for place in 0..games.len() {
        match start_game(programs, games[place], setup, jobs, spawner) {
            Ok(more) => jobs = more,
            Err(fault) => return Err(fault),
        }
    }
    Ok(jobs)
}
