//! The lines of a wave.
ghost use Rattle.std.specs.Prelude.{◌≡◌, ◌≢◌, ◌+◌, ◌^◌, ◌≤◌, ◌<◌, ◌++◌, ◌∷◌, [], List, length, None, IfOk, OnOk};
ghost use Rattle.std.specs.List.{All};
ghost use Rattle.tournament_core.specs.Schedules.{IsFixture};
ghost use Rattle.tournament_core.specs.Ends.{PlayedFixture};
ghost use Rattle.tournament_core.specs.Counts.{IsTallyOf};
ghost use Rattle.tournament_games.specs.Games.{played_game, told_text};
ghost use Rattle.tournament_games.specs.Waves.{Notes, games_text};

use crate::job::Job;
use hive_model::ReplyText;
use io_edge::Link;
use std::alloc::{AllocError, Global};
use tournament_core::Tally;

/// Appends the lines of a game, and notes it. It is an error if the game has no outcome, since then
/// memory ran out.
fn tell_job<L: Link>(out: &mut ReplyText, job: &Job<L>, tally: &mut Tally) -> Result<(), AllocError>
    requires fixture { IsFixture tally.old.engines job.now.fixture }
    requires room { tally.old.games < 2 ^ 42 }
    ensures told { OnOk result (job.now.outcome ≢ None) }
    ensures text { OnOk result (out.new ≡ out.old ++ told_text job.now) }
    ensures engines { tally.new.engines ≡ tally.old.engines }
    ensures count { OnOk result (tally.new.games ≡ tally.old.games + 1) }
    ensures noted { OnOk result ((games : List PlayedFixture) → IsTallyOf games tally.old
        → IsTallyOf (games ++ played_game job.now ∷ []) tally.new) }
{
    match job.outcome() {
        Some(told) => {
            out.push_all(told.text.items())?;
            tally.note(job.fixture(), told.ended);
            Ok(())
        }
        None => Err(AllocError),
    }
}

/// The lines of the games of a wave, in their order. Each game is noted. It is an error if one of
/// them has no outcome, since then memory ran out.
pub(crate) fn tell_wave<L: Link>(
    alloc: Global,
    jobs: &[Job<L>],
    tally: &mut Tally,
) -> Result<ReplyText, AllocError>
    requires fixtures { All (λ j. IsFixture tally.old.engines j.fixture) jobs.now }
    requires room { tally.old.games + length jobs.now ≤ 2 ^ 42 }
    ensures told { OnOk result (All (λ j. j.outcome ≢ None) jobs.now) }
    ensures text { IfOk result (λ text. text ≡ games_text jobs.now) }
    ensures engines { tally.new.engines ≡ tally.old.engines }
    ensures count { OnOk result (tally.new.games ≡ tally.old.games + length jobs.now) }
    ensures noted { OnOk result (Notes jobs.now tally.old tally.new) }
{
    let mut text = ReplyText::new(alloc);
    for place in 0..jobs.len() {
        tell_job(&mut text, &jobs[place], tally)?;
    }
    Ok(text)
}
