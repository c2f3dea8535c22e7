//! The standings of a cup whose games were all played.

ghost use Rattle.std.specs.Prelude.{◌≡◌, ◌≤◌, map, Some, IfOk};
ghost use Rattle.std.specs.List.{All};
ghost use Rattle.cup.specs.Cup.{pairings};
ghost use Rattle.cup.specs.Played.{AreStandingsOf, HasVerdict, pairing, verdict_of};

use crate::job::CupJob;
use crate::ranking::standings;
use crate::standing::StandingList;
use hive_model::Game;
use io_edge::Link;
use match_core::{Cause, Verdict, copy_line};
use std::alloc::{AllocError, Global};

/// A copy of a cause.
fn copy_cause(alloc: Global, cause: &Cause) -> Result<Cause, AllocError>
    ensures { IfOk result (λ copy. copy ≡ cause.now) }
{
    Ok(match cause {
        Cause::NotAMove { line } => Cause::NotAMove {
            line: copy_line(alloc, line.items())?,
        },
        Cause::Illegal { line } => Cause::Illegal {
            line: copy_line(alloc, line.items())?,
        },
        Cause::ErrLine { line } => Cause::ErrLine {
            line: copy_line(alloc, line.items())?,
        },
        Cause::Flood { lines } => Cause::Flood { lines: *lines },
        Cause::LongLine => Cause::LongLine,
        Cause::Ended => Cause::Ended,
        Cause::Broke => Cause::Broke,
        Cause::Late { asked, answered } => Cause::Late {
            asked: *asked,
            answered: *answered,
        },
    })
}

/// A copy of a verdict.
fn copy_verdict(alloc: Global, verdict: &Verdict) -> Result<Verdict, AllocError>
    ensures { IfOk result (λ copy. copy ≡ verdict.now) }
{
    Ok(match verdict {
        Verdict::Rules { state } => Verdict::Rules { state: *state },
        Verdict::Limit => Verdict::Limit,
        Verdict::Forfeit { side, cause } => Verdict::Forfeit {
            side: *side,
            cause: copy_cause(alloc, cause)?,
        },
    })
}

/// The verdict of a game that was played.
fn verdict_of<L: Link, G: Game + Drop>(
    alloc: Global,
    job: &CupJob<L, G>,
) -> Result<Verdict, AllocError>
    requires played { HasVerdict job.now }
    ensures { IfOk result (λ v. verdict_of job.now.referee ≡ Some v) }
{
    let Some(referee) = job.referee() else {
        unreachable!()
    };
    let Some(verdict) = referee.verdict() else {
        unreachable!()
    };
    copy_verdict(alloc, verdict)
}

/// The verdicts of games that were played, in their order.
fn verdicts_of<L: Link, G: Game + Drop>(
    alloc: Global,
    jobs: &[CupJob<L, G>],
) -> Result<Vec<Verdict>, AllocError>
    requires played { All HasVerdict jobs.now }
    ensures { IfOk result (λ verdicts.
        map (λ j. verdict_of j.referee) jobs.now ≡ map Some verdicts.items) }
{
    let mut verdicts = Vec::new(alloc);
    for place in 0..jobs.len() {
        let verdict = verdict_of(alloc, &jobs[place])?;
        verdicts.push(verdict)?;
    }
    Ok(verdicts)
}

/// The standings of a cup of 2 to 8 engines whose games were all played. Each engine is there once,
/// the one with most points first, and equal ones by their number. The only error is running out of
/// memory.
pub fn standings_of<L: Link, G: Game + Drop>(
    alloc: Global,
    jobs: &[CupJob<L, G>],
    engines: u32,
) -> Result<StandingList, AllocError>
    requires some { 2 ≤ engines }
    requires few { engines ≤ 8 }
    requires games { map pairing jobs.now ≡ pairings engines }
    requires played { All HasVerdict jobs.now }
    ensures { IfOk result (λ list. AreStandingsOf engines jobs.now list) }
{
    let verdicts = verdicts_of(alloc, jobs)?;
    standings(alloc, verdicts.as_slice(), engines)
}
