//! The results of an engine, by a tally.

ghost use Rattle.std.specs.Prelude.{◌≡◌, ◌*◌, ◌≤◌, ◌^◌, List};
ghost use Rattle.std.specs.List.{count_by, sum_by};
ghost use Rattle.tournament_core.specs.Schedules.{IsEngine, numbers};
ghost use Rattle.tournament_core.specs.Ends.{PlayedFixture, points, beaten};
ghost use Rattle.tournament_core.specs.Counts.{IsTallyOf, count_at};

use crate::tally::Tally;

/// The number of games that an engine won.
pub(crate) fn wins_of(tally: &Tally, engine: u32) -> u64
    requires engine { IsEngine tally.now.engines engine }
    ensures sum { result
        ≡ sum_by (λ other. count_at tally.now.wins engine other) (numbers tally.now.engines) }
    ensures few { result ≤ 2 ^ 49 }
{
    let mut sum = 0;
    for other in 1..tally.engines() + 1 {
        sum += tally.wins(engine, other);
    }
    sum
}

/// The number of games that an engine lost.
pub(crate) fn losses_of(tally: &Tally, engine: u32) -> u64
    requires engine { IsEngine tally.now.engines engine }
    ensures sum { result
        ≡ sum_by (λ other. count_at tally.now.wins other engine) (numbers tally.now.engines) }
    ensures few { result ≤ 2 ^ 49 }
{
    let mut sum = 0;
    for other in 1..tally.engines() + 1 {
        sum += tally.wins(other, engine);
    }
    sum
}

/// The number of games that an engine drew.
pub(crate) fn draws_of(tally: &Tally, engine: u32) -> u64
    requires engine { IsEngine tally.now.engines engine }
    ensures sum { result
        ≡ sum_by (λ other. count_at tally.now.draws engine other) (numbers tally.now.engines) }
    ensures few { result ≤ 2 ^ 49 }
{
    let mut sum = 0;
    for other in 1..tally.engines() + 1 {
        sum += tally.draws(engine, other);
    }
    sum
}

/// The number of games that an engine lost by forfeit.
pub(crate) fn forfeits_of(tally: &Tally, engine: u32) -> u64
    requires engine { IsEngine tally.now.engines engine }
    ensures sum { result
        ≡ sum_by (λ other. count_at tally.now.forfeits engine other) (numbers tally.now.engines) }
    ensures few { result ≤ 2 ^ 49 }
{
    let mut sum = 0;
    for other in 1..tally.engines() + 1 {
        sum += tally.forfeits(engine, other);
    }
    sum
}

/// The points of an engine.
pub(crate) fn points_of(tally: &Tally, engine: u32) -> u64
    requires engine { IsEngine tally.now.engines engine }
    ensures points { (games : List PlayedFixture) → IsTallyOf games tally.now
        → result ≡ points games engine }
    ensures few { result ≤ 2 ^ 51 }
{
    2 * wins_of(tally, engine) + draws_of(tally, engine)
}

/// The sum, over the games that an engine won, of the points that the loser has in all.
pub(crate) fn beaten_of(tally: &Tally, engine: u32) -> u128
    requires engine { IsEngine tally.now.engines engine }
    ensures { (games : List PlayedFixture) → IsTallyOf games tally.now
        → result ≡ beaten games engine }
{
    let mut sum = 0;
    for other in 1..tally.engines() + 1 {
        let wins = tally.wins(engine, other);
        sum += u128::from(wins) * u128::from(points_of(tally, other));
    }
    sum
}
