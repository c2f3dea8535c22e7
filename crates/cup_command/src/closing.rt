//! Closes the links of a cup.
ghost use Rattle.std.specs.Prelude.{◌≡◌};
ghost use Rattle.match_command.specs.Match.{StartsNone};
ghost use Rattle.cup_command.specs.Links.{ClosesLinks, all_links, counted, links_of};

use cup::CupJob;
use hive_model::Game;
use io_edge::Spawner;

/// Closes the links of a game, white's first.
pub(crate) fn close_game<P: Spawner, G: Game + Drop>(job: CupJob<P::Engine, G>, spawner: &mut P)
    ensures sent { ClosesLinks (P.engines spawner.old).sent (P.engines spawner.new).sent
        (links_of job) }
    ensures failed { (P.engines spawner.new).engine_faults
        ≡ counted (links_of job) (P.engines spawner.old).engine_faults }
    ensures none_started { StartsNone (P.engines spawner.old) (P.engines spawner.new) }
{
    let (white, black) = job.links();
    spawner.close(white);
    spawner.close(black);
}

/// Closes the links of all games, in the order of their starts.
pub(crate) fn close_links<P: Spawner, G: Game + Drop>(
    jobs: Vec<CupJob<P::Engine, G>>,
    spawner: &mut P,
)
    ensures sent { ClosesLinks (P.engines spawner.old).sent (P.engines spawner.new).sent
        (all_links jobs.items) }
    ensures failed { (P.engines spawner.new).engine_faults
        ≡ counted (all_links jobs.items) (P.engines spawner.old).engine_faults }
    ensures none_started { StartsNone (P.engines spawner.old) (P.engines spawner.new) }
{
    let mut left = jobs.into_iter();
    while let Some(job) = left.next() {
        close_game(job, spawner);
    }
    left.destroy_empty();
}
