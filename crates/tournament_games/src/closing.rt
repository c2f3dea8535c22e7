//! Closing the links of a wave.
ghost use Rattle.std.specs.Prelude.{◌≡◌};
ghost use Rattle.std.specs.Option.{option_map, option_to_list};
ghost use Rattle.match_command.specs.Match.{StartsNone};
ghost use Rattle.match_runner.specs.Wires.{wire};
ghost use Rattle.cup_command.specs.Links.{ClosesLinks, counted};
ghost use Rattle.tournament_games.specs.Links.{all_links, links_of};

use crate::job::Job;
use io_edge::Spawner;

/// Closes a link, if there is one.
fn close_one<P: Spawner>(link: Option<P::Engine>, spawner: &mut P)
    ensures sent { ClosesLinks (P.engines spawner.old).sent (P.engines spawner.new).sent
        (option_to_list (option_map (λ l. wire (P.Engine.rest l) (P.Engine.written l)
        (P.Engine.read_faults l) (P.Engine.write_faults l)) link)) }
    ensures failed { (P.engines spawner.new).engine_faults
        ≡ counted (option_to_list (option_map (λ l. wire (P.Engine.rest l) (P.Engine.written l)
        (P.Engine.read_faults l) (P.Engine.write_faults l)) link))
        (P.engines spawner.old).engine_faults }
    ensures none_started { StartsNone (P.engines spawner.old) (P.engines spawner.new) }
{
    match link {
        Some(link) => spawner.close(link),
        None => {}
    }
}

/// Closes the links of a game, white's first.
pub(crate) fn close_job<P: Spawner>(job: Job<P::Engine>, spawner: &mut P)
    ensures sent { ClosesLinks (P.engines spawner.old).sent (P.engines spawner.new).sent
        (links_of job) }
    ensures failed { (P.engines spawner.new).engine_faults
        ≡ counted (links_of job) (P.engines spawner.old).engine_faults }
    ensures none_started { StartsNone (P.engines spawner.old) (P.engines spawner.new) }
{
    let (white, black) = job.links();
    close_one(white, spawner);
    close_one(black, spawner);
}

/// Closes the links of all games, in the order of their starts.
pub(crate) fn close_all<P: Spawner>(jobs: Vec<Job<P::Engine>>, spawner: &mut P)
    ensures sent { ClosesLinks (P.engines spawner.old).sent (P.engines spawner.new).sent
        (all_links jobs.items) }
    ensures failed { (P.engines spawner.new).engine_faults
        ≡ counted (all_links jobs.items) (P.engines spawner.old).engine_faults }
    ensures none_started { StartsNone (P.engines spawner.old) (P.engines spawner.new) }
{
    let mut left = jobs.into_iter();
    while let Some(job) = left.next() {
        close_job(job, spawner);
    }
    left.destroy_empty();
}
