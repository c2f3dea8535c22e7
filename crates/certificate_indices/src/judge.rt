//! Decides whether a claim is true.

ghost use Rattle.std.specs.Prelude.{◌≡◌, ◌≤◌, ◌<ℤ◌, ◌≤ℤ◌, ℕ, ℤ};
ghost use Rattle.hive_model.specs.Minimax.{value, lowest, highest};
ghost use Rattle.hive_model.specs.Histories.{position};
ghost use Rattle.search_laws.specs.Found.{IsFound};
ghost use Rattle.search_laws.specs.Laws.{IsSmall};
ghost use Rattle.certificate_walks.specs.Limits.{is_kept, number};
ghost use Rattle.certificate_indices.specs.Writing.{CanTell};

use certificate_walks::Limit;
use deepening::Searcher;
use hive_model::Game;
use search_core::Window;

/// Decides whether a claim of what a position is worth is true.
pub trait Judge {
    /// The number of plies that it is prepared to search.
    ghost prepared: { Self → ℕ };

    /// Whether the position keeps to the limit, with `depth` plies left to search. The game is as
    /// before.
    fn is_kept<G: Game>(&mut self, game: &mut G, depth: u32, limit: Limit) -> bool
        requires deep { depth ≤ 64 }
        requires told { CanTell depth limit (prepared self.old) }
        requires spare { depth ≤ (G.history game.old).spare }
        ensures kept { result ≡ is_kept limit (value (position (G.history game.old)) depth) }
        ensures game { G.history game.new ≡ G.history game.old }
        ensures same { prepared self.new ≡ prepared self.old };
}

/// The window for which the answer of a search keeps to the limit if and only if the value does.
fn window_of(limit: Limit) -> Window
    requires { IsSmall 1000090 (number limit) }
    ensures open_ { result.alpha <ℤ result.beta }
    ensures alpha { lowest ≤ℤ result.alpha }
    ensures beta { result.beta ≤ℤ highest }
    ensures tells { (v w : ℤ) → IsFound v result w → is_kept limit w ≡ is_kept limit v }
{
    match limit {
        Limit::AtMost(most) => Window {
            alpha: most,
            beta: most + 1,
        },
        Limit::AtLeast(least) => Window {
            alpha: least - 1,
            beta: least,
        },
    }
}

/// Whether a number keeps to the limit.
fn keeps(limit: Limit, worth: i32) -> bool
    ensures { result ≡ is_kept limit worth }
{
    match limit {
        Limit::AtMost(most) => worth <= most,
        Limit::AtLeast(least) => least <= worth,
    }
}

impl Judge for Searcher {
    ghost prepared = { λ s. s };

    fn is_kept<G: Game>(&mut self, game: &mut G, depth: u32, limit: Limit) -> bool {
        let window = window_of(limit);
        keeps(limit, self.value_in(game, depth, window))
    }
}
