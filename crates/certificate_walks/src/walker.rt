//! The part of a walk that takes tokens.

ghost use Rattle.std.specs.Prelude.{◌≡◌, ◌↔◌, IsTrue, ⊤};
ghost use Rattle.hive_model.specs.Histories.{position};
ghost use Rattle.hive_model.specs.Minimax.{IsInner, value};
ghost use Rattle.search_laws.specs.Laws.{IsSmall};
ghost use Rattle.search_laws.specs.Nodes.{HasRoom};
ghost use Rattle.certificate_walks.specs.Limits.{Keeps};
ghost use Rattle.certificate_walks.specs.Walks.{Rules};
ghost use Rattle.certificate_walks.specs.Follows.{CarriesOn, Ending, Shown, Sight, held};
ghost use Rattle.certificate_walks.specs.Parts.{Finds, IsFoundBy, Parts};
ghost use Rattle.certificate_walks.specs.declared.limit.Limit.TheVariants.{AtLeast};

use hive_model::{Game, MoveStack};

/// How a part of a walk ended.
#[derive(Clone, Copy, Debug, PartialEq, Eq)]
pub enum Walked<S> {
    /// It showed everything that it had to show.
    Done,
    /// A leaf does not meet its claim.
    LeafFails,
    /// A place is not below the number of moves.
    BadIndex,
    /// The walker ended it.
    Stops(S),
}

impl<S> Walked<S> {
    pub fn is_done(&self) -> bool
        ensures { IsTrue result ↔ (self.now ≡ Walked.Done) }
    {
        match self {
            Walked::Done => true,
            Walked::LeafFails => false,
            Walked::BadIndex => false,
            Walked::Stops(_) => false,
        }
    }
}

/// What a walker finds at a node that claims a lower bound.
#[derive(Clone, Copy, Debug, PartialEq, Eq)]
pub enum Took<S> {
    /// The place of a move. The walk goes on below it.
    Below(u32),
    /// The claim is true.
    Shown,
    /// The walker ends the walk.
    Stops(S),
}

/// Takes the tokens of a walk, and keeps what the walk shows.
pub trait Walker {
    /// Why it ends a walk.
    type Stop: Copy;

    /// What is left to a walk.
    ghost Steps: { Type 0 };

    /// The faults of a walk.
    ghost Why: { Type 0 };

    /// What the code sees of what is left.
    ghost Seen: { Type 0 };

    /// How it takes tokens.
    ghost rules: { Rules Steps Why };

    /// How the code's view follows from what is left to a walk.
    ghost sight: { Sight Steps Why Seen };

    /// What the code sees of what is left to this walker.
    ghost seen: { Self → Seen };

    /// How a walk ends if the walker ends it for this reason.
    ghost ending: { Self.Stop → Ending Why };

    /// Everything that it keeps as shown is true.
    ghost is_true: { Self → Type 0 } = { λ _. ⊤ };

    /// What else holds between the start and the end of a part of a walk.
    ghost parts: { Parts Self Self.Stop };

    /// Takes a token at a node whose claim is a value of at least `least`, with `depth` plies left.
    /// Game and stack are as before.
    fn take<G: Game>(
        &mut self,
        game: &mut G,
        depth: u32,
        least: i32,
        stack: &mut MoveStack,
    ) -> Took<Self::Stop>
        requires inner { IsInner (position (G.history game.old)) depth }
        requires small { IsSmall 1000100 least }
        requires room { HasRoom depth (G.history game.old) stack.old }
        ensures shown { is_true self.old → result ≡ Took.Shown
            → Keeps (AtLeast least) (value (position (G.history game.old)) depth) }
        ensures true_ { is_true self.old → is_true self.new }
        ensures told { Finds rules sight ending (position (G.history game.old)) depth least result
            (seen self.old) (seen self.new) }
        ensures part { IsFoundBy parts result self.old self.new }
        ensures game { G.history game.new ≡ G.history game.old }
        ensures stack { stack.new ≡ stack.old };

    /// Keeps that the position is worth at least `least`, with `depth` plies left.
    fn keep<G: Game>(&mut self, game: &G, depth: u32, least: i32)
        requires small { IsSmall 1000100 least }
        ensures true_ { is_true self.old
            → Keeps (AtLeast least) (value (position (G.history game.now)) depth)
            → is_true self.new }
        ensures told { (s : Steps) → seen self.old ≡ sight.view s
            → seen self.new
            ≡ sight.view (rules.keep (position (G.history game.now)) depth least s) }
        ensures part { parts.goes self.old self.new };

    /// The view of a walk has the count of tokens taken.
    ghost counts: { (s : Steps) → sight.place (sight.view s) ≡ held (rules.taken s) };

    /// What holds of a walk whose items could not be read still holds however the walk goes on.
    ghost carries_on: { CarriesOn rules sight };

    /// A walk that the walker ends is not shown.
    ghost ends_short: { (stop : Self.Stop) → ending stop ≡ Shown → ⊥ };
}
