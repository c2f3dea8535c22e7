//! A walk that takes indices and writes tokens: it cites whenever a lemma that was shown serves.

ghost use Rattle.std.specs.Prelude.{◌≡◌, [], Some, refl};
ghost use Rattle.hive_model.specs.Keys.{key};
ghost use Rattle.hive_model.specs.Minimax.{IsInner, value};
ghost use Rattle.hive_model.specs.Histories.{position};
ghost use Rattle.search_laws.specs.Laws.{IsSmall};
ghost use Rattle.search_laws.specs.Nodes.{HasRoom};
ghost use Rattle.certificate_walks.specs.Limits.{Keeps};
ghost use Rattle.certificate_walks.specs.Parts.{EndsHere};
ghost use Rattle.certificate_walks.specs.declared.limit.Limit.TheVariants.{AtLeast};
ghost use Rattle.strategy_check.specs.declared.why.Why.{Why as AnyWhy};
ghost use Rattle.strategy_lemmas.specs.Lemmas.{server};
ghost use Rattle.strategy_lemmas.specs.Short.{ShortSteps, short_rules};
ghost use Rattle.certificate_walks.specs.Taking.{Taking, moment_of, taking_parts};
ghost use Rattle.strategy_check.specs.Checks.{index_faults};
ghost use Rattle.certificate_citing.specs.Shortening.{
  ShortSeen,
  short-carries_on,
  short_ending,
  short_seen,
  short_sight,
};
ghost use Rattle.certificate_citing.specs.ShortTaking.{
  of_passed,
  of_short_stop,
  of_short_walk,
  short_moment,
  short_stop_ending,
  stops-short,
};

use crate::draft::Draft;
use certificate_walks::{Halt, ItemAnswer, Items, Limit, Stop, Took, WalkAnswer, Walked, Walker};
use hive_model::{Game, MoveStack};
use strategy_check::{Why, walk_limit};

/// Cites the lemma at this place, and passes over the indices that show the limit. It answers
/// `None` if there was no memory for the token.
fn pass_over<G: Game, I: Items<Item = u32>>(
    game: &mut G,
    depth: u32,
    least: i32,
    place: u32,
    indices: &mut I,
    draft: &mut Draft,
    stack: &mut MoveStack,
) -> Option<WalkAnswer<Why>>
    requires inner { IsInner (position (G.history game.old)) depth }
    requires small { IsSmall 1000100 least }
    requires room { HasRoom depth (G.history game.old) stack.old }
    requires served { server (key (position (G.history game.old))) depth least draft.old.lemmas
        ≡ Some place }
    ensures shown { result ≡ Some WalkAnswer.Done
        → Keeps (AtLeast least) (value (position (G.history game.old)) depth) }
    ensures told { EndsHere short_rules short_sight (position (G.history game.old)) depth least
        (short_seen (I.supply indices.old).left draft.old) (short_ending result)
        (short_seen (I.supply indices.new).left draft.new) }
    ensures part { Taking index_faults result
        (moment_of [] draft.old.taken (I.supply indices.old))
        (moment_of [] draft.new.taken (I.supply indices.new)) }
    ensures game { G.history game.new ≡ G.history game.old }
    ensures stack { stack.new ≡ stack.old }
{
    if !draft.cite(place) {
        return None;
    }
    let limit = Limit::AtLeast(least);
    let walked = walk_limit(game, depth, limit, indices, &mut draft.taken, stack);
    Some(walked)
}

/// What a node answers after its indices were passed over.
fn took_of(passed: Option<WalkAnswer<Why>>) -> Took<Option<Stop<Why>>>
    ensures { result ≡ of_passed passed }
{
    match passed {
        Some(WalkAnswer::Done) => Took::Shown,
        Some(WalkAnswer::Refuses(why)) => Took::Stops(Some(Stop::Refuses(why))),
        Some(WalkAnswer::Halts(halt)) => Took::Stops(Some(Stop::Halts(halt))),
        None => Took::Stops(None),
    }
}

/// The indices of a walk, and the draft of its tokens.
#[derive(Drop)]
pub struct ShortWalk<'a, 'b, I: Items<Item = u32>> {
    pub indices: &'a mut I,
    pub draft: &'b mut Draft,
}

impl<'a, 'b, I: Items<Item = u32>> ShortWalk<'a, 'b, I> {
    /// Goes on with the draft.
    pub fn new(indices: &'a mut I, draft: &'b mut Draft) -> ShortWalk<'a, 'b, I>
        ensures indices { result.indices.ghost_name ≡ indices.entry.ghost_name }
        ensures draft { result.draft.ghost_name ≡ draft.entry.ghost_name }
        ensures same_indices { result.indices.now ≡ indices.old }
        ensures same_draft { result.draft.now ≡ draft.old }
    {
        ShortWalk { indices, draft }
    }
}

impl<I: Items<Item = u32>> Walker for ShortWalk<'_, '_, I> {
    /// `None` if there was no memory for a token.
    type Stop = Option<Stop<Why>>;

    ghost Steps = { ShortSteps };

    ghost Why = { AnyWhy };

    ghost Seen = { ShortSeen };

    ghost rules = { short_rules };

    ghost sight = { short_sight };

    ghost seen = { λ w. short_seen (I.supply w.indices.now).left w.draft.now };

    ghost ending = { short_stop_ending };

    ghost parts = { taking_parts index_faults of_short_stop (short_moment I.supply) };

    ghost counts = { λ s. refl };

    ghost carries_on = { short-carries_on };

    ghost ends_short = { stops-short };

    fn take<G: Game>(
        &mut self,
        game: &mut G,
        depth: u32,
        least: i32,
        stack: &mut MoveStack,
    ) -> Took<Option<Stop<Why>>> {
        if let Some(place) = self.draft.lemmas.first(&game.key(), depth, least) {
            let passed = pass_over(game, depth, least, place, self.indices, self.draft, stack);
            return took_of(passed);
        }
        match self.indices.take() {
            ItemAnswer::Item(place) => {
                if !self.draft.add(place) {
                    return Took::Stops(None);
                }
                Took::Below(place)
            }
            ItemAnswer::End => Took::Stops(Some(Stop::Refuses(Why::TooShort))),
            ItemAnswer::Bad => Took::Stops(Some(Stop::Halts(Halt::Bad))),
            ItemAnswer::Failed => Took::Stops(Some(Stop::Halts(Halt::Failed))),
            ItemAnswer::Full => Took::Stops(Some(Stop::Halts(Halt::Full))),
        }
    }

    fn keep<G: Game>(&mut self, game: &G, depth: u32, least: i32) {
        self.draft.lemmas.keep(game.key(), depth, least);
    }
}

/// How a part of a walk ended, or `None` if there was no memory for a token.
pub fn short_of(walked: Walked<Option<Stop<Why>>>) -> Option<WalkAnswer<Why>>
    ensures { result ≡ of_short_walk walked }
{
    match walked {
        Walked::Done => Some(WalkAnswer::Done),
        Walked::LeafFails => Some(WalkAnswer::Refuses(Why::LeafFails)),
        Walked::BadIndex => Some(WalkAnswer::Refuses(Why::BadIndex)),
        Walked::Stops(None) => None,
        Walked::Stops(Some(Stop::Refuses(why))) => Some(WalkAnswer::Refuses(why)),
        Walked::Stops(Some(Stop::Halts(halt))) => Some(WalkAnswer::Halts(halt)),
    }
}
