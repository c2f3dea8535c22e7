//! The answer of a whole check, made from the end of its walk.

ghost use Rattle.std.specs.Prelude.{◌≡◌, ℕ};
ghost use Rattle.certificate_walks.specs.Ends.{EndsItems, IsWhole};
ghost use Rattle.certificate_walks.specs.Answers.{Faults, IsOfWalk};

use crate::items::{ItemAnswer, Items};
use crate::walk_answers::{Checked, Halt, WalkAnswer};

/// The faults of a walk over items.
pub trait WalkFault: Copy {
    /// The properties of each fault that contracts use.
    ghost kinds: { Faults Self };

    /// The fault that items are left over.
    ghost rest: { Self };

    /// This fault says nothing of a missing item.
    ghost rest_is_met: { (claim : Type 0) → kinds.on_short rest claim };

    /// The fault that items are left over.
    fn left_over() -> Self
        ensures { result ≡ rest };

    /// A walk below a root can end with this fault.
    ghost rest_is_below: { kinds.is_below_root rest };

    /// The check looked at one of the items that are left over.
    ghost rest_is_seen: { kinds.looked_at rest ≡ 1 };
}

/// Refuses because items are left over after `taken` items.
fn refused_rest<W: WalkFault>(taken: u64) -> Checked<W>
    ensures { result ≡ Checked.Refused taken W.rest }
{
    Checked::Refused {
        place: taken,
        why: W::left_over(),
    }
}

/// The answer of a whole check whose walk ended like this after `taken` items. It accepts only if
/// the walk showed everything and no item is left.
pub fn answer_of<W: WalkFault, I: Items>(
    walked: WalkAnswer<W>,
    taken: u64,
    items: &mut I,
) -> Checked<W>
    ensures done { result ≡ Checked.Accepted → walked ≡ WalkAnswer.Done }
    ensures whole { IsWhole W.rest walked taken (I.supply items.old).left result }
    ensures legal { (place : ℕ) (why : W) → IsOfWalk W.kinds walked
        → result ≡ Checked.Refused place why → W.kinds.is_below_root why }
    ensures items { EndsItems W.kinds walked taken result
        (I.supply items.old) (I.supply items.new) }
{
    match walked {
        WalkAnswer::Done => match items.take() {
            ItemAnswer::End => Checked::Accepted,
            ItemAnswer::Item(_) => refused_rest(taken),
            ItemAnswer::Bad => refused_rest(taken),
            ItemAnswer::Failed => Checked::Halted {
                answer: Halt::Failed,
            },
            ItemAnswer::Full => Checked::Halted { answer: Halt::Full },
        },
        WalkAnswer::Refuses(why) => Checked::Refused { place: taken, why },
        WalkAnswer::Halts(answer) => Checked::Halted { answer },
    }
}
