//! The reasons to refuse texts.

ghost use Rattle.std.specs.Prelude.{◌≡◌, ◌+◌, ◌<◌, ◌≤◌, ℕ, List, true, Ok};
ghost use Rattle.io_edge.specs.Outside.{Told as AnyTold};
ghost use Rattle.line_feed.specs.Feed.{Reading};
ghost use Rattle.certificate_walks.specs.Answers.{Faults};
ghost use Rattle.strategy_check.specs.Trace.{Steps as AnySteps};
ghost use Rattle.strategy_check.specs.Checks.{index_faults};
ghost use Rattle.certificate_text.specs.Taken.{HasRead};
ghost use Rattle.certificate_verdicts.specs.declared.verdict.TextVerdict.{TextVerdict as AnyVerdict};
ghost use Rattle.certificate_verdicts.specs.Reading.{WasReadAs};
ghost use Rattle.certificate_verdicts.specs.Runs.{IsDecidedBehind};
ghost use Rattle.certificate_verdicts.specs.Verdicts.{index_refusal};

use crate::verdict::TextVerdict;
use strategy_check::Why;

/// The reasons to refuse texts whose items are checked in one way.
pub trait Reasons {
    /// One of the reasons.
    type Why: Copy;

    /// What is left after a walk of the items that ends well.
    ghost Steps: { Type 0 };

    /// What a line holds.
    ghost Item: { Type 0 };

    /// The properties of the reasons, as faults of walks.
    ghost faults: { Faults Self.Why };

    /// The verdict for a reason, given how many items were taken before it.
    ghost refusal: { ℕ → Self.Why → AnyVerdict };

    /// If fewer lines were read than the walk looked for before this reason, they do not decide the
    /// verdict.
    ghost decides: { (head lines place : ℕ) (why : Self.Why)
        → lines < head + place + faults.looked_for why
        → IsDecidedBehind head (refusal place why) lines };

    /// The verdict for the reason, given how many items were taken before it. If no more lines were
    /// taken than the walk looked at, the contract says what was read of the text.
    fn refused(why: Self::Why, place: u64) -> TextVerdict
        ensures is { result ≡ refusal place why }
        ensures read { (head lines : ℕ) (text : List ℕ) (rest : AnyTold) (reader : Reading)
            → lines ≤ place + faults.looked_at why → HasRead text rest reader (head + lines)
            → faults.on_short why (reader.finished ≡ true) → WasReadAs head (Ok result) text rest };
}

/// The reasons to refuse texts of indices.
pub struct IndexReasons;

impl Reasons for IndexReasons {
    type Why = Why;

    ghost Steps = { AnySteps };

    ghost Item = { ℕ };

    ghost faults = { index_faults };

    ghost refusal = { index_refusal };

    ghost decides = { λ head lines place why few. few };

    fn refused(why: Why, place: u64) -> TextVerdict {
        TextVerdict::Refused { place, why }
    }
}
