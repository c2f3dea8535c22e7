//! The verdict on a text that is checked.

ghost use Rattle.std.specs.Prelude.{◌≡◌, ◌↔◌, ◌+◌, ◌<◌, ℕ, List, Option, Err};
ghost use Rattle.io_edge.specs.Outside.{Told as AnyTold};
ghost use Rattle.io_edge.specs.Lines.{Line};
ghost use Rattle.line_feed.specs.Feed.{Reading, input_limit};
ghost use Rattle.certificate_walks.specs.Walks.{WalkEnd};
ghost use Rattle.certificate_walks.specs.Answers.{
  Answers,
  CountsBad,
  CountsRefused,
  Ended,
  StopsUnread,
};
ghost use Rattle.certificate_text.specs.Heads.{fault_line};
ghost use Rattle.certificate_text.specs.Taken.{HasRead, StopsAt};
ghost use Rattle.certificate_verdicts.specs.Verdicts.{walk_verdict};
ghost use Rattle.certificate_verdicts.specs.Reading.{Judges, WasReadAs, of_fault};
ghost use Rattle.certificate_verdicts.specs.Runs.{IsUndecided};

use crate::reasons::Reasons;
use certificate_text::HeadFault;
use game_text::GameFault;
use strategy_check::{Checked, Halt, Why};

/// The verdict on a text, which has a head that makes a claim and after it indices that have to
/// show it.
#[derive(Clone, Copy, Debug, PartialEq, Eq)]
pub enum TextVerdict {
    /// It shows that its claim is true.
    Accepted,
    /// The first fault of its claim or its indices, and how many indices were taken before it,
    /// capped at the greatest `u64`. A bad index counts as taken.
    Refused { place: u64, why: Why },
    /// A cited lemma does not exist, or does not serve. The number says how many tokens were taken,
    /// the citation included, capped at the greatest `u64`.
    BadCite { place: u64 },
    /// The first line that is missing, too long or malformed, counted from 1.
    BadLine { line: u64 },
    /// What is wrong with the second line as a game. It is never that memory ran out.
    BadGame { fault: GameFault },
    /// The game is over.
    GameOver,
}

/// Why a text could not be read.
#[derive(Clone, Copy, Debug, PartialEq, Eq)]
pub enum Unread {
    /// A read of the input failed.
    ReadFault,
    /// The input has 1,099,511,627,776 bytes or more before its end.
    InputFull,
    /// Memory ran out.
    Memory,
}

/// The verdict if there is no head.
pub fn fault_verdict(fault: HeadFault) -> Result<TextVerdict, Unread>
    ensures is { result ≡ of_fault fault }
    ensures failed { (result ≡ Err Unread.ReadFault) ↔ (fault ≡ HeadFault.ReadFault) }
    ensures full { result ≡ Err Unread.InputFull → fault ≡ HeadFault.InputFull }
    ensures read { (head : ℕ) (text : List ℕ) (rest : AnyTold) (reader : Reading)
        → HasRead text rest reader (fault_line head fault)
        → (fault ≡ HeadFault.ReadFault → reader.taken < input_limit)
        → (fault ≡ HeadFault.InputFull → reader.taken ≡ input_limit)
        → WasReadAs head result text rest }
{
    match fault {
        HeadFault::BadLine { line } => Ok(TextVerdict::BadLine { line: line as u64 }),
        HeadFault::BadGame { fault } => Ok(TextVerdict::BadGame { fault }),
        HeadFault::ReadFault => Err(Unread::ReadFault),
        HeadFault::InputFull => Err(Unread::InputFull),
        HeadFault::Memory => Err(Unread::Memory),
    }
}

/// What the answer of a check means after a head of `head` lines, when `lines` lines were taken
/// after it.
pub fn verdict_of<R: Reasons>(
    checked: Checked<R::Why>,
    head: u32,
    lines: u64,
) -> Result<TextVerdict, Unread>
    ensures judges { (o : WalkEnd R.Steps R.Why) → Answers o checked → CountsBad o checked lines
        → Judges result (walk_verdict R.refusal head o) }
    ensures failed { (result ≡ Err Unread.ReadFault) ↔ (checked ≡ Checked.Halted Halt.Failed) }
    ensures full { result ≡ Err Unread.InputFull → checked ≡ Checked.Halted Halt.Full }
    ensures read { (text : List ℕ) (rest : AnyTold) (reader : Reading) (item : Line → Option R.Item)
        → HasRead text rest reader (head + lines) → CountsRefused R.faults checked lines
        → Ended R.faults (λ answer. StopsAt item answer reader) checked
        → WasReadAs head result text rest }
    ensures unread { (o : WalkEnd R.Steps R.Why) → StopsUnread R.faults o checked lines
        → (text : List ℕ) (rest : AnyTold) (reader : Reading)
        → HasRead text rest reader (head + lines) → result ≡ Err Unread.ReadFault
        → IsUndecided head (walk_verdict R.refusal head o) text rest }
{
    match checked {
        Checked::Accepted => Ok(TextVerdict::Accepted),
        Checked::Refused { place, why } => Ok(R::refused(why, place)),
        Checked::Halted { answer: Halt::Bad } => Ok(TextVerdict::BadLine {
            line: lines.saturating_add(head as u64),
        }),
        Checked::Halted {
            answer: Halt::Failed,
        } => Err(Unread::ReadFault),
        Checked::Halted { answer: Halt::Full } => Err(Unread::InputFull),
    }
}
