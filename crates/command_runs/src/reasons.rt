//! The reasons for which a text is not a game, and the lines that state them.
ghost use Rattle.std.specs.Prelude.{◌≡◌, ◌≢◌, [], ◌∷◌, ◌++◌, decimal, IfOk, OnOk};
ghost use Rattle.command_runs.specs.Reasons.{reason};

use game_text::GameFault;
use hive_model::ReplyText;
use itoa::Buffer;
use std::alloc::{AllocError, Global};

/// A copy of these bytes.
fn reason_text(alloc: Global, bytes: &[u8]) -> Result<ReplyText, AllocError>
    ensures { IfOk result (λ t. t ≡ bytes.now) }
{
    let mut text = ReplyText::new(alloc);
    text.push_all(bytes)?;
    Ok(text)
}

/// These bytes, followed by a number.
pub fn numbered(alloc: Global, bytes: &[u8], number: u64) -> Result<ReplyText, AllocError>
    ensures { IfOk result (λ t. t ≡ bytes.now ++ decimal number) }
{
    let mut text = reason_text(alloc, bytes)?;
    let mut buffer = Buffer::new();
    text.push_all(buffer.format(number).as_bytes())?;
    Ok(text)
}

/// Why a text is not a game. Running out of memory is not a fault of the text, and is passed on.
pub fn reason_of(alloc: Global, fault: GameFault) -> Result<ReplyText, AllocError>
    ensures reason { IfOk result (λ t. t ≡ reason fault) }
    ensures memory { OnOk result (fault ≢ GameFault.Memory) }
{
    match fault {
        GameFault::Malformed { part } => numbered(alloc, b"malformed part ", u64::from(part)),
        GameFault::TooLong => reason_text(alloc, b"too many plies"),
        GameFault::BadMove { number, .. } | GameFault::IllegalMove { number } => {
            numbered(alloc, b"illegal move ", u64::from(number))
        }
        GameFault::OtherState => reason_text(alloc, b"other state"),
        GameFault::OtherTurn => reason_text(alloc, b"other turn"),
        GameFault::Memory => Err(AllocError),
    }
}

/// A line of two parts, with its LF.
pub fn line_for(alloc: Global, start: &[u8], why: &[u8]) -> Result<ReplyText, AllocError>
    ensures { IfOk result (λ t. t ≡ start.now ++ (why.now ++ 10 ∷ [])) }
{
    let mut text = ReplyText::new(alloc);
    text.push_all(start)?;
    text.push_all(why)?;
    text.push(b'\n')?;
    Ok(text)
}
