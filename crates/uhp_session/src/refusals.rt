//! Why a game string or a move is refused.

ghost use Rattle.std.specs.Prelude.{◌≡◌, ◌≢◌, [], ◌∷◌, Some, codes, IfOk, OnOk};
ghost use Rattle.uhp_session.specs.Answers.{text_of, ended, before_reason, game_fault, move_fault};

use crate::lines::Reply;
use crate::says::{close, say};
use command_runs::reason_of;
use game_text::GameFault;
use hive_model::ReplyText;
use move_text::{MoveFault, piece_name};
use std::alloc::{AllocError, Global};

/// What comes before the reason why a text is not a game: `err` and the number of the refusal.
fn before_reason(fault: &GameFault) -> &'static [u8]
    ensures { result.now ≡ before_reason fault.now }
{
    match *fault {
        GameFault::Malformed { .. } => b"err 4 ",
        GameFault::TooLong => b"err 11 ",
        GameFault::BadMove { .. } | GameFault::IllegalMove { .. } => b"err 6 ",
        GameFault::OtherState | GameFault::OtherTurn => b"err 5 ",
        GameFault::Memory => b"",
    }
}

/// The refusal of a text that is not a game. Running out of memory is not a fault of the text, and
/// is passed on.
pub(crate) fn refuse_game(alloc: Global, fault: GameFault) -> Result<Reply, AllocError>
    ensures reply { IfOk result (λ r. text_of r
        ≡ Some (ended (game_fault fault ∷ (codes "ok" ∷ [])))) }
    ensures memory { OnOk result (fault ≢ GameFault.Memory) }
{
    let start = before_reason(&fault);
    let why = reason_of(alloc, fault)?;
    let mut text = ReplyText::new(alloc);
    text.push_all(start)?;
    text.push_all(why.items())?;
    close(text)
}

/// The refusal of a text that is not a move on the board.
pub(crate) fn refuse_move(alloc: Global, fault: MoveFault) -> Result<Reply, AllocError>
    ensures { IfOk result (λ r. text_of r ≡ Some (ended (move_fault fault ∷ (codes "ok" ∷ [])))) }
{
    match fault {
        MoveFault::NotAMove { .. } | MoveFault::NoSuchPiece => say(
            alloc,
            b"invalidmove 1 unreadable",
        ),
        MoveFault::NotInPlay { piece } => {
            let mut text = ReplyText::new(alloc);
            text.push_all(b"invalidmove 2 not in play ")?;
            text.push_all(piece_name(piece).as_bytes())?;
            close(text)
        }
    }
}
