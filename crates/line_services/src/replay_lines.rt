//! The line with which a replay answers a line.
ghost use Rattle.std.specs.Prelude.{◌≡◌, ◌≢◌, ◌≤◌, [], ◌∷◌, ◌++◌, length, true, false, IfOk, OnOk};
ghost use Rattle.hive_model.specs.Games.{IsGame};
ghost use Rattle.hive_model.specs.Strings.{string_under};
ghost use Rattle.io_edge.specs.Lines.{greatest_line};
ghost use Rattle.hive_model.specs.Histories.{most_plies};
ghost use Rattle.game_text.specs.Reading.{game_under};
ghost use Rattle.uhp_session.specs.Answers.{line_in, IsShort};
ghost use Rattle.command_runs.specs.Reasons.{reason};
ghost use Rattle.line_services.specs.Replay.{game_answer, is_fault, refusal, refuses, replay_answer};

use command_runs::{line_for, reason_of};
use game_text::{GameFault, played, read_game_under, write_game_under};
use hive_model::{Game, GameType, Move, ReplyText};
use std::alloc::{AllocError, Global};
use uhp_session::LineIn;

/// The line that answers a line, its LF included, and whether that line is refused.
#[derive(Drop)]
pub(crate) struct Answer {
    pub(crate) text: ReplyText,
    pub(crate) refused: bool,
}

/// The line that refuses a line for this reason.
fn refuse_for(alloc: Global, why: &[u8]) -> Result<ReplyText, AllocError>
    ensures { IfOk result (λ t. t ≡ refusal why.now) }
{
    line_for(alloc, b"refused ", why)
}

/// The line that refuses a text that is not a game. Running out of memory is not a fault of the
/// text, and is passed on.
fn refuse(alloc: Global, fault: GameFault) -> Result<ReplyText, AllocError>
    ensures refusal { IfOk result (λ t. t ≡ refusal (reason fault)) }
    ensures memory { OnOk result (fault ≢ GameFault.Memory) }
{
    let why = reason_of(alloc, fault)?;
    refuse_for(alloc, why.items())
}

/// The written form of the game of this type and these moves, and an LF.
fn written<G: Game + Drop>(
    alloc: Global,
    repetition: bool,
    game_type: GameType,
    moves: &[Move],
) -> Result<ReplyText, AllocError>
    requires game { IsGame game_type moves.now }
    requires few { length moves.now ≤ most_plies }
    ensures { IfOk result (λ t. t ≡ string_under repetition game_type moves.now ++ 10 ∷ []) }
{
    let game = played::<G>(alloc, game_type, moves, 0)?;
    let mut text = ReplyText::new(alloc);
    write_game_under(alloc, &game, repetition, &mut text)?;
    text.push(b'\n')?;
    Ok(text)
}

/// The answer to a text: the written form of the game, or the reason why the text is not one.
fn answer_text<G: Game + Drop>(
    alloc: Global,
    repetition: bool,
    line: &[u8],
) -> Result<Answer, AllocError>
    requires { length line.now ≤ greatest_line }
    ensures text { IfOk result (λ a. a.text
        ≡ game_answer repetition (game_under repetition line.now)) }
    ensures refused { IfOk result (λ a. a.refused ≡ is_fault (game_under repetition line.now)) }
{
    match read_game_under::<G>(alloc, line, repetition) {
        Ok(game) => {
            let text = written::<G>(alloc, repetition, game.game_type, game.moves.items())?;
            Ok(Answer {
                text,
                refused: false,
            })
        }
        Err(fault) => {
            let text = refuse(alloc, fault)?;
            Ok(Answer {
                text,
                refused: true,
            })
        }
    }
}

/// The answer to a line, with the rule of third repetition on or off. A line that is too long is
/// refused.
#[tactic(auto, unfolding(crate::specs::Replay::replay_answer, crate::specs::Replay::refuses))]
pub(crate) fn answer_line<G: Game + Drop>(
    alloc: Global,
    repetition: bool,
    line: LineIn<'_>,
) -> Result<Answer, AllocError>
    requires { IsShort (line_in line) }
    ensures text { IfOk result (λ a. a.text ≡ replay_answer repetition (line_in line.entry)) }
    ensures refused { IfOk result (λ a. a.refused ≡ refuses repetition (line_in line.entry)) }
{
    match line {
        LineIn::Text(bytes) => answer_text::<G>(alloc, repetition, bytes),
        LineIn::TooLong => {
            let text = refuse_for(alloc, b"line too long")?;
            Ok(Answer {
                text,
                refused: true,
            })
        }
    }
}
