//! Checks of solutions.

ghost use Rattle.std.specs.Prelude.{◌≤◌, map};
ghost use Rattle.hive_model.specs.Minimax.{IsInner};
ghost use Rattle.hive_model.specs.Histories.{position};
ghost use Rattle.certificate_text.specs.Text.{index_in};
ghost use Rattle.command_runs.specs.Runs.{RunsAs, side_of};
ghost use Rattle.certificate_verdicts.specs.Judging.{JudgesAhead};
ghost use Rattle.win_commands.specs.Verdicts.{IsHead, claim-not-yet, head_of, of_claim, of_items};
ghost use Rattle.win_commands.specs.Runs.{VerifyRun};

use crate::head::{Head, read_head};
use certificate_text::{HeadFault, LineIndices};
use certificate_verdicts::{IndexReasons, TextForm, TextVerdict, Unread, check_text, verdict_of};
use command_runs::{Status, is_over};
use game_text::played;
use hive_model::{Game, MoveStack};
use io_edge::{Sink, Source};
use line_feed::LineReader;
use std::alloc::Global;
use win_solver::check_solution;

/// How many lines a head has.
const HEAD_LINES: u32 = 4;

/// The verdict on the lines to come, taken as the indices of an answer about the game's position.
fn judge_indices<S: Source, G: Game>(
    reader: &mut LineReader,
    input: &mut S,
    game: &mut G,
    plies: u32,
    answer: bool,
    stack: &mut MoveStack,
) -> Result<TextVerdict, Unread>
    requires few { plies ≤ 16 }
    requires inner { IsInner (position (G.history game.old)) plies }
    requires spare { plies ≤ (G.history game.old).spare }
    requires room { plies ≤ stack.old.free }
    ensures { JudgesAhead 4
        (λ left. of_items (position (G.history game.old)) plies answer (map index_in left))
        4 result reader.old
        (side_of S.rest S.read_faults input.old) (side_of S.rest S.read_faults input.new) }
{
    let mut indices = LineIndices::new(reader, input);
    let checked = check_solution(game, plies, answer, &mut indices, stack);
    verdict_of::<IndexReasons>(checked, HEAD_LINES, indices.lines())
}

/// The verdict on the lines to come after a head.
fn judge_claim<S: Source, G: Game + Drop>(
    alloc: Global,
    head: Head,
    reader: &mut LineReader,
    input: &mut S,
) -> Result<TextVerdict, Unread>
    requires { IsHead head }
    ensures { JudgesAhead 4 (of_claim head) 4 result reader.old
        (side_of S.rest S.read_faults input.old) (side_of S.rest S.read_faults input.new) }
{
    let Ok(mut game) = played::<G>(
        alloc,
        head.game.game_type,
        head.game.moves.items(),
        head.plies,
    ) else {
        return Err(Unread::Memory);
    };
    if is_over(&game) {
        return Ok(TextVerdict::GameOver);
    }
    let Ok(mut stack) = MoveStack::new(alloc, head.plies) else {
        return Err(Unread::Memory);
    };
    judge_indices(
        reader,
        input,
        &mut game,
        head.plies,
        head.answer,
        &mut stack,
    )
}

/// The form of solutions.
struct Solutions;

impl TextForm for Solutions {
    type Head = Head;

    ghost head_lines = { 4 };

    ghost head_of = { head_of };

    ghost keeps = { IsHead };

    ghost worth = { of_claim };

    ghost not_yet = { claim-not-yet };

    fn read_head<S: Source, G: Game + Drop>(
        &self,
        alloc: Global,
        reader: &mut LineReader,
        input: &mut S,
    ) -> Result<Head, HeadFault> {
        read_head::<G, S>(alloc, reader, input)
    }

    fn judge_claim<S: Source, G: Game + Drop>(
        &self,
        alloc: Global,
        head: Head,
        reader: &mut LineReader,
        input: &mut S,
    ) -> Result<TextVerdict, Unread> {
        judge_claim::<S, G>(alloc, head, reader, input)
    }
}

/// Checks the input, which has to be a solution: the lines `hive-solution 1`, a game string,
/// `plies N` with N from 1 to 16, `answer yes` or `answer no`, and indices from 0 to 5487, one a
/// line.
///
/// If the indices show that the answer is true, and none is left over, it writes `accepted`, and
/// the status is `Done`. Otherwise it writes `refused`, then `index`, `leaf`, `short` or `rest`,
/// and how many indices were taken, and the status is `Refused`. If the text does not have this
/// form, a line that begins with `bad` says so, and the status is `BadInput`. The reason is the
/// first of the first four lines that is missing, too long or malformed; what is wrong with the
/// game; that the game is over; or the first line that is no index when one is taken. If a read
/// fails, the input is full or memory runs out, the run ends with nothing written.
pub fn verify<S: Source, K: Sink, G: Game + Drop>(
    alloc: Global,
    input: &mut S,
    output: &mut K,
) -> Status
    ensures { RunsAs VerifyRun result
        (side_of S.rest S.read_faults input.old) (side_of K.written K.write_faults output.old)
        (side_of S.rest S.read_faults input.new) (side_of K.written K.write_faults output.new) }
{
    check_text::<Solutions, S, K, G>(alloc, &Solutions, input, output)
}
