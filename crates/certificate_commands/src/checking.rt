//! Checks of certificates.

ghost use Rattle.std.specs.Prelude.{◌≤◌, map};
ghost use Rattle.hive_model.specs.Histories.{position};
ghost use Rattle.certificate_text.specs.Text.{head_of, index_in};
ghost use Rattle.certificate_text.specs.Heads.{IsHead};
ghost use Rattle.command_runs.specs.Runs.{RunsAs, side_of};
ghost use Rattle.certificate_verdicts.specs.Judging.{JudgesAhead};
ghost use Rattle.certificate_walks.specs.Claims.{IsClaimOf};
ghost use Rattle.certificate_commands.specs.Verdicts.{
  CheckRun,
  claim-not-yet,
  of_claim,
  of_items,
  of_lines,
};

use crate::citing::judge_tokens;
use crate::claims::{ClaimedGame, claimed};
use certificate_text::{Head, HeadFault, LineIndices, read_head};
use certificate_verdicts::{IndexReasons, TextForm, TextVerdict, Unread, check_text, verdict_of};
use command_runs::Status;
use hive_model::{Game, MoveStack};
use io_edge::{Sink, Source};
use line_feed::LineReader;
use std::alloc::Global;
use strategy_check::{Claim, check as check_indices};
use strategy_lemmas::Lemmas;

/// The greatest version of a certificate that is known.
const NEWEST: u32 = 2;

/// The number of lines of a head.
pub(crate) const HEAD_LINES: u32 = 5;

/// The verdict on the lines to come as the indices of a claim about the game's position.
fn judge_indices<S: Source, G: Game>(
    reader: &mut LineReader,
    input: &mut S,
    game: &mut G,
    claim: &Claim,
    stack: &mut MoveStack,
) -> Result<TextVerdict, Unread>
    requires claim { IsClaimOf (G.history game.old) claim.now.depth claim.now.value }
    requires room { claim.now.depth ≤ stack.old.free }
    ensures { JudgesAhead 5 (λ left. of_items (position (G.history game.old))
        claim.now.depth claim.now.best claim.now.value (map index_in left)) 5 result reader.old
        (side_of S.rest S.read_faults input.old) (side_of S.rest S.read_faults input.new) }
{
    let mut indices = LineIndices::new(reader, input);
    let checked = check_indices(game, claim, &mut indices, stack);
    let lines = indices.lines();
    verdict_of::<IndexReasons>(checked, HEAD_LINES, lines)
}

/// The verdict on the lines to come, after a head of this version, as those of the claim that this
/// move is the best one.
fn judge_move<S: Source, G: Game>(
    alloc: Global,
    version: u32,
    claim: &Claim,
    reader: &mut LineReader,
    input: &mut S,
    game: &mut G,
) -> Result<TextVerdict, Unread>
    requires claim { IsClaimOf (G.history game.old) claim.now.depth claim.now.value }
    ensures { JudgesAhead 5 (of_lines version (position (G.history game.old))
        claim.now.depth claim.now.best claim.now.value) 5 result reader.old
        (side_of S.rest S.read_faults input.old) (side_of S.rest S.read_faults input.new) }
{
    let Ok(mut stack) = MoveStack::new(alloc, claim.depth) else {
        return Err(Unread::Memory);
    };
    if version == 1 {
        return judge_indices(reader, input, game, claim, &mut stack);
    }
    let Ok(mut lemmas) = Lemmas::new(alloc) else {
        return Err(Unread::Memory);
    };
    judge_tokens(reader, input, game, claim, &mut lemmas, &mut stack)
}

/// The verdict on the lines to come after a head.
fn judge_claim<S: Source, G: Game + Drop>(
    alloc: Global,
    head: &Head,
    reader: &mut LineReader,
    input: &mut S,
) -> Result<TextVerdict, Unread>
    requires { IsHead NEWEST head.now }
    ensures { JudgesAhead 5 (of_claim head.now) 5 result reader.old
        (side_of S.rest S.read_faults input.old) (side_of S.rest S.read_faults input.new) }
{
    match claimed::<G>(alloc, head) {
        Ok(ClaimedGame { mut game, claim }) => judge_move(
            alloc,
            head.version,
            &claim,
            reader,
            input,
            &mut game,
        ),
        Err(judged) => judged,
    }
}

/// The form of certificates of both versions.
struct Certificates;

impl TextForm for Certificates {
    type Head = Head;

    ghost head_lines = { 5 };

    ghost head_of = { head_of 2 };

    ghost keeps = { IsHead 2 };

    ghost worth = { of_claim };

    ghost not_yet = { claim-not-yet };

    fn read_head<S: Source, G: Game + Drop>(
        &self,
        alloc: Global,
        reader: &mut LineReader,
        input: &mut S,
    ) -> Result<Head, HeadFault> {
        read_head::<G, S>(alloc, reader, input, NEWEST)
    }

    fn judge_claim<S: Source, G: Game + Drop>(
        &self,
        alloc: Global,
        head: Head,
        reader: &mut LineReader,
        input: &mut S,
    ) -> Result<TextVerdict, Unread> {
        judge_claim::<S, G>(alloc, &head, reader, input)
    }
}

/// Checks the input, which must be a certificate. Its first line is `hive-certificate 1` or
/// `hive-certificate 2`, and its second a game string. Then come `depth N` with N from 1 to 64,
/// `move ` and a move text, and `value V` with V from -1,000,064 to 1,000,064. Then come indices
/// from 0 to 5487, each on a line of its own. In the second version `@` and a number from 0 to
/// 65535, which cites what was shown before, may replace an index.
///
/// The indices must show that the move is the best one at that depth and has the value V, and none
/// may be left over. If so, it writes `accepted` and is `Done`. Otherwise it writes `refused`, one
/// of `move`, `index`, `cite`, `leaf`, `short` and `rest`, and how many were taken, and is
/// `Refused`. If the text denotes no legal move, it writes `refused move 0`.
///
/// If the text does not have this form, a line that begins with `bad` says so, and it is
/// `BadInput`. The line names the first of the first five lines that is missing, too long or not of
/// its form, or what is wrong with the game. It may also say that the game is over, or name the
/// first line that is taken as an index and is not one. If a read fails, the input is full or
/// memory runs out, the run ends with nothing written.
pub fn check<S: Source, K: Sink, G: Game + Drop>(
    alloc: Global,
    input: &mut S,
    output: &mut K,
) -> Status
    ensures { RunsAs CheckRun result
        (side_of S.rest S.read_faults input.old) (side_of K.written K.write_faults output.old)
        (side_of S.rest S.read_faults input.new) (side_of K.written K.write_faults output.new) }
{
    check_text::<Certificates, S, K, G>(alloc, &Certificates, input, output)
}
