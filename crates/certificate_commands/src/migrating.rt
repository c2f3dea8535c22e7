//! Turns certificates into certificates that cite.

ghost use Rattle.std.specs.Prelude.{
  ◌≡◌,
  ◌≢◌,
  ◌+◌,
  ◌≤◌,
  ◌↔◌,
  ℕ,
  ℤ,
  List,
  map,
  Option,
  Some,
  IfSome,
  Err,
};
ghost use Rattle.io_edge.specs.Outside.{HasCause, Told as AnyTold};
ghost use Rattle.line_feed.specs.Feed.{Reading};
ghost use Rattle.io_edge.specs.Lines.{lines};
ghost use Rattle.hive_model.specs.Histories.{position};
ghost use Rattle.hive_model.specs.declared.places.Move.{Move as AnyMove};
ghost use Rattle.hive_model.specs.Positions.{Position};
ghost use Rattle.strategy_check.specs.Trace.{checked};
ghost use Rattle.certificate_text.specs.Text.{head_text, index_in};
ghost use Rattle.certificate_text.specs.Heads.{IsHead};
ghost use Rattle.certificate_text.specs.Taken.{HasRead, StopsAt};
ghost use Rattle.certificate_walks.specs.Answers.{CountsBad, CountsRefused, Ended, StopsUnread};
ghost use Rattle.strategy_check.specs.Checks.{index_faults};
ghost use Rattle.certificate_citing.specs.Migrating.{MigrateAnswers, answered};
ghost use Rattle.certificate_citing.specs.Migrating as calls;
ghost use Rattle.command_runs.specs.Runs.{RunsAs, side_of};
ghost use Rattle.certificate_verdicts.specs.Reading.{WasReadAs};
ghost use Rattle.certificate_verdicts.specs.Runs.{IsUndecided};
ghost use Rattle.certificate_walks.specs.Claims.{IsClaimOf};
ghost use Rattle.certificate_commands.specs.Verdicts.{of_claim, of_items};
ghost use Rattle.certificate_commands.specs.Migrating.{
  MigrateRun,
  MigratesAhead,
  MigratesHead,
  MigratesTo,
  OfItems,
  Writes,
  WritesLate,
  first_verdict,
  judged_of,
  taken_as,
};

use crate::checking::HEAD_LINES;
use crate::claims::{ClaimedGame, claimed};
use crate::heads::citing_head;
use certificate_citing::{Migrated, migrate as migrate_indices};
use certificate_text::{Head, LineIndices, read_head};
use certificate_verdicts::{TextVerdict, Unread, fault_verdict, tell_judged};
use command_runs::Status;
use hive_model::{Game, MoveStack};
use io_edge::{Sink, Source};
use line_feed::LineReader;
use std::alloc::Global;
use strategy_check::{Claim, Halt, Why};

/// The result for a text that was to be made into one that cites.
#[derive(Clone, Copy, Debug, PartialEq, Eq)]
pub enum Taken {
    /// All was written.
    Written,
    /// A write failed.
    Cut,
    /// The verdict on it, which is not acceptance. Nothing was written.
    Judged(TextVerdict),
    /// It could not be read. Nothing was written.
    Missed(Unread),
}

/// The version of a certificate that is made into one that cites.
const FIRST: u32 = 1;

/// The result for this answer of the call, if this number of lines was taken after the head.
fn taken_of(migrated: Migrated, lines: u64) -> Taken
    ensures told { (p : Position) (d : ℕ) (m : AnyMove) (v : ℤ) (items : List (Option ℕ))
        (head : List ℕ) (before after : AnyTold)
        → MigrateAnswers p d m v items head migrated before after
        → IfSome (answered migrated) (λ answer. CountsBad (checked p d m v items) answer lines)
        → Writes (of_items p d m v items) (OfItems p d m v items head) result before after }
    ensures late { (before after : AnyTold) → calls.WritesLate migrated before after
        → WritesLate result before after }
    ensures failed { (result ≡ Taken.Missed Unread.ReadFault)
        ↔ (migrated ≡ Migrated.Halted Halt.Failed) }
    ensures read { (text : List ℕ) (rest : AnyTold) (reader : Reading)
        → HasRead text rest reader (5 + lines)
        → IfSome (answered migrated) (λ answer. CountsRefused index_faults answer lines)
        → IfSome (answered migrated) (λ answer. Ended index_faults
        (λ stop. StopsAt index_in stop reader) answer)
        → WasReadAs 5 (judged_of result) text rest }
    ensures unread { (p : Position) (d : ℕ) (m : AnyMove) (v : ℤ) (items : List (Option ℕ))
        → IfSome (answered migrated) (λ answer.
        StopsUnread index_faults (checked p d m v items) answer lines)
        → (text : List ℕ) (rest : AnyTold) (reader : Reading) → HasRead text rest reader (5 + lines)
        → result ≡ Taken.Missed Unread.ReadFault
        → IsUndecided 5 (of_items p d m v items) text rest }
    ensures cut { (result ≡ Taken.Cut) ↔ (migrated ≡ Migrated.WriteFault) }
{
    match migrated {
        Migrated::Done => Taken::Written,
        Migrated::WriteFault => Taken::Cut,
        Migrated::Refused { place, why } => Taken::Judged(TextVerdict::Refused { place, why }),
        Migrated::Halted { answer: Halt::Bad } => Taken::Judged(TextVerdict::BadLine {
            line: lines.saturating_add(HEAD_LINES as u64),
        }),
        Migrated::Halted {
            answer: Halt::Failed,
        } => Taken::Missed(Unread::ReadFault),
        Migrated::Halted { answer: Halt::Full } => Taken::Missed(Unread::InputFull),
        Migrated::Memory => Taken::Missed(Unread::Memory),
    }
}

/// The result for a text that was judged before anything was written.
fn taken_as(judged: Result<TextVerdict, Unread>) -> Taken
    ensures is { result ≡ taken_as judged }
    ensures judged { judged_of result ≡ judged }
    ensures missed { (result ≡ Taken.Missed Unread.ReadFault) ↔ (judged ≡ Err Unread.ReadFault) }
    ensures uncut { result ≢ Taken.Cut }
{
    match judged {
        Ok(verdict) => Taken::Judged(verdict),
        Err(unread) => Taken::Missed(unread),
    }
}

/// Writes a head, and then the tokens that are made of the lines to come.
fn migrate_lines<S: Source, G: Game, K: Sink>(
    alloc: Global,
    claim: &Claim,
    head: &[u8],
    reader: &mut LineReader,
    input: &mut S,
    game: &mut G,
    stack: &mut MoveStack,
    output: &mut K,
) -> Taken
    requires claim { IsClaimOf (G.history game.old) claim.now.depth claim.now.value }
    requires room { claim.now.depth ≤ stack.old.free }
    ensures { MigratesAhead
        (λ left. of_items (position (G.history game.old))
        claim.now.depth claim.now.best claim.now.value (map index_in left))
        (λ left. OfItems (position (G.history game.old))
        claim.now.depth claim.now.best claim.now.value (map index_in left) head.now)
        5 result reader.old
        (side_of S.rest S.read_faults input.old) (side_of K.written K.write_faults output.old)
        (side_of S.rest S.read_faults input.new) (side_of K.written K.write_faults output.new) }
{
    let mut indices = LineIndices::new(reader, input);
    let migrated = migrate_indices(alloc, game, claim, &mut indices, head, stack, output);
    taken_of(migrated, indices.lines())
}

/// The same, with the text of the claimed move read and the head written anew.
fn migrate_move<S: Source, G: Game + Drop, K: Sink>(
    alloc: Global,
    claim: &Claim,
    reader: &mut LineReader,
    input: &mut S,
    game: &mut G,
    output: &mut K,
) -> Taken
    requires claim { IsClaimOf (G.history game.old) claim.now.depth claim.now.value }
    ensures { MigratesAhead
        (λ left. of_items (position (G.history game.old))
        claim.now.depth claim.now.best claim.now.value (map index_in left))
        (λ left. OfItems (position (G.history game.old))
        claim.now.depth claim.now.best claim.now.value (map index_in left)
        (head_text 2 (G.history game.old).game_type (G.history game.old).made
        claim.now.depth claim.now.best claim.now.value))
        5 result reader.old
        (side_of S.rest S.read_faults input.old) (side_of K.written K.write_faults output.old)
        (side_of S.rest S.read_faults input.new) (side_of K.written K.write_faults output.new) }
{
    if !game.is_legal(claim.best) {
        return Taken::Judged(TextVerdict::Refused {
            place: 0,
            why: Why::NoSuchMove,
        });
    }
    let Ok(head) = citing_head(alloc, game, claim) else {
        return Taken::Missed(Unread::Memory);
    };
    let Ok(mut stack) = MoveStack::new(alloc, claim.depth) else {
        return Taken::Missed(Unread::Memory);
    };
    migrate_lines(
        alloc,
        claim,
        head.items(),
        reader,
        input,
        game,
        &mut stack,
        output,
    )
}

/// The same for the lines after a head.
fn migrate_claim<S: Source, G: Game + Drop, K: Sink>(
    alloc: Global,
    head: &Head,
    reader: &mut LineReader,
    input: &mut S,
    output: &mut K,
) -> Taken
    requires { IsHead 1 head.now }
    ensures { MigratesAhead (of_claim head.now) (MigratesHead head.now) 5 result reader.old
        (side_of S.rest S.read_faults input.old) (side_of K.written K.write_faults output.old)
        (side_of S.rest S.read_faults input.new) (side_of K.written K.write_faults output.new) }
{
    match claimed::<G>(alloc, head) {
        Ok(ClaimedGame { mut game, claim }) => migrate_move(
            alloc, &claim, reader, input, &mut game, output,
        ),
        Err(judged) => taken_as(judged),
    }
}

/// The same with the head.
fn migrate_all<S: Source, G: Game + Drop, K: Sink>(
    alloc: Global,
    reader: &mut LineReader,
    input: &mut S,
    output: &mut K,
) -> Taken
    ensures { MigratesAhead first_verdict MigratesTo 0 result reader.old
        (side_of S.rest S.read_faults input.old) (side_of K.written K.write_faults output.old)
        (side_of S.rest S.read_faults input.new) (side_of K.written K.write_faults output.new) }
{
    match read_head::<G, S>(alloc, reader, input, FIRST) {
        Ok(head) => migrate_claim::<S, G, K>(alloc, &head, reader, input, output),
        Err(fault) => taken_as(fault_verdict(fault)),
    }
}

/// The same with a reader of its own.
fn migrate_input<S: Source, G: Game + Drop, K: Sink>(
    alloc: Global,
    input: &mut S,
    output: &mut K,
) -> Taken
    ensures told { (text : List ℕ) → S.rest input.old ≡ Some text
        → Writes (first_verdict (lines text)) (MigratesTo (lines text)) result
        (K.written output.old) (K.written output.new) }
    ensures late { WritesLate result (K.written output.old) (K.written output.new) }
    ensures read { (text : List ℕ) → S.rest input.old ≡ Some text
        → WasReadAs 5 (judged_of result) text (S.rest input.new) }
    ensures unread { (text : List ℕ) → S.rest input.old ≡ Some text
        → result ≡ Taken.Missed Unread.ReadFault
        → IsUndecided 5 (first_verdict (lines text)) text (S.rest input.new) }
    ensures reads { HasCause (result ≡ Taken.Missed Unread.ReadFault)
        (S.read_faults input.old) (S.read_faults input.new) }
    ensures writes { HasCause (result ≡ Taken.Cut)
        (K.write_faults output.old) (K.write_faults output.new) }
{
    let Ok(mut reader) = LineReader::new(alloc) else {
        return Taken::Missed(Unread::Memory);
    };
    migrate_all::<S, G, K>(alloc, &mut reader, input, output)
}

/// Turns the input, which must be a certificate of the first version that holds, into one of the
/// second version. It writes the line `hive-certificate 2`, the game and the move in their written
/// forms, and the same depth and value. Then come the tokens, each on a line of its own, which cite
/// wherever something shown before serves.
///
/// It is then `Done`. All of the input is read before the first write. For any other input it
/// writes the line that a check of the first version writes, with its status. If the input is full,
/// memory runs out, or a read fails before the deciding lines were read, the run ends with nothing
/// written.
pub fn migrate<S: Source, K: Sink, G: Game + Drop>(
    alloc: Global,
    input: &mut S,
    output: &mut K,
) -> Status
    ensures { RunsAs MigrateRun result
        (side_of S.rest S.read_faults input.old) (side_of K.written K.write_faults output.old)
        (side_of S.rest S.read_faults input.new) (side_of K.written K.write_faults output.new) }
{
    match migrate_input::<S, G, K>(alloc, input, output) {
        Taken::Written => Status::Done,
        Taken::Cut => Status::WriteFault,
        Taken::Judged(verdict) => tell_judged(alloc, Ok(verdict), output),
        Taken::Missed(unread) => tell_judged(alloc, Err(unread), output),
    }
}
