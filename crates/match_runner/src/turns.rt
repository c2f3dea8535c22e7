//! One act of a match.
ghost use Rattle.std.specs.Prelude.{◌≡◌, ◌≢◌, ◌+◌, ◌<◌, [], IsTrue};
ghost use Rattle.hive_model.specs.declared.pieces.Colour.{Colour};
ghost use Rattle.io_edge.specs.Lines.{greatest_line};
ghost use Rattle.line_feed.specs.Feed.{input_limit};
ghost use Rattle.line_feed.specs.Ahead.{ahead_of};
ghost use Rattle.match_core.specs.Keeps.{IsEarly};
ghost use Rattle.match_core.specs.MatchState.{act_at, answers, happening, next};
ghost use Rattle.match_runner.specs.Wires.{watch};
ghost use Rattle.match_runner.specs.Turns.{
  HasCauses,
  Hears,
  LeavesClock,
  LeavesReader,
  Looks,
  MayRead,
  Tells,
  Turns,
  side_of,
};

use hive_model::{Colour, Game};
use io_edge::{Clock, Link, write_all};
use line_feed::{LineReader, ShortAnswer};
use match_core::{Act, Event, Referee};

/// The result of an act.
#[derive(Clone, Copy, Debug, PartialEq, Eq)]
pub enum Acted {
    /// It was done, and the match may go on.
    GoOn,
    /// There is nothing to do: the match is over.
    Finished,
    /// A read of this side failed.
    ReadFault { side: Colour },
    /// A write to this side failed.
    WriteFault { side: Colour },
    /// There is no memory for a line.
    Memory,
}

/// Moves a referee on by an event that is not a line. This needs no memory.
fn step_on<G: Game + Drop>(referee: &mut Referee<G>, event: Event)
    requires answers { IsTrue (answers (act_at referee.old.stage) (happening event [])) }
    requires early { IsEarly event }
    requires no_line { event ≢ Event.Line }
    ensures { referee.new ≡ next referee.old (happening event []) }
{
    let _ = referee.step(event, &[]);
}

/// Sends the line that has to be sent to a side.
fn tell<L: Link, G: Game + Drop>(referee: &mut Referee<G>, link: &mut L, side: Colour) -> Acted
    requires { act_at referee.old.stage ≡ Act.Send side }
    ensures told { Tells side result referee.old referee.new
        (L.written link.old) (L.written link.new) }
    ensures rest { L.rest link.new ≡ L.rest link.old }
    ensures causes { HasCauses result side (L.read_faults link.old) (L.read_faults link.new)
        (L.write_faults link.old) (L.write_faults link.new) }
{
    if write_all(link, referee.text()) {
        step_on(referee, Event::Sent);
        Acted::GoOn
    } else {
        step_on(referee, Event::Broke);
        Acted::WriteFault { side }
    }
}

/// Reads the next line of a reply. A line that is too long is judged at its 65,537th byte: by then
/// it is certain, whatever follows.
fn listen<L: Link, G: Game + Drop>(
    referee: &mut Referee<G>,
    reader: &mut LineReader,
    link: &mut L,
    side: Colour,
) -> Acted
    requires act { act_at referee.old.stage ≡ Act.Read side }
    requires room { reader.old.passed + greatest_line < input_limit }
    ensures heard { Hears side result referee.old referee.new
        (ahead_of reader.old (L.rest link.old)) (ahead_of reader.new (L.rest link.new)) }
    ensures reader { LeavesReader result reader.old referee.new reader.new }
    ensures written { L.written link.new ≡ L.written link.old }
    ensures causes { HasCauses result side (L.read_faults link.old) (L.read_faults link.new)
        (L.write_faults link.old) (L.write_faults link.new) }
{
    match reader.next_short_line(link) {
        ShortAnswer::Line => match referee.step(Event::Line, reader.line()) {
            Ok(()) => Acted::GoOn,
            Err(_) => Acted::Memory,
        },
        ShortAnswer::Long => {
            step_on(referee, Event::TooLong);
            Acted::GoOn
        }
        ShortAnswer::End => {
            step_on(referee, Event::Ended);
            Acted::GoOn
        }
        ShortAnswer::Failed => {
            step_on(referee, Event::Broke);
            Acted::ReadFault { side }
        }
        ShortAnswer::Full => {
            step_on(referee, Event::TooLong);
            Acted::GoOn
        }
    }
}

/// Reads the clock.
fn look<C: Clock, G: Game + Drop>(referee: &mut Referee<G>, clock: &mut C) -> Acted
    requires { act_at referee.old.stage ≡ Act.Clock }
    ensures looked { Looks result referee.old referee.new (C.last clock.old) (C.last clock.new) }
    ensures clock { LeavesClock referee.old.stage
        (watch (C.last clock.old) (C.readings clock.old))
        (watch (C.last clock.new) (C.readings clock.new)) }
{
    let at = clock.now();
    step_on(referee, Event::Reading { at });
    Acted::GoOn
}

/// Does the next act.
#[tactic(auto, using(crate::proofs::Hearing::reads_open, crate::proofs::Acts::other_cause))]
pub(crate) fn one_act<L: Link, C: Clock, G: Game + Drop>(
    referee: &mut Referee<G>,
    white: &mut L,
    white_lines: &mut LineReader,
    black: &mut L,
    black_lines: &mut LineReader,
    clock: &mut C,
) -> Acted
    requires white_reader { MayRead referee.old white_lines.old }
    requires black_reader { MayRead referee.old black_lines.old }
    ensures turned { Turns result referee.old referee.new
        (side_of white_lines.old (L.rest white.old) (L.written white.old))
        (side_of white_lines.new (L.rest white.new) (L.written white.new))
        (side_of black_lines.old (L.rest black.old) (L.written black.old))
        (side_of black_lines.new (L.rest black.new) (L.written black.new)) (C.last clock.old)
        (C.last clock.new) }
    ensures white_reader { LeavesReader result white_lines.old referee.new white_lines.new }
    ensures black_reader { LeavesReader result black_lines.old referee.new black_lines.new }
    ensures white_causes { HasCauses result Colour.White
        (L.read_faults white.old) (L.read_faults white.new)
        (L.write_faults white.old) (L.write_faults white.new) }
    ensures black_causes { HasCauses result Colour.Black
        (L.read_faults black.old) (L.read_faults black.new)
        (L.write_faults black.old) (L.write_faults black.new) }
    ensures clock { LeavesClock referee.old.stage
        (watch (C.last clock.old) (C.readings clock.old))
        (watch (C.last clock.new) (C.readings clock.new)) }
{
    match referee.next() {
        Act::Send {
            side: Colour::White,
        } => tell(referee, white, Colour::White),
        Act::Send {
            side: Colour::Black,
        } => tell(referee, black, Colour::Black),
        Act::Read {
            side: Colour::White,
        } => listen(referee, white_lines, white, Colour::White),
        Act::Read {
            side: Colour::Black,
        } => listen(referee, black_lines, black, Colour::Black),
        Act::Clock => look(referee, clock),
        Act::Finish => Acted::Finished,
    }
}
