//! Laws of the definitions, as contracts of functions that do nothing.
ghost use Rattle.line_services.specs.Laws.{ReplaysAnswerEachLine, ReplaysAreDone, SessionsAreDone};

/// The law covers a session with an input shorter than 1,099,511,627,776 bytes, in which neither
/// the source nor the sink counted a failure. The session ends with `Done`, or because memory ran
/// out.
pub fn sessions_are_done()
    ensures { SessionsAreDone }
{}

/// The law covers a replay of fewer than 1,099,511,627,776 bytes, in which neither the source nor
/// the sink counted a failure. If each line is a game string, the replay ends with `Done`, or
/// because memory ran out.
pub fn replays_are_done()
    ensures { ReplaysAreDone }
{}

/// A replay writes the answer to each line, one after another, and no line ends it. It has refused
/// a line exactly if one of its lines is refused.
pub fn replays_answer_each_line()
    ensures { ReplaysAnswerEachLine }
{}
