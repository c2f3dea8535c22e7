//! Laws of the definitions, as contracts of functions that do nothing.
ghost use Rattle.audit_command.specs.Laws.{AuditsAreDone, AuditsAreRight};

/// The law covers an audit of a program that says fewer than 1,099,511,627,776 bytes. The sink
/// counted no failed write, and the starter of programs no failed start. The audit ends with `Done`
/// or `Refused`, or because memory ran out.
pub fn audits_are_done()
    ensures { AuditsAreDone }
{}

/// Let also no failure of the program be counted. Then the audit ends with `Done` only if each
/// reply is right, and with `Refused` only if some reply is not.
pub fn audits_are_right()
    ensures { AuditsAreRight }
{}
