//! A law of the checks of texts, as the contract of a function that does nothing.

ghost use Rattle.certificate_verdicts.specs.Laws.{AcceptedAreDone};

/// The law covers texts of fewer than 1,099,511,627,776 bytes that are accepted. If neither the
/// source nor the sink counted a fault, the check ends with `Done`, or because memory ran out.
pub fn accepted_texts_are_done()
    ensures { AcceptedAreDone }
{}
