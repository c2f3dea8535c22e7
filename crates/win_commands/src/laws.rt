//! Laws of forced wins that are written and checked, as contracts of functions that do nothing.

ghost use Rattle.win_commands.specs.Laws.{
  AcceptedIsTrue,
  SolutionsAlone,
  SolutionsAreAccepted,
  SolvedIsAccepted,
  SolvesAreDone,
  VerifiedIsTrue,
  VerifiesAreDone,
};

/// The answer of an accepted text is true.
pub fn accepted_answers_are_true()
    ensures { AcceptedIsTrue }
{}

/// A text is accepted if and only if it has a head whose game is not over, followed by indices that
/// show its answer and by nothing else.
pub fn solutions_alone_are_accepted()
    ensures { SolutionsAlone }
{}

/// If the check of a text is done, the answer of the text is true.
pub fn verified_answers_are_true()
    ensures { VerifiedIsTrue }
{}

/// The solution written for a game that is not over is accepted.
pub fn solutions_are_accepted()
    ensures { SolutionsAreAccepted }
{}

/// Whatever a run writes that ends with `Done` is accepted.
pub fn solved_answers_are_accepted()
    ensures { SolvedIsAccepted }
{}

/// The law covers an input that is exactly one line, a game string of a game that is not over. If
/// neither the source nor the sink counted a fault, the run of `solve` ends with `Done`, or because
/// memory ran out.
pub fn solves_are_done()
    ensures { SolvesAreDone }
{}

/// The law covers texts of fewer than 1,099,511,627,776 bytes that are accepted. If neither the
/// source nor the sink counted a fault, the check ends with `Done`, or because memory ran out.
pub fn verifies_are_done()
    ensures { VerifiesAreDone }
{}
