//! Laws of every audit, as contracts of functions that do nothing.
ghost use Rattle.audit_core.specs.Laws.{
  AuditsFindFaults,
  GamesStandAlone,
  RepliesAreJudged,
  TriedAreIllegal,
};

/// Nothing is wrong with a list exactly if it lists the legal moves of its position, each once and
/// no other. Nothing is wrong with a string exactly if it is read as the game. Nothing is wrong
/// with the reply to a move that is not legal exactly if it is a refusal.
pub fn replies_are_judged()
    ensures { RepliesAreJudged }
{}

/// An audit finds nothing exactly if each reply up to its end is right. Such a reply is the list of
/// the legal moves of the position reached, or the game string of the game reached. For a move that
/// is not legal it is a refusal.
pub fn audits_find_faults()
    ensures { AuditsFindFaults }
{}

/// Each move that an audit tries was legal two plies before, with the same side to move, and is not
/// legal now. The text that is sent for it denotes no legal move.
pub fn tried_moves_are_illegal()
    ensures { TriedAreIllegal }
{}

/// The game with some number of a seed begins alike in each audit that reaches it, whichever game
/// is the first of the audit. It has one type and one generator, and it is a siege in all or in
/// none.
pub fn games_stand_alone()
    ensures { GamesStandAlone }
{}
