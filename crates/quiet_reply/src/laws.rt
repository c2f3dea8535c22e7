//! The law of quiet replies, as the contract of a function that does nothing.

ghost use Rattle.quiet_reply.specs.Quiet.{QuietRepliesHold};

/// If the side to move has a quiet reply, one more ply costs it at most the weight of the resting
/// piece.
pub fn quiet_replies_hold()
    ensures { QuietRepliesHold }
{}
