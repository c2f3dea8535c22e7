//! What the input is to tell next.

/// What the next line of the input is to be.
#[derive(Clone, Copy)]
pub(crate) enum Phase {
    /// An opening; where games that were played before are handed in, it may be the empty line that
    /// ends the openings.
    Openings,
    /// The head of the tournament.
    Head,
    /// The line of the next game that was played before, or the head once more.
    Game,
    /// The line of the verdict of that game.
    Verdict,
    /// There is to be none: the line before did not tell what it was to tell, and may stand at the
    /// end of the input alone, as a line that was cut.
    Spoiled,
}
