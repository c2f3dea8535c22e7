//! What the parts of a head tell.
ghost use Rattle.std.specs.Prelude.{◌≡◌};
ghost use Rattle.tournament_record.specs.Heads.{topic_word};

/// What a part of the head tells.
#[derive(Clone, Copy, Debug, PartialEq, Eq)]
pub enum Topic {
    /// That the line is a head, and of which version.
    Tournament,
    /// The type of the games.
    GameType,
    /// The depth to which the engines search.
    Depth,
    /// The time that they have.
    Time,
    /// The milliseconds beyond this time before an answer is late.
    Margin,
    /// The limit of plies.
    Plies,
    /// Whether third repetition draws a game.
    Repetition,
    /// How many rounds are played.
    Rounds,
    /// Whether the first engine meets each other one, and the others do not meet.
    Gauntlet,
    /// How many openings there are.
    Openings,
    /// A sum of the openings.
    Sum,
    /// The engines, as they are written.
    Engines,
}

impl Topic {
    /// Its word.
    pub fn word(self) -> &'static [u8]
        ensures { result.now ≡ topic_word self }
    {
        match self {
            Topic::Tournament => b"tournament",
            Topic::GameType => b"type",
            Topic::Depth => b"depth",
            Topic::Time => b"time",
            Topic::Margin => b"margin",
            Topic::Plies => b"plies",
            Topic::Repetition => b"repetition",
            Topic::Rounds => b"rounds",
            Topic::Gauntlet => b"gauntlet",
            Topic::Openings => b"openings",
            Topic::Sum => b"sha256",
            Topic::Engines => b"engines",
        }
    }
}
