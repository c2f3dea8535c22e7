//! The first word of a command.

ghost use Rattle.std.specs.Prelude.{◌≡◌};
ghost use Rattle.uhp_words.specs.Verbs.{verb_at};

/// The command that the first word of a line names.
#[derive(Clone, Copy, Debug, PartialEq, Eq)]
pub enum Verb {
    Info,
    NewGame,
    Play,
    Pass,
    ValidMoves,
    BestMove,
    Undo,
    Options,
    Exit,
}

/// The command that a word names.
#[tactic(auto, unfolding(crate::specs::Verbs::verb_at))]
pub(crate) fn verb_at(word: &[u8]) -> Option<Verb>
    ensures { result ≡ verb_at word.now }
{
    if word == b"info".as_slice() {
        Some(Verb::Info)
    } else if word == b"newgame".as_slice() {
        Some(Verb::NewGame)
    } else if word == b"play".as_slice() {
        Some(Verb::Play)
    } else if word == b"pass".as_slice() {
        Some(Verb::Pass)
    } else if word == b"validmoves".as_slice() {
        Some(Verb::ValidMoves)
    } else if word == b"bestmove".as_slice() {
        Some(Verb::BestMove)
    } else if word == b"undo".as_slice() {
        Some(Verb::Undo)
    } else if word == b"options".as_slice() {
        Some(Verb::Options)
    } else if word == b"exit".as_slice() {
        Some(Verb::Exit)
    } else {
        None
    }
}
