//! The progress of an audit, on a terminal.
ghost use Rattle.std.specs.Prelude.{◌≡◌};
ghost use Rattle.machine_edge.specs.Lines.{begins_game_of};

use std::io::Eprint;

/// Whether a line asks for a new game of a type. A line that names a whole game has a semicolon.
pub fn begins_game(line: &[u8]) -> bool
    ensures { result ≡ begins_game_of line.now }
{
    line.starts_with(b"newgame ".as_slice()) && !line.contains(&b';')
}

/// Counts the games that an engine is asked for, and shows the number on standard error.
#[derive(Drop)]
pub(crate) struct GameCount {
    is_shown: bool,
    games: u64,
}

impl GameCount {
    /// Begins with no game. If games are not shown, they are not counted.
    pub(crate) fn new(is_shown: bool) -> Self {
        GameCount { is_shown, games: 0 }
    }

    /// Counts a game if this line begins one, and shows the number in place of the one before.
    pub(crate) fn note<R: Eprint>(&mut self, rt: &R, line: &[u8]) {
        if !self.is_shown || !begins_game(line) {
            return;
        }
        self.games = self.games.saturating_add(1);
        // if standard error fails too, the number is not shown
        let _ = eprint!(rt; "\rgame {}", self.games);
    }

    /// Ends the line with the number, if one was shown.
    pub(crate) fn end<R: Eprint>(&self, rt: &R) {
        if self.games > 0 {
            let _ = rt.eprintln("");
        }
    }
}
