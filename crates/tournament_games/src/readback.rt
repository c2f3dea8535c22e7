//! How a game ended, by the text of its verdict.
ghost use Rattle.std.specs.Prelude.{◌≡◌};
ghost use Rattle.tournament_games.specs.Texts.{won_by};
ghost use Rattle.tournament_games.specs.Readback.{end_in_text};

use crate::texts::{drawn, forfeited_by};
use hive_model::Colour;
use tournament_core::GameEnd;

/// A game that a side won by the rules.
fn won_by(side: Colour) -> GameEnd
    ensures { result ≡ won_by side }
{
    GameEnd {
        winner: Some(side),
        forfeited: false,
    }
}

/// How a game ended, from the text of its verdict: the part of its line after the numbers, without
/// the LF.
///
/// `result WhiteWins` and `result BlackWins` say that a side won by the rules. `result Draw`, or a
/// text that begins with `limit `, says that the game is drawn. If the text begins with `forfeit
/// white ` or `forfeit black `, that side forfeited and the other one won. No other text says how a
/// game ended.
pub fn end_of_text(text: &[u8]) -> Option<GameEnd>
    ensures { result ≡ end_in_text text.now }
{
    if text == b"result WhiteWins".as_slice() {
        Some(won_by(Colour::White))
    } else if text == b"result BlackWins".as_slice() {
        Some(won_by(Colour::Black))
    } else if text == b"result Draw".as_slice() {
        Some(drawn())
    } else if text.starts_with(b"limit ".as_slice()) {
        Some(drawn())
    } else if text.starts_with(b"forfeit white ".as_slice()) {
        Some(forfeited_by(Colour::White))
    } else if text.starts_with(b"forfeit black ".as_slice()) {
        Some(forfeited_by(Colour::Black))
    } else {
        None
    }
}
