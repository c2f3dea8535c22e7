//! Tokens, one on a line.

ghost use Rattle.std.specs.Prelude.{◌≡◌, refl};
ghost use Rattle.certificate_citing.specs.TokenText.{token_at, token_in};

use certificate_text::{LineForm, LineItems, behind, number_at};
use strategy_lemmas::Token;

/// The token that a line is: a number from 0 to 5487, or `@` and a number from 0 to 65535.
fn token_at(line: &[u8]) -> Option<Token>
    ensures { result ≡ token_at line.now }
{
    match behind(line, b"@") {
        Some(digits) => {
            let place = number_at(digits, 0, 65_535)?;
            Some(Token::Cite(place as u32))
        }
        None => {
            let index = number_at(line, 0, 5487)?;
            Some(Token::Index(index as u32))
        }
    }
}

/// A token on a line.
pub struct TokenLine;

impl LineForm for TokenLine {
    type Item = Token;

    ghost item = { token_in };

    fn read(line: &[u8]) -> Option<Token> {
        token_at(line)
    }

    ghost too_long = { refl };
}

/// The tokens on the lines to come.
pub type LineTokens<'a, 'b, S> = LineItems<'a, 'b, S, TokenLine>;
