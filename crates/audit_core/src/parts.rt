//! The parts of a line, which are separated by semicolons.
ghost use Rattle.std.specs.Prelude.{◌≡◌, ◌<◌, ◌≤◌, ◌∷◌, [], length, MatchOption, IfSome};
ghost use Rattle.hive_model.specs.Strings.{parts};
ghost use Rattle.audit_core.specs.AuditState.{has_part, named_in};

use hive_model::GameType;

/// The first part, and what comes after its semicolon, if it has one.
pub(crate) fn cut(text: &[u8]) -> (&[u8], Option<&[u8]>)
    ensures parts { MatchOption result.1 (parts text.now ≡ result.0.now ∷ [])
        (λ r. parts text.now ≡ result.0.now ∷ parts r.now) }
    ensures part { length result.0.now ≤ length text.now }
    ensures less { IfSome result.1 (λ r. length r.now < length text.now) }
{
    for (i, byte) in text.iter().enumerate() {
        if *byte == b';' {
            let (part, rest) = text.split_at(i);
            let (_, rest) = rest.split_at(1);
            return (part, Some(rest));
        }
    }
    (text, None)
}

/// Whether one of the parts of a line is this word.
fn has_part(text: &[u8], word: &[u8]) -> bool
    ensures { result ≡ has_part (parts text.now) word.now }
{
    let mut rest = text;
    'parts: loop {
        let (part, more) = cut(rest);
        if part == word {
            return true;
        }
        match more {
            None => return false,
            Some(next) => rest = next,
        }
    }
}

/// The expansions that the parts of a line name.
pub(crate) fn named_in(text: &[u8]) -> GameType
    ensures { result ≡ named_in (parts text.now) }
{
    GameType {
        mosquito: has_part(text, b"Mosquito".as_slice()),
        ladybug: has_part(text, b"Ladybug".as_slice()),
        pillbug: has_part(text, b"Pillbug".as_slice()),
    }
}
