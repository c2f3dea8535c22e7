//! The parts of a line, which are separated by semicolons.

ghost use Rattle.std.specs.Prelude.{◌≡◌, ◌<◌, ◌≤◌, ◌∷◌, [], length, MatchOption, IfSome};
ghost use Rattle.hive_model.specs.Strings.{parts};
ghost use Rattle.io_edge.specs.Lines.{greatest_line};
ghost use Rattle.game_text.specs.Reading.{first_empty};

/// The first part, and the text after its semicolon, if it has one.
pub fn cut(text: &[u8]) -> (&[u8], Option<&[u8]>)
    ensures parts { MatchOption result.1 (parts text.now ≡ result.0.now ∷ [])
        (λ r. parts text.now ≡ result.0.now ∷ parts r.now) }
    ensures part { length result.0.now ≤ length text.now }
    ensures less { IfSome result.1 (λ r. length r.now < length text.now) }
{
    for (i, byte) in text.iter().enumerate() {
        if *byte == b';' {
            let (part, rest) = text.split_at(i);
            let (_, rest) = rest.split_at(1);
            return (part, Some(rest));
        }
    }
    (text, None)
}

/// The number of the first empty part, if the first part of the text is part 4 of the line.
pub fn empty_part(text: &[u8]) -> Option<u32>
    requires { length text.now ≤ greatest_line }
    ensures { result ≡ first_empty (parts text.now) 4 }
{
    let mut rest = text;
    let mut number: u32 = 4;
    'parts: loop {
        let (part, more) = cut(rest);
        if part.is_empty() {
            return Some(number);
        }
        match more {
            None => return None,
            Some(next) => rest = next,
        }
        number += 1;
    }
}

/// The number of parts.
pub fn count_parts(text: &[u8]) -> u32
    requires { length text.now ≤ greatest_line }
    ensures count { result ≡ length (parts text.now) }
    ensures some { 1 ≤ result }
{
    let mut rest = text;
    let mut count: u32 = 1;
    'parts: loop {
        let (_, more) = cut(rest);
        match more {
            None => return count,
            Some(next) => rest = next,
        }
        count += 1;
    }
}
