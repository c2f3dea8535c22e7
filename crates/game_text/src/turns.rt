//! Reading the turn of a game string.

ghost use Rattle.std.specs.Prelude.{◌≡◌, ◌≢◌, ℕ, ◌∷◌, ◌++◌, [], List, None, codes, IfSome};
ghost use Rattle.hive_model.specs.Strings.{side_name};
ghost use Rattle.game_text.specs.Turns.{turn_at};

use hive_model::Colour;
use move_text::read_number;

/// A declared turn: the side to move and the turn number.
#[derive(Clone, Copy, Debug, PartialEq, Eq)]
pub struct DeclaredTurn {
    pub side: Colour,
    pub number: u64,
}

/// The side that the text names, and the text in the brackets after it.
fn bracketed(text: &[u8]) -> Option<(Colour, &[u8])>
    ensures found { IfSome result (λ r. text.now ≡ side_name r.0 ++ (r.1.now ++ 93 ∷ [])) }
    ensures white { (digits : List ℕ) → text.now ≡ codes "White[" ++ (digits ++ 93 ∷ [])
        → result ≢ None }
    ensures black { (digits : List ℕ) → text.now ≡ codes "Black[" ++ (digits ++ 93 ∷ [])
        → result ≢ None }
{
    match text {
        [b'W', b'h', b'i', b't', b'e', b'[', digits @ .., b']'] => Some((Colour::White, digits)),
        [b'B', b'l', b'a', b'c', b'k', b'[', digits @ .., b']'] => Some((Colour::Black, digits)),
        _ => None,
    }
}

/// The turn that the text declares: `White[n]` or `Black[n]`, with a number of 1 to 9 digits other
/// than 0.
pub fn read_turn(text: &[u8]) -> Option<DeclaredTurn>
    ensures { result ≡ turn_at text.now }
{
    let Some((side, digits)) = bracketed(text) else {
        return None;
    };
    match read_number(digits, 1, 999999999) {
        Some(number) => Some(DeclaredTurn { side, number }),
        None => None,
    }
}
