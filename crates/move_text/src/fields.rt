//! The fields of lines: numbers, times, game types and states.

ghost use Rattle.std.specs.Prelude.{
  ◌≡◌,
  ℕ,
  ◌+◌,
  ◌*◌,
  ◌/◌,
  ◌%◌,
  ◌≤◌,
  ◌<◌,
  [],
  ◌∷◌,
  ◌++◌,
  length,
  IfSome,
};
ghost use Rattle.arrayvec.specs.ArrayString.{array_string_len};
ghost use Rattle.hive_model.specs.declared.pieces.GameType.{GameType as AnyType};
ghost use Rattle.hive_model.specs.declared.places.State.{State as AnyState};
ghost use Rattle.hive_model.specs.Fields.{
  IsNumberText,
  IsTimeText,
  type_bytes,
  state_bytes,
  two_digits,
};
ghost use Rattle.move_text.specs.Readers.{
  number_at,
  type_at,
  state_at,
  two_digit_number,
  time_at,
  time_bytes,
};

use arrayvec::ArrayString;
use hive_model::{GameType, State};
use itoa::Buffer;
use std::str;

/// The number that the text writes in decimal digits, if it is from `least` to `most`. A sign is
/// refused, and so is a leading zero, except in `0` itself.
pub fn read_number(text: &[u8], least: u64, most: u64) -> Option<u64>
    ensures found { IfSome result (λ n. IsNumberText text.now least most n) }
    ensures only { (n : ℕ) → IsNumberText text.now least most n → result ≡ Some n }
    ensures value { result ≡ number_at text.now least most }
{
    let Ok(letters) = str::from_utf8(text) else {
        return None;
    };
    let Ok(number) = letters.parse::<u64>() else {
        return None;
    };
    let mut buffer = Buffer::new();
    if buffer.format(number) != letters {
        return None;
    }
    if number < least {
        return None;
    }
    if most < number {
        return None;
    }
    Some(number)
}

const fn game_type(mosquito: bool, ladybug: bool, pillbug: bool) -> GameType
    ensures { result ≡ record { mosquito = mosquito; ladybug = ladybug; pillbug = pillbug } }
{
    GameType {
        mosquito,
        ladybug,
        pillbug,
    }
}

#[tactic(auto, unfolding(crate::specs::Readers::type_at))]
fn type_at(text: &[u8]) -> Option<GameType>
    ensures { result ≡ type_at text.now }
{
    if text == b"Base".as_slice() {
        Some(game_type(false, false, false))
    } else if text == b"Base+M".as_slice() {
        Some(game_type(true, false, false))
    } else if text == b"Base+L".as_slice() {
        Some(game_type(false, true, false))
    } else if text == b"Base+P".as_slice() {
        Some(game_type(false, false, true))
    } else if text == b"Base+ML".as_slice() {
        Some(game_type(true, true, false))
    } else if text == b"Base+MP".as_slice() {
        Some(game_type(true, false, true))
    } else if text == b"Base+LP".as_slice() {
        Some(game_type(false, true, true))
    } else if text == b"Base+MLP".as_slice() {
        Some(game_type(true, true, true))
    } else {
        None
    }
}

/// The game type that the text names: `Base`, or `Base+` and letters of `MLP` in this order, for
/// the mosquito, the ladybug and the pillbug.
pub fn read_type(text: &[u8]) -> Option<GameType>
    ensures found { IfSome result (λ t. text.now ≡ type_bytes t) }
    ensures only { (t : AnyType) → text.now ≡ type_bytes t → result ≡ Some t }
    ensures value { result ≡ type_at text.now }
{
    type_at(text)
}

fn type_name(game_type: GameType) -> &'static str
    ensures value { result.now ≡ type_bytes game_type }
    ensures len { length result.now ≤ 8 }
{
    match (game_type.mosquito, game_type.ladybug, game_type.pillbug) {
        (false, false, false) => "Base",
        (true, false, false) => "Base+M",
        (false, true, false) => "Base+L",
        (false, false, true) => "Base+P",
        (true, true, false) => "Base+ML",
        (true, false, true) => "Base+MP",
        (false, true, true) => "Base+LP",
        (true, true, true) => "Base+MLP",
    }
}

/// The name of the game type, as `read_type` reads it.
pub fn type_text(game_type: GameType) -> ArrayString<16>
    ensures { result.bytes ≡ type_bytes game_type }
{
    let mut text = ArrayString::new();
    text.push_str(type_name(game_type));
    text
}

/// The states, in the order of their definition.
const STATES: [State; 5] = [
    State::NotStarted,
    State::InProgress,
    State::Draw,
    State::WhiteWins,
    State::BlackWins,
];

fn state_at(text: &[u8]) -> Option<State>
    ensures { result ≡ state_at text.now }
{
    STATES
        .iter()
        .copied()
        .find(|state| text == state_name(*state).as_bytes())
}

/// The state that the text names: `NotStarted`, `InProgress`, `Draw`, `WhiteWins` or `BlackWins`.
pub fn read_state(text: &[u8]) -> Option<State>
    ensures found { IfSome result (λ s. text.now ≡ state_bytes s) }
    ensures only { (s : AnyState) → text.now ≡ state_bytes s → result ≡ Some s }
    ensures value { result ≡ state_at text.now }
{
    state_at(text)
}

fn state_name(state: State) -> &'static str
    ensures value { result.now ≡ state_bytes state }
    ensures len { length result.now ≤ 10 }
{
    match state {
        State::NotStarted => "NotStarted",
        State::InProgress => "InProgress",
        State::Draw => "Draw",
        State::WhiteWins => "WhiteWins",
        State::BlackWins => "BlackWins",
    }
}

/// The name of the state, as `read_state` reads it.
pub fn state_text(state: State) -> ArrayString<16>
    ensures { result.bytes ≡ state_bytes state }
{
    let mut text = ArrayString::new();
    text.push_str(state_name(state));
    text
}

/// The number of two digits, if it is at most `most`.
fn two_digit_number(most: u64, tens: u8, units: u8) -> Option<u64>
    requires { most ≤ 99 }
    ensures value { result ≡ two_digit_number most tens units }
    ensures small { IfSome result (λ n. n ≤ most) }
{
    if tens < b'0' || b'9' < tens || units < b'0' || b'9' < units {
        return None;
    }
    let number = (tens - b'0') as u64 * 10 + (units - b'0') as u64;
    if number <= most { Some(number) } else { None }
}

/// The milliseconds of a time of eight bytes.
fn time_at(text: &[u8]) -> Option<u64>
    ensures { result ≡ time_at text.now }
{
    let [a, b, b':', c, d, b':', e, f] = text else {
        return None;
    };
    let hours = two_digit_number(99, *a, *b)?;
    let minutes = two_digit_number(59, *c, *d)?;
    let seconds = two_digit_number(59, *e, *f)?;
    Some(((hours * 60 + minutes) * 60 + seconds) * 1000)
}

/// The milliseconds of a time `hh:mm:ss` of two digits each, with at most 59 minutes and 59
/// seconds.
pub fn read_time(text: &[u8]) -> Option<u64>
    ensures found { IfSome result (λ n. IsTimeText text.now n) }
    ensures only { (n : ℕ) → IsTimeText text.now n → result ≡ Some n }
    ensures value { result ≡ time_at text.now }
{
    time_at(text)
}

#[tactic(auto, using(std::proofs::lemmas::Fmt::decimal_digit))]
fn push_digit(text: &mut ArrayString<8>, digit: u64)
    requires room { array_string_len text.old ≤ 7 }
    requires digit { digit < 10 }
    ensures bytes { text.new.bytes ≡ text.old.bytes ++ (48 + digit) ∷ [] }
    ensures len { array_string_len text.new ≡ array_string_len text.old + 1 }
{
    let mut buffer = Buffer::new();
    text.push_str(buffer.format(digit));
}

fn push_two_digits(text: &mut ArrayString<8>, number: u64)
    requires room { array_string_len text.old ≤ 6 }
    requires small { number < 100 }
    ensures bytes { text.new.bytes ≡ text.old.bytes ++ two_digits number }
    ensures len { array_string_len text.new ≡ array_string_len text.old + 2 }
{
    push_digit(text, number / 10);
    push_digit(text, number % 10);
}

/// The time `hh:mm:ss` of a number of milliseconds. The number must be a multiple of 1,000 and at
/// most 99 hours, 59 minutes and 59 seconds.
pub fn time_text(budget: u64) -> ArrayString<8>
    requires whole { budget % 1000 ≡ 0 }
    requires most { budget ≤ 359999000 }
    ensures time { IsTimeText result.bytes budget }
    ensures bytes { result.bytes ≡ time_bytes budget }
{
    let seconds = budget / 1000;
    let mut text = ArrayString::new();
    push_two_digits(&mut text, seconds / 3600);
    text.push_str(":");
    push_two_digits(&mut text, seconds / 60 % 60);
    text.push_str(":");
    push_two_digits(&mut text, seconds % 60);
    text
}
