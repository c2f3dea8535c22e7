//! Pieces and forms of move texts, as bytes.

ghost use Rattle.std.specs.Prelude.{◌≡◌, ◌+◌, ◌≤◌, [], ◌∷◌, ◌++◌, length};
ghost use Rattle.arrayvec.specs.ArrayString.{array_string_len};
ghost use Rattle.hive_model.specs.Texts.{
  colour_code,
  kind_code,
  number_code,
  piece_text,
  stroke_code,
  destination,
  form_text,
};

use arrayvec::ArrayString;
use hive_model::{Colour, Form, Kind, Mark, Piece, Stroke};

fn colour_name(colour: Colour) -> &'static str
    ensures { result.now ≡ colour_code colour ∷ [] }
{
    match colour {
        Colour::White => "w",
        Colour::Black => "b",
    }
}

fn kind_name(kind: Kind) -> &'static str
    ensures { result.now ≡ kind_code kind ∷ [] }
{
    match kind {
        Kind::Queen => "Q",
        Kind::Spider => "S",
        Kind::Beetle => "B",
        Kind::Grasshopper => "G",
        Kind::Ant => "A",
        Kind::Mosquito => "M",
        Kind::Ladybug => "L",
        Kind::Pillbug => "P",
    }
}

fn number_name(number: u8) -> &'static str
    requires { number ≤ 3 }
    ensures value { result.now ≡ number_code number }
    ensures len { length result.now ≤ 1 }
{
    match number {
        0 => "",
        1 => "1",
        2 => "2",
        _ => "3",
    }
}

fn stroke_name(stroke: Stroke) -> &'static str
    ensures { result.now ≡ stroke_code stroke ∷ [] }
{
    match stroke {
        Stroke::Dash => "-",
        Stroke::Slash => "/",
        Stroke::Backslash => "\\",
    }
}

fn push_piece(text: &mut ArrayString<16>, piece: Piece)
    requires { array_string_len text.old ≤ 13 }
    ensures bytes { text.new.bytes ≡ text.old.bytes ++ piece_text piece }
    ensures len { array_string_len text.new ≤ array_string_len text.old + 3 }
{
    let _index = piece.index();
    text.push_str(colour_name(piece.colour()));
    text.push_str(kind_name(piece.kind()));
    text.push_str(number_name(piece.number()));
}

/// The name of a piece, as move texts write it.
pub fn piece_name(piece: Piece) -> ArrayString<16>
    ensures { result.bytes ≡ piece_text piece }
{
    let mut text = ArrayString::new();
    push_piece(&mut text, piece);
    text
}

fn push_destination(text: &mut ArrayString<16>, mark: Mark, reference: Piece)
    requires { array_string_len text.old ≤ 12 }
    ensures bytes { text.new.bytes ≡ text.old.bytes ++ destination mark (piece_text reference) }
    ensures len { array_string_len text.new ≤ array_string_len text.old + 4 }
{
    match mark {
        Mark::On => push_piece(text, reference),
        Mark::Before(stroke) => {
            text.push_str(stroke_name(stroke));
            push_piece(text, reference);
        }
        Mark::After(stroke) => {
            push_piece(text, reference);
            text.push_str(stroke_name(stroke));
        }
    }
}

pub fn form_string(form: Form) -> ArrayString<16>
    ensures bytes { result.bytes ≡ form_text form }
    ensures len { length result.bytes ≤ 8 }
{
    let mut text = ArrayString::new();
    match form {
        Form::Passes => {
            text.push_str("pass");
            text
        }
        Form::Alone(piece) => {
            push_piece(&mut text, piece);
            text
        }
        Form::Beside(piece, mark, reference) => {
            push_piece(&mut text, piece);
            text.push_str(" ");
            push_destination(&mut text, mark, reference);
            text
        }
    }
}
