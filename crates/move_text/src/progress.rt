//! Reading a move text byte by byte.

ghost use Rattle.std.specs.Prelude.{◌≡◌, ◌≤◌, length};
ghost use Rattle.move_text.specs.Scan.{
  colour_at,
  kind_at,
  stroke_at,
  naming_with,
  with_kind,
  with_number,
  after_first,
  after_second,
  front_mark,
  end_first,
  end_second,
  progress_with,
  end_of,
  scan,
};
ghost use Rattle.io_edge.specs.Lines.{greatest_line};

use hive_model::{Colour, Form, Kind, Mark, Piece, Stroke};

/// What was read of a piece's name: nothing, a colour, a colour and a kind whose number is still to
/// come, or the whole name.
#[derive(Clone, Copy, Debug, PartialEq, Eq)]
pub enum Naming {
    Empty,
    Side(Colour),
    Kinded(Colour, Kind),
    Named(Piece),
}

/// What was read of a move text.
#[derive(Clone, Copy, Debug, PartialEq, Eq)]
pub enum Progress {
    /// `p`, and below more of `pass`.
    AtP,
    AtPa,
    AtPas,
    AtPass,
    /// A part of the moving piece's name.
    First(Naming),
    /// The moving piece, the space, a stroke if there was one, and a part of the reference's name.
    Second(Piece, Option<Stroke>, Naming),
    /// The moving piece, the space, the reference and the stroke after it. Nothing may follow.
    Marked(Piece, Piece, Stroke),
}

fn colour_at(byte: u8) -> Option<Colour>
    ensures { result ≡ colour_at byte }
{
    match byte {
        b'w' => Some(Colour::White),
        b'b' => Some(Colour::Black),
        _ => None,
    }
}

fn kind_at(byte: u8) -> Option<Kind>
    ensures { result ≡ kind_at byte }
{
    match byte {
        b'Q' => Some(Kind::Queen),
        b'S' => Some(Kind::Spider),
        b'B' => Some(Kind::Beetle),
        b'G' => Some(Kind::Grasshopper),
        b'A' => Some(Kind::Ant),
        b'M' => Some(Kind::Mosquito),
        b'L' => Some(Kind::Ladybug),
        b'P' => Some(Kind::Pillbug),
        _ => None,
    }
}

fn stroke_at(byte: u8) -> Option<Stroke>
    ensures { result ≡ stroke_at byte }
{
    match byte {
        b'-' => Some(Stroke::Dash),
        b'/' => Some(Stroke::Slash),
        b'\\' => Some(Stroke::Backslash),
        _ => None,
    }
}

impl Naming {
    /// After one more byte, if the name of some piece begins like this.
    fn with_byte(&self, byte: u8) -> Option<Naming>
        ensures { result ≡ naming_with self.now byte }
    {
        match *self {
            Naming::Empty => colour_at(byte).map(|colour| Naming::Side(colour)),
            Naming::Side(colour) => kind_at(byte).map(|kind| with_kind(colour, kind)),
            Naming::Kinded(colour, kind) => with_number(colour, kind, byte),
            Naming::Named(_) => None,
        }
    }
}

/// The one piece of a kind without numbers. For other kinds the number is still to come.
fn with_kind(colour: Colour, kind: Kind) -> Naming
    ensures { result ≡ with_kind colour kind }
{
    match Piece::new(colour, kind, 0) {
        Some(piece) => Naming::Named(piece),
        None => Naming::Kinded(colour, kind),
    }
}

/// The piece of this kind whose number is this digit.
fn with_number(colour: Colour, kind: Kind, byte: u8) -> Option<Naming>
    ensures { result ≡ with_number colour kind byte }
{
    if byte <= b'0' {
        return None;
    }
    Piece::new(colour, kind, byte - b'0').map(|piece| Naming::Named(piece))
}

impl Progress {
    /// After one more byte, if some move text begins like this.
    fn with_byte(&self, byte: u8) -> Option<Progress>
        ensures { result ≡ progress_with self.now byte }
    {
        match self {
            Progress::AtP => (byte == b'a').then_some(Progress::AtPa),
            Progress::AtPa => (byte == b's').then_some(Progress::AtPas),
            Progress::AtPas => (byte == b's').then_some(Progress::AtPass),
            Progress::First(naming) => match naming.with_byte(byte) {
                Some(next) => Some(Progress::First(next)),
                None => after_first(naming, byte),
            },
            Progress::Second(piece, stroke, naming) => match naming.with_byte(byte) {
                Some(next) => Some(Progress::Second(*piece, *stroke, next)),
                None => after_second(*piece, *stroke, naming, byte),
            },
            Progress::AtPass | Progress::Marked(..) => None,
        }
    }

    /// The form, if the text may end here.
    fn end(self) -> Option<Form>
        ensures { result ≡ end_of self }
    {
        match self {
            Progress::AtPass => Some(Form::Passes),
            Progress::First(naming) => end_first(naming),
            Progress::Second(piece, stroke, naming) => end_second(piece, stroke, naming),
            Progress::Marked(piece, reference, stroke) => {
                Some(Form::Beside(piece, Mark::After(stroke), reference))
            }
            _ => None,
        }
    }
}

fn end_first(naming: Naming) -> Option<Form>
    ensures { result ≡ end_first naming }
{
    match naming {
        Naming::Named(piece) => Some(Form::Alone(piece)),
        _ => None,
    }
}

fn front_mark(stroke: Option<Stroke>) -> Mark
    ensures { result ≡ front_mark stroke }
{
    match stroke {
        Some(stroke) => Mark::Before(stroke),
        None => Mark::On,
    }
}

fn end_second(piece: Piece, stroke: Option<Stroke>, naming: Naming) -> Option<Form>
    ensures { result ≡ end_second piece stroke naming }
{
    match naming {
        Naming::Named(reference) => Some(Form::Beside(piece, front_mark(stroke), reference)),
        _ => None,
    }
}

/// A byte that does not continue the first name: the `p` of `pass`, or the space after a whole
/// name.
fn after_first(naming: &Naming, byte: u8) -> Option<Progress>
    ensures { result ≡ after_first naming.now byte }
{
    match *naming {
        Naming::Empty => (byte == b'p').then_some(Progress::AtP),
        Naming::Named(piece) => (byte == b' ').then_some(Progress::Second(
            piece,
            None,
            Naming::Empty,
        )),
        _ => None,
    }
}

/// A byte that does not continue the reference's name: a stroke before or after it, if there was
/// none.
fn after_second(piece: Piece, stroke: Option<Stroke>, naming: &Naming, byte: u8) -> Option<Progress>
    ensures { result ≡ after_second piece stroke naming.now byte }
{
    if let Some(_) = stroke {
        return None;
    }
    match *naming {
        Naming::Empty => stroke_at(byte).map(|stroke| Progress::Second(
            piece,
            Some(stroke),
            Naming::Empty,
        )),
        Naming::Named(reference) => stroke_at(byte).map(|stroke| Progress::Marked(
            piece, reference, stroke,
        )),
        _ => None,
    }
}

/// The form of the text. Otherwise the offset of the first byte with which no move text continues,
/// or of the end if the text is a proper prefix of a move text.
#[tactic(auto, unfolding(crate::specs::Scan::scan))]
pub fn read_form(text: &[u8]) -> Result<Form, u32>
    requires { length text.now ≤ greatest_line }
    ensures { result ≡ scan (Progress.First Naming.Empty) text.now 0 }
{
    let mut progress = Progress::First(Naming::Empty);
    let mut offset: u32 = 0;
    for byte in text {
        match progress.with_byte(*byte) {
            Some(next) => progress = next,
            None => return Err(offset),
        }
        offset += 1;
    }
    progress.end().ok_or(offset)
}
