//! Reading and writing moves on a board.

ghost use Rattle.std.specs.Prelude.{◌≡◌, ◌≤◌, length, IfOk, IfErr};
ghost use Rattle.std.specs.List.{list_any};
ghost use Rattle.hive_model.specs.declared.places.Place.{Place as AnyPlace};
ghost use Rattle.hive_model.specs.declared.places.Move.{Move as AnyMove};
ghost use Rattle.hive_model.specs.Pieces.{has_kind, all_pieces};
ghost use Rattle.hive_model.specs.Places.{IsWithin, IsOnTheMap};
ghost use Rattle.hive_model.specs.Boards.{IsBoard, top_at, is_in_play, without, place_in};
ghost use Rattle.hive_model.specs.Denotes.{Denotes, place_by, form_of, text as text_of};
ghost use Rattle.io_edge.specs.Lines.{greatest_line};
ghost use Rattle.move_text.specs.declared.faults.MoveFault.{MoveFault as AnyFault};
ghost use Rattle.move_text.specs.Faults.{Refuses};
ghost use Rattle.move_text.specs.Moves.{judge, move_of, IsMoveWithin};

use crate::faults::MoveFault;
use crate::progress::read_form;
use crate::spelling::form_string;
use arrayvec::ArrayString;
use hive_model::{Board, Dir, Form, GameType, Kind, Mark, Move, Piece, Place, Stroke};

/// Whether the game type has pieces of this kind.
fn has_kind(game_type: GameType, kind: Kind) -> bool
    ensures { result ≡ has_kind game_type kind }
{
    match kind {
        Kind::Mosquito => game_type.mosquito,
        Kind::Ladybug => game_type.ladybug,
        Kind::Pillbug => game_type.pillbug,
        _ => true,
    }
}

/// Whether the board has a piece.
fn has_piece<B: Board>(board: &B) -> bool
    ensures { result ≡ list_any (is_in_play (B.stacks board.now)) all_pieces }
{
    for x in 0..28u8 {
        if board.spot(Piece::at(x)).is_some() {
            return true;
        }
    }
    false
}

/// The place of the reference on the board without the piece.
fn reference_place<B: Board>(board: &B, piece: Piece, reference: Piece) -> Option<Place>
    ensures place { result ≡ place_in (without (B.stacks board.now) piece) reference }
    ensures within { (p : AnyPlace) → result ≡ Some p → IsWithin 9000 p }
{
    let spot = board.spot(reference);
    if reference == piece {
        return None;
    }
    match spot {
        Some(spot) => Some(spot.place),
        None => None,
    }
}

/// The place that the mark names.
fn place_by(place: Place, mark: Mark) -> Place
    requires { IsWithin 9000 place }
    ensures { result ≡ place_by place mark }
{
    match mark {
        Mark::On => place,
        Mark::Before(stroke) => match stroke {
            Stroke::Dash => place.step(Dir::W),
            Stroke::Slash => place.step(Dir::SW),
            Stroke::Backslash => place.step(Dir::NW),
        },
        Mark::After(stroke) => match stroke {
            Stroke::Dash => place.step(Dir::E),
            Stroke::Slash => place.step(Dir::NE),
            Stroke::Backslash => place.step(Dir::SE),
        },
    }
}

/// The move of a form on this board, or its fault.
fn judge<B: Board>(game_type: GameType, board: &B, len: u32, form: Form) -> Result<Move, MoveFault>
    ensures { result ≡ judge game_type (B.stacks board.now) len form }
{
    match form {
        Form::Passes => Ok(Move::Pass),
        Form::Alone(piece) => {
            if !has_kind(game_type, piece.kind()) {
                return Err(MoveFault::NoSuchPiece);
            }
            if has_piece(board) {
                return Err(MoveFault::NotAMove { at: len });
            }
            Ok(Move::To {
                piece,
                place: Place { q: 0, r: 0 },
            })
        }
        Form::Beside(piece, mark, reference) => {
            if !has_kind(game_type, piece.kind()) {
                return Err(MoveFault::NoSuchPiece);
            }
            match reference_place(board, piece, reference) {
                Some(place) => Ok(Move::To {
                    piece,
                    place: place_by(place, mark),
                }),
                None => Err(MoveFault::NotInPlay { piece: reference }),
            }
        }
    }
}

/// Reads the form of the text, and judges it.
fn move_of<B: Board>(game_type: GameType, board: &B, text: &[u8]) -> Result<Move, MoveFault>
    requires { length text.now ≤ greatest_line }
    ensures { result ≡ move_of game_type (B.stacks board.now) text.now }
{
    match read_form(text) {
        Ok(form) => judge(game_type, board, text.len() as u32, form),
        Err(at) => Err(MoveFault::NotAMove { at }),
    }
}

/// The move that the text denotes on this board. `pass` is the pass. A piece alone goes to (0,0) of
/// an empty board. Otherwise the text is a piece, one space and a destination, which names a
/// reference R on the board without the moving piece. `R-` is E of R, `-R` W, `R/` NE, `/R` SW,
/// `\R` NW, `R\` SE, and `R` alone is its own place, on top.
///
/// Whether the move is legal is not judged. The text must have at most 65,536 bytes.
///
/// # Errors
///
/// In this order: the text is not a move text, or the moving piece is not of the game type. Then a
/// piece is alone in the text but the board is not empty, or a reference is not on the board
/// without the moving piece.
pub fn read_move<B: Board>(game_type: GameType, board: &B, text: &[u8]) -> Result<Move, MoveFault>
    requires length { length text.now ≤ greatest_line }
    requires sound { IsBoard (B.stacks board.now) }
    ensures denotes { IfOk result (λ m. Denotes game_type (B.stacks board.now) text.now m) }
    ensures only { (m : AnyMove) → Denotes game_type (B.stacks board.now) text.now m
        → result ≡ Ok m }
    ensures refuses { IfErr result (λ fault. Refuses game_type
        (B.stacks board.now) text.now fault) }
    ensures each { (fault : AnyFault) → Refuses game_type (B.stacks board.now) text.now fault
        → result ≡ Err fault }
    // the same as one function of the type, the board and the text
    ensures computes { result ≡ move_of game_type (B.stacks board.now) text.now }
{
    move_of(game_type, board, text)
}

/// The top piece of the place on the board without the piece.
fn top_without<B: Board>(board: &B, piece: Piece, place: Place) -> Option<Piece>
    requires sound { IsBoard (B.stacks board.now) }
    ensures { result ≡ top_at (without (B.stacks board.now) piece) place }
{
    match board.top(place) {
        Some(top) => {
            if top == piece {
                board.under(piece)
            } else {
                Some(top)
            }
        }
        None => None,
    }
}

/// The marks of a place next to a reference, each with the direction from the place to the
/// reference. They are in the order in which references are looked for.
const BESIDE: [(Mark, Dir); 6] = [
    (Mark::After(Stroke::Dash), Dir::W),
    (Mark::Before(Stroke::Dash), Dir::E),
    (Mark::After(Stroke::Slash), Dir::SW),
    (Mark::Before(Stroke::Slash), Dir::NE),
    (Mark::After(Stroke::Backslash), Dir::NW),
    (Mark::Before(Stroke::Backslash), Dir::SE),
];

/// The form that is written for a placement, a walk or a throw.
#[tactic(auto, using(hive_model::proofs::PlaceLemmas::wider))]
fn form_to<B: Board>(board: &B, piece: Piece, place: Place) -> Form
    requires sound { IsBoard (B.stacks board.now) }
    requires within { IsOnTheMap place }
    ensures { result ≡ form_of (B.stacks board.now) (AnyMove.To piece place) }
{
    if let Some(reference) = top_without(board, piece, place) {
        return Form::Beside(piece, Mark::On, reference);
    }
    for (mark, dir) in BESIDE {
        if let Some(reference) = top_without(board, piece, place.step(dir)) {
            return Form::Beside(piece, mark, reference);
        }
    }
    Form::Alone(piece)
}

/// The text of a move. An occupied destination, on the board without the moving piece, is written
/// as its top piece. An empty one refers to the top piece of its first occupied neighbour in the
/// order W, E, SW, NE, NW, SE. If it has none, the piece is written alone. The coordinates of the
/// destination must be at most 9,500 in absolute value, as those of every legal move are. The text
/// has at most 8 bytes.
pub fn write_move<B: Board>(board: &B, m: Move) -> ArrayString<16>
    requires sound { IsBoard (B.stacks board.now) }
    requires within { IsMoveWithin m }
    ensures bytes { result.bytes ≡ text_of (B.stacks board.now) m }
    ensures len { length result.bytes ≤ 8 }
{
    match m {
        Move::Pass => form_string(Form::Passes),
        Move::To { piece, place } => form_string(form_to(board, piece, place)),
    }
}
