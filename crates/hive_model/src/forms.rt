//! The finitely many forms of a move text.

use crate::pieces::Piece;

/// One of `-`, `/` and `\`.
#[derive(Clone, Copy, Debug, PartialEq, Eq)]
pub enum Stroke {
    Dash,
    Slash,
    Backslash,
}

/// How a destination is written by a reference: as the reference itself, or with a stroke on one of
/// its sides. `-R` is W of R, `R-` E, `/R` SW, `R/` NE, `\R` NW and `R\` SE.
#[derive(Clone, Copy, Debug, PartialEq, Eq)]
pub enum Mark {
    On,
    Before(Stroke),
    After(Stroke),
}

/// What a move text says: `pass`, a piece alone, or a piece and a destination on or beside a
/// reference.
#[derive(Clone, Copy, Debug, PartialEq, Eq)]
pub enum Form {
    Passes,
    Alone(Piece),
    Beside(Piece, Mark, Piece),
}
