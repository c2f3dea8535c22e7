//! The keeper, and a board with its keeper.

ghost use Rattle.std.specs.Prelude.{
  ◌≡◌,
  ◌↔◌,
  [],
  ◌+◌,
  ◌<◌,
  ◌≤◌,
  pos,
  negsuc,
  ◌-ℤ◌,
  ◌≤ℤ◌,
  None,
  Some,
  IsTrue,
};
ghost use Rattle.hive_model.specs.Places.{IsOnTheMap};
ghost use Rattle.hive_model.specs.Boards.{height_at, top_at};
ghost use Rattle.hive_model.specs.Evaluation.{free_pieces};
ghost use Rattle.hive_model.specs.Hive.{IsCut};
ghost use Rattle.euler.specs.Euler.{euler_number, arcs_at};
ghost use Rattle.cut_keeper.specs.Keeping.{Keeps, Grown, Shrunk};

use crate::tops::{high_added, top_added, top_removed};
use crate::updating::{added, removed};
use arcs::arcs;
use hive_model::{Board, Cuts, Piece, Place, Spot};
use one_hive::{Marks, Steps};
use std::marker::{Brand, Model};
use std::sync::ledger::{Blank, Ledger};

/// Euler's number of a board that is one hive, and marks for each piece. If a keeper stands for a
/// board, a piece that is on top of a place is in `marks` exactly if the place is separating. The
/// pieces on top of their places are in `tops`, and those that stand on another piece are in
/// `high`.
#[derive(Drop)]
pub struct CutKeeper {
    number: i32,
    marks: Marks,
    tops: Marks,
    high: Marks,
}

impl Model for CutKeeper {
    ghost use Rattle.cut_keeper.specs.Keeping.{Kept};

    ghost Value = { Kept };

    ghost view = { λ k. record
        { number = k.number; marks = k.marks; tops = k.tops; high = k.high } };
}

/// What a place adds to Euler's number of the board while it is occupied: 1, minus the arcs of
/// occupied neighbours around it.
fn added_by<B: Board>(board: &B, place: Place) -> i32
    requires { IsOnTheMap place }
    ensures added { result ≡ pos 1 -ℤ pos (arcs_at (B.stacks board.now) place) }
    ensures low { negsuc 253 ≤ℤ result }
    ensures high { result ≤ℤ pos 1 }
{
    1 - arcs(board.neighbours(place)) as i32
}

/// Euler's number of the board after a piece was put on top of the place, from a keeper that stood
/// for the board before.
fn number_with<B: Board>(keeper: &CutKeeper, board: &B, piece: Piece, place: Place) -> i32
    requires grown { Grown keeper.now (B.stacks board.now) piece place }
    requires within { IsOnTheMap place }
    ensures { result ≡ euler_number (B.stacks board.now) }
{
    if board.height(place) > 1 {
        return keeper.number;
    }
    keeper.number + added_by(board, place)
}

/// Euler's number of the board after a piece was taken from the top of the place, from a keeper
/// that stood for the board before.
fn number_without<B: Board>(keeper: &CutKeeper, board: &B, piece: Piece, place: Place) -> i32
    requires shrunk { Shrunk keeper.now (B.stacks board.now) piece place }
    requires within { IsOnTheMap place }
    ensures { result ≡ euler_number (B.stacks board.now) }
{
    board.lemma_board();
    if board.height(place) > 0 {
        return keeper.number;
    }
    keeper.number - added_by(board, place)
}

impl CutKeeper {
    /// The keeper that stands for the empty board.
    pub fn new() -> CutKeeper
        ensures { Keeps [] result }
    {
        CutKeeper {
            number: 0,
            marks: Marks::new(),
            tops: Marks::new(),
            high: Marks::new(),
        }
    }

    /// A copy of the keeper.
    pub fn again(&self) -> CutKeeper
        ensures { result ≡ self.now }
    {
        CutKeeper {
            number: self.number,
            marks: self.marks.again(),
            tops: self.tops.again(),
            high: self.high.again(),
        }
    }

    /// Updates a keeper after the piece was put on top of the place: it stood for the board before,
    /// and then stands for this board. It takes no step if the place was occupied before, or if
    /// Euler's number is now 1. Otherwise it takes at most 3.
    pub fn added<B: Board, L: Ledger>(
        &mut self,
        board: &B,
        piece: Piece,
        place: Place,
        steps: &mut Steps<L>,
    )
        requires grown { Grown self.old (B.stacks board.now) piece place }
        requires within { IsOnTheMap place }
        ensures keeps { Keeps (B.stacks board.now) self.new }
        ensures above { 1 < height_at (B.stacks board.now) place → steps.new ≡ steps.old }
        ensures none { euler_number (B.stacks board.now) ≡ pos 1 → steps.new ≡ steps.old }
        ensures few { steps.new ≤ steps.old + 3 }
    {
        board.lemma_board();
        let number = number_with(self, board, piece, place);
        added(&mut self.marks, board, number, piece, place, steps);
        self.number = number;
        top_added(&mut self.tops, board, piece, place);
        high_added(&mut self.high, board, piece, place);
    }

    /// Updates a keeper after the piece was taken from the top of the place: it stood for the board
    /// before, and then stands for this board. It takes no step if the place is still occupied, or
    /// if Euler's number is now 1. Otherwise it takes at most 3.
    pub fn removed<B: Board, L: Ledger>(
        &mut self,
        board: &B,
        piece: Piece,
        place: Place,
        steps: &mut Steps<L>,
    )
        requires shrunk { Shrunk self.old (B.stacks board.now) piece place }
        requires within { IsOnTheMap place }
        ensures keeps { Keeps (B.stacks board.now) self.new }
        ensures above { 0 < height_at (B.stacks board.now) place → steps.new ≡ steps.old }
        ensures none { euler_number (B.stacks board.now) ≡ pos 1 → steps.new ≡ steps.old }
        ensures few { steps.new ≤ steps.old + 3 }
    {
        board.lemma_board();
        let number = number_without(self, board, piece, place);
        removed(&mut self.marks, board, number, piece, place, steps);
        self.number = number;
        top_removed(&mut self.tops, board, piece, place);
    }

    /// Whether a place of the board that the keeper stands for is a cut place.
    pub fn is_cut<B: Board>(&self, board: &B, place: Place) -> bool
        requires { Keeps (B.stacks board.now) self.now }
        ensures { IsTrue result ↔ IsCut (B.stacks board.now) place }
    {
        match board.top(place) {
            Some(top) => self.is_cut_below(board, place, top),
            None => false,
        }
    }

    /// Whether the place, whose top piece is given, is a cut place. Few pieces are marked, so that
    /// its height is seldom read.
    fn is_cut_below<B: Board>(&self, board: &B, place: Place, top: Piece) -> bool
        requires keeps { Keeps (B.stacks board.now) self.now }
        requires top { top_at (B.stacks board.now) place ≡ Some top }
        ensures { IsTrue result ↔ IsCut (B.stacks board.now) place }
    {
        if !self.marks.is_set(top) {
            return false;
        }
        board.height(place) == 1
    }

    /// The free pieces of the board that the keeper stands for, as a number with one bit a piece.
    /// They are on top of their places and do not stand on a cut place.
    pub fn free_pieces<B: Board>(&self, board: &B) -> u32
        requires { Keeps (B.stacks board.now) self.now }
        ensures { result ≡ free_pieces (B.stacks board.now) None }
    {
        board.lemma_board();
        self.tops.bits() & (self.high.bits() | !self.marks.bits())
    }
}

fn added_in<B: Board, L: Ledger>(
    keeper: &mut CutKeeper,
    board: &B,
    piece: Piece,
    place: Place,
    blank: Blank,
)
    requires name { blank.name ≡ L.name }
    requires parts { blank.parts ≡ L.parts }
    requires some { 0 < L.parts }
    requires grown { Grown keeper.old (B.stacks board.now) piece place }
    requires within { IsOnTheMap place }
    ensures { Keeps (B.stacks board.now) keeper.new }
{
    let mut steps = Steps::<L>::new(blank);
    keeper.added(board, piece, place, &mut steps);
}

fn removed_in<B: Board, L: Ledger>(
    keeper: &mut CutKeeper,
    board: &B,
    piece: Piece,
    place: Place,
    blank: Blank,
)
    requires name { blank.name ≡ L.name }
    requires parts { blank.parts ≡ L.parts }
    requires some { 0 < L.parts }
    requires shrunk { Shrunk keeper.old (B.stacks board.now) piece place }
    requires within { IsOnTheMap place }
    ensures { Keeps (B.stacks board.now) keeper.new }
{
    let mut steps = Steps::<L>::new(blank);
    keeper.removed(board, piece, place, &mut steps);
}

/// `CutKeeper::added` for a caller that counts no steps.
pub fn added_uncounted<B: Board>(keeper: &mut CutKeeper, board: &B, piece: Piece, place: Place)
    requires grown { Grown keeper.old (B.stacks board.now) piece place }
    requires within { IsOnTheMap place }
    ensures { Keeps (B.stacks board.now) keeper.new }
{
    added_in::<B, Brand>(keeper, board, piece, place, Blank::new(1))
}

/// `CutKeeper::removed` for a caller that counts no steps.
pub fn removed_uncounted<B: Board>(keeper: &mut CutKeeper, board: &B, piece: Piece, place: Place)
    requires shrunk { Shrunk keeper.old (B.stacks board.now) piece place }
    requires within { IsOnTheMap place }
    ensures { Keeps (B.stacks board.now) keeper.new }
{
    removed_in::<B, Brand>(keeper, board, piece, place, Blank::new(1))
}

/// A board with the keeper that stands for it.
#[derive(Drop)]
pub struct KeptCuts<'a, B: Board> {
    board: &'a B,
    keeper: &'a CutKeeper,
    ghost stands: { Keeps (B.stacks board.now) keeper.now },
}

impl<'a, B: Board> KeptCuts<'a, B> {
    /// The board with this keeper.
    pub fn new(board: &'a B, keeper: &'a CutKeeper) -> KeptCuts<'a, B>
        requires { Keeps (B.stacks board.now) keeper.now }
        ensures { ⟦<KeptCuts<'a, B> as Board>⟧.stacks result ≡ B.stacks board.now }
    {
        KeptCuts { board, keeper }
    }
}

impl<B: Board> Board for KeptCuts<'_, B> {
    ghost stacks = { λ k. B.stacks k.board.now };

    fn top(&self, place: Place) -> Option<Piece> {
        self.board.top(place)
    }

    fn height(&self, place: Place) -> u8 {
        self.board.height(place)
    }

    fn spot(&self, piece: Piece) -> Option<Spot> {
        self.board.spot(piece)
    }

    fn lemma_board(&self) {
        self.board.lemma_board();
    }

    fn under(&self, piece: Piece) -> Option<Piece> {
        self.board.under(piece)
    }

    fn neighbours(&self, place: Place) -> u8 {
        self.board.neighbours(place)
    }
}

impl<B: Board> Cuts for KeptCuts<'_, B> {
    fn is_cut(&self, place: Place) -> bool {
        self.keeper.is_cut(self.board, place)
    }

    fn free_pieces(&self) -> u32 {
        self.keeper.free_pieces(self.board)
    }
}
