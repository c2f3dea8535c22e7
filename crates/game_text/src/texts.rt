//! The texts of a game's moves, stored.

ghost use Rattle.std.specs.Prelude.{
  ◌≡◌,
  ◌-◌,
  [],
  ◌∷◌,
  ◌++◌,
  length,
  take,
  map,
  IfOk,
  OnOk,
  OnErr,
};
ghost use Rattle.hive_model.specs.Boards.{IsBoard};
ghost use Rattle.hive_model.specs.Denotes.{text as text_of};
ghost use Rattle.hive_model.specs.Fields.{type_bytes, state_bytes};
ghost use Rattle.hive_model.specs.Strings.{joined_on, turn_bytes, side_name};
ghost use Rattle.move_text.specs.Moves.{IsMoveWithin};

use arrayvec::ArrayString;
use hive_model::{Board, Colour, GameType, Move, ReplyText, State};
use itoa::Buffer;
use move_text::{state_text, type_text, write_move};
use std::alloc::{AllocError, Global};
use std::marker::Model;

/// The texts of a game's moves in order, each as it is written on the board before its move.
#[derive(Drop)]
pub struct MoveTexts {
    alloc: Global,
    kept: Vec<ArrayString<16>>,
}

impl Model for MoveTexts {
    ghost use Rattle.std.specs.Prelude.{List, ℕ, map};

    ghost Value = { List (List ℕ) };

    ghost view = { λ s. map (λ t. t.bytes) s.kept.items };
}

impl MoveTexts {
    /// No text yet. The allocator is kept for those to come.
    pub fn new(alloc: Global) -> MoveTexts
        ensures { result ≡ [] }
    {
        MoveTexts {
            alloc,
            kept: Vec::new(alloc),
        }
    }

    /// Appends the text of a move on this board, before the move is made. The coordinates of the
    /// destination must be at most 9,500 in absolute value, as those of every legal move are. If
    /// memory runs out, the texts do not change.
    pub fn push<B: Board>(&mut self, board: &B, m: Move) -> Result<(), AllocError>
        requires sound { IsBoard (B.stacks board.now) }
        requires within { IsMoveWithin m }
        ensures pushed { OnOk result (self.new ≡ self.old ++ text_of (B.stacks board.now) m ∷ []) }
        ensures refused { OnErr result (self.new ≡ self.old) }
    {
        self.kept.push(write_move(board, m))?;
        Ok(())
    }

    /// Drops the last text, if there is one.
    pub fn pop(&mut self)
        ensures { self.new ≡ take (length self.old - 1) self.old }
    {
        self.kept.pop();
    }

    /// The number of texts.
    pub fn len(&self) -> usize
        ensures { result ≡ length self.now }
    {
        self.kept.len()
    }

    /// Appends the string of a game to `out`: its type, the state, the side to move and the turn
    /// number after its moves, and these texts, joined by semicolons. The time is linear in the
    /// length of the string. If memory runs out, nothing is appended.
    pub fn write(
        &self,
        game_type: GameType,
        state: State,
        side: Colour,
        turn: u32,
        out: &mut ReplyText,
    ) -> Result<(), AllocError>
        ensures written { OnOk result (out.new ≡ out.old
            ++ joined_on (type_bytes game_type)
            (state_bytes state ∷ (turn_bytes side turn ∷ self.now))) }
        ensures refused { OnErr result (out.new ≡ out.old) }
    {
        let text = self.joined(game_type, state, side, turn)?;
        out.push_all(text.items())
    }

    /// The string of a game.
    fn joined(
        &self,
        game_type: GameType,
        state: State,
        side: Colour,
        turn: u32,
    ) -> Result<ReplyText, AllocError>
        ensures { IfOk result (λ r. r ≡ joined_on (type_bytes game_type)
            (state_bytes state ∷ (turn_bytes side turn ∷ self.now))) }
    {
        let mut text = head(self.alloc, game_type, state, side, turn)?;
        for part in self.kept.iter() {
            push_part(&mut text, part.as_bytes())?;
        }
        Ok(text)
    }
}

/// Type, state and turn, joined by semicolons.
fn head(
    alloc: Global,
    game_type: GameType,
    state: State,
    side: Colour,
    turn: u32,
) -> Result<ReplyText, AllocError>
    ensures { IfOk result (λ r. r ≡ type_bytes game_type ++ 59 ∷ state_bytes state ++ 59
        ∷ turn_bytes side turn) }
{
    let mut text = ReplyText::new(alloc);
    push_head(&mut text, game_type, state, side, turn)?;
    Ok(text)
}

/// Appends type, state and turn, joined by semicolons. If memory runs out, a prefix of these may
/// have been appended.
fn push_head(
    text: &mut ReplyText,
    game_type: GameType,
    state: State,
    side: Colour,
    turn: u32,
) -> Result<(), AllocError>
    ensures { OnOk result (text.new ≡ text.old ++ (type_bytes game_type ++ 59 ∷ state_bytes state
        ++ 59 ∷ turn_bytes side turn)) }
{
    text.push_all(type_text(game_type).as_bytes())?;
    push_part(text, state_text(state).as_bytes())?;
    push_turn(text, side, turn)
}

/// Appends a semicolon and the turn. If memory runs out, a prefix of these may have been appended.
fn push_turn(text: &mut ReplyText, side: Colour, turn: u32) -> Result<(), AllocError>
    ensures { OnOk result (text.new ≡ text.old ++ 59 ∷ turn_bytes side turn) }
{
    push_part(text, side_name(side).as_bytes())?;
    let mut buffer = Buffer::new();
    text.push_all(buffer.format(turn).as_bytes())?;
    text.push(b']')
}

/// Appends a semicolon and the part. If memory runs out, a prefix of these may have been appended.
fn push_part(text: &mut ReplyText, part: &[u8]) -> Result<(), AllocError>
    ensures { OnOk result (text.new ≡ text.old ++ 59 ∷ part.now) }
{
    text.push(b';')?;
    text.push_all(part)
}

/// The name of the side and the bracket after it.
fn side_name(side: Colour) -> &'static str
    ensures { result.now ≡ side_name side }
{
    match side {
        Colour::White => "White[",
        Colour::Black => "Black[",
    }
}
