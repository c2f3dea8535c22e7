//! Keys: sound positions with equal keys have equal values at every depth.

ghost use Rattle.std.specs.Prelude.{◌≡◌, IfSome};
ghost use Rattle.hive_model.specs.Places.{IsWithin};
ghost use Rattle.hive_model.specs.Keys.{key_of, spot_in};
ghost use Rattle.std.specs.Hash as fed;
ghost use Rattle.hive_model.specs.SpotNumbers.{mixed};
ghost use Rattle.hive_model.specs.SmallSpots.{small, large};
ghost use Rattle.hive_model.specs.KeyNumbers.{equal_numbers, number_of};
ghost use Rattle.hive_model.specs.Repetition.{same_board};

use crate::boards::Board;
use crate::pieces::{Colour, GameType, Piece};
use crate::places::{Place, Spot};
use std::hash::{Hash, Hasher};
use std::marker::Model;

/// The place and level of a piece in play, in six bytes. All fields are 0 for a piece in hand.
#[derive(Clone, Copy, Debug, PartialEq, Eq)]
struct SmallSpot {
    q: i16,
    r: i16,
    level: u8,
    in_play: bool,
}

/// A position's key: the place and level of each piece, the game type, the side to move, the turn
/// number and the piece that rests. The turn number is capped at 5. Sound positions with equal keys
/// have equal values at every depth.
///
/// The number under which tables look it up is stored, so that it is computed once.
#[derive(Clone, Copy, Debug, PartialEq, Eq)]
pub struct Key {
    number: u64,
    spots: [SmallSpot; 28],
    game_type: GameType,
    side: Colour,
    turn: u8,
    rest: Option<Piece>,
}

impl Model for Key {
    ghost use Rattle.hive_model.specs.Keys.{KeyParts};

    ghost Value = { KeyParts };

    ghost use Rattle.std.specs.Prelude.{map};
    ghost use Rattle.hive_model.specs.SpotNumbers.{number_in};
    ghost use Rattle.hive_model.specs.SmallSpots.{small, large, IsSmallKey};

    ghost invariant = { λ k. IsSmallKey k.number k.spots };

    ghost view = { λ k. record {
      spots = map large k.spots;
      game_type = k.game_type;
      side = k.side;
      turn = k.turn;
      rest = k.rest;
    } };

    ghost inverse = { λ v. record {
      number = number_in v.spots;
      spots = map small v.spots;
      game_type = v.game_type;
      side = v.side;
      turn = v.turn;
      rest = v.rest;
    } };

    ghost inverse_ok = { λ a h i. record {
      number = h.number i;
      spots = h.again i;
      game_type = a.game_type;
      side = a.side;
      turn = a.turn;
      rest = a.rest;
    } };
}

/// Odd factors that spread their products over 64 bits.
const SPREAD: u64 = 0x9E37_79B9_7F4A_7C15;

const SPREAD_Q: u64 = 0xC2B2_AE3D_27D4_EB4F;

const SPREAD_R: u64 = 0x1656_67B1_9E37_79F9;

/// Adds one spot to the number of the spots before it.
fn mixed(number: u64, spot: Option<Spot>) -> u64
    ensures { result ≡ mixed number spot }
{
    let Some(spot) = spot else {
        return number.wrapping_mul(SPREAD);
    };
    let q = u64::from(spot.place.q.cast_unsigned()).wrapping_mul(SPREAD_Q);
    let r = u64::from(spot.place.r.cast_unsigned()).wrapping_mul(SPREAD_R);
    let here = q ^ r ^ (u64::from(spot.level) + 1);
    (number ^ here).wrapping_mul(SPREAD)
}

impl SmallSpot {
    /// A piece in hand.
    const NONE: SmallSpot = SmallSpot {
        q: 0,
        r: 0,
        level: 0,
        in_play: false,
    };

    /// Packs a spot.
    fn of(spot: Option<Spot>) -> SmallSpot
        requires { IfSome spot (λ s. IsWithin 9000 s.place) }
        ensures { result ≡ small spot }
    {
        match spot {
            Some(spot) => SmallSpot {
                q: spot.place.q as i16,
                r: spot.place.r as i16,
                level: spot.level,
                in_play: true,
            },
            None => SmallSpot::NONE,
        }
    }

    /// The spot, if the piece is in play.
    fn spot(self) -> Option<Spot>
        ensures { result ≡ large self }
    {
        if !self.in_play {
            return None;
        }
        Some(Spot {
            place: Place {
                q: i32::from(self.q),
                r: i32::from(self.r),
            },
            level: self.level,
        })
    }
}

/// Tables look a key up by a number of its spots alone, for speed; `==` compares all parts.
impl Hash for Key {
    ghost hash_input = { λ k. fed.u64 (number_of k) };

    ghost respects_eq = { equal_numbers };

    fn hash<H: Hasher>(&self, state: &mut H) {
        state.write_u64(self.number);
    }
}

impl Key {
    /// The number under which tables look the key up. Keys of one board have the same number.
    pub(crate) fn number(&self) -> u64
        ensures { result ≡ number_of self.now }
    {
        self.number
    }

    /// The key of a position: its game type, its board, the side to move, the turn number and the
    /// piece that rests.
    pub fn of<B: Board>(
        game_type: GameType,
        board: &B,
        side: Colour,
        turn: u32,
        rest: Option<Piece>,
    ) -> Key
        ensures { result ≡ key_of game_type (B.stacks board.now) side turn rest }
    {
        let mut spots = [SmallSpot::NONE; 28];
        let mut number = 0;
        for index in 0..28u8 {
            let spot = board.spot(Piece::at(index));
            number = mixed(number, spot);
            spots[index as usize] = SmallSpot::of(spot);
        }
        Key {
            number,
            spots,
            game_type,
            side,
            turn: turn.min(5) as u8,
            rest,
        }
    }

    /// The place and level of a piece, if it is in play.
    pub fn spot(&self, piece: Piece) -> Option<Spot>
        ensures spot { result ≡ spot_in self.now piece }
        ensures within { IfSome result (λ s. IsWithin 9000 s.place) }
    {
        self.spots[piece.index() as usize].spot()
    }

    /// The game type.
    pub fn game_type(&self) -> GameType
        ensures { result ≡ self.now.game_type }
    {
        self.game_type
    }

    /// The side to move.
    pub fn side(&self) -> Colour
        ensures { result ≡ self.now.side }
    {
        self.side
    }

    /// The turn number, capped at 5.
    pub fn turn(&self) -> u32
        ensures { result ≡ self.now.turn }
    {
        u32::from(self.turn)
    }

    /// The piece that rests, if there is one.
    pub fn rest(&self) -> Option<Piece>
        ensures { result ≡ self.now.rest }
    {
        self.rest
    }

    /// Whether the two keys are equal in all but the turn.
    pub fn same_board(&self, other: &Key) -> bool
        ensures { result ≡ same_board self.now other.now }
    {
        self.number == other.number
            && self.spots == other.spots
            && self.game_type == other.game_type
            && self.side == other.side
            && self.rest == other.rest
    }
}
