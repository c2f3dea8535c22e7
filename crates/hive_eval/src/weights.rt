//! What pieces weigh: one by its kind, and many at once by counts of bits.

ghost use Rattle.std.specs.Prelude.{◌≡◌, ◌≤◌, pos, ◌≤ℤ◌};
ghost use Rattle.hive_model.specs.Evaluation.{weight_of};
ghost use Rattle.hive_model.specs.Pieces.{mask_of_pieces, colour_of, is_colour};
ghost use Rattle.hive_eval.specs.Weights.{weight_of_pieces};

use hive_model::{Colour, Kind};

/// The first piece of each side, as a number with a bit for each piece: so many times a mask of
/// white pieces is the mask of these and of the black ones like them.
const BOTH_SIDES: u32 = 1 | 1 << 14;

/// The queens and the spiders, which weigh 4 each.
const QUEENS_AND_SPIDERS: u32 = 0b111 * BOTH_SIDES;

/// The grasshoppers, which weigh 6 each.
const GRASSHOPPERS: u32 = 0b1110_0000 * BOTH_SIDES;

/// The beetles, the ladybugs and the pillbugs, which weigh 8 each.
const BEETLES_LADYBUGS_AND_PILLBUGS: u32 = 0b11_0000_0001_1000 * BOTH_SIDES;

/// The ants and the mosquitoes, which weigh 10 each.
const ANTS_AND_MOSQUITOES: u32 = 0b1111_0000_0000 * BOTH_SIDES;

/// What a free piece of this kind counts.
pub fn weight_of(kind: Kind) -> i32
    ensures weight { result ≡ pos (weight_of kind) }
    ensures most { result ≤ℤ pos 10 }
{
    match kind {
        Kind::Queen | Kind::Spider => 4,
        Kind::Grasshopper => 6,
        Kind::Beetle | Kind::Ladybug | Kind::Pillbug => 8,
        Kind::Ant | Kind::Mosquito => 10,
    }
}

/// The pieces of a side, as a number with a bit for each piece.
pub fn pieces_of(side: Colour) -> u32
    ensures { result ≡ mask_of_pieces (λ x. is_colour (colour_of x) side) }
{
    match side {
        Colour::White => 0x3fff,
        Colour::Black => 0xfff_c000,
    }
}

/// What the pieces weigh together whose bits are set.
pub fn weight_of_pieces(pieces: u32) -> u32
    ensures weight { result ≡ weight_of_pieces pieces }
    ensures few { result ≤ 280 }
{
    4 * (pieces & QUEENS_AND_SPIDERS).count_ones()
        + 6 * (pieces & GRASSHOPPERS).count_ones()
        + 8 * (pieces & BEETLES_LADYBUGS_AND_PILLBUGS).count_ones()
        + 10 * (pieces & ANTS_AND_MOSQUITOES).count_ones()
}
