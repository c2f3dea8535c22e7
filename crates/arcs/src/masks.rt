//! The number of arcs that the occupied neighbours of a place form, and the ends of these arcs.
//!
//! The neighbours are a mask below 64: bit i is set if the neighbour in direction i is occupied, in
//! the order E, NE, NW, W, SW, SE. The order is cyclic: E follows SE. An arc is a run of set bits
//! in the cycle, with an unset bit before it and one after it. So it has one to five bits, and the
//! masks 0 and 63 have no arc.

ghost use Rattle.std.specs.Prelude.{◌≡◌, ◌<◌};
ghost use Rattle.arcs.specs.Masks.{arcs, arc_ends, case_row, case_rows};
ghost use Rattle.arcs.specs.Masks.{is_first, is_last, mask_by, six};

/// The row of one mask.
#[derive(Clone, Copy, Debug, PartialEq, Eq)]
pub struct CaseRow {
    /// The number of arcs, 0 to 3.
    pub arcs: u8,
    /// The ends of the arcs, as a mask: the set bits with an unset bit beside them.
    pub ends: u8,
}

/// The rows of all 64 masks, each proved to match the definitions of arcs and ends.
#[derive(Clone, Copy, Debug)]
pub struct CaseTable {
    rows: [CaseRow; 64],
    ghost right: { rows ≡ case_rows },
}

impl CaseTable {
    /// The table. The type guarantees that each row is that of its mask, so there is no other
    /// table.
    pub fn new() -> CaseTable {
        // the arcs and the ends of each mask in turn
        macro_rules! rows {
            ($($arcs:literal $ends:literal);*) => {
                [$(CaseRow { arcs: $arcs, ends: $ends }),*]
            };
        }
        let rows = rows! {
            0 0; 1 1; 1 2; 1 3; 1 4; 2 5; 1 6; 1 5;
            1 8; 2 9; 2 10; 2 11; 1 12; 2 13; 1 10; 1 9;
            1 16; 2 17; 2 18; 2 19; 2 20; 3 21; 2 22; 2 21;
            1 24; 2 25; 2 26; 2 27; 1 20; 2 21; 1 18; 1 17;
            1 32; 1 33; 2 34; 1 34; 2 36; 2 37; 2 38; 1 36;
            2 40; 2 41; 3 42; 2 42; 2 44; 2 45; 2 42; 1 40;
            1 48; 1 17; 2 50; 1 18; 2 52; 2 21; 2 54; 1 20;
            1 40; 1 9; 2 42; 1 10; 1 36; 1 5; 1 34; 0 0
        };
        CaseTable { rows }
    }

    /// The row of a mask below 64.
    pub fn row(&self, mask: usize) -> CaseRow
        requires { mask < 64 }
        ensures { result ≡ case_row mask }
    {
        self.rows[mask]
    }
}

/// The number of arcs of a mask below 64, 0 to 3: its set bits that follow an unset bit.
///
/// The occupied neighbours form one arc exactly if this is 1.
pub fn arcs(mask: u8) -> u8
    requires { mask < 64 }
    ensures { result ≡ arcs mask }
{
    first_bits(mask).count_ones() as u8
}

/// The ends of the arcs of a mask below 64, as a mask: its set bits with an unset bit beside them,
/// before or after. The one bit of an arc of length 1 is its end.
pub fn arc_ends(mask: u8) -> u8
    requires { mask < 64 }
    ensures { result ≡ arc_ends mask }
{
    first_bits(mask) | last_bits(mask)
}

/// The first bit of each arc: it is set, and the one before it is not.
fn first_bits(mask: u8) -> u8
    requires { mask < 64 }
    ensures { result ≡ mask_by (is_first mask) six }
{
    let before = mask << 1 | mask >> 5;
    mask & !before
}

/// The last bit of each arc: it is set, and the one after it is not.
fn last_bits(mask: u8) -> u8
    requires { mask < 64 }
    ensures { result ≡ mask_by (is_last mask) six }
{
    let after = mask >> 1 | mask << 5;
    mask & !after
}
