//! The bits of directions, of which masks of neighbours are made.

ghost use Rattle.std.specs.Prelude.{◌≡◌, ◌≤◌, if◌then◌else◌};
ghost use Rattle.hive_model.specs.Neighbours.{weight};

use crate::places::Dir;

impl Dir {
    /// The bit of the direction in a mask of neighbours.
    pub fn bit(self) -> u8
        ensures bit { result ≡ weight self }
        ensures few { result ≤ 32 }
    {
        match self {
            Dir::E => 1,
            Dir::NE => 2,
            Dir::NW => 4,
            Dir::W => 8,
            Dir::SW => 16,
            Dir::SE => 32,
        }
    }

    /// The bit of the direction if `has` is true, and 0 otherwise.
    pub fn bit_if(self, has: bool) -> u8
        ensures bit { result ≡ (if has then weight self else 0) }
        ensures few { result ≤ weight self }
    {
        if has { self.bit() } else { 0 }
    }
}
