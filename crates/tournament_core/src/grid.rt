//! Counts for pairs of engines.

ghost use Rattle.std.specs.Prelude.{◌≡◌, ◌+◌, ◌<◌, ◌≤◌, ◌^◌, ℕ, IfOk};
ghost use Rattle.tournament_core.specs.Counts.{IsBlank, count_at, one_at};

use std::alloc::{AllocError, Global};
use std::marker::Model;

/// A count for each pair of numbers below a width, row by row.
#[derive(Drop)]
pub(crate) struct Grid {
    width: usize,
    cells: Vec<u64>,
}

impl Model for Grid {
    ghost use Rattle.tournament_core.specs.Counts.{Cells, IsGrid};

    ghost Value = { Cells };

    ghost view = { λ g. record {
      width = g.width;
      counts = g.cells.items;
    } };

    ghost invariant = { λ g. IsGrid g.width g.cells.items };
}

impl Grid {
    /// Counts that are all 0.
    pub(crate) fn new(alloc: Global, width: usize) -> Result<Grid, AllocError>
        requires few { width ≤ 65 }
        ensures { IfOk result (λ grid. IsBlank width grid) }
    {
        let cells = vec![in alloc; 0u64; width * width]?;
        Ok(Grid { width, cells })
    }

    /// The count for two numbers.
    pub(crate) fn get(&self, row: u32, column: u32) -> u64
        requires row { row < self.now.width }
        requires column { column < self.now.width }
        ensures { result ≡ count_at self.now row column }
    {
        self.cells[row as usize * self.width + column as usize]
    }

    /// Increases the count for two numbers by one.
    pub(crate) fn add(&mut self, row: u32, column: u32)
        requires row { row < self.old.width }
        requires column { column < self.old.width }
        requires room { count_at self.old row column < 2 ^ 63 }
        ensures width { self.new.width ≡ self.old.width }
        ensures counted { (i j : ℕ) → i < self.old.width → j < self.old.width
            → count_at self.new i j ≡ count_at self.old i j + one_at row column i j }
    {
        let place = row as usize * self.width + column as usize;
        self.cells[place] += 1;
    }
}
