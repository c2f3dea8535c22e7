//! Whether the side to move can force a win, and the indices that show it.

ghost use Rattle.std.specs.Prelude.{◌≡◌, ◌≤◌, IfOk, false};
ghost use Rattle.io_edge.specs.Outside.{HasCause};
ghost use Rattle.hive_model.specs.Histories.{position};
ghost use Rattle.certificate_indices.specs.Writing.{Wrote, index_lines};
ghost use Rattle.win_solver.specs.Force.{force};
ghost use Rattle.win_solver.specs.Solution.{least_solution};

use crate::reaching::{Workspace, deepen, reaches};
use crate::solutions::answer_limit;
use certificate_indices::{Judge, write_indices};
use certificate_walks::Limit;
use hive_model::{Game, MoveStack};
use io_edge::Sink;
use std::alloc::{AllocError, Global};
use std::marker::Model;
use value_table::ValueTable;

/// Decides whether a position keeps to a limit. Contracts see the number of plies that it is
/// prepared to search.
#[derive(Drop)]
pub(crate) struct Teller {
    space: Workspace,
}

impl Model for Teller {
    ghost use Rattle.std.specs.Prelude.{◌≡◌, ◌≤◌, ℕ};

    ghost Value = { ℕ };

    ghost view = { λ s. s.space.stack.free };

    ghost invariant = { λ s. s.space.stack.free ≤ 16 };
}

impl Judge for Teller {
    ghost prepared = { λ s. s };

    fn is_kept<G: Game>(&mut self, game: &mut G, depth: u32, limit: Limit) -> bool {
        match limit {
            Limit::AtLeast(least) => reaches(game, depth, least, &mut self.space),
            Limit::AtMost(most) => !reaches(game, depth, most + 1, &mut self.space),
        }
    }
}

/// What a search for forced wins needs, made once: the judge of values, and room for the lists of
/// moves of the plies that it is prepared for. Contracts see that number of plies, from 1 to 16.
#[derive(Drop)]
pub struct Solver {
    teller: Teller,
    stack: MoveStack,
}

impl Model for Solver {
    ghost use Rattle.std.specs.Prelude.{◌≡◌, ◌≤◌, ℕ};

    ghost Value = { ℕ };

    ghost view = { λ s. s.teller };

    ghost invariant = { λ s. (s.teller ≡ s.stack.free) × (s.teller ≤ 16) };
}

impl Solver {
    /// A solver for up to `plies` plies, from 1 to 16, with a table of at most `entries` positions,
    /// from 1 to 1,048,576.
    pub fn prepare(alloc: Global, entries: u32, plies: u32) -> Result<Solver, AllocError>
        requires entries { 1 ≤ entries }
        requires few { entries ≤ 1048576 }
        requires some { 1 ≤ plies }
        requires short { plies ≤ 16 }
        ensures { IfOk result (λ s. s ≡ plies) }
    {
        let space = Workspace {
            stack: MoveStack::new(alloc, plies)?,
            table: ValueTable::new(alloc, entries)?,
        };
        let stack = MoveStack::new(alloc, plies)?;
        Ok(Solver {
            teller: Teller { space },
            stack,
        })
    }

    /// Whether the side to move can force a win within `plies` plies, up to the prepared number.
    /// The game has room for that number of plies. Game and solver are as before.
    pub fn solve<G: Game>(&mut self, game: &mut G, plies: u32) -> bool
        requires prepared { plies ≤ self.old }
        requires spare { plies ≤ (G.history game.old).spare }
        ensures answer { result
            ≡ force (position (G.history game.old)) plies (position (G.history game.old)).side }
        ensures game { G.history game.new ≡ G.history game.old }
        ensures solver { self.new ≡ self.old }
    {
        deepen(game, plies, 1_000_000, &mut self.teller.space)
    }

    /// Writes the least indices, one a line, that show whether the side to move can force a win
    /// within `plies` plies. That number is at most the prepared one, and the game has room for it.
    /// Game and solver are as before. The answer is whether everything was written.
    pub fn write_indices<G: Game, K: Sink>(
        &mut self,
        game: &mut G,
        plies: u32,
        sink: &mut K,
    ) -> bool
        requires prepared { plies ≤ self.old }
        requires spare { plies ≤ (G.history game.old).spare }
        ensures wrote { Wrote result
            (index_lines (least_solution (position (G.history game.old)) plies
            (position (G.history game.old)).side
            (force (position (G.history game.old)) plies (position (G.history game.old)).side)))
            (K.written sink.old) (K.written sink.new) }
        ensures cause { HasCause (result ≡ false)
            (K.write_faults sink.old) (K.write_faults sink.new) }
        ensures game { G.history game.new ≡ G.history game.old }
        ensures solver { self.new ≡ self.old }
    {
        let limit = answer_limit(self.solve(game, plies));
        write_indices(&mut self.teller, game, plies, limit, &mut self.stack, sink)
    }
}
