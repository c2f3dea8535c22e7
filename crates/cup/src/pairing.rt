//! The games of a cup.

ghost use Rattle.std.specs.Prelude.{◌≡◌, ◌≤◌, ◌++◌, IfOk, OnOk};
ghost use Rattle.cup.specs.Cup.{pairings, row};

use std::alloc::{AllocError, Global};

/// A game of a cup: the numbers of the engines that play white and black, counted from 1.
#[derive(Clone, Copy, Debug, PartialEq, Eq)]
pub struct Pairing {
    pub white: u32,
    pub black: u32,
}

/// Appends the games in which one engine plays white against each other one, by its number.
fn push_row(white: u32, engines: u32, games: &mut Vec<Pairing>) -> Result<(), AllocError>
    requires few { engines ≤ 8 }
    ensures { OnOk result (games.new.items ≡ games.old.items ++ row engines white) }
{
    for black in 1..engines + 1 {
        if black == white {
            continue;
        }
        games.push(Pairing { white, black })?;
    }
    Ok(())
}

/// The games of a cup of up to 8 engines. Each engine plays white once against each other one. The
/// games are ordered by the number of white and then of black. The only error is running out of
/// memory.
pub fn pairings(alloc: Global, engines: u32) -> Result<Vec<Pairing>, AllocError>
    requires few { engines ≤ 8 }
    ensures { IfOk result (λ games. games.items ≡ pairings engines) }
{
    let mut games = Vec::new(alloc);
    for white in 1..engines + 1 {
        push_row(white, engines, &mut games)?;
    }
    Ok(games)
}
