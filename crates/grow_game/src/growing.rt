//! The game that a number makes, undone and played again.

ghost use Rattle.std.specs.Prelude.{◌≡◌, ◌+◌, ◌≤◌, [], length, IfOk};
ghost use Rattle.hive_model.specs.Histories.{position};
ghost use Rattle.grow_game.specs.Growing.{full_type, start, grown_moves, choices, TellsBest};
ghost use Rattle.grow_game.specs.Made.{AreMade};

use crate::drawing::play_drawn;
use crate::plies::{Ply, play_all, undo_all};
use deepening::Searcher;
use hive_model::{Best, Game, GameType, MoveStack};
use rand_xoshiro::SplitMix64;
use rand_xoshiro::rand_core::SeedableRng;
use std::alloc::{AllocError, Global};

/// The base game with all three expansions.
const FULL: GameType = GameType {
    mosquito: true,
    ladybug: true,
    pillbug: true,
};

/// A game that a number made.
#[derive(Drop)]
pub struct Grown<G> {
    /// The game, with all its plies played.
    pub game: G,
    /// The sum of the lengths of the lists from which its moves were drawn.
    pub moves: u64,
    /// How many of its plies gave back the key from before them when they were undone.
    pub undone: u32,
    /// The best move of depth 1 at its end, if it is not over.
    pub best: Option<Best>,
}

/// The plies of a game, and the sum of the lengths of the lists from which they were chosen.
#[derive(Drop)]
struct GrownPlies {
    plies: Vec<Ply>,
    chosen: u64,
}

/// Plays the moves of the seed, at most `plies` of them, in a game with no moves yet.
fn play_grown<G: Game>(
    alloc: Global,
    game: &mut G,
    seed: u64,
    plies: u32,
    stack: &mut MoveStack,
) -> Result<GrownPlies, AllocError>
    requires fresh { (G.history game.old).made ≡ [] }
    requires few { plies ≤ 1000 }
    requires spare { plies ≤ (G.history game.old).spare }
    requires room { 1 ≤ stack.old.free }
    ensures made { let from = G.history game.old in
        IfOk result (λ r. AreMade seed plies from (G.history game.new) r.plies.items r.chosen) }
    ensures few { IfOk result (λ r. length r.plies.items ≤ plies) }
    ensures stack { stack.new ≡ stack.old }
{
    let mut generator = SplitMix64::from_seed(seed.to_le_bytes());
    let mut made = Vec::new(alloc);
    let mut chosen = 0;
    for _ply in 0..plies {
        if game.state().is_over() {
            return Ok(GrownPlies {
                plies: made,
                chosen,
            });
        }
        let before = game.key();
        let drawn = play_drawn(game, &mut generator, stack);
        made.push(Ply { before, m: drawn.m })?;
        chosen += u64::from(drawn.choices);
    }
    Ok(GrownPlies {
        plies: made,
        chosen,
    })
}

/// The best move of depth 1 with its value, or `None` if the game is over. Game and searcher are as
/// before.
fn best_here<G: Game>(game: &mut G, searcher: &mut Searcher) -> Option<Best>
    requires prepared { 1 ≤ searcher.old }
    requires spare { 1 ≤ (G.history game.old).spare }
    ensures best { TellsBest (position (G.history game.old)) result }
    ensures game { G.history game.new ≡ G.history game.old }
    ensures searcher { searcher.new ≡ searcher.old }
{
    if game.state().is_over() {
        return None;
    }
    Some(searcher.best_at(game, 1))
}

/// The game that a seed makes from the opening, with all three expansions and at most `plies`
/// plies, from 1 to 1,000. SplitMix64 starts with the seed's eight bytes, the least significant
/// first. While the game is not over and a ply is left, the generator gives one word of 64 bits.
/// The move at place (word modulo the length of the list of legal moves) is played. Then all plies
/// are undone from the last to the first, and played again.
///
/// The searcher is prepared for depth 1 at least, and the stack has two levels free. Both are as
/// before. The only error is running out of memory.
pub fn grow<G: Game + Drop>(
    alloc: Global,
    seed: u64,
    plies: u32,
    searcher: &mut Searcher,
    stack: &mut MoveStack,
) -> Result<Grown<G>, AllocError>
    requires some { 1 ≤ plies }
    requires few { plies ≤ 1000 }
    requires prepared { 1 ≤ searcher.old }
    requires room { 2 ≤ stack.old.free }
    ensures kind { IfOk result (λ r. (G.history r.game).game_type ≡ full_type) }
    ensures made { IfOk result (λ r. (G.history r.game).made ≡ grown_moves seed plies) }
    ensures moves { IfOk result (λ r. r.moves ≡ choices start (G.history r.game).made) }
    ensures undone { IfOk result (λ r. r.undone ≡ length (G.history r.game).made) }
    ensures best { IfOk result (λ r. TellsBest (position (G.history r.game)) r.best) }
    ensures searcher { searcher.new ≡ searcher.old }
    ensures stack { stack.new ≡ stack.old }
{
    let mut game = G::opening(alloc, FULL)?;
    game.reserve(plies + 1)?;
    let played = play_grown(alloc, &mut game, seed, plies, stack)?;
    let undone = undo_all(&mut game, played.plies.as_slice());
    play_all(&mut game, played.plies.as_slice());
    let best = best_here(&mut game, searcher);
    Ok(Grown {
        game,
        moves: played.chosen,
        undone,
        best,
    })
}
