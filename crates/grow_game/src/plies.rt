//! Plies that were played, to be undone and played again.

ghost use Rattle.std.specs.Prelude.{◌≡◌, ◌+◌, ◌++◌, ◌^◌, ◌<◌, ◌≤◌, [], length, IsTrue, ◌↔◌};
ghost use Rattle.hive_model.specs.Histories.{position, without_last};
ghost use Rattle.hive_model.specs.Games.{AreLegal};
ghost use Rattle.hive_model.specs.Positions.{opening};
ghost use Rattle.hive_model.specs.Keys.{key};
ghost use Rattle.grow_game.specs.Plies.{moves_of, AreKeyed};

use hive_model::{Game, Key, Move};

/// A ply that was played: the key before it, and its move.
#[derive(Drop)]
pub struct Ply {
    pub before: Key,
    pub m: Move,
}

/// Undoes the last ply, and says whether the key is then this one.
fn comes_back<G: Game>(game: &mut G, before: &Key) -> bool
    requires { 1 ≤ length (G.history game.old).made }
    ensures game { G.history game.new ≡ without_last (G.history game.old) }
    ensures same { IsTrue result ↔ (key (position (G.history game.new)) ≡ before.now) }
{
    game.undo();
    game.key() == *before
}

/// Undoes all plies of the game, from the last to the first. It counts those after which the key is
/// again the one from before the ply.
pub fn undo_all<G: Game>(game: &mut G, plies: &[Ply]) -> u32
    requires made { (G.history game.old).made ≡ moves_of plies.now }
    requires keyed { AreKeyed (opening (G.history game.old).game_type) plies.now }
    requires few { length plies.now < 2 ^ 32 }
    ensures undone { result ≡ length plies.now }
    ensures kind { (G.history game.new).game_type ≡ (G.history game.old).game_type }
    ensures none { (G.history game.new).made ≡ [] }
    ensures spare { (G.history game.new).spare ≡ (G.history game.old).spare + length plies.now }
{
    let mut undone = 0;
    for i in (0..plies.len()).rev() {
        if comes_back(game, &plies[i].before) {
            undone += 1;
        }
    }
    undone
}

/// Plays the moves of these plies, one after another.
pub fn play_all<G: Game>(game: &mut G, plies: &[Ply])
    requires legal { AreLegal (position (G.history game.old)) (moves_of plies.now) }
    requires spare { length plies.now ≤ (G.history game.old).spare }
    ensures kind { (G.history game.new).game_type ≡ (G.history game.old).game_type }
    ensures made { (G.history game.new).made ≡ (G.history game.old).made ++ moves_of plies.now }
    ensures spare { (G.history game.new).spare + length plies.now ≡ (G.history game.old).spare }
{
    for ply in plies {
        game.play(ply.m.again());
    }
}
