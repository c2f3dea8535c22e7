//! One ply: draws a word, and plays the move that it picks.

ghost use Rattle.std.specs.Prelude.{◌≡◌, ◌%◌, ◌<◌, ◌≤◌, false, length, Some};
ghost use Rattle.hive_model.specs.Legal.{is_over, moves};
ghost use Rattle.hive_model.specs.Histories.{position, with_move};
ghost use Rattle.grow_game.specs.Growing.{word, next_state, drawn};

use hive_model::{Game, Move, MoveStack};
use rand_xoshiro::SplitMix64;
use rand_xoshiro::rand_core::utils::NextWord;

/// A move that was drawn, and the length of the list from which it was drawn.
#[derive(Drop)]
pub struct Drawn {
    pub m: Move,
    pub choices: u32,
}

/// The next word modulo the number of choices.
fn draw(generator: &mut SplitMix64, choices: u32) -> u32
    requires { 1 ≤ choices }
    ensures index { result ≡ word generator.old % choices }
    ensures within { result < choices }
    ensures state { generator.new ≡ next_state generator.old }
{
    (generator.next_word() % u64::from(choices)) as u32
}

/// Draws a legal move with the next word and plays it. The stack is as before.
pub fn play_drawn<G: Game>(game: &mut G, generator: &mut SplitMix64, stack: &mut MoveStack) -> Drawn
    requires goes_on { is_over (position (G.history game.old)) ≡ false }
    requires spare { 1 ≤ (G.history game.old).spare }
    requires room { 1 ≤ stack.old.free }
    ensures drawn { let p = position (G.history game.old) in
        drawn (word generator.old) (moves p) ≡ Some result.m }
    ensures choices { result.choices ≡ length (moves (position (G.history game.old))) }
    ensures state { generator.new ≡ next_state generator.old }
    ensures game { G.history game.new ≡ with_move (G.history game.old) result.m }
    ensures stack { stack.new ≡ stack.old }
{
    let level = stack.levels();
    game.list(stack);
    let choices = stack.level_len(level);
    let index = draw(generator, choices);
    let m = stack.get(level, index);
    stack.drop_level();
    game.play(m.again());
    Drawn { m, choices }
}
