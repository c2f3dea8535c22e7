//! Trying moves before their turn saves plays of others.

use crate::plain_search_tests::beside::game_of;
use deepening::Searcher;
use hive_model::Game;
use plain_game::PlainGame;
use std::alloc::{AllocError, Global};
use std::test::Fail;

/// A game of 36 plies.
const GROWN: &str = concat!(
    "Base+MLP;InProgress;White[19];wS1;bM wS1/;wB1 wS1\\;bP \\bM;wP wB1-;bS1 \\bP;wQ /wP",
    ";bQ -bP;wL -wB1;bS2 /bQ;wB2 wP/;bS2 \\bS1;wM -wS1;bA1 bS2/;wG1 wP-;bA1 bP-;wL -wM",
    ";bG1 bS1-;wA1 /wL;bB1 bS2/;wG2 wA1\\;bP -bM;wG3 wG2\\;bB2 -bQ;wQ /wG1;bL bG1/",
    ";wB2 wG1;bG2 -bS1;wS2 -wL;bM -wQ;wA2 wG3-;bL bQ-;wA2 \\wS2;bA1 wG3\\;bM wS1-",
    ";bL -bG2",
);

/// How many moves the search for the best move of the game plays, three plies deep; `None` if no
/// move is left.
fn plays_of_three_plies(alloc: Global, game: &mut PlainGame) -> Result<Option<u64>, AllocError> {
    if game.plies() > 100 || game.state().is_over() {
        return Ok(None);
    }
    game.reserve(3)?;
    let mut searcher = Searcher::prepare(alloc, 65_536, 3)?;
    let before = game.played();
    let _best = searcher.best_at(game, 3);
    Ok(Some(game.played().saturating_sub(before)))
}

#[test]
fn moves_tried_early_spare_others(rt: HostRuntime) -> Result<(), Fail> {
    let mut game = game_of(rt.alloc(), GROWN)?.ok_or("a game")?;
    let plays = plays_of_three_plies(rt.alloc(), &mut game)?.ok_or("a move")?;
    // 362 were played when no two moves were tried early, and 189 are now
    assert!(rt; plays < 300, "{plays}");
    Ok(())
}
