//! Writing a game as a line.

ghost use Rattle.std.specs.Prelude.{◌≡◌, true, ◌++◌, IfOk, OnOk, OnErr};
ghost use Rattle.hive_model.specs.Positions.{opening};
ghost use Rattle.hive_model.specs.Games.{IsGame};
ghost use Rattle.hive_model.specs.Repetition.{outcome_under};
ghost use Rattle.game_text.specs.Seen.{Sees};
ghost use Rattle.hive_model.specs.Strings.{string, string_under, texts};

use crate::playing::unplayed;
use crate::seen::Seen;
use crate::texts::MoveTexts;
use hive_model::{Game, ReplyText, State};
use std::alloc::{AllocError, Global};

/// The texts of the game's moves. The moves are replayed on a game of the same type that is made
/// for it.
pub fn texts_of<G: Game + Drop>(alloc: Global, game: &G) -> Result<MoveTexts, AllocError>
    requires { IsGame (G.history game.now).game_type (G.history game.now).made }
    ensures { IfOk result (λ r. r ≡ texts (opening (G.history game.now).game_type)
        (G.history game.now).made) }
{
    let plies = game.plies();
    let mut copy = unplayed::<G>(alloc, game.game_type(), plies)?;
    let mut texts = MoveTexts::new(alloc);
    for i in 0..plies {
        let m = game.move_at(i);
        texts.push(&copy, m.again())?;
        copy.play(m);
    }
    Ok(texts)
}

/// The keys of the game's positions, with the rule on. The moves are replayed on a game of the same
/// type that is made for it.
fn seen_of<G: Game + Drop>(alloc: Global, game: &G) -> Result<Seen, AllocError>
    requires { IsGame (G.history game.now).game_type (G.history game.now).made }
    ensures rule { IfOk result (λ s. s.repetition ≡ true) }
    ensures seen { IfOk result (λ s. Sees s (G.history game.now)) }
{
    let plies = game.plies();
    let mut copy = unplayed::<G>(alloc, game.game_type(), plies)?;
    let mut seen = Seen::of(alloc, true, &copy)?;
    for i in 0..plies {
        let m = game.move_at(i);
        copy.play(m);
        seen.note(&copy)?;
    }
    Ok(seen)
}

/// The keys of the game's positions if the rule is on, and none if it is off.
pub fn seen_under<G: Game + Drop>(
    alloc: Global,
    game: &G,
    repetition: bool,
) -> Result<Seen, AllocError>
    requires { IsGame (G.history game.now).game_type (G.history game.now).made }
    ensures rule { IfOk result (λ s. s.repetition ≡ repetition) }
    ensures seen { IfOk result (λ s. Sees s (G.history game.now)) }
{
    if repetition {
        seen_of(alloc, game)
    } else {
        Ok(Seen::off(alloc))
    }
}

/// The outcome of the game, with the rule of third repetition on or off.
fn outcome<G: Game + Drop>(alloc: Global, game: &G, repetition: bool) -> Result<State, AllocError>
    ensures { IfOk result (λ s. s ≡ outcome_under repetition (G.history game.now).game_type
        (G.history game.now).made) }
{
    let state = game.state();
    if !repetition {
        return Ok(state);
    }
    let seen = seen_of(alloc, game)?;
    Ok(seen.outcome(game))
}

/// Appends the game's string, as `write_game` does, with the rule of third repetition on or off.
/// The state in the string is the outcome of the game under the rule.
pub fn write_game_under<G: Game + Drop>(
    alloc: Global,
    game: &G,
    repetition: bool,
    out: &mut ReplyText,
) -> Result<(), AllocError>
    ensures written { OnOk result (out.new ≡ out.old
        ++ string_under repetition (G.history game.now).game_type (G.history game.now).made) }
    ensures refused { OnErr result (out.new ≡ out.old) }
{
    game.lemma_sound();
    let state = outcome(alloc, game, repetition)?;
    let texts = texts_of(alloc, game)?;
    texts.write(game.game_type(), state, game.side(), game.turn(), out)
}

/// Appends the game's string: its type, its state, its turn and its moves, joined by semicolons.
/// Each move is written as its one text on the board before it. The moves are replayed on a game of
/// the same type that is made for it. If memory runs out, nothing is appended.
pub fn write_game<G: Game + Drop>(
    alloc: Global,
    game: &G,
    out: &mut ReplyText,
) -> Result<(), AllocError>
    ensures written { OnOk result (out.new ≡ out.old
        ++ string (G.history game.now).game_type (G.history game.now).made) }
    ensures refused { OnErr result (out.new ≡ out.old) }
{
    write_game_under(alloc, game, false, out)
}
