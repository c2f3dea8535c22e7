//! How the moves of the games are drawn.
ghost use Rattle.std.specs.Prelude.{◌≡◌, ◌≤◌, ◌-◌, length, not, take, IfOk, IfSome, OnOk};
ghost use Rattle.std.specs.List.{filter};
ghost use Rattle.hive_model.specs.declared.places.Move.{Move as AnyMove};
ghost use Rattle.hive_model.specs.Histories.{position};
ghost use Rattle.hive_model.specs.Lists.{IsOn};
ghost use Rattle.hive_model.specs.Games.{replay};
ghost use Rattle.hive_model.specs.Legal.{moves};
ghost use Rattle.hive_model.specs.Positions.{opening};
ghost use Rattle.move_text.specs.Moves.{IsMoveWithin};
ghost use Rattle.audit_core.specs.Judging.{has_move};
ghost use Rattle.grow_game.specs.Growing.{drawn, next_state};
ghost use Rattle.audit_core.specs.Drawing.{
  is_rare,
  is_wanted,
  picked_from,
  drawn_of,
  state_after,
  state_of,
  stale_moves,
  tried_of,
  undone_of,
  type_of,
};

use crate::lists::{has_move, legal_moves};
use crate::past::first_plies;
use crate::sieges::is_sought;
use hive_model::{Game, GameType, Kind, Move, MoveList, is_occupied};
use rand_xoshiro::SplitMix64;
use rand_xoshiro::rand_core::SeedableRng;
use rand_xoshiro::rand_core::utils::NextWord;
use std::alloc::{AllocError, Global};

/// The generator at the start of a game, by the seed and the number of games before it.
pub(crate) fn generator_of(seed: u64, number: u64) -> SplitMix64
    ensures { result ≡ state_of seed number }
{
    SplitMix64::from_seed(seed.wrapping_add(number).to_le_bytes())
}

/// The type of a game, by the number of games before it.
pub(crate) fn type_of(asked: Option<GameType>, plays: GameType, number: u64) -> GameType
    ensures { result ≡ type_of asked plays number }
{
    match asked {
        Some(game_type) => game_type,
        None => GameType {
            mosquito: plays.mosquito && number % 2 == 1,
            ladybug: plays.ladybug && number / 2 % 2 == 1,
            pillbug: plays.pillbug && number / 4 % 2 == 1,
        },
    }
}

/// Whether a move is rare: the pass, a move of a mosquito, a throw of a piece of the other side, or
/// a move onto a piece.
fn is_rare<G: Game>(game: &G, m: Move) -> bool
    ensures { result ≡ is_rare (position (G.history game.now)) m }
{
    match m {
        Move::Pass => true,
        Move::To { piece, place } => {
            piece.kind().is(Kind::Mosquito)
                || !piece.colour().is(game.side())
                || is_occupied(game, place)
        }
    }
}

/// Whether a game prefers a move: in a siege a sought move, and otherwise a rare one.
fn is_wanted<G: Game>(game: &G, siege: bool, m: Move) -> bool
    ensures { result ≡ is_wanted siege (position (G.history game.now)) m }
{
    if siege {
        is_sought(game, m)
    } else {
        is_rare(game, m)
    }
}

/// The moves on the list that a game prefers.
fn wanted_of<G: Game>(
    alloc: Global,
    game: &G,
    siege: bool,
    all: &[Move],
) -> Result<MoveList, AllocError>
    ensures { IfOk result (λ l. l
        ≡ filter (is_wanted siege (position (G.history game.now))) all.now) }
{
    let mut wanted = MoveList::new(alloc);
    for m in all {
        if is_wanted(game, siege, m.again()) {
            wanted.push(m.again())?;
        }
    }
    Ok(wanted)
}

/// The move that a word draws from a list, if the list has one.
fn pick(all: &[Move], word: u64) -> Option<Move>
    ensures { result ≡ drawn word all.now }
{
    if all.is_empty() {
        return None;
    }
    let index = word % all.len() as u64;
    all.get(index as usize).copied()
}

/// The list from which a move is drawn, by the first word.
fn picked_from<'a>(siege: bool, word: u64, wanted: &'a [Move], all: &'a [Move]) -> &'a [Move]
    ensures { result.now ≡ picked_from siege word wanted.now all.now }
{
    if !wanted.is_empty() && (siege || word % 2 == 0) {
        wanted
    } else {
        all
    }
}

/// Draws one of the legal moves of a game with two words, if there is one.
pub(crate) fn draw<G: Game>(
    alloc: Global,
    game: &G,
    siege: bool,
    legal: &[Move],
    generator: &mut SplitMix64,
) -> Result<Option<Move>, AllocError>
    requires { legal.now ≡ moves (position (G.history game.now)) }
    ensures drawn { IfOk result (λ m. m
        ≡ drawn_of siege generator.old (position (G.history game.now))) }
    ensures state { OnOk result (generator.new ≡ state_after generator.old) }
{
    let wanted = wanted_of(alloc, game, siege, legal)?;
    let first = generator.next_word();
    let second = generator.next_word();
    Ok(pick(picked_from(siege, first, wanted.items(), legal), second))
}

/// The moves that are not on the other list.
fn stale_of(alloc: Global, before: &[Move], now: &[Move]) -> Result<MoveList, AllocError>
    ensures { IfOk result (λ l. l ≡ filter (λ m. not (has_move now.now m)) before.now) }
{
    let mut stale = MoveList::new(alloc);
    for m in before {
        if !has_move(now, m.again()) {
            stale.push(m.again())?;
        }
    }
    Ok(stale)
}

/// The legal moves of the position two plies before. Their destinations are near.
fn moves_before<G: Game + Drop>(alloc: Global, game: &G) -> Result<MoveList, AllocError>
    ensures listed { let now = G.history game.now in IfOk result (λ l. l ≡ moves
        (replay (opening now.game_type) (take (length now.made - 2) now.made))) }
    ensures near { IfOk result (λ l. (m : AnyMove) → IsOn l m → IsMoveWithin m) }
{
    let mut before = first_plies(alloc, game, game.plies().saturating_sub(2), 0)?;
    before.lemma_sound();
    legal_moves(alloc, &mut before)
}

/// Draws with one word one of the moves that were legal two plies before and are not now, if there
/// is one.
pub(crate) fn draw_tried<G: Game + Drop>(
    alloc: Global,
    game: &G,
    legal: &[Move],
    generator: &mut SplitMix64,
) -> Result<Option<Move>, AllocError>
    requires { legal.now ≡ moves (position (G.history game.now)) }
    ensures drawn { let now = G.history game.now in IfOk result (λ m. m
        ≡ tried_of generator.old
        (replay (opening now.game_type) (take (length now.made - 2) now.made))
        (position now)) }
    ensures near { IfOk result (λ m. IfSome m (λ m. IsMoveWithin m)) }
    ensures state { OnOk result (generator.new ≡ next_state generator.old) }
{
    let before = moves_before(alloc, game)?;
    let stale = stale_of(alloc, before.items(), legal)?;
    let word = generator.next_word();
    Ok(pick(stale.items(), word))
}

/// Draws how many plies are taken back, for a game with this number of plies.
pub(crate) fn draw_undone(generator: &mut SplitMix64, plies: u32) -> u32
    requires { 1 ≤ plies }
    ensures drawn { result ≡ undone_of generator.old plies }
    ensures least { 1 ≤ result }
    ensures most { result ≤ plies }
    ensures state { generator.new ≡ next_state generator.old }
{
    let word = generator.next_word();
    (word % u64::from(plies)) as u32 + 1
}
