//! The answers about the game that a line is.

ghost use Rattle.std.specs.Prelude.{◌≡◌, ◌≤◌, false, length, map, IfOk, IfErr};
ghost use Rattle.hive_model.specs.Histories.{position};
ghost use Rattle.hive_model.specs.Denotes.{text as text_of};
ghost use Rattle.hive_model.specs.Games.{IsGame};
ghost use Rattle.hive_model.specs.Legal as rules;
ghost use Rattle.hive_model.specs.Legal.{moves};
ghost use Rattle.hive_model.specs.Lists.{IsOn};
ghost use Rattle.hive_model.specs.Minimax.{best};
ghost use Rattle.hive_model.specs.Strings.{string_under};
ghost use Rattle.io_edge.specs.Lines.{greatest_line};
ghost use Rattle.move_text.specs.Moves.{move_of};
ghost use Rattle.uhp_session.specs.Answers.{joined, text_of_best};
ghost use Rattle.hive_library.specs.Rooms.{IsFound};
ghost use Rattle.hive_library.specs.Games.{
  IsAt,
  after_answer,
  best_answer,
  game_in,
  move_in,
  moves_answer,
  written_answer,
};

use crate::faults::Fault;
use command_runs::is_over;
use deepening::Searcher;
use game_text::{GameFault, Parsed, played, read_game, write_game_under};
use hive_model::{Game, Move, MoveStack, ReplyText};
use move_text::{MoveFault, read_move, write_move};
use std::alloc::Global;
use uhp_session::joined_moves;

/// The most bytes of a line.
const GREATEST_LINE: usize = 65536;

/// How many positions the table of a search keeps.
const TABLE_ENTRIES: u32 = 65_536;

/// The game that the line is.
#[tactic(auto, unfolding(crate::specs::Games::game_in), using(crate::proofs::GameLemmas::no_game))]
fn parsed_in<G: Game + Drop>(alloc: Global, line: &[u8]) -> Result<Parsed, Fault>
    ensures found { IsFound result (game_in line.now) }
    ensures legal { IfOk result (λ g. IsGame g.game_type g.moves) }
    ensures few { IfOk result (λ g. length g.moves ≤ 5000) }
{
    if line.len() > GREATEST_LINE {
        return Err(Fault::NoGame);
    }
    match read_game::<G>(alloc, line) {
        Ok(game) => Ok(game),
        Err(GameFault::Memory) => Err(Fault::Memory),
        Err(_) => Err(Fault::NoGame),
    }
}

/// The game under way, with room for `room` more plies.
fn resumed<G: Game + Drop>(alloc: Global, game: &Parsed, room: u32) -> Result<G, Fault>
    requires legal { IsGame game.now.game_type game.now.moves }
    requires few { length game.now.moves ≤ 5000 }
    requires room { room ≤ 64 }
    ensures at { IfOk result (λ g. IsAt (G.history g) game.now) }
    ensures spare { IfOk result (λ g. room ≤ (G.history g).spare) }
    ensures memory { IfErr result (λ fault. fault ≡ Fault.Memory) }
{
    match played::<G>(alloc, game.game_type, game.moves.items(), room) {
        Ok(under_way) => Ok(under_way),
        Err(_) => Err(Fault::Memory),
    }
}

/// The written form of a game under way.
fn string_of<G: Game + Drop>(alloc: Global, game: &G) -> Result<ReplyText, Fault>
    ensures text { IfOk result (λ t. t ≡ string_under false (G.history game.now).game_type
        (G.history game.now).made) }
    ensures memory { IfErr result (λ fault. fault ≡ Fault.Memory) }
{
    let mut text = ReplyText::new(alloc);
    match write_game_under(alloc, game, false, &mut text) {
        Ok(()) => Ok(text),
        Err(_) => Err(Fault::Memory),
    }
}

/// The written form of the game that the line is.
pub(crate) fn written<G: Game + Drop>(alloc: Global, line: &[u8]) -> Result<ReplyText, Fault>
    ensures { IsFound result (written_answer line.now) }
{
    let parsed = parsed_in::<G>(alloc, line)?;
    let game = resumed::<G>(alloc, &parsed, 0)?;
    string_of(alloc, &game)
}

/// The legal moves of a game under way, written and joined by semicolons.
fn list_of<G: Game + Drop>(alloc: Global, game: &mut G) -> Result<ReplyText, Fault>
    ensures text { IfOk result (λ t. t ≡ joined
        (map (text_of (position (G.history game.old)).board)
        (moves (position (G.history game.old))))) }
    ensures memory { IfErr result (λ fault. fault ≡ Fault.Memory) }
{
    let Ok(mut stack) = MoveStack::new(alloc, 1) else {
        return Err(Fault::Memory);
    };
    game.list(&mut stack);
    game.lemma_sound();
    match joined_moves(alloc, game, &stack) {
        Ok(text) => Ok(text),
        Err(_) => Err(Fault::Memory),
    }
}

/// The legal moves of the game that the line is.
pub(crate) fn legal_moves<G: Game + Drop>(alloc: Global, line: &[u8]) -> Result<ReplyText, Fault>
    ensures { IsFound result (moves_answer line.now) }
{
    let parsed = parsed_in::<G>(alloc, line)?;
    let mut game = resumed::<G>(alloc, &parsed, 0)?;
    if is_over(&game) {
        return Err(Fault::GameOver);
    }
    list_of(alloc, &mut game)
}

/// A legal move of a game under way, written.
fn text_in<G: Game + Drop>(alloc: Global, game: &G, m: Move) -> Result<ReplyText, Fault>
    requires legal { IsOn (moves (position (G.history game.now))) m }
    ensures text { IfOk result (λ t. t ≡ text_of (position (G.history game.now)).board m) }
    ensures memory { IfErr result (λ fault. fault ≡ Fault.Memory) }
{
    game.lemma_sound();
    let written = write_move(game, m);
    let mut text = ReplyText::new(alloc);
    match text.push_all(written.as_bytes()) {
        Ok(()) => Ok(text),
        Err(_) => Err(Fault::Memory),
    }
}

/// The best move of a game under way, `depth` plies deep, written.
fn best_of<G: Game + Drop>(alloc: Global, game: &mut G, depth: u32) -> Result<ReplyText, Fault>
    requires goes_on { rules.is_over (position (G.history game.old)) ≡ false }
    requires some { 1 ≤ depth }
    requires deep { depth ≤ 64 }
    requires spare { depth ≤ (G.history game.old).spare }
    ensures text { IfOk result (λ t. t ≡ text_of_best (position (G.history game.old)).board
        (best (position (G.history game.old)) depth)) }
    ensures memory { IfErr result (λ fault. fault ≡ Fault.Memory) }
{
    let Ok(mut searcher) = Searcher::prepare(alloc, TABLE_ENTRIES, depth) else {
        return Err(Fault::Memory);
    };
    let found = searcher.best_at(game, depth);
    text_in(alloc, game, found.best)
}

/// The best move of the game that the line is, `depth` plies deep.
pub(crate) fn best_move<G: Game + Drop>(
    alloc: Global,
    line: &[u8],
    depth: u32,
) -> Result<ReplyText, Fault>
    ensures { IsFound result (best_answer line.now depth) }
{
    if depth < 1 || 64 < depth {
        return Err(Fault::OutOfRange);
    }
    let parsed = parsed_in::<G>(alloc, line)?;
    let mut game = resumed::<G>(alloc, &parsed, depth)?;
    if is_over(&game) {
        return Err(Fault::GameOver);
    }
    best_of(alloc, &mut game, depth)
}

/// The move that the words denote on the board of a game under way, or why they denote none.
fn read_in<G: Game>(game: &G, words: &[u8]) -> Result<Move, MoveFault>
    requires { length words.now ≤ greatest_line }
    ensures { result ≡ move_of (G.history game.now).game_type
        (position (G.history game.now)).board words.now }
{
    game.lemma_sound();
    read_move(game.game_type(), game, words)
}

/// The legal move of a game under way that the words denote.
#[tactic(auto, unfolding(crate::specs::Games::move_in))]
fn move_in<G: Game + Drop>(game: &mut G, words: &[u8]) -> Result<Move, Fault>
    ensures found { result ≡ move_in (G.history game.old).game_type
        (position (G.history game.old)) words.now }
    ensures legal { IfOk result (λ m. IsOn (moves (position (G.history game.old))) m) }
    ensures same { G.history game.new ≡ G.history game.old }
{
    if words.len() > GREATEST_LINE {
        return Err(Fault::Unreadable);
    }
    let m = match read_in(game, words) {
        Ok(m) => m,
        Err(fault) => return Err(Fault::of_move(fault)),
    };
    if game.is_legal(m.again()) {
        Ok(m)
    } else {
        Err(Fault::NotLegal)
    }
}

/// The written form of the game that the line is, after the move that the words denote.
pub(crate) fn after<G: Game + Drop>(
    alloc: Global,
    line: &[u8],
    words: &[u8],
) -> Result<ReplyText, Fault>
    ensures { IsFound result (after_answer line.now words.now) }
{
    let parsed = parsed_in::<G>(alloc, line)?;
    let mut game = resumed::<G>(alloc, &parsed, 1)?;
    if is_over(&game) {
        return Err(Fault::GameOver);
    }
    if game.plies() >= 5000 {
        return Err(Fault::FullGame);
    }
    let m = move_in(&mut game, words)?;
    game.play(m);
    string_of(alloc, &game)
}
