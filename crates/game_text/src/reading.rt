//! Reading a line as a game.

ghost use Rattle.std.specs.Prelude.{
  ◌≡◌,
  ◌<◌,
  ◌≤◌,
  ◌+◌,
  [],
  ◌⊎◌,
  List,
  length,
  None,
  Some,
  Ok,
  Err,
  IfOk,
  IfErr,
};
ghost use Rattle.hive_model.specs.Boards.{IsBoard};
ghost use Rattle.hive_model.specs.Positions.{opening};
ghost use Rattle.hive_model.specs.Histories.{position};
ghost use Rattle.hive_model.specs.Repetition.{keys};
ghost use Rattle.game_text.specs.Seen.{Sees};
ghost use Rattle.hive_model.specs.Strings.{parts, IsGameLine, IsGameLineUnder};
ghost use Rattle.hive_model.specs.declared.pieces.GameType.{GameType as AnyType};
ghost use Rattle.hive_model.specs.declared.places.Move.{Move as AnyMove};
ghost use Rattle.io_edge.specs.Lines.{greatest_line};
ghost use Rattle.game_text.specs.Refusals.{IsRefused, IsRefusedUnder};
ghost use Rattle.game_text.specs.Reading.{
  moves_from,
  confirmed,
  at_moves,
  after_state,
  after_type,
  game_of,
  game_under,
  Fails,
  Agrees,
  Plays,
  IsMoveFault,
  first_empty,
};

use crate::faults::GameFault;
use crate::parsed::Parsed;
use crate::parts::{count_parts, cut, empty_part};
use crate::seen::Seen;
use crate::turns::{DeclaredTurn, read_turn};
use hive_model::{Game, GameType, Move, MoveList, State};
use move_text::{read_move, read_state, read_type};
use std::alloc::Global;

/// The move that the part denotes, if it may follow: it is legal, and the game is not drawn by
/// repetition.
fn one_move<G: Game>(game: &mut G, seen: &Seen, number: u32, part: &[u8]) -> Result<Move, GameFault>
    requires length { length part.now ≤ greatest_line }
    requires sound { IsBoard (position (G.history game.old)).board }
    requires seen { Sees seen.now (G.history game.old) }
    ensures ok { IfOk result (λ m. Plays seen.now.repetition
        (keys (G.history game.old).game_type (G.history game.old).made)
        (position (G.history game.old)) part.now m) }
    ensures err { IfErr result (λ fault. IsMoveFault seen.now.repetition
        (keys (G.history game.old).game_type (G.history game.old).made)
        (position (G.history game.old)) part.now number fault) }
    ensures same { G.history game.new ≡ G.history game.old }
{
    match read_move(game.game_type(), game, part) {
        Ok(m) => {
            if seen.is_third() {
                return Err(GameFault::IllegalMove { number });
            }
            if game.is_legal(m.again()) {
                Ok(m)
            } else {
                Err(GameFault::IllegalMove { number })
            }
        }
        Err(fault) => Err(GameFault::BadMove { number, fault }),
    }
}

/// Plays the moves that the parts of the text denote, each on the board before it, and lists them.
fn play_moves<G: Game>(
    alloc: Global,
    game: &mut G,
    seen: &mut Seen,
    text: &[u8],
) -> Result<MoveList, GameFault>
    requires length { length text.now ≤ greatest_line }
    requires fresh { (G.history game.old).made ≡ [] }
    requires few { length (parts text.now) ≤ 5000 }
    requires room { length (parts text.now) ≤ (G.history game.old).spare }
    requires seen { Sees seen.old (G.history game.old) }
    ensures moves { Agrees result (moves_from seen.old.repetition (G.history game.old).game_type
        (parts text.now)) }
    ensures made { IfOk result (λ ms. ms ≡ (G.history game.new).made) }
    ensures kind { (G.history game.new).game_type ≡ (G.history game.old).game_type }
    ensures seen { IfOk result (λ _. Sees seen.new (G.history game.new)) }
    ensures rule { seen.new.repetition ≡ seen.old.repetition }
{
    let mut moves = MoveList::new(alloc);
    let mut rest = text;
    let mut number: u32 = 1;
    'parts: loop {
        let (part, more) = cut(rest);
        let m = match one_move(game, seen, number, part) {
            Ok(m) => m,
            Err(fault) => return Err(fault),
        };
        game.play(m.again());
        if moves.push(m).is_err() {
            return Err(GameFault::Memory);
        }
        if seen.note(game).is_err() {
            return Err(GameFault::Memory);
        }
        match more {
            None => return Ok(moves),
            Some(next) => rest = next,
        }
        number += 1;
    }
}

/// The type, the state and the turn that a line declares.
#[derive(Clone, Copy)]
pub struct Declared {
    pub game_type: GameType,
    pub state: State,
    pub turn: DeclaredTurn,
}

/// The game, if its outcome and turn are the declared ones.
fn confirm<G: Game>(
    game: &G,
    seen: &Seen,
    declared: Declared,
    moves: MoveList,
) -> Result<Parsed, GameFault>
    requires kind { (G.history game.now).game_type ≡ declared.game_type }
    requires made { (G.history game.now).made ≡ moves }
    requires seen { Sees seen.now (G.history game.now) }
    ensures { result ≡ confirmed seen.now.repetition declared.game_type declared.state declared.turn
        (Ok moves) }
{
    if seen.outcome(game) != declared.state {
        return Err(GameFault::OtherState);
    }
    if game.side() != declared.turn.side {
        return Err(GameFault::OtherTurn);
    }
    if game.turn() as u64 != declared.turn.number {
        return Err(GameFault::OtherTurn);
    }
    Ok(Parsed {
        game_type: declared.game_type,
        moves,
    })
}

/// Reads a line without moves.
fn confirm_opening<G: Game + Drop>(
    alloc: Global,
    repetition: bool,
    declared: Declared,
) -> Result<Parsed, GameFault>
    ensures { Agrees result (at_moves repetition declared.game_type declared.state declared.turn []
        None) }
{
    let Ok(game) = G::opening(alloc, declared.game_type) else {
        return Err(GameFault::Memory);
    };
    let Ok(seen) = Seen::of(alloc, repetition, &game) else {
        return Err(GameFault::Memory);
    };
    confirm(&game, &seen, declared, MoveList::new(alloc))
}

/// The game before its first ply, with room for this many plies.
fn opening_for<G: Game + Drop>(
    alloc: Global,
    game_type: GameType,
    plies: u32,
) -> Result<G, GameFault>
    requires { plies ≤ 5000 }
    ensures kind { IfOk result (λ g. (G.history g).game_type ≡ game_type) }
    ensures fresh { IfOk result (λ g. (G.history g).made ≡ []) }
    ensures room { IfOk result (λ g. plies ≤ (G.history g).spare) }
    ensures err { IfErr result (λ fault. fault ≡ GameFault.Memory) }
{
    let Ok(mut game) = G::opening(alloc, game_type) else {
        return Err(GameFault::Memory);
    };
    if game.reserve(plies).is_err() {
        return Err(GameFault::Memory);
    }
    Ok(game)
}

/// Plays the moves that the parts of the text denote. Returns the game, if its outcome and turn are
/// the declared ones.
fn play_declared<G: Game>(
    alloc: Global,
    declared: Declared,
    game: &mut G,
    seen: &mut Seen,
    text: &[u8],
) -> Result<Parsed, GameFault>
    requires length { length text.now ≤ greatest_line }
    requires kind { (G.history game.old).game_type ≡ declared.game_type }
    requires fresh { (G.history game.old).made ≡ [] }
    requires few { length (parts text.now) ≤ 5000 }
    requires room { length (parts text.now) ≤ (G.history game.old).spare }
    requires seen { Sees seen.old (G.history game.old) }
    ensures { Agrees result (confirmed seen.old.repetition declared.game_type declared.state
        declared.turn (moves_from seen.old.repetition declared.game_type (parts text.now))) }
{
    match play_moves(alloc, game, seen, text) {
        Ok(moves) => confirm(game, seen, declared, moves),
        Err(fault) => Err(fault),
    }
}

/// Reads a line whose parts from the fourth on are those of the text. None of them is empty, and
/// there are no more than the game has room for.
fn read_moves_on<G: Game>(
    alloc: Global,
    repetition: bool,
    declared: Declared,
    game: &mut G,
    text: &[u8],
) -> Result<Parsed, GameFault>
    requires length { length text.now ≤ greatest_line }
    requires kind { (G.history game.old).game_type ≡ declared.game_type }
    requires fresh { (G.history game.old).made ≡ [] }
    requires few { length (parts text.now) ≤ 5000 }
    requires room { length (parts text.now) ≤ (G.history game.old).spare }
    ensures { Agrees result (confirmed repetition declared.game_type declared.state declared.turn
        (moves_from repetition declared.game_type (parts text.now))) }
{
    let Ok(mut seen) = Seen::of(alloc, repetition, game) else {
        return Err(GameFault::Memory);
    };
    play_declared(alloc, declared, game, &mut seen, text)
}

/// Reads a line whose parts from the fourth on are those of the text.
fn read_moves<G: Game + Drop>(
    alloc: Global,
    repetition: bool,
    declared: Declared,
    text: &[u8],
) -> Result<Parsed, GameFault>
    requires { length text.now ≤ greatest_line }
    ensures { Agrees result (at_moves repetition declared.game_type declared.state declared.turn
        (parts text.now) (first_empty (parts text.now) 4)) }
{
    if let Some(part) = empty_part(text) {
        return Err(GameFault::Malformed { part });
    }
    let count = count_parts(text);
    if 5000 < count {
        return Err(GameFault::TooLong);
    }
    match opening_for::<G>(alloc, declared.game_type, count) {
        Ok(mut game) => read_moves_on(alloc, repetition, declared, &mut game, text),
        Err(fault) => Err(fault),
    }
}

/// Reads a line whose parts from the third on are those of the text.
fn read_turn_on<G: Game + Drop>(
    alloc: Global,
    repetition: bool,
    game_type: GameType,
    state: State,
    text: &[u8],
) -> Result<Parsed, GameFault>
    requires { length text.now ≤ greatest_line }
    ensures { Agrees result (after_state repetition game_type state (parts text.now)) }
{
    let (part, more) = cut(text);
    let Some(turn) = read_turn(part) else {
        return Err(GameFault::Malformed { part: 3 });
    };
    let declared = Declared {
        game_type,
        state,
        turn,
    };
    match more {
        None => confirm_opening::<G>(alloc, repetition, declared),
        Some(rest) => read_moves::<G>(alloc, repetition, declared, rest),
    }
}

/// Reads a line whose parts from the second on are those of the text.
fn read_state_on<G: Game + Drop>(
    alloc: Global,
    repetition: bool,
    game_type: GameType,
    text: &[u8],
) -> Result<Parsed, GameFault>
    requires { length text.now ≤ greatest_line }
    ensures { Agrees result (after_type repetition game_type (parts text.now)) }
{
    let (part, more) = cut(text);
    let Some(state) = read_state(part) else {
        return Err(GameFault::Malformed { part: 2 });
    };
    match more {
        None => Err(GameFault::Malformed { part: 3 }),
        Some(rest) => read_turn_on::<G>(alloc, repetition, game_type, state, rest),
    }
}

/// The game before its first ply.
fn opening_of(alloc: Global, game_type: GameType) -> Parsed
    ensures { result ≡ record { game_type = game_type; moves = [] } }
{
    Parsed {
        game_type,
        moves: MoveList::new(alloc),
    }
}

/// The game of the line, or its first fault.
fn game_of<G: Game + Drop>(
    alloc: Global,
    repetition: bool,
    text: &[u8],
) -> Result<Parsed, GameFault>
    requires { length text.now ≤ greatest_line }
    ensures { Agrees result (game_under repetition text.now) }
{
    let (part, more) = cut(text);
    let Some(game_type) = read_type(part) else {
        return Err(GameFault::Malformed { part: 1 });
    };
    match more {
        None => Ok(opening_of(alloc, game_type)),
        Some(rest) => read_state_on::<G>(alloc, repetition, game_type, rest),
    }
}

/// The game that the line is, as for `read_game`, with the rule of third repetition on or off. If
/// it is on, a position that occurs for the third time ends the game with a draw. No move may
/// follow, and the declared state must be `Draw`.
///
/// # Errors
///
/// Those of `read_game`. A move after the end of the game counts as illegal. The declared state
/// must be the outcome of the game.
pub fn read_game_under<G: Game + Drop>(
    alloc: Global,
    text: &[u8],
    repetition: bool,
) -> Result<Parsed, GameFault>
    requires { length text.now ≤ greatest_line }
    ensures game { IfOk result (λ g. IsGameLineUnder repetition text.now g.game_type g.moves) }
    ensures only { (t : AnyType) (ms : List AnyMove) → IsGameLineUnder repetition text.now t ms
        → IfErr result (λ fault. fault ≡ GameFault.Memory) }
    ensures refused { IfErr result (λ fault. (fault ≡ GameFault.Memory)
        ⊎ IsRefusedUnder repetition text.now fault) }
    ensures value { IfOk result (λ g. game_under repetition text.now ≡ Ok g) }
    ensures err { IfErr result (λ fault. Fails fault (game_under repetition text.now)) }
{
    game_of::<G>(alloc, repetition, text)
}

/// The game that the line is. Either the line is a game type alone, which is its opening, or it is
/// game type, state, turn and moves, joined by semicolons. Each move must be legal and denoted by
/// its part on the board before it. There are at most 5,000 moves, and the state and the turn must
/// be those after the moves. The line must have at most 65,536 bytes. The moves are played on a
/// game of type G that is made for it.
///
/// # Errors
///
/// The first of these faults, in this order. A part is absent or malformed. There are more than
/// 5,000 moves. A move cannot be read or is not legal; the first one is reported. The state or the
/// turn is not that of the game. Memory may also run out.
pub fn read_game<G: Game + Drop>(alloc: Global, text: &[u8]) -> Result<Parsed, GameFault>
    requires { length text.now ≤ greatest_line }
    ensures game { IfOk result (λ g. IsGameLine text.now g.game_type g.moves) }
    ensures only { (t : AnyType) (ms : List AnyMove) → IsGameLine text.now t ms
        → IfErr result (λ fault. fault ≡ GameFault.Memory) }
    ensures refused { IfErr result (λ fault. (fault ≡ GameFault.Memory)
        ⊎ IsRefused text.now fault) }
    ensures value { IfOk result (λ g. game_of text.now ≡ Ok g) }
    ensures err { IfErr result (λ fault. Fails fault (game_of text.now)) }
{
    read_game_under::<G>(alloc, text, false)
}
