//! A game that was begun, with the written texts of its moves and the keys of its positions.

ghost use Rattle.std.specs.Prelude.{
  ◌≡◌,
  ◌<◌,
  ◌≤◌,
  ◌-◌,
  false,
  [],
  ◌∷◌,
  ◌++◌,
  length,
  take,
  map,
  codes,
  Some,
  IfOk,
  IfSome,
  OnOk,
  OnErr,
  IsTrue,
};
ghost use Rattle.hive_model.specs.Lists.{IsOn};
ghost use Rattle.hive_model.specs.Legal.{moves, is_over};
ghost use Rattle.hive_model.specs.Games.{IsGame};
ghost use Rattle.hive_model.specs.Histories.{is_listed};
ghost use Rattle.hive_model.specs.Minimax.{best};
ghost use Rattle.hive_model.specs.Repetition.{outcome_under};
ghost use Rattle.hive_model.specs.Denotes.{text};
ghost use Rattle.hive_model.specs.Stack.{with_level};
ghost use Rattle.command_runs.specs.World.{times};
ghost use Rattle.io_edge.specs.Lines.{greatest_line};
ghost use Rattle.move_text.specs.Moves.{move_of};
ghost use Rattle.uhp_session.specs.Answers.{
  CurrentGame,
  reached,
  is_ended,
  written,
  with_moves,
  text_of,
  ended,
  joined,
  best_text,
};
ghost use Rattle.uhp_session.specs.Searches.{HasTold};
ghost use Rattle.uhp_session.specs.Teams.{AreSearchersOf, IsTeam};

use crate::lines::Reply;
use crate::lists::joined_moves;
use crate::says::{close, say};
use crate::workers::{Team, best_by};
use deepening::Searcher;
use game_text::{MoveTexts, Seen, played, seen_under, texts_of};
use hive_model::{Game, GameType, Move, MoveList, MoveStack, ReplyText, State, TimedList};
use io_edge::Clock;
use move_text::{MoveFault, read_move, write_move};
use root_share::Gate;
use std::alloc::{AllocError, Global};
use std::marker::Model;
use std::thread::Threads;

/// A game that was begun. Its view is its type, its moves and its rule. It keeps the written texts
/// of the moves and, if the rule of third repetition is on, the keys of the positions.
#[derive(Drop)]
pub(crate) struct Current<G: Game> {
    game: G,
    written: MoveTexts,
    seen: Seen,
}

impl<G: Game> Model for Current<G> {
    ghost use Rattle.std.specs.Prelude.{◌≡◌, ◌≤◌, length};
    ghost use Rattle.hive_model.specs.Positions.{opening};
    ghost use Rattle.hive_model.specs.Strings.{texts};
    ghost use Rattle.game_text.specs.Seen.{Sees};
    ghost use Rattle.uhp_session.specs.Answers.{CurrentGame};

    ghost Value = { CurrentGame };

    ghost view = { λ c. record {
      game_type = (G.history c.game).game_type;
      made = (G.history c.game).made;
      repetition = c.seen.repetition;
    } };

    ghost invariant = { λ c. (c.written ≡ texts (opening (G.history c.game).game_type)
        (G.history c.game).made) × (length (G.history c.game).made ≤ 5000)
        × Sees c.seen (G.history c.game) };
}

/// This number of first moves of the game.
fn first_moves<G: Game>(alloc: Global, game: &G, count: u32) -> Result<MoveList, AllocError>
    requires { count ≤ length (G.history game.now).made }
    ensures { IfOk result (λ ms. ms ≡ take count (G.history game.now).made) }
{
    let mut moves = MoveList::new(alloc);
    for i in 0..count {
        moves.push(game.move_at(i))?;
    }
    Ok(moves)
}

impl<G: Game + Drop> Current<G> {
    /// The game of this type and these moves, with the rule of third repetition on or off.
    pub(crate) fn begin(
        alloc: Global,
        game_type: GameType,
        moves: &[Move],
        repetition: bool,
    ) -> Result<Current<G>, AllocError>
        requires game { IsGame game_type moves.now }
        requires few { length moves.now ≤ 5000 }
        ensures { IfOk result (λ c. c ≡ record
            { game_type = game_type; made = moves.now; repetition = repetition }) }
    {
        let game: G = played(alloc, game_type, moves, 0)?;
        let written = texts_of(alloc, &game)?;
        let seen = seen_under(alloc, &game, repetition)?;
        Ok(Current {
            game,
            written,
            seen,
        })
    }

    /// How the game goes on or ended under its rule.
    fn outcome(&self) -> State
        ensures { result ≡ outcome_under self.now.repetition self.now.game_type self.now.made }
    {
        self.seen.outcome(&self.game)
    }

    /// Whether the game is over: won or drawn. If it is not, its position is not over either.
    #[tactic(auto, using(crate::proofs::StandLaws::goes_on))]
    pub(crate) fn is_over(&self) -> bool
        ensures value { result ≡ is_ended self.now }
        ensures goes_on { result ≡ false → is_over (reached self.now) ≡ false }
    {
        self.outcome().is_over()
    }

    /// The number of plies played.
    pub(crate) fn plies(&self) -> u32
        ensures { result ≡ length self.now.made }
    {
        self.game.plies()
    }

    /// The move that the words denote on the board, or why they denote none.
    pub(crate) fn read(&self, words: &[u8]) -> Result<Move, MoveFault>
        requires { length words.now ≤ greatest_line }
        ensures { result ≡ move_of self.now.game_type (reached self.now).board words.now }
    {
        self.game.lemma_sound();
        read_move(self.game.game_type(), &self.game, words)
    }

    /// Whether the move is legal.
    pub(crate) fn is_legal(&mut self, m: Move) -> bool
        ensures legal { IsTrue result → IsOn (moves (reached self.old)) m }
        ensures test { result ≡ is_listed (reached self.old) m }
        ensures same { self.new ≡ self.old }
    {
        self.game.is_legal(m)
    }

    /// Plays a legal move. If memory runs out, the game is as before.
    pub(crate) fn play(&mut self, m: Move) -> Result<(), AllocError>
        requires legal { IsOn (moves (reached self.old)) m }
        requires few { length self.old.made < 5000 }
        ensures played { OnOk result (self.new ≡ with_moves self.old (self.old.made ++ m ∷ [])) }
        ensures refused { OnErr result (self.new ≡ self.old) }
    {
        self.game.reserve(1)?;
        self.game.lemma_sound();
        self.written.push(&self.game, m.again())?;
        self.game.play(m);
        if let Err(error) = self.seen.note(&self.game) {
            self.game.undo();
            self.written.pop();
            return Err(error);
        }
        Ok(())
    }

    /// Takes the last move back.
    pub(crate) fn back(&mut self)
        requires { 1 ≤ length self.old.made }
        ensures { self.new ≡ with_moves self.old (take (length self.old.made - 1) self.old.made) }
    {
        self.game.undo();
        self.written.pop();
        self.seen.forget();
    }

    /// The game without this number of last plies.
    pub(crate) fn earlier(&self, alloc: Global, plies: u32) -> Result<Current<G>, AllocError>
        requires { plies ≤ length self.now.made }
        ensures { IfOk result (λ c. c ≡ with_moves self.now
            (take (length self.now.made - plies) self.now.made)) }
    {
        self.game.lemma_sound();
        let left = self.game.plies() - plies;
        let moves = first_moves(alloc, &self.game, left)?;
        let repetition = self.seen.repetition;
        Current::begin(alloc, self.game.game_type(), moves.items(), repetition)
    }

    /// Appends the game string. If memory runs out, nothing was appended.
    pub(crate) fn write(&self, out: &mut ReplyText) -> Result<(), AllocError>
        ensures written { OnOk result (out.new ≡ out.old ++ written self.now) }
        ensures refused { OnErr result (out.new ≡ out.old) }
    {
        let state = self.outcome();
        self.written.write(
            self.game.game_type(),
            state,
            self.game.side(),
            self.game.turn(),
            out,
        )
    }

    /// The game string, and `ok`.
    pub(crate) fn tell(&self, alloc: Global) -> Result<Reply, AllocError>
        ensures { IfOk result (λ r. text_of r ≡ Some (ended
            (written self.now ∷ (codes "ok" ∷ [])))) }
    {
        let mut text = ReplyText::new(alloc);
        self.write(&mut text)?;
        close(text)
    }

    /// Plays a legal move, and answers the game string after it. If memory runs out, the game is as
    /// before.
    #[tactic(auto, using(crate::proofs::KeptLaws::taken_back))]
    pub(crate) fn advance(&mut self, alloc: Global, m: Move) -> Result<Reply, AllocError>
        requires legal { IsOn (moves (reached self.old)) m }
        requires few { length self.old.made < 5000 }
        ensures reply { IfOk result (λ r. text_of r
            ≡ Some (ended (written (with_moves self.old (self.old.made ++ m ∷ []))
            ∷ (codes "ok" ∷ [])))) }
        ensures played { OnOk result (self.new ≡ with_moves self.old (self.old.made ++ m ∷ [])) }
        ensures refused { OnErr result (self.new ≡ self.old) }
    {
        self.play(m)?;
        match self.tell(alloc) {
            Ok(reply) => Ok(reply),
            Err(error) => {
                self.back();
                Err(error)
            }
        }
    }

    /// The legal moves, and `ok`. The game does not change.
    pub(crate) fn tell_moves(&mut self, alloc: Global) -> Result<Reply, AllocError>
        ensures reply { IfOk result (λ r. text_of r
            ≡ Some (ended (joined (map (text (reached self.old).board) (moves (reached self.old)))
            ∷ (codes "ok" ∷ [])))) }
        ensures same { self.new ≡ self.old }
    {
        let mut stack = MoveStack::new(alloc, 1)?;
        self.list(&mut stack);
        self.game.lemma_sound();
        close(joined_moves(alloc, &self.game, &stack)?)
    }

    /// The first legal move of greatest value, searched to this depth in plies. The game and the
    /// searcher do not change, not even if memory runs out.
    fn best(&mut self, searcher: &mut Searcher, depth: u32) -> Result<Move, AllocError>
        requires goes_on { is_over (reached self.old) ≡ false }
        requires prepared { 64 ≤ searcher.old }
        requires deep { 1 ≤ depth }
        requires bound { depth ≤ 64 }
        ensures best { IfOk result (λ m. best (reached self.old) depth ≡ Some m) }
        ensures same { self.new ≡ self.old }
        ensures searcher { searcher.new ≡ searcher.old }
    {
        self.game.reserve(depth)?;
        let found = searcher.best_at(&mut self.game, depth);
        Ok(found.best)
    }

    /// The best move, and `ok`. The game and the searcher do not change, not even if memory runs
    /// out.
    pub(crate) fn tell_best(
        &mut self,
        alloc: Global,
        searcher: &mut Searcher,
        depth: u32,
    ) -> Result<Reply, AllocError>
        requires goes_on { is_over (reached self.old) ≡ false }
        requires prepared { 64 ≤ searcher.old }
        requires deep { 1 ≤ depth }
        requires bound { depth ≤ 64 }
        ensures reply { IfOk result (λ r. text_of r
            ≡ Some (ended (best_text self.old depth ∷ (codes "ok" ∷ [])))) }
        ensures same { self.new ≡ self.old }
        ensures searcher { searcher.new ≡ searcher.old }
    {
        let found = self.best(searcher, depth)?;
        self.tell_move(alloc, found)
    }

    /// The best move of the last depth that a search completes within the budget, in milliseconds,
    /// and `ok`. An entry that describes the search is appended to the list. The game and the
    /// searcher do not change. If memory runs out, the list does not change either.
    pub(crate) fn tell_best_in<C: Clock>(
        &mut self,
        alloc: Global,
        searcher: &mut Searcher,
        budget: u64,
        clock: &mut C,
        timed: &mut TimedList,
    ) -> Result<Reply, AllocError>
        requires goes_on { is_over (reached self.old) ≡ false }
        requires prepared { 64 ≤ searcher.old }
        requires budget { budget ≤ 359999000 }
        ensures told { IfOk result (λ r. HasTold (record {
          budget = budget;
          position = reached self.old;
        }) self.old (text_of r)
            (times (C.last clock.old) (C.readings clock.old) timed.old)
            (times (C.last clock.new) (C.readings clock.new) timed.new)) }
        ensures same { self.new ≡ self.old }
        ensures searcher { searcher.new ≡ searcher.old }
        ensures memory { OnErr result (timed.new ≡ timed.old) }
        ensures later { C.last clock.old ≤ C.last clock.new }
    {
        self.game.reserve(64)?;
        let (found, entry) = searcher.best_in(&mut self.game, budget, clock);
        let reply = self.tell_move(alloc, found.best)?;
        timed.push(entry)?;
        Ok(reply)
    }

    /// A legal move, written, and `ok`.
    fn tell_move(&self, alloc: Global, m: Move) -> Result<Reply, AllocError>
        requires { IsOn (moves (reached self.now)) m }
        ensures { IfOk result (λ r. text_of r
            ≡ Some (ended (text (reached self.now).board m ∷ (codes "ok" ∷ [])))) }
    {
        self.game.lemma_sound();
        let written = write_move(&self.game, m);
        say(alloc, written.as_bytes())
    }

    /// Begins a level and fills it with the legal moves.
    fn list(&mut self, out: &mut MoveStack)
        requires { 1 ≤ out.old.free }
        ensures listed { out.new ≡ with_level out.old (moves (reached self.old)) }
        ensures same { self.new ≡ self.old }
    {
        self.game.list(out)
    }
}

impl<G: Game + Send + Drop> Current<G> {
    /// The best move, found by a team, and `ok`. The team uses its kept searchers or new ones. They
    /// are kept afterwards; if memory runs out, perhaps none is.
    pub(crate) fn tell_best_by<R: Threads + Sync, T: Gate + Sync>(
        &self,
        rt: &R,
        alloc: Global,
        team: Team,
        kept: &mut Option<Vec<Searcher>>,
        depth: u32,
        gate: &T,
    ) -> Result<Reply, AllocError>
        requires goes_on { is_over (reached self.now) ≡ false }
        requires team { IsTeam team.workers team.entries }
        requires kept { IfSome kept.old (λ ns. AreSearchersOf team.workers ns.items) }
        requires some { 1 ≤ depth }
        requires deep { depth ≤ 64 }
        ensures reply { IfOk result (λ r. text_of r
            ≡ Some (ended (best_text self.now depth ∷ (codes "ok" ∷ [])))) }
        ensures kept { IfSome kept.new (λ ns. AreSearchersOf team.workers ns.items) }
    {
        self.game.lemma_sound();
        let moves = first_moves(alloc, &self.game, self.game.plies())?;
        let game_type = self.game.game_type();
        let made = moves.items();
        let found = best_by::<R, G, T>(rt, alloc, game_type, made, team, kept, depth, gate)?;
        self.tell_move(alloc, found)
    }
}
