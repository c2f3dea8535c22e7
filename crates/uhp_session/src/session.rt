//! A session over any game.

ghost use Rattle.std.specs.Prelude.{◌≡◌, ◌≤◌, length, Ok, IfOk, OnOk, OnErr};
ghost use Rattle.command_runs.specs.World.{times};
ghost use Rattle.game_text.specs.Reading.{game_under};
ghost use Rattle.uhp_words.specs.Grammar.{IsCommand, AreWithin};
ghost use Rattle.uhp_words.specs.Reading.{command_of};
ghost use Rattle.uhp_session.specs.Answers.{Gave, IsShort, after_of, begin, best_line};
ghost use Rattle.uhp_session.specs.Answers.{command_answer, fresh, go_on, in_game, line_in, list};
ghost use Rattle.uhp_session.specs.Answers.{next, or_base, play, reply, reply_of, text_of, undo};
ghost use Rattle.uhp_session.specs.Answers.{while_on, words_answer};
ghost use Rattle.uhp_session.specs.Searches.{Answered, IsUntimed, asks, command_search, search_in};
ghost use Rattle.io_edge.specs.Lines.{greatest_line};

mod settings;

use crate::current::Current;
use crate::lines::{LineIn, Reply, or_base};
use crate::options::tell_options;
use crate::refusals::{refuse_game, refuse_move};
use crate::says::say;
use crate::workers::{Team, taken};
use deepening::Searcher;
use game_text::read_game_under;
use hive_model::{Game, TimedList};
use io_edge::Clock;
use root_share::Gate;
use std::alloc::{AllocError, Global};
use std::marker::Model;
use std::thread::Threads;
use uhp_words::{Command, CommandFault, part, read_command};

/// A session. Its view is a game or none, with its type, moves and rule, and the values of the
/// options.
#[derive(Drop)]
pub struct Session<G: Game> {
    game: Option<Current<G>>,
    table: u32,
    workers: u32,
    repetition: bool,
    searcher: Option<Searcher>,
    team: Option<Vec<Searcher>>,
}

impl<G: Game> Model for Session<G> {
    ghost use Rattle.std.specs.Prelude.{◌≡◌, ◌≤◌, IfSome};
    ghost use Rattle.uhp_session.specs.Answers.{SessionState};
    ghost use Rattle.uhp_session.specs.Teams.{AreSearchersOf};

    ghost Value = { SessionState };

    ghost view = { λ s. record {
      game = s.game;
      table = s.table;
      workers = s.workers;
      repetition = s.repetition;
    } };

    ghost invariant = { λ s. (1 ≤ s.table) × (s.table ≤ 1048576) × (1 ≤ s.workers)
        × (s.workers ≤ 16) × IfSome s.searcher (λ n. n ≡ 64)
        × IfSome s.team (λ ns. AreSearchersOf s.workers ns.items) };
}

impl<G: Game + Send + Drop> Session<G> {
    /// A session with no game, and the options at their defaults.
    pub fn new() -> Session<G>
        ensures { result ≡ fresh }
    {
        Session {
            game: None,
            table: 65536,
            workers: 1,
            repetition: false,
            searcher: None,
            team: None,
        }
    }

    /// Answers a line. The reply has one or more lines, each ended by an LF, and the last is `ok`.
    /// `exit` has no reply.
    ///
    /// `info` names the engine. `newgame` begins the game of a game string, or the base game if
    /// there is no text. `play` and `pass` play a move, and `undo` takes moves back. Each of these
    /// is answered by the game string after it. `validmoves` lists the legal moves.
    ///
    /// `bestmove depth` names the first legal move of the greatest minimax value, searched to this
    /// depth in plies. `bestmove time` names it for the last depth that it completes within the
    /// time, at least 1. An entry that describes this search is appended to the list. The option
    /// Workers gives the number of threads that `bestmove depth` may use. Each calls the gate
    /// before each move of the root.
    ///
    /// `options` shows the options, gets one or sets one, and they outlive a new game. The value of
    /// Repetition at `newgame` is the rule of the game that it begins. If it is 1, a position that
    /// occurs for the third time ends that game with a draw. No other answer depends on the
    /// options.
    ///
    /// A line is refused if it is too long, is not a command or has wrong arguments. So is a
    /// command without a game, or with a game that is over or has 5,000 plies. So is a text that is
    /// not a game, and a move that is unreadable or not legal. So are more plies to take back than
    /// were played, an unknown option, and a value out of range. A refusal is a line that begins
    /// with `err ` or `invalidmove `, and changes nothing. If memory runs out, the session is as
    /// before.
    #[tactic(auto, unfolding(crate::specs::Answers::reply, crate::specs::Answers::next, crate::specs::Searches::asks))]
    pub fn command<R: Threads + Sync, C: Clock, T: Gate + Sync>(
        &mut self,
        rt: &R,
        alloc: Global,
        line: LineIn<'_>,
        clock: &mut C,
        timed: &mut TimedList,
        gate: &T,
    ) -> Result<Reply, AllocError>
        requires { IsShort (line_in line) }
        ensures { Answered (asks self.old (line_in line.entry))
            (reply self.old (line_in line.entry))
            (next self.old (line_in line.entry)) result self.old self.new
            (times (C.last clock.old) (C.readings clock.old) timed.old)
            (times (C.last clock.new) (C.readings clock.new) timed.new) }
    {
        match line {
            LineIn::Text(bytes) => self.answer(rt, alloc, bytes, clock, timed, gate),
            LineIn::TooLong => say(alloc, b"err 10 line too long"),
        }
    }

    /// Answers a line that is not too long.
    fn answer<R: Threads + Sync, C: Clock, T: Gate + Sync>(
        &mut self,
        rt: &R,
        alloc: Global,
        line: &[u8],
        clock: &mut C,
        timed: &mut TimedList,
        gate: &T,
    ) -> Result<Reply, AllocError>
        requires short { length line.now ≤ greatest_line }
        ensures { Answered (command_search self.old (command_of line.now))
            (λ depth. reply_of (words_answer self.old line.now depth (command_of line.now)))
            (after_of self.old (words_answer self.old line.now 1 (command_of line.now)))
            result self.old self.new
            (times (C.last clock.old) (C.readings clock.old) timed.old)
            (times (C.last clock.new) (C.readings clock.new) timed.new) }
    {
        match read_command(line) {
            Ok(command) => self.perform(rt, alloc, line, command, clock, timed, gate),
            Err(CommandFault::Unknown) => say(alloc, b"err 1 unknown command"),
            Err(CommandFault::Arguments) => say(alloc, b"err 2 wrong arguments"),
        }
    }

    /// Answers a command, which refers to parts of its line.
    fn perform<R: Threads + Sync, C: Clock, T: Gate + Sync>(
        &mut self,
        rt: &R,
        alloc: Global,
        line: &[u8],
        command: Command,
        clock: &mut C,
        timed: &mut TimedList,
        gate: &T,
    ) -> Result<Reply, AllocError>
        requires short { length line.now ≤ greatest_line }
        requires within { AreWithin line.now command }
        requires reads { IsCommand line.now command }
        ensures { Answered (command_search self.old (Ok command))
            (λ depth. reply_of (command_answer self.old line.now depth command))
            (after_of self.old (command_answer self.old line.now 1 command))
            result self.old self.new
            (times (C.last clock.old) (C.readings clock.old) timed.old)
            (times (C.last clock.new) (C.readings clock.new) timed.new) }
    {
        match command {
            Command::BestTime { budget } => self.best_in(alloc, budget, clock, timed),
            other => self.perform_at_once(rt, alloc, line, other, gate),
        }
    }

    /// Answers a command that asks for no timed search.
    #[tactic(auto, using(crate::proofs::ReplyLaws::get_keeps, crate::proofs::ReplyLaws::list_keeps, crate::proofs::ReplyLaws::best_keeps))]
    fn perform_at_once<R: Threads + Sync, T: Gate + Sync>(
        &mut self,
        rt: &R,
        alloc: Global,
        line: &[u8],
        command: Command,
        gate: &T,
    ) -> Result<Reply, AllocError>
        requires short { length line.now ≤ greatest_line }
        requires within { AreWithin line.now command }
        requires reads { IsCommand line.now command }
        requires untimed { IsUntimed command }
        ensures reply { IfOk result (λ r. text_of r
            ≡ reply_of (command_answer self.old line.now 0 command)) }
        ensures next { OnOk result (self.new ≡ after_of self.old
            (command_answer self.old line.now 1 command)) }
        ensures err { OnErr result (self.new ≡ self.old) }
    {
        match command {
            Command::Info => say(alloc, b"id HiveReferee 1.0\nMosquito;Ladybug;Pillbug"),
            Command::NewGame { text } => self.begin(alloc, part(line, text)),
            Command::Play { text } => self.play(alloc, part(line, text)),
            Command::Pass => self.play(alloc, b"pass"),
            Command::ValidMoves => self.list(alloc),
            Command::BestDepth { depth } => self.best(rt, alloc, depth, gate),
            Command::BestTime { .. } => unreachable!(),
            Command::Undo { plies } => self.undo(alloc, plies),
            Command::Options => tell_options(alloc, self.table, self.workers, self.repetition),
            Command::OptionGet { name } => self.tell_option(alloc, part(line, name)),
            Command::OptionSet { name, value } => self.set_option(
                alloc,
                part(line, name),
                part(line, value),
            ),
            Command::Exit => Ok(Reply::Exit),
        }
    }

    /// Makes this the current game, and answers its string.
    fn go_on(&mut self, alloc: Global, game: Current<G>) -> Result<Reply, AllocError>
        ensures { Gave (go_on self.old game) result self.old self.new }
    {
        let reply = game.tell(alloc)?;
        self.game = Some(game);
        Ok(reply)
    }

    /// Begins the game of a text, with the rule that the options have now.
    fn begin(&mut self, alloc: Global, text: &[u8]) -> Result<Reply, AllocError>
        requires { length text.now ≤ greatest_line }
        ensures { Gave (begin self.old (game_under self.old.repetition (or_base text.now))) result
            self.old self.new }
    {
        let repetition = self.repetition;
        match read_game_under::<G>(alloc, or_base(text), repetition) {
            Ok(parsed) => {
                let moves = parsed.moves.items();
                let game = Current::begin(alloc, parsed.game_type, moves, repetition)?;
                self.go_on(alloc, game)
            }
            Err(fault) => refuse_game(alloc, fault),
        }
    }

    /// Plays the move of a text.
    fn play(&mut self, alloc: Global, words: &[u8]) -> Result<Reply, AllocError>
        requires { length words.now ≤ greatest_line }
        ensures { Gave (in_game self.old self.old.game (play self.old words.now))
            result self.old self.new }
    {
        let Some(game) = &mut self.game else {
            return say(alloc, b"err 3 no game");
        };
        if game.is_over() {
            return say(alloc, b"invalidmove 4 game over");
        }
        if game.plies() >= 5000 {
            return say(alloc, b"err 11 too many plies");
        }
        let m = match game.read(words) {
            Ok(m) => m,
            Err(fault) => return refuse_move(alloc, fault),
        };
        if !game.is_legal(m.again()) {
            return say(alloc, b"invalidmove 3 not legal");
        }
        game.advance(alloc, m)
    }

    /// The legal moves.
    fn list(&mut self, alloc: Global) -> Result<Reply, AllocError>
        ensures reply { IfOk result (λ r. text_of r ≡ reply_of
            (while_on self.old (list self.old))) }
        ensures same { self.new ≡ self.old }
    {
        let Some(game) = &mut self.game else {
            return say(alloc, b"err 3 no game");
        };
        if game.is_over() {
            return say(alloc, b"err 8 game over");
        }
        game.tell_moves(alloc)
    }

    /// The best move, searched to this depth in plies. Several workers search it in parallel with
    /// the searchers of the session's team. Each of these has its share of the option Table, at
    /// least one entry. One worker searches with the session's own searcher, which has the whole of
    /// it. Before one of the two kinds begins, what is kept of the other is dropped. So no more
    /// than these entries are kept at a time.
    fn best<R: Threads + Sync, T: Gate + Sync>(
        &mut self,
        rt: &R,
        alloc: Global,
        depth: u32,
        gate: &T,
    ) -> Result<Reply, AllocError>
        requires some { 1 ≤ depth }
        requires deep { depth ≤ 64 }
        ensures reply { IfOk result (λ r. text_of r
            ≡ reply_of (while_on self.old (best_line self.old depth))) }
        ensures same { self.new ≡ self.old }
    {
        let team = Team {
            workers: self.workers,
            entries: (self.table / self.workers).max(1),
        };
        let Some(game) = &mut self.game else {
            return say(alloc, b"err 3 no game");
        };
        if game.is_over() {
            return say(alloc, b"err 8 game over");
        }
        if team.workers > 1 {
            self.searcher = None;
            return game.tell_best_by(rt, alloc, team, &mut self.team, depth, gate);
        }
        self.team = None;
        let mut searcher = taken(&mut self.searcher, alloc, team.entries)?;
        let reply = game.tell_best(alloc, &mut searcher, depth);
        self.searcher = Some(searcher);
        reply
    }

    /// The best move of the last depth that is completed within the budget, in milliseconds. One
    /// worker searches it with the session's own searcher, which has the whole of the option Table.
    /// The searchers of a team are dropped before.
    fn best_in<C: Clock>(
        &mut self,
        alloc: Global,
        budget: u64,
        clock: &mut C,
        timed: &mut TimedList,
    ) -> Result<Reply, AllocError>
        requires { budget ≤ 359999000 }
        ensures { Answered (search_in self.old.game budget)
            (λ depth. reply_of (while_on self.old (best_line self.old depth)))
            self.old result self.old self.new
            (times (C.last clock.old) (C.readings clock.old) timed.old)
            (times (C.last clock.new) (C.readings clock.new) timed.new) }
    {
        let entries = self.table;
        let Some(game) = &mut self.game else {
            return say(alloc, b"err 3 no game");
        };
        if game.is_over() {
            return say(alloc, b"err 8 game over");
        }
        self.team = None;
        let mut searcher = taken(&mut self.searcher, alloc, entries)?;
        let reply = game.tell_best_in(alloc, &mut searcher, budget, clock, timed);
        self.searcher = Some(searcher);
        reply
    }

    /// Takes this number of last plies back.
    fn undo(&mut self, alloc: Global, plies: u32) -> Result<Reply, AllocError>
        ensures { Gave (in_game self.old self.old.game (undo self.old plies))
            result self.old self.new }
    {
        let Some(game) = &self.game else {
            return say(alloc, b"err 3 no game");
        };
        if game.plies() < plies {
            return say(alloc, b"err 7 undo beyond start");
        }
        let earlier = game.earlier(alloc, plies)?;
        self.go_on(alloc, earlier)
    }
}
