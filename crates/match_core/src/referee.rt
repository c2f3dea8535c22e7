//! The referee of a match.
ghost use Rattle.std.specs.Prelude.{
  ◌≡◌,
  ◌+◌,
  ◌≤◌,
  [],
  length,
  vec_capacity,
  IfOk,
  OnOk,
  OnErr,
  IsTrue,
  Some,
  None,
  MatchOption,
};
ghost use Rattle.match_core.specs.Setups.{setup_from, setup_plain, IsBegin};
ghost use Rattle.match_core.specs.MatchState.{start, next, happening, act_at, answers};
ghost use Rattle.match_core.specs.Keeps.{IsSetup, IsSend, line_at, IsEarly};
ghost use Rattle.match_core.specs.Texts.{begin_line, most_sent};
ghost use Rattle.game_text.specs.Seen.{Sees};
ghost use Rattle.io_edge.specs.Lines.{greatest_line};

mod steps;
mod whole_replies;

use crate::setup::Setup;
use crate::stage::{Act, Event, Stage, Task};
use crate::texts::begin_line;
use crate::verdict::Verdict;
use game_text::{Seen, seen_under};
use hive_model::{Colour, Game, LineText, ReplyText};
use std::alloc::{AllocError, Global};
use std::marker::Model;

/// A match under way.
///
/// Each engine greets first, white before black. Then each is sent a line that begins the game: a
/// new one, or one under way. The side to move is asked for its best move, and the first line of
/// its reply is judged. A legal move is played, and sent to white and then to black. The match ends
/// by the rules, at its limit of plies, or by a forfeit. If the setup says so, a position that
/// occurs for the third time draws the game.
#[derive(Drop)]
pub struct Referee<G: Game> {
    alloc: Global,
    setup: Setup,
    game: G,
    /// The number of the game's moves that were made before the match.
    given: u32,
    /// The line that begins the game for a side.
    begin: ReplyText,
    seen: Seen,
    stage: Stage,
    asked: u64,
    first: Option<LineText>,
    count: u32,
    verdict: Option<Verdict>,
    text: Vec<u8>,
}

impl<G: Game> Model for Referee<G> {
    ghost use Rattle.std.specs.Prelude.{take, vec_capacity};
    ghost use Rattle.match_core.specs.Setups.{setup_from};
    ghost use Rattle.match_core.specs.MatchState.{MatchState, match_state};
    ghost use Rattle.match_core.specs.Keeps.{IsReferee};

    ghost Value = { MatchState };

    ghost view = { λ r. match_state (setup_from r.setup (take r.given (G.history r.game).made))
        (G.history r.game).made r.stage r.asked r.first r.count r.verdict };

    ghost invariant = { λ r. IsReferee (match_state
        (setup_from r.setup (take r.given (G.history r.game).made)) (G.history r.game).made r.stage
        r.asked r.first r.count r.verdict)
        (G.history r.game) r.seen r.begin r.text.items r.given (vec_capacity r.text) };
}

impl<G: Game + Drop> Referee<G> {
    /// The referee of a match that begins with the opening. It reserves room for the whole match,
    /// and answers `AllocError` if there is none.
    pub fn new(alloc: Global, setup: Setup) -> Result<Referee<G>, AllocError>
        requires { IsSetup setup }
        ensures { IfOk result (λ r. r ≡ start (setup_plain setup)) }
    {
        let game = G::opening(alloc, setup.game_type)?;
        Referee::from_game(alloc, setup, game)
    }

    /// The referee of a match that begins with a game under way, of the type of the setup. The
    /// moves of that game are given, and the match goes on from the position at its end. If the
    /// game is over or has reached the limit of plies, the match ends as soon as both sides were
    /// sent the game. It reserves room for the whole match, and answers `AllocError` if there is
    /// none.
    pub fn from_game(alloc: Global, setup: Setup, game: G) -> Result<Referee<G>, AllocError>
        requires setup { IsSetup setup }
        requires kind { (G.history game).game_type ≡ setup.game_type }
        ensures start { IfOk result (λ r. r ≡ start (setup_from setup (G.history game).made)) }
        ensures begin { IsBegin (setup_from setup (G.history game).made) }
    {
        let mut game = game;
        game.lemma_sound();
        let given = game.plies();
        let text = Vec::with_capacity(alloc, 64)?;
        game.reserve(setup.limit.saturating_sub(given))?;
        Referee::with_room(alloc, setup, game, text)
    }

    /// The same for a game that has room for the whole match, with a text that has room for a line.
    fn with_room(
        alloc: Global,
        setup: Setup,
        game: G,
        text: Vec<u8>,
    ) -> Result<Referee<G>, AllocError>
        requires setup { IsSetup setup }
        requires kind { (G.history game).game_type ≡ setup.game_type }
        requires spare { setup.limit ≤ length (G.history game).made + (G.history game).spare }
        requires empty { text.items ≡ [] }
        requires room { most_sent ≤ vec_capacity text }
        ensures { IfOk result (λ r. r ≡ start (setup_from setup (G.history game).made)) }
    {
        game.lemma_sound();
        let begin = begin_line(alloc, setup, &game)?;
        let seen = seen_under(alloc, &game, setup.repetition)?;
        Ok(Referee::begun(alloc, setup, game, begin, seen, text))
    }

    /// The same with everything that a referee keeps. It reads white's greeting first.
    fn begun(
        alloc: Global,
        setup: Setup,
        game: G,
        begin: ReplyText,
        seen: Seen,
        text: Vec<u8>,
    ) -> Referee<G>
        requires setup { IsSetup setup }
        requires kind { (G.history game).game_type ≡ setup.game_type }
        requires spare { setup.limit ≤ length (G.history game).made + (G.history game).spare }
        requires begin { begin ≡ begin_line (setup_from setup (G.history game).made) }
        requires rule { seen.repetition ≡ setup.repetition }
        requires sees { Sees seen (G.history game) }
        requires empty { text.items ≡ [] }
        requires room { most_sent ≤ vec_capacity text }
        ensures { result ≡ start (setup_from setup (G.history game).made) }
    {
        let given = game.plies();
        Referee {
            alloc,
            setup,
            game,
            given,
            begin,
            seen,
            stage: Stage::Read {
                task: Task::Greet,
                side: Colour::White,
            },
            asked: 0,
            first: None,
            count: 0,
            verdict: None,
            text,
        }
    }

    /// The act that has to be done now.
    pub fn next(&self) -> Act
        ensures { result ≡ act_at self.now.stage }
    {
        match self.stage {
            Stage::Send { task: _, side } => Act::Send { side },
            Stage::Read { task: _, side } => Act::Read { side },
            Stage::Before => Act::Clock,
            Stage::After => Act::Clock,
            Stage::Finished => Act::Finish,
        }
    }
}

impl<G: Game + Drop> Referee<G> {
    /// The line that has to be sent now, with its LF.
    pub fn text(&self) -> &[u8]
        requires { IsSend self.now.stage }
        ensures { result.now ≡ line_at self.now self.now.stage }
    {
        match self.stage {
            Stage::Send {
                task: Task::Begin,
                side: _,
            } => self.begin.items(),
            _ => self.text.as_slice(),
        }
    }

    /// The verdict, or `None` until the match is over.
    pub fn verdict(&self) -> Option<&Verdict>
        ensures { MatchOption result (self.now.verdict ≡ None)
            (λ v. self.now.verdict ≡ Some v.now) }
    {
        self.verdict.as_ref()
    }

    /// The game so far.
    pub fn game(&self) -> &G
        ensures moves { (G.history result.now).made ≡ self.now.moves }
        ensures kind { (G.history result.now).game_type ≡ self.now.setup.game_type }
    {
        &self.game
    }
}

impl<G: Game + Drop> Referee<G> {
    /// Moves on by one event, which answers the act that had to be done. The line matters only for
    /// the event `Line`; it has at most 65,536 bytes. A reading of the clock is below 2 to the
    /// power 62.
    ///
    /// # Errors
    ///
    /// Only a line can run out of memory, for a copy or for the key of a position that is kept.
    /// Then the match is as before.
    #[tactic(auto, unfolding(crate::specs::MatchState::next))]
    pub fn step(&mut self, event: Event, line: &[u8]) -> Result<(), AllocError>
        requires answers { IsTrue (answers (act_at self.old.stage) (happening event line.now)) }
        requires early { IsEarly event }
        requires short { length line.now ≤ greatest_line }
        ensures ok { OnOk result (self.new ≡ next self.old (happening event line.now)) }
        ensures err { OnErr result (self.new ≡ self.old) }
        ensures memory { OnErr result (event ≡ Event.Line) }
    {
        match self.stage {
            Stage::Send { task, side } => {
                self.on_send(task, side, event);
                Ok(())
            }
            Stage::Read { task, side } => self.on_read(task, side, event, line),
            Stage::Before => {
                self.on_before(event);
                Ok(())
            }
            Stage::After => {
                self.on_after(event);
                Ok(())
            }
            Stage::Finished => Ok(()),
        }
    }
}
