//! Workers at a root at which one move wins.

ghost use Rattle.std.specs.Prelude.{◌≡◌, ◌≤◌, length, IfOk};
ghost use Rattle.std.specs.List.{All};
ghost use Rattle.hive_model.specs.Histories.{position};
ghost use Rattle.hive_model.specs.Games.{IsGame};
ghost use Rattle.hive_model.specs.Legal as rules;
ghost use Rattle.root_share.specs.Answer.{IsGameOf};

use deepening::Searcher;
use game_text::{Parsed, played, read_game};
use hive_model::{Best, Game, Move, MoveStack, Piece, Place, State};
use plain_game::PlainGame;
use root_share::{FreeGate, Gate, Worker, best_shared};
use std::alloc::{AllocError, Global};
use std::sync::atomic::{AtomicBool, AtomicU32, Ordering};
use std::test::Fail;
use std::thread::Threads;

/// A game that white wins with one move.
const ONE_MOVE_WINS: &str = concat!(
    "Base;InProgress;White[7];wS1;bS1 wS1-;wQ /wS1;bQ bS1-;wQ /bS1;bQ wQ-;wG1 -wS1;",
    "bG1 bS1-;wB1 /wQ;bB1 bQ-;wA1 -wB1;bA1 /bB1",
);

/// How often a waiting worker looks at the flag of the other.
const LOOKS: u32 = 1_000_000_000;

/// The winning move: the first white ant goes to the right of the first white beetle.
fn wins() -> Move {
    Move::To {
        piece: Piece::at(8),
        place: Place { q: 0, r: 2 },
    }
}

/// Before its first child each of two workers says that it is here, and then looks whether the
/// other is.
#[derive(Drop)]
struct Meeting {
    here: [AtomicBool; 2],
    saw: [AtomicBool; 2],
}

impl Gate for Meeting {
    fn before_child(&self, worker: u32, child: u32) {
        let _ = child;
        if worker >= 2 || self.here[worker as usize].load(Ordering::SeqCst) {
            return;
        }
        self.here[worker as usize].store(true, Ordering::SeqCst);
        for _ in 0..LOOKS {
            if self.here[1 - worker as usize].load(Ordering::SeqCst) {
                self.saw[worker as usize].store(true, Ordering::SeqCst);
                return;
            }
        }
    }
}

/// Holds one of two workers before its first child until the other is before the last of its
/// children, which `others` others precede.
#[derive(Drop)]
struct Holding {
    held: u32,
    others: u32,
    calls: AtomicU32,
    began: AtomicBool,
    came: AtomicBool,
    gave_up: AtomicBool,
}

impl Gate for Holding {
    fn before_child(&self, worker: u32, child: u32) {
        let _ = child;
        if worker != self.held {
            if self.calls.fetch_add(1, Ordering::SeqCst) == self.others {
                self.came.store(true, Ordering::SeqCst);
            }
            return;
        }
        if self.began.swap(true, Ordering::SeqCst) {
            return;
        }
        for _ in 0..LOOKS {
            if self.came.load(Ordering::SeqCst) {
                return;
            }
        }
        self.gave_up.store(true, Ordering::SeqCst);
    }
}

/// Records the child with which each of two workers begins; 1,000 before it has begun.
#[derive(Drop)]
struct Beginning {
    first: [AtomicU32; 2],
}

impl Gate for Beginning {
    fn before_child(&self, worker: u32, child: u32) {
        if worker < 2 && self.first[worker as usize].load(Ordering::SeqCst) == 1000 {
            self.first[worker as usize].store(child, Ordering::SeqCst);
        }
    }
}

/// `count` workers, each with a game of these moves and a searcher for this depth.
fn workers_in(
    alloc: Global,
    parsed: &Parsed,
    count: u32,
    depth: u32,
) -> Result<Vec<Worker<PlainGame>>, AllocError>
    requires game { IsGame parsed.now.game_type parsed.now.moves }
    requires short { length parsed.now.moves ≤ 5000 }
    requires some { 1 ≤ depth }
    requires few { depth ≤ 3 }
    ensures count { IfOk result (λ ws. length ws.items ≡ count) }
    ensures games { IfOk result (λ ws. All
        (λ w. IsGameOf parsed.now.game_type parsed.now.moves depth w.game.history)
        ws.items) }
    ensures searchers { IfOk result (λ ws. All (λ w. depth ≤ w.searcher) ws.items) }
{
    let mut workers = Vec::new(alloc);
    for _made in 0..count {
        let game = played(alloc, parsed.game_type, parsed.moves.items(), depth)?;
        let searcher = Searcher::prepare(alloc, 1, depth)?;
        workers.push(Worker { game, searcher })?;
    }
    Ok(workers)
}

/// Whether the game is over.
fn is_over(game: &PlainGame) -> bool
    ensures { result ≡ rules.is_over (position game.now.history) }
{
    match game.state() {
        State::NotStarted | State::InProgress => false,
        State::Draw | State::WhiteWins | State::BlackWins => true,
    }
}

/// What `count` workers find if one move wins, and the workers afterwards.
fn found_by<R: Threads + Sync, T: Gate + Sync>(
    rt: &R,
    alloc: Global,
    count: u32,
    depth: u32,
    gate: &T,
) -> Result<Option<(Best, Vec<Worker<PlainGame>>)>, AllocError> {
    let Ok(parsed) = read_game::<PlainGame>(alloc, ONE_MOVE_WINS.as_bytes()) else {
        return Ok(None);
    };
    if parsed.moves.items().len() > 5000 || depth < 1 || depth > 3 || count < 1 || count > 16 {
        return Ok(None);
    }
    let mut workers = workers_in(alloc, &parsed, count, depth)?;
    if is_over(&workers[0].game) {
        return Ok(None);
    }
    let best = best_shared(rt, alloc, &mut workers, depth, gate)?;
    Ok(Some((best, workers)))
}

/// The plays of one of two workers while one of them is held; `None` if the hold did not end in
/// time.
fn plays_beside<R: Threads + Sync>(
    rt: &R,
    alloc: Global,
    count: u32,
    held: u32,
    of: usize,
) -> Result<Option<u64>, AllocError>
    requires { 2 ≤ count }
{
    let gate = Holding {
        held,
        others: if held == 1 {
            (count - 1) / 2
        } else {
            count / 2 - 1
        },
        calls: AtomicU32::new(0),
        began: AtomicBool::new(false),
        came: AtomicBool::new(false),
        gave_up: AtomicBool::new(false),
    };
    let Some((_, workers)) = found_by(rt, alloc, 2, 2, &gate)? else {
        return Ok(None);
    };
    if gate.gave_up.load(Ordering::SeqCst) {
        return Ok(None);
    }
    let Some(worker) = workers.get(of) else {
        return Ok(None);
    };
    Ok(Some(worker.game.played()))
}

/// The number of legal moves in the game that one move wins, and the place of that move among them.
fn place_of_the_win(alloc: Global) -> Result<Option<(u32, u32)>, AllocError> {
    let Ok(parsed) = read_game::<PlainGame>(alloc, ONE_MOVE_WINS.as_bytes()) else {
        return Ok(None);
    };
    if parsed.moves.items().len() > 5000 {
        return Ok(None);
    }
    let mut game: PlainGame = played(alloc, parsed.game_type, parsed.moves.items(), 0)?;
    let mut root = MoveStack::new(alloc, 1)?;
    game.list(&mut root);
    let count = root.level_len(0);
    for place in 0..count {
        if root.get(0, place) == wins() {
            return Ok(Some((count, place)));
        }
    }
    Ok(None)
}

/// Of the moves at places that leave `part` when divided by 2, the least value to the other side;
/// and the value of the move at `place` to it. Both count only moves that the game values without a
/// play.
fn looks_of(alloc: Global, part: u32, place: u32) -> Result<Option<(i32, i32)>, AllocError> {
    let Ok(parsed) = read_game::<PlainGame>(alloc, ONE_MOVE_WINS.as_bytes()) else {
        return Ok(None);
    };
    if parsed.moves.items().len() > 5000 {
        return Ok(None);
    }
    let mut game: PlainGame = played(alloc, parsed.game_type, parsed.moves.items(), 0)?;
    let mut root = MoveStack::new(alloc, 1)?;
    game.list(&mut root);
    let mut least = i32::MAX;
    let mut here = i32::MAX;
    for i in 0..root.level_len(0) {
        let m = root.get(0, i);
        if i % 2 != part || !game.is_legal(m.again()) {
            continue;
        }
        let Some(worth) = game.value_after(m) else {
            continue;
        };
        least = least.min(worth);
        if i == place {
            here = worth;
        }
    }
    Ok(Some((least, here)))
}

#[test]
fn workers_find_the_win(rt: HostRuntime) -> Result<(), Fail> {
    for count in [1, 2, 16] {
        for (depth, value) in [(1, 1_000_000), (2, 1_000_001)] {
            let (found, _) = found_by(&rt, rt.alloc(), count, depth, &FreeGate)?.ok_or("the root")?;
            let best = wins();
            assert_eq!(rt;
                found,
                Best { best, value },
                "{count} workers at depth {depth}"
            );
        }
    }
    Ok(())
}

#[test]
fn workers_meet(rt: HostRuntime) -> Result<(), Fail> {
    let gate = Meeting {
        here: [AtomicBool::new(false), AtomicBool::new(false)],
        saw: [AtomicBool::new(false), AtomicBool::new(false)],
    };
    found_by(&rt, rt.alloc(), 2, 1, &gate)?.ok_or("the root")?;
    assert!(rt; gate.saw[0].load(Ordering::SeqCst));
    assert!(rt; gate.saw[1].load(Ordering::SeqCst));
    Ok(())
}

#[test]
fn a_worker_plays_less_after_the_best(rt: HostRuntime) -> Result<(), Fail> {
    let (count, place) = place_of_the_win(rt.alloc())?.ok_or("the move that wins")?;
    assert!(rt; count >= 2);
    let with_best = place % 2;
    let other = 1 - with_best;
    let after = plays_beside(&rt, rt.alloc(), count, other, other as usize)?.ok_or("held")?;
    let before = plays_beside(&rt, rt.alloc(), count, with_best, other as usize)?.ok_or("held")?;
    assert!(rt; after < before, "{after} plays and {before}");
    Ok(())
}

#[test]
fn each_worker_begins_with_the_move_that_looks_best(rt: HostRuntime) -> Result<(), Fail> {
    let gate = Beginning {
        first: [AtomicU32::new(1000), AtomicU32::new(1000)],
    };
    found_by(&rt, rt.alloc(), 2, 2, &gate)?.ok_or("the root")?;
    for part in [0, 1] {
        let place = gate.first[part].load(Ordering::SeqCst);
        let (least, here) = looks_of(rt.alloc(), part as u32, place)?.ok_or("the moves")?;
        assert!(rt; here < i32::MAX, "the move at {place}");
        assert_eq!(rt; here, least);
    }
    Ok(())
}
