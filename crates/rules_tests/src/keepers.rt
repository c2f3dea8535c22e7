//! Tests of `cut_keeper`: a line with a beetle on it, a ring that is opened, and how often a keeper
//! asks a board.

ghost use Rattle.std.specs.Prelude.{◌<◌, IsTrue};
ghost use Rattle.hive_model.specs.Boards.{is_on_top};
ghost use Rattle.hive_model.specs.Places.{IsWithin};

use cut_keeper::{CutKeeper, added_uncounted, removed_uncounted};
use hive_model::{Board, Piece, Place, Spot};
use one_hive::is_one;
use stack_board::PlainBoard;
use std::alloc::{AllocError, Global};
use std::cell::Cell;
use std::marker::Model;
use std::test::Fail;

/// A board that passes each call on, and counts the calls.
#[derive(Drop)]
struct Counted<'a> {
    board: &'a PlainBoard,
    calls: Cell<u32>,
}

impl Board for Counted<'_> {
    ghost stacks = { λ c. c.board.now };

    fn top(&self, place: Place) -> Option<Piece> {
        self.calls.set(self.calls.get().saturating_add(1));
        self.board.top(place)
    }

    fn height(&self, place: Place) -> u8 {
        self.calls.set(self.calls.get().saturating_add(1));
        self.board.height(place)
    }

    fn spot(&self, piece: Piece) -> Option<Spot> {
        self.calls.set(self.calls.get().saturating_add(1));
        self.board.spot(piece)
    }

    fn lemma_board(&self) {
        self.board.lemma_board();
    }

    fn under(&self, piece: Piece) -> Option<Piece> {
        self.calls.set(self.calls.get().saturating_add(1));
        self.board.under(piece)
    }

    fn neighbours(&self, place: Place) -> u8 {
        self.calls.set(self.calls.get().saturating_add(1));
        self.board.neighbours(place)
    }
}

/// Whether the piece is on top of its place.
fn is_on_top(board: &PlainBoard, piece: Piece) -> bool
    ensures { IsTrue result → IsTrue (is_on_top board.now piece) }
{
    match board.spot(piece) {
        Some(spot) => spot.level < 28 && spot.level + 1 == board.height(spot.place),
        None => false,
    }
}

/// A board that is one hive, and a keeper in sync with it.
#[derive(Drop)]
struct KeeperTrial {
    board: PlainBoard,
    keeper: CutKeeper,
    calls: u32,
}

impl Model for KeeperTrial {
    ghost use Rattle.hive_model.specs.Boards.{Stacks, IsBoard};
    ghost use Rattle.hive_model.specs.Hive.{OneHive};
    ghost use Rattle.cut_keeper.specs.Keeping.{Keeps};

    ghost Value = { Stacks };

    ghost view = { λ t. t.board };

    ghost invariant = { λ t. Keeps t.board t.keeper × IsBoard t.board × OneHive t.board };
}

impl KeeperTrial {
    /// The empty board.
    fn new(alloc: Global) -> Result<Option<KeeperTrial>, AllocError> {
        let board = PlainBoard::new(alloc)?;
        let keeper = CutKeeper::new();
        board.lemma_board();
        if !is_one(&board) {
            return Ok(None);
        }
        Ok(Some(KeeperTrial {
            board,
            keeper,
            calls: 0,
        }))
    }

    /// The same with the piece on the place, if it was not on the board and leaves one hive. It
    /// remembers how often the keeper asked the board.
    fn put(self, index: u8, place: Place) -> Option<KeeperTrial>
        requires small { index < 28 }
        requires within { IsWithin 9000 place }
    {
        let piece = Piece::at(index);
        let KeeperTrial {
            mut board,
            mut keeper,
            ..
        } = self;
        if board.spot(piece).is_some() {
            return None;
        }
        board.put(piece, place);
        board.lemma_board();
        if !is_one(&board) {
            return None;
        }
        let counted = Counted {
            board: &board,
            calls: Cell::new(0),
        };
        added_uncounted(&mut keeper, &counted, piece, place);
        let calls = counted.calls.get();
        Some(KeeperTrial {
            board,
            keeper,
            calls,
        })
    }

    /// The same without the piece, if it is on top and leaves one hive.
    fn lifted(self, index: u8) -> Option<KeeperTrial>
        requires { index < 28 }
    {
        let piece = Piece::at(index);
        let KeeperTrial {
            mut board,
            mut keeper,
            calls,
        } = self;
        if !is_on_top(&board, piece) {
            return None;
        }
        let place = board.lift(piece);
        board.lemma_board();
        if !is_one(&board) {
            return None;
        }
        removed_uncounted(&mut keeper, &board, piece, place);
        Some(KeeperTrial {
            board,
            keeper,
            calls,
        })
    }

    fn is_cut(&self, q: i32, r: i32) -> bool {
        self.keeper.is_cut(&self.board, Place { q, r })
    }
}

/// The board with the first pieces on these places, in turn.
fn tried_of(alloc: Global, places: &[(i32, i32)]) -> Result<Option<KeeperTrial>, AllocError> {
    let Some(mut tried) = KeeperTrial::new(alloc)? else {
        return Ok(None);
    };
    for (x, (q, r)) in places.iter().enumerate() {
        if x >= 28 || *q < -20 || 20 < *q || *r < -20 || 20 < *r {
            return Ok(None);
        }
        match tried.put(x as u8, Place { q: *q, r: *r }) {
            Some(next) => tried = next,
            None => return Ok(None),
        }
    }
    Ok(Some(tried))
}

#[test]
fn middle_of_a_line_under_a_beetle(rt: HostRuntime) -> Result<(), Fail> {
    let Some(tried) = tried_of(rt.alloc(), &[(0, 0), (1, 0), (-1, 0)])? else {
        assert!(rt; false, "no board");
        return Ok(());
    };
    assert!(rt; tried.is_cut(0, 0));
    assert!(rt; !tried.is_cut(1, 0) && !tried.is_cut(-1, 0));
    let Some(under) = tried.put(17, Place { q: 0, r: 0 }) else {
        assert!(rt; false, "no beetle");
        return Ok(());
    };
    assert!(rt; !under.is_cut(0, 0));
    let Some(after) = under.lifted(17) else {
        assert!(rt; false, "no lift");
        return Ok(());
    };
    assert!(rt; after.is_cut(0, 0));
    Ok(())
}

#[test]
fn opened_ring(rt: HostRuntime) -> Result<(), Fail> {
    let ring = [(1, 0), (1, -1), (0, -1), (-1, 0), (-1, 1), (0, 1)];
    let Some(whole) = tried_of(rt.alloc(), &ring)? else {
        assert!(rt; false, "no board");
        return Ok(());
    };
    for (q, r) in ring {
        assert!(rt; !whole.is_cut(q, r));
    }
    let Some(open) = whole.lifted(0) else {
        assert!(rt; false, "no lift");
        return Ok(());
    };
    assert!(rt; open.is_cut(0, -1) && open.is_cut(-1, 0) && open.is_cut(-1, 1));
    assert!(rt; !open.is_cut(1, -1) && !open.is_cut(0, 1) && !open.is_cut(1, 0));
    Ok(())
}

#[test]
fn beetle_on_a_long_line_asks_little(rt: HostRuntime) -> Result<(), Fail> {
    let line = [
        (0, 0),
        (1, 0),
        (2, 0),
        (3, 0),
        (4, 0),
        (5, 0),
        (6, 0),
        (7, 0),
        (8, 0),
        (9, 0),
        (10, 0),
        (11, 0),
        (5, 0),
    ];
    let Some(tried) = tried_of(rt.alloc(), &line)? else {
        assert!(rt; false, "no board");
        return Ok(());
    };
    let calls = tried.calls;
    assert!(rt; calls > 0 && calls <= 20, "{calls} calls");
    assert!(rt; tried.is_cut(4, 0) && !tried.is_cut(5, 0) && tried.is_cut(6, 0));
    assert!(rt; !tried.is_cut(0, 0) && !tried.is_cut(11, 0));
    Ok(())
}
