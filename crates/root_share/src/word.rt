//! The bound that the workers share, and the steps on it.

ghost use Rattle.std.specs.Prelude.{◌≡◌, ◌+◌, ◌≤◌, false, IfOk, ◌≤ℤ◌};
ghost use Rattle.std.specs.Int.{int_max};
ghost use Rattle.hive_model.specs.Minimax.{value, IsInner};
ghost use Rattle.hive_model.specs.Histories.{position};
ghost use Rattle.root_share.specs.Run.{first_bound};
ghost use Rattle.root_share.specs.Word.{known, looked, has_raised, fresh, both, IsSeat, IsReply};

use atomic_table::{Join, Play, Seat, Shared, Split, Table, TableRule};
use hive_model::Game;
use std::alloc::{AllocError, Global};
use std::marker::{Model, PhantomData};
use std::snapshot::Snapshot;

/// What a seat at the word knows. No value of this type is ever made.
pub struct View {
    unit: (),
}

impl Model for View {
    ghost use Rattle.std.specs.Prelude.{false};
    ghost use Rattle.hive_model.specs.Positions.{opening};
    ghost use Rattle.root_share.specs.Run.{first_bound};
    ghost use Rattle.root_share.specs.Word.{Known, known};

    ghost Value = { Known };

    ghost view = { λ v.
        known (opening (record { mosquito = false; ladybug = false; pillbug = false }))
        0 first_bound 0 };
}

/// The root that the workers search, given to the table when it is made.
#[derive(Drop)]
pub struct Root<G> {
    pub game: Snapshot<G>,
    pub depth: u32,
}

/// The invariant of the word between any two steps: its bound is at least what each seat knows, and
/// at most the value of the root. The bound is the word minus 2,000,000.
pub struct Rule<G> {
    game: PhantomData<G>,
}

impl<G: Game> TableRule<(), View, Root<G>> for Rule<G> {
    ghost use Rattle.hive_model.specs.Histories.{position};
    ghost use Rattle.root_share.specs.Run.{first_bound};
    ghost use Rattle.root_share.specs.Word.{Keeps, known};

    ghost holds = { λ r. Keeps (position (G.history r.game.value)) r.depth };

    ghost first = { λ r. known (position (G.history r.game.value)) r.depth first_bound 0 };
}

/// A seat reads the bound.
pub struct Loads;

impl Play<(), View> for Loads {
    ghost then = { looked };
}

/// A seat raises the bound to the value of some child of the root.
pub struct Raises;

impl Play<(), View> for Raises {
    ghost then = { has_raised };
}

/// A seat for one more worker, which knows only the root.
pub struct Splits;

impl Split<View> for Splits {
    ghost left = { λ v. v };

    ghost right = { fresh };
}

/// A seat takes over what another one knows. The other one is then spent.
pub struct Joins;

impl Join<View> for Joins {
    ghost use Rattle.std.specs.Prelude.{true, false};
    ghost use Rattle.hive_model.specs.Positions.{opening};
    ghost use Rattle.root_share.specs.Run.{first_bound};

    ghost both = { both };

    ghost spent = { record {
      root = opening (record { mosquito = false; ladybug = false; pillbug = false });
      depth = 0;
      top = first_bound;
      looks = 0;
      spent = true;
    } };
}

/// A worker's seat at the word.
pub type BoundSeat = Seat<(), View>;

/// The word that all workers share.
pub type Word<G> = Shared<(), View, Root<G>, Rule<G>>;

/// The word, with the memory that holds it.
pub type Board<G> = Table<(), View, Root<G>, Rule<G>, Global>;

/// A word whose bound is below the value of every child, and the first seat at it.
pub fn begin<G: Game>(
    alloc: Global,
    game: &G,
    depth: u32,
) -> Result<(Board<G>, BoundSeat), AllocError>
    requires deep { depth ≤ 64 }
    ensures { IfOk result (λ t. IsSeat t.0.shared.table_id t.1
        × (t.1.me.0 ≡ known (position (G.history game.now)) depth first_bound 0)) }
{
    let root = Root {
        game: Snapshot::of(game),
        depth,
    };
    Table::of_words(alloc, &[999_910], &root)
}

/// The current bound.
pub fn look<G: Game>(word: &Word<G>, seat: &mut BoundSeat) -> i32
    requires seat { IsSeat word.now.table_id seat.old }
    requires deep { seat.old.me.0.depth ≤ 64 }
    ensures seat { IsSeat word.now.table_id seat.new }
    ensures view { seat.new.me.0
        ≡ known seat.old.me.0.root seat.old.me.0.depth result (seat.old.me.0.looks + 1) }
    ensures grows { seat.old.me.0.top ≤ℤ result }
    ensures least { first_bound ≤ℤ result }
    ensures most { result ≤ℤ value seat.old.me.0.root seat.old.me.0.depth }
{
    let found = word.load::<Loads>(seat, 0);
    (found as i64 - 2_000_000) as i32
}

/// Raises the bound to the value of a child.
pub fn raise<G: Game>(word: &Word<G>, seat: &mut BoundSeat, worth: i32)
    requires seat { IsSeat word.now.table_id seat.old }
    requires deep { seat.old.me.0.depth ≤ 64 }
    requires inner { IsInner seat.old.me.0.root seat.old.me.0.depth }
    requires reply { IsReply seat.old.me.0.root seat.old.me.0.depth worth }
    ensures seat { IsSeat word.now.table_id seat.new }
    ensures view { seat.new.me.0
        ≡ known seat.old.me.0.root seat.old.me.0.depth (int_max seat.old.me.0.top worth)
        seat.old.me.0.looks }
{
    let _word_before = word.fetch_max::<Raises>(seat, 0, (worth as i64 + 2_000_000) as u64);
}

/// A seat for another worker.
pub fn halve<G: Game>(word: &Word<G>, seat: &mut BoundSeat) -> BoundSeat
    requires seat { IsSeat word.now.table_id seat.old }
    ensures seat { IsSeat word.now.table_id seat.new }
    ensures same { seat.new.me.0 ≡ seat.old.me.0 }
    ensures other { IsSeat word.now.table_id result }
    ensures view { result.me.0 ≡ known seat.old.me.0.root seat.old.me.0.depth first_bound 0 }
{
    word.split_seat::<Splits>(seat)
}

/// Takes back the seat of another worker.
pub fn meet<G: Game>(word: &Word<G>, seat: &mut BoundSeat, other: BoundSeat)
    requires seat { IsSeat word.now.table_id seat.old }
    requires other { IsSeat word.now.table_id other }
    ensures seat { IsSeat word.now.table_id seat.new }
    ensures view { seat.new.me.0 ≡ both seat.old.me.0 other.me.0 }
{
    word.join_seat::<Joins>(seat, other);
}
