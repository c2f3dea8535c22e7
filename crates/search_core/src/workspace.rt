//! What a search works with besides the game.

ghost use Rattle.std.specs.Prelude.{◌≡◌};

use crate::play_credit::PlayCredit;
use crate::ticker::Ticker;
use hive_model::MoveStack;
use search_laws::Window;
use value_table::ValueTable;

/// What a search works with besides the game. It has room for the lists of moves by level, a table
/// of what was found, and a ticker that says when to stop.
#[derive(Drop)]
pub struct Workspace {
    pub stack: MoveStack,
    pub table: ValueTable,
    pub ticker: Ticker,
    /// The credit that pays for early tries. It is emptied as a search begins.
    pub(crate) credit: PlayCredit,
}

impl Workspace {
    /// A workspace of this stack, this table and this ticker.
    pub fn new(stack: MoveStack, table: ValueTable, ticker: Ticker) -> Workspace
        ensures stack { result.stack ≡ stack }
        ensures table { result.table ≡ table }
        ensures ticker { result.ticker ≡ ticker }
    {
        Workspace {
            stack,
            table,
            ticker,
            credit: PlayCredit::empty(),
        }
    }
}

/// The question about a position: how many plies to search, from 0 to 64, and between which values
/// to tell exactly. If the question is about a move, the plies are those after it, and the values
/// are its side's.
#[derive(Clone, Copy, Debug)]
pub struct Node {
    pub depth: u32,
    pub window: Window,
}
