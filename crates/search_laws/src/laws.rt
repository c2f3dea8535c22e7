//! Laws of minimax, as contracts of functions that do nothing.

ghost use Rattle.search_laws.specs.Laws.{
  ValuesAreSmall,
  EndsAreWorth,
  ValuesGoDeeper,
  LinesGoDeeper,
  NodesGoDeeper,
  CostFalls,
  BestIsFirstGreatest,
};

/// Laws of values: how large they are, what the end of a game is worth, and how values at one depth
/// follow from those at the depth below.
pub fn values_go_deeper()
    ensures small { ValuesAreSmall }
    ensures ends { EndsAreWorth }
    ensures deeper { ValuesGoDeeper }
{}

/// At a position that is not over, and at depth 1 or more, there is a best move. It is the first of
/// those with the greatest value.
pub fn best_is_first_greatest()
    ensures { BestIsFirstGreatest }
{}

/// The number of lists of legal moves of one ply more.
pub fn counts_go_deeper()
    ensures lines { LinesGoDeeper }
    ensures nodes { NodesGoDeeper }
{}

/// The plays of a search do not rise if the lower end of its window rises or the upper end falls.
pub fn cost_falls()
    ensures { CostFalls }
{}
