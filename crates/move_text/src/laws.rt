//! The law of written moves.

ghost use Rattle.hive_model.specs.declared.places.Move.{Move};
ghost use Rattle.hive_model.specs.Lists.{IsOn};
ghost use Rattle.hive_model.specs.Positions.{Position, IsSound};
ghost use Rattle.hive_model.specs.Legal.{IsLegal, moves};
ghost use Rattle.hive_model.specs.Denotes.{Denotes, text};
ghost use Rattle.move_text.specs.Moves.{IsMoveWithin};

/// In a sound position, the written text of each legal move denotes that move. Each legal move, and
/// so each move on the list of legal moves, can be written.
pub fn texts_denote()
    ensures denote { (p : Position) (m : Move) → IsSound p → IsLegal p m
        → Denotes p.game_type p.board (text p.board m) m }
    ensures within { (p : Position) (m : Move) → IsSound p → IsLegal p m → IsMoveWithin m }
    ensures listed { (p : Position) (m : Move) → IsSound p → IsOn (moves p) m → IsMoveWithin m }
{}
