//! The words of the programs that were started, which only contracts read.
ghost use Rattle.std.specs.Prelude.{◌≡◌, ℕ, List, [], ◌∷◌, ◌++◌, map, string_bytes};
ghost use Rattle.std.specs.Borrow.{ftrue};

use std::marker::Model;

/// The programs that were started, each by its words, in the order of the starts.
///
/// It takes no memory, and its methods do nothing at run time.
#[derive(Drop)]
pub(crate) struct Started {
    ghost programs: { List (List (List ℕ)) },
}

impl Model for Started {
    ghost also_owns = { λ _. ftrue };
}

impl Started {
    /// No program was started yet.
    pub(crate) fn new() -> Started
        ensures { result.programs ≡ [] }
    {
        Started {}
    }

    /// A program was started by these words.
    pub(crate) fn note(&mut self, _words: &[String])
        ensures { self.new.programs ≡ self.old.programs ++ map string_bytes _words.now ∷ [] }
    {}
}
