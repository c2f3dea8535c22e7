//! A program of a cup.
ghost use Rattle.std.specs.Prelude.{◌≡◌, ◌<◌, length, map, string_bytes};

use std::marker::Model;

/// A program that plays in a cup: the text that names it, and its words. The first word is the
/// program, and the others are its arguments.
#[derive(Drop)]
pub struct Program {
    text: String,
    words: Vec<String>,
}

impl Model for Program {
    ghost use Rattle.std.specs.Prelude.{◌<◌, length, map, string_bytes};
    ghost use Rattle.cup.specs.Engines.{Engine};

    ghost Value = { Engine };

    ghost view = { λ p. record {
      text = string_bytes p.text;
      words = map string_bytes p.words.items;
    } };

    ghost invariant = { λ p. 0 < length p.words.items };
}

impl Program {
    /// A program of at least one word.
    pub fn new(text: String, words: Vec<String>) -> Program
        requires some { 0 < length words.items }
        ensures text { result.text ≡ string_bytes text }
        ensures words { result.words ≡ map string_bytes words.items }
    {
        Program { text, words }
    }

    /// The text that names it.
    pub fn text(&self) -> &[u8]
        ensures { result.now ≡ self.now.text }
    {
        self.text.as_bytes()
    }

    /// Its words. The first is the program.
    pub fn words(&self) -> &[String]
        ensures some { 0 < length result.now }
        ensures words { map string_bytes result.now ≡ self.now.words }
    {
        self.words.as_slice()
    }
}
