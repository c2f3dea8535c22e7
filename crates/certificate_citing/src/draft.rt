//! What a walk has written and shown.

ghost use Rattle.std.specs.Prelude.{◌≡◌, [], IfOk};
ghost use Rattle.std.specs.Bool.{OnFalse, OnTrue};
ghost use Rattle.certificate_citing.specs.TokenText.{cite_line};
ghost use Rattle.certificate_citing.specs.Drafts.{with_index, with_cite};

use arrayvec::ArrayString;
use certificate_text::index_line;
use hive_model::ReplyText;
use itoa::Buffer;
use std::alloc::{AllocError, Global};
use strategy_lemmas::Lemmas;

/// How many indices were taken, capped at the greatest `u64`, the lemmas shown, and the lines of
/// the tokens written.
#[derive(Drop)]
pub struct Draft {
    pub taken: u64,
    pub lemmas: Lemmas,
    pub text: ReplyText,
}

/// A citation on a line of its own.
fn cite_line(place: u32) -> ArrayString<16>
    ensures { result.bytes ≡ cite_line place }
{
    let mut line = ArrayString::new();
    let mut buffer = Buffer::new();
    line.push_str("@");
    line.push_str(buffer.format(place));
    line.push_str("\n");
    line
}

impl Draft {
    /// An empty draft: nothing is taken, shown or written. The room for lemmas is taken here.
    pub fn new(alloc: Global) -> Result<Draft, AllocError>
        ensures { IfOk result (λ d. d ≡ record { taken = 0; lemmas = []; text = [] }) }
    {
        let lemmas = Lemmas::new(alloc)?;
        Ok(Draft {
            taken: 0,
            lemmas,
            text: ReplyText::new(alloc),
        })
    }

    /// Writes an index and counts it. The answer is whether there was memory for it. If there was
    /// not, it is not counted.
    pub fn add(&mut self, index: u32) -> bool
        ensures added { OnTrue result (self.new ≡ with_index index self.old) }
        ensures uncounted { OnFalse result (self.new.taken ≡ self.old.taken) }
    {
        let line = index_line(index);
        if self.text.push_all(line.as_str().as_bytes()).is_err() {
            return false;
        }
        self.taken = self.taken.saturating_add(1);
        true
    }

    /// Writes a citation. The answer is whether there was memory for it.
    pub fn cite(&mut self, place: u32) -> bool
        ensures cited { OnTrue result (self.new ≡ with_cite place self.old) }
        ensures uncounted { self.new.taken ≡ self.old.taken }
    {
        let line = cite_line(place);
        self.text.push_all(line.as_str().as_bytes()).is_ok()
    }
}
