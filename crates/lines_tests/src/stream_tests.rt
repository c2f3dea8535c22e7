//! The streams over a reader and a writer that answer as they are told, and which lines begin a
//! game.
ghost use Rattle.std.specs.Prelude.{◌≤◌, IfOk};

use io_edge::{ReadAnswer, Sink, Source, WriteAnswer};
use machine_edge::{Counted, begins_game};
use std::io;
use std::io::{Read, Write};
use std::sync::atomic::{AtomicU64, Ordering};

/// Answers each read and each write with this number of bytes, or fails; it counts how often it is
/// flushed.
#[derive(Drop)]
struct Told<'a> {
    answer: Option<usize>,
    flushed: &'a AtomicU64,
}

impl<'a> Told<'a> {
    fn answer(&self, most: usize) -> io::Result<usize>
        ensures { IfOk result (λ n. n ≤ most) }
    {
        match self.answer {
            Some(count) => Ok(count.min(most)),
            None => Err(io::Error::from(io::ErrorKind::Other)),
        }
    }
}

impl<'a> Read for Told<'a> {
    fn read(&mut self, buf: &mut [u8]) -> io::Result<usize> {
        self.answer(buf.len())
    }
}

impl<'a> Write for Told<'a> {
    fn write(&mut self, buf: &[u8]) -> io::Result<usize> {
        self.answer(buf.len())
    }

    fn flush(&mut self) -> io::Result<()> {
        self.flushed.fetch_add(1, Ordering::SeqCst);
        Ok(())
    }
}

#[test]
fn streams_answer_as_their_ends(rt: HostRuntime) {
    let flushed = AtomicU64::new(0);
    for (answer, read, write) in [
        (Some(2), ReadAnswer::Got(2), WriteAnswer::Took(2)),
        (Some(0), ReadAnswer::End, WriteAnswer::Failed),
        (None, ReadAnswer::Failed, WriteAnswer::Failed),
    ] {
        let mut input = Counted::new(Told {
            answer,
            flushed: &flushed,
        });
        let mut output = Counted::new(Told {
            answer,
            flushed: &flushed,
        });
        let mut buffer = [0u8; 8];
        assert_eq!(rt; input.read(&mut buffer), read);
        assert_eq!(rt; output.write(b"text".as_slice()), write);
    }
    assert_eq!(rt; flushed.load(Ordering::SeqCst), 2);
}

#[test]
fn a_game_begins_where_a_type_is_asked_for(rt: HostRuntime) {
    assert!(rt; begins_game(b"newgame Base+MLP\n"));
    assert!(rt; !begins_game(b"newgame Base;InProgress;Black[1];wS1\n"));
    assert!(rt; !begins_game(b"play wS1\n"));
}
