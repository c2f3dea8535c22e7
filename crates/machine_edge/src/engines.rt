//! A started program as a link: the code reads what it says, and writes what it is sent. Contracts
//! cannot observe its bytes.
ghost use Rattle.std.specs.Prelude.{◌≡◌, ◌<◌, ◌+◌, ◌↔◌, IsTrue, None, refl};

use crate::games::GameCount;
use crate::patience::{Patient, moment};
use crate::streams::Counted;
use io_edge::{Link, ReadAnswer, Sink, Source, WriteAnswer};
use std::io::Eprint;
use std::os::fd::AsRawFd;
use std::process::{Child, OpenProcess};
use std::thread::sleep;
use std::time::{Clock, Duration};

/// The most bytes that are read from a program that is dropped: 1 MiB.
const MOST_PASSED: usize = 1_048_576;

/// How long a program may go on after it is dropped, in milliseconds.
const GRACE: u64 = 2_000;

/// How often the code looks within this time whether a program has ended, at least a millisecond
/// apart.
const MOST_LOOKS: u32 = 2_000;

/// A program that was started, with both ends of its pipes.
///
/// An answer of the program is read for no longer than the limit, if there is one. The time runs
/// from the first read after something was sent to the program. When it is over, a read fails.
///
/// When the program is dropped, its input is closed. What it still says is read and thrown away, up
/// to its end or to 1 MiB, so that a slow program can say its last line. Then its output is closed,
/// so that one that floods is stopped. The program has two seconds in all to end by itself. After
/// that it is killed, and its end is awaited. Programs that it has started itself are left to
/// [`Mark`].
///
/// [`Mark`]: crate::marks::Mark
pub struct Engine<'a, R: Clock + Eprint, P: OpenProcess + Drop>
where
    P::Stdout: AsRawFd,
{
    rt: &'a R,
    child: Child<P>,
    input: Counted<P::Stdin>,
    output: Counted<Patient<'a, R, P::Stdout>>,
    games: GameCount,
}

impl<'a, R: Clock + Eprint, P: OpenProcess + Drop> Engine<'a, R, P>
where
    P::Stdout: AsRawFd,
{
    /// A program with the ends of its pipes. An answer of it is read for at most this many
    /// milliseconds. The games that it is asked for are counted.
    pub(crate) fn new(
        rt: &'a R,
        child: Child<P>,
        input: P::Stdin,
        output: P::Stdout,
        limit: Option<u64>,
        games: GameCount,
    ) -> Self
        ensures reads { result.output.faults ≡ 0 }
        ensures writes { result.input.faults ≡ 0 }
        ensures limit { result.output.stream.limit ≡ limit }
    {
        Engine {
            rt,
            child,
            input: Counted::new(input),
            output: Counted::new(Patient::new(rt, output, limit)),
            games,
        }
    }

    /// Whether a read or a write has failed.
    pub(crate) fn has_failed(&self) -> bool
        ensures { IsTrue result ↔ (0 < self.now.output.faults + self.now.input.faults) }
    {
        self.output.faults() > 0 || self.input.faults() > 0
    }
}

/// Reads what is left up to its end, or to 1 MiB, and throws it away.
fn pass_over<S: Source>(output: &mut S) {
    let mut buffer = [0u8; 4096];
    let mut left = MOST_PASSED;
    while left > 0 {
        match output.read(&mut buffer) {
            ReadAnswer::Got(count) if count > 0 => left = left.saturating_sub(count),
            _ => return,
        }
    }
}

/// Whether a program ends by itself before that moment. If this cannot be found out, the answer is
/// no.
fn ends_before<R: Clock, P: OpenProcess>(rt: &R, child: &mut Child<P>, until: u64) -> bool {
    for _ in 0..MOST_LOOKS {
        match child.try_wait() {
            Ok(None) => {}
            Ok(Some(_)) => return true,
            Err(_) => return false,
        }
        match moment(rt) {
            Ok(now) if now < until => sleep(rt, Duration::from_millis(1)),
            _ => return false,
        }
    }
    false
}

/// Waits until a program has ended by itself. If it has not ended at the moment `until`, it is
/// killed.
pub(crate) fn await_end<R: Clock, P: OpenProcess + Drop>(rt: &R, mut child: Child<P>, until: u64) {
    if !ends_before(rt, &mut child, until) {
        let _ = child.kill();
    }
    let _ = child.wait();
}

/// The moment until which a program that is dropped now may go on.
pub(crate) fn end_of_grace<R: Clock>(rt: &R) -> u64 {
    match moment(rt) {
        Ok(now) => now.saturating_add(GRACE),
        Err(_) => 0,
    }
}

impl<'a, R: Clock + Eprint, P: OpenProcess + Drop> Drop for Engine<'a, R, P>
where
    P::Stdout: AsRawFd,
{
    fn drop(self) {
        let Self {
            rt,
            child,
            input,
            mut output,
            games,
        } = self;
        games.end(rt);
        drop(input);
        let until = end_of_grace(rt);
        output.allow(GRACE);
        pass_over(&mut output);
        drop(output);
        await_end(rt, child, until);
    }
}

impl<'a, R: Clock + Eprint, P: OpenProcess + Drop> Source for Engine<'a, R, P>
where
    P::Stdout: AsRawFd,
{
    ghost rest = { λ _. None };

    ghost read_faults = { λ e. e.output.faults };

    ghost source_aside = { λ e. record { bytes = None; faults = e.input.faults } };

    fn read(&mut self, buffer: &mut [u8]) -> ReadAnswer {
        self.output.read(buffer)
    }
}

impl<'a, R: Clock + Eprint, P: OpenProcess + Drop> Sink for Engine<'a, R, P>
where
    P::Stdout: AsRawFd,
{
    ghost written = { λ _. None };

    ghost write_faults = { λ e. e.input.faults };

    ghost sink_aside = { λ e. record { bytes = None; faults = e.output.faults } };

    fn write(&mut self, bytes: &[u8]) -> WriteAnswer {
        self.output.begin_answer();
        self.games.note(self.rt, bytes);
        self.input.write(bytes)
    }
}

impl<'a, R: Clock + Eprint, P: OpenProcess + Drop> Link for Engine<'a, R, P>
where
    P::Stdout: AsRawFd,
{
    ghost reading_leaves = { λ _. refl };

    ghost writing_leaves = { λ _. refl };
}
