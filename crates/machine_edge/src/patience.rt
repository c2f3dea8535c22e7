//! The output of a program, read for no longer than a limit.
ghost use Rattle.std.specs.Prelude.{◌≡◌, None, Some};

use libc::net::{POLLIN, poll};
use libc::types::pollfd;
use std::io;
use std::io::Read;
use std::os::fd::{AsRawFd, RawFd};
use std::time::Clock;

/// The longest wait that the system is asked for at once, in milliseconds.
const LONGEST_WAIT: u64 = 1_000_000_000;

/// How often a wait is resumed after a signal has ended it.
const MOST_WAITS: u32 = 10_000;

/// The milliseconds of a clock that never goes back.
pub(crate) fn moment<R: Clock>(rt: &R) -> io::Result<u64> {
    let reading = rt.monotonic()?;
    Ok(u64::try_from(reading.as_millis()).unwrap_or(u64::MAX))
}

/// Waits until a read of this descriptor answers at once, or for this many milliseconds. It may end
/// earlier. It says whether a read answers at once.
fn wait_once(pipe: RawFd, milliseconds: u64) -> bool {
    let mut asked = [pollfd {
        fd: pipe,
        events: POLLIN,
        revents: 0,
    }];
    let longest = i32::try_from(milliseconds.min(LONGEST_WAIT)).unwrap_or(0);
    poll(&mut asked, longest) > 0
}

/// A pipe that is read for no longer than a limit, which covers all reads of one answer together.
///
/// The time runs from the first read after the pipe was made, or after the last call of
/// `begin_answer` or `allow`. When it is over, a read fails. Without a limit a read waits.
#[derive(Drop)]
pub(crate) struct Patient<'a, R: Clock, S> {
    rt: &'a R,
    pipe: S,
    limit: Option<u64>,
    until: Option<u64>,
}

impl<'a, R: Clock, S> Patient<'a, R, S> {
    /// A pipe that is read for this many milliseconds an answer, or without a limit.
    pub(crate) fn new(rt: &'a R, pipe: S, limit: Option<u64>) -> Self
        ensures limit { result.limit ≡ limit }
        ensures until { result.until ≡ None }
    {
        Patient {
            rt,
            pipe,
            limit,
            until: None,
        }
    }

    /// The next read begins another answer.
    pub(crate) fn begin_answer(&mut self)
        ensures limit { self.new.limit ≡ self.old.limit }
        ensures until { self.new.until ≡ None }
    {
        self.until = None;
    }

    /// From the next read on, the pipe is read for this many milliseconds in all.
    pub(crate) fn allow(&mut self, limit: u64)
        ensures limit { self.new.limit ≡ Some limit }
        ensures until { self.new.until ≡ None }
    {
        self.limit = Some(limit);
        self.until = None;
    }
}

impl<'a, R: Clock, S: AsRawFd> Patient<'a, R, S> {
    /// Waits until a read answers at once. It fails when this many milliseconds have passed since
    /// the answer's first read.
    fn wait(&mut self, limit: u64) -> io::Result<()> {
        for _ in 0..MOST_WAITS {
            let now = moment(self.rt)?;
            let until = *self.until.get_or_insert(now.saturating_add(limit));
            let left = until.saturating_sub(now);
            if wait_once(self.pipe.as_raw_fd(), left) {
                return Ok(());
            }
            if left == 0 {
                break;
            }
        }
        Err(io::Error::from(io::ErrorKind::TimedOut))
    }
}

impl<'a, R: Clock, S: Read + AsRawFd> Read for Patient<'a, R, S> {
    fn read(&mut self, buf: &mut [u8]) -> io::Result<usize> {
        if let Some(limit) = self.limit {
            self.wait(limit)?;
        }
        self.pipe.read(buf)
    }
}
