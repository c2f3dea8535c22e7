//! Starts programs of the system.
ghost use Rattle.std.specs.Prelude.{
  ◌≡◌,
  ◌≢◌,
  ◌<◌,
  ℕ,
  List,
  None,
  Some,
  IfOk,
  codes,
  false,
  length,
  string_bytes,
};
ghost use Rattle.std.specs.Process.{clears_env, command_var};

use crate::engines::Engine;
use crate::games::GameCount;
use crate::marks::Mark;
use io_edge::{Spawner, StartFault};
use std::alloc::{AllocError, Global};
use std::io::{self, Eprint};
use std::marker::Model;
use std::os::fd::AsRawFd;
use std::process::{Child, Command, OpenProcess, Processes, Stdio};
use std::random::RandomSource;
use std::time::Clock;

/// Starts programs of the system. Contracts can observe neither their words nor what they say or
/// are sent.
///
/// Its programs have a mark in their environment. When the starter is dropped, after all of its
/// programs, that mark serves to kill what they started themselves and left behind.
///
/// Contracts see how its programs are treated, how many starts have failed, and how many of the
/// closed programs had failed in a call.
pub struct Programs<'a, R: Processes + Clock> {
    rt: &'a R,
    alloc: Global,
    mark: Option<Mark>,
    limit: Option<u64>,
    quiet: bool,
    counts_games: bool,
    start_faults: u64,
    engine_faults: u64,
}

impl<'a, R: Processes + Clock> Model for Programs<'a, R> {
    ghost use Rattle.machine_edge.specs.States.{StarterState};

    ghost Value = { StarterState };

    ghost view = { λ s. record {
      limit = s.limit;
      quiet = s.quiet;
      counts_games = s.counts_games;
      start_faults = s.start_faults;
      engine_faults = s.engine_faults;
    } };
}

impl<'a, R: Processes + Clock> Programs<'a, R> {
    /// A starter with no failed start and no closed program. An answer of each of its programs is
    /// read for at most this many milliseconds, if there is a limit. If it is quiet, what the
    /// programs write to standard error is thrown away. The games that they are asked for may be
    /// counted on standard error.
    pub fn new(
        rt: &'a R,
        alloc: Global,
        limit: Option<u64>,
        quiet: bool,
        counts_games: bool,
    ) -> Self
        ensures { result ≡ record {
          limit = limit;
          quiet = quiet;
          counts_games = counts_games;
          start_faults = 0;
          engine_faults = 0;
        } }
    {
        Programs {
            rt,
            alloc,
            mark: None,
            limit,
            quiet,
            counts_games,
            start_faults: 0,
            engine_faults: 0,
        }
    }
}

impl<'a, R: Processes + Clock> Drop for Programs<'a, R> {
    fn drop(self) {
        let Self {
            rt,
            alloc,
            mark,
            limit: _,
            quiet: _,
            counts_games: _,
            start_faults: _,
            engine_faults: _,
        } = self;
        if let Some(mark) = mark {
            // if nothing can be started, nothing more can be done
            let _ = mark.sweep(rt, alloc);
        }
    }
}

/// The mark of a starter, which is made if it has none yet.
fn mark_in<'m, R: RandomSource>(
    rt: &R,
    alloc: Global,
    kept: &'m mut Option<Mark>,
) -> io::Result<&'m Mark> {
    let mark = match kept.take() {
        Some(mark) => mark,
        None => Mark::new(rt, alloc)?,
    };
    Ok(kept.insert(mark))
}

/// Where a program's standard error goes.
fn errors_go(quiet: bool) -> Stdio {
    if quiet {
        Stdio::null()
    } else {
        Stdio::inherit()
    }
}

/// The program that the first word names, to be started with the other words as its arguments. Its
/// environment is that of this process, plus this mark.
fn command_of(alloc: Global, mark: &Mark, words: &[String]) -> Result<Command<Global>, AllocError>
    requires { 0 < length words.now }
    ensures inherits { IfOk result (λ c. clears_env c ≡ false) }
    ensures marked { IfOk result (λ c. command_var c (codes "HIVE_ENGINE")
        ≡ Some (Some (string_bytes mark.now.text))) }
    ensures others { IfOk result (λ c. (name : List ℕ) → name ≢ codes "HIVE_ENGINE"
        → command_var c name ≡ None) }
{
    let mut command = Command::new(alloc, words[0].as_str())?;
    command.args(words[1..].iter())?;
    mark.put_on(&mut command)?;
    Ok(command)
}

/// A program that was started over pipes, as a link.
fn engine_over<'a, R: Clock + Eprint, P: OpenProcess + Drop>(
    rt: &'a R,
    mut child: Child<P>,
    limit: Option<u64>,
    counts_games: bool,
) -> io::Result<Engine<'a, R, P>>
where
    P::Stdout: AsRawFd,
    ensures reads { IfOk result (λ e. e.output.faults ≡ 0) }
    ensures writes { IfOk result (λ e. e.input.faults ≡ 0) }
{
    match child.stdin.take().zip(child.stdout.take()) {
        Some((input, output)) => {
            let games = GameCount::new(counts_games);
            Ok(Engine::new(rt, child, input, output, limit, games))
        }
        None => Err(io::Error::from(io::ErrorKind::BrokenPipe)),
    }
}

/// Starts a program over pipes.
fn start_piped<'a, R: Processes + Clock + Eprint>(
    rt: &'a R,
    command: &mut Command<Global>,
    limit: Option<u64>,
    quiet: bool,
    counts_games: bool,
) -> io::Result<Engine<'a, R, R::Started>>
where
    <R::Started as OpenProcess>::Stdout: AsRawFd,
    ensures reads { IfOk result (λ e. e.output.faults ≡ 0) }
    ensures writes { IfOk result (λ e. e.input.faults ≡ 0) }
{
    let child = command
        .stdin(Stdio::piped())
        .stdout(Stdio::piped())
        .stderr(errors_go(quiet))
        .spawn(rt)?;
    engine_over(rt, child, limit, counts_games)
}

/// Starts the program that the first word names over pipes, with the other words as its arguments
/// and with this mark.
fn start_program<'a, R: Processes + Clock + Eprint>(
    rt: &'a R,
    alloc: Global,
    mark: &Mark,
    limit: Option<u64>,
    quiet: bool,
    counts_games: bool,
    words: &[String],
) -> io::Result<Engine<'a, R, R::Started>>
where
    <R::Started as OpenProcess>::Stdout: AsRawFd,
    requires { 0 < length words.now }
    ensures reads { IfOk result (λ e. e.output.faults ≡ 0) }
    ensures writes { IfOk result (λ e. e.input.faults ≡ 0) }
{
    let mut command = command_of(alloc, mark, words)?;
    start_piped(rt, &mut command, limit, quiet, counts_games)
}

impl<'a, R: Processes + Clock + RandomSource + Eprint + Sync> Spawner for Programs<'a, R>
where
    R::Started: Send,
    <R::Started as OpenProcess>::Stdin: Send,
    <R::Started as OpenProcess>::Stdout: AsRawFd + Send,
    <R::Started as OpenProcess>::Stderr: Send,
{
    type Engine = Engine<'a, R, R::Started>;

    ghost engines = { λ s. record {
      to_come = None;
      sent = None;
      started = None;
      start_faults = s.start_faults;
      engine_faults = s.engine_faults;
    } };

    fn start(&mut self, words: &[String]) -> Result<Engine<'a, R, R::Started>, StartFault> {
        let started = match mark_in(self.rt, self.alloc, &mut self.mark) {
            Ok(mark) => start_program(
                self.rt,
                self.alloc,
                mark,
                self.limit,
                self.quiet,
                self.counts_games,
                words,
            ),
            Err(error) => Err(error),
        };
        match started {
            Ok(engine) => Ok(engine),
            Err(error) if error.kind() == io::ErrorKind::OutOfMemory => Err(StartFault::Memory),
            Err(_) => {
                self.start_faults = self.start_faults.saturating_add(1);
                Err(StartFault::Failed)
            }
        }
    }

    fn close(&mut self, engine: Engine<'a, R, R::Started>) {
        if engine.has_failed() {
            self.engine_faults = self.engine_faults.saturating_add(1);
        }
        drop(engine);
    }
}
