//! The program `hive`: a Hive engine that speaks the Universal Hive Protocol on standard input and
//! output.
//!
//! Its exit code is the number of the status of its run. If the run could not be done, one line on
//! standard error says why.
#![tactic(auto)]

ghost use Rattle.std.specs.Prelude.{◌≡◌, ◌≢◌, ◌⊎◌, drop, map, option_map, string_bytes};
ghost use Rattle.command_words.specs.Words.{AreOfNoCommand, TakeOption};
ghost use Rattle.hive.specs.Audits.{begin_with_audit};
ghost use Rattle.hive.specs.Complaints.{complaint};
ghost use Rattle.hive.specs.Notices.{is_at_depth, repeats};

use command_runs::Status;
use command_words::{Asked, asked_of, care_of};
use hive_cli::run;
use libc::{STDERR_FILENO, isatty};
use machine_edge::{Counted, MachineClock, Programs};
use machine_hall::Hall;
use match_core::Level;
use std::env::Env;
use std::io::{Eprint, ErrorKind};
use std::os::fd::AsRawFd;
use std::process::{ExitCode, OpenProcess, Processes};
use std::random::RandomSource;
use std::thread::Threads;
use std::{env, io, time};

/// What standard error says if the games of a tournament will repeat.
const REPEATS: &str = "hive: engines that answer alike play the same games in each round";

/// The status of a run that cannot get its words, because memory ran out or a word is not UTF-8.
fn status_of(kind: ErrorKind) -> Status
    ensures memory { kind ≡ ErrorKind.OutOfMemory → result ≡ Status.Memory }
    ensures usage { kind ≢ ErrorKind.OutOfMemory → result ≡ Status.Usage }
{
    match kind {
        ErrorKind::OutOfMemory => Status::Memory,
        _ => Status::Usage,
    }
}

/// The words of the command line without the first, which is the program's name.
fn without_name(mut words: Vec<String>) -> Vec<String>
    ensures { result.items ≡ drop 1 words.items }
{
    if !words.is_empty() {
        words.remove(0);
    }
    words
}

/// The words of the command line after the program's name, or the status of a run that cannot get
/// them.
fn words<R: Env + AllocGlobal>(rt: &R) -> Result<Vec<String>, Status> {
    let all = env::args(rt).map_err(|error| status_of(error.kind()))?;
    let words = all.collect(rt.alloc()).map_err(|_| Status::Memory)?;
    Ok(without_name(words))
}

/// Whether the words ask for an audit, which the first one says.
fn is_audit(words: &[String]) -> bool
    ensures { result ≡ begin_with_audit (map string_bytes words.now) }
{
    match words {
        [] => false,
        [word, ..] => word.as_str() == "audit",
    }
}

/// Whether engines are asked to a depth, and not in a time.
fn is_at_depth(level: Level) -> bool
    ensures { result ≡ is_at_depth level }
{
    match level {
        Level::Depth { .. } => true,
        Level::Time { .. } => false,
    }
}

/// Whether a tournament is asked for in which engines that answer alike repeat their games.
fn repeats(asked: Asked) -> bool
    ensures { result ≡ repeats asked }
{
    match asked {
        Asked::Tournament { setup, rounds, .. } => is_at_depth(setup.level) && rounds > 1,
        _ => false,
    }
}

/// Says on standard error that the games of a tournament will repeat, if they will.
fn announce<R: Eprint + AllocGlobal>(rt: &R, words: &[String]) {
    // a run without memory says so itself
    if let Ok(Some(asked)) = asked_of(rt.alloc(), words) {
        if repeats(asked) {
            let _ = rt.eprintln(REPEATS);
        }
    }
}

/// Whether standard error is a terminal.
fn is_terminal() -> bool {
    isatty(STDERR_FILENO) == 1
}

/// Runs over standard input and output, the machine's clock, and programs of the system. Standard
/// error shows the progress of a tournament and, if it is a terminal, of an audit.
fn run_on_streams<
    R: Input
        + Print
        + Eprint
        + AllocGlobal
        + Threads
        + Sync
        + time::Clock
        + Processes
        + RandomSource,
>(rt: &R, words: &[String]) -> Status
where
    R::Started: Send,
    <R::Started as OpenProcess>::Stdin: Send,
    <R::Started as OpenProcess>::Stdout: AsRawFd + Send,
    <R::Started as OpenProcess>::Stderr: Send,
    ensures usage { result ≡ Status.Usage → AreOfNoCommand words.now }
    ensures refused { AreOfNoCommand words.now → (result ≡ Status.Usage) ⊎
        (result ≡ Status.Memory) }
    ensures exact { AreOfNoCommand words.now → ¬ TakeOption (map string_bytes words.now) → result
        ≡ Status.Usage }
{
    let Ok(care) = care_of(rt.alloc(), words) else {
        return Status::Memory;
    };
    let mut input = Counted::new(rt.reader());
    let mut output = Counted::new(io::writer(rt));
    let mut clock = MachineClock::new(rt);
    let is_terminal = is_terminal();
    let hall = Hall::new(rt, rt.alloc(), is_terminal);
    let counts_games = is_terminal && is_audit(words);
    let mut spawner = Programs::new(rt, rt.alloc(), care.limit, care.quiet, counts_games);
    announce(rt, words);
    let outcome = run(
        rt,
        rt.alloc(),
        words,
        &mut input,
        &mut output,
        &mut clock,
        &mut spawner,
        &hall,
    );
    outcome.status
}

/// Why a run could not be done, for standard error.
fn complaint(status: Status) -> Option<&'static str>
    ensures { option_map (λ text. text.now) result ≡ complaint status }
{
    match status {
        Status::Usage => Some("hive: wrong command line"),
        Status::ReadFault => Some("hive: input failed"),
        Status::WriteFault => Some("hive: output failed"),
        Status::SpawnFault => Some("hive: an engine could not be started"),
        Status::Memory => Some("hive: out of memory"),
        Status::InputFull => Some("hive: input too long"),
        Status::Done | Status::Refused | Status::BadInput => None,
    }
}

fn main(rt: HostRuntime) -> ExitCode {
    let status = match words(&rt) {
        Ok(words) => run_on_streams(&rt, words.as_slice()),
        Err(status) => status,
    };
    if let Some(text) = complaint(status) {
        // if standard error fails too, only the status reports it
        let _ = rt.eprintln(text);
    }
    ExitCode::from(status.code())
}
