//! The adapters over the system itself.
ghost use Rattle.std.specs.Prelude.{◌<◌, length};

use io_edge::{Clock, ReadAnswer, Source, Spawner, StartFault, write_all};
use machine_edge::{MachineClock, Programs};
use std::test::Fail;
use std::thread;
use std::time::Duration;

#[test]
fn a_clock_never_goes_back(rt: HostRuntime) {
    let mut clock = MachineClock::new(&rt);
    let first = clock.now();
    let second = clock.now();
    assert!(rt; 0 < first && first <= second);
}

#[test]
fn a_clock_counts_milliseconds(rt: HostRuntime) {
    let mut clock = MachineClock::new(&rt);
    let before = clock.now();
    thread::sleep(&rt, Duration::from_millis(60));
    let passed = clock.now().saturating_sub(before);
    // a busy machine may sleep longer, but not a hundred times
    assert!(rt; 60 <= passed && passed < 6_000, "{passed}");
}

/// The first 20 bytes that a program with these words says, or that it did not start. It and what
/// it has started are let go.
fn said_by(rt: &HostRuntime, words: &[String]) -> Result<String, Fail>
    requires { 0 < length words.now }
{
    let mut programs = Programs::new(rt, rt.alloc(), None, false, false);
    let mut said = String::new(rt.alloc());
    let Ok(mut engine) = programs.start(words) else {
        return Ok(String::from_str(rt.alloc(), "not started")?);
    };
    for _ in 0..20 {
        let mut byte = [0u8; 1];
        match engine.read(&mut byte) {
            ReadAnswer::Got(_) => said.push(char::from(byte[0]))?,
            ReadAnswer::End | ReadAnswer::Failed => break,
        }
    }
    programs.close(engine);
    Ok(said)
}

/// What the shell says with this program and this word.
fn said_by_shell(rt: &HostRuntime, program: &str, word: &str) -> Result<String, Fail> {
    let words = [
        String::from_str(rt.alloc(), "sh")?,
        String::from_str(rt.alloc(), "-c")?,
        String::from_str(rt.alloc(), program)?,
        String::from_str(rt.alloc(), word)?,
    ];
    said_by(rt, &words)
}

#[test]
fn a_program_gets_its_words(rt: HostRuntime) -> Result<(), Fail> {
    let words = [
        String::from_str(rt.alloc(), "sh")?,
        String::from_str(rt.alloc(), "-c")?,
        String::from_str(rt.alloc(), "printf '%s,' \"$0\" \"$@\"")?,
        String::from_str(rt.alloc(), "x")?,
        String::from_str(rt.alloc(), "y")?,
        String::from_str(rt.alloc(), "")?,
        String::from_str(rt.alloc(), "a b")?,
    ];
    let said = said_by(&rt, &words)?;
    assert_eq!(rt; said.as_str(), "x,y,,a b,");
    Ok(())
}

#[test]
fn a_program_gets_the_environment_and_a_mark(rt: HostRuntime) -> Result<(), Fail> {
    let asks = "printf '%s,%s' \"${PATH:+there}\" \"${#HIVE_ENGINE}\"";
    assert_eq!(rt; said_by_shell(&rt, asks, "")?.as_str(), "there,32");
    Ok(())
}

#[test]
fn what_a_program_leaves_behind_is_ended(rt: HostRuntime) -> Result<(), Fail> {
    // it leaves the input and the output of the shell alone
    let leaves = "sleep 1000 >/dev/null 2>&1 </dev/null & printf '%s' $!";
    let left = said_by_shell(&rt, leaves, "")?;
    let looks = "tr -d '\\0' </proc/$0/cmdline 2>/dev/null; printf .";
    assert_eq!(rt; said_by_shell(&rt, looks, left.as_str())?.as_str(), ".");
    Ok(())
}

#[test]
fn a_program_answers_and_is_let_go(rt: HostRuntime) -> Result<(), Fail> {
    let mut programs = Programs::new(&rt, rt.alloc(), None, false, false);
    let words = [String::from_str(rt.alloc(), "cat")?];
    let Ok(mut engine) = programs.start(&words) else {
        assert!(rt; false, "a start that was to succeed");
        return Ok(());
    };
    assert!(rt; write_all(&mut engine, b"ok\n".as_slice()));
    let mut buffer = [0u8; 8];
    assert_eq!(rt; engine.read(&mut buffer), ReadAnswer::Got(3));
    assert_eq!(rt; buffer.as_slice(), b"ok\n\0\0\0\0\0".as_slice());
    programs.close(engine);
    Ok(())
}

#[test]
fn a_flood_ends(rt: HostRuntime) -> Result<(), Fail> {
    let mut programs = Programs::new(&rt, rt.alloc(), None, false, false);
    let words = [String::from_str(rt.alloc(), "yes")?];
    match programs.start(&words) {
        Ok(engine) => programs.close(engine),
        Err(_) => assert!(rt; false, "a start that was to succeed"),
    }
    Ok(())
}

#[test]
fn a_missing_program_is_refused(rt: HostRuntime) -> Result<(), Fail> {
    let mut programs = Programs::new(&rt, rt.alloc(), None, false, false);
    let words = [String::from_str(rt.alloc(), "/no/such/program")?];
    match programs.start(&words) {
        Ok(_) => assert!(rt; false, "a start that was to fail"),
        Err(fault) => assert_eq!(rt; fault, StartFault::Failed),
    }
    Ok(())
}

#[test]
fn a_silent_program_is_given_up(rt: HostRuntime) -> Result<(), Fail> {
    let mut programs = Programs::new(&rt, rt.alloc(), Some(100), false, false);
    let words = [
        String::from_str(rt.alloc(), "sleep")?,
        String::from_str(rt.alloc(), "1000")?,
    ];
    let Ok(mut engine) = programs.start(&words) else {
        assert!(rt; false, "a start that was to succeed");
        return Ok(());
    };
    let mut buffer = [0u8; 8];
    assert_eq!(rt; engine.read(&mut buffer), ReadAnswer::Failed);
    programs.close(engine);
    Ok(())
}
