//! The mark in the environment of a run's programs. It finds the programs that they started
//! themselves and left behind.
ghost use Rattle.std.specs.Prelude.{◌≡◌, Some, OnOk, codes, string_bytes};
ghost use Rattle.std.specs.Process.{SameOtherVars, SameProgramAndArgs, clears_env, command_var};

use crate::engines::{await_end, end_of_grace};
use std::alloc::{AllocError, Global};
use std::io;
use std::process::{Command, Processes, Stdio};
use std::random::RandomSource;
use std::time::Clock;

/// A shell program that kills every process whose starting environment has its first argument as a
/// whole entry. It looks again until it finds none, at most five times.
const SWEEP: &str = "for round in 1 2 3 4 5; do \
    found=$(grep -lszxF -e \"$1\" /proc/[0-9]*/environ); \
    [ -n \"$found\" ] || exit 0; \
    for entry in $found; do number=${entry#/proc/}; kill -KILL \"${number%/environ}\"; done; \
    done";

/// A text that no other run has. The programs of a run have it as the variable `HIVE_ENGINE` of
/// their environment. A program that they start has it too, unless they remove it.
#[derive(Drop)]
pub(crate) struct Mark {
    text: String,
}

impl Mark {
    /// A mark of 32 digits, made of random bytes of the system.
    pub(crate) fn new<R: RandomSource>(rt: &R, alloc: Global) -> io::Result<Mark> {
        let mut bytes = [0u8; 16];
        rt.fill_bytes(&mut bytes)?;
        let number = u128::from_le_bytes(bytes);
        Ok(Mark {
            text: format!(in alloc; "{number:032x}")?,
        })
    }

    /// Gives this mark to a program that is about to be started. All its other variables stay.
    pub(crate) fn put_on(&self, command: &mut Command<Global>) -> Result<(), AllocError>
        ensures marked { OnOk result (command_var command.new (codes "HIVE_ENGINE")
            ≡ Some (Some (string_bytes self.now.text))) }
        ensures others { OnOk result (SameOtherVars command.old command.new
            (codes "HIVE_ENGINE")) }
        ensures clears { OnOk result (clears_env command.new ≡ clears_env command.old) }
        ensures call { OnOk result (SameProgramAndArgs command.old command.new) }
    {
        command.env("HIVE_ENGINE", self.text.as_str())?;
        Ok(())
    }

    /// Kills everything that still runs with this mark, within two seconds. If the system has no
    /// `sh`, no `grep` or no `/proc`, it does nothing.
    pub(crate) fn sweep<R: Processes + Clock>(&self, rt: &R, alloc: Global) -> io::Result<()> {
        let sought = format!(in alloc; "HIVE_ENGINE={}", self.text)?;
        let mut command = sweeper(alloc, sought.as_str())?;
        run_quietly(rt, &mut command)
    }
}

/// The shell command that kills every process with this variable.
fn sweeper(alloc: Global, variable: &str) -> Result<Command<Global>, AllocError> {
    let mut command = Command::new(alloc, "sh")?;
    command.args(["-c", SWEEP, "sh", variable])?;
    Ok(command)
}

/// Starts a command that neither reads nor writes, and awaits its end for at most two seconds.
fn run_quietly<R: Processes + Clock>(rt: &R, command: &mut Command<Global>) -> io::Result<()> {
    let until = end_of_grace(rt);
    let child = command
        .stdin(Stdio::null())
        .stdout(Stdio::null())
        .stderr(Stdio::null())
        .spawn(rt)?;
    await_end(rt, child, until);
    Ok(())
}
