//! The program, over any source, sink, clock and starter of programs. It does what the words of its
//! command line ask for.
#![tactic(auto)]

ghost use Rattle.std.specs.Prelude.{◌≡◌, ◌⊎◌, [], map, string_bytes};
ghost use Rattle.io_edge.specs.Outside.{HasCause};
ghost use Rattle.io_edge.specs.Starts.{Engines};
ghost use Rattle.command_words.specs.Words.{AreOfNoCommand, IsInRange, TakeOption, Words};
ghost use Rattle.command_runs.specs.World.{sides, times, world};
ghost use Rattle.hive_cli.specs.Run.{GoesOnUnstarted, Never, RunOf, UsesClock, UsesSpawner};
ghost use Rattle.command_words.specs.declared.asked.Asked.{Asked};

mod contests;
mod outcome;

use crate::contests::{audited, contested, cupped, matched};
use book_command::book;
use certificate_commands::{certify, check, migrate};
pub use command_runs::Status;
pub use command_words::Asked;
use command_words::asked_of;
use count_command::{count_shared, split};
use fast_game::FastGame;
use grow_command::grow;
use hive_model::{Game, TimedList};
use io_edge::{Clock, Sink, Source, Spawner};
use line_services::{serve_replay, serve_session};
pub use outcome::Outcome;
use std::alloc::Global;
use std::thread::Threads;
use tournament_command::Format;
use tournament_edge::{Clocks, Progress};
use win_commands::{solve, verify};

/// The game type that the program runs on.
type ProgramGame = FastGame;

/// Does what the words of the command line ask for. They do not include the program's name.
///
/// No word, or the word `uhp`, asks for a session of the Universal Hive Protocol. The greeting is
/// written, and then the reply to each line of the input before the next line is read. It is `Done`
/// once a line ends the run or the input ends. The first read or write that fails ends it with
/// `ReadFault` or `WriteFault`. An input of 1,099,511,627,776 bytes or more ends it with
/// `InputFull`, and running out of memory with `Memory`. What was written until then stays.
///
/// A line of a session may ask for the best move in a time. It is answered at the last depth, from
/// 1 to 64, that its search has completed. One entry of `timed` describes the search: the line's
/// budget, that depth, and the first and the last reading of the clock. The entries are in the
/// order of these lines, and the searches do not overlap. Fewer than 64 plies are searched only if
/// the budget was over at the last reading. The clock is read for nothing else. If memory ran out,
/// the search of the last line has no entry.
///
/// The word `replay` asks for a replay: each line of the input is answered by one line before the
/// next line is read. If it is a game string, of a finished game too, the answer is the written
/// form of its game. Otherwise it is `refused` and the reason. With `--repetition 1` a position
/// that occurs for the third time ends its game with a draw. The run goes on after a refusal. At
/// the end of the input it is `Refused` if a line was refused, and otherwise `Done`. Failures, a
/// full input and running out of memory end it as they end a session.
///
/// The words `count` and `--plies N`, or `--plies=N`, with N from 1 to 8, ask for counts. The input
/// must be one line, a game string of a game that is not over. Once it was read to its end, a line
/// is written for each n from 1 to N, as soon as it is known. It has n, a space, and the number of
/// lists of n legal moves that the game can go on with. It is then `Done`.
///
/// If the input is something else, it is `BadInput`, and one line that begins with `bad` says why.
/// That line is written as soon as the fault is seen, and nothing further is read. If a read fails,
/// the input is full or memory runs out, the run ends with nothing written.
///
/// With `--workers W` the moves are counted by 1 to 16 workers at once, if threads can be had. The
/// text is the same, whatever W is. With `--split 1` the parts of the counts are written in their
/// place: games with one more move, each with a number. The counts of the parts, each times its
/// number, add up to those of the game.
///
/// The word `book` asks for the move of a position that was made most often. The first line of the
/// input must be a game string of a game that is not over, and each further line a game string. It
/// is `Done` once one line was written, and otherwise `BadInput`, like `count`.
///
/// The other commands are those of `grow_command`, `certificate_commands`, `win_commands`,
/// `match_command`, `cup_command`, `tournament_command` and `audit_command`, which describe them.
/// With `--from 1` a match reads the game that it begins with, as `count` reads its game, before it
/// starts a program. Without it a match does not read the input. If the starter's starts are
/// observable, the programs of a match, cup, tournament or audit are those that its words name. A
/// tournament shows its progress in its hall, which also has a clock for each of its games.
///
/// Every other list of words is `Usage`, and nothing is read or written. If its first word names a
/// command that takes an option, it is `Memory` if memory runs out before this is known.
pub fn run<
    R: Threads + Sync,
    S: Source,
    K: Sink,
    C: Clock,
    P: Spawner,
    H: Clocks + Progress + Sync,
>(
    rt: &R,
    alloc: Global,
    words: &[String],
    input: &mut S,
    output: &mut K,
    clock: &mut C,
    spawner: &mut P,
    hall: &H,
) -> Outcome
    ensures usage { result.status ≡ Status.Usage → AreOfNoCommand words.now }
    ensures refused { AreOfNoCommand words.now → (result.status ≡ Status.Usage)
        ⊎ (result.status ≡ Status.Memory) }
    ensures exact { AreOfNoCommand words.now → ¬ TakeOption (map string_bytes words.now)
        → result.status ≡ Status.Usage }
    ensures unread { AreOfNoCommand words.now → input.new ≡ input.old }
    ensures unwritten { AreOfNoCommand words.now → output.new ≡ output.old }
    ensures untimed { AreOfNoCommand words.now → result.timed ≡ [] }
    ensures does { (asked : Asked) → Words words.now asked → RunOf words.now asked result.status
        (world (sides (S.rest input.old) (K.written output.old))
        (times (C.last clock.old) (C.readings clock.old) []) (P.engines spawner.old))
        (world (sides (S.rest input.new) (K.written output.new))
        (times (C.last clock.new) (C.readings clock.new) result.timed) (P.engines spawner.new)) }
    ensures reads { HasCause (result.status ≡ Status.ReadFault) (S.read_faults input.old)
        (S.read_faults input.new) }
    ensures writes { HasCause (result.status ≡ Status.WriteFault) (K.write_faults output.old)
        (K.write_faults output.new) }
    ensures starts { Never words.now GoesOnUnstarted → HasCause
        (result.status ≡ Status.SpawnFault)
        (P.engines spawner.old).start_faults (P.engines spawner.new).start_faults }
    ensures clock { Never words.now UsesClock → clock.new ≡ clock.old }
    ensures spawner { Never words.now UsesSpawner → spawner.new ≡ spawner.old }
{
    let timed = TimedList::new(alloc);
    match asked_of(alloc, words) {
        Ok(Some(asked)) => run_command::<R, S, K, C, P, H, ProgramGame>(
            rt, alloc, words, asked, input, output, clock, spawner, hall, timed,
        ),
        Ok(None) => Outcome {
            status: Status::Usage,
            timed,
        },
        Err(_) => Outcome {
            status: Status::Memory,
            timed,
        },
    }
}

/// Does what the words ask for.
fn run_command<
    R: Threads + Sync,
    S: Source,
    K: Sink,
    C: Clock,
    P: Spawner,
    H: Clocks + Progress + Sync,
    G: Game + Send + Drop,
>(
    rt: &R,
    alloc: Global,
    words: &[String],
    asked: Asked,
    input: &mut S,
    output: &mut K,
    clock: &mut C,
    spawner: &mut P,
    hall: &H,
    timed: TimedList,
) -> Outcome
    requires asked { Words words.now asked }
    requires range { IsInRange asked }
    ensures does { RunOf words.now asked result.status
        (world (sides (S.rest input.old) (K.written output.old))
        (times (C.last clock.old) (C.readings clock.old) timed) (P.engines spawner.old))
        (world (sides (S.rest input.new) (K.written output.new))
        (times (C.last clock.new) (C.readings clock.new) result.timed) (P.engines spawner.new)) }
    ensures reads { HasCause (result.status ≡ Status.ReadFault) (S.read_faults input.old)
        (S.read_faults input.new) }
    ensures writes { HasCause (result.status ≡ Status.WriteFault) (K.write_faults output.old)
        (K.write_faults output.new) }
    ensures starts { ¬ GoesOnUnstarted asked → HasCause (result.status ≡ Status.SpawnFault)
        (P.engines spawner.old).start_faults (P.engines spawner.new).start_faults }
    ensures clock { ¬ UsesClock asked → clock.new ≡ clock.old }
    ensures spawner { ¬ UsesSpawner asked → spawner.new ≡ spawner.old }
{
    match asked {
        Asked::Match { setup, from } => Outcome {
            status: matched::<S, K, C, P, G>(
                alloc, words, setup, from, input, output, clock, spawner,
            ),
            timed,
        },
        Asked::Cup(setup) => Outcome {
            status: cupped::<R, K, P, G>(rt, alloc, words, setup, output, spawner),
            timed,
        },
        Asked::Audit(audit) => Outcome {
            status: audited::<K, P, G>(alloc, words, audit, output, spawner),
            timed,
        },
        Asked::Tournament {
            setup,
            rounds,
            gauntlet,
            at_once,
            resume,
        } => {
            let format = Format {
                setup,
                rounds,
                gauntlet,
                at_once,
                resume,
            };
            Outcome {
                status: contested::<R, S, K, P, H, G>(
                    rt, alloc, words, format, input, output, spawner, hall,
                ),
                timed,
            }
        }
        other => {
            run_alone::<R, S, K, C, G>(rt, alloc, words, other, input, output, clock, timed)
        }
    }
}

/// Does what is asked for, if it is not a match, cup, tournament or audit.
fn run_alone<R: Threads + Sync, S: Source, K: Sink, C: Clock, G: Game + Send + Drop>(
    rt: &R,
    alloc: Global,
    words: &[String],
    asked: Asked,
    input: &mut S,
    output: &mut K,
    clock: &mut C,
    mut timed: TimedList,
) -> Outcome
    requires alone { ¬ UsesSpawner asked }
    requires range { IsInRange asked }
    ensures does { (engines : Engines) → RunOf words.now asked result.status
        (world (sides (S.rest input.old) (K.written output.old))
        (times (C.last clock.old) (C.readings clock.old) timed) engines)
        (world (sides (S.rest input.new) (K.written output.new))
        (times (C.last clock.new) (C.readings clock.new) result.timed) engines) }
    ensures reads { HasCause (result.status ≡ Status.ReadFault) (S.read_faults input.old)
        (S.read_faults input.new) }
    ensures writes { HasCause (result.status ≡ Status.WriteFault) (K.write_faults output.old)
        (K.write_faults output.new) }
    ensures clock { ¬ UsesClock asked → clock.new ≡ clock.old }
{
    let status = match asked {
        Asked::Session => serve_session(rt, alloc, input, output, clock, &mut timed),
        Asked::Replay { repetition } => {
            serve_replay::<R, S, K, C, G>(rt, alloc, repetition, input, output, clock, &mut timed)
        }
        Asked::Count {
            plies,
            workers,
            split: is_split,
        } => {
            if is_split {
                split::<S, K, G>(alloc, input, output)
            } else {
                count_shared::<R, S, K, G>(rt, alloc, plies, workers, input, output)
            }
        }
        Asked::Grow { seed, plies } => grow::<K, G>(alloc, seed, plies, output),
        Asked::Certify(depth) => certify::<S, K, G>(alloc, depth, input, output),
        Asked::Check => check::<S, K, G>(alloc, input, output),
        Asked::Solve(plies) => solve::<S, K, G>(alloc, plies, input, output),
        Asked::Verify => verify::<S, K, G>(alloc, input, output),
        Asked::Book => book::<S, K, G>(alloc, input, output),
        Asked::Migrate => migrate::<S, K, G>(alloc, input, output),
        Asked::Match { .. } | Asked::Cup(_) | Asked::Tournament { .. } | Asked::Audit(_) =>
            unreachable!(),
    };
    Outcome { status, timed }
}
