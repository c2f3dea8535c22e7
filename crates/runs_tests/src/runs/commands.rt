//! Each command by its words, once.

use crate::runs::expect_run;
use hive_cli::Status::{self, BadInput, Done, SpawnFault, Usage};
use memory_sides::MemSetting;
use std::test::Fail;

/// A certificate of the opening's best move at depth 2.
pub(crate) const CERTIFICATE: &str =
    "hive-certificate 1\nBase;NotStarted;White[1]\ndepth 2\nmove wA1\nvalue 10\n0\n0\n0\n0\n";

/// The same in the version that may cite what was shown before.
const CITING: &str =
    "hive-certificate 2\nBase;NotStarted;White[1]\ndepth 2\nmove wA1\nvalue 10\n0\n0\n0\n0\n";

/// A proof that the opening is not a win in two plies.
const SOLUTION: &str =
    "hive-solution 1\nBase;NotStarted;White[1]\nplies 2\nanswer no\n0\n0\n0\n0\n";

/// A game of one move that the seed 0 makes.
const GROWN: &str =
    "seed 0\ntype Base+MLP\nplies 1\nstate InProgress\nmoves 7\nundone 1\nbest bS1 -wG1\n\
                     game Base+MLP;InProgress;Black[1];wG1\n";

/// Words, an input, the status with which their run ends, and what it writes.
const COMMANDS: [(&[&str], &str, Status, &str); 18] = [
    (&["certify", "--depth", "2"], "Base\n", Done, CERTIFICATE),
    (&["certify", "--depth=2"], "", BadInput, "bad no line\n"),
    (&["check"], CERTIFICATE, Done, "accepted\n"),
    (&["check"], SOLUTION, BadInput, "bad line 1\n"),
    (&["solve", "--plies", "2"], "Base\n", Done, SOLUTION),
    (&["verify"], SOLUTION, Done, "accepted\n"),
    (&["verify"], CERTIFICATE, BadInput, "bad line 1\n"),
    (&["grow", "--seed", "0", "--plies", "1"], "x\n", Done, GROWN),
    (&["grow", "1"], "", Usage, ""),
    (
        &["match", "--white", "a", "--black", "b"],
        "",
        SpawnFault,
        "",
    ),
    (&["match", "--white", "a"], "", Usage, ""),
    (
        &["audit", "--engine", "a", "--games", "1", "--seed", "0"],
        "",
        SpawnFault,
        "",
    ),
    (&["audit", "--engine", "a"], "", Usage, ""),
    (&["migrate"], CERTIFICATE, Done, CITING),
    (&["check"], CITING, Done, "accepted\n"),
    (&["migrate"], CITING, BadInput, "bad line 1\n"),
    (
        &["book"],
        "Base\nBase;InProgress;White[2];wS1;bA1 wS1-\n",
        Done,
        "book wS1 1\n",
    ),
    (
        &["book"],
        "Base\nBase;Draw;Black[1];wS1\n",
        BadInput,
        "bad line 2\n",
    ),
];

#[test]
fn each_command_answers(rt: HostRuntime) -> Result<(), Fail> {
    for (words, input, status, written) in COMMANDS {
        let setting = MemSetting::of(input.as_bytes());
        expect_run(&rt, rt.alloc(), words, setting, status, written)?;
    }
    Ok(())
}
