//! The command set.

use fm_base::{Plan, Setup};
use fm_words::{Command, WordsFail, words};
use std::test::Fail;

/// The setup without options.
const DEFAULT: Setup = Setup {
    turns: 10_000_000,
    slice: 1_000,
    workers: 4,
    plan: Plan::Cyclic,
};

/// Words that are `run`, how it is set up, and whether the variables are asked for.
const RUNS: [(&[&str], Setup, bool); 8] = [
    (&["run"], DEFAULT, false),
    (&["run", "--vars"], DEFAULT, true),
    (
        &["run", "--turns", "5"],
        Setup {
            turns: 5,
            slice: 1_000,
            workers: 4,
            plan: Plan::Cyclic,
        },
        false,
    ),
    (
        &["run", "--turns=1000000000", "--vars"],
        Setup {
            turns: 1_000_000_000,
            slice: 1_000,
            workers: 4,
            plan: Plan::Cyclic,
        },
        true,
    ),
    (
        &["run", "--vars", "--slice", "000000000000000042"],
        Setup {
            turns: 10_000_000,
            slice: 42,
            workers: 4,
            plan: Plan::Cyclic,
        },
        true,
    ),
    (
        &["run", "--workers=64", "--slice=1000000"],
        Setup {
            turns: 10_000_000,
            slice: 1_000_000,
            workers: 64,
            plan: Plan::Cyclic,
        },
        false,
    ),
    (
        &["run", "--plan", "block"],
        Setup {
            turns: 10_000_000,
            slice: 1_000,
            workers: 4,
            plan: Plan::Block,
        },
        false,
    ),
    (
        &[
            "run",
            "--plan=cyclic",
            "--turns=1",
            "--vars",
            "--workers",
            "1",
            "--slice",
            "1",
        ],
        Setup {
            turns: 1,
            slice: 1,
            workers: 1,
            plan: Plan::Cyclic,
        },
        true,
    ),
];

/// Words that are no command.
const NOTHING: [&[&str]; 55] = [
    &[],
    &[""],
    &["RUN"],
    &["--vars", "run"],
    &["list", "--vars"],
    &["list", "list"],
    &["check", "--vars"],
    &["check", "--turns=5"],
    &["flow", "--vars"],
    &["compile", "--vars"],
    &["compile", "--turns", "5"],
    &["exec", "7"],
    &["exec", "--turns=0"],
    &["exec", "--turns=1000000001"],
    &["exec", "--workers=1"],
    &["exec", "--slice=1000"],
    &["exec", "--plan=cyclic"],
    &["run", "list"],
    &["run", "--"],
    &["run", "-h"],
    &["run", "--var"],
    &["run", "--vars=5"],
    &["run", "--vars", "--vars"],
    &["run", "--turns"],
    &["run", "--turns="],
    &["run", "--turns=", "5"],
    &["run", "--turns", "--vars"],
    &["run", "--turns", "5", "6"],
    &["run", "--turns", "+5"],
    &["run", "--turns=-5"],
    &["run", "--turns=0"],
    &["run", "--turns=1000000001"],
    &["run", "--turns", "0000000000000000042"],
    &["run", "--turns=5", "--vars", "--turns", "5"],
    &["run", "--workers=65"],
    &["run", "--slice", "1000001"],
    &["run", "--plan=Block"],
    &["trace", "--turns=0"],
    &["trace", "--vars", "--vars"],
    &["replay", "--turns=5"],
    &["replay", "--workers", "4"],
    &["replay", "--slice=10"],
    &["replay", "--plan", "cyclic"],
    &["replay", "--vars", "--vars"],
    &["replay", "7"],
    &["make"],
    &["make", "7", "--vars"],
    &["make", "7", "8"],
    &["demo", "--turns=5", "7"],
    &["demo", "7", "--vars"],
    &["nodes"],
    &["nodes", "x"],
    &["nodes", "7", "8"],
    &["nodes", "0", "--slice", "5"],
    &["nodes", "0", "--workers=2"],
];

#[test]
fn words_are_their_commands(rt: HostRuntime) -> Result<(), Fail> {
    let alloc = rt.alloc();
    assert_eq!(rt; words(alloc, &["list"]), Ok(Command::List));
    assert_eq!(rt; words(alloc, &["check"]), Ok(Command::Check));
    assert_eq!(rt; words(alloc, &["flow"]), Ok(Command::Flow));
    assert_eq!(rt; words(alloc, &["compile"]), Ok(Command::Compile));
    assert_eq!(rt;
        words(alloc, &["replay", "--vars"]),
        Ok(Command::Replay { vars: true })
    );
    assert_eq!(rt;
        words(alloc, &["replay"]),
        Ok(Command::Replay { vars: false })
    );
    assert_eq!(rt;
        words(alloc, &["make", "007"]),
        Ok(Command::Make { number: 7 })
    );
    let setup = Setup {
        turns: 10_000_000,
        slice: 10,
        workers: 4,
        plan: Plan::Cyclic,
    };
    assert_eq!(rt;
        words(alloc, &["demo", "7", "--slice=10"]),
        Ok(Command::Demo { number: 7, setup })
    );
    let setup = Setup {
        turns: 5,
        slice: 1_000,
        workers: 4,
        plan: Plan::Block,
    };
    assert_eq!(rt;
        words(
            alloc,
            &[
                "nodes",
                "999999999999999999",
                "--vars",
                "--turns=5",
                "--plan=block"
            ]
        ),
        Ok(Command::Nodes {
            number: 999_999_999_999_999_999,
            setup,
            vars: true
        })
    );
    assert_eq!(rt;
        words(alloc, &["exec"]),
        Ok(Command::Exec {
            turns: 10_000_000,
            vars: false
        })
    );
    assert_eq!(rt;
        words(alloc, &["exec", "--vars", "--turns", "1000000000"]),
        Ok(Command::Exec {
            turns: 1_000_000_000,
            vars: true
        })
    );
    for (i, (row, setup, vars)) in RUNS.iter().enumerate() {
        let command = Command::Run {
            setup: *setup,
            vars: *vars,
        };
        assert_eq!(rt; words(alloc, row), Ok(command), "run {i}");
        let mut traced = Vec::from_slice(alloc, *row)?;
        if let Some(first) = traced.first_mut() {
            *first = "trace";
        }
        assert_eq!(rt;
            words(alloc, &traced),
            Ok(Command::Trace { setup: *setup }),
            "trace {i}"
        );
    }
    for (i, row) in NOTHING.iter().enumerate() {
        assert_eq!(rt; words(alloc, row), Err(WordsFail::Usage), "nothing {i}");
    }
    Ok(())
}
