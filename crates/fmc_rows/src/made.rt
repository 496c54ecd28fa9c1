//! Generated programs.

use crate::answers::answer;
use fmc::Exit;
use std::test::Fail;

/// Numbers at the ends of what the text depends on.
const NUMBERS: [&str; 5] = ["0", "7", "179", "180", "899"];

/// Words, and what a demonstration writes.
const DEMOS: [(&[&str], Exit, &[u8]); 4] = [
    (
        &["demo", "7"],
        Exit::Done,
        b"processes 30\nturns 15685\nlines 1\ndone\n",
    ),
    (
        &["demo", "7", "--slice=1", "--workers=8"],
        Exit::Done,
        b"processes 30\nturns 15685\nlines 1\ndone\n",
    ),
    (
        &[
            "demo",
            "7",
            "--turns=15685",
            "--plan",
            "block",
            "--slice",
            "10000",
        ],
        Exit::Done,
        b"processes 30\nturns 15685\nlines 1\ndone\n",
    ),
    (
        &["demo", "7", "--turns", "15684"],
        Exit::Spent,
        b"spent 15684\n",
    ),
];

#[test]
fn made_programs_are_lawful(rt: HostRuntime) -> Result<(), Fail> {
    for number in NUMBERS {
        let (ran, source) = answer(rt.alloc(), &["make", number], b"not read")?;
        assert_eq!(rt; ran.exit, Exit::Done);
        let (_, told) = answer(rt.alloc(), &["check"], &source)?;
        assert_eq!(rt; told.as_slice(), b"deterministic\n".as_slice(), "{number}");
    }
    Ok(())
}

#[test]
fn a_made_program_is_run(rt: HostRuntime) -> Result<(), Fail> {
    let (_, source) = answer(rt.alloc(), &["make", "7"], b"")?;
    let (ran, text) = answer(rt.alloc(), &["run"], &source)?;
    assert_eq!(rt; ran.exit, Exit::Done);
    assert_eq!(rt; text.as_slice(), b" 51360\n".as_slice());
    Ok(())
}

#[test]
fn demonstrations(rt: HostRuntime) -> Result<(), Fail> {
    for (i, (words, exit, text)) in DEMOS.iter().enumerate() {
        let (ran, written) = answer(rt.alloc(), words, b"")?;
        assert_eq!(rt; written.as_slice(), *text, "demo {i}");
        assert_eq!(rt; ran.exit, *exit, "demo {i}");
    }
    Ok(())
}
