//! The runner over trees writes what `fmc run` writes.

ghost use Rattle.std.specs.Prelude.{◌≤◌};

use crate::answers::answer;
use crate::tree_run::tree_text;
use crate::{examples, language, programs};
use fmc::Exit;
use std::alloc::Global;
use std::test::Fail;

/// The turns of a run whose words tell none.
const TURNS: u64 = 10_000_000;

/// Whether an exit is that of a run that ended.
fn is_end(exit: Exit) -> bool {
    match exit {
        Exit::Done | Exit::Faulted | Exit::Deadlocked => true,
        Exit::Refused
        | Exit::Spent
        | Exit::Usage
        | Exit::ReadFault
        | Exit::WriteFault
        | Exit::NoMemory
        | Exit::TooLong
        | Exit::Malformed
        | Exit::Illegal
        | Exit::Unfinished
        | Exit::BadObject
        | Exit::Unverified
        | Exit::NotPlain => false,
    }
}

/// Whether `fmc run` and the runner over trees write one text for a source, in pieces of so many steps at most, which
/// the word tells.
fn is_same(alloc: Global, source: &[u8], word: &str, slice: u32) -> Result<bool, Fail>
    requires { 1 ≤ slice }
{
    if source.len() > 1_000_000 {
        return Err(Fail::from("source too long"));
    }
    let (_, written) = answer(alloc, &["run", "--vars", word], source)?;
    let told = tree_text(alloc, source, TURNS, slice, true).map_err(|_| "refused")?;
    Ok(written == told)
}

/// The slice at which the texts of a program that runs to its end differ, if there is one.
fn first_other(alloc: Global, source: &[u8], exit: Exit) -> Result<Option<u32>, Fail> {
    if !is_end(exit) {
        return Ok(None);
    }
    if !is_same(alloc, source, "--slice=1", 1)? {
        return Ok(Some(1));
    }
    if !is_same(alloc, source, "--slice=1000", 1_000)? {
        return Ok(Some(1_000));
    }
    Ok(None)
}

#[test]
fn trees_tell_the_same(rt: HostRuntime) -> Result<(), Fail> {
    for (i, row) in language::rows().iter().enumerate() {
        assert_eq!(rt;
            first_other(rt.alloc(), row.source, row.exit)?,
            None,
            "language row {i}"
        );
    }
    for (i, row) in programs::run_rows().iter().enumerate() {
        assert_eq!(rt;
            first_other(rt.alloc(), row.source, row.exit)?,
            None,
            "programs row {i}"
        );
    }
    for (i, row) in examples::rows().iter().enumerate() {
        assert_eq!(rt;
            first_other(rt.alloc(), row.source, row.exit)?,
            None,
            "examples row {i}"
        );
    }
    Ok(())
}
