//! What `exec` writes: of the objects that `compile` writes what `run` writes of their sources, and of other bytes why
//! they don't run.

use crate::answers::answer;
use crate::{examples, language, programs};
use fmc::Exit;
use std::alloc::Global;
use std::test::Fail;

/// An object text, and what is answered.
struct Row {
    object: &'static [u8],
    exit: Exit,
    text: &'static [u8],
}

const OBJECTS: [Row; 11] = [
    // Nothing is done.
    Row {
        object: b"fmc object 1\ntypes 0\nunits 1\nunit 0 0 0 1 1\nentry 2 0\ninstr 48 0 0\n",
        exit: Exit::Done,
        text: b"turns 1\n",
    },
    // A variable, which no source declares so.
    Row {
        object: b"fmc object 1\ntypes 0\nunits 1\nunit 0 0 1 2 3\ncell X_9 1 0 0 2 0 0\nentry 7 0\nentry 7 2\ninstr 0 1 0\ninstr 34 1 2\ninstr 48 0 0\n",
        exit: Exit::Done,
        text: b"var X_9 = F T\nturns 2\n",
    },
    Row {
        object: b"",
        exit: Exit::BadObject,
        text: b"malformed object: line 1\n",
    },
    // Another form.
    Row {
        object: b"fmc object 2\n",
        exit: Exit::BadObject,
        text: b"malformed object: line 1\n",
    },
    // A count for which no line follows.
    Row {
        object: b"fmc object 1\ntypes 4294967295\n",
        exit: Exit::BadObject,
        text: b"malformed object: line 3\n",
    },
    // A source is no object.
    Row {
        object: b"      PROGRAM P\n      END\n",
        exit: Exit::BadObject,
        text: b"malformed object: line 1\n",
    },
    // A line behind the last.
    Row {
        object: b"fmc object 1\ntypes 0\nunits 1\nunit 0 0 0 1 1\nentry 2 0\ninstr 48 0 0\n\n",
        exit: Exit::BadObject,
        text: b"malformed object: line 7\n",
    },
    // No PROGRAM, so the whole makes no sense.
    Row {
        object: b"fmc object 1\ntypes 0\nunits 0\n",
        exit: Exit::Unverified,
        text: b"unverified: unit 0\n",
    },
    // A statement behind the code.
    Row {
        object: b"fmc object 1\ntypes 0\nunits 1\nunit 0 0 0 1 1\nentry 2 1\ninstr 48 0 0\n",
        exit: Exit::Unverified,
        text: b"unverified: unit 1\n",
    },
    // A store without a word, in the second unit.
    Row {
        object: b"fmc object 1\ntypes 0\nunits 2\nunit 0 0 0 1 1\nentry 2 0\ninstr 48 0 0\nunit 2 0 1 2 2\ncell I 0 0 0 1 0 0\nentry 5 0\nentry 6 1\ninstr 34 0 1\ninstr 41 0 0\n",
        exit: Exit::Unverified,
        text: b"unverified: unit 2\n",
    },
    // A loop without an end.
    Row {
        object: b"fmc object 1\ntypes 0\nunits 1\nunit 0 0 0 1 1\nentry 2 0\ninstr 32 0 0\n",
        exit: Exit::Spent,
        text: b"spent 10000000\n",
    },
];

#[test]
fn objects_of_no_source(rt: HostRuntime) -> Result<(), Fail> {
    for (i, row) in OBJECTS.iter().enumerate() {
        let (ran, text) = answer(rt.alloc(), &["exec", "--vars"], row.object)?;
        assert_eq!(rt; text.as_slice(), row.text, "row {i}");
        assert_eq!(rt; ran.exit, row.exit, "row {i}");
    }
    Ok(())
}

/// Whether the object of a source is executed to the exit and the text to which one worker runs the source, or isn't
/// written where it breaks a rule.
fn is_same(alloc: Global, source: &[u8]) -> Result<bool, Fail> {
    let (compiled, object) = answer(alloc, &["compile"], source)?;
    let (ran, report) = answer(alloc, &["run", "--vars", "--workers=1"], source)?;
    if compiled.exit != Exit::Done {
        return Ok(ran.exit == compiled.exit && report == object);
    }
    let (executed, text) = answer(alloc, &["exec", "--vars"], &object)?;
    Ok(executed.exit == ran.exit && executed.history.len() == ran.history.len() && text == report)
}

#[test]
fn objects_run_as_sources(rt: HostRuntime) -> Result<(), Fail> {
    for (i, row) in language::rows().iter().enumerate() {
        assert!(rt; is_same(rt.alloc(), row.source)?, "language row {i}");
    }
    for (i, row) in programs::run_rows().iter().enumerate() {
        assert!(rt; is_same(rt.alloc(), row.source)?, "programs row {i}");
    }
    for (i, row) in examples::rows().iter().enumerate() {
        assert!(rt; is_same(rt.alloc(), row.source)?, "examples row {i}");
    }
    Ok(())
}

#[test]
fn turns_bound_objects(rt: HostRuntime) -> Result<(), Fail> {
    let (_, object) = answer(
        rt.alloc(),
        &["compile"],
        b"      PROGRAM P\n      I = 7\n      PRINT *, I\n      END\n",
    )?;
    let (ran, text) = answer(rt.alloc(), &["exec", "--turns=5"], &object)?;
    assert_eq!(rt; text.as_slice(), b"spent 5\n".as_slice());
    assert_eq!(rt; ran.exit, Exit::Spent);
    let (ran, text) = answer(rt.alloc(), &["exec", "--turns", "6"], &object)?;
    assert_eq!(rt; text.as_slice(), b" 7\n".as_slice());
    assert_eq!(rt; ran.exit, Exit::Done);
    Ok(())
}
