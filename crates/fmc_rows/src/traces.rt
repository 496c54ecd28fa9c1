//! Traces of runs, and what they are replayed to.

use crate::answers::answer;
use crate::examples;
use fmc::Exit;
use std::alloc::Global;
use std::test::Fail;

/// The least program.
const LEAST: &[u8] = b"      PROGRAM P
      PRINT *, 1
      END
";

/// Two senders on one inport.
const MERGE: &[u8] = b"      PROGRAM MERGE
      INPORT (INTEGER) P
      OUTPORT (INTEGER) Q(2)
      MERGER(IN=P,OUT=Q)
      PROCESSES
      PROCESSDO I = 1, 2
      PROCESSCALL W(I,Q(I))
      ENDPROCESSDO
      PROCESSCALL R(P)
      ENDPROCESSES
      END
      PROCESS W(N,Q)
      OUTPORT (INTEGER) Q
      SEND(Q) N
      ENDCHANNEL(Q)
      END
      PROCESS R(P)
      INPORT (INTEGER) P
   10 RECEIVE(P,END=20) I
      PRINT *, I
      GOTO 10
   20 END
";

/// The lines of a trace before the line `source`, its program, and what it is replayed to.
struct Row {
    lines: &'static [u8],
    source: &'static [u8],
    exit: Exit,
    text: &'static [u8],
}

const ROWS: [Row; 13] = [
    Row {
        lines: b"fmc trace 1\nturns 1000\nentries 5\n0 9\n1 3\n2 3\n3 8\n0 2\n",
        source: MERGE,
        exit: Exit::Done,
        text: b" 1\n 2\n",
    },
    Row {
        lines: b"fmc trace 1\nturns 1000\nentries 5\n0 9\n2 3\n1 3\n3 8\n0 2\n",
        source: MERGE,
        exit: Exit::Done,
        text: b" 2\n 1\n",
    },
    Row {
        lines: b"fmc trace 1\nturns 1000\nentries 2\n0 9\n3 1\n",
        source: MERGE,
        exit: Exit::Illegal,
        text: b"illegal turn: entry 2\n",
    },
    Row {
        lines: b"fmc trace 1\nturns 1000\nentries 2\n0 9\n9 1\n",
        source: MERGE,
        exit: Exit::Illegal,
        text: b"illegal turn: entry 2\n",
    },
    Row {
        lines: b"fmc trace 1\nturns 1000\nentries 1\n0 9\n",
        source: MERGE,
        exit: Exit::Unfinished,
        text: b"unfinished\n",
    },
    Row {
        lines: b"fmc trace 1\nturns 1\nentries 1\n0 9\n",
        source: MERGE,
        exit: Exit::Spent,
        text: b"spent 1\n",
    },
    // The entry asks for more steps than there are, and those cost more than the turns.
    Row {
        lines: b"fmc trace 1\nturns 1\nentries 1\n0 10\n",
        source: MERGE,
        exit: Exit::Illegal,
        text: b"illegal turn: entry 1\n",
    },
    Row {
        lines: b"fmc trace 1\nturns 0\nentries 1\n0 9\n",
        source: MERGE,
        exit: Exit::Malformed,
        text: b"malformed trace: line 2\n",
    },
    // Two entries on one line.
    Row {
        lines: b"fmc trace 2\nturns 5\nlines 1\n0 1 2\n",
        source: LEAST,
        exit: Exit::Done,
        text: b" 1\n",
    },
    Row {
        lines: b"fmc trace 2\nturns 5\nlines 1\n0 1 3\n",
        source: LEAST,
        exit: Exit::Illegal,
        text: b"illegal turn: entry 3\n",
    },
    // The second of three entries costs more than the turns.
    Row {
        lines: b"fmc trace 2\nturns 4\nlines 1\n0 1 3\n",
        source: LEAST,
        exit: Exit::Spent,
        text: b"spent 4\n",
    },
    Row {
        lines: b"fmc trace 2\nturns 5\nlines 2\n0 1\n0 1\n",
        source: LEAST,
        exit: Exit::Malformed,
        text: b"malformed trace: line 5\n",
    },
    Row {
        lines: b"fmc trace 1\nturns 5\nentries 2\n0 1\n0 1\n",
        source: LEAST,
        exit: Exit::Done,
        text: b" 1\n",
    },
];

fn trace_of(alloc: Global, row: &Row) -> Result<Vec<u8>, Fail> {
    let mut bytes = Vec::from_slice(alloc, row.lines)?;
    bytes.extend_from_slice(b"source\n")?;
    bytes.extend_from_slice(row.source)?;
    Ok(bytes)
}

#[test]
fn entries_come_to_their_exit(rt: HostRuntime) -> Result<(), Fail> {
    let alloc = rt.alloc();
    for (i, row) in ROWS.iter().enumerate() {
        let (ran, text) = answer(alloc, &["replay"], &trace_of(alloc, row)?)?;
        assert_eq!(rt; text.as_slice(), row.text, "row {i}");
        assert_eq!(rt; ran.exit, row.exit, "row {i}");
        assert!(rt; ran.history.is_empty(), "row {i}");
    }
    Ok(())
}

#[test]
fn least_program_is_traced(rt: HostRuntime) -> Result<(), Fail> {
    let alloc = rt.alloc();
    let (ran, text) = answer(alloc, &["trace"], LEAST)?;
    let mut whole = Vec::from_slice(
        alloc,
        b"fmc trace 2\nturns 10000000\nlines 1\n0 2\nsource\n",
    )?;
    whole.extend_from_slice(LEAST)?;
    assert_eq!(rt; text, whole);
    assert_eq!(rt; ran.exit, Exit::Done);
    let (ran, text) = answer(alloc, &["trace", "--turns", "4"], LEAST)?;
    assert_eq!(rt; ran.exit, Exit::Spent);
    let (ran, text) = answer(alloc, &["replay"], &text)?;
    assert_eq!(rt; text.as_slice(), b"spent 4\n".as_slice());
    assert_eq!(rt; ran.exit, Exit::Spent);
    Ok(())
}

#[test]
fn examples_are_replayed(rt: HostRuntime) -> Result<(), Fail> {
    let alloc = rt.alloc();
    for (i, row) in examples::rows().iter().enumerate() {
        let (run, told) = answer(alloc, &["run", "--vars"], row.source)?;
        let (traced, trace) = answer(alloc, &["trace", "--vars"], row.source)?;
        let (replayed, text) = answer(alloc, &["replay", "--vars"], &trace)?;
        assert_eq!(rt; traced.exit, run.exit, "row {i}");
        assert_eq!(rt; replayed.exit, run.exit, "row {i}");
        assert_eq!(rt; text, told, "row {i}");
    }
    Ok(())
}
