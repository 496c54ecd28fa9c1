//! Sources and sinks that fail, and sources at their limit.

use crate::answers::{Back, Streams, answer_over};
use fm_io::{MemSink, MemSource};
use fmc::{Exit, Ran, fmc};
use std::alloc::Global;
use std::test::Fail;

const LEAST: &[u8] = b"      PROGRAM P\n      PRINT *, 1\n      END\n";

/// A command and so many line feeds, and the exit and the text for them.
const LIMITS: [(&str, usize, Exit, &[u8]); 3] = [
    (
        "run",
        1_000_000,
        Exit::Refused,
        b"line 1: E26 not exactly one PROGRAM\n",
    ),
    ("run", 1_000_001, Exit::TooLong, b"source too long\n"),
    ("compile", 1_000_001, Exit::TooLong, b"source too long\n"),
];

/// Streams of which a call fails, and the exit and the text for the least program.
const FAILURES: [(Streams, Exit, &[u8]); 2] = [
    (
        Streams {
            read: 4096,
            read_fails: &[1],
            write: 4096,
            write_fails: &[],
        },
        Exit::ReadFault,
        b"read fault\n",
    ),
    (
        Streams {
            read: 4096,
            read_fails: &[],
            write: 1,
            write_fails: &[2],
        },
        Exit::WriteFault,
        b" ",
    ),
];

/// The write that fails, or none, and the room of the sink, where bytes go one by one; and the exit and the text.
const WRITES: [(u64, usize, Exit, &[u8]); 7] = [
    (1, 64, Exit::WriteFault, b""),
    (2, 64, Exit::WriteFault, b" "),
    (3, 64, Exit::WriteFault, b" 1"),
    (0, 0, Exit::WriteFault, b""),
    (0, 1, Exit::WriteFault, b" "),
    (0, 2, Exit::WriteFault, b" 1"),
    (0, 3, Exit::Done, b" 1\n"),
];

/// Pieces of which a million bytes are not too many.
const LONG: Streams = Streams {
    read: 65_536,
    read_fails: &[],
    write: 4096,
    write_fails: &[],
};

#[test]
fn the_limit_of_a_source(rt: HostRuntime) -> Result<(), Fail> {
    for (word, count, exit, text) in LIMITS {
        let line_feeds = vec![in rt.alloc(); b'\n'; count]?;
        let (ran, written) = answer_over(rt.alloc(), &LONG, &[word], line_feeds)?;
        assert_eq!(rt; written.as_slice(), text);
        assert_eq!(rt; ran.exit, exit);
    }
    Ok(())
}

#[test]
fn a_call_fails(rt: HostRuntime) -> Result<(), Fail> {
    for (streams, exit, text) in &FAILURES {
        let source = Vec::from_slice(rt.alloc(), LEAST)?;
        let (ran, written) = answer_over(rt.alloc(), streams, &["run"], source)?;
        assert_eq!(rt; written.as_slice(), *text);
        assert_eq!(rt; ran.exit, *exit);
    }
    Ok(())
}

// What is answered to the least program where bytes go one by one, this read fails and this write, and the sink has
// this room.
fn one_by_one(alloc: Global, read: u64, write: u64, room: usize) -> Result<(Ran, Vec<u8>), Fail> {
    let bytes = Vec::from_slice(alloc, LEAST)?;
    let mut source = MemSource::new(bytes, 1, Vec::from_slice(alloc, &[read])?);
    let mut sink = MemSink::new(alloc, 1, room, Vec::from_slice(alloc, &[write])?)?;
    let ran = fmc(alloc, &["run"], &mut source, &mut sink, &Back);
    Ok((ran, Vec::from_slice(alloc, sink.bytes())?))
}

#[test]
fn each_read_fails(rt: HostRuntime) -> Result<(), Fail> {
    // one read for each byte, and one that finds the end
    for call in 1..45u64 {
        let (ran, written) = one_by_one(rt.alloc(), call, 0, 64)?;
        assert_eq!(rt;
            written.as_slice(),
            b"read fault\n".as_slice(),
            "call {call}"
        );
        assert_eq!(rt; ran.exit, Exit::ReadFault);
    }
    let (ran, written) = one_by_one(rt.alloc(), 45, 0, 64)?;
    assert_eq!(rt; written.as_slice(), b" 1\n".as_slice());
    assert_eq!(rt; ran.exit, Exit::Done);
    Ok(())
}

#[test]
fn each_write_fails(rt: HostRuntime) -> Result<(), Fail> {
    for (write, room, exit, text) in &WRITES {
        let (ran, written) = one_by_one(rt.alloc(), 0, *write, *room)?;
        assert_eq!(rt; written.as_slice(), *text);
        assert_eq!(rt; ran.exit, *exit);
    }
    Ok(())
}
