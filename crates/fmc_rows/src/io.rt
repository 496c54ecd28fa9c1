//! Whole texts through sources and sinks that give and take them in pieces, or fail.

use fm_io::{CountSink, MemSink, MemSource, ReadFail, SureSource, WriteFail, read_all, write_all};
use std::alloc::Global;
use std::test::Fail;

const TEXT: &[u8] = b"      PROGRAM A\n      END\n";

/// The text in pieces of five bytes, from a source whose listed calls fail.
fn source(alloc: Global, fail_at: &[u64]) -> Result<MemSource, Fail> {
    let bytes = Vec::from_slice(alloc, TEXT)?;
    Ok(MemSource::new(bytes, 5, Vec::from_slice(alloc, fail_at)?))
}

/// The greatest length that is allowed, the call that fails, and the answer.
const READS: [(usize, u64, Result<&[u8], ReadFail>); 3] = [
    (TEXT.len(), 0, Ok(TEXT)),
    (TEXT.len() - 1, 0, Err(ReadFail::TooLong)),
    (TEXT.len(), 3, Err(ReadFail::Fault)),
];

/// The room of the sink, the write that fails, the answer, and how many bytes were written.
const WRITES: [(usize, u64, Result<(), WriteFail>, usize); 3] = [
    (TEXT.len(), 0, Ok(()), TEXT.len()),
    (7, 0, Err(WriteFail), 7),
    (TEXT.len(), 2, Err(WriteFail), 2),
];

#[test]
fn reads_all(rt: HostRuntime) -> Result<(), Fail> {
    let alloc = rt.alloc();
    for (limit, fail_at, want) in READS {
        match read_all(alloc, &mut source(alloc, &[fail_at])?, limit) {
            Ok(bytes) => assert_eq!(rt; Ok(bytes.as_slice()), want),
            Err(fail) => assert_eq!(rt; Err(fail), want),
        }
    }
    let mut sure = SureSource::new(Vec::from_slice(alloc, TEXT)?, 1);
    let all = read_all(alloc, &mut sure, usize::MAX).map_err(|_| "refused")?;
    assert_eq!(rt; all.as_slice(), TEXT);
    Ok(())
}

#[test]
fn writes_all(rt: HostRuntime) -> Result<(), Fail> {
    let alloc = rt.alloc();
    for (room, fail_at, want, written) in WRITES {
        let fail_at = Vec::from_slice(alloc, &[fail_at])?;
        let mut sink = MemSink::new(alloc, 2, room, fail_at)?;
        assert_eq!(rt; write_all(&mut sink, TEXT), want, "room {room}");
        assert_eq!(rt; sink.bytes().len(), written, "room {room}");
        assert!(rt; TEXT.starts_with(sink.bytes()), "room {room}");
    }
    let mut count = CountSink::new();
    assert_eq!(rt; write_all(&mut count, TEXT), Ok(()));
    assert_eq!(rt; count.written(), TEXT.len() as u64);
    Ok(())
}
