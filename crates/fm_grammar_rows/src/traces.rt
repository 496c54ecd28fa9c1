//! Traces written and read: the worked text, and the line that is told of a text that is cut at any byte.

use fm_base::{Line, Turn};
use fm_trace::{TraceFail, read, write};
use std::test::Fail;

const TEXT: &[u8] =
    b"fmc trace 2\nturns 10000000\nlines 2\n0 2 3\n7 4294967295\nsource\n      PROGRAM P\n";

/// The same history in form 1.
const SINGLE: &[u8] =
    b"fmc trace 1\nturns 10000000\nentries 4\n0 2\n0 2\n0 2\n7 4294967295\nsource\n      PROGRAM P\n";

/// Texts, and the malformed line of each; 0 where it is a trace's.
const LINES: [(&[u8], u32); 14] = [
    (b"fmc trace 2\nturns 1\nlines 0\nsource\n", 0),
    (
        b"fmc trace 2\nturns 5\nlines 3\n0 1 2\n0 2\n0 1\nsource\n",
        0,
    ),
    (
        b"fmc trace 2\nturns 5\nlines 1\n0 1 1000000001\nsource\n",
        0,
    ),
    (b"fmc trace 1\nturns 5\nentries 2\n0 1\n0 1\nsource\n", 0),
    (b"fmc trace 2\nturns 5\nlines 2\n0 1\n0 1\nsource\n", 5),
    (b"fmc trace 2\nturns 5\nlines 2\n0 1 2\n0 1 3\nsource\n", 5),
    (
        b"fmc trace 2\nturns 5\nlines 2\n0 1 1000000001\n1 1\nsource\n",
        5,
    ),
    // As many lines as there may be, of which one more entry than that is told: the next line is missing.
    (b"fmc trace 2\nturns 5\nlines 1000000001\n0 1 2\n", 5),
    (b"fmc trace 2\nturns 5\nlines 1\n0 1 1\nsource\n", 4),
    (b"fmc trace 2\nturns 5\nlines 1\n0 1 02\nsource\n", 4),
    (b"fmc trace 2\nturns 5\nlines 1\n0 1 2 \nsource\n", 4),
    (b"fmc trace 1\nturns 5\nentries 1\n0 1 2\nsource\n", 4),
    (b"fmc trace 2\nturns 5\nentries 1\n0 1\nsource\n", 3),
    (b"fmc trace 3\nturns 5\nlines 0\nsource\n", 1),
];

// The malformed line of a text; 0 where it is a trace's.
fn line_of(text: &[u8], rt: &HostRuntime) -> Option<u32> {
    match read(rt.alloc(), text) {
        Err(TraceFail::Malformed(Line(line))) => Some(line),
        Err(TraceFail::NoMemory) => None,
        Ok(_) => Some(0),
    }
}

#[test]
fn reads_what_it_writes(rt: HostRuntime) -> Result<(), Fail> {
    let first = Turn {
        number: 0,
        steps: 2,
    };
    let last = Turn {
        number: 7,
        steps: 4_294_967_295,
    };
    let history = [first, first, first, last];
    let text = write(rt.alloc(), &history, 10_000_000, b"      PROGRAM P\n")?;
    assert_eq!(rt; text.as_slice(), TEXT);
    let trace = read(rt.alloc(), TEXT)?;
    assert_eq!(rt; trace.turns, 10_000_000);
    assert_eq!(rt; trace.entries.len(), 2);
    assert_eq!(rt; trace.entries.as_slice()[0].times, 3);
    assert_eq!(rt; trace.source.as_slice(), b"      PROGRAM P\n".as_slice());
    let single = read(rt.alloc(), SINGLE)?;
    assert_eq!(rt; single.entries.len(), 4);
    Ok(())
}

// Where a text is cut so that another line is told than the one of the cut; behind the line `source`, the one of this
// number, it is a trace's.
fn wrong_cut(text: &[u8], source: u32, rt: &HostRuntime) -> Option<usize> {
    let mut line = 1u32;
    for end in 0..text.len() {
        let wanted = if line <= source { line } else { 0 };
        if line_of(&text[..end], rt) != Some(wanted) {
            return Some(end);
        }
        if text[end] == b'\n' {
            line = line.saturating_add(1);
        }
    }
    None
}

#[test]
fn cut_at_every_byte(rt: HostRuntime) -> Result<(), Fail> {
    assert_eq!(rt; wrong_cut(TEXT, 6, &rt), None);
    assert_eq!(rt; wrong_cut(SINGLE, 8, &rt), None);
    Ok(())
}

#[test]
fn lines_are_told(rt: HostRuntime) -> Result<(), Fail> {
    for (i, (text, line)) in LINES.iter().enumerate() {
        assert_eq!(rt; line_of(text, &rt), Some(*line), "text {i}");
    }
    Ok(())
}
