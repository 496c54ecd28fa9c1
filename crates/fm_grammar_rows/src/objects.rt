//! Objects read and written: a worked text, the line that is told of a text that is cut at any byte, and lines that are
//! malformed though they are close to others that aren't.

use fm_base::Line;
use fm_object::{ObjectFail, read, write};
use std::test::Fail;

const TEXT: &[u8] =
    b"fmc object 1\ntypes 2\ntype 1\nfield 0 0 1 0\ntype 3\nfield 0 0 1 0\nfield 2 0 3 0\nfield 1 0 0 1\nunits 1\nunit 0 1 2 2 3\nextent 4\ncell I 0 0 0 1 0 0\ncell P_1 2 1 1 1 0 0\nentry 2 0\nentry 3 2\ninstr 0 -9223372036854775808 0\ninstr 34 0 2\ninstr 48 0 0\n";

/// Texts, and the malformed line of each; 0 where it is an object's.
const LINES: [(&[u8], u32); 16] = [
    // Another form, a count that no lines follow, a zero in front, and what stands behind the last line.
    (b"fmc object 2\n", 1),
    (b"fmc object 1\ntypes 4294967295\n", 3),
    (b"fmc object 1\ntypes 4294967296\n", 2),
    (
        b"fmc object 1\ntypes 1\ntype 4294967295\nfield 0 0 1 0\n",
        5,
    ),
    (
        b"fmc object 1\ntypes 0\nunits 1\nunit 0 0 4294967295 0 0\n",
        5,
    ),
    (b"fmc object 1\ntypes 00\n", 2),
    (b"fmc object 1\ntypes 0\nunits 0\n", 0),
    (b"fmc object 1\ntypes 0\nunits 0\n\n", 4),
    // Instructions: Push of a number with a sign, of -0, an operand too many, and a number that does nothing.
    (
        b"fmc object 1\ntypes 0\nunits 1\nunit 0 0 0 0 1\ninstr 0 -7 0\n",
        0,
    ),
    (
        b"fmc object 1\ntypes 0\nunits 1\nunit 0 0 0 0 1\ninstr 0 -0 0\n",
        5,
    ),
    (
        b"fmc object 1\ntypes 0\nunits 1\nunit 0 0 0 0 1\ninstr 48 0 1\n",
        5,
    ),
    (
        b"fmc object 1\ntypes 0\nunits 1\nunit 0 0 0 0 1\ninstr 11 0 0\n",
        5,
    ),
    // Places of operands to be cut: of the second to what the first is, and one below 0.
    (
        b"fmc object 1\ntypes 0\nunits 1\nunit 0 0 0 0 1\ninstr 31 1 0\n",
        0,
    ),
    (
        b"fmc object 1\ntypes 0\nunits 1\nunit 0 0 0 0 1\ninstr 31 1 -1\n",
        5,
    ),
    // Names: in lower case, and none.
    (
        b"fmc object 1\ntypes 0\nunits 1\nunit 0 0 1 0 0\ncell n 0 0 0 1 0 0\n",
        5,
    ),
    (
        b"fmc object 1\ntypes 0\nunits 1\nunit 0 0 1 0 0\ncell  0 0 0 1 0 0\n",
        5,
    ),
];

// The malformed line of a text; 0 where it is an object's.
fn line_of(text: &[u8], rt: &HostRuntime) -> Option<u32> {
    match read(rt.alloc(), text) {
        Err(ObjectFail::Malformed(Line(line))) => Some(line),
        Err(ObjectFail::NoMemory) => None,
        Ok(_) => Some(0),
    }
}

#[test]
fn writes_what_it_reads(rt: HostRuntime) -> Result<(), Fail> {
    let image = read(rt.alloc(), TEXT)?;
    let text = write(rt.alloc(), &image)?;
    assert_eq!(rt; text.as_slice(), TEXT);
    Ok(())
}

#[test]
fn cut_at_every_byte(rt: HostRuntime) -> Result<(), Fail> {
    let mut line = 1u32;
    for end in 0..TEXT.len() {
        assert_eq!(rt; line_of(&TEXT[..end], &rt), Some(line));
        if TEXT[end] == b'\n' {
            line = line.saturating_add(1);
        }
    }
    Ok(())
}

#[test]
fn malformed_lines(rt: HostRuntime) -> Result<(), Fail> {
    for (i, (text, line)) in LINES.iter().enumerate() {
        assert_eq!(rt; line_of(text, &rt), Some(*line), "text {i}");
    }
    Ok(())
}
