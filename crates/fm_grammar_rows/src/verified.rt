//! Objects judged: one of a program with a process and a function, and the same with one line bent.

use fm_object::read;
use fm_verify::{VerifyFail, verify};
use std::test::Fail;

// A PROGRAM that starts a process, receives a number from it, gives it to a function, and prints what that gives.
const TEXT: &[u8] =
    b"fmc object 1\ntypes 1\ntype 1\nfield 0 0 1 0\nunits 3\nunit 0 0 3 7 18\ncell I 0 0 0 1 0 0\ncell P 2 0 1 1 0 0\ncell Q 3 0 2 1 0 0\nentry 4 0\nentry 6 3\nentry 7 5\nentry 8 7\nentry 9 10\nentry 10 14\nentry 11 17\ninstr 0 1 0\ninstr 0 2 0\ninstr 52 3 0\ninstr 24 2 1\ninstr 43 1 5\ninstr 58 6 0\ninstr 59 7 0\ninstr 0 1 0\ninstr 23 0 1\ninstr 50 10 0\ninstr 23 0 1\ninstr 40 2 12\ninstr 2 0 0\ninstr 34 0 14\ninstr 1 0 0\ninstr 18 0 0\ninstr 38 17 0\ninstr 48 0 0\nunit 1 0 1 2 5\ncell Q 3 0 0 1 1 1\nentry 14 0\nentry 15 4\ninstr 0 0 0\ninstr 0 7 0\ninstr 22 0 0\ninstr 49 4 0\ninstr 48 0 0\nunit 3 0 2 2 5\ncell F 0 0 0 1 0 0\ncell N 0 0 1 1 1 0\nentry 19 0\nentry 20 4\ninstr 1 1 0\ninstr 0 1 0\ninstr 7 11 0\ninstr 34 0 4\ninstr 42 0 0\n";

// The text with another line in the place of this one, from 1.
fn bent(rt: &HostRuntime, line: u32, other: &[u8]) -> Result<Vec<u8>, Fail> {
    let mut text = Vec::new(rt.alloc());
    let mut at = 1u32;
    for byte in TEXT {
        if at != line {
            text.push(*byte)?;
        } else if *byte == b'\n' {
            text.extend_from_slice(other)?;
            text.push(b'\n')?;
        }
        if *byte == b'\n' {
            at = at.saturating_add(1);
        }
    }
    Ok(text)
}

// The unit that makes no sense; 0 for the whole, none where all makes sense.
fn bad_of(rt: &HostRuntime, text: &[u8]) -> Result<Option<u32>, Fail> {
    let image = read(rt.alloc(), text)?;
    match verify(rt.alloc(), image) {
        Ok(_) => Ok(None),
        Err(VerifyFail::Bad(unit)) => Ok(Some(unit)),
        Err(VerifyFail::NoMemory) => Ok(Some(u32::MAX)),
    }
}

#[test]
fn makes_sense(rt: HostRuntime) -> Result<(), Fail> {
    assert_eq!(rt; bad_of(&rt, TEXT)?, None);
    Ok(())
}

#[test]
fn one_line_bent(rt: HostRuntime) -> Result<(), Fail> {
    let bends: [(u32, &[u8], u32); 14] = [
        // a type that names itself, and a second PROGRAM
        (4, b"field 2 0 1 0", 0),
        (35, b"unit 0 0 1 2 5", 0),
        // a hole between two variables, a name that stands twice, and two formals with one place
        (8, b"cell P 2 0 2 1 0 0", 1),
        (46, b"cell F 0 0 1 1 1 0", 3),
        (45, b"cell F 0 0 0 1 1 0", 3),
        // a statement that begins behind the code, within a statement, and at a join
        (16, b"entry 11 18", 1),
        (13, b"entry 8 8", 1),
        (12, b"entry 7 6", 1),
        // a begin without its join
        (23, b"instr 32 7 0", 1),
        // a port word passed as a word, one added to a number, and a reference to what is no function
        (20, b"instr 23 2 1", 1),
        (41, b"instr 1 0 0", 2),
        (44, b"unit 2 0 2 2 5", 1),
        // a message that its channel can't carry, and an instruction that goes into a statement
        (41, b"instr 24 0 1", 2),
        (52, b"instr 34 0 2", 3),
    ];
    for (line, other, unit) in bends {
        let text = bent(&rt, line, other)?;
        assert_eq!(rt; bad_of(&rt, &text)?, Some(unit));
    }
    Ok(())
}
