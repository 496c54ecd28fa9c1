//! What `compile` writes: whole object texts of small programs, which are read again and make sense, and the refusals
//! that `check` has.

use crate::answers::answer;
use fm_object::read;
use fm_verify::verify;
use fmc::Exit;
use std::test::Fail;

/// A source, and the text for it.
struct Row {
    source: &'static [u8],
    text: &'static [u8],
}

const OBJECTS: [Row; 4] = [
    Row {
        source: b"      PROGRAM P\n      END\n",
        text: b"fmc object 1\ntypes 0\nunits 1\nunit 0 0 0 1 1\nentry 2 0\ninstr 48 0 0\n",
    },
    // A machine, and a message of which one field sizes another.
    Row {
        source: b"      PROGRAM P
      PROCESSORS(4)
      INPORT (INTEGER N, INPORT (INTEGER) Q(3), LOGICAL L(N)) P_1
      I = 7
      END
",
        text: b"fmc object 1\ntypes 2\ntype 1\nfield 0 0 1 0\ntype 3\nfield 0 0 1 0\nfield 2 0 3 0\nfield 1 0 0 1\nunits 1\nunit 0 1 2 2 3\nextent 4\ncell P_1 2 1 0 1 0 0\ncell I 0 0 1 1 0 0\nentry 4 0\nentry 5 2\ninstr 0 7 0\ninstr 34 1 2\ninstr 48 0 0\n",
    },
    // A loop over an array, a CALL and a test.
    Row {
        source: b"      PROGRAM P
      INTEGER A(2)
      DO I = 1, 2
      A(I) = -I
      ENDDO
      CALL S(A(1),J)
      IF (J .LT. 0) STOP
      END
      SUBROUTINE S(N,M)
      INTENT (IN) N
      M = N
      END
",
        text: b"fmc object 1\ntypes 0\nunits 2\nunit 0 0 3 7 25\ncell A 0 0 0 2 0 0\ncell I 0 0 2 1 0 0\ncell J 0 0 3 1 0 0\nentry 3 0\nentry 4 5\nentry 5 11\nentry 6 13\nentry 7 19\nentry 7 23\nentry 8 24\ninstr 0 1 0\ninstr 0 2 0\ninstr 0 1 0\ninstr 28 0 2\ninstr 36 5 13\ninstr 1 2 0\ninstr 3 1 2\ninstr 6 0 0\ninstr 1 2 0\ninstr 8 0 0\ninstr 35 11 0\ninstr 28 0 2\ninstr 37 5 13\ninstr 0 1 0\ninstr 3 1 2\ninstr 6 0 0\ninstr 25 0 0\ninstr 23 3 1\ninstr 39 1 19\ninstr 1 3 0\ninstr 0 0 0\ninstr 7 7 0\ninstr 33 23 24\ninstr 48 0 0\ninstr 48 0 0\nunit 2 0 2 2 3\ncell N 0 0 0 1 1 0\ncell M 0 0 1 1 2 1\nentry 11 0\nentry 12 2\ninstr 1 0 0\ninstr 34 1 2\ninstr 41 0 0\n",
    },
    // A channel, a process, and a reference of a FUNCTION.
    Row {
        source: b"      PROGRAM ASKS
      INPORT (INTEGER) P
      OUTPORT (INTEGER) Q
      CHANNEL(IN=P,OUT=Q)
      PROCESSES
      PROCESSCALL A(Q)
      ENDPROCESSES
      RECEIVE(P) I
      PRINT *, NEXT(I), 'A'
      END
      PROCESS A(Q)
      INTENT (IN) Q
      OUTPORT (INTEGER) Q
      SEND(Q) 7
      END
      FUNCTION NEXT(N)
      INTENT (IN) N
      NEXT = N+1
      END
",
        text: b"fmc object 1\ntypes 1\ntype 1\nfield 0 0 1 0\nunits 3\nunit 0 0 3 7 19\ncell P 2 0 0 1 0 0\ncell Q 3 0 1 1 0 0\ncell I 0 0 2 1 0 0\nentry 4 0\nentry 5 3\nentry 6 4\nentry 7 6\nentry 8 8\nentry 9 11\nentry 10 18\ninstr 0 0 0\ninstr 0 1 0\ninstr 52 3 0\ninstr 32 4 0\ninstr 24 1 1\ninstr 43 1 6\ninstr 58 7 0\ninstr 59 8 0\ninstr 0 0 0\ninstr 23 2 1\ninstr 50 11 0\ninstr 23 2 1\ninstr 40 2 13\ninstr 2 0 0\ninstr 18 0 0\ninstr 16 65 0\ninstr 17 0 0\ninstr 38 18 0\ninstr 48 0 0\nunit 1 0 1 2 5\ncell Q 3 0 0 1 1 0\nentry 14 0\nentry 15 4\ninstr 0 0 0\ninstr 0 7 0\ninstr 22 0 0\ninstr 49 4 0\ninstr 48 0 0\nunit 3 0 2 2 5\ncell NEXT 0 0 0 1 0 0\ncell N 0 0 1 1 1 0\nentry 18 0\nentry 19 4\ninstr 1 1 0\ninstr 0 1 0\ninstr 7 11 0\ninstr 34 0 4\ninstr 42 0 0\n",
    },
];

const REFUSALS: [Row; 3] = [
    Row {
        source: b"",
        text: b"line 1: E26 not exactly one PROGRAM\n",
    },
    Row {
        source: b"      I = 2*-3\n",
        text: b"line 1: E10 no statement of the grammar\n",
    },
    Row {
        source: b"      PROGRAM P\n      X = 1\n      END\n",
        text: b"line 2: E31 no type\n",
    },
];

#[test]
fn objects(rt: HostRuntime) -> Result<(), Fail> {
    for (i, row) in OBJECTS.iter().enumerate() {
        let (ran, text) = answer(rt.alloc(), &["compile"], row.source)?;
        assert_eq!(rt; text.as_slice(), row.text, "row {i}");
        assert_eq!(rt; ran.exit, Exit::Done, "row {i}");
        assert_eq!(rt; ran.history.len(), 0, "row {i}");
        assert_eq!(rt; ran.paths.len(), 0, "row {i}");
        let image = read(rt.alloc(), &text)?;
        assert!(rt; verify(rt.alloc(), image).is_ok(), "row {i}");
    }
    Ok(())
}

#[test]
fn refused_as_checked(rt: HostRuntime) -> Result<(), Fail> {
    for (i, row) in REFUSALS.iter().enumerate() {
        for word in ["compile", "check"] {
            let (ran, text) = answer(rt.alloc(), &[word], row.source)?;
            assert_eq!(rt; text.as_slice(), row.text, "row {i}");
            assert_eq!(rt; ran.exit, Exit::Refused, "row {i}");
        }
    }
    Ok(())
}
