//! Programs, and the whole texts and exits that they are answered with.

use crate::answers::{answer, play};
use crate::schedules::first_other;
use fmc::Exit;
use std::alloc::Global;
use std::test::Fail;

const USAGE: &[u8] =
    b"usage: fmc run or trace or replay or check or list or make N or demo N or compile or exec or flow or nodes N\n";

/// A source, and the exit and the text for it.
pub(crate) struct Row {
    pub(crate) source: &'static [u8],
    pub(crate) exit: Exit,
    pub(crate) text: &'static [u8],
}

const LEAST: &[u8] = b"      PROGRAM P\n      PRINT *, 1\n      END\n";

const PAIR: &[u8] = b"      PROGRAM PAIR
      INPORT (INTEGER) P
      OUTPORT (INTEGER) Q
      CHANNEL(IN=P,OUT=Q)
      PROCESSES
      PROCESSCALL A(Q)
      PROCESSCALL B(P)
      ENDPROCESSES
      END
      PROCESS A(Q)
      OUTPORT (INTEGER) Q
      SEND(Q) 3
      SEND(Q) 4
      ENDCHANNEL(Q)
      END
      PROCESS B(P)
      INPORT (INTEGER) P
      RECEIVE(P) I
      RECEIVE(P) J
      PRINT *, J-I, I*J
      END
";

const PAIR_TEXT: &[u8] = b" 1 12\nvar P = NULL\nvar Q = NULL\nturns 33\n";

/// Two processes that both receive first.
const DEAD: &[u8] = b"      PROGRAM DEAD
      INPORT (INTEGER) A, B
      OUTPORT (INTEGER) C, D
      CHANNEL(IN=A,OUT=C)
      CHANNEL(IN=B,OUT=D)
      PROCESSES
      PROCESSCALL X(A,D)
      PROCESSCALL X(B,C)
      ENDPROCESSES
      END
      PROCESS X(P,Q)
      INPORT (INTEGER) P
      OUTPORT (INTEGER) Q
      RECEIVE(P) I
      SEND(Q) I
      END
";

/// Numbers and a port that come back from children, in the order of the calls.
const BACK: &[u8] = b"      PROGRAM BACK
      INPORT (INTEGER) P
      OUTPORT (INTEGER) Q
      CHANNEL(IN=P,OUT=Q)
      I = 5
      K = 7
      PROCESSES
      PROCESSCALL A(I,(K),1,Q)
      PROCESSCALL B(I,K)
      ENDPROCESSES
      PRINT *, I, K
      RECEIVE(P) J
      PRINT *, J
      END
      PROCESS A(I,K,N,Q)
      OUTPORT (INTEGER) Q
      I = I+N
      K = 0
      SEND(Q) I
      END
      PROCESS B(I,K)
      I = I+K
      K = 1
      END
";

/// A port that is passed twice: the first child gets it, the second gets NULL.
const TWICE: &[u8] = b"      PROGRAM TWICE
      INPORT (INTEGER) P
      OUTPORT (INTEGER) Q
      CHANNEL(IN=P,OUT=Q)
      PROCESSES
      PROCESSCALL A(Q)
      PROCESSCALL A(Q)
      ENDPROCESSES
      END
      PROCESS A(Q)
      OUTPORT (INTEGER) Q
      SEND(Q) 1
      END
";

/// A merger of two writers.
const MERGED: &[u8] = b"      PROGRAM MERGED
      INPORT (INTEGER) P
      OUTPORT (INTEGER) Q
      OUTPORT (INTEGER) R
      MERGER(IN=P,OUT=Q,OUT=R)
      END
";

/// Nineteen continuation lines.
const ONES: &[u8] = b"      PROGRAM P
      PRINT *, 1
     +,1
     +,1
     +,1
     +,1
     +,1
     +,1
     +,1
     +,1
     +,1
     +,1
     +,1
     +,1
     +,1
     +,1
     +,1
     +,1
     +,1
     +,1
     +,1
      END
";

/// And twenty.
const TOO_MANY_ONES: &[u8] = b"      PROGRAM P
      PRINT *, 1
     +,1
     +,1
     +,1
     +,1
     +,1
     +,1
     +,1
     +,1
     +,1
     +,1
     +,1
     +,1
     +,1
     +,1
     +,1
     +,1
     +,1
     +,1
     +,1
     +,1
      END
";

/// A product that passes the greatest number, after one that doesn't.
const BEYOND: &[u8] =
    b"      PROGRAM A\n      I = 999999999999999999*9\n      PRINT *, I\n      I = I*2\n      END\n";

const RUNS: [Row; 26] = [
    Row {
        source: LEAST,
        exit: Exit::Done,
        text: b" 1\n",
    },
    Row {
        source: b"",
        exit: Exit::Refused,
        text: b"line 1: E26 not exactly one PROGRAM\n",
    },
    Row {
        source: BEYOND,
        exit: Exit::Faulted,
        text: b" 8999999999999999991\nfault main line 4 Overflow\n",
    },
    Row {
        source: b"      PROGRAM P\n      I = 2**3\n      PRINT *, I, 7/2\n      END\n",
        exit: Exit::Done,
        text: b" 8 3\n",
    },
    Row {
        source: b"      program p\r\nC a comment\n      k = -(3 + 4) * 2\r\n\n      print *, k, -k, k*k - 1\n      print *\n      end",
        exit: Exit::Done,
        text: b" -14 14 195\n \n",
    },
    Row {
        source: b"      PROGRAM P\n      PRINT *, I, J007, +1, 2-3-4, 2-3*4\n      END\n",
        exit: Exit::Done,
        text: b" 0 0 1 -5 -10\n",
    },
    Row {
        source: b"      PROGRAM P\n      I = 2*-3\n      END\n",
        exit: Exit::Refused,
        text: b"line 2: E10 no statement of the grammar\n",
    },
    Row {
        source: b"      PROGRAM P\n   10 PRINT *, 1\n      END\n",
        exit: Exit::Done,
        text: b" 1\n",
    },
    Row {
        source: b"      PRINT *, 1\n      END\n",
        exit: Exit::Refused,
        text: b"line 1: E20 statement out of place\n",
    },
    Row {
        source: b"      PROGRAM P\n      PRINT *, 1\n",
        exit: Exit::Refused,
        text: b"line 2: E28 no END\n",
    },
    Row {
        source: b"\n      PROGRAM P\n",
        exit: Exit::Refused,
        text: b"line 2: E28 no END\n",
    },
    Row {
        source: b"      PROGRAM P\n      PROGRAM Q\n      END\n",
        exit: Exit::Refused,
        text: b"line 2: E20 statement out of place\n",
    },
    Row {
        source: b"      PROGRAM P\n      PRINT *, 1                                                      ,2,3\n      END\n",
        exit: Exit::Done,
        text: b" 1 2\n",
    },
    Row {
        source: b"      PROGRAM P\n      I = 9223372036854775808\n      END\n",
        exit: Exit::Refused,
        text: b"line 2: E11 number too large\n",
    },
    Row {
        source: b"      PROGRAM P\n      PRINT *, 'AB\n     1CD'\n      END\n",
        exit: Exit::Done,
        text: b" AB                                                      CD\n",
    },
    Row {
        source: ONES,
        exit: Exit::Done,
        text: b" 1 1 1 1 1 1 1 1 1 1 1 1 1 1 1 1 1 1 1 1\n",
    },
    Row {
        source: TOO_MANY_ONES,
        exit: Exit::Refused,
        text: b"line 22: E04 too many continuations\n",
    },
    Row {
        source: DEAD,
        exit: Exit::Deadlocked,
        text: b"wait main line 9 join for main/1.1\nwait main/1.1 line 14 receive main:1 for main/1.2\nwait main/1.2 line 14 receive main:2 for main/1.1\ncycle main/1.1 main/1.2\n",
    },
    Row {
        source: PAIR,
        exit: Exit::Done,
        text: b" 1 12\n",
    },
    Row {
        source: BACK,
        exit: Exit::Done,
        text: b" 12 1\n 6\n",
    },
    Row {
        source: TWICE,
        exit: Exit::Faulted,
        text: b"fault main/1.2 line 12 NullPort\nwait main line 8 join for main/1.2\n",
    },
    Row {
        source: b"      PROGRAM P\n      INPORT (INTEGER) A\n      OUTPORT (INTEGER) B\n      CHANNEL(IN=A,OUT=B)\n      SEND(B) 1\n      ENDCHANNEL(B)\n      RECEIVE(A) I\n      PRINT *, I\n      RECEIVE(A) I\n      END\n",
        exit: Exit::Faulted,
        text: b" 1\nfault main line 9 EndOfChannel\n",
    },
    Row {
        source: b"      PROGRAM P\n      PROCESSES\n      PROCESSCALL C(1)\n      ENDPROCESSES\n      END\n",
        exit: Exit::Refused,
        text: b"line 3: E43 unknown unit\n",
    },
    Row {
        source: b"      PROGRAM P\n      PROCESSES\n      PRINT *, 1\n      ENDPROCESSES\n      END\n",
        exit: Exit::Refused,
        text: b"line 3: E29 not allowed in a process block\n",
    },
    Row {
        source: b"      PROGRAM P\n      OUTPORT (INTEGER) A\n      RECEIVE(A) I\n      END\n",
        exit: Exit::Refused,
        text: b"line 3: E51 wrong port direction\n",
    },
    Row {
        source: b"      PROGRAM P\n      INPORT (INTEGER) A\n      PROCESSES\n      PROCESSCALL B(A)\n      ENDPROCESSES\n      END\n      PROCESS B(I)\n      END\n",
        exit: Exit::Refused,
        text: b"line 4: E50 port as a value\n",
    },
];

/// Words, and the answer for a source.
struct Call {
    words: &'static [&'static str],
    row: Row,
}

const CALLS: [Call; 13] = [
    Call {
        words: &["run", "--vars"],
        row: Row {
            source: LEAST,
            exit: Exit::Done,
            text: b" 1\nturns 5\n",
        },
    },
    Call {
        words: &["run", "--turns", "5"],
        row: Row {
            source: LEAST,
            exit: Exit::Done,
            text: b" 1\n",
        },
    },
    Call {
        words: &["run", "--turns=4"],
        row: Row {
            source: LEAST,
            exit: Exit::Spent,
            text: b"spent 4\n",
        },
    },
    Call {
        words: &["run", "--vars"],
        row: Row {
            source: PAIR,
            exit: Exit::Done,
            text: PAIR_TEXT,
        },
    },
    Call {
        words: &["list"],
        row: Row {
            source: LEAST,
            exit: Exit::Done,
            text: b"     1       PROGRAMP\n     2       PRINT*,1\n     3       END\n",
        },
    },
    Call {
        words: &["list"],
        row: Row {
            source: b"      program p\n      do 10 i = 1 , 3\n\n   10 continue\n      end",
            exit: Exit::Done,
            text: b"     1       PROGRAMP\n     2       DO10I=1,3\n     4    10 CONTINUE\n     5       END\n",
        },
    },
    Call {
        words: &["list"],
        row: Row {
            source: b"      I = 2*-3\n",
            exit: Exit::Refused,
            text: b"line 1: E10 no statement of the grammar\n",
        },
    },
    Call {
        words: &["list", "--vars"],
        row: Row {
            source: LEAST,
            exit: Exit::Usage,
            text: USAGE,
        },
    },
    Call {
        words: &["list"],
        row: Row {
            source: b"      do 10 i = 1 , 3\n",
            exit: Exit::Refused,
            text: b"line 1: E20 statement out of place\n",
        },
    },
    Call {
        words: &["check"],
        row: Row {
            source: LEAST,
            exit: Exit::Done,
            text: b"deterministic\n",
        },
    },
    Call {
        words: &["check"],
        row: Row {
            source: MERGED,
            exit: Exit::Done,
            text: b"not deterministic: line 5\n",
        },
    },
    Call {
        words: &["check", "--vars"],
        row: Row {
            source: LEAST,
            exit: Exit::Usage,
            text: USAGE,
        },
    },
    Call {
        words: &["compile", "--turns=5"],
        row: Row {
            source: LEAST,
            exit: Exit::Usage,
            text: USAGE,
        },
    },
];

/// A merger of one writer.
const ONE: &[u8] = b"      PROGRAM ONE
      INPORT (INTEGER) P
      OUTPORT (INTEGER) Q
      MERGER(IN=P,OUT=Q)
      SEND(Q) 4
      RECEIVE(P) I
      PRINT *, I
      END
";

/// Mergers of one writer between processes.
const ACROSS: &[u8] = b"      PROGRAM ACROSS
      INPORT (INTEGER) P(2)
      OUTPORT (INTEGER) Q(2)
      DO I = 1, 2
      MERGER(IN=P(I),OUT=Q(I))
      ENDDO
      PROCESSES
      PROCESSCALL W(1,Q(1))
      PROCESSCALL W(2,Q(2))
      PROCESSCALL R(P(1),P(2))
      ENDPROCESSES
      END
      PROCESS W(N,Q)
      OUTPORT (INTEGER) Q
      SEND(Q) N
      SEND(Q) N + 10
      ENDCHANNEL(Q)
      END
      PROCESS R(P,Q)
      INPORT (INTEGER) P, Q
      RECEIVE(P) I
      RECEIVE(Q) J
      RECEIVE(Q) K
      PRINT *, I, J, K
      END
";

/// What `check` writes where one writer stands behind a MERGER, and where several may.
const MERGERS: [Row; 7] = [
    Row {
        source: ONE,
        exit: Exit::Done,
        text: b"deterministic\n",
    },
    Row {
        source: ACROSS,
        exit: Exit::Done,
        text: b"deterministic\n",
    },
    // One element of an array.
    Row {
        source: b"      PROGRAM P
      INPORT (INTEGER) P
      OUTPORT (INTEGER) Q(2)
      MERGER(IN=P,OUT=Q(2))
      END
",
        exit: Exit::Done,
        text: b"deterministic\n",
    },
    // A whole array, of one element.
    Row {
        source: b"      PROGRAM P
      INPORT (INTEGER) P
      OUTPORT (INTEGER) Q(1)
      MERGER(IN=P,OUT=Q)
      END
",
        exit: Exit::Done,
        text: b"not deterministic: line 4\n",
    },
    // One outport twice.
    Row {
        source: b"      PROGRAM P
      INPORT (INTEGER) P
      OUTPORT (INTEGER) Q
      MERGER(IN=P,OUT=Q,OUT=Q)
      END
",
        exit: Exit::Done,
        text: b"not deterministic: line 4\n",
    },
    // A name that is an array's in one of two units.
    Row {
        source: b"      PROGRAM P
      INPORT (INTEGER) P
      OUTPORT (INTEGER) Q
      IF (.TRUE.) MERGER(IN=P,OUT=Q)
      CALL S
      END
      SUBROUTINE S
      INPORT (INTEGER) P
      OUTPORT (INTEGER) Q(2)
      IF (.TRUE.) MERGER(IN=P,OUT=Q)
      END
",
        exit: Exit::Done,
        text: b"not deterministic: line 10\n",
    },
    // The same, where that unit isn't reached.
    Row {
        source: b"      PROGRAM P
      INPORT (INTEGER) P
      OUTPORT (INTEGER) Q
      MERGER(IN=P,OUT=Q)
      END
      SUBROUTINE S
      INPORT (INTEGER) P
      OUTPORT (INTEGER) Q(2)
      MERGER(IN=P,OUT=Q)
      END
",
        exit: Exit::Done,
        text: b"deterministic\n",
    },
];

/// The programs that are run.
pub(crate) fn run_rows() -> &'static [Row] {
    &RUNS
}

#[test]
fn mergers_of_one_writer(rt: HostRuntime) -> Result<(), Fail> {
    for (i, row) in MERGERS.iter().enumerate() {
        let (ran, text) = answer(rt.alloc(), &["check"], row.source)?;
        assert_eq!(rt; text.as_slice(), row.text, "row {i}");
        assert_eq!(rt; ran.exit, row.exit, "row {i}");
    }
    let (ran, text) = answer(rt.alloc(), &["run"], ONE)?;
    assert_eq!(rt; text.as_slice(), b" 4\n".as_slice());
    assert_eq!(rt; ran.exit, Exit::Done);
    let (_, text) = answer(rt.alloc(), &["run"], ACROSS)?;
    assert_eq!(rt; text.as_slice(), b" 1 2 12\n".as_slice());
    assert_eq!(rt; first_other(rt.alloc(), ACROSS)?, None);
    Ok(())
}

#[test]
fn runs(rt: HostRuntime) -> Result<(), Fail> {
    for row in run_rows() {
        let (ran, text) = answer(rt.alloc(), &["run"], row.source)?;
        assert_eq!(rt; text.as_slice(), row.text);
        assert_eq!(rt; ran.exit, row.exit);
    }
    Ok(())
}

#[test]
fn words(rt: HostRuntime) -> Result<(), Fail> {
    for call in &CALLS {
        let (ran, text) = answer(rt.alloc(), call.words, call.row.source)?;
        assert_eq!(rt; text.as_slice(), call.row.text);
        assert_eq!(rt; ran.exit, call.row.exit);
    }
    Ok(())
}

#[test]
fn the_kept_schedule(rt: HostRuntime) -> Result<(), Fail> {
    let (ran, _) = answer(rt.alloc(), &["run"], BEYOND)?;
    assert_eq!(rt; ran.history.len(), 1);
    assert_eq!(rt; (ran.history[0].number, ran.history[0].steps), (0, 3));
    assert_eq!(rt; ran.paths.len(), 1);
    let (ran, _) = answer(rt.alloc(), &["run"], PAIR)?;
    assert_eq!(rt; ran.paths.len(), 3);
    Ok(())
}

#[test]
fn choices_of_the_caller(rt: HostRuntime) -> Result<(), Fail> {
    let schedules: [&[u64]; 3] = [
        &[],
        &[1, 1, 1, 1, 1, 1, 1, 1, 1, 1, 1, 1, 1, 1, 1, 1],
        &[1, 0, 1, 0, 1, 0, 1, 0, 1, 0, 1, 0, 1, 0, 1, 0],
    ];
    for choices in schedules {
        let (ran, text) = play(rt.alloc(), PAIR, choices)?;
        assert_eq!(rt; text.as_slice(), PAIR_TEXT);
        assert_eq!(rt; ran.exit, Exit::Done);
    }
    Ok(())
}

/// The number of the process that made the fourth piece of PAIR under these choices.
fn fourth(alloc: Global, choices: &[u64]) -> Result<u32, Fail> {
    let (ran, _) = play(alloc, PAIR, choices)?;
    match ran.history.get(3) {
        Some(turn) => Ok(turn.number),
        None => Ok(0),
    }
}

#[test]
fn choices_are_followed(rt: HostRuntime) -> Result<(), Fail> {
    assert_eq!(rt; fourth(rt.alloc(), &[])?, 2);
    assert_eq!(rt; fourth(rt.alloc(), &[0, 0, 0, 1])?, 1);
    assert_eq!(rt; fourth(rt.alloc(), &[0, 0, 0, 2])?, 2);
    Ok(())
}
