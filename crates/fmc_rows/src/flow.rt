//! Programs that can't deadlock, and what `flow` says of those that may: of each of its sentences programs that break
//! it, and one close to it that doesn't.

use crate::answers::answer;
use crate::schedules::first_deadlock;
use fmc::Exit;
use std::test::Fail;

/// A source, and what `flow` writes of it.
struct Row {
    source: &'static [u8],
    told: &'static [u8],
}

const NO_DEADLOCK: &[u8] = b"no deadlock\n";

const ROWS: [Row; 18] = [
    // Two processes with a channel, whose ports are given for good.
    Row {
        source: b"      program example
      inport (integer) pi
      outport (integer) po
      channel(in=pi, out=po)
      processes
        processcall producer(3, po)
        processcall consumer(pi)
      endprocesses
      end
      process producer(nummsgs, po)
      intent (in) nummsgs, po
      outport (integer) po
      integer nummsgs, i
      do i = 1, nummsgs
        send(po) i
      enddo
      endchannel(po)
      end
      process consumer(pi)
      intent (in) pi
      inport (integer) pi
      integer message, ioval
      receive(port=pi, iostat=ioval) message
      do while (ioval .eq. 0)
        print *, 'got', message
        receive(port=pi, iostat=ioval) message
      enddo
      end
",
        told: NO_DEADLOCK,
    },
    // The first process gives its outport back.
    Row {
        source: b"      PROGRAM SUM
      INPORT (INTEGER) PI
      OUTPORT (INTEGER) PO
      CHANNEL(IN=PI,OUT=PO)
      PROCESSES
      PROCESSCALL PRODUC(10,PO)
      PROCESSCALL CONSUM(PI)
      ENDPROCESSES
      END
      PROCESS PRODUC(N,P)
      OUTPORT (INTEGER) P
      DO 10 I = 1, N
   10 SEND(P) I
      ENDCHANNEL(P)
      END
      PROCESS CONSUM(P)
      INPORT (INTEGER) P
      INTEGER S
   10 RECEIVE(P,END=20) I
      S = S+I
      GOTO 10
   20 PRINT *, S
      END
",
        told: b"may deadlock: line 6\n",
    },
    // A ring.
    Row {
        source: b"      PROGRAM DEAD
      INPORT (INTEGER) A, B
      OUTPORT (INTEGER) C, D
      CHANNEL(IN=A,OUT=C)
      CHANNEL(IN=B,OUT=D)
      PROCESSES
      PROCESSCALL X(A,D)
      PROCESSCALL X(B,C)
      ENDPROCESSES
      END
      PROCESS X(P,Q)
      INTENT (IN) P, Q
      INPORT (INTEGER) P
      OUTPORT (INTEGER) Q
      RECEIVE(P) I
      SEND(Q) I
      END
",
        told: b"may deadlock: line 7\n",
    },
    // A message with an array, and a port that no channel has.
    Row {
        source: b"      PROGRAM F
      INPORT (INTEGER N, INTEGER V(4)) S
      INPORT (INTEGER) P
      OUTPORT (INTEGER) Q
      CHANNEL(IN=P,OUT=Q)
      PROCESSES
      PROCESSCALL W(Q)
      PROCESSCALL R(P)
      ENDPROCESSES
      END
      PROCESS W(Q)
      INTENT (IN) Q
      OUTPORT (INTEGER) Q
      SEND(Q) 1
      END
      PROCESS R(P)
      INTENT (IN) P
      INPORT (INTEGER) P
      RECEIVE(P) I
      PRINT *, I
      END
",
        told: NO_DEADLOCK,
    },
    // An array of ports.
    Row {
        source: b"      PROGRAM F
      INPORT (INTEGER) S(2)
      INPORT (INTEGER) P
      OUTPORT (INTEGER) Q
      CHANNEL(IN=P,OUT=Q)
      PROCESSES
      PROCESSCALL W(Q)
      PROCESSCALL R(P)
      ENDPROCESSES
      END
      PROCESS W(Q)
      INTENT (IN) Q
      OUTPORT (INTEGER) Q
      SEND(Q) 1
      END
      PROCESS R(P)
      INTENT (IN) P
      INPORT (INTEGER) P
      RECEIVE(P) I
      PRINT *, I
      END
",
        told: b"may deadlock: line 2\n",
    },
    // The same by DIMENSION, which is told at its own line.
    Row {
        source: b"      PROGRAM F
      DIMENSION M(3), S(2)
      INPORT (INTEGER) S
      INPORT (INTEGER) P
      OUTPORT (INTEGER) Q
      CHANNEL(IN=P,OUT=Q)
      PROCESSES
      PROCESSCALL W(Q)
      PROCESSCALL R(P)
      ENDPROCESSES
      END
      PROCESS W(Q)
      INTENT (IN) Q
      OUTPORT (INTEGER) Q
      SEND(Q) 1
      END
      PROCESS R(P)
      INTENT (IN) P
      INPORT (INTEGER) P
      RECEIVE(P) I
      PRINT *, I
      END
",
        told: b"may deadlock: line 2\n",
    },
    // A port that carries ports.
    Row {
        source: b"      PROGRAM F
      INPORT (OUTPORT (INTEGER)) S
      INPORT (INTEGER) P
      OUTPORT (INTEGER) Q
      CHANNEL(IN=P,OUT=Q)
      PROCESSES
      PROCESSCALL W(Q)
      PROCESSCALL R(P)
      ENDPROCESSES
      END
      PROCESS W(Q)
      INTENT (IN) Q
      OUTPORT (INTEGER) Q
      SEND(Q) 1
      END
      PROCESS R(P)
      INTENT (IN) P
      INPORT (INTEGER) P
      RECEIVE(P) I
      PRINT *, I
      END
",
        told: b"may deadlock: line 2\n",
    },
    // Computing around the block.
    Row {
        source: b"      PROGRAM F
      INPORT (INTEGER) P
      OUTPORT (INTEGER) Q
      I = 2
      CHANNEL(IN=P,OUT=Q)
      PROCESSES
      PROCESSCALL W(Q)
      PROCESSCALL R(P)
      ENDPROCESSES
      PRINT *, I
      STOP
      END
      PROCESS W(Q)
      INTENT (IN) Q
      OUTPORT (INTEGER) Q
      SEND(Q) 1
      END
      PROCESS R(P)
      INTENT (IN) P
      INPORT (INTEGER) P
      RECEIVE(P) I
      PRINT *, I
      END
",
        told: NO_DEADLOCK,
    },
    // A branch.
    Row {
        source: b"      PROGRAM F
      INPORT (INTEGER) P
      OUTPORT (INTEGER) Q
      IF (.TRUE.) I = 2
      CHANNEL(IN=P,OUT=Q)
      PROCESSES
      PROCESSCALL W(Q)
      PROCESSCALL R(P)
      ENDPROCESSES
      END
      PROCESS W(Q)
      INTENT (IN) Q
      OUTPORT (INTEGER) Q
      SEND(Q) 1
      END
      PROCESS R(P)
      INTENT (IN) P
      INPORT (INTEGER) P
      RECEIVE(P) I
      PRINT *, I
      END
",
        told: b"may deadlock: line 4\n",
    },
    // A second block.
    Row {
        source: b"      PROGRAM F
      INPORT (INTEGER) P
      OUTPORT (INTEGER) Q
      CHANNEL(IN=P,OUT=Q)
      PROCESSES
      PROCESSCALL W(Q)
      PROCESSCALL R(P)
      ENDPROCESSES
      PROCESSES
      PROCESSCALL N
      ENDPROCESSES
      END
      PROCESS N
      END
      PROCESS W(Q)
      INTENT (IN) Q
      OUTPORT (INTEGER) Q
      SEND(Q) 1
      END
      PROCESS R(P)
      INTENT (IN) P
      INPORT (INTEGER) P
      RECEIVE(P) I
      PRINT *, I
      END
",
        told: b"may deadlock: line 9\n",
    },
    // A second channel of one outport.
    Row {
        source: b"      PROGRAM F
      INPORT (INTEGER) S
      INPORT (INTEGER) P
      OUTPORT (INTEGER) Q
      CHANNEL(IN=S,OUT=Q)
      CHANNEL(IN=P,OUT=Q)
      PROCESSES
      PROCESSCALL W(Q)
      PROCESSCALL R(P)
      ENDPROCESSES
      END
      PROCESS W(Q)
      INTENT (IN) Q
      OUTPORT (INTEGER) Q
      SEND(Q) 1
      END
      PROCESS R(P)
      INTENT (IN) P
      INPORT (INTEGER) P
      RECEIVE(P) I
      PRINT *, I
      END
",
        told: b"may deadlock: line 6\n",
    },
    // An outport that no call gives.
    Row {
        source: b"      PROGRAM F
      INPORT (INTEGER) P
      OUTPORT (INTEGER) Q
      CHANNEL(IN=P,OUT=Q)
      PROCESSES
      PROCESSCALL R(P)
      ENDPROCESSES
      END
      PROCESS W(Q)
      INTENT (IN) Q
      OUTPORT (INTEGER) Q
      SEND(Q) 1
      END
      PROCESS R(P)
      INTENT (IN) P
      INPORT (INTEGER) P
      RECEIVE(P) I
      PRINT *, I
      END
",
        told: b"may deadlock: line 4\n",
    },
    // An outport that two calls give.
    Row {
        source: b"      PROGRAM F
      INPORT (INTEGER) P
      OUTPORT (INTEGER) Q
      CHANNEL(IN=P,OUT=Q)
      PROCESSES
      PROCESSCALL W(Q)
      PROCESSCALL W(Q)
      PROCESSCALL R(P)
      ENDPROCESSES
      END
      PROCESS W(Q)
      INTENT (IN) Q
      OUTPORT (INTEGER) Q
      SEND(Q) 1
      END
      PROCESS R(P)
      INTENT (IN) P
      INPORT (INTEGER) P
      RECEIVE(P) I
      PRINT *, I
      END
",
        told: b"may deadlock: line 7\n",
    },
    // A process that calls.
    Row {
        source: b"      PROGRAM F
      INPORT (INTEGER) P
      OUTPORT (INTEGER) Q
      CHANNEL(IN=P,OUT=Q)
      PROCESSES
      PROCESSCALL W(Q)
      PROCESSCALL R(P)
      ENDPROCESSES
      END
      PROCESS W(Q)
      INTENT (IN) Q
      OUTPORT (INTEGER) Q
      CALL S
      SEND(Q) 1
      END
      PROCESS R(P)
      INTENT (IN) P
      INPORT (INTEGER) P
      RECEIVE(P) I
      PRINT *, I
      END
      SUBROUTINE S
      CALL T
      END
      SUBROUTINE T
      I = 1
      END
",
        told: NO_DEADLOCK,
    },
    // A process that makes a channel below a CALL of a CALL.
    Row {
        source: b"      PROGRAM F
      INPORT (INTEGER) P
      OUTPORT (INTEGER) Q
      CHANNEL(IN=P,OUT=Q)
      PROCESSES
      PROCESSCALL W(Q)
      PROCESSCALL R(P)
      ENDPROCESSES
      END
      PROCESS W(Q)
      INTENT (IN) Q
      OUTPORT (INTEGER) Q
      CALL S
      SEND(Q) 1
      END
      PROCESS R(P)
      INTENT (IN) P
      INPORT (INTEGER) P
      RECEIVE(P) I
      PRINT *, I
      END
      SUBROUTINE S
      CALL T
      END
      SUBROUTINE T
      INPORT (INTEGER) P
      OUTPORT (INTEGER) Q
      CHANNEL(IN=P,OUT=Q)
      END
",
        told: b"may deadlock: line 6\n",
    },
    // A pipe of three.
    Row {
        source: b"      PROGRAM F
      INPORT (INTEGER) P, S
      OUTPORT (INTEGER) Q, T
      CHANNEL(IN=P,OUT=Q)
      CHANNEL(OUT=T,IN=S)
      PROCESSES
      PROCESSCALL R(S)
      PROCESSCALL M(P,T)
      PROCESSCALL W(Q)
      ENDPROCESSES
      END
      PROCESS M(P,T)
      INTENT (IN) P, T
      INPORT (INTEGER) P
      OUTPORT (INTEGER) T
      RECEIVE(P) I
      SEND(T) I
      END
      PROCESS W(Q)
      INTENT (IN) Q
      OUTPORT (INTEGER) Q
      SEND(Q) 1
      END
      PROCESS R(P)
      INTENT (IN) P
      INPORT (INTEGER) P
      RECEIVE(P) I
      PRINT *, I
      END
",
        told: NO_DEADLOCK,
    },
    // A process that waits for itself.
    Row {
        source: b"      PROGRAM F
      INPORT (INTEGER) P
      OUTPORT (INTEGER) Q
      CHANNEL(IN=P,OUT=Q)
      PROCESSES
      PROCESSCALL M(P,Q)
      ENDPROCESSES
      END
      PROCESS M(P,Q)
      INTENT (IN) P, Q
      INPORT (INTEGER) P
      OUTPORT (INTEGER) Q
      RECEIVE(P) I
      SEND(Q) I
      END
",
        told: b"may deadlock: line 6\n",
    },
    // The least of several lines.
    Row {
        source: b"      PROGRAM F
      INPORT (INTEGER) S
      INPORT (INTEGER) P
      OUTPORT (INTEGER) Q
      CHANNEL(IN=S,OUT=Q)
      CHANNEL(IN=P,OUT=Q)
      PROCESSES
      PROCESSCALL W(Q)
      PROCESSCALL R(P)
      ENDPROCESSES
      PROCESSES
      PROCESSCALL W(Q)
      ENDPROCESSES
      END
      PROCESS W(Q)
      INTENT (IN) Q
      OUTPORT (INTEGER) Q
      SEND(Q) 1
      END
      PROCESS R(P)
      INTENT (IN) P
      INPORT (INTEGER) P
      RECEIVE(P) I
      PRINT *, I
      END
",
        told: b"may deadlock: line 6\n",
    },
];

/// The programs.
fn rows() -> &'static [Row] {
    &ROWS
}

#[test]
fn deadlocks_are_told_ahead(rt: HostRuntime) -> Result<(), Fail> {
    for (i, row) in rows().iter().enumerate() {
        let (ran, text) = answer(rt.alloc(), &["flow"], row.source)?;
        assert_eq!(rt; text.as_slice(), row.told, "row {i}");
        assert_eq!(rt; ran.exit, Exit::Done, "row {i}");
    }
    Ok(())
}

// What `flow` calls free of deadlock has none under any list of choices that is tried.
#[test]
fn safe_programs_come_to_their_end(rt: HostRuntime) -> Result<(), Fail> {
    for (i, row) in rows().iter().enumerate() {
        if row.told == NO_DEADLOCK {
            assert_eq!(rt; first_deadlock(rt.alloc(), row.source)?, None, "row {i}");
        }
    }
    Ok(())
}
