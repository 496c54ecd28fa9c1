//! Programs of the whole language, and the whole texts and exits that they are answered with.

use crate::answers::{answer, play};
use crate::schedules::first_other;
use fmc::Exit;
use std::test::Fail;

/// A source, whether the variables are asked for, and the exit and the text for it.
pub(crate) struct Row {
    pub(crate) source: &'static [u8],
    words: &'static [&'static str],
    pub(crate) exit: Exit,
    text: &'static [u8],
}

const RUN: &[&str] = &["run"];

const VARS: &[&str] = &["run", "--vars"];

const ROWS: [Row; 33] = [
    // Powers, quotients and remainders.
    Row {
        source: b"      PROGRAM P
      PRINT *, -2**2, 2**(-1), 7/(-2), MOD(-7,3)
      END
",
        words: RUN,
        exit: Exit::Done,
        text: b" -4 0 -3 -1\n",
    },
    // A loop, and a variable whose name begins as one.
    Row {
        source: b"      PROGRAM D
      INTEGER DO10I
      DO 10 I = 1, 3
   10 CONTINUE
      PRINT *, DO10I, I
      END
",
        words: RUN,
        exit: Exit::Done,
        text: b" 0 4\n",
    },
    // A number too large, and the variables.
    Row {
        source: b"      PROGRAM O
      I = 9223372036854775807
      PRINT *, I
      I = I+1
      PRINT *, I
      END
",
        words: VARS,
        exit: Exit::Faulted,
        text: b" 9223372036854775807\nvar I = 9223372036854775807\nfault main line 4 Overflow\nturns 24\n",
    },
    // A loop without trips, and one whose variable becomes too large.
    Row {
        source: b"      PROGRAM T
      DO 10 I = 5, 1
   10 CONTINUE
      PRINT *, I
      DO 20 J = 9223372036854775806, 9223372036854775807
   20 CONTINUE
      END
",
        words: RUN,
        exit: Exit::Faulted,
        text: b" 5\nfault main line 6 Overflow\n",
    },
    // A block IF within a loop.
    Row {
        source: b"      PROGRAM P
      LOGICAL L
      DO 10 I = 0, 3
      IF(MOD(I,2).EQ.0) THEN
      PRINT *, 'a5', I
      ELSEIF(.TRUE.) THEN
      J = J+1
      ENDIF
   10 PRINT *, I, J
      END
",
        words: VARS,
        exit: Exit::Done,
        text: b" a5 0\n 0 0\n 1 1\n a5 2\n 2 1\n 3 2\nvar I = 4\nvar J = 2\nvar L = F\nturns 56\n",
    },
    // A DOWHILE within a loop, which a STOP ends.
    Row {
        source: b"      PROGRAM P
      DO I = -5, 3
      IF(N.GT.8) STOP
      N = N+1
      DOWHILE(MOD(N,3).NE.0)
      N = N+1
      ENDDO
      PRINT *, I, N
      ENDDO
      PRINT *, I, N
      END
",
        words: VARS,
        exit: Exit::Done,
        text: b" -5 3\n -4 6\n -3 9\nvar I = -2\nvar N = 9\nturns 54\n",
    },
    // The elements of an array, in column order.
    Row {
        source: b"      PROGRAM P
      INTEGER A
      DIMENSION A(3,10:13)
      DO 10 J = 10, 13
      DO 10 I = 1, 3
   10 A(I,J) = 10*I+7*J
      PRINT *, A
      WRITE(*,*) A, A(3,13)
      END
",
        words: VARS,
        exit: Exit::Done,
        text: b" 80 90 100 87 97 107 94 104 114 101 111 121\n 80 90 100 87 97 107 94 104 114 101 111 121 121\nvar A = 80 90 100 87 97 107 94 104 114 101 111 121\nvar I = 4\nvar J = 14\nturns 128\n",
    },
    // A subscript is tested before the value is worked out.
    Row {
        source: b"      PROGRAM P
      INTEGER N(3), M(2,0:1)
      LOGICAL L(3)
      I = 1
      N(1) = 1
      N(2) = 3
      N(3) = 0
      N(MOD(-7,4)) = 1/J
   10 PRINT *, I, N, M, L
      END
",
        words: VARS,
        exit: Exit::Faulted,
        text: b"var I = 1\nvar J = 0\nvar L = F F F\nvar M = 0 0 0 0\nvar N = 1 3 0\nfault main line 8 Subscript\nturns 5\n",
    },
    // A SUBROUTINE with a logical and an array.
    Row {
        source: b"      PROGRAM P
      LOGICAL L, M(2)
      CALL S(L,M)
      PRINT *, L, M
      END
      SUBROUTINE S(A,B)
      LOGICAL A, B(2)
      A = .TRUE.
      B(2) = .NOT.B(1)
      END
",
        words: VARS,
        exit: Exit::Done,
        text: b" T F T\nvar L = T\nvar M = F T\nturns 19\n",
    },
    // An array that doesn't come back.
    Row {
        source: b"      PROGRAM P
      INTEGER A(2)
      CALL S(A)
      PRINT *, A
      END
      SUBROUTINE S(B)
      INTEGER B(0:1)
      INTENT (IN) B
      B(0) = 4
      PRINT *, B
      END
",
        words: VARS,
        exit: Exit::Done,
        text: b" 4 0\n 0 0\nvar A = 0 0\nturns 18\n",
    },
    // A FUNCTION of an array.
    Row {
        source: b"      PROGRAM P
      LOGICAL M(2), ANY2
      M(2) = .TRUE.
      IF(ANY2(M)) PRINT *, 1
      END
      LOGICAL FUNCTION ANY2(M)
      LOGICAL M(2)
      ANY2 = M(1).OR.M(2)
      END
",
        words: VARS,
        exit: Exit::Done,
        text: b" 1\nvar M = F T\nturns 13\n",
    },
    // A subscript that is wrong behind a reference.
    Row {
        source: b"      PROGRAM P
      INTEGER N(3), F
      I = 1
      N(1) = 1
      N(2) = 3
      PRINT *, 'before'
      I = F(1)+N(4)
      PRINT *, I
      END
      INTEGER FUNCTION F(K)
      F = 3/K
      END
",
        words: VARS,
        exit: Exit::Faulted,
        text: b" before\nvar I = 1\nvar N = 1 3 0\nfault main line 7 Subscript\nturns 18\n",
    },
    // A FUNCTION with a loop.
    Row {
        source: b"      PROGRAM F1
      PRINT *, IFAC(5)
      END
      INTEGER FUNCTION IFAC(N)
      IFAC = 1
      DO 10 I = 2, N
   10 IFAC = IFAC*I
      END
",
        words: VARS,
        exit: Exit::Done,
        text: b" 120\nturns 22\n",
    },
    // A producer and a consumer, which the end of the channel tells to go on.
    Row {
        source: b"      PROGRAM SUM
      INPORT (INTEGER) PI
      OUTPORT (INTEGER) PO
      CHANNEL(IN=PI,OUT=PO)
      PROCESSES
      PROCESSCALL PRODUC(10,PO)
      PROCESSCALL CONSUM(PI)
      ENDPROCESSES
      END
      PROCESS PRODUC(N,P)
      OUTPORT (INTEGER) P
      DO 10 I = 1, N
   10 SEND(P) I
      ENDCHANNEL(P)
      END
      PROCESS CONSUM(P)
      INPORT (INTEGER) P
      INTEGER S
   10 RECEIVE(P,END=20) I
      S = S+I
      GOTO 10
   20 PRINT *, S
      END
",
        words: RUN,
        exit: Exit::Done,
        text: b" 55\n",
    },
    // The same in lower case, with IOSTAT.
    Row {
        source: b"      program example
      inport (integer) pi
      outport (integer) po
      channel(in=pi, out=po)
      processes
        processcall producer(3, po)
        processcall consumer(pi)
      endprocesses
      end
      process producer(nummsgs, po)
      intent (in) nummsgs, po
      outport (integer) po
      integer nummsgs, i
      do i = 1, nummsgs
        send(po) i
      enddo
      endchannel(po)
      end
      process consumer(pi)
      intent (in) pi
      inport (integer) pi
      integer message, ioval
      receive(port=pi, iostat=ioval) message
      do while (ioval .eq. 0)
        print *, 'got', message
        receive(port=pi, iostat=ioval) message
      enddo
      end
",
        words: RUN,
        exit: Exit::Done,
        text: b" got 1\n got 2\n got 3\n",
    },
    // The end of a channel is told again, and is a fault where nobody asks.
    Row {
        source: b"      PROGRAM E
      INPORT (INTEGER) P
      OUTPORT (INTEGER) Q
      CHANNEL(IN=P,OUT=Q)
      ENDCHANNEL(Q)
      RECEIVE(P,IOSTAT=I) K
      RECEIVE(P,IOSTAT=J) K
      PRINT *, I, J
      RECEIVE(P) K
      END
",
        words: RUN,
        exit: Exit::Faulted,
        text: b" -1 -1\nfault main line 9 EndOfChannel\n",
    },
    // A port that is sent to another process.
    Row {
        source: b"      PROGRAM MOVE
      INPORT (INTEGER) P
      OUTPORT (INTEGER) Q
      INPORT (OUTPORT (INTEGER)) R
      OUTPORT (OUTPORT (INTEGER)) S
      CHANNEL(IN=P,OUT=Q)
      CHANNEL(IN=R,OUT=S)
      PROCESSES
      PROCESSCALL GIVE(Q,S)
      PROCESSCALL USE(R)
      PROCESSCALL GET(P)
      ENDPROCESSES
      END
      PROCESS GIVE(Q,S)
      OUTPORT (INTEGER) Q
      OUTPORT (OUTPORT (INTEGER)) S
      SEND(S) Q
      SEND(Q) 1
      END
      PROCESS USE(R)
      INPORT (OUTPORT (INTEGER)) R
      OUTPORT (INTEGER) Q
      RECEIVE(R) Q
      SEND(Q) 2
      END
      PROCESS GET(P)
      INPORT (INTEGER) P
      RECEIVE(P) I
      PRINT *, I
      END
",
        words: RUN,
        exit: Exit::Faulted,
        text: b" 2\nfault main/1.1 line 18 NullPort\nwait main line 12 join for main/1.1\n",
    },
    // A port that is handed to two processes in turn.
    Row {
        source: b"      PROGRAM TWICE
      OUTPORT (INTEGER) Q
      INPORT (INTEGER) P
      CHANNEL(IN=P,OUT=Q)
      I = 5
      PROCESSES
      PROCESSCALL A(I,1,Q)
      PROCESSCALL A(I,2,Q)
      ENDPROCESSES
      PRINT *, I
      RECEIVE(P) K
      PRINT *, K
      RECEIVE(P,IOSTAT=J) K
      END
      PROCESS A(I,N,Q)
      OUTPORT (INTEGER) Q
      I = I+N
      IF(N.EQ.1) SEND(Q) I
      END
",
        words: RUN,
        exit: Exit::Deadlocked,
        text: b" 7\n 6\nwait main line 13 receive main:1 for main\ncycle main\n",
    },
    // A channel that its writer's process gives back.
    Row {
        source: b"      PROGRAM HOLD
      INPORT (INTEGER) P
      OUTPORT (INTEGER) Q
      CHANNEL(IN=P,OUT=Q)
      PROCESSES
      PROCESSCALL A(Q)
      PROCESSCALL B(P)
      ENDPROCESSES
      END
      PROCESS A(Q)
      OUTPORT (INTEGER) Q
      SEND(Q) 8
      END
      PROCESS B(P)
      INPORT (INTEGER) P
   10 RECEIVE(P,END=20) I
      PRINT *, I
      GOTO 10
   20 PRINT *, 'end'
      END
",
        words: RUN,
        exit: Exit::Deadlocked,
        text: b" 8\nwait main line 8 join for main/1.2\nwait main/1.2 line 16 receive main:1 for main\ncycle main main/1.2\n",
    },
    // And one that it doesn't.
    Row {
        source: b"      PROGRAM HOLD
      INPORT (INTEGER) P
      OUTPORT (INTEGER) Q
      CHANNEL(IN=P,OUT=Q)
      PROCESSES
      PROCESSCALL A(Q)
      PROCESSCALL B(P)
      ENDPROCESSES
      END
      PROCESS A(Q)
      INTENT (IN) Q
      OUTPORT (INTEGER) Q
      SEND(Q) 8
      END
      PROCESS B(P)
      INPORT (INTEGER) P
   10 RECEIVE(P,END=20) I
      PRINT *, I
      GOTO 10
   20 PRINT *, 'end'
      END
",
        words: RUN,
        exit: Exit::Done,
        text: b" 8\n end\n",
    },
    // A tree of processes.
    Row {
        source: b"      PROGRAM TREE
      PROCESSES
      PROCESSCALL NODE(6,1)
      ENDPROCESSES
      END
      PROCESS NODE(N,K)
      INTENT (IN) N, K
      PRINT *, K
      IF(N.EQ.0) RETURN
      PROCESSDO I = 0, 1
      PROCESSCALL NODE(N-1,2*K+I)
      ENDPROCESSDO
      END
",
        words: RUN,
        exit: Exit::Done,
        text: b" 1\n 2\n 4\n 8\n 16\n 32\n 64\n 65\n 33\n 66\n 67\n 17\n 34\n 68\n 69\n 35\n 70\n 71\n 9\n 18\n 36\n 72\n 73\n 37\n 74\n 75\n 19\n 38\n 76\n 77\n 39\n 78\n 79\n 5\n 10\n 20\n 40\n 80\n 81\n 41\n 82\n 83\n 21\n 42\n 84\n 85\n 43\n 86\n 87\n 11\n 22\n 44\n 88\n 89\n 45\n 90\n 91\n 23\n 46\n 92\n 93\n 47\n 94\n 95\n 3\n 6\n 12\n 24\n 48\n 96\n 97\n 49\n 98\n 99\n 25\n 50\n 100\n 101\n 51\n 102\n 103\n 13\n 26\n 52\n 104\n 105\n 53\n 106\n 107\n 27\n 54\n 108\n 109\n 55\n 110\n 111\n 7\n 14\n 28\n 56\n 112\n 113\n 57\n 114\n 115\n 29\n 58\n 116\n 117\n 59\n 118\n 119\n 15\n 30\n 60\n 120\n 121\n 61\n 122\n 123\n 31\n 62\n 124\n 125\n 63\n 126\n 127\n",
    },
    // A port that NULL replaces closes its channel.
    Row {
        source: b"      PROGRAM T
      INPORT (INTEGER) P
      OUTPORT (INTEGER) Q, Q2
      CHANNEL(IN=P,OUT=Q)
      MOVEPORT(FROM=Q2,TO=Q)
      RECEIVE(P,IOSTAT=I) J
      PRINT *, I, J
      END
",
        words: VARS,
        exit: Exit::Done,
        text: b" -1 0\nvar I = -1\nvar J = 0\nvar P = NULL\nvar Q = NULL\nvar Q2 = NULL\nturns 11\n",
    },
    // Probes.
    Row {
        source: b"      PROGRAM PR
      LOGICAL A, B, C
      INPORT (INTEGER) P
      OUTPORT (INTEGER) Q
      CHANNEL(IN=P,OUT=Q)
      PROBE(P,EMPTY=A)
      SEND(Q) 1
      PROBE(P,EMPTY=B)
      RECEIVE(P) I
      ENDCHANNEL(Q)
      PROBE(P,EMPTY=C)
      PRINT *, A, B, C
      END
",
        words: RUN,
        exit: Exit::Done,
        text: b" T F F\n",
    },
    // A merger whose outports stand twice in its list.
    Row {
        source: b"      PROGRAM M
      INPORT (INTEGER) P
      OUTPORT (INTEGER) Q(3), S, T
      LOGICAL L, N(2)
      MERGER(IN=P,OUT=Q(2),OUT=Q)
      SEND(Q(2)) 4
      RECEIVE(P) I
      PRINT *, I
      END
",
        words: VARS,
        exit: Exit::Done,
        text: b" 4\nvar I = 4\nvar L = F\nvar N = F F\nvar P = NULL\nvar Q = NULL NULL NULL\nvar S = NULL\nvar T = NULL\nturns 14\n",
    },
    // A place on a machine of four nodes.
    Row {
        source: b"      PROGRAM L
      PROCESSORS(4)
      PROCESSES
      PROCESSCALL A(1) LOCATION(4)
      ENDPROCESSES
      END
      PROCESS A(N)
      PRINT *, N
      END
",
        words: RUN,
        exit: Exit::Done,
        text: b" 1\n",
    },
    // And one behind it.
    Row {
        source: b"      PROGRAM L
      PROCESSORS(4)
      PROCESSES
      PROCESSCALL A(1) LOCATION(5)
      ENDPROCESSES
      END
      PROCESS A(N)
      PRINT *, N
      END
",
        words: RUN,
        exit: Exit::Faulted,
        text: b"fault main line 4 BadLocation\n",
    },
    // A machine that isn't there.
    Row {
        source: b"      PROGRAM L
      PROCESSORS(4)
      PROCESSES
      PROCESSCALL A(1) SUBMACHINE(3:5)
      ENDPROCESSES
      END
      PROCESS A(N)
      PRINT *, N
      END
",
        words: RUN,
        exit: Exit::Faulted,
        text: b"fault main line 4 BadMachine\n",
    },
    // A machine of one node.
    Row {
        source: b"      PROGRAM P
      PROCESSORS(1)
      PROCESSES
      PROCESSCALL X(0)
      PROCESSCALL X(1) SUBMACHINE(1:1)
      ENDPROCESSES
      PRINT *, 5
      END
      PROCESS X(N)
      PRINT *, N
      END
",
        words: VARS,
        exit: Exit::Done,
        text: b" 5\n 0\n 1\nturns 24\n",
    },
    // The first two elements of an array are sent, and set the first two of another.
    Row {
        source: b"      PROGRAM VAR
      INPORT (INTEGER N, INTEGER X(N)) P
      OUTPORT (INTEGER N, INTEGER X(N)) Q
      INTEGER A(4), B(3)
      CHANNEL(IN=P,OUT=Q)
      A(1) = 7
      A(2) = 8
      SEND(Q) 2, A
      RECEIVE(P) K, B
      PRINT *, K, B
      END
",
        words: VARS,
        exit: Exit::Done,
        text: b" 2 7 8 0\nvar A = 7 8 0 0\nvar B = 7 8 0\nvar K = 2\nvar P = NULL\nvar Q = NULL\nturns 22\n",
    },
    // More elements than the array has: nothing is sent.
    Row {
        source: b"      PROGRAM VAR
      INPORT (INTEGER N, INTEGER X(N)) P
      OUTPORT (INTEGER N, INTEGER X(N)) Q
      INTEGER A(4), B(3)
      CHANNEL(IN=P,OUT=Q)
      A(1) = 7
      A(2) = 8
      SEND(Q) 5, A
      RECEIVE(P) K, B
      PRINT *, K, B
      END
",
        words: VARS,
        exit: Exit::Faulted,
        text: b"var A = 7 8 0 0\nvar B = 0 0 0\nvar K = 0\nvar P = main:1\nvar Q = main:1\nfault main line 8 Subscript\nturns 4\n",
    },
    // Fewer than none.
    Row {
        source: b"      PROGRAM VAR
      INPORT (INTEGER N, INTEGER X(N)) P
      OUTPORT (INTEGER N, INTEGER X(N)) Q
      INTEGER A(4), B(3)
      CHANNEL(IN=P,OUT=Q)
      A(1) = 7
      A(2) = 8
      SEND(Q) -1, A
      RECEIVE(P) K, B
      PRINT *, K, B
      END
",
        words: RUN,
        exit: Exit::Faulted,
        text: b"fault main line 8 Subscript\n",
    },
    // More elements than the array that is to get them has.
    Row {
        source: b"      PROGRAM VAR
      INPORT (INTEGER N, INTEGER X(N)) P
      OUTPORT (INTEGER N, INTEGER X(N)) Q
      INTEGER A(4), B(3)
      CHANNEL(IN=P,OUT=Q)
      A(1) = 7
      A(2) = 8
      SEND(Q) 4, A
      RECEIVE(P) K, B
      PRINT *, K, B
      END
",
        words: VARS,
        exit: Exit::Faulted,
        text: b"var A = 7 8 0 0\nvar B = 0 0 0\nvar K = 0\nvar P = main:1\nvar Q = main:1\nfault main line 9 Subscript\nturns 10\n",
    },
    // The nearest field of a name gives the size, also where a constant has the name; types agree by its place.
    Row {
        source: b"      PROGRAM NEAR
      PARAMETER (N = 9)
      INPORT (INTEGER N, INTEGER N, LOGICAL L(N)) P
      OUTPORT (INTEGER I, INTEGER J, LOGICAL L(J)) Q
      LOGICAL A(3), B(3)
      CHANNEL(IN=P,OUT=Q)
      A(1) = .TRUE.
      A(3) = .TRUE.
      B(2) = .TRUE.
      B(3) = .TRUE.
      SEND(Q) 3, 1, A
      RECEIVE(P) I, J, B
      PRINT *, I, J, B
      END
",
        words: RUN,
        exit: Exit::Done,
        text: b" 3 1 T T T\n",
    },
];

/// Two writers of a merger, and one reader.
const MERGED: &[u8] = b"      PROGRAM MERGE
      INPORT (INTEGER) P
      OUTPORT (INTEGER) Q(2)
      MERGER(IN=P,OUT=Q)
      PROCESSES
      PROCESSDO I = 1, 2
      PROCESSCALL W(I,Q(I))
      ENDPROCESSDO
      PROCESSCALL R(P)
      ENDPROCESSES
      END
      PROCESS W(N,Q)
      OUTPORT (INTEGER) Q
      SEND(Q) N
      ENDCHANNEL(Q)
      END
      PROCESS R(P)
      INPORT (INTEGER) P
   10 RECEIVE(P,END=20) I
      PRINT *, I
      GOTO 10
   20 END
";

/// The programs.
pub(crate) fn rows() -> &'static [Row] {
    &ROWS
}

/// Choices, and what the reader of `MERGED` prints under them.
const ORDERS: [(&[u64], &[u8]); 2] = [(&[], b" 1\n 2\n"), (&[0, 0, 1], b" 2\n 1\n")];

#[test]
fn programs_of_the_whole_language(rt: HostRuntime) -> Result<(), Fail> {
    for (i, row) in rows().iter().enumerate() {
        let (ran, text) = answer(rt.alloc(), row.words, row.source)?;
        assert_eq!(rt; text.as_slice(), row.text, "row {i}");
        assert_eq!(rt; ran.exit, row.exit, "row {i}");
    }
    Ok(())
}

// What `check` calls deterministic has one text under every schedule.
#[test]
fn schedules_change_nothing(rt: HostRuntime) -> Result<(), Fail> {
    for (i, row) in rows().iter().enumerate() {
        let (_, told) = answer(rt.alloc(), &["check"], row.source)?;
        if told.as_slice() == b"deterministic\n".as_slice() {
            assert_eq!(rt; first_other(rt.alloc(), row.source)?, None, "row {i}");
        }
    }
    Ok(())
}

// A merger's messages come in the order in which they were sent, and that is the schedule's.
#[test]
fn the_order_of_a_merger(rt: HostRuntime) -> Result<(), Fail> {
    let (ran, _) = answer(rt.alloc(), &["check"], MERGED)?;
    assert_eq!(rt; ran.exit, Exit::Done);
    for (choices, text) in ORDERS {
        let (ran, written) = play(rt.alloc(), MERGED, choices)?;
        assert!(rt; written.starts_with(text));
        assert_eq!(rt; ran.exit, Exit::Done);
    }
    Ok(())
}
