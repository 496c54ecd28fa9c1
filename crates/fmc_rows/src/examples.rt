//! The programs of examples/, and what they write.

use crate::answers::answer;
use fmc::Exit;
use std::test::Fail;

/// A source, and the exit and the text of its run.
pub(crate) struct Row {
    pub(crate) source: &'static [u8],
    pub(crate) exit: Exit,
    text: &'static [u8],
}

const ROWS: [Row; 13] = [
    Row {
        source: b"C     The lucky numbers up to 60. The even numbers are crossed out. The
C     next number that is left is 3, so every third of those that are
C     left is crossed out; then every seventh, since 7 is the next; and
C     so on.
      PROGRAM LUCKY
      PARAMETER (N = 60)
      LOGICAL OUT(N)
      INTEGER I, J, LEFT
      DO 10 J = 2, N, 2
10    OUT(J) = .TRUE.
      PRINT *, 1
      DO 30 I = 3, N
        IF (OUT(I)) GOTO 30
        PRINT *, I
        LEFT = 0
        DO 20 J = 1, N
          IF (OUT(J)) GOTO 20
          LEFT = LEFT + 1
          OUT(J) = MOD(LEFT, I) .EQ. 0
20      CONTINUE
30    CONTINUE
      END
",
        exit: Exit::Done,
        text: b" 1\n 3\n 7\n 9\n 13\n 15\n 21\n 25\n 31\n 33\n 37\n 43\n 49\n 51\n",
    },
    Row {
        source: b"C     Greatest common divisors, by a FUNCTION that other expressions
C     refer to.
      PROGRAM DIVISOR
      INTEGER GCD
      PRINT *, GCD(1071, 462), GCD(17, 5)
      PRINT *, 'three numbers', GCD(GCD(84, 126), 210)
      PRINT *, 'least common multiple', 21/GCD(21, 6)*6
      END
      INTEGER FUNCTION GCD(M, N)
      INTEGER M, N, A, B, R
      A = M
      B = N
      DO WHILE (B .NE. 0)
        R = MOD(A, B)
        A = B
        B = R
      ENDDO
      GCD = ABS(A)
      END
",
        exit: Exit::Done,
        text: b" 21 1\n three numbers 42\n least common multiple 42\n",
    },
    Row {
        source: b"C     The product of two matrices, by a SUBROUTINE.
      PROGRAM MATRIX
      INTEGER A(2,3), B(3,2), C(2,2), I, J
      DO 10 J = 1, 3
      DO 10 I = 1, 2
        A(I,J) = 10*I + J
10      B(J,I) = I - J
      CALL PRODUCT(A, B, C)
      PRINT *, 'by columns', C
      DO I = 1, 2
        PRINT *, 'row', I, C(I,1), C(I,2)
      ENDDO
      END
      SUBROUTINE PRODUCT(A, B, C)
      INTEGER A(2,3), B(3,2), C(2,2), I, J, K
      INTENT(IN) A, B
      INTENT(OUT) C
      DO 20 I = 1, 2
      DO 20 J = 1, 2
        C(I,J) = 0
        DO 20 K = 1, 3
20        C(I,J) = C(I,J) + A(I,K)*B(K,J)
      END
",
        exit: Exit::Done,
        text: b" by columns -38 -68 -2 -2\n row 1 -38 -2\n row 2 -68 -2\n",
    },
    Row {
        source: b"C     Quicksort. What is still to be sorted waits on a stack in an
C     array.
      PROGRAM SORTS
      PARAMETER (N = 12)
      INTEGER A(N), I
      DO I = 1, N
        A(I) = MOD(I*I*7 + 3*I, 41) - 20
      ENDDO
      PRINT *, A
      CALL SORT(A)
      PRINT *, A
      END
      SUBROUTINE SORT(A)
      PARAMETER (N = 12)
      INTEGER A(N), STACK(2,N), TOP, LOW, HIGH, I, J, P
      TOP = 1
      STACK(1,1) = 1
      STACK(2,1) = N
      DO WHILE (TOP .GT. 0)
        LOW = STACK(1,TOP)
        HIGH = STACK(2,TOP)
        TOP = TOP - 1
        IF (LOW .LT. HIGH) THEN
          P = A((LOW + HIGH)/2)
          I = LOW
          J = HIGH
          DO WHILE (I .LE. J)
10          IF (A(I) .LT. P) THEN
              I = I + 1
              GOTO 10
            ENDIF
20          IF (A(J) .GT. P) THEN
              J = J - 1
              GOTO 20
            ENDIF
            IF (I .LE. J) THEN
              CALL SWAP(A(I), A(J))
              I = I + 1
              J = J - 1
            ENDIF
          ENDDO
          STACK(1,TOP+1) = LOW
          STACK(2,TOP+1) = J
          STACK(1,TOP+2) = I
          STACK(2,TOP+2) = HIGH
          TOP = TOP + 2
        ENDIF
      ENDDO
      END
      SUBROUTINE SWAP(X, Y)
      INTEGER X, Y, T
      T = X
      X = Y
      Y = T
      END
",
        exit: Exit::Done,
        text: b" -10 14 11 -19 6 4 16 1 0 13 -1 -1\n -19 -10 -1 -1 0 1 4 6 11 13 14 16\n",
    },
    Row {
        source: b"C     How long it takes from a number to 1, by halves where it is even
C     and three times and one more where it is odd.
      PROGRAM COLLATZ
      INTEGER I, N, STEPS, HIGHEST
      DO I = 1, 9
        N = I
        STEPS = 0
        HIGHEST = N
        DO WHILE (N .NE. 1)
          IF (MOD(N, 2) .EQ. 0) THEN
            N = N/2
          ELSE
            N = 3*N + 1
          ENDIF
          HIGHEST = MAX(HIGHEST, N)
          STEPS = STEPS + 1
        ENDDO
        PRINT *, I, 'steps', STEPS, 'highest', HIGHEST
      ENDDO
      END
",
        exit: Exit::Done,
        text: b" 1 steps 0 highest 1\n 2 steps 1 highest 2\n 3 steps 7 highest 16\n 4 steps 2 highest 4\n 5 steps 5 highest 16\n 6 steps 8 highest 16\n 7 steps 16 highest 52\n 8 steps 3 highest 8\n 9 steps 19 highest 52\n",
    },
    Row {
        source: b"C     A ring of four processes. Each one gets the end of the channel to
C     its right neighbour in a message, so that the ring closes itself;
C     then a number goes round it twice.
      PROGRAM RING
      PARAMETER (N = 4)
      INPORT (INTEGER) IN(N)
      OUTPORT (INTEGER) OUT(N)
      INPORT (OUTPORT (INTEGER)) GET(N)
      OUTPORT (OUTPORT (INTEGER)) PUT(N)
      INTEGER I
      DO I = 1, N
        CHANNEL(IN=IN(I), OUT=OUT(I))
        CHANNEL(IN=GET(I), OUT=PUT(I))
      ENDDO
      DO I = 1, N
        SEND(PUT(I)) OUT(MOD(I, N) + 1)
      ENDDO
      PROCESSDO I = 1, N
        PROCESSCALL MEMBER(I, IN(I), GET(I))
      ENDPROCESSDO
      END

      PROCESS MEMBER(NUMBER, LEFT, GET)
      INTEGER NUMBER, TURN, K
      INPORT (INTEGER) LEFT
      OUTPORT (INTEGER) RIGHT
      INPORT (OUTPORT (INTEGER)) GET
      RECEIVE(GET) RIGHT
      IF (NUMBER .EQ. 1) SEND(RIGHT) 100
      DO TURN = 1, 2
        RECEIVE(LEFT) K
        PRINT *, 'member', NUMBER, 'got', K
        IF (NUMBER .NE. 1 .OR. TURN .EQ. 1) SEND(RIGHT) K + NUMBER
      ENDDO
      END
",
        exit: Exit::Done,
        text: b" member 1 got 109\n member 1 got 119\n member 2 got 100\n member 2 got 110\n member 3 got 102\n member 3 got 112\n member 4 got 105\n member 4 got 115\n",
    },
    Row {
        source: b"C     A server of squares. Each client sends a port for the answer with
C     its question, and the server sends it there.
      PROGRAM SERVES
      INPORT (INTEGER, OUTPORT (INTEGER)) ASKED
      OUTPORT (INTEGER, OUTPORT (INTEGER)) ASK
      CHANNEL(IN=ASKED, OUT=ASK)
      PROCESSES
        PROCESSCALL SERVER(ASKED)
        PROCESSCALL CLIENT(7, ASK)
      ENDPROCESSES
      END

      PROCESS SERVER(ASKED)
      INPORT (INTEGER, OUTPORT (INTEGER)) ASKED
      OUTPORT (INTEGER) ANSWER
      INTEGER N
10    RECEIVE(PORT=ASKED, END=20) N, ANSWER
      SEND(ANSWER) N*N
      GOTO 10
20    PRINT *, 'no more questions'
      END

      PROCESS CLIENT(N, ASK)
      OUTPORT (INTEGER, OUTPORT (INTEGER)) ASK
      INPORT (INTEGER) ANSWER
      OUTPORT (INTEGER) REPLY
      INTEGER N, I, K
      DO I = 1, 3
        CHANNEL(IN=ANSWER, OUT=REPLY)
        SEND(ASK) N + I, REPLY
        RECEIVE(ANSWER) K
        PRINT *, N + I, 'squared is', K
      ENDDO
      ENDCHANNEL(ASK)
      END
",
        exit: Exit::Done,
        text: b" no more questions\n 8 squared is 64\n 9 squared is 81\n 10 squared is 100\n",
    },
    Row {
        source: b"C     A farm: four workers, each with a number and a place of an array,
C     into which its result is copied back when all have ended.
      PROGRAM FARM
      PARAMETER (N = 4)
      INTEGER RESULT(N), I
      PROCESSDO I = 1, N
        PROCESSCALL WORKER(I, RESULT(I))
      ENDPROCESSDO
      PRINT *, 'results', RESULT
      END

      PROCESS WORKER(I, RESULT)
      INTEGER I, RESULT, K
      INTENT(IN) I
      RESULT = 0
      DO K = 1, 100*I
        RESULT = RESULT + MOD(K, 7)
      ENDDO
      PRINT *, 'worker', I
      END
",
        exit: Exit::Done,
        text: b" results 297 598 903 1198\n worker 1\n worker 2\n worker 3\n worker 4\n",
    },
    Row {
        source: b"C     The last digits of squares, each printed once. A filter keeps the
C     first number that it gets, and sends on those that differ from it;
C     for the first such number it starts the next filter.
      PROGRAM DISTINCT
      INPORT (INTEGER) GET
      OUTPORT (INTEGER) PUT
      CHANNEL(IN=GET, OUT=PUT)
      PROCESSES
        PROCESSCALL SQUARES(30, PUT)
        PROCESSCALL FILTER(GET)
      ENDPROCESSES
      END

      PROCESS SQUARES(LAST, PUT)
      OUTPORT (INTEGER) PUT
      INTEGER LAST, I
      DO I = 1, LAST
        SEND(PUT) MOD(I*I, 10)
      ENDDO
      ENDCHANNEL(PUT)
      END

      PROCESS FILTER(GET)
      INPORT (INTEGER) GET, NEXT
      OUTPORT (INTEGER) PUT
      INTEGER KEPT
      RECEIVE(PORT=GET, END=10) KEPT
      PRINT *, KEPT
      CHANNEL(IN=NEXT, OUT=PUT)
      PROCESSES
        PROCESSCALL OTHERS(KEPT, GET, PUT)
        PROCESSCALL FILTER(NEXT)
      ENDPROCESSES
10    CONTINUE
      END

      PROCESS OTHERS(KEPT, GET, PUT)
      INPORT (INTEGER) GET
      OUTPORT (INTEGER) PUT
      INTEGER KEPT, N
20    RECEIVE(PORT=GET, END=30) N
      IF (N .NE. KEPT) SEND(PUT) N
      GOTO 20
30    ENDCHANNEL(PUT)
      END
",
        exit: Exit::Done,
        text: b" 1\n 4\n 9\n 6\n 5\n 0\n",
    },
    Row {
        source: b"C     Two senders on one inport. Which of their numbers comes first is
C     a matter of the schedule: `fmc check` says so.
      PROGRAM MERGES
      INPORT (INTEGER) P
      OUTPORT (INTEGER) Q(2)
      MERGER(IN=P, OUT=Q)
      PROCESSES
        PROCESSCALL SENDER(1, Q(1))
        PROCESSCALL SENDER(2, Q(2))
        PROCESSCALL READER(P)
      ENDPROCESSES
      END

      PROCESS SENDER(N, Q)
      OUTPORT (INTEGER) Q
      INTEGER N, I
      DO I = 1, 2
        SEND(Q) 10*N + I
      ENDDO
      ENDCHANNEL(Q)
      END

      PROCESS READER(P)
      INPORT (INTEGER) P
      INTEGER K, STATUS
      STATUS = 0
      DO WHILE (STATUS .EQ. 0)
        RECEIVE(PORT=P, IOSTAT=STATUS) K
        IF (STATUS .EQ. 0) PRINT *, K
      ENDDO
      PRINT *, 'all'
      END
",
        exit: Exit::Done,
        text: b" 11\n 21\n 12\n 22\n all\n",
    },
    Row {
        source: b"C     A process that does other work while no message is there.
      PROGRAM POLLS
      INPORT (INTEGER) P
      OUTPORT (INTEGER) Q
      CHANNEL(IN=P, OUT=Q)
      PROCESSES
        PROCESSCALL POLL(P)
        PROCESSCALL SLOW(Q)
      ENDPROCESSES
      END

      PROCESS POLL(P)
      INPORT (INTEGER) P
      LOGICAL NONE
      INTEGER K
      NONE = .TRUE.
      DO WHILE (NONE)
        PROBE(P, EMPTY=NONE)
      ENDDO
      RECEIVE(P) K
      PRINT *, 'got', K
      END

      PROCESS SLOW(Q)
      OUTPORT (INTEGER) Q
      INTEGER I
      DO I = 1, 500
        CONTINUE
      ENDDO
      SEND(Q) I
      END
",
        exit: Exit::Done,
        text: b" got 501\n",
    },
    Row {
        source: b"C     Three processes in a ring, of which each waits for the one before
C     it.
      PROGRAM CYCLE
      INPORT (INTEGER) P(3)
      OUTPORT (INTEGER) Q(3)
      INTEGER I
      DO I = 1, 3
        CHANNEL(IN=P(I), OUT=Q(I))
      ENDDO
      PROCESSES
        PROCESSCALL MEMBER(P(1), Q(2))
        PROCESSCALL MEMBER(P(2), Q(3))
        PROCESSCALL MEMBER(P(3), Q(1))
      ENDPROCESSES
      END

      PROCESS MEMBER(P, Q)
      INPORT (INTEGER) P
      OUTPORT (INTEGER) Q
      INTEGER K
      RECEIVE(P) K
      SEND(Q) K
      END
",
        exit: Exit::Deadlocked,
        text: b"wait main line 14 join for main/1.1\nwait main/1.1 line 21 receive main:1 for main/1.3\nwait main/1.2 line 21 receive main:2 for main/1.1\nwait main/1.3 line 21 receive main:3 for main/1.2\ncycle main/1.1 main/1.3 main/1.2\n",
    },
    Row {
        source: b"C     Processes placed on the nodes of a grid of 2 by 3.
      PROGRAM GRID
      PARAMETER (N = 2, M = 3)
      PROCESSORS(N, M)
      INTEGER SUM(N,M), I, J
      PROCESSES
        PROCESSDO J = 1, M
          PROCESSDO I = 1, N
            PROCESSCALL CELL(I, J, SUM(I,J)) LOCATION(I, J)
          ENDPROCESSDO
        ENDPROCESSDO
        PROCESSCALL WATCH(3) SUBMACHINE(3:5)
      ENDPROCESSES
      PRINT *, SUM
      END

      PROCESS CELL(I, J, SUM)
      INTEGER I, J, SUM
      SUM = 10*I + J
      END

      PROCESS WATCH(N)
      PROCESSORS(2)
      INTEGER N
      PRINT *, 'watch', N
      END
",
        exit: Exit::Done,
        text: b" 11 21 12 22 13 23\n watch 3\n",
    },
];

/// The programs.
pub(crate) fn rows() -> &'static [Row] {
    &ROWS
}

#[test]
fn examples_write_their_output(rt: HostRuntime) -> Result<(), Fail> {
    for (i, row) in rows().iter().enumerate() {
        let (ran, text) = answer(rt.alloc(), &["run"], row.source)?;
        assert_eq!(rt; text.as_slice(), row.text, "row {i}");
        assert_eq!(rt; ran.exit, row.exit, "row {i}");
    }
    Ok(())
}
