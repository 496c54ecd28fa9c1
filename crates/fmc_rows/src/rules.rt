//! The rules of the language: for each the least program that breaks it, and a lawful one close to it.
//! docs/RULES.md shows these programs.

use crate::answers::answer;
use fmc::Exit;
use std::test::Fail;

/// A program that is refused, what `check` writes of it, and a lawful program.
struct Row {
    broken: &'static [u8],
    refusal: &'static [u8],
    lawful: &'static [u8],
}

const DETERMINISTIC: &[u8] = b"deterministic\n";

/// First two rules at once, then the rules in their order, each alone but for an element with wrong subscripts.
const ROWS: [Row; 40] = [
    Row {
        broken: b"      PROGRAM P\n      X = 1\n      GOTO 10\n      END\n",
        refusal: b"line 3: E23 label missing\n",
        lawful: b"      PROGRAM P\n      INTEGER X\n      X = 1\n      GOTO 10\n   10 END\n",
    },
    Row {
        broken: b"      PROGRAM P\n      PRINT *, 'caf\xC3\xA9'\n      END\n",
        refusal: b"line 2: E01 bad character\n",
        lawful: b"C     caf\xC3\xA9\n      PROGRAM P\n      PRINT *, 'cafe'\n      END\n",
    },
    Row {
        broken: b"      PROGRAM P\n    0 PRINT *, 1\n      END\n",
        refusal: b"line 2: E02 bad label field\n",
        lawful: b"      PROGRAM P\n     0PRINT *, 1\n      END\n",
    },
    Row {
        broken: b"      PROGRAM P\n      PRINT *, 1\n   10+       + 2\n      END\n",
        refusal: b"line 3: E03 bad continuation\n",
        lawful: b"      PROGRAM P\n   10 PRINT *, 1\n     +       + 2\n      END\n",
    },
    Row {
        broken: b"      PROGRAM P\n      PRINT *, 0\n     1, 1\n     2, 2\n     3, 3\n     4, 4\n     5, 5\n     6, 6\n     7, 7\n     8, 8\n     9, 9\n     A, 10\n     B, 11\n     C, 12\n     D, 13\n     E, 14\n     F, 15\n     G, 16\n     H, 17\n     I, 18\n     J, 19\n     K, 20\n      END\n",
        refusal: b"line 22: E04 too many continuations\n",
        lawful: b"      PROGRAM P\n      PRINT *, 0\n     1, 1\n     2, 2\n     3, 3\n     4, 4\n     5, 5\n     6, 6\n     7, 7\n     8, 8\n     9, 9\n     A, 10\n     B, 11\n     C, 12\n     D, 13\n     E, 14\n     F, 15\n     G, 16\n     H, 17\n     I, 18\n     J, 19\n      END\n",
    },
    Row {
        broken: b"      PROGRAM P\n      PRINT *, 'it's'\n      END\n",
        refusal: b"line 2: E05 open character constant\n",
        lawful: b"      PROGRAM P\n      PRINT *, 'it''s'\n      END\n",
    },
    Row {
        broken: b"      PROGRAM P\n      I = 2*-3\n      END\n",
        refusal: b"line 2: E10 no statement of the grammar\n",
        lawful: b"      PROGRAM P\n      I = 2*(-3)\n      END\n",
    },
    Row {
        broken: b"      PROGRAM P\n      I = 9223372036854775808\n      END\n",
        refusal: b"line 2: E11 number too large\n",
        lawful: b"      PROGRAM P\n      I = 9223372036854775807\n      END\n",
    },
    Row {
        broken: b"      PROGRAM P\n      NUMBER_OF_MESSAGES_STILL_WAITING = 0\n      END\n",
        refusal: b"line 2: E12 name too long\n",
        lawful: b"      PROGRAM P\n      NUMBER_OF_MESSAGES_NOT_RECEIVED = 0\n      END\n",
    },
    Row {
        broken: b"      PROGRAM P\n      PROCESS Q\n      END\n",
        refusal: b"line 2: E20 statement out of place\n",
        lawful: b"      PROGRAM P\n      END\n      PROCESS Q\n      END\n",
    },
    Row {
        broken: b"      PROGRAM P\n      IF (I .EQ. 0) THEN\n      END\n",
        refusal: b"line 2: E21 unmatched block\n",
        lawful: b"      PROGRAM P\n      IF (I .EQ. 0) THEN\n      END IF\n      END\n",
    },
    Row {
        broken: b"      PROGRAM P\n   10 CONTINUE\n   10 CONTINUE\n      END\n",
        refusal: b"line 3: E22 label twice\n",
        lawful: b"      PROGRAM P\n   10 CONTINUE\n      END\n      PROCESS Q\n   10 CONTINUE\n      END\n",
    },
    Row {
        broken: b"      PROGRAM P\n      GOTO 10\n      END\n",
        refusal: b"line 2: E23 label missing\n",
        lawful: b"      PROGRAM P\n      GOTO 10\n   10 END\n",
    },
    Row {
        broken: b"      PROGRAM P\n      GOTO 10\n      DO 10 I = 1, 3\n   10 CONTINUE\n      END\n",
        refusal: b"line 2: E24 jump into a block\n",
        lawful: b"      PROGRAM P\n      DO 10 I = 1, 3\n      GOTO 10\n   10 CONTINUE\n      END\n",
    },
    Row {
        broken: b"      PROGRAM P\n      DO 10 I = 1, 3\n      END\n",
        refusal: b"line 2: E25 wrong end of a loop\n",
        lawful: b"      PROGRAM P\n      DO 10 I = 1, 3\n   10 PRINT *, I\n      END\n",
    },
    Row {
        broken: b"      PROCESS Q\n      END\n",
        refusal: b"line 1: E26 not exactly one PROGRAM\n",
        lawful: b"      PROCESS Q\n      END\n      PROGRAM P\n      END\n",
    },
    Row {
        broken: b"      PROGRAM M\n      END\n      PROCESS M\n      END\n",
        refusal: b"line 3: E27 unit name twice\n",
        lawful: b"      PROGRAM M\n      END\n      PROCESS N(M)\n      END\n",
    },
    Row {
        broken: b"      PROGRAM P\n",
        refusal: b"line 1: E28 no END\n",
        lawful: b"      PROGRAM P\n      END\n",
    },
    Row {
        broken: b"      PROGRAM P\n      PROCESSES\n      PRINT *, 1\n      END PROCESSES\n      END\n",
        refusal: b"line 3: E29 not allowed in a process block\n",
        lawful: b"      PROGRAM P\n      PROCESSES\n      PROCESSCALL Q\n      END PROCESSES\n      END\n      PROCESS Q\n      PRINT *, 1\n      END\n",
    },
    Row {
        broken: b"      PROGRAM P\n      INTEGER I\n      LOGICAL I\n      END\n",
        refusal: b"line 3: E30 declared twice\n",
        lawful: b"      PROGRAM P\n      INTEGER I\n      DIMENSION I(3)\n      END\n",
    },
    Row {
        broken: b"      PROGRAM P\n      X = 1\n      END\n",
        refusal: b"line 2: E31 no type\n",
        lawful: b"      PROGRAM P\n      INTEGER X\n      X = 1\n      END\n",
    },
    Row {
        broken: b"      PROGRAM P\n      INTEGER A(0)\n      END\n",
        refusal: b"line 2: E32 bad bounds\n",
        lawful: b"      PROGRAM P\n      INTEGER A(0:0)\n      END\n",
    },
    Row {
        broken: b"      PROGRAM P\n      INTEGER A(N)\n      END\n",
        refusal: b"line 2: E33 no constant\n",
        lawful: b"      PROGRAM P\n      PARAMETER (N = 3)\n      INTEGER A(N)\n      END\n",
    },
    Row {
        broken: b"      PROGRAM P\n      INPORT (INTEGER X(N), INTEGER N) Q\n      END\n",
        refusal: b"line 2: E33 no constant\n",
        lawful: b"      PROGRAM P\n      INPORT (INTEGER N, INTEGER X(N)) Q\n      END\n",
    },
    Row {
        broken: b"      PROGRAM P\n      INTEGER A(65536), B\n      END\n",
        refusal: b"line 1: E34 too many words\n",
        lawful: b"      PROGRAM P\n      INTEGER A(65535), B\n      END\n",
    },
    Row {
        broken: b"      PROGRAM P\n      IF (I) STOP\n      END\n",
        refusal: b"line 2: E40 wrong operand\n",
        lawful: b"      PROGRAM P\n      IF (I .NE. 0) STOP\n      END\n",
    },
    // An element with wrong subscripts has the type of its array.
    Row {
        broken: b"      PROGRAM P\n      LOGICAL B(2)\n      I = B(1,2) - 1\n      END\n",
        refusal: b"line 3: E40 wrong operand\n",
        lawful: b"      PROGRAM P\n      INTEGER B(2)\n      I = B(1) - 1\n      END\n",
    },
    Row {
        broken: b"      PROGRAM P\n      I(1) = 1\n      END\n",
        refusal: b"line 2: E41 wrong subscripts\n",
        lawful: b"      PROGRAM P\n      DIMENSION I(1)\n      I(1) = 1\n      END\n",
    },
    Row {
        broken: b"      PROGRAM P\n      I = MOD(7)\n      END\n",
        refusal: b"line 2: E42 wrong arguments\n",
        lawful: b"      PROGRAM P\n      I = MOD(7,2)\n      END\n",
    },
    Row {
        broken: b"      PROGRAM P\n      CALL S\n      END\n",
        refusal: b"line 2: E43 unknown unit\n",
        lawful: b"      PROGRAM P\n      CALL S\n      END\n      SUBROUTINE S\n      END\n",
    },
    // A CALL of what is no SUBROUTINE is no step of a recursion.
    Row {
        broken: b"      PROGRAM P\n      CALL S\n      END\n      SUBROUTINE S\n      CALL P\n      END\n",
        refusal: b"line 5: E43 unknown unit\n",
        lawful: b"      PROGRAM P\n      CALL S\n      END\n      SUBROUTINE S\n      CALL T\n      END\n      SUBROUTINE T\n      END\n",
    },
    Row {
        broken: b"      PROGRAM P\n      PARAMETER (N = 3)\n      N = 4\n      END\n",
        refusal: b"line 3: E44 not changeable\n",
        lawful: b"      PROGRAM P\n      PARAMETER (N = 3)\n      M = N\n      END\n",
    },
    Row {
        broken: b"      PROGRAM P\n      END\n      SUBROUTINE S\n      CALL S\n      END\n",
        refusal: b"line 4: E45 recursion\n",
        lawful: b"      PROGRAM P\n      END\n      PROCESS S\n      PROCESSES\n      PROCESSCALL S\n      END PROCESSES\n      END\n",
    },
    Row {
        broken: b"      PROGRAM P\n      END\n      FUNCTION N(I)\n      I = 1\n      END\n",
        refusal: b"line 4: E46 not allowed in a function\n",
        lawful: b"      PROGRAM P\n      END\n      FUNCTION N(I)\n      N = I\n      END\n",
    },
    Row {
        broken: b"      PROGRAM P\n      INPORT (INTEGER) Q\n      PRINT *, Q\n      END\n",
        refusal: b"line 3: E50 port as a value\n",
        lawful: b"      PROGRAM P\n      INPORT (INTEGER) Q\n      RECEIVE(Q) I\n      PRINT *, I\n      END\n",
    },
    Row {
        broken: b"      PROGRAM P\n      INPORT (INTEGER) Q\n      SEND(Q) 1\n      END\n",
        refusal: b"line 3: E51 wrong port direction\n",
        lawful: b"      PROGRAM P\n      OUTPORT (INTEGER) Q\n      SEND(Q) 1\n      END\n",
    },
    Row {
        broken: b"      PROGRAM P\n      OUTPORT (INTEGER) Q\n      SEND(Q) 1, 2\n      END\n",
        refusal: b"line 3: E52 wrong message list\n",
        lawful: b"      PROGRAM P\n      OUTPORT (INTEGER, INTEGER) Q\n      SEND(Q) 1, 2\n      END\n",
    },
    Row {
        broken: b"      PROGRAM P\n      OUTPORT (INTEGER N, INTEGER X(N)) Q\n      SEND(Q) 1, K\n      END\n",
        refusal: b"line 3: E52 wrong message list\n",
        lawful: b"      PROGRAM P\n      OUTPORT (INTEGER N, INTEGER X(N)) Q\n      INTEGER A(10)\n      SEND(Q) 1, A\n      END\n",
    },
    Row {
        broken: b"      PROGRAM P\n      INPORT (INTEGER) PI\n      OUTPORT (LOGICAL) PO\n      CHANNEL(IN=PI, OUT=PO)\n      END\n",
        refusal: b"line 4: E53 port types differ\n",
        lawful: b"      PROGRAM P\n      INPORT (INTEGER) PI\n      OUTPORT (INTEGER COUNT) PO\n      CHANNEL(IN=PI, OUT=PO)\n      END\n",
    },
    Row {
        broken: b"      PROGRAM P\n      PROCESSES\n      PROCESSCALL Q() LOCATION(1,2)\n      END PROCESSES\n      END\n      PROCESS Q\n      END\n",
        refusal: b"line 3: E54 wrong mapping rank\n",
        lawful: b"      PROGRAM P\n      PROCESSORS (2,2)\n      PROCESSES\n      PROCESSCALL Q() LOCATION(1,2)\n      END PROCESSES\n      END\n      PROCESS Q\n      END\n",
    },
];

#[test]
fn rules_are_told(rt: HostRuntime) -> Result<(), Fail> {
    for (i, row) in ROWS.iter().enumerate() {
        let (ran, text) = answer(rt.alloc(), &["check"], row.broken)?;
        assert_eq!(rt; text.as_slice(), row.refusal, "broken {i}");
        assert_eq!(rt; ran.exit, Exit::Refused, "broken {i}");
        let (ran, text) = answer(rt.alloc(), &["check"], row.lawful)?;
        assert_eq!(rt; text.as_slice(), DETERMINISTIC, "lawful {i}");
        assert_eq!(rt; ran.exit, Exit::Done, "lawful {i}");
    }
    Ok(())
}
