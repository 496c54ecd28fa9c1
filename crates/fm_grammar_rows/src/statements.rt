//! Statements as they stand in a source, read by the whole grammar and spelled again.

use fm_base::{CheckFail, Rule};
use fm_cards::{Card, cards};
use fm_stmt::statement;
use fm_tree_spell::spell_text;
use std::alloc::Global;
use std::test::Fail;

// Each text is one constant, a line a statement: an array of constants costs a check for each item.

/// Statements, and their spelling or the rule that they break.
const ROWS: &str = "DO 10 I = 1 -> DO10I=1
DO 10 I = 1, 3 -> DO10I=1,3
DOUBLE = 1, 2 -> DOUBLE=1,2
PROCESSDO I = 1 -> PROCESSDOI=1
if (i) = 5 -> IF(I)=5
IF (L) THEN = 5 -> IF(L)THEN=5
IF (L) PRINT *, 'it''s a' -> IF(L)PRINT*,'it''s a'
IF (L) IF (M) I = 1 -> E10
IF (L) DO 10 I = 1, 2 -> E10
PROCESSCALL A LOCATION(1) -> PROCESSCALLALOCATION(1)
PROCESSCALL A() LOCATION(1) -> PROCESSCALLA()LOCATION(1)
INPORT (OUTPORT () Q(2), INTEGER K, LOGICAL) P -> INPORT(OUTPORT()Q(2),INTEGERK,LOGICAL)P
INPORT (INTEGER (3)) P -> E10
L = 1.EQ.2 -> L=1.EQ.2
L = 1 .LT. 2 .LT. 3 -> E10
L = .NOT. A .AND. B .OR. C .EQV. D -> L=.NOT.A.AND.B.OR.C.EQV.D
L = .NOT. .NOT. A -> E10
I = -2**2 -> I=-2**2
I = 2**3**2 -> I=2**3**2
I = 2*-3 -> E10
I = 007 -> I=7
I = 9223372036854775808 -> E11
I = 9223372036854775808 + -> E10
GO TO 9223372036854775808 -> E10
ABCDEFGHIJKLMNOPQRSTUVWXYZ_0123 = 0 -> ABCDEFGHIJKLMNOPQRSTUVWXYZ_0123=0
INPORT (INTEGER ABCDEFGHIJKLMNOPQRSTUVWXYZ_0123) P -> INPORT(INTEGERABCDEFGHIJKLMNOPQRSTUVWXYZ_0123)P
ABCDEFGHIJKLMNOPQRSTUVWXYZ_01234 = 0 -> E12
ABCDEFGHIJKLMNOPQRSTUVWXYZ_01234 = 9223372036854775808 -> E11
";

/// One text or more of each form, as it is spelled.
const FORMS: &str = "PROGRAMMAIN
PROCESSP
PROCESSP()
PROCESSP(A,B)
SUBROUTINES(A)
FUNCTIONF(X)
INTEGERFUNCTIONF()
LOGICALFUNCTIONF(X,Y)
IMPLICITNONE
INTEGERA,B(2,-1:N)
LOGICALL
DIMENSIONA(3),B(0:4)
PARAMETER(N=2,M=N*N)
INPORT()P
INPORT(INTEGER,LOGICALL(2),INPORT(INTEGERX)Q(3))P,R(4)
OUTPORT(INTEGERLOGICAL)P
INTENT(IN)A
INTENT(INOUT)A,B
PROCESSORS(2,N)
A=1
A(I,J)=-B(1)**2+C*.TRUE.
GOTO99999
IF(A.LT.B)THEN
ELSEIF(L)THEN
ELSE
ENDIF
IF(L)A=B
IF(L)CALLS
DOI=1,N
DO10I=1,N
DO10,I=1,N,2
DOWHILE(.NOT.L)
ENDDO
CONTINUE
RETURN
STOP
END
CALLS
CALLS()
CALLS(1,A(2),(B))
PRINT*
PRINT*,'IT''S',A+1
WRITE(*,*)
WRITE(6,*)A,'X'
CHANNEL(IN=P,OUT=Q(1))
CHANNEL(OUT=Q,IN=P)
MERGER(IN=P,OUT=Q,OUT=R)
SEND(P)
SEND(PORT=P)A,B
SEND(PORT)PORT
RECEIVE(P)A,B(I)
RECEIVE(PORT=P,END=20,IOSTAT=K)A
RECEIVE(P,IOSTAT=K,END=20)
ENDCHANNEL(P)
MOVEPORT(FROM=P,TO=Q)
PROBE(PORT=P,EMPTY=L)
PROCESSES
ENDPROCESSES
PROCESSCALLP
PROCESSCALLP()
PROCESSCALLP(A)LOCATION(1,2)
PROCESSCALLP(A,B)SUBMACHINE(1:N)
PROCESSDOI=1,N
PROCESSDO10,I=1,N
ENDPROCESSDO
A=9223372036854775807
";

/// Texts near to them, which are no statements.
const NEAR: &str = "PROGRAM
PROCESSP(A
SUBROUTINES(1)
FUNCTIONF
INTEGERFUNCTIONF
LOGICALFUNCTIONF(1)
IMPLICIT
INTEGER
LOGICALA,
DIMENSIONA
PARAMETER(N)
INPORT(INTEGER5)P
INPORT(INTEGER)
OUTPORT(REAL)P
INTENT(INTO)A
PROCESSORS()
A=
A(1=2
GOTO0
GOTO100000
GOTO99999999999999999999
IF(L)
IF(L)END
IF()THEN
ELSEIF(L)
ELSEX
ENDIF1
DOI=,1
DO100000I=1,2
DOI=1,2,3,4
DOWHILE()
ENDDO1
CONTINUE1
RETURN1
STOP1
END1
CALLS(
PRINT*A
PRINT*,
WRITE(5,*)A
CHANNEL(IN=P)
CHANNEL(IN=P,IN=Q)
MERGER(IN=P)
SEND(P)'X'
SEND()A
RECEIVE(P,END=1,END=2)A
RECEIVE(P)1
ENDCHANNEL(PORT=)
MOVEPORT(TO=Q,FROM=P)
PROBE(P)
PROCESSES,
ENDPROCESSES1
PROCESSCALLPLOCATION(1)(A)
PROCESSCALLP(A)SUBMACHINE(1)
PROCESSDOI=1,
ENDPROCESSDO1
A=--1
";

/// The one card of a text.
fn card_of(alloc: Global, text: &[u8]) -> Result<Card, Fail> {
    let mut source = Vec::from_slice(alloc, b"      ")?;
    source.extend_from_slice(text)?;
    if source.len() > 72 {
        return Err("a text of one line".into());
    }
    let mut read = cards(alloc, source.as_slice()).map_err(|_| "no card")?;
    Ok(read.pop().ok_or("no card")?)
}

/// The spelling of a text's statement, or the rule that the text breaks.
fn read(alloc: Global, text: &[u8]) -> Result<Vec<u8>, Fail> {
    let card = card_of(alloc, text)?;
    match statement(alloc, &card) {
        Ok(placed) => Ok(spell_text(alloc, &placed.stmt)?),
        Err(CheckFail::Refused(refusal)) => Ok(Vec::from_slice(alloc, rule_name(refusal.rule))?),
        Err(CheckFail::NoMemory) => Err("no memory".into()),
    }
}

fn rule_name(rule: Rule) -> &'static [u8] {
    match rule {
        Rule::E10 => b"E10",
        Rule::E11 => b"E11",
        Rule::E12 => b"E12",
        _ => b"another",
    }
}

#[test]
fn statements(rt: HostRuntime) -> Result<(), Fail> {
    for line in ROWS.lines() {
        let (text, wanted) = line.split_once(" -> ").ok_or("no arrow")?;
        let found = read(rt.alloc(), text.as_bytes())?;
        assert_eq!(rt; found.as_slice(), wanted.as_bytes());
    }
    Ok(())
}

#[test]
fn forms_are_read(rt: HostRuntime) -> Result<(), Fail> {
    for text in FORMS.lines() {
        let found = read(rt.alloc(), text.as_bytes())?;
        assert_eq!(rt; found.as_slice(), text.as_bytes());
    }
    Ok(())
}

#[test]
fn what_is_near_is_refused(rt: HostRuntime) -> Result<(), Fail> {
    for text in NEAR.lines() {
        let found = read(rt.alloc(), text.as_bytes())?;
        assert_eq!(rt; found.as_slice(), b"E10".as_slice());
    }
    Ok(())
}
