//! Texts in fixed form with their statements, and statements with their classes and tokens.

ghost use Rattle.std.specs.Prelude.{◌≤◌, length};

use fm_base::{CheckFail, Class, NoMemory, ParseFail, Token};
use fm_cards::cards;
use fm_token::{class, tokens};
use std::alloc::Global;
use std::test::Fail;

// Each text is one constant: an array of constants costs a check for each item.

// Texts, and their statements as lines `LINE LABEL TEXT` or the rule that they break.
const CARDS: &str = "  1 0 do 20 i = 1 , 3
00020 continue
    90x=1
=>
1 10 DO20I=1,3
2 20 CONTINUE
3 9 X=1
--
10
     0
     1x
=>
1 10\x20
2 X
--
C a

      a = 1
* b
     1 + 2
! c
     ++ 3
c d
      
      b = 4=>
3 A=1+2+3
10 B=4
--
      a=1\r
     1+2\r
\r
      end\r=>
1 A=1+2
4 END
--
      a=                                                               12
=>
1 A=1
--
      PRINT *, 'AB
     1CD'=>
1 PRINT*,'AB                                                      CD'
--
      print *, 'it''s a', ' b' ' c'
=>
1 PRINT*,'it''s a',' b'' c'
--
=>
--


=>
--
      A=1
      B=\t2
=>
line 2: E01 bad character
--
      A=1\r\r
=>
line 1: E01 bad character
--
1A    X=1
=>
line 1: E02 bad label field
--
0 0   X=1
=>
line 1: E02 bad label field
--
      X=
   1 1 2
=>
line 2: E03 bad continuation
--
C
     1X
=>
line 2: E03 bad continuation
--
      X='A
     1 'B'
=>
line 1: E05 open character constant
--
      X='A
     1\t
=>
line 1: E05 open character constant
--
      X=1
1    1\t
0     Y=
=>
line 2: E01 bad character
";

// Statements, and their classes.
const CLASSES: &str = "DO10I=1 -> assignment
DO10I=1,3 -> DO
DO10I=F(1,3) -> assignment
DO10I=A(')'),3 -> DO
DOUBLE=1,2 -> DO
PROCESSDOI=1,2 -> PROCESSDO
PROCESSDO -> PROCESS
X=1,2 -> nothing
IF(I)=5 -> assignment
IF(I)=1,2 -> nothing
IF(L)THEN=5 -> logical IF
IF(L)THEN -> block IF
IF(L) -> nothing
IF(C.EQ.')')STOP -> logical IF
CALLX(2)=5 -> assignment
CALLX(I=2) -> CALL
PROCESSCALLALOCATION(1) -> PROCESSCALL
END -> END
ENDIF -> ENDIF
ENDED -> nothing
INTEGERFUNCTIONF(I) -> INTEGERFUNCTION
PRINT*,'A=B' -> PRINT
 -> nothing
";

// Statements, and their tokens with blanks between, or a question mark where there are none.
const TOKENS: &str = "DO10I=1 -> DO10I = 1
DO10I=1,3 -> !DO 10 I = 1 , 3
IF(L)THEN=5 -> !IF ( L ) THEN = 5
IF(L)THEN -> !IF ( L ) THEN
IF(L)IF(M)STOP -> !IF ( L ) !IF ( M ) !STOP
IF(L)STOPX -> ?
PROCESSCALLALOCATION(1) -> !PROCESSCALL ALOCATION ( 1 )
L=1.EQ.2.OR..NOT..TRUE. -> L = 1 .EQ. 2 .OR. .NOT. T
X=A**B*C_D -> X = A ** B * C_D
PRINT*,'A''B','','''' -> !PRINT * , \"A'B , \" , \"'
X=9223372036854775807 -> X = 9223372036854775807
X=009223372036854775808 -> X = #
X=1$ -> ?
X='A'' -> ?
";

fn shown_cards(alloc: Global, source: &[u8]) -> Result<Vec<u8>, NoMemory>
    requires { length source.now ≤ 1_000_000 }
{
    let cards = match cards(alloc, source) {
        Ok(cards) => cards,
        Err(CheckFail::Refused(refusal)) => return refusal.text(alloc),
        Err(CheckFail::NoMemory) => return Err(NoMemory),
    };
    let mut out = Vec::new(alloc);
    for card in &cards {
        out.extend_from_slice(card.line.0.to_string(alloc)?.as_bytes())?;
        out.push(b' ')?;
        if let Some(label) = card.label {
            out.extend_from_slice(label.0.to_string(alloc)?.as_bytes())?;
            out.push(b' ')?;
        }
        out.extend_from_slice(card.text.as_slice())?;
        out.push(b'\n')?;
    }
    Ok(out)
}

fn name_of(class: Class) -> &'static [u8] {
    match class {
        Class::Assignment => b"assignment",
        Class::LogicalIf => b"logical IF",
        Class::BlockIf => b"block IF",
        Class::Nothing => b"nothing",
        class => class.keyword(),
    }
}

fn push_token(alloc: Global, out: &mut Vec<u8>, token: &Token) -> Result<(), NoMemory> {
    match token {
        Token::Key(class) => {
            out.push(b'!')?;
            out.extend_from_slice(class.keyword())?;
        }
        Token::Named(name) => out.extend_from_slice(name.as_bytes())?,
        Token::Number(n) => out.extend_from_slice(n.to_string(alloc)?.as_bytes())?,
        Token::Big => out.push(b'#')?,
        Token::Constant(bytes) => {
            out.push(b'"')?;
            out.extend_from_slice(bytes.as_slice())?;
        }
        Token::Open => out.push(b'(')?,
        Token::Close => out.push(b')')?,
        Token::Comma => out.push(b',')?,
        Token::Equals => out.push(b'=')?,
        Token::Colon => out.push(b':')?,
        Token::True => out.push(b'T')?,
        Token::False => out.push(b'F')?,
        Token::Sign(op) => out.extend_from_slice(op.text())?,
    }
    Ok(())
}

fn shown_tokens(alloc: Global, text: &[u8]) -> Result<Vec<u8>, NoMemory> {
    let mut out = Vec::new(alloc);
    match tokens(alloc, text) {
        Ok(list) => {
            for token in &list {
                out.push(b' ')?;
                push_token(alloc, &mut out, token)?;
            }
        }
        Err(ParseFail::Bad) => out.extend_from_slice(b" ?")?,
        Err(ParseFail::NoMemory) => return Err(NoMemory),
    }
    Ok(out)
}

#[test]
fn reads_cards(rt: HostRuntime) -> Result<(), Fail> {
    for row in CARDS.split("--\n") {
        let (source, wanted) = row.split_once("=>\n").ok_or("no arrow")?;
        let source = source.as_bytes();
        assert!(rt; source.len() <= 1_000_000);
        let found = shown_cards(rt.alloc(), source).map_err(|_| "no memory")?;
        assert_eq!(rt; found.as_slice(), wanted.as_bytes());
    }
    Ok(())
}

// What is shown of a card with so many continuations.
fn shown_continued(alloc: Global, lines: u32) -> Result<Vec<u8>, Fail> {
    let mut source = Vec::from_slice(alloc, b"      X=1\n")?;
    for _ in 0..lines {
        source.extend_from_slice(b"     1+1\n")?;
    }
    if source.len() > 1_000_000 {
        return Err("a shorter text".into());
    }
    Ok(shown_cards(alloc, source.as_slice()).map_err(|_| "no memory")?)
}

#[test]
fn counts_continuations(rt: HostRuntime) -> Result<(), Fail> {
    let found = shown_continued(rt.alloc(), 20)?;
    assert_eq!(rt;
        found.as_slice(),
        b"line 21: E04 too many continuations\n".as_slice()
    );
    let found = shown_continued(rt.alloc(), 19)?;
    assert_eq!(rt; found.len(), 44);
    Ok(())
}

#[test]
fn classes(rt: HostRuntime) -> Result<(), Fail> {
    for line in CLASSES.lines() {
        let (text, wanted) = line.split_once(" -> ").ok_or("no arrow")?;
        assert_eq!(rt; name_of(class(text.as_bytes())), wanted.as_bytes());
    }
    Ok(())
}

#[test]
fn cuts(rt: HostRuntime) -> Result<(), Fail> {
    for line in TOKENS.lines() {
        let (text, wanted) = line.split_once(" ->").ok_or("no arrow")?;
        let found = shown_tokens(rt.alloc(), text.as_bytes()).map_err(|_| "no memory")?;
        assert_eq!(rt; found.as_slice(), wanted.as_bytes());
    }
    Ok(())
}
