//! Tokens that a form fixes.

ghost use Rattle.std.specs.Prelude.{◌≡◌};
ghost use Rattle.fm_stmt_parts.specs.Reading.{is, is_open, is_close, is_comma, is_equals, is_colon, is_star, is_word_token, word_text};

use fm_base::{Op, Token};

/// A word of the language that stands inside of a statement. As tokens go it is a name.
#[derive(Clone, Copy)]
pub enum Word {
    Then,
    In,
    Out,
    InOut,
    Port,
    From,
    To,
    Empty,
    End,
    Iostat,
    Location,
    Submachine,
    Inport,
    Outport,
    Integer,
    Logical,
}

/// A token that a form fixes.
#[derive(Clone, Copy)]
pub enum Mark {
    Open,
    Close,
    Comma,
    Equals,
    Colon,
    Star,
    Word(Word),
}

impl Word {
    /// How the word is written.
    pub fn text(self) -> &'static [u8]
        ensures { result.now ≡ word_text self }
    {
        match self {
            Word::Then => b"THEN",
            Word::In => b"IN",
            Word::Out => b"OUT",
            Word::InOut => b"INOUT",
            Word::Port => b"PORT",
            Word::From => b"FROM",
            Word::To => b"TO",
            Word::Empty => b"EMPTY",
            Word::End => b"END",
            Word::Iostat => b"IOSTAT",
            Word::Location => b"LOCATION",
            Word::Submachine => b"SUBMACHINE",
            Word::Inport => b"INPORT",
            Word::Outport => b"OUTPORT",
            Word::Integer => b"INTEGER",
            Word::Logical => b"LOGICAL",
        }
    }
}

/// Whether a token is a word.
pub fn is_word_token(word: Word, token: &Token) -> bool
    ensures { result ≡ is_word_token word token.now }
{
    match token {
        Token::Named(name) => name.as_bytes() == word.text(),
        _ => false,
    }
}

fn is_open(token: &Token) -> bool
    ensures { result ≡ is_open token.now }
{
    matches!(token, Token::Open)
}

/// Whether a token is a closing parenthesis.
pub fn is_close(token: &Token) -> bool
    ensures { result ≡ is_close token.now }
{
    matches!(token, Token::Close)
}

/// Whether a token is a comma.
pub fn is_comma(token: &Token) -> bool
    ensures { result ≡ is_comma token.now }
{
    matches!(token, Token::Comma)
}

fn is_equals(token: &Token) -> bool
    ensures { result ≡ is_equals token.now }
{
    matches!(token, Token::Equals)
}

fn is_colon(token: &Token) -> bool
    ensures { result ≡ is_colon token.now }
{
    matches!(token, Token::Colon)
}

fn is_star(token: &Token) -> bool
    ensures { result ≡ is_star token.now }
{
    matches!(token, Token::Sign(Op::Mul))
}

/// Whether a token is the fixed one.
pub fn is_mark(mark: Mark, token: &Token) -> bool
    ensures { result ≡ is mark token.now }
{
    match mark {
        Mark::Open => is_open(token),
        Mark::Close => is_close(token),
        Mark::Comma => is_comma(token),
        Mark::Equals => is_equals(token),
        Mark::Colon => is_colon(token),
        Mark::Star => is_star(token),
        Mark::Word(word) => is_word_token(word, token),
    }
}
