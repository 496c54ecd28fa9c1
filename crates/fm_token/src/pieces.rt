//! The test whether a piece of a text is a token.

ghost use Rattle.std.specs.Prelude.{◌≡◌, ◌++◌, IfOk, false, find};
ghost use Rattle.std.specs.List.{list_all};
ghost use Rattle.fm_base.specs.Letters.{is_digit};
ghost use Rattle.fm_base.specs.Tokens.{op_text};
ghost use Rattle.fm_token.specs.Classes.{is_same_text};
ghost use Rattle.fm_token.specs.Steps.{bare_tokens, constant_bytes, counted, digits_number, fixed_token, is_spelled, is_waiting, number_token, token_at};

use crate::front::front;
use fm_base::{Name, NoMemory, Op, Seq, Token, are_name_bytes};
use std::alloc::Global;

/// The least number that is too large.
const LIMIT: u128 = 1 << 63;

const OPERATORS: [Op; 16] = [
    Op::Eqv,
    Op::Neqv,
    Op::Or,
    Op::And,
    Op::Not,
    Op::Eq,
    Op::Ne,
    Op::Lt,
    Op::Le,
    Op::Gt,
    Op::Ge,
    Op::Add,
    Op::Sub,
    Op::Mul,
    Op::Div,
    Op::Pow,
];

fn is_digits(bytes: &[u8]) -> bool
    ensures { result ≡ list_all is_digit bytes.now }
{
    bytes.iter().all(|byte| byte.is_ascii_digit())
}

fn number_token(digits: &[u8]) -> Token
    ensures { result ≡ number_token (digits_number 0 digits.now) }
{
    let mut value = 0u128;
    'digits: for digit in digits {
        let next = 10 * value + u128::from(digit.saturating_sub(b'0'));
        if next >= LIMIT {
            return Token::Big;
        }
        value = next;
    }
    Token::Number(value as i64)
}

// The first of two apostrophes is left out.
fn push_counted(bytes: &mut Seq<u8>, waiting: bool, byte: u8) -> Result<(), NoMemory>
    ensures { IfOk result (λ _. bytes.new ≡ bytes.old ++ counted waiting byte) }
{
    if waiting || byte != b'\'' {
        bytes.push(byte)?;
    }
    Ok(())
}

/// Inside a constant: whether the byte is an apostrophe that closes it or is the first of two.
pub fn is_waiting(waiting: bool, byte: u8) -> bool
    ensures { result ≡ is_waiting waiting byte }
{
    byte == b'\'' && !waiting
}

// From what stands behind the first apostrophe.
fn constant_bytes(alloc: Global, behind: &[u8]) -> Result<Option<Seq<u8>>, NoMemory>
    ensures { IfOk result (λ o. o ≡ constant_bytes false behind.now) }
{
    let mut bytes = Seq::new(alloc);
    let mut waiting = false;
    'bytes: for byte in behind {
        if waiting && *byte != b'\'' {
            return Ok(None);
        }
        push_counted(&mut bytes, waiting, *byte)?;
        waiting = is_waiting(waiting, *byte);
    }
    Ok(if waiting { Some(bytes) } else { None })
}

fn is_operator(piece: &[u8], op: Op) -> bool
    ensures { result ≡ is_same_text piece.now (op_text op) }
{
    piece == op.text()
}

fn operator(piece: &[u8]) -> Option<Op>
    ensures { result ≡ find (λ op. is_same_text piece.now (op_text op)) OPERATORS }
{
    OPERATORS.iter().copied().find(|op| is_operator(piece, *op))
}

#[tactic(auto, unfolding(crate::specs::Steps::bare_tokens))]
fn bare_token(piece: &[u8]) -> Option<Token>
    ensures { result ≡ find (is_spelled piece.now) bare_tokens }
{
    if piece == b"(".as_slice() {
        Some(Token::Open)
    } else if piece == b")".as_slice() {
        Some(Token::Close)
    } else if piece == b",".as_slice() {
        Some(Token::Comma)
    } else if piece == b"=".as_slice() {
        Some(Token::Equals)
    } else if piece == b":".as_slice() {
        Some(Token::Colon)
    } else if piece == b".TRUE.".as_slice() {
        Some(Token::True)
    } else if piece == b".FALSE.".as_slice() {
        Some(Token::False)
    } else {
        None
    }
}

fn fixed_token(piece: &[u8]) -> Option<Token>
    ensures { result ≡ fixed_token piece.now }
{
    match bare_token(piece) {
        Some(token) => Some(token),
        None => match operator(piece) {
            Some(op) => Some(Token::Sign(op)),
            None => None,
        },
    }
}

/// The token that the whole piece is, if it is one.
#[tactic(auto, unfolding(crate::specs::Steps::token_at))]
pub fn token_at(alloc: Global, piece: &[u8]) -> Result<Option<Token>, NoMemory>
    ensures { IfOk result (λ o. o ≡ token_at piece.now) }
{
    let Some((first, behind)) = front(piece) else {
        return Ok(None);
    };
    if first.is_ascii_uppercase() {
        if !are_name_bytes(behind) {
            return Ok(None);
        }
        let name = Name::from_bytes(alloc, piece)?;
        Ok(Some(Token::Named(name)))
    } else if first.is_ascii_digit() {
        if is_digits(behind) {
            Ok(Some(number_token(piece)))
        } else {
            Ok(None)
        }
    } else if first == b'\'' {
        match constant_bytes(alloc, behind)? {
            Some(bytes) => Ok(Some(Token::Constant(bytes))),
            None => Ok(None),
        }
    } else {
        Ok(fixed_token(piece))
    }
}
