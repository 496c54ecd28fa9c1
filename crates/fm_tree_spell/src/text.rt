//! The text of a statement.

ghost use Rattle.std.specs.Prelude.{◌≡◌, ◌++◌, IfOk, OnOk};
ghost use Rattle.std.specs.List.{flat_map};
ghost use Rattle.fm_base.specs.Tokens.{token_text, constant_text, doubled};
ghost use Rattle.fm_tree.specs.Statements.{spelling_of};

use crate::statement::spell;
use fm_base::{NoMemory, Token};
use fm_tree::Stmt;
use std::alloc::Global;

fn push_constant_text(bytes: &[u8], out: &mut Vec<u8>) -> Result<(), NoMemory>
    ensures { OnOk result (out.new.items ≡ out.old.items ++ constant_text bytes.now) }
{
    out.push(b'\'')?;
    for byte in bytes {
        push_doubled(*byte, out)?;
    }
    out.push(b'\'')?;
    Ok(())
}

/// A byte of a constant: an apostrophe is written twice.
fn push_doubled(byte: u8, out: &mut Vec<u8>) -> Result<(), NoMemory>
    ensures { OnOk result (out.new.items ≡ out.old.items ++ doubled byte) }
{
    if byte == b'\'' {
        out.push(b'\'')?;
    }
    out.push(byte)?;
    Ok(())
}

fn push_text(text: &[u8], out: &mut Vec<u8>) -> Result<(), NoMemory>
    ensures { OnOk result (out.new.items ≡ out.old.items ++ text.now) }
{
    out.extend_from_slice(text)?;
    Ok(())
}

fn push_number(alloc: Global, number: i64, out: &mut Vec<u8>) -> Result<(), NoMemory>
    ensures { OnOk result (out.new.items ≡ out.old.items ++ token_text (Token.Number number)) }
{
    push_text(number.to_string(alloc)?.as_bytes(), out)
}

fn push_token_text(alloc: Global, token: &Token, out: &mut Vec<u8>) -> Result<(), NoMemory>
    ensures { OnOk result (out.new.items ≡ out.old.items ++ token_text token.now) }
{
    match token {
        Token::Key(class) => push_text(class.keyword(), out),
        Token::Named(name) => push_text(name.as_bytes(), out),
        Token::Number(n) => push_number(alloc, *n, out),
        Token::Big => Ok(()),
        Token::Constant(bytes) => push_constant_text(bytes.as_slice(), out),
        Token::Open => push_text(b"(", out),
        Token::Close => push_text(b")", out),
        Token::Comma => push_text(b",", out),
        Token::Equals => push_text(b"=", out),
        Token::Colon => push_text(b":", out),
        Token::True => push_text(b".TRUE.", out),
        Token::False => push_text(b".FALSE.", out),
        Token::Sign(op) => push_text(op.text(), out),
    }
}

fn text_of(alloc: Global, tokens: &[Token]) -> Result<Vec<u8>, NoMemory>
    ensures { IfOk result (λ v. v.items ≡ flat_map token_text tokens.now) }
{
    let mut out = Vec::new(alloc);
    for token in tokens {
        push_token_text(alloc, token, &mut out)?;
    }
    Ok(out)
}

/// The text of a statement, without blanks but for those in character constants.
pub fn spell_text(alloc: Global, statement: &Stmt) -> Result<Vec<u8>, NoMemory>
    ensures { IfOk result (λ v. v.items ≡ flat_map token_text (spelling_of statement.now)) }
{
    let tokens = spell(alloc, statement)?;
    text_of(alloc, tokens.as_slice())
}
