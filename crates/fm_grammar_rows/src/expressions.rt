//! Expressions with many parentheses, read without recursion.

use fm_base::{Op, ParseFail, Token};
use fm_expr::expr;
use std::test::Fail;

#[test]
fn deep(rt: HostRuntime) -> Result<(), Fail> {
    let mut tokens = Vec::new(rt.alloc());
    for _ in 0..600u32 {
        tokens.push(Token::Open)?;
    }
    tokens.push(Token::Number(1))?;
    for _ in 0..600u32 {
        tokens.push(Token::Close)?;
    }
    let (_, n) = expr(rt.alloc(), &tokens).map_err(|_| "not read")?;
    assert_eq!(rt; n, 1201);
    Ok(())
}

// 1 + ( 1 * ( 1 + ( .. , with no end: the first 1 alone is an expression
#[test]
fn never_closed(rt: HostRuntime) -> Result<(), Fail> {
    let mut tokens = Vec::new(rt.alloc());
    for _ in 0..300u32 {
        tokens.push(Token::Number(1))?;
        tokens.push(Token::Sign(Op::Add))?;
        tokens.push(Token::Open)?;
        tokens.push(Token::Number(1))?;
        tokens.push(Token::Sign(Op::Mul))?;
        tokens.push(Token::Open)?;
    }
    let (_, n) = expr(rt.alloc(), &tokens).map_err(|_| "not read")?;
    assert_eq!(rt; n, 1);
    Ok(())
}

#[test]
fn none(rt: HostRuntime) -> Result<(), Fail> {
    let mut tokens = Vec::new(rt.alloc());
    tokens.push(Token::Sign(Op::Mul))?;
    let fail = expr(rt.alloc(), &tokens).map(|_| ());
    assert!(rt; matches!(fail, Err(ParseFail::Bad)));
    Ok(())
}
