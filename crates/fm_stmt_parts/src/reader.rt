//! Single parts of statements, read from the front of the tokens.

ghost use Rattle.std.specs.Prelude.{◌≡◌, [], ◌∷◌, MatchOption, Some, None};
ghost use Rattle.fm_stmt_parts.specs.Gives.{Gives};
ghost use Rattle.fm_stmt_parts.specs.Reading.{is, assigned_at, before_read, behind_read, constant_at, expr_read, optional_token_read, label_at, mark_at, name_at, nothing_left, starts, is_open, opens};

use crate::mark::{Mark, Word, is_close, is_mark};
use fm_base::{Label, Name, ParseFail, Seq, Token};
use fm_expr::expr;
use fm_tree::Expr;
use std::alloc::Global;

/// The first token, and those behind it.
pub fn front(tokens: &[Token]) -> Option<(&Token, &[Token])>
    ensures { MatchOption result (tokens.now ≡ []) (λ p. tokens.now ≡ p.0.now ∷ p.1.now) }
{
    tokens.split_first()
}

/// A name.
pub fn a_name(alloc: Global, tokens: &[Token]) -> Result<(Name, &[Token]), ParseFail>
    ensures { Gives (λ p. (p.0, p.1.now)) result (name_at tokens.now) }
{
    match tokens.split_first() {
        Some((Token::Named(name), rest)) => Ok((name.copy(alloc)?, rest)),
        _ => Err(ParseFail::Bad),
    }
}

/// A label, from 1 to 99999.
pub fn a_label(tokens: &[Token]) -> Result<(Label, &[Token]), ParseFail>
    ensures { Gives (λ p. (p.0, p.1.now)) result (label_at tokens.now) }
{
    match tokens.split_first() {
        Some((Token::Number(n), rest)) if 1 <= *n && *n <= 99_999 => {
            Ok((Label(*n as u32), rest))
        }
        _ => Err(ParseFail::Bad),
    }
}

/// A character constant.
pub fn a_constant(alloc: Global, tokens: &[Token]) -> Result<(Seq<u8>, &[Token]), ParseFail>
    ensures { Gives (λ p. (p.0, p.1.now)) result (constant_at tokens.now) }
{
    match tokens.split_first() {
        Some((Token::Constant(bytes), rest)) => {
            Ok((Seq::from_slice(alloc, bytes.as_slice())?, rest))
        }
        _ => Err(ParseFail::Bad),
    }
}

/// An expression.
pub fn an_expr(alloc: Global, tokens: &[Token]) -> Result<(Expr, &[Token]), ParseFail>
    ensures { Gives (λ p. (p.0, p.1.now)) result (expr_read tokens.now) }
{
    let (tree, n) = expr(alloc, tokens)?;
    let (_, rest) = tokens.split_at(n);
    Ok((tree, rest))
}

/// What stands behind a fixed token, where that comes.
pub fn behind_mark(mark: Mark, tokens: &[Token]) -> Option<&[Token]>
    ensures { MatchOption result (mark_at mark tokens.now ≡ None) (λ rest. mark_at mark tokens.now ≡ Some rest.now) }
{
    match tokens.split_first() {
        Some((token, rest)) if is_mark(mark, token) => Some(rest),
        _ => None,
    }
}

/// A fixed token.
pub fn a_mark(mark: Mark, tokens: &[Token]) -> Result<&[Token], ParseFail>
    ensures { Gives (λ p. p.now) result (mark_at mark tokens.now) }
{
    match behind_mark(mark, tokens) {
        Some(rest) => Ok(rest),
        None => Err(ParseFail::Bad),
    }
}

/// What was read, where a fixed token stands behind it.
pub fn ended_by<T: Drop>(value: T, mark: Mark, tokens: &[Token]) -> Result<(T, &[Token]), ParseFail>
    ensures { Gives (λ p. (p.0, p.1.now)) result (before_read (λ ts. Some (value, ts)) mark tokens.now) }
{
    let rest = a_mark(mark, tokens)?;
    Ok((value, rest))
}

/// A fixed token and an expression.
pub fn expr_behind(
    alloc: Global,
    mark: Mark,
    tokens: &[Token],
) -> Result<(Expr, &[Token]), ParseFail>
    ensures { Gives (λ p. (p.0, p.1.now)) result (behind_read mark expr_read tokens.now) }
{
    let rest = a_mark(mark, tokens)?;
    an_expr(alloc, rest)
}

/// Whether a fixed token comes.
pub fn an_optional_token(mark: Mark, tokens: &[Token]) -> (bool, &[Token])
    ensures { optional_token_read mark tokens.now ≡ Some (result.0, result.1.now) }
{
    let Some((token, rest)) = tokens.split_first() else {
        return (false, tokens);
    };
    if is_mark(mark, token) {
        (true, rest)
    } else {
        (false, tokens)
    }
}

/// What stands behind the word and an equals sign.
pub fn assigned_behind(word: Word, tokens: &[Token]) -> Option<&[Token]>
    ensures { MatchOption result (assigned_at word tokens.now ≡ None)
        (λ rest. assigned_at word tokens.now ≡ Some rest.now) }
{
    match behind_mark(Mark::Word(word), tokens) {
        Some(rest) => behind_mark(Mark::Equals, rest),
        None => None,
    }
}

/// Whether the first token is the fixed one.
pub fn starts_with(mark: Mark, tokens: &[Token]) -> bool
    ensures { result ≡ starts (is mark) tokens.now }
{
    match tokens.split_first() {
        Some((token, _)) => is_mark(mark, token),
        None => false,
    }
}

/// Whether a list goes on: neither the end nor a closing parenthesis comes.
pub fn goes_on(tokens: &[Token]) -> bool
    ensures { result ≡ starts opens tokens.now }
{
    match tokens.split_first() {
        Some((token, _)) => !is_close(token),
        None => false,
    }
}

/// Whether nothing is left.
pub fn at_end(tokens: &[Token]) -> Result<(), ParseFail>
    ensures { Gives (λ p. p) result (nothing_left tokens.now) }
{
    if tokens.is_empty() {
        Ok(())
    } else {
        Err(ParseFail::Bad)
    }
}
