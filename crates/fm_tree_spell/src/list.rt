//! The tokens of lists.

ghost use Rattle.std.specs.Prelude.{◌≡◌, ◌++◌, OnOk};
ghost use Rattle.fm_tree.specs.Forms.{Form, before, parens, optional_behind, listed, more_spelled, list_spelled, bracketed_spelled};

use crate::expression::push_expr;
use crate::word::{push_name, push_token};
use fm_base::{Name, NoMemory, Seq, Token};
use fm_tree::Expr;
use std::alloc::Global;

/// A form, by the code that writes the tokens of a value at the end.
pub trait Spelled<T> {
    ghost form: { Form T };

    fn push(alloc: Global, part: &T, out: &mut Vec<Token>) -> Result<(), NoMemory>
        ensures { OnOk result (out.new.items ≡ out.old.items ++ form.spelled part.now) };
}

/// Each behind a comma.
pub fn push_more<T, F: Spelled<T>>(
    alloc: Global,
    parts: &[T],
    out: &mut Vec<Token>,
) -> Result<(), NoMemory>
    ensures { OnOk result (out.new.items ≡ out.old.items ++ more_spelled F.form parts.now) }
{
    for part in parts {
        push_token(Token::Comma, out)?;
        F::push(alloc, part, out)?;
    }
    Ok(())
}

/// With commas between.
pub fn push_list<T, F: Spelled<T>>(
    alloc: Global,
    parts: &[T],
    out: &mut Vec<Token>,
) -> Result<(), NoMemory>
    ensures { OnOk result (out.new.items ≡ out.old.items ++ list_spelled F.form parts.now) }
{
    let Some((first, rest)) = parts.split_first() else {
        return Ok(());
    };
    F::push(alloc, first, out)?;
    push_more::<T, F>(alloc, rest, out)
}

/// In parentheses, where there is one.
pub fn push_bracketed<T, F: Spelled<T>>(
    alloc: Global,
    parts: &[T],
    out: &mut Vec<Token>,
) -> Result<(), NoMemory>
    ensures { OnOk result (out.new.items ≡ out.old.items ++ bracketed_spelled F.form parts.now) }
{
    let Some((first, rest)) = parts.split_first() else {
        return Ok(());
    };
    push_token(Token::Open, out)?;
    F::push(alloc, first, out)?;
    push_more::<T, F>(alloc, rest, out)?;
    push_token(Token::Close, out)
}

/// In parentheses, also where there is none.
pub fn push_parens<T, F: Spelled<T>>(
    alloc: Global,
    parts: &[T],
    out: &mut Vec<Token>,
) -> Result<(), NoMemory>
    ensures { OnOk result (out.new.items ≡ out.old.items ++ (parens (listed F.form)).spelled parts.now) }
{
    push_token(Token::Open, out)?;
    push_list::<T, F>(alloc, parts, out)?;
    push_token(Token::Close, out)
}

/// In parentheses, where a list is written, also one of none.
pub fn push_arguments<T, F: Spelled<T>>(
    alloc: Global,
    parts: &Option<Seq<T>>,
    out: &mut Vec<Token>,
) -> Result<(), NoMemory>
    ensures { OnOk result (out.new.items
        ≡ out.old.items ++ (optional_behind Token.Open (before (listed F.form) Token.Close)).spelled parts.now) }
{
    match parts {
        None => Ok(()),
        Some(parts) => push_parens::<T, F>(alloc, parts.as_slice(), out),
    }
}

/// A name.
pub struct NameForm;

impl Spelled<Name> for NameForm {
    ghost use Rattle.fm_tree.specs.Forms.{name};

    ghost form = { name };

    fn push(alloc: Global, part: &Name, out: &mut Vec<Token>) -> Result<(), NoMemory> {
        push_name(alloc, part, out)
    }
}

/// An expression.
pub struct ExprForm;

impl Spelled<Expr> for ExprForm {
    ghost use Rattle.fm_tree.specs.Forms.{expr};

    ghost form = { expr };

    fn push(alloc: Global, part: &Expr, out: &mut Vec<Token>) -> Result<(), NoMemory> {
        push_expr(alloc, part, out)
    }
}
