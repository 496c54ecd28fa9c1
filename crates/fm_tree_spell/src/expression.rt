//! The tokens of expressions.

ghost use Rattle.std.specs.Prelude.{◌≡◌, [], ◌∷◌, ◌++◌, OnOk};
ghost use Rattle.fm_tree.specs.Tree.{trees_from};
ghost use Rattle.fm_tree.specs.Spelling.{spelling, list_spelling};

use crate::word::{push_name, push_token};
use fm_base::{Name, NoMemory, Op, Token};
use fm_tree::{Expr, ExprNode};
use std::alloc::Global;

/// Writes the tokens of an expression at the end.
#[cycle(push_expr)]
pub fn push_expr(alloc: Global, expr: &Expr, out: &mut Vec<Token>) -> Result<(), NoMemory>
    ensures { OnOk result (out.new.items ≡ out.old.items ++ spelling expr.now) }
{
    match &expr.node {
        ExprNode::Number(n) => push_token(Token::Number(*n), out),
        ExprNode::Truth(true) => push_token(Token::True, out),
        ExprNode::Truth(false) => push_token(Token::False, out),
        ExprNode::Named(name) => push_name(alloc, name, out),
        ExprNode::Ref(name, args) => {
            push_opened(alloc, name, out)?;
            push_list(alloc, args, out)?;
            push_token(Token::Close, out)
        }
        ExprNode::Paren(inner) => {
            push_token(Token::Open, out)?;
            push_expr(alloc, inner, out)?;
            push_token(Token::Close, out)
        }
        ExprNode::Signed(op, inner) => {
            push_token(Token::Sign(*op), out)?;
            push_expr(alloc, inner, out)
        }
        ExprNode::Not(inner) => {
            push_token(Token::Sign(Op::Not), out)?;
            push_expr(alloc, inner, out)
        }
        ExprNode::Binary(op, left, right) => {
            push_expr(alloc, left, out)?;
            push_token(Token::Sign(*op), out)?;
            push_expr(alloc, right, out)
        }
    }
}

// `name (`
fn push_opened(alloc: Global, name: &Name, out: &mut Vec<Token>) -> Result<(), NoMemory>
    ensures { OnOk result (out.new.items ≡ out.old.items ++ Token.Named name.now ∷ Token.Open ∷ []) }
{
    push_name(alloc, name, out)?;
    push_token(Token::Open, out)
}

#[cycle(push_expr)]
fn push_list(alloc: Global, exprs: &[Expr], out: &mut Vec<Token>) -> Result<(), NoMemory>
    ensures { OnOk result (out.new.items ≡ out.old.items ++ list_spelling (trees_from exprs.now)) }
{
    let Some((first, rest)) = exprs.split_first() else {
        return Ok(());
    };
    push_expr(alloc, first, out)?;
    for expr in rest {
        push_token(Token::Comma, out)?;
        push_expr(alloc, expr, out)?;
    }
    Ok(())
}
