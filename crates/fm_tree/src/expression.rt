//! Expressions.

ghost use Rattle.std.specs.Prelude.{◌≡◌};

use fm_base::{Name, Op};
use std::marker::Model;

/// An expression. Contracts see it as a plain tree.
#[derive(Drop)]
#[cycle(expression)]
pub struct Expr {
    /// The outermost node.
    pub node: ExprNode,
}

/// A node of an expression.
#[derive(Drop)]
#[cycle(expression)]
pub enum ExprNode {
    Number(i64),
    Truth(bool),
    Named(Name),
    /// A name with a list in parentheses: an element, or a reference of a function.
    Ref(Name, Vec<Expr>),
    Paren(Box<Expr>),
    /// A sign and its operand.
    Signed(Op, Box<Expr>),
    Not(Box<Expr>),
    Binary(Op, Box<Expr>, Box<Expr>),
}

impl Model for Expr {
    ghost use Rattle.fm_tree.specs.Tree.{Tree, node_count};
    ghost use Rattle.fm_tree.specs.TreeCode.{tree_code};

    ghost Value = { Tree };

    ghost coded = { tree_code };

    ghost use Rattle.fm_tree.specs.Reading.{reading};

    ghost view = { λ e. reading e.node };

    ghost size = { node_count };

    ghost use Rattle.fm_tree.specs.Falls.{children_are_smaller};

    ghost size_decreases = { λ e _. children_are_smaller e.node };
}
