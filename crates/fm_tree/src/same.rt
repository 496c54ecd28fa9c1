//! Equality of expressions, of bounds and of the types of ports. Takes no memory.

ghost use Rattle.std.specs.Prelude.{◌≡◌};
ghost use Rattle.fm_tree.specs.Same.{same_fields, same_kind, same_tree, same_trees};
ghost use Rattle.fm_tree.specs.Tree.{trees_from};
ghost use Rattle.fm_tree.specs.TreeCode.{op_number};
ghost use Rattle.fm_tree.specs.PortReading.{kind_of, fields_of};

use crate::expression::{Expr, ExprNode};
use crate::port_type::{Bound, Field, Kind, PortType};
use fm_base::Op;

fn op_number(op: Op) -> u8
    ensures { result ≡ op_number op }
{
    match op {
        Op::Eqv => 0,
        Op::Neqv => 1,
        Op::Or => 2,
        Op::And => 3,
        Op::Not => 4,
        Op::Eq => 5,
        Op::Ne => 6,
        Op::Lt => 7,
        Op::Le => 8,
        Op::Gt => 9,
        Op::Ge => 10,
        Op::Add => 11,
        Op::Sub => 12,
        Op::Mul => 13,
        Op::Div => 14,
        Op::Pow => 15,
    }
}

#[cycle(same_expr)]
fn same_expr(left: &Expr, right: &Expr) -> bool
    ensures { result ≡ same_tree left.now right.now }
{
    match (&left.node, &right.node) {
        (ExprNode::Number(a), ExprNode::Number(b)) => a == b,
        (ExprNode::Truth(a), ExprNode::Truth(b)) => a == b,
        (ExprNode::Named(a), ExprNode::Named(b)) => a == b,
        (ExprNode::Ref(a, args), ExprNode::Ref(b, others)) => a == b && same_exprs(args, others),
        (ExprNode::Paren(a), ExprNode::Paren(b)) => same_expr(a, b),
        (ExprNode::Signed(op, a), ExprNode::Signed(other, b)) => {
            op_number(*op) == op_number(*other) && same_expr(a, b)
        }
        (ExprNode::Not(a), ExprNode::Not(b)) => same_expr(a, b),
        (ExprNode::Binary(op, a, c), ExprNode::Binary(other, b, d)) => {
            op_number(*op) == op_number(*other) && same_expr(a, b) && same_expr(c, d)
        }
        _ => false,
    }
}

#[cycle(same_expr)]
fn same_exprs(left: &[Expr], right: &[Expr]) -> bool
    ensures { result ≡ same_trees (trees_from left.now) (trees_from right.now) }
{
    match (left.split_first(), right.split_first()) {
        (None, None) => true,
        (None, Some(_)) => false,
        (Some(_), None) => false,
        (Some((a, lefts)), Some((b, rights))) => same_expr(a, b) && same_exprs(lefts, rights),
    }
}

impl PartialEq for Expr {
    ghost use Rattle.fm_tree.specs.Same.{same_tree, tree_partial_equivalence};

    ghost eq = { same_tree };

    ghost laws = { tree_partial_equivalence };

    fn eq(&self, other: &Self) -> bool {
        same_expr(self, other)
    }
}

impl Eq for Expr {
    ghost use Rattle.fm_tree.specs.Same.{tree_equivalence};

    ghost laws = { tree_equivalence };
}

impl PartialEq for Bound {
    ghost use Rattle.fm_tree.specs.Same.{same_bound, bound_partial_equivalence};

    ghost eq = { same_bound };

    ghost laws = { bound_partial_equivalence };

    fn eq(&self, other: &Self) -> bool {
        self.low == other.low && self.high == other.high
    }
}

impl Eq for Bound {
    ghost use Rattle.fm_tree.specs.Same.{bound_equivalence};

    ghost laws = { bound_equivalence };
}

#[cycle(same_type)]
fn same_fields(left: &[Field], right: &[Field]) -> bool
    ensures { result ≡ same_fields (fields_of left.now) (fields_of right.now) }
{
    match (left.split_first(), right.split_first()) {
        (None, None) => true,
        (None, Some(_)) => false,
        (Some(_), None) => false,
        (Some((a, lefts)), Some((b, rights))) => {
            same_kind(&a.kind, &b.kind)
                && a.name == b.name
                && a.bounds == b.bounds
                && same_fields(lefts, rights)
        }
    }
}

#[cycle(same_type)]
fn same_kind(left: &Kind, right: &Kind) -> bool
    ensures { result ≡ same_kind (kind_of left.now) (kind_of right.now) }
{
    match (left, right) {
        (Kind::Integer, Kind::Integer) => true,
        (Kind::Logical, Kind::Logical) => true,
        (Kind::In(a), Kind::In(b)) => same_type(a, b),
        (Kind::Out(a), Kind::Out(b)) => same_type(a, b),
        _ => false,
    }
}

#[cycle(same_type)]
fn same_type(left: &PortType, right: &PortType) -> bool
    ensures { result ≡ same_fields left.now right.now }
{
    same_fields(left.as_slice(), right.as_slice())
}

impl PartialEq for PortType {
    ghost use Rattle.fm_tree.specs.Same.{same_fields, fields_partial_equivalence};

    ghost eq = { same_fields };

    ghost laws = { fields_partial_equivalence };

    fn eq(&self, other: &Self) -> bool {
        same_type(self, other)
    }
}

impl Eq for PortType {
    ghost use Rattle.fm_tree.specs.Same.{fields_equivalence};

    ghost laws = { fields_equivalence };
}
