//! How many references of functions stand in expressions.

ghost use Rattle.std.specs.Prelude.{◌≡◌, ◌+◌, IfOk};
ghost use Rattle.fm_tree.specs.Tree.{trees_from};
ghost use Rattle.fm_mean.specs.Evaluate.{refs_in, refs_in_all};
ghost use Rattle.fm_plain_frame.specs.Units.{unit_of};
ghost use Rattle.fm_mean.specs.Referring.{names_in};

use crate::reference::referent;
use fm_base::NoMemory;
use fm_plain_frame::{UnitView, number_after};
use fm_tree::{Expr, ExprNode};

#[cycle(counting)]
fn references_in(unit: &UnitView<'_>, tree: &Expr, next: usize) -> Result<usize, NoMemory>
    ensures { IfOk result (λ k. k ≡ next + refs_in (names_in unit.now.program.now (unit_of unit.now)) tree.now) }
{
    match &tree.node {
        ExprNode::Number(_) => Ok(next),
        ExprNode::Truth(_) => Ok(next),
        ExprNode::Named(_) => Ok(next),
        ExprNode::Ref(name, arguments) => {
            let next = references(unit, arguments, next)?;
            number_after(&referent(unit, name), next)
        }
        ExprNode::Paren(inner) => references_in(unit, inner, next),
        ExprNode::Signed(_, inner) => references_in(unit, inner, next),
        ExprNode::Not(inner) => references_in(unit, inner, next),
        ExprNode::Binary(_, left, right) => {
            let next = references_in(unit, left, next)?;
            references_in(unit, right, next)
        }
    }
}

/// The number of references that stand before expressions and in them, where `next` of them stand before.
#[cycle(counting)]
pub fn references(unit: &UnitView<'_>, trees: &[Expr], next: usize) -> Result<usize, NoMemory>
    ensures { IfOk result
        (λ k. k ≡ next + refs_in_all (names_in unit.now.program.now (unit_of unit.now)) (trees_from trees.now)) }
{
    let mut next = next;
    'trees: for tree in trees {
        next = references_in(unit, tree, next)?;
    }
    Ok(next)
}
