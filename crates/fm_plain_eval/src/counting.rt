//! How many references of functions stand in expressions.

ghost use Rattle.std.specs.Prelude.{◌≡◌, ◌+◌, IfOk};
ghost use Rattle.fm_tree.specs.Tree.{trees_from};
ghost use Rattle.fm_mean.specs.Evaluate.{refs_in, refs_in_all};
ghost use Rattle.fm_plain_eval.specs.Scopes.{scope_of};

use crate::reference::referent;
use crate::scopes::Scope;
use fm_base::NoMemory;
use fm_plain_frame::number_after;
use fm_tree::{Expr, ExprNode};

#[cycle(counting)]
fn references_in(scope: &Scope<'_>, tree: &Expr, next: usize) -> Result<usize, NoMemory>
    ensures { IfOk result (λ k. k ≡ next + refs_in (scope_of scope.now) tree.now) }
{
    match &tree.node {
        ExprNode::Number(_) => Ok(next),
        ExprNode::Truth(_) => Ok(next),
        ExprNode::Named(_) => Ok(next),
        ExprNode::Ref(name, arguments) => {
            let next = references(scope, arguments, next)?;
            number_after(&referent(scope, name), next)
        }
        ExprNode::Paren(inner) => references_in(scope, inner, next),
        ExprNode::Signed(_, inner) => references_in(scope, inner, next),
        ExprNode::Not(inner) => references_in(scope, inner, next),
        ExprNode::Binary(_, left, right) => {
            let next = references_in(scope, left, next)?;
            references_in(scope, right, next)
        }
    }
}

/// The number of references that stand before expressions and in them, where `next` of them stand before.
#[cycle(counting)]
pub fn references(scope: &Scope<'_>, trees: &[Expr], next: usize) -> Result<usize, NoMemory>
    ensures { IfOk result (λ k. k ≡ next + refs_in_all (scope_of scope.now) (trees_from trees.now)) }
{
    let mut next = next;
    'trees: for tree in trees {
        next = references_in(scope, tree, next)?;
    }
    Ok(next)
}
