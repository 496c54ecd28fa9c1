//! Names with lists behind them: what they mean, and the arguments in these lists.

ghost use Rattle.std.specs.Prelude.{◌≡◌, ◌+◌, IfOk};
ghost use Rattle.fm_tree.specs.Tree.{trees_from};
ghost use Rattle.fm_mean.specs.Actions.{arguments_in, trees_in};
ghost use Rattle.fm_mean.specs.Evaluate.{counts_one};
ghost use Rattle.fm_plain_frame.specs.References.{reference_by};

use crate::unit_view::UnitView;
use fm_base::{NoMemory, Seq};
use fm_symbols::Variable;
use fm_tree::{CallPart, Expr};
use fm_values::Intrinsic;

/// What a name with a list behind it means. Contracts see it as the meaning's (`reference_by`).
#[derive(Clone, Copy)]
pub enum Reference<'p> {
    /// An element of the array at this place among the variables.
    Element(u32, &'p Variable),
    /// A FUNCTION, with its number.
    Call(u32, UnitView<'p>),
    /// An intrinsic function.
    Built(Intrinsic),
    /// Nothing.
    Unknown,
}

/// The number behind one more reference, if this is one.
pub fn number_after(reference: &Reference<'_>, next: usize) -> Result<usize, NoMemory>
    ensures { IfOk result (λ k. k ≡ next + counts_one (reference_by reference.now)) }
{
    match reference {
        Reference::Element(_, _) => Ok(next),
        Reference::Call(_, _) => next.checked_add(1).ok_or(NoMemory),
        Reference::Built(_) => Ok(next),
        Reference::Unknown => Ok(next),
    }
}

/// The arguments of a CALL.
pub fn arguments_of(arguments: &Option<Seq<Expr>>) -> &[Expr]
    ensures { trees_from result.now ≡ trees_in arguments.now }
{
    match arguments {
        None => &[],
        Some(arguments) => arguments.as_slice(),
    }
}

/// The arguments of a process call.
pub fn arguments_in(part: &Option<CallPart>) -> &[Expr]
    ensures { result.now ≡ arguments_in part.now }
{
    match part {
        None => &[],
        Some(part) => part.arguments.as_slice(),
    }
}
