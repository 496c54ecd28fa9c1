//! The code of expressions.

ghost use Rattle.std.specs.Prelude.{◌≡◌, ◌+◌, ◌++◌, IfOk, OnOk};
ghost use Rattle.fm_tree.specs.Tree.{Ref, trees_from};
ghost use Rattle.fm_mean.specs.Evaluate.{refs_in, refs_in_all};
ghost use Rattle.fm_plain_frame.specs.Units.{unit_of};
ghost use Rattle.fm_gen_operands.specs.Code.{expression_code, expressions_code, sign_code};
ghost use Rattle.fm_mean.specs.Referring.{names_in};

use crate::counting::references;
use crate::elements::element;
use crate::reference::referent;
use crate::variables::{named, push};
use fm_base::{Name, NoMemory, Op, Seq};
use fm_code::{Eval, Instr};
use fm_plain_frame::{Reference, UnitView};
use fm_tree::{Expr, ExprNode};
use fm_values::truth_word;

/// A number as an operand.
pub fn operand(number: usize) -> Result<u32, NoMemory>
    ensures { IfOk result (λ n. n ≡ number) }
{
    match u32::try_from(number) {
        Ok(operand) => Ok(operand),
        Err(_) => Err(NoMemory),
    }
}

fn sign(op: Op, out: &mut Seq<Instr>) -> Result<(), NoMemory>
    ensures { OnOk result (out.new ≡ out.old ++ sign_code op) }
{
    match op {
        Op::Sub => out.push(Instr::Eval(Eval::Negate)),
        _ => Ok(()),
    }
}

/// Adds the code of an expression before which `next` references of its entry stand. The number of those that stand
/// before what comes behind it.
#[cycle(emitting)]
pub fn emit(
    unit: &UnitView<'_>,
    tree: &Expr,
    next: usize,
    out: &mut Seq<Instr>,
) -> Result<usize, NoMemory>
    ensures code { OnOk result
        (out.new ≡ out.old ++ expression_code unit.now.program.now (unit_of unit.now) tree.now next) }
    ensures next { IfOk result (λ k. k ≡ next + refs_in (names_in unit.now.program.now (unit_of unit.now)) tree.now) }
{
    match &tree.node {
        ExprNode::Number(number) => {
            out.push(push(*number))?;
            Ok(next)
        }
        ExprNode::Truth(truth) => {
            out.push(push(truth_word(*truth)))?;
            Ok(next)
        }
        ExprNode::Named(name) => {
            out.push(named(unit, name))?;
            Ok(next)
        }
        ExprNode::Ref(name, arguments) => emit_reference(unit, name, arguments, next, out),
        ExprNode::Paren(inner) => emit(unit, inner, next, out),
        ExprNode::Signed(op, inner) => {
            let next = emit(unit, inner, next, out)?;
            sign(*op, out)?;
            Ok(next)
        }
        ExprNode::Not(inner) => {
            let next = emit(unit, inner, next, out)?;
            out.push(Instr::Eval(Eval::Not))?;
            Ok(next)
        }
        ExprNode::Binary(op, left, right) => {
            let next = emit(unit, left, next, out)?;
            let next = emit(unit, right, next, out)?;
            out.push(Instr::Eval(Eval::Apply(*op)))?;
            Ok(next)
        }
    }
}

#[cycle(emitting)]
fn emit_reference(
    unit: &UnitView<'_>,
    name: &Name,
    arguments: &[Expr],
    next: usize,
    out: &mut Seq<Instr>,
) -> Result<usize, NoMemory>
    ensures code { OnOk result (out.new
        ≡ out.old
        ++ expression_code unit.now.program.now (unit_of unit.now) (Ref name.now (trees_from arguments.now)) next) }
    ensures next { IfOk result (λ k. k
        ≡ next + refs_in (names_in unit.now.program.now (unit_of unit.now)) (Ref name.now (trees_from arguments.now))) }
{
    match referent(unit, name) {
        Reference::Element(_, variable) => {
            let next = emit_all(unit, arguments, next, out)?;
            element(variable, arguments.len(), out)?;
            Ok(next)
        }
        Reference::Call(_, _) => {
            let number = references(unit, arguments, next)?;
            out.push(Instr::Eval(Eval::Result(operand(number)?)))?;
            number.checked_add(1).ok_or(NoMemory)
        }
        Reference::Built(intrinsic) => {
            let next = emit_all(unit, arguments, next, out)?;
            let count = operand(arguments.len())?;
            out.push(Instr::Eval(Eval::Intrinsic(intrinsic, count)))?;
            Ok(next)
        }
        Reference::Unknown => {
            let next = references(unit, arguments, next)?;
            out.push(push(0))?;
            Ok(next)
        }
    }
}

/// Adds the code of expressions from left to right.
#[cycle(emitting)]
pub fn emit_all(
    unit: &UnitView<'_>,
    trees: &[Expr],
    next: usize,
    out: &mut Seq<Instr>,
) -> Result<usize, NoMemory>
    ensures code { OnOk result
        (out.new ≡ out.old ++ expressions_code unit.now.program.now (unit_of unit.now) (trees_from trees.now) next) }
    ensures next { IfOk result
        (λ k. k ≡ next + refs_in_all (names_in unit.now.program.now (unit_of unit.now)) (trees_from trees.now)) }
{
    let mut next = next;
    'trees: for tree in trees {
        next = emit(unit, tree, next, out)?;
    }
    Ok(next)
}
