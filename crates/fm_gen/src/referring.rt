//! The code of an entry's references.

ghost use Rattle.std.specs.Prelude.{◌≡◌, ◌≤◌, ◌+◌, ◌-◌, ◌++◌, length, suc, IfOk, OnOk};
ghost use Rattle.std.specs.Option.{option_copied};
ghost use Rattle.fm_tree.specs.References.{reference_at};
ghost use Rattle.fm_plain_frame.specs.Units.{unit_of};
ghost use Rattle.fm_plain_frame.specs.References.{reference_by};
ghost use Rattle.fm_gen.specs.Statements.{refer, reference_end, reference_operands};
ghost use Rattle.fm_gen.specs.Entries.{reference_code, references_code};

use fm_base::{NoMemory, Seq};
use fm_code::{End, Instr};
use fm_gen_operands::{arguments, operand, references as count_references, referent};
use fm_plain_frame::{Reference, UnitView};
use fm_tree::{Expr, ExprNode, Stmt};
use fm_tree_reference::reference_at;

/// Adds what the reference with this number evaluates.
fn operands(
    unit: &UnitView<'_>,
    number: usize,
    tree: Option<&Expr>,
    out: &mut Seq<Instr>,
) -> Result<(), NoMemory>
    ensures { OnOk result (out.new
        ≡ out.old ++ reference_operands unit.now.program.now (unit_of unit.now) number (option_copied tree.entry)) }
{
    let Some(tree) = tree else {
        return Ok(());
    };
    match &tree.node {
        ExprNode::Number(_) => Ok(()),
        ExprNode::Truth(_) => Ok(()),
        ExprNode::Named(_) => Ok(()),
        ExprNode::Ref(_, passed) => {
            let own = count_references(unit, passed, 0)?;
            arguments(unit, passed, number.saturating_sub(own), out)?;
            Ok(())
        }
        ExprNode::Paren(_) => Ok(()),
        ExprNode::Signed(_, _) => Ok(()),
        ExprNode::Not(_) => Ok(()),
        ExprNode::Binary(_, _, _) => Ok(()),
    }
}

fn refer(reference: &Reference<'_>, next: u32) -> Instr
    ensures { result ≡ refer (reference_by reference.now) next }
{
    match reference {
        Reference::Element(_, _) => Instr::End(End::Store(0, 0)),
        Reference::Call(number, _) => Instr::End(End::Refer(*number, next)),
        Reference::Built(_) => Instr::End(End::Store(0, 0)),
        Reference::Unknown => Instr::End(End::Store(0, 0)),
    }
}

fn reference_end(unit: &UnitView<'_>, tree: Option<&Expr>, next: u32) -> Instr
    ensures { result ≡ reference_end unit.now.program.now (unit_of unit.now) (option_copied tree.entry) next }
{
    let Some(tree) = tree else {
        return Instr::End(End::Store(0, 0));
    };
    match &tree.node {
        ExprNode::Number(_) => Instr::End(End::Store(0, 0)),
        ExprNode::Truth(_) => Instr::End(End::Store(0, 0)),
        ExprNode::Named(_) => Instr::End(End::Store(0, 0)),
        ExprNode::Ref(name, _) => refer(&referent(unit, name), next),
        ExprNode::Paren(_) => Instr::End(End::Store(0, 0)),
        ExprNode::Signed(_, _) => Instr::End(End::Store(0, 0)),
        ExprNode::Not(_) => Instr::End(End::Store(0, 0)),
        ExprNode::Binary(_, _, _) => Instr::End(End::Store(0, 0)),
    }
}

/// The address behind an instruction that comes next, where the statement begins here and its code at this place.
fn behind(here: u32, begun: usize, out: &Seq<Instr>) -> Result<u32, NoMemory>
    requires { begun ≤ length out.now }
    ensures { IfOk result (λ k. k ≡ here + suc (length out.now - begun)) }
{
    let long = operand(out.len() - begun)?;
    let last = here.checked_add(long).ok_or(NoMemory)?;
    last.checked_add(1).ok_or(NoMemory)
}

/// Adds the code of the reference with this number, which stands at this place in its statement. Its own begins here.
/// The address of the statement behind it.
fn reference(
    unit: &UnitView<'_>,
    stmt: &Stmt,
    here: u32,
    number: usize,
    place: u32,
    out: &mut Seq<Instr>,
) -> Result<u32, NoMemory>
    ensures code { OnOk result
        (out.new ≡ out.old ++ reference_code unit.now.program.now (unit_of unit.now) stmt.now here number place) }
    ensures next { IfOk result
        (λ k. k ≡ here + length (reference_code unit.now.program.now (unit_of unit.now) stmt.now here number place)) }
{
    let begun = out.len();
    let tree = reference_at(stmt, place);
    operands(unit, number, tree, out)?;
    let next = behind(here, begun, out)?;
    out.push(reference_end(unit, tree, next))?;
    Ok(next)
}

/// Adds the code of the references at these places, where the first one's begins here. The address of the statement
/// behind them.
pub(crate) fn references(
    unit: &UnitView<'_>,
    stmt: &Stmt,
    here: u32,
    places: &[u32],
    out: &mut Seq<Instr>,
) -> Result<u32, NoMemory>
    ensures code { OnOk result
        (out.new ≡ out.old ++ references_code unit.now.program.now (unit_of unit.now) stmt.now here 0 places.now) }
    ensures next { IfOk result
        (λ k. k ≡ here + length (references_code unit.now.program.now (unit_of unit.now) stmt.now here 0 places.now)) }
{
    let mut here = here;
    let mut number = 0usize;
    'places: for place in places {
        here = reference(unit, stmt, here, number, *place, out)?;
        number = number.checked_add(1).ok_or(NoMemory)?;
    }
    Ok(here)
}
