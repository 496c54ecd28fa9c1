//! The code of assignments.

ghost use Rattle.std.specs.Prelude.{◌≡◌, ◌≢◌, ◌++◌, ◌∷◌, [], length, ℕ, Some, OnOk};
ghost use Rattle.std.specs.Option.{option_copied};
ghost use Rattle.fm_tree.specs.Tree.{trees_from};
ghost use Rattle.fm_mean.specs.Names.{variable_of};
ghost use Rattle.fm_plain_frame.specs.Units.{unit_of, variable_read};
ghost use Rattle.fm_gen_operands.specs.Code.{expression_code, place_code};
ghost use Rattle.fm_gen.specs.Statements.{assigned_code, assignment_code, element_store, first_store, holds_word, locate_code, variable_meant};
ghost use Rattle.fm_gen_relation.specs.Sound.{is_word};

use crate::addresses::goto;
use fm_base::{Name, NoMemory, Seq};
use fm_code::{End, Eval, Instr};
use fm_gen_operands::{dimensions, emit, emit_all, has_elements, no_element, references};
use fm_plain_frame::UnitView;
use fm_symbols::Variable;
use fm_tree::{Expr, Kind, Var};

/// Whether variables of this kind hold words, and not ports.
pub fn is_word(kind: &Kind) -> bool
    ensures { result ≡ is_word kind.now }
{
    match kind {
        Kind::Integer => true,
        Kind::Logical => true,
        Kind::In(_) => false,
        Kind::Out(_) => false,
    }
}

/// Whether a variable has a word.
pub(crate) fn holds_word(variable: &Variable) -> bool
    ensures { result ≡ holds_word variable.now }
{
    is_word(&variable.kind) && variable.words > 0
}

/// The variable that a name stands for; the first one where it names none.
pub(crate) fn variable_meant<'p>(unit: &UnitView<'p>, name: &Name) -> Option<&'p Variable>
    ensures { option_copied result ≡ variable_meant (unit_of unit.now) (variable_of (unit_of unit.now) name.now) }
{
    match unit.variable(name) {
        None => unit.variables().get(0),
        Some((_, variable)) => Some(variable),
    }
}

fn first_store(variable: Option<&Variable>, next: u32) -> Instr
    ensures { result ≡ first_store (option_copied variable.entry) next }
{
    match variable {
        None => goto(next),
        Some(variable) => {
            if holds_word(variable) {
                Instr::End(End::Store(variable.first, next))
            } else {
                goto(next)
            }
        }
    }
}

fn element_store(kind: &Kind, next: u32) -> Instr
    ensures { result ≡ element_store kind.now next }
{
    match kind {
        Kind::Integer => Instr::End(End::StoreAt(next)),
        Kind::Logical => Instr::End(End::StoreAt(next)),
        Kind::In(_) => goto(next),
        Kind::Out(_) => goto(next),
    }
}

/// Adds what makes the place of an element of its subscripts.
fn located(variable: &Variable, subscripts: usize, out: &mut Seq<Instr>) -> Result<(), NoMemory>
    ensures { OnOk result
        (out.new ≡ out.old ++ place_code variable.now subscripts (locate_code variable.now.kind variable.now.first)) }
{
    if has_elements(variable, subscripts) {
        dimensions(variable.bounds.as_slice(), out)?;
        locate(&variable.kind, variable.first, out)
    } else {
        no_element(out)
    }
}

fn locate(kind: &Kind, first: u32, out: &mut Seq<Instr>) -> Result<(), NoMemory>
    ensures { OnOk result (out.new ≡ out.old ++ locate_code kind.now first) }
{
    match kind {
        Kind::Integer => out.push(Instr::Eval(Eval::Locate(first))),
        Kind::Logical => out.push(Instr::Eval(Eval::Locate(first))),
        Kind::In(_) => Ok(()),
        Kind::Out(_) => Ok(()),
    }
}

/// The value that is assigned, behind so many references.
#[derive(Clone, Copy)]
struct Assigned<'a> {
    value: &'a Expr,
    references: usize,
    next: u32,
}

fn first_assigned(
    unit: &UnitView<'_>,
    variable: Option<&Variable>,
    assigned: Assigned<'_>,
    out: &mut Seq<Instr>,
) -> Result<(), NoMemory>
    ensures { OnOk result (out.new
        ≡ out.old
        ++ (expression_code unit.now.program.now (unit_of unit.now) assigned.entry.value.now assigned.entry.references
        ++ first_store (option_copied variable.entry) assigned.entry.next ∷ [])) }
{
    emit(unit, assigned.value, assigned.references, out)?;
    out.push(first_store(variable, assigned.next))
}

fn element_assigned(
    unit: &UnitView<'_>,
    variable: &Variable,
    subscripts: &[Expr],
    assigned: Assigned<'_>,
    out: &mut Seq<Instr>,
) -> Result<(), NoMemory>
    requires { length subscripts.now ≢ 0 }
    ensures { (place : ℕ)
        → OnOk result (out.new
        ≡ out.old
        ++ assigned_code unit.now.program.now (unit_of unit.now) (Some (place, variable.now))
        (trees_from subscripts.now)
        (expression_code unit.now.program.now (unit_of unit.now) assigned.entry.value.now assigned.entry.references)
        assigned.entry.next) }
{
    emit_all(unit, subscripts, 0, out)?;
    located(variable, subscripts.len(), out)?;
    emit(unit, assigned.value, assigned.references, out)?;
    out.push(element_store(&variable.kind, assigned.next))?;
    Ok(())
}

/// Adds the code of an assignment, behind which the statement at an address is next.
pub(crate) fn assignment(
    unit: &UnitView<'_>,
    var: &Var,
    value: &Expr,
    next: u32,
    out: &mut Seq<Instr>,
) -> Result<(), NoMemory>
    ensures { OnOk result
        (out.new ≡ out.old ++ assignment_code unit.now.program.now (unit_of unit.now) var.now value.now next) }
{
    let subscripts = var.subscripts.as_slice();
    let references = references(unit, subscripts, 0)?;
    let assigned = Assigned {
        value,
        references,
        next,
    };
    match unit.variable(&var.name) {
        None => first_assigned(unit, unit.variables().get(0), assigned, out),
        Some((_, variable)) => {
            if subscripts.is_empty() {
                first_assigned(unit, Some(variable), assigned, out)
            } else {
                element_assigned(unit, variable, subscripts, assigned, out)
            }
        }
    }
}
