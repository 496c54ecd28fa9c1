//! The code of places.

ghost use Rattle.std.specs.Prelude.{◌≡◌, ◌+◌, ◌++◌, ◌∷◌, ℕ, Some, option_to_list, IfOk, OnOk};
ghost use Rattle.fm_tree.specs.Tree.{trees_from};
ghost use Rattle.fm_mean.specs.Evaluate.{refs_in_all, refs_in_var};
ghost use Rattle.fm_plain_frame.specs.Units.{unit_of};
ghost use Rattle.fm_mean.specs.Referring.{names_in};
ghost use Rattle.fm_gen_relation.specs.Operands.{first_of};
ghost use Rattle.fm_gen_operands.specs.Code.{place_code};
ghost use Rattle.fm_gen_operands.specs.Places.{locate, located_code, place_by, var_code};

use crate::counting::references;
use crate::elements::{dimensions, has_elements, no_element};
use crate::expressions::emit_all;
use crate::variables::push;
use fm_base::{NoMemory, Seq};
use fm_code::{Eval, Instr};
use fm_plain_frame::UnitView;
use fm_symbols::Variable;
use fm_tree::{Expr, Var};

fn locate(first: u32) -> Instr
    ensures { result ≡ locate first }
{
    Instr::Eval(Eval::Locate(first))
}

/// The first word of the first variable.
fn first_word(variables: &[Variable]) -> u32
    ensures { result ≡ first_of variables.now 0 }
{
    match variables.get(0) {
        None => 0,
        Some(variable) => variable.first,
    }
}

/// Adds the number of an element's word behind its place, and what is done with it.
fn locate_and(first: u32, behind: Option<Instr>, out: &mut Seq<Instr>) -> Result<(), NoMemory>
    ensures { OnOk result (out.new ≡ out.old ++ locate first ∷ option_to_list behind) }
{
    out.push(locate(first))?;
    match behind {
        None => Ok(()),
        Some(instr) => out.push(instr),
    }
}

fn element_located(
    variable: &Variable,
    subscripts: usize,
    behind: Option<Instr>,
    out: &mut Seq<Instr>,
) -> Result<(), NoMemory>
    ensures { OnOk result
        (out.new ≡ out.old ++ place_code variable.now subscripts (locate variable.now.first ∷ option_to_list behind)) }
{
    if has_elements(variable, subscripts) {
        dimensions(variable.bounds.as_slice(), out)?;
        locate_and(variable.first, behind, out)
    } else {
        no_element(out)
    }
}

/// Adds the number of the word of the element that these subscripts lead to, and what is done with it.
pub(crate) fn located(
    unit: &UnitView<'_>,
    variable: &Variable,
    subscripts: &[Expr],
    next: usize,
    behind: Option<Instr>,
    out: &mut Seq<Instr>,
) -> Result<usize, NoMemory>
    ensures code { OnOk result (out.new
        ≡ out.old
        ++ located_code unit.now.program.now (unit_of unit.now) variable.now (trees_from subscripts.now) next
        (option_to_list behind)) }
    ensures next { IfOk result
        (λ k. k ≡ next + refs_in_all (names_in unit.now.program.now (unit_of unit.now)) (trees_from subscripts.now)) }
{
    let next = emit_all(unit, subscripts, next, out)?;
    element_located(variable, subscripts.len(), behind, out)?;
    Ok(next)
}

/// Adds the number of the first word of a variable or of an element.
fn variable_place(
    unit: &UnitView<'_>,
    variable: &Variable,
    subscripts: &[Expr],
    next: usize,
    out: &mut Seq<Instr>,
) -> Result<usize, NoMemory>
    ensures code { (place : ℕ)
        → OnOk result (out.new
        ≡ out.old
        ++ place_by unit.now.program.now (unit_of unit.now) (Some (place, variable.now)) (trees_from subscripts.now)
        next) }
    ensures next { IfOk result
        (λ k. k ≡ next + refs_in_all (names_in unit.now.program.now (unit_of unit.now)) (trees_from subscripts.now)) }
{
    match subscripts.split_first() {
        None => {
            out.push(push(i64::from(variable.first)))?;
            Ok(next)
        }
        Some(_) => located(unit, variable, subscripts, next, None, out),
    }
}

/// Adds the code of a place, before which `next` references of its entry stand: the number of its first word goes on
/// the stack. The number of references that stand before what comes behind it. Want of memory also where a number has
/// no room.
pub fn place(
    unit: &UnitView<'_>,
    var: &Var,
    next: usize,
    out: &mut Seq<Instr>,
) -> Result<usize, NoMemory>
    ensures code { OnOk result (out.new ≡ out.old ++ var_code unit.now.program.now (unit_of unit.now) var.now next) }
    ensures next { IfOk result
        (λ k. k ≡ next + refs_in_var (names_in unit.now.program.now (unit_of unit.now)) var.now) }
{
    let subscripts = var.subscripts.as_slice();
    match unit.variable(&var.name) {
        None => {
            out.push(push(i64::from(first_word(unit.variables()))))?;
            references(unit, subscripts, next)
        }
        Some((_, variable)) => variable_place(unit, variable, subscripts, next, out),
    }
}
