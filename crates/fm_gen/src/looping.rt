//! The code of tests and counted loops.

ghost use Rattle.std.specs.Prelude.{◌≡◌, ◌++◌, ◌∷◌, [], OnOk};
ghost use Rattle.std.specs.Option.{option_copied};
ghost use Rattle.fm_plain_frame.specs.Units.{unit_of};
ghost use Rattle.fm_code.specs.declared.instr.End.TheVariants as end;
ghost use Rattle.fm_code.specs.declared.instr.Instr.TheVariants as instr;
ghost use Rattle.fm_gen.specs.Statements.{bounds_code, do_code, first_in, loop_code, loop_word, step_code, test_code};

use crate::storing::variable_meant;
use fm_base::{Name, NoMemory, Seq};
use fm_code::{Build, End, Instr, Loop};
use fm_gen_operands::{emit, push};
use fm_plain_frame::UnitView;
use fm_tree::{Expr, LoopHead};

/// Adds the code of a test that leads to one address or another.
pub(crate) fn test(
    unit: &UnitView<'_>,
    tree: &Expr,
    holding: u32,
    failing: u32,
    out: &mut Seq<Instr>,
) -> Result<(), NoMemory>
    ensures { OnOk result
        (out.new ≡ out.old ++ test_code unit.now.program.now (unit_of unit.now) tree.now holding failing) }
{
    emit(unit, tree, 0, out)?;
    out.push(Instr::End(End::Test(holding, failing)))
}

fn step(
    unit: &UnitView<'_>,
    step: &Option<Expr>,
    next: usize,
    out: &mut Seq<Instr>,
) -> Result<(), NoMemory>
    ensures { OnOk result (out.new ≡ out.old ++ step_code unit.now.program.now (unit_of unit.now) step.now next) }
{
    match step {
        None => out.push(push(1)),
        Some(tree) => {
            emit(unit, tree, next, out)?;
            Ok(())
        }
    }
}

fn bounds(unit: &UnitView<'_>, head: &LoopHead, out: &mut Seq<Instr>) -> Result<(), NoMemory>
    ensures { OnOk result (out.new ≡ out.old ++ bounds_code unit.now.program.now (unit_of unit.now) head.now) }
{
    let next = emit(unit, &head.from, 0, out)?;
    let next = emit(unit, &head.to, next, out)?;
    step(unit, &head.step, next, out)
}

fn loop_word(unit: &UnitView<'_>, name: &Name) -> u32
    ensures { result ≡ loop_word (unit_of unit.now) name.now }
{
    match variable_meant(unit, name) {
        None => 0,
        Some(variable) => variable.first,
    }
}

fn loop_of(unit: &UnitView<'_>, number: u32, name: &Name) -> Instr
    ensures { result ≡ loop_code (unit_of unit.now) number name.now }
{
    Instr::Build(Build::Loop(Loop {
        number,
        word: loop_word(unit, name),
    }))
}

/// Adds the code with which a counted loop of this number begins.
pub(crate) fn begin(
    unit: &UnitView<'_>,
    head: &LoopHead,
    number: u32,
    body: u32,
    behind: u32,
    out: &mut Seq<Instr>,
) -> Result<(), NoMemory>
    ensures { OnOk result
        (out.new ≡ out.old ++ do_code unit.now.program.now (unit_of unit.now) head.now number body behind) }
{
    bounds(unit, head, out)?;
    out.push(loop_of(unit, number, &head.variable))?;
    out.push(Instr::End(End::Enter(body, behind)))
}

/// Adds the code with which a trip of a counted loop ends.
pub(crate) fn again(
    unit: &UnitView<'_>,
    name: &Name,
    number: u32,
    body: u32,
    behind: u32,
    out: &mut Seq<Instr>,
) -> Result<(), NoMemory>
    ensures { OnOk result
        (out.new ≡ out.old ++ loop_code (unit_of unit.now) number name.now ∷ instr.End (end.Again body behind) ∷ []) }
{
    out.push(loop_of(unit, number, name))?;
    out.push(Instr::End(End::Again(body, behind)))
}
