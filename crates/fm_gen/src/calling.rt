//! The code of calls, returns, and starts of processes.

ghost use Rattle.std.specs.Prelude.{◌≡◌, ◌++◌, OnOk};
ghost use Rattle.fm_tree.specs.Tree.{trees_from};
ghost use Rattle.fm_mean.specs.Actions.{arguments_in, trees_in, where_in};
ghost use Rattle.fm_mean.specs.Evaluate.{refs_in_all};
ghost use Rattle.fm_mean.specs.Names.{kind_of, unit_named};
ghost use Rattle.fm_mean.specs.Referring.{names_in};
ghost use Rattle.fm_gen_operands.specs.Places.{arguments_code, seat_code};
ghost use Rattle.fm_plain_frame.specs.Units.{unit_of};
ghost use Rattle.fm_gen.specs.Statements.{block_code, call_by, result_word, return_code, start_by, stuck};

use fm_base::{Name, NoMemory, Seq};
use fm_code::{End, Instr, Meet};
use fm_gen_operands::{arguments, seat};
use fm_plain_frame::{UnitView, arguments_of, unit_named};
use fm_tree::{CallPart, Expr, UnitKind};

/// Adds what finds nothing that could be stored.
pub(crate) fn push_stuck(out: &mut Seq<Instr>) -> Result<(), NoMemory>
    ensures { OnOk result (out.new ≡ out.old ++ stuck) }
{
    out.push(Instr::End(End::Store(0, 0)))
}

/// Adds the code of a CALL, behind which the statement at an address is next.
pub(crate) fn call(
    unit: &UnitView<'_>,
    name: &Name,
    listed: &Option<Seq<Expr>>,
    next: u32,
    out: &mut Seq<Instr>,
) -> Result<(), NoMemory>
    ensures { OnOk result (out.new
        ≡ out.old
        ++ call_by unit.now.program.now (unit_of unit.now) (unit_named unit.now.program.now name.now)
        (trees_in listed.now) next) }
{
    match unit_named(unit.program(), name) {
        None => push_stuck(out),
        Some((number, _)) => {
            arguments(unit, arguments_of(listed), 0, out)?;
            out.push(Instr::End(End::Call(number, next)))
        }
    }
}

/// The word of the result of a FUNCTION; the first one where there is none.
fn result_word(unit: &UnitView<'_>) -> u32
    ensures { result ≡ result_word (unit_of unit.now) }
{
    match unit.result_variable() {
        None => match unit.variables().get(0) {
            None => 0,
            Some(variable) => variable.first,
        },
        Some((_, variable)) => variable.first,
    }
}

/// Adds the code with which a unit ends.
pub(crate) fn end_unit(unit: &UnitView<'_>, out: &mut Seq<Instr>) -> Result<(), NoMemory>
    ensures { OnOk result (out.new ≡ out.old ++ return_code (unit_of unit.now) (kind_of (unit_of unit.now))) }
{
    match unit.kind() {
        UnitKind::Program => out.push(Instr::Meet(Meet::Stop)),
        UnitKind::Process => out.push(Instr::Meet(Meet::Stop)),
        UnitKind::Subroutine => out.push(Instr::End(End::Return)),
        UnitKind::Function => out.push(Instr::End(End::ReturnValue(result_word(unit)))),
    }
}

/// Adds the arguments of a process call, and where the process is put.
fn passed(
    unit: &UnitView<'_>,
    part: &Option<CallPart>,
    out: &mut Seq<Instr>,
) -> Result<(), NoMemory>
    ensures { OnOk result (out.new
        ≡ out.old
        ++ (arguments_code unit.now.program.now (unit_of unit.now) (trees_from (arguments_in part.now)) 0
        ++ seat_code unit.now.program.now (unit_of unit.now) (where_in part.now)
        (refs_in_all (names_in unit.now.program.now (unit_of unit.now)) (trees_from (arguments_in part.now))))) }
{
    match part {
        None => Ok(()),
        Some(part) => {
            let behind = arguments(unit, part.arguments.as_slice(), 0, out)?;
            seat(unit, &part.place, behind, out)
        }
    }
}

/// Adds the code of a process call, behind which the statement at an address is next.
pub(crate) fn start(
    unit: &UnitView<'_>,
    name: &Name,
    part: &Option<CallPart>,
    next: u32,
    out: &mut Seq<Instr>,
) -> Result<(), NoMemory>
    ensures { OnOk result (out.new
        ≡ out.old
        ++ start_by unit.now.program.now (unit_of unit.now) (unit_named unit.now.program.now name.now) part.now next) }
{
    match unit_named(unit.program(), name) {
        None => push_stuck(out),
        Some((number, _)) => {
            passed(unit, part, out)?;
            out.push(Instr::End(End::Start(number, next)))
        }
    }
}

/// Adds the code of the end of a block, which begins here: the begin of its processes, and their join.
pub(crate) fn block(here: u32, next: u32, out: &mut Seq<Instr>) -> Result<(), NoMemory>
    ensures { OnOk result (out.new ≡ out.old ++ block_code here next) }
{
    let join = here.checked_add(1).ok_or(NoMemory)?;
    out.push(Instr::Meet(Meet::Begin(join)))?;
    out.push(Instr::Meet(Meet::Join(next)))
}
