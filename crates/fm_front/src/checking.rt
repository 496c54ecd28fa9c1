//! The program of statements, or the least rule that they break.

ghost use Rattle.std.specs.Prelude.{◌≡◌, IfOk, IfErr};
ghost use Rattle.fm_base.specs.Verdict.{IsClean, IsRefusal, IsVerdict};
ghost use Rattle.fm_symbols.specs.Context.{context_of};
ghost use Rattle.fm_rules.specs.Names.{names_of};
ghost use Rattle.fm_rules.specs.Broken.{IsBrokenStatement, IsBrokenType, IsBrokenUnit, IsBrokenUse};
ghost use Rattle.fm_rules.specs.Program.{AreShaped, IsChecked, IsNamed, IsStructured};

use fm_base::{CheckFail, NoMemory, Refusal, first_verdict};
use fm_det::{race, recursion};
use fm_names::names;
use fm_ports::ports;
use fm_rules::Program;
use fm_symbols::{Context, Names, make_context};
use fm_tree::{Placed, Units};
use fm_types::types;
use fm_unit::{all_links, units};
use std::alloc::Global;

/// The least rule that is broken by types and calls.
fn type_verdict(
    alloc: Global,
    units: &Units,
    names: &Names,
    context: &Context,
) -> Result<Option<Refusal>, NoMemory>
    ensures { IfOk result (IsVerdict (IsBrokenType units.now.units names.now.units context.now)) }
{
    let wrong = types(units, names, context);
    let back = recursion(alloc, units, context)?;
    Ok(first_verdict(wrong, back))
}

/// The least rule that is broken by how names are used: first of types and calls, then of ports.
fn use_verdict(
    alloc: Global,
    units: &Units,
    names: &Names,
    context: &Context,
) -> Result<Option<Refusal>, NoMemory>
    ensures { IfOk result (IsVerdict (IsBrokenUse units.now.units names.now.units context.now)) }
{
    let wrong = type_verdict(alloc, units, names, context)?;
    if let Some(refusal) = wrong {
        return Ok(Some(refusal));
    }
    Ok(ports(units, names, context))
}

/// The program of units and names whose use breaks no rule.
fn check_use(alloc: Global, units: Units, names: Names) -> Result<Program, CheckFail>
    requires { IsNamed units names }
    ensures units { IfOk result (λ p. p.units ≡ units) }
    ensures names { IfOk result (λ p. p.names ≡ names) }
    ensures clean { IfOk result
        (λ _. IsClean (IsBrokenUse units.units names.units (context_of units.units names.units))) }
    ensures refused { IfErr result
        (IsRefusal (IsBrokenUse units.units names.units (context_of units.units names.units))) }
{
    let context = make_context(alloc, &units, &names)?;
    let wrong = use_verdict(alloc, &units, &names, &context)?;
    if let Some(refusal) = wrong {
        return Err(CheckFail::Refused(refusal));
    }
    let race = race(alloc, &units, &context)?;
    let links = all_links(alloc, units.units.as_slice())?;
    let program = Program::new(units, names, context, links, race)?;
    Ok(program)
}

/// The program of units whose names, and whose use of them, break no rule.
fn check_names(alloc: Global, units: Units) -> Result<Program, CheckFail>
    requires { IsStructured units }
    ensures units { IfOk result (λ p. p.units ≡ units) }
    ensures names { IfOk result (λ p. p.names.units ≡ names_of units.units) }
    ensures clean { IfOk result (λ _. IsClean (IsBrokenUnit units.units)) }
    ensures refused { IfErr result (IsRefusal (IsBrokenUnit units.units)) }
{
    let names = match names(alloc, &units) {
        Ok(names) => names,
        Err(fail) => return Err(fail),
    };
    check_use(alloc, units, names)
}

/// The program of the statements of a source, or the least rule that they break: of structure, then of names, of types
/// and calls, and of ports. A later phase is asked only where no earlier one is broken.
pub(crate) fn check(alloc: Global, statements: Vec<Placed>) -> Result<Program, CheckFail>
    requires { AreShaped statements.items }
    ensures program { IfOk result (λ p. IsChecked statements.items p.units p.names) }
    ensures refused { IfErr result (IsRefusal (IsBrokenStatement statements.items)) }
{
    let units = match units(alloc, statements) {
        Ok(units) => units,
        Err(fail) => return Err(fail),
    };
    check_names(alloc, units)
}
