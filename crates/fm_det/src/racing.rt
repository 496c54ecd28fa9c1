//! Races.

ghost use Rattle.std.specs.Prelude.{◌≡◌, None, slice_get, IfOk};
ghost use Rattle.fm_rules.specs.Race.{are_several, is_array_symbol, is_racy, is_whole_array, names_array, IsRaceVerdict};
ghost use Rattle.fm_call_graph.specs.Least.{lower_if};
ghost use Rattle.fm_det.specs.Search.{racy_from, racy_in, racy_in_unit};

use fm_base::{Line, Name, NoMemory};
use fm_call_graph::{all_calls, flag_at, graph_of, lower_if};
use fm_graph::reached;
use fm_rules::main_of;
use fm_symbols::{Context, Symbol};
use fm_tree::{Entry, Simple, Stmt, Unit, Units, Var};
use std::alloc::Global;

/// Whether a name means an array, of values or of ports.
fn is_array_symbol(symbol: Option<Symbol>) -> bool
    ensures { result ≡ is_array_symbol symbol }
{
    match symbol {
        None => false,
        Some(Symbol::Constant(_)) => false,
        Some(Symbol::Variable(_, _)) => false,
        Some(Symbol::Array(_, _, _)) => true,
        Some(Symbol::Port(_, _)) => false,
        Some(Symbol::Ports(_, _, _)) => true,
        Some(Symbol::Function(_)) => false,
    }
}

/// Whether a name is that of an array in the unit of this number.
fn names_array(context: &Context, unit: usize, name: &Name) -> bool
    ensures { result ≡ names_array (slice_get context.now.scopes unit) name.now }
{
    match context.scopes.as_slice().get(unit) {
        None => false,
        Some(scope) => is_array_symbol(scope.symbols.get(name).copied()),
    }
}

fn is_whole_array(context: &Context, unit: usize, variable: &Var) -> bool
    ensures { result ≡ is_whole_array (slice_get context.now.scopes unit) variable.now }
{
    variable.subscripts.as_slice().is_empty() && names_array(context, unit, &variable.name)
}

/// Whether the outports of a MERGER may be several: two or more stand there, or a whole array.
fn are_several(context: &Context, unit: usize, outports: &[Var]) -> bool
    ensures { result ≡ are_several (slice_get context.now.scopes unit) outports.now }
{
    match outports {
        [] => false,
        [outport] => is_whole_array(context, unit, outport),
        [_, _, ..] => true,
    }
}

/// Whether a statement of the unit of this number is a PROBE, or a MERGER that may have several writers.
#[tactic(auto, unfolding(fm_rules::specs::Race::is_racy))]
fn is_racy(context: &Context, unit: usize, stmt: &Stmt) -> bool
    ensures { result ≡ is_racy (slice_get context.now.scopes unit) stmt.now }
{
    match stmt {
        Stmt::Simple(Simple::Merger(_, outports)) => {
            are_several(context, unit, outports.as_slice())
        }
        Stmt::Simple(Simple::Probe { .. }) => true,
        _ => false,
    }
}

fn racy_in(context: &Context, unit: usize, best: Option<Line>, entries: &[Entry]) -> Option<Line>
    ensures { result ≡ racy_in (slice_get context.now.scopes unit) best entries.now }
{
    let mut best = best;
    'entries: for entry in entries {
        best = lower_if(is_racy(context, unit, &entry.stmt), best, entry.line);
    }
    best
}

fn racy_in_unit(
    context: &Context,
    number: usize,
    flag: bool,
    best: Option<Line>,
    unit: &Unit,
) -> Option<Line>
    ensures { result ≡ racy_in_unit (slice_get context.now.scopes number) flag best unit.now }
{
    if flag {
        racy_in(context, number, best, unit.body.as_slice())
    } else {
        best
    }
}

fn racy_from(context: &Context, flags: &[bool], units: &[Unit]) -> Option<Line>
    ensures { result ≡ racy_from context.now.scopes flags.now 0 None units.now }
{
    let mut best = None;
    'units: for unit in 0..units.len() {
        best = racy_in_unit(context, unit, flag_at(flags, unit), best, &units[unit]);
    }
    best
}

/// The least line of a PROBE, or of a MERGER with more than one `OUT=` or a whole array as its one, in a unit that the
/// PROGRAM reaches, by CALL, references of functions and PROCESSCALL. None where there is none: then the program is
/// deterministic.
pub fn race(alloc: Global, units: &Units, context: &Context) -> Result<Option<Line>, NoMemory>
    ensures { IfOk result (IsRaceVerdict units.now.units context.now) }
{
    let units = units.units.as_slice();
    let main = match main_of(units) {
        Some(main) => main,
        None => return Ok(None),
    };
    let calls = all_calls(alloc, true, units, context)?;
    let graph = graph_of(alloc, calls.as_slice())?;
    let flags = reached(alloc, graph.as_slice(), main)?;
    Ok(racy_from(context, &flags, units))
}
