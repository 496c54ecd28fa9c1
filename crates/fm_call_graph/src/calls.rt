//! The calls of a program.

ghost use Rattle.std.specs.Prelude.{◌≡◌, ◌++◌, map, slice_get, OnOk, IfOk};
ghost use Rattle.std.specs.List.{flat_map};
ghost use Rattle.std.specs.Option.{option_map};
ghost use Rattle.fm_rules.specs.Applied.{applied_names};
ghost use Rattle.fm_rules.specs.Calls.{all_calls, call_by, call_statement, call_to, called, calls_in, calls_of, counts_call, graph_of, is_subroutine, is_subroutine_scope, is_subroutine_unit, names_subroutine, process_call, process_called, referring, target_of};

use fm_base::{Line, Name, NoMemory, Seq};
use fm_finmap::NameMap;
use fm_rules::Call;
use fm_symbols::Context;
use fm_tree::{Entry, Simple, Stmt, Unit, UnitKind};
use fm_tree_walk::applied_names;
use std::alloc::Global;

#[tactic(auto, unfolding(fm_rules::specs::Calls::called))]
fn called(stmt: &Stmt) -> Option<&Name>
    ensures { option_map (λ n. n.now) result ≡ called stmt.now }
{
    match stmt {
        Stmt::Simple(Simple::Call(name, _)) => Some(name),
        _ => None,
    }
}

#[tactic(auto, unfolding(fm_rules::specs::Calls::process_called))]
fn process_called(stmt: &Stmt) -> Option<&Name>
    ensures { option_map (λ n. n.now) result ≡ process_called stmt.now }
{
    match stmt {
        Stmt::ProcessCall(name, _) => Some(name),
        _ => None,
    }
}

/// Adds a call of a unit.
fn add_call(number: Option<u32>, line: Line, calls: &mut Seq<Call>) -> Result<(), NoMemory>
    ensures { OnOk result (calls.new ≡ calls.old ++ call_to line number) }
{
    match number {
        None => Ok(()),
        Some(number) => calls.push(Call {
            target: number as usize,
            line,
        }),
    }
}

/// Adds the call of a unit by its name.
fn add_named(
    units: &NameMap<u32>,
    name: Option<&Name>,
    line: Line,
    calls: &mut Seq<Call>,
) -> Result<(), NoMemory>
    ensures { OnOk result (calls.new ≡ calls.old ++ call_by units.now line (option_map (λ n. n.now) name.entry)) }
{
    match name {
        None => Ok(()),
        Some(name) => add_call(units.get(name).copied(), line, calls),
    }
}

/// Adds the calls by references.
fn add_references(
    units: &NameMap<u32>,
    names: &[Name],
    places: &[u32],
    line: Line,
    calls: &mut Seq<Call>,
) -> Result<(), NoMemory>
    ensures { OnOk result (calls.new ≡ calls.old ++ referring units.now line names.now places.now) }
{
    'places: for place in places {
        add_named(units, names.get(*place as usize), line, calls)?;
    }
    Ok(())
}

fn is_subroutine(kind: UnitKind) -> bool
    ensures { result ≡ is_subroutine kind }
{
    match kind {
        UnitKind::Program => false,
        UnitKind::Process => false,
        UnitKind::Subroutine => true,
        UnitKind::Function => false,
    }
}

fn is_subroutine_scope(context: &Context, number: u32) -> bool
    ensures { result ≡ is_subroutine_scope (slice_get context.now.scopes number) }
{
    match context.scopes.as_slice().get(number as usize) {
        None => false,
        Some(scope) => is_subroutine(scope.kind),
    }
}

fn is_subroutine_unit(context: &Context, number: Option<u32>) -> bool
    ensures { result ≡ is_subroutine_unit context.now number }
{
    match number {
        None => false,
        Some(number) => is_subroutine_scope(context, number),
    }
}

fn names_subroutine(context: &Context, name: Option<&Name>) -> bool
    ensures { result ≡ names_subroutine context.now (option_map (λ n. n.now) name.entry) }
{
    match name {
        None => false,
        Some(name) => is_subroutine_unit(context, context.units.get(name).copied()),
    }
}

fn counts_call(processes: bool, context: &Context, name: Option<&Name>) -> bool
    ensures { result ≡ counts_call processes context.now (option_map (λ n. n.now) name.entry) }
{
    processes || names_subroutine(context, name)
}

/// Adds the call by CALL, where it counts.
fn add_call_statement(
    processes: bool,
    context: &Context,
    entry: &Entry,
    calls: &mut Seq<Call>,
) -> Result<(), NoMemory>
    ensures { OnOk result (calls.new ≡ calls.old ++ call_statement processes context.now entry.now) }
{
    let name = called(&entry.stmt);
    if counts_call(processes, context, name) {
        add_named(&context.units, name, entry.line, calls)?;
    }
    Ok(())
}

/// Adds the call by PROCESSCALL, where processes count.
fn add_process(
    processes: bool,
    units: &NameMap<u32>,
    entry: &Entry,
    calls: &mut Seq<Call>,
) -> Result<(), NoMemory>
    ensures { OnOk result (calls.new ≡ calls.old ++ process_call processes units.now entry.now) }
{
    if processes {
        add_named(units, process_called(&entry.stmt), entry.line, calls)?;
    }
    Ok(())
}

/// Adds the calls of an entry.
fn add_calls(
    alloc: Global,
    processes: bool,
    context: &Context,
    entry: &Entry,
    calls: &mut Seq<Call>,
) -> Result<(), NoMemory>
    ensures { OnOk result (calls.new ≡ calls.old ++ calls_in processes context.now entry.now) }
{
    let names = applied_names(alloc, &entry.stmt)?;
    add_call_statement(processes, context, entry, calls)?;
    add_process(processes, &context.units, entry, calls)?;
    add_references(
        &context.units,
        names.as_slice(),
        entry.refs.as_slice(),
        entry.line,
        calls,
    )
}

/// The calls of a unit.
fn calls_of(
    alloc: Global,
    processes: bool,
    context: &Context,
    unit: &Unit,
) -> Result<Seq<Call>, NoMemory>
    ensures { IfOk result (λ calls. calls ≡ calls_of processes context.now unit.now) }
{
    let mut calls = Seq::new(alloc);
    'entries: for entry in unit.body.as_slice() {
        add_calls(alloc, processes, context, entry, &mut calls)?;
    }
    Ok(calls)
}

/// For each unit its calls, with those by PROCESSCALL where processes count.
pub fn all_calls(
    alloc: Global,
    processes: bool,
    units: &[Unit],
    context: &Context,
) -> Result<Seq<Seq<Call>>, NoMemory>
    ensures { IfOk result (λ calls. calls ≡ all_calls processes units.now context.now) }
{
    let mut all = Seq::new(alloc);
    'units: for unit in units {
        all.push(calls_of(alloc, processes, context, unit)?)?;
    }
    Ok(all)
}

fn targets_of(alloc: Global, calls: &[Call]) -> Result<Seq<usize>, NoMemory>
    ensures { IfOk result (λ targets. targets ≡ map target_of calls.now) }
{
    let mut targets = Seq::new(alloc);
    'calls: for call in calls {
        targets.push(call.target)?;
    }
    Ok(targets)
}

/// For each unit the units that it calls.
pub fn graph_of(alloc: Global, calls: &[Seq<Call>]) -> Result<Seq<Seq<usize>>, NoMemory>
    ensures { IfOk result (λ graph. graph ≡ graph_of calls.now) }
{
    let mut graph = Seq::new(alloc);
    'units: for calls in calls {
        graph.push(targets_of(alloc, calls.as_slice())?)?;
    }
    Ok(graph)
}
