//! The pass over the heading and the declarations of a unit.
#![tactic(auto, using(crate::proofs::Noted::with_facts_append))]

ghost use Rattle.std.specs.Prelude.{◌≡◌, IfOk, OnOk, map, unwrap_or, [], ◌∷◌};
ghost use Rattle.std.specs.List.{flat_map};
ghost use Rattle.fm_base.specs.Verdict.{least_from};
ghost use Rattle.fm_rules.specs.declared.sheet.Aspect.TheVariants.{Formal, Own, Value};
ghost use Rattle.fm_rules.specs.Declarations.{bounds_facts, constant_fact, decl_facts, declared_twice_in, dimension_facts, fact, facts_in, is_processors, name_facts, repeated_processors, typed_facts};
ghost use Rattle.fm_names_declared.specs.Noted.{with_facts};

use crate::notes::{Notes, note};
use fm_base::{Line, Name, NoMemory, Refusal, Rule, Seq, keep_if};
use fm_finmap::NameMap;
use fm_rules::Aspect;
use fm_tree::{Bound, Decl, Defined, Placed, Stmt, Unit};
use std::alloc::Global;

fn note_names(
    alloc: Global,
    titles: &NameMap<bool>,
    heading: &Stmt,
    line: Line,
    what: Aspect,
    names: &[Name],
    notes: &mut Notes,
) -> Result<(), NoMemory>
    ensures { OnOk result (notes.new ≡ with_facts titles.now heading.now notes.old (name_facts line what names.now)) }
{
    'names: for name in names {
        note(alloc, titles, heading, line, what, name, notes)?;
    }
    Ok(())
}

fn note_bounds(
    alloc: Global,
    titles: &NameMap<bool>,
    heading: &Stmt,
    line: Line,
    name: &Name,
    bounds: &[Bound],
    notes: &mut Notes,
) -> Result<(), NoMemory>
    ensures { OnOk result
        (notes.new ≡ with_facts titles.now heading.now notes.old (bounds_facts line name.now bounds.now)) }
{
    if bounds.is_empty() {
        return Ok(());
    }
    note(alloc, titles, heading, line, Aspect::Bounds, name, notes)
}

fn note_typed(
    alloc: Global,
    titles: &NameMap<bool>,
    heading: &Stmt,
    line: Line,
    what: Aspect,
    decl: &Decl,
    notes: &mut Notes,
) -> Result<(), NoMemory>
    ensures { OnOk result (notes.new ≡ with_facts titles.now heading.now notes.old (typed_facts line what decl.now)) }
{
    note(alloc, titles, heading, line, what, &decl.name, notes)?;
    note_bounds(
        alloc,
        titles,
        heading,
        line,
        &decl.name,
        decl.bounds.as_slice(),
        notes,
    )
}

fn note_decls(
    alloc: Global,
    titles: &NameMap<bool>,
    heading: &Stmt,
    line: Line,
    what: Aspect,
    decls: &[Decl],
    notes: &mut Notes,
) -> Result<(), NoMemory>
    ensures { OnOk result (notes.new ≡ with_facts titles.now heading.now notes.old (decl_facts line what decls.now)) }
{
    'decls: for decl in decls {
        note_typed(alloc, titles, heading, line, what, decl, notes)?;
    }
    Ok(())
}

fn note_dimensions(
    alloc: Global,
    titles: &NameMap<bool>,
    heading: &Stmt,
    line: Line,
    decls: &[Decl],
    notes: &mut Notes,
) -> Result<(), NoMemory>
    ensures { OnOk result
        (notes.new ≡ with_facts titles.now heading.now notes.old (flat_map (dimension_facts line) decls.now)) }
{
    'decls: for decl in decls {
        let bounds = decl.bounds.as_slice();
        note_bounds(alloc, titles, heading, line, &decl.name, bounds, notes)?;
    }
    Ok(())
}

fn note_constants(
    alloc: Global,
    titles: &NameMap<bool>,
    heading: &Stmt,
    line: Line,
    constants: &[Defined],
    notes: &mut Notes,
) -> Result<(), NoMemory>
    ensures { OnOk result
        (notes.new ≡ with_facts titles.now heading.now notes.old (map (constant_fact line) constants.now)) }
{
    'constants: for constant in constants {
        let name = &constant.name;
        note(alloc, titles, heading, line, Aspect::Constant, name, notes)?;
    }
    Ok(())
}

fn listed(formals: &Option<Seq<Name>>) -> &[Name]
    ensures { result.now ≡ unwrap_or formals.now [] }
{
    match formals {
        Some(formals) => formals.as_slice(),
        None => &[],
    }
}

fn note_function(
    alloc: Global,
    titles: &NameMap<bool>,
    heading: &Stmt,
    line: Line,
    name: &Name,
    formals: &[Name],
    notes: &mut Notes,
) -> Result<(), NoMemory>
    ensures { OnOk result (notes.new
        ≡ with_facts titles.now heading.now notes.old (fact line Own name.now ∷ name_facts line Formal formals.now)) }
{
    note(alloc, titles, heading, line, Aspect::Own, name, notes)?;
    note_names(alloc, titles, heading, line, Aspect::Formal, formals, notes)
}

fn note_typed_function(
    alloc: Global,
    titles: &NameMap<bool>,
    heading: &Stmt,
    line: Line,
    name: &Name,
    formals: &[Name],
    notes: &mut Notes,
) -> Result<(), NoMemory>
    ensures { OnOk result (notes.new
        ≡ with_facts titles.now heading.now notes.old
        (fact line Own name.now ∷ fact line Value name.now ∷ name_facts line Formal formals.now)) }
{
    note(alloc, titles, heading, line, Aspect::Own, name, notes)?;
    note(alloc, titles, heading, line, Aspect::Value, name, notes)?;
    note_names(alloc, titles, heading, line, Aspect::Formal, formals, notes)
}

#[tactic(auto, unfolding(fm_rules::specs::Declarations::facts_by))]
fn note_statement(
    alloc: Global,
    titles: &NameMap<bool>,
    heading: &Stmt,
    placed: &Placed,
    notes: &mut Notes,
) -> Result<(), NoMemory>
    ensures { OnOk result (notes.new ≡ with_facts titles.now heading.now notes.old (facts_in placed.now)) }
{
    let line = placed.line;
    match &placed.stmt {
        Stmt::Process(_, formals) | Stmt::Subroutine(_, formals) => {
            let formals = listed(formals);
            note_names(alloc, titles, heading, line, Aspect::Formal, formals, notes)
        }
        Stmt::Function(name, formals) => {
            note_function(
                alloc,
                titles,
                heading,
                line,
                name,
                formals.as_slice(),
                notes,
            )
        }
        Stmt::IntegerFunction(name, formals) | Stmt::LogicalFunction(name, formals) => {
            note_typed_function(
                alloc,
                titles,
                heading,
                line,
                name,
                formals.as_slice(),
                notes,
            )
        }
        Stmt::Integer(decls) | Stmt::Logical(decls) => {
            let decls = decls.as_slice();
            note_decls(alloc, titles, heading, line, Aspect::Value, decls, notes)
        }
        Stmt::Inport(_, decls) | Stmt::Outport(_, decls) => {
            let decls = decls.as_slice();
            note_decls(alloc, titles, heading, line, Aspect::Port, decls, notes)
        }
        Stmt::Dimension(decls) => {
            note_dimensions(alloc, titles, heading, line, decls.as_slice(), notes)
        }
        Stmt::Parameter(constants) => {
            note_constants(alloc, titles, heading, line, constants.as_slice(), notes)
        }
        Stmt::Intent(_, names) => {
            let names = names.as_slice();
            note_names(alloc, titles, heading, line, Aspect::Intent, names, notes)
        }
        _ => Ok(()),
    }
}

#[tactic(auto, unfolding(fm_rules::specs::Declarations::is_processors))]
fn is_processors(stmt: &Stmt) -> bool
    ensures { result ≡ is_processors stmt.now }
{
    match stmt {
        Stmt::Processors(_) => true,
        _ => false,
    }
}

fn judge_processors(specs: &[Placed], best: Option<Refusal>) -> Option<Refusal>
    ensures { result ≡ least_from best (repeated_processors specs.now) }
{
    let mut best = best;
    let mut seen = false;
    'specs: for placed in specs {
        let is_processors = is_processors(&placed.stmt);
        best = keep_if(best, seen && is_processors, placed.line, Rule::E30);
        seen = seen || is_processors;
    }
    best
}

fn note_specs(
    alloc: Global,
    titles: &NameMap<bool>,
    heading: &Stmt,
    specs: &[Placed],
    notes: &mut Notes,
) -> Result<(), NoMemory>
    ensures { OnOk result (notes.new ≡ with_facts titles.now heading.now notes.old (flat_map facts_in specs.now)) }
{
    'specs: for placed in specs {
        note_statement(alloc, titles, heading, placed, notes)?;
    }
    Ok(())
}

/// The least of the best so far and of the places where a unit declares something twice. The titles say of the names of
/// the program's units whether they are FUNCTIONs'.
pub fn judge_declarations(
    alloc: Global,
    titles: &NameMap<bool>,
    unit: &Unit,
    best: Option<Refusal>,
) -> Result<Option<Refusal>, NoMemory>
    ensures { IfOk result (λ least. least ≡ least_from best (declared_twice_in titles.now unit.now)) }
{
    let heading = &unit.heading;
    let specs = unit.specs.as_slice();
    let mut notes = Notes {
        said: NameMap::new(alloc),
        best,
    };
    note_statement(alloc, titles, &heading.stmt, heading, &mut notes)?;
    note_specs(alloc, titles, &heading.stmt, specs, &mut notes)?;
    Ok(judge_processors(specs, notes.best))
}
