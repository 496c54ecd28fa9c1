//! What the statements of a unit say of its names.
#![tactic(auto, using(fm_symbols::proofs::Maps::with_all_append, crate::proofs::KeptMaps::with_values_append))]

ghost use Rattle.std.specs.Prelude.{◌≡◌, ◌+◌, ◌++◌, Some, IfOk, OnOk, map};
ghost use Rattle.std.specs.List.{flat_map};
ghost use Rattle.std.specs.Option.{option_map};
ghost use Rattle.fm_symbols.specs.ByName.{first_of_each, with_all};
ghost use Rattle.fm_rules.specs.ConstantParts.{decls_of};
ghost use Rattle.fm_rules.specs.Sheets.{array_shape, decl_shapes, formals_of, inputs_of, intents_at, intents_in, is_in, kind_entries, kind_in, kinds_at, kinds_from, numbered, own_kind, shape_entries, shapes_from};
ghost use Rattle.fm_names_constants.specs.Kept.{kept_field_kind};
ghost use Rattle.fm_names.specs.KeptSheets.{kept_array, kept_sheet, with_values};

use fm_base::{Name, NoMemory, Seq};
use fm_finmap::NameMap;
use fm_names_constants::{bounds_of, constants, decls_of, elements, normal_port_type, types_of};
use fm_names_used::first_occurrences;
use fm_rules::{ArrayShape, Known, Sheet};
use fm_symbols::{heading_formals, insert_new};
use fm_tree::{Bound, Decl, Kind, Placed, Stmt, Unit, Way};
use std::alloc::Global;

#[tactic(auto, unfolding(fm_rules::specs::Sheets::kind_in))]
fn kind_in(
    alloc: Global,
    known: &NameMap<Known>,
    at: usize,
    stmt: &Stmt,
) -> Result<Option<Kind>, NoMemory>
    ensures { IfOk result (λ k. k ≡ option_map kept_field_kind (kind_in known.now at stmt.now)) }
{
    match stmt {
        Stmt::Integer(_) => Ok(Some(Kind::Integer)),
        Stmt::Logical(_) => Ok(Some(Kind::Logical)),
        Stmt::Inport(port_type, _) => {
            let normal = normal_port_type(alloc, known, at, port_type)?;
            Ok(Some(Kind::In(normal)))
        }
        Stmt::Outport(port_type, _) => {
            let normal = normal_port_type(alloc, known, at, port_type)?;
            Ok(Some(Kind::Out(normal)))
        }
        _ => Ok(None),
    }
}

fn add_kinds(
    alloc: Global,
    kind: &Kind,
    decls: &[Decl],
    kinds: &mut NameMap<Kind>,
) -> Result<(), NoMemory>
    ensures { OnOk result (kinds.new ≡ with_all kinds.old (kind_entries (Some kind.now) decls.now)) }
{
    'decls: for decl in decls {
        insert_new(alloc, kinds, &decl.name, kind.share()?)?;
    }
    Ok(())
}

#[tactic(auto, using(crate::proofs::KeptSheets::kinds_with_values))]
fn add_kinds_at(
    alloc: Global,
    known: &NameMap<Known>,
    at: usize,
    placed: &Placed,
    kinds: &mut NameMap<Kind>,
) -> Result<(), NoMemory>
    ensures { OnOk result
        (kinds.new ≡ with_all kinds.old (with_values kept_field_kind (kinds_at known.now at placed.now))) }
{
    match kind_in(alloc, known, at, &placed.stmt)? {
        Some(kind) => add_kinds(alloc, &kind, decls_of(&placed.stmt), kinds),
        None => Ok(()),
    }
}

fn add_all_kinds(
    alloc: Global,
    known: &NameMap<Known>,
    specs: &[Placed],
    kinds: &mut NameMap<Kind>,
) -> Result<(), NoMemory>
    ensures { OnOk result
        (kinds.new ≡ with_all kinds.old (with_values kept_field_kind (kinds_from known.now 0 specs.now))) }
{
    'specs: for at in 0..specs.len() {
        add_kinds_at(alloc, known, at, &specs[at], kinds)?;
    }
    Ok(())
}

#[tactic(auto, unfolding(fm_rules::specs::Sheets::own_kind))]
fn add_own_kind(alloc: Global, heading: &Stmt, kinds: &mut NameMap<Kind>) -> Result<(), NoMemory>
    ensures { OnOk result (kinds.new ≡ with_all kinds.old (own_kind heading.now)) }
{
    match heading {
        Stmt::IntegerFunction(name, _) => insert_new(alloc, kinds, name, Kind::Integer),
        Stmt::LogicalFunction(name, _) => insert_new(alloc, kinds, name, Kind::Logical),
        _ => Ok(()),
    }
}

#[tactic(auto, using(fm_symbols::proofs::Maps::with_all_append, crate::proofs::KeptMaps::with_values_append, crate::proofs::KeptSheets::own_kept))]
fn kinds(alloc: Global, known: &NameMap<Known>, unit: &Unit) -> Result<NameMap<Kind>, NoMemory>
    ensures { IfOk result (λ m. m
        ≡ first_of_each
        (with_values kept_field_kind (own_kind unit.now.heading.stmt ++ kinds_from known.now 0 unit.now.specs))) }
{
    let mut kinds = NameMap::new(alloc);
    add_own_kind(alloc, &unit.heading.stmt, &mut kinds)?;
    add_all_kinds(alloc, known, unit.specs.as_slice(), &mut kinds)?;
    Ok(kinds)
}

fn array_shape(
    alloc: Global,
    known: &NameMap<Known>,
    at: usize,
    bounds: &[Bound],
) -> Result<ArrayShape, NoMemory>
    ensures { IfOk result (λ a. a ≡ kept_array (array_shape known.now at bounds.now)) }
{
    let words = elements(known, at, bounds);
    match bounds_of(alloc, known, at, bounds)? {
        Some(bounds) => Ok(ArrayShape { bounds, words }),
        None => Ok(ArrayShape {
            bounds: Seq::new(alloc),
            words,
        }),
    }
}

fn add_shape(
    alloc: Global,
    known: &NameMap<Known>,
    at: usize,
    name: &Name,
    bounds: &[Bound],
    arrays: &mut NameMap<ArrayShape>,
) -> Result<(), NoMemory>
    ensures { OnOk result
        (arrays.new ≡ with_all arrays.old (with_values kept_array (shape_entries known.now at name.now bounds.now))) }
{
    if bounds.is_empty() {
        return Ok(());
    }
    let shape = array_shape(alloc, known, at, bounds)?;
    insert_new(alloc, arrays, name, shape)
}

fn add_shapes(
    alloc: Global,
    known: &NameMap<Known>,
    at: usize,
    decls: &[Decl],
    arrays: &mut NameMap<ArrayShape>,
) -> Result<(), NoMemory>
    ensures { OnOk result
        (arrays.new ≡ with_all arrays.old (with_values kept_array (flat_map (decl_shapes known.now at) decls.now))) }
{
    'decls: for decl in decls {
        let bounds = decl.bounds.as_slice();
        add_shape(alloc, known, at, &decl.name, bounds, arrays)?;
    }
    Ok(())
}

fn arrays(
    alloc: Global,
    known: &NameMap<Known>,
    specs: &[Placed],
) -> Result<NameMap<ArrayShape>, NoMemory>
    ensures { IfOk result (λ m. m ≡ first_of_each (with_values kept_array (shapes_from known.now 0 specs.now))) }
{
    let mut arrays = NameMap::new(alloc);
    'specs: for at in 0..specs.len() {
        add_shapes(alloc, known, at, decls_of(&specs[at].stmt), &mut arrays)?;
    }
    Ok(arrays)
}

fn is_in(way: Way) -> bool
    ensures { result ≡ is_in way }
{
    match way {
        Way::In => true,
        Way::Out => false,
        Way::InOut => false,
    }
}

fn add_inputs(
    alloc: Global,
    way: Way,
    names: &[Name],
    inputs: &mut NameMap<bool>,
) -> Result<(), NoMemory>
    ensures { OnOk result (inputs.new ≡ with_all inputs.old (map (λ name. (name, is_in way)) names.now)) }
{
    'names: for name in names {
        insert_new(alloc, inputs, name, is_in(way))?;
    }
    Ok(())
}

#[tactic(auto, unfolding(fm_rules::specs::Sheets::intents_in))]
fn add_intents(alloc: Global, stmt: &Stmt, inputs: &mut NameMap<bool>) -> Result<(), NoMemory>
    ensures { OnOk result (inputs.new ≡ with_all inputs.old (intents_in stmt.now)) }
{
    match stmt {
        Stmt::Intent(way, names) => add_inputs(alloc, *way, names.as_slice(), inputs),
        _ => Ok(()),
    }
}

fn inputs(alloc: Global, specs: &[Placed]) -> Result<NameMap<bool>, NoMemory>
    ensures { IfOk result (λ m. m ≡ inputs_of specs.now) }
{
    let mut inputs = NameMap::new(alloc);
    'specs: for placed in specs {
        add_intents(alloc, &placed.stmt, &mut inputs)?;
    }
    Ok(inputs)
}

// A place from 1 on.
fn number_of(index: usize) -> Result<u32, NoMemory>
    ensures { IfOk result (λ number. number ≡ index + 1) }
{
    if index < 4294967295 {
        Ok(index as u32 + 1)
    } else {
        Err(NoMemory)
    }
}

fn formals(alloc: Global, heading: &Stmt) -> Result<NameMap<u32>, NoMemory>
    ensures { IfOk result (λ m. m ≡ formals_of heading.now) }
{
    let mut formals = NameMap::new(alloc);
    add_formals(alloc, heading_formals(heading), &mut formals)?;
    Ok(formals)
}

fn add_formals(alloc: Global, names: &[Name], formals: &mut NameMap<u32>) -> Result<(), NoMemory>
    ensures { OnOk result (formals.new ≡ with_all formals.old (numbered 1 names.now)) }
{
    'names: for index in 0..names.len() {
        insert_new(alloc, formals, &names[index], number_of(index)?)?;
    }
    Ok(())
}

/// What the statements of a unit say of its names, with numbers of elements as they are kept.
#[tactic(auto, using(crate::proofs::KeptSheets::same_first))]
pub fn make_sheet(alloc: Global, unit: &Unit) -> Result<Sheet, NoMemory>
    ensures { IfOk result (λ s. s ≡ kept_sheet unit.now) }
{
    let specs = unit.specs.as_slice();
    let known = constants(alloc, specs)?;
    let kinds = kinds(alloc, &known, unit)?;
    let arrays = arrays(alloc, &known, specs)?;
    let first = first_occurrences(alloc, &arrays, unit)?;
    Ok(Sheet {
        known,
        types: types_of(alloc, specs)?,
        kinds,
        arrays,
        inputs: inputs(alloc, specs)?,
        formals: formals(alloc, &unit.heading.stmt)?,
        first,
    })
}
