//! What an image says of its units and of the types of ports, ready to be searched.

ghost use Rattle.std.specs.Prelude.{◌≡◌, IfOk, List, map};
ghost use Rattle.fm_object.specs.declared.image.FieldImage as declared;
ghost use Rattle.fm_image_typed.specs.Shapes.{cell_of, field_of, heading_of, shape_of, shapes_of, sort_of};

use fm_base::{NoMemory, Seq};
use fm_code_kinds::{Cell, Field, Heading, Sort};
use fm_object::{FieldImage, Image, UnitImage};
use fm_verify_unit::{Known, KnownUnit};
use std::alloc::Global;

/// What a kind's number is the kind of.
#[tactic(auto, using(crate::proofs::Numbers::out_from))]
fn sort_of(kind: u32, of: u32) -> Sort
    ensures { result ≡ sort_of kind of }
{
    match kind {
        0 => Sort::Integer,
        1 => Sort::Logical,
        2 => Sort::In(of),
        _ => Sort::Out(of),
    }
}

/// What a heading's number is.
#[tactic(auto, using(crate::proofs::Numbers::function_from))]
fn heading_of(number: u32) -> Heading
    ensures { result ≡ heading_of number }
{
    match number {
        0 => Heading::Program,
        1 => Heading::Process,
        2 => Heading::Subroutine,
        _ => Heading::Function,
    }
}

/// A variable of an image as kinds of operands are told by it.
pub fn cell_of(cell: &fm_object::Cell) -> Cell
    ensures { result ≡ cell_of cell.now }
{
    Cell {
        sort: sort_of(cell.kind, cell.of),
        first: cell.first,
        words: cell.words,
        formal: cell.formal,
        back: cell.back == 1,
    }
}

fn field_of(field: FieldImage) -> Field
    ensures { result ≡ field_of field }
{
    Field {
        sort: sort_of(field.kind, field.of),
        words: field.words,
        size: field.size,
    }
}

fn fields_of(alloc: Global, fields: &[FieldImage]) -> Result<Seq<Field>, NoMemory>
    ensures { IfOk result (λ all. all ≡ map field_of fields.now) }
{
    let mut all = Vec::new(alloc);
    'fields: for field in fields {
        all.push(field_of(*field))?;
    }
    Ok(Seq::from_vec(all))
}

fn types_of(alloc: Global, types: &[Seq<FieldImage>]) -> Result<Seq<Seq<Field>>, NoMemory>
    ensures { IfOk result (λ all. all ≡ map (λ (fs : List declared.FieldImage). map field_of fs) types.now) }
{
    let mut all = Vec::new(alloc);
    'types: for fields in types {
        all.push(fields_of(alloc, fields.as_slice())?)?;
    }
    Ok(Seq::from_vec(all))
}

/// What the image says of a unit, ready to be searched.
pub fn known_unit(alloc: Global, unit: &UnitImage) -> Result<KnownUnit, NoMemory>
    ensures { IfOk result (λ known. known ≡ shape_of unit.now) }
{
    let mut cells = Vec::new(alloc);
    'cells: for cell in unit.cells.as_slice() {
        cells.push(cell_of(cell))?;
    }
    KnownUnit::new(alloc, heading_of(unit.heading), Seq::from_vec(cells))
}

fn units_of(alloc: Global, units: &[UnitImage]) -> Result<Vec<KnownUnit>, NoMemory>
    ensures { IfOk result (λ all. all.items ≡ map shape_of units.now) }
{
    let mut all = Vec::new(alloc);
    'units: for unit in units {
        all.push(known_unit(alloc, unit)?)?;
    }
    Ok(all)
}

/// What the image says of its units and types.
pub(crate) fn known_of(alloc: Global, image: &Image) -> Result<Known, NoMemory>
    ensures { IfOk result (λ known. known ≡ shapes_of image.now) }
{
    let types = types_of(alloc, image.types.as_slice())?;
    let units = units_of(alloc, image.units.as_slice())?;
    Ok(Known::new(types, units))
}
