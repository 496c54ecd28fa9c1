//! Images.

ghost use Rattle.std.specs.Prelude.{◌≡◌, ◌++◌, [], ◌∷◌, slice_get, IfOk, OnOk};
ghost use Rattle.std.specs.Option.{option_copied};
ghost use Rattle.fm_image.specs.ImageOf.{heading_number, image_of, units_image};
ghost use Rattle.fm_image.specs.Types.{needed_all};
ghost use Rattle.fm_image.specs.Made.{unit_by, unit_with};

use crate::types::Types;
use crate::variables::cells;
use fm_base::{NoMemory, Seq};
use fm_code::Code;
use fm_object::{Cell, Image, UnitImage};
use fm_rules::Program;
use fm_symbols::{UnitNames, heading_kind};
use fm_tree::{Unit, UnitKind};
use std::alloc::Global;

fn heading_number(kind: UnitKind) -> u32
    ensures { result ≡ heading_number kind }
{
    match kind {
        UnitKind::Program => 0,
        UnitKind::Process => 1,
        UnitKind::Subroutine => 2,
        UnitKind::Function => 3,
    }
}

/// The image of a unit with these cells.
fn unit(
    alloc: Global,
    tree: &Unit,
    names: &UnitNames,
    cells: Seq<Cell>,
    code: &fm_code::Unit,
) -> Result<UnitImage, NoMemory>
    ensures { IfOk result (λ u. u ≡ unit_with cells tree.now names.now code.now) }
{
    Ok(UnitImage {
        heading: heading_number(heading_kind(&tree.heading.stmt)),
        extents: Seq::from_slice(alloc, names.extents.as_slice())?,
        cells,
        entries: Seq::from_slice(alloc, code.entries.as_slice())?,
        code: Seq::from_slice(alloc, code.code.as_slice())?,
    })
}

/// Adds the image of a unit, where it has a tree and code.
fn add(
    alloc: Global,
    tree: Option<&Unit>,
    names: &UnitNames,
    cells: Seq<Cell>,
    code: Option<&fm_code::Unit>,
    units: &mut Seq<UnitImage>,
) -> Result<(), NoMemory>
    ensures { OnOk result
        (units.new ≡ units.old ++ unit_by cells (option_copied tree.entry) names.now (option_copied code.entry)) }
{
    if let Some(tree) = tree {
        if let Some(code) = code {
            units.push(unit(alloc, tree, names, cells, code)?)?;
        }
    }
    Ok(())
}

fn item_at<T>(items: &[T], number: usize) -> Option<&T>
    ensures { option_copied result ≡ slice_get items.now number }
{
    items.get(number)
}

/// The images of units, and the types that they need behind those that are there.
fn units(
    alloc: Global,
    types: &mut Types,
    trees: &[Unit],
    names: &[UnitNames],
    code: &[fm_code::Unit],
) -> Result<Seq<UnitImage>, NoMemory>
    ensures types { OnOk result (types.new ≡ needed_all types.old names.now) }
    ensures units { IfOk result (λ u. u ≡ units_image types.new trees.now names.now code.now) }
{
    let mut units = Seq::new(alloc);
    'units: for number in 0..names.len() {
        let here = &names[number];
        let cells = cells(alloc, types, here.variables.as_slice())?;
        let tree = item_at(trees, number);
        let own = item_at(code, number);
        add(alloc, tree, here, cells, own, &mut units)?;
    }
    Ok(units)
}

/// The image of a program and its code.
///
/// # Errors
/// `NoMemory` is want of memory.
pub fn image(alloc: Global, program: &Program, code: &Code) -> Result<Image, NoMemory>
    ensures { IfOk result (λ i. i ≡ image_of program.now code.now) }
{
    let mut types = Types::new(alloc);
    let units = units(
        alloc,
        &mut types,
        program.units().units.as_slice(),
        program.names().units.as_slice(),
        code.units.as_slice(),
    )?;
    let types = types.into_seq(alloc)?;
    Ok(Image { types, units })
}
