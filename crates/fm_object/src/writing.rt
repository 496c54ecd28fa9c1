//! Writing an object.

ghost use Rattle.std.specs.Prelude.{◌≡◌, ◌++◌, ℕ, List, length, IfOk, OnOk};
ghost use Rattle.std.specs.List.{All, flat_map};
ghost use Rattle.fm_object.specs.Reading.{HeadFits, head_in};
ghost use Rattle.fm_object.specs.Texts.{AreNamed, CellFits, EntryFits, FieldFits, HasNames, InstrFits, IsName, IsObjectText, IsShort, ListFits, UnitFits, cell_text, entry_text, extent_text, field_text, instr_text, number, object_text, signed, type_text, unit_line, unit_text, word};

use crate::image::{Cell, FieldImage, Image, UnitImage};
use fm_base::{NoMemory, Seq};
use fm_code::{Entry, Instr};
use std::alloc::Global;

/// The most lines of a kind.
const MOST_LINES: usize = 4_294_967_295;

/// A number of 32 bits, and the byte behind it.
fn push_number(alloc: Global, out: &mut Vec<u8>, value: u32, end: u8) -> Result<(), NoMemory>
    ensures written { OnOk result (out.new.items ≡ out.old.items ++ number value end) }
    ensures short { IsShort value }
{
    out.extend_from_slice(value.to_string(alloc)?.as_bytes())?;
    out.push(end)?;
    Ok(())
}

/// A number with its sign, and the byte behind it.
fn push_signed(alloc: Global, out: &mut Vec<u8>, value: i64, end: u8) -> Result<(), NoMemory>
    ensures { OnOk result (out.new.items ≡ out.old.items ++ signed value end) }
{
    out.extend_from_slice(value.to_string(alloc)?.as_bytes())?;
    out.push(end)?;
    Ok(())
}

/// A number of lines, and the byte behind it.
fn push_length(alloc: Global, out: &mut Vec<u8>, length: usize, end: u8) -> Result<(), NoMemory>
    ensures written { OnOk result (out.new.items ≡ out.old.items ++ number length end) }
    ensures few { OnOk result (IsShort length) }
{
    // More lines have no number of 32 bits: told as want of memory.
    if length > MOST_LINES {
        return Err(NoMemory);
    }
    out.extend_from_slice(length.to_string(alloc)?.as_bytes())?;
    out.push(end)?;
    Ok(())
}

/// These bytes.
fn push_text(out: &mut Vec<u8>, text: &[u8]) -> Result<(), NoMemory>
    ensures { OnOk result (out.new.items ≡ out.old.items ++ text.now) }
{
    out.extend_from_slice(text)?;
    Ok(())
}

/// What has a text.
trait Texts {
    /// What one is.
    type Item;

    // The text of one.
    ghost text: { Self.Item → List ℕ };

    // What holds of one that has been written: it is within its ranges, where names are names.
    ghost Fits: { Self.Item → Type 0 };

    /// The text of one.
    fn push_one(alloc: Global, out: &mut Vec<u8>, item: &Self::Item) -> Result<(), NoMemory>
        ensures written { OnOk result (out.new.items ≡ out.old.items ++ text item.now) }
        ensures fits { OnOk result (Fits item.now) };
}

/// The texts of all, one behind the other.
fn push_all<T: Texts>(alloc: Global, out: &mut Vec<u8>, items: &[T::Item]) -> Result<(), NoMemory>
    ensures written { OnOk result (out.new.items ≡ out.old.items ++ flat_map T.text items.now) }
    ensures fits { OnOk result (All T.Fits items.now) }
{
    'items: for item in items {
        T::push_one(alloc, out, item)?;
    }
    Ok(())
}

/// The fields of a type.
struct Fields;

impl Texts for Fields {
    type Item = FieldImage;

    ghost text = { field_text };

    ghost Fits = { FieldFits };

    fn push_one(alloc: Global, out: &mut Vec<u8>, item: &FieldImage) -> Result<(), NoMemory> {
        push_text(out, b"field ")?;
        push_number(alloc, out, item.kind, b' ')?;
        push_number(alloc, out, item.of, b' ')?;
        push_number(alloc, out, item.words, b' ')?;
        push_number(alloc, out, item.size, b'\n')
    }
}

/// The extents of a unit.
struct Extents;

impl Texts for Extents {
    type Item = u32;

    ghost text = { extent_text };

    ghost Fits = { IsShort };

    fn push_one(alloc: Global, out: &mut Vec<u8>, item: &u32) -> Result<(), NoMemory> {
        push_text(out, b"extent ")?;
        push_number(alloc, out, *item, b'\n')
    }
}

/// A word, and the byte behind it.
fn push_word(out: &mut Vec<u8>, text: &[u8], end: u8) -> Result<(), NoMemory>
    ensures { OnOk result (out.new.items ≡ out.old.items ++ word text.now end) }
{
    out.extend_from_slice(text)?;
    out.push(end)?;
    Ok(())
}

/// The last numbers of a cell.
fn push_rest(alloc: Global, out: &mut Vec<u8>, item: &Cell) -> Result<(), NoMemory>
    ensures written { OnOk result (out.new.items ≡ out.old.items
        ++ (number item.now.words 32 ++ (number item.now.formal 32 ++ number item.now.back 10))) }
    ensures fits { OnOk result (IsShort item.now.words × IsShort item.now.formal × IsShort item.now.back) }
{
    push_number(alloc, out, item.words, b' ')?;
    push_number(alloc, out, item.formal, b' ')?;
    push_number(alloc, out, item.back, b'\n')
}

/// The variables of a unit.
struct Cells;

impl Texts for Cells {
    type Item = Cell;

    ghost text = { cell_text };

    ghost Fits = { λ c. IsName c.name → CellFits c };

    fn push_one(alloc: Global, out: &mut Vec<u8>, item: &Cell) -> Result<(), NoMemory> {
        push_text(out, b"cell ")?;
        push_word(out, item.name.as_bytes(), b' ')?;
        push_number(alloc, out, item.kind, b' ')?;
        push_number(alloc, out, item.of, b' ')?;
        push_number(alloc, out, item.first, b' ')?;
        push_rest(alloc, out, item)
    }
}

/// The statements of a unit.
struct Entries;

impl Texts for Entries {
    type Item = Entry;

    ghost text = { entry_text };

    ghost Fits = { EntryFits };

    fn push_one(alloc: Global, out: &mut Vec<u8>, item: &Entry) -> Result<(), NoMemory> {
        push_text(out, b"entry ")?;
        push_number(alloc, out, item.line.0, b' ')?;
        push_number(alloc, out, item.address, b'\n')
    }
}

/// The instructions of a unit.
struct Instrs;

impl Texts for Instrs {
    type Item = Instr;

    ghost text = { instr_text };

    ghost Fits = { InstrFits };

    fn push_one(alloc: Global, out: &mut Vec<u8>, item: &Instr) -> Result<(), NoMemory> {
        let (op, first, second) = item.parts();
        push_text(out, b"instr ")?;
        push_number(alloc, out, op, b' ')?;
        push_signed(alloc, out, first, b' ')?;
        push_signed(alloc, out, second, b'\n')
    }
}

/// The types of ports.
struct Types;

impl Texts for Types {
    type Item = Seq<FieldImage>;

    ghost text = { type_text };

    ghost Fits = { ListFits FieldFits };

    fn push_one(alloc: Global, out: &mut Vec<u8>, item: &Seq<FieldImage>) -> Result<(), NoMemory> {
        push_text(out, b"type ")?;
        push_length(alloc, out, item.len(), b'\n')?;
        push_all::<Fields>(alloc, out, item.as_slice())
    }
}

/// The line of a unit.
fn push_unit_line(alloc: Global, out: &mut Vec<u8>, item: &UnitImage) -> Result<(), NoMemory>
    ensures written { OnOk result (out.new.items ≡ out.old.items ++ unit_line item.now) }
    ensures fits { OnOk result (HeadFits (head_in item.now)) }
{
    push_text(out, b"unit ")?;
    push_number(alloc, out, item.heading, b' ')?;
    push_length(alloc, out, item.extents.len(), b' ')?;
    push_length(alloc, out, item.cells.len(), b' ')?;
    push_length(alloc, out, item.entries.len(), b' ')?;
    push_length(alloc, out, item.code.len(), b'\n')
}

/// The units.
struct Units;

impl Texts for Units {
    type Item = UnitImage;

    ghost text = { unit_text };

    ghost Fits = { λ u. AreNamed u.cells → UnitFits u };

    fn push_one(alloc: Global, out: &mut Vec<u8>, item: &UnitImage) -> Result<(), NoMemory> {
        push_unit_line(alloc, out, item)?;
        push_all::<Extents>(alloc, out, item.extents.as_slice())?;
        push_all::<Cells>(alloc, out, item.cells.as_slice())?;
        push_all::<Entries>(alloc, out, item.entries.as_slice())?;
        push_all::<Instrs>(alloc, out, item.code.as_slice())
    }
}

/// The text of an image, in form 1. `read` reads it again where each cell's name is a name in upper case. Linear in the
/// image.
///
/// # Errors
/// `NoMemory` is want of memory, or a list of 4,294,967,296 items or more.
pub fn write(alloc: Global, image: &Image) -> Result<Vec<u8>, NoMemory>
    // It is the text of the image.
    ensures text { IfOk result (λ v. v.items ≡ object_text image.now) }
    // Where names are names, the image is within its ranges, which is what `read` asks for.
    ensures readable { IfOk result (λ v. HasNames image.now → IsObjectText v.items image.now) }
{
    let mut out = Vec::new(alloc);
    push_text(&mut out, b"fmc object 1\ntypes ")?;
    push_length(alloc, &mut out, image.types.len(), b'\n')?;
    push_all::<Types>(alloc, &mut out, image.types.as_slice())?;
    push_text(&mut out, b"units ")?;
    push_length(alloc, &mut out, image.units.len(), b'\n')?;
    push_all::<Units>(alloc, &mut out, image.units.as_slice())?;
    Ok(out)
}
