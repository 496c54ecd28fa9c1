//! The whole of an image: its PROGRAM, and the types of ports.

ghost use Rattle.std.specs.Prelude.{◌≡◌, ◌==◌, [], slice_get};
ghost use Rattle.fm_image_typed.specs.Typed.{how_many, is_main};
ghost use Rattle.fm_verify.specs.Telling.{one_where};
ghost use Rattle.fm_verify.specs.Tests.{are_fields, are_types, has_type, has_words, is_field, is_size, is_whole};

use fm_base::Seq;
use fm_object::{FieldImage, Image, UnitImage};

/// Whether there is such a kind, and what is no port has type 0, a port one of so many types.
pub(crate) fn has_type(kind: u32, of: u32, types: usize) -> bool
    ensures { result ≡ has_type kind of types }
{
    if kind <= 1 {
        of == 0
    } else {
        kind <= 3 && (of as usize) < types
    }
}

/// Whether it is an integer of one word.
fn is_size(field: Option<FieldImage>) -> bool
    ensures { result ≡ is_size field }
{
    match field {
        Some(field) => field.kind == 0 && field.words == 1,
        None => false,
    }
}

/// The field at this place.
fn field_at(fields: &[FieldImage], place: usize) -> Option<FieldImage>
    ensures { result ≡ slice_get fields.now place }
{
    fields.get(place).copied()
}

/// Whether the field has words, or an earlier one tells them.
fn has_words(earlier: &[FieldImage], field: FieldImage) -> bool
    ensures { result ≡ has_words earlier.now field }
{
    if field.size == 0 {
        1 <= field.words
    } else {
        is_size(field_at(earlier, field.size as usize - 1)) && (field.kind <= 1 && field.words == 0)
    }
}

/// Whether the field makes sense behind these.
fn is_field(types: usize, earlier: &[FieldImage], field: FieldImage) -> bool
    ensures { result ≡ is_field types earlier.now field }
{
    has_type(field.kind, field.of, types) && has_words(earlier, field)
}

/// Whether the fields of a type with so many types before it make sense.
fn are_fields(types: usize, fields: &[FieldImage]) -> bool
    ensures { result ≡ are_fields types [] fields.now }
{
    'places: for place in 0..fields.len() {
        let (earlier, _) = fields.split_at(place);
        if !is_field(types, earlier, fields[place]) {
            return false;
        }
    }
    true
}

/// Whether each type makes sense behind those before it.
fn are_types(types: &[Seq<FieldImage>]) -> bool
    ensures { result ≡ are_types 0 types.now }
{
    'types: for number in 0..types.len() {
        if !are_fields(number, types[number].as_slice()) {
            return false;
        }
    }
    true
}

/// How many that is.
pub(crate) fn one_where(test: bool) -> usize
    ensures { result ≡ one_where test }
{
    if test { 1 } else { 0 }
}

/// Whether the unit is a PROGRAM.
fn is_main(unit: &UnitImage) -> bool
    ensures { result ≡ is_main unit.now }
{
    unit.heading == 0
}

/// How many units are PROGRAMs.
#[tactic(auto, using(crate::proofs::Counts::one_more))]
fn count_mains(units: &[UnitImage]) -> usize
    ensures { result ≡ how_many is_main units.now }
{
    let mut count = 0usize;
    'units: for unit in units {
        count += one_where(is_main(unit));
    }
    count
}

/// Whether the whole makes sense.
pub(crate) fn is_whole(image: &Image) -> bool
    ensures { result ≡ is_whole image.now }
{
    count_mains(image.units.as_slice()) == 1 && are_types(image.types.as_slice())
}
