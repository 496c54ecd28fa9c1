//! Fields of messages, and the types of ports with the numbers of those in them.

ghost use Rattle.std.specs.Prelude.{◌≡◌, ◌+◌, IfOk, OnOk};
ghost use Rattle.fm_values.specs.Trips.{natural};
ghost use Rattle.fm_tree.specs.PortReading.{fields_of, kind_of};
ghost use Rattle.fm_mean.specs.Fits.{elements_in, upper_in};
ghost use Rattle.fm_rules.specs.PortTypes.{sizing_place};
ghost use Rattle.fm_image.specs.Types.{field_with, fields_image, kind_number, needed_by, needed_in, type_number};

use crate::types::{Types, short};
use fm_base::{NoMemory, Seq};
use fm_object::FieldImage;
use fm_rules::sizing_place;
use fm_tree::{Bound, Expr, ExprNode, Field, Kind};
use std::alloc::Global;

pub(crate) fn kind_number(kind: &Kind) -> u32
    ensures { result ≡ kind_number (kind_of kind.now) }
{
    match kind {
        Kind::Integer => 0,
        Kind::Logical => 1,
        Kind::In(_) => 2,
        Kind::Out(_) => 3,
    }
}

fn natural(number: i64) -> usize
    ensures { result ≡ natural number }
{
    number.max(0) as usize
}

fn upper(high: &Expr) -> Result<u32, NoMemory>
    ensures { IfOk result (λ n. n ≡ upper_in high.now) }
{
    match &high.node {
        ExprNode::Number(elements) => short(natural(*elements)),
        _ => Ok(0),
    }
}

/// How many elements an array has in the type of a port; a scalar is one.
fn elements(bounds: &[Bound]) -> Result<u32, NoMemory>
    ensures { IfOk result (λ n. n ≡ elements_in bounds.now) }
{
    match bounds.first() {
        Some(bound) => upper(&bound.high),
        None => Ok(1),
    }
}

fn next_number(place: usize) -> Result<u32, NoMemory>
    ensures { IfOk result (λ n. n ≡ place + 1) }
{
    short(place)?.checked_add(1).ok_or(NoMemory)
}

fn field(field: &Field, of: u32) -> Result<FieldImage, NoMemory>
    ensures { IfOk result
        (λ f. f ≡ field_with (kind_of field.now.kind) of field.now.bounds (sizing_place field.now.bounds)) }
{
    let kind = kind_number(&field.kind);
    let bounds = field.bounds.as_slice();
    match sizing_place(bounds) {
        None => Ok(FieldImage {
            kind,
            of,
            words: elements(bounds)?,
            size: 0,
        }),
        Some(place) => Ok(FieldImage {
            kind,
            of,
            words: 0,
            size: next_number(place)?,
        }),
    }
}

/// What is said of these fields, where the types that they need are there; these are put behind the others where they
/// aren't.
#[cycle(types)]
pub(crate) fn field_images(
    alloc: Global,
    types: &mut Types,
    fields: &[Field],
) -> Result<Seq<FieldImage>, NoMemory>
    ensures types { OnOk result (types.new ≡ needed_in types.old (fields_of fields.now)) }
    ensures fields { IfOk result (λ l. l ≡ fields_image types.new (fields_of fields.now)) }
{
    let mut images = Seq::new(alloc);
    'each: for one in fields {
        let of = type_number(alloc, types, &one.kind)?;
        images.push(field(one, of)?)?;
    }
    Ok(images)
}

/// The number of the type of a port, which is put behind the others with those that it needs where it isn't there; 0 of
/// what is no port.
#[cycle(types)]
pub(crate) fn type_number(alloc: Global, types: &mut Types, kind: &Kind) -> Result<u32, NoMemory>
    ensures types { OnOk result (types.new ≡ needed_by types.old (kind_of kind.now)) }
    ensures number { IfOk result (λ n. n ≡ type_number types.new (kind_of kind.now)) }
{
    match kind {
        Kind::Integer => Ok(0),
        Kind::Logical => Ok(0),
        Kind::In(port_type) => {
            let images = field_images(alloc, types, port_type.as_slice())?;
            types.number(images)
        }
        Kind::Out(port_type) => {
            let images = field_images(alloc, types, port_type.as_slice())?;
            types.number(images)
        }
    }
}
