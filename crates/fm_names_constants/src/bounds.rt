//! Bounds of arrays, and the extents of PROCESSORS.

ghost use Rattle.std.specs.Prelude.{◌≡◌, ◌≤◌, ◌*◌, ◌&&◌, ◌||◌, true, false, is_some, IfOk, map};
ghost use Rattle.fm_values.specs.Places.{extent};
ghost use Rattle.fm_rules.specs.Bounds.{both, bounds_of, dimension_of, elements, extents_from, is_inverted, low_of, machine_dimension, machine_shape, node_count, shape_of};
ghost use Rattle.fm_rules.specs.ConstantParts.{machine_in};
ghost use Rattle.fm_names_constants.specs.Kept.{kept, kept_shape};

use crate::parts::machine_in;
use crate::values::integer_of;
use fm_base::{NoMemory, Seq};
use fm_finmap::NameMap;
use fm_rules::{Known, Shape};
use fm_tree::{Bound, Expr, Placed};
use std::alloc::Global;

fn both(low: Option<i64>, high: Option<i64>) -> Option<(i64, i64)>
    ensures { result ≡ both low high }
{
    match (low, high) {
        (Some(low), Some(high)) => Some((low, high)),
        (Some(_), None) => None,
        (None, Some(_)) => None,
        (None, None) => None,
    }
}

fn low_of(known: &NameMap<Known>, place: usize, low: &Option<Expr>) -> Option<i64>
    ensures { result ≡ low_of known.now place low.now }
{
    match low {
        Some(expr) => integer_of(known, place, expr),
        None => Some(1),
    }
}

fn dimension_of(known: &NameMap<Known>, place: usize, bound: &Bound) -> Option<(i64, i64)>
    ensures { result ≡ dimension_of known.now place bound.now }
{
    both(
        low_of(known, place, &bound.low),
        integer_of(known, place, &bound.high),
    )
}

fn machine_dimension(known: &NameMap<Known>, place: usize, extent: &Expr) -> Option<(i64, i64)>
    ensures { result ≡ machine_dimension known.now place extent.now }
{
    both(Some(1), integer_of(known, place, extent))
}

fn is_inverted(dimension: Option<(i64, i64)>) -> bool
    ensures { result ≡ is_inverted dimension }
{
    match dimension {
        Some((low, high)) => high < low,
        None => false,
    }
}

fn kept(number: u64) -> u32
    ensures { result ≡ kept number }
{
    if number < 65537 { number as u32 } else { 65537 }
}

fn kept_extent(low: i64, high: i64) -> u32
    ensures { result ≡ kept (extent (low, high)) }
{
    if high < low {
        return 0;
    }
    let last = high.abs_diff(low);
    if last < 65536 { last as u32 + 1 } else { 65537 }
}

fn kept_count(dimension: Option<(i64, i64)>) -> u32
    ensures { result ≡ kept (node_count dimension) }
{
    match dimension {
        Some((low, high)) => kept_extent(low, high),
        None => 0,
    }
}

// Of so many dimensions, none of which was looked at.
fn shape_start(dimensions: usize) -> Shape
    ensures dimensions { result.dimensions ≡ dimensions }
    ensures known { result.known ≡ true }
    ensures inverted { result.inverted ≡ false }
    ensures elements { result.elements ≡ 1 }
{
    Shape {
        dimensions,
        known: true,
        inverted: false,
        elements: 1,
    }
}

// With one more dimension.
fn shape_with(shape: Shape, dimension: Option<(i64, i64)>) -> Shape
    ensures dimensions { result.dimensions ≡ shape.dimensions }
    ensures known { result.known ≡ (shape.known && is_some dimension) }
    ensures inverted { result.inverted ≡ (shape.inverted || is_inverted dimension) }
    ensures elements { result.elements ≡ kept (shape.elements * kept (node_count dimension)) }
{
    let elements = u64::from(shape.elements) * u64::from(kept_count(dimension));
    Shape {
        dimensions: shape.dimensions,
        known: shape.known && dimension.is_some(),
        inverted: shape.inverted || is_inverted(dimension),
        elements: kept(elements),
    }
}

/// What the bounds of an array come to, with the elements as they are kept. The bounds stand in the statement at this
/// place.
#[tactic(auto, using(crate::proofs::Shapes::comes_alone))]
pub(crate) fn shape_of(known: &NameMap<Known>, place: usize, bounds: &[Bound]) -> Shape
    ensures { result ≡ kept_shape (shape_of known.now place bounds.now) }
{
    let mut shape = shape_start(bounds.len());
    'bounds: for bound in bounds {
        shape = shape_with(shape, dimension_of(known, place, bound));
    }
    shape
}

/// What the extents of a machine come to, as the bounds of an array from 1.
#[tactic(auto, using(crate::proofs::Shapes::comes_alone))]
pub(crate) fn machine_shape(known: &NameMap<Known>, place: usize, extents: &[Expr]) -> Shape
    ensures { result ≡ kept_shape (machine_shape known.now place extents.now) }
{
    let mut shape = shape_start(extents.len());
    'extents: for extent in extents {
        shape = shape_with(shape, machine_dimension(known, place, extent));
    }
    shape
}

/// The elements, and so the words, of what is declared with bounds: 1 where there are none, 0 where one is no constant
/// or under its lower. Where there are more than 65,536, it is 65,537.
pub fn elements(known: &NameMap<Known>, place: usize, bounds: &[Bound]) -> u32
    ensures { result ≡ kept (elements known.now place bounds.now) }
{
    shape_of(known, place, bounds).elements
}

/// The lower and the upper bound of each dimension, where all are constants.
#[tactic(auto, using(crate::proofs::Shapes::before_next))]
pub fn bounds_of(
    alloc: Global,
    known: &NameMap<Known>,
    place: usize,
    bounds: &[Bound],
) -> Result<Option<Seq<(i64, i64)>>, NoMemory>
    ensures { IfOk result (λ b. b ≡ bounds_of known.now place bounds.now) }
{
    let mut pairs = Seq::new(alloc);
    'bounds: for bound in bounds {
        let Some(pair) = dimension_of(known, place, bound) else {
            return Ok(None);
        };
        pairs.push(pair)?;
    }
    Ok(Some(pairs))
}

// A number over 4,294,967,295 finds no memory.
fn extent_of(low: i64, high: i64) -> Result<u32, NoMemory>
    ensures { IfOk result (λ n. n ≡ extent (low, high)) }
{
    if high < low {
        return Ok(0);
    }
    let last = high.abs_diff(low);
    if last < 4294967295 {
        Ok(last as u32 + 1)
    } else {
        Err(NoMemory)
    }
}

fn node_count(dimension: Option<(i64, i64)>) -> Result<u32, NoMemory>
    ensures { IfOk result (λ n. n ≡ node_count dimension) }
{
    match dimension {
        Some((low, high)) => extent_of(low, high),
        None => Ok(0),
    }
}

fn node_counts(
    alloc: Global,
    known: &NameMap<Known>,
    place: usize,
    extents: &[Expr],
) -> Result<Seq<u32>, NoMemory>
    ensures { IfOk result (λ v. v ≡ map (λ e. node_count (machine_dimension known.now place e)) extents.now) }
{
    let mut counts = Seq::new(alloc);
    'extents: for extent in extents {
        counts.push(node_count(machine_dimension(known, place, extent))?)?;
    }
    Ok(counts)
}

/// The extents of PROCESSORS, none where there is none. An extent that is no constant or under 1 counts as 0.
pub fn extents(
    alloc: Global,
    known: &NameMap<Known>,
    specs: &[Placed],
) -> Result<Seq<u32>, NoMemory>
    ensures { IfOk result (λ v. v ≡ extents_from known.now 0 specs.now) }
{
    'specs: for place in 0..specs.len() {
        let extents = machine_in(&specs[place].stmt);
        if !extents.is_empty() {
            return node_counts(alloc, known, place, extents);
        }
    }
    Ok(Seq::new(alloc))
}
