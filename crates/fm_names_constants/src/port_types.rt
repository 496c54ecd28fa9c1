//! The types of ports with their bounds worked out.

ghost use Rattle.std.specs.Prelude.{◌≡◌, ◌+◌, ◌≤◌, IfOk, [], ◌∷◌};
ghost use Rattle.fm_rules.specs.BrokenConstants.{is_long};
ghost use Rattle.fm_rules.specs.PortTypes.{counted_bound, counted_bounds, field_words, normal_bounds, normal_field, normal_field_kind, normal_type, sized_bound};
ghost use Rattle.fm_rules.specs.SizedFields.{sizes_of};
ghost use Rattle.fm_names_constants.specs.Kept.{kept, kept_bounds, kept_field, kept_field_kind, kept_type};
ghost use Rattle.fm_names_constants.specs.Words.{words_of};

use crate::bounds::elements;
use fm_base::{NoMemory, Seq};
use fm_finmap::NameMap;
use fm_rules::{Known, sized_by};
use fm_tree::{Bound, Expr, ExprNode, Field, Kind, PortType};
use std::alloc::Global;

fn counted_bound(elements: u32) -> Bound
    ensures { result ≡ counted_bound elements }
{
    Bound {
        low: None,
        high: Expr {
            node: ExprNode::Number(i64::from(elements)),
        },
    }
}

// The place of a field is a number of 32 bits: more fields find no memory.
fn sized_bound(at: usize) -> Result<Bound, NoMemory>
    ensures { IfOk result (λ b. b ≡ sized_bound at) }
{
    let place = u32::try_from(at).map_err(|_| NoMemory)?;
    Ok(Bound {
        low: Some(Expr {
            node: ExprNode::Number(i64::from(place)),
        }),
        high: Expr {
            node: ExprNode::Truth(true),
        },
    })
}

fn counted_bounds(
    alloc: Global,
    known: &NameMap<Known>,
    place: usize,
    bounds: &[Bound],
) -> Result<Seq<Bound>, NoMemory>
    ensures { IfOk result (λ b. b ≡ kept_bounds (counted_bounds known.now place bounds.now)) }
{
    let mut counted = Seq::new(alloc);
    if !bounds.is_empty() {
        counted.push(counted_bound(elements(known, place, bounds)))?;
    }
    Ok(counted)
}

fn sized_bounds(alloc: Global, at: usize) -> Result<Seq<Bound>, NoMemory>
    ensures { IfOk result (λ b. b ≡ sized_bound at ∷ []) }
{
    let mut sized = Seq::new(alloc);
    sized.push(sized_bound(at)?)?;
    Ok(sized)
}

fn normal_bounds(
    alloc: Global,
    known: &NameMap<Known>,
    place: usize,
    size: Option<usize>,
    bounds: &[Bound],
) -> Result<Seq<Bound>, NoMemory>
    ensures { IfOk result (λ b. b ≡ kept_bounds (normal_bounds known.now place size bounds.now)) }
{
    match size {
        Some(at) => sized_bounds(alloc, at),
        None => counted_bounds(alloc, known, place, bounds),
    }
}

/// The type without names, each array by its number of elements alone, as it is kept, or by the place of the field that
/// sizes it. The type stands in the statement at this place.
#[cycle(normal_port_type)]
pub fn normal_port_type(
    alloc: Global,
    known: &NameMap<Known>,
    place: usize,
    port_type: &PortType,
) -> Result<PortType, NoMemory>
    ensures { IfOk result (λ p. p ≡ kept_type (normal_type known.now place port_type.now)) }
{
    let fields = port_type.as_slice();
    let mut normal = Vec::new(alloc);
    'fields: for index in 0..fields.len() {
        let (earlier, _) = fields.split_at(index);
        normal.push(normal_field(alloc, known, place, earlier, &fields[index])?)?;
    }
    PortType::new(alloc, normal)
}

#[cycle(normal_port_type)]
fn normal_field(
    alloc: Global,
    known: &NameMap<Known>,
    place: usize,
    earlier: &[Field],
    field: &Field,
) -> Result<Field, NoMemory>
    ensures { IfOk result (λ f. f ≡ kept_field (normal_field known.now place (sizes_of earlier.now) field.now)) }
{
    let size = sized_by(earlier, field);
    Ok(Field {
        kind: normal_kind(alloc, known, place, &field.kind)?,
        name: None,
        bounds: normal_bounds(alloc, known, place, size, field.bounds.as_slice())?,
    })
}

#[cycle(normal_port_type)]
fn normal_kind(
    alloc: Global,
    known: &NameMap<Known>,
    place: usize,
    kind: &Kind,
) -> Result<Kind, NoMemory>
    ensures { IfOk result (λ k. k ≡ kept_field_kind (normal_field_kind known.now place kind.now)) }
{
    match kind {
        Kind::Integer => Ok(Kind::Integer),
        Kind::Logical => Ok(Kind::Logical),
        Kind::In(port_type) => Ok(Kind::In(normal_port_type(alloc, known, place, port_type)?)),
        Kind::Out(port_type) => Ok(Kind::Out(normal_port_type(alloc, known, place, port_type)?)),
    }
}

// The sum of two numbers of words, or one more than the greatest number of words.
fn kept_sum(words: u32, more: u32) -> u32
    requires words_kept { words ≤ 65537 }
    requires more_kept { more ≤ 65537 }
    ensures { result ≡ kept (words + more) }
{
    if words + more < 65537 {
        words + more
    } else {
        65537
    }
}

// The words of a field: an array that an earlier field sizes counts none.
fn field_words(known: &NameMap<Known>, place: usize, size: Option<usize>, bounds: &[Bound]) -> u32
    ensures words { result ≡ kept (field_words known.now place size bounds.now) }
    ensures few { result ≤ 65537 }
{
    match size {
        Some(_) => 0,
        None => elements(known, place, bounds),
    }
}

// The words of a field behind these.
fn words_of(known: &NameMap<Known>, place: usize, earlier: &[Field], field: &Field) -> u32
    ensures words { result ≡ kept (words_of known.now place (sizes_of earlier.now) field.now) }
    ensures few { result ≤ 65537 }
{
    let size = sized_by(earlier, field);
    field_words(known, place, size, field.bounds.as_slice())
}

/// Whether the messages of this type have too many words.
#[tactic(auto, using(crate::proofs::Shapes::long_at_end))]
pub(crate) fn is_long(known: &NameMap<Known>, place: usize, port_type: &PortType) -> bool
    ensures { result ≡ is_long known.now place port_type.now }
{
    let fields = port_type.as_slice();
    let mut words: u32 = 0;
    'fields: for index in 0..fields.len() {
        let (earlier, _) = fields.split_at(index);
        words = kept_sum(words, words_of(known, place, earlier, &fields[index]));
    }
    words > 65536
}
