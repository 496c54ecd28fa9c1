//! Fields of messages that an earlier field sizes.

ghost use Rattle.std.specs.Prelude.{◌≡◌, Some, option_map};
ghost use Rattle.std.specs.Option.{option_eq};
ghost use Rattle.fm_tree.specs.PortReading.{kind_of};
ghost use Rattle.fm_tree.specs.Same.{same_name};
ghost use Rattle.fm_rules.specs.PortTypes.{place_in, sizing_place};
ghost use Rattle.fm_rules.specs.SizedFields.{bare_name, field_size, only_name, scalar_name, size_place, size_wanted, sized_by, sizes_of, upper_name};

use fm_base::Name;
use fm_tree::{Bound, Expr, ExprNode, Field, Kind};

fn bare_name(expr: &Expr) -> Option<&Name>
    ensures { option_map (λ n. n.now) result ≡ bare_name expr.now }
{
    match &expr.node {
        ExprNode::Named(name) => Some(name),
        _ => None,
    }
}

fn upper_name(bound: &Bound) -> Option<&Name>
    ensures { option_map (λ n. n.now) result ≡ upper_name bound.now.low bound.now.high }
{
    match &bound.low {
        Some(_) => None,
        None => bare_name(&bound.high),
    }
}

fn only_name(bounds: &[Bound]) -> Option<&Name>
    ensures { option_map (λ n. n.now) result ≡ only_name bounds.now }
{
    match bounds {
        [bound] => upper_name(bound),
        _ => None,
    }
}

fn size_wanted(field: &Field) -> Option<&Name>
    ensures { option_map (λ n. n.now) result ≡ size_wanted (kind_of field.now.kind) field.now.bounds }
{
    match field.kind {
        Kind::Integer => only_name(field.bounds.as_slice()),
        Kind::Logical => only_name(field.bounds.as_slice()),
        Kind::In(_) => None,
        Kind::Out(_) => None,
    }
}

fn scalar_name(field: &Field) -> Option<&Name>
    ensures { option_map (λ n. n.now) result ≡ scalar_name field.now.name field.now.bounds }
{
    if field.bounds.as_slice().is_empty() {
        field.name.as_ref()
    } else {
        None
    }
}

// The name that a field gives as a size: that of a scalar INTEGER.
fn size_given(field: &Field) -> Option<&Name>
    ensures { option_map (λ n. n.now) result ≡ field_size field.now }
{
    match field.kind {
        Kind::Integer => scalar_name(field),
        _ => None,
    }
}

fn gives(field: &Field, name: &Name) -> bool
    ensures { result ≡ option_eq same_name (field_size field.now) (Some name.now) }
{
    match size_given(field) {
        Some(given) => given == name,
        None => false,
    }
}

// The place of the last field that gives this name as a size.
fn size_place(earlier: &[Field], name: &Name) -> Option<usize>
    ensures { result ≡ size_place (sizes_of earlier.now) name.now }
{
    let mut rest = earlier;
    'fields: while let Some((last, before)) = rest.split_last() {
        if gives(last, name) {
            return Some(before.len());
        }
        rest = before;
    }
    None
}

/// The place of the field that sizes a field behind these, from 0, where one does.
pub fn sized_by(earlier: &[Field], field: &Field) -> Option<usize>
    ensures { result ≡ sized_by (sizes_of earlier.now) (kind_of field.now.kind) field.now.bounds }
{
    size_place(earlier, size_wanted(field)?)
}

fn place_in(expr: &Expr) -> Option<usize>
    ensures { result ≡ place_in expr.now }
{
    match &expr.node {
        ExprNode::Number(place) => Some((*place).max(0) as usize),
        _ => None,
    }
}

/// The place of the field that sizes an array, by the bounds of a field of a normal type, where one does.
pub fn sizing_place(bounds: &[Bound]) -> Option<usize>
    ensures { result ≡ sizing_place bounds.now }
{
    match bounds.first() {
        Some(bound) => place_in(bound.low.as_ref()?),
        None => None,
    }
}
