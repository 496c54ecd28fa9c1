//! What is broken in constants, bounds and the types of messages: the earliest place.

ghost use Rattle.std.specs.Prelude.{◌≡◌};
ghost use Rattle.std.specs.Option.{option_map};
ghost use Rattle.std.specs.List.{flat_map};
ghost use Rattle.fm_base.specs.Verdict.{least_from};
ghost use Rattle.fm_tree.specs.PortReading.{kind_of};
ghost use Rattle.fm_rules.specs.BrokenConstants.{broken_bounds, broken_decl, broken_decls, broken_definition, broken_definitions, broken_extent, broken_field, broken_from, broken_kind, broken_machine, broken_message, broken_shape, broken_statement, broken_type, is_bad, is_no_constant};
ghost use Rattle.fm_rules.specs.SizedFields.{sizes_of};

use crate::bounds::{machine_shape, shape_of};
use crate::parts::{decls_of, definitions_in, machine_in, port_type_in};
use crate::port_types::is_long;
use crate::types::{is_of, scalar_of_name};
use crate::values::value_of;
use fm_base::{Line, Refusal, Rule, keep_if};
use fm_finmap::NameMap;
use fm_rules::{Known, Shape, Types, sized_by};
use fm_symbols::{Constant, Scalar};
use fm_tree::{Bound, Decl, Defined, Expr, Field, Kind, Placed, PortType};

// An array has 7 dimensions at most, and a machine 3.
const MOST_DIMENSIONS: usize = 7;

const MOST_EXTENTS: usize = 3;

fn is_bad(limit: usize, shape: Shape) -> bool
    ensures { result ≡ is_bad limit shape }
{
    shape.dimensions > limit || shape.inverted || shape.elements > 65536
}

#[tactic(auto, using(fm_base::proofs::Least::least_from_append))]
fn judge_shape(limit: usize, line: Line, shape: Shape, best: Option<Refusal>) -> Option<Refusal>
    ensures { result ≡ least_from best (broken_shape limit line.0 shape) }
{
    let best = keep_if(best, is_bad(limit, shape), line, Rule::E32);
    keep_if(best, !shape.known, line, Rule::E33)
}

#[tactic(auto, using(crate::proofs::Shapes::broken_kept))]
fn judge_bounds(
    known: &NameMap<Known>,
    at: usize,
    line: Line,
    bounds: &[Bound],
    best: Option<Refusal>,
) -> Option<Refusal>
    ensures { result ≡ least_from best (broken_bounds known.now at line.0 bounds.now) }
{
    judge_shape(MOST_DIMENSIONS, line, shape_of(known, at, bounds), best)
}

fn judge_decls(
    known: &NameMap<Known>,
    at: usize,
    line: Line,
    decls: &[Decl],
    best: Option<Refusal>,
) -> Option<Refusal>
    ensures { result ≡ least_from best (broken_decls known.now at line.0 decls.now) }
{
    let mut best = best;
    'decls: for decl in decls {
        best = judge_bounds(known, at, line, decl.bounds.as_slice(), best);
    }
    best
}

#[tactic(auto, using(crate::proofs::Shapes::broken_kept))]
fn judge_machine(
    known: &NameMap<Known>,
    at: usize,
    line: Line,
    extents: &[Expr],
    best: Option<Refusal>,
) -> Option<Refusal>
    ensures { result ≡ least_from best (broken_machine known.now at line.0 extents.now) }
{
    judge_shape(MOST_EXTENTS, line, machine_shape(known, at, extents), best)
}

fn is_no_constant(scalar: Option<Scalar>, value: Option<Constant>) -> bool
    ensures { result ≡ is_no_constant scalar value }
{
    match (scalar, value) {
        (Some(scalar), Some(constant)) => !is_of(scalar, constant),
        (None, Some(_)) => false,
        (Some(_), None) => true,
        (None, None) => true,
    }
}

fn judge_definition(
    known: &NameMap<Known>,
    types: &Types,
    at: usize,
    line: Line,
    item: usize,
    definition: &Defined,
    best: Option<Refusal>,
) -> Option<Refusal>
    ensures { result ≡ least_from best (broken_definition known.now types.now at line.0 item definition.now) }
{
    let scalar = scalar_of_name(types, &definition.name);
    let value = value_of(known, at, item, &definition.value);
    keep_if(best, is_no_constant(scalar, value), line, Rule::E33)
}

#[tactic(auto, using(fm_base::proofs::Least::least_from_append))]
fn judge_definitions(
    known: &NameMap<Known>,
    types: &Types,
    at: usize,
    line: Line,
    definitions: &[Defined],
    best: Option<Refusal>,
) -> Option<Refusal>
    ensures { result ≡ least_from best (broken_definitions known.now types.now at line.0 0 definitions.now) }
{
    let mut best = best;
    'definitions: for item in 0..definitions.len() {
        best = judge_definition(known, types, at, line, item, &definitions[item], best);
    }
    best
}

// The bounds of a field. The bound of one that an earlier field sizes needs no constant.
fn judge_extent(
    known: &NameMap<Known>,
    at: usize,
    line: Line,
    size: Option<usize>,
    bounds: &[Bound],
    best: Option<Refusal>,
) -> Option<Refusal>
    ensures { result ≡ least_from best (broken_extent known.now at line.0 size bounds.now) }
{
    match size {
        Some(_) => best,
        None => judge_bounds(known, at, line, bounds, best),
    }
}

#[cycle(judge_type)]
#[tactic(auto, using(fm_base::proofs::Least::least_from_append))]
fn judge_type(
    known: &NameMap<Known>,
    at: usize,
    line: Line,
    port_type: &PortType,
    best: Option<Refusal>,
) -> Option<Refusal>
    ensures { result ≡ least_from best (broken_type known.now at line.0 port_type.now) }
{
    let mut best = keep_if(best, is_long(known, at, port_type), line, Rule::E34);
    let fields = port_type.as_slice();
    'fields: for index in 0..fields.len() {
        let (earlier, _) = fields.split_at(index);
        best = judge_field(known, at, line, earlier, &fields[index], best);
    }
    best
}

#[cycle(judge_type)]
#[tactic(auto, using(fm_base::proofs::Least::least_from_append))]
fn judge_field(
    known: &NameMap<Known>,
    at: usize,
    line: Line,
    earlier: &[Field],
    field: &Field,
    best: Option<Refusal>,
) -> Option<Refusal>
    ensures { result ≡ least_from best (broken_field known.now at line.0 (sizes_of earlier.now) field.now) }
{
    let size = sized_by(earlier, field);
    let best = judge_extent(known, at, line, size, field.bounds.as_slice(), best);
    judge_kind(known, at, line, &field.kind, best)
}

#[cycle(judge_type)]
fn judge_kind(
    known: &NameMap<Known>,
    at: usize,
    line: Line,
    kind: &Kind,
    best: Option<Refusal>,
) -> Option<Refusal>
    ensures { result ≡ least_from best (broken_kind known.now at line.0 (kind_of kind.now)) }
{
    match kind {
        Kind::Integer => best,
        Kind::Logical => best,
        Kind::In(port_type) => judge_type(known, at, line, port_type, best),
        Kind::Out(port_type) => judge_type(known, at, line, port_type, best),
    }
}

fn judge_message(
    known: &NameMap<Known>,
    at: usize,
    line: Line,
    port_type: Option<&PortType>,
    best: Option<Refusal>,
) -> Option<Refusal>
    ensures { result ≡ least_from best (broken_message known.now at line.0 (option_map (λ p. p.now) port_type.entry)) }
{
    match port_type {
        Some(port_type) => judge_type(known, at, line, port_type, best),
        None => best,
    }
}

#[tactic(auto, using(fm_base::proofs::Least::least_from_append))]
fn judge_statement(
    known: &NameMap<Known>,
    types: &Types,
    at: usize,
    placed: &Placed,
    best: Option<Refusal>,
) -> Option<Refusal>
    ensures { result ≡ least_from best (broken_statement known.now types.now at placed.now) }
{
    let (line, stmt) = (placed.line, &placed.stmt);
    let best = judge_decls(known, at, line, decls_of(stmt), best);
    let best = judge_message(known, at, line, port_type_in(stmt), best);
    let best = judge_definitions(known, types, at, line, definitions_in(stmt), best);
    judge_machine(known, at, line, machine_in(stmt), best)
}

/// The earliest of the best so far and of what is broken in the constants, bounds and types of messages of the
/// specification statements of a unit: bad bounds, what is no constant, and messages of too many words. `known` and
/// `types` are of the same statements.
pub fn judge_constants(
    known: &NameMap<Known>,
    types: &Types,
    specs: &[Placed],
    best: Option<Refusal>,
) -> Option<Refusal>
    ensures { result ≡ least_from best (broken_from known.now types.now 0 specs.now) }
{
    let mut best = best;
    'specs: for at in 0..specs.len() {
        best = judge_statement(known, types, at, &specs[at], best);
    }
    best
}
