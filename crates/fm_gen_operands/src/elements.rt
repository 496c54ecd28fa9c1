//! The code of elements of arrays, behind that of their subscripts.

ghost use Rattle.std.specs.Prelude.{◌≡◌, ◌++◌, IfOk, OnOk};
ghost use Rattle.fm_values.specs.Places.{extent};
ghost use Rattle.fm_gen_operands.specs.Code.{dimension_code, dimensions_code, element_code, has_elements, no_element, place_code, port_code};

use crate::variables::push;
use fm_base::{NoMemory, Op, Seq};
use fm_code::{Eval, Instr};
use fm_symbols::Variable;
use fm_tree::Kind;

fn extent(low: i64, high: i64) -> Result<u32, NoMemory>
    ensures { IfOk result (λ e. e ≡ extent (low, high)) }
{
    if high < low {
        return Ok(0);
    }
    match u32::try_from(high.abs_diff(low)) {
        Ok(last) => last.checked_add(1).ok_or(NoMemory),
        Err(_) => Err(NoMemory),
    }
}

/// The instruction for the subscript of a dimension, in front of these others.
fn dimension(others: &[(i64, i64)], bounds: (i64, i64)) -> Result<Instr, NoMemory>
    ensures { IfOk result (λ i. i ≡ dimension_code others.now bounds) }
{
    let extent = extent(bounds.0, bounds.1)?;
    if others.is_empty() {
        Ok(Instr::Eval(Eval::Subscript(bounds.0, extent)))
    } else {
        Ok(Instr::Eval(Eval::Dimension(bounds.0, extent)))
    }
}

/// Adds what makes a place of subscripts, from the last dimension to the first.
pub fn dimensions(bounds: &[(i64, i64)], out: &mut Seq<Instr>) -> Result<(), NoMemory>
    ensures { OnOk result (out.new ≡ out.old ++ dimensions_code bounds.now) }
{
    let mut place = bounds.len();
    'dimensions: while place > 0 {
        let (_, others) = bounds.split_at(place);
        place -= 1;
        out.push(dimension(others, bounds[place])?)?;
    }
    Ok(())
}

/// Adds what fails with Subscript.
pub fn no_element(out: &mut Seq<Instr>) -> Result<(), NoMemory>
    ensures { OnOk result (out.new ≡ out.old ++ no_element) }
{
    out.push(push(0))?;
    out.push(Instr::Eval(Eval::Subscript(0, 0)))
}

/// Whether an array has so many dimensions as there are subscripts, and has an element.
pub fn has_elements(variable: &Variable, subscripts: usize) -> bool
    ensures { result ≡ has_elements variable.now subscripts }
{
    subscripts == variable.bounds.len() && variable.words > 0
}

fn value(kind: &Kind, first: u32, out: &mut Seq<Instr>) -> Result<(), NoMemory>
    ensures { OnOk result (out.new ≡ out.old ++ element_code kind.now first) }
{
    match kind {
        Kind::Integer => out.push(Instr::Eval(Eval::Element(first))),
        Kind::Logical => out.push(Instr::Eval(Eval::Element(first))),
        Kind::In(_) => port_value(out),
        Kind::Out(_) => port_value(out),
    }
}

/// Adds what makes 0 of a place.
fn port_value(out: &mut Seq<Instr>) -> Result<(), NoMemory>
    ensures { OnOk result (out.new ≡ out.old ++ port_code) }
{
    out.push(push(0))?;
    out.push(Instr::Eval(Eval::Apply(Op::Mul)))
}

/// Adds what makes the value of an element of its subscripts.
pub fn element(variable: &Variable, subscripts: usize, out: &mut Seq<Instr>) -> Result<(), NoMemory>
    ensures { OnOk result
        (out.new ≡ out.old ++ place_code variable.now subscripts (element_code variable.now.kind variable.now.first)) }
{
    if has_elements(variable, subscripts) {
        dimensions(variable.bounds.as_slice(), out)?;
        value(&variable.kind, variable.first, out)
    } else {
        no_element(out)
    }
}
