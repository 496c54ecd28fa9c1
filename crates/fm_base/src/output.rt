//! The lines that PRINT and WRITE make.

ghost use Rattle.std.specs.Prelude.{◌≡◌, ◌++◌, IfOk, OnOk};
ghost use Rattle.fm_base.specs.Output.{printed_text, spaced_text, line_text};

use crate::memory::NoMemory;
use crate::seq::Seq;
use std::alloc::Global;

/// What stands before each item.
const BLANK: u8 = b' ';

/// An item of a printed line.
#[derive(Drop)]
pub enum Printed {
    /// An integer, in decimal.
    Number(i64),
    /// A logical, as `T` or `F`.
    Truth(bool),
    /// A character constant, as it is.
    Text(Seq<u8>),
}

fn push_item(alloc: Global, out: &mut Vec<u8>, item: &Printed) -> Result<(), NoMemory>
    ensures { OnOk result (out.new.items ≡ out.old.items ++ printed_text item.now) }
{
    match item {
        Printed::Number(n) => out.extend_from_slice(n.to_string(alloc)?.as_bytes())?,
        Printed::Truth(true) => out.push(b'T')?,
        Printed::Truth(false) => out.push(b'F')?,
        Printed::Text(bytes) => out.extend_from_slice(bytes.as_slice())?,
    }
    Ok(())
}

fn push_spaced(alloc: Global, out: &mut Vec<u8>, item: &Printed) -> Result<(), NoMemory>
    ensures { OnOk result (out.new.items ≡ out.old.items ++ spaced_text item.now) }
{
    out.push(BLANK)?;
    push_item(alloc, out, item)
}

/// The bytes of an output line, without its line feed: a blank before each item, and one blank
/// where there is none.
pub fn output_line(alloc: Global, items: &[Printed]) -> Result<Vec<u8>, NoMemory>
    ensures { IfOk result (λ v. v.items ≡ line_text items.now) }
{
    let mut out = Vec::new(alloc);
    if items.is_empty() {
        out.push(BLANK)?;
        return Ok(out);
    }
    for item in items {
        push_spaced(alloc, &mut out, item)?;
    }
    Ok(out)
}
