//! The text of a list of statements.

ghost use Rattle.std.specs.Prelude.{◌≡◌, ◌++◌, ◌∷◌, [], IfOk, OnOk};
ghost use Rattle.fmc.specs.Listing.{right_in, label_text, listed_line, listed_text};

use fm_base::{Label, NoMemory};
use fm_tree::Placed;
use fm_tree_spell::spell_text;
use std::alloc::Global;

/// The columns of a line number.
const LINE_WIDTH: usize = 6;

/// The columns of a label.
const LABEL_WIDTH: usize = 5;

// Puts a text to the right in so many columns, and a blank behind it.
fn push_field(alloc: Global, out: &mut Vec<u8>, width: usize, text: &[u8]) -> Result<(), NoMemory>
    ensures { OnOk result (out.new.items ≡ out.old.items ++ (right_in width text.now ++ 32 ∷ [])) }
{
    let blanks = vec![in alloc; b' '; width.saturating_sub(text.len())]?;
    out.extend_from_slice(&blanks)?;
    out.extend_from_slice(text)?;
    out.push(b' ')?;
    Ok(())
}

fn push_label(alloc: Global, out: &mut Vec<u8>, label: Option<Label>) -> Result<(), NoMemory>
    ensures { OnOk result (out.new.items ≡ out.old.items ++ (label_text label ++ 32 ∷ [])) }
{
    match label {
        Some(label) => push_field(
            alloc,
            out,
            LABEL_WIDTH,
            label.0.to_string(alloc)?.as_bytes(),
        ),
        None => push_field(alloc, out, LABEL_WIDTH, b""),
    }
}

fn push_statement(alloc: Global, out: &mut Vec<u8>, placed: &Placed) -> Result<(), NoMemory>
    ensures { OnOk result (out.new.items ≡ out.old.items ++ listed_line placed.now) }
{
    let line = placed.line.0.to_string(alloc)?;
    push_field(alloc, out, LINE_WIDTH, line.as_bytes())?;
    push_label(alloc, out, placed.label)?;
    out.extend_from_slice(&spell_text(alloc, &placed.stmt)?)?;
    out.push(b'\n')?;
    Ok(())
}

/// A line for each statement: its line in 6 columns, its label in 5, and its spelling.
pub fn list_text(alloc: Global, statements: &[Placed]) -> Result<Vec<u8>, NoMemory>
    ensures { IfOk result (λ v. v.items ≡ listed_text statements.now) }
{
    let mut out = Vec::new(alloc);
    for placed in statements {
        push_statement(alloc, &mut out, placed)?;
    }
    Ok(out)
}
