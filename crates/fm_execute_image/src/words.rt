//! The words of a frame.

ghost use Rattle.std.specs.Prelude.{◌≡◌, IfOk, map};
ghost use Rattle.fm_code_kinds.specs.Shapes.{cell_span, words_of};
ghost use Rattle.fm_image_typed.specs.Codes.{ports_of};
ghost use Rattle.fm_image_typed.specs.Shapes.{cell_of};

use fm_base::{NoMemory, Seq};
use fm_code::Span;
use fm_object::Cell;
use fm_verify::cell_of;
use fm_verify_unit::is_word;
use std::alloc::Global;

/// The words of a variable.
pub(crate) fn span_of(cell: fm_code_kinds::Cell) -> Span
    ensures { result ≡ cell_span cell }
{
    Span {
        first: cell.first,
        count: cell.words,
    }
}

/// How many words the variables have. Want of memory also where no frame can have so many.
pub(crate) fn words_of(cells: &[Cell]) -> Result<u32, NoMemory>
    ensures { IfOk result (λ words. words ≡ words_of (map cell_of cells.now)) }
{
    let mut words = 0u32;
    'cells: for cell in cells {
        words = words.checked_add(cell.words).ok_or(NoMemory)?;
    }
    Ok(words)
}

/// The words of all ports.
pub(crate) fn ports_of(alloc: Global, cells: &[Cell]) -> Result<Seq<Span>, NoMemory>
    ensures { IfOk result (λ ports. ports ≡ ports_of (map cell_of cells.now)) }
{
    let mut ports = Seq::new(alloc);
    'cells: for cell in cells {
        let known = cell_of(cell);
        if !is_word(known.sort) {
            ports.push(span_of(known))?;
        }
    }
    Ok(ports)
}
