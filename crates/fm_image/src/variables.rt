//! Variables of units, by the words of their frames.

ghost use Rattle.std.specs.Prelude.{◌≡◌, IfOk, OnOk};
ghost use Rattle.fm_tree.specs.PortReading.{kind_of};
ghost use Rattle.fm_image.specs.ImageOf.{back_of, cell_image, cells_image};
ghost use Rattle.fm_image.specs.Types.{needed_among, needed_by};

use crate::fields::{kind_number, type_number};
use crate::types::Types;
use fm_base::{NoMemory, Seq};
use fm_object::Cell;
use fm_symbols::Variable;
use std::alloc::Global;

fn back(variable: &Variable) -> u32
    ensures { result ≡ back_of variable.now }
{
    if variable.formal == 0 || variable.input {
        0
    } else {
        1
    }
}

fn cell(alloc: Global, types: &mut Types, variable: &Variable) -> Result<Cell, NoMemory>
    ensures types { OnOk result (types.new ≡ needed_by types.old (kind_of variable.now.kind)) }
    ensures cell { IfOk result (λ c. c ≡ cell_image types.new variable.now) }
{
    let of = type_number(alloc, types, &variable.kind)?;
    Ok(Cell {
        name: variable.name.copy(alloc)?,
        kind: kind_number(&variable.kind),
        of,
        first: variable.first,
        words: variable.words,
        formal: variable.formal,
        back: back(variable),
    })
}

/// What is said of these variables; the types that they need are put behind those that are there.
pub(crate) fn cells(
    alloc: Global,
    types: &mut Types,
    variables: &[Variable],
) -> Result<Seq<Cell>, NoMemory>
    ensures types { OnOk result (types.new ≡ needed_among types.old variables.now) }
    ensures cells { IfOk result (λ c. c ≡ cells_image types.new variables.now) }
{
    let mut cells = Seq::new(alloc);
    'variables: for variable in variables {
        cells.push(cell(alloc, types, variable)?)?;
    }
    Ok(cells)
}
