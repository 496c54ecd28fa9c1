//! The variables of a unit.

ghost use Rattle.std.specs.Prelude.{◌≡◌, ◌+◌, [], IfOk, MatchOption, true, false, map};
ghost use Rattle.fm_code_kinds.specs.Shapes.{words_of};
ghost use Rattle.fm_image_typed.specs.Shapes.{cell_of};
ghost use Rattle.fm_image_typed.specs.Typed.{how_many, is_formal};
ghost use Rattle.fm_verify.specs.Tests.{all_taken, are_apart, are_cells, fill, have_places, is_cell, with_place};
ghost use Rattle.fm_verify.specs.Telling.{taken_by};

use crate::types::{has_type, one_where};
use fm_base::{NoMemory, Seq, is_name_text};
use fm_object::Cell;
use indexmap::IndexSet;
use std::alloc::Global;

/// Whether the variable is a formal.
fn is_formal(cell: &Cell) -> bool
    ensures { result ≡ is_formal cell.now }
{
    cell.formal != 0
}

/// Whether the variable makes sense where it begins at this word.
fn is_cell(types: usize, word: u64, cell: &Cell) -> bool
    ensures { result ≡ is_cell types word cell.now }
{
    is_name_text(cell.name.as_bytes())
        && (has_type(cell.kind, cell.of, types)
            && (u64::from(cell.first) == word
                && (1 <= cell.words && (cell.back <= 1 && (cell.back == 0 || is_formal(cell))))))
}

/// The number behind the last word of a variable.
fn end_of(cell: &Cell) -> u64
    ensures { result ≡ cell.now.first + cell.now.words }
{
    u64::from(cell.first) + u64::from(cell.words)
}

/// The words of the frame, where the variables make sense and have them one behind the other.
pub(crate) fn frame_of(types: usize, cells: &[Cell]) -> Option<u32>
    ensures { MatchOption result
        (are_cells types 0 cells.now ≡ false)
        (λ frame. (are_cells types 0 cells.now ≡ true) × (frame ≡ words_of (map cell_of cells.now))) }
{
    let mut word = 0u64;
    'cells: for cell in cells {
        if !is_cell(types, word, cell) {
            return None;
        }
        word = end_of(cell);
    }
    if word <= 65_536 {
        Some(word as u32)
    } else {
        None
    }
}

/// Whether no name stands twice.
pub(crate) fn are_apart(alloc: Global, cells: &[Cell]) -> Result<bool, NoMemory>
    ensures { IfOk result (λ apart. apart ≡ are_apart [] cells.now) }
{
    let mut names = IndexSet::new(alloc);
    'cells: for cell in cells {
        if !names.insert(cell.name.copy(alloc)?)? {
            return Ok(false);
        }
    }
    Ok(true)
}

/// How many formals there are.
#[tactic(auto, using(crate::proofs::Counts::one_more))]
pub fn count_formals(cells: &[Cell]) -> usize
    ensures { result ≡ how_many is_formal cells.now }
{
    let mut count = 0usize;
    'cells: for cell in cells {
        count += one_where(is_formal(cell));
    }
    count
}

/// Takes the place of a formal; whether it was there and free.
fn take_place(taken: &mut Seq<bool>, formal: u32) -> bool
    ensures { taken_by result taken.new ≡ with_place taken.old formal }
{
    if formal == 0 {
        return true;
    }
    let place = formal as usize - 1;
    match taken.get(place) {
        Some(false) => {
            taken.set(place, true);
            true
        }
        Some(true) | None => false,
    }
}

/// Whether all places are taken.
fn all_taken(taken: &[bool]) -> bool
    ensures { result ≡ all_taken taken.now }
{
    'places: for there in taken {
        if !*there {
            return false;
        }
    }
    true
}

/// Whether the formals have the places from 1 to their number, each once.
pub(crate) fn have_places(alloc: Global, cells: &[Cell]) -> Result<bool, NoMemory>
    ensures { IfOk result (λ so. so ≡ have_places cells.now) }
{
    let mut taken = Seq::new(alloc);
    taken.refill(count_formals(cells), false)?;
    'cells: for cell in cells {
        if !take_place(&mut taken, cell.formal) {
            return Ok(false);
        }
    }
    Ok(all_taken(taken.as_slice()))
}
