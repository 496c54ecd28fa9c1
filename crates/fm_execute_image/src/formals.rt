//! The formals of a unit, by their places.

ghost use Rattle.std.specs.Prelude.{◌≡◌, ◌++◌, ◌≤◌, IfOk, OnOk, map};
ghost use Rattle.fm_code_kinds.specs.Bodies.{formal_of};
ghost use Rattle.fm_code_kinds.specs.Shapes.{formal_at};
ghost use Rattle.fm_image_typed.specs.Codes.{formal_in, formals_from};
ghost use Rattle.fm_image_typed.specs.Shapes.{cell_of};
ghost use Rattle.fm_image_typed.specs.Typed.{how_many, is_formal};

use crate::words::span_of;
use fm_base::{NoMemory, Seq};
use fm_code::Formal;
use fm_code_kinds::Cell;
use fm_object::UnitImage;
use fm_verify::{count_formals, known_unit};
use fm_verify_unit::{KnownUnit, is_word};
use std::alloc::Global;

/// What code tells of a variable that is a formal.
fn formal_of(cell: Cell) -> Formal
    ensures { result ≡ formal_of cell }
{
    Formal {
        span: span_of(cell),
        port: !is_word(cell.sort),
        input: !cell.back,
    }
}

/// Adds the formal with this place, where there is one.
fn add_formal(unit: &KnownUnit, place: usize, formals: &mut Seq<Formal>) -> Result<(), NoMemory>
    requires { 1 ≤ place }
    ensures { OnOk result (formals.new ≡ formals.old ++ formal_in (formal_at unit.now.cells place)) }
{
    match unit.formal_at(place) {
        None => Ok(()),
        Some(cell) => formals.push(formal_of(cell)),
    }
}

/// The formals with the places from 1 on, as many places as there are formals.
pub(crate) fn formals_of(alloc: Global, unit: &UnitImage) -> Result<Seq<Formal>, NoMemory>
    ensures { IfOk result
        (λ formals. formals ≡ formals_from (map cell_of unit.now.cells) 1 (how_many is_formal unit.now.cells)) }
{
    let known = known_unit(alloc, unit)?;
    let count = count_formals(unit.cells.as_slice());
    let mut formals = Seq::new(alloc);
    'formals: for before in 0..count {
        add_formal(&known, before + 1, &mut formals)?;
    }
    Ok(formals)
}
