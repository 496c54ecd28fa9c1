//! What is known of units beside their code, ready to be searched.

ghost use Rattle.std.specs.Prelude.{◌≡◌, ℕ, ◌+◌, ◌≤◌, ◌<◌, true, Some, IfOk, length, nat_le, slice_get};
ghost use Rattle.std.specs.Option.{option_copied};
ghost use Rattle.fm_code_kinds.specs.Shapes.{fields_of, formal_at};
ghost use Rattle.fm_verify_unit.specs.Ends.{cell_end, first_past, rise_from};
ghost use Rattle.fm_verify_unit.specs.Formals.{HasFormals, with_formal};

use fm_base::{NoMemory, Seq};
use fm_code::front;
use fm_code_kinds::{Cell, Field, Heading};
use std::alloc::Global;
use std::marker::Model;

/// The number behind the last word of a variable.
pub(crate) fn end_of(cell: Cell) -> u64
    ensures { result ≡ cell.first + cell.words }
{
    u64::from(cell.first) + u64::from(cell.words)
}

/// Whether the variable doesn't end before this word.
fn ends_from(low: u64, cell: Cell) -> bool
    ensures { result ≡ nat_le low (cell_end cell) }
{
    low <= end_of(cell)
}

/// Whether no variable ends before an earlier one does.
fn ends_rise(cells: &[Cell]) -> bool
    ensures { result ≡ rise_from 0 cells.now }
{
    let mut rest = cells;
    let mut low = 0u64;
    'cells: while let Some((cell, behind)) = front(rest) {
        if !ends_from(low, cell) {
            return false;
        }
        low = end_of(cell);
        rest = behind;
    }
    true
}

/// The first variable that ends behind the word.
fn first_in_turn(cells: &[Cell], first: u64) -> Option<Cell>
    ensures { result ≡ first_past cells.now first }
{
    let mut rest = cells;
    'cells: while let Some((cell, behind)) = front(rest) {
        if first < end_of(cell) {
            return Some(cell);
        }
        rest = behind;
    }
    None
}

/// The variable at this place.
fn cell_at(cells: &[Cell], place: usize) -> Option<Cell>
    ensures { result ≡ slice_get cells.now place }
{
    cells.get(place).copied()
}

/// The first that ends behind the word, where the variables' ends rise.
fn first_by_halves(cells: &[Cell], first: u64) -> Option<Cell>
    requires { rise_from 0 cells.now ≡ true }
    ensures { result ≡ first_past cells.now first }
{
    let at = cells.partition_point(
        |cell: &Cell| -> bool
            ensures { result ≡ nat_le (cell_end cell.now) first }
        { end_of(*cell) <= first },
    );
    cell_at(cells, at)
}

/// The formal with this place, by looking at each variable.
fn formal_in_turn(cells: &[Cell], place: usize) -> Option<Cell>
    ensures { result ≡ formal_at cells.now place }
{
    let mut rest = cells;
    'cells: while let Some((cell, behind)) = front(rest) {
        if cell.formal as usize == place {
            return Some(cell);
        }
        rest = behind;
    }
    None
}

/// Puts a formal at its place.
fn put_formal(formals: &mut Seq<Option<Cell>>, cell: Cell)
    ensures { formals.new ≡ with_formal formals.old cell cell.formal }
{
    let Some(place) = (cell.formal as usize).checked_sub(1) else {
        return;
    };
    if place < formals.len() {
        formals.set(place, Some(cell));
    }
}

/// The variable at a place that there is.
fn cell_there(cells: &[Cell], place: usize) -> Cell
    requires { place < length cells.now }
    ensures { slice_get cells.now place ≡ Some result }
{
    cells[place]
}

/// The formals by their places, as many places as there are variables.
fn formals_of(alloc: Global, cells: &[Cell]) -> Result<Seq<Option<Cell>>, NoMemory>
    ensures { IfOk result (λ formals. HasFormals formals cells.now) }
{
    let mut formals = Seq::new(alloc);
    formals.refill(cells.len(), None)?;
    'places: for place in (0..cells.len()).rev() {
        put_formal(&mut formals, cell_there(cells, place));
    }
    Ok(formals)
}

/// The variables of a unit, ready to be searched by their words, and by their places among the formals. Contracts see
/// their list.
pub(crate) struct Cells {
    cells: Seq<Cell>,
    // whether their ends rise, so that they can be searched by halves
    rise: bool,
    // the formals with the first places
    formals: Seq<Option<Cell>>,
}

impl Drop for Cells {
    fn drop(self) {
        let Cells {
            cells: _cells,
            rise: _rise,
            formals: _formals,
        } = self;
    }
}

impl Model for Cells {
    ghost use Rattle.std.specs.Prelude.{◌≡◌, List};
    ghost use Rattle.fm_code_kinds.specs.declared.sorts.Cell.{Cell};
    ghost use Rattle.fm_verify_unit.specs.Ends.{rise_from};
    ghost use Rattle.fm_verify_unit.specs.Formals.{HasFormals};

    ghost Value = { List Cell };

    ghost view = { λ s. s.cells };

    ghost invariant = { λ s. (s.rise ≡ rise_from 0 s.cells) × HasFormals s.formals s.cells };
}

impl Cells {
    /// These.
    fn new(alloc: Global, cells: Seq<Cell>) -> Result<Cells, NoMemory>
        ensures { IfOk result (λ all. all ≡ cells) }
    {
        let rise = ends_rise(cells.as_slice());
        let formals = formals_of(alloc, cells.as_slice())?;
        Ok(Cells {
            cells,
            rise,
            formals,
        })
    }

    /// The first variable that ends behind the word.
    pub(crate) fn first_past(&self, first: u64) -> Option<Cell>
        ensures { result ≡ first_past self.now first }
    {
        if self.rise {
            first_by_halves(self.cells.as_slice(), first)
        } else {
            first_in_turn(self.cells.as_slice(), first)
        }
    }

    /// The formal with this place, from 1.
    pub(crate) fn formal_at(&self, place: usize) -> Option<Cell>
        requires { 1 ≤ place }
        ensures { result ≡ formal_at self.now place }
    {
        match self.formals.get(place - 1) {
            Some(formal) => formal,
            None => formal_in_turn(self.cells.as_slice(), place),
        }
    }
}

/// What is known of a unit beside its code, ready to be searched. Contracts see its shape.
pub struct KnownUnit {
    heading: Heading,
    cells: Cells,
}

impl Drop for KnownUnit {
    fn drop(self) {
        let KnownUnit {
            heading: _heading,
            cells: _cells,
        } = self;
    }
}

impl Model for KnownUnit {
    ghost use Rattle.fm_code_kinds.specs.declared.sorts.Shape.{Shape};

    ghost Value = { Shape };

    ghost view = { λ s. record { heading = s.heading; cells = s.cells } };
}

impl KnownUnit {
    /// A unit that is this, with these variables.
    ///
    /// # Errors
    /// `NoMemory` is want of memory.
    pub fn new(alloc: Global, heading: Heading, cells: Seq<Cell>) -> Result<KnownUnit, NoMemory>
        ensures { IfOk result (λ unit. unit ≡ record { heading = heading; cells = cells }) }
    {
        Ok(KnownUnit {
            heading,
            cells: Cells::new(alloc, cells)?,
        })
    }

    /// What it is.
    pub(crate) fn heading(&self) -> Heading
        ensures { result ≡ self.now.heading }
    {
        self.heading
    }

    /// Its variables.
    pub(crate) fn cells(&self) -> &Cells
        ensures { result.now ≡ self.now.cells }
    {
        &self.cells
    }

    /// The formal with this place, from 1.
    pub fn formal_at(&self, place: usize) -> Option<Cell>
        requires { 1 ≤ place }
        ensures { result ≡ formal_at self.now.cells place }
    {
        self.cells.formal_at(place)
    }
}

/// What is known of all units, ready to be searched. Contracts see their shapes.
pub struct Known {
    types: Seq<Seq<Field>>,
    units: Vec<KnownUnit>,
}

impl Drop for Known {
    fn drop(self) {
        let Known {
            types: _types,
            units: _units,
        } = self;
    }
}

impl Model for Known {
    ghost use Rattle.fm_code_kinds.specs.declared.sorts.Shapes.{Shapes};

    ghost Value = { Shapes };

    ghost view = { λ s. record { types = s.types; units = s.units.items } };
}

impl Known {
    /// These types of ports and these units.
    pub fn new(types: Seq<Seq<Field>>, units: Vec<KnownUnit>) -> Known
        ensures { result ≡ record { types = types; units = units.items } }
    {
        Known { types, units }
    }

    /// The unit with this number, from 0.
    pub fn unit(&self, number: usize) -> Option<&KnownUnit>
        ensures { option_copied result ≡ slice_get self.now.units number }
    {
        self.units.as_slice().get(number)
    }

    /// The fields of a type.
    pub(crate) fn fields_of(&self, of: u32) -> &[Field]
        ensures { result.now ≡ fields_of self.now of }
    {
        match self.types.as_slice().get(of as usize) {
            Some(fields) => fields.as_slice(),
            None => &[],
        }
    }
}
