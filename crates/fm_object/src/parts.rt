//! What stands in an object, part by part.

ghost use Rattle.std.specs.Prelude.{◌≡◌, codes};
ghost use Rattle.fm_object.specs.Reading.{Gives, cell_line, count_line, entry_line, field_line, instr_line, one_line, type_read, unit_read};
ghost use Rattle.fm_object.specs.Shapes.{place_of};

use crate::fail::ObjectFail;
use crate::image::{Cell, FieldImage, UnitImage};
use crate::lines::{
    CellLine, cell_line, count_line, entry_line, field_line, instr_line, unit_line,
};
use crate::many::{Front, Part, lined, many};
use fm_base::{Name, Seq};
use fm_code::{Entry, Instr};
use std::alloc::Global;

/// The fields of a type.
pub(crate) struct Fields;

impl Part for Fields {
    type Item = FieldImage;

    ghost reads = { one_line field_line };

    fn read_one(_alloc: Global, front: Front<'_>) -> Result<(FieldImage, Front<'_>), ObjectFail> {
        lined(front.line, field_line(front.rest))
    }
}

/// The extents of a unit.
pub(crate) struct Extents;

impl Part for Extents {
    type Item = u32;

    ghost reads = { one_line (count_line (codes "extent ")) };

    fn read_one(_alloc: Global, front: Front<'_>) -> Result<(u32, Front<'_>), ObjectFail> {
        lined(front.line, count_line(b"extent ", front.rest))
    }
}

/// The variables of a unit.
pub(crate) struct Cells;

impl Part for Cells {
    type Item = Cell;

    ghost reads = { one_line cell_line };

    fn read_one(alloc: Global, front: Front<'_>) -> Result<(Cell, Front<'_>), ObjectFail> {
        let (line, behind) = lined(front.line, cell_line(front.rest))?;
        let CellLine {
            name,
            kind,
            of,
            first,
            words,
            formal,
            back,
        } = line;
        let name = Name::from_bytes(alloc, name)?;
        Ok((
            Cell {
                name,
                kind,
                of,
                first,
                words,
                formal,
                back,
            },
            behind,
        ))
    }
}

/// The statements of a unit.
pub(crate) struct Entries;

impl Part for Entries {
    type Item = Entry;

    ghost reads = { one_line entry_line };

    fn read_one(_alloc: Global, front: Front<'_>) -> Result<(Entry, Front<'_>), ObjectFail> {
        lined(front.line, entry_line(front.rest))
    }
}

/// The instructions of a unit.
pub(crate) struct Instrs;

impl Part for Instrs {
    type Item = Instr;

    ghost reads = { one_line instr_line };

    fn read_one(_alloc: Global, front: Front<'_>) -> Result<(Instr, Front<'_>), ObjectFail> {
        lined(front.line, instr_line(front.rest))
    }
}

/// The types of ports.
pub(crate) struct Types;

impl Part for Types {
    type Item = Seq<FieldImage>;

    ghost reads = { type_read };

    #[tactic(auto, unfolding(crate::specs::Reading::type_read))]
    fn read_one(
        alloc: Global,
        front: Front<'_>,
    ) -> Result<(Seq<FieldImage>, Front<'_>), ObjectFail> {
        let (count, behind) = lined(front.line, count_line(b"type ", front.rest))?;
        many::<Fields>(alloc, count, behind)
    }
}

/// The units.
pub(crate) struct Units;

impl Part for Units {
    type Item = UnitImage;

    ghost reads = { unit_read };

    #[tactic(auto, unfolding(crate::specs::Reading::unit_read))]
    fn read_one(alloc: Global, front: Front<'_>) -> Result<(UnitImage, Front<'_>), ObjectFail> {
        let (counts, behind) = lined(front.line, unit_line(front.rest))?;
        let (extents, behind) = many::<Extents>(alloc, counts.extents, behind)?;
        let (cells, behind) = many::<Cells>(alloc, counts.cells, behind)?;
        let (entries, behind) = many::<Entries>(alloc, counts.entries, behind)?;
        let (code, behind) = many::<Instrs>(alloc, counts.code, behind)?;
        Ok((
            UnitImage {
                heading: counts.heading,
                extents,
                cells,
                entries,
                code,
            },
            behind,
        ))
    }
}
