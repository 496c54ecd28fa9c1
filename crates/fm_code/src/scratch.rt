//! What a statement builds before it ends.

ghost use Rattle.std.specs.Prelude.{◌≡◌};
ghost use Rattle.fm_code.specs.Acts.{nothing};

use crate::ask::Operand;
use crate::instr::Loop;
use fm_base::{Printed, Seq};
use std::alloc::Global;

/// Where a process is to be put.
#[derive(Drop)]
pub enum Place {
    /// Where its parent is.
    Here,
    /// At a location of the machine, by its subscripts.
    Location(Seq<i64>),
    /// On a part of the machine, from one node to another.
    Submachine(i64, i64),
}

/// What a statement builds before it ends.
pub struct Scratch {
    /// The bytes of a character constant.
    pub text: Seq<u8>,
    /// The items of a line.
    pub line: Seq<Printed>,
    /// The operands of a call, of a message or of a start.
    pub operands: Seq<Operand>,
    /// The word of IOSTAT.
    pub status: Option<u32>,
    /// The loop that the statement begins, or a trip of which it ends.
    pub counts: Option<Loop>,
    /// Where a process is to be put.
    pub place: Place,
}

impl Drop for Scratch {
    fn drop(self) {
        let Scratch {
            text: _text,
            line: _line,
            operands: _operands,
            status: _status,
            counts: _counts,
            place: _place,
        } = self;
    }
}

impl Scratch {
    /// Nothing is built yet. Takes no memory.
    pub fn new(alloc: Global) -> Scratch
        ensures { result ≡ nothing }
    {
        Scratch {
            text: Seq::new(alloc),
            line: Seq::new(alloc),
            operands: Seq::new(alloc),
            status: None,
            counts: None,
            place: Place::Here,
        }
    }

    /// Takes all that was built.
    pub fn clear(&mut self)
        ensures { self.new ≡ nothing }
    {
        self.text.clear();
        self.line.clear();
        self.operands.clear();
        self.status = None;
        self.counts = None;
        self.place = Place::Here;
    }
}
