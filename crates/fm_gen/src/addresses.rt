//! Where entries begin.

ghost use Rattle.std.specs.Prelude.{◌≡◌};
ghost use Rattle.fm_gen.specs.Tables.{address_in};
ghost use Rattle.fm_gen.specs.Statements.{goto};

use fm_code::{End, Instr};

/// Where each entry of a unit begins, and where its code ends.
#[derive(Clone, Copy)]
pub struct Addresses<'a> {
    /// By the number of the entry.
    pub starts: &'a [u32],
    /// Behind the last instruction.
    pub end: u32,
}

impl Addresses<'_> {
    ghost use Rattle.fm_gen.specs.Tables.{address_by};

    /// Where an entry begins.
    pub fn of(&self, entry: u32) -> u32
        ensures { result ≡ address_by self.now entry }
    {
        match self.starts.get(entry as usize) {
            Some(start) => *start,
            None => self.end,
        }
    }
}

/// Goes on at an address.
pub(crate) fn goto(address: u32) -> Instr
    ensures { result ≡ goto address }
{
    Instr::End(End::Goto(address))
}
