//! The types of ports, each once.

ghost use Rattle.std.specs.Prelude.{◌≡◌, [], IfOk, OnOk};
ghost use Rattle.fm_image.specs.Types.{number_of, with_type};

use fm_base::{NoMemory, Seq};
use fm_object::FieldImage;
use indexmap::IndexSet;
use std::alloc::Global;
use std::marker::Model;

/// Types of ports, each once, in the order in which they came. Contracts see the list of them, each as its fields.
pub(crate) struct Types {
    types: IndexSet<Seq<FieldImage>>,
}

impl Drop for Types {
    fn drop(self) {
        let Types { types: _types } = self;
    }
}

impl Model for Types {
    ghost use Rattle.std.specs.Prelude.{List};
    ghost use Rattle.fm_object.specs.declared.image.FieldImage.{FieldImage};

    ghost Value = { List (List FieldImage) };

    ghost view = { λ t. t.types.keys };
}

/// A number that has 32 bits; the only error is want of memory, for the others.
pub(crate) fn short(number: usize) -> Result<u32, NoMemory>
    ensures { IfOk result (λ n. n ≡ number) }
{
    u32::try_from(number).map_err(|_| NoMemory)
}

impl Types {
    /// No types. Takes no memory.
    pub(crate) fn new(alloc: Global) -> Types
        ensures { result ≡ [] }
    {
        Types {
            types: IndexSet::new(alloc),
        }
    }

    /// The number of a type, which is put behind the others where it isn't among them. Want of memory also where the
    /// number has more than 32 bits.
    pub(crate) fn number(&mut self, fields: Seq<FieldImage>) -> Result<u32, NoMemory>
        ensures types { OnOk result (self.new ≡ with_type self.old fields) }
        ensures number { IfOk result (λ n. n ≡ number_of self.new fields) }
    {
        let (number, _) = self.types.insert_full(fields)?;
        short(number)
    }

    /// The types, in the order of their numbers.
    pub(crate) fn into_seq(self, alloc: Global) -> Result<Seq<Seq<FieldImage>>, NoMemory>
        ensures { IfOk result (λ s. s ≡ self) }
    {
        let Types { types } = self;
        let mut all = Seq::new(alloc);
        'types: for fields in types {
            all.push(fields)?;
        }
        Ok(all)
    }
}
