//! Lines, labels and names of a source text.

ghost use Rattle.std.specs.Prelude.{◌≡◌, IfOk};

use crate::memory::NoMemory;
use crate::seq::Seq;
use std::alloc::Global;
use std::hash::Hash;
use std::marker::Model;

/// The number of a line of the source, from 1.
#[derive(Clone, Copy, PartialEq, Eq, PartialOrd, Ord)]
pub struct Line(pub u32);

/// A statement label: the number that its digits make.
#[derive(Clone, Copy, PartialEq, Eq, PartialOrd, Ord)]
pub struct Label(pub u32);

/// A symbolic name, in upper case. Contracts see it as its bytes.
#[derive(PartialEq, Eq, PartialOrd, Ord, Hash)]
pub struct Name {
    /// The bytes, in upper case.
    pub bytes: Seq<u8>,
}

impl Drop for Name {
    fn drop(self) {
        let Name { bytes: _bytes } = self;
    }
}

impl Model for Name {
    ghost use Rattle.std.specs.Prelude.{List, ℕ};

    ghost Value = { List ℕ };

    ghost view = { λ n. n.bytes };

    ghost inverse = { λ bytes. record { bytes = bytes } };
}

impl Name {
    /// The name of these bytes.
    pub fn from_bytes(alloc: Global, bytes: &[u8]) -> Result<Name, NoMemory>
        ensures { IfOk result (λ n. n ≡ bytes.now) }
    {
        Ok(Name {
            bytes: Seq::from_slice(alloc, bytes)?,
        })
    }

    /// The bytes.
    pub fn as_bytes(&self) -> &[u8]
        ensures { result.now ≡ self.now }
    {
        self.bytes.as_slice()
    }

    /// The same name once more.
    pub fn copy(&self, alloc: Global) -> Result<Name, NoMemory>
        ensures { IfOk result (λ n. n ≡ self.now) }
    {
        Name::from_bytes(alloc, self.bytes.as_slice())
    }
}
