//! Why bytes were not read as an object.

use fm_base::{Line, NoMemory};
use std::alloc::AllocFailed;
use std::fmt;
use thiserror::Error;

/// Why bytes were not read as an object.
#[derive(Clone, Copy, Drop, Error)]
pub enum ObjectFail {
    /// This is the first malformed line, from 1.
    #[error("a line of the object is malformed")]
    Malformed(Line),
    /// Memory was asked for and not found.
    #[error("no memory was found")]
    NoMemory,
}

impl From<NoMemory> for ObjectFail {
    ghost use Rattle.std.specs.Prelude.{◌≡◌};
    ghost use Rattle.fm_object.specs.declared.fail.ObjectFail.TheVariants as fails;

    ghost from_gives = { λ _ e. e ≡ fails.NoMemory };

    fn from(_error: NoMemory) -> ObjectFail {
        ObjectFail::NoMemory
    }
}

impl<T: Drop> From<AllocFailed<T>> for ObjectFail {
    ghost use Rattle.std.specs.Prelude.{◌≡◌};
    ghost use Rattle.fm_object.specs.declared.fail.ObjectFail.TheVariants as fails;

    ghost from_gives = { λ _ e. e ≡ fails.NoMemory };

    fn from(_failed: AllocFailed<T>) -> ObjectFail {
        ObjectFail::NoMemory
    }
}

impl fmt::Debug for ObjectFail {
    fn fmt<W: fmt::Write>(&self, f: &mut fmt::Formatter<W>) -> fmt::Result {
        match self {
            ObjectFail::Malformed(line) => {
                let number = line.0;
                write!(f, "Malformed({number})")
            }
            ObjectFail::NoMemory => write!(f, "NoMemory"),
        }
    }
}
