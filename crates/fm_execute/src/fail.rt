//! Why an object text was not executed.

use fm_base::{Line, NoMemory};
use std::fmt;
use thiserror::Error;

/// Why an object text was not executed.
#[derive(Clone, Copy, Drop, Error)]
pub enum ExecuteFail {
    /// This is the first malformed line, from 1.
    #[error("a line of the object is malformed")]
    Malformed(Line),
    /// This is the least unit, from 1, that makes no sense, or 0 where the whole makes none.
    #[error("a unit of the object makes no sense")]
    Unverified(u32),
    /// Memory was asked for and not found.
    #[error("no memory was found")]
    NoMemory,
}

impl From<NoMemory> for ExecuteFail {
    ghost use Rattle.std.specs.Prelude.{◌≡◌};
    ghost use Rattle.fm_execute.specs.declared.fail.ExecuteFail.TheVariants as fails;

    ghost from_gives = { λ _ e. e ≡ fails.NoMemory };

    fn from(_error: NoMemory) -> ExecuteFail {
        ExecuteFail::NoMemory
    }
}

impl fmt::Debug for ExecuteFail {
    fn fmt<W: fmt::Write>(&self, f: &mut fmt::Formatter<W>) -> fmt::Result {
        match self {
            ExecuteFail::Malformed(line) => {
                let number = line.0;
                write!(f, "Malformed({number})")
            }
            ExecuteFail::Unverified(number) => write!(f, "Unverified({number})"),
            ExecuteFail::NoMemory => write!(f, "NoMemory"),
        }
    }
}
