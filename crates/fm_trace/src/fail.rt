//! Why bytes were not read as a trace.

use fm_base::{Line, NoMemory};
use std::fmt;
use thiserror::Error;

/// Why bytes were not read as a trace.
#[derive(Clone, Copy, Drop, Error)]
pub enum TraceFail {
    /// This is the first malformed line, from 1.
    #[error("a line of the trace is malformed")]
    Malformed(Line),
    /// Memory was asked for and not found.
    #[error("no memory was found")]
    NoMemory,
}

impl From<NoMemory> for TraceFail {
    ghost use Rattle.std.specs.Prelude.{◌≡◌};
    ghost use Rattle.fm_trace.specs.declared.fail.TraceFail.TheVariants as fails;

    ghost from_gives = { λ _ e. e ≡ fails.NoMemory };

    fn from(_error: NoMemory) -> TraceFail {
        TraceFail::NoMemory
    }
}

impl fmt::Debug for TraceFail {
    fn fmt<W: fmt::Write>(&self, f: &mut fmt::Formatter<W>) -> fmt::Result {
        match self {
            TraceFail::Malformed(line) => {
                let number = line.0;
                write!(f, "Malformed({number})")
            }
            TraceFail::NoMemory => write!(f, "NoMemory"),
        }
    }
}
