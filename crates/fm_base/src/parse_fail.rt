//! Why tokens or a tree were not read.

use crate::memory::NoMemory;
use std::alloc::{AllocError, AllocFailed};

/// Why a text or tokens were not read.
#[derive(Clone, Copy, Debug, PartialEq, Eq)]
pub enum ParseFail {
    /// They don't have the form that is read.
    Bad,
    /// Memory was asked for and not found.
    NoMemory,
}

impl From<NoMemory> for ParseFail {
    ghost use Rattle.std.specs.Prelude.{◌≡◌};
    ghost use Rattle.fm_base.specs.declared.parse_fail.ParseFail.TheVariants as fails;

    ghost from_gives = { λ _ e. e ≡ fails.NoMemory };

    fn from(_error: NoMemory) -> ParseFail {
        ParseFail::NoMemory
    }
}

impl From<AllocError> for ParseFail {
    ghost use Rattle.std.specs.Prelude.{◌≡◌};
    ghost use Rattle.fm_base.specs.declared.parse_fail.ParseFail.TheVariants as fails;

    ghost from_gives = { λ _ e. e ≡ fails.NoMemory };

    fn from(_error: AllocError) -> ParseFail {
        ParseFail::NoMemory
    }
}

impl<T: Drop> From<AllocFailed<T>> for ParseFail {
    ghost use Rattle.std.specs.Prelude.{◌≡◌};
    ghost use Rattle.fm_base.specs.declared.parse_fail.ParseFail.TheVariants as fails;

    ghost from_gives = { λ _ e. e ≡ fails.NoMemory };

    fn from(_failed: AllocFailed<T>) -> ParseFail {
        ParseFail::NoMemory
    }
}
