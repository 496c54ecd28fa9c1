//! Why an image was refused.

use fm_base::NoMemory;
use std::alloc::AllocFailed;
use std::fmt;
use thiserror::Error;

/// Why an image was refused.
#[derive(Clone, Copy, Drop, Error)]
pub enum VerifyFail {
    /// This is the least unit, from 1, that makes no sense, or 0 where the whole makes none.
    #[error("a unit of the object makes no sense")]
    Bad(u32),
    /// Memory was asked for and not found.
    #[error("no memory was found")]
    NoMemory,
}

impl From<NoMemory> for VerifyFail {
    ghost use Rattle.std.specs.Prelude.{◌≡◌};
    ghost use Rattle.fm_verify.specs.declared.fail.VerifyFail.TheVariants as fails;

    ghost from_gives = { λ _ e. e ≡ fails.NoMemory };

    fn from(_error: NoMemory) -> VerifyFail {
        VerifyFail::NoMemory
    }
}

impl<T: Drop> From<AllocFailed<T>> for VerifyFail {
    ghost use Rattle.std.specs.Prelude.{◌≡◌};
    ghost use Rattle.fm_verify.specs.declared.fail.VerifyFail.TheVariants as fails;

    ghost from_gives = { λ _ e. e ≡ fails.NoMemory };

    fn from(_failed: AllocFailed<T>) -> VerifyFail {
        VerifyFail::NoMemory
    }
}

impl fmt::Debug for VerifyFail {
    fn fmt<W: fmt::Write>(&self, f: &mut fmt::Formatter<W>) -> fmt::Result {
        match self {
            VerifyFail::Bad(number) => write!(f, "Bad({number})"),
            VerifyFail::NoMemory => write!(f, "NoMemory"),
        }
    }
}
