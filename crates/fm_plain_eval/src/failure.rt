//! Why an evaluation has no result.

use fm_base::{Fault, NoMemory};

/// Why an evaluation has no result.
#[derive(Clone, Copy)]
pub enum Failure {
    /// The first fault from left to right.
    Fault(Fault),
    /// Memory was asked for and not found, or the number of a reference is too large for this machine.
    NoMemory,
}

impl From<Fault> for Failure {
    ghost use Rattle.std.specs.Prelude.{◌≡◌};
    ghost use Rattle.fm_plain_eval.specs.declared.failure.Failure.TheVariants as failure;

    ghost from_gives = { λ fault e. e ≡ failure.Fault fault };

    fn from(fault: Fault) -> Failure {
        Failure::Fault(fault)
    }
}

impl From<NoMemory> for Failure {
    ghost use Rattle.std.specs.Prelude.{◌≡◌};
    ghost use Rattle.fm_plain_eval.specs.declared.failure.Failure.TheVariants as failure;

    ghost from_gives = { λ _ e. e ≡ failure.NoMemory };

    fn from(_error: NoMemory) -> Failure {
        Failure::NoMemory
    }
}
