//! The code of a unit, where there is one.

ghost use Rattle.std.specs.Prelude.{◌≡◌, slice_get};
ghost use Rattle.fm_code.specs.Statements.{ports_of};
ghost use Rattle.fm_proc_language.specs.Processes.{formals_in, loops_in};

use fm_code::{Formal, SharedCode, Span};
use fm_machine_calls::unit_at;

/// The port words of a unit.
pub fn ports_at(code: &SharedCode, unit: u32) -> &[Span]
    ensures { result.now ≡ ports_of (slice_get code.now.units unit) }
{
    match unit_at(code, unit) {
        Some(unit) => unit.ports.as_slice(),
        None => &[],
    }
}

/// The formals of a unit.
pub fn formals_at(code: &SharedCode, unit: u32) -> &[Formal]
    ensures { result.now ≡ formals_in (slice_get code.now.units unit) }
{
    match unit_at(code, unit) {
        Some(unit) => unit.formals.as_slice(),
        None => &[],
    }
}

/// The number of loops of a unit.
pub fn loops_at(code: &SharedCode, unit: u32) -> u32
    ensures { result ≡ loops_in (slice_get code.now.units unit) }
{
    match unit_at(code, unit) {
        Some(unit) => unit.loops,
        None => 0,
    }
}
