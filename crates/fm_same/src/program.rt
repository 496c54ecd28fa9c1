//! Checked programs.

ghost use Rattle.fm_same.specs.Same.{IsSameTest};

use crate::units::same_units;
use fm_rules::Program;

/// Whether two checked programs are the same. Takes no memory. What is kept besides the units follows from them, so
/// units alone are compared, in linear time.
pub fn same_program(first: &Program, second: &Program) -> bool
    ensures { IsSameTest result first.now second.now }
{
    let ones = first.units();
    let others = second.units();
    same_units(ones, others)
}
