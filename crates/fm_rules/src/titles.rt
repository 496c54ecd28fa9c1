//! The names of units.

ghost use Rattle.std.specs.Prelude.{◌≡◌};
ghost use Rattle.fm_rules.specs.FunctionTitles.{same_name};

use fm_base::Name;
use fm_tree::UnitKind;
use std::cmp::Ordering;

/// A unit that a name stands for.
#[derive(Clone, Copy)]
pub struct Title {
    /// The number of the unit, from 0.
    pub number: usize,
    pub kind: UnitKind,
}

/// Whether two names are the same.
pub fn same_name(left: &Name, right: &Name) -> bool
    ensures { result ≡ same_name left.now right.now }
{
    matches!(left.cmp(right), Ordering::Equal)
}
