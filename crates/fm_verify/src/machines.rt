//! The machine of a unit.

ghost use Rattle.std.specs.Prelude.{◌≡◌, ◌*◌, ◌≤◌};
ghost use Rattle.fm_verify.specs.Tests.{are_nodes, is_framed, is_machine};

use fm_object::UnitImage;

/// Whether there are extents for a machine that can be.
fn is_machine(extents: &[u32]) -> bool
    ensures { result ≡ is_machine extents.now }
{
    extents.len() <= 3 && are_nodes(extents)
}

/// Whether each is at least 1, and they are not too many nodes.
fn are_nodes(extents: &[u32]) -> bool
    ensures { result ≡ are_nodes 1 extents.now }
{
    let mut nodes = 1u64;
    'extents: for extent in extents {
        let more = nodes * u64::from(*extent);
        if *extent < 1 || 65_536 < more {
            return false;
        }
        nodes = more;
    }
    nodes <= 65_536
}

/// Whether the unit has a heading and a machine that can be.
pub(crate) fn is_framed(unit: &UnitImage) -> bool
    ensures { result ≡ is_framed unit.now }
{
    unit.heading <= 3 && is_machine(unit.extents.as_slice())
}
