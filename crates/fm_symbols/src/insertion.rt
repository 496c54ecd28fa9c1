//! Values by names.

ghost use Rattle.std.specs.Prelude.{◌≡◌, OnOk};
ghost use Rattle.fm_symbols.specs.ByName.{with_new};

use fm_base::{Name, NoMemory};
use fm_finmap::NameMap;
use std::alloc::Global;

/// Gives a name a value. A name that has one keeps it.
pub fn insert_new<V: Drop>(
    alloc: Global,
    map: &mut NameMap<V>,
    name: &Name,
    value: V,
) -> Result<(), NoMemory>
    ensures { OnOk result (map.new ≡ with_new map.old name.now value) }
{
    if map.contains_key(name) {
        return Ok(());
    }
    map.insert(name.copy(alloc)?, value)?;
    Ok(())
}
