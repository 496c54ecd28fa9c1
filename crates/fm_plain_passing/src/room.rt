//! Room for ports that are put out of their places. It is made before the first of them moves, so that no port is
//! without a place where memory is wanting.

ghost use Rattle.std.specs.Prelude.{◌≡◌, ◌+◌, ◌<◌, ◌≤◌, ◌^◌, None, [], ◌∷◌, ◌++◌, IfOk, OnOk, replicate, vec_len, vec_capacity};

use fm_base::{NoMemory, PortValue};
use std::alloc::Global;

/// Ports that were put out of their places, and NULLs.
pub(crate) type Room = Vec<Option<PortValue>>;

/// An empty list with room for so many items.
pub(crate) fn make_room<T>(alloc: Global, items: usize) -> Result<Vec<T>, NoMemory>
    ensures items { IfOk result (λ r. r.items ≡ []) }
    ensures capacity { IfOk result (λ r. items ≤ vec_capacity r) }
{
    Ok(Vec::with_capacity(alloc, items)?)
}

/// So many NULLs.
pub(crate) fn nulls(alloc: Global, count: usize) -> Result<Room, NoMemory>
    ensures { IfOk result (λ r. r.items ≡ replicate count None) }
{
    let mut room = make_room(alloc, count)?;
    'nulls: while room.len() < count {
        room.push(None)?;
    }
    Ok(room)
}

/// Puts an item last. Takes no memory.
pub(crate) fn put<T: Drop>(room: &mut Vec<T>, item: T)
    requires { vec_len room.old < vec_capacity room.old }
    ensures items { room.new.items ≡ room.old.items ++ item ∷ [] }
    ensures len { vec_len room.new ≡ vec_len room.old + 1 }
    ensures capacity { vec_capacity room.old ≤ vec_capacity room.new }
{
    let _stored = room.push(item);
}

/// That a number of items fits 32 bits. Where it doesn't, memory is said to be wanting.
pub(crate) fn fits(items: usize) -> Result<(), NoMemory>
    ensures { OnOk result (items < 2 ^ 32) }
{
    if items <= u32::MAX as usize {
        Ok(())
    } else {
        Err(NoMemory)
    }
}
