//! Who computes a piece.

use crate::shared::SharedTable;
use fm_base::NoMemory;
use std::alloc::Global;

/// Who computes a piece. It promises nothing: what isn't the piece's own is a stranger to the table.
pub trait Gate<T: SharedTable>: Sync {
    /// Computes the piece for this worker.
    fn run(&self, alloc: Global, worker: u32, piece: T::Piece) -> Result<T::Done, NoMemory>;

    /// Whether it need not see each piece, so that a table may make some by itself.
    fn is_plain(&self) -> bool {
        false
    }
}

/// The gate that computes each piece at once.
#[derive(Clone, Copy)]
pub struct Plain;

impl<T: SharedTable> Gate<T> for Plain {
    fn run(&self, alloc: Global, _worker: u32, piece: T::Piece) -> Result<T::Done, NoMemory> {
        T::advance(alloc, piece)
    }

    fn is_plain(&self) -> bool {
        true
    }
}
