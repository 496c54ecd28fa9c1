//! A lane's owner and its thieves.

ghost use Rattle.std.specs.Prelude.{◌≡◌, ◌≤◌, ◌+◌, length};
ghost use Rattle.crossbeam_deque.specs.Handles.{view, IsPassOf, stealer_deque, stealer_flavor, worker_flavor, worker_port, worker_view, worker_capacity, worker_index};
ghost use Rattle.fm_steal.specs.Deals.{Rises};

use crate::hand::{Owner, Reach, Token};

/// What the owner of a lane has: it puts items in, and takes the first one out. Its type says that the tickets of what
/// it took rise.
#[derive(Drop)]
pub struct Lane<T> {
    pub(crate) worker: Owner<T>,
    pub(crate) puts: u64,
    pub(crate) room: u64,
    pub(crate) thieves: u32,
    ghost first: { worker_port worker ≡ 0 },
    ghost fifo: { worker_flavor worker ≡ 0 },
    ghost counted: { length (worker_view worker).put ≡ puts },
    ghost roomy: { room ≤ worker_capacity worker },
    ghost within: { puts ≤ room },
    ghost indexed: { worker_index worker ≤ puts },
    ghost shared: { (worker_view worker).parts + thieves ≡ 64 },
    ghost few: { thieves ≤ 63 },
    ghost rises: { Rises (worker_view worker).got },
}

/// A handle that takes the first item of a lane, from any thread. Its type says that the tickets of what it took rise.
#[derive(Drop)]
pub struct Thief<T> {
    pub(crate) stealer: Reach<T>,
    pub(crate) pass: Token<T>,
    ghost fits: { IsPassOf (stealer_deque stealer) pass },
    ghost fifo: { stealer_flavor stealer ≡ 0 },
    ghost part: { (view pass).parts ≡ 1 },
    ghost rises: { Rises (view pass).got },
}
