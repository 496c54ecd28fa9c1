//! The body of a process, copied, so that its piece can be made outside.

ghost use Rattle.std.specs.Prelude.{◌≡◌, Some, slice_get, IfOk};
ghost use Rattle.fm_procs.specs.Readings.{order_of};
ghost use Rattle.fm_run.specs.Orders.{place_in};
ghost use Rattle.fm_run_code.specs.Given.{IsBodyAt};

use crate::programs::Compiled;
use fm_base::{NoMemory, Path};
use fm_code::{Body, copy_body};
use std::alloc::Global;
use std::sync::Arc;

/// What a piece is made from.
#[derive(Drop)]
pub(crate) struct Start {
    /// A copy of the body of the process.
    pub start: Arc<Body>,
    /// Another hold of it.
    pub kept: Arc<Body>,
    /// The path of the process.
    pub path: Arc<Path>,
}

/// What the piece of a process is made from that can step. Such a process has a body and a path, so that one without
/// them is answered as want of memory costs nothing.
pub(crate) fn start_of(alloc: Global, net: &Compiled, number: u32) -> Result<Start, NoMemory>
    ensures kept { IfOk result (λ s. s.kept.value ≡ s.start.value) }
    ensures body { IfOk result (λ s. IsBodyAt net.now.stacks number (Some s.start.value)) }
    ensures path { IfOk result (λ s. slice_get (order_of net.now.stacks.entries) number ≡ Some (place_in s.path)) }
{
    let Some(body) = net.body_of(number) else {
        return Err(NoMemory);
    };
    let start = Arc::new(alloc, copy_body(alloc, body)?)?;
    let kept = Arc::try_clone(&start)?;
    let path = match net.stacks.entries.rows.path(number) {
        Some(path) => Arc::try_clone(path)?,
        None => return Err(NoMemory),
    };
    Ok(Start { start, kept, path })
}
