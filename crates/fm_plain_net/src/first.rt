//! Main alone, before the first piece.

ghost use Rattle.std.specs.Prelude.{◌≡◌, ◌∷◌, [], IfOk};
ghost use Rattle.fm_mean.specs.Steps.{first};
ghost use Rattle.fm_plain_net.specs.Held.{IsSound};
ghost use Rattle.fm_plain_net.specs.Readings.{order_of, state_of};

use crate::ports::Ports;
use crate::processes::{TreeProc, Trees};
use fm_base::{NoMemory, Path};
use fm_net_procs::{Entry, Processes};
use fm_plain::next_of;
use fm_plain_frame::PlainProc;
use fm_rules::Program;
use std::alloc::Global;
use std::sync::Arc;

/// Main alone, with no channel and no port.
pub(crate) fn first_net(alloc: Global, program: &Program) -> Result<Trees, NoMemory>
    ensures state { IfOk result (λ net. state_of program.now net ≡ first program.now) }
    ensures order { IfOk result (λ net. order_of net.entries ≡ [] ∷ []) }
    ensures sound { IfOk result (λ net. IsSound program.now net) }
{
    let plain = PlainProc::main(alloc, program)?;
    let next = next_of(alloc, program, &plain)?;
    let process = TreeProc { plain };
    let mut trees = Processes::new(alloc, Ports::new(alloc));
    let path = Arc::new(alloc, Path::main(alloc))?;
    let first_child = 0;
    trees.entries.push(
        path,
        Entry {
            process,
            next,
            first_child,
        },
    )?;
    Ok(trees)
}
