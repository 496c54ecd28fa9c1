//! The end of a process: which ports stay in its frame.

ghost use Rattle.std.specs.Prelude.{◌≡◌, IfOk, OnOk, OnErr};
ghost use Rattle.fm_mean.specs.Calls.{is_kept, kept};
ghost use Rattle.fm_mean.specs.Layout.{AreLaidOut};
ghost use Rattle.fm_mean.specs.Places.{live};
ghost use Rattle.fm_plain_frame.specs.Memory.{values_of};
ghost use Rattle.fm_plain_passing.specs.Rooms.{all_lost, lost_by};

use crate::moving::{ports_at, take_into};
use crate::room::{fits, make_room};
use fm_base::{NoMemory, PortValue};
use fm_mean::Span;
use fm_plain_frame::Word;
use fm_symbols::Variable;
use std::alloc::Global;

/// Whether a variable keeps what it has: a formal without INTENT(IN).
fn is_kept(variable: &Variable) -> bool
    ensures { result ≡ is_kept variable.now }
{
    !variable.input && variable.formal != 0
}

fn lost_by(variable: &Variable) -> u32
    ensures { result ≡ lost_by variable.now }
{
    if is_kept(variable) {
        0
    } else {
        ports_at(&variable.kind, variable.words)
    }
}

fn all_lost(variables: &[Variable]) -> Result<usize, NoMemory>
    ensures { IfOk result (λ n. n ≡ all_lost variables.now) }
{
    let mut ports: usize = 0;
    'variables: for variable in variables {
        ports = ports
            .checked_add(lost_by(variable) as usize)
            .ok_or(NoMemory)?;
    }
    Ok(ports)
}

/// Takes the ports out of all variables but the formals without INTENT(IN), and answers them in the order of the
/// variables. The only error is want of memory; the memory of the frame is then as it was.
pub fn keep_formals(
    alloc: Global,
    variables: &[Variable],
    memory: &mut [Word],
) -> Result<Vec<Option<PortValue>>, NoMemory>
    requires { AreLaidOut 0 variables.now }
    ensures memory { OnOk result
        (values_of variables.now memory.new ≡ (kept variables.now (values_of variables.now memory.old)).0) }
    ensures drops { IfOk result (λ d. live d.items ≡ (kept variables.now (values_of variables.now memory.old)).1) }
    ensures err { OnErr result (values_of variables.now memory.new ≡ values_of variables.now memory.old) }
{
    fits(variables.len())?;
    let mut room = make_room(alloc, all_lost(variables)?)?;
    'variables: for (place, variable) in variables.iter().enumerate() {
        let span = Span {
            variable: place as u32,
            first: 0,
            count: lost_by(variable),
        };
        take_into(&mut room, variables, memory, span);
    }
    Ok(room)
}
