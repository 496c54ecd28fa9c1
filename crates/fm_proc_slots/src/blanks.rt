//! Items that are to be built, with the memory for them.

ghost use Rattle.std.specs.Prelude.{◌≡◌, IfOk, vec_capacity};
ghost use Rattle.fm_proc_slots.specs.Blanks.{IsBlank};

use fm_base::NoMemory;
use fm_chan::Port;
use fm_code::Operand;
use std::alloc::Global;

/// An item that is to be built, with the memory for it.
#[derive(Drop)]
pub(crate) struct Blank {
    pub(crate) operand: Operand,
    // of a value the value itself, of words room for them, of ports the NULLs that they leave
    pub(crate) words: Vec<i64>,
    pub(crate) ports: Vec<Option<Port>>,
    ghost room: { IsBlank operand words.items (vec_capacity words) ports.items (vec_capacity ports) },
}

/// A blank for an item.
pub(crate) fn blank_for(alloc: Global, operand: Operand) -> Result<Blank, NoMemory>
    ensures { IfOk result (λ b. b.operand ≡ operand) }
{
    match operand {
        Operand::Value(word) => Ok(Blank {
            operand,
            words: Vec::from_slice(alloc, &[word])?,
            ports: Vec::new(alloc),
        }),
        Operand::Words(span) => Ok(Blank {
            operand,
            words: Vec::with_capacity(alloc, span.count as usize)?,
            ports: Vec::new(alloc),
        }),
        Operand::Ports(span) => Ok(Blank {
            operand,
            words: vec![in alloc; 0i64; span.count as usize]?,
            ports: Vec::with_capacity(alloc, span.count as usize)?,
        }),
    }
}
