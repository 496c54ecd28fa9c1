//! What travels over a link.

ghost use Rattle.std.specs.Prelude.{◌≡◌, IfOk};

use fm_base::{NoMemory, Seq};
use std::alloc::Global;

/// What is pushed into a link.
#[derive(Drop)]
pub enum Load {
    /// A message: the words of each of its items.
    Words(Seq<Seq<i64>>),
    /// The end: the writer is closed, and nothing comes behind.
    Close,
}

/// A load on its way to the reader.
#[derive(Drop)]
pub struct Packet {
    /// How many loads were pushed before it.
    pub number: u64,
    /// The load.
    pub load: Load,
}

/// An acknowledgement on its way to the writer.
#[derive(Clone, Copy)]
pub struct Ack {
    /// The number of the packet that the reader takes next.
    pub next: u64,
}

// The same items once more.
fn copy_items(alloc: Global, items: &[Seq<i64>]) -> Result<Seq<Seq<i64>>, NoMemory>
    ensures { IfOk result (λ r. r ≡ items.now) }
{
    let mut copies = Seq::new(alloc);
    'items: for item in items {
        copies.push(Seq::from_slice(alloc, item.as_slice())?)?;
    }
    Ok(copies)
}

impl Load {
    /// The same load once more.
    pub fn copy(&self, alloc: Global) -> Result<Load, NoMemory>
        ensures { IfOk result (λ load. load ≡ self.now) }
    {
        match self {
            Load::Words(items) => Ok(Load::Words(copy_items(alloc, items.as_slice())?)),
            Load::Close => Ok(Load::Close),
        }
    }
}

impl Packet {
    /// The same packet once more.
    pub fn copy(&self, alloc: Global) -> Result<Packet, NoMemory>
        ensures { IfOk result (λ packet. packet ≡ self.now) }
    {
        Ok(Packet {
            number: self.number,
            load: self.load.copy(alloc)?,
        })
    }
}
