//! Items of messages.

ghost use Rattle.std.specs.Prelude.{◌≡◌, ◌+◌, length, drop, IfOk, OnOk};
ghost use Rattle.fm_mean.specs.Actions.{message_words};
ghost use Rattle.fm_plain_passing.specs.Items.{item_of, message_of};

use fm_base::{NoMemory, PortValue, Seq};

/// An item of a message, its ports as values. Contracts see it as the meaning's item (`item_of`).
#[derive(Drop)]
pub enum Item {
    /// Integers, or logicals as 0 or 1.
    Words(Seq<i64>),
    /// Ports and NULLs.
    Ports(Seq<Option<PortValue>>),
}

impl Item {
    ghost use Rattle.fm_base.specs.Channels.{item_length};

    /// The number of its elements.
    pub fn len(&self) -> usize
        ensures { result ≡ item_length (item_of self.now) }
    {
        match self {
            Item::Words(words) => words.len(),
            Item::Ports(ports) => ports.len(),
        }
    }
}

/// The words of a message, a port counted as one. The only error is want of memory: that the number doesn't fit.
pub fn message_words(items: &[Item]) -> Result<u64, NoMemory>
    ensures { IfOk result (λ n. n ≡ message_words (message_of items.now)) }
{
    let mut words: u64 = 0;
    'items: for item in items {
        words = words.checked_add(item.len() as u64).ok_or(NoMemory)?;
    }
    Ok(words)
}
