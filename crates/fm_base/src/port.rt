//! Ports as plain values.

ghost use Rattle.std.specs.Prelude.{◌≡◌, IfOk};

use crate::memory::NoMemory;
use crate::path::ChanName;
use std::alloc::Global;

/// What a port variable holds where it isn't NULL: an end of a channel.
#[derive(PartialEq, Eq, PartialOrd, Ord, Drop)]
pub enum PortValue {
    /// The writer of this number: an outport.
    Writer(ChanName, u32),
    /// The reader: the inport.
    Reader(ChanName),
}

impl PortValue {
    ghost use Rattle.fm_base.specs.Channels.{channel_of};

    /// The channel.
    pub fn channel(&self) -> &ChanName
        ensures { result.now ≡ channel_of self.now }
    {
        match self {
            PortValue::Writer(channel, _) | PortValue::Reader(channel) => channel,
        }
    }

    /// The same value once more. Who owns the port isn't said by it.
    pub fn copy(&self, alloc: Global) -> Result<PortValue, NoMemory>
        ensures { IfOk result (λ p. p ≡ self.now) }
    {
        Ok(match self {
            PortValue::Writer(channel, number) => PortValue::Writer(channel.copy(alloc)?, *number),
            PortValue::Reader(channel) => PortValue::Reader(channel.copy(alloc)?),
        })
    }
}
