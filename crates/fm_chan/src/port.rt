//! Ports that are owned.

ghost use Rattle.std.specs.Prelude.{◌≡◌, IfOk};
ghost use Rattle.fm_base.specs.Channels.{channel_of};
ghost use Rattle.fm_chan.specs.Events.{is_outport, writer_number};

use fm_base::{ChanName, NoMemory, PortValue};
use std::alloc::Global;
use std::marker::Model;

/// One end of a channel. It is made with its channel and never copied; contracts see it as a plain value.
pub struct Port {
    value: PortValue,
}

impl Drop for Port {
    fn drop(self) {
        let Port { value: _value } = self;
    }
}

impl Model for Port {
    ghost use Rattle.fm_base.specs.declared.port.PortValue.{PortValue};

    ghost Value = { PortValue };

    ghost view = { λ p. p.value };
}

impl Port {
    pub(crate) fn new(value: PortValue) -> Port
        ensures { result ≡ value }
    {
        Port { value }
    }

    pub(crate) fn plain(&self) -> &PortValue
        ensures { result.now ≡ self.now }
    {
        &self.value
    }

    /// The channel whose end it is.
    pub fn channel(&self) -> &ChanName
        ensures { result.now ≡ channel_of self.now }
    {
        self.value.channel()
    }

    /// The port as a plain value, which owns nothing.
    pub fn value(&self, alloc: Global) -> Result<PortValue, NoMemory>
        ensures { IfOk result (λ p. p ≡ self.now) }
    {
        self.value.copy(alloc)
    }

    /// Whether it is an outport, to send by, and no inport.
    pub fn is_outport(&self) -> bool
        ensures { result ≡ is_outport self.now }
    {
        match &self.value {
            PortValue::Writer(_, _) => true,
            PortValue::Reader(_) => false,
        }
    }

    /// The number of the writer that an outport is, or none of an inport.
    pub fn writer(&self) -> Option<u32>
        ensures { result ≡ writer_number self.now }
    {
        match &self.value {
            PortValue::Writer(_, number) => Some(*number),
            PortValue::Reader(_) => None,
        }
    }
}
