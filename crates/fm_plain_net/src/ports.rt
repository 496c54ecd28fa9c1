//! The ports that processes hold.

ghost use Rattle.std.specs.Prelude.{◌≡◌, ◌≢◌, Some, None, OnOk};
ghost use Rattle.std.specs.Option.{option_copied};
ghost use Rattle.fm_base.specs.declared.port.PortValue as declared;
ghost use Rattle.fm_base.specs.declared.port.PortValue.TheVariants.{Writer, Reader};
ghost use Rattle.fm_plain_net.specs.Readings.{kept};

use fm_base::{ChanName, NoMemory, PortValue};
use fm_chan::Port;
use fm_finmap::Map;
use fm_mean::Outport;
use std::alloc::Global;

/// Ports under their values. Contracts see what is kept under a value (`kept`).
#[derive(Drop)]
pub struct Ports {
    pub(crate) inports: Map<ChanName, Port>,
    pub(crate) outports: Map<Outport, Port>,
}

impl Ports {
    /// No port. Takes no memory.
    #[tactic(auto, using(crate::proofs::Kept::none_kept))]
    pub fn new(alloc: Global) -> Ports
        ensures { (z : declared.PortValue) → kept result z ≡ None }
    {
        Ports {
            inports: Map::new(alloc),
            outports: Map::new(alloc),
        }
    }

    fn put_inport(&mut self, channel: ChanName, port: Port) -> Result<(), NoMemory>
        requires { port ≡ Reader channel }
        ensures here { OnOk result (kept self.new port ≡ Some port) }
        ensures others { OnOk result ((z : declared.PortValue) → z ≢ port → kept self.new z ≡ kept self.old z) }
    {
        self.inports.insert(channel, port)?;
        Ok(())
    }

    fn put_outport(&mut self, channel: ChanName, number: u32, port: Port) -> Result<(), NoMemory>
        requires { port ≡ Writer channel number }
        ensures here { OnOk result (kept self.new port ≡ Some port) }
        ensures others { OnOk result ((z : declared.PortValue) → z ≢ port → kept self.new z ≡ kept self.old z) }
    {
        self.outports.insert(Outport { channel, number }, port)?;
        Ok(())
    }

    /// Keeps a port under its value.
    pub(crate) fn put(&mut self, alloc: Global, port: Port) -> Result<(), NoMemory>
        ensures here { OnOk result (kept self.new port ≡ Some port) }
        ensures others { OnOk result ((z : declared.PortValue) → z ≢ port → kept self.new z ≡ kept self.old z) }
    {
        match port.value(alloc)? {
            PortValue::Writer(channel, number) => self.put_outport(channel, number, port),
            PortValue::Reader(channel) => self.put_inport(channel, port),
        }
    }

    /// The inport of a channel.
    pub(crate) fn inport(&self, channel: &ChanName) -> Option<&Port>
        ensures { option_copied result ≡ kept self.now (Reader channel.now) }
    {
        self.inports.get(channel)
    }

    /// Takes out the port of this value.
    pub(crate) fn take(&mut self, value: PortValue) -> Option<Port>
        ensures value { result ≡ kept self.old value }
        ensures others { (z : declared.PortValue) → z ≢ value → kept self.new z ≡ kept self.old z }
    {
        match value {
            PortValue::Writer(channel, number) => {
                self.outports.remove(&Outport { channel, number })
            }
            PortValue::Reader(channel) => self.inports.remove(&channel),
        }
    }
}
