//! Outports as keys.

ghost use Rattle.std.specs.Prelude.{◌≡◌};

use crate::outcome::Holder;
use fm_base::{ChanName, Path};
use fm_finmap::Key;

/// The value of an outport, as a key.
#[derive(PartialEq, Eq, PartialOrd, Ord)]
pub struct Outport {
    /// The channel.
    pub channel: ChanName,
    /// The number of the writer.
    pub number: u32,
}

impl Drop for Outport {
    fn drop(self) {
        let Outport {
            channel: _channel,
            number: _number,
        } = self;
    }
}

impl Outport {
    ghost use Rattle.fm_mean.specs.Holders.{holder_of};

    /// The same outport, and the process that holds it.
    pub fn held_by(self, path: Path) -> Holder
        ensures { result ≡ holder_of (self, path) }
    {
        let Outport { channel, number } = self;
        Holder {
            channel,
            writer: number,
            path,
        }
    }
}

impl Key for Outport {
    ghost use Rattle.fm_mean.specs.OutportKeys.{outport_exact};

    ghost exact = { outport_exact };
}
