//! One channel in memory, and what its reader finds there: what the tests of the wire and of the rounds share.

ghost use Rattle.std.specs.Prelude.{false};

use fm_base::{ChanName, NoMemory, Path, Seq};
use fm_link::Load;
use fm_nodes_network::{Channels, Network, Outlasts};
use std::alloc::Global;

/// All hosts start again, so nothing stays on the wire.
pub(crate) struct AllHosts;

impl Outlasts for AllHosts {
    ghost outlasts = { λ hosts channel. false };

    fn outlasts(&self, _channel: &ChanName) -> bool {
        false
    }
}

/// The name of the channel.
pub(crate) fn name(alloc: Global) -> ChanName {
    let maker = Path::main(alloc);
    ChanName { maker, number: 1 }
}

/// The channel, at which nothing has happened, and an empty wire.
pub(crate) fn network(alloc: Global) -> Result<Network, NoMemory> {
    let mut channels = Channels::new(alloc);
    channels.make(alloc, name(alloc), true)?;
    let wire = Vec::new(alloc);
    Ok(Network { channels, wire })
}

/// A message of one word is sent.
pub(crate) fn send(
    alloc: Global,
    network: &mut Network,
    channel: &ChanName,
    word: i64,
) -> Result<(), NoMemory> {
    let mut items = Seq::new(alloc);
    items.push(Seq::from_slice(alloc, &[word])?)?;
    network.channels.reserve(channel)?;
    network.channels.send(channel, items);
    Ok(())
}

/// The word of the oldest message that has arrived; none where there is none.
pub(crate) fn first_word(network: &Network, channel: &ChanName) -> Option<i64> {
    match network.channels.get(channel)?.first()? {
        Load::Close => None,
        Load::Words(items) => items.as_slice().first()?.as_slice().first().copied(),
    }
}
