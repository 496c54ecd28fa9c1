//! How often packets were sent.

ghost use Rattle.std.specs.Prelude.{◌≡◌, IfOk, OnOk, OnErr};
ghost use Rattle.std.specs.FinMap as finite;
ghost use Rattle.fm_nodes_rounds.specs.Sendings.{once_more, sent_before, unsent, with_first, with_sending};

use fm_base::{ChanName, NoMemory};
use fm_finmap::Map;
use std::alloc::Global;

/// How often the first two packets of a channel that aren't acknowledged were sent. It counts to three, since
/// nothing is lost that was sent twice before.
#[derive(Clone, Copy)]
pub(crate) struct Sent {
    /// The number of the first packet.
    first: u64,
    /// How often it was sent.
    times: u8,
    /// How often the one behind it was sent.
    times_behind: u8,
}

// One more, up to three.
fn once_more(times: u8) -> u8
    ensures { result ≡ once_more times }
{
    if times < 3 { times + 1 } else { times }
}

impl Sent {
    // Nothing was sent.
    fn new(first: u64) -> Sent
        ensures { result ≡ unsent first }
    {
        Sent {
            first,
            times: 0,
            times_behind: 0,
        }
    }

    // Goes on to the packet that is first now.
    fn set_first(&mut self, first: u64)
        ensures { self.new ≡ with_first self.old first }
    {
        if first == self.first {
            return;
        }
        let follows = first.saturating_sub(self.first) == 1;
        self.times = if follows { self.times_behind } else { 0 };
        self.times_behind = 0;
        self.first = first;
    }

    // How often the packet was sent before; now it's once more.
    fn send(&mut self, is_first: bool, number: u64) -> u8
        ensures before { result ≡ sent_before self.old is_first number }
        ensures counts { self.new ≡ with_sending self.old is_first number }
    {
        if is_first {
            self.set_first(number);
            let before = self.times;
            self.times = once_more(before);
            return before;
        }
        let before = self.times_behind;
        self.times_behind = once_more(before);
        before
    }
}

/// How often packets were sent, by their channels. Contracts see the finite map of the counts (`sendings_of`).
pub(crate) struct Sendings {
    sent: Map<ChanName, Sent>,
}

impl Drop for Sendings {
    fn drop(self) {
        let Sendings { sent: _sent } = self;
    }
}

impl Sendings {
    ghost use Rattle.fm_nodes_rounds.specs.Channels.{counts_at, sendings_of};

    /// Nothing was sent. Takes no memory.
    pub fn new(alloc: Global) -> Sendings
        ensures { sendings_of result ≡ finite.empty }
    {
        Sendings {
            sent: Map::new(alloc),
        }
    }

    // The counts of a channel, whose first packet has this number if nothing was sent.
    fn counts(&self, channel: &ChanName, number: u64) -> Sent
        ensures { result ≡ counts_at (finite.get (sendings_of self.now) channel.now) number }
    {
        match self.sent.get(channel) {
            Some(sent) => *sent,
            None => Sent::new(number),
        }
    }

    /// How often the packet was sent before, at most three times; now it's once more. It is the first of its
    /// channel that isn't acknowledged, or the one behind the first. After want of memory nothing has changed.
    pub fn send(
        &mut self,
        alloc: Global,
        channel: &ChanName,
        is_first: bool,
        number: u64,
    ) -> Result<u8, NoMemory>
        ensures before { IfOk result (λ before.
            before ≡ sent_before (counts_at (finite.get (sendings_of self.old) channel.now) number) is_first number) }
        ensures counts { OnOk result (sendings_of self.new ≡ finite.insert (sendings_of self.old) channel.now
            (with_sending (counts_at (finite.get (sendings_of self.old) channel.now) number) is_first number)) }
        ensures err { OnErr result (sendings_of self.new ≡ sendings_of self.old) }
    {
        let mut sent = self.counts(channel, number);
        let before = sent.send(is_first, number);
        self.sent.insert(channel.copy(alloc)?, sent)?;
        Ok(before)
    }
}
