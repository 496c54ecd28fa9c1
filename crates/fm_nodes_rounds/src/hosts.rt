//! What the rounds drive: processes on hosts, their channels as links, and a wire.

ghost use Rattle.std.specs.Prelude.{◌≡◌, ◌↔◌, ◌<◌, ◌≤◌, ◌^◌, ℕ, true, false, IfSome, IfOk, OnOk, OnErr, IsSome};
ghost use Rattle.fm_nodes_rounds.specs.Rounds.{is_step};

use fm_base::{ChanName, NoMemory, Path};

/// What may happen to processes on hosts and to the network between them.
#[derive(Drop)]
pub enum NodeEvent {
    /// The process at this path makes a step, if it has one on what has arrived.
    Step(Path),
    /// The packet at this place among those of the channel that aren't acknowledged goes on the wire.
    Send(ChanName, u32),
    /// The reader's end of the channel answers: its acknowledgement goes on the wire.
    Answer(ChanName),
    /// The thing at this place of the wire comes to its end, and stays on the wire.
    Deliver(u32),
    /// The thing at this place of the wire is lost.
    Lose(u32),
    /// This host starts again: all is lost that is on the wire from it or to it, and no end of a link.
    Restart(u32),
}

/// Processes on hosts, with channels that go over links.
pub trait Hosts: Drop {
    /// What the steps so far cost.
    ghost used: { Self → ℕ };

    /// How many processes there are.
    ghost count: { Self → ℕ };

    /// No process has a step any more, whatever arrives.
    ghost HasEnded: { Self → Type 0 };

    /// What no event changes.
    ghost Setting: { Type 0 };

    /// What no event changes.
    ghost setting: { Self → Setting };

    /// What the steps so far cost.
    fn used(&self) -> u64
        ensures { result ≡ used self.now };

    /// How many processes there are.
    fn count(&self) -> usize
        ensures count { result ≡ count self.now }
        ensures few { count self.now < 2 ^ 32 };

    /// The path of the process at this place, from 0, in path order.
    fn path(&self, place: usize) -> Option<&Path>
        ensures { IsSome result ↔ (place < count self.now) };

    /// How many channels there are.
    fn channels(&self) -> usize;

    /// The channel at this place, from 0, in the order of their makers' paths and then of their numbers.
    fn channel(&self, place: usize) -> Option<&ChanName>;

    /// The number of the packet that would be sent; none where there is none.
    fn number(&self, channel: &ChanName, place: u32) -> Option<u64>
        ensures { IfSome result (λ n. n < 2 ^ 63) };

    /// How many things are on the wire.
    fn wire(&self) -> usize;

    /// Whether no process has a step any more, whatever arrives.
    fn has_ended(&self) -> Result<bool, NoMemory>
        ensures ended { IfOk result (λ over. over ≡ true → HasEnded self.now) }
        ensures goes_on { IfOk result (λ over. over ≡ false → HasEnded self.now → ⊥) };

    /// Does what happens, and tells whether it could; what is put on the wire stands last. A step costs a turn at
    /// least, and nothing else costs any; where it couldn't be done, and after want of memory, nothing has changed.
    fn act(&mut self, event: NodeEvent) -> Result<bool, NoMemory>
        requires { is_step event ≡ true → used self.old ≤ 1000000000 }
        ensures setting { setting self.new ≡ setting self.old }
        ensures pays { IfOk result (λ done. done ≡ true → is_step event ≡ true → used self.old < used self.new) }
        ensures grows { OnOk result (count self.old ≤ count self.new) }
        ensures few { OnOk result (count self.new < 2 ^ 32) }
        ensures refused { IfOk result (λ done. done ≡ false →
            (used self.new ≡ used self.old) × (count self.new ≡ count self.old)) }
        ensures others { OnOk result (is_step event ≡ false →
            (used self.new ≡ used self.old) × (count self.new ≡ count self.old)) }
        ensures err { OnErr result ((used self.new ≡ used self.old) × (count self.new ≡ count self.old)) };
}
