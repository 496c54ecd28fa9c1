//! What runs processes, one step after the other.

ghost use Rattle.std.specs.Prelude.{◌≡◌, ◌^◌, ◌<◌, ◌++◌, [], ℕ, nat_lt, List, Some, None, map, option_to_list, option_copied, IfNone, IfOk, OnErr};
ghost use Rattle.fm_base.specs.declared.path.ChanName as declared;
ghost use Rattle.fm_base.specs.declared.port.PortValue as declared_port;
ghost use Rattle.fm_net.specs.Language.{Language};
ghost use Rattle.fm_net.specs.Lawful.{IsLawfulLanguage};
ghost use Rattle.fm_net.specs.Machine.{Place, Need, Nothing, Children, Reply, Onward, Go, made, reply_with};
ghost use Rattle.fm_net.specs.Owned.{IsOwned, count, main_alone};
ghost use Rattle.fm_link_law.specs.Play.{AsksForWords, IsNeedOfWords};
ghost use Rattle.fm_nodes_procs.specs.Asks.{AllLeft, GoesSo, StartsSo, came_with, need_asked, need_told};

use fm_base::{ChanName, NoMemory, Path, PortValue, Seq};
use std::alloc::Global;

/// What a process asks for, with its operands.
#[derive(Drop)]
pub enum Asked {
    /// Nothing more: it has ended or faulted.
    Rests,
    /// Nothing of others: it goes on.
    Goes,
    /// A new channel of this number, with one writer or none.
    Makes(u32, bool),
    /// A message of these words goes into a channel, by this writer.
    Sends(ChanName, u32, Seq<Seq<i64>>),
    /// A message within these limits comes from a channel.
    Receives(ChanName, Vec<Option<u32>>),
    /// The children of this block, of whom there are so many, have ended.
    Joins(u32, usize),
}

/// What a process asks for, the number of the block in which its next children start, and how many start with its next
/// step.
#[derive(Drop)]
pub struct Request {
    /// What it asks for.
    pub asked: Asked,
    /// The number of the block.
    pub block: u32,
    /// How many children start.
    pub starts: usize,
}

/// What a process left behind that went on: the children that it starts, the ports that it lets go, and the cost.
#[derive(Drop)]
pub struct Gone<P, D> {
    /// The children, in order.
    pub starts: Vec<P>,
    /// The ports that it lets go.
    pub drops: D,
    /// The cost in turns.
    pub cost: u64,
}

/// What runs the processes of a language.
pub trait Runner: Drop {
    /// A process.
    type Process: Drop;

    /// Ports that a process lets go.
    type Drops: Drop;

    /// What an ended child leaves to its parent.
    type Left: Drop;

    /// A process as the language sees it.
    ghost Proc: { Type 0 };

    /// A process as the language sees it.
    ghost seen: { Self → Self.Process → Proc };

    /// The language.
    ghost language: { Self → Language Proc };

    /// The process that is alone in the beginning.
    ghost main: { Self → Proc };

    /// The ports that are let go.
    ghost let_go: { Self → Self.Drops → List declared_port.PortValue };

    /// This is what a child leaves.
    ghost IsLeft: { Self → Proc → Self.Left → Type 0 };

    /// The process that is alone in the beginning.
    fn first(&self, alloc: Global) -> Result<Self::Process, NoMemory>
        ensures { IfOk result (λ x. seen self.now x ≡ main self.now) };

    /// Whether a process has ended. Takes no memory.
    fn has_ended(&self, process: &Self::Process) -> bool
        ensures { result ≡ (language self.now).has_ended (seen self.now process.now) };

    /// What a process asks for.
    fn asked(&self, alloc: Global, process: &Self::Process) -> Result<Request, NoMemory>
        requires words { (need : Need) (f : declared.ChanName → Reply Proc → Onward Proc) →
            (language self.now).ask (seen self.now process.now) ≡ Go need f → IsNeedOfWords need }
        ensures need { IfOk result
            (λ q. need_told q.asked ≡ need_asked ((language self.now).ask (seen self.now process.now))) }
        ensures starts { IfOk result
            (λ q. StartsSo ((language self.now).ask (seen self.now process.now)) q.block q.starts) };

    /// Makes a step of a process that needs nothing and starts no child, in its place: the ports that it lets go, and
    /// the cost. None where its next step isn't such a one. Then, and after want of memory, the process is as it was.
    fn step_alone(
        &self,
        alloc: Global,
        process: &mut Self::Process,
    ) -> Result<Option<(Self::Drops, u64)>, NoMemory>
        ensures steps { IfOk result (λ o. (d : Self.Drops) (cost : ℕ)
            → o ≡ Some (d, cost)
            → (f : declared.ChanName → Reply Proc → Onward Proc)
            × ((language self.now).ask (seen self.now process.old) ≡ Go Nothing f)
            × ((c : declared.ChanName)
            → GoesSo (seen self.now process.new) [] (let_go self.now d) cost (f c (reply_with [])))) }
        ensures few { IfOk result (λ o. (d : Self.Drops) (cost : ℕ) → o ≡ Some (d, cost) → cost < 2 ^ 63) }
        ensures none { IfOk result (λ o. o ≡ None → seen self.now process.new ≡ seen self.now process.old) }
        ensures err { OnErr result (seen self.now process.new ≡ seen self.now process.old) };

    /// A process goes on that joins nobody, with the message that came, or with none, and whether one is there that
    /// exceeds its limits. After want of memory it is as it was.
    fn go_on(
        &self,
        alloc: Global,
        process: &mut Self::Process,
        path: &Path,
        message: Option<&Seq<Seq<i64>>>,
        exceeds: bool,
    ) -> Result<Gone<Self::Process, Self::Drops>, NoMemory>
        ensures goes { IfOk result (λ g. (need : Need) (f : declared.ChanName → Reply Proc → Onward Proc) →
            (language self.now).ask (seen self.now process.old) ≡ Go need f →
            ((b n : ℕ) → need ≡ Children b n → ⊥) →
            GoesSo (seen self.now process.new) (map (seen self.now) g.starts.items) (let_go self.now g.drops) g.cost
            (f (made path.now need) (came_with (option_copied message.entry) exceeds))) }
        ensures few { IfOk result (λ g. g.cost < 2 ^ 63) }
        ensures err { OnErr result (seen self.now process.new ≡ seen self.now process.old) };

    /// What an ended child leaves, as a copy.
    fn left(&self, alloc: Global, process: &Self::Process) -> Result<Self::Left, NoMemory>
        ensures { IfOk result (λ l. IsLeft self.now (seen self.now process.now) l) };

    /// A process goes on that joins children who left this. After want of memory it is as it was.
    fn join(
        &self,
        alloc: Global,
        process: &mut Self::Process,
        children: Vec<Self::Left>,
    ) -> Result<Gone<Self::Process, Self::Drops>, NoMemory>
        ensures goes { IfOk result (λ g. (b n : ℕ) (f : declared.ChanName → Reply Proc → Onward Proc) (kids : List Proc)
            → (language self.now).ask (seen self.now process.old) ≡ Go (Children b n) f
            → AllLeft (IsLeft self.now) kids children.items → (c : declared.ChanName)
            → GoesSo (seen self.now process.new) (map (seen self.now) g.starts.items) (let_go self.now g.drops) g.cost
            (f c (reply_with kids))) }
        ensures few { IfOk result (λ g. g.cost < 2 ^ 63) }
        ensures err { OnErr result (seen self.now process.new ≡ seen self.now process.old) };

    /// A child was joined: what it left is its parent's. Takes no memory.
    fn empty(&self, alloc: Global, process: &mut Self::Process)
        ensures { seen self.now process.new ≡ (language self.now).emptied (seen self.now process.old) };

    /// The next of the ports that are let go, in order. Takes no memory.
    fn next_drop(&self, drops: &mut Self::Drops) -> Option<PortValue>
        ensures ports { let_go self.now drops.old ≡ option_to_list result ++ let_go self.now drops.new }
        ensures none { IfNone result (let_go self.now drops.new ≡ []) };

    /// The host of a process.
    ghost host: { Self → Proc → ℕ };

    /// The host of a process. Takes no memory.
    fn host(&self, process: &Self::Process) -> u32
        ensures { result ≡ host self.now (seen self.now process.now) };

    /// Whether a process has a port: in a variable, in a start that is pending, or, where it has ended, kept for its
    /// starter.
    fn has(&self, process: &Self::Process, port: &PortValue) -> bool
        ensures { result ≡ nat_lt 0 (count port.now ((language self.now).held (seen self.now process.now))) };

    /// The language accounts for its ports.
    ghost is_lawful: { (r : Self) → IsLawfulLanguage (language r) };

    /// Main holds no port.
    ghost main_owns: { (r : Self) → IsOwned (language r) (main_alone (main r)) };

    /// Nobody sends a port, looks whether a message is there, or makes a channel with a second writer.
    ghost asks_for_words: { (r : Self) → AsksForWords (language r) (main_alone (main r)) };
}
