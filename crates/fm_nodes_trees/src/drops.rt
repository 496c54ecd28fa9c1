//! Ports that a process lets go.

ghost use Rattle.fm_rules.specs.declared.program.Program as declared;
ghost use Rattle.std.specs.Prelude.{◌≡◌, ◌++◌, []};
ghost use Rattle.std.specs.List.{flat_map};
ghost use Rattle.fm_plain_frame.specs.LetGo.{let_go_ports};
ghost use Rattle.fm_plain_frame.specs.Leaving.{Pops, Yields};

use fm_base::PortValue;
use fm_plain_frame::{Leaving, LetGo};
use fm_rules::Program;
use std::alloc::Global;
use std::collections::VecDeque;

/// Ports on their way out: those at hand, and those that come later.
#[derive(Drop)]
pub struct Drops {
    alloc: Global,
    at_hand: Leaving,
    rest: VecDeque<LetGo>,
}

// The next list, if one is left.
fn next_list(rest: &mut VecDeque<LetGo>) -> Option<LetGo>
    ensures { Pops rest.old.items result rest.new.items }
{
    rest.pop_front()
}

impl Drops {
    ghost use Rattle.fm_nodes_trees.specs.Drops.{drops_in};

    /// These are let go, and then all of the rest in turn. Takes no memory.
    pub(crate) fn new(alloc: Global, first: LetGo, rest: Vec<LetGo>) -> Drops
        ensures { (p : declared.Program)
            → drops_in p result ≡ let_go_ports p first ++ flat_map (let_go_ports p) rest.items }
    {
        Drops {
            alloc,
            at_hand: Leaving::new(alloc, first),
            rest: VecDeque::from_vec(rest),
        }
    }

    /// No port is let go. Takes no memory.
    pub(crate) fn none(alloc: Global) -> Drops
        ensures { (p : declared.Program) → drops_in p result ≡ [] }
    {
        Drops::new(alloc, LetGo::new(alloc), Vec::new(alloc))
    }

    /// These are let go. Takes no memory.
    pub(crate) fn one(alloc: Global, ports: LetGo) -> Drops
        ensures { (p : declared.Program) → drops_in p result ≡ let_go_ports p ports }
    {
        Drops::new(alloc, ports, Vec::new(alloc))
    }

    /// The next port that is let go, or none where all are. Takes no memory.
    pub(crate) fn next(&mut self, program: &Program) -> Option<PortValue>
        ensures { Yields (drops_in program.now self.old) result (drops_in program.now self.new) }
    {
        'lists: loop {
            let port = self.at_hand.next(program);
            if port.is_some() {
                return port;
            }
            match next_list(&mut self.rest) {
                None => return None,
                Some(ports) => self.at_hand = Leaving::new(self.alloc, ports),
            }
        }
    }
}
