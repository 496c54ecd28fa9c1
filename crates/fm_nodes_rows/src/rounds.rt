//! Two processes that are driven by rounds: the first one sends numbers over a channel, down to 0, and the second one
//! adds them up.

ghost use Rattle.std.specs.Prelude.{◌≡◌, true, IfOk};

use crate::network::{AllHosts, first_word, name, network, send};
use fm_base::{ChanName, NoMemory, Path};
use fm_nodes_network::Network;
use fm_nodes_rounds::{Driven, Hosts, NodeEvent, drive};
use std::alloc::Global;
use std::test::Fail;

#[derive(Drop)]
struct Pair {
    alloc: Global,
    sender: Path,
    reader: Path,
    channel: ChanName,
    network: Network,
    left: i64,
    total: i64,
    ended: bool,
    used: u64,
}

impl Pair {
    fn new(alloc: Global, left: i64) -> Result<Pair, NoMemory>
        ensures { IfOk result (λ pair. pair.used ≡ 0) }
    {
        let sender = Path::main(alloc);
        let reader = sender.child(alloc, 1, 1)?;
        Ok(Pair {
            alloc,
            sender,
            reader,
            channel: name(alloc),
            network: network(alloc)?,
            left,
            total: 0,
            ended: false,
            used: 0,
        })
    }

    fn send(&mut self) -> Result<bool, NoMemory>
        ensures { self.new.used ≡ self.old.used }
    {
        if self.left <= 0 {
            return Ok(false);
        }
        self.left -= 1;
        send(self.alloc, &mut self.network, &self.channel, self.left)?;
        Ok(true)
    }

    fn receive(&mut self) -> bool
        ensures { self.new.used ≡ self.old.used }
    {
        match first_word(&self.network, &self.channel) {
            None => false,
            Some(word) => {
                self.network.channels.take(&self.channel);
                self.total = self.total.wrapping_add(word);
                self.ended = word == 0;
                true
            }
        }
    }

    fn step(&mut self, path: &Path) -> Result<bool, NoMemory>
        ensures { self.new.used ≡ self.old.used }
    {
        if *path == self.sender {
            return self.send();
        }
        Ok(self.receive())
    }
}

impl Hosts for Pair {
    ghost used = { λ pair. pair.used };

    ghost count = { λ pair. 2 };

    ghost HasEnded = { λ pair. pair.ended ≡ true };

    ghost Setting = { Unit {0} };

    ghost setting = { λ pair. tt };

    fn used(&self) -> u64 {
        self.used
    }

    fn count(&self) -> usize {
        2
    }

    fn path(&self, place: usize) -> Option<&Path> {
        match place {
            0 => Some(&self.sender),
            1 => Some(&self.reader),
            _ => None,
        }
    }

    fn channels(&self) -> usize {
        1
    }

    fn channel(&self, place: usize) -> Option<&ChanName> {
        if place == 0 {
            Some(&self.channel)
        } else {
            None
        }
    }

    fn number(&self, channel: &ChanName, place: u32) -> Option<u64> {
        let number = self.network.channels.get(channel)?.number(place as usize)?;
        if number < 1000 { Some(number) } else { None }
    }

    fn wire(&self) -> usize {
        self.network.wire.len()
    }

    fn has_ended(&self) -> Result<bool, NoMemory> {
        Ok(self.ended)
    }

    fn act(&mut self, event: NodeEvent) -> Result<bool, NoMemory> {
        match event {
            NodeEvent::Step(path) => {
                let used = self.used + 1;
                let done = self.step(&path)?;
                if done {
                    self.used = used;
                }
                Ok(done)
            }
            NodeEvent::Send(channel, place) => {
                self.network.send(self.alloc, &channel, place as usize)
            }
            NodeEvent::Answer(channel) => self.network.answer(self.alloc, &channel),
            NodeEvent::Deliver(place) => self.network.deliver(self.alloc, place as usize),
            NodeEvent::Lose(place) => Ok(self.network.lose(place as usize)),
            NodeEvent::Restart(_) => {
                self.network.restart(&AllHosts);
                Ok(true)
            }
        }
    }
}

#[test]
fn every_seed_gives_one_total(rt: HostRuntime) -> Result<(), Fail> {
    let alloc = rt.alloc();
    for seed in 0..6 {
        let mut pair = Pair::new(alloc, 21)?;
        let driven = drive(alloc, &mut pair, seed, 1000)?;
        assert_eq!(rt; driven, Driven::Ended);
        assert_eq!(rt; pair.total, 210);
        assert_eq!(rt; pair.used, 42);
    }
    Ok(())
}

#[test]
fn turns_are_spent(rt: HostRuntime) -> Result<(), Fail> {
    let alloc = rt.alloc();
    let mut pair = Pair::new(alloc, 21)?;
    let driven = drive(alloc, &mut pair, 5, 30)?;
    assert_eq!(rt; driven, Driven::Spent);
    assert_eq!(rt; pair.used, 31);
    Ok(())
}
