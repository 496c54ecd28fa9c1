//! The rounds of `nodes`, written down once more, and the steps to which they lead.
//!
//! A round has three parts:
//!
//! 1. Each process, in the order of the paths, steps until it has no step on what has arrived. A process that is
//!    started meanwhile steps in the same round.
//! 2. Each channel, in the order of the channels, sends its first two packets that aren't acknowledged. The packet that
//!    was sent last comes first.
//! 3. Each inbox answers, in the order of the channels, and its answer comes at once.
//!
//! What has come, or is lost, leaves the wire. The rounds end when no process has a step, whatever may still arrive.

use crate::answers::answer;
use crate::nodes::{NUMBERS, act, program_of};
use crate::plain::WORDS;
use fm_base::{ChanName, NoMemory, Path, Plan, Turn};
use fm_nodes::Nodes;
use fm_nodes_rounds::NodeEvent;
use fm_rules::Program;
use std::alloc::Global;
use std::sync::Arc;
use std::test::Fail;

/// Main sends a message to itself.
const ALONE: &[u8] = b"      PROGRAM VAR
      INPORT (INTEGER N, INTEGER X(N)) P
      OUTPORT (INTEGER N, INTEGER X(N)) Q
      INTEGER A(4), B(3)
      CHANNEL(IN=P,OUT=Q)
      A(1) = 7
      A(2) = 8
      SEND(Q) 2, A
      RECEIVE(P) K, B
      PRINT *, K, B
      END
";

/// What another program with the same rounds found of a source.
struct Found {
    source: &'static [u8],
    /// The steps in their order, over each network: the number of a process, and how many steps it makes in succession.
    steps: &'static [(u32, u32)],
    /// How many rounds there are, by the number of the network.
    rounds: [u64; 6],
}

const FOUND: [Found; 2] = [
    Found {
        source: WORDS,
        steps: &[(0, 5), (1, 9), (2, 15), (0, 2)],
        rounds: [7, 7, 9, 7, 7, 9],
    },
    Found {
        source: ALONE,
        steps: &[(0, 7)],
        rounds: [2, 3, 4, 2, 3, 4],
    },
];

/// How many steps it found of the generated program 7, over each network.
const MADE_STEPS: usize = 9515;

/// How many rounds it found of that program, by the number of the network.
const MADE_ROUNDS: [u64; 6] = [227, 227, 228, 227, 227, 228];

/// More than the rounds, the processes and the steps of a process in a round that any of these programs has.
const MANY: u64 = 100_000;

/// A packet, and how often it was sent.
#[derive(Drop)]
struct Sent {
    channel: ChanName,
    number: u64,
    times: u64,
}

/// How often this packet was sent before. Counts one sending more.
fn sent_before(
    alloc: Global,
    sent: &mut Vec<Sent>,
    channel: &ChanName,
    number: u64,
) -> Result<u64, NoMemory> {
    for row in sent.iter_mut() {
        if row.number == number && row.channel == *channel {
            let before = row.times;
            row.times = before.saturating_add(1);
            return Ok(before);
        }
    }
    sent.push(Sent {
        channel: channel.copy(alloc)?,
        number,
        times: 1,
    })?;
    Ok(0)
}

/// How often a packet comes over the network of this number, by its own number and how often it was sent before.
fn comings(network: u64, number: u64, before: u64) -> u64 {
    let sum = network.wrapping_add(number);
    if before < sum % 3 {
        0
    } else if sum % 2 == 0 {
        2
    } else {
        1
    }
}

/// The process at this path steps until it has no step on what has arrived.
fn step_one(alloc: Global, nodes: &mut Nodes, path: &Path) -> Result<(), NoMemory> {
    for _ in 0..MANY {
        if !act(nodes, NodeEvent::Step(path.copy(alloc)?))? {
            break;
        }
    }
    Ok(())
}

/// The first part of a round.
fn step_all(alloc: Global, nodes: &mut Nodes) -> Result<(), NoMemory> {
    for place in 0..MANY {
        let path = match nodes.path(place as usize) {
            Some(path) => path.copy(alloc)?,
            None => break,
        };
        step_one(alloc, nodes, &path)?;
    }
    Ok(())
}

/// The channel at this place, in their order.
fn channel_at(alloc: Global, nodes: &Nodes, place: usize) -> Result<ChanName, NoMemory> {
    match nodes.channel(place) {
        Some(channel) => channel.copy(alloc),
        None => Err(NoMemory),
    }
}

/// Sends the first two packets of each channel. Returns how often each of them comes, in the order of the wire.
fn send_all(
    alloc: Global,
    nodes: &mut Nodes,
    sent: &mut Vec<Sent>,
    network: u64,
) -> Result<Vec<u64>, NoMemory> {
    let mut times = Vec::new(alloc);
    for at in 0..nodes.channels() {
        let channel = channel_at(alloc, nodes, at)?;
        for place in 0..2u32 {
            if let Some(number) = nodes.number(&channel, place) {
                let before = sent_before(alloc, sent, &channel, number)?;
                times.push(comings(network, number, before))?;
                act(nodes, NodeEvent::Send(channel.copy(alloc)?, place))?;
            }
        }
    }
    Ok(times)
}

/// The last thing on the wire comes so often, and then leaves the wire.
fn bring(nodes: &mut Nodes, times: u64) -> Result<(), NoMemory> {
    let last = match u32::try_from(nodes.wire().saturating_sub(1)) {
        Ok(last) => last,
        Err(_) => return Err(NoMemory),
    };
    for _ in 0..times {
        act(nodes, NodeEvent::Deliver(last))?;
    }
    act(nodes, NodeEvent::Lose(last))?;
    Ok(())
}

/// The second part of a round.
fn send_and_bring(
    alloc: Global,
    nodes: &mut Nodes,
    sent: &mut Vec<Sent>,
    network: u64,
) -> Result<(), NoMemory> {
    let times = send_all(alloc, nodes, sent, network)?;
    for often in times.iter().rev() {
        bring(nodes, *often)?;
    }
    Ok(())
}

/// The third part of a round.
fn answer_all(alloc: Global, nodes: &mut Nodes) -> Result<(), NoMemory> {
    for at in 0..nodes.channels() {
        let channel = channel_at(alloc, nodes, at)?;
        act(nodes, NodeEvent::Answer(channel))?;
        bring(nodes, 1)?;
    }
    Ok(())
}

/// A program on hosts, driven over the network of this number to its end, and how many rounds that took.
fn driven(alloc: Global, program: &Arc<Program>, network: u64) -> Result<(Nodes, u64), Fail> {
    let hosts = 1 + (network % 4) as u32;
    let mut nodes = Nodes::new(alloc, Arc::try_clone(program)?, hosts, Plan::Cyclic).map_err(
        |_| "not plain",
    )?;
    let mut sent = Vec::new(alloc);
    for round in 1..MANY {
        step_all(alloc, &mut nodes)?;
        send_and_bring(alloc, &mut nodes, &mut sent, network)?;
        answer_all(alloc, &mut nodes)?;
        if nodes.has_ended()? {
            return Ok((nodes, round));
        }
    }
    Err(Fail::from("goes on"))
}

/// Whether two histories have the same entries.
fn same_history(one: &[Turn], other: &[Turn]) -> bool {
    for (a, b) in one.iter().zip(other) {
        if a.number != b.number || a.steps != b.steps {
            return false;
        }
    }
    one.len() == other.len()
}

/// Whether two lists have the same paths.
fn same_paths(one: &[Arc<Path>], other: &[Arc<Path>]) -> bool {
    for (a, b) in one.iter().zip(other) {
        if **a != **b {
            return false;
        }
    }
    one.len() == other.len()
}

/// Whether a history has these steps, in entries of one step each.
fn has_steps(history: &[Turn], steps: &[(u32, u32)]) -> bool {
    let mut entries = history.iter();
    for (number, count) in steps {
        for _ in 0..*count {
            match entries.next() {
                Some(turn) => {
                    if turn.number != *number || turn.steps != 1 {
                        return false;
                    }
                }
                None => return false,
            }
        }
    }
    entries.next().is_none()
}

/// The history that `nodes` keeps of a program over the network of this number and name, and the number of its rounds.
/// None if the rounds above lead to another history or to other paths.
fn history_of(
    alloc: Global,
    source: &[u8],
    network: usize,
    name: &str,
) -> Result<Option<(Vec<Turn>, u64)>, Fail> {
    let (ran, _) = answer(alloc, &["nodes", name], source)?;
    let program = program_of(alloc, source)?;
    let (nodes, rounds) = driven(alloc, &program, network as u64)?;
    if same_history(nodes.history(), &ran.history) && same_paths(nodes.paths(), &ran.paths) {
        return Ok(Some((ran.history, rounds)));
    }
    Ok(None)
}

#[test]
fn steps_come_by_rounds(rt: HostRuntime) -> Result<(), Fail> {
    for found in FOUND.iter() {
        for (network, name) in NUMBERS.iter().enumerate() {
            match history_of(rt.alloc(), found.source, network, *name)? {
                Some((history, rounds)) => {
                    assert!(rt; has_steps(&history, found.steps), "nodes {name}");
                    assert_eq!(rt; Some(&rounds), found.rounds.get(network), "nodes {name}");
                }
                None => assert!(rt; false, "nodes {name}"),
            }
        }
    }
    Ok(())
}

#[test]
fn steps_of_a_made_program_come_by_rounds(rt: HostRuntime) -> Result<(), Fail> {
    let (_, source) = answer(rt.alloc(), &["make", "7"], b"")?;
    for (network, name) in NUMBERS.iter().enumerate() {
        match history_of(rt.alloc(), &source, network, *name)? {
            Some((history, rounds)) => {
                assert_eq!(rt; history.len(), MADE_STEPS, "nodes {name}");
                assert_eq!(rt; Some(&rounds), MADE_ROUNDS.get(network), "nodes {name}");
            }
            None => assert!(rt; false, "nodes {name}"),
        }
    }
    Ok(())
}
