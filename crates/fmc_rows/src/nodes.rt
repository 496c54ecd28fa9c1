//! Programs on hosts: what `nodes` writes, and that whatever happens there is one outcome.

use crate::answers::answer;
use crate::plain::{MERGER, PORT, WORDS};
use crate::{examples, language, programs};
use fm_base::{ChanName, NoMemory, Path, Plan};
use fm_front::front;
use fm_nodes::Nodes;
use fm_nodes_rounds::NodeEvent;
use fm_report::report;
use fm_rules::Program;
use fmc::Exit;
use rand_core::utils::NextWord;
use rand_pcg::Pcg32;
use std::alloc::Global;
use std::sync::Arc;
use std::test::Fail;

/// Two stages on nodes of a machine pass a number on; one faults, and who waits for it stays.
const RING: &[u8] = b"      PROGRAM RING
      PROCESSORS(3)
      INPORT (INTEGER) P(2)
      OUTPORT (INTEGER) Q(2)
      DO 10 I = 1, 2
   10 CHANNEL(IN=P(I),OUT=Q(I))
      PROCESSES
      PROCESSDO I = 1, 2
      PROCESSCALL STAGE(I,P(I),Q(3-I)) LOCATION(I)
      ENDPROCESSDO
      ENDPROCESSES
      END
      PROCESS STAGE(K,P,Q)
      INTENT (IN) K
      INPORT (INTEGER) P
      OUTPORT (INTEGER) Q
      IF (K .EQ. 1) SEND(Q) 1
   10 RECEIVE(P,END=20) J
      PRINT *, K, J
      IF (J .EQ. 3) I = 1/(J-3)
      SEND(Q) J+1
      GOTO 10
   20 END
";

/// The second message has more words than there is room for: who receives it faults, and it stays.
const LONG: &[u8] = b"      PROGRAM LONG
      INPORT (INTEGER N, INTEGER X(N)) P
      OUTPORT (INTEGER N, INTEGER X(N)) Q
      CHANNEL(IN=P,OUT=Q)
      PROCESSES
      PROCESSCALL GIVE(Q)
      PROCESSCALL TAKE(P)
      ENDPROCESSES
      END
      PROCESS GIVE(Q)
      OUTPORT (INTEGER N, INTEGER X(N)) Q
      INTEGER A(4)
      SEND(Q) 2, A
      SEND(Q) 4, A
      END
      PROCESS TAKE(P)
      INPORT (INTEGER N, INTEGER X(N)) P
      INTEGER B(3)
      RECEIVE(P) K, B
      PRINT *, K
      RECEIVE(P) K, B
      END
";

/// The numbers of networks.
pub(crate) const NUMBERS: [&str; 6] = ["0", "1", "2", "3", "4", "5"];

/// How many lists of events are tried of a program.
const LISTS: u64 = 3_400;

/// How many events a list has.
const EVENTS: u64 = 1_500;

#[test]
fn nodes_write_reports(rt: HostRuntime) -> Result<(), Fail> {
    let alloc = rt.alloc();
    let (ran, text) = answer(alloc, &["nodes", "5"], WORDS)?;
    assert_eq!(rt; text.as_slice(), b" got 1\n got 2\n got 3\n".as_slice());
    assert_eq!(rt; ran.exit, Exit::Done);
    assert_eq!(rt; ran.history.len(), 31);
    for source in [PORT, MERGER] {
        let (ran, text) = answer(alloc, &["nodes", "5"], source)?;
        assert_eq!(rt; text.as_slice(), b"not for nodes: line 4\n".as_slice());
        assert_eq!(rt; ran.exit, Exit::NotPlain);
        assert_eq!(rt; ran.history.len(), 0);
        assert_eq!(rt; ran.paths.len(), 0);
    }
    let (ran, text) = answer(alloc, &["nodes", "0", "--turns=3"], WORDS)?;
    assert_eq!(rt; text.as_slice(), b"spent 3\n".as_slice());
    assert_eq!(rt; ran.exit, Exit::Spent);
    let (_, source) = answer(alloc, &["make", "7"], b"")?;
    let (_, text) = answer(alloc, &["nodes", "5"], &source)?;
    assert_eq!(rt; text.as_slice(), b" 51360\n".as_slice());
    Ok(())
}

/// The number over whose network a program comes to another text or exit than `run`, if there is one. A program that
/// isn't plain comes to its line over each of them.
fn first_other(alloc: Global, source: &[u8]) -> Result<Option<&'static str>, Fail> {
    let (ran, text) = answer(alloc, &["run", "--vars"], source)?;
    for number in NUMBERS {
        let (hosted, told) = answer(alloc, &["nodes", number, "--vars"], source)?;
        if hosted.exit != Exit::NotPlain && (hosted.exit != ran.exit || told != text) {
            return Ok(Some(number));
        }
    }
    Ok(None)
}

#[test]
fn hosts_tell_what_runs_tell(rt: HostRuntime) -> Result<(), Fail> {
    for (i, row) in language::rows().iter().enumerate() {
        assert_eq!(rt;
            first_other(rt.alloc(), row.source)?,
            None,
            "language row {i}"
        );
    }
    for (i, row) in programs::run_rows().iter().enumerate() {
        assert_eq!(rt;
            first_other(rt.alloc(), row.source)?,
            None,
            "programs row {i}"
        );
    }
    for (i, row) in examples::rows().iter().enumerate() {
        assert_eq!(rt;
            first_other(rt.alloc(), row.source)?,
            None,
            "examples row {i}"
        );
    }
    Ok(())
}

/// The checked program of a source.
pub(crate) fn program_of(alloc: Global, source: &[u8]) -> Result<Arc<Program>, NoMemory> {
    if source.len() > 1_000_000 {
        return Err(NoMemory);
    }
    match front(alloc, source) {
        Ok(program) => Ok(Arc::new(alloc, program)?),
        Err(_) => Err(NoMemory),
    }
}

/// A place among so many, by a number at random.
fn some_place(pick: u32, count: usize) -> usize {
    if count == 0 { 0 } else { pick as usize % count }
}

/// The path of a process, by a number at random.
fn some_path(alloc: Global, nodes: &Nodes, pick: u32) -> Result<Path, NoMemory> {
    match nodes.path(some_place(pick, nodes.count())) {
        Some(path) => path.copy(alloc),
        None => Ok(Path::main(alloc)),
    }
}

/// The name of a channel, by a number at random; where there is none, of one that isn't there.
fn some_channel(alloc: Global, nodes: &Nodes, pick: u32) -> Result<ChanName, NoMemory> {
    match nodes.channel(some_place(pick, nodes.channels())) {
        Some(channel) => channel.copy(alloc),
        None => Ok(ChanName {
            maker: Path::main(alloc),
            number: 1,
        }),
    }
}

/// An event, by a number at random: half of them are steps.
fn some_event(alloc: Global, nodes: &Nodes, word: u32) -> Result<NodeEvent, NoMemory> {
    let pick = word / 32;
    match word % 32 {
        0 => Ok(NodeEvent::Restart(pick % 5)),
        1 | 2 | 3 | 4 => Ok(NodeEvent::Lose(pick % 8)),
        5 | 6 | 7 | 8 | 9 => Ok(NodeEvent::Deliver(pick % 8)),
        10 | 11 => Ok(NodeEvent::Answer(some_channel(alloc, nodes, pick)?)),
        12 | 13 | 14 | 15 => {
            let channel = some_channel(alloc, nodes, pick / 4)?;
            Ok(NodeEvent::Send(channel, pick % 4))
        }
        _ => Ok(NodeEvent::Step(some_path(alloc, nodes, pick)?)),
    }
}

/// What happens, and whether it could.
pub(crate) fn act(nodes: &mut Nodes, event: NodeEvent) -> Result<bool, NoMemory> {
    if nodes.used() > 1_000_000_000 {
        return Ok(false);
    }
    nodes.act(event)
}

/// The report, if no process has a step any more.
fn report_of(alloc: Global, nodes: &Nodes) -> Result<Option<Vec<u8>>, NoMemory> {
    match nodes.outcome()? {
        Some(outcome) => Ok(Some(report(alloc, &outcome, true)?)),
        None => Ok(None),
    }
}

/// The report of a program behind a list of events at random, if no process has a step any more.
fn report_behind(
    alloc: Global,
    program: &Arc<Program>,
    seed: u64,
) -> Result<Option<Vec<u8>>, Fail> {
    let hosts = 1 + (seed % 4) as u32;
    let mut nodes = Nodes::new(alloc, Arc::try_clone(program)?, hosts, Plan::Cyclic).map_err(
        |_| "not plain",
    )?;
    let mut words = Pcg32::new(seed, 2);
    for _ in 0..EVENTS {
        let event = some_event(alloc, &nodes, words.next_word())?;
        act(&mut nodes, event)?;
    }
    Ok(report_of(alloc, &nodes)?)
}

/// How many lists of events lead a program to its end, and how many of them to another report than `run` has.
fn ends_of(alloc: Global, source: &[u8]) -> Result<(u64, u64), Fail> {
    let (_, text) = answer(alloc, &["run", "--vars"], source)?;
    let program = program_of(alloc, source)?;
    let mut ended: u64 = 0;
    let mut other: u64 = 0;
    for seed in 0..LISTS {
        if let Some(told) = report_behind(alloc, &program, seed)? {
            ended = ended.saturating_add(1);
            if told != text {
                other = other.saturating_add(1);
            }
        }
    }
    Ok((ended, other))
}

#[test]
fn whatever_happens_there_is_one_outcome(rt: HostRuntime) -> Result<(), Fail> {
    for source in [WORDS, RING, LONG] {
        let (ended, other) = ends_of(rt.alloc(), source)?;
        assert_eq!(rt; other, 0);
        assert!(rt; ended > LISTS / 2, "{ended} lists come to an end");
    }
    Ok(())
}
