//! Workers of every kind: whatever they do with the table, a run comes to its end, and says what is so.

use crate::answers::answer_by;
use fm_base::{NoMemory, Plan, Setup};
use fm_front::front;
use fm_table::{Piece, Table};
use fm_workers::{Phase, Workers};
use fmc::Exit;
use std::alloc::Global;
use std::sync::Arc;
use std::test::Fail;

const LEAST: &[u8] = b"      PROGRAM P\n      PRINT *, 1\n      END\n";

/// A producer, and a consumer that adds up.
const SUM: &[u8] = b"      PROGRAM SUM
      INPORT (INTEGER) PI
      OUTPORT (INTEGER) PO
      CHANNEL(IN=PI,OUT=PO)
      PROCESSES
      PROCESSCALL PRODUC(10,PO)
      PROCESSCALL CONSUM(PI)
      ENDPROCESSES
      END
      PROCESS PRODUC(N,P)
      OUTPORT (INTEGER) P
      DO 10 I = 1, N
   10 SEND(P) I
      ENDCHANNEL(P)
      END
      PROCESS CONSUM(P)
      INPORT (INTEGER) P
      INTEGER S
   10 RECEIVE(P,END=20) I
      S = S+I
      GOTO 10
   20 PRINT *, S
      END
";

/// Two senders on one inport.
const MERGE: &[u8] = b"      PROGRAM MERGE
      INPORT (INTEGER) P
      OUTPORT (INTEGER) Q(2)
      MERGER(IN=P,OUT=Q)
      PROCESSES
      PROCESSDO I = 1, 2
      PROCESSCALL W(I,Q(I))
      ENDPROCESSDO
      PROCESSCALL R(P)
      ENDPROCESSES
      END
      PROCESS W(N,Q)
      OUTPORT (INTEGER) Q
      SEND(Q) N
      ENDCHANNEL(Q)
      END
      PROCESS R(P)
      INPORT (INTEGER) P
   10 RECEIVE(P,END=20) I
      PRINT *, I
      GOTO 10
   20 END
";

/// A reader that polls, and a writer that works first.
const POLL: &[u8] = b"      PROGRAM POLL
      INPORT (INTEGER) P
      OUTPORT (INTEGER) Q
      CHANNEL(IN=P,OUT=Q)
      PROCESSES
      PROCESSCALL LOOK(P)
      PROCESSCALL WORK(Q)
      ENDPROCESSES
      END
      PROCESS LOOK(P)
      INPORT (INTEGER) P
      LOGICAL E
   10 PROBE(P,EMPTY=E)
      IF(E) GOTO 10
      RECEIVE(P) I
      PRINT *, I
      END
      PROCESS WORK(Q)
      OUTPORT (INTEGER) Q
      DO 10 I = 1, 5000
   10 CONTINUE
      SEND(Q) I
      END
";

/// Gives none back.
struct Loses;

impl Workers<Table> for Loses {
    fn drive(&self, _table: Table, _count: u32) -> Option<Table> {
        None
    }
}

/// Gives the table of another program back.
#[derive(Drop)]
struct Exchanges {
    alloc: Global,
}

/// The table of a program of two steps.
pub fn least_table(alloc: Global) -> Result<Option<Table>, NoMemory> {
    let setup = Setup {
        turns: 10_000_000,
        slice: 1_000,
        workers: 4,
        plan: Plan::Cyclic,
    };
    match front(alloc, LEAST) {
        Ok(program) => Ok(Some(Table::new(alloc, Arc::new(alloc, program)?, setup)?)),
        Err(_) => Ok(None),
    }
}

impl Workers<Table> for Exchanges {
    fn drive(&self, _table: Table, _count: u32) -> Option<Table> {
        match least_table(self.alloc) {
            Ok(table) => table,
            Err(NoMemory) => None,
        }
    }
}

/// Takes every piece, and drops it.
#[derive(Drop)]
struct Drops {
    alloc: Global,
}

impl Workers<Table> for Drops {
    fn drive(&self, mut table: Table, _count: u32) -> Option<Table> {
        'pieces: for _ in 0..100 {
            match table.take(self.alloc, 0) {
                Ok(Some(_)) => {}
                Ok(None) => break,
                Err(NoMemory) => break,
            }
        }
        Some(table)
    }
}

/// Chooses who makes the next piece, and behind its choices the first one.
#[derive(Drop)]
struct Chooses {
    alloc: Global,
    choices: &'static [u64],
}

impl Workers<Table> for Chooses {
    fn drive(&self, mut table: Table, _count: u32) -> Option<Table> {
        'pieces: for place in 0..1000usize {
            let choice = match self.choices.get(place) {
                Some(choice) => *choice,
                None => 0,
            };
            match table.turn(self.alloc, choice) {
                Ok(true) => {}
                Ok(false) => break,
                Err(NoMemory) => break,
            }
        }
        Some(table)
    }
}

/// Keeps the piece of main's second child out, and plays the others until the turns are spent.
#[derive(Drop)]
struct Keeps {
    alloc: Global,
}

// Plays main until it has started its children.
fn start(alloc: Global, table: &mut Table) -> Result<(), NoMemory> {
    'pieces: for _ in 0..10 {
        if table.paths().len() == 3 {
            return Ok(());
        }
        table.turn(alloc, 0)?;
    }
    Ok(())
}

// Takes the pieces of both children, and gives what the first one's came to.
fn keep_second(alloc: Global, table: &mut Table) -> Result<Option<Piece>, NoMemory> {
    let first = table.take(alloc, 0)?;
    let second = table.take(alloc, 0)?;
    let Some(piece) = first else {
        return Ok(second);
    };
    match table.give(alloc, piece.advance(alloc)?) {
        Ok(_) => Ok(second),
        Err(_) => Err(NoMemory),
    }
}

fn spend(alloc: Global, table: &mut Table) -> Result<(), NoMemory> {
    'pieces: for _ in 0..200_000 {
        if !table.turn(alloc, 0)? {
            return Ok(());
        }
    }
    Ok(())
}

impl Workers<Table> for Keeps {
    fn drive(&self, mut table: Table, _count: u32) -> Option<Table> {
        if start(self.alloc, &mut table).is_err() {
            return None;
        }
        let Ok(_kept) = keep_second(self.alloc, &mut table) else {
            return None;
        };
        if spend(self.alloc, &mut table).is_err() {
            return None;
        }
        match table.phase() {
            Phase::Spent => Some(table),
            Phase::Going | Phase::Ended => None,
        }
    }
}

#[test]
fn whoever_plays(rt: HostRuntime) -> Result<(), Fail> {
    let alloc = rt.alloc();
    let words = &["run"];
    let (_, text) = answer_by(alloc, words, SUM, &Loses)?;
    assert_eq!(rt; text.as_slice(), b" 55\n".as_slice());
    let (_, text) = answer_by(alloc, words, SUM, &Exchanges { alloc })?;
    assert_eq!(rt; text.as_slice(), b" 55\n".as_slice());
    let (_, text) = answer_by(alloc, words, SUM, &Drops { alloc })?;
    assert_eq!(rt; text.as_slice(), b" 55\n".as_slice());
    Ok(())
}

#[test]
fn what_is_chosen_is_kept(rt: HostRuntime) -> Result<(), Fail> {
    let alloc = rt.alloc();
    let first = Chooses {
        alloc,
        choices: &[0, 0, 0],
    };
    let second = Chooses {
        alloc,
        choices: &[0, 0, 1],
    };
    let (_, text) = answer_by(alloc, &["run"], MERGE, &first)?;
    assert_eq!(rt; text.as_slice(), b" 1\n 2\n".as_slice());
    let (_, text) = answer_by(alloc, &["run"], MERGE, &second)?;
    assert_eq!(rt; text.as_slice(), b" 2\n 1\n".as_slice());
    Ok(())
}

#[test]
fn a_poll_that_spent_all_is_given_up(rt: HostRuntime) -> Result<(), Fail> {
    let alloc = rt.alloc();
    let words = &["run", "--turns", "100000"];
    let (ran, text) = answer_by(alloc, words, POLL, &Keeps { alloc })?;
    assert_eq!(rt; text.as_slice(), b" 5001\n".as_slice());
    assert_eq!(rt; ran.exit, Exit::Done);
    Ok(())
}
