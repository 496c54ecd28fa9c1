//! Runs that threads play, under a lock, with lanes and with seats: two children of one block at once, and the same
//! answers as by turns.

ghost use Rattle.std.specs.Thread.{IsSync};

use crate::answers::{answer, answer_by};
use crate::programs::{Row, run_rows};
use fm_base::NoMemory;
use fm_hub_pool::HubPool;
use fm_machine::Done;
use fm_pool::Pool;
use fm_pool_table::Team;
use fm_steal_pool::StealPool;
use fm_table::{Piece, Table};
use fm_workers::{Gate, Plain, Workers};
use fmc::Exit;
use std::alloc::Global;
use std::sync::Wait;
use std::sync::atomic::{AtomicU64, Ordering};
use std::test::Fail;
use std::thread::Threads;

/// A tree of processes.
const TREE: &[u8] = b"      PROGRAM TREE
      PROCESSES
      PROCESSCALL NODE(6,1)
      ENDPROCESSES
      END
      PROCESS NODE(N,K)
      INTENT (IN) N, K
      PRINT *, K
      IF(N.EQ.0) RETURN
      PROCESSDO I = 0, 1
      PROCESSCALL NODE(N-1,2*K+I)
      ENDPROCESSDO
      END
";

/// Threads that play a run under a lock, all pieces of which go through a gate of the test's.
#[derive(Drop)]
struct HeldTeam<R: Threads + Wait + Sync> {
    pool: Pool<Holds, R>,
}

impl<R: Threads + Wait + Sync> Workers<Table> for HeldTeam<R> {
    ghost crosses = { IsSync R.row };

    fn drive(&self, table: Table, count: u32) -> Option<Table> {
        Some(self.pool.play(table, count))
    }
}

/// Threads that steal from each other, with a gate of the test's.
#[derive(Drop)]
struct LaneTeam<R: Threads + Wait + Sync> {
    pool: StealPool<Holds, R>,
}

impl<R: Threads + Wait + Sync> Workers<Table> for LaneTeam<R> {
    ghost crosses = { IsSync R.row };

    fn drive(&self, table: Table, count: u32) -> Option<Table> {
        Some(self.pool.play(table, count))
    }
}

/// Threads that take turns without a lock, with a gate of the test's.
#[derive(Drop)]
struct SeatTeam<R: Threads + Wait + Sync> {
    pool: HubPool<Holds, R>,
}

impl<R: Threads + Wait + Sync> Workers<Table> for SeatTeam<R> {
    ghost crosses = { IsSync R.row };

    fn drive(&self, table: Table, count: u32) -> Option<Table> {
        self.pool.play(table, count)
    }
}

/// Holds the first piece of one child until the gate was called for the other, where it holds at all.
#[derive(Drop)]
struct Holds {
    is_open: bool,
    first: AtomicU64,
    second: AtomicU64,
    failed: AtomicU64,
}

impl Holds {
    // A gate that holds, or one that is open.
    fn new(is_open: bool) -> Holds {
        Holds {
            is_open,
            first: AtomicU64::new(0),
            second: AtomicU64::new(0),
            failed: AtomicU64::new(0),
        }
    }

    // Waits until the gate was called for the other child, or notes that it wasn't.
    fn hold(&self) {
        'turns: for _ in 0..1_000_000_000u64 {
            if self.second.load(Ordering::SeqCst) == 1 {
                return;
            }
        }
        self.failed.store(1, Ordering::SeqCst);
    }

    // Whether it was called for both children, and for the second while it held the first.
    fn was_passed(&self) -> bool {
        let called = (
            self.first.load(Ordering::SeqCst),
            self.second.load(Ordering::SeqCst),
        );
        called.0 == 1 && called.1 == 1 && self.failed.load(Ordering::SeqCst) == 0
    }
}

impl Gate<Table> for Holds {
    fn run(&self, alloc: Global, _worker: u32, piece: Piece) -> Result<Done, NoMemory> {
        if !self.is_open {
            let path = piece.path.text(alloc)?;
            if path.as_slice() == b"main/1.1/1.2".as_slice() {
                self.second.store(1, Ordering::SeqCst);
            }
            if path.as_slice() == b"main/1.1/1.1".as_slice() {
                self.first.store(1, Ordering::SeqCst);
                self.hold();
            }
        }
        piece.advance(alloc)
    }

    fn is_plain(&self) -> bool {
        self.is_open
    }
}

// Whether two of these workers write what is written by turns.
fn is_tree<W: Workers<Table>>(alloc: Global, workers: &W) -> Result<bool, Fail>
    requires { W.crosses }
{
    let (_, text) = answer_by(alloc, &["run", "--workers", "2"], TREE, workers)?;
    let (_, by_turns) = answer(alloc, &["run"], TREE)?;
    let begins = text.starts_with(b" 1\n 2\n 4\n 8\n 16\n 32\n 64\n 65\n 33\n 66\n 67\n");
    Ok(begins && text.as_slice() == by_turns.as_slice())
}

#[test]
fn two_at_once(rt: HostRuntime) -> Result<(), Fail> {
    let alloc = rt.alloc();
    let gate = Holds::new(false);
    let team = HeldTeam {
        pool: Pool { gate, rt, alloc },
    };
    assert!(team.pool.rt; is_tree(alloc, &team)?);
    assert!(team.pool.rt; team.pool.gate.was_passed());
    Ok(())
}

// Both children are ready at one turn of the lock, so one worker takes both into its lane. The gate holds it at the
// first, and the other worker steals the second.
#[test]
fn a_child_is_stolen(rt: HostRuntime) -> Result<(), Fail> {
    let alloc = rt.alloc();
    let gate = Holds::new(false);
    let team = LaneTeam {
        pool: StealPool { gate, rt, alloc },
    };
    assert!(team.pool.rt; is_tree(alloc, &team)?);
    assert!(team.pool.rt; team.pool.gate.was_passed());
    Ok(())
}

#[test]
fn two_at_once_with_seats(rt: HostRuntime) -> Result<(), Fail> {
    let alloc = rt.alloc();
    let gate = Holds::new(false);
    let team = SeatTeam {
        pool: HubPool { gate, rt, alloc },
    };
    assert!(team.pool.rt; is_tree(alloc, &team)?);
    assert!(team.pool.rt; team.pool.gate.was_passed());
    Ok(())
}

/// How a run is set up.
const SETUPS: [[&str; 7]; 3] = [
    ["run", "--workers", "1", "--slice", "1", "--plan", "block"],
    ["run", "--workers", "4", "--slice", "7", "--plan", "cyclic"],
    [
        "run",
        "--workers",
        "8",
        "--slice",
        "1000000",
        "--plan",
        "block",
    ],
];

/// A deterministic program is answered the same however it is set up.
pub(crate) fn is_answered<W: Workers<Table>>(
    alloc: Global,
    row: &Row,
    workers: &W,
) -> Result<bool, Fail>
    requires { W.crosses }
{
    let (_, verdict) = answer(alloc, &["check"], row.source)?;
    if verdict.as_slice() != b"deterministic\n".as_slice() {
        return Ok(true);
    }
    'setups: for words in &SETUPS {
        let (ran, text) = answer_by(alloc, words, row.source, workers)?;
        if text.as_slice() != row.text || ran.exit != row.exit {
            return Ok(false);
        }
    }
    Ok(true)
}

// The number of the first program of the table that is answered otherwise, if there is one.
fn first_wrong<W: Workers<Table>>(alloc: Global, workers: &W) -> Result<Option<usize>, Fail>
    requires { W.crosses }
{
    'rows: for (number, row) in run_rows().iter().enumerate() {
        if !is_answered(alloc, row, workers)? {
            return Ok(Some(number));
        }
    }
    Ok(None)
}

const COUNTS: [&str; 3] = ["1", "2", "8"];

const SLICES: [&str; 2] = ["1", "10000"];

const PLANS: [&str; 2] = ["block", "cyclic"];

// Whether a generated program is played to its end by so many workers, in all setups.
fn is_made<W: Workers<Table>>(alloc: Global, workers: &W) -> Result<bool, Fail>
    requires { W.crosses }
{
    let (_, source) = answer(alloc, &["make", "7"], b"")?;
    'setups: for number in 0..12usize {
        let (count, slice, plan) = (
            COUNTS[number % 3],
            SLICES[number / 3 % 2],
            PLANS[number / 6],
        );
        let words = ["run", "--workers", count, "--slice", slice, "--plan", plan];
        let (ran, text) = answer_by(alloc, &words, source.as_slice(), workers)?;
        if ran.exit != Exit::Done || text.as_slice() != b" 51360\n".as_slice() {
            return Ok(false);
        }
    }
    let (_, told) = answer_by(alloc, &["demo", "7"], b"", workers)?;
    Ok(told.as_slice() == b"processes 30\nturns 15685\nlines 1\ndone\n".as_slice())
}

#[test]
fn the_same_answers(rt: HostRuntime) -> Result<(), Fail> {
    let alloc = rt.alloc();
    let team = Team {
        pool: Pool {
            gate: Plain,
            rt,
            alloc,
        },
    };
    assert_eq!(team.pool.rt; first_wrong(alloc, &team)?, None);
    assert!(team.pool.rt; is_made(alloc, &team)?);
    Ok(())
}

#[test]
fn the_same_answers_with_lanes(rt: HostRuntime) -> Result<(), Fail> {
    let alloc = rt.alloc();
    let gate = Holds::new(true);
    let team = LaneTeam {
        pool: StealPool { gate, rt, alloc },
    };
    assert_eq!(team.pool.rt; first_wrong(alloc, &team)?, None);
    assert!(team.pool.rt; is_made(alloc, &team)?);
    Ok(())
}

#[test]
fn the_same_answers_with_seats(rt: HostRuntime) -> Result<(), Fail> {
    let alloc = rt.alloc();
    let gate = Holds::new(true);
    let team = SeatTeam {
        pool: HubPool { gate, rt, alloc },
    };
    assert_eq!(team.pool.rt; first_wrong(alloc, &team)?, None);
    assert!(team.pool.rt; is_made(alloc, &team)?);
    Ok(())
}
