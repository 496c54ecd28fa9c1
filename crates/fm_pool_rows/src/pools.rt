//! Pools: a top call in small over workers of every kind, two workers at once, and many pieces, over each pool.

ghost use Rattle.std.specs.Thread.{IsSync};

use crate::table::{Done, Light, Piece, Table};
use fm_base::{NoMemory, Turn};
use fm_hub_pool::HubPool;
use fm_pool::Pool;
use fm_steal_pool::StealPool;
use fm_workers::{Gate, KeepsHistory, Plain, SharedTable, Workers};
use std::alloc::Global;
use std::sync::Wait;
use std::sync::atomic::{AtomicU64, Ordering};
use std::test::Fail;
use std::thread;
use std::thread::Threads;

impl<R: Threads + Wait + Sync> Workers<Table> for Pool<Plain, R> {
    ghost crosses = { IsSync R.row };

    fn drive(&self, table: Table, count: u32) -> Option<Table> {
        Some(self.play(table, count))
    }
}

impl<R: Threads + Wait + Sync> Workers<Table> for StealPool<Plain, R> {
    ghost crosses = { IsSync R.row };

    fn drive(&self, table: Table, count: u32) -> Option<Table> {
        Some(self.play(table, count))
    }
}

impl<R: Threads + Wait + Sync> Workers<Table> for HubPool<Plain, R> {
    ghost crosses = { IsSync R.row };

    fn drive(&self, table: Table, count: u32) -> Option<Table> {
        self.play(table, count)
    }
}

// Plays what is left, piece after piece, and answers how many entries the history has.
fn finished(alloc: Global, mut table: Table) -> Result<usize, NoMemory> {
    'pieces: for _ in 0..1000 {
        let Some(piece) = table.take(alloc, 0)? else {
            break;
        };
        if table.give(alloc, Table::advance(alloc, piece)?).is_err() {
            return Err(NoMemory);
        }
    }
    Ok(table.entries())
}

// The top call, in small: whatever workers do, it goes on from the table that came back, if it is this program's.
fn run<W: Workers<Table>>(alloc: Global, workers: &W, processes: u32) -> Result<usize, NoMemory>
    requires { W.crosses }
{
    let Some(mut table) = workers.drive(Table::new(alloc, processes, 3)?, 2) else {
        return finished(alloc, Table::new(alloc, processes, 3)?);
    };
    table.recall();
    if !table.same(processes) {
        return finished(alloc, Table::new(alloc, processes, 3)?);
    }
    finished(alloc, table)
}

// Gives the table back at once.
struct Back;

impl Workers<Table> for Back {
    fn drive(&self, table: Table, _count: u32) -> Option<Table> {
        Some(table)
    }
}

// Gives none back.
struct Nothing;

impl Workers<Table> for Nothing {
    fn drive(&self, _table: Table, _count: u32) -> Option<Table> {
        None
    }
}

// Takes every piece and drops it.
#[derive(Drop)]
struct Takes {
    alloc: Global,
}

impl Workers<Table> for Takes {
    fn drive(&self, mut table: Table, _count: u32) -> Option<Table> {
        'pieces: for _ in 0..1000 {
            match table.take(self.alloc, 0) {
                Ok(Some(_)) => {}
                Ok(None) => break,
                Err(_) => break,
            }
        }
        Some(table)
    }
}

// Gives another table back, with one process.
#[derive(Drop)]
struct Another {
    alloc: Global,
}

impl Workers<Table> for Another {
    fn drive(&self, _table: Table, _count: u32) -> Option<Table> {
        match Table::new(self.alloc, 1, 1) {
            Ok(table) => Some(table),
            Err(NoMemory) => None,
        }
    }
}

#[test]
fn any_workers(rt: HostRuntime) -> Result<(), Fail> {
    let alloc = rt.alloc();
    assert_eq!(rt; run(alloc, &Back, 4)?, 12);
    assert_eq!(rt; run(alloc, &Nothing, 4)?, 12);
    assert_eq!(rt; run(alloc, &Takes { alloc }, 4)?, 12);
    assert_eq!(rt; run(alloc, &Another { alloc }, 4)?, 12);
    Ok(())
}

// How often a piece looks for another one that is being computed.
const MOST_LOOKS: u32 = 1_000_000;

// A gate at which pieces wait until two are being computed at once. It is plain, as the programs' own is: a pool asks
// the table for pieces that it makes by itself, and plays these under its lock.
#[derive(Drop)]
struct Meets {
    inside: AtomicU64,
    met: AtomicU64,
}

impl Meets {
    fn new() -> Meets {
        Meets {
            inside: AtomicU64::new(0),
            met: AtomicU64::new(0),
        }
    }

    fn have_met(&self) -> bool {
        self.met.load(Ordering::SeqCst) == 1
    }

    // Looks for another piece, and notes it.
    fn look(&self) {
        'looks: for _ in 0..MOST_LOOKS {
            if self.inside.load(Ordering::SeqCst) > 1 {
                self.met.store(1, Ordering::SeqCst);
            }
            if self.have_met() {
                return;
            }
            thread::yield_now();
        }
    }
}

impl Gate<Table> for Meets {
    fn run(&self, alloc: Global, _worker: u32, piece: Piece) -> Result<Done, NoMemory> {
        self.inside.fetch_add(1, Ordering::SeqCst);
        self.look();
        self.inside.fetch_sub(1, Ordering::SeqCst);
        Table::advance(alloc, piece)
    }

    fn is_plain(&self) -> bool {
        true
    }
}

// So neither is computed under the lock.
#[test]
fn two_workers_at_once(rt: HostRuntime) -> Result<(), Fail> {
    let alloc = rt.alloc();
    let gate = Meets::new();
    let pool = Pool { gate, rt, alloc };
    let table = pool.play(Table::new(alloc, 2, 3)?, 2);
    assert_eq!(pool.rt; table.entries(), 6);
    assert!(pool.rt; pool.gate.have_met());
    Ok(())
}

// The worker that took both processes waits at the first, so the other one steals the second.
#[test]
fn a_piece_is_stolen(rt: HostRuntime) -> Result<(), Fail> {
    let alloc = rt.alloc();
    let gate = Meets::new();
    let pool = StealPool { gate, rt, alloc };
    let table = pool.play(Table::new(alloc, 2, 3)?, 2);
    assert_eq!(pool.rt; table.entries(), 6);
    assert!(pool.rt; pool.gate.have_met());
    Ok(())
}

#[test]
fn two_seats_at_once(rt: HostRuntime) -> Result<(), Fail> {
    let alloc = rt.alloc();
    let gate = Meets::new();
    let pool = HubPool { gate, rt, alloc };
    let Some(table) = pool.play(Table::new(alloc, 2, 3)?, 2) else {
        panic!(pool.rt; "no table")
    };
    assert_eq!(pool.rt; table.entries(), 6);
    assert!(pool.rt; pool.gate.have_met());
    Ok(())
}

// So many runs by so many workers of a table with so many processes, each with so many pieces.
#[derive(Clone, Copy)]
struct Row {
    runs: u32,
    workers: u32,
    processes: u32,
    pieces: u32,
}

fn make_row(runs: u32, workers: u32, processes: u32, pieces: u32) -> Row {
    Row {
        runs,
        workers,
        processes,
        pieces,
    }
}

// A few runs of a long table by few and many workers, and many of a short one.
fn rows(many: u32) -> [Row; 7] {
    [
        make_row(3, 1, 50, 20),
        make_row(3, 2, 50, 20),
        make_row(3, 8, 50, 20),
        make_row(3, 64, 50, 20),
        make_row(many, 2, 5, 4),
        make_row(many, 8, 3, 2),
        make_row(many / 30, 64, 3, 2),
    ]
}

// Which processes aren't worth giving out in the run with this number.
fn light_in(number: u32) -> Light {
    match number % 3 {
        0 => Light::None,
        1 => Light::All,
        _ => Light::Half,
    }
}

// Whether each run of a row has an entry for each piece. The runs take turns at which pieces are worth giving out.
fn is_whole<W: Workers<Table>>(alloc: Global, workers: &W, row: &Row) -> Result<bool, NoMemory>
    requires { W.crosses }
{
    let entries = row.processes.saturating_mul(row.pieces) as usize;
    'runs: for number in 0..row.runs {
        let table = Table::of(alloc, row.processes, row.pieces, light_in(number))?;
        match workers.drive(table, row.workers) {
            Some(table) => {
                if table.entries() != entries {
                    return Ok(false);
                }
            }
            None => return Ok(false),
        }
    }
    Ok(true)
}

// The workers of the first row in a run of which a piece is lost, if there is one.
fn lost<W: Workers<Table>>(alloc: Global, workers: &W, many: u32) -> Result<Option<u32>, NoMemory>
    requires { W.crosses }
{
    'rows: for row in rows(many) {
        if !is_whole(alloc, workers, &row)? {
            return Ok(Some(row.workers));
        }
    }
    Ok(None)
}

#[test]
fn runs_under_a_lock(rt: HostRuntime) -> Result<(), Fail> {
    let alloc = rt.alloc();
    let pool = Pool {
        gate: Plain,
        rt,
        alloc,
    };
    assert_eq!(pool.rt; run(alloc, &pool, 4)?, 12);
    assert_eq!(pool.rt; lost(alloc, &pool, 1500)?, None);
    Ok(())
}

// A lane takes its room when it is made, so there are fewer runs.
#[test]
fn runs_with_lanes(rt: HostRuntime) -> Result<(), Fail> {
    let alloc = rt.alloc();
    let pool = StealPool {
        gate: Plain,
        rt,
        alloc,
    };
    assert_eq!(pool.rt; run(alloc, &pool, 4)?, 12);
    assert_eq!(pool.rt; lost(alloc, &pool, 300)?, None);
    Ok(())
}

#[test]
fn runs_with_seats(rt: HostRuntime) -> Result<(), Fail> {
    let alloc = rt.alloc();
    let pool = HubPool {
        gate: Plain,
        rt,
        alloc,
    };
    assert_eq!(pool.rt; run(alloc, &pool, 4)?, 12);
    assert_eq!(pool.rt; lost(alloc, &pool, 1000)?, None);
    Ok(())
}

// A table of three processes, two of which aren't worth giving out.
fn mixed(alloc: Global) -> Result<Table, NoMemory> {
    Table::of(alloc, 3, 100, Light::Half)
}

// The number of the first entry that two histories differ in, if there is one.
fn first_other(ours: &[Turn], theirs: &[Turn]) -> Option<usize> {
    if ours.len() != theirs.len() {
        return Some(ours.len());
    }
    'turns: for (number, (our, their)) in ours.iter().zip(theirs.iter()).enumerate() {
        if our.number != their.number || our.steps != their.steps {
            return Some(number);
        }
    }
    None
}

// One worker with a seat makes the entries that one makes under a lock: those of pieces that the table makes by itself,
// and those of pieces that are given out.
#[test]
fn one_seat_plays_as_a_lock(rt: HostRuntime) -> Result<(), Fail> {
    let alloc = rt.alloc();
    let lock = Pool {
        gate: Plain,
        rt,
        alloc,
    };
    let locked = lock.play(mixed(alloc)?, 1);
    assert_eq!(lock.rt; locked.entries(), 300);
    let Pool { gate, rt, alloc } = lock;
    let seats = HubPool { gate, rt, alloc };
    let Some(seated) = seats.play(mixed(alloc)?, 1) else {
        panic!(seats.rt; "no table")
    };
    let (ours, theirs) = (seated.turns.as_slice(), locked.turns.as_slice());
    assert_eq!(seats.rt; first_other(ours, theirs), None);
    Ok(())
}
