//! What comes of pieces that were made outside: it is played once, and of a process that is out alone.

use fm_base::{NoMemory, Plan, Setup};
use fm_front::front;
use fm_machine::Done;
use fm_table::Table;
use fm_workers::Given;
use std::alloc::Global;
use std::sync::Arc;
use std::test::Fail;

/// A program of which a piece has as many statements as a slice asks for, up to its end.
const LINES: &[u8] = b"      PROGRAM P
      PRINT *, 1
      PRINT *, 2
      PRINT *, 3
      END
";

/// Pieces of one statement.
const SHORT: Setup = Setup {
    turns: 1_000,
    slice: 1,
    workers: 2,
    plan: Plan::Cyclic,
};

/// Pieces of all statements.
const LONG: Setup = Setup {
    turns: 1_000,
    slice: 1_000,
    workers: 2,
    plan: Plan::Cyclic,
};

/// How a table is set up, and another one of the same program.
const SETUPS: [(Setup, Setup); 2] = [(SHORT, LONG), (LONG, SHORT)];

// A table of that program.
fn table_of(alloc: Global, setup: Setup) -> Result<Table, NoMemory> {
    match front(alloc, LINES) {
        Ok(program) => Table::new(alloc, Arc::new(alloc, program)?, setup),
        Err(_) => Err(NoMemory),
    }
}

// What the piece of main comes to.
fn done_of(alloc: Global, table: &mut Table) -> Result<Done, NoMemory> {
    match table.take(alloc, 0)? {
        Some(piece) => piece.advance(alloc),
        None => Err(NoMemory),
    }
}

// What a table answers to it.
fn given(alloc: Global, table: &mut Table, done: Done) -> Result<Given, NoMemory> {
    match table.give(alloc, done) {
        Ok(given) => Ok(given),
        Err(_) => Err(NoMemory),
    }
}

#[test]
fn the_first_of_two_is_played(rt: HostRuntime) -> Result<(), Fail> {
    let alloc = rt.alloc();
    for (here, there) in SETUPS {
        let mut table = table_of(alloc, here)?;
        let own = done_of(alloc, &mut table)?;
        let other = done_of(alloc, &mut table_of(alloc, there)?)?;
        assert_eq!(rt; given(alloc, &mut table, other)?, Given::Played);
        assert_eq!(rt; given(alloc, &mut table, own)?, Given::Stranger);
        assert_eq!(rt; table.history().len(), 1);
    }
    Ok(())
}

#[test]
fn the_second_of_two_is_a_stranger(rt: HostRuntime) -> Result<(), Fail> {
    let alloc = rt.alloc();
    for (here, there) in SETUPS {
        let mut table = table_of(alloc, here)?;
        let own = done_of(alloc, &mut table)?;
        let other = done_of(alloc, &mut table_of(alloc, there)?)?;
        assert_eq!(rt; given(alloc, &mut table, own)?, Given::Played);
        assert_eq!(rt; given(alloc, &mut table, other)?, Given::Stranger);
        assert_eq!(rt; table.history().len(), 1);
    }
    Ok(())
}

#[test]
fn who_has_gone_on_elsewhere_is_a_stranger(rt: HostRuntime) -> Result<(), Fail> {
    let alloc = rt.alloc();
    let mut there = table_of(alloc, SHORT)?;
    assert_eq!(rt; there.turn(alloc, 0)?, true);
    let done = done_of(alloc, &mut there)?;
    let mut table = table_of(alloc, SHORT)?;
    assert_eq!(rt; table.take(alloc, 0)?.is_some(), true);
    assert_eq!(rt; table.take(alloc, 0)?.is_some(), false);
    assert_eq!(rt; given(alloc, &mut table, done)?, Given::Stranger);
    assert_eq!(rt; table.history().len(), 0);
    assert_eq!(rt; table.take(alloc, 0)?.is_some(), true);
    Ok(())
}
