//! Processes with large bodies: who stays at home with a worker, and that nobody can tell.

use crate::pools::is_answered;
use crate::programs::Row;
use fm_base::{NoMemory, Plan, Setup};
use fm_front::front;
use fm_pool::Pool;
use fm_pool_table::Team;
use fm_table::Table;
use fm_workers::{Phase, Plain};
use fmc::Exit;
use std::alloc::Global;
use std::sync::Arc;
use std::test::Fail;

/// Three processes that compute by themselves, two of them with large bodies.
const LARGE: &[u8] = b"      PROGRAM LARGE
      INTEGER R(3)
      PROCESSES
      PROCESSCALL NARROW(R(1))
      PROCESSCALL WIDE(R(2))
      PROCESSCALL WIDE(R(3))
      ENDPROCESSES
      PRINT *, R
      END
      PROCESS NARROW(S)
      INTEGER S
      S = 0
      DO I = 1, 60000
      S = MOD(S+I,9973)
      ENDDO
      END
      PROCESS WIDE(S)
      INTEGER S, A(20000)
      DO I = 1, 20000
      A(I) = MOD(7*I,101)
      ENDDO
      S = 0
      DO I = 1, 20000
      S = S+A(I)
      ENDDO
      END
";

const ROWS: [Row; 1] = [Row {
    source: LARGE,
    exit: Exit::Done,
    text: b" 3230 999921 999921\n",
}];

fn rows() -> &'static [Row] {
    &ROWS
}

#[test]
fn large_bodies_are_answered_alike(rt: HostRuntime) -> Result<(), Fail> {
    let alloc = rt.alloc();
    let team = Team {
        pool: Pool {
            gate: Plain,
            rt,
            alloc,
        },
    };
    'rows: for row in rows() {
        assert!(team.pool.rt; is_answered(alloc, row, &team)?);
    }
    Ok(())
}

// The table of that program for two workers.
fn large_table(alloc: Global) -> Result<Option<Table>, NoMemory> {
    let setup = Setup {
        turns: 10_000_000,
        slice: 1_000,
        workers: 2,
        plan: Plan::Cyclic,
    };
    match front(alloc, LARGE) {
        Ok(program) => Ok(Some(Table::new(alloc, Arc::new(alloc, program)?, setup)?)),
        Err(_) => Ok(None),
    }
}

// Who is taken for a worker when nothing more is made in place for it, if somebody is.
fn taken(alloc: Global, table: &mut Table, worker: u32) -> Result<Option<u32>, NoMemory> {
    'pieces: for _ in 0..100 {
        if !table.turn_light(alloc, worker)? {
            break;
        }
    }
    match table.take(alloc, worker)? {
        Some(piece) => Ok(Some(piece.process)),
        None => Ok(None),
    }
}

#[test]
fn one_large_body_stays_at_home(rt: HostRuntime) -> Result<(), Fail> {
    let alloc = rt.alloc();
    let Some(mut table) = large_table(alloc)? else {
        panic!(rt; "refused")
    };
    assert_eq!(rt; taken(alloc, &mut table, 0)?, Some(1));
    assert!(rt; table.turn_light(alloc, 1)?);
    assert_eq!(rt; taken(alloc, &mut table, 0)?, Some(3));
    assert!(rt; table.turn_light(alloc, 0)?);
    assert!(rt; table.turn_light(alloc, 1)?);
    table.recall();
    'pieces: for _ in 0..1000 {
        if !table.turn_light(alloc, 1)? {
            break;
        }
    }
    assert_eq!(rt; table.phase(), Phase::Going);
    Ok(())
}
