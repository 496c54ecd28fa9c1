//! A table in small: each process has so many pieces to make, and computes nothing.

ghost use Rattle.std.specs.Prelude.{◌<◌, ◌≤◌, length, IfSome, ⊤};

use fm_base::{NoMemory, Turn};
use fm_workers::{Given, KeepsHistory, Phase, SharedTable};
use std::alloc::Global;

const MOST: usize = 1_000_000_001;

/// A process that is out, and how many pieces it had left.
#[derive(Clone, Copy)]
pub struct Piece {
    pub process: u32,
    pub start: u32,
}

/// What a piece came to.
#[derive(Clone, Copy)]
pub struct Done {
    pub process: u32,
    pub start: u32,
    pub steps: u32,
}

/// A process: how many pieces it has left, whether it is out, and whether it isn't worth giving out.
#[derive(Clone, Copy)]
pub struct Entry {
    pub left: u32,
    pub out: bool,
    pub light: bool,
}

/// Which processes aren't worth giving out.
#[derive(Clone, Copy)]
pub enum Light {
    /// None.
    None,
    /// All.
    All,
    /// Every other one, from the first on.
    Half,
}

impl Light {
    fn has(self, number: u32) -> bool {
        match self {
            Light::None => false,
            Light::All => true,
            Light::Half => number % 2 == 0,
        }
    }
}

/// The table.
#[derive(Drop)]
pub struct Table {
    pub turns: Vec<Turn>,
    pub entries: Vec<Entry>,
    ghost short: { length turns.items ≤ 1000000001 },
}

// The first process that isn't out and has a piece left.
fn first_ready(entries: &[Entry]) -> Option<usize>
    ensures { IfSome result (λ n. n < length entries.now) }
{
    'entries: for number in 0..entries.len() {
        if entries[number].left > 0 && !entries[number].out {
            return Some(number);
        }
    }
    None
}

fn bring_all_back(entries: &mut [Entry]) {
    'entries: for entry in entries {
        entry.out = false;
    }
}

fn are_all_done(entries: &[Entry]) -> bool {
    'entries: for entry in entries {
        if entry.left > 0 {
            return false;
        }
    }
    true
}

impl Table {
    /// So many processes, each with so many pieces, which are worth giving out.
    pub fn new(alloc: Global, processes: u32, pieces: u32) -> Result<Table, NoMemory> {
        Table::of(alloc, processes, pieces, Light::None)
    }

    /// So many processes, each with so many pieces.
    pub fn of(alloc: Global, processes: u32, pieces: u32, light: Light) -> Result<Table, NoMemory> {
        let mut entries = Vec::with_capacity(alloc, processes as usize)?;
        'entries: for number in 0..processes {
            entries.push(Entry {
                left: pieces,
                out: false,
                light: light.has(number),
            })?;
        }
        Ok(Table {
            turns: Vec::new(alloc),
            entries,
        })
    }

    /// Whether it has so many processes.
    pub fn same(&self, processes: u32) -> bool {
        self.entries.len() == processes as usize
    }
}

impl KeepsHistory for Table {
    ghost history_of = { λ t. t.turns.items };

    fn entries(&self) -> usize {
        self.turns.len()
    }
}

impl SharedTable for Table {
    type Piece = Piece;

    type Done = Done;

    ghost process_of = { λ d. d.process };

    // Nothing more is told of what its calls do: the tests see it.
    ghost take_does = { λ _ _ _ _. ⊤ };

    ghost give_does = { λ _ _ _ _. ⊤ };

    ghost turn_does = { λ _ _ _ _. ⊤ };

    ghost recall_does = { λ _ _. ⊤ };

    ghost phase_tells = { λ _ _. ⊤ };

    fn advance(_alloc: Global, piece: Piece) -> Result<Done, NoMemory> {
        Ok(Done {
            process: piece.process,
            start: piece.start,
            steps: 2,
        })
    }

    fn take(&mut self, _alloc: Global, _worker: u32) -> Result<Option<Piece>, NoMemory> {
        let Some(number) = first_ready(self.entries.as_slice()) else {
            return Ok(None);
        };
        let Ok(process) = u32::try_from(number) else {
            return Ok(None);
        };
        let start = self.entries[number].left;
        self.entries[number].out = true;
        Ok(Some(Piece { process, start }))
    }

    #[tactic(auto, using(fm_workers::proofs::HistoryLaws::plays_one))]
    fn give(&mut self, _alloc: Global, done: Done) -> Result<Given, (Done, NoMemory)> {
        let number = done.process as usize;
        if number >= self.entries.len() {
            return Ok(Given::Stranger);
        }
        let entry = self.entries[number];
        if !entry.out {
            return Ok(Given::Stranger);
        }
        if entry.left != done.start || entry.left == 0 {
            self.entries[number].out = false;
            return Ok(Given::Stranger);
        }
        if self.turns.len() >= MOST {
            return Ok(Given::Over);
        }
        let turn = Turn {
            number: done.process,
            steps: done.steps,
        };
        if self.turns.push(turn).is_err() {
            return Err((done, NoMemory));
        }
        self.entries[number] = Entry {
            left: entry.left - 1,
            out: false,
            light: entry.light,
        };
        Ok(Given::Played)
    }

    fn turn_light(&mut self, _alloc: Global, _worker: u32) -> Result<bool, NoMemory> {
        let Some(number) = first_ready(self.entries.as_slice()) else {
            return Ok(false);
        };
        let Ok(process) = u32::try_from(number) else {
            return Ok(false);
        };
        let entry = self.entries[number];
        if !entry.light || self.turns.len() >= MOST {
            return Ok(false);
        }
        let turn = Turn {
            number: process,
            steps: 1,
        };
        self.turns.push(turn)?;
        self.entries[number] = Entry {
            left: entry.left.saturating_sub(1),
            out: entry.out,
            light: entry.light,
        };
        Ok(true)
    }

    fn recall(&mut self) {
        bring_all_back(self.entries.as_mut_slice());
    }

    fn phase(&self) -> Phase {
        if are_all_done(self.entries.as_slice()) {
            Phase::Ended
        } else {
            Phase::Going
        }
    }
}
