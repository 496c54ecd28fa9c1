//! The processes that a part of the outcome is gathered from, in path order.

ghost use Rattle.std.specs.Prelude.{◌≡◌, ◌++◌, [], ◌∷◌, filter, map, IfOk, OnOk};
ghost use Rattle.std.specs.FinMap.{entries};
ghost use Rattle.std.specs.Map.Iter.{deref_pair};
ghost use Rattle.fm_finmap.specs.Rows.{AreDistinct, numbered_map, places};
ghost use Rattle.fm_proc_events.specs.Phases.{proc_of};
ghost use Rattle.fm_shown.specs.Parts.{gives, row_gives};

use fm_base::{NoMemory, Path};
use fm_proc_events::Process;
use fm_procs::{Entries, Entry, has_ended};
use std::alloc::Global;

/// A part of an outcome.
#[derive(Clone, Copy)]
pub(crate) enum Part {
    /// Output, faults and waits: nothing of a process that has ended and has put nothing out.
    Shown,
    /// The holders of ports: nothing of a child that was joined.
    Held,
}

fn gives(part: Part, process: &Process) -> bool
    ensures { result ≡ gives part (proc_of process.now) }
{
    match part {
        Part::Shown => !(process.lines.is_empty() && has_ended(process)),
        Part::Held => process.body.is_some(),
    }
}

fn push_if<'a>(
    rows: &mut Vec<(&'a Path, &'a Entry)>,
    part: Part,
    path: &'a Path,
    entry: &'a Entry,
) -> Result<(), NoMemory>
    ensures { OnOk result (map deref_pair rows.new.items
        ≡ map deref_pair rows.old.items ++ filter (row_gives part) ((path.now, entry.now) ∷ [])) }
{
    if gives(part, &entry.process.held) {
        rows.push((path, entry))?;
    }
    Ok(())
}

// The processes that give something to a part, in the order of their numbers.
fn rows_of<'a>(
    alloc: Global,
    processes: &'a Entries,
    part: Part,
) -> Result<Vec<(&'a Path, &'a Entry)>, NoMemory>
    ensures rows { IfOk result (λ v. map deref_pair v.items ≡ filter (row_gives part) processes.now.rows) }
    ensures once { OnOk result (AreDistinct (places processes.now.rows)) }
{
    let all = processes.rows.rows(alloc)?;
    let mut rows = Vec::new(alloc);
    'rows: for row in &all {
        push_if(&mut rows, part, row.0, row.1)?;
    }
    Ok(rows)
}

/// The processes that give something to a part of the outcome, in path order. Only these are compared: a path is as
/// long as its process is deep.
pub(crate) fn in_path_order<'a>(
    alloc: Global,
    processes: &'a Entries,
    part: Part,
) -> Result<Vec<(&'a Path, &'a Entry)>, NoMemory>
    ensures { IfOk result
        (λ v. map deref_pair v.items ≡ filter (row_gives part) (entries (numbered_map processes.now.rows))) }
{
    let mut rows = rows_of(alloc, processes, part)?;
    rows.sort_by_key(|row| row.0)?;
    Ok(rows)
}
