//! Who holds the open writers.

ghost use Rattle.std.specs.Prelude.{◌≡◌, ◌++◌, [], ◌∷◌, map, reverse, IfOk, OnOk};
ghost use Rattle.std.specs.List.{flat_map};
ghost use Rattle.std.specs.FinMap.{from_entries};
ghost use Rattle.fm_finmap.specs.Map.{map_of};
ghost use Rattle.fm_mean.specs.Outports.{outport_cmp};
ghost use Rattle.fm_proc_language.specs.Slots.{port_in};
ghost use Rattle.fm_proc_language.specs.Processes.{body_words, held};
ghost use Rattle.fm_proc_events.specs.Phases.{proc_of};
ghost use Rattle.fm_procs.specs.Readings.{proc_in, procs_of, state_of};
ghost use Rattle.fm_shown.specs.Outcome.{holder_path, holders_by, holdings, holdings_at};
ghost use Rattle.fm_run.specs.Gathered.{with_held, with_holders};
ghost use Rattle.fm_shown.specs.Holding.{outport_in, words_held};

use crate::rows::{Part, in_path_order};
use fm_base::{NoMemory, Path, Seq};
use fm_chan::Port;
use fm_code::{Body, Frame, SharedCode};
use fm_finmap::Map;
use fm_machine_calls::push_frame_ports;
use fm_mean::{Holder, Outport};
use fm_proc_events::{Phase, Process};
use fm_proc_slots::Slots;
use fm_procs::{CodeProcs, Entries, Entry};
use fm_run::{holders_in_order, put_outport};
use std::alloc::Global;

// The outport that a port is, if it is one.
fn outport_in(alloc: Global, port: &Port) -> Result<Option<Outport>, NoMemory>
    ensures { IfOk result (λ o. o ≡ outport_in port.now) }
{
    match port.writer() {
        Some(number) => {
            let channel = port.channel().copy(alloc)?;
            Ok(Some(Outport { channel, number }))
        }
        None => Ok(None),
    }
}

fn put_port(
    alloc: Global,
    all: &mut Map<Outport, Path>,
    path: &Path,
    port: &Port,
) -> Result<(), NoMemory>
    ensures { OnOk result
        (map_of outport_cmp all.new ≡ with_held (map_of outport_cmp all.old) path.now (port.now ∷ [])) }
{
    match outport_in(alloc, port)? {
        Some(outport) => put_outport(alloc, all, path, outport),
        None => Ok(()),
    }
}

fn put_word(
    alloc: Global,
    all: &mut Map<Outport, Path>,
    path: &Path,
    slots: &Slots,
    word: i64,
) -> Result<(), NoMemory>
    ensures { OnOk result
        (map_of outport_cmp all.new ≡ with_held (map_of outport_cmp all.old) path.now (port_in slots.now word ∷ [])) }
{
    match slots.port(word) {
        Some(port) => put_port(alloc, all, path, port),
        None => Ok(()),
    }
}

fn put_words(
    alloc: Global,
    all: &mut Map<Outport, Path>,
    path: &Path,
    slots: &Slots,
    words: &[i64],
) -> Result<(), NoMemory>
    ensures { OnOk result (map_of outport_cmp all.new
        ≡ with_held (map_of outport_cmp all.old) path.now (map (port_in slots.now) words.now)) }
{
    'words: for word in words {
        put_word(alloc, all, path, slots, *word)?;
    }
    Ok(())
}

// Adds the words of the ports in frames. The last of these is the innermost, and comes first.
fn push_frames(code: &SharedCode, frames: &[Frame], words: &mut Seq<i64>) -> Result<(), NoMemory>
    ensures { OnOk result (words.new ≡ words.old ++ flat_map (words_held code.now) (reverse frames.now)) }
{
    'frames: for k in (0..frames.len()).rev() {
        push_frame_ports(code, &frames[k], words)?;
    }
    Ok(())
}

// The words of the ports in a body, from the innermost frame on.
fn words_of(alloc: Global, body: &Body) -> Result<Seq<i64>, NoMemory>
    ensures { IfOk result (λ w. w ≡ body_words body.now) }
{
    let mut words = Seq::new(alloc);
    push_frame_ports(&body.code, &body.frame, &mut words)?;
    push_frames(&body.code, body.below.outermost_first(), &mut words)?;
    Ok(words)
}

fn put_held(
    alloc: Global,
    all: &mut Map<Outport, Path>,
    path: &Path,
    process: &Process,
) -> Result<(), NoMemory>
    ensures { OnOk result
        (map_of outport_cmp all.new ≡ with_held (map_of outport_cmp all.old) path.now (held (proc_of process.now))) }
{
    match &process.body {
        Some(body) => {
            let words = words_of(alloc, body)?;
            put_words(alloc, all, path, &process.slots, words.as_slice())
        }
        None => Ok(()),
    }
}

// Who holds what stands with the process at this path.
fn holder_path(alloc: Global, path: &Path, process: &Process) -> Result<Path, NoMemory>
    ensures { IfOk result (λ q. q ≡ holder_path (path.now, proc_of process.now)) }
{
    match &process.phase {
        Phase::Running => path.copy(alloc),
        Phase::Joining { .. } => path.copy(alloc),
        Phase::Ended => path.starter(),
        Phase::Faulted { .. } => path.copy(alloc),
    }
}

fn put_process(
    alloc: Global,
    all: &mut Map<Outport, Path>,
    path: &Path,
    entry: &Entry,
) -> Result<(), NoMemory>
    ensures { OnOk result (map_of outport_cmp all.new
        ≡ with_holders (map_of outport_cmp all.old) (holdings_at (path.now, proc_in entry.now))) }
{
    let process: &Process = &entry.process.held;
    let holder = holder_path(alloc, path, process)?;
    put_held(alloc, all, &holder, process)
}

// The paths of holders, by the outports.
fn owners(alloc: Global, processes: &Entries) -> Result<Map<Outport, Path>, NoMemory>
    ensures { IfOk result (λ m. map_of outport_cmp m ≡ from_entries (holdings (procs_of processes.now))) }
{
    let mut all = Map::new(alloc);
    let rows = in_path_order(alloc, processes, Part::Held)?;
    'entries: for row in &rows {
        put_process(alloc, &mut all, row.0, row.1)?;
    }
    Ok(all)
}

/// Who holds the open writers, in the order of these.
pub(crate) fn holders_of(alloc: Global, stacks: &CodeProcs) -> Result<Vec<Holder>, NoMemory>
    ensures { IfOk result (λ v. v.items ≡ holders_by (state_of stacks.now)) }
{
    let owners = owners(alloc, &stacks.entries)?;
    holders_in_order(alloc, owners)
}
