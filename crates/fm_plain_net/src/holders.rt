//! Who holds the open writers.

ghost use Rattle.std.specs.Prelude.{◌≡◌, [], ◌∷◌, map, option_map, option_to_list, reverse, IfOk, OnOk};
ghost use Rattle.std.specs.FinMap.{from_entries};
ghost use Rattle.fm_base.specs.Channels.{item_ports, message_ports};
ghost use Rattle.fm_rules.specs.declared.program.Program as declared;
ghost use Rattle.fm_finmap.specs.Map.{map_of};
ghost use Rattle.fm_mean.specs.Holders.{holder_path, holders_of, holdings, holdings_at};
ghost use Rattle.fm_mean.specs.Outports.{outport_cmp};
ghost use Rattle.fm_mean.specs.Places.{live};
ghost use Rattle.fm_mean.specs.Process.{frame_ports, frames_ports, held, started_ports};
ghost use Rattle.fm_plain_frame.specs.Frames.{frame_of, proc_of, start_of};
ghost use Rattle.fm_plain_frame.specs.Memory.{item_in, port_in, values_of};
ghost use Rattle.fm_run.specs.Gathered.{with_held, with_holders};
ghost use Rattle.fm_plain_net.specs.Readings.{procs_of, state_of};

use crate::processes::{Processes, Trees};
use fm_base::{NoMemory, Path, PortValue};
use fm_finmap::Map;
use fm_mean::{Holder, Outport};
use fm_plain_frame::{Frame, PlainProc, Start, Word, part, variables_of};
use fm_rules::Program;
use fm_run::{holders_in_order, put_outport};
use fm_symbols::Variable;
use fm_tree::Kind;
use std::alloc::Global;

fn put_port(
    alloc: Global,
    all: &mut Map<Outport, Path>,
    path: &Path,
    port: &PortValue,
) -> Result<(), NoMemory>
    ensures { OnOk result
        (map_of outport_cmp all.new ≡ with_held (map_of outport_cmp all.old) path.now (port.now ∷ [])) }
{
    match port {
        PortValue::Writer(channel, number) => {
            let channel = channel.copy(alloc)?;
            let number = *number;
            put_outport(alloc, all, path, Outport { channel, number })
        }
        PortValue::Reader(_) => Ok(()),
    }
}

fn put_word(
    alloc: Global,
    all: &mut Map<Outport, Path>,
    path: &Path,
    word: &Word,
) -> Result<(), NoMemory>
    ensures { OnOk result
        (map_of outport_cmp all.new ≡ with_held (map_of outport_cmp all.old) path.now (live (port_in word.now ∷ []))) }
{
    match word {
        Word::Number(_) => Ok(()),
        Word::Null => Ok(()),
        Word::Port(port) => put_port(alloc, all, path, port),
    }
}

fn put_words(
    alloc: Global,
    all: &mut Map<Outport, Path>,
    path: &Path,
    words: &[Word],
) -> Result<(), NoMemory>
    ensures { OnOk result
        (map_of outport_cmp all.new ≡ with_held (map_of outport_cmp all.old) path.now (live (map port_in words.now))) }
{
    'words: for word in words {
        put_word(alloc, all, path, word)?;
    }
    Ok(())
}

fn put_variable(
    alloc: Global,
    all: &mut Map<Outport, Path>,
    path: &Path,
    memory: &[Word],
    variable: &Variable,
) -> Result<(), NoMemory>
    ensures { OnOk result (map_of outport_cmp all.new
        ≡ with_held (map_of outport_cmp all.old) path.now (item_ports (item_in memory.now variable.now))) }
{
    let words = part(memory, variable.first as usize, variable.words as usize);
    match &variable.kind {
        Kind::Integer => Ok(()),
        Kind::Logical => Ok(()),
        Kind::In(_) => put_words(alloc, all, path, words),
        Kind::Out(_) => put_words(alloc, all, path, words),
    }
}

fn put_memory(
    alloc: Global,
    all: &mut Map<Outport, Path>,
    path: &Path,
    memory: &[Word],
    variables: &[Variable],
) -> Result<(), NoMemory>
    ensures { OnOk result (map_of outport_cmp all.new
        ≡ with_held (map_of outport_cmp all.old) path.now (message_ports (values_of variables.now memory.now))) }
{
    'variables: for variable in variables {
        put_variable(alloc, all, path, memory, variable)?;
    }
    Ok(())
}

fn put_start(
    alloc: Global,
    program: &Program,
    all: &mut Map<Outport, Path>,
    path: &Path,
    start: &Start,
) -> Result<(), NoMemory>
    ensures { OnOk result (map_of outport_cmp all.new
        ≡ with_held (map_of outport_cmp all.old) path.now (message_ports (start_of program.now start.now).values)) }
{
    let variables = variables_of(program, start.unit);
    put_memory(alloc, all, path, start.memory.as_slice(), variables)
}

fn put_starts(
    alloc: Global,
    program: &Program,
    all: &mut Map<Outport, Path>,
    path: &Path,
    starts: &[Start],
) -> Result<(), NoMemory>
    ensures { OnOk result (map_of outport_cmp all.new
        ≡ with_held (map_of outport_cmp all.old) path.now (started_ports (map (start_of program.now) starts.now))) }
{
    'starts: for start in starts {
        put_start(alloc, program, all, path, start)?;
    }
    Ok(())
}

fn put_frame(
    alloc: Global,
    program: &Program,
    all: &mut Map<Outport, Path>,
    path: &Path,
    frame: &Frame,
) -> Result<(), NoMemory>
    ensures { OnOk result (map_of outport_cmp all.new
        ≡ with_held (map_of outport_cmp all.old) path.now (frame_ports (frame_of program.now frame.now))) }
{
    let variables = variables_of(program, frame.unit);
    put_memory(alloc, all, path, frame.memory.as_slice(), variables)?;
    put_starts(alloc, program, all, path, frame.starts.as_slice())
}

// The last of these frames is the innermost, and comes first.
fn put_frames(
    alloc: Global,
    program: &Program,
    all: &mut Map<Outport, Path>,
    path: &Path,
    frames: &[Frame],
) -> Result<(), NoMemory>
    ensures { OnOk result (map_of outport_cmp all.new
        ≡ with_held (map_of outport_cmp all.old) path.now
        (frames_ports (reverse (map (frame_of program.now) frames.now)))) }
{
    'frames: for k in (0..frames.len()).rev() {
        put_frame(alloc, program, all, path, &frames[k])?;
    }
    Ok(())
}

fn put_top(
    alloc: Global,
    program: &Program,
    all: &mut Map<Outport, Path>,
    path: &Path,
    top: &Option<Frame>,
) -> Result<(), NoMemory>
    ensures { OnOk result (map_of outport_cmp all.new
        ≡ with_held (map_of outport_cmp all.old) path.now
        (frames_ports (option_to_list (option_map (frame_of program.now) top.now)))) }
{
    match top {
        Some(frame) => put_frame(alloc, program, all, path, frame),
        None => Ok(()),
    }
}

fn put_held(
    alloc: Global,
    program: &Program,
    all: &mut Map<Outport, Path>,
    path: &Path,
    process: &PlainProc,
) -> Result<(), NoMemory>
    ensures { OnOk result (map_of outport_cmp all.new
        ≡ with_held (map_of outport_cmp all.old) path.now (held (proc_of program.now process.now))) }
{
    put_top(alloc, program, all, path, &process.top)?;
    put_frames(alloc, program, all, path, process.below.as_slice())
}

// Who holds what stands with the process at this path.
fn holder_path(alloc: Global, path: &Path, process: &PlainProc) -> Result<Path, NoMemory>
    ensures { IfOk result (λ q. (p : declared.Program) → q ≡ holder_path (path.now, proc_of p process.now)) }
{
    if process.has_ended() {
        path.starter()
    } else {
        path.copy(alloc)
    }
}

/// Puts the holder of each outport that stands with the process at this path, unless one is known.
pub fn put_process(
    alloc: Global,
    program: &Program,
    all: &mut Map<Outport, Path>,
    path: &Path,
    process: &PlainProc,
) -> Result<(), NoMemory>
    ensures { OnOk result (map_of outport_cmp all.new
        ≡ with_holders (map_of outport_cmp all.old) (holdings_at (path.now, proc_of program.now process.now))) }
{
    let holder = holder_path(alloc, path, process)?;
    put_held(alloc, program, all, &holder, process)
}

// The paths of holders, by the outports.
fn owners(
    alloc: Global,
    program: &Program,
    processes: &Processes,
) -> Result<Map<Outport, Path>, NoMemory>
    ensures { IfOk result (λ m. map_of outport_cmp m ≡ from_entries (holdings (procs_of program.now processes.now))) }
{
    let mut all = Map::new(alloc);
    let rows = processes.rows.in_path_order(alloc)?;
    'processes: for row in &rows {
        put_process(alloc, program, &mut all, row.0, &row.1.process.plain)?;
    }
    Ok(all)
}

/// Who holds the open writers, in the order of these.
pub(crate) fn holders(
    alloc: Global,
    net: &Trees,
    program: &Program,
) -> Result<Vec<Holder>, NoMemory>
    ensures { IfOk result (λ v. v.items ≡ holders_of (state_of program.now net.now)) }
{
    let owners = owners(alloc, program, &net.entries)?;
    holders_in_order(alloc, owners)
}
