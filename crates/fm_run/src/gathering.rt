//! What a run shows, gathered process after process: the parts that are the same for every net.

ghost use Rattle.std.specs.Prelude.{◌≡◌, ◌++◌, ◌∷◌, [], map, option_map, IfOk, OnErr, OnOk};
ghost use Rattle.std.specs.FinMap.{entries};
ghost use Rattle.fm_finmap.specs.Map.{map_of};
ghost use Rattle.fm_mean.specs.declared.outcome.At.TheVariants as at;
ghost use Rattle.fm_mean.specs.Holders.{holder_of};
ghost use Rattle.fm_mean.specs.Outports.{outport_cmp};
ghost use Rattle.fm_run.specs.Gathered.{shown_entry, with_holder};

use fm_base::{NoMemory, Path, Seq};
use fm_finmap::{Map, NameMap};
use fm_mean::{At, FaultAt, Holder, Outport, OutputLine, Shown, ShownVariable, Wait};
use std::alloc::Global;

/// Output lines, faults and waits, process after process.
#[derive(Drop)]
pub struct Gathered {
    /// What processes printed.
    pub lines: Vec<OutputLine>,
    /// The faults of processes that have one.
    pub faults: Vec<FaultAt>,
    /// What processes wait for that wait.
    pub waits: Vec<Wait>,
}

impl Gathered {
    /// Nothing yet. Takes no memory.
    pub fn new(alloc: Global) -> Gathered
        ensures lines { result.lines.items ≡ [] }
        ensures faults { result.faults.items ≡ [] }
        ensures waits { result.waits.items ≡ [] }
    {
        Gathered {
            lines: Vec::new(alloc),
            faults: Vec::new(alloc),
            waits: Vec::new(alloc),
        }
    }
}

fn push_line(
    alloc: Global,
    all: &mut Vec<OutputLine>,
    path: &Path,
    line: &Seq<u8>,
) -> Result<(), NoMemory>
    ensures { OnOk result (all.new.items ≡ all.old.items ++ record { path = path.now; bytes = line.now } ∷ []) }
{
    let path = path.copy(alloc)?;
    let bytes = Seq::from_slice(alloc, line.as_slice())?;
    all.push(OutputLine { path, bytes })?;
    Ok(())
}

/// Adds the lines of the process at this path.
pub fn push_lines(
    alloc: Global,
    all: &mut Vec<OutputLine>,
    path: &Path,
    lines: &[Seq<u8>],
) -> Result<(), NoMemory>
    ensures { OnOk result
        (all.new.items ≡ all.old.items ++ map (λ line. record { path = path.now; bytes = line }) lines.now) }
{
    'lines: for line in lines {
        push_line(alloc, all, path, line)?;
    }
    Ok(())
}

/// The end of a child, as what is waited for.
pub fn join_of(child: Option<Path>) -> Option<At>
    ensures { result ≡ option_map at.Join child }
{
    match child {
        Some(child) => Some(At::Join(child)),
        None => None,
    }
}

/// Gives an outport its holder. Of two holders of an outport the first counts. After want of memory nothing has
/// changed.
pub fn put_outport(
    alloc: Global,
    all: &mut Map<Outport, Path>,
    path: &Path,
    outport: Outport,
) -> Result<(), NoMemory>
    ensures holder { OnOk result
        (map_of outport_cmp all.new ≡ with_holder (map_of outport_cmp all.old) outport path.now) }
    ensures err { OnErr result (all.new ≡ all.old) }
{
    if all.contains_key(&outport) {
        return Ok(());
    }
    all.insert(outport, path.copy(alloc)?)?;
    Ok(())
}

/// The holders, in the order of the outports.
pub fn holders_in_order(alloc: Global, owners: Map<Outport, Path>) -> Result<Vec<Holder>, NoMemory>
    ensures { IfOk result (λ v. v.items ≡ map holder_of (entries (map_of outport_cmp owners))) }
{
    let mut holders = Vec::new(alloc);
    'owners: for (outport, path) in owners {
        holders.push(outport.held_by(path))?;
    }
    Ok(holders)
}

/// The variables, in byte order of the names.
pub fn variables_in_order(
    alloc: Global,
    all: NameMap<Shown>,
) -> Result<Vec<ShownVariable>, NoMemory>
    ensures { IfOk result (λ v. v.items ≡ map shown_entry (entries all)) }
{
    let mut variables = Vec::new(alloc);
    'variables: for (name, shown) in all.into_entries(alloc)? {
        variables.push(ShownVariable { name, shown })?;
    }
    Ok(variables)
}
