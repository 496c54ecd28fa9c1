//! The children of a process: where they start, whether they have ended, what they leave, and that they are joined.

ghost use Rattle.std.specs.Prelude.{◌≡◌, ◌<◌, ◌^◌, ◌++◌, ◌∷◌, [], ℕ, List, Some, None, true, false, length, map, option_copied, option_map, slice_get, IfOk, OnOk, OnErr, IfSome, IfNone};
ghost use Rattle.std.specs.FinMap.{get};
ghost use Rattle.fm_base.specs.declared.path.ChanName as declared;
ghost use Rattle.fm_finmap.specs.Changes.{alter, alters};
ghost use Rattle.fm_finmap.specs.Rows.{places_in};
ghost use Rattle.fm_net.specs.Machine.{Children, Go, Need, Onward, Place, Reply, child, child_changes, gathered, made, reply_with, start_changes};
ghost use Rattle.fm_net.specs.Starts.{child_places};
ghost use Rattle.fm_nodes_procs.specs.Asks.{AllLeft, GoesAt, StepsAlone, came_with};
ghost use Rattle.fm_nodes_procs.specs.Children.{AreNumbered, is_over};
ghost use Rattle.fm_nodes_procs.specs.Processes.{HasRoom, order_of, procs_of};

use crate::processes::Processes;
use crate::runner::{Gone, Runner};
use fm_base::{NoMemory, Path, Seq};
use fm_net::child_path;
use std::alloc::Global;
use std::sync::Arc;

/// The paths of so many children of a block, in order.
pub fn child_paths(
    alloc: Global,
    path: &Path,
    block: u32,
    count: usize,
) -> Result<Vec<Arc<Path>>, NoMemory>
    ensures { IfOk result (λ v. places_in v.items ≡ child_places path.now block 1 count) }
{
    let mut paths = Vec::new(alloc);
    'children: for place in 0..count {
        let child = child_path(alloc, path, block, place)?;
        let shared = Arc::new(alloc, child)?;
        paths.push(shared)?;
    }
    Ok(paths)
}

// Whether the process of a number has ended.
fn is_over<R: Runner>(runner: &R, processes: &Processes<R::Process>, number: usize) -> bool
    requires { number < length (order_of processes.now) }
    ensures { (p : Place) → slice_get (order_of processes.now) number ≡ Some p →
        result ≡ is_over (R.language runner.now).has_ended (get (procs_of (R.seen runner.now) processes.now) p) }
{
    runner.has_ended(processes.get(number))
}

// The number of the process at a path, if one is there and has ended.
fn ended_at<R: Runner>(
    runner: &R,
    processes: &Processes<R::Process>,
    path: &Path,
    likely: usize,
) -> Option<usize>
    ensures there { IfSome result (λ n. slice_get (order_of processes.now) n ≡ Some path.now) }
    ensures over { IfSome result (λ n. is_over (R.language runner.now).has_ended
        (get (procs_of (R.seen runner.now) processes.now) path.now) ≡ true) }
    ensures none { IfNone result (is_over (R.language runner.now).has_ended
        (get (procs_of (R.seen runner.now) processes.now) path.now) ≡ false) }
{
    match processes.number(path, likely) {
        Some(number) => {
            if is_over(runner, processes, number) {
                Some(number)
            } else {
                None
            }
        }
        None => None,
    }
}

/// The numbers of so many children of a block, if all of them have ended.
pub fn ended_children<R: Runner>(
    alloc: Global,
    runner: &R,
    processes: &Processes<R::Process>,
    path: &Path,
    block: u32,
    count: usize,
) -> Result<Option<Vec<usize>>, NoMemory>
    ensures count { IfOk result (λ o. IfSome o (λ v. length v.items ≡ count)) }
    ensures numbers { IfOk result (λ o. IfSome o (λ v. AreNumbered (order_of processes.now) path.now block 1 v.items)) }
    ensures all { IfOk result (λ o. IfSome o (λ v. (kids : List R.Proc)
        × (gathered (R.language runner.now).has_ended (procs_of (R.seen runner.now) processes.now) path.now block 1
        count ≡ Some kids))) }
    ensures none { IfOk result (λ o. IfNone o (gathered (R.language runner.now).has_ended
        (procs_of (R.seen runner.now) processes.now) path.now block 1 count ≡ None)) }
{
    let mut numbers = Vec::new(alloc);
    let mut likely = 0;
    'children: for place in 0..count {
        let child = child_path(alloc, path, block, place)?;
        match ended_at(runner, processes, &child, likely) {
            Some(number) => {
                numbers.push(number)?;
                likely = number.saturating_add(1);
            }
            None => return Ok(None),
        }
    }
    Ok(Some(numbers))
}

// What the process of a number leaves, as a copy.
fn left<R: Runner>(
    alloc: Global,
    runner: &R,
    processes: &Processes<R::Process>,
    number: usize,
) -> Result<R::Left, NoMemory>
    requires { number < length (order_of processes.now) }
    ensures { IfOk result (λ l. (p : Place) (x : R.Proc) → slice_get (order_of processes.now) number ≡ Some p →
        get (procs_of (R.seen runner.now) processes.now) p ≡ Some x → R.IsLeft runner.now x l) }
{
    runner.left(alloc, processes.get(number))
}

/// What the children of a block leave, as copies, in order.
pub fn lefts<R: Runner>(
    alloc: Global,
    runner: &R,
    processes: &Processes<R::Process>,
    path: &Path,
    block: u32,
    numbers: &[usize],
) -> Result<Vec<R::Left>, NoMemory>
    requires { AreNumbered (order_of processes.now) path.now block 1 numbers.now }
    ensures { IfOk result (λ v. (kids : List R.Proc)
        → gathered (R.language runner.now).has_ended (procs_of (R.seen runner.now) processes.now) path.now block 1
        (length numbers.now) ≡ Some kids → AllLeft (R.IsLeft runner.now) kids v.items) }
{
    let mut all = Vec::new(alloc);
    'children: for number in numbers {
        let own = left(alloc, runner, processes, *number)?;
        all.push(own)?;
    }
    Ok(all)
}

// The process of a number was joined.
fn empty<R: Runner>(alloc: Global, runner: &R, processes: &mut Processes<R::Process>, number: usize)
    ensures order { order_of processes.new ≡ order_of processes.old }
    ensures room { (count : ℕ) → HasRoom processes.old count → HasRoom processes.new count }
    ensures procs { (p : Place) → slice_get (order_of processes.old) number ≡ Some p
        → procs_of (R.seen runner.now) processes.new
        ≡ alter (procs_of (R.seen runner.now) processes.old) p (option_map (R.language runner.now).emptied) }
{
    if number < processes.values.len() {
        runner.empty(alloc, &mut processes.values[number]);
    }
}

// Children were joined, whose numbers these are. Takes no memory.
fn empty_all<R: Runner>(
    alloc: Global,
    runner: &R,
    processes: &mut Processes<R::Process>,
    numbers: Vec<usize>,
)
    ensures order { order_of processes.new ≡ order_of processes.old }
    ensures room { (count : ℕ) → HasRoom processes.old count → HasRoom processes.new count }
    ensures procs { (p : Place) (b : ℕ) → AreNumbered (order_of processes.old) p b 1 numbers.items
        → procs_of (R.seen runner.now) processes.new
        ≡ alters (child_changes (R.language runner.now).emptied p b 1 (length numbers.items))
        (procs_of (R.seen runner.now) processes.old) }
{
    let mut numbers = numbers;
    'children: while let Some(number) = numbers.pop() {
        empty(alloc, runner, processes, number);
    }
}

/// Makes a step of the process of a number that needs nothing and starts no child, in its place. None where its next
/// step isn't such a one. Then, and after want of memory, nothing has changed.
pub fn step_alone<R: Runner>(
    alloc: Global,
    runner: &R,
    processes: &mut Processes<R::Process>,
    number: usize,
) -> Result<Option<(R::Drops, u64)>, NoMemory>
    ensures order { order_of processes.new ≡ order_of processes.old }
    ensures steps { IfOk result (λ o. (d : R.Drops) (cost : ℕ)
        → o ≡ Some (d, cost) → (p : Place) → slice_get (order_of processes.old) number ≡ Some p
        → StepsAlone (R.language runner.now) (procs_of (R.seen runner.now) processes.old) p (R.let_go runner.now d) cost
        (procs_of (R.seen runner.now) processes.new)) }
    ensures few { IfOk result (λ o. (d : R.Drops) (cost : ℕ) → o ≡ Some (d, cost) → cost < 2 ^ 63) }
    ensures none { IfOk result
        (λ o. o ≡ None → procs_of (R.seen runner.now) processes.new ≡ procs_of (R.seen runner.now) processes.old) }
    ensures err { OnErr result
        (procs_of (R.seen runner.now) processes.new ≡ procs_of (R.seen runner.now) processes.old) }
{
    if number >= processes.values.len() {
        return Ok(None);
    }
    runner.step_alone(alloc, &mut processes.values[number])
}

/// The process of a number goes on that joins nobody, with the message that came, or with none, and whether one is
/// there that exceeds its limits. After want of memory nothing has changed.
pub fn go_on<R: Runner>(
    alloc: Global,
    runner: &R,
    processes: &mut Processes<R::Process>,
    number: usize,
    path: &Path,
    message: Option<&Seq<Seq<i64>>>,
    exceeds: bool,
) -> Result<Gone<R::Process, R::Drops>, NoMemory>
    requires { slice_get (order_of processes.old) number ≡ Some path.now }
    ensures order { order_of processes.new ≡ order_of processes.old }
    ensures room { (count : ℕ) → HasRoom processes.old count → HasRoom processes.new count }
    ensures goes { IfOk result (λ g. (x : R.Proc) (need : Need) (f : declared.ChanName → Reply R.Proc → Onward R.Proc)
        → get (procs_of (R.seen runner.now) processes.old) path.now ≡ Some x
        → (R.language runner.now).ask x ≡ Go need f → ((b n : ℕ) → need ≡ Children b n → ⊥)
        → GoesAt (procs_of (R.seen runner.now) processes.old) path.now (map (R.seen runner.now) g.starts.items)
        (R.let_go runner.now g.drops) g.cost (procs_of (R.seen runner.now) processes.new)
        (f (made path.now need) (came_with (option_copied message.entry) exceeds))) }
    ensures few { IfOk result (λ g. g.cost < 2 ^ 63) }
    ensures err { OnErr result
        (procs_of (R.seen runner.now) processes.new ≡ procs_of (R.seen runner.now) processes.old) }
{
    runner.go_on(alloc, &mut processes.values[number], path, message, exceeds)
}

/// The process of a number goes on that joins children who left this. After want of memory nothing has changed.
pub fn join<R: Runner>(
    alloc: Global,
    runner: &R,
    processes: &mut Processes<R::Process>,
    number: usize,
    path: &Path,
    children: Vec<R::Left>,
) -> Result<Gone<R::Process, R::Drops>, NoMemory>
    requires { slice_get (order_of processes.old) number ≡ Some path.now }
    ensures order { order_of processes.new ≡ order_of processes.old }
    ensures room { (count : ℕ) → HasRoom processes.old count → HasRoom processes.new count }
    ensures goes { IfOk result (λ g. (x : R.Proc) (b n : ℕ) (f : declared.ChanName → Reply R.Proc → Onward R.Proc)
        (kids : List R.Proc) → get (procs_of (R.seen runner.now) processes.old) path.now ≡ Some x
        → (R.language runner.now).ask x ≡ Go (Children b n) f
        → AllLeft (R.IsLeft runner.now) kids children.items → (c : declared.ChanName)
        → GoesAt (procs_of (R.seen runner.now) processes.old) path.now (map (R.seen runner.now) g.starts.items)
        (R.let_go runner.now g.drops) g.cost (procs_of (R.seen runner.now) processes.new) (f c (reply_with kids))) }
    ensures few { IfOk result (λ g. g.cost < 2 ^ 63) }
    ensures err { OnErr result
        (procs_of (R.seen runner.now) processes.new ≡ procs_of (R.seen runner.now) processes.old) }
{
    let _path = path;
    runner.join(alloc, &mut processes.values[number], children)
}

/// Children were joined, whose numbers these are, and children of a process start in a block, for whom there is room.
/// Takes no memory.
pub fn start_all<R: Runner>(
    alloc: Global,
    runner: &R,
    processes: &mut Processes<R::Process>,
    path: &Path,
    block: u32,
    starts: Vec<R::Process>,
    paths: Vec<Arc<Path>>,
    joined: Vec<usize>,
)
    requires paths { places_in paths.items ≡ child_places path.now block 1 (length starts.items) }
    requires new { (i : ℕ) → get (procs_of (R.seen runner.now) processes.old) (child path.now block i) ≡ None }
    requires room { HasRoom processes.old (length starts.items) }
    ensures order { order_of processes.new
        ≡ order_of processes.old ++ child_places path.now block 1 (length starts.items) }
    ensures procs { (b : ℕ) → AreNumbered (order_of processes.old) path.now b 1 joined.items
        → procs_of (R.seen runner.now) processes.new
        ≡ alters (start_changes path.now block 1 (map (R.seen runner.now) starts.items))
        (alters (child_changes (R.language runner.now).emptied path.now b 1 (length joined.items))
        (procs_of (R.seen runner.now) processes.old)) }
{
    empty_all(alloc, runner, processes, joined);
    processes.append(paths, starts);
}
