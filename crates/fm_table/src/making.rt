//! Steps of the processes in memory.

ghost use Rattle.std.specs.Prelude.{◌≡◌, ◌≤◌, ◌++◌, true, false, Ok, List, length, take, IfOk, OnErr, OnOk};
ghost use Rattle.fm_base.specs.declared.schedule.Turn.{Turn as Entry};
ghost use Rattle.fm_mean.specs.Outcome.{outcome_of};
ghost use Rattle.fm_net.specs.Machine.{Place};
ghost use Rattle.fm_run.specs.Entries.{MayHaveEntry, turn_of};
ghost use Rattle.fm_run_code.specs.Given.{IsOwn};
ghost use Rattle.fm_run.specs.Orders.{Among, KeepsFront, places_of};
ghost use Rattle.fm_run.specs.Programs.{can_at};
ghost use Rattle.fm_table.specs.Inside.{HasMade, IsAsked, IsGivenSo, IsLive, MakesSo, stand_in};

use crate::programs::Compiled;
use fm_base::{NoMemory, Path};
use fm_machine::Done;
use fm_mean::Outcome;
use fm_procs::no_procs;
use fm_rules::Program;
use fm_run::{Net, Player};
use fm_same::same_body;
use std::alloc::Global;
use std::sync::Arc;

/// How the steps of an entry are asked for.
#[derive(Clone, Copy)]
pub(crate) enum Way<'a> {
    /// A full piece of a slice of so many steps, with a step to spare.
    Slice(u32),
    /// So many steps, or as many as there are.
    Steps(u32),
    /// What came of a slice that was made outside.
    Given(&'a Done),
}

/// Puts the paths of processes behind those that are there, which are the first of them. After want of memory some may
/// lack still.
pub(crate) fn put_paths(paths: &mut Vec<Arc<Path>>, all: &[Arc<Path>]) -> Result<(), NoMemory>
    requires { (more : List Place) × (places_of all.now ≡ places_of paths.old.items ++ more) }
    ensures ok { OnOk result (places_of paths.new.items ≡ places_of all.now) }
    ensures front { (more : List Place) × (places_of all.now ≡ places_of paths.new.items ++ more) }
{
    let known = paths.len();
    let count = all.len();
    'paths: for place in known..count {
        let path = Arc::try_clone(&all[place])?;
        paths.push(path)?;
    }
    Ok(())
}

// Whether what came of a slice was made of the process of a number as it stands in memory.
fn is_own(net: &Compiled, number: u32, done: &Done) -> bool
    ensures { result ≡ true → IsOwn net.now.stacks number done.now }
{
    match net.body_of(number) {
        Some(body) => same_body(body, done.start()),
        None => false,
    }
}

// Makes the piece of a process that can step by what came of a slice. That this was made of what stands in memory
// follows from what a table keeps; so it costs nothing to look once more, and to answer it as want of memory.
fn give(
    alloc: Global,
    program: &Program,
    player: &mut Player<Compiled>,
    number: u32,
    done: &Done,
) -> Result<u32, NoMemory>
    requires live { IsLive program.now player.old }
    requires able { Among number player.old.able.numbers.items }
    ensures live { OnOk result (IsLive program.now player.new) }
    ensures made { IfOk result (λ steps. HasMade program.now (turn_of number steps) player.old player.new) }
    ensures so { IfOk result (λ steps. IsGivenSo program.now done.now (stand_in program.now player.old) number steps) }
    ensures stays { OnErr result (MayHaveEntry player.old.net.history player.new.net.history) }
    ensures front { OnErr result (KeepsFront player.old.able.numbers.items player.new.able.numbers.items) }
{
    if !is_own(&player.net, number, done) {
        return Err(NoMemory);
    }
    player.give(alloc, program, number, done)
}

/// Makes steps of the process of a number, as they are asked for: how many. None where it can't step.
pub(crate) fn make_steps(
    alloc: Global,
    program: &Program,
    player: &mut Player<Compiled>,
    number: u32,
    way: Way,
) -> Result<u32, NoMemory>
    requires some { IsAsked way }
    requires live { IsLive program.now player.old }
    ensures live { OnOk result (IsLive program.now player.new) }
    ensures none { result ≡ Ok 0
        → (player.new ≡ player.old)
        × (can_at program.now (stand_in program.now player.old).state (stand_in program.now player.old).places number
        ≡ false) }
    ensures made { IfOk result (λ steps. 1 ≤ steps → HasMade program.now (turn_of number steps) player.old player.new) }
    ensures so { IfOk result (λ steps. 1 ≤ steps
        → MakesSo way.entry program.now (stand_in program.now player.old) (stand_in program.now player.new) number
        steps) }
    ensures stays { OnErr result (MayHaveEntry player.old.net.history player.new.net.history) }
    ensures front { OnErr result (KeepsFront player.old.able.numbers.items player.new.able.numbers.items) }
{
    if !player.is_able(number) {
        return Ok(0);
    }
    match way {
        Way::Slice(slice) => player.play(alloc, program, number, slice),
        Way::Steps(most) => player.play_steps(alloc, program, number, most),
        Way::Given(done) => give(alloc, program, player, number, done),
    }
}

/// What the processes show where they have ended.
pub(crate) fn outcome_in(
    alloc: Global,
    program: &Program,
    player: &Player<Compiled>,
) -> Result<Outcome, NoMemory>
    requires { IsLive program.now player.now }
    ensures { IfOk result (λ o. o ≡ outcome_of program.now player.now.used (stand_in program.now player.now).state) }
{
    player.net.outcome(alloc, program, player.used)
}

/// Lets the processes go, and what stands behind so many entries, and numbers in the queue.
pub(crate) fn let_go(alloc: Global, player: &mut Player<Compiled>, entries: usize, queued: usize)
    ensures history { (front : List Entry) → length front ≡ entries
        → MayHaveEntry front player.old.net.history → player.new.net.history ≡ front }
    ensures queue { player.new.able.numbers.items ≡ take queued player.old.able.numbers.items }
{
    player.net.history.forget_behind(entries);
    player.able.shorten(queued);
    player.net.stacks = no_procs(alloc);
}
