//! Who became able to step by a piece of a process, and who is noted then.

ghost use Rattle.std.specs.Prelude.{◌≡◌, ◌≢◌, ◌↔◌, ◌≤◌, ◌<◌, ◌++◌, ◌∷◌, ◌==◌, ◌&&◌, ℕ, true, false, cond, not, [], Some, List, Contains, filter, is_some, length, option_to_list, slice_get, slice_index_or, IfOk, OnErr, OnOk};
ghost use Rattle.std.specs.FinMap.{get};
ghost use Rattle.std.specs.List.{range_with_len};
ghost use Rattle.std.specs.List.Sorted.{IsNonDecreasing};
ghost use Rattle.fm_base.specs.declared.path.ChanName as declared_channel;
ghost use Rattle.fm_chan.specs.Woken.{WakesAll, waiting_reader, woken_of};
ghost use Rattle.fm_net.specs.Machine.{Place};
ghost use Rattle.fm_net.specs.Owned.{IsOwned};
ghost use Rattle.fm_run.specs.Plays.{ended_at, language, step};
ghost use Rattle.fm_run.specs.Waiting.{AreKnown, HasOneLeft};
ghost use Rattle.fm_run.specs.Noted.{AreNotedBut, IsNoted, OwnOrLeft};
ghost use Rattle.fm_run.specs.Orders.{Among, AreMarked, EachOnce, KeepsFront, can_at, newly, others_in};

use crate::net::Net;
use crate::orders::Queue;
use fm_base::NoMemory;

// All who were woken, in the room of a list that isn't wanted any more. Nobody is then any more.
fn take_woken<N: Net>(net: &mut N, spare: Vec<u32>) -> Result<Vec<u32>, NoMemory>
    ensures order { OnOk result (N.order net.new ≡ N.order net.old) }
    ensures history { N.history net.new ≡ N.history net.old }
    ensures state { OnOk result ((p : N.Source) → N.state p net.new ≡ N.state p net.old) }
    ensures sound { OnOk result ((p : N.Source) → N.IsSound p net.old → N.IsSound p net.new) }
    ensures readers { OnOk result ((c : declared_channel.ChanName)
        → waiting_reader (N.channels net.new) c ≡ waiting_reader (N.channels net.old) c) }
    ensures woken { IfOk result (λ v. (n : ℕ) → Contains (woken_of (N.channels net.old)) n → Contains v.items n) }
{
    let mut all = spare;
    all.clear();
    'woken: while let Some(number) = net.next_woken() {
        all.push(number)?;
    }
    Ok(all)
}

fn count_at(counts: &[u32], number: u32) -> u32
    ensures { result ≡ slice_index_or counts.now number 0 }
{
    match counts.get(number as usize) {
        Some(count) => *count,
        None => 0,
    }
}

/// Keeps the count of a process.
pub(crate) fn keep_count(counts: &mut [u32], number: u32, count: u32)
    ensures this { number < length counts.old → slice_index_or counts.new number 0 ≡ count }
    ensures others { (n : ℕ) → n ≢ number → slice_index_or counts.new n 0 ≡ slice_index_or counts.old n 0 }
{
    let place = number as usize;
    if place < counts.len() {
        counts[place] = count;
    }
}

// A count that is kept. No process has as many children as would be too many.
fn as_count(known: usize) -> Result<u32, NoMemory>
    ensures { IfOk result (λ count. count ≡ known) }
{
    match u32::try_from(known) {
        Ok(count) => Ok(count),
        Err(_) => Err(NoMemory),
    }
}

// Whether the process of a number doesn't wait for a child that hasn't ended. The children that have ended,
// from the first on, are counted, and aren't looked at again.
fn awaits_nobody<N: Net>(net: &N, ended: &mut [u32], number: u32) -> Result<bool, NoMemory>
    ensures able { IfOk result (λ r. (p : N.Source) → N.IsSound p net.now
        → can_at (N.play p) (N.state p net.now) (N.order net.now) number ≡ true
        → r ≡ true) }
    ensures left { IfOk result (λ r. (p : N.Source) (q : Place) (x : (N.play p).Proc)
        → N.IsSound p net.now → slice_get (N.order net.now) number ≡ Some q
        → get (N.state p net.now).procs q ≡ Some x
        → AreKnown (N.play p) (N.state p net.now) q x (slice_index_or ended.old number 0)
        → (r ≡ false) ↔ HasOneLeft (N.play p) (N.state p net.now) q x) }
{
    let before = count_at(ended, number);
    let known = net.awaits(number, before as usize)?;
    let count = as_count(known.ended)?;
    keep_count(ended, number, count);
    Ok(!known.waits)
}

// The one that started the process of a number, if this has ended, and it waits for no other child.
fn parent_to_ask<N: Net>(
    net: &N,
    parents: &[u32],
    ended: &mut [u32],
    number: u32,
) -> Result<Option<u32>, NoMemory>
    ensures { IfOk result (λ r. (p : N.Source) (q : Place) (n : ℕ)
        → N.IsSound p net.now → slice_get (N.order net.now) number ≡ Some q
        → ended_at (N.play p) (get (N.state p net.now).procs q) ≡ true
        → slice_get parents.now number ≡ Some n → can_at (N.play p) (N.state p net.now) (N.order net.now) n ≡ true
        → r ≡ Some n) }
{
    if !net.has_ended(number) {
        return Ok(None);
    }
    let parent = match parents.get(number as usize) {
        Some(parent) => *parent,
        None => return Ok(None),
    };
    if awaits_nobody(net, ended, parent)? {
        return Ok(Some(parent));
    }
    Ok(None)
}

fn push_some(numbers: &mut Vec<u32>, number: Option<u32>) -> Result<(), NoMemory>
    ensures { OnOk result (numbers.new.items ≡ numbers.old.items ++ option_to_list number) }
{
    if let Some(number) = number {
        numbers.push(number)?;
    }
    Ok(())
}

// The numbers from one on, and below another.
fn push_new(numbers: &mut Vec<u32>, from: usize, to: usize) -> Result<(), NoMemory>
    ensures kept { OnOk result ((n : ℕ) → Contains numbers.old.items n → Contains numbers.new.items n) }
    ensures new { OnOk result ((n : ℕ) → from ≤ n → n < to → Contains numbers.new.items n) }
{
    'new: for number in from..to {
        match u32::try_from(number) {
            Ok(number) => numbers.push(number)?,
            Err(_) => return Err(NoMemory),
        }
    }
    Ok(())
}

/// The numbers of the processes that may have become able by a piece of this one, in ascending order: who
/// was woken, who waits for it and for no other child, if it has ended, and those that it started, which are
/// all from `before` on. A number may stand there twice. They stand in the room of a list that isn't wanted any more.
pub(crate) fn candidates<N: Net>(
    spare: Vec<u32>,
    net: &mut N,
    parents: &[u32],
    ended: &mut [u32],
    number: u32,
    before: usize,
) -> Result<Vec<u32>, NoMemory>
    ensures order { OnOk result (N.order net.new ≡ N.order net.old) }
    ensures history { N.history net.new ≡ N.history net.old }
    ensures state { OnOk result ((p : N.Source) → N.state p net.new ≡ N.state p net.old) }
    ensures sound { OnOk result ((p : N.Source) → N.IsSound p net.old → N.IsSound p net.new) }
    ensures readers { OnOk result ((c : declared_channel.ChanName)
        → waiting_reader (N.channels net.new) c ≡ waiting_reader (N.channels net.old) c) }
    ensures sorted { IfOk result (λ v. IsNonDecreasing v.items) }
    ensures woken { IfOk result (λ v. (n : ℕ) → Contains (woken_of (N.channels net.old)) n → Contains v.items n) }
    ensures parent { IfOk result (λ v. (p : N.Source) (q : Place) (n : ℕ)
        → N.IsSound p net.old → slice_get (N.order net.old) number ≡ Some q
        → ended_at (N.play p) (get (N.state p net.old).procs q) ≡ true
        → slice_get parents.now number ≡ Some n → can_at (N.play p) (N.state p net.old) (N.order net.old) n ≡ true
        → Contains v.items n) }
    ensures new { IfOk result (λ v. (n : ℕ) → before ≤ n → n < length (N.order net.old) → Contains v.items n) }
{
    let mut numbers = take_woken(net, spare)?;
    let parent = parent_to_ask(net, parents, ended, number)?;
    push_some(&mut numbers, parent)?;
    push_new(&mut numbers, before, net.count())?;
    numbers.sort()?;
    Ok(numbers)
}

/// The process of a number goes behind the others where it can step, and is noted where it waits. After want of memory
/// the queue is as it was.
pub(crate) fn settle<N: Net>(
    net: &mut N,
    program: &N::Source,
    able: &mut Queue,
    number: u32,
) -> Result<(), NoMemory>
    requires owned { IsOwned (language (N.play program.now)) (N.state program.now net.old) }
    requires sound { N.IsSound program.now net.old }
    ensures queue { OnOk result (able.new.numbers.items
        ≡ able.old.numbers.items
        ++ cond (can_at (N.play program.now) (N.state program.now net.old) (N.order net.old) number) (number ∷ []) []) }
    ensures kept { OnErr result (able.new.numbers.items ≡ able.old.numbers.items) }
    ensures marks { OnOk result ((count : ℕ) → AreMarked count able.old.marks.items able.old.numbers.items
        → AreMarked count able.new.marks.items able.new.numbers.items) }
    ensures order { OnOk result (N.order net.new ≡ N.order net.old) }
    ensures history { N.history net.new ≡ N.history net.old }
    ensures state { OnOk result (N.state program.now net.new ≡ N.state program.now net.old) }
    ensures sound { OnOk result (N.IsSound program.now net.new) }
    ensures waking { OnOk result (WakesAll (N.channels net.old) (N.channels net.new)) }
    ensures noted { OnOk result ((q : Place) (x : (N.play program.now).Proc)
        → slice_get (N.order net.old) number ≡ Some q → get (N.state program.now net.old).procs q ≡ Some x
        → is_some (step (N.play program.now) (N.state program.now net.old) q) ≡ false
        → IsNoted (N.play program.now) (N.channels net.new) number x) }
{
    if net.can_step(program, number)? {
        return able.put(number);
    }
    net.note(program, number)
}

/// The process that made the steps leaves its place in the queue: it goes behind the others where it can step, and is
/// noted where it waits. After want of memory the queue is as it was.
pub(crate) fn settle_own<N: Net>(
    net: &mut N,
    program: &N::Source,
    able: &mut Queue,
    own: u32,
) -> Result<(), NoMemory>
    requires owned { IsOwned (language (N.play program.now)) (N.state program.now net.old) }
    requires sound { N.IsSound program.now net.old }
    requires once { EachOnce able.old.numbers.items }
    requires there { Among own able.old.numbers.items }
    ensures queue { OnOk result (able.new.numbers.items
        ≡ others_in own able.old.numbers.items
        ++ cond (can_at (N.play program.now) (N.state program.now net.old) (N.order net.old) own) (own ∷ []) []) }
    ensures kept { OnErr result (able.new.numbers.items ≡ able.old.numbers.items) }
    ensures marks { OnOk result ((count : ℕ) → AreMarked count able.old.marks.items able.old.numbers.items
        → AreMarked count able.new.marks.items able.new.numbers.items) }
    ensures order { OnOk result (N.order net.new ≡ N.order net.old) }
    ensures history { N.history net.new ≡ N.history net.old }
    ensures state { OnOk result (N.state program.now net.new ≡ N.state program.now net.old) }
    ensures sound { OnOk result (N.IsSound program.now net.new) }
    ensures waking { OnOk result (WakesAll (N.channels net.old) (N.channels net.new)) }
    ensures noted { OnOk result ((q : Place) (x : (N.play program.now).Proc)
        → slice_get (N.order net.old) own ≡ Some q → get (N.state program.now net.old).procs q ≡ Some x
        → is_some (step (N.play program.now) (N.state program.now net.old) q) ≡ false
        → IsNoted (N.play program.now) (N.channels net.new) own x) }
{
    if net.can_step(program, own)? {
        able.requeue(own);
        return Ok(());
    }
    net.note(program, own)?;
    able.leave(own);
    Ok(())
}

// A candidate is settled, unless it's the one that made the piece or is in the queue.
fn ask<N: Net>(
    net: &mut N,
    program: &N::Source,
    able: &mut Queue,
    own: u32,
    number: u32,
) -> Result<(), NoMemory>
    requires owned { IsOwned (language (N.play program.now)) (N.state program.now net.old) }
    requires sound { N.IsSound program.now net.old }
    ensures queue { OnOk result (able.new.numbers.items
        ≡ able.old.numbers.items
        ++ cond ((not (number == own) && not (slice_index_or able.old.marks.items number false))
        && can_at (N.play program.now) (N.state program.now net.old) (N.order net.old) number) (number ∷ []) []) }
    ensures kept { OnErr result (able.new.numbers.items ≡ able.old.numbers.items) }
    ensures marks { OnOk result ((count : ℕ) → AreMarked count able.old.marks.items able.old.numbers.items
        → AreMarked count able.new.marks.items able.new.numbers.items) }
    ensures order { OnOk result (N.order net.new ≡ N.order net.old) }
    ensures history { N.history net.new ≡ N.history net.old }
    ensures state { OnOk result (N.state program.now net.new ≡ N.state program.now net.old) }
    ensures sound { OnOk result (N.IsSound program.now net.new) }
    ensures waking { OnOk result (WakesAll (N.channels net.old) (N.channels net.new)) }
    ensures noted { OnOk result (number ≢ own → slice_index_or able.old.marks.items number false ≡ false
        → (q : Place) (x : (N.play program.now).Proc) → slice_get (N.order net.old) number ≡ Some q
        → get (N.state program.now net.old).procs q ≡ Some x
        → is_some (step (N.play program.now) (N.state program.now net.old) q) ≡ false
        → IsNoted (N.play program.now) (N.channels net.new) number x) }
{
    if number == own {
        return Ok(());
    }
    if able.contains(number) {
        return Ok(());
    }
    settle(net, program, able, number)
}

/// The candidates that became able go behind the others, in the order of starting, and those that wait are noted. The
/// one that made the steps isn't asked.
pub(crate) fn settle_all<N: Net>(
    net: &mut N,
    program: &N::Source,
    able: &mut Queue,
    own: u32,
    candidates: &[u32],
) -> Result<(), NoMemory>
    requires owned { IsOwned (language (N.play program.now)) (N.state program.now net.old) }
    requires sound { N.IsSound program.now net.old }
    requires sorted { IsNonDecreasing candidates.now }
    requires marked { AreMarked (length (N.order net.old)) able.old.marks.items able.old.numbers.items }
    ensures queue { OnOk result (((n : ℕ)
        → newly (can_at (N.play program.now) (N.state program.now net.old) (N.order net.old)) own able.old.numbers.items
        n ≡ true → Contains candidates.now n)
        → able.new.numbers.items
        ≡ able.old.numbers.items
        ++ filter
        (newly (can_at (N.play program.now) (N.state program.now net.old) (N.order net.old)) own able.old.numbers.items)
        (range_with_len 0 (length (N.order net.old)))) }
    ensures front { KeepsFront able.old.numbers.items able.new.numbers.items }
    ensures once { OnOk result (EachOnce able.old.numbers.items → EachOnce able.new.numbers.items) }
    ensures marks { OnOk result (AreMarked (length (N.order net.old)) able.new.marks.items able.new.numbers.items) }
    ensures order { OnOk result (N.order net.new ≡ N.order net.old) }
    ensures history { N.history net.new ≡ N.history net.old }
    ensures state { OnOk result (N.state program.now net.new ≡ N.state program.now net.old) }
    ensures sound { OnOk result (N.IsSound program.now net.new) }
    ensures noted { OnOk result (((n : ℕ) → n ≢ own → Among n able.old.numbers.items
        → can_at (N.play program.now) (N.state program.now net.old) (N.order net.old) n ≡ true)
        → AreNotedBut (N.play program.now) (N.state program.now net.old) (N.channels net.old) (N.order net.old)
        (OwnOrLeft own candidates.now 0)
        → AreNotedBut (N.play program.now) (N.state program.now net.old) (N.channels net.new) (N.order net.old)
        (OwnOrLeft own candidates.now (length candidates.now))) }
{
    'candidates: for number in candidates {
        ask(net, program, able, own, *number)?;
    }
    Ok(())
}
