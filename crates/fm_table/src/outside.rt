//! Whose pieces are made outside, and who is ready.

ghost use Rattle.std.specs.Prelude.{◌≡◌, ◌↔◌, ◌++◌, ◌∷◌, ℕ, [], true, false, cond, Some, length, slice_get};
ghost use Rattle.fm_run.specs.Orders.{Among, AreMarked, EachOnce, chosen, others_in};
ghost use Rattle.fm_table.specs.Inside.{outs_of};
ghost use Rattle.fm_table.specs.Giving.{IsCalledBack};
ghost use Rattle.fm_table.specs.Outs.{IsPlaceOut, behind};
ghost use Rattle.fm_table.specs.Told.{is_out, numbers_out, ready_in, start_in, without};

use fm_code::Body;
use fm_machine::Done;
use fm_run::Queue;
use fm_same::same_body;
use std::collections::VecDeque;
use std::sync::Arc;

/// A process whose piece is made outside.
#[derive(Drop)]
pub(crate) struct Taken {
    /// Its number.
    pub number: u32,
    /// Its body as it was taken.
    pub start: Arc<Body>,
}

/// Whether a process is out.
pub(crate) fn is_out(out: &[Taken], number: u32) -> bool
    ensures { result ≡ is_out (outs_of out.now) number }
{
    place_out(out, number).is_some()
}

/// The place of a process among those that are out.
pub(crate) fn place_out(out: &[Taken], number: u32) -> Option<usize>
    ensures { IsPlaceOut (outs_of out.now) number result }
{
    'out: for place in 0..out.len() {
        if out[place].number == number {
            return Some(place);
        }
    }
    None
}

/// A process isn't out any more.
pub(crate) fn forget(out: &mut Vec<Taken>, number: u32)
    requires { EachOnce (numbers_out (outs_of out.old.items)) }
    ensures { outs_of out.new.items ≡ without number (outs_of out.old.items) }
{
    match place_out(out.as_slice(), number) {
        Some(place) => {
            out.remove(place);
        }
        None => {}
    }
}

/// Whether what came of a slice was made of a process that is out, from the body with which it was taken.
pub(crate) fn is_taken(out: &[Taken], done: &Done) -> bool
    ensures yes { result ≡ true → start_in (outs_of out.now) done.now.process ≡ Some done.now.start.value }
    ensures no { result ≡ false → start_in (outs_of out.now) done.now.process ≡ Some done.now.start.value → ⊥ }
{
    match place_out(out, done.process()) {
        Some(place) => same_body(&out[place].start, done.start()),
        None => false,
    }
}

/// A process that is out is ready again, behind the others. Where it isn't out, nothing changes.
pub(crate) fn put_back(queue: &mut Queue, out: &mut Vec<Taken>, number: u32)
    requires once { EachOnce (numbers_out (outs_of out.old.items)) }
    requires queued { EachOnce queue.old.numbers.items }
    requires able { (n : ℕ) → Among n (numbers_out (outs_of out.old.items)) → Among n queue.old.numbers.items }
    ensures out { outs_of out.new.items
        ≡ cond (is_out (outs_of out.old.items) number) (without number (outs_of out.old.items))
        (outs_of out.old.items) }
    ensures queue { queue.new.numbers.items
        ≡ cond (is_out (outs_of out.old.items) number) (others_in number queue.old.numbers.items ++ number ∷ [])
        queue.old.numbers.items }
    ensures marks { (count : ℕ) → AreMarked count queue.old.marks.items queue.old.numbers.items
        → AreMarked count queue.new.marks.items queue.new.numbers.items }
{
    if is_out(out.as_slice(), number) {
        queue.requeue(number);
        forget(out, number);
    }
}

// Those that are out go behind the others, in the order in which they stand.
fn requeue_all(queue: &mut Queue, out: &[Taken])
    requires once { EachOnce (numbers_out (outs_of out.now)) }
    requires queued { EachOnce queue.old.numbers.items }
    requires able { (n : ℕ) → Among n (numbers_out (outs_of out.now)) → Among n queue.old.numbers.items }
    ensures queue { queue.new.numbers.items ≡ behind (numbers_out (outs_of out.now)) queue.old.numbers.items }
    ensures marks { (count : ℕ) → AreMarked count queue.old.marks.items queue.old.numbers.items
        → AreMarked count queue.new.marks.items queue.new.numbers.items }
{
    'out: for place in 0..out.len() {
        queue.requeue(out[place].number);
    }
}

/// All that are out are ready again, behind the others, in the order of their numbers.
pub(crate) fn call_back(queue: &mut Queue, out: &mut Vec<Taken>)
    requires once { EachOnce (numbers_out (outs_of out.old.items)) }
    requires queued { EachOnce queue.old.numbers.items }
    requires able { (n : ℕ) → Among n (numbers_out (outs_of out.old.items)) → Among n queue.old.numbers.items }
    ensures back { IsCalledBack (outs_of out.old.items) queue.old.numbers.items queue.new.numbers.items }
    ensures once { EachOnce queue.new.numbers.items }
    ensures same { (n : ℕ) → Among n queue.old.numbers.items ↔ Among n queue.new.numbers.items }
    ensures out { out.new.items ≡ [] }
    ensures marks { (count : ℕ) → AreMarked count queue.old.marks.items queue.old.numbers.items
        → AreMarked count queue.new.marks.items queue.new.numbers.items }
{
    out.sort_unstable_by_key(|taken| taken.number);
    requeue_all(queue, out.as_slice());
    out.clear();
}

// How many of a queue are ready.
fn ready_count(queue: &VecDeque<u32>, out: &[Taken]) -> usize
    ensures { result ≡ length (ready_in (outs_of out.now) queue.now.items) }
{
    let mut count = 0;
    'queue: for place in 0..queue.len() {
        if !is_out(out, queue[place]) {
            count += 1;
        }
    }
    count
}

// The one at a place among those of a queue that are ready.
fn ready_at(queue: &VecDeque<u32>, out: &[Taken], place: usize) -> Option<u32>
    ensures { result ≡ slice_get (ready_in (outs_of out.now) queue.now.items) place }
{
    let mut before = place;
    'queue: for at in 0..queue.len() {
        if is_out(out, queue[at]) {
            continue;
        }
        if before == 0 {
            return Some(queue[at]);
        }
        before -= 1;
    }
    None
}

/// The one that a choice tells among those of a queue that are ready. The first one is looked for from the front alone.
pub(crate) fn choose_ready(queue: &VecDeque<u32>, out: &[Taken], choice: u64) -> Option<u32>
    ensures { result ≡ chosen (Some choice) (ready_in (outs_of out.now) queue.now.items) }
{
    if choice == 0 {
        return ready_at(queue, out, 0);
    }
    let count = ready_count(queue, out);
    if count == 0 {
        return None;
    }
    ready_at(queue, out, (choice % count as u64) as usize)
}

/// The first one of a queue that is ready, beside this one.
pub(crate) fn ready_beside(queue: &VecDeque<u32>, out: &[Taken], number: u32) -> Option<u32> {
    'queue: for at in 0..queue.len() {
        if queue[at] != number && !is_out(out, queue[at]) {
            return Some(queue[at]);
        }
    }
    None
}
