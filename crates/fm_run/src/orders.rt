//! Who can step, and in which order they are served.

ghost use Rattle.std.specs.Prelude.{◌≡◌, ◌<◌, ◌≤◌, ◌++◌, ◌∷◌, ◌==◌, ◌&&◌, ◌||◌, ℕ, suc, not, false, [], drop, length, take, slice_index_or, OnErr, OnOk};
ghost use Rattle.std.specs.VecDeque.{deque_capacity, deque_len};
ghost use Rattle.fm_run.specs.Orders.{Among, AreMarked, EachOnce, IsPlaceOf, chosen, others_in};

use fm_base::NoMemory;
use std::alloc::Global;
use std::collections::VecDeque;

/// How much room of a queue is so much that not all of it is kept.
const LARGE: usize = 65_536;

/// The numbers of those that can step, in the order in which they are served, and a mark for each process
/// that is among them.
#[derive(Drop)]
pub struct Queue {
    /// Who can step.
    pub numbers: VecDeque<u32>,
    /// For each process whether it's among them.
    pub marks: Vec<bool>,
}

/// The one at the place of a choice, modulo their number, or without a choice the first one.
pub(crate) fn chosen(able: &VecDeque<u32>, choice: Option<u64>) -> Option<u32>
    ensures { result ≡ chosen choice able.now.items }
{
    if able.is_empty() {
        return None;
    }
    let place = match choice {
        Some(number) => number % able.len() as u64,
        None => 0,
    };
    Some(able[place as usize])
}

fn mark(marks: &mut Vec<bool>, number: u32)
    ensures length { length marks.new.items ≡ length marks.old.items }
    ensures marked { (n : ℕ) → n < length marks.old.items
        → slice_index_or marks.new.items n false ≡ (slice_index_or marks.old.items n false || number == n) }
{
    let place = number as usize;
    if place < marks.len() {
        marks[place] = true;
    }
}

fn unmark(marks: &mut Vec<bool>, number: u32)
    ensures length { length marks.new.items ≡ length marks.old.items }
    ensures marked { (n : ℕ) → n < length marks.old.items
        → slice_index_or marks.new.items n false ≡ (slice_index_or marks.old.items n false && not (number == n)) }
{
    let place = number as usize;
    if place < marks.len() {
        marks[place] = false;
    }
}

fn is_marked(marks: &[bool], number: u32) -> bool
    ensures { result ≡ slice_index_or marks.now number false }
{
    match marks.get(number as usize) {
        Some(mark) => *mark,
        None => false,
    }
}

// The place of a number in a queue. Who is served next has the first one.
fn place_of(numbers: &VecDeque<u32>, number: u32) -> Option<usize>
    ensures { IsPlaceOf numbers.now.items number result }
{
    'places: for place in 0..numbers.len() {
        if numbers[place] == number {
            return Some(place);
        }
    }
    None
}

// What stands at a place goes. It's the first one of who is served next, and nothing is moved up then.
fn take_out(numbers: &mut VecDeque<u32>, place: usize)
    requires { place < length numbers.old.items }
    ensures items { numbers.new.items ≡ take place numbers.old.items ++ drop (suc place) numbers.old.items }
    ensures room { deque_len numbers.new < deque_capacity numbers.new }
{
    if place == 0 {
        numbers.pop_front();
    } else {
        numbers.remove(place);
    }
}

// Half of the room goes where three quarters of it are empty, and it is much.
fn fit(numbers: &mut VecDeque<u32>)
    ensures { numbers.new.items ≡ numbers.old.items }
{
    let room = numbers.capacity();
    if LARGE <= room && numbers.len() < room / 4 {
        numbers.shrink_to(room / 2);
    }
}

impl Queue {
    /// Nobody can step. Takes no memory.
    pub fn new(alloc: Global) -> Queue
        ensures numbers { result.numbers.items ≡ [] }
        ensures marks { result.marks.items ≡ [] }
    {
        Queue {
            numbers: VecDeque::new(alloc),
            marks: Vec::new(alloc),
        }
    }

    /// Whether a process is in the queue.
    pub fn contains(&self, number: u32) -> bool
        ensures { result ≡ slice_index_or self.now.marks.items number false }
    {
        is_marked(&self.marks, number)
    }

    /// Puts a process behind the others. After want of memory nothing has changed.
    pub fn put(&mut self, number: u32) -> Result<(), NoMemory>
        ensures numbers { OnOk result (self.new.numbers.items ≡ self.old.numbers.items ++ number ∷ []) }
        ensures kept { OnErr result (self.new.numbers.items ≡ self.old.numbers.items) }
        ensures marks { OnOk result ((count : ℕ) → AreMarked count self.old.marks.items self.old.numbers.items
            → AreMarked count self.new.marks.items self.new.numbers.items) }
    {
        self.numbers.push_back(number)?;
        mark(&mut self.marks, number);
        Ok(())
    }

    /// A process leaves its place.
    pub fn leave(&mut self, number: u32)
        requires { EachOnce self.old.numbers.items }
        ensures numbers { self.new.numbers.items ≡ others_in number self.old.numbers.items }
        ensures marks { (count : ℕ) → AreMarked count self.old.marks.items self.old.numbers.items
            → AreMarked count self.new.marks.items self.new.numbers.items }
    {
        unmark(&mut self.marks, number);
        match place_of(&self.numbers, number) {
            Some(place) => {
                take_out(&mut self.numbers, place);
                fit(&mut self.numbers);
            }
            None => {}
        }
    }

    /// A process leaves its place and goes behind the others. Takes no memory.
    pub fn requeue(&mut self, number: u32)
        requires once { EachOnce self.old.numbers.items }
        requires there { Among number self.old.numbers.items }
        ensures numbers { self.new.numbers.items ≡ others_in number self.old.numbers.items ++ number ∷ [] }
        ensures marks { (count : ℕ) → AreMarked count self.old.marks.items self.old.numbers.items
            → AreMarked count self.new.marks.items self.new.numbers.items }
    {
        match place_of(&self.numbers, number) {
            Some(place) => {
                take_out(&mut self.numbers, place);
                self.numbers.push_back_reserved(number);
            }
            None => unreachable!(),
        }
    }

    /// Only the first so many stay. Takes no memory. Marks stay as they are, also of those that leave.
    pub fn shorten(&mut self, count: usize)
        ensures numbers { self.new.numbers.items ≡ take count self.old.numbers.items }
        ensures marks { self.new.marks.items ≡ self.old.marks.items }
    {
        self.numbers.truncate(count);
    }

    /// There are so many processes, and who is new isn't in the queue. After want of memory nothing has changed.
    pub fn grow(&mut self, count: usize) -> Result<(), NoMemory>
        ensures numbers { self.new.numbers.items ≡ self.old.numbers.items }
        ensures marks { OnOk result ((before : ℕ) → before ≤ count
            → ((n : ℕ) → Among n self.old.numbers.items → n < before)
            → AreMarked before self.old.marks.items self.old.numbers.items
            → AreMarked count self.new.marks.items self.new.numbers.items) }
        ensures stays { OnErr result (self.new.marks.items ≡ self.old.marks.items) }
    {
        self.marks.resize(count, false)?;
        Ok(())
    }
}
