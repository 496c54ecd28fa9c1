//! A kept schedule that grows.

ghost use Rattle.std.specs.Prelude.{◌≡◌, ◌≤◌, ◌-◌, ◌++◌, ◌∷◌, [], List, length, IfOk, OnErr, OnOk};
ghost use Rattle.std.specs.List.{flat_map};
ghost use Rattle.fm_base.specs.declared.schedule.Turn.{Turn};
ghost use Rattle.fm_run.specs.Entries.{lengthened, with_piece};

use fm_base::{NoMemory, Turn};
use std::alloc::Global;
use std::marker::Model;
use std::mem::replace;

/// How many entries stand together.
const CHUNK: usize = 65_536;

/// A kept schedule. Contracts see the list of its entries. It grows by chunks, so that it takes no more memory than its
/// entries do, also while it grows.
pub struct History {
    // the chunks before the last one
    whole: Vec<Vec<Turn>>,
    last: Vec<Turn>,
    len: usize,
}

impl Drop for History {
    fn drop(self) {
        let History {
            whole: _whole,
            last: _last,
            len: _len,
        } = self;
    }
}

impl Model for History {
    ghost use Rattle.std.specs.Prelude.{◌≡◌, ◌++◌, List, length};
    ghost use Rattle.std.specs.List.{flat_map};
    ghost use Rattle.fm_base.specs.declared.schedule.Turn.{Turn};

    ghost Value = { List Turn };

    ghost view = { λ h. flat_map (λ v. v.items) h.whole.items ++ h.last.items };

    ghost invariant = { λ h. h.len ≡ length (flat_map (λ v. v.items) h.whole.items ++ h.last.items) };
}

// Where the last chunk is empty, the one before it becomes the last.
fn take_back(whole: &mut Vec<Vec<Turn>>, last: &mut Vec<Turn>)
    ensures same { flat_map (λ v. v.items) whole.new.items ++ last.new.items
        ≡ flat_map (λ v. v.items) whole.old.items ++ last.old.items }
    ensures filled { last.new.items ≡ [] → whole.new.items ≡ [] }
{
    'chunks: while last.is_empty() {
        match whole.pop() {
            Some(chunk) => *last = chunk,
            None => return,
        }
    }
}

// An entry in a chunk of its own.
fn one_entry(alloc: Global, turn: Turn) -> Result<Vec<Turn>, NoMemory>
    ensures { IfOk result (λ v. v.items ≡ turn ∷ []) }
{
    let mut chunk = Vec::new(alloc);
    chunk.push(turn)?;
    Ok(chunk)
}

// Puts an entry behind the others. After want of memory they are as they were.
fn put(
    alloc: Global,
    whole: &mut Vec<Vec<Turn>>,
    last: &mut Vec<Turn>,
    turn: Turn,
) -> Result<(), NoMemory>
    ensures ok { OnOk result (flat_map (λ v. v.items) whole.new.items ++ last.new.items
        ≡ (flat_map (λ v. v.items) whole.old.items ++ last.old.items) ++ turn ∷ []) }
    ensures err { OnErr result (flat_map (λ v. v.items) whole.new.items ++ last.new.items
        ≡ flat_map (λ v. v.items) whole.old.items ++ last.old.items) }
{
    if last.len() < CHUNK {
        last.push(turn)?;
        return Ok(());
    }
    let chunk = one_entry(alloc, turn)?;
    match whole.push(replace(last, chunk)) {
        Ok(()) => Ok(()),
        Err(failed) => {
            *last = failed.value;
            Err(NoMemory)
        }
    }
}

// Puts a chunk behind entries.
fn put_chunk(all: &mut Vec<Turn>, chunk: Vec<Turn>) -> Result<(), NoMemory>
    ensures { OnOk result (all.new.items ≡ all.old.items ++ chunk.items) }
{
    let mut chunk = chunk;
    all.append(&mut chunk)?;
    Ok(())
}

// Puts the entries of a chunk behind others.
fn put_each(all: &mut Vec<Turn>, chunk: &[Turn]) -> Result<(), NoMemory>
    ensures { OnOk result (all.new.items ≡ all.old.items ++ chunk.now) }
{
    'turns: for turn in chunk {
        all.push(*turn)?;
    }
    Ok(())
}

// The entries of chunks once more.
fn copy_chunks(alloc: Global, chunks: &[Vec<Turn>]) -> Result<Vec<Turn>, NoMemory>
    ensures { IfOk result (λ v. v.items ≡ flat_map (λ v. v.items) chunks.now) }
{
    let mut all = Vec::new(alloc);
    'chunks: for chunk in chunks {
        put_each(&mut all, chunk.as_slice())?;
    }
    Ok(all)
}

// The entries of chunks in one vector with room for so many. Each chunk is let go when its entries have moved.
fn join_chunks(alloc: Global, chunks: Vec<Vec<Turn>>, count: usize) -> Result<Vec<Turn>, NoMemory>
    ensures { IfOk result (λ v. v.items ≡ flat_map (λ v. v.items) chunks.items) }
{
    let mut all = Vec::with_capacity(alloc, count)?;
    'chunks: for chunk in chunks {
        put_chunk(&mut all, chunk)?;
    }
    Ok(all)
}

// A turn of more steps.
fn longer(turn: Turn, steps: u32) -> Result<Turn, NoMemory>
    ensures { IfOk result (λ t. (front : List Turn) → lengthened steps (front ++ turn ∷ []) ≡ front ++ t ∷ []) }
{
    let sum = turn.steps.checked_add(steps).ok_or(NoMemory)?;
    Ok(Turn {
        number: turn.number,
        steps: sum,
    })
}

// The last entry gets so many steps more. After want of memory they are as they were.
fn lengthen_last(
    whole: &mut Vec<Vec<Turn>>,
    last: &mut Vec<Turn>,
    steps: u32,
) -> Result<(), NoMemory>
    ensures ok { OnOk result (flat_map (λ v. v.items) whole.new.items ++ last.new.items
        ≡ lengthened steps (flat_map (λ v. v.items) whole.old.items ++ last.old.items)) }
    ensures err { OnErr result (flat_map (λ v. v.items) whole.new.items ++ last.new.items
        ≡ flat_map (λ v. v.items) whole.old.items ++ last.old.items) }
    ensures count { length (flat_map (λ v. v.items) whole.new.items ++ last.new.items)
        ≡ length (flat_map (λ v. v.items) whole.old.items ++ last.old.items) }
{
    take_back(whole, last);
    let count = last.len();
    if count == 0 {
        return Ok(());
    }
    let entry = last[count - 1];
    let grown = longer(entry, steps)?;
    last[count - 1] = grown;
    Ok(())
}

// Forgets the last entry, if there is one.
fn forget_last(whole: &mut Vec<Vec<Turn>>, last: &mut Vec<Turn>)
    ensures one { (front : List Turn) (t : Turn)
        → flat_map (λ v. v.items) whole.old.items ++ last.old.items ≡ front ++ t ∷ []
        → flat_map (λ v. v.items) whole.new.items ++ last.new.items ≡ front }
    ensures count { length (flat_map (λ v. v.items) whole.new.items ++ last.new.items)
        ≡ length (flat_map (λ v. v.items) whole.old.items ++ last.old.items) - 1 }
{
    take_back(whole, last);
    last.pop();
}

impl History {
    /// No entries. Takes no memory.
    pub fn new(alloc: Global) -> History
        ensures { result ≡ [] }
    {
        History {
            whole: Vec::new(alloc),
            last: Vec::new(alloc),
            len: 0,
        }
    }

    /// How many entries there are.
    pub fn len(&self) -> usize
        ensures { result ≡ length self.now }
    {
        self.len
    }

    /// Puts an entry behind the others. After want of memory nothing has changed.
    pub fn push(&mut self, alloc: Global, turn: Turn) -> Result<(), NoMemory>
        ensures ok { OnOk result (self.new ≡ self.old ++ turn ∷ []) }
        ensures err { OnErr result (self.new ≡ self.old) }
    {
        let len = self.len.checked_add(1).ok_or(NoMemory)?;
        put(alloc, &mut self.whole, &mut self.last, turn)?;
        self.len = len;
        Ok(())
    }

    /// The last entry gets so many steps more. Nothing changes where there is none, or where there are too many steps,
    /// which is answered as want of memory.
    pub fn lengthen(&mut self, steps: u32) -> Result<(), NoMemory>
        ensures ok { OnOk result (self.new ≡ lengthened steps self.old) }
        ensures err { OnErr result (self.new ≡ self.old) }
    {
        lengthen_last(&mut self.whole, &mut self.last, steps)
    }

    /// Forgets the entry behind so many, where there is one more than these.
    pub fn forget_behind(&mut self, count: usize)
        ensures one { (front : List Turn) (t : Turn) → self.old ≡ front ++ t ∷ []
            → length front ≡ count → self.new ≡ front }
        ensures none { length self.old ≤ count → self.new ≡ self.old }
    {
        if self.len <= count {
            return;
        }
        forget_last(&mut self.whole, &mut self.last);
        self.len -= 1;
    }

    /// The entries once more.
    pub fn copied(&self, alloc: Global) -> Result<Vec<Turn>, NoMemory>
        ensures { IfOk result (λ v. v.items ≡ self.now) }
    {
        let mut all = copy_chunks(alloc, self.whole.as_slice())?;
        put_each(&mut all, self.last.as_slice())?;
        Ok(all)
    }

    /// The entries in one vector. Each chunk is let go when its entries have moved.
    pub fn into_vec(self, alloc: Global) -> Result<Vec<Turn>, NoMemory>
        ensures { IfOk result (λ v. v.items ≡ self) }
    {
        let History { whole, last, len } = self;
        let mut all = join_chunks(alloc, whole, len)?;
        put_chunk(&mut all, last)?;
        Ok(all)
    }
}

/// Puts a piece into a schedule: as an entry, or joined to the last one. After want of memory nothing has changed.
pub fn put_piece(
    alloc: Global,
    history: &mut History,
    joins: bool,
    number: u32,
    steps: u32,
) -> Result<(), NoMemory>
    ensures ok { OnOk result (history.new ≡ with_piece joins history.old number steps) }
    ensures err { OnErr result (history.new ≡ history.old) }
{
    if joins {
        return history.lengthen(steps);
    }
    history.push(alloc, Turn { number, steps })
}
