//! What a statement has at hand.

ghost use Rattle.std.specs.Prelude.{◌≡◌, [], ◌∷◌, IfOk};
ghost use Rattle.fm_code.specs.Acts.{On, found, gives, nothing};
ghost use Rattle.fm_machine_instr.specs.Told.{progressed};

use fm_base::{Fault, NoMemory};
use fm_code::{Frame, Pile, Scratch, Stack};
use std::alloc::Global;

/// What a statement has at hand: its operands, what it builds, and frames to be used again.
pub struct Work {
    /// The stack of operands.
    pub stack: Stack,
    /// What is built.
    pub scratch: Scratch,
    /// Frames that returned, to be used again: what is in them means nothing.
    pub spare: Pile<Frame>,
}

impl Drop for Work {
    fn drop(self) {
        let Work {
            stack: _stack,
            scratch: _scratch,
            spare: _spare,
        } = self;
    }
}

/// How an instruction leaves its statement that may go on.
#[derive(Clone, Copy)]
pub(crate) enum Progress {
    /// It goes on.
    On,
    /// It faults.
    Fails(Fault),
    /// The instruction doesn't find what it needs.
    Stuck,
}

impl Work {
    /// Nothing is at hand. Takes no memory.
    pub fn new(alloc: Global) -> Work
        ensures stack { result.stack ≡ [] }
        ensures scratch { result.scratch ≡ nothing }
    {
        Work {
            stack: Stack::new(alloc),
            scratch: Scratch::new(alloc),
            spare: Pile::new(alloc),
        }
    }

    /// Takes the operands and what was built.
    #[inline(always)]
    pub(crate) fn clear(&mut self)
        ensures stack { self.new.stack ≡ [] }
        ensures scratch { self.new.scratch ≡ nothing }
    {
        self.stack.clear();
        self.scratch.clear();
    }

    /// A word goes on the stack.
    #[inline(always)]
    pub(crate) fn push(&mut self, word: i64) -> Result<Progress, NoMemory>
        ensures { IfOk result
            (λ p. progressed p self.new.stack self.new.scratch ≡ On (word ∷ self.old.stack) self.old.scratch) }
    {
        self.stack.push(word)?;
        Ok(Progress::On)
    }

    /// A word goes on the stack, if it is there.
    #[inline(always)]
    pub(crate) fn push_found(&mut self, word: Option<i64>) -> Result<Progress, NoMemory>
        ensures { IfOk result (λ p. progressed p self.new.stack self.new.scratch
            ≡ found word (λ v. On (v ∷ self.old.stack) self.old.scratch)) }
    {
        match word {
            Some(word) => self.push(word),
            None => Ok(Progress::Stuck),
        }
    }

    /// A value goes on the stack, or the statement faults.
    #[inline(always)]
    pub(crate) fn push_value(&mut self, value: Result<i64, Fault>) -> Result<Progress, NoMemory>
        ensures { IfOk result (λ p. progressed p self.new.stack self.new.scratch
            ≡ gives value (λ v. On (v ∷ self.old.stack) self.old.scratch)) }
    {
        match value {
            Ok(word) => self.push(word),
            Err(fault) => Ok(Progress::Fails(fault)),
        }
    }
}
