//! The kinds of what a statement holds.

ghost use Rattle.std.specs.Prelude.{◌≡◌, ◌≤◌, true, [], ◌∷◌, OnOk, MatchOption, drop, replicate};
ghost use Rattle.fm_code_kinds.specs.declared.kinds.Kind.TheVariants as kinds;
ghost use Rattle.fm_code_kinds.specs.Effects.{only_results, operands_on, results_in};
ghost use Rattle.fm_verify_unit.specs.Along.{mark_of};

use fm_base::NoMemory;
use fm_code::Pile;
use fm_code_kinds::{Kind, Passed};
use std::alloc::Global;
use std::marker::Model;

/// The kinds of what a statement holds. Contracts see the list, what came last first.
pub(crate) struct Kinds {
    kinds: Pile<Kind>,
    // how many results there are
    results: usize,
    // how many others
    others: usize,
}

impl Drop for Kinds {
    fn drop(self) {
        let Kinds {
            kinds: _kinds,
            results: _results,
            others: _others,
        } = self;
    }
}

impl Model for Kinds {
    ghost use Rattle.std.specs.Prelude.{◌≡◌, List};
    ghost use Rattle.fm_code_kinds.specs.declared.kinds.Kind.{Kind};
    ghost use Rattle.fm_code_kinds.specs.Effects.{results_in};
    ghost use Rattle.fm_verify_unit.specs.Counts.{others_in};

    ghost Value = { List Kind };

    ghost view = { λ s. s.kinds };

    ghost invariant = { λ s. (s.results ≡ results_in s.kinds) × (s.others ≡ others_in s.kinds) };
}

impl Kinds {
    /// None.
    pub(crate) fn new(alloc: Global) -> Kinds
        ensures { result ≡ [] }
    {
        Kinds {
            kinds: Pile::new(alloc),
            results: 0,
            others: 0,
        }
    }

    /// One more.
    pub(crate) fn push(&mut self, kind: Kind) -> Result<(), NoMemory>
        ensures { OnOk result (self.new ≡ kind ∷ self.old) }
    {
        match kind {
            Kind::Returned => {
                let results = self.results.checked_add(1).ok_or(NoMemory)?;
                self.kinds.push(kind)?;
                self.results = results;
            }
            Kind::Word(_) | Kind::Operand(_) | Kind::LoopOf(_) => {
                let others = self.others.checked_add(1).ok_or(NoMemory)?;
                self.kinds.push(kind)?;
                self.others = others;
            }
        }
        Ok(())
    }

    /// The last one.
    pub(crate) fn last(&self) -> Option<Kind>
        ensures { MatchOption result (self.now ≡ []) (λ kind. self.now ≡ kind ∷ drop 1 self.now) }
    {
        self.kinds.first().copied()
    }

    /// Takes the last one.
    pub(crate) fn pop(&mut self) -> Option<Kind>
        ensures { MatchOption result ((self.old ≡ []) × (self.new ≡ [])) (λ kind. self.old ≡ kind ∷ self.new) }
    {
        let kind = self.kinds.pop()?;
        match kind {
            Kind::Returned => self.results -= 1,
            Kind::Word(_) | Kind::Operand(_) | Kind::LoopOf(_) => self.others -= 1,
        }
        Some(kind)
    }

    /// Takes the last one, where it is an operand.
    pub(crate) fn pop_operand(&mut self) -> Option<Passed>
        ensures { MatchOption result
            ((operands_on self.old ≡ record { operands = []; rest = self.old }) × (self.new ≡ self.old))
            (λ operand. self.old ≡ kinds.Operand operand ∷ self.new) }
    {
        match self.last()? {
            Kind::Operand(operand) => {
                self.pop()?;
                Some(operand)
            }
            Kind::Returned | Kind::Word(_) | Kind::LoopOf(_) => None,
        }
    }

    /// How many results there are.
    pub(crate) fn results(&self) -> usize
        ensures { result ≡ results_in self.now }
    {
        self.results
    }

    /// Whether there is nothing but results.
    #[tactic(auto, using(crate::proofs::Results::others_none))]
    pub(crate) fn only_results(&self) -> bool
        ensures { result ≡ only_results self.now }
    {
        self.others == 0
    }

    /// How many results there are, where there is nothing else.
    pub(crate) fn mark(&self) -> Option<usize>
        ensures { result ≡ mark_of self.now }
    {
        if self.only_results() {
            Some(self.results())
        } else {
            None
        }
    }

    /// Takes all but at most so many results.
    fn keep(&mut self, results: usize)
        ensures only { only_results self.new ≡ true }
        ensures few { results_in self.new ≤ results }
    {
        'kept: while !self.only_results() || results < self.results() {
            let _ = self.pop();
        }
    }

    /// So many results, and nothing else. Of those that are there it takes and gives no more than it must.
    pub(crate) fn reset(&mut self, results: usize) -> Result<(), NoMemory>
        ensures { OnOk result (self.new ≡ replicate results kinds.Returned) }
    {
        self.keep(results);
        'results: while self.results() < results {
            self.push(Kind::Returned)?;
        }
        Ok(())
    }
}
