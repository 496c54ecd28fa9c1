//! The verdict over all places and all rules of a judge: the least rule that is broken.

ghost use Rattle.std.specs.Prelude.{◌≡◌, ℕ, ◌<◌, Bool, true, false, Option, List};
ghost use Rattle.fm_base.specs.declared.rule.Rule.{Rule};
ghost use Rattle.fm_base.specs.Verdict.{IsVerdict, SomePlace, is_before, earliest, first_of, least_from, place, when, LeastLaw, VerdictsJoin, PhasesJoin};

use crate::name::Line;
use crate::rule::{Refusal, Rule};

impl Refusal {
    ghost use Rattle.fm_base.specs.Verdict.{is_before};

    /// Whether it is reported rather than another: by phase, then by line, then by number.
    pub fn is_before(self, other: Refusal) -> bool
        ensures { result ≡ is_before self other }
    {
        let (phase, other_phase) = (self.rule.phase(), other.rule.phase());
        if phase < other_phase {
            true
        } else if other_phase < phase {
            false
        } else if self.line.0 < other.line.0 {
            true
        } else if other.line.0 < self.line.0 {
            false
        } else {
            self.rule.number() < other.rule.number()
        }
    }
}

/// Some rules, each of which is broken or not at each of a number of places.
pub trait Judge {
    ghost places: { Self → ℕ };

    ghost line: { Self → ℕ → ℕ };

    ghost rules: { Self → List Rule };

    ghost breaks: { Self → Rule → ℕ → Bool };

    /// The rules that are asked.
    fn rules(&self) -> &[Rule]
        ensures { result.now ≡ rules self.now };

    /// The number of places.
    fn places(&self) -> usize
        ensures { result ≡ places self.now };

    /// The line of a place.
    fn line(&self, place: usize) -> Line
        requires { place < places self.now }
        ensures { result.0 ≡ line self.now place };

    /// Whether a rule is broken at a place.
    fn breaks(&self, rule: Rule, place: usize) -> bool
        requires { place < places self.now }
        ensures { result ≡ breaks self.now rule place };
}

/// The earlier of the best so far and the next.
pub fn keep_earlier(best: Option<Refusal>, next: Refusal) -> Option<Refusal>
    ensures { result ≡ earliest best next }
{
    match best {
        Some(known) => Some(if next.is_before(known) { next } else { known }),
        None => Some(next),
    }
}

/// The earlier of the best so far and of a rule at a line, where it is broken.
pub fn keep_if(best: Option<Refusal>, broken: bool, line: Line, rule: Rule) -> Option<Refusal>
    ensures { result ≡ least_from best (when broken (place line.0 rule)) }
{
    if broken {
        keep_earlier(best, Refusal { line, rule })
    } else {
        best
    }
}

/// The verdict of a judge: the least rule that is broken, over all places and rules. Lines may
/// come in any order. Takes no memory.
pub fn verdict<J: Judge>(judge: &J) -> Option<Refusal>
    ensures { IsVerdict (SomePlace (J.places judge.now) (J.line judge.now) (J.rules judge.now) (J.breaks judge.now))
        result }
{
    let rules = judge.rules();
    let mut best: Option<Refusal> = None;
    for place in 0..judge.places() {
        let line = judge.line(place);
        for rule in rules {
            if judge.breaks(*rule, place) {
                best = keep_earlier(best, Refusal { line, rule: *rule });
            }
        }
    }
    best
}

/// The first of two verdicts.
pub fn first_verdict(a: Option<Refusal>, b: Option<Refusal>) -> Option<Refusal>
    ensures { result ≡ first_of a b }
{
    match b {
        Some(next) => keep_earlier(a, next),
        None => a,
    }
}

/// The least place of a list is the verdict on it.
pub fn least_law()
    ensures { LeastLaw }
{}

/// The first of two verdicts is the verdict on both.
pub fn verdicts_join()
    ensures { VerdictsJoin }
{}

/// The verdict of a phase comes where no earlier phase is broken.
pub fn phases_join()
    ensures { PhasesJoin }
{}
