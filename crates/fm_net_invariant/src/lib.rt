//! Languages of processes under an invariant: lawful where the invariant holds, or where it holds under a condition.
//!
//! A language of processes that anybody may make up, such as that of stack code, doesn't account for the ports of each
//! process: only for those of processes that make sense. `specs/Good` says what such a language owes (`IsLawfulWhere`):
//! a good process stays good and accounts for its ports, for all replies that a machine gives. Then the good processes
//! are a lawful language by themselves (`good_language`), whose machine does the same as that of all processes.
//!
//! What runs may make sense only where something holds, such as that an image is typed, which no test tells. The
//! language of the processes that are good where it holds (`kept_language` of `specs/Kept`) is there in any case. It is
//! lawful where it holds, and in any case its machine does the same as that of all processes.
//!
//! Each function here has an empty body: its contract is a law. The laws for any fact of processes are lemmas of
//! `proofs/Good.antt` and `proofs/Kept.antt`, since a contract can't quantify over facts.
#![tactic(auto)]

ghost use Rattle.std.specs.Prelude.{◌≡◌, Bool, true};
ghost use Rattle.fm_sched.specs.Simulation.{Passes};
ghost use Rattle.fm_net.specs.Machine.{State};
ghost use Rattle.fm_net.specs.Language.{Language};
ghost use Rattle.fm_net.specs.Lawful.{IsLawfulLanguage};
ghost use Rattle.fm_net.specs.Correspondence.{AreAlike};
ghost use Rattle.fm_net_invariant.specs.Good.{Good, IsBare, IsLawfulWhere, good_language};
ghost use Rattle.fm_net_invariant.specs.Kept as conditional;

/// The good processes are a lawful language, whose machine does the same as that of all processes: from main alone the
/// same choices are legal and lead to the same processes and channels at the same cost, and the same children start in
/// the same order. Here the good processes are those that pass a test.
pub fn good_processes_are_lawful<P>()
    ensures lawful { (language : Language P) (test : P → Bool)
        → (law : IsLawfulWhere language (Passes test)) → IsLawfulLanguage (good_language language (Passes test) law) }
    ensures alike { (language : Language P) (test : P → Bool) → (law : IsLawfulWhere language (Passes test))
        → AreAlike (IsBare language (Passes test)) (λ s. Unit {0}) (good_language language (Passes test) law) language }
{}

/// Where it holds, the processes that are good then are a lawful language; in any case their machine does what that of
/// all processes does. Here the good processes are those that pass a test, and what holds is that another test is
/// passed.
pub fn kept_processes_are_lawful<P>()
    ensures lawful { (language : Language P) (so : Bool) (test : P → Bool)
        → (law : so ≡ true → IsLawfulWhere language (Passes test))
        → so ≡ true → IsLawfulLanguage (conditional.kept_language language (so ≡ true) (Passes test) law) }
    ensures alike { (language : Language P) (so : Bool) (test : P → Bool)
        → (law : so ≡ true → IsLawfulWhere language (Passes test))
        → AreAlike (conditional.IsBare language (so ≡ true) (Passes test)) (λ s. Unit {0})
        (conditional.kept_language language (so ≡ true) (Passes test) law) language }
{}
