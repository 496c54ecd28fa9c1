//! Schedules of any machine, and the exchange law: where the steps of two actors commute, every
//! schedule has one outcome.
//!
//! A machine is given by its states `S`, its actors `A` and the step of each actor, which gives the next
//! state and the cost, or none where that actor can't step. The definitions stand in
//! `specs/Schedule.antt`. Each function here has an empty body: its contract is a law. Laws over every
//! fact or relation, which a contract can't state, are lemmas in `proofs/`: what each step keeps
//! (`Along`), the exchange law under such a fact (`Fronts`), the diamond from steps taken apart (`Moves`)
//! and machines that simulate others (`Simulations`).
#![tactic(auto)]

ghost use Rattle.std.specs.Prelude.{◌≡◌, ◌+◌, ◌<◌, ◌≤◌, ◌++◌, [], ◌∷◌, ℕ, Option, Some, None, List, Bool, length, replicate};
ghost use Rattle.fm_sched.specs.Schedule.{Step, Can, next, cost, play, IsLegal, used, IsEnding, NotIn, Stays, Diamond, IsReached, Leads, Throughout, Settles};
ghost use Rattle.fm_sched.specs.Simulation.{ReadsAs, IsBisimulation, DoTheSame};
ghost use Rattle.fm_sched.specs.Counters.{counter_step};

/// Where an actor has its step, that gives its next state and its cost; where it has none, the state
/// stays and nothing is paid.
pub fn one_choice<S, A>()
    ensures state { (step : Step S A) (s : S) (p : A) (r : S × ℕ) → step s p ≡ Some r → next step s p ≡ r.0 }
    ensures cost { (step : Step S A) (s : S) (p : A) (r : S × ℕ) → step s p ≡ Some r → cost step s p ≡ r.1 }
    ensures no_step { (step : Step S A) (s : S) (p : A) → step s p ≡ None → next step s p ≡ s }
    ensures no_cost { (step : Step S A) (s : S) (p : A) → step s p ≡ None → cost step s p ≡ 0 }
{}

/// Choices and then more choices: these go on from the state that those give. The whole is legal
/// exactly where both parts are, and it ends exactly where its second part ends from there.
pub fn choices_in_turn<S, A>()
    ensures state { (step : Step S A) (s : S) (cs ds : List A) →
        play step s (cs ++ ds) ≡ play step (play step s cs) ds }
    ensures cost { (step : Step S A) (s : S) (cs ds : List A) →
        used step s (cs ++ ds) ≡ used step s cs + used step (play step s cs) ds }
    ensures legal { (step : Step S A) (s : S) (cs ds : List A) → IsLegal step s cs →
        IsLegal step (play step s cs) ds → IsLegal step s (cs ++ ds) }
    ensures legal_first { (step : Step S A) (s : S) (cs ds : List A) → IsLegal step s (cs ++ ds) → IsLegal step s cs }
    ensures legal_second { (step : Step S A) (s : S) (cs ds : List A) → IsLegal step s (cs ++ ds) →
        IsLegal step (play step s cs) ds }
    ensures ends { (step : Step S A) (s : S) (cs ds : List A) → IsLegal step s cs →
        IsEnding step (play step s cs) ds → IsEnding step s (cs ++ ds) }
    ensures ends_second { (step : Step S A) (s : S) (cs ds : List A) → IsEnding step s (cs ++ ds) →
        IsEnding step (play step s cs) ds }
{}

/// One choice more: what a history gains by one step of an actor.
pub fn one_choice_more<S, A>()
    ensures state { (step : Step S A) (s : S) (cs : List A) (p : A) →
        play step s (cs ++ p ∷ []) ≡ next step (play step s cs) p }
    ensures cost { (step : Step S A) (s : S) (cs : List A) (p : A) →
        used step s (cs ++ p ∷ []) ≡ used step s cs + cost step (play step s cs) p }
    ensures legal { (step : Step S A) (s : S) (cs : List A) (p : A) → IsLegal step s cs →
        Can step (play step s cs) p → IsLegal step s (cs ++ p ∷ []) }
    ensures can { (step : Step S A) (s : S) (cs : List A) (p : A) → IsLegal step s (cs ++ p ∷ []) →
        Can step (play step s cs) p }
{}

/// One step more of an actor that has made `n` steps in a row.
pub fn one_repeat_more<S, A>()
    ensures state { (step : Step S A) (s : S) (n : ℕ) (p : A) →
        play step s (replicate (n + 1) p) ≡ next step (play step s (replicate n p)) p }
    ensures cost { (step : Step S A) (s : S) (n : ℕ) (p : A) →
        used step s (replicate (n + 1) p) ≡ used step s (replicate n p) + cost step (play step s (replicate n p)) p }
    ensures legal { (step : Step S A) (s : S) (n : ℕ) (p : A) → IsLegal step s (replicate n p) →
        Can step (play step s (replicate n p)) p → IsLegal step s (replicate (n + 1) p) }
    ensures can { (step : Step S A) (s : S) (n : ℕ) (p : A) → IsLegal step s (replicate (n + 1) p) →
        Can step (play step s (replicate n p)) p }
{}

/// Where choices lead, and at what cost: no choice leads nowhere for nothing, a step may stand before
/// or behind, choices lead on from where others led, and each list leads to one state at one cost.
pub fn where_choices_lead<S, A>()
    ensures nowhere { (step : Step S A) (s : S) → Leads step s [] s 0 }
    ensures first { (step : Step S A) (s : S) (p : A) (r : S × ℕ) (cs : List A) (t : S) (paid : ℕ) →
        step s p ≡ Some r → Leads step r.0 cs t paid → Leads step s (p ∷ cs) t (r.1 + paid) }
    ensures on { (step : Step S A) (s t u : S) (cs ds : List A) (paid more : ℕ) → Leads step s cs t paid →
        Leads step t ds u more → Leads step s (cs ++ ds) u (paid + more) }
    ensures further { (step : Step S A) (s t : S) (cs : List A) (paid : ℕ) (p : A) (r : S × ℕ) →
        Leads step s cs t paid → step t p ≡ Some r → Leads step s (cs ++ p ∷ []) r.0 (paid + r.1) }
    ensures once { (step : Step S A) (s t u : S) (cs : List A) (paid more : ℕ) → Leads step s cs t paid →
        Leads step s cs u more → (t ≡ u) × (paid ≡ more) }
{}

/// Nothing is legal after the end.
pub fn nothing_after_the_end<S, A>()
    ensures { (step : Step S A) (s : S) (cs ds : List A) → IsEnding step s cs →
        IsLegal step s (cs ++ ds) → ds ≡ [] }
{}

/// Where each step costs at least one, no legal list is longer than its cost.
pub fn length_within_cost<S, A>()
    ensures { (step : Step S A) → ((s : S) (p : A) → Can step s p → 1 ≤ cost step s p) → (s : S)
        (cs : List A) → IsLegal step s cs → length cs ≤ used step s cs }
{}

/// The start is reached, and so is each state after a step from one that is reached; what holds
/// throughout holds there.
pub fn reached_states<S, A>()
    ensures first { (step : Step S A) (start : S) → IsReached step start start }
    ensures next { (step : Step S A) (start s : S) (p : A) → IsReached step start s → Can step s p →
        IsReached step start (next step s p) }
    ensures stays { (step : Step S A) (start s : S) → Throughout step (Stays step) start →
        IsReached step start s → Stays step s }
    ensures diamond { (step : Step S A) (start s : S) → Throughout step (Diamond step) start →
        IsReached step start s → Diamond step s }
{}

/// Where a step of another never takes an actor its step, who has a step keeps it along every legal
/// list that doesn't choose that actor; where the steps commute, at the same cost.
pub fn steps_stay<S, A>()
    ensures cost { (step : Step S A) (s : S) (cs : List A) (p : A) → Throughout step (Diamond step) s →
        IsLegal step s cs → NotIn p cs → Can step s p →
        cost step (play step s cs) p ≡ cost step s p }
    ensures can { (step : Step S A) (s : S) (cs : List A) (p : A) → Throughout step (Stays step) s →
        IsLegal step s cs → NotIn p cs → Can step s p → Can step (play step s cs) p }
{}

/// Where the steps of two actors commute in every state that is reached, one list of choices that
/// ends bounds every legal list, each of which goes on to an end, and each that ends gives its state
/// at its cost.
pub fn exchange<S, A>()
    ensures { (step : Step S A) (start : S) → ((p q : A) → Dec (p ≡ q)) →
        Throughout step (Diamond step) start → (cs : List A) → IsEnding step start cs →
        Settles step start cs }
{}

/// Where the steps of two actors commute in every state that is reached, and one legal list costs
/// more than the turns, every list that ends does.
pub fn spent_for_all<S, A>()
    ensures { (step : Step S A) (start : S) → ((p q : A) → Dec (p ≡ q)) →
        Throughout step (Diamond step) start → (turns : ℕ) (cs : List A) → IsLegal step start cs →
        turns < used step start cs → (ds : List A) → IsEnding step start ds →
        turns < used step start ds }
{}

/// Of two machines that simulate each other the runs are the same. Here states of the second that pass a
/// test are read as those of the first; the law for any relation is `do_the_same` of
/// `proofs/Simulations.antt`.
pub fn machines_alike<S, T, A>()
    ensures { (step : Step S A) (other : Step T A) (read : T → S) (is_good : T → Bool) →
        IsBisimulation step other (ReadsAs read is_good) → DoTheSame step other (ReadsAs read is_good) }
{}

/// The premise of the exchange law can be met: the steps of two counters commute, so each schedule
/// that ends says all of every other.
pub fn two_counters()
    ensures commute { (start : ℕ × ℕ) → Throughout counter_step (Diamond counter_step) start }
    ensures settle { (start : ℕ × ℕ) (cs : List Bool) → IsEnding counter_step start cs →
        Settles counter_step start cs }
{}
