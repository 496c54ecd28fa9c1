//! Processes over channels whose messages travel by links: what the hosts and the network do, as plain data, and
//! that they do what the machine of processes over channels does.
//!
//! A channel is the two ends of its link (`LinkedChan`), and its queue is what the reader hasn't taken; so the hosts
//! stand for a state of the machine (`state_of`). Each function here has an empty body: its contract is a law.
#![tactic(auto)]

ghost use Rattle.std.specs.Prelude.{◌≡◌, ◌⊎◌, ℕ, Bool, List, Some, None};
ghost use Rattle.fm_base.specs.declared.path.ChanName.{ChanName};
ghost use Rattle.fm_sched.specs.Schedule.{Leads, IsReached};
ghost use Rattle.fm_net.specs.Machine.{Place, State};
ghost use Rattle.fm_net.specs.Language.{Language, language_step};
ghost use Rattle.fm_net.specs.Lawful.{IsLawfulLanguage};
ghost use Rattle.fm_net.specs.Owned.{IsOwned};
ghost use Rattle.fm_link_law.specs.Hosts.{Carried, Hosts, IsSound, state_of, sent, answered, delivered, lost, restarted};
ghost use Rattle.fm_link_law.specs.Steps.{hosts_step, IsPlainAt, IsAwaiting};
ghost use Rattle.fm_link_law.specs.Play.{HostEvent, hosts_after, steps_of, cost_of, AsksForWords};

/// A step on what has arrived is the machine's step, at its cost; where there is none, the machine has none
/// either, or the process waits for a message that hasn't arrived.
pub fn steps_are_steps<P>()
    ensures step { (language : Language P) (h : Hosts P) (p : Place) → IsSound h → IsPlainAt language h p →
        (later : Hosts P) (cost : ℕ) → hosts_step language h p ≡ Some (later, cost) →
        (language_step language (state_of h) p ≡ Some (state_of later, cost)) × IsSound later }
    ensures none { (language : Language P) (h : Hosts P) (p : Place) → IsSound h → IsPlainAt language h p →
        hosts_step language h p ≡ None →
        (language_step language (state_of h) p ≡ None) ⊎ IsAwaiting language h p }
{}

/// What the network does changes nothing of the state: sending, answering, bringing and losing; and a host that starts
/// again loses only what is on the wire, and no end of a link.
pub fn the_network_is_still<P>()
    ensures sent { (h : Hosts P) → IsSound h → (c : ChanName) (k : ℕ) (later : Hosts P) → sent h c k ≡ Some later →
        (state_of later ≡ state_of h) × IsSound later }
    ensures answered { (h : Hosts P) → IsSound h → (c : ChanName) (later : Hosts P) → answered h c ≡ Some later →
        (state_of later ≡ state_of h) × IsSound later }
    ensures delivered { (h : Hosts P) → IsSound h → (i : ℕ) (later : Hosts P) → delivered h i ≡ Some later →
        (state_of later ≡ state_of h) × IsSound later }
    ensures lost { (h : Hosts P) → IsSound h → (i : ℕ) (later : Hosts P) → lost h i ≡ Some later →
        (state_of later ≡ state_of h) × IsSound later }
    ensures restarted { (h : Hosts P) → IsSound h → (stays : Carried → Bool)
        → ((restarted stays h).channels ≡ h.channels) × (state_of (restarted stays h) ≡ state_of h)
        × IsSound (restarted stays h) }
{}

/// Whatever happens, the steps that were made are a schedule of the machine, which leads to the state for which
/// the hosts stand, at the cost of the steps.
pub fn every_run_is_a_schedule<P>()
    ensures { (language : Language P) (start : State P) → IsLawfulLanguage language
        → IsOwned language start → AsksForWords language start
        → (h : Hosts P) → IsSound h → IsReached (language_step language) start (state_of h)
        → (events : List HostEvent)
        → Leads (language_step language) (state_of h) (steps_of language h events)
        (state_of (hosts_after language h events)) (cost_of language h events)
        × IsSound (hosts_after language h events) }
{}
