//! Programs that can't deadlock: which these are (`IsFlowSafe`), and that each of their schedules that
//! ends without faults ends with main's end (`ComesToItsEnd`).
//!
//! Five sentences on the PROGRAM and the units that it starts say where a program may deadlock, each at a
//! line (`specs/Flow.antt`); a program is safe where none holds, and else the least line is told
//! (`IsFlowVerdict`). In a safe program main makes channels, gives their ports to processes, each to one
//! call, and joins them; no process makes another, sends a port or keeps an outport, and no channels lead
//! from a process back to itself. So where nobody can step and main hasn't ended, main joins a child that
//! waits at a channel with an open writer; another child holds that writer and waits too, and so on
//! upstream, which the graph of channels ends.
//!
//! Each function of this file has an empty body: its contract is a law. `proofs/` holds the proof:
//! `Upstream` and `Edges` of graphs; `Stopped` and `Whole` of a state where nobody can step; `Labelled` of
//! facts by place along schedules; `Inside`, `Fewer`, `Kids`, `KidSteps` and `Ready` of children;
//! `MainWalk`, `Stand`, `MainArguments` and `MainPart` of main; `Sentences`, `Laid`, `OneBlock`, `Wraps`,
//! `Closed` and `Narrow` of what rules and sentences say of the PROGRAM; `Assembled` and `Promise` of all.
#![tactic(auto)]

ghost use Rattle.std.specs.Prelude.{◌≡◌, ℕ, ◌<◌, Option, Some, None, List, length};
ghost use Rattle.fm_base.specs.declared.name.Line.{Line};
ghost use Rattle.fm_graph.specs.Graph.{IsEdge};
ghost use Rattle.fm_rules.specs.declared.program.Program.{Program};
ghost use Rattle.fm_mean.specs.Names.{ProgramUnit, unit_at, main_number};
ghost use Rattle.fm_flow_law.specs.Cycles.{IsAcyclic};
ghost use Rattle.fm_flow_law.specs.Ends.{ComesToItsEnd};
ghost use Rattle.fm_flow_law.specs.Flow.{IsFlowSafe, IsFlowVerdict, edges};

/// In a program of which no sentence holds, each legal schedule that ends without faults ends with main's
/// end: no process is left waiting for another. So it is where a checker tells none. That a run ends isn't
/// said.
pub fn safe_programs_come_to_their_end()
    ensures safe { (p : Program) → IsFlowSafe p → ComesToItsEnd p }
    ensures told { (p : Program) → ∥ IsFlowVerdict p None ∥₁ → ComesToItsEnd p }
{}

/// A program has one verdict.
pub fn one_verdict()
    ensures { (p : Program) (v w : Option Line) → IsFlowVerdict p v → IsFlowVerdict p w → v ≡ w }
{}

/// The channels of such a program lead from no process call back to itself.
pub fn safe_channels_lead_onward()
    ensures { (p : Program) (m : ℕ) (u : ProgramUnit) → main_number p ≡ Some m
        → unit_at p m ≡ Some u → IsFlowSafe p → IsAcyclic (edges u) }
{}

/// Where no node of a finite graph leads back to itself, nobody goes upstream for ever.
pub fn no_way_upstream()
    ensures { (g : List (List ℕ)) → IsAcyclic g → (before : ℕ → ℕ)
        → ((b : ℕ) → (before b < length g) × IsEdge g (before b) b)
        → ⊥ }
{}
