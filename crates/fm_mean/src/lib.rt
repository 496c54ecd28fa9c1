//! What a program that breaks no rule means: definitions in `specs/`, laws in `proofs/`. Each function of this
//! file has an empty body: its contract is a law.
#![tactic(auto)]

mod outcome;
mod outport;
mod place;

ghost use Rattle.std.specs.FinMap.{get};
ghost use Rattle.std.specs.Prelude.{◌*◌, ◌+◌, ◌≡◌, ◌≤◌, ℕ, Option, Some, unwrap_or, List, [], Ok, slice_get};
ghost use Rattle.fm_sched.specs.Schedule.{Can, Diamond, IsEnding, IsLegal, Settles, Stays, Throughout, next, play, used};
ghost use Rattle.fm_net.specs.Lawful.{IsLawfulLanguage};
ghost use Rattle.fm_net.specs.Machine.{Place, State};
ghost use Rattle.fm_net.specs.Owned.{GoneIsEmpty, HasOneWriter, IsOwned};
ghost use Rattle.fm_net.specs.Typed.{AllIn, IsTyped};
ghost use Rattle.fm_values.specs.Places.{size};
ghost use Rattle.fm_rules.specs.declared.program.Program.{Program};
ghost use Rattle.fm_tree.specs.Tree.{Ref, Tree, Trees, trees_from};
ghost use Rattle.fm_tree.specs.declared.program_unit.Entry.{Entry};
ghost use Rattle.fm_tree.specs.declared.statement.CallPart.{CallPart};
ghost use Rattle.fm_tree.specs.declared.statement.Simple.TheVariants as simple;
ghost use Rattle.fm_tree.specs.declared.statement.Stmt.TheVariants as stmt;
ghost use Rattle.fm_tree.specs.declared.form.UnitKind.TheVariants as unit_kind;
ghost use Rattle.fm_rules.specs.Main.{main_of};
ghost use Rattle.fm_mean.specs.Names.{ProgramUnit, kind_of, main_number, unit_at, unit_named};
ghost use Rattle.fm_mean.specs.Actions.{action_of, arguments_in, next_reference, trees_in};
ghost use Rattle.fm_mean.specs.Layout.{AreLaidOut};
ghost use Rattle.fm_mean.specs.declared.place.Actual.{Actual};
ghost use Rattle.fm_mean.specs.Evaluate.{Scope, actuals_of};
ghost use Rattle.fm_mean.specs.Calls.{entered};
ghost use Rattle.fm_mean.specs.ValueTypes.{AreSized, ArgumentsAreOf};
ghost use Rattle.fm_mean.specs.Determinism.{IsDeterministic};
ghost use Rattle.fm_mean.specs.Fits.{Fits, IsFine, Types, ValuesFit};
ghost use Rattle.fm_mean.specs.Owed.{HaveShortMessages, IsQuiet, OweAtMost, SizesAtMost, owed};
ghost use Rattle.fm_mean.specs.Process.{Proc};
ghost use Rattle.fm_mean.specs.Machines.{HaveMachines};
ghost use Rattle.fm_mean.specs.Seats.{AreOnFirstNodes};
ghost use Rattle.fm_mean.specs.Steps.{first, language, step};
ghost use Rattle.fm_mean.specs.Leads.{AllLead};
ghost use Rattle.fm_mean.specs.NoStep.{OthersAct, ReasonsHold, RestingHaveReasons};
ghost use Rattle.fm_mean.specs.Outcome.{outcome_of};
ghost use Rattle.fm_mean.specs.Telling.{TellsEach};
ghost use Rattle.fm_mean.specs.CallsOpen.{OpensWhole, ReferenceOpensWhole};

pub use outcome::{At, FaultAt, Holder, Outcome, OutputLine, Shown, ShownVariable, Wait};
pub use outport::Outport;
pub use place::{Actual, Back, Span};

/// Along every schedule of a program each open port stands in one place: in a variable of one process, with a start
/// that waits, or in one message; no message waits where the inport is gone; and each port stands at a place of its
/// channel's type, and each message fits its channel. From any state where all this holds, each step leads to one where
/// places and messages are of their types.
pub fn ports_are_owned()
    ensures lawful { (p : Program) → IsLawfulLanguage (language p) }
    ensures throughout { (p : Program) → Throughout (step p) (IsOwned (language p)) (first p) }
    ensures gone { (p : Program) → Throughout (step p) (λ s. GoneIsEmpty s.chans) (first p) }
    ensures typed { (p : Program) → Throughout (step p) (IsTyped (language p) (IsFine p) Fits) (first p) }
    ensures typed_step { (p : Program) (s : State Proc) (q : Place)
        → IsOwned (language p) s → IsTyped (language p) (IsFine p) Fits s
        → Can (step p) s q → IsTyped (language p) (IsFine p) Fits (next (step p) s q) }
{}

/// A step of one process leaves every other its step, also in programs with mergers and probes.
pub fn steps_stay()
    ensures { (p : Program) → Throughout (step p) (Stays (step p)) (first p) }
{}

/// In a deterministic program the steps of two processes commute, and all schedules lead to one outcome.
pub fn schedules_settle()
    ensures one_writer { (p : Program) → IsDeterministic p → Throughout (step p) (λ s. HasOneWriter s.chans) (first p) }
    ensures commute { (p : Program) → IsDeterministic p → Throughout (step p) (Diamond (step p)) (first p) }
    ensures settle { (p : Program) → IsDeterministic p → (cs : List Place)
        → IsEnding (step p) (first p) cs → Settles (step p) (first p) cs }
{}

/// Each step of a program costs a turn.
pub fn each_step_costs()
    ensures { (p : Program) (s : State Proc) (q : Place) (t : State Proc × ℕ) → step p s q ≡ Some t → 1 ≤ t.1 }
{}

/// Each process is on the first node of its machine.
pub fn nodes_are_first()
    ensures { (p : Program) → Throughout (step p) AreOnFirstNodes (first p) }
{}

/// Where arguments have the types and sizes of the formals, opening a frame lets nothing go; so it is at each CALL,
/// each PROCESSCALL and each reference of a FUNCTION in a program, in a frame whose values have the types of its
/// variables.
pub fn opening_drops_nothing()
    ensures alike { (types : Types) (s : Scope) (u : ProgramUnit) (ts : Trees) (k : ℕ) (args : List Actual)
        → AreSized s.unit.names.variables → ValuesFit types s.unit.names.variables s.values
        → ArgumentsAreOf s u 1 ts → actuals_of s ts k ≡ Ok args
        → (entered u s.values args).drops ≡ [] }
    ensures calls { (p : Program) (n : ℕ) (u : ProgramUnit) (i : ℕ) (e : Entry)
        → unit_at p n ≡ Some u → slice_get u.tree.body i ≡ Some e
        → (name : List ℕ) (args : Option (List Tree)) (v : ℕ × ProgramUnit)
        → e.stmt ≡ stmt.Simple (simple.Call name args) → unit_named p name ≡ Some v
        → OpensWhole p u v.1 (trees_in args) }
    ensures process_calls { (p : Program) (n : ℕ) (u : ProgramUnit) (i : ℕ) (e : Entry)
        → unit_at p n ≡ Some u → slice_get u.tree.body i ≡ Some e
        → (name : List ℕ) (part : Option CallPart) (v : ℕ × ProgramUnit)
        → e.stmt ≡ stmt.ProcessCall name part → unit_named p name ≡ Some v
        → OpensWhole p u v.1 (trees_from (arguments_in part)) }
    ensures references { (p : Program) (n : ℕ) (u : ProgramUnit) (i : ℕ) (e : Entry)
        → unit_at p n ≡ Some u → slice_get u.tree.body i ≡ Some e
        → (j : ℕ) (name : List ℕ) (args : Trees) → next_reference e j ≡ Some (Ref name args)
        → ReferenceOpensWhole p u name args }
{}

/// The variables of a unit are laid out one behind the other from 0 on. Each has as many words as its bounds have
/// elements, of which there are 65,536 at most.
pub fn variables_are_laid_out()
    ensures laid_out { (p : Program) (n : ℕ) (u : ProgramUnit) → unit_at p n ≡ Some u → AreLaidOut 0 u.names.variables }
    ensures sized { (p : Program) (n : ℕ) (u : ProgramUnit) → unit_at p n ≡ Some u → AreSized u.names.variables }
    ensures small { (p : Program) (n : ℕ) (u : ProgramUnit) → unit_at p n ≡ Some u
        → AllIn (λ v. size v.bounds ≤ 65536) u.names.variables }
{}

/// There is a PROGRAM, and it is the unit that the checked program names as its main one.
pub fn main_is_the_program()
    ensures number { (p : Program) (m : ℕ) → main_number p ≡ Some m → unwrap_or (main_of p.units.units) 0 ≡ m }
    ensures there { (p : Program)
        → (m : ℕ) × (u : ProgramUnit) × (main_number p ≡ Some m)
        × (unit_at p m ≡ Some u) × (kind_of u ≡ unit_kind.Program) }
{}

/// Each entry of a program leads on: the entry behind it, where its jump, its failing test or its loop goes, the loop
/// that it ends, and the first entry of the unit that it calls are there.
pub fn entries_lead_on()
    ensures { (p : Program) → AllLead p }
{}

/// Along every schedule a process has no step exactly where it has ended or faulted, or joins a block one of whose
/// children hasn't ended, or stands at a RECEIVE with no message and an open writer. Only who has ended or faulted has
/// nothing to do.
pub fn who_has_no_step()
    ensures waits { (p : Program) → Throughout (step p) (RestingHaveReasons p) (first p) }
    ensures rests { (p : Program) → Throughout (step p) (ReasonsHold p) (first p) }
    ensures acts { (p : Program) → Throughout (step p) (OthersAct p) (first p) }
{}

/// Where a schedule has led to an end, the outcome tells of each process that hasn't ended: its fault with the line, or
/// at which line it waits, and for which channel or child.
pub fn outcomes_tell_each()
    ensures { (p : Program) (cs : List Place) → IsEnding (step p) (first p) cs
        → (used : ℕ) → TellsEach p (play (step p) (first p) cs) (outcome_of p used (play (step p) (first p) cs)) }
{}

/// Along every schedule each process is on a node of its machine, whose nodes are among those of main's machine and
/// numbered below 65,536, and the machine has as many nodes as PROCESSORS of the process's unit asks for. SUBROUTINEs
/// and FUNCTIONs ask for none.
pub fn machines_have_nodes()
    ensures { (p : Program) → Throughout (step p) (HaveMachines p) (first p) }
{}

/// Where each message that a program sends has at most so many fields that earlier ones size, along every schedule a
/// step that prints no line and makes no merger of more than 65,536 writers costs at most 131,074 turns, and 65,536 for
/// each such field, more than all steps before it. For what its process owes for calls and process calls, a turn for
/// each child that is to start and for each word that may be copied back, was paid before; no message that waits has
/// more than 65,536 words, and 65,536 for each such field; and the cost of such a step, with what its process owes
/// after it, is at most so many turns more than what it owed. A unit has at most 65,536 words.
pub fn calls_are_paid()
    ensures along { (p : Program) (n : ℕ) → SizesAtMost n p → (cs : List Place)
        → IsLegal (step p) (first p) cs → (q : Place) (t : State Proc × ℕ) (x : Proc)
        → step p (play (step p) (first p) cs) q ≡ Some t → get (play (step p) (first p) cs).procs q ≡ Some x
        → IsQuiet (action_of p x) → t.1 ≤ 131074 + 65536 * n + used (step p) (first p) cs }
    ensures owed { (p : Program) (cs : List Place) → IsLegal (step p) (first p) cs
        → OweAtMost (used (step p) (first p) cs) (play (step p) (first p) cs) }
    ensures short { (p : Program) (n : ℕ) → SizesAtMost n p → Throughout (step p) (HaveShortMessages n) (first p) }
    ensures quiet { (p : Program) (n : ℕ) → SizesAtMost n p
        → (s : State Proc) (q : Place) (t : State Proc × ℕ) (x y : Proc)
        → HaveShortMessages n s → step p s q ≡ Some t → get s.procs q ≡ Some x
        → get t.0.procs q ≡ Some y → IsQuiet (action_of p x)
        → t.1 + owed y ≤ 131074 + 65536 * n + owed x }
    ensures small { (p : Program) (n : ℕ) (u : ProgramUnit) → unit_at p n ≡ Some u → u.names.words ≤ 65536 }
{}
