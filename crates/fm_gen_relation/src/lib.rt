//! What the rules say of every checked program, in the words of its meaning, as far as its code relies on it. Each
//! function here has an empty body: its contract is a law.
//!
//! How bodies of stack code stand for processes.
//!
//! `specs/Standing` tells how the words of a frame of code stand for the values of variables. There is no code here;
//! the laws in `proofs/` say what a change of words is to the values.
#![tactic(auto)]

ghost use Rattle.std.specs.Prelude.{◌≡◌, ℕ, Bool, Some, List, slice_get};
ghost use Rattle.fm_tree.specs.PortFields.{PortFields, In};
ghost use Rattle.fm_tree.specs.declared.program_unit.Entry.{Entry};
ghost use Rattle.fm_tree.specs.declared.statement.Extra.{Extra};
ghost use Rattle.fm_tree.specs.declared.statement.Simple.TheVariants as simple;
ghost use Rattle.fm_tree.specs.declared.statement.Stmt.TheVariants as stmt;
ghost use Rattle.fm_tree.specs.declared.statement.Var.{Var};
ghost use Rattle.fm_rules.specs.declared.program.Program.{Program};
ghost use Rattle.fm_mean.specs.Names.{ProgramUnit, unit_at};
ghost use Rattle.fm_mean.specs.Typing.{sort_of};
ghost use Rattle.fm_gen_relation.specs.Sound.{IsSoundEntry, IsSoundUnit};
ghost use Rattle.fm_gen_relation.specs.Targets.{TargetsFit};

/// In each unit of a program the variables lie one behind the other, have a word at least and 65,536 at most together;
/// and the result of a FUNCTION is a word.
pub fn units_are_sound()
    ensures { (p : Program) (number : ℕ) (u : ProgramUnit) → unit_at p number ≡ Some u → IsSoundUnit u }
{}

/// The references of an entry are those of functions in its statement, in the order of evaluation; arguments are as
/// many as the formals, and of their types; and what stands where a port, a variable or a unit is wanted is one.
pub fn entries_are_sound()
    ensures { (p : Program) (number : ℕ) (u : ProgramUnit) (i : ℕ) (e : Entry)
        → unit_at p number ≡ Some u → slice_get u.tree.body i ≡ Some e
        → IsSoundEntry p u e }
{}

/// The variables of a RECEIVE are as many as the fields of the message, and of their types and sizes.
pub fn messages_fit()
    ensures { (p : Program) (number : ℕ) (u : ProgramUnit) (i : ℕ) (e : Entry)
        → unit_at p number ≡ Some u → slice_get u.tree.body i ≡ Some e
        → (named : Bool) (q : Var) (extras : List Extra) (items : List Var)
        → e.stmt ≡ stmt.Simple (simple.Receive named q extras items)
        → (t : PortFields) × (sort_of u q.name ≡ Some (In t)) × TargetsFit u t items }
{}
