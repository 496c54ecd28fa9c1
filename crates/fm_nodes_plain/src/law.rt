//! What the least line tells of a program.
//!
//! Each function here has an empty body: its contract is a law.

ghost use Rattle.std.specs.Prelude.{◌≡◌, ℕ, None, Option};
ghost use Rattle.fm_base.specs.declared.name.Line.{Line};
ghost use Rattle.fm_rules.specs.declared.program.Program.{Program};
ghost use Rattle.fm_nodes_plain.specs.Plain.{IsPlainProgram};
ghost use Rattle.fm_nodes_plain.specs.Lines.{IsPlainVerdict, IsUnplainAt};

/// A program that has no such line is a plain program, which hosts can play.
pub fn plain_by_lines()
    ensures plain { (p : Program) → ((line : ℕ) → ¬ IsUnplainAt p line) → IsPlainProgram p }
    ensures told { (p : Program) → ∥ IsPlainVerdict p None ∥₁ → IsPlainProgram p }
{}

/// A program has one verdict.
pub fn one_line()
    ensures { (p : Program) (v w : Option Line) → IsPlainVerdict p v → IsPlainVerdict p w → v ≡ w }
{}
