//! An invariant of bodies of stack code, which statements preserve: their frames stand as the kinds of their code say.
//!
//! `specs/Standing` says when the frames of a body stand at statements of their units, `specs/Rooms` which words are
//! those of one variable, `specs/Endings` what is known of the end of a statement, and `specs/Weights` that no port
//! word is lost. Each function here has an empty body: its contract is a law.
#![tactic(auto)]

ghost use Rattle.std.specs.Prelude.{◌≡◌, ℕ, ℤ, List, false};
ghost use Rattle.fm_code.specs.Statements.{Own, action_of, is_stuck};
ghost use Rattle.fm_code.specs.declared.body.Body as declared;
ghost use Rattle.fm_code_kinds.specs.Sample.{sample_body, sample_shapes};
ghost use Rattle.fm_code_kinds.specs.declared.sorts.Shapes as kinds_of_units;
ghost use Rattle.fm_code_preserves.specs.Standing.{BodyStands};
ghost use Rattle.fm_code_preserves.specs.Weights.{IsParted, body_ports};

/// No body is stuck whose frames stand as the kinds of its code tell.
pub fn none_is_stuck()
    ensures { (shapes : kinds_of_units.Shapes) (b : declared.Body) → BodyStands shapes b → is_stuck b ≡ false }
{}

/// A statement that concerns the body alone leads to a body whose frames stand so again, and the port words that were
/// there are those that stay and those that it lets go.
pub fn statements_keep()
    ensures { (shapes : kinds_of_units.Shapes) (b : declared.Body)
        → BodyStands shapes b → (after : declared.Body) (lines : List (List ℕ)) (drops : List ℤ) (cost : ℕ)
        → action_of b ≡ Own after lines drops cost
        → BodyStands shapes after × IsParted (body_ports b) (body_ports after) drops }
{}

/// There is such a body: that of a small PROGRAM at its first statement, which stores a number, prints it and stops.
pub fn sample_body_stands()
    ensures { BodyStands sample_shapes sample_body }
{}
