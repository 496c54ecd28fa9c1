//! Laws of kinds.

ghost use Rattle.std.specs.Prelude.{◌≡◌, false};
ghost use Rattle.fm_code.specs.Statements.{is_stuck};
ghost use Rattle.fm_code.specs.declared.body.Body as declared;
ghost use Rattle.fm_code_kinds.specs.Bodies.{BodyFits};
ghost use Rattle.fm_code_kinds.specs.Sample.{sample_body, sample_shapes};
ghost use Rattle.fm_code_kinds.specs.declared.sorts.Shapes as kinds_of_units;

/// No body of code whose units have their kinds is stuck, where its frames are as the kinds tell: each instruction of
/// its next statement finds what it takes, and what the statement passes fits the unit that gets it.
pub fn none_is_stuck()
    ensures { (shapes : kinds_of_units.Shapes) (b : declared.Body) → BodyFits shapes b → is_stuck b ≡ false }
{}

/// There are such bodies: that of a small PROGRAM at its first statement, which stores a number, prints it and stops.
pub fn sample_body_fits()
    ensures { BodyFits sample_shapes sample_body }
{}
