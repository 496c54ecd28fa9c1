//! What is compiled makes sense: the code that is generated for a program, and its image.
//!
//! The code of each unit has its kinds. `specs/Types` tells sorts by the numbers of the types of ports, `specs/Units`
//! what is known of units beside their code. A list of kinds is followed along code that goes on (`specs/Along`), and
//! through statements (`specs/Walks`); `specs/Counted`, `specs/Passed` and `specs/Sized` are what the rules of a
//! checked program say for that.
//!
//! The image of a program is what the text of its code says besides the instructions; `specs/ImageOf` of fm_image says
//! which it is. Each function here has an empty body: its contract is a law.
#![tactic(auto)]

ghost use Rattle.std.specs.Prelude.{◌≡◌, ℕ, Some, List, length, slice_get};
ghost use Rattle.fm_rules.specs.declared.program.Program.{Program};
ghost use Rattle.fm_verdict.specs.Program.{IsCheckedOf};
ghost use Rattle.fm_mean.specs.Names.{ProgramUnit, unit_at};
ghost use Rattle.fm_code_kinds.specs.Bodies.{coded};
ghost use Rattle.fm_code_kinds.specs.Kinded.{Kinded};
ghost use Rattle.fm_code_kinds.specs.Leading.{JoinsStand};
ghost use Rattle.fm_gen.specs.Programs.{code_of};
ghost use Rattle.fm_gen.specs.Units.{unit_of_code};
ghost use Rattle.fm_object.specs.declared.image.UnitImage.{UnitImage};
ghost use Rattle.fm_image_typed.specs.Codes as image_code;
ghost use Rattle.fm_image_typed.specs.Shapes.{coded_of, shape_of, shapes_of};
ghost use Rattle.fm_image_typed.specs.Typed.{Typed};
ghost use Rattle.fm_image.specs.ImageOf.{NamesAreNames, image_of};
ghost use Rattle.fm_image.specs.Types.{types_of};
ghost use Rattle.fm_compile_law.specs.Units as program;

/// The code of each unit of a program has its kinds: each instruction finds what it takes, each statement begins with
/// nothing but the results of its references, and where one leads a statement begins.
pub fn units_have_their_kinds()
    ensures { (p : Program) (number : ℕ) (u : ProgramUnit) → unit_at p number ≡ Some u
        → Kinded (program.shapes_of p) (program.shape_by (types_of p) u) (coded (unit_of_code p u)) }
{}

/// In the code of each unit of a program an instruction that joins a block stands behind each that begins one, and
/// nothing else leads to one; no statement begins there.
pub fn units_join_blocks()
    ensures { (p : Program) (number : ℕ) (u : ProgramUnit) → unit_at p number ≡ Some u
        → JoinsStand (coded (unit_of_code p u)) }
{}

/// The names of the variables of a program that was read are names of the language.
pub fn names_are_names()
    ensures { (source : List ℕ) (p : Program) → IsCheckedOf source p → NamesAreNames p }
{}

/// The image of a program has a unit for each of the program's, in their order, and says of each, and of the types of
/// ports, what kinds of operands are told by.
pub fn image_has_shapes()
    ensures units { (p : Program) → length (image_of p (code_of p)).units ≡ length p.units.units }
    ensures shapes { (p : Program) → shapes_of (image_of p (code_of p)) ≡ program.shapes_of p }
{}

/// The code of each unit of the image of a program has its kinds, with what the image says and with as many loops as
/// the code names.
pub fn image_has_its_kinds()
    ensures { (p : Program) (number : ℕ) (u : UnitImage) → slice_get (image_of p (code_of p)).units number ≡ Some u
        → Kinded (shapes_of (image_of p (code_of p))) (shape_of u) (coded_of u) }
{}

/// The image of a program makes sense, where the names of its variables are names of the language.
pub fn image_makes_sense()
    ensures { (p : Program) → NamesAreNames p → Typed (image_of p (code_of p)) }
{}

/// The code of the image of a program and its code is that code: what executes the one executes the other.
pub fn image_keeps_code()
    ensures { (p : Program) → image_code.code_of (image_of p (code_of p)) ≡ code_of p }
{}
