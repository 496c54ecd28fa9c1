//! Which images make sense (`Typed`), and what follows for their code. `specs/Typed` says what is asked of an image
//! before it runs: of the whole, its one PROGRAM and the types of ports, and of each unit its machine, the words of its
//! variables, its formals, where its statements begin, and that its code has its kinds. Each function here has an empty
//! body: its contract is a law.
#![tactic(auto)]

ghost use Rattle.std.specs.Prelude.{◌≡◌, false};
ghost use Rattle.fm_code.specs.Statements.{is_stuck};
ghost use Rattle.fm_code.specs.declared.body.Body as declared;
ghost use Rattle.fm_code_kinds.specs.Bodies.{IsTypedCode};
ghost use Rattle.fm_object.specs.declared.image.Image as declared_image;
ghost use Rattle.fm_image_typed.specs.Codes.{RunsImage, code_of};
ghost use Rattle.fm_image_typed.specs.Sample.{sample_body, sample_image};
ghost use Rattle.fm_image_typed.specs.Shapes.{shapes_of};
ghost use Rattle.fm_image_typed.specs.Typed.{Typed};

/// The code of an image that makes sense has its kinds, unit by unit.
pub fn typed_code()
    ensures { (i : declared_image.Image) → Typed i → IsTypedCode (shapes_of i) (code_of i) }
{}

/// No body of the code of an image that makes sense is stuck, where its innermost frame stands at a statement as the
/// kinds tell.
pub fn none_is_stuck()
    ensures { (i : declared_image.Image) (b : declared.Body) → Typed i → RunsImage i b → is_stuck b ≡ false }
{}

/// There is such an image, and such a body of its code.
pub fn sample_makes_sense()
    ensures typed { Typed sample_image }
    ensures runs { RunsImage sample_image sample_body }
{}
