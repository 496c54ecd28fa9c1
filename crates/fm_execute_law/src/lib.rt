//! What is executed of a program's image is a run of the program.
//!
//! An image is run by what it says (`fm_execute_image`), and a program by its meaning. Where the image is that of a
//! program and its code the two do and show the same. A text is that of one image, so what is executed of the text that
//! was compiled of a program is a run of the program, whether or not the numbers of that image are known to be within
//! their ranges. Each function here has an empty body: its contract is a law.
#![tactic(auto)]

ghost use Rattle.std.specs.Prelude.{◌≡◌, ℕ, List};
ghost use Rattle.fm_rules.specs.declared.program.Program.{Program};
ghost use Rattle.fm_code.specs.declared.body.Frame as declared_frame;
ghost use Rattle.fm_mean.specs.Calls.{variables_in};
ghost use Rattle.fm_mean.specs.Names.{unit_at};
ghost use Rattle.fm_mean.specs.Outcome.{shown_of};
ghost use Rattle.fm_object.specs.declared.image.Image as declared_image;
ghost use Rattle.fm_object.specs.Texts.{IsObjectText, object_text};
ghost use Rattle.fm_image_typed.specs.Typed.{Typed};
ghost use Rattle.fm_image.specs.ImageOf.{image_of};
ghost use Rattle.fm_gen_relation.specs.Standing.{values_in};
ghost use Rattle.fm_gen.specs.Programs.{code_of};
ghost use Rattle.fm_proc_language.specs.Slots.{Slots, port_in};
ghost use Rattle.fm_execute_image.specs.Outcome.{frame_shown};
ghost use Rattle.fm_execute_image.specs.Play.{image_play};
ghost use Rattle.fm_run.specs.Programs.{play_of};
ghost use Rattle.fm_run_law.specs.Alike.{FollowsAs, RunsAs};
ghost use Rattle.fm_execute_law.specs.Compiled.{ExecutesAs, IsTextOf};

/// A run of the image of a program and its code is a run of the program, with the same schedule, and shows what that
/// does.
pub fn image_runs_program()
    ensures { (p : Program) → RunsAs (image_play (image_of p (code_of p))) (play_of p) }
{}

/// Its pieces are those of the program under the same choices, in the same order.
pub fn image_follows_program()
    ensures { (p : Program) → FollowsAs (image_play (image_of p (code_of p))) (play_of p) }
{}

/// So the object text of a program, and the text that is compiled of one, is executed as a run of the program.
pub fn text_runs_program()
    ensures object { (p : Program) (bytes : List ℕ) → IsObjectText bytes (image_of p (code_of p)) → ExecutesAs bytes p }
    ensures compiled { (p : Program) (bytes : List ℕ) → IsTextOf p bytes → ExecutesAs bytes p }
{}

/// Bytes that are the text of an image that makes sense are the object text of no other one.
pub fn text_tells_image()
    ensures { (bytes : List ℕ) (i j : declared_image.Image) → Typed i
        → bytes ≡ object_text i → IsObjectText bytes j → IsObjectText bytes i }
{}

/// The variables of a frame of the image of a program show what those of the program show, by the names of the frame's
/// unit.
pub fn image_shows_program()
    ensures { (p : Program) (s : Slots) (m : declared_frame.Frame) → frame_shown (image_of p (code_of p)) s m ≡
        shown_of (variables_in (unit_at p m.unit)) (values_in (port_in s) (variables_in (unit_at p m.unit)) m.words) }
{}
