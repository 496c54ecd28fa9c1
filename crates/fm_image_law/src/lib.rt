//! What an image is when it runs, and what that is good for.
//!
//! `specs/Image` has the machine of an image: main alone over its code, and the step of each process. Of one that makes
//! sense (`Typed`) each process is good along every schedule: so the language of its processes is lawful, and nobody is
//! ever stuck. Each function here has an empty body: its contract is a law.
#![tactic(auto)]

ghost use Rattle.std.specs.Prelude.{◌≡◌, false, List, Some, []};
ghost use Rattle.std.specs.FinMap.{get};
ghost use Rattle.fm_sched.specs.Schedule.{IsLegal, play};
ghost use Rattle.fm_code.specs.Statements.{is_stuck};
ghost use Rattle.fm_code.specs.declared.body.Body as declared_body;
ghost use Rattle.fm_code_preserves.specs.Rooms.{IsLaidCode};
ghost use Rattle.fm_object.specs.declared.image.Image as declared_image;
ghost use Rattle.fm_net.specs.Machine.{Place};
ghost use Rattle.fm_proc_language.specs.Processes.{CodeProc, held};
ghost use Rattle.fm_proc_invariant.specs.Good.{IsGood};
ghost use Rattle.fm_image_typed.specs.Codes.{code_of};
ghost use Rattle.fm_image_typed.specs.Shapes.{shapes_of};
ghost use Rattle.fm_image_typed.specs.Typed.{Typed};
ghost use Rattle.fm_image_law.specs.Image.{GoesOn, first, first_process, step};

/// The process with which an image begins that makes sense is good, and holds no port.
pub fn first_is_good()
    ensures laid { (i : declared_image.Image) → Typed i → IsLaidCode (shapes_of i) (code_of i) }
    ensures good { (i : declared_image.Image) → Typed i → IsGood (shapes_of i) (first_process i) }
    ensures free { (i : declared_image.Image) → Typed i → held (first_process i) ≡ [] }
{}

/// Along every schedule of such an image each process is good: so ports stay where they are accounted for, and no body
/// that has more to do is stuck.
pub fn nobody_is_stuck()
    ensures good { (i : declared_image.Image) → Typed i → (choices : List Place)
        → IsLegal step (first i) choices → (q : Place) (y : CodeProc)
        → get (play step (first i) choices).procs q ≡ Some y
        → IsGood (shapes_of i) y }
    ensures moves { (i : declared_image.Image) → Typed i → (choices : List Place)
        → IsLegal step (first i) choices → (q : Place) (y : CodeProc) (b : declared_body.Body)
        → get (play step (first i) choices).procs q ≡ Some y
        → y.body ≡ Some b → GoesOn y.phase → is_stuck b ≡ false }
{}
