//! That an image as what is run is lawful where it makes sense. Each function here has an empty body: its contract is a
//! law.

ghost use Rattle.fm_net.specs.Correspondence.{AreAlike};
ghost use Rattle.fm_object.specs.declared.image.Image as declared_image;
ghost use Rattle.fm_proc_language.specs.Processes.{code_language};
ghost use Rattle.fm_run.specs.Plays.{IsLawfulPlay, language};
ghost use Rattle.fm_run_law.specs.Alike.{FollowsAs, IsFairAs, RunsAs};
ghost use Rattle.fm_image_typed.specs.Typed.{Typed};
ghost use Rattle.fm_execute_image.specs.Play.{Anyway, IsBare, IsLive, good_play, image_play};

/// Of an image that makes sense processes account for their ports, and main holds none.
pub fn good_play_is_lawful()
    ensures { (i : declared_image.Image) → Typed i → IsLawfulPlay (good_play i) }
{}

/// Of every image the good processes do what its own machine does, and so a run of theirs is one of that machine,
/// follows the same choices there, and is fair there where it is so among them; where the image makes sense ports stay
/// where they are accounted for.
pub fn plays_are_alike()
    ensures alike { (i : declared_image.Image) → AreAlike (IsBare i) (Anyway i) (language (good_play i)) code_language }
    ensures live { (i : declared_image.Image) → AreAlike (IsBare i) (IsLive i) (language (good_play i)) code_language }
    ensures runs { (i : declared_image.Image) → RunsAs (good_play i) (image_play i) }
    ensures follows { (i : declared_image.Image) → FollowsAs (good_play i) (image_play i) }
    ensures fair { (i : declared_image.Image) → IsFairAs (good_play i) (image_play i) }
{}
