//! Executes an object text.

ghost use Rattle.std.specs.Prelude.{◌≡◌, ◌<◌, ◌^◌, IfErr, IfOk, length};
ghost use Rattle.fm_object.specs.declared.image.Image as declared_image;
ghost use Rattle.fm_object.specs.Texts.{IsObjectText};
ghost use Rattle.fm_image_typed.specs.Typed.{Typed};
ghost use Rattle.fm_execute.specs.declared.fail.ExecuteFail.TheVariants as fails;
ghost use Rattle.fm_execute_image.specs.Executed.{IsExecuted};
ghost use Rattle.fm_execute.specs.Causes.{IsCause, IsRefused, RunsIt};

use crate::executing::execute;
use crate::fail::ExecuteFail;
use fm_object::{Image, ObjectFail, read};
use fm_run::Run;
use fm_verify::{Verified, VerifyFail, verify};
use std::alloc::Global;

// The image whose text the bytes are.
fn read_image(alloc: Global, bytes: &[u8]) -> Result<Image, ExecuteFail>
    ensures object { IfOk result (IsObjectText bytes.now) }
    ensures whole { (i : declared_image.Image) → IsObjectText bytes.now i → IfErr result (λ e. e ≡ fails.NoMemory) }
    ensures cause { IfErr result (IsCause bytes.now) }
{
    match read(alloc, bytes) {
        Ok(image) => Ok(image),
        Err(ObjectFail::Malformed(line)) => Err(ExecuteFail::Malformed(line)),
        Err(ObjectFail::NoMemory) => Err(ExecuteFail::NoMemory),
    }
}

// The image, if it makes sense.
fn verified(alloc: Global, image: Image) -> Result<Verified, ExecuteFail>
    requires { length image.units < 2 ^ 32 }
    ensures same { IfOk result (λ v. v ≡ image) }
    ensures typed { IfOk result (λ _. Typed image) }
    ensures bad { IfErr result (IsRefused image) }
{
    match verify(alloc, image) {
        Ok(verified) => Ok(verified),
        Err(VerifyFail::Bad(unit)) => Err(ExecuteFail::Unverified(unit)),
        Err(VerifyFail::NoMemory) => Err(ExecuteFail::NoMemory),
    }
}

/// Reads an object text, looks whether its image makes sense, and runs it, from its PROGRAM alone on, until no process
/// can step, or until its turns are spent.
///
/// # Errors
/// `Malformed` tells the first line that is malformed, `Unverified` the least unit that makes no sense; `NoMemory` is
/// want of memory.
pub fn execute_text(alloc: Global, bytes: &[u8], turns: u64) -> Result<Run, ExecuteFail>
    // What ran is the image whose text the bytes are, and it makes sense.
    ensures run { IfOk result (IsExecuted bytes.now turns) }
    // The text of an image that makes sense is executed, unless memory runs out.
    ensures whole { (i : declared_image.Image) → IsObjectText bytes.now i → Typed i → RunsIt i turns result }
    ensures cause { IfErr result (IsCause bytes.now) }
{
    let image = read_image(alloc, bytes)?;
    let image = verified(alloc, image)?;
    let run = execute(alloc, &image, turns)?;
    Ok(run)
}
