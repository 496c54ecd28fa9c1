//! Which images are accepted.

ghost use Rattle.std.specs.Prelude.{◌≡◌, ◌<◌, ◌^◌, IfOk, MatchResult, length};
ghost use Rattle.fm_image_typed.specs.Shapes.{shapes_of};
ghost use Rattle.fm_image_typed.specs.Typed.{Typed};
ghost use Rattle.fm_verify.specs.Judged.{Refused, UnitsJudged};

use crate::fail::VerifyFail;
use crate::shapes::known_of;
use crate::types::is_whole;
use crate::unit::is_typed;
use fm_base::NoMemory;
use fm_object::Image;
use fm_verify_unit::Known;
use std::alloc::Global;
use std::marker::Model;

/// An image that makes sense. Contracts see the image.
pub struct Verified {
    image: Image,
}

impl Drop for Verified {
    fn drop(self) {
        let Verified { image: _image } = self;
    }
}

impl Model for Verified {
    ghost use Rattle.fm_object.specs.declared.image.Image.{Image};
    ghost use Rattle.fm_image_typed.specs.Typed.{Typed};

    ghost Value = { Image };

    ghost view = { λ v. v.image };

    ghost invariant = { λ v. Typed v.image };
}

impl Verified {
    /// The image.
    pub fn image(&self) -> &Image
        ensures image { result.now ≡ self.now }
        ensures typed { Typed self.now }
    {
        &self.image
    }
}

/// The least unit that makes no sense, from 0, if there is one.
fn first_bad(alloc: Global, image: &Image, known: &Known) -> Result<Option<usize>, NoMemory>
    requires { known.now ≡ shapes_of image.now }
    ensures { IfOk result (UnitsJudged image.now) }
{
    let units = image.units.as_slice();
    'units: for number in 0..units.len() {
        if !is_typed(alloc, image, known, number, &units[number])? {
            return Ok(Some(number));
        }
    }
    Ok(None)
}

/// Accepts an image that makes sense. Linear in the image, but that the words of variables are looked up by halves.
///
/// # Errors
/// `Bad` tells the least unit, from 1, that makes no sense, or 0 where the whole makes none; `NoMemory` is want of
/// memory.
pub fn verify(alloc: Global, image: Image) -> Result<Verified, VerifyFail>
    requires { length image.units < 2 ^ 32 }
    // What is accepted is the image, which makes sense; what is refused makes none, where it says.
    ensures { MatchResult result (λ v. (v ≡ image) × Typed image) (λ e. Refused image e) }
{
    if !is_whole(&image) {
        return Err(VerifyFail::Bad(0));
    }
    let known = known_of(alloc, &image)?;
    match first_bad(alloc, &image, &known)? {
        Some(number) => Err(VerifyFail::Bad(number as u32 + 1)),
        None => Ok(Verified { image }),
    }
}
