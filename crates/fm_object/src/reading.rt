//! Reading an object.

ghost use Rattle.std.specs.Prelude.{◌≡◌, IfOk, IfErr};
ghost use Rattle.fm_object.specs.Reading.{Gives, image_read};
ghost use Rattle.fm_object.specs.Texts.{IsCause, IsObjectText, IsRead};
ghost use Rattle.fm_object.specs.declared.image.Image as declared;

use crate::fail::ObjectFail;
use crate::image::Image;
use crate::lines::{count_line, head_line};
use crate::many::{Front, lined, many};
use crate::parts::{Types, Units};
use fm_base::Line;
use std::alloc::Global;

#[tactic(auto, unfolding(crate::specs::Reading::image_read))]
fn image_of(alloc: Global, bytes: &[u8]) -> Result<Image, ObjectFail>
    ensures { Gives (λ i. i) result (image_read bytes.now) }
{
    let (_, behind) = lined(1, head_line(bytes))?;
    let (count, behind) = lined(behind.line, count_line(b"types ", behind.rest))?;
    let (types, behind) = many::<Types>(alloc, count, behind)?;
    let (count, behind) = lined(behind.line, count_line(b"units ", behind.rest))?;
    let (units, behind) = many::<Units>(alloc, count, behind)?;
    if !behind.rest.is_empty() {
        return Err(ObjectFail::Malformed(Line(behind.line)));
    }
    Ok(Image { types, units })
}

/// The image whose text, in form 1, the bytes are. Room is taken for what lines tell, as they are read, and never for a
/// number of lines that a line promises. Linear in the bytes.
///
/// # Errors
/// `Malformed` tells the first malformed line, from 1: one of another form, one that is missing, one that ends without
/// a line feed, or one behind the last. `NoMemory` is want of memory, or a text of 4,294,967,295 lines or more.
pub fn read(alloc: Global, bytes: &[u8]) -> Result<Image, ObjectFail>
    // The bytes are the text of what is read.
    ensures object { IfOk result (IsObjectText bytes.now) }
    // The text of an image is read as that image, unless memory runs out.
    ensures whole { (i : declared.Image) → IsObjectText bytes.now i → IsRead i result }
    // The lines before the one that is told begin an image's text, and with it they begin none.
    ensures malformed { IfErr result (IsCause bytes.now) }
{
    image_of(alloc, bytes)
}
