//! Several lines.

ghost use Rattle.std.specs.Prelude.{◌≡◌, ℕ, List, Result, option_map};
ghost use Rattle.fm_object.specs.Reading.{Gives, Place, lined, many};
ghost use Rattle.fm_object.specs.Shapes.{place_of};

use crate::fail::ObjectFail;
use fm_base::{Line, Seq};
use std::alloc::Global;

/// The number of the next line, and the bytes from its first on.
#[derive(Clone, Copy)]
pub(crate) struct Front<'a> {
    pub line: u32,
    pub rest: &'a [u8],
}

/// What a line gave, and what stands behind it; or the line isn't as it should be.
pub(crate) fn lined<T: Drop>(
    line: u32,
    read: Option<(T, &[u8])>,
) -> Result<(T, Front<'_>), ObjectFail>
    ensures { Gives (λ x. (x.0, place_of x.1)) result (lined line (option_map (λ x. (x.0, x.1.now)) read.entry)) }
{
    let Some((value, rest)) = read else {
        return Err(ObjectFail::Malformed(Line(line)));
    };
    match line.checked_add(1) {
        Some(line) => Ok((value, Front { line, rest })),
        // Behind line 4,294,967,295 lines have no number: told as want of memory.
        None => Err(ObjectFail::NoMemory),
    }
}

/// What may stand several times.
pub(crate) trait Part {
    /// What one is.
    type Item: Drop;

    // What reading one gives, or the line that isn't as it should be.
    ghost reads: { Place → Result (Self.Item × Place) ℕ };

    /// The one at the front, and what stands behind it.
    fn read_one(alloc: Global, front: Front<'_>) -> Result<(Self::Item, Front<'_>), ObjectFail>
        ensures { Gives (λ x. (x.0, place_of x.1)) result (reads (place_of front.entry)) };
}

/// So many, one behind the other. Room is taken one by one, as they are read.
pub(crate) fn many<P: Part>(
    alloc: Global,
    count: u32,
    front: Front<'_>,
) -> Result<(Seq<P::Item>, Front<'_>), ObjectFail>
    ensures { Gives (λ x. (x.0, place_of x.1)) result (many P.reads count (place_of front.entry)) }
{
    let mut items = Vec::new(alloc);
    let mut rest = front;
    'items: for _ in 0..count {
        let (item, behind) = P::read_one(alloc, rest)?;
        items.push(item)?;
        rest = behind;
    }
    Ok((Seq::from_vec(items), rest))
}
