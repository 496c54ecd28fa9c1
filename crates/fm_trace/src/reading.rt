//! Reading a trace.

ghost use Rattle.std.specs.Prelude.{◌≡◌, ◌+◌, ◌<◌, ◌^◌, [], IfOk, IfErr};
ghost use Rattle.fm_trace.specs.Reading.{Gives, entries_at, trace_of};
ghost use Rattle.fm_trace.specs.Texts.{IsCause, IsRead, IsTraceText};
ghost use Rattle.fm_trace.specs.declared.trace.Trace as declared;

use crate::fail::TraceFail;
use crate::lines::{
    Before, MOST_ENTRIES, count_word, entry_at, fixed_at, form_at, none_before, number_at,
    with_entry,
};
use crate::trace::{Run, Trace};
use fm_base::{NoMemory, Seq};
use std::alloc::Global;

/// The most turns.
const MOST_TURNS: u64 = 1_000_000_000;

/// The fewest bytes of an entry's line.
const LEAST_LINE: usize = 4;

/// No entries, with room for so many, or for those whose lines the bytes have room for.
fn room_for(alloc: Global, count: u32, bytes: &[u8]) -> Result<Seq<Run>, NoMemory>
    ensures { IfOk result (λ entries. entries ≡ []) }
{
    let lines = bytes.len() / LEAST_LINE;
    let count = count as usize;
    let room = if count < lines { count } else { lines };
    Ok(Seq::from_vec(Vec::with_capacity(alloc, room)?))
}

/// So many entries from a line on, behind others, and what is behind them.
fn entries_at(
    alloc: Global,
    before: Before,
    count: u32,
    line: u32,
    bytes: &[u8],
) -> Result<(Seq<Run>, &[u8]), TraceFail>
    requires { line + count < 2 ^ 32 }
    ensures { Gives (λ x. (x.0, x.1.now)) result (entries_at before count line bytes.now) }
{
    let mut entries = room_for(alloc, count, bytes)?;
    let mut rest = bytes;
    let mut last = before;
    'entries: for place in 0..count {
        let (entry, after) = entry_at(last, line + place, rest)?;
        entries.push(entry)?;
        last = with_entry(last, entry);
        rest = after;
    }
    Ok((entries, rest))
}

#[tactic(auto, unfolding(crate::specs::Reading::trace_of))]
fn trace_of(alloc: Global, bytes: &[u8]) -> Result<Trace, TraceFail>
    ensures { Gives (λ t. t) result (trace_of bytes.now) }
{
    let (form, rest) = form_at(bytes)?;
    let (turns, rest) = number_at(b"turns ", 1, MOST_TURNS, 2, rest)?;
    let (count, rest) = number_at(count_word(form), 0, u64::from(MOST_ENTRIES), 3, rest)?;
    let count = count as u32;
    let (entries, rest) = entries_at(alloc, none_before(form), count, 4, rest)?;
    let source = fixed_at(b"source", count + 4, rest)?;
    let source = Seq::from_slice(alloc, source)?;
    Ok(Trace {
        turns,
        entries,
        source,
    })
}

/// The trace whose text, in form 1 or form 2, the bytes are; its program is what stands behind the line `source`. Takes
/// room for the lines that are there, whatever number of them the third line tells, and none for the times of an entry.
/// Linear in the bytes.
///
/// # Errors
/// `Malformed` tells the first malformed line, from 1: up to the line `source`, one of another form, one whose number
/// is out of its range, one that is missing, or one that ends without a line feed; in form 2 also the second of two
/// lines of the same entry, and the line with which there are more entries than 1,000,000,001. `NoMemory` is want of
/// memory.
pub fn read(alloc: Global, bytes: &[u8]) -> Result<Trace, TraceFail>
    // The bytes are the text of what is read.
    ensures trace { IfOk result (IsTraceText bytes.now) }
    // The text of a trace is read as that trace, unless memory runs out.
    ensures whole { (t : declared.Trace) → IsTraceText bytes.now t → IsRead t result }
    // The lines before the one that is told begin a trace's text, and with it they begin none.
    ensures malformed { IfErr result (IsCause bytes.now) }
{
    trace_of(alloc, bytes)
}
