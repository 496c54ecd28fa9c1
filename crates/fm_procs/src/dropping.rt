//! What a child still has is let go.

ghost use Rattle.std.specs.Prelude.{◌≡◌, ◌++◌, ◌+◌, ◌≤◌, slice_get, vec_len, vec_capacity};
ghost use Rattle.fm_code.specs.Acts.{span_of};
ghost use Rattle.fm_code.specs.Passing.{live, ports_in};
ghost use Rattle.fm_code.specs.Statements.{ports_of};
ghost use Rattle.fm_proc_language.specs.Slots.{vacated};
ghost use Rattle.fm_proc_language.specs.Processes.{body_words};
ghost use Rattle.fm_procs.specs.Rooms.{Sheds, body_room, frame_room, unit_room, words_by};

use fm_chan::Port;
use fm_code::{Body, Frame, SharedCode, Span, words_of};
use fm_proc_events::ports_at;
use fm_proc_slots::{Slots, vacate_words};

/// Lets go the ports at the words of a span.
fn drop_span(words: &[i64], span: Span, slots: &mut Slots, drops: &mut Vec<Port>)
    requires room { vec_len drops.old + span.count ≤ vec_capacity drops.old }
    ensures sheds { Sheds (live (span_of words.now span)) slots.old drops.old.items slots.new drops.new.items }
    ensures len { vec_len drops.new ≤ vec_len drops.old + span.count }
    ensures capacity { vec_capacity drops.old ≤ vec_capacity drops.new }
{
    vacate_words(slots, words_of(words, span), drops);
}

/// Lets go the ports at the words of a unit.
fn drop_unit(code: &SharedCode, unit: u32, words: &[i64], slots: &mut Slots, drops: &mut Vec<Port>)
    requires room { vec_len drops.old + unit_room code.now unit ≤ vec_capacity drops.old }
    ensures sheds { Sheds (ports_in (ports_of (slice_get code.now.units unit)) words.now) slots.old drops.old.items
        slots.new drops.new.items }
    ensures len { vec_len drops.new ≤ vec_len drops.old + unit_room code.now unit }
    ensures capacity { vec_capacity drops.old ≤ vec_capacity drops.new }
{
    let spans = ports_at(code, unit);
    'spans: for span in spans {
        drop_span(words, *span, slots, drops);
    }
}

/// Lets go the ports of a frame, then those of its starts.
fn drop_frame(code: &SharedCode, frame: &Frame, slots: &mut Slots, drops: &mut Vec<Port>)
    requires room { vec_len drops.old + frame_room code.now frame.now ≤ vec_capacity drops.old }
    ensures sheds { Sheds (words_by code.now frame.now) slots.old drops.old.items slots.new drops.new.items }
    ensures len { vec_len drops.new ≤ vec_len drops.old + frame_room code.now frame.now }
    ensures capacity { vec_capacity drops.old ≤ vec_capacity drops.new }
{
    drop_unit(code, frame.unit, frame.words.as_slice(), slots, drops);
    let starts = frame.starts.as_slice();
    'starts: for start in starts {
        drop_unit(code, start.unit, start.words.as_slice(), slots, drops);
    }
}

/// Lets go all ports of a body, innermost first. Takes no memory.
pub(crate) fn drop_body(body: Body, slots: Slots, drops: &mut Vec<Port>)
    requires room { vec_len drops.old + body_room body ≤ vec_capacity drops.old }
    ensures drops { drops.new.items ≡ drops.old.items ++ vacated slots (body_words body) }
    ensures len { vec_len drops.new ≤ vec_len drops.old + body_room body }
    ensures capacity { vec_capacity drops.old ≤ vec_capacity drops.new }
{
    let mut slots = slots;
    let mut rest = body;
    drop_frame(&rest.code, &rest.frame, &mut slots, drops);
    'frames: while let Some(frame) = rest.below.pop() {
        drop_frame(&rest.code, &frame, &mut slots, drops);
    }
}
