//! The end of a process: its own frame stays with what is kept, and all other ports are discarded, the innermost first.

ghost use Rattle.std.specs.Prelude.{◌≡◌, [], cond, slice_get, true};
ghost use Rattle.fm_code.specs.Acts.{span_of};
ghost use Rattle.fm_code.specs.Passing.{live, ports_in};
ghost use Rattle.fm_code.specs.Statements.{ports_of};
ghost use Rattle.fm_code.specs.declared.ask.Ask.TheVariants as ask;
ghost use Rattle.fm_machine_calls.specs.declared.looking.Look.TheVariants.{Asks};
ghost use Rattle.fm_chan.specs.Bodies.{chans_of};
ghost use Rattle.fm_chan.specs.Woken.{WakesAll};
ghost use Rattle.fm_proc_language.specs.Frames.{kept, nulled};
ghost use Rattle.fm_proc_language.specs.Processes.{ended_frame, formals_in};
ghost use Rattle.fm_proc_events.specs.Discards.{all_discarded};
ghost use Rattle.fm_proc_events.specs.Phases.{proc_of};
ghost use Rattle.fm_proc_events.specs.Told.{is_running, look_of};
ghost use Rattle.fm_proc_events.specs.Performs.{Performs};
ghost use Rattle.fm_procs.specs.Rooms.{starts_words, words_by};

use fm_base::{Path, Seq};
use fm_chan::Channels;
use fm_code::{Body, Frame, SharedCode, Span, Start, words_of};
use fm_proc_events::{Phase, Process, discard_words, formals_at, ports_at};
use fm_proc_slots::{Slots, is_kept, null_span, rise};

/// Discards the ports at the words of a unit.
fn discard_unit(
    code: &SharedCode,
    unit: u32,
    words: &[i64],
    slots: &mut Slots,
    channels: &mut Channels,
)
    ensures gone { (slots.new, chans_of channels.new)
        ≡ all_discarded slots.old (chans_of channels.old)
        (ports_in (ports_of (slice_get code.now.units unit)) words.now) }
    ensures waking { WakesAll channels.old channels.new }
{
    let spans = ports_at(code, unit);
    'spans: for span in spans {
        discard_words(slots, words_of(words, *span), channels);
    }
}

/// Discards the ports of starts.
fn discard_starts(code: &SharedCode, starts: &[Start], slots: &mut Slots, channels: &mut Channels)
    ensures gone { (slots.new, chans_of channels.new)
        ≡ all_discarded slots.old (chans_of channels.old) (starts_words code.now starts.now) }
    ensures waking { WakesAll channels.old channels.new }
{
    'starts: for start in starts {
        discard_unit(code, start.unit, start.words.as_slice(), slots, channels);
    }
}

/// Discards the ports of a frame, then those of its starts.
fn discard_frame(code: &SharedCode, frame: &Frame, slots: &mut Slots, channels: &mut Channels)
    ensures gone { (slots.new, chans_of channels.new)
        ≡ all_discarded slots.old (chans_of channels.old) (words_by code.now frame.now) }
    ensures waking { WakesAll channels.old channels.new }
{
    discard_unit(code, frame.unit, frame.words.as_slice(), slots, channels);
    discard_starts(code, frame.starts.as_slice(), slots, channels);
}

/// Leaves all frames but the process's own, and discards their ports.
fn end_calls(body: &mut Body, slots: &mut Slots, channels: &mut Channels)
    ensures frame { (ended_frame body.old body.new.frame []).0
        ≡ (ended_frame body.old body.old.frame body.old.below).0 }
    ensures gone { all_discarded slots.new (chans_of channels.new) (ended_frame body.old body.new.frame []).1
        ≡ all_discarded slots.old (chans_of channels.old) (ended_frame body.old body.old.frame body.old.below).1 }
    ensures body { body.new ≡ record body.old { frame = body.new.frame; below = [] } }
    ensures waking { WakesAll channels.old channels.new }
{
    'frames: while let Some(frame) = body.below.pop() {
        discard_frame(&body.code, &body.frame, slots, channels);
        body.frame = frame;
    }
}

/// Discards the ports of a span and puts NULL in their places, unless they stay.
fn end_span(
    stays: bool,
    words: &mut Seq<i64>,
    span: Span,
    slots: &mut Slots,
    channels: &mut Channels,
)
    ensures words { words.new ≡ cond stays words.old (nulled words.old span) }
    ensures gone { (slots.new, chans_of channels.new)
        ≡ all_discarded slots.old (chans_of channels.old) (cond stays [] (live (span_of words.old span))) }
    ensures waking { WakesAll channels.old channels.new }
{
    if stays {
        return;
    }
    discard_words(slots, words_of(words.as_slice(), span), channels);
    null_span(words, span);
}

/// Discards those ports of a frame that aren't kept, and puts NULL in their places.
fn end_words(
    code: &SharedCode,
    unit: u32,
    words: &mut Seq<i64>,
    slots: &mut Slots,
    channels: &mut Channels,
)
    ensures words { words.new
        ≡ (kept (formals_in (slice_get code.now.units unit)) (ports_of (slice_get code.now.units unit)) words.old).0 }
    ensures gone { (slots.new, chans_of channels.new)
        ≡ all_discarded slots.old (chans_of channels.old)
        (kept (formals_in (slice_get code.now.units unit)) (ports_of (slice_get code.now.units unit)) words.old).1 }
    ensures waking { WakesAll channels.old channels.new }
{
    let formals = formals_at(code, unit);
    let rising = rise(formals);
    let spans = ports_at(code, unit);
    'spans: for span in spans {
        let stays = is_kept(formals, rising, *span);
        end_span(stays, words, *span, slots, channels);
    }
}

/// Ends the process's own frame: only the ports that are kept stay.
fn end_frame(body: &mut Body, slots: &mut Slots, channels: &mut Channels)
    ensures body { body.new ≡ record body.old { frame = (ended_frame body.old body.old.frame []).0 } }
    ensures gone { (slots.new, chans_of channels.new)
        ≡ all_discarded slots.old (chans_of channels.old) (ended_frame body.old body.old.frame []).1 }
    ensures waking { WakesAll channels.old channels.new }
{
    end_words(
        &body.code,
        body.frame.unit,
        &mut body.frame.words,
        slots,
        channels,
    );
    discard_starts(&body.code, body.frame.starts.as_slice(), slots, channels);
    body.frame.results.clear();
    body.frame.starts.clear();
}

/// The process ends. Takes no memory.
pub(crate) fn end(path: &Path, process: &mut Process, channels: &mut Channels)
    requires look { look_of (proc_of process.old) ≡ Asks ask.End }
    requires running { is_running (proc_of process.old) ≡ true }
    ensures performs { Performs path.now (proc_of process.old) (chans_of channels.old) (proc_of process.new) []
        (chans_of channels.new) 1 }
    ensures waking { WakesAll channels.old channels.new }
{
    let Some(body) = &mut process.body else {
        unreachable!()
    };
    end_calls(body, &mut process.slots, channels);
    end_frame(body, &mut process.slots, channels);
    process.phase = Phase::Ended;
}
