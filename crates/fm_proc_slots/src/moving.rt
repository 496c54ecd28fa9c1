//! Ports go over from the slots of one process to those of another.

ghost use Rattle.std.specs.Prelude.{◌≡◌, ◌∷◌, []};
ghost use Rattle.fm_proc_language.specs.Frames.{moved_over};
ghost use Rattle.fm_proc_slots.specs.Moves.{word_moved};
ghost use Rattle.fm_proc_slots.specs.Rooms.{HasRoom, LeavesRoom, slots_in, span_words};

use crate::open::OpenSlots;
use crate::words::set_word;
use fm_base::Seq;
use fm_code::{Span, word_at, words_of};

/// The port of one port word comes to other slots, and the word names its slot there.
fn move_word(words: &mut Seq<i64>, number: usize, from: &mut OpenSlots, to: &mut OpenSlots)
    requires from { HasRoom from.old 1 }
    requires to { HasRoom to.old 1 }
    ensures moved { (words.new, (slots_in from.new, slots_in to.new))
        ≡ word_moved number words.old (slots_in from.old) (slots_in to.old) }
    ensures from { LeavesRoom 1 from.old from.new }
    ensures to { LeavesRoom 1 to.old to.new }
{
    let port = from.take(word_at(words.as_slice(), number));
    let word = to.put_any(port);
    set_word(words, number, word);
}

/// The ports of one span come to other slots, word by word.
fn move_span(span: Span, words: &mut Seq<i64>, from: &mut OpenSlots, to: &mut OpenSlots)
    requires from { HasRoom from.old span.count }
    requires to { HasRoom to.old span.count }
    ensures moved { (words.new, (slots_in from.new, slots_in to.new))
        ≡ moved_over (span ∷ []) words.old (slots_in from.old) (slots_in to.old) }
    ensures from { LeavesRoom span.count from.old from.new }
    ensures to { LeavesRoom span.count to.old to.new }
{
    let there = words_of(words.as_slice(), span).len();
    'words: for index in 0..there {
        move_word(words, span.first as usize + index, from, to);
    }
}

/// The ports of these spans come to other slots, one after the other, and their words name those. Takes no memory.
pub fn move_over(spans: &[Span], words: &mut Seq<i64>, from: &mut OpenSlots, to: &mut OpenSlots)
    requires from { HasRoom from.old (span_words spans.now) }
    requires to { HasRoom to.old (span_words spans.now) }
    ensures moved { (words.new, (slots_in from.new, slots_in to.new))
        ≡ moved_over spans.now words.old (slots_in from.old) (slots_in to.old) }
    ensures from { LeavesRoom (span_words spans.now) from.old from.new }
{
    'spans: for span in spans {
        move_span(*span, words, from, to);
    }
}
