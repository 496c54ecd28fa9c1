//! How a body goes on at another statement.

ghost use Rattle.std.specs.Prelude.{◌≡◌, slice_set};
ghost use Rattle.fm_code.specs.Statements.{with_words};

use fm_code::Body;
use fm_proc_slots::set_word;

/// The innermost frame goes on at a statement.
pub fn set_address(body: &mut Body, next: u32)
    ensures { body.new ≡ with_words body.old next body.old.frame.words }
{
    body.frame.address = next;
    body.frame.results.clear();
}

/// A word is put, and the innermost frame goes on at a statement.
pub(crate) fn put_and_set_address(body: &mut Body, number: u32, word: i64, next: u32)
    ensures { body.new ≡ with_words body.old next (slice_set body.old.frame.words number word) }
{
    set_word(&mut body.frame.words, number as usize, word);
    set_address(body, next);
}
