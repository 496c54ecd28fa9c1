//! Words of frames: their spans, and those that name a port or are given back.

ghost use Rattle.std.specs.Prelude.{◌≡◌, [], ◌∷◌, IfOk, MatchOption};
ghost use Rattle.fm_code.specs.Acts.{span_of};
ghost use Rattle.fm_code.specs.Passing.{back_words, given_span, is_port};
ghost use Rattle.fm_code.specs.Statements.{word_at};

use crate::body::Back;
use crate::code::Span;
use fm_base::NoMemory;

/// The first of a list, and the rest.
pub fn front<T: Copy>(items: &[T]) -> Option<(T, &[T])>
    ensures { MatchOption result (items.now ≡ []) (λ f. items.now ≡ f.0 ∷ f.1.now) }
{
    let (first, rest) = items.split_first()?;
    Some((*first, rest))
}

/// The word of a frame, or 0 where there is none.
pub fn word_at(words: &[i64], number: usize) -> i64
    ensures { result ≡ word_at words.now number }
{
    match words.get(number) {
        Some(word) => *word,
        None => 0,
    }
}

/// The words of a span, as far as they are there.
pub fn words_of(words: &[i64], span: Span) -> &[i64]
    ensures { result.now ≡ span_of words.now span }
{
    let (_, from) = words.split_at(words.len().min(span.first as usize));
    let (there, _) = from.split_at(from.len().min(span.count as usize));
    there
}

/// Whether a word names a slot.
pub fn is_port(word: i64) -> bool
    ensures { result ≡ is_port word }
{
    word != 0
}

/// The words of the frame that gives back.
pub fn given_span(back: Back) -> Span
    ensures { result ≡ given_span back }
{
    Span {
        first: back.from,
        count: back.words,
    }
}

/// How many words may be given back.
pub fn back_words(backs: &[Back]) -> Result<u64, NoMemory>
    ensures { IfOk result (λ n. n ≡ back_words backs.now) }
{
    let mut words: u64 = 0;
    'backs: for back in backs {
        words = words.checked_add(u64::from(back.words)).ok_or(NoMemory)?;
    }
    Ok(words)
}
