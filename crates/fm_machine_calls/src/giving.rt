//! What a frame gives back, and the ports that are let go.

ghost use Rattle.std.specs.Prelude.{◌≡◌, ◌++◌, true, false, length, cond, ◌&&◌, [], ◌∷◌, IfOk, IfSome, OnOk};
ghost use Rattle.std.specs.List.{list_any};
ghost use Rattle.fm_code.specs.Acts.{span_of};
ghost use Rattle.fm_code.specs.declared.body.Back.{Back};
ghost use Rattle.fm_code.specs.Passing.{spliced, back_fits, back_words, backs_fit, merged, displaced, got_span, given_span, give, give_all, give_ports, live, is_port, ports_in};
ghost use Rattle.fm_machine_calls.specs.Frames.{given};

use crate::passing::nulls;
use fm_base::{NoMemory, Seq};
use fm_code::{Back, Span, front, given_span, is_port, words_of};
use std::alloc::Global;

fn back_fits(mine: usize, theirs: usize, back: Back) -> bool
    ensures { result ≡ back_fits mine theirs back }
{
    let count = back.words as usize;
    back.to as usize + count <= mine && back.from as usize + count <= theirs
}

/// Whether frames of so many words have what is given back and where it goes.
pub(crate) fn backs_fit(mine: usize, theirs: usize, backs: &[Back]) -> bool
    ensures { result ≡ backs_fit mine theirs backs.now }
{
    'backs: for back in backs {
        if !back_fits(mine, theirs, *back) {
            return false;
        }
    }
    true
}

/// How many words are given back, where all are there and none is a port word.
pub(crate) fn plain_words(mine: usize, theirs: usize, backs: &[Back]) -> Option<u64>
    ensures fit { IfSome result (λ words. backs_fit mine theirs backs.now ≡ true) }
    ensures plain { IfSome result (λ words. list_any (λ (b : Back). b.port) backs.now ≡ false) }
    ensures count { IfSome result (λ words. words ≡ back_words backs.now) }
{
    let mut words: u64 = 0;
    'backs: for back in backs {
        if back.port || !back_fits(mine, theirs, *back) {
            return None;
        }
        words = words.checked_add(u64::from(back.words))?;
    }
    Some(words)
}

/// A port word with another over it, unless that is NULL. A port in whose place that one goes is noted.
fn merge_one(old: i64, new: i64, drops: &mut Seq<i64>) -> Result<i64, NoMemory>
    ensures word { IfOk result (λ w. w ≡ cond (is_port new) new old) }
    ensures drops { IfOk result (λ w. drops.new ≡ drops.old ++ cond (is_port new && is_port old) (old ∷ []) []) }
{
    if !is_port(new) {
        return Ok(old);
    }
    if is_port(old) {
        drops.push(old)?;
    }
    Ok(new)
}

/// Port words with those over them that aren't NULL; the ports in whose places these go are noted.
fn merge(
    alloc: Global,
    mine: &[i64],
    theirs: &[i64],
    drops: &mut Seq<i64>,
) -> Result<Seq<i64>, NoMemory>
    requires { length mine.now ≡ length theirs.now }
    ensures merged { IfOk result (λ ws. ws ≡ merged mine.now theirs.now) }
    ensures drops { IfOk result (λ ws. drops.new ≡ drops.old ++ displaced mine.now theirs.now) }
    ensures size { IfOk result (λ ws. length ws ≡ length mine.now) }
{
    let mut words = Seq::new(alloc);
    let mut mine = mine;
    let mut theirs = theirs;
    'words: while let Some((old, mine_behind)) = front(mine) {
        let Some((new, theirs_behind)) = front(theirs) else {
            break;
        };
        words.push(merge_one(old, new, drops)?)?;
        mine = mine_behind;
        theirs = theirs_behind;
    }
    Ok(words)
}

fn got_span(back: Back) -> Span
    ensures { result ≡ got_span back }
{
    Span {
        first: back.to,
        count: back.words,
    }
}

fn give_words(back: Back, mine: &mut Seq<i64>, theirs: &Seq<i64>)
    requires { back_fits (length mine.old) (length theirs.now) back ≡ true }
    ensures gives { mine.new ≡ spliced mine.old back.to (span_of theirs.now (given_span back)) }
    ensures mine { length mine.new ≡ length mine.old }
{
    let words = words_of(theirs.as_slice(), given_span(back));
    mine.put(back.to as usize, words);
}

fn give_ports(
    alloc: Global,
    back: Back,
    mine: &mut Seq<i64>,
    theirs: &mut Seq<i64>,
    drops: &mut Seq<i64>,
) -> Result<(), NoMemory>
    requires { back_fits (length mine.old) (length theirs.old) back ≡ true }
    ensures gives { OnOk result
        (give_ports back (given mine.old theirs.old drops.old) ≡ given mine.new theirs.new drops.new) }
    ensures mine { OnOk result (length mine.new ≡ length mine.old) }
    ensures theirs { OnOk result (length theirs.new ≡ length theirs.old) }
{
    let nulls = nulls(alloc, back.words)?;
    let old = words_of(mine.as_slice(), got_span(back));
    let new = words_of(theirs.as_slice(), given_span(back));
    let words = merge(alloc, old, new, drops)?;
    mine.put(back.to as usize, words.as_slice());
    theirs.put(back.from as usize, nulls.as_slice());
    Ok(())
}

fn give_one(
    alloc: Global,
    back: Back,
    mine: &mut Seq<i64>,
    theirs: &mut Seq<i64>,
    drops: &mut Seq<i64>,
) -> Result<(), NoMemory>
    requires { back_fits (length mine.old) (length theirs.old) back ≡ true }
    ensures gives { OnOk result
        (give back (given mine.old theirs.old drops.old) ≡ given mine.new theirs.new drops.new) }
    ensures mine { OnOk result (length mine.new ≡ length mine.old) }
    ensures theirs { OnOk result (length theirs.new ≡ length theirs.old) }
{
    if back.port {
        give_ports(alloc, back, mine, theirs, drops)
    } else {
        give_words(back, mine, theirs);
        Ok(())
    }
}

/// All is given back in order, and the ports in whose places others go are noted.
pub fn give_all(
    alloc: Global,
    backs: &[Back],
    mine: &mut Seq<i64>,
    theirs: &mut Seq<i64>,
    drops: &mut Seq<i64>,
) -> Result<(), NoMemory>
    requires { backs_fit (length mine.old) (length theirs.old) backs.now ≡ true }
    ensures gives { OnOk result
        (give_all backs.now (given mine.old theirs.old drops.old) ≡ given mine.new theirs.new drops.new) }
{
    'backs: for back in backs {
        give_one(alloc, *back, mine, theirs, drops)?;
    }
    Ok(())
}

/// Words are given back in order, where none of them is a port word. Takes no memory.
pub fn give_plain(backs: &[Back], mine: &mut Seq<i64>, theirs: &Seq<i64>)
    requires fit { backs_fit (length mine.old) (length theirs.now) backs.now ≡ true }
    requires plain { list_any (λ (b : Back). b.port) backs.now ≡ false }
    ensures { mine.new ≡ (give_all backs.now (given mine.old theirs.now [])).mine }
{
    'backs: for back in backs {
        give_words(*back, mine, theirs);
    }
}

fn push_live(words: &[i64], ports: &mut Seq<i64>) -> Result<(), NoMemory>
    ensures { OnOk result (ports.new ≡ ports.old ++ live words.now) }
{
    'words: for word in words {
        if is_port(*word) {
            ports.push(*word)?;
        }
    }
    Ok(())
}

/// Adds the ports among these words.
pub(crate) fn push_ports(
    spans: &[Span],
    words: &[i64],
    ports: &mut Seq<i64>,
) -> Result<(), NoMemory>
    ensures { OnOk result (ports.new ≡ ports.old ++ ports_in spans.now words.now) }
{
    'spans: for span in spans {
        push_live(words_of(words, *span), ports)?;
    }
    Ok(())
}
