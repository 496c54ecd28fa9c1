//! What words of a process show.

ghost use Rattle.std.specs.Prelude.{◌≡◌, map, option_map, take, drop, IfOk};
ghost use Rattle.fm_base.specs.Channels.{channel_of};
ghost use Rattle.fm_values.specs.Values.{is_truth};
ghost use Rattle.fm_gen_relation.specs.Standing.{port_by};
ghost use Rattle.fm_proc_language.specs.Slots.{no_port, port_in};
ghost use Rattle.fm_shown.specs.Outcome.{channels_in};

use fm_base::{ChanName, NoMemory, Path, Seq};
use fm_proc_slots::Slots;
use fm_values::is_truth;
use std::alloc::Global;

/// So many words from this one on, as far as they go.
pub fn part(words: &[i64], first: usize, count: usize) -> &[i64]
    ensures { result.now ≡ take count (drop first words.now) }
{
    let (_, rest) = words.split_at(first.min(words.len()));
    let (part, _) = rest.split_at(count.min(rest.len()));
    part
}

/// Words as truths.
pub fn truths(alloc: Global, words: &[i64]) -> Result<Seq<bool>, NoMemory>
    ensures { IfOk result (λ s. s ≡ map is_truth words.now) }
{
    let mut all = Seq::new(alloc);
    'words: for word in words {
        all.push(is_truth(*word))?;
    }
    Ok(all)
}

// The channel that is shown where no port stands in a slot.
fn no_channel(alloc: Global) -> ChanName
    ensures { result ≡ channel_of no_port }
{
    ChanName {
        maker: Path::main(alloc),
        number: 0,
    }
}

fn channel_at(alloc: Global, slots: &Slots, word: i64) -> Result<ChanName, NoMemory>
    ensures { IfOk result (λ c. c ≡ channel_of (port_in slots.now word)) }
{
    match slots.port(word) {
        Some(port) => port.channel().copy(alloc),
        None => Ok(no_channel(alloc)),
    }
}

fn channel_in(alloc: Global, slots: &Slots, word: i64) -> Result<Option<ChanName>, NoMemory>
    ensures { IfOk result (λ c. c ≡ option_map channel_of (port_by (port_in slots.now) word)) }
{
    if word == 0 {
        return Ok(None);
    }
    Ok(Some(channel_at(alloc, slots, word)?))
}

/// The channels of port words, none where one is NULL.
pub fn channels(
    alloc: Global,
    slots: &Slots,
    words: &[i64],
) -> Result<Seq<Option<ChanName>>, NoMemory>
    ensures { IfOk result (λ s. s ≡ channels_in slots.now words.now) }
{
    let mut all = Seq::new(alloc);
    'words: for word in words {
        all.push(channel_in(alloc, slots, *word)?)?;
    }
    Ok(all)
}
