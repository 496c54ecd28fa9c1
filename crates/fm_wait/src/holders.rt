//! Whom a process waits for.

ghost use Rattle.std.specs.Prelude.{◌≡◌, IfOk, map, option_map};
ghost use Rattle.std.specs.Option.{option_copied};
ghost use Rattle.std.specs.FinMap.{get};
ghost use Rattle.fm_base.specs.PathOrder.{channel_cmp};
ghost use Rattle.fm_base.specs.declared.path.ChanName.{ChanName};
ghost use Rattle.fm_finmap.specs.Map.{map_of};
ghost use Rattle.fm_wait.specs.Waits.{lesser, least_holder, waits_for, MatchAt};

use fm_base::{ChanName, NoMemory, Path};
use fm_finmap::Map;
use fm_mean::{At, Holder, Outcome};
use std::alloc::Global;

/// The one of the lesser writer, and the first one where both are of one writer.
fn lesser<'a>(holder: &'a Holder, other: Option<&'a Holder>) -> &'a Holder
    ensures { result.now ≡ lesser holder.entry.now (option_copied other.entry) }
{
    match other {
        Some(other) => {
            if holder.writer <= other.writer {
                holder
            } else {
                other
            }
        }
        None => holder,
    }
}

/// For each channel the entry of the least writer that is named.
fn least_holders<'a>(
    alloc: Global,
    holders: &'a [Holder],
) -> Result<Map<ChanName, &'a Holder>, NoMemory>
    ensures { IfOk result (λ m. (c : ChanName)
        → option_map (λ h. h.now) (get (map_of channel_cmp m) c) ≡ least_holder c holders.entry.now) }
{
    let mut least = Map::new(alloc);
    // from the back, so that of two entries for one writer the first one stays
    'holders: for k in (0..holders.len()).rev() {
        let holder = &holders[k];
        let channel = holder.channel.copy(alloc)?;
        let kept = lesser(holder, least.get(&channel).copied());
        least.insert(channel, kept)?;
    }
    Ok(least)
}

/// Whom one waits for that waits so.
fn waited_for(
    alloc: Global,
    least: &Map<ChanName, &Holder>,
    at: &At,
) -> Result<Option<Path>, NoMemory>
    ensures { IfOk result (λ p. MatchAt at.now
        (λ c. p ≡ option_map (λ h. h.now.path) (get (map_of channel_cmp least.now) c)) (λ child. p ≡ Some child)) }
{
    match at {
        At::Receive(channel) => match least.get(channel) {
            Some(holder) => Ok(Some(holder.path.copy(alloc)?)),
            None => Ok(None),
        },
        At::Join(child) => Ok(Some(child.copy(alloc)?)),
    }
}

/// For each wait, in the order of the waits, whom it is for.
pub(crate) fn all_waited_for(
    alloc: Global,
    outcome: &Outcome,
) -> Result<Vec<Option<Path>>, NoMemory>
    ensures { IfOk result (λ on. on.items ≡ map (waits_for outcome.now) outcome.now.waits) }
{
    let least = least_holders(alloc, outcome.holders.as_slice())?;
    let mut on = Vec::new(alloc);
    'waits: for wait in outcome.waits.as_slice() {
        on.push(waited_for(alloc, &least, &wait.at)?)?;
    }
    Ok(on)
}
