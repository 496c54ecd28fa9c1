//! The cycles.

ghost use Rattle.std.specs.Prelude.{◌≡◌, ◌<◌, ◌∷◌, Some, IfOk, length, map, option_map, slice_index};
ghost use Rattle.std.specs.FinMap.{entries};
ghost use Rattle.std.specs.Option.{option_to_list, IsSome};
ghost use Rattle.fm_graph.specs.Graph.{IsComponents};
ghost use Rattle.fm_wait.specs.Cycles.{cycles_of, others_on_ring};
ghost use Rattle.fm_wait.specs.Places.{is_on_ring, next_places, path_at, place_behind, places_from, IsFirst};

use fm_base::{NoMemory, Path, Seq};
use fm_mean::Outcome;
use std::alloc::Global;
use std::collections::BTreeSet;

fn name_of(names: &[usize], place: usize) -> usize
    requires { place < length names.now }
    ensures { result ≡ slice_index names.now place }
{
    names[place]
}

/// Whether the next place is in the component of a place.
fn is_on_ring(next: &[Option<usize>], names: &[usize], place: usize) -> bool
    requires places { place < length next.now }
    requires names { place < length names.now }
    ensures { result ≡ is_on_ring next.now names.now place }
{
    match next[place] {
        Some(behind) => match names.get(behind) {
            Some(name) => *name == name_of(names, place),
            None => false,
        },
        None => false,
    }
}

/// The next place, where it isn't the start.
fn place_behind(next: &[Option<usize>], start: usize, place: usize) -> Option<usize>
    requires { place < length next.now }
    ensures { result ≡ place_behind next.now start place }
{
    match next[place] {
        Some(behind) => if behind == start { None } else { Some(behind) },
        None => None,
    }
}

/// The paths on the ring of a place, from it on.
fn ring(
    alloc: Global,
    outcome: &Outcome,
    next: &[Option<usize>],
    start: usize,
) -> Result<Seq<Path>, NoMemory>
    requires next { next.now ≡ next_places outcome.now }
    requires first { IsFirst outcome.now start }
    requires ring { IsSome (others_on_ring outcome.now (path_at outcome.now start)) }
    ensures { IfOk result (λ ring. option_map (λ ps. path_at outcome.now start ∷ ps)
        (others_on_ring outcome.now (path_at outcome.now start)) ≡ Some ring) }
{
    let waits = outcome.waits.as_slice();
    let mut ring = Seq::new(alloc);
    ring.push(waits[start].path.copy(alloc)?)?;
    let mut at = place_behind(next, start, start);
    'places: while let Some(place) = at {
        ring.push(waits[place].path.copy(alloc)?)?;
        at = place_behind(next, start, place);
    }
    Ok(ring)
}

/// All cycles, by the components of the graph of who waits for whom and by the waiting paths in order. Of a component
/// that path comes first that is the least one of its ring.
pub(crate) fn all_cycles(
    alloc: Global,
    outcome: &Outcome,
    next: &[Option<usize>],
    names: &[usize],
    order: &[(Path, usize)],
) -> Result<Seq<Seq<Path>>, NoMemory>
    requires next { next.now ≡ next_places outcome.now }
    requires names { IsComponents (map option_to_list next.now) names.now }
    requires order { order.now ≡ entries (places_from outcome.now.waits 0) }
    ensures { IfOk result (λ cycles. cycles ≡ cycles_of outcome.now) }
{
    let mut seen = BTreeSet::new(alloc);
    let mut cycles = Seq::new(alloc);
    'paths: for (_, place) in order {
        let is_first = seen.insert(name_of(names, *place))?;
        if is_first && is_on_ring(next, names, *place) {
            cycles.push(ring(alloc, outcome, next, *place)?)?;
        }
    }
    Ok(cycles)
}
