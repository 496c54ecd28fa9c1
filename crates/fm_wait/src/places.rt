//! The waiting processes by the places of their waits.

ghost use Rattle.std.specs.Prelude.{◌≡◌, IfOk, map};
ghost use Rattle.std.specs.FinMap.{entries};
ghost use Rattle.std.specs.Option.{option_to_list};
ghost use Rattle.fm_base.specs.PathOrder.{path_cmp};
ghost use Rattle.fm_finmap.specs.Map.{map_of};
ghost use Rattle.fm_wait.specs.Places.{place_of, places_from};

use fm_base::{NoMemory, Path, Seq};
use fm_finmap::Map;
use fm_mean::Wait;
use std::alloc::Global;

/// The waiting paths, each with the place of its first wait.
pub(crate) fn first_places(alloc: Global, waits: &[Wait]) -> Result<Map<Path, usize>, NoMemory>
    ensures { IfOk result (λ m. map_of path_cmp m ≡ places_from waits.now 0) }
{
    let mut places = Map::new(alloc);
    'waits: for k in (0..waits.len()).rev() {
        places.insert(waits[k].path.copy(alloc)?, k)?;
    }
    Ok(places)
}

fn place_of(places: &Map<Path, usize>, path: &Option<Path>) -> Option<usize>
    ensures { result ≡ place_of (map_of path_cmp places.now) path.now }
{
    match path {
        Some(path) => places.get(path).copied(),
        None => None,
    }
}

/// For each of these whether it waits, and then its place.
pub(crate) fn all_places(
    alloc: Global,
    places: &Map<Path, usize>,
    paths: &[Option<Path>],
) -> Result<Vec<Option<usize>>, NoMemory>
    ensures { IfOk result (λ v. v.items ≡ map (place_of (map_of path_cmp places.now)) paths.now) }
{
    let mut next = Vec::new(alloc);
    'paths: for path in paths {
        next.push(place_of(places, path))?;
    }
    Ok(next)
}

/// The waiting paths in order, with their places.
pub(crate) fn in_order(
    alloc: Global,
    places: Map<Path, usize>,
) -> Result<Vec<(Path, usize)>, NoMemory>
    ensures { IfOk result (λ v. v.items ≡ entries (map_of path_cmp places)) }
{
    let mut all = Vec::new(alloc);
    'entries: for entry in places {
        all.push(entry)?;
    }
    Ok(all)
}

fn edges(alloc: Global, next: Option<usize>) -> Result<Seq<usize>, NoMemory>
    ensures { IfOk result (λ s. s ≡ option_to_list next) }
{
    let mut edges = Seq::new(alloc);
    if let Some(place) = next {
        edges.push(place)?;
    }
    Ok(edges)
}

/// The graph in which an edge leads from each place to the next one.
pub(crate) fn graph_of(alloc: Global, next: &[Option<usize>]) -> Result<Vec<Seq<usize>>, NoMemory>
    ensures { IfOk result (λ g. g.items ≡ map option_to_list next.now) }
{
    let mut graph = Vec::new(alloc);
    'places: for place in next {
        graph.push(edges(alloc, *place)?)?;
    }
    Ok(graph)
}
