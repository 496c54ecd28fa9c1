//! What the variables of main hold.

ghost use Rattle.std.specs.Prelude.{◌≡◌, map, option_map, slice_get, IfOk, OnOk};
ghost use Rattle.std.specs.Option.{option_copied};
ghost use Rattle.fm_symbols.specs.ByName.{first_of_each, with_new};
ghost use Rattle.fm_proc_events.specs.Phases.{proc_of};
ghost use Rattle.fm_execute_image.specs.Outcome.{body_shown, cell_shown, cells_in, cells_shown, frame_shown, own_words, shown_all, words_shown};

use fm_base::{NoMemory, Seq};
use fm_code::{Body, Frame};
use fm_finmap::NameMap;
use fm_mean::{Shown, ShownVariable};
use fm_object::{Cell, Image};
use fm_proc_events::Process;
use fm_proc_slots::Slots;
use fm_run::variables_in_order;
use fm_shown::{channels, own_frame, part, truths};
use std::alloc::Global;

// What words of this kind show.
#[tactic(auto, using(crate::proofs::PortWords::ports_from))]
fn shown(alloc: Global, slots: &Slots, kind: u32, words: &[i64]) -> Result<Shown, NoMemory>
    ensures { IfOk result (λ s. s ≡ words_shown kind slots.now words.now) }
{
    match kind {
        0 => Ok(Shown::Numbers(Seq::from_slice(alloc, words)?)),
        1 => Ok(Shown::Truths(truths(alloc, words)?)),
        _ => Ok(Shown::Ports(channels(alloc, slots, words)?)),
    }
}

// Of two variables of a name the first counts.
fn put_cell(
    alloc: Global,
    all: &mut NameMap<Shown>,
    slots: &Slots,
    words: &[i64],
    cell: &Cell,
) -> Result<(), NoMemory>
    ensures { OnOk result (all.new
        ≡ with_new all.old cell.now.name (words_shown cell.now.kind slots.now (own_words words.now cell.now))) }
{
    if all.contains_key(&cell.name) {
        return Ok(());
    }
    let name = cell.name.copy(alloc)?;
    let own = part(words, cell.first as usize, cell.words as usize);
    all.insert(name, shown(alloc, slots, cell.kind, own)?)?;
    Ok(())
}

fn by_name(
    alloc: Global,
    slots: &Slots,
    words: &[i64],
    cells: &[Cell],
) -> Result<NameMap<Shown>, NoMemory>
    ensures { IfOk result (λ m. m ≡ first_of_each (map (cell_shown slots.now words.now) cells.now)) }
{
    let mut all = NameMap::new(alloc);
    'cells: for cell in cells {
        put_cell(alloc, &mut all, slots, words, cell)?;
    }
    Ok(all)
}

/// What variables hold by the words of a frame, in byte order of their names.
pub fn cells(
    alloc: Global,
    cells: &[Cell],
    slots: &Slots,
    words: &[i64],
) -> Result<Vec<ShownVariable>, NoMemory>
    ensures { IfOk result (λ v. v.items ≡ cells_shown slots.now words.now cells.now) }
{
    let all = by_name(alloc, slots, words, cells)?;
    variables_in_order(alloc, all)
}

// The variables of a unit; none where there is no such unit.
fn cells_of(image: &Image, unit: u32) -> &[Cell]
    ensures { result.now ≡ cells_in (slice_get image.now.units unit) }
{
    match image.units.as_slice().get(unit as usize) {
        Some(unit) => unit.cells.as_slice(),
        None => &[],
    }
}

fn of_frame(
    alloc: Global,
    image: &Image,
    slots: &Slots,
    frame: &Frame,
) -> Result<Vec<ShownVariable>, NoMemory>
    ensures { IfOk result (λ v. v.items ≡ frame_shown image.now slots.now frame.now) }
{
    cells(
        alloc,
        cells_of(image, frame.unit),
        slots,
        frame.words.as_slice(),
    )
}

fn of_body(
    alloc: Global,
    image: &Image,
    slots: &Slots,
    body: &Option<Body>,
) -> Result<Vec<ShownVariable>, NoMemory>
    ensures { IfOk result (λ v. v.items ≡ body_shown image.now slots.now body.now) }
{
    match body {
        Some(body) => of_frame(alloc, image, slots, own_frame(body)),
        None => Ok(Vec::new(alloc)),
    }
}

/// What the variables of main hold, in byte order of their names; nothing where there is no main.
pub fn variables(
    alloc: Global,
    image: &Image,
    main: Option<&Process>,
) -> Result<Vec<ShownVariable>, NoMemory>
    ensures { IfOk result (λ v. v.items ≡ shown_all image.now (option_map proc_of (option_copied main.entry))) }
{
    match main {
        Some(process) => of_body(alloc, image, &process.slots, &process.body),
        None => Ok(Vec::new(alloc)),
    }
}
