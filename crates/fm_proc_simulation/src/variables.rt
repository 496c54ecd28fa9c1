//! What the variables of main hold.

ghost use Rattle.std.specs.Prelude.{◌≡◌, option_map, IfOk, OnOk};
ghost use Rattle.std.specs.Option.{option_copied};
ghost use Rattle.fm_symbols.specs.ByName.{first_of_each, with_new};
ghost use Rattle.fm_mean.specs.Outcome.{shown_by, shown_variables};
ghost use Rattle.fm_gen_relation.specs.Standing.{item_in, values_in};
ghost use Rattle.fm_proc_language.specs.Slots.{port_in};
ghost use Rattle.fm_proc_events.specs.Phases.{proc_of};
ghost use Rattle.fm_proc_simulation.specs.Shown.{body_shown, frame_shown, shown_all};

use fm_base::{NoMemory, Seq};
use fm_code::{Body, Frame};
use fm_finmap::NameMap;
use fm_mean::{Shown, ShownVariable};
use fm_plain_frame::variables_of;
use fm_proc_events::Process;
use fm_proc_slots::Slots;
use fm_rules::Program;
use fm_run::variables_in_order;
use fm_shown::{channels, own_frame, part, truths};
use fm_symbols::Variable;
use fm_tree::Kind;
use std::alloc::Global;

// What a variable holds, element after element.
fn shown(
    alloc: Global,
    slots: &Slots,
    variable: &Variable,
    memory: &[i64],
) -> Result<Shown, NoMemory>
    ensures { IfOk result (λ s. s ≡ shown_by variable.now.kind (item_in (port_in slots.now) memory.now variable.now)) }
{
    let words = part(memory, variable.first as usize, variable.words as usize);
    match &variable.kind {
        Kind::Integer => Ok(Shown::Numbers(Seq::from_slice(alloc, words)?)),
        Kind::Logical => Ok(Shown::Truths(truths(alloc, words)?)),
        Kind::In(_) => Ok(Shown::Ports(channels(alloc, slots, words)?)),
        Kind::Out(_) => Ok(Shown::Ports(channels(alloc, slots, words)?)),
    }
}

// Of two variables of a name the first counts.
fn put_shown(
    alloc: Global,
    all: &mut NameMap<Shown>,
    slots: &Slots,
    variable: &Variable,
    memory: &[i64],
) -> Result<(), NoMemory>
    ensures { OnOk result (all.new
        ≡ with_new all.old variable.now.name
        (shown_by variable.now.kind (item_in (port_in slots.now) memory.now variable.now))) }
{
    if all.contains_key(&variable.name) {
        return Ok(());
    }
    let name = variable.name.copy(alloc)?;
    all.insert(name, shown(alloc, slots, variable, memory)?)?;
    Ok(())
}

fn by_name(
    alloc: Global,
    slots: &Slots,
    variables: &[Variable],
    memory: &[i64],
) -> Result<NameMap<Shown>, NoMemory>
    ensures { IfOk result (λ m. m
        ≡ first_of_each (shown_variables variables.now (values_in (port_in slots.now) variables.now memory.now))) }
{
    let mut all = NameMap::new(alloc);
    'variables: for variable in variables {
        put_shown(alloc, &mut all, slots, variable, memory)?;
    }
    Ok(all)
}

// The variables of a frame.
fn shown_of(
    alloc: Global,
    program: &Program,
    slots: &Slots,
    frame: &Frame,
) -> Result<Vec<ShownVariable>, NoMemory>
    ensures { IfOk result (λ v. v.items ≡ frame_shown program.now slots.now frame.now) }
{
    let variables = variables_of(program, frame.unit);
    let all = by_name(alloc, slots, variables, frame.words.as_slice())?;
    variables_in_order(alloc, all)
}

// The variables of a process.
fn shown_in(
    alloc: Global,
    program: &Program,
    slots: &Slots,
    body: &Option<Body>,
) -> Result<Vec<ShownVariable>, NoMemory>
    ensures { IfOk result (λ v. v.items ≡ body_shown program.now slots.now body.now) }
{
    match body {
        Some(body) => shown_of(alloc, program, slots, own_frame(body)),
        None => Ok(Vec::new(alloc)),
    }
}

/// What the variables of main hold, in byte order of their names.
pub(crate) fn shown_all(
    alloc: Global,
    program: &Program,
    main: Option<&Process>,
) -> Result<Vec<ShownVariable>, NoMemory>
    ensures { IfOk result (λ v. v.items ≡ shown_all program.now (option_map proc_of (option_copied main.entry))) }
{
    match main {
        Some(process) => shown_in(alloc, program, &process.slots, &process.body),
        None => Ok(Vec::new(alloc)),
    }
}
