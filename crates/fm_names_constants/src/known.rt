//! The constants of a unit, in the order of its statements.

ghost use Rattle.std.specs.Prelude.{◌≡◌, ◌++◌, IfOk, OnOk};
ghost use Rattle.fm_rules.specs.Constants.{constants_of, entries_from, entries_in, entry_of, value_here, with_definition, with_definitions};
ghost use Rattle.fm_rules.specs.ConstantParts.{definitions_in};

use crate::parts::definitions_in;
use crate::values::value_of;
use fm_base::{Name, NoMemory, Seq};
use fm_finmap::NameMap;
use fm_rules::Known;
use fm_symbols::{Constant, insert_new};
use fm_tree::{Defined, Placed};
use std::alloc::Global;

fn define(
    alloc: Global,
    place: usize,
    item: usize,
    definition: &Defined,
    known: &mut NameMap<Known>,
) -> Result<(), NoMemory>
    ensures { OnOk result (known.new ≡ with_definition known.old place item definition.now) }
{
    let value = value_of(known, place, item, &definition.value);
    insert_new(alloc, known, &definition.name, Known { value, place, item })
}

fn define_all(
    alloc: Global,
    place: usize,
    definitions: &[Defined],
    known: &mut NameMap<Known>,
) -> Result<(), NoMemory>
    ensures { OnOk result (known.new ≡ with_definitions known.old place 0 definitions.now) }
{
    'definitions: for item in 0..definitions.len() {
        define(alloc, place, item, &definitions[item], known)?;
    }
    Ok(())
}

/// The constants of the specification statements of a unit, by their names. The first definition of a name counts.
pub fn constants(alloc: Global, specs: &[Placed]) -> Result<NameMap<Known>, NoMemory>
    ensures { IfOk result (λ m. m ≡ constants_of specs.now) }
{
    let mut known = NameMap::new(alloc);
    'specs: for place in 0..specs.len() {
        define_all(alloc, place, definitions_in(&specs[place].stmt), &mut known)?;
    }
    Ok(known)
}

fn value_here(known: Option<Known>, place: usize, item: usize) -> Option<Constant>
    ensures { result ≡ value_here known place item }
{
    match known {
        Some(known) => {
            if known.place == place && known.item == item {
                known.value
            } else {
                None
            }
        }
        None => None,
    }
}

fn push_entry(
    alloc: Global,
    name: &Name,
    value: Option<Constant>,
    entries: &mut Seq<(Name, Constant)>,
) -> Result<(), NoMemory>
    ensures { OnOk result (entries.new ≡ entries.old ++ entry_of name.now value) }
{
    match value {
        Some(constant) => {
            entries.push((name.copy(alloc)?, constant))?;
            Ok(())
        }
        None => Ok(()),
    }
}

fn push_entries(
    alloc: Global,
    known: &NameMap<Known>,
    place: usize,
    definitions: &[Defined],
    entries: &mut Seq<(Name, Constant)>,
) -> Result<(), NoMemory>
    ensures { OnOk result (entries.new ≡ entries.old ++ entries_in known.now place 0 definitions.now) }
{
    'definitions: for item in 0..definitions.len() {
        let name = &definitions[item].name;
        let value = value_here(known.get(name).copied(), place, item);
        push_entry(alloc, name, value, entries)?;
    }
    Ok(())
}

/// The constants that have a value, each once, in the order of their definitions, of what `constants` answers for the
/// same statements.
pub fn constant_list(
    alloc: Global,
    known: &NameMap<Known>,
    specs: &[Placed],
) -> Result<Seq<(Name, Constant)>, NoMemory>
    ensures { IfOk result (λ v. v ≡ entries_from known.now 0 specs.now) }
{
    let mut entries = Seq::new(alloc);
    'specs: for place in 0..specs.len() {
        let definitions = definitions_in(&specs[place].stmt);
        push_entries(alloc, known, place, definitions, &mut entries)?;
    }
    Ok(entries)
}
