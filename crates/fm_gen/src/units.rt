//! The code of units.

ghost use Rattle.std.specs.Prelude.{◌≡◌, ◌<◌, ◌++◌, [], length, IfOk, OnOk};
ghost use Rattle.fm_mean.specs.Names.{point_at};
ghost use Rattle.fm_plain_frame.specs.Units.{unit_of};
ghost use Rattle.fm_gen.specs.Statements.{loop_numbers};
ghost use Rattle.fm_gen.specs.Entries.{address_of, entries_code, entry_code, starts_of, unit_code};
ghost use Rattle.fm_gen_relation.specs.Frames.{opens_counted};
ghost use Rattle.fm_gen.specs.Tables.{address_by, address_in};
ghost use Rattle.fm_gen.specs.Units.{entries_at, loop_count, unit_of_code};

use crate::addresses::Addresses;
use crate::describing::{entries_at, formals_of, ports_of};
use crate::referring::references;
use crate::statements::{Site, statement};
use fm_base::{NoMemory, Seq};
use fm_code::{Instr, Unit};
use fm_gen_operands::operand;
use fm_plain_frame::UnitView;
use fm_tree::{Entry, Stmt};
use std::alloc::Global;

/// The instructions of a unit, and where each of its entries begins.
#[derive(Drop)]
struct Listing {
    code: Seq<Instr>,
    starts: Seq<u32>,
}

/// The instructions of a unit, and its entries.
#[derive(Drop)]
struct Placed {
    code: Seq<Instr>,
    entries: Seq<fm_code::Entry>,
}

fn opens_counted(entry: &Entry) -> bool
    ensures { result ≡ opens_counted entry.now }
{
    match &entry.stmt {
        Stmt::Do(_) => true,
        Stmt::ProcessDo(_) => true,
        _ => false,
    }
}

fn loop_numbers(alloc: Global, unit: &UnitView<'_>) -> Result<Seq<u32>, NoMemory>
    ensures { IfOk result (λ n. n ≡ loop_numbers 0 (unit_of unit.now).tree.body) }
{
    let mut numbers = Seq::new(alloc);
    let mut number = 0u32;
    let body = unit.tree().body.as_slice();
    'entries: for entry in body {
        numbers.push(number)?;
        if opens_counted(entry) {
            number = number.checked_add(1).ok_or(NoMemory)?;
        }
    }
    Ok(numbers)
}

/// How many counted loops there are.
fn loop_count(body: &[Entry]) -> Result<u32, NoMemory>
    ensures { IfOk result (λ n. n ≡ loop_count body.now) }
{
    let mut count = 0u32;
    'entries: for entry in body {
        if opens_counted(entry) {
            count = count.checked_add(1).ok_or(NoMemory)?;
        }
    }
    Ok(count)
}

/// Adds the code of the entry with this number.
fn entry(
    unit: &UnitView<'_>,
    addresses: Addresses<'_>,
    numbers: &[u32],
    number: u32,
    out: &mut Seq<Instr>,
) -> Result<(), NoMemory>
    requires numbers { numbers.now ≡ loop_numbers 0 (unit_of unit.now).tree.body }
    requires there { number < length (unit_of unit.now).tree.body }
    ensures { OnOk result (out.new
        ≡ out.old
        ++ entry_code unit.now.program.now (unit_of unit.now) (address_by addresses.entry) number
        (point_at (unit_of unit.now) number)) }
{
    match unit.entry(number) {
        None => Ok(()),
        Some((entry, links)) => {
            let begin = addresses.of(number);
            let here = references(unit, &entry.stmt, begin, entry.refs.as_slice(), out)?;
            let site = Site {
                addresses,
                numbers,
                number,
                here,
                entry,
                links,
            };
            statement(unit, &site, out)
        }
    }
}

fn pass(
    alloc: Global,
    unit: &UnitView<'_>,
    addresses: Addresses<'_>,
    numbers: &[u32],
) -> Result<Listing, NoMemory>
    requires { numbers.now ≡ loop_numbers 0 (unit_of unit.now).tree.body }
    ensures code { IfOk result (λ c. c.code
        ≡ entries_code unit.now.program.now (unit_of unit.now) (address_by addresses.entry)
        (length (unit_of unit.now).tree.body)) }
    ensures starts { IfOk result (λ c. c.starts
        ≡ starts_of unit.now.program.now (unit_of unit.now) (address_by addresses.entry)
        (length (unit_of unit.now).tree.body)) }
{
    let mut code = Seq::new(alloc);
    let mut starts = Seq::new(alloc);
    let count = operand(unit.tree().body.len())?;
    'entries: for number in 0..count {
        starts.push(operand(code.len())?)?;
        entry(unit, addresses, numbers, number, &mut code)?;
    }
    Ok(Listing { code, starts })
}

/// No entry begins anywhere yet.
fn nowhere() -> Addresses<'static>
    ensures { address_by result ≡ address_in [] 0 }
{
    Addresses {
        starts: &[],
        end: 0,
    }
}

fn addresses(first: &Listing) -> Result<Addresses<'_>, NoMemory>
    ensures { IfOk result (λ a. address_by a ≡ address_in first.now.starts (length first.now.code)) }
{
    Ok(Addresses {
        starts: first.starts.as_slice(),
        end: operand(first.code.len())?,
    })
}

/// The instructions of a unit and its entries. How long the code of an entry is doesn't depend on where others begin,
/// so a first pass finds where each one does.
fn instructions(alloc: Global, unit: &UnitView<'_>) -> Result<Placed, NoMemory>
    ensures code { IfOk result (λ c. c.code ≡ unit_code unit.now.program.now (unit_of unit.now)) }
    ensures entries { IfOk result (λ c. c.entries
        ≡ entries_at (address_of unit.now.program.now (unit_of unit.now)) 0 (unit_of unit.now).tree.body) }
{
    let numbers = loop_numbers(alloc, unit)?;
    let unplaced = nowhere();
    let first = pass(alloc, unit, unplaced, numbers.as_slice())?;
    let placed = addresses(&first)?;
    let entries = entries_at(alloc, unit.tree().body.as_slice(), placed)?;
    let second = pass(alloc, unit, placed, numbers.as_slice())?;
    Ok(Placed {
        code: second.code,
        entries,
    })
}

/// The code of a unit.
pub(crate) fn unit_of_code(alloc: Global, unit: &UnitView<'_>) -> Result<Unit, NoMemory>
    ensures { IfOk result (λ c. c ≡ unit_of_code unit.now.program.now (unit_of unit.now)) }
{
    let names = unit.names();
    let variables = names.variables.as_slice();
    let ports = ports_of(alloc, variables)?;
    let formals = formals_of(alloc, variables)?;
    let loops = loop_count(unit.tree().body.as_slice())?;
    let extents = Seq::from_slice(alloc, names.extents.as_slice())?;
    let placed = instructions(alloc, unit)?;
    Ok(Unit {
        code: placed.code,
        entries: placed.entries,
        words: names.words,
        ports,
        formals,
        loops,
        extents,
    })
}
