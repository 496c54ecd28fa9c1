//! Where the statements of a unit begin, and its loops.

ghost use Rattle.std.specs.Prelude.{◌≡◌, map};
ghost use Rattle.fm_image_typed.specs.Shapes.{loop_in, loop_of, loops_of};
ghost use Rattle.fm_verify_unit.specs.Along.{addresses};
ghost use Rattle.fm_verify.specs.Tests.{begin_at_first, is_entered, rise_from};

use fm_code::{Build, Entry, Instr};
use fm_object::UnitImage;

/// Whether the first statement begins where the code does.
fn begin_at_first(entries: &[Entry]) -> bool
    ensures { result ≡ begin_at_first (addresses entries.now) }
{
    match entries.first() {
        Some(entry) => entry.address == 0,
        None => false,
    }
}

/// Whether each begins behind the one before.
fn rise(entries: &[Entry]) -> bool
    ensures { result ≡ rise_from 0 (addresses entries.now) }
{
    let mut low = 0u64;
    'entries: for entry in entries {
        let address = u64::from(entry.address);
        if address < low {
            return false;
        }
        low = address + 1;
    }
    true
}

/// The loops that an instruction that builds asks for.
fn loop_in(instr: Build) -> u64
    ensures { result ≡ loop_in instr }
{
    match instr {
        Build::Loop(counts) => u64::from(counts.number) + 1,
        Build::Letter(_)
        | Build::ShowText
        | Build::Show
        | Build::ShowTruth
        | Build::ShowWords(_)
        | Build::ShowTruths(_)
        | Build::PassValue
        | Build::PassWords(_)
        | Build::PassPorts(_)
        | Build::PassWordAt
        | Build::PassPortAt
        | Build::Status
        | Build::Location(_)
        | Build::Submachine
        | Build::Cut(_, _) => 0,
    }
}

/// The loops that an instruction asks for.
fn loop_of(instr: Instr) -> u64
    ensures { result ≡ loop_of instr }
{
    match instr {
        Instr::Build(instr) => loop_in(instr),
        Instr::Eval(_) | Instr::End(_) | Instr::Meet(_) => 0,
    }
}

/// How many loops a frame has.
pub fn loops_of(code: &[Instr]) -> u64
    ensures { result ≡ loops_of code.now }
{
    let mut most = 0u64;
    'places: for place in (0..code.len()).rev() {
        most = loop_of(code[place]).max(most);
    }
    most
}

/// Whether the statements begin one behind the other, the first with the code, and there are no more loops than
/// statements.
pub(crate) fn is_entered(unit: &UnitImage) -> bool
    ensures { result ≡ is_entered unit.now }
{
    let entries = unit.entries.as_slice();
    begin_at_first(entries)
        && (rise(entries) && loops_of(unit.code.as_slice()) <= entries.len() as u64)
}
