//! The code of statements.

ghost use Rattle.std.specs.Prelude.{◌≡◌, ◌<◌, ◌++◌, length, option_map, slice_get, OnOk};
ghost use Rattle.fm_mean.specs.Actions.{loop_of};
ghost use Rattle.fm_plain_frame.specs.Units.{unit_of};
ghost use Rattle.fm_gen.specs.Statements.{again_code, jump_code, loop_end_code, loop_numbers, receive_code, simple_code, statement_code};
ghost use Rattle.fm_gen_relation.specs.Frames.{loop_number};
ghost use Rattle.fm_gen.specs.Tables.{address_by, point_of};

use crate::addresses::{Addresses, goto};
use crate::asking::{Receiving, channel, close, merger, move_port, probe, receive, send};
use crate::calling::{block, call, end_unit, push_stuck, start};
use crate::looping::{again, begin, test};
use crate::printing::print;
use crate::storing::assignment;
use fm_base::{NoMemory, Seq};
use fm_code::{Instr, Meet};
use fm_plain_frame::UnitView;
use fm_rules::EntryLinks;
use fm_tree::{Entry, Extra, Simple, Stmt, Var};

/// An entry of a unit, and where others are.
#[derive(Clone, Copy)]
pub struct Site<'a> {
    /// Where entries begin.
    pub addresses: Addresses<'a>,
    /// The numbers of loops by the entries that begin them.
    pub numbers: &'a [u32],
    /// The number of the entry.
    pub number: u32,
    /// Where the code of its statement begins.
    pub here: u32,
    /// The entry.
    pub entry: &'a Entry,
    /// Where it leads to.
    pub links: EntryLinks,
}

fn number_at(numbers: &[u32], place: u32) -> Option<u32>
    ensures { result ≡ slice_get numbers.now place }
{
    numbers.get(place as usize).copied()
}

/// The number of the loop that begins at an entry: how many begin before it.
fn loop_number(unit: &UnitView<'_>, numbers: &[u32], entry: u32) -> u32
    requires numbers { numbers.now ≡ loop_numbers 0 (unit_of unit.now).tree.body }
    requires there { entry < length (unit_of unit.now).tree.body }
    ensures { result ≡ loop_number (unit_of unit.now).tree.body entry }
{
    // The numbers are those of this unit.
    let _tree = unit.tree();
    match number_at(numbers, entry) {
        Some(number) => number,
        None => 0,
    }
}

fn jump(addresses: Addresses<'_>, to: Option<u32>, out: &mut Seq<Instr>) -> Result<(), NoMemory>
    ensures { OnOk result (out.new ≡ out.old ++ jump_code (address_by addresses.entry) to) }
{
    match to {
        None => push_stuck(out),
        Some(entry) => out.push(goto(addresses.of(entry))),
    }
}

/// Adds the end of a trip of the loop that the opener begins.
fn end_trip(
    unit: &UnitView<'_>,
    site: &Site<'_>,
    opener: u32,
    begun: &Entry,
    out: &mut Seq<Instr>,
) -> Result<(), NoMemory>
    requires numbers { site.now.numbers.now ≡ loop_numbers 0 (unit_of unit.now).tree.body }
    requires there { opener < length (unit_of unit.now).tree.body }
    ensures { OnOk result (out.new
        ≡ out.old
        ++ again_code (unit_of unit.now) opener (loop_of begun.now.stmt) (address_by site.now.addresses begun.now.after)
        (address_by site.now.addresses site.now.entry.now.after) (address_by site.now.addresses opener)) }
{
    let body = site.addresses.of(begun.after);
    let behind = site.addresses.of(site.entry.after);
    let number = loop_number(unit, site.numbers, opener);
    match &begun.stmt {
        Stmt::Do(head) => again(unit, &head.variable, number, body, behind, out),
        Stmt::ProcessDo(head) => again(unit, &head.variable, number, body, behind, out),
        Stmt::DoWhile(_) => out.push(goto(site.addresses.of(opener))),
        _ => push_stuck(out),
    }
}

fn loop_end(unit: &UnitView<'_>, site: &Site<'_>, out: &mut Seq<Instr>) -> Result<(), NoMemory>
    requires numbers { site.now.numbers.now ≡ loop_numbers 0 (unit_of unit.now).tree.body }
    ensures { OnOk result (out.new
        ≡ out.old
        ++ loop_end_code (unit_of unit.now) (address_by site.now.addresses)
        (address_by site.now.addresses site.now.entry.now.after) site.now.entry.now.mate) }
{
    let Some(opener) = site.entry.mate else {
        return push_stuck(out);
    };
    match unit.tree().body.as_slice().get(opener as usize) {
        None => push_stuck(out),
        Some(begun) => end_trip(unit, site, opener, begun, out),
    }
}

fn at_end(addresses: Addresses<'_>, to: Option<u32>) -> Option<u32>
    ensures { result ≡ option_map (address_by addresses.entry) to }
{
    match to {
        None => None,
        Some(entry) => Some(addresses.of(entry)),
    }
}

fn receive_at(
    unit: &UnitView<'_>,
    site: &Site<'_>,
    port: &Var,
    extras: &[Extra],
    items: &[Var],
    out: &mut Seq<Instr>,
) -> Result<(), NoMemory>
    ensures { OnOk result (out.new
        ≡ out.old
        ++ receive_code unit.now.program.now (unit_of unit.now) port.now extras.now items.now
        (option_map (address_by site.now.addresses) site.now.links.jump)
        (address_by site.now.addresses site.now.entry.now.after)) }
{
    let receiving = Receiving {
        extras,
        items,
        at_end: at_end(site.addresses, site.links.jump),
        next: site.addresses.of(site.entry.after),
    };
    receive(unit, port, receiving, out)
}

fn simple(
    unit: &UnitView<'_>,
    site: &Site<'_>,
    statement: &Simple,
    out: &mut Seq<Instr>,
) -> Result<(), NoMemory>
    ensures { OnOk result (out.new
        ≡ out.old
        ++ simple_code unit.now.program.now (unit_of unit.now) (address_by site.now.addresses) (point_of site.now)
        statement.now) }
{
    let next = site.addresses.of(site.entry.after);
    match statement {
        Simple::Assignment(var, value) => assignment(unit, var, value, next, out),
        Simple::Goto(_) => jump(site.addresses, site.links.jump, out),
        Simple::Continue => out.push(goto(next)),
        Simple::Return => end_unit(unit, out),
        Simple::Stop => out.push(Instr::Meet(Meet::Stop)),
        Simple::Print(items) => print(unit, items.as_slice(), next, out),
        Simple::Write(_, items) => print(unit, items.as_slice(), next, out),
        Simple::Call(name, passed) => call(unit, name, passed, next, out),
        Simple::Channel {
            in_first,
            inport,
            outport,
        } => channel(unit, *in_first, inport, outport, next, out),
        Simple::Merger(inport, outports) => merger(unit, inport, outports.as_slice(), next, out),
        Simple::Send { port, items, .. } => send(unit, port, items.as_slice(), next, out),
        Simple::Receive {
            port,
            extras,
            items,
            ..
        } => receive_at(unit, site, port, extras.as_slice(), items.as_slice(), out),
        Simple::EndChannel { port, .. } => close(unit, port, next, out),
        Simple::MovePort { from, to } => move_port(unit, from, to, next, out),
        Simple::Probe { port, empty, .. } => probe(unit, port, empty, next, out),
    }
}

/// Adds the code of an entry's statement.
pub fn statement(unit: &UnitView<'_>, site: &Site<'_>, out: &mut Seq<Instr>) -> Result<(), NoMemory>
    requires numbers { site.now.numbers.now ≡ loop_numbers 0 (unit_of unit.now).tree.body }
    requires there { site.now.number < length (unit_of unit.now).tree.body }
    ensures { OnOk result (out.new
        ≡ out.old
        ++ statement_code unit.now.program.now (unit_of unit.now) (address_by site.now.addresses) site.now.here
        site.now.number (point_of site.now) site.now.entry.now.stmt) }
{
    let next = site.addresses.of(site.entry.after);
    let other = site.addresses.of(site.links.other);
    let number = loop_number(unit, site.numbers, site.number);
    match &site.entry.stmt {
        Stmt::Simple(statement) => simple(unit, site, statement, out),
        Stmt::LogicalIf(tree, _) => test(unit, tree, next, other, out),
        Stmt::BlockIf(tree) => test(unit, tree, next, other, out),
        Stmt::ElseIf(tree) => test(unit, tree, next, other, out),
        Stmt::DoWhile(tree) => test(unit, tree, next, other, out),
        Stmt::Else => out.push(goto(next)),
        Stmt::EndIf => out.push(goto(next)),
        Stmt::Processes => out.push(goto(next)),
        Stmt::Do(head) => begin(unit, head, number, next, other, out),
        Stmt::ProcessDo(head) => begin(unit, head, number, next, other, out),
        Stmt::EndDo => loop_end(unit, site, out),
        Stmt::EndProcessDo => loop_end(unit, site, out),
        Stmt::LoopEnd => loop_end(unit, site, out),
        Stmt::End => end_unit(unit, out),
        Stmt::EndProcesses => block(site.here, next, out),
        Stmt::ProcessCall(name, part) => start(unit, name, part, next, out),
        _ => push_stuck(out),
    }
}
