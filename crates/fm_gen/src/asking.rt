//! The code of statements on ports.

ghost use Rattle.std.specs.Prelude.{◌≡◌, ◌++◌, IfOk, OnOk};
ghost use Rattle.fm_tree.specs.PortReading.{fields_of, kind_of};
ghost use Rattle.fm_tree.specs.Tree.{trees_from};
ghost use Rattle.fm_plain_frame.specs.Units.{unit_of};
ghost use Rattle.fm_mean.specs.Actions.{fields_at, fields_by};
ghost use Rattle.fm_mean.specs.Referring.{names_in};
ghost use Rattle.fm_code.specs.declared.instr.Instr.TheVariants as instr;
ghost use Rattle.fm_code.specs.declared.instr.Meet.TheVariants as meet;
ghost use Rattle.fm_gen.specs.Statements.{channel_code, close_code, cut_one, cuts_code, extras_code, merger_code, receive_code, receive_end, refs_behind, send_code, two_code};

use fm_base::{NoMemory, Seq};
use fm_code::{Build, Instr, Meet};
use fm_gen_operands::{arguments, place, targets};
use fm_plain_frame::UnitView;
use fm_rules::sizing_place;
use fm_tree::{Expr, Extra, Field, Kind, Var};

/// Adds what cuts the item at a place to what an earlier one says, where one does.
fn cut_one(item: usize, size: Option<usize>, out: &mut Seq<Instr>) -> Result<(), NoMemory>
    ensures { OnOk result (out.new ≡ out.old ++ cut_one item size) }
{
    match size {
        None => Ok(()),
        Some(place) => {
            // The fields of a type are fewer, so that these errors don't come.
            let item = u32::try_from(item).map_err(|_| NoMemory)?;
            let place = u32::try_from(place).map_err(|_| NoMemory)?;
            out.push(Instr::Build(Build::Cut(item, place)))
        }
    }
}

/// Adds what cuts the items for fields that earlier ones size.
fn cuts(fields: &[Field], out: &mut Seq<Instr>) -> Result<(), NoMemory>
    ensures { OnOk result (out.new ≡ out.old ++ cuts_code 0 (fields_of fields.now)) }
{
    let mut item = 0;
    'fields: for field in fields {
        cut_one(item, sizing_place(field.bounds.as_slice()), out)?;
        item += 1;
    }
    Ok(())
}

fn fields_by(kind: &Kind) -> &[Field]
    ensures { fields_of result.now ≡ fields_by (kind_of kind.now) }
{
    match kind {
        Kind::Integer => &[],
        Kind::Logical => &[],
        Kind::In(messages) => messages.as_slice(),
        Kind::Out(messages) => messages.as_slice(),
    }
}

/// The fields of the messages of a port.
fn fields_at<'p>(unit: &UnitView<'p>, port: &Var) -> &'p [Field]
    ensures { fields_of result.now ≡ fields_at (unit_of unit.now) port.now }
{
    match unit.variable(&port.name) {
        None => &[],
        Some((_, variable)) => fields_by(&variable.kind),
    }
}

/// Adds the code of a SEND, behind which the statement at an address is next.
pub(crate) fn send(
    unit: &UnitView<'_>,
    port: &Var,
    items: &[Expr],
    next: u32,
    out: &mut Seq<Instr>,
) -> Result<(), NoMemory>
    ensures { OnOk result
        (out.new ≡ out.old ++ send_code unit.now.program.now (unit_of unit.now) port.now (trees_from items.now) next) }
{
    let references = place(unit, port, 0, out)?;
    arguments(unit, items, references, out)?;
    cuts(fields_at(unit, port), out)?;
    out.push(Instr::Meet(Meet::Send(next)))
}

/// Adds the code of what stands behind the port of a RECEIVE, before which `next` references stand. The number of those
/// before what comes behind it.
fn receive_extras(
    unit: &UnitView<'_>,
    extras: &[Extra],
    next: usize,
    out: &mut Seq<Instr>,
) -> Result<usize, NoMemory>
    ensures code { OnOk result
        (out.new ≡ out.old ++ extras_code unit.now.program.now (unit_of unit.now) extras.now next) }
    ensures next { IfOk result
        (λ k. k ≡ refs_behind (names_in unit.now.program.now (unit_of unit.now)) extras.now next) }
{
    let mut next = next;
    'extras: for extra in extras {
        match extra {
            Extra::End(_) => {}
            Extra::Iostat(var) => {
                next = place(unit, var, next, out)?;
                out.push(Instr::Build(Build::Status))?;
            }
        }
    }
    Ok(next)
}

fn receive_end(at_end: Option<u32>, next: u32) -> Instr
    ensures { result ≡ receive_end at_end next }
{
    match at_end {
        None => Instr::Meet(Meet::Receive(next)),
        Some(to) => Instr::Meet(Meet::ReceiveOr(to, next)),
    }
}

/// What a RECEIVE has behind its port, and where it leads.
#[derive(Clone, Copy)]
pub(crate) struct Receiving<'a> {
    /// What stands behind the port.
    pub(crate) extras: &'a [Extra],
    /// What is filled.
    pub(crate) items: &'a [Var],
    /// The address of the next statement at the end of the channel, where one is told.
    pub(crate) at_end: Option<u32>,
    /// The address of the next statement.
    pub(crate) next: u32,
}

/// Adds the code of a RECEIVE.
pub(crate) fn receive(
    unit: &UnitView<'_>,
    port: &Var,
    receiving: Receiving<'_>,
    out: &mut Seq<Instr>,
) -> Result<(), NoMemory>
    ensures { OnOk result (out.new
        ≡ out.old
        ++ receive_code unit.now.program.now (unit_of unit.now) port.now receiving.entry.extras.now
        receiving.entry.items.now receiving.entry.at_end receiving.entry.next) }
{
    let behind = place(unit, port, 0, out)?;
    let behind = receive_extras(unit, receiving.extras, behind, out)?;
    targets(unit, receiving.items, behind, out)?;
    out.push(receive_end(receiving.at_end, receiving.next))
}

/// Adds the code of two places, one after the other, and what is done with them.
fn two(
    unit: &UnitView<'_>,
    first: &Var,
    second: &Var,
    last: Instr,
    out: &mut Seq<Instr>,
) -> Result<(), NoMemory>
    ensures { OnOk result
        (out.new ≡ out.old ++ two_code unit.now.program.now (unit_of unit.now) first.now second.now last) }
{
    let behind = place(unit, first, 0, out)?;
    place(unit, second, behind, out)?;
    out.push(last)
}

/// Adds the code of a CHANNEL, behind which the statement at an address is next.
pub(crate) fn channel(
    unit: &UnitView<'_>,
    in_first: bool,
    inport: &Var,
    outport: &Var,
    next: u32,
    out: &mut Seq<Instr>,
) -> Result<(), NoMemory>
    ensures { OnOk result (out.new
        ≡ out.old ++ channel_code unit.now.program.now (unit_of unit.now) in_first inport.now outport.now next) }
{
    if in_first {
        two(unit, inport, outport, Instr::Meet(Meet::Channel(next)), out)
    } else {
        two(
            unit,
            outport,
            inport,
            Instr::Meet(Meet::ChannelFrom(next)),
            out,
        )
    }
}

/// Adds the code of a MERGER, behind which the statement at an address is next.
pub(crate) fn merger(
    unit: &UnitView<'_>,
    inport: &Var,
    outports: &[Var],
    next: u32,
    out: &mut Seq<Instr>,
) -> Result<(), NoMemory>
    ensures { OnOk result
        (out.new ≡ out.old ++ merger_code unit.now.program.now (unit_of unit.now) inport.now outports.now next) }
{
    let behind = place(unit, inport, 0, out)?;
    targets(unit, outports, behind, out)?;
    out.push(Instr::Meet(Meet::Merger(next)))
}

/// Adds the code of an ENDCHANNEL, behind which the statement at an address is next.
pub(crate) fn close(
    unit: &UnitView<'_>,
    port: &Var,
    next: u32,
    out: &mut Seq<Instr>,
) -> Result<(), NoMemory>
    ensures { OnOk result (out.new ≡ out.old ++ close_code unit.now.program.now (unit_of unit.now) port.now next) }
{
    place(unit, port, 0, out)?;
    out.push(Instr::Meet(Meet::EndChannel(next)))
}

/// Adds the code of a MOVEPORT, behind which the statement at an address is next.
pub(crate) fn move_port(
    unit: &UnitView<'_>,
    from: &Var,
    to: &Var,
    next: u32,
    out: &mut Seq<Instr>,
) -> Result<(), NoMemory>
    ensures { OnOk result (out.new
        ≡ out.old
        ++ two_code unit.now.program.now (unit_of unit.now) from.now to.now (instr.Meet (meet.MovePort next))) }
{
    two(unit, from, to, Instr::Meet(Meet::MovePort(next)), out)
}

/// Adds the code of a PROBE, behind which the statement at an address is next.
pub(crate) fn probe(
    unit: &UnitView<'_>,
    port: &Var,
    empty: &Var,
    next: u32,
    out: &mut Seq<Instr>,
) -> Result<(), NoMemory>
    ensures { OnOk result (out.new
        ≡ out.old
        ++ two_code unit.now.program.now (unit_of unit.now) port.now empty.now (instr.Meet (meet.Probe next))) }
{
    two(unit, port, empty, Instr::Meet(Meet::Probe(next)), out)
}
