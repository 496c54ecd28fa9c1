//! Where blocks are joined.

ghost use Rattle.std.specs.Prelude.{◌≡◌, ◌+◌, ◌<◌, length, slice_get};
ghost use Rattle.fm_code_kinds.specs.Leading.{goes, is_begin, is_join, meet_begins, meet_joins};
ghost use Rattle.fm_verify_unit.specs.Along.{addresses};
ghost use Rattle.fm_verify_unit.specs.Leads.{led};
ghost use Rattle.fm_verify.specs.Tests.{join_stands, joins_from, joins_stand, none_joins};

use fm_code::{Entry, Instr, Meet};
use fm_verify_unit::{Leads, leads_of};

/// Whether it begins a block.
fn is_begin(instr: Instr) -> bool
    ensures { result ≡ is_begin instr }
{
    match instr {
        Instr::Meet(instr) => meet_begins(instr),
        Instr::Eval(_) | Instr::Build(_) | Instr::End(_) => false,
    }
}

fn meet_begins(instr: Meet) -> bool
    ensures { result ≡ meet_begins instr }
{
    match instr {
        Meet::Begin(_) => true,
        Meet::Stop
        | Meet::Send(_)
        | Meet::Receive(_)
        | Meet::ReceiveOr(_, _)
        | Meet::Channel(_)
        | Meet::ChannelFrom(_)
        | Meet::Merger(_)
        | Meet::EndChannel(_)
        | Meet::MovePort(_)
        | Meet::Probe(_)
        | Meet::Join(_) => false,
    }
}

/// Whether it joins one.
fn is_join(instr: Option<Instr>) -> bool
    ensures { result ≡ is_join instr }
{
    match instr {
        Some(Instr::Meet(instr)) => meet_joins(instr),
        Some(Instr::Eval(_) | Instr::Build(_) | Instr::End(_)) | None => false,
    }
}

fn meet_joins(instr: Meet) -> bool
    ensures { result ≡ meet_joins instr }
{
    match instr {
        Meet::Join(_) => true,
        Meet::Stop
        | Meet::Send(_)
        | Meet::Receive(_)
        | Meet::ReceiveOr(_, _)
        | Meet::Channel(_)
        | Meet::ChannelFrom(_)
        | Meet::Merger(_)
        | Meet::EndChannel(_)
        | Meet::MovePort(_)
        | Meet::Probe(_)
        | Meet::Begin(_) => false,
    }
}

/// Whether the instruction at an address joins a block.
fn joins_at(code: &[Instr], at: usize) -> bool
    ensures { result ≡ is_join (slice_get code.now at) }
{
    is_join(code.get(at).copied())
}

/// Whether none of these addresses is that of a join.
fn none_joins(code: &[Instr], to: Leads) -> bool
    ensures { result ≡ none_joins code.now (led to) }
{
    match to {
        Leads::Nowhere => true,
        Leads::To(one) => !joins_at(code, one as usize),
        Leads::Either(one, other) => {
            !joins_at(code, one as usize) && !joins_at(code, other as usize)
        }
    }
}

/// Whether a begin has its join behind it, and nothing else leads to one.
fn join_stands(code: &[Instr], at: usize, instr: Instr) -> bool
    requires { at < length code.now }
    ensures { result ≡ join_stands code.now at instr }
{
    if is_begin(instr) {
        return joins_at(code, at + 1);
    }
    match instr {
        Instr::Eval(_) | Instr::Build(_) => !joins_at(code, at + 1),
        Instr::End(_) | Instr::Meet(_) => none_joins(code, leads_of(instr)),
    }
}

/// Whether that is so of each instruction.
fn all_stand(code: &[Instr]) -> bool
    ensures { result ≡ joins_from code.now 0 code.now }
{
    'code: for at in 0..code.len() {
        if !join_stands(code, at, code[at]) {
            return false;
        }
    }
    true
}

/// Whether no statement of the source begins at a join.
fn begin_at_none(code: &[Instr], entries: &[Entry]) -> bool
    ensures { result ≡ none_joins code.now (addresses entries.now) }
{
    'entries: for entry in entries {
        if joins_at(code, entry.address as usize) {
            return false;
        }
    }
    true
}

/// Whether joins stand behind the begins of their blocks, and nowhere else.
pub(crate) fn joins_stand(code: &[Instr], entries: &[Entry]) -> bool
    ensures { result ≡ joins_stand code.now (addresses entries.now) }
{
    all_stand(code) && begin_at_none(code, entries)
}
