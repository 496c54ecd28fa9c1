//! The lines of a report.

ghost use Rattle.std.specs.Prelude.{◌≡◌, ◌++◌, List, ℕ, OnOk};
ghost use Rattle.fm_report.specs.Report.{ended_line, channel_or_null, truth_text, shown_text, variable_line, fault_line, at_text, for_text, wait_line, cycle_line, turns_line};

use crate::several::{HasText, push_behind_blanks, push_spaced};
use fm_base::{ChanName, NoMemory, Path, Seq};
use fm_mean::{At, FaultAt, OutputLine, Shown, ShownVariable, Wait};
use std::alloc::Global;

impl HasText for OutputLine {
    ghost text = { λ l. ended_line l.bytes };

    fn push_text(&self, _alloc: Global, out: &mut Vec<u8>) -> Result<(), NoMemory> {
        out.extend_from_slice(self.bytes.as_slice())?;
        out.push(b'\n')?;
        Ok(())
    }
}

impl HasText for i64 {
    ghost use Rattle.std.specs.Fmt.{signed_decimal};

    ghost text = { signed_decimal };

    fn push_text(&self, alloc: Global, out: &mut Vec<u8>) -> Result<(), NoMemory> {
        out.extend_from_slice(self.to_string(alloc)?.as_bytes())?;
        Ok(())
    }
}

impl HasText for bool {
    ghost text = { truth_text };

    fn push_text(&self, _alloc: Global, out: &mut Vec<u8>) -> Result<(), NoMemory> {
        out.push(if *self { b'T' } else { b'F' })?;
        Ok(())
    }
}

impl HasText for Option<ChanName> {
    ghost text = { channel_or_null };

    fn push_text(&self, alloc: Global, out: &mut Vec<u8>) -> Result<(), NoMemory> {
        match self {
            Some(channel) => out.extend_from_slice(&channel.text(alloc)?)?,
            None => out.extend_from_slice(b"NULL")?,
        }
        Ok(())
    }
}

fn push_shown(alloc: Global, out: &mut Vec<u8>, shown: &Shown) -> Result<(), NoMemory>
    ensures { OnOk result (out.new.items ≡ out.old.items ++ shown_text shown.now) }
{
    match shown {
        Shown::Numbers(numbers) => push_spaced::<i64>(alloc, out, numbers.as_slice()),
        Shown::Truths(truths) => push_spaced::<bool>(alloc, out, truths.as_slice()),
        Shown::Ports(ports) => push_spaced::<Option<ChanName>>(alloc, out, ports.as_slice()),
    }
}

impl HasText for ShownVariable {
    ghost text = { variable_line };

    fn push_text(&self, alloc: Global, out: &mut Vec<u8>) -> Result<(), NoMemory> {
        out.extend_from_slice(b"var ")?;
        out.extend_from_slice(self.name.as_bytes())?;
        out.extend_from_slice(b" = ")?;
        push_shown(alloc, out, &self.shown)?;
        out.push(b'\n')?;
        Ok(())
    }
}

impl HasText for FaultAt {
    ghost text = { fault_line };

    fn push_text(&self, alloc: Global, out: &mut Vec<u8>) -> Result<(), NoMemory> {
        out.extend_from_slice(b"fault ")?;
        out.extend_from_slice(&self.path.text(alloc)?)?;
        out.extend_from_slice(b" line ")?;
        out.extend_from_slice(self.line.0.to_string(alloc)?.as_bytes())?;
        out.push(b' ')?;
        out.extend_from_slice(self.fault.name())?;
        out.push(b'\n')?;
        Ok(())
    }
}

fn push_at(alloc: Global, out: &mut Vec<u8>, at: &At) -> Result<(), NoMemory>
    ensures { OnOk result (out.new.items ≡ out.old.items ++ at_text at.now) }
{
    match at {
        At::Receive(channel) => {
            out.extend_from_slice(b"receive ")?;
            out.extend_from_slice(&channel.text(alloc)?)?;
        }
        At::Join(_) => out.extend_from_slice(b"join")?,
    }
    Ok(())
}

fn push_for(alloc: Global, out: &mut Vec<u8>, on: &Option<Path>) -> Result<(), NoMemory>
    ensures { OnOk result (out.new.items ≡ out.old.items ++ for_text on.now) }
{
    match on {
        Some(path) => out.extend_from_slice(&path.text(alloc)?)?,
        None => out.extend_from_slice(b"nobody")?,
    }
    Ok(())
}

/// Puts the line of a wait last, with whom it is for.
pub(crate) fn push_wait(
    alloc: Global,
    out: &mut Vec<u8>,
    wait: &Wait,
    on: &Option<Path>,
) -> Result<(), NoMemory>
    ensures { OnOk result (out.new.items ≡ out.old.items ++ wait_line wait.now on.now) }
{
    out.extend_from_slice(b"wait ")?;
    out.extend_from_slice(&wait.path.text(alloc)?)?;
    out.extend_from_slice(b" line ")?;
    out.extend_from_slice(wait.line.0.to_string(alloc)?.as_bytes())?;
    out.push(b' ')?;
    push_at(alloc, out, &wait.at)?;
    out.extend_from_slice(b" for ")?;
    push_for(alloc, out, on)?;
    out.push(b'\n')?;
    Ok(())
}

impl HasText for Path {
    ghost use Rattle.fm_base.specs.Texts.{path_text};

    ghost text = { path_text };

    fn push_text(&self, alloc: Global, out: &mut Vec<u8>) -> Result<(), NoMemory> {
        out.extend_from_slice(&self.text(alloc)?)?;
        Ok(())
    }
}

/// Puts the line of a cycle last.
fn push_cycle(alloc: Global, out: &mut Vec<u8>, paths: &[Path]) -> Result<(), NoMemory>
    ensures { OnOk result (out.new.items ≡ out.old.items ++ cycle_line paths.now) }
{
    out.extend_from_slice(b"cycle")?;
    push_behind_blanks::<Path>(alloc, out, paths)?;
    out.push(b'\n')?;
    Ok(())
}

impl HasText for Seq<Path> {
    ghost text = { cycle_line };

    fn push_text(&self, alloc: Global, out: &mut Vec<u8>) -> Result<(), NoMemory> {
        push_cycle(alloc, out, self.as_slice())
    }
}

/// Puts the line of the cost last. The cost is in turns.
pub(crate) fn push_turns(alloc: Global, out: &mut Vec<u8>, used: u64) -> Result<(), NoMemory>
    ensures { OnOk result (out.new.items ≡ out.old.items ++ turns_line used) }
{
    out.extend_from_slice(b"turns ")?;
    out.extend_from_slice(used.to_string(alloc)?.as_bytes())?;
    out.push(b'\n')?;
    Ok(())
}
