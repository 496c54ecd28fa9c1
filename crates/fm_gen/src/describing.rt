//! What code tells of a unit besides its instructions.

ghost use Rattle.std.specs.Prelude.{◌≡◌, ◌+◌, ◌++◌, length, slice_get, IfOk, OnOk};
ghost use Rattle.std.specs.Option.{option_copied};
ghost use Rattle.fm_mean.specs.Calls.{is_formal};
ghost use Rattle.fm_mean.specs.Names.{formal_from};
ghost use Rattle.fm_gen_relation.specs.Sound.{formals_among};
ghost use Rattle.fm_gen.specs.Tables.{address_by};
ghost use Rattle.fm_gen.specs.Units.{entries_at};
ghost use Rattle.fm_gen_relation.specs.Formals.{formal_if, formal_of, formals_of, ports_of, span_of};

use crate::addresses::Addresses;
use crate::storing::is_word;
use fm_base::{NoMemory, Seq};
use fm_code::{Formal, Span};
use fm_plain_frame::formal_place;
use fm_symbols::Variable;
use fm_tree::Entry;
use std::alloc::Global;

fn span_of(variable: &Variable) -> Span
    ensures { result ≡ span_of variable.now }
{
    Span {
        first: variable.first,
        count: variable.words,
    }
}

fn formal_of(variable: &Variable) -> Formal
    ensures { result ≡ formal_of variable.now }
{
    Formal {
        span: span_of(variable),
        port: !is_word(&variable.kind),
        input: variable.input,
    }
}

fn is_formal(variable: &Variable) -> bool
    ensures { result ≡ is_formal variable.now.formal }
{
    variable.formal > 0
}

/// The words of all ports.
pub(crate) fn ports_of(alloc: Global, variables: &[Variable]) -> Result<Seq<Span>, NoMemory>
    ensures { IfOk result (λ s. s ≡ ports_of variables.now) }
{
    let mut ports = Seq::new(alloc);
    'variables: for variable in variables {
        if !is_word(&variable.kind) {
            ports.push(span_of(variable))?;
        }
    }
    Ok(ports)
}

/// How many formals there are.
fn formal_count(variables: &[Variable]) -> Result<u32, NoMemory>
    ensures { IfOk result (λ n. n ≡ length (formals_among variables.now)) }
{
    let mut count = 0u32;
    'variables: for variable in variables {
        if is_formal(variable) {
            count = count.checked_add(1).ok_or(NoMemory)?;
        }
    }
    Ok(count)
}

/// The formal with this number, from 1.
fn numbered(variables: &[Variable], number: u32) -> Option<&Variable>
    ensures { option_copied result ≡ slice_get variables.now (formal_from 0 number variables.now) }
{
    variables.get(formal_place(variables, number))
}

/// Adds the formal with this number, where there is one.
fn add_formal(
    variables: &[Variable],
    number: u32,
    formals: &mut Seq<Formal>,
) -> Result<(), NoMemory>
    ensures { OnOk result
        (formals.new ≡ formals.old ++ formal_if (slice_get variables.now (formal_from 0 number variables.now))) }
{
    match numbered(variables, number) {
        None => Ok(()),
        Some(variable) => formals.push(formal_of(variable)),
    }
}

fn next_number(number: u32) -> Result<u32, NoMemory>
    ensures { IfOk result (λ n. n ≡ number + 1) }
{
    number.checked_add(1).ok_or(NoMemory)
}

/// The formals, by their numbers.
pub(crate) fn formals_of(alloc: Global, variables: &[Variable]) -> Result<Seq<Formal>, NoMemory>
    ensures { IfOk result (λ f. f ≡ formals_of variables.now) }
{
    let mut formals = Seq::new(alloc);
    let mut number = 1u32;
    let mut left = formal_count(variables)?;
    'formals: while left > 0 {
        add_formal(variables, number, &mut formals)?;
        number = next_number(number)?;
        left -= 1;
    }
    Ok(formals)
}

/// The lines of entries and where they begin.
pub(crate) fn entries_at(
    alloc: Global,
    body: &[Entry],
    addresses: Addresses<'_>,
) -> Result<Seq<fm_code::Entry>, NoMemory>
    ensures { IfOk result (λ e. e ≡ entries_at (address_by addresses.entry) 0 body.now) }
{
    let mut entries = Seq::new(alloc);
    let mut number = 0u32;
    'entries: for entry in body {
        let address = addresses.of(number);
        entries.push(fm_code::Entry {
            line: entry.line,
            address,
        })?;
        number = number.checked_add(1).ok_or(NoMemory)?;
    }
    Ok(entries)
}
