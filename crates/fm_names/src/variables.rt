//! The variables of a unit and their layout.

ghost use Rattle.std.specs.Prelude.{◌≡◌, ◌+◌, IfOk, OnOk, unwrap_or, false};
ghost use Rattle.std.specs.FinMap.{get};
ghost use Rattle.fm_tree.specs.declared.port_type.Kind.TheVariants.{Integer};
ghost use Rattle.fm_names.specs.Layouts.{with_variable};
ghost use Rattle.fm_rules.specs.Variables.{all_words, bounds_by, is_variable, laid_out, variable, variables_among, words_of};

use fm_base::{Name, NoMemory, Seq};
use fm_finmap::NameMap;
use fm_names_declared::is_other_function;
use fm_rules::{Occurrence, Sheet};
use fm_symbols::Variable;
use fm_tree::{Kind, Stmt};
use std::alloc::Global;

/// Variables one behind the other, and all their words.
#[derive(Drop)]
pub struct Layout {
    pub variables: Seq<Variable>,
    pub words: u32,
}

/// Whether a name that stands in the unit with this heading is a variable.
pub(crate) fn is_variable(
    titles: &NameMap<bool>,
    heading: &Stmt,
    sheet: &Sheet,
    name: &Name,
) -> bool
    ensures { result ≡ is_variable titles.now heading.now sheet.now name.now }
{
    !(sheet.known.contains_key(name) || is_other_function(titles, heading, name))
}

/// The words of a variable.
pub(crate) fn words_of(sheet: &Sheet, name: &Name) -> u32
    ensures { result ≡ words_of sheet.now name.now }
{
    match sheet.arrays.get(name) {
        Some(array) => array.words,
        None => 1,
    }
}

fn bounds_in(alloc: Global, sheet: &Sheet, name: &Name) -> Result<Seq<(i64, i64)>, NoMemory>
    ensures { IfOk result (λ b. b ≡ bounds_by (get sheet.now.arrays name.now)) }
{
    match sheet.arrays.get(name) {
        Some(array) => Seq::from_slice(alloc, array.bounds.as_slice()),
        None => Ok(Seq::new(alloc)),
    }
}

fn kind_of(sheet: &Sheet, name: &Name) -> Result<Kind, NoMemory>
    ensures { IfOk result (λ k. k ≡ unwrap_or (get sheet.now.kinds name.now) Integer) }
{
    match sheet.kinds.get(name) {
        Some(kind) => kind.share(),
        None => Ok(Kind::Integer),
    }
}

fn formal_of(sheet: &Sheet, name: &Name) -> u32
    ensures { result ≡ unwrap_or (get sheet.now.formals name.now) 0 }
{
    match sheet.formals.get(name).copied() {
        Some(number) => number,
        None => 0,
    }
}

fn input_of(sheet: &Sheet, name: &Name) -> bool
    ensures { result ≡ unwrap_or (get sheet.now.inputs name.now) false }
{
    match sheet.inputs.get(name).copied() {
        Some(input) => input,
        None => false,
    }
}

fn variable(alloc: Global, sheet: &Sheet, first: u32, name: &Name) -> Result<Variable, NoMemory>
    ensures { IfOk result (λ v. v ≡ variable sheet.now first name.now) }
{
    Ok(Variable {
        name: name.copy(alloc)?,
        kind: kind_of(sheet, name)?,
        bounds: bounds_in(alloc, sheet, name)?,
        first,
        words: words_of(sheet, name),
        formal: formal_of(sheet, name),
        input: input_of(sheet, name),
    })
}

fn sum_of(words: u32, more: u32) -> Result<u32, NoMemory>
    ensures { IfOk result (λ n. n ≡ words + more) }
{
    if more <= 4294967295 - words {
        Ok(words + more)
    } else {
        Err(NoMemory)
    }
}

fn add_variable(
    alloc: Global,
    titles: &NameMap<bool>,
    heading: &Stmt,
    sheet: &Sheet,
    occurrence: &Occurrence,
    layout: &mut Layout,
) -> Result<(), NoMemory>
    ensures { OnOk result (layout.new ≡ with_variable titles.now heading.now sheet.now layout.old occurrence.now) }
{
    let name = &occurrence.name;
    if !is_variable(titles, heading, sheet, name) {
        return Ok(());
    }
    let words = sum_of(layout.words, words_of(sheet, name))?;
    layout
        .variables
        .push(variable(alloc, sheet, layout.words, name)?)?;
    layout.words = words;
    Ok(())
}

/// The variables among the names that stand in the unit with this heading, one behind the other.
pub(crate) fn lay_out(
    alloc: Global,
    titles: &NameMap<bool>,
    heading: &Stmt,
    sheet: &Sheet,
    first: &[Occurrence],
) -> Result<Layout, NoMemory>
    ensures variables { IfOk result
        (λ l. l.variables ≡ laid_out sheet.now 0 (variables_among titles.now heading.now sheet.now first.now)) }
    ensures words { IfOk result
        (λ l. l.words ≡ all_words sheet.now (variables_among titles.now heading.now sheet.now first.now)) }
{
    let mut layout = Layout {
        variables: Seq::new(alloc),
        words: 0,
    };
    'first: for occurrence in first {
        add_variable(alloc, titles, heading, sheet, occurrence, &mut layout)?;
    }
    Ok(layout)
}
