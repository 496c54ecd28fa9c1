//! Laying out: the entries that the statements of a unit make.

ghost use Rattle.std.specs.Prelude.{◌≡◌, ◌++◌, [], ◌∷◌, reverse, IfOk, IfSome};
ghost use Rattle.std.specs.Option.{option_to_list};
ghost use Rattle.fm_tree.specs.declared.form.Bracket.TheVariants as Bracket;
ghost use Rattle.fm_tree.specs.Blocks.{behind, head_of};
ghost use Rattle.fm_tree.specs.Structure.{bracket_of, contained_form, form_of, is_process_loop, is_wrap, terminal_of};
ghost use Rattle.fm_tree.specs.Layout.{closing, end_form, fitted, is_parallel, label_left, laid_out, marks_of, may_part, own_behind, own_forms, with_ends, with_opener, with_statement, ends_behind};
ghost use Rattle.fm_unit_structure.specs.Steps.{next_end};

use crate::blocks::{follow, last_of};
use fm_base::{Label, Line, NoMemory};
use fm_tree::{
    Bracket, EntryMark, Form, Open, Placed, Terminal, bracket_of, contained_form, form_of,
    is_block_if, is_closed_by, makes_processes, terminal_of,
};
use std::alloc::Global;

fn is_process_loop(form: Form) -> bool
    ensures { result ≡ is_process_loop form }
{
    matches!(form, Form::ProcessDo(_))
}

fn is_wrap(form: Form) -> bool
    ensures { result ≡ is_wrap form }
{
    matches!(form, Form::Wrap)
}

fn may_part(inner: Option<Open>) -> bool
    ensures { result ≡ may_part inner }
{
    match inner {
        Some(block) => is_block_if(block.form) && !block.has_else,
        None => false,
    }
}

fn is_parallel(inner: Option<Open>) -> bool
    ensures { result ≡ is_parallel inner }
{
    match inner {
        Some(block) => makes_processes(block.form),
        None => false,
    }
}

fn fitted(form: Form, inner: Option<Open>) -> Form
    ensures { result ≡ fitted form inner }
{
    match form {
        Form::ElseIf(_) => Form::ElseIf(may_part(inner)),
        Form::Else(_) => Form::Else(may_part(inner)),
        other => other,
    }
}

/// The forms of a statement's own entries, by the innermost open block.
fn own_forms(form: Form, contained: Option<Form>, inner: Option<Open>) -> (Form, Option<Form>)
    ensures { own_forms form contained inner ≡ result.0 ∷ option_to_list result.1 }
{
    match contained {
        Some(second) => (form, Some(second)),
        None => {
            if is_process_loop(form) && !is_parallel(inner) {
                (Form::Wrap, Some(form))
            } else {
                (fitted(form, inner), None)
            }
        }
    }
}

#[tactic(auto, unfolding(fm_tree::specs::Structure::bracket_of))]
fn end_form(terminal: Terminal, label: Option<Label>, block: Open) -> Option<Form>
    ensures value { result ≡ end_form terminal label block }
    ensures closes { IfSome result (λ f. bracket_of f ≡ Bracket.Closes) }
{
    if is_wrap(block.form) {
        return Some(Form::EndWrap);
    }
    if is_closed_by(label, block) {
        return Some(Form::LoopEnd(terminal));
    }
    None
}

fn next_end(stack: &[Open], terminal: Terminal, label: Option<Label>) -> Option<Form>
    ensures value { result ≡ next_end terminal label (reverse stack.now) }
    ensures closes { IfSome result (λ f. bracket_of f ≡ Bracket.Closes) }
{
    match last_of(stack) {
        Some(block) => end_form(terminal, label, block),
        None => None,
    }
}

/// Adds an entry, and follows the open blocks over it.
fn add(
    entries: &mut Vec<EntryMark>,
    stack: &mut Vec<Open>,
    entry: EntryMark,
) -> Result<(), NoMemory>
    requires { reverse stack.old.items ≡ behind entries.old.items }
    ensures entries { IfOk result (λ _. entries.new.items ≡ entries.old.items ++ entry ∷ []) }
    ensures stack { IfOk result (λ _. reverse stack.new.items ≡ behind entries.new.items) }
{
    let at = entries.len();
    entries.push(entry)?;
    follow(stack, at, entry.form)?;
    Ok(())
}

/// Adds the ends of the loops with a label and of blocks round a lone PROCESSDO, from the innermost on. The first has
/// the tag as its label; what is left of the tag is given back.
fn close_loops(
    entries: &mut Vec<EntryMark>,
    stack: &mut Vec<Open>,
    terminal: Terminal,
    label: Option<Label>,
    line: Line,
    tag: Option<Label>,
    place: usize,
) -> Result<Option<Label>, NoMemory>
    requires { reverse stack.old.items ≡ behind entries.old.items }
    ensures entries { IfOk result (λ _. entries.new.items
        ≡ entries.old.items ++ marks_of line tag place (closing terminal label (behind entries.old.items))) }
    ensures stack { IfOk result (λ _. reverse stack.new.items ≡ behind entries.new.items) }
    ensures left { IfOk result (λ left. left ≡ label_left tag (closing terminal label (behind entries.old.items))) }
{
    let mut left = tag;
    'ends: while let Some(form) = next_end(stack, terminal, label) {
        let end = EntryMark {
            line,
            label: left,
            form,
            place,
        };
        add(entries, stack, end)?;
        left = None;
    }
    Ok(left)
}

/// Adds one or two entries of a statement. The first has the label.
fn add_both(
    entries: &mut Vec<EntryMark>,
    stack: &mut Vec<Open>,
    first: EntryMark,
    second: Option<Form>,
) -> Result<(), NoMemory>
    requires { reverse stack.old.items ≡ behind entries.old.items }
    ensures entries { IfOk result (λ _. entries.new.items
        ≡ entries.old.items ++ marks_of first.line first.label first.place (first.form ∷ option_to_list second)) }
    ensures stack { IfOk result (λ _. reverse stack.new.items ≡ behind entries.new.items) }
{
    add(entries, stack, first)?;
    match second {
        None => Ok(()),
        Some(form) => add(
            entries,
            stack,
            EntryMark {
                line: first.line,
                label: None,
                form,
                place: first.place,
            },
        ),
    }
}

/// Adds the entries that a statement itself is.
fn add_own(
    entries: &mut Vec<EntryMark>,
    stack: &mut Vec<Open>,
    placed: &Placed,
    label: Option<Label>,
    place: usize,
) -> Result<(), NoMemory>
    requires { reverse stack.old.items ≡ behind entries.old.items }
    ensures entries { IfOk result (λ _. entries.new.items ≡ own_behind placed.now label place entries.old.items) }
    ensures stack { IfOk result (λ _. reverse stack.new.items ≡ behind entries.new.items) }
{
    let form = form_of(&placed.stmt);
    let (first, second) = own_forms(form, contained_form(&placed.stmt), last_of(stack));
    let mark = EntryMark {
        line: placed.line,
        label,
        form: first,
        place,
    };
    add_both(entries, stack, mark, second)
}

/// Adds the ends behind a statement.
fn add_ends(
    entries: &mut Vec<EntryMark>,
    stack: &mut Vec<Open>,
    placed: &Placed,
    tag: Option<Label>,
    place: usize,
) -> Result<Option<Label>, NoMemory>
    requires { reverse stack.old.items ≡ behind entries.old.items }
    ensures entries { IfOk result (λ _. entries.new.items
        ≡ entries.old.items ++ marks_of placed.now.line tag place (ends_behind placed.now (behind entries.old.items))) }
    ensures stack { IfOk result (λ _. reverse stack.new.items ≡ behind entries.new.items) }
    ensures left { IfOk result (λ left. left ≡ label_left tag (ends_behind placed.now (behind entries.old.items))) }
{
    let terminal = terminal_of(form_of(&placed.stmt));
    close_loops(
        entries,
        stack,
        terminal,
        placed.label,
        placed.line,
        tag,
        place,
    )
}

/// Adds an opener, behind the ends of the loops that it closes.
fn add_opener(
    entries: &mut Vec<EntryMark>,
    stack: &mut Vec<Open>,
    placed: &Placed,
    place: usize,
) -> Result<(), NoMemory>
    requires { reverse stack.old.items ≡ behind entries.old.items }
    ensures entries { IfOk result (λ _. entries.new.items
        ≡ with_opener entries.old.items place placed.now (ends_behind placed.now (behind entries.old.items))) }
    ensures stack { IfOk result (λ _. reverse stack.new.items ≡ behind entries.new.items) }
{
    let left = add_ends(entries, stack, placed, placed.label, place)?;
    add_own(entries, stack, placed, left, place)
}

/// Adds a statement that is no opener, and the ends of the loops that it closes.
fn add_other(
    entries: &mut Vec<EntryMark>,
    stack: &mut Vec<Open>,
    placed: &Placed,
    place: usize,
) -> Result<(), NoMemory>
    requires { reverse stack.old.items ≡ behind entries.old.items }
    ensures entries { IfOk result (λ _. entries.new.items
        ≡ with_ends (own_behind placed.now placed.now.label place entries.old.items) place placed.now) }
    ensures stack { IfOk result (λ _. reverse stack.new.items ≡ behind entries.new.items) }
{
    add_own(entries, stack, placed, placed.label, place)?;
    add_ends(entries, stack, placed, None, place)?;
    Ok(())
}

/// Adds a statement that does this to the open blocks.
fn add_by(
    bracket: Bracket,
    entries: &mut Vec<EntryMark>,
    stack: &mut Vec<Open>,
    placed: &Placed,
    place: usize,
) -> Result<(), NoMemory>
    requires { reverse stack.old.items ≡ behind entries.old.items }
    ensures entries { IfOk result (λ _. entries.new.items ≡ with_statement bracket entries.old.items place placed.now) }
    ensures stack { IfOk result (λ _. reverse stack.new.items ≡ behind entries.new.items) }
{
    match bracket {
        Bracket::Opens => add_opener(entries, stack, placed, place),
        Bracket::Closes => add_other(entries, stack, placed, place),
        Bracket::Parts => add_other(entries, stack, placed, place),
        Bracket::Stays => add_other(entries, stack, placed, place),
    }
}

/// The entries of a unit of these statements. Fails only for want of memory.
pub fn lay_out(alloc: Global, statements: &[Placed]) -> Result<Vec<EntryMark>, NoMemory>
    ensures { IfOk result (λ v. v.items ≡ laid_out statements.now) }
{
    let mut entries = Vec::new(alloc);
    let mut stack = Vec::new(alloc);
    'statements: for place in 0..statements.len() {
        let placed = &statements[place];
        let bracket = bracket_of(form_of(&placed.stmt));
        add_by(bracket, &mut entries, &mut stack, placed, place)?;
    }
    Ok(entries)
}
