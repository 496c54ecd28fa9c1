//! Tests of a form.

ghost use Rattle.std.specs.Prelude.{◌≡◌};
ghost use Rattle.fm_tree.specs.Labels.{jump_label};
ghost use Rattle.fm_tree.specs.Layout.{is_closed_by, is_this_label};
ghost use Rattle.fm_tree.specs.Structure.{is_block_if, is_else, is_end, is_executable, is_separator, makes_processes, terminal_label};
ghost use Rattle.fm_tree.specs.Units.{stands_outside};

use crate::entry_mark::Open;
use crate::form::Form;
use fm_base::Label;

/// Whether a statement of a form is an executable one.
pub fn is_executable(form: Form) -> bool
    ensures { result ≡ is_executable form }
{
    !matches!(
        form,
        Form::Heading(_) | Form::Declaration | Form::Processors
    )
}

/// Whether a form is END.
pub fn is_end(form: Form) -> bool
    ensures { result ≡ is_end form }
{
    matches!(form, Form::End)
}

/// Whether a form opens an IF-block.
pub fn is_block_if(form: Form) -> bool
    ensures { result ≡ is_block_if form }
{
    matches!(form, Form::BlockIf)
}

/// Whether a form is ELSE.
pub fn is_else(form: Form) -> bool
    ensures { result ≡ is_else form }
{
    matches!(form, Form::Else(_))
}

/// Whether a form is ELSE IF or ELSE.
pub fn is_separator(form: Form) -> bool
    ensures { result ≡ is_separator form }
{
    matches!(form, Form::ElseIf(_) | Form::Else(_))
}

/// Whether a form opens a block in which processes are called.
pub fn makes_processes(form: Form) -> bool
    ensures { result ≡ makes_processes form }
{
    matches!(form, Form::Processes | Form::Wrap | Form::ProcessDo(_))
}

/// The label that GOTO or `END=` names.
pub fn jump_label(form: Form) -> Option<Label>
    ensures { result ≡ jump_label form }
{
    match form {
        Form::Goto(label) => Some(label),
        Form::Receive(label) => label,
        _ => None,
    }
}

fn terminal_label(form: Form) -> Option<Label>
    ensures { result ≡ terminal_label form }
{
    match form {
        Form::Do(label) => label,
        Form::ProcessDo(label) => label,
        _ => None,
    }
}

fn is_this_label(label: Label, other: Option<Label>) -> bool
    ensures { result ≡ is_this_label label other }
{
    match other {
        Some(other) => label.0 == other.0,
        None => false,
    }
}

/// Whether a block is a loop with this label.
pub fn is_closed_by(label: Option<Label>, block: Open) -> bool
    ensures { result ≡ is_closed_by label block }
{
    match label {
        Some(label) => is_this_label(label, terminal_label(block.form)),
        None => false,
    }
}

/// Whether an entry of a form stands outside the block that is innermost before it.
pub fn stands_outside(form: Form, block: Open) -> bool
    ensures { result ≡ stands_outside form block }
{
    let ends_if = is_block_if(block.form);
    match form {
        Form::ElseIf(fits) => fits,
        Form::Else(fits) => fits,
        Form::EndIf => ends_if,
        _ => false,
    }
}
