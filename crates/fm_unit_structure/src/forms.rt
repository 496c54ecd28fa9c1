//! What the rules ask of a form.

ghost use Rattle.std.specs.Prelude.{◌≡◌};
ghost use Rattle.fm_rules.specs.StructureForms.{badly_ended, belongs, ends_do, ends_process_do, has_processors, heads_program, is_do, is_process_do, is_processes, misplaced, opener_of, unmatched};

use fm_rules::is_program;
use fm_tree::{Form, Open, Terminal, UnitKind, is_block_if, makes_processes};

#[tactic(auto, unfolding(fm_rules::specs::StructureForms::heads_program))]
fn heads_program(form: Form) -> bool
    ensures { result ≡ heads_program form }
{
    match form {
        Form::Heading(unit) => is_program(unit),
        _ => false,
    }
}

#[tactic(auto, unfolding(fm_rules::specs::StructureForms::has_processors))]
fn has_processors(form: Form) -> bool
    ensures { result ≡ has_processors form }
{
    matches!(form, Form::Heading(UnitKind::Program | UnitKind::Process))
}

/// The form of the opener of the innermost open block; END where no block is open.
pub(crate) fn opener_of(inner: Option<Open>) -> Form
    ensures { result ≡ opener_of inner }
{
    match inner {
        Some(block) => block.form,
        None => Form::End,
    }
}

#[tactic(auto, unfolding(fm_rules::specs::StructureForms::is_do))]
fn is_do(form: Form) -> bool
    ensures { result ≡ is_do form }
{
    matches!(form, Form::Do(None) | Form::DoWhile)
}

#[tactic(auto, unfolding(fm_rules::specs::StructureForms::is_processes))]
fn is_processes(form: Form) -> bool
    ensures { result ≡ is_processes form }
{
    matches!(form, Form::Processes)
}

#[tactic(auto, unfolding(fm_rules::specs::StructureForms::is_process_do))]
fn is_process_do(form: Form) -> bool
    ensures { result ≡ is_process_do form }
{
    matches!(form, Form::ProcessDo(None))
}

/// Whether a statement is out of place, by whether it is the unit's first one, whether an executable one comes before
/// it, the form of the unit's first one, and the opener of the innermost open block.
#[tactic(auto, unfolding(fm_rules::specs::StructureForms::misplaced))]
pub(crate) fn misplaced(form: Form, first: bool, late: bool, heading: Form, opener: Form) -> bool
    ensures { result ≡ misplaced form first late heading opener }
{
    let sized = has_processors(heading);
    let in_program = heads_program(heading);
    let parallel = makes_processes(opener);
    match form {
        Form::Heading(_) => !first,
        Form::Declaration => first || late,
        Form::Processors => first || (late || !sized),
        Form::Return => first || in_program,
        Form::ProcessCall => first || !parallel,
        _ => first,
    }
}

/// Whether an end or a separator doesn't fit the innermost open block, or an opener without label is open at END.
#[tactic(auto, unfolding(fm_rules::specs::StructureForms::unmatched))]
pub(crate) fn unmatched(form: Form, opener: Form, open_at_end: bool) -> bool
    ensures { result ≡ unmatched form opener open_at_end }
{
    let in_if = is_block_if(opener);
    let in_do = is_do(opener);
    let in_processes = is_processes(opener);
    let in_process_do = is_process_do(opener);
    match form {
        Form::ElseIf(fits) => !fits,
        Form::Else(fits) => !fits,
        Form::EndIf => !in_if,
        Form::EndDo => !in_do,
        Form::EndProcesses => !in_processes,
        Form::EndProcessDo => !in_process_do,
        Form::BlockIf => open_at_end,
        Form::DoWhile => open_at_end,
        Form::Processes => open_at_end,
        Form::Do(None) => open_at_end,
        Form::ProcessDo(None) => open_at_end,
        _ => false,
    }
}

/// Whether a statement may stand directly in a process block.
#[tactic(auto, unfolding(fm_rules::specs::StructureForms::belongs))]
pub(crate) fn belongs(form: Form, ends_block: bool) -> bool
    ensures { result ≡ belongs form ends_block }
{
    match form {
        Form::ProcessCall => true,
        Form::ProcessDo(_) => true,
        Form::EndProcesses => true,
        Form::EndProcessDo => true,
        Form::LoopEnd(_) => true,
        Form::Wrap => true,
        Form::EndWrap => true,
        Form::Continue => ends_block,
        _ => false,
    }
}

#[tactic(auto, unfolding(fm_rules::specs::StructureForms::ends_do))]
fn ends_do(form: Form) -> bool
    ensures { result ≡ ends_do form }
{
    matches!(form, Form::LoopEnd(Terminal::Continue | Terminal::Fit))
}

#[tactic(auto, unfolding(fm_rules::specs::StructureForms::ends_process_do))]
fn ends_process_do(form: Form) -> bool
    ensures { result ≡ ends_process_do form }
{
    matches!(form, Form::LoopEnd(Terminal::Continue))
}

/// Whether a form is a labelled loop that nothing of this form may end.
#[tactic(auto, unfolding(fm_rules::specs::StructureForms::badly_ended))]
pub(crate) fn badly_ended(form: Form, end: Form) -> bool
    ensures { result ≡ badly_ended form end }
{
    let fit = ends_do(end);
    let fit_for_processes = ends_process_do(end);
    match form {
        Form::Do(Some(_)) => !fit,
        Form::ProcessDo(Some(_)) => !fit_for_processes,
        _ => false,
    }
}
