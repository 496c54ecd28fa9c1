//! The blocks that are open before each entry, and the ends to come.

ghost use Rattle.std.specs.Prelude.{◌≡◌, ◌<◌, length, reverse, IfOk};
ghost use Rattle.fm_tree.specs.Blocks.{end_list, head_of, inner_list, turned, turned_back};
ghost use Rattle.fm_tree.specs.Structure.{bracket_of};
ghost use Rattle.fm_tree.specs.Units.{form_at};

use fm_base::NoMemory;
use fm_tree::{Bracket, EntryMark, Form, Open, bracket_of, is_else};
use std::alloc::Global;

/// The last item.
pub(crate) fn last_of<T: Copy>(items: &[T]) -> Option<T>
    ensures { result ≡ head_of (reverse items.now) }
{
    items.last().copied()
}

/// The form of the entry at a place.
fn form_at(entries: &[EntryMark], at: usize) -> Form
    requires { at < length entries.now }
    ensures { result ≡ form_at entries.now at }
{
    entries[at].form
}

/// Follows the open blocks over an entry that does this to them. The innermost block stands last.
fn turn(stack: &mut Vec<Open>, bracket: Bracket, at: usize, form: Form) -> Result<(), NoMemory>
    ensures { IfOk result (λ _. reverse stack.new.items ≡ turned bracket at form (reverse stack.old.items)) }
{
    match bracket {
        Bracket::Opens => stack.push(Open {
            at,
            start: at,
            branch: 0,
            has_else: false,
            form,
        })?,
        Bracket::Closes => {
            let _ = stack.pop();
        }
        Bracket::Parts => {
            if let Some(top) = stack.pop() {
                stack.push(Open {
                    at: top.at,
                    start: at,
                    branch: top.branch.checked_add(1).ok_or(NoMemory)?,
                    has_else: top.has_else || is_else(form),
                    form: top.form,
                })?;
            }
        }
        Bracket::Stays => {}
    }
    Ok(())
}

/// Follows the open blocks over an entry of a form, at a place.
pub(crate) fn follow(stack: &mut Vec<Open>, at: usize, form: Form) -> Result<(), NoMemory>
    ensures { IfOk result (λ _. reverse stack.new.items ≡ turned (bracket_of form) at form (reverse stack.old.items)) }
{
    turn(stack, bracket_of(form), at, form)
}

/// For each entry the innermost block that is open before it.
pub fn innermost_of(alloc: Global, entries: &[EntryMark]) -> Result<Vec<Option<Open>>, NoMemory>
    ensures { IfOk result (λ v. v.items ≡ inner_list entries.now) }
{
    let mut all = Vec::new(alloc);
    let mut stack: Vec<Open> = Vec::new(alloc);
    'entries: for k in 0..entries.len() {
        all.push(last_of(&stack))?;
        follow(&mut stack, k, form_at(entries, k))?;
    }
    Ok(all)
}

/// Follows the ends to come back over an entry that does this to the open blocks. The first end stands last.
fn turn_back(
    branches: bool,
    stack: &mut Vec<usize>,
    bracket: Bracket,
    at: usize,
) -> Result<(), NoMemory>
    ensures { IfOk result (λ _. reverse stack.new.items ≡ turned_back branches bracket at (reverse stack.old.items)) }
{
    match bracket {
        Bracket::Opens => {
            let _ = stack.pop();
        }
        Bracket::Closes => stack.push(at)?,
        Bracket::Parts => {
            if branches {
                let _ = stack.pop();
                stack.push(at)?;
            }
        }
        Bracket::Stays => {}
    }
    Ok(())
}

/// Follows the ends to come back over an entry of a form, at a place.
fn follow_back(
    branches: bool,
    stack: &mut Vec<usize>,
    at: usize,
    form: Form,
) -> Result<(), NoMemory>
    ensures { IfOk result
        (λ _. reverse stack.new.items ≡ turned_back branches (bracket_of form) at (reverse stack.old.items)) }
{
    turn_back(branches, stack, bracket_of(form), at)
}

/// For each entry the place that ends what it begins, or else what is innermost behind it: a block, or with `branches`
/// a branch of an IF.
pub fn ends_of(
    alloc: Global,
    branches: bool,
    entries: &[EntryMark],
) -> Result<Vec<Option<usize>>, NoMemory>
    ensures { IfOk result (λ v. v.items ≡ end_list branches entries.now) }
{
    let mut all = Vec::new(alloc);
    let mut stack: Vec<usize> = Vec::new(alloc);
    'entries: for k in (0..entries.len()).rev() {
        all.push(last_of(&stack))?;
        follow_back(branches, &mut stack, k, form_at(entries, k))?;
    }
    all.reverse();
    Ok(all)
}
