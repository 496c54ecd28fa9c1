//! What was said of the names of a unit so far, and the least place that clashes.

ghost use Rattle.std.specs.Prelude.{◌≡◌, OnOk};
ghost use Rattle.fm_rules.specs.Declarations.{fact};
ghost use Rattle.fm_names_declared.specs.Noted.{said_of, with_fact};

use crate::aspect::{Said, is_of_variables, nothing};
use crate::titles::is_other_function;
use fm_base::{Line, Name, NoMemory, Refusal, Rule, keep_if};
use fm_finmap::NameMap;
use fm_rules::Aspect;
use fm_tree::Stmt;
use std::alloc::Global;

/// What was said of each name so far, and the least place that clashes.
#[derive(Drop)]
pub struct Notes {
    pub said: NameMap<Said>,
    pub best: Option<Refusal>,
}

fn said_of(said: &NameMap<Said>, name: &Name) -> Said
    ensures { result ≡ said_of said.now name.now }
{
    match said.get(name).copied() {
        Some(said) => said,
        None => nothing(),
    }
}

/// Notes what is said of a name at a line of the unit with this heading.
pub(crate) fn note(
    alloc: Global,
    titles: &NameMap<bool>,
    heading: &Stmt,
    line: Line,
    what: Aspect,
    name: &Name,
    notes: &mut Notes,
) -> Result<(), NoMemory>
    ensures { OnOk result (notes.new ≡ with_fact titles.now heading.now notes.old (fact line what name.now)) }
{
    let said = said_of(&notes.said, name);
    let taken = is_of_variables(what) && is_other_function(titles, heading, name);
    let twice = said.clashes(what) || taken;
    notes.said.insert(name.copy(alloc)?, said.with(what))?;
    notes.best = keep_if(notes.best, twice, line, Rule::E30);
    Ok(())
}
