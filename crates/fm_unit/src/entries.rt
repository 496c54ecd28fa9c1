//! Units made of their statements.

ghost use Rattle.std.specs.Prelude.{◌≡◌, ◌<◌, ◌++◌, ◌∷◌, [], length, option_to_list, IfOk, OnOk};
ghost use Rattle.fm_tree.specs.Layout.{laid_out};
ghost use Rattle.fm_tree.specs.References.{reference_places};
ghost use Rattle.fm_tree.specs.Units.{body_of};
ghost use Rattle.fm_unit.specs.Entries.{assembled, built, entries_with, entry_by, links_with};
ghost use Rattle.fm_rules.specs.UnitTitles.{is_function_named};

use crate::linking::{Body, branch_in, number, number_if, place_in};
use crate::owned::{push, push_if, together};
use crate::pieces::{next_piece, parts};
use crate::references::references;
use fm_base::{Label, Line, NoMemory, Seq};
use fm_finmap::NameMap;
use fm_rules::Title;
use fm_tree::{Entry, EntryMark, Placed, Stmt, Unit, is_executable};
use std::alloc::Global;

/// The entries from the first executable one on.
fn body_of(marks: &[EntryMark]) -> &[EntryMark]
    ensures { result.now ≡ body_of marks.now }
{
    'marks: for place in 0..marks.len() {
        if is_executable(marks[place].form) {
            return &marks[place..];
        }
    }
    &[]
}

/// What is known of an entry beside its statement.
#[derive(Clone, Copy)]
struct Links {
    line: Line,
    label: Option<Label>,
    parent: Option<u32>,
    branch: u32,
    mate: Option<u32>,
    after: u32,
}

fn links_at(body: &Body, place: usize) -> Result<Links, NoMemory>
    requires { place < length body.now.marks.now }
    ensures { IfOk result (λ l. l ≡ links_with body.now.marks.now place) }
{
    let mark = body.mark_at(place);
    let block = body.block_round(place);
    let parent = number_if(place_in(block))?;
    let branch = number(branch_in(block))?;
    let mate = number_if(body.other_end(place))?;
    let after = number(body.after(place))?;
    Ok(Links {
        line: mark.line,
        label: mark.label,
        parent,
        branch,
        mate,
        after,
    })
}

fn make_entry(links: Links, stmt: Stmt, refs: Seq<u32>) -> Entry
    ensures { result ≡ entry_by links stmt refs }
{
    Entry {
        line: links.line,
        label: links.label,
        stmt,
        parent: links.parent,
        branch: links.branch,
        mate: links.mate,
        after: links.after,
        refs,
    }
}

/// Adds the entry of a statement with these links.
fn add_entry(
    alloc: Global,
    titles: &NameMap<Title>,
    links: Links,
    stmt: Stmt,
    entries: &mut Vec<Entry>,
) -> Result<(), NoMemory>
    ensures { OnOk result (entries.new.items
        ≡ entries.old.items ++ entry_by links stmt (reference_places (is_function_named titles.now) stmt) ∷ []) }
{
    let refs = references(alloc, titles, &stmt);
    let (stmt, refs) = together(stmt, refs)?;
    push(entries, make_entry(links, stmt, refs))
}

/// The entries of a body, of these pieces.
fn entries(
    alloc: Global,
    titles: &NameMap<Title>,
    marks: &[EntryMark],
    pieces: Vec<Stmt>,
) -> Result<Vec<Entry>, NoMemory>
    ensures { IfOk result
        (λ v. v.items ≡ entries_with (is_function_named titles.now) marks.now 0 marks.now pieces.items) }
{
    let body = Body::new(alloc, marks)?;
    let mut pieces = pieces;
    pieces.reverse();
    let mut entries = Vec::new(alloc);
    'entries: for place in 0..marks.len() {
        let links = links_at(&body, place)?;
        let stmt = next_piece(body.mark_at(place).form, &mut pieces);
        add_entry(alloc, titles, links, stmt, &mut entries)?;
    }
    Ok(entries)
}

/// The unit of what stands before its body, and of this body. `None` where nothing stands before it.
fn assemble(front: Vec<Placed>, body: Vec<Entry>) -> Option<Unit>
    ensures { option_to_list result ≡ assembled front.items body.items }
{
    let mut front = front;
    if front.is_empty() {
        return None;
    }
    let heading = front.remove(0);
    let specs = Seq::from_vec(front);
    let body = Seq::from_vec(body);
    Some(Unit {
        heading,
        specs,
        body,
    })
}

/// Adds the unit of these statements, which have these entries, unless it begins with an executable statement.
pub(crate) fn add_unit(
    alloc: Global,
    titles: &NameMap<Title>,
    statements: Seq<Placed>,
    marks: &[EntryMark],
    units: &mut Vec<Unit>,
) -> Result<(), NoMemory>
    requires { marks.now ≡ laid_out statements }
    ensures { OnOk result (units.new.items ≡ units.old.items ++ built (is_function_named titles.now) statements) }
{
    let (front, pieces) = parts(alloc, statements.into_vec())?;
    let body = body_of(marks);
    let entries = entries(alloc, titles, body, pieces)?;
    let unit = assemble(front, entries);
    push_if(unit, units)
}
