//! Where a process is in its program.

ghost use Rattle.fm_rules.specs.declared.program.Program as declared;
ghost use Rattle.std.specs.Prelude.{◌≡◌, ◌∷◌, [], IfSome, OnOk, OnErr};
ghost use Rattle.std.specs.Option.{option_copied};
ghost use Rattle.fm_mean.specs.Actions as actions;
ghost use Rattle.fm_mean.specs.Actions.{at_entry};
ghost use Rattle.fm_mean.specs.Names.{unit_at, point_at};
ghost use Rattle.fm_mean.specs.Places.{port_at, put_port, written};
ghost use Rattle.fm_plain_frame.specs.Frames.{frame_of};
ghost use Rattle.fm_plain_frame.specs.Units.{unit_of};
ghost use Rattle.fm_plain_eval.specs.Scopes.{scope_of};
ghost use Rattle.fm_plain.specs.Standing.{StandsIn, StandsAt, frame_in, scope_in};

use fm_base::{Line, Machine, PortValue};
use fm_mean::Span;
use fm_plain_eval::Scope;
use fm_plain_frame::memory::{exchange, port_at, put_number};
use fm_plain_frame::{Frame, UnitView};
use fm_rules::{EntryLinks, Program};
use fm_tree::Entry;

/// Where a process is: its unit, its entry and where that leads besides, its machine and its node.
#[derive(Clone, Copy)]
pub(crate) struct Here<'p> {
    pub unit: UnitView<'p>,
    pub entry: &'p Entry,
    pub links: EntryLinks,
    pub machine: Machine,
    pub node: u32,
}

impl<'p> Here<'p> {
    /// Where a frame is.
    pub(crate) fn of(
        program: &'p Program,
        top: &Frame,
        machine: Machine,
        node: u32,
    ) -> Option<Here<'p>>
        ensures { StandsAt program.now top.now machine node result }
    {
        let unit = UnitView::new(program, top.unit)?;
        let (entry, links) = unit.entry(top.entry)?;
        Some(Here {
            unit,
            entry,
            links,
            machine,
            node,
        })
    }

    /// The line of the entry.
    pub(crate) fn line(&self) -> Line
        ensures { result ≡ self.now.entry.now.line }
    {
        self.entry.line
    }

    /// Where the expressions of the entry are evaluated.
    pub(crate) fn scope<'a>(&'a self, top: &'a Frame) -> Scope<'a>
        requires { StandsIn self.now top.now }
        ensures { scope_of result ≡ scope_in self.now top.now }
    {
        Scope {
            unit: self.unit,
            memory: top.memory.as_slice(),
            results: top.results.as_slice(),
        }
    }

    /// Puts a number into the innermost frame, which goes to another entry.
    pub(crate) fn put_number(&self, top: &mut Frame, place: Span, number: i64, next: u32)
        requires { StandsIn self.now top.old }
        ensures { frame_in self.now top.new
            ≡ at_entry (record (frame_in self.now top.old)
            { values = written (frame_in self.now top.old).values place (number ∷ []) }) next }
    {
        put_number(
            top.memory.as_mut_slice(),
            self.unit.variables(),
            place,
            number,
        );
        go_to(top, next);
    }

    /// Exchanges the port at a place of the innermost frame for another. Where there is no such place, that one comes
    /// out.
    pub(crate) fn exchange(
        &self,
        top: &mut Frame,
        place: Span,
        port: Option<PortValue>,
    ) -> Option<PortValue>
        requires { StandsIn self.now top.old }
        ensures frame { frame_in self.now top.new
            ≡ record (frame_in self.now top.old)
            { values = (put_port (frame_in self.now top.old).values place port).0 } }
        ensures port { result ≡ (put_port (frame_in self.now top.old).values place port).1 }
        ensures unit { top.new.unit ≡ top.old.unit }
    {
        exchange(
            top.memory.as_mut_slice(),
            self.unit.variables(),
            place.variable,
            place.first,
            port,
        )
    }

    /// The port at a place of the innermost frame.
    pub(crate) fn port<'a>(&self, top: &'a Frame, place: Span) -> Option<&'a PortValue>
        requires { StandsIn self.now top.now }
        ensures { option_copied result ≡ port_at (frame_in self.now top.now).values place }
    {
        port_at(top.memory.as_slice(), self.unit.variables(), place)
    }
}

/// The innermost frame goes to another entry.
pub(crate) fn go_to(top: &mut Frame, next: u32)
    ensures { (p : declared.Program) → frame_of p top.new ≡ at_entry (frame_of p top.old) next }
{
    top.entry = next;
    top.results.clear();
}
