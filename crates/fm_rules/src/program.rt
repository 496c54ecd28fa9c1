//! A program that breaks no rule.

ghost use Rattle.std.specs.Prelude.{◌≡◌, ◌↔◌, true, unwrap_or, IfOk};
ghost use Rattle.fm_rules.specs.Race.{IsDeterministic, IsRaceVerdict};
ghost use Rattle.fm_symbols.specs.Context.{context_of};
ghost use Rattle.fm_rules.specs.Main.{is_main, is_program, main_of};
ghost use Rattle.fm_rules.specs.Program.{IsLawful, all_links};

use crate::entry_links::EntryLinks;
use fm_base::{Line, NoMemory, Seq};
use fm_symbols::{Context, Names, heading_kind};
use fm_tree::{Unit, UnitKind, Units};

/// A program that breaks no rule: its units, its names, and what is looked up in them.
pub struct Program {
    units: Units,
    names: Names,
    context: Context,
    links: Seq<Seq<EntryLinks>>,
    main: u32,
    race: Option<Line>,
    ghost lawful: { ∥ IsLawful units names ∥₁ },
    ghost context_is: { context ≡ context_of units.units names.units },
    ghost links_are: { links ≡ all_links units.units },
    ghost main_is: { main ≡ unwrap_or (main_of units.units) 0 },
    ghost race_is: { ∥ IsRaceVerdict units.units context race ∥₁ },
}

impl Drop for Program {
    fn drop(self) {
        let Program {
            units: _units,
            names: _names,
            context: _context,
            links: _links,
            main: _main,
            race: _race,
        } = self;
    }
}

/// Whether PROGRAM heads a unit of this kind.
pub fn is_program(unit: UnitKind) -> bool
    ensures { result ≡ is_program unit }
{
    matches!(unit, UnitKind::Program)
}

fn is_main(unit: &Unit) -> bool
    ensures { result ≡ is_main unit.now }
{
    is_program(heading_kind(&unit.heading.stmt))
}

/// The number of the PROGRAM, from 0.
pub fn main_of(units: &[Unit]) -> Option<usize>
    ensures { result ≡ main_of units.now }
{
    units.iter().position(is_main)
}

impl Program {
    /// The program of units and names that break no rule. `context` is what the names mean, `links` where the entries
    /// of each unit lead to, `race` the least line of a race: of a PROBE, or of a MERGER that may have several writers,
    /// that a process may come to.
    pub fn new(
        units: Units,
        names: Names,
        context: Context,
        links: Seq<Seq<EntryLinks>>,
        race: Option<Line>,
    ) -> Result<Program, NoMemory>
        requires lawful { ∥ IsLawful units names ∥₁ }
        requires context { context ≡ context_of units.units names.units }
        requires links { links ≡ all_links units.units }
        requires race { ∥ IsRaceVerdict units.units context race ∥₁ }
        ensures units { IfOk result (λ p. p.units ≡ units) }
        ensures names { IfOk result (λ p. p.names ≡ names) }
    {
        let main = main_of(units.units.as_slice()).unwrap_or(0);
        let main = u32::try_from(main).map_err(|_| NoMemory)?;
        Ok(Program {
            units,
            names,
            context,
            links,
            main,
            race,
        })
    }

    /// The units, in the order of the source.
    pub fn units(&self) -> &Units
        ensures { result.now ≡ self.now.units }
    {
        &self.units
    }

    /// The names of each unit.
    pub fn names(&self) -> &Names
        ensures { result.now ≡ self.now.names }
    {
        &self.names
    }

    /// What the names mean in each unit.
    pub fn context(&self) -> &Context
        ensures { result.now ≡ context_of self.now.units.units self.now.names.units }
    {
        &self.context
    }

    /// For each unit where its entries lead to.
    pub fn links(&self) -> &Seq<Seq<EntryLinks>>
        ensures { result.now ≡ all_links self.now.units.units }
    {
        &self.links
    }

    /// The number of the PROGRAM unit, from 0.
    pub fn main(&self) -> u32
        ensures { result ≡ unwrap_or (main_of self.now.units.units) 0 }
    {
        self.main
    }

    /// Whether no process may come to a PROBE, or to a MERGER with more than one `OUT=` or a whole array as its one.
    /// Then every schedule comes to one outcome.
    pub fn deterministic(&self) -> bool
        ensures { result
            ≡ true ↔ IsDeterministic self.now.units.units (context_of self.now.units.units self.now.names.units) }
    {
        self.race.is_none()
    }

    /// The least line of a PROBE, or of a MERGER with more than one `OUT=` or a whole array as its one, that a process
    /// may come to.
    pub fn first_race(&self) -> Option<Line>
        ensures { ∥ IsRaceVerdict self.now.units.units (context_of self.now.units.units self.now.names.units) result
            ∥₁ }
    {
        self.race
    }
}
