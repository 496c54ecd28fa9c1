//! A unit of a program, with all that is looked up in it.

ghost use Rattle.std.specs.Prelude.{◌≡◌, Some, slice_get};
ghost use Rattle.std.specs.Option.{option_copied};
ghost use Rattle.fm_rules.specs.Links.{links_of};
ghost use Rattle.fm_rules.specs.Program.{all_links};
ghost use Rattle.fm_symbols.specs.Context.{scope_of, scopes_of};

use crate::lookup::{constant_in, is_constant, item_at};
use fm_base::Name;
use fm_rules::{EntryLinks, Program};
use fm_symbols::{
    Constant, Scope, Symbol, UnitNames, Variable, heading_kind, heading_name, symbol_place,
};
use fm_tree::{Entry, Unit, UnitKind};

fn tree_at(program: &Program, number: u32) -> Option<&Unit>
    ensures { option_copied result ≡ slice_get program.now.units.units number }
{
    item_at(program.units().units.as_slice(), number as usize)
}

fn names_at(program: &Program, number: u32) -> Option<&UnitNames>
    ensures { option_copied result ≡ slice_get program.now.names.units number }
{
    item_at(program.names().units.as_slice(), number as usize)
}

fn scope_at(program: &Program, number: u32) -> Option<&Scope>
    ensures { option_copied result ≡ slice_get (scopes_of program.now.units.units program.now.names.units) number }
{
    item_at(program.context().scopes.as_slice(), number as usize)
}

fn links_at(program: &Program, number: u32) -> Option<&[EntryLinks]>
    ensures { option_copied result ≡ slice_get (all_links program.now.units.units) number }
{
    Some(item_at(program.links().as_slice(), number as usize)?.as_slice())
}

/// A unit of a program, with its names, what they mean, and where its entries lead to. Contracts see it as the
/// meaning's unit (`unit_of`).
#[derive(Clone, Copy)]
pub struct UnitView<'p> {
    program: &'p Program,
    number: u32,
    tree: &'p Unit,
    names: &'p UnitNames,
    scope: &'p Scope,
    links: &'p [EntryLinks],
    ghost tree_is: { slice_get program.now.units.units number ≡ Some tree.now },
    ghost names_are: { slice_get program.now.names.units number ≡ Some names.now },
    ghost scope_is: { scope.now ≡ scope_of tree.now names.now },
    ghost links_are: { links.now ≡ links_of tree.now.body },
}

impl<'p> UnitView<'p> {
    ghost use Rattle.std.specs.Prelude.{IfSome};
    ghost use Rattle.std.specs.Option.{option_map};
    ghost use Rattle.std.specs.FinMap.{get};
    ghost use Rattle.fm_symbols.specs.Context.{symbol_place, symbols_of};
    ghost use Rattle.fm_mean.specs.Layout.{AreLaidOut};
    ghost use Rattle.fm_mean.specs.Names.{constant_of, kind_of, point_at, result_variable, unit_at, variable_of};
    ghost use Rattle.fm_mean.specs.ValueTypes.{AreSized};
    ghost use Rattle.fm_plain_frame.specs.Units.{point_read, unit_of, variable_read};

    /// The unit of this number, from 0.
    pub fn new(program: &'p Program, number: u32) -> Option<UnitView<'p>>
        ensures unit { option_map unit_of result ≡ unit_at program.now number }
        ensures number { IfSome result (λ v. v.number ≡ number) }
        ensures program { IfSome result (λ v. v.program.now ≡ program.now) }
    {
        let tree = tree_at(program, number)?;
        let names = names_at(program, number)?;
        let scope = scope_at(program, number)?;
        let links = links_at(program, number)?;
        Some(UnitView {
            program,
            number,
            tree,
            names,
            scope,
            links,
        })
    }

    /// The program.
    pub fn program(&self) -> &'p Program
        ensures { result.now ≡ self.now.program.now }
    {
        self.program
    }

    /// The number of the unit, from 0.
    pub fn number(&self) -> u32
        ensures number { result ≡ self.now.number }
        ensures unit { unit_at self.now.program.now result ≡ Some (unit_of self.now) }
    {
        self.number
    }

    /// Its statements.
    pub fn tree(&self) -> &'p Unit
        ensures { result.now ≡ (unit_of self.now).tree }
    {
        self.tree
    }

    /// Its names.
    pub fn names(&self) -> &'p UnitNames
        ensures { result.now ≡ (unit_of self.now).names }
    {
        self.names
    }

    /// Its variables.
    pub fn variables(&self) -> &'p [Variable]
        ensures variables { result.now ≡ (unit_of self.now).names.variables }
        ensures laid_out { AreLaidOut 0 result.now }
        ensures sized { AreSized result.now }
    {
        self.names.variables.as_slice()
    }

    /// What a name means in it.
    pub fn symbol(&self, name: &Name) -> Option<Symbol>
        ensures { result ≡ get (symbols_of (unit_of self.now).names) name.now }
    {
        self.scope.symbols.get(name).copied()
    }

    /// The place among the variables of the variable with a name.
    pub fn place(&self, name: &Name) -> Option<u32>
        ensures { result ≡ symbol_place (get (symbols_of (unit_of self.now).names) name.now) }
    {
        symbol_place(self.symbol(name))
    }

    /// The variable with a name, and its place.
    pub fn variable(&self, name: &Name) -> Option<(u32, &'p Variable)>
        ensures { variable_read result ≡ variable_of (unit_of self.now) name.now }
    {
        let place = self.place(name)?;
        Some((
            place,
            item_at(self.names.variables.as_slice(), place as usize)?,
        ))
    }

    /// The constant with a name.
    pub fn constant(&self, name: &Name) -> Option<Constant>
        ensures { result ≡ constant_of (unit_of self.now) name.now }
    {
        if is_constant(self.symbol(name)) {
            constant_in(name, self.names.constants.as_slice())
        } else {
            None
        }
    }

    /// The entry at a place, and where it leads to.
    pub fn entry(&self, place: u32) -> Option<(&'p Entry, EntryLinks)>
        ensures { point_read result ≡ point_at (unit_of self.now) place }
    {
        let entry = item_at(self.tree.body.as_slice(), place as usize)?;
        let links = item_at(self.links, place as usize)?;
        Some((entry, *links))
    }

    /// The kind of unit.
    pub fn kind(&self) -> UnitKind
        ensures { result ≡ kind_of (unit_of self.now) }
    {
        heading_kind(&self.tree.heading.stmt)
    }

    /// The variable that holds the result of a FUNCTION, and its place.
    pub fn result_variable(&self) -> Option<(u32, &'p Variable)>
        ensures { variable_read result ≡ result_variable (unit_of self.now) }
    {
        self.variable(heading_name(&self.tree.heading.stmt)?)
    }
}
