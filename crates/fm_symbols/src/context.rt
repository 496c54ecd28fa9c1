//! What names mean in the units of a program.

ghost use Rattle.std.specs.Prelude.{◌≡◌, ◌++◌, IfOk, OnOk, map};
ghost use Rattle.std.specs.List.{slice_get};
ghost use Rattle.std.specs.FinMap.{get};
ghost use Rattle.fm_symbols.specs.ByName.{with_all};
ghost use Rattle.fm_symbols.specs.Context.{constant_entry, constant_symbol, context_of, formal_by, formal_in, function_at, function_named, is_function_scope, port_symbol, result_in, scalar_by, scope_of, scope_with, scopes_of, symbol_by, symbol_in, symbol_of, symbol_place, symbols_of, unit_numbers, value_symbol, variable_entries};
ghost use Rattle.fm_symbols.specs.Headings.{heading_formals, heading_name};
ghost use Rattle.fm_symbols.specs.Titles.{title_by};

use crate::heading::{heading_formals, heading_kind, heading_name, is_function};
use crate::insertion::insert_new;
use crate::names::{Constant, Names, UnitNames, Variable};
use crate::symbol::{Direction, Extent, Formal, Scalar, Symbol};
use fm_base::{Name, NoMemory, Seq};
use fm_finmap::NameMap;
use fm_tree::{Kind, Stmt, Unit, UnitKind, Units};
use std::alloc::Global;

/// What the names of a unit mean.
pub struct Scope {
    pub kind: UnitKind,
    /// The constants and the variables.
    pub symbols: NameMap<Symbol>,
    /// What each formal argument wants.
    pub formals: Seq<Formal>,
    /// The type of the result of a FUNCTION.
    pub result: Option<Scalar>,
}

impl Drop for Scope {
    fn drop(self) {
        let Scope {
            kind: _kind,
            symbols: _symbols,
            formals: _formals,
            result: _result,
        } = self;
    }
}

/// What the names of a program mean.
pub struct Context {
    /// The number of the first unit with a name, from 0.
    pub units: NameMap<u32>,
    /// For each unit what its names mean.
    pub scopes: Seq<Scope>,
}

impl Drop for Context {
    fn drop(self) {
        let Context {
            units: _units,
            scopes: _scopes,
        } = self;
    }
}

fn value_symbol(scalar: Scalar, bounds: &[(i64, i64)], words: u32, place: u32) -> Symbol
    ensures { result ≡ value_symbol scalar bounds.now words place }
{
    if bounds.is_empty() {
        return Symbol::Variable(scalar, place);
    }
    let extent = Extent {
        dimensions: bounds.len(),
        elements: words,
    };
    Symbol::Array(scalar, place, extent)
}

fn port_symbol(direction: Direction, bounds: &[(i64, i64)], words: u32, place: u32) -> Symbol
    ensures { result ≡ port_symbol direction bounds.now words place }
{
    if bounds.is_empty() {
        return Symbol::Port(direction, place);
    }
    let extent = Extent {
        dimensions: bounds.len(),
        elements: words,
    };
    Symbol::Ports(direction, place, extent)
}

fn symbol_by(kind: &Kind, bounds: &[(i64, i64)], words: u32, place: u32) -> Symbol
    ensures { result ≡ symbol_by kind.now bounds.now words place }
{
    match kind {
        Kind::Integer => value_symbol(Scalar::Integer, bounds, words, place),
        Kind::Logical => value_symbol(Scalar::Logical, bounds, words, place),
        Kind::In(_) => port_symbol(Direction::In, bounds, words, place),
        Kind::Out(_) => port_symbol(Direction::Out, bounds, words, place),
    }
}

fn symbol_of(place: u32, variable: &Variable) -> Symbol
    ensures { result ≡ symbol_of place variable.now }
{
    symbol_by(
        &variable.kind,
        variable.bounds.as_slice(),
        variable.words,
        place,
    )
}

/// The place of a variable by what its name means.
pub fn symbol_place(symbol: Option<Symbol>) -> Option<u32>
    ensures { result ≡ symbol_place symbol }
{
    match symbol {
        None => None,
        Some(Symbol::Constant(_)) => None,
        Some(Symbol::Variable(_, place)) => Some(place),
        Some(Symbol::Array(_, place, _)) => Some(place),
        Some(Symbol::Port(_, place)) => Some(place),
        Some(Symbol::Ports(_, place, _)) => Some(place),
        Some(Symbol::Function(_)) => None,
    }
}

fn constant_symbol(constant: Constant) -> Symbol
    ensures { result ≡ constant_symbol constant }
{
    match constant {
        Constant::Integer(_) => Symbol::Constant(Scalar::Integer),
        Constant::Logical(_) => Symbol::Constant(Scalar::Logical),
    }
}

// A number as programs have it.
fn number_of(index: usize) -> Result<u32, NoMemory>
    ensures { IfOk result (λ number. number ≡ index) }
{
    u32::try_from(index).map_err(|_| NoMemory)
}

fn add_constants(
    alloc: Global,
    constants: &[(Name, Constant)],
    symbols: &mut NameMap<Symbol>,
) -> Result<(), NoMemory>
    ensures { OnOk result (symbols.new ≡ with_all symbols.old (map constant_entry constants.now)) }
{
    'constants: for index in 0..constants.len() {
        let symbol = constant_symbol(constants[index].1);
        insert_new(alloc, symbols, &constants[index].0, symbol)?;
    }
    Ok(())
}

fn add_variables(
    alloc: Global,
    variables: &[Variable],
    symbols: &mut NameMap<Symbol>,
) -> Result<(), NoMemory>
    ensures { OnOk result (symbols.new ≡ with_all symbols.old (variable_entries 0 variables.now)) }
{
    'variables: for place in 0..variables.len() {
        let symbol = symbol_of(number_of(place)?, &variables[place]);
        insert_new(alloc, symbols, &variables[place].name, symbol)?;
    }
    Ok(())
}

#[tactic(auto, using(crate::proofs::Maps::with_all_append))]
fn symbols(alloc: Global, names: &UnitNames) -> Result<NameMap<Symbol>, NoMemory>
    ensures { IfOk result (λ m. m ≡ symbols_of names.now) }
{
    let mut symbols = NameMap::new(alloc);
    add_constants(alloc, names.constants.as_slice(), &mut symbols)?;
    add_variables(alloc, names.variables.as_slice(), &mut symbols)?;
    Ok(symbols)
}

fn formal_by(symbol: Option<Symbol>) -> Formal
    ensures { result ≡ formal_by symbol }
{
    match symbol {
        None => Formal::Value(Scalar::Integer),
        Some(Symbol::Constant(scalar)) => Formal::Value(scalar),
        Some(Symbol::Variable(scalar, _)) => Formal::Value(scalar),
        Some(Symbol::Array(scalar, _, extent)) => Formal::Array(scalar, extent.elements),
        Some(Symbol::Port(_, place)) => Formal::Port(place),
        Some(Symbol::Ports(_, place, _)) => Formal::Port(place),
        Some(Symbol::Function(_)) => Formal::Value(Scalar::Integer),
    }
}

fn formals(
    alloc: Global,
    symbols: &NameMap<Symbol>,
    names: &[Name],
) -> Result<Seq<Formal>, NoMemory>
    ensures { IfOk result (λ v. v ≡ map (formal_in symbols.now) names.now) }
{
    let mut formals = Seq::new(alloc);
    for name in names {
        formals.push(formal_by(symbols.get(name).copied()))?;
    }
    Ok(formals)
}

fn scalar_by(symbol: Option<Symbol>) -> Option<Scalar>
    ensures { result ≡ scalar_by symbol }
{
    match symbol {
        None => None,
        Some(Symbol::Constant(scalar)) => Some(scalar),
        Some(Symbol::Variable(scalar, _)) => Some(scalar),
        Some(Symbol::Array(scalar, _, _)) => Some(scalar),
        Some(Symbol::Port(_, _)) => None,
        Some(Symbol::Ports(_, _, _)) => None,
        Some(Symbol::Function(_)) => None,
    }
}

fn result_in(kind: UnitKind, symbols: &NameMap<Symbol>, heading: &Stmt) -> Option<Scalar>
    ensures { result ≡ result_in kind symbols.now (heading_name heading.now) }
{
    match heading_name(heading) {
        None => None,
        Some(name) => {
            if is_function(kind) {
                scalar_by(symbols.get(name).copied())
            } else {
                None
            }
        }
    }
}

fn make_scope(alloc: Global, unit: &Unit, names: &UnitNames) -> Result<Scope, NoMemory>
    ensures { IfOk result (λ s. s ≡ scope_of unit.now names.now) }
{
    let heading = &unit.heading.stmt;
    let symbols = symbols(alloc, names)?;
    let formals = formals(alloc, &symbols, heading_formals(heading))?;
    let kind = heading_kind(heading);
    let result = result_in(kind, &symbols, heading);
    Ok(Scope {
        kind,
        symbols,
        formals,
        result,
    })
}

fn scopes(alloc: Global, units: &[Unit], names: &[UnitNames]) -> Result<Seq<Scope>, NoMemory>
    ensures { IfOk result (λ v. v ≡ scopes_of units.now names.now) }
{
    let mut scopes = Seq::new(alloc);
    'units: for (unit, names) in units.iter().zip(names) {
        scopes.push(make_scope(alloc, unit, names)?)?;
    }
    Ok(scopes)
}

fn add_title(
    alloc: Global,
    number: u32,
    heading: &Stmt,
    units: &mut NameMap<u32>,
) -> Result<(), NoMemory>
    ensures { OnOk result (units.new ≡ with_all units.old (title_by (heading_name heading.now) number)) }
{
    match heading_name(heading) {
        Some(name) => insert_new(alloc, units, name, number),
        None => Ok(()),
    }
}

fn unit_numbers(alloc: Global, units: &[Unit]) -> Result<NameMap<u32>, NoMemory>
    ensures { IfOk result (λ m. m ≡ unit_numbers units.now) }
{
    let mut numbers = NameMap::new(alloc);
    'units: for index in 0..units.len() {
        let number = number_of(index)?;
        add_title(alloc, number, &units[index].heading.stmt, &mut numbers)?;
    }
    Ok(numbers)
}

/// What the names of a program mean: of its units, and of what `names` says of them.
pub fn make_context(alloc: Global, units: &Units, names: &Names) -> Result<Context, NoMemory>
    ensures { IfOk result (λ c. c ≡ context_of units.now.units names.now.units) }
{
    let numbers = unit_numbers(alloc, units.units.as_slice())?;
    let scopes = scopes(alloc, units.units.as_slice(), names.units.as_slice())?;
    Ok(Context {
        units: numbers,
        scopes,
    })
}

fn is_function_unit(context: &Context, number: u32) -> bool
    ensures { result ≡ is_function_scope (slice_get context.now.scopes number) }
{
    match context.scopes.as_slice().get(number as usize) {
        None => false,
        Some(scope) => is_function(scope.kind),
    }
}

fn function_at(context: &Context, number: Option<u32>) -> Option<Symbol>
    ensures { result ≡ function_at context.now number }
{
    match number {
        None => None,
        Some(number) => {
            if is_function_unit(context, number) {
                Some(Symbol::Function(number))
            } else {
                None
            }
        }
    }
}

/// The FUNCTION with a name.
pub fn function_named(context: &Context, name: &Name) -> Option<Symbol>
    ensures { result ≡ function_named context.now name.now }
{
    function_at(context, context.units.get(name).copied())
}

/// What a name means that stands alone in a unit: a constant, a variable, or another FUNCTION.
pub fn symbol_in(context: &Context, scope: &Scope, name: &Name) -> Option<Symbol>
    ensures { result ≡ symbol_in context.now scope.now name.now }
{
    match scope.symbols.get(name) {
        Some(symbol) => Some(*symbol),
        None => function_named(context, name),
    }
}
