//! The types of values that names have in a unit.

ghost use Rattle.std.specs.Prelude.{◌≡◌, IfOk, OnOk};
ghost use Rattle.std.specs.List.{list_any};
ghost use Rattle.fm_symbols.specs.ByName.{with_all};
ghost use Rattle.fm_rules.specs.NameTypes.{begins_integer, entries_at, has_implicit_none, implicit_scalar, is_of, scalar_entries, scalar_of_name, scalar_or, scalar_types, types_of};

use crate::parts::{decls_of, is_implicit_none, scalar_in};
use fm_base::{Name, NoMemory};
use fm_finmap::NameMap;
use fm_rules::Types;
use fm_symbols::{Constant, Scalar, insert_new};
use fm_tree::{Decl, Placed};
use std::alloc::Global;

fn add_decls(
    alloc: Global,
    scalar: Scalar,
    decls: &[Decl],
    declared: &mut NameMap<Scalar>,
) -> Result<(), NoMemory>
    ensures { OnOk result (declared.new ≡ with_all declared.old (scalar_entries (Some scalar) decls.now)) }
{
    'decls: for decl in decls {
        insert_new(alloc, declared, &decl.name, scalar)?;
    }
    Ok(())
}

fn add_statement(
    alloc: Global,
    placed: &Placed,
    declared: &mut NameMap<Scalar>,
) -> Result<(), NoMemory>
    ensures { OnOk result (declared.new ≡ with_all declared.old (entries_at placed.now)) }
{
    match scalar_in(&placed.stmt) {
        Some(scalar) => add_decls(alloc, scalar, decls_of(&placed.stmt), declared),
        None => Ok(()),
    }
}

fn scalar_types(alloc: Global, specs: &[Placed]) -> Result<NameMap<Scalar>, NoMemory>
    ensures { IfOk result (λ m. m ≡ scalar_types specs.now) }
{
    let mut declared = NameMap::new(alloc);
    'specs: for placed in specs {
        add_statement(alloc, placed, &mut declared)?;
    }
    Ok(declared)
}

fn has_implicit_none(specs: &[Placed]) -> bool
    ensures { result ≡ has_implicit_none specs.now }
{
    for placed in specs {
        if is_implicit_none(&placed.stmt) {
            return true;
        }
    }
    false
}

/// What the type statements of a unit say of its names, of its specification statements.
pub fn types_of(alloc: Global, specs: &[Placed]) -> Result<Types, NoMemory>
    ensures { IfOk result (λ t. t ≡ types_of specs.now) }
{
    let declared = scalar_types(alloc, specs)?;
    let implicit = !has_implicit_none(specs);
    Ok(Types { declared, implicit })
}

/// Whether a name begins with one of the letters I to N.
pub fn begins_integer(name: &Name) -> bool
    ensures { result ≡ begins_integer name.now }
{
    match name.as_bytes() {
        [] => false,
        [first, ..] => b'I' <= *first && *first <= b'N',
    }
}

fn implicit_scalar(implicit: bool, name: &Name) -> Option<Scalar>
    ensures { result ≡ implicit_scalar implicit name.now }
{
    if implicit && begins_integer(name) {
        Some(Scalar::Integer)
    } else {
        None
    }
}

/// The type of a name: the declared one, or else that of its first letter.
pub fn scalar_of_name(types: &Types, name: &Name) -> Option<Scalar>
    ensures { result ≡ scalar_of_name types.now name.now }
{
    match types.declared.get(name).copied() {
        Some(scalar) => Some(scalar),
        None => implicit_scalar(types.implicit, name),
    }
}

/// Whether a value is of a type.
pub(crate) fn is_of(scalar: Scalar, constant: Constant) -> bool
    ensures { result ≡ is_of scalar constant }
{
    match (scalar, constant) {
        (Scalar::Integer, Constant::Integer(_)) => true,
        (Scalar::Integer, Constant::Logical(_)) => false,
        (Scalar::Logical, Constant::Integer(_)) => false,
        (Scalar::Logical, Constant::Logical(_)) => true,
    }
}
