//! Bounds of arrays, and the types of ports.

ghost use Rattle.std.specs.Prelude.{◌≡◌, IfOk};
ghost use Rattle.fm_tree.specs.PortReading.{fields_of};

use crate::expression::Expr;
use fm_base::{Name, NoMemory, Seq};
use std::alloc::Global;
use std::marker::Model;
use std::sync::Arc;

/// The bounds of one dimension: `[low :] high`.
pub struct Bound {
    pub low: Option<Expr>,
    pub high: Expr,
}

impl Drop for Bound {
    fn drop(self) {
        let Bound {
            low: _low,
            high: _high,
        } = self;
    }
}

/// The type of a port: what its messages hold, field after field. Contracts see it as plain data. The names that one
/// statement declares share it.
#[derive(Drop)]
#[cycle(port_type)]
pub struct PortType {
    fields: Arc<Vec<Field>>,
}

/// A field of a message: its kind, and the name and the bounds that may be written behind it.
#[derive(Drop)]
#[cycle(port_type)]
pub struct Field {
    pub kind: Kind,
    pub name: Option<Name>,
    /// Without a name there are none.
    pub bounds: Seq<Bound>,
}

/// The kind of a field.
#[derive(Drop)]
#[cycle(port_type)]
pub enum Kind {
    Integer,
    Logical,
    /// An inport, and the type of its messages.
    In(PortType),
    /// An outport, and the type of its messages.
    Out(PortType),
}

impl Model for PortType {
    ghost use Rattle.fm_tree.specs.PortFields.{PortFields, fields_count};
    ghost use Rattle.fm_tree.specs.PortFieldsCode.{port_fields_code};

    ghost Value = { PortFields };

    ghost coded = { port_fields_code };

    ghost use Rattle.fm_tree.specs.PortReading.{fields_of};

    ghost view = { λ p. fields_of p.fields.value.items };

    ghost size = { fields_count };

    ghost use Rattle.fm_tree.specs.PortFalls.{fields_are_smaller};

    ghost size_decreases = { λ p _. fields_are_smaller p.fields.value.items };
}

impl PortType {
    /// The type with these fields.
    pub fn new(alloc: Global, fields: Vec<Field>) -> Result<PortType, NoMemory>
        ensures { IfOk result (λ p. p ≡ fields_of fields.items) }
    {
        let fields = Arc::new(alloc, fields)?;
        Ok(PortType { fields })
    }

    /// The fields.
    pub fn as_slice(&self) -> &[Field]
        ensures { fields_of result.now ≡ self.now }
    {
        self.fields.as_slice()
    }

    /// The same type, held once more. The only error is want of memory.
    pub fn share(&self) -> Result<PortType, NoMemory>
        ensures { IfOk result (λ p. p ≡ self.now) }
    {
        let fields = Arc::try_clone(&self.fields)?;
        Ok(PortType { fields })
    }
}

impl Kind {
    /// The same kind, whose type is held once more. The only error is want of memory.
    pub fn share(&self) -> Result<Kind, NoMemory>
        ensures { IfOk result (λ k. k ≡ self.now) }
    {
        match self {
            Kind::Integer => Ok(Kind::Integer),
            Kind::Logical => Ok(Kind::Logical),
            Kind::In(port_type) => Ok(Kind::In(port_type.share()?)),
            Kind::Out(port_type) => Ok(Kind::Out(port_type.share()?)),
        }
    }
}
