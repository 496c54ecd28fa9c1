//! Where an expression is evaluated, and what single names and elements have there.

ghost use Rattle.std.specs.Prelude.{◌≡◌, Some, pos, slice_get, unwrap_or};
ghost use Rattle.fm_values.specs.Places.{element_place};
ghost use Rattle.fm_mean.specs.Evaluate.{constant_by, element_value, named_by, result_of, single, value_by, whole};
ghost use Rattle.fm_mean.specs.Names.{variable_of};
ghost use Rattle.fm_plain_frame.specs.Units.{unit_of};
ghost use Rattle.fm_plain_eval.specs.Scopes.{scope_of};

use fm_base::{Fault, Name};
use fm_mean::Span;
use fm_plain_frame::memory::number_at;
use fm_plain_frame::{UnitView, Word};
use fm_symbols::{Constant, Variable};
use fm_tree::Kind;
use fm_values::{Value, element_place, is_truth};

/// Where an expression is evaluated. Contracts see it as the meaning's (`scope_of`).
#[derive(Clone, Copy)]
pub struct Scope<'a> {
    /// The unit.
    pub unit: UnitView<'a>,
    /// The words of its variables.
    pub memory: &'a [Word],
    /// The results of those references of the entry that are done.
    pub results: &'a [i64],
}

/// A whole variable.
pub fn whole(place: u32, variable: &Variable) -> Span
    ensures { result ≡ whole place variable.now }
{
    Span {
        variable: place,
        first: 0,
        count: variable.words,
    }
}

/// One element of a variable.
pub fn single(place: u32, element: usize) -> Span
    ensures { result ≡ single place element }
{
    Span {
        variable: place,
        first: element,
        count: 1,
    }
}

fn value_by(kind: &Kind, word: i64) -> Value
    ensures { result ≡ value_by kind.now word }
{
    match kind {
        Kind::Integer => Value::Number(word),
        Kind::Logical => Value::Truth(is_truth(word)),
        Kind::In(_) => Value::Number(word),
        Kind::Out(_) => Value::Number(word),
    }
}

fn constant_by(constant: Option<Constant>) -> Value
    ensures { result ≡ constant_by constant }
{
    match constant {
        None => Value::Number(0),
        Some(Constant::Integer(number)) => Value::Number(number),
        Some(Constant::Logical(truth)) => Value::Truth(truth),
    }
}

impl Scope<'_> {
    /// The value of an element of a variable.
    pub(crate) fn element_value(&self, place: u32, variable: &Variable, element: usize) -> Value
        ensures { result ≡ element_value (scope_of self.now) place variable.now element }
    {
        let span = single(place, element);
        let word = number_at(self.memory, self.unit.variables(), span);
        value_by(&variable.kind, word)
    }

    /// The value of a name that stands alone.
    pub(crate) fn named(&self, name: &Name) -> Value
        ensures { result ≡ named_by (scope_of self.now) name.now (variable_of (unit_of self.now.unit) name.now) }
    {
        match self.unit.variable(name) {
            None => constant_by(self.unit.constant(name)),
            Some((place, variable)) => self.element_value(place, variable, 0),
        }
    }

    // The word that a reference left, or 0 where it isn't done.
    fn result_word(&self, number: usize) -> i64
        ensures { result ≡ unwrap_or (slice_get self.now.results.now number) (pos 0) }
    {
        match self.results.get(number) {
            None => 0,
            Some(word) => *word,
        }
    }

    /// The result of the reference with this number, from 0, which is one of a FUNCTION.
    pub(crate) fn result(&self, callee: &UnitView<'_>, number: usize) -> Value
        ensures { result ≡ result_of (scope_of self.now) (unit_of callee.now) number }
    {
        let word = self.result_word(number);
        match callee.result_variable() {
            None => Value::Number(word),
            Some((_, variable)) => value_by(&variable.kind, word),
        }
    }

    /// The place of an element among those of its variable; Subscript where there is none.
    pub(crate) fn element_place(
        &self,
        place: u32,
        variable: &Variable,
        subscripts: &[i64],
    ) -> Result<usize, Fault>
        requires { slice_get (unit_of self.now.unit).names.variables place ≡ Some variable.now }
        ensures { result ≡ element_place variable.now.bounds subscripts.now }
    {
        // It is a unit of its program, so its arrays are small enough for an exact place.
        let _number = self.unit.number();
        element_place(variable.bounds.as_slice(), subscripts)
    }
}
