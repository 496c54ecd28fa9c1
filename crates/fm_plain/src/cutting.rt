//! The items of a message as they are sent: one for a field that an earlier field sizes has as many elements as that
//! one says.

ghost use Rattle.std.specs.Prelude.{◌≡◌, [], slice_get};
ghost use Rattle.std.specs.Option.{option_copied};
ghost use Rattle.fm_tree.specs.PortReading.{fields_of, kind_of};
ghost use Rattle.fm_mean.specs.Actions.{cut_item, cut_items, cut_to, fields_at, fields_by, size_in};
ghost use Rattle.fm_mean.specs.Places.{first_word};
ghost use Rattle.fm_plain_frame.specs.Units.{unit_of};
ghost use Rattle.fm_plain_eval.specs.Outcomes.{IsDone};
ghost use Rattle.fm_plain.specs.Cutting.{elements_sent, first_size, later_fields};

use crate::here::Here;
use fm_base::{Fault, Seq};
use fm_mean::{Actual, Span};
use fm_plain_eval::Failure;
use fm_rules::sizing_place;
use fm_tree::{Field, Kind, Var};
use std::alloc::Global;
use std::collections::VecDeque;

fn fields_by(kind: &Kind) -> &[Field]
    ensures { fields_of result.now ≡ fields_by (kind_of kind.now) }
{
    match kind {
        Kind::Integer => &[],
        Kind::Logical => &[],
        Kind::In(fields) => fields.as_slice(),
        Kind::Out(fields) => fields.as_slice(),
    }
}

/// The fields of the messages of a port.
pub(crate) fn fields_at<'p>(here: &Here<'p>, port: &Var) -> &'p [Field]
    ensures { fields_of result.now ≡ fields_at (unit_of here.now.unit) port.now }
{
    match here.unit.variable(&port.name) {
        None => &[],
        Some((_, variable)) => fields_by(&variable.kind),
    }
}

fn first_word(words: &[i64]) -> i64
    ensures { result ≡ first_word words.now }
{
    match words.first() {
        None => 0,
        Some(word) => *word,
    }
}

// The number that a scalar item is.
fn size_in(item: Option<&Actual>) -> i64
    ensures { result ≡ size_in (option_copied item.entry) }
{
    match item {
        None => 0,
        Some(Actual::Given(words, _)) => first_word(words.as_slice()),
        Some(Actual::Taken(_)) => 0,
    }
}

// How many elements are sent of so many.
fn elements_sent(size: i64, count: usize) -> Result<usize, Fault>
    ensures { result ≡ elements_sent size count }
{
    match usize::try_from(size) {
        Ok(elements) => {
            if elements <= count {
                Ok(elements)
            } else {
                Err(Fault::Subscript)
            }
        }
        Err(_) => Err(Fault::Subscript),
    }
}

// The first elements of an item, so many.
fn cut_to(size: i64, item: Actual) -> Result<Actual, Fault>
    ensures { result ≡ cut_to size item }
{
    match item {
        Actual::Given(words, back) => match elements_sent(size, words.len()) {
            Ok(count) => {
                let mut words = words.into_vec();
                words.truncate(count);
                Ok(Actual::Given(Seq::from_vec(words), back))
            }
            Err(fault) => Err(fault),
        },
        Actual::Taken(span) => match elements_sent(size, span.count as usize) {
            Ok(count) => Ok(Actual::Taken(Span {
                variable: span.variable,
                first: span.first,
                count: count as u32,
            })),
            Err(fault) => Err(fault),
        },
    }
}

fn item_at(items: &[Actual], place: usize) -> Option<&Actual>
    ensures { option_copied result ≡ slice_get items.now place }
{
    items.get(place)
}

// The first elements of an item, as many as the other one says.
fn cut_by(size: Option<&Actual>, item: Actual) -> Result<Actual, Fault>
    ensures { result ≡ cut_to (size_in (option_copied size.entry)) item }
{
    cut_to(size_in(size), item)
}

// An item as it is sent, behind others.
fn cut_item(before: &[Actual], size: Option<usize>, item: Actual) -> Result<Actual, Fault>
    ensures { result ≡ cut_item before.now size item }
{
    match size {
        None => Ok(item),
        Some(place) => cut_by(item_at(before, place), item),
    }
}

fn first_size(fields: &[Field]) -> Option<usize>
    ensures { result ≡ first_size (fields_of fields.now) }
{
    match fields.first() {
        None => None,
        Some(field) => sizing_place(field.bounds.as_slice()),
    }
}

fn later_fields(fields: &[Field]) -> &[Field]
    ensures { fields_of result.now ≡ later_fields (fields_of fields.now) }
{
    match fields.split_first() {
        None => fields,
        Some((_, rest)) => rest,
    }
}

/// The items of a message as they are sent. The first fault; or want of memory.
pub(crate) fn cut_items(
    alloc: Global,
    fields: &[Field],
    items: Seq<Actual>,
) -> Result<Seq<Actual>, Failure>
    ensures { IsDone (cut_items [] (fields_of fields.now) items) result }
{
    let mut waiting = VecDeque::from_vec(items.into_vec());
    let mut left = fields;
    let mut done = Seq::new(alloc);
    'items: while let Some(item) = waiting.pop_front() {
        let item = cut_item(done.as_slice(), first_size(left), item)?;
        done.push(item)?;
        left = later_fields(left);
    }
    Ok(done)
}
