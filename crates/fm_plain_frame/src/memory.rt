//! The words of a frame: what makes, writes and exchanges them.

ghost use Rattle.std.specs.Prelude.{◌≡◌, ◌∷◌, ◌++◌, [], IfOk, OnOk, replicate};
ghost use Rattle.fm_mean.specs.Names.{all_unset};
ghost use Rattle.fm_mean.specs.Places.{exchange, written};
ghost use Rattle.fm_mean.specs.Layout.{AreLaidOut};
ghost use Rattle.fm_plain_frame.specs.Memory.{out_of, put_in, unset_word, values_of, word_place};

use crate::lookup::item_at;
pub use crate::reading::{number_at, port_at, variable_len, words};
use crate::word::{Word, holds_ports};
use fm_base::{NoMemory, PortValue};
use fm_mean::Span;
use fm_symbols::Variable;
use std::alloc::Global;
use std::mem;

fn push_unset(memory: &mut Vec<Word>, variable: &Variable) -> Result<(), NoMemory>
    ensures { OnOk result
        (memory.new.items ≡ memory.old.items ++ replicate variable.now.words (unset_word variable.now.kind)) }
{
    'elements: for element in 0..variable.words {
        memory.push(Word::unset(&variable.kind))?;
    }
    Ok(())
}

/// The memory with which a frame begins: each variable at full length, with nothing put into it.
pub fn unset(alloc: Global, variables: &[Variable]) -> Result<Vec<Word>, NoMemory>
    requires { AreLaidOut 0 variables.now }
    ensures { IfOk result (λ m. values_of variables.now m.items ≡ all_unset variables.now) }
{
    let mut memory = Vec::new(alloc);
    'variables: for variable in variables {
        push_unset(&mut memory, variable)?;
    }
    Ok(memory)
}

/// The place of an element's word in the memory, where the variable has so many.
fn word_place(variable: &Variable, element: usize) -> Option<usize>
    ensures { result ≡ word_place variable.now element }
{
    if element < variable.words as usize {
        Some(variable.first as usize + element)
    } else {
        None
    }
}

/// Puts a word at an element of a variable; what was there comes out. Where there is no such place, that word comes
/// out.
fn replace_word(memory: &mut [Word], variable: &Variable, element: usize, word: Word) -> Word
    ensures memory { memory.new ≡ put_in memory.old (word_place variable.now element) word }
    ensures word { result ≡ out_of memory.old (word_place variable.now element) word }
{
    match word_place(variable, element) {
        None => word,
        Some(place) => {
            if place < memory.len() {
                mem::replace(&mut memory[place], word)
            } else {
                word
            }
        }
    }
}

/// Puts words into a span, from its first element on, no further than the variable goes.
pub fn write(memory: &mut [Word], variables: &[Variable], span: Span, words: &[i64])
    requires { AreLaidOut 0 variables.now }
    ensures { values_of variables.now memory.new ≡ written (values_of variables.now memory.old) span words.now }
{
    let Some(variable) = item_at(variables, span.variable as usize) else {
        return;
    };
    if holds_ports(&variable.kind) {
        return;
    }
    let mut element = span.first;
    'words: for number in words {
        if element >= variable.words as usize {
            return;
        }
        replace_word(memory, variable, element, Word::of_number(number));
        element += 1;
    }
}

/// Puts one word at the first element of a span.
pub fn put_number(memory: &mut [Word], variables: &[Variable], span: Span, number: i64)
    requires { AreLaidOut 0 variables.now }
    ensures { values_of variables.now memory.new ≡ written (values_of variables.now memory.old) span (number ∷ []) }
{
    write(memory, variables, span, &[number]);
}

/// Exchanges the port at an element of a variable for another. Where there is no such element, that one comes out.
pub fn exchange(
    memory: &mut [Word],
    variables: &[Variable],
    variable: u32,
    element: usize,
    port: Option<PortValue>,
) -> Option<PortValue>
    requires { AreLaidOut 0 variables.now }
    ensures memory { values_of variables.now memory.new
        ≡ (exchange (values_of variables.now memory.old) variable element port).0 }
    ensures port { result ≡ (exchange (values_of variables.now memory.old) variable element port).1 }
{
    match item_at(variables, variable as usize) {
        None => port,
        Some(variable) => {
            if holds_ports(&variable.kind) {
                replace_word(memory, variable, element, Word::of_port(port)).into_port()
            } else {
                port
            }
        }
    }
}
