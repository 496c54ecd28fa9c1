//! The class of a text.

ghost use Rattle.std.specs.Prelude.{◌≡◌, ◌<◌, ◌≤◌, length, drop, find, Some, None, IfSome, codes};
ghost use Rattle.fm_base.specs.Tokens.{keyword_text};
ghost use Rattle.fm_token.specs.Cutting.{logical_end};
ghost use Rattle.fm_token.specs.Classes.{begins, begins_so, class_of, condition_end, first_word_class, first_words, goes_on, has_sign, is_whole, is_same_text, loop_class, plain_class, whole_words, word_class};

use crate::top_level::{close_of, has_top};
use fm_base::Class;

/// The classes whose statements are one word.
const WHOLE_WORDS: [Class; 11] = [
    Class::End,
    Class::EndIf,
    Class::EndDo,
    Class::EndProcesses,
    Class::EndProcessDo,
    Class::Else,
    Class::Continue,
    Class::Return,
    Class::Stop,
    Class::Processes,
    Class::ImplicitNone,
];

/// The classes whose statements begin with a word, in the order of trial, with the sign that has
/// to stand behind the word.
const FIRST_WORDS: [(Class, Option<u8>); 28] = [
    (Class::ElseIf, Some(b'(')),
    (Class::DoWhile, Some(b'(')),
    (Class::Goto, None),
    (Class::EndChannel, Some(b'(')),
    (Class::Channel, Some(b'(')),
    (Class::Merger, Some(b'(')),
    (Class::Send, Some(b'(')),
    (Class::Receive, Some(b'(')),
    (Class::MovePort, Some(b'(')),
    (Class::Probe, Some(b'(')),
    (Class::ProcessCall, None),
    (Class::Processors, Some(b'(')),
    (Class::Process, None),
    (Class::Program, None),
    (Class::Subroutine, None),
    (Class::IntegerFunction, None),
    (Class::LogicalFunction, None),
    (Class::Function, None),
    (Class::Call, None),
    (Class::Print, Some(b'*')),
    (Class::Write, Some(b'(')),
    (Class::Integer, None),
    (Class::Logical, None),
    (Class::Dimension, None),
    (Class::Parameter, Some(b'(')),
    (Class::Inport, Some(b'(')),
    (Class::Outport, Some(b'(')),
    (Class::Intent, Some(b'(')),
];

fn begins(text: &[u8], word: &[u8]) -> bool
    ensures { result ≡ begins text.now word.now }
{
    text.strip_prefix(word).is_some()
}

fn goes_on(behind: &[u8]) -> bool
    ensures { result ≡ goes_on behind.now }
{
    match behind.first() {
        Some(byte) => *byte != b'=',
        None => false,
    }
}

fn is_then(behind: &[u8]) -> bool
    ensures { result ≡ is_same_text behind.now (codes "THEN") }
{
    behind == b"THEN".as_slice()
}

/// Of an IF: how many bytes there are up to and with the parenthesis that closes.
#[tactic(auto, unfolding(crate::specs::Classes::condition_end))]
pub fn condition_end(text: &[u8]) -> Option<usize>
    ensures at { result ≡ condition_end text.now }
    ensures within { IfSome result (λ n. (0 < n) × (n ≤ length text.now)) }
{
    if !begins(text, b"IF(") {
        return None;
    }
    match close_of(text) {
        None => None,
        Some(n) => {
            let (_, behind) = text.split_at(n);
            if goes_on(behind) { Some(n) } else { None }
        }
    }
}

/// Of a logical IF: the same.
#[tactic(auto, unfolding(crate::specs::Cutting::logical_end))]
pub fn logical_end(text: &[u8]) -> Option<usize>
    ensures at { result ≡ logical_end text.now }
    ensures within { IfSome result (λ n. (0 < n) × (n ≤ length text.now)) }
{
    match condition_end(text) {
        None => None,
        Some(n) => {
            let (_, behind) = text.split_at(n);
            if is_then(behind) { None } else { Some(n) }
        }
    }
}

#[tactic(auto, unfolding(crate::specs::Classes::loop_class))]
fn loop_class(text: &[u8]) -> Class
    ensures { result ≡ loop_class text.now }
{
    if begins(text, b"PROCESSDO") {
        Class::ProcessDo
    } else if begins(text, b"DO") {
        Class::Do
    } else {
        Class::Nothing
    }
}

fn is_whole(text: &[u8], class: Class) -> bool
    ensures { result ≡ is_whole text.now class }
{
    text == class.keyword()
}

fn has_sign(sign: Option<u8>, behind: &[u8]) -> bool
    ensures { result ≡ has_sign sign behind.now }
{
    match sign {
        None => true,
        Some(sign) => match behind.first() {
            None => false,
            Some(byte) => *byte == sign,
        },
    }
}

fn begins_so(text: &[u8], entry: (Class, Option<u8>)) -> bool
    ensures { result ≡ begins_so text.now entry }
{
    let (class, sign) = entry;
    match text.strip_prefix(class.keyword()) {
        None => false,
        Some(behind) => has_sign(sign, behind),
    }
}

fn first_word(text: &[u8]) -> Option<(Class, Option<u8>)>
    ensures { result ≡ find (begins_so text.now) FIRST_WORDS }
{
    FIRST_WORDS
        .iter()
        .copied()
        .find(|entry| begins_so(text, *entry))
}

fn first_word_class(text: &[u8]) -> Class
    ensures { result ≡ first_word_class text.now }
{
    match first_word(text) {
        None => Class::Nothing,
        Some((class, _)) => class,
    }
}

fn whole_word(text: &[u8]) -> Option<Class>
    ensures { result ≡ find (is_whole text.now) WHOLE_WORDS }
{
    WHOLE_WORDS
        .iter()
        .copied()
        .find(|class| is_whole(text, *class))
}

fn word_class(text: &[u8]) -> Class
    ensures { result ≡ word_class text.now }
{
    match whole_word(text) {
        None => first_word_class(text),
        Some(class) => class,
    }
}

#[tactic(auto, unfolding(crate::specs::Classes::plain_class))]
fn plain_class(text: &[u8]) -> Class
    ensures { result ≡ plain_class text.now }
{
    if !has_top(text, b'=') {
        word_class(text)
    } else if has_top(text, b',') {
        loop_class(text)
    } else {
        Class::Assignment
    }
}

/// The class of a statement's text: the first form that fits. An IF comes before all else, then an
/// equals sign at top level, then the words. `Class::Nothing` where no form fits.
#[tactic(auto, unfolding(crate::specs::Classes::class_of))]
pub fn class(text: &[u8]) -> Class
    ensures { result ≡ class_of text.now }
{
    match condition_end(text) {
        None => plain_class(text),
        Some(n) => {
            let (_, behind) = text.split_at(n);
            if is_then(behind) {
                Class::BlockIf
            } else {
                Class::LogicalIf
            }
        }
    }
}
