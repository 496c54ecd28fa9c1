//! What a body does, told without doing it.

ghost use Rattle.std.specs.Prelude.{◌≡◌, ◌++◌, ◌+◌, ℤ, List, pos, true, false, length, slice_get, slice_set, IfOk, IfSome, OnOk, Some, None};
ghost use Rattle.std.specs.Option.{option_map};
ghost use Rattle.std.specs.Prelude.{[], ◌∷◌, MatchOption, reverse};
ghost use Rattle.std.specs.List.{flat_map, list_any};
ghost use Rattle.fm_code.specs.declared.body.Back.{Back};
ghost use Rattle.fm_code.specs.declared.body.Start.{Start};
ghost use Rattle.fm_code.specs.Passing.{back_words, backs_fit, live, ports_in};
ghost use Rattle.fm_code.specs.Statements.{Meets, word_at, unit_at, ports_of, line_at, line_of, fails, start_ports, left_ports, given, gives_back, results_in, closes, moves};
ghost use Rattle.fm_machine_calls.specs.declared.looking.Look.TheVariants as look;
ghost use Rattle.fm_machine_calls.specs.Looks.{look_in, look_by};

use crate::giving::{backs_fit, give_all, plain_words, push_ports};
use fm_base::{Fault, Line, NoMemory, Seq};
use fm_code::{Ask, Back, Body, Entry, Frame, SharedCode, Start, Unit, is_port, word_at};
use std::alloc::Global;

/// What a body does.
#[derive(Drop)]
pub enum Look {
    /// A step that lets no port go.
    Goes,
    /// It asks for something.
    Asks(Ask),
    /// An instruction doesn't find what it needs.
    Stuck,
}

/// The code of a unit.
pub fn unit_at(code: &SharedCode, number: u32) -> Option<&Unit>
    ensures { option_map (λ u. u.now) result ≡ slice_get code.now.units number }
{
    code.code().units.as_slice().get(number as usize)
}

/// The last entry, and those before it.
#[tactic(auto, using(crate::proofs::Lines::last_first))]
fn last_of(entries: &[Entry]) -> Option<(Entry, &[Entry])>
    ensures { MatchOption result (entries.now ≡ []) (λ l. reverse entries.now ≡ l.0 ∷ reverse l.1.now) }
{
    let (last, before) = entries.split_last()?;
    Some((*last, before))
}

/// The line of an address.
fn line_at(entries: &[Entry], address: u32) -> Line
    ensures { result.0 ≡ line_at entries.now address }
{
    let mut entries = entries;
    'entries: while let Some((last, before)) = last_of(entries) {
        if last.address <= address {
            return last.line;
        }
        entries = before;
    }
    Line(0)
}

/// The line of the next statement.
pub fn line_of(body: &Body) -> Line
    ensures { result.0 ≡ line_of body.now }
{
    let entries = match unit_at(&body.code, body.frame.unit) {
        Some(unit) => unit.entries.as_slice(),
        None => &[],
    };
    line_at(entries, body.frame.address)
}

/// The fault of the next statement.
pub fn fail(body: &Body, fault: Fault) -> Ask
    ensures { Meets result ≡ fails body.now fault }
{
    let line = line_of(body);
    Ask::Fail { line, fault }
}

/// The step with these ports let go.
fn look_by(alloc: Global, ports: Seq<i64>) -> Look
    ensures { result ≡ look_by ports }
{
    let mut ports = ports;
    if ports.len() == 0 {
        Look::Goes
    } else {
        Look::Asks(Ask::LetGo {
            slots: ports.take(alloc),
        })
    }
}

fn push_unit_ports(
    code: &SharedCode,
    unit: u32,
    words: &[i64],
    ports: &mut Seq<i64>,
) -> Result<(), NoMemory>
    ensures { OnOk result (ports.new ≡ ports.old ++ ports_in (ports_of (slice_get code.now.units unit)) words.now) }
{
    match unit_at(code, unit) {
        Some(unit) => push_ports(unit.ports.as_slice(), words, ports),
        None => Ok(()),
    }
}

/// Adds the ports of these starts.
pub fn push_start_ports(
    code: &SharedCode,
    starts: &[Start],
    ports: &mut Seq<i64>,
) -> Result<(), NoMemory>
    ensures { OnOk result (ports.new
        ≡ ports.old
        ++ flat_map (λ (s : Start). ports_in (ports_of (slice_get code.now.units s.unit)) s.words) starts.now) }
{
    'starts: for start in starts {
        push_unit_ports(code, start.unit, start.words.as_slice(), ports)?;
    }
    Ok(())
}

/// Adds the ports of a frame, were these its words, and of its starts.
fn push_ports_with(
    code: &SharedCode,
    frame: &Frame,
    words: &[i64],
    ports: &mut Seq<i64>,
) -> Result<(), NoMemory>
    ensures { OnOk result (ports.new
        ≡ ports.old
        ++ (ports_in (ports_of (slice_get code.now.units frame.now.unit)) words.now
        ++ flat_map (λ (s : Start). ports_in (ports_of (slice_get code.now.units s.unit)) s.words) frame.now.starts)) }
{
    push_unit_ports(code, frame.unit, words, ports)?;
    push_start_ports(code, frame.starts.as_slice(), ports)
}

/// Adds the ports of a frame and of its starts.
pub fn push_frame_ports(
    code: &SharedCode,
    frame: &Frame,
    ports: &mut Seq<i64>,
) -> Result<(), NoMemory>
    ensures { OnOk result (ports.new
        ≡ ports.old
        ++ (ports_in (ports_of (slice_get code.now.units frame.now.unit)) frame.now.words
        ++ flat_map (λ (s : Start). ports_in (ports_of (slice_get code.now.units s.unit)) s.words) frame.now.starts)) }
{
    push_ports_with(code, frame, frame.words.as_slice(), ports)
}

/// Adds the ports of the innermost frame, with these words, and of its starts.
fn push_left_ports(body: &Body, words: &[i64], ports: &mut Seq<i64>) -> Result<(), NoMemory>
    ensures { OnOk result (ports.new ≡ ports.old ++ left_ports body.now words.now) }
{
    push_ports_with(&body.code, &body.frame, words, ports)
}

fn gives_ports(backs: &[Back]) -> bool
    ensures { result ≡ list_any (λ (b : Back). b.port) backs.now }
{
    'backs: for back in backs {
        if back.port {
            return true;
        }
    }
    false
}

/// The ports that the innermost frame lets go as it returns to this one.
#[tactic(auto, using(crate::proofs::Plain::plain_theirs, crate::proofs::Plain::plain_drops))]
fn dropped(alloc: Global, body: &Body, caller: &Frame) -> Result<Seq<i64>, NoMemory>
    requires { backs_fit (length caller.now.words) (length body.now.frame.words) body.now.frame.backs ≡ true }
    ensures { IfOk result
        (λ ports. ports ≡ (given body.now caller.now).drops ++ left_ports body.now (given body.now caller.now).theirs) }
{
    let mut ports = Seq::new(alloc);
    let backs = body.frame.backs.as_slice();
    let words = body.frame.words.as_slice();
    if gives_ports(backs) {
        let mut mine = Seq::from_slice(alloc, caller.words.as_slice())?;
        let mut theirs = Seq::from_slice(alloc, words)?;
        give_all(alloc, backs, &mut mine, &mut theirs, &mut ports)?;
        push_left_ports(body, theirs.as_slice(), &mut ports)?;
    } else {
        push_left_ports(body, words, &mut ports)?;
    }
    Ok(ports)
}

/// The return from a subroutine.
pub fn look_back(alloc: Global, body: &Body) -> Result<Look, NoMemory>
    ensures { IfOk result (λ l. l ≡ look_in (gives_back body.now body.now.below)) }
{
    let Some(caller) = body.below.first() else {
        return Ok(Look::Asks(Ask::End));
    };
    if !backs_fit(
        caller.words.len(),
        body.frame.words.len(),
        body.frame.backs.as_slice(),
    ) {
        return Ok(Look::Stuck);
    }
    let ports = dropped(alloc, body, caller)?;
    Ok(look_by(alloc, ports))
}

/// Whether the innermost frame has no port words and no starts, so that it leaves no port.
#[tactic(auto, using(crate::proofs::Plain::leaves_none))]
pub fn leaves_no_port(body: &Body) -> bool
    ensures { result ≡ true → (words : List ℤ) → left_ports body.now words ≡ [] }
{
    match unit_at(&body.code, body.frame.unit) {
        Some(unit) => unit.ports.as_slice().is_empty() && body.frame.starts.len() == 0,
        None => false,
    }
}

/// What the return from a subroutine costs, where no port is left or given back; nothing is told where there may be
/// one.
pub fn look_plainly(body: &Body) -> Option<u64>
    ensures goes { IfSome result (λ cost. look_in (gives_back body.now body.now.below) ≡ look.Goes) }
    ensures plain { IfSome result (λ cost. list_any (λ (b : Back). b.port) body.now.frame.backs ≡ false) }
    ensures cost { IfSome result (λ cost. cost ≡ 1 + back_words body.now.frame.backs) }
{
    let caller = body.below.first()?;
    if !leaves_no_port(body) {
        return None;
    }
    let words = plain_words(
        caller.words.len(),
        body.frame.words.len(),
        body.frame.backs.as_slice(),
    )?;
    let cost = words.checked_add(1)?;
    Some(cost)
}

/// The return from a function.
pub fn look_value(alloc: Global, body: &Body, value: i64) -> Result<Look, NoMemory>
    ensures { IfOk result (λ l. l ≡ look_in (results_in body.now value body.now.below)) }
{
    let Some(_) = body.below.first() else {
        return Ok(Look::Asks(Ask::End));
    };
    let mut ports = Seq::new(alloc);
    push_frame_ports(&body.code, &body.frame, &mut ports)?;
    Ok(look_by(alloc, ports))
}

/// A port that is let go, if it is one.
fn look_at_port(alloc: Global, word: i64) -> Result<Look, NoMemory>
    ensures { IfOk result (λ l. l ≡ look_by (live (word ∷ []))) }
{
    let mut ports = Seq::new(alloc);
    if is_port(word) {
        ports.push(word)?;
    }
    Ok(look_by(alloc, ports))
}

/// ENDCHANNEL.
pub fn look_close(alloc: Global, body: &Body, number: u32, to: u32) -> Result<Look, NoMemory>
    ensures { IfOk result (λ l. l ≡ look_in (closes body.now number to)) }
{
    look_at_port(alloc, word_at(body.frame.words.as_slice(), number as usize))
}

/// What stands at a word of a frame when another was made NULL.
fn displaced_by_move(words: &[i64], from: usize, into: usize) -> i64
    ensures { result ≡ word_at (slice_set words.now from (pos 0)) into }
{
    if from == into {
        0
    } else {
        word_at(words, into)
    }
}

/// MOVEPORT.
pub fn look_move(
    alloc: Global,
    body: &Body,
    from: u32,
    into: u32,
    to: u32,
) -> Result<Look, NoMemory>
    ensures { IfOk result (λ l. l ≡ look_in (moves body.now from into to)) }
{
    let words = body.frame.words.as_slice();
    look_at_port(
        alloc,
        displaced_by_move(words, from as usize, into as usize),
    )
}
