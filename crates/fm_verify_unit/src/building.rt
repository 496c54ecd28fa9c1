//! What instructions that build take and give.

ghost use Rattle.std.specs.Prelude.{◌≡◌, ◌∷◌, ℕ, cond, true, false, IfOk, MatchOption, OnOk, List, Some, None, reverse, slice_get};
ghost use Rattle.fm_code_kinds.specs.Effects.{built, cut_over, is_cut, is_size, may_cut, operands_on, operands_over, over_port};
ghost use Rattle.fm_code.specs.declared.instr.Build.TheVariants as builds;
ghost use Rattle.fm_code_kinds.specs.declared.kinds.Kind as declared;
ghost use Rattle.fm_code_kinds.specs.declared.kinds.Kind.TheVariants as kinds;
ghost use Rattle.fm_verify_unit.specs.Telling.{cut_of, plain_built, where_so, with_kind_on};

use crate::cells::{are_words, spans_ports, spans_words};
use crate::kinds::Kinds;
use crate::searched::Cells;
use crate::taking::{pop_place, pop_word, pop_words, take_operands};
use fm_base::NoMemory;
use fm_code::{Build, Loop, Span, front};
use fm_code_kinds::{Kind, Passed};
use std::alloc::Global;

/// An operand, where the test holds.
fn operand_where(test: bool, operand: Passed) -> Option<Option<Kind>>
    ensures { result ≡ cond test (Some (Some (kinds.Operand operand))) None }
{
    if test {
        Some(Some(Kind::Operand(operand)))
    } else {
        None
    }
}

/// Nothing more, where the test holds.
fn nothing_where(test: bool) -> Option<Option<Kind>>
    ensures { result ≡ cond test (Some None) None }
{
    if test { Some(None) } else { None }
}

/// The loop, where it is one of the unit's and its variable is no port.
fn loop_where(cells: &Cells, loops: u64, counts: Loop) -> Option<Option<Kind>>
    ensures { (ks : List declared.Kind) → with_kind_on result ks ≡ built cells.now loops (builds.Loop counts) ks }
{
    if u64::from(counts.number) < loops && are_words(cells, u64::from(counts.word), 1) {
        Some(Some(Kind::LoopOf(counts)))
    } else {
        None
    }
}

/// Takes a place, and gives the word there as an operand.
fn pass_word_at(cells: &Cells, held: &mut Kinds) -> Option<Option<Kind>>
    ensures { (loops : ℕ) → with_kind_on result held.new ≡ plain_built cells.now loops builds.PassWordAt held.old }
{
    let span = pop_place(held)?;
    operand_where(spans_words(cells, span), Passed::WordIn(span))
}

/// The same of a port word.
fn pass_port_at(cells: &Cells, held: &mut Kinds) -> Option<Option<Kind>>
    ensures { (loops : ℕ) → with_kind_on result held.new ≡ plain_built cells.now loops builds.PassPortAt held.old }
{
    let span = pop_place(held)?;
    operand_where(spans_ports(cells, span), Passed::PortIn(span))
}

/// Takes what an instruction takes; gives the kind that it gives, if it gives one. Nothing of a `Cut`.
fn build_plain(cells: &Cells, loops: u64, instr: Build, held: &mut Kinds) -> Option<Option<Kind>>
    ensures { with_kind_on result held.new ≡ plain_built cells.now loops instr held.old }
{
    match instr {
        Build::Letter(_) | Build::ShowText => Some(None),
        Build::Show | Build::ShowTruth => {
            pop_word(held)?;
            Some(None)
        }
        Build::ShowWords(span) | Build::ShowTruths(span) => nothing_where(spans_words(cells, span)),
        Build::PassValue => {
            pop_word(held)?;
            Some(Some(Kind::Operand(Passed::Value)))
        }
        Build::PassWords(span) => operand_where(spans_words(cells, span), Passed::Words(span)),
        Build::PassPorts(span) => operand_where(spans_ports(cells, span), Passed::Ports(span)),
        Build::PassWordAt => pass_word_at(cells, held),
        Build::PassPortAt => pass_port_at(cells, held),
        Build::Status => {
            let span = pop_place(held)?;
            nothing_where(spans_words(cells, span))
        }
        Build::Loop(counts) => loop_where(cells, loops, counts),
        Build::Location(count) => {
            pop_words(count, held)?;
            Some(None)
        }
        Build::Submachine => {
            pop_words(2, held)?;
            Some(None)
        }
        Build::Cut(_, _) => None,
    }
}

/// The places of a `Cut`.
fn cut_of(instr: Build) -> Option<(u32, u32)>
    ensures { result ≡ cut_of instr }
{
    match instr {
        Build::Cut(item, size) => Some((item, size)),
        Build::Letter(_)
        | Build::ShowText
        | Build::Show
        | Build::ShowTruth
        | Build::ShowWords(_)
        | Build::ShowTruths(_)
        | Build::PassValue
        | Build::PassWords(_)
        | Build::PassPorts(_)
        | Build::PassWordAt
        | Build::PassPortAt
        | Build::Status
        | Build::Loop(_)
        | Build::Location(_)
        | Build::Submachine => None,
    }
}

/// Whether the operand is words that no operand sizes yet.
fn is_cut(operand: Option<Passed>) -> bool
    ensures { result ≡ is_cut operand }
{
    match operand {
        Some(Passed::Value | Passed::Words(_) | Passed::WordIn(_)) => true,
        Some(Passed::Ports(_) | Passed::PortIn(_) | Passed::Sized(_)) | None => false,
    }
}

/// Whether the operand is one word.
fn is_size(operand: Option<Passed>) -> bool
    ensures { result ≡ is_size operand }
{
    match operand {
        Some(Passed::Value | Passed::WordIn(_)) => true,
        Some(Passed::Words(span)) => span.count == 1,
        Some(Passed::Ports(_) | Passed::PortIn(_) | Passed::Sized(_)) | None => false,
    }
}

/// The operand at this place.
fn operand_at(operands: &[Passed], place: u32) -> Option<Passed>
    ensures { result ≡ slice_get operands.now place }
{
    operands.get(place as usize).copied()
}

/// Whether the one operand may be cut to what the other is.
fn may_cut(item: u32, size: u32, operands: &[Passed]) -> bool
    ensures { result ≡ may_cut item size operands.now }
{
    size < item && (is_size(operand_at(operands, size)) && is_cut(operand_at(operands, item)))
}

/// Puts operands back, in their order.
fn push_operands(operands: &[Passed], held: &mut Kinds) -> Result<(), NoMemory>
    ensures { OnOk result (held.new ≡ operands_over (reverse operands.now) held.old) }
{
    let mut rest = operands;
    'operands: while let Some((operand, behind)) = front(rest) {
        held.push(Kind::Operand(operand))?;
        rest = behind;
    }
    Ok(())
}

/// Takes the place of a port that stands alone on results.
fn pop_port(cells: &Cells, held: &mut Kinds) -> Option<Span>
    ensures { MatchOption result (over_port cells.now held.old ≡ false)
        (λ span. (over_port cells.now held.old ≡ true) × (held.old ≡ kinds.Word (Some span) ∷ held.new)) }
{
    let Some(span) = pop_place(held) else {
        return None;
    };
    if spans_ports(cells, span) && held.only_results() {
        Some(span)
    } else {
        None
    }
}

/// Cuts an operand; whether it may.
fn cut(
    alloc: Global,
    cells: &Cells,
    item: u32,
    size: u32,
    held: &mut Kinds,
) -> Result<bool, NoMemory>
    ensures { IfOk result (λ done. where_so done held.new ≡ cut_over cells.now item size (operands_on held.old)) }
{
    let mut operands = take_operands(alloc, held)?;
    let Some(span) = pop_port(cells, held) else {
        return Ok(false);
    };
    if !may_cut(item, size, &operands) {
        return Ok(false);
    }
    operands[item as usize] = Passed::Sized(size);
    held.push(Kind::Word(Some(span)))?;
    push_operands(&operands, held)?;
    Ok(true)
}

/// Puts what an instruction gives on the list; whether it found what it takes.
fn given(kind: Option<Option<Kind>>, held: &mut Kinds) -> Result<bool, NoMemory>
    ensures { IfOk result (λ done. where_so done held.new ≡ with_kind_on kind held.old) }
{
    let Some(kind) = kind else {
        return Ok(false);
    };
    if let Some(kind) = kind {
        held.push(kind)?;
    }
    Ok(true)
}

/// Takes what an instruction takes and puts what it gives on the list; whether it found what it takes.
pub(crate) fn build(
    alloc: Global,
    cells: &Cells,
    loops: u64,
    instr: Build,
    held: &mut Kinds,
) -> Result<bool, NoMemory>
    ensures { IfOk result (λ done. where_so done held.new ≡ built cells.now loops instr held.old) }
{
    if let Some((item, size)) = cut_of(instr) {
        return cut(alloc, cells, item, size, held);
    }
    let kind = build_plain(cells, loops, instr, held);
    given(kind, held)
}
