//! What a unit that is opened gets.

ghost use Rattle.std.specs.Prelude.{◌≡◌, ◌++◌, pos, true, length, replicate, IfOk, OnOk};
ghost use Rattle.fm_code.specs.Acts.{has_span};
ghost use Rattle.fm_code.specs.Passing.{fits, all_fit, back_of, nulls, pass, pass_all, spliced};
ghost use Rattle.fm_code.specs.declared.ask.Operand.TheVariants as operand;
ghost use Rattle.fm_machine_calls.specs.Frames.{passed};

use fm_base::{NoMemory, Seq};
use fm_code::{Back, Formal, Operand, Span, front, words_of};
use std::alloc::Global;

/// So many words of 0.
pub fn nulls(alloc: Global, count: u32) -> Result<Seq<i64>, NoMemory>
    ensures { IfOk result (λ r. r ≡ replicate count (pos 0)) }
{
    let words = vec![in alloc; 0i64; count as usize]?;
    Ok(Seq::from_vec(words))
}

fn has_span(words: usize, span: Span) -> bool
    ensures { result ≡ has_span words span }
{
    span.first as usize + span.count as usize <= words
}

/// Whether an operand fits a formal, in frames of so many words.
fn fits(mine: usize, theirs: usize, formal: Formal, operand: Operand) -> bool
    ensures { result ≡ fits mine theirs formal operand }
{
    let sized = formal.span.count;
    match operand {
        Operand::Value(_) => !formal.port && sized == 1 && has_span(theirs, formal.span),
        Operand::Words(span) => {
            !formal.port
                && span.count == sized
                && has_span(mine, span)
                && has_span(theirs, formal.span)
        }
        Operand::Ports(span) => {
            formal.port
                && span.count == sized
                && has_span(mine, span)
                && has_span(theirs, formal.span)
        }
    }
}

/// Whether there is an operand for each formal, and each fits.
pub fn all_fit(mine: usize, theirs: usize, formals: &[Formal], operands: &[Operand]) -> bool
    ensures { result ≡ all_fit mine theirs formals.now operands.now }
{
    let mut formals = formals;
    let mut operands = operands;
    'formals: while let Some((formal, formals_behind)) = front(formals) {
        let Some((operand, operands_behind)) = front(operands) else {
            return false;
        };
        if !fits(mine, theirs, formal, operand) {
            return false;
        }
        formals = formals_behind;
        operands = operands_behind;
    }
    operands.is_empty()
}

/// The formal gives back to the span, unless it has INTENT(IN).
fn push_back(backs: &mut Seq<Back>, formal: Formal, span: Span, port: bool) -> Result<(), NoMemory>
    ensures { OnOk result (backs.new ≡ backs.old ++ back_of formal span port) }
{
    if !formal.input {
        backs.push(Back {
            from: formal.span.first,
            to: span.first,
            words: span.count,
            port,
        })?;
    }
    Ok(())
}

fn pass_words(
    formal: Formal,
    span: Span,
    mine: &Seq<i64>,
    theirs: &mut Seq<i64>,
    backs: &mut Seq<Back>,
) -> Result<(), NoMemory>
    requires { fits (length mine.now) (length theirs.old) formal (operand.Words span) ≡ true }
    ensures gives { OnOk result (pass formal (operand.Words span) (passed mine.now theirs.old backs.old)
        ≡ passed mine.now theirs.new backs.new) }
    ensures size { OnOk result (length theirs.new ≡ length theirs.old) }
{
    let words = words_of(mine.as_slice(), span);
    theirs.put(formal.span.first as usize, words);
    push_back(backs, formal, span, false)
}

/// Puts NULL into the words of a span.
fn clear_span(alloc: Global, words: &mut Seq<i64>, span: Span) -> Result<(), NoMemory>
    requires { has_span (length words.old) span ≡ true }
    ensures cleared { OnOk result (words.new ≡ spliced words.old span.first (nulls span.count)) }
    ensures size { OnOk result (length words.new ≡ length words.old) }
{
    if span.count == 1 {
        words.put(span.first as usize, &[0]);
        return Ok(());
    }
    let nulls = nulls(alloc, span.count)?;
    words.put(span.first as usize, nulls.as_slice());
    Ok(())
}

fn pass_ports(
    alloc: Global,
    formal: Formal,
    span: Span,
    mine: &mut Seq<i64>,
    theirs: &mut Seq<i64>,
    backs: &mut Seq<Back>,
) -> Result<(), NoMemory>
    requires { fits (length mine.old) (length theirs.old) formal (operand.Ports span) ≡ true }
    ensures gives { OnOk result (pass formal (operand.Ports span) (passed mine.old theirs.old backs.old)
        ≡ passed mine.new theirs.new backs.new) }
    ensures size { OnOk result (length theirs.new ≡ length theirs.old) }
    ensures mine { OnOk result (length mine.new ≡ length mine.old) }
{
    let words = words_of(mine.as_slice(), span);
    theirs.put(formal.span.first as usize, words);
    clear_span(alloc, mine, span)?;
    push_back(backs, formal, span, true)
}

fn pass_one(
    alloc: Global,
    formal: Formal,
    operand: Operand,
    mine: &mut Seq<i64>,
    theirs: &mut Seq<i64>,
    backs: &mut Seq<Back>,
) -> Result<(), NoMemory>
    requires { fits (length mine.old) (length theirs.old) formal operand ≡ true }
    ensures gives { OnOk result
        (pass formal operand (passed mine.old theirs.old backs.old) ≡ passed mine.new theirs.new backs.new) }
    ensures size { OnOk result (length theirs.new ≡ length theirs.old) }
    ensures mine { OnOk result (length mine.new ≡ length mine.old) }
{
    match operand {
        Operand::Value(word) => {
            theirs.put(formal.span.first as usize, &[word]);
            Ok(())
        }
        Operand::Words(span) => pass_words(formal, span, mine, theirs, backs),
        Operand::Ports(span) => pass_ports(alloc, formal, span, mine, theirs, backs),
    }
}

/// The operands go to the formals of a frame with these words, and to what it gives back; ports leave NULL
/// behind.
pub fn enter(
    alloc: Global,
    formals: &[Formal],
    operands: &[Operand],
    mine: &mut Seq<i64>,
    theirs: &mut Seq<i64>,
    backs: &mut Seq<Back>,
) -> Result<(), NoMemory>
    requires { all_fit (length mine.old) (length theirs.old) formals.now operands.now ≡ true }
    ensures { OnOk result (pass_all formals.now operands.now (passed mine.old theirs.old backs.old)
        ≡ passed mine.new theirs.new backs.new) }
{
    let mut formals = formals;
    let mut operands = operands;
    'formals: while let Some((formal, formals_behind)) = front(formals) {
        let Some((operand, operands_behind)) = front(operands) else {
            break;
        };
        pass_one(alloc, formal, operand, mine, theirs, backs)?;
        formals = formals_behind;
        operands = operands_behind;
    }
    Ok(())
}
