//! Laws of traces and their texts.

ghost use Rattle.std.specs.Prelude.{◌≡◌, ◌⊎◌, ℕ, List, None, map};
ghost use Rattle.fm_base.specs.declared.schedule.Turn.{Turn};
ghost use Rattle.fm_trace.specs.Texts.{AreOf, HoldsAtMostOnce, IsFirstMalformed, IsTrace, IsTraceText, history_of, once, trace_of_history, trace_text};
ghost use Rattle.fm_trace.specs.declared.trace.Form.TheVariants as forms;
ghost use Rattle.fm_trace.specs.declared.trace.Trace as declared;

/// Bytes are the text of one trace, or have one first malformed line, and never both. So each answer of `read` but want
/// of memory is the only one.
pub fn one_answer()
    ensures either { (bytes : List ℕ) →
        ((t : declared.Trace) × IsTraceText bytes t) ⊎ ((line : ℕ) × IsFirstMalformed bytes line) }
    ensures one_trace { (bytes : List ℕ) → HoldsAtMostOnce (IsTraceText bytes) }
    ensures one_line { (bytes : List ℕ) → HoldsAtMostOnce (IsFirstMalformed bytes) }
    ensures not_both { (bytes : List ℕ) (t : declared.Trace) → IsTraceText bytes t →
        (line : ℕ) → ¬ IsFirstMalformed bytes line }
{}

/// A trace stands for one history: the trace of a history for that history. A trace of form 2 is the trace of the
/// history that it stands for, so that what was read of a text of form 2 is written again to the same bytes. A trace of
/// form 1 has a line for each entry of its history, so it too is the only one of that history; and what was read of it
/// is written to a text of form 2, of the same turns, history and program.
pub fn one_history()
    ensures history { (turns : ℕ) (history : List Turn) (source : List ℕ) →
        history_of (trace_of_history turns history source) ≡ history }
    ensures form_2 { (t : declared.Trace) → IsTrace t → AreOf forms.Two None t.entries →
        trace_of_history t.turns (history_of t) t.source ≡ t }
    ensures form_1 { (t : declared.Trace) → AreOf forms.One None t.entries → map once (history_of t) ≡ t.entries }
    ensures written { (t : declared.Trace) → IsTrace t
        → IsTraceText (trace_text (trace_of_history t.turns (history_of t) t.source))
        (trace_of_history t.turns (history_of t) t.source) }
{}
