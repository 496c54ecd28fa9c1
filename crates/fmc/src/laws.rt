//! Laws of what is answered, beside its calls. Each function has an empty body or calls other laws: its contract is the
//! law.

ghost use Rattle.std.specs.Prelude.{ℕ, Bool, List};
ghost use Rattle.fm_base.specs.declared.schedule.Turn.{Turn};
ghost use Rattle.fm_net.specs.Machine.{Place};
ghost use Rattle.fm_words.specs.declared.command.Command.TheVariants as command;
ghost use Rattle.fmc.specs.declared.answer.Exit.TheVariants as exits;
ghost use Rattle.fmc.specs.Answer.{Says};
ghost use Rattle.fmc.specs.Compiled.{ExecRuns, ExecTellsRun, IsCompiledOf};
ghost use Rattle.fmc.specs.OneAnswer.{HasOneAnswer, HaveOneCause};
ghost use Rattle.fmc.specs.Plain.{PlainOrNot};

/// Two answers of `replay` to the same bytes are one, where the bytes decide each, and memory was found: a report, a
/// run that is spent, entry k that is illegal, an end that isn't reached, line k that is malformed, a refusal, or too
/// long a text, and none beside.
pub fn replay_has_one_answer()
    ensures { (vars : Bool) (b : List ℕ) → HasOneAnswer (Says (command.Replay vars) b) }
{
    fm_front::one_verdict();
    fm_front::one_program();
}

/// What `compile` writes of a source is the text of the image of the source's program and its code. The image is within
/// its ranges and makes sense, and its code is the program's: what executes the one executes the other. So `exec` finds
/// no malformed line in the text, and no unit that makes no sense.
pub fn compiled_makes_sense()
    ensures { (source : List ℕ) (history : List Turn) (places : List Place) (text : List ℕ)
        → Says command.Compile source exits.Done history places text
        → IsCompiledOf source text }
{}

/// Where `compile` wrote the bytes of a source, `exec` runs them, unless they are over its limit, no memory is found,
/// or reading them fails. Then it says what `run` says of the source: the same exit and the same report, of a schedule
/// of the program that is fair.
pub fn exec_tells_the_run()
    ensures runs { (source bytes : List ℕ) (history : List Turn) (places : List Place)
        → Says command.Compile source exits.Done history places bytes
        → ExecRuns bytes }
    ensures tells { (source bytes : List ℕ) (history : List Turn) (places : List Place)
        → Says command.Compile source exits.Done history places bytes
        → ExecTellsRun source bytes }
{}

/// Two answers of `exec` to the same bytes are one, with the same turns and the same question, where the bytes decide
/// each, and memory was found: the same run, or the same cause that there was none.
pub fn exec_has_one_answer()
    ensures { (turns : ℕ) (vars : Bool) (b : List ℕ) → HasOneAnswer (Says (command.Exec turns vars) b) }
{}

/// Whatever the turns, two such answers are both of runs, or are one: line k that is malformed, unit k that makes no
/// sense, or too long a text, and none beside.
pub fn exec_has_one_cause()
    ensures { (turns others : ℕ) (vars shown : Bool) (b : List ℕ)
        → HaveOneCause (Says (command.Exec turns vars) b) (Says (command.Exec others shown) b) }
{}

/// The program of a source is plain or not, and not both.
pub(crate) fn plain_or_not()
    ensures { PlainOrNot }
{
    fm_front::one_program();
    fm_nodes_plain::one_line();
}
