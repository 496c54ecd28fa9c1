//! What the variables of main hold.

ghost use Rattle.std.specs.Prelude.{◌≡◌, map, option_map, IfOk, OnOk};
ghost use Rattle.std.specs.Option.{option_copied};
ghost use Rattle.fm_base.specs.Channels.{channel_of};
ghost use Rattle.fm_symbols.specs.ByName.{first_of_each, with_new};
ghost use Rattle.fm_values.specs.Values.{is_truth};
ghost use Rattle.fm_rules.specs.declared.program.Program as declared;
ghost use Rattle.fm_mean.specs.Outcome.{own_variables, shown_all, shown_by, shown_variables};
ghost use Rattle.fm_plain_frame.specs.Frames.{proc_of};
ghost use Rattle.fm_plain_frame.specs.Memory.{item_in, number_in, port_in, values_of};
ghost use Rattle.fm_plain_net.specs.Shown.{of_frame};

use fm_base::{ChanName, NoMemory, Seq};
use fm_finmap::NameMap;
use fm_mean::{Shown, ShownVariable};
use fm_plain_frame::{Frame, PlainProc, Word, part, variables_of};
use fm_rules::Program;
use fm_run::variables_in_order;
use fm_symbols::Variable;
use fm_tree::Kind;
use fm_values::is_truth;
use std::alloc::Global;

fn number_in(word: &Word) -> i64
    ensures { result ≡ number_in word.now }
{
    match word {
        Word::Number(number) => *number,
        Word::Null => 0,
        Word::Port(_) => 0,
    }
}

fn channel_in(alloc: Global, word: &Word) -> Result<Option<ChanName>, NoMemory>
    ensures { IfOk result (λ c. c ≡ option_map channel_of (port_in word.now)) }
{
    match word {
        Word::Number(_) => Ok(None),
        Word::Null => Ok(None),
        Word::Port(port) => Ok(Some(port.channel().copy(alloc)?)),
    }
}

fn numbers(alloc: Global, words: &[Word]) -> Result<Seq<i64>, NoMemory>
    ensures { IfOk result (λ s. s ≡ map number_in words.now) }
{
    let mut all = Seq::new(alloc);
    'words: for word in words {
        all.push(number_in(word))?;
    }
    Ok(all)
}

fn truths(alloc: Global, words: &[Word]) -> Result<Seq<bool>, NoMemory>
    ensures { IfOk result (λ s. s ≡ map is_truth (map number_in words.now)) }
{
    let mut all = Seq::new(alloc);
    'words: for word in words {
        all.push(is_truth(number_in(word)))?;
    }
    Ok(all)
}

fn channels(alloc: Global, words: &[Word]) -> Result<Seq<Option<ChanName>>, NoMemory>
    ensures { IfOk result (λ s. s ≡ map (option_map channel_of) (map port_in words.now)) }
{
    let mut all = Seq::new(alloc);
    'words: for word in words {
        all.push(channel_in(alloc, word)?)?;
    }
    Ok(all)
}

// What a variable holds, element after element.
fn shown(alloc: Global, variable: &Variable, memory: &[Word]) -> Result<Shown, NoMemory>
    ensures { IfOk result (λ s. s ≡ shown_by variable.now.kind (item_in memory.now variable.now)) }
{
    let words = part(memory, variable.first as usize, variable.words as usize);
    match &variable.kind {
        Kind::Integer => Ok(Shown::Numbers(numbers(alloc, words)?)),
        Kind::Logical => Ok(Shown::Truths(truths(alloc, words)?)),
        Kind::In(_) => Ok(Shown::Ports(channels(alloc, words)?)),
        Kind::Out(_) => Ok(Shown::Ports(channels(alloc, words)?)),
    }
}

// Of two variables of a name the first counts.
fn put_shown(
    alloc: Global,
    all: &mut NameMap<Shown>,
    variable: &Variable,
    memory: &[Word],
) -> Result<(), NoMemory>
    ensures { OnOk result
        (all.new ≡ with_new all.old variable.now.name (shown_by variable.now.kind (item_in memory.now variable.now))) }
{
    if all.contains_key(&variable.name) {
        return Ok(());
    }
    let name = variable.name.copy(alloc)?;
    all.insert(name, shown(alloc, variable, memory)?)?;
    Ok(())
}

fn by_name(
    alloc: Global,
    variables: &[Variable],
    memory: &[Word],
) -> Result<NameMap<Shown>, NoMemory>
    ensures { IfOk result
        (λ m. m ≡ first_of_each (shown_variables variables.now (values_of variables.now memory.now))) }
{
    let mut all = NameMap::new(alloc);
    'variables: for variable in variables {
        put_shown(alloc, &mut all, variable, memory)?;
    }
    Ok(all)
}

// The frame of the process itself, below those of calls.
fn own_frame(process: &PlainProc) -> Option<&Frame>
    ensures { (p : declared.Program)
        → own_variables p (proc_of p process.now).execution.frames ≡ of_frame p (option_copied result) }
{
    match process.below.first() {
        Some(frame) => Some(frame),
        None => process.top.as_ref(),
    }
}

// The variables of a process.
fn shown_of(
    alloc: Global,
    program: &Program,
    process: &PlainProc,
) -> Result<Vec<ShownVariable>, NoMemory>
    ensures { IfOk result
        (λ v. v.items ≡ own_variables program.now (proc_of program.now process.now).execution.frames) }
{
    match own_frame(process) {
        Some(frame) => {
            let variables = variables_of(program, frame.unit);
            let all = by_name(alloc, variables, frame.memory.as_slice())?;
            variables_in_order(alloc, all)
        }
        None => Ok(Vec::new(alloc)),
    }
}

/// What the variables of main hold, in byte order of their names.
pub fn shown_all(
    alloc: Global,
    program: &Program,
    main: Option<&PlainProc>,
) -> Result<Vec<ShownVariable>, NoMemory>
    ensures { IfOk result
        (λ v. v.items ≡ shown_all program.now (option_map (proc_of program.now) (option_copied main.entry))) }
{
    match main {
        Some(process) => shown_of(alloc, program, process),
        None => Ok(Vec::new(alloc)),
    }
}
