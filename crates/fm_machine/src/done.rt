//! What a slice of a process came to.

ghost use Rattle.std.specs.Prelude.{◌≡◌, ◌≤◌, Some, None, false};
ghost use Rattle.std.specs.Option.{option_map};
ghost use Rattle.fm_code.specs.Statements.{run, action_of, ask_of, is_stuck};
ghost use Rattle.fm_machine_calls.specs.Looks.{look_in};
ghost use Rattle.fm_machine.specs.Finished.{asked_in};

use fm_base::Seq;
use fm_code::{Ask, Body};
use fm_machine_calls::Look;
use std::sync::Arc;

/// What was made of a slice.
#[derive(Drop)]
pub struct Made {
    /// How many statements were done.
    pub steps: u32,
    /// What they cost.
    pub cost: u64,
    /// The lines that they put out.
    pub lines: Seq<Seq<u8>>,
    /// What the next statement does.
    pub next: Look,
}

impl Made {
    /// So many statements, with their cost and lines, and what the next one does.
    #[inline(always)]
    pub(crate) fn new(steps: u32, cost: u64, lines: Seq<Seq<u8>>, next: Look) -> Made
        ensures { result ≡ record { steps = steps; cost = cost; lines = lines; next = next } }
    {
        Made {
            steps,
            cost,
            lines,
            next,
        }
    }
}

fn asked_in(look: Look) -> Option<Ask>
    ensures { result ≡ asked_in look }
{
    match look {
        Look::Goes => None,
        Look::Asks(ask) => Some(ask),
        Look::Stuck => None,
    }
}

/// What a slice of a process came to: its start, run for so many statements, gives its end, its new output
/// and its cost; and what it asks for is what the next statement of its end asks for.
#[derive(Drop)]
pub struct Done {
    process: u32,
    steps: u32,
    cost: u64,
    start: Arc<Body>,
    end: Arc<Body>,
    lines: Seq<Seq<u8>>,
    ask: Option<Ask>,
    ghost ran: { run steps start.value ≡ Some (record { body = end.value; lines = lines; cost = cost }) },
    ghost asks: { ask ≡ ask_of end.value },
    ghost within: { steps ≤ 1000000 },
    ghost moves: { ask ≡ None → is_stuck start.value ≡ false → 1 ≤ steps },
}

impl Done {
    /// What came of a slice: the body after it, and what was made of it.
    #[tactic(auto, using(crate::proofs::Telling::asked_look))]
    pub(crate) fn new(process: u32, start: Arc<Body>, end: Arc<Body>, made: Made) -> Done
        requires ran { run made.steps start.value
            ≡ Some (record { body = end.value; lines = made.lines; cost = made.cost }) }
        requires next { made.next ≡ look_in (action_of end.value) }
        requires within { made.steps ≤ 1000000 }
        requires moves { ask_of end.value ≡ None → is_stuck start.value ≡ false → 1 ≤ made.steps }
        ensures process { result.process ≡ process }
        ensures start { result.start ≡ start }
        ensures steps { result.steps ≡ made.steps }
        ensures end { result.end ≡ end }
    {
        let Made {
            steps,
            cost,
            lines,
            next,
        } = made;
        let ask = asked_in(next);
        Done {
            process,
            steps,
            cost,
            start,
            end,
            lines,
            ask,
        }
    }

    /// The number of the process.
    pub fn process(&self) -> u32
        ensures { result ≡ self.now.process }
    {
        self.process
    }

    /// How many statements it did.
    pub fn steps(&self) -> u32
        ensures { result ≡ self.now.steps }
    {
        self.steps
    }

    /// What they cost.
    pub fn cost(&self) -> u64
        ensures { result ≡ self.now.cost }
    {
        self.cost
    }

    /// The body before the first of them.
    pub fn start(&self) -> &Arc<Body>
        ensures { result.now ≡ self.now.start }
    {
        &self.start
    }

    /// The body after the last of them.
    pub fn end(&self) -> &Arc<Body>
        ensures { result.now ≡ self.now.end }
    {
        &self.end
    }

    /// The lines that they put out.
    pub fn lines(&self) -> &[Seq<u8>]
        ensures { result.now ≡ self.now.lines }
    {
        self.lines.as_slice()
    }

    /// What the next statement asks for, if it asks for something.
    pub fn ask(&self) -> Option<&Ask>
        ensures { option_map (λ a. a.now) result ≡ self.now.ask }
    {
        self.ask.as_ref()
    }
}
