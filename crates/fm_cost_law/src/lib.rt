//! How much the steps of a program may ask for.
//!
//! The shapes of units fit the machines of processes. An entry of a schedule costs no more than the sizes of its
//! messages allow. A program that was read from a source costs less: a card has few characters, so a statement has few
//! items, and its words have 64 bits, so a line has few bytes. Each function here has an empty body: its contract is a
//! law.
#![tactic(auto)]

ghost use Rattle.std.specs.Prelude.{◌≡◌, ◌<◌, ◌≤◌, ◌+◌, ◌*◌, ◌++◌, ℕ, Some, List, replicate};
ghost use Rattle.std.specs.FinMap.{get};
ghost use Rattle.fm_sched.specs.Schedule.{IsLegal, Throughout, play, used};
ghost use Rattle.fm_net.specs.Machine.{Place, State};
ghost use Rattle.fm_rules.specs.declared.program.Program.{Program};
ghost use Rattle.fm_verdict.specs.Program.{IsCheckedOf};
ghost use Rattle.fm_mean.specs.Actions.{action_of};
ghost use Rattle.fm_mean.specs.Owed.{SizesAtMost, owed};
ghost use Rattle.fm_mean.specs.Process.{Proc};
ghost use Rattle.fm_mean.specs.Steps.{first, step};
ghost use Rattle.fm_cost_law.specs.Quiet.{AreQuiet};
ghost use Rattle.fm_cost_law.specs.Shapes.{ShapesFit};
ghost use Rattle.fm_cost_law.specs.Steps.{IsOutsideBlocks};
ghost use Rattle.fm_cost_law.specs.Words.{StateHasWords};

/// Along every schedule of a program of a source each word has 64 bits: in variables, in results of references, with
/// starts that wait, and in messages. And no call, process call or frame has more than 65,536 words to give back.
pub fn words_have_64_bits()
    ensures { (source : List ℕ) (p : Program) → IsCheckedOf source p → Throughout (step p) StateHasWords (first p) }
{}

/// Along every schedule of a program of a source each step but the end of a block and a join costs less than
/// 2,147,483,648 turns; and any step, with what its process owes after it, costs less than 2,147,483,648 turns more
/// than its process owed before it.
pub fn steps_cost_little()
    ensures outside { (source : List ℕ) (p : Program) → IsCheckedOf source p
        → (cs : List Place) → IsLegal (step p) (first p) cs → (q : Place) (t : State Proc × ℕ) (x : Proc)
        → step p (play (step p) (first p) cs) q ≡ Some t → get (play (step p) (first p) cs).procs q ≡ Some x
        → IsOutsideBlocks (action_of p x) → t.1 < 2_147_483_648 }
    ensures paid { (source : List ℕ) (p : Program) → IsCheckedOf source p
        → (cs : List Place) → IsLegal (step p) (first p) cs → (q : Place) (t : State Proc × ℕ) (x y : Proc)
        → step p (play (step p) (first p) cs) q ≡ Some t → get (play (step p) (first p) cs).procs q ≡ Some x
        → get t.0.procs q ≡ Some y → t.1 + owed y < 2_147_483_648 + owed x }
{}

/// Behind any schedule of a program of a source, so many steps of one process cost at most 2,147,483,647 turns each,
/// and once more what was paid before. So behind a schedule that costs at most 1,000,000,000 turns an entry of fewer
/// than 4,294,967,296 steps leaves the whole cost below 2^64.
pub fn entries_cost_little()
    ensures paid { (source : List ℕ) (p : Program) → IsCheckedOf source p
        → (cs : List Place) → IsLegal (step p) (first p) cs → (q : Place) (steps : ℕ)
        → IsLegal (step p) (play (step p) (first p) cs) (replicate steps q)
        → used (step p) (play (step p) (first p) cs) (replicate steps q)
        ≤ 2_147_483_647 * steps + used (step p) (first p) cs }
    ensures fits { (source : List ℕ) (p : Program) → IsCheckedOf source p
        → (cs : List Place) → IsLegal (step p) (first p) cs → (q : Place) (steps : ℕ)
        → IsLegal (step p) (play (step p) (first p) cs) (replicate steps q)
        → used (step p) (first p) cs ≤ 1_000_000_000 → steps < 4_294_967_296
        → used (step p) (first p) (cs ++ replicate steps q) < 18_446_744_073_709_551_616 }
{}

/// Where each message that a program sends has at most so many fields that earlier ones size: behind any schedule, so
/// many steps of one process that print no line and make no merger of more than 65,536 writers cost at most 131,074
/// turns each, and 65,536 for each such field, and once more what was paid before. So where there are at most 65,000
/// such fields, and the turns and the steps of an entry are below 2^32, its cost is below 2^64.
pub fn entries_are_paid()
    ensures { (p : Program) (sizes : ℕ) → SizesAtMost sizes p
        → (cs : List Place) → IsLegal (step p) (first p) cs → (q : Place) (steps : ℕ)
        → IsLegal (step p) (play (step p) (first p) cs) (replicate steps q)
        → AreQuiet p q steps (play (step p) (first p) cs)
        → used (step p) (play (step p) (first p) cs) (replicate steps q)
        ≤ (131074 + 65536 * sizes) * steps + used (step p) (first p) cs }
{}

/// Along every schedule the shape over which LOCATION counts has no more nodes than the machine of the process, whose
/// nodes are numbered below 4,294,967,296. So subscripts within the shape always lead to a node: that the machine has
/// no such node never comes.
pub fn shapes_fit()
    ensures { (p : Program) → Throughout (step p) (ShapesFit p) (first p) }
{}
