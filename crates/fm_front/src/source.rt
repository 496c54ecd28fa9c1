//! The program of a source, or the least rule that it breaks.

ghost use Rattle.std.specs.Prelude.{◌≤◌, ℕ, List, length, IfOk, IfErr};
ghost use Rattle.fm_base.specs.Verdict.{IsClean, IsRefusal};
ghost use Rattle.fm_cards.specs.Cards.{cards_of};
ghost use Rattle.fm_rules.specs.Program.{AreShaped};
ghost use Rattle.fm_front.specs.Laws.{OneProgram, OneVerdict, ProgramIsClean, ProgramOrRefusal};
ghost use Rattle.fm_verdict.specs.Program.{IsCheckedOf};
ghost use Rattle.fm_verdict.specs.Verdict.{AreStatementsOf, IsBroken, IsBrokenForm};

use crate::checking::check;
use crate::reading::statements;
use fm_base::CheckFail;
use fm_rules::Program;
use fm_stmt::one_statement;
use fm_tree::Placed;
use std::alloc::Global;

/// The program of the statements of a source whose form breaks no rule. Refused by the least rule that the source
/// breaks.
pub fn check_statements(alloc: Global, statements: Vec<Placed>) -> Result<Program, CheckFail>
    requires { AreShaped statements.items }
    ensures program { IfOk result (λ p. (source : List ℕ) → AreStatementsOf (cards_of source) statements.items
        → IsClean (IsBrokenForm source) → IsCheckedOf source p) }
    ensures refused { IfErr result (λ e. (source : List ℕ) → AreStatementsOf (cards_of source) statements.items
        → IsClean (IsBrokenForm source) → IsRefusal (IsBroken source) e) }
{
    one_statement();
    check(alloc, statements)
}

/// The program of a source of at most 1,000,000 bytes. Refused by the least rule that the source breaks.
pub fn front(alloc: Global, source: &[u8]) -> Result<Program, CheckFail>
    requires { length source.now ≤ 1_000_000 }
    ensures program { IfOk result (λ p. IsCheckedOf source.now p) }
    ensures refused { IfErr result (IsRefusal (IsBroken source.now)) }
{
    match statements(alloc, source) {
        Ok(statements) => check_statements(alloc, statements),
        Err(fail) => Err(fail),
    }
}

/// A source has one verdict.
pub fn one_verdict()
    ensures { OneVerdict }
{}

/// A source has one program or one refusal: where it has a program it breaks no rule.
pub fn one_program()
    ensures program { OneProgram }
    ensures clean { ProgramIsClean }
    ensures either { ProgramOrRefusal }
{
    one_statement();
}
