//! Reads expressions from tokens, in one pass.
#![tactic(auto)]

ghost use Rattle.std.specs.Prelude.{◌≡◌, List, ◌++◌, length, MatchResult, IfOk, Err, Some, None};
ghost use Rattle.fm_base.specs.declared.token.Token.{Token};
ghost use Rattle.fm_tree.specs.Tree.{Tree};
ghost use Rattle.fm_tree.specs.Spelling.{spelling};
ghost use Rattle.fm_tree.specs.Shape.{IsWellShaped};
ghost use Rattle.fm_expr.specs.Longest.{IsLongestExpression, BeginsNoExpression, IsExpressionAt, StopsExpression, OneExpression, expr_at};

mod reader;

use fm_base::{ParseFail, Token};
use fm_tree::Expr;
use std::alloc::Global;

/// The longest expression at the front of the tokens, and how many tokens it has. `Bad` comes
/// exactly where none is there. ANSI X3.9-1978, sections 6.1, 6.3 and 6.4.
pub fn expr(alloc: Global, tokens: &[Token]) -> Result<(Expr, usize), ParseFail>
    ensures found { IfOk result (λ r. IsLongestExpression tokens.now r.0 r.1) }
    ensures none { result ≡ Err ParseFail.Bad → BeginsNoExpression tokens.now }

    // A tree that is spelled before a token behind which no expression goes on is the one that is read.
    ensures whole { (t : Tree) (more : List Token) → IsWellShaped t
        → StopsExpression more → tokens.now ≡ spelling t ++ more
        → MatchResult result (λ r. (r.0 ≡ t) × (r.1 ≡ length (spelling t))) (λ e. e ≡ ParseFail.NoMemory) }

    // For readers whose reading is a function of their tokens.
    ensures exact { MatchResult result (λ r. expr_at tokens.now ≡ Some (r.0, r.1))
        (λ e. e ≡ ParseFail.Bad → expr_at tokens.now ≡ None) }
{
    match reader::read(alloc, tokens) {
        Ok(Some(found)) => Ok(found),
        Ok(None) => Err(ParseFail::Bad),
        Err(_) => Err(ParseFail::NoMemory),
    }
}

/// Two well-shaped expressions with one spelling are equal.
pub fn one_expression()
    ensures { OneExpression }
{}

/// What the readers that stand on this one may take of `expr_at`: it is the longest expression,
/// and the whole tree before a token that ends it.
pub fn expr_at_is_longest()
    ensures longest { (tokens : List Token) → IsExpressionAt tokens (expr_at tokens) }
    ensures whole { (t : Tree) (more : List Token) → IsWellShaped t
        → StopsExpression more → expr_at (spelling t ++ more) ≡ Some (t, length (spelling t)) }
{}
