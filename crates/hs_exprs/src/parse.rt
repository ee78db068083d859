//! The expression that some tokens are.
ghost use Rattle.std.specs.Prelude.{◌≡◌, [], IfOk, IfSome, IfNone};
ghost use Rattle.hs_syntax.specs.declared.expr_tree.ExprTree.{ExprTree as Tree};
ghost use Rattle.expr_parts.specs.Grammar.{IsExp};
ghost use Rattle.expr_parts.specs.Whole as spec;

use crate::read::exp;
use hs_syntax::expr_tree::ExprTree;
use hs_syntax::token::Token;
use mk_base::memory::NoMemory;
use std::alloc::Global;

/// The expression that the tokens are, as it is read.
#[tactic(auto, unfolding(expr_parts::specs::Whole::whole_exp))]
fn whole_exp(alloc: Global, tokens: &[Token]) -> Result<Option<ExprTree>, NoMemory>
    ensures { IfOk result (λ r. r ≡ spec.whole_exp tokens.now) }
{
    let left = 16 * tokens.len() + 16;
    match exp(alloc, left, false, tokens)? {
        None => Ok(None),
        Some((tree, rest)) => {
            if rest.is_empty() {
                Ok(Some(tree.into_inner()))
            } else {
                Ok(None)
            }
        }
    }
}

/// The expression that the tokens are (Haskell 2010 Report, chapter 3); None exactly where they are none.
pub fn parse_expr(alloc: Global, tokens: &[Token]) -> Result<Option<ExprTree>, NoMemory>
    ensures tree { IfOk result (λ r. IfSome r (λ e. IsExp tokens.now [] e)) }
    ensures none { IfOk result (λ r. IfNone r ((e : Tree) → IsExp tokens.now [] e → ⊥)) }
{
    let tree = whole_exp(alloc, tokens)?;
    Ok(tree)
}
