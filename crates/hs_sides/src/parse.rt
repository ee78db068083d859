//! The left side with which some tokens begin.
ghost use Rattle.std.specs.Prelude.{◌≡◌, true, List, IfOk, IfSome, IfNone};
ghost use Rattle.hs_syntax.specs.declared.token.Token.{Token as Lexeme};
ghost use Rattle.hs_syntax.specs.declared.pattern_tree.LhsTree.{LhsTree as Lhs};
ghost use Rattle.hs_syntax.specs.Reading.{begins};
ghost use Rattle.hs_parts.specs.Grammar.{IsLhs};
ghost use Rattle.hs_parts.specs.SideReaders.{ends_side};

use crate::lhs::lhs;
use hs_parts::names::Found;
use hs_syntax::pattern_tree::LhsTree;
use hs_syntax::token::Token;
use std::alloc::Global;

/// The left side with which the tokens begin, where `=`, a bar or a closing parenthesis stands behind it, and the tokens
/// from that sign on; None exactly where they begin with none (Haskell 2010 Report, section 4.4.3).
///
/// A lone variable is a function without patterns. An error is want of memory.
pub fn parse_lhs<'a>(alloc: Global, tokens: &'a [Token]) -> Found<'a, LhsTree>
    ensures tree { IfOk result (λ r. IfSome r (λ p. IsLhs tokens.now p.1.now p.0 × (begins ends_side p.1.now ≡ true))) }
    ensures none { IfOk result (λ r. IfNone r ((l : Lhs) (b : List Lexeme) → IsLhs tokens.now b l → begins ends_side b ≡ true → ⊥)) }
{
    let side = lhs(alloc, tokens)?;
    Ok(side)
}
