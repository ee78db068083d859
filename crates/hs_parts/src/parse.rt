//! Types and patterns that some tokens are, and that there is one tree at a place.
ghost use Rattle.std.specs.Prelude.{◌≡◌, true, List, [], IfOk, IfSome, IfNone};
ghost use Rattle.hs_syntax.specs.declared.token.Token.{Token as Lexeme};
ghost use Rattle.hs_syntax.specs.declared.type_tree.TypeTree.{TypeTree as Ty};
ghost use Rattle.hs_syntax.specs.declared.pattern_tree.PatTree.{PatTree as Pat};
ghost use Rattle.hs_syntax.specs.declared.pattern_tree.LhsTree.{LhsTree as Lhs};
ghost use Rattle.hs_syntax.specs.Reading.{begins};
ghost use Rattle.hs_parts.specs.Grammar.{IsType, IsPattern, IsLhs};
ghost use Rattle.hs_parts.specs.SideReaders.{ends_side};
ghost use Rattle.hs_parts.specs.Whole as spec;

use crate::patterns::pattern;
use crate::types::ty;
use hs_syntax::pattern_tree::PatTree;
use hs_syntax::token::Token;
use hs_syntax::type_tree::TypeTree;
use mk_base::memory::NoMemory;
use std::alloc::Global;

/// The type that the tokens are, as it is read.
#[tactic(auto, unfolding(crate::specs::Whole::whole_type))]
fn whole_type(alloc: Global, tokens: &[Token]) -> Result<Option<TypeTree>, NoMemory>
    ensures { IfOk result (λ r. r ≡ spec.whole_type tokens.now) }
{
    let left = 8 * tokens.len() + 8;
    match ty(alloc, left, tokens)? {
        None => Ok(None),
        Some((tree, rest)) => {
            if rest.is_empty() {
                Ok(Some(tree))
            } else {
                Ok(None)
            }
        }
    }
}

/// The type that the tokens are (Haskell 2010 Report, section 4.1.2); None exactly where they are none.
pub fn parse_type(alloc: Global, tokens: &[Token]) -> Result<Option<TypeTree>, NoMemory>
    ensures tree { IfOk result (λ r. IfSome r (λ t. IsType tokens.now [] t)) }
    ensures none { IfOk result (λ r. IfNone r ((t : Ty) → IsType tokens.now [] t → ⊥)) }
{
    let tree = whole_type(alloc, tokens)?;
    Ok(tree)
}

/// The pattern that the tokens are, as it is read.
#[tactic(auto, unfolding(crate::specs::Whole::whole_pattern))]
fn whole_pattern(alloc: Global, tokens: &[Token]) -> Result<Option<PatTree>, NoMemory>
    ensures { IfOk result (λ r. r ≡ spec.whole_pattern tokens.now) }
{
    let left = 8 * tokens.len() + 8;
    match pattern(alloc, left, tokens)? {
        None => Ok(None),
        Some((tree, rest)) => {
            if rest.is_empty() {
                Ok(Some(tree))
            } else {
                Ok(None)
            }
        }
    }
}

/// The pattern that the tokens are (Haskell 2010 Report, section 3.17); None exactly where they are none.
pub fn parse_pattern(alloc: Global, tokens: &[Token]) -> Result<Option<PatTree>, NoMemory>
    ensures tree { IfOk result (λ r. IfSome r (λ p. IsPattern tokens.now [] p)) }
    ensures none { IfOk result (λ r. IfNone r ((p : Pat) → IsPattern tokens.now [] p → ⊥)) }
{
    let tree = whole_pattern(alloc, tokens)?;
    Ok(tree)
}

/// Tokens are one type at most.
pub fn types_are_unique()
    ensures { (ts : List Lexeme) (x y : Ty) → IsType ts [] x → IsType ts [] y → x ≡ y }
{}

/// Tokens are one pattern at most.
pub fn patterns_are_unique()
    ensures { (ts : List Lexeme) (p q : Pat) → IsPattern ts [] p → IsPattern ts [] q → p ≡ q }
{}

/// Tokens begin with one left side at most that `=`, a bar or a closing parenthesis stands behind.
pub fn left_sides_are_unique()
    ensures { (ts b c : List Lexeme) (l m : Lhs) → IsLhs ts b l → begins ends_side b ≡ true → IsLhs ts c m → begins ends_side c ≡ true → (l ≡ m) × (b ≡ c) }
{}
