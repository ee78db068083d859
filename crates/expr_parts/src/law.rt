//! What holds of the grammar.
ghost use Rattle.std.specs.Prelude.{◌≡◌, List, []};
ghost use Rattle.hs_syntax.specs.declared.token.Token.{Token as Sign};
ghost use Rattle.hs_syntax.specs.declared.expr_tree.ExprTree.{ExprTree as Tree};
ghost use Rattle.expr_parts.specs.Grammar.{IsExp};

/// Tokens are one expression at most (Haskell 2010 Report, chapter 3).
pub fn trees_are_unique()
    ensures { (ts : List Sign) (e f : Tree) → IsExp ts [] e → IsExp ts [] f → e ≡ f }
{}
