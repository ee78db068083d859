//! What holds of layout as a whole.
ghost use Rattle.std.specs.Prelude.{◌≡◌, ℕ, List, Some, map};
ghost use Rattle.hs_syntax.specs.declared.token.Token.{Token};
ghost use Rattle.hs_layout.specs.Braced.{braced, start};
ghost use Rattle.hs_layout.specs.Written.{behind_all, IsInBraces, PutsNoLine};
ghost use Rattle.hs_layout.specs.Columns.{IsInOrder, in_column, no_column};
ghost use Rattle.hs_layout.specs.Source.{own, IsSource, signs, level};

/// With the put signs taken away the tokens are those of the source, in their order.
pub fn tokens_stay()
    ensures { (ts : List Token) → IsSource ts → own (braced ts) ≡ ts }
{}

/// Each brace that is put to open is closed by one that is put, and none is closed that isn't open.
pub fn braces_balance()
    ensures { (ts : List Token) → IsSource ts → level 0 (signs (braced ts)) ≡ Some 0 }
{}

/// Layout reads columns only by comparing them. Where the columns of a source are changed and keep their order, the
/// same signs are put in the same places, but for the columns. (Column 0 stands for no indentation, and stays.)
pub fn columns_are_compared()
    ensures { (g : ℕ → ℕ) (ts : List Token) → IsInOrder g → map no_column (braced (map (in_column g) ts)) ≡ map no_column (braced ts) }
{}

/// Within written braces layout is off: where they are the enclosing context, no line puts a sign.
pub fn lines_put_nothing_within_braces()
    ensures { (ts : List Token) (t : Token) → IsInBraces (behind_all start ts) → PutsNoLine (behind_all start ts) t }
{}
