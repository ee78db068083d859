//! Whether signatures and fixities are the same.
ghost use Rattle.std.specs.Prelude.{◌≡◌, ◌↔◌, IsTrue};

use crate::names::same_qops;
use crate::types::same_qualified;
use hs_syntax::expr_tree::{FixTree, SigTree};
use mk_base::plain::Plain;

/// Whether two signatures are the same.
pub fn same_sig(a: &SigTree, b: &SigTree) -> bool
    ensures { IsTrue result ↔ (a.now ≡ b.now) }
{
    a.at.same(&b.at) && (a.names.same(&b.names) && same_qualified(&a.ty, &b.ty))
}

/// Whether two fixities are the same.
pub fn same_fix(a: &FixTree, b: &FixTree) -> bool
    ensures { IsTrue result ↔ (a.now ≡ b.now) }
{
    a.at.same(&b.at)
        && (a.word == b.word
            && (a.digit.same(&b.digit) && same_qops(a.ops.as_slice(), b.ops.as_slice())))
}
