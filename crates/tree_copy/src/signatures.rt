//! Copies of signatures and fixities.
ghost use Rattle.std.specs.Prelude.{◌≡◌, IfOk};

use crate::names::copy_qops;
use crate::types::copy_qualified;
use hs_syntax::expr_tree::{FixTree, SigTree};
use mk_base::memory::NoMemory;
use mk_base::plain::Plain;
use std::alloc::Global;

/// A signature once more.
pub fn copy_sig(alloc: Global, a: &SigTree) -> Result<SigTree, NoMemory>
    ensures { IfOk result (λ c. c ≡ a.now) }
{
    Ok(SigTree {
        at: a.at,
        names: a.names.copy(alloc)?,
        ty: copy_qualified(alloc, &a.ty)?,
    })
}

/// A fixity once more.
pub fn copy_fix(alloc: Global, a: &FixTree) -> Result<FixTree, NoMemory>
    ensures { IfOk result (λ c. c ≡ a.now) }
{
    Ok(FixTree {
        at: a.at,
        word: a.word,
        digit: a.digit.copy(alloc)?,
        ops: copy_qops(alloc, a.ops.as_slice())?,
    })
}
