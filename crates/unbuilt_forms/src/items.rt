//! The items of a source, as far as its form is built.
ghost use Rattle.std.specs.Prelude.{◌≡◌, IfOk};
ghost use Rattle.unbuilt_forms.specs.Unbuilt as spec;

use crate::told::unbuilt;
use hs_syntax::token::Token;
use mk_base::diag::Diag;
use mk_base::memory::NoMemory;
use mk_base::name::Node;
use mk_base::place::Pos;
use plain_form::form::{Reading, Written, read_form};
use std::alloc::Global;

/// What was read of a source, or the diagnostic of the place at which it leaves the form.
fn formed(alloc: Global, reading: Reading) -> Result<Result<Written, Diag>, NoMemory>
    ensures { IfOk result (λ r. r ≡ spec.formed reading) }
{
    match reading {
        Reading::Form(written) => Ok(Ok(written)),
        Reading::Leaves(at) => Ok(Err(unbuilt(alloc, at)?)),
    }
}

/// The items of a node's source from its tokens with the braces and semicolons that layout put, or the diagnostic of
/// the first part whose form isn't built yet. No boot file is built: its diagnostic stands at 1:1.
pub fn items(
    alloc: Global,
    node: &Node,
    tokens: &[Token],
) -> Result<Result<Written, Diag>, NoMemory>
    ensures { IfOk result (λ r. r ≡ spec.items node.now tokens.now) }
{
    if node.boot {
        let first = Pos { line: 1, col: 1 };
        return Ok(Err(unbuilt(alloc, first)?));
    }
    formed(alloc, read_form(alloc, tokens)?)
}
