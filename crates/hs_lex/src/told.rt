//! What is told of a source with a place at which no lexeme begins.
ghost use Rattle.std.specs.Prelude.{◌≡◌, IfOk};
ghost use Rattle.hs_lex.specs.Told as spec;

use mk_base::diag::Diag;
use mk_base::memory::NoMemory;
use mk_base::place::Pos;
use mk_base::text::Text;
use std::alloc::Global;

/// The diagnostic of a place at which no lexeme begins, E01.
pub fn no_lexeme(alloc: Global, at: Pos) -> Result<Diag, NoMemory>
    ensures { IfOk result (λ d. d ≡ spec.no_lexeme at) }
{
    let text = Text::from_slice(alloc, b"no lexeme begins here")?;
    Ok(Diag { at, code: 1, text })
}
