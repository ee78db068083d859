//! The items of a module's source, from its bytes.
ghost use Rattle.std.specs.Prelude.{◌≡◌, ◌≤◌, IfOk, Ok as Whole, length};
ghost use Rattle.module_check.specs.Check as spec;

use hs_layout::braced::braced;
use hs_lex::lex::{LexErr, lex};
use hs_lex::told::no_lexeme;
use hs_syntax::token::Token;
use mk_base::diag::Diag;
use mk_base::list::List;
use mk_base::memory::NoMemory;
use mk_base::name::Node;
use plain_form::form::Written;
use std::alloc::Global;
use unbuilt_forms::items::items;

/// The items of a module from its lexemes, or the diagnostic of what isn't one.
fn of_lexemes(
    alloc: Global,
    node: &Node,
    lexemes: &List<Token>,
) -> Result<Result<Written, Diag>, NoMemory>
    ensures { IfOk result (λ r. r ≡ spec.of_lexemes node.now (Whole lexemes.now)) }
{
    let laid_out = braced(alloc, lexemes)?;
    items(alloc, node, laid_out.as_slice())
}

/// The items of a module from its source of at most 1,048,576 bytes, or the diagnostic of the first place at which no
/// lexeme begins, or of what isn't an item.
pub fn items_of(
    alloc: Global,
    node: &Node,
    source: &[u8],
) -> Result<Result<Written, Diag>, NoMemory>
    requires { length source.now ≤ 1048576 }
    ensures { IfOk result (λ r. r ≡ spec.items_of node.now source.now) }
{
    match lex(alloc, source) {
        Ok(lexemes) => of_lexemes(alloc, node, &lexemes),
        Err(LexErr::NoLexeme(at)) => Ok(Err(no_lexeme(alloc, at)?)),
        Err(LexErr::NoMemory) => Err(NoMemory),
    }
}
