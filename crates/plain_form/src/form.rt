//! The form of the sources that are built.
ghost use Rattle.std.specs.Prelude.{◌≡◌, IfOk};
ghost use Rattle.plain_form.specs.Form as spec;
ghost use Rattle.plain_form.specs.Form.{FormIsSpelled, WordsRise};

use crate::step::{ended, start, step, told};
use crate::token::is_pragma;
use hs_syntax::token::Token;
use mk_base::list::List;
use mk_base::memory::NoMemory;
use mk_base::place::Pos;
use mk_base::text::Text;
use std::alloc::Global;

/// A name as it is written, and the place of its first character.
#[derive(Debug, Drop)]
pub struct Word {
    pub text: Text,
    pub at: Pos,
}

/// An item `data TY = CON FIELD ..`.
#[derive(Debug, Drop)]
pub struct DataItem {
    pub ty: Word,
    pub con: Word,
    pub fields: List<Word>,
}

/// A module of the form: the data types that it declares, in the order of its source.
#[derive(Debug, Drop)]
pub struct Written {
    pub datas: List<DataItem>,
}

/// A source that was read: a module of the form, or the place of the first part that leaves the form.
#[derive(Debug, Drop)]
pub enum Reading {
    Form(Written),
    Leaves(Pos),
}

/// Reads a source from its tokens with the braces and semicolons that layout put. Pragmas are passed over.
///
/// The form is `module M where {`, imports `import M` of any modules but `Prim`, then data types, and `}`, with
/// semicolons between them, where parts may be empty. The names of data types, constructors and fields are words of
/// ASCII letters and digits that begin with a capital. What leaves the form is told at 1:1 where it is the first token,
/// in an import at its `import`, and else at its own place. Where the tokens end too early the last one counts as what
/// leaves the form; where there is none, it is 1:1.
pub fn read_form(alloc: Global, tokens: &[Token]) -> Result<Reading, NoMemory>
    ensures { IfOk result (λ r. r ≡ spec.read_form tokens.now) }
{
    let mut state = start(alloc);
    let mut last = Pos { line: 1, col: 1 };
    for token in tokens {
        if is_pragma(token.kind) {
            continue;
        }
        let at = told(&state.stage, token);
        match step(alloc, state, token)? {
            Some(next) => state = next,
            None => return Ok(Reading::Leaves(at)),
        }
        last = token.at;
    }
    Ok(ended(state, last))
}

/// Tokens are of the form exactly where they spell a module, and leave it exactly at the first bad one.
pub fn form_is_its_spelling()
    ensures { FormIsSpelled }
{}

/// The names of a module stand in the order of their places where the lexemes do.
pub fn words_rise_with_lexemes()
    ensures { WordsRise }
{}
