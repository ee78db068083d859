//! The header at the front of some tokens (Haskell 2010 Report, section 5.1).
ghost use Rattle.std.specs.Prelude.{◌≡◌, ℕ, List as Row, [], ◌∷◌, codes, Ok, Err, IfOk};
ghost use Rattle.mk_base.specs.declared.place.Pos.{Pos};
ghost use Rattle.hs_header.specs.Grammar.{IsHeader, IsLeftAt, IsCut};
ghost use Rattle.hs_header.specs.Grammar as grammar;
ghost use Rattle.hs_header.specs.Readers.{seen};
ghost use Rattle.hs_header.specs.Readers as spec;

pub use crate::expected::{Found, Stop};
use crate::expected::{Wanted, expected};
use crate::exports::exports;
use crate::imports::imports;
use hs_syntax::header::{ExportItem, Header, ImportItem};
use hs_syntax::name_ref::NameRef;
use hs_syntax::sign::{Sign, first_of};
use hs_syntax::token::Token;
use mk_base::list::List;
use mk_base::memory::NoMemory;
use mk_base::name::ModName;
use mk_base::place::Pos;
use mk_base::text::Text;
use std::alloc::Global;

/// The opening brace of a block, and whether layout put it.
#[tactic(auto, unfolding(crate::specs::Readers::opening))]
fn opening(tokens: &[Token]) -> Result<(bool, &[Token]), Stop>
    ensures { seen result ≡ spec.opening tokens.now }
{
    let Some(first) = first_of(tokens) else {
        return Err(Stop::End);
    };
    match first.sign {
        Sign::OpenBrace(put) => Ok((put, first.rest)),
        _ => Err(Stop::At(first.token.at)),
    }
}

/// `where`, the opening brace and the imports.
#[tactic(auto, unfolding(crate::specs::Readers::block_at))]
fn block<'a>(alloc: Global, left: usize, tokens: &'a [Token]) -> Found<'a, List<ImportItem>>
    ensures { IfOk result (λ r. seen r ≡ spec.block_at left tokens.now) }
{
    match expected(Wanted::Where, tokens) {
        Err(stop) => Ok(Err(stop)),
        Ok((_, rest)) => match opening(rest) {
            Err(stop) => Ok(Err(stop)),
            Ok((put, rest)) => imports(alloc, left, put, rest),
        },
    }
}

/// The header of the module that a token names.
fn header_named(
    alloc: Global,
    token: &Token,
    exports: Option<List<ExportItem>>,
    imports: List<ImportItem>,
) -> Result<Header, NoMemory>
    ensures { IfOk result (λ h. h ≡ grammar.header token.now exports imports) }
{
    let text = token.text.copy(alloc)?;
    Ok(Header {
        name: ModName { text },
        at: token.at,
        exports,
        imports,
        prelude: None,
        restrict: None,
    })
}

/// The header behind `module`.
#[tactic(auto, unfolding(crate::specs::Readers::line_at))]
fn line<'a>(alloc: Global, left: usize, tokens: &'a [Token]) -> Found<'a, Header>
    ensures { IfOk result (λ r. seen r ≡ spec.line_at left tokens.now) }
{
    match expected(Wanted::ModId, tokens) {
        Err(stop) => Ok(Err(stop)),
        Ok((token, rest)) => match exports(alloc, left, rest)? {
            Err(stop) => Ok(Err(stop)),
            Ok((exports, rest)) => match block(alloc, left, rest)? {
                Err(stop) => Ok(Err(stop)),
                Ok((imports, behind)) => {
                    Ok(Ok((header_named(alloc, token, exports, imports)?, behind)))
                }
            },
        },
    }
}

/// The export of a module without `module` line.
fn main_export(alloc: Global) -> Result<ExportItem, NoMemory>
    ensures { IfOk result (λ e. e ≡ grammar.main_export) }
{
    let at = Pos { line: 1, col: 1 };
    let text = Text::from_slice(alloc, b"main")?;
    let name = NameRef {
        qualifier: Text::new(alloc),
        text,
        at,
        to: None,
    };
    Ok(ExportItem::Var { at, name })
}

/// The header of a module without `module` line.
fn main_header(alloc: Global, imports: List<ImportItem>) -> Result<Header, NoMemory>
    ensures { IfOk result (λ h. h ≡ grammar.main_header imports) }
{
    let mut exports = List::new(alloc);
    exports.push(main_export(alloc)?)?;
    let text = Text::from_slice(alloc, b"Main")?;
    Ok(Header {
        name: ModName { text },
        at: Pos { line: 1, col: 1 },
        exports: Some(exports),
        imports,
        prelude: None,
        restrict: None,
    })
}

/// The header of a module without `module` line, behind the opening brace.
fn main_module<'a>(alloc: Global, left: usize, put: bool, tokens: &'a [Token]) -> Found<'a, Header>
    ensures { IfOk result (λ r. seen r ≡ spec.main_at left put tokens.now) }
{
    match imports(alloc, left, put, tokens)? {
        Err(stop) => Ok(Err(stop)),
        Ok((imports, behind)) => Ok(Ok((main_header(alloc, imports)?, behind))),
    }
}

/// The header with which the tokens begin.
#[tactic(auto, unfolding(crate::specs::Readers::header_within))]
fn header_within<'a>(alloc: Global, left: usize, tokens: &'a [Token]) -> Found<'a, Header>
    ensures { IfOk result (λ r. seen r ≡ spec.header_within left tokens.now) }
{
    let Some(first) = first_of(tokens) else {
        return Ok(Err(Stop::End));
    };
    match first.sign {
        Sign::Module => line(alloc, left, first.rest),
        Sign::OpenBrace(put) => main_module(alloc, left, put, first.rest),
        _ => Ok(Err(Stop::At(first.token.at))),
    }
}

/// The header with which the tokens begin, as the function of them.
#[tactic(auto, unfolding(crate::specs::Readers::header_at))]
pub(crate) fn read_tokens<'a>(alloc: Global, tokens: &'a [Token]) -> Found<'a, Header>
    ensures { IfOk result (λ r. seen r ≡ spec.header_at tokens.now) }
{
    header_within(alloc, tokens.len() + 1, tokens)
}

/// The header with which the tokens of a source with the signs that layout puts begin, and the tokens behind it.
///
/// Where they begin with none it answers the place of the first token with which they begin no header, or that they end
/// before a header is whole.
pub fn parse_header<'a>(alloc: Global, tokens: &'a [Token]) -> Found<'a, Header>
    ensures header { IfOk result (λ r. IfOk r (λ p. IsHeader tokens.now p.1.now p.0)) }
    ensures left { (at : Pos) → result ≡ Ok (Err (Stop.At at)) → IsLeftAt tokens.now at }
    ensures cut { result ≡ Ok (Err Stop.End) → IsCut tokens.now }
{
    read_tokens(alloc, tokens)
}
