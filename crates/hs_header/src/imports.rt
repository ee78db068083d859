//! Imports (Haskell 2010 Report, section 5.3).
ghost use Rattle.std.specs.Prelude.{◌≡◌, [], ◌∷◌, codes, IfOk};
ghost use Rattle.hs_header.specs.Readers.{seen, tail_seen, pair_seen};
ghost use Rattle.hs_header.specs.Readers as spec;

use crate::expected::{Found, Stop, Wanted, expected, is_word};
use crate::items::list;
use hs_syntax::header::ImportItem;
use hs_syntax::name_ref::NameRef;
use hs_syntax::parted::module_ref;
use hs_syntax::sign::{Sign, first_of};
use hs_syntax::token::Token;
use mk_base::list::List;
use mk_base::place::Pos;
use std::alloc::Global;

/// Whether the pragma for SOURCE stands first, and the tokens behind it.
#[tactic(auto, unfolding(crate::specs::Readers::mark_at))]
fn mark(tokens: &[Token]) -> (bool, &[Token])
    ensures { pair_seen result ≡ spec.mark_at tokens.now }
{
    let Some(first) = first_of(tokens) else {
        return (false, tokens);
    };
    match first.sign {
        Sign::Pragma => (true, first.rest),
        _ => (false, tokens),
    }
}

/// Whether `qualified` stands first, and the tokens behind it.
#[tactic(auto, unfolding(crate::specs::Readers::qualifier_at))]
fn qualifier(tokens: &[Token]) -> (bool, &[Token])
    ensures { pair_seen result ≡ spec.qualifier_at tokens.now }
{
    let Some(first) = first_of(tokens) else {
        return (false, tokens);
    };
    if is_word(first.sign, first.token.text.as_slice(), b"qualified") {
        (true, first.rest)
    } else {
        (false, tokens)
    }
}

/// The alias of an import, if it has one.
#[tactic(auto, unfolding(crate::specs::Readers::alias_at))]
fn alias<'a>(alloc: Global, tokens: &'a [Token]) -> Found<'a, Option<NameRef>>
    ensures { IfOk result (λ r. seen r ≡ spec.alias_at tokens.now) }
{
    let Some(first) = first_of(tokens) else {
        return Ok(Ok((None, tokens)));
    };
    if !is_word(first.sign, first.token.text.as_slice(), b"as") {
        return Ok(Ok((None, tokens)));
    }
    match expected(Wanted::ModId, first.rest) {
        Err(stop) => Ok(Err(stop)),
        Ok((token, behind)) => Ok(Ok((Some(module_ref(alloc, token)?), behind))),
    }
}

/// What is known of an import before its module.
#[derive(Clone, Copy)]
pub struct Begun {
    /// The place of `import`.
    pub at: Pos,
    pub source: bool,
    pub qualified: bool,
}

/// An import from its module on.
#[tactic(auto, unfolding(crate::specs::Readers::named_at))]
fn named<'a>(alloc: Global, left: usize, begun: Begun, tokens: &'a [Token]) -> Found<'a, ImportItem>
    ensures { IfOk result (λ r. seen r ≡ spec.named_at left begun.at begun.source begun.qualified tokens.now) }
{
    match expected(Wanted::ModId, tokens) {
        Err(stop) => Ok(Err(stop)),
        Ok((token, rest)) => match alias(alloc, rest)? {
            Err(stop) => Ok(Err(stop)),
            Ok((alias, rest)) => match list(alloc, left, rest)? {
                Err(stop) => Ok(Err(stop)),
                Ok((list, behind)) => {
                    let module = module_ref(alloc, token)?;
                    let Begun {
                        at,
                        source,
                        qualified,
                    } = begun;
                    let item = ImportItem {
                        at,
                        source,
                        qualified,
                        module,
                        alias,
                        list,
                    };
                    Ok(Ok((item, behind)))
                }
            },
        },
    }
}

/// An import, behind the `import` at a place.
#[tactic(auto, unfolding(crate::specs::Readers::import_at))]
fn import<'a>(alloc: Global, left: usize, at: Pos, tokens: &'a [Token]) -> Found<'a, ImportItem>
    ensures { IfOk result (λ r. seen r ≡ spec.import_at left at tokens.now) }
{
    let (source, rest) = mark(tokens);
    let (qualified, rest) = qualifier(rest);
    let begun = Begun {
        at,
        source,
        qualified,
    };
    named(alloc, left, begun, rest)
}

fn same_sort(a: bool, b: bool) -> bool
    ensures { result ≡ spec.same_sort a b }
{
    a == b
}

/// The tokens behind a semicolon that follows an import; None where what may follow a header stands there. The braces
/// of the block are put or written.
fn behind_import(put: bool, tokens: &[Token]) -> Result<Option<&[Token]>, Stop>
    ensures { tail_seen result ≡ spec.behind_at put tokens.now }
{
    let Some(first) = first_of(tokens) else {
        return Ok(None);
    };
    match first.sign {
        Sign::Semicolon => Ok(Some(first.rest)),
        Sign::CloseBrace(sort) => {
            if same_sort(put, sort) {
                Ok(None)
            } else {
                Err(Stop::At(first.token.at))
            }
        }
        _ => Err(Stop::At(first.token.at)),
    }
}

/// The imports of a block whose opening brace was put or written, up to what follows them.
#[tactic(auto, using(crate::proofs::Steps::imports_step, crate::proofs::Steps::imports_end))]
pub fn imports<'a>(
    alloc: Global,
    left: usize,
    put: bool,
    tokens: &'a [Token],
) -> Found<'a, List<ImportItem>>
    ensures { IfOk result (λ r. seen r ≡ spec.imports_at put left [] tokens.now) }
{
    let mut items = List::new(alloc);
    let mut left = left;
    let mut rest = tokens;
    while left > 0 {
        left -= 1;
        let Some(first) = first_of(rest) else {
            return Ok(Ok((items, rest)));
        };
        match first.sign {
            Sign::Semicolon => rest = first.rest,
            Sign::Import => match import(alloc, left, first.token.at, first.rest)? {
                Err(stop) => return Ok(Err(stop)),
                Ok((item, behind)) => {
                    items.push(item)?;
                    match behind_import(put, behind) {
                        Err(stop) => return Ok(Err(stop)),
                        Ok(None) => return Ok(Ok((items, behind))),
                        Ok(Some(next)) => rest = next,
                    }
                }
            },
            _ => return Ok(Ok((items, rest))),
        }
    }
    Ok(Err(Stop::End))
}
