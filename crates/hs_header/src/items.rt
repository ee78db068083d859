//! The lists of imports (Haskell 2010 Report, section 5.3).
ghost use Rattle.std.specs.Prelude.{◌≡◌, [], ◌∷◌, codes, IfOk};
ghost use Rattle.hs_header.specs.Readers.{seen, item_at};
ghost use Rattle.hs_header.specs.Readers as spec;

use crate::expected::{Found, Stop, Wanted, enclosed, expected, is_word};
use crate::subs::told;
use hs_syntax::header::{IitemTree, ImportList};
use hs_syntax::parted::name_ref;
use hs_syntax::sign::{Sign, first_of};
use hs_syntax::token::Token;
use mk_base::list::List;
use std::alloc::Global;

/// A variable of the list.
fn var_item<'a>(alloc: Global, first: &Token, rest: &'a [Token]) -> Found<'a, IitemTree>
    ensures { IfOk result (λ r. seen r ≡ spec.var_item first.now rest.now) }
{
    let name = name_ref(alloc, first)?;
    let at = first.at;
    Ok(Ok((IitemTree::Var { at, name }, rest)))
}

/// An operator of the list, behind a parenthesis.
fn symbol_item<'a>(alloc: Global, first: &Token, rest: &'a [Token]) -> Found<'a, IitemTree>
    ensures { IfOk result (λ r. seen r ≡ spec.symbol_item first.now rest.now) }
{
    match enclosed(Wanted::VarSym, rest) {
        Err(stop) => Ok(Err(stop)),
        Ok((token, behind)) => {
            let name = name_ref(alloc, token)?;
            let at = first.at;
            Ok(Ok((IitemTree::Var { at, name }, behind)))
        }
    }
}

/// A type or class of the list.
fn type_item<'a>(
    alloc: Global,
    left: usize,
    first: &Token,
    rest: &'a [Token],
) -> Found<'a, IitemTree>
    ensures { IfOk result (λ r. seen r ≡ spec.type_item left first.now rest.now) }
{
    match told(alloc, left, rest)? {
        Err(stop) => Ok(Err(stop)),
        Ok((subs, behind)) => {
            let name = name_ref(alloc, first)?;
            let at = first.at;
            Ok(Ok((IitemTree::Type { at, name, subs }, behind)))
        }
    }
}

/// A name of the list.
#[tactic(auto, unfolding(crate::specs::Readers::item_at))]
fn item<'a>(alloc: Global, left: usize, tokens: &'a [Token]) -> Found<'a, IitemTree>
    ensures { IfOk result (λ r. seen r ≡ spec.item_at left tokens.now) }
{
    let Some(first) = first_of(tokens) else {
        return Ok(Err(Stop::End));
    };
    match first.sign {
        Sign::Var => var_item(alloc, first.token, first.rest),
        Sign::OpenParen => symbol_item(alloc, first.token, first.rest),
        Sign::Con => type_item(alloc, left, first.token, first.rest),
        _ => Ok(Err(Stop::At(first.token.at))),
    }
}

/// A further name behind a comma; None where the list ends.
fn next_item<'a>(alloc: Global, left: usize, tokens: &'a [Token]) -> Found<'a, Option<IitemTree>>
    ensures { IfOk result (λ r. seen r ≡ spec.next_at item_at left tokens.now) }
{
    let Some(first) = first_of(tokens) else {
        return Ok(Err(Stop::End));
    };
    match first.sign {
        Sign::CloseParen => Ok(Ok((None, first.rest))),
        _ => match item(alloc, left, tokens)? {
            Err(stop) => Ok(Err(stop)),
            Ok((item, behind)) => Ok(Ok((Some(item), behind))),
        },
    }
}

/// The names behind one, up to the closing parenthesis.
#[tactic(auto, using(crate::proofs::Steps::more_step, crate::proofs::Steps::more_end))]
fn more_items<'a>(
    alloc: Global,
    left: usize,
    first: IitemTree,
    tokens: &'a [Token],
) -> Found<'a, List<IitemTree>>
    ensures { IfOk result (λ r. seen r ≡ spec.more item_at left (first ∷ []) tokens.now) }
{
    let mut items = List::new(alloc);
    items.push(first)?;
    let mut left = left;
    let mut rest = tokens;
    while left > 0 {
        left -= 1;
        let Some(next) = first_of(rest) else {
            return Ok(Err(Stop::End));
        };
        match next.sign {
            Sign::CloseParen => return Ok(Ok((items, next.rest))),
            Sign::Comma => match next_item(alloc, left, next.rest)? {
                Err(stop) => return Ok(Err(stop)),
                Ok((found, behind)) => match found {
                    None => return Ok(Ok((items, behind))),
                    Some(item) => {
                        items.push(item)?;
                        rest = behind;
                    }
                },
            },
            _ => return Ok(Err(Stop::At(next.token.at))),
        }
    }
    Ok(Err(Stop::End))
}

/// Some names, up to the closing parenthesis.
fn some_items<'a>(alloc: Global, left: usize, tokens: &'a [Token]) -> Found<'a, List<IitemTree>>
    ensures { IfOk result (λ r. seen r ≡ spec.some_listed item_at left tokens.now) }
{
    match item(alloc, left, tokens)? {
        Err(stop) => Ok(Err(stop)),
        Ok((first, rest)) => more_items(alloc, left, first, rest),
    }
}

/// What stands behind the opening parenthesis of the list.
#[tactic(auto, unfolding(crate::specs::Readers::listing))]
fn listed_items<'a>(alloc: Global, left: usize, tokens: &'a [Token]) -> Found<'a, List<IitemTree>>
    ensures { IfOk result (λ r. seen r ≡ spec.listing item_at left tokens.now) }
{
    let Some(first) = first_of(tokens) else {
        return Ok(Err(Stop::End));
    };
    match first.sign {
        Sign::CloseParen => Ok(Ok((List::new(alloc), first.rest))),
        Sign::Comma => match expected(Wanted::CloseParen, first.rest) {
            Err(stop) => Ok(Err(stop)),
            Ok((_, behind)) => Ok(Ok((List::new(alloc), behind))),
        },
        _ => some_items(alloc, left, tokens),
    }
}

/// The names that are meant, behind the opening parenthesis.
fn meant<'a>(alloc: Global, left: usize, tokens: &'a [Token]) -> Found<'a, Option<ImportList>>
    ensures { IfOk result (λ r. seen r ≡ spec.meant left tokens.now) }
{
    match listed_items(alloc, left, tokens)? {
        Err(stop) => Ok(Err(stop)),
        Ok((items, behind)) => {
            let hiding = false;
            Ok(Ok((Some(ImportList { hiding, items }), behind)))
        }
    }
}

/// The names that are left out, behind `hiding`.
fn hidden<'a>(alloc: Global, left: usize, tokens: &'a [Token]) -> Found<'a, Option<ImportList>>
    ensures { IfOk result (λ r. seen r ≡ spec.hidden left tokens.now) }
{
    match expected(Wanted::OpenParen, tokens) {
        Err(stop) => Ok(Err(stop)),
        Ok((_, rest)) => match listed_items(alloc, left, rest)? {
            Err(stop) => Ok(Err(stop)),
            Ok((items, behind)) => {
                let hiding = true;
                Ok(Ok((Some(ImportList { hiding, items }), behind)))
            }
        },
    }
}

/// The list of an import, if it has one.
#[tactic(auto, unfolding(crate::specs::Readers::list_at))]
pub fn list<'a>(alloc: Global, left: usize, tokens: &'a [Token]) -> Found<'a, Option<ImportList>>
    ensures { IfOk result (λ r. seen r ≡ spec.list_at left tokens.now) }
{
    let Some(first) = first_of(tokens) else {
        return Ok(Ok((None, tokens)));
    };
    match first.sign {
        Sign::OpenParen => meant(alloc, left, first.rest),
        _ => {
            if is_word(first.sign, first.token.text.as_slice(), b"hiding") {
                hidden(alloc, left, first.rest)
            } else {
                Ok(Ok((None, tokens)))
            }
        }
    }
}
