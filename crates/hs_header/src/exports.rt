//! Exports (Haskell 2010 Report, section 5.2).
ghost use Rattle.std.specs.Prelude.{◌≡◌, [], ◌∷◌, IfOk};
ghost use Rattle.hs_header.specs.Readers.{seen, export_at};
ghost use Rattle.hs_header.specs.Readers as spec;

use crate::expected::{Found, Stop, Wanted, enclosed, expected};
use crate::subs::told;
use hs_syntax::header::ExportItem;
use hs_syntax::parted::{module_ref, name_ref};
use hs_syntax::sign::{Sign, first_of};
use hs_syntax::token::Token;
use mk_base::list::List;
use std::alloc::Global;

/// The export of a variable.
fn var_export<'a>(alloc: Global, first: &Token, rest: &'a [Token]) -> Found<'a, ExportItem>
    ensures { IfOk result (λ r. seen r ≡ spec.var_export first.now rest.now) }
{
    let name = name_ref(alloc, first)?;
    let at = first.at;
    Ok(Ok((ExportItem::Var { at, name }, rest)))
}

/// The export of an operator behind a parenthesis.
fn symbol_export<'a>(alloc: Global, first: &Token, rest: &'a [Token]) -> Found<'a, ExportItem>
    ensures { IfOk result (λ r. seen r ≡ spec.symbol_export first.now rest.now) }
{
    match enclosed(Wanted::QualifiedVarSym, rest) {
        Err(stop) => Ok(Err(stop)),
        Ok((token, behind)) => {
            let name = name_ref(alloc, token)?;
            let at = first.at;
            Ok(Ok((ExportItem::Var { at, name }, behind)))
        }
    }
}

/// The export of a type or class.
fn type_export<'a>(
    alloc: Global,
    left: usize,
    first: &Token,
    rest: &'a [Token],
) -> Found<'a, ExportItem>
    ensures { IfOk result (λ r. seen r ≡ spec.type_export left first.now rest.now) }
{
    match told(alloc, left, rest)? {
        Err(stop) => Ok(Err(stop)),
        Ok((subs, behind)) => {
            let name = name_ref(alloc, first)?;
            let at = first.at;
            Ok(Ok((ExportItem::Type { at, name, subs }, behind)))
        }
    }
}

/// The export of a module behind `module`.
fn module_export<'a>(alloc: Global, first: &Token, rest: &'a [Token]) -> Found<'a, ExportItem>
    ensures { IfOk result (λ r. seen r ≡ spec.module_export first.now rest.now) }
{
    match expected(Wanted::ModId, rest) {
        Err(stop) => Ok(Err(stop)),
        Ok((token, behind)) => {
            let module = module_ref(alloc, token)?;
            let at = first.at;
            Ok(Ok((ExportItem::Module { at, module }, behind)))
        }
    }
}

/// An export.
#[tactic(auto, unfolding(crate::specs::Readers::export_at))]
fn export<'a>(alloc: Global, left: usize, tokens: &'a [Token]) -> Found<'a, ExportItem>
    ensures { IfOk result (λ r. seen r ≡ spec.export_at left tokens.now) }
{
    let Some(first) = first_of(tokens) else {
        return Ok(Err(Stop::End));
    };
    match first.sign {
        Sign::Var => var_export(alloc, first.token, first.rest),
        Sign::QualifiedVar => var_export(alloc, first.token, first.rest),
        Sign::OpenParen => symbol_export(alloc, first.token, first.rest),
        Sign::Con => type_export(alloc, left, first.token, first.rest),
        Sign::QualifiedCon => type_export(alloc, left, first.token, first.rest),
        Sign::Module => module_export(alloc, first.token, first.rest),
        _ => Ok(Err(Stop::At(first.token.at))),
    }
}

/// A further export behind a comma; None where the list ends.
fn next_export<'a>(alloc: Global, left: usize, tokens: &'a [Token]) -> Found<'a, Option<ExportItem>>
    ensures { IfOk result (λ r. seen r ≡ spec.next_at export_at left tokens.now) }
{
    let Some(first) = first_of(tokens) else {
        return Ok(Err(Stop::End));
    };
    match first.sign {
        Sign::CloseParen => Ok(Ok((None, first.rest))),
        _ => match export(alloc, left, tokens)? {
            Err(stop) => Ok(Err(stop)),
            Ok((item, behind)) => Ok(Ok((Some(item), behind))),
        },
    }
}

/// The exports behind one, up to the closing parenthesis.
#[tactic(auto, using(crate::proofs::Steps::more_step, crate::proofs::Steps::more_end))]
fn more_exports<'a>(
    alloc: Global,
    left: usize,
    first: ExportItem,
    tokens: &'a [Token],
) -> Found<'a, List<ExportItem>>
    ensures { IfOk result (λ r. seen r ≡ spec.more export_at left (first ∷ []) tokens.now) }
{
    let mut items = List::new(alloc);
    items.push(first)?;
    let mut left = left;
    let mut rest = tokens;
    while left > 0 {
        left -= 1;
        let Some(next) = first_of(rest) else {
            return Ok(Err(Stop::End));
        };
        match next.sign {
            Sign::CloseParen => return Ok(Ok((items, next.rest))),
            Sign::Comma => match next_export(alloc, left, next.rest)? {
                Err(stop) => return Ok(Err(stop)),
                Ok((found, behind)) => match found {
                    None => return Ok(Ok((items, behind))),
                    Some(item) => {
                        items.push(item)?;
                        rest = behind;
                    }
                },
            },
            _ => return Ok(Err(Stop::At(next.token.at))),
        }
    }
    Ok(Err(Stop::End))
}

/// Some exports, up to the closing parenthesis.
fn some_exports<'a>(alloc: Global, left: usize, tokens: &'a [Token]) -> Found<'a, List<ExportItem>>
    ensures { IfOk result (λ r. seen r ≡ spec.some_listed export_at left tokens.now) }
{
    match export(alloc, left, tokens)? {
        Err(stop) => Ok(Err(stop)),
        Ok((first, rest)) => more_exports(alloc, left, first, rest),
    }
}

/// What stands behind the opening parenthesis of the exports.
#[tactic(auto, unfolding(crate::specs::Readers::listing))]
fn listed_exports<'a>(
    alloc: Global,
    left: usize,
    tokens: &'a [Token],
) -> Found<'a, List<ExportItem>>
    ensures { IfOk result (λ r. seen r ≡ spec.listing export_at left tokens.now) }
{
    let Some(first) = first_of(tokens) else {
        return Ok(Err(Stop::End));
    };
    match first.sign {
        Sign::CloseParen => Ok(Ok((List::new(alloc), first.rest))),
        Sign::Comma => match expected(Wanted::CloseParen, first.rest) {
            Err(stop) => Ok(Err(stop)),
            Ok((_, behind)) => Ok(Ok((List::new(alloc), behind))),
        },
        _ => some_exports(alloc, left, tokens),
    }
}

/// The exports in parentheses, if they are listed.
#[tactic(auto, unfolding(crate::specs::Readers::exports_at))]
pub fn exports<'a>(
    alloc: Global,
    left: usize,
    tokens: &'a [Token],
) -> Found<'a, Option<List<ExportItem>>>
    ensures { IfOk result (λ r. seen r ≡ spec.exports_at left tokens.now) }
{
    let Some(first) = first_of(tokens) else {
        return Ok(Ok((None, tokens)));
    };
    match first.sign {
        Sign::OpenParen => match listed_exports(alloc, left, first.rest)? {
            Err(stop) => Ok(Err(stop)),
            Ok((items, behind)) => Ok(Ok((Some(items), behind))),
        },
        _ => Ok(Ok((None, tokens))),
    }
}
