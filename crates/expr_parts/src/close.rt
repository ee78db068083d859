//! Atomic expressions from their parts, where the bracket that closes them stands behind these.
ghost use Rattle.std.specs.Prelude.{◌≡◌, Some, None, IfOk};
ghost use Rattle.hs_syntax.specs.Reading.{seen, behind, with_sign, is_close_paren, is_close_square};
ghost use Rattle.expr_parts.specs.Expressions as spec;

use crate::tree::{
    comprehension_of, left_section_of, list_of, lone_list_of, range_of, right_section_of, tuple_of,
};
use hs_parts::names::Found;
use hs_syntax::behind::{behind_close_paren, behind_close_square};
use hs_syntax::expr_tree::{AexpTree, ChainTree, ExprTree, QualTree};
use hs_syntax::name_ref::QopTree;
use hs_syntax::token::Token;
use mk_base::place::Pos;
use sqlite_items::{Boxed, Items};
use std::alloc::Global;

/// `( exp {, exp} )`, from the closing parenthesis on.
pub fn tuple<'a>(
    alloc: Global,
    at: Pos,
    parts: Items<ExprTree>,
    tokens: &'a [Token],
) -> Found<'a, Boxed<AexpTree>>
    ensures { IfOk result (λ r. seen r ≡ with_sign (behind is_close_paren tokens.now) (spec.tuple_of at parts)) }
{
    match behind_close_paren(tokens) {
        None => Ok(None),
        Some(rest) => {
            let made = tuple_of(alloc, at, parts)?;
            Ok(Some((made, rest)))
        }
    }
}

/// `[ exp {, exp} ]`, from the closing bracket on.
pub fn list<'a>(
    alloc: Global,
    at: Pos,
    parts: Items<ExprTree>,
    tokens: &'a [Token],
) -> Found<'a, Boxed<AexpTree>>
    ensures { IfOk result (λ r. seen r ≡ with_sign (behind is_close_square tokens.now) (spec.list_of at parts)) }
{
    match behind_close_square(tokens) {
        None => Ok(None),
        Some(rest) => {
            let made = list_of(alloc, at, parts)?;
            Ok(Some((made, rest)))
        }
    }
}

/// `[ exp ]`, from the closing bracket on.
pub fn lone_list<'a>(
    alloc: Global,
    at: Pos,
    part: Boxed<ExprTree>,
    tokens: &'a [Token],
) -> Found<'a, Boxed<AexpTree>>
    ensures { IfOk result (λ r. seen r ≡ spec.lone_list_at at part tokens.now) }
{
    match behind_close_square(tokens) {
        None => Ok(None),
        Some(rest) => {
            let made = lone_list_of(alloc, at, part)?;
            Ok(Some((made, rest)))
        }
    }
}

/// `[ exp | qual {, qual} ]`, from the closing bracket on.
pub fn comprehension<'a>(
    alloc: Global,
    at: Pos,
    body: Boxed<ExprTree>,
    quals: Items<QualTree>,
    tokens: &'a [Token],
) -> Found<'a, Boxed<AexpTree>>
    ensures { IfOk result (λ r. seen r ≡ with_sign (behind is_close_square tokens.now) (spec.comprehension_of at body quals)) }
{
    match behind_close_square(tokens) {
        None => Ok(None),
        Some(rest) => {
            let made = comprehension_of(alloc, at, body, quals)?;
            Ok(Some((made, rest)))
        }
    }
}

/// `[ exp [, exp] .. exp ]`, from the closing bracket on.
pub fn range<'a>(
    alloc: Global,
    at: Pos,
    from: Boxed<ExprTree>,
    then: Option<Boxed<ExprTree>>,
    to: Boxed<ExprTree>,
    tokens: &'a [Token],
) -> Found<'a, Boxed<AexpTree>>
    ensures { IfOk result (λ r. seen r ≡ with_sign (behind is_close_square tokens.now) (spec.range_of at from then (Some to))) }
{
    match behind_close_square(tokens) {
        None => Ok(None),
        Some(rest) => {
            let made = range_of(alloc, at, from, then, Some(to))?;
            Ok(Some((made, rest)))
        }
    }
}

/// `[ exp [, exp] .. ]`, with the tokens behind it.
pub fn open_range<'a>(
    alloc: Global,
    at: Pos,
    from: Boxed<ExprTree>,
    then: Option<Boxed<ExprTree>>,
    rest: &'a [Token],
) -> Found<'a, Boxed<AexpTree>>
    ensures { IfOk result (λ r. seen r ≡ spec.found_range at from then rest.now) }
{
    let made = range_of(alloc, at, from, then, None)?;
    Ok(Some((made, rest)))
}

/// `( chain qop )`, with the tokens behind it.
pub fn left_section<'a>(
    alloc: Global,
    at: Pos,
    chain: Boxed<ChainTree>,
    op: QopTree,
    rest: &'a [Token],
) -> Found<'a, Boxed<AexpTree>>
    ensures { IfOk result (λ r. seen r ≡ spec.found_section at chain op rest.now) }
{
    let made = left_section_of(alloc, at, chain, op)?;
    Ok(Some((made, rest)))
}

/// `( qop chain )`, from the closing parenthesis on.
pub fn right_section<'a>(
    alloc: Global,
    at: Pos,
    op: QopTree,
    chain: Boxed<ChainTree>,
    tokens: &'a [Token],
) -> Found<'a, Boxed<AexpTree>>
    ensures { IfOk result (λ r. seen r ≡ with_sign (behind is_close_paren tokens.now) (spec.right_section_of at op chain)) }
{
    match behind_close_paren(tokens) {
        None => Ok(None),
        Some(rest) => {
            let made = right_section_of(alloc, at, op, chain)?;
            Ok(Some((made, rest)))
        }
    }
}
