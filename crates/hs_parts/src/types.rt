//! Types (Haskell 2010 Report, section 4.1.2).
#![tactic(auto, using(crate::proofs::Steps::type_readers_step, crate::proofs::Steps::type_readers_end, crate::proofs::Steps::type_tail_step, crate::proofs::Steps::type_tail_end))]

ghost use Rattle.std.specs.Prelude.{◌≡◌, [], Some, None, IfOk};
ghost use Rattle.hs_syntax.specs.Made as made;
ghost use Rattle.hs_syntax.specs.Reading.{seen, begins};
ghost use Rattle.hs_syntax.specs.Reading as reading;
ghost use Rattle.hs_syntax.specs.Names as names;
ghost use Rattle.hs_parts.specs.Names as parts;
ghost use Rattle.hs_parts.specs.TypeReaders as spec;

use crate::names::{Found, more_commas};
use hs_syntax::behind::{behind_arrow, behind_close_paren, behind_close_square, behind_comma};
use hs_syntax::parted::name_ref;
use hs_syntax::sign::{Sign, first_of};
use hs_syntax::token::Token;
use hs_syntax::type_tree::{AtypeTree, BtypeTree, TypeTree};
use mk_base::memory::NoMemory;
use mk_base::place::Pos;
use sqlite_items::{Boxed, Items};
use std::alloc::Global;

/// The place of the first token; the first place of a source where there is none.
pub fn place_of(tokens: &[Token]) -> Pos
    ensures { result ≡ parts.place tokens.now }
{
    match first_of(tokens) {
        None => Pos { line: 1, col: 1 },
        Some(first) => first.token.at,
    }
}

/// Whether an atype begins here.
pub fn is_atype_start(tokens: &[Token]) -> bool
    ensures { result ≡ begins spec.begins_atype tokens.now }
{
    match first_of(tokens) {
        None => false,
        Some(first) => match first.sign {
            Sign::Var => true,
            Sign::Con => true,
            Sign::QualifiedCon => true,
            Sign::OpenParen => true,
            Sign::OpenSquare => true,
            _ => false,
        },
    }
}

/// A type with an arrow.
fn arrow_type(alloc: Global, at: Pos, from: BtypeTree, to: TypeTree) -> Result<TypeTree, NoMemory>
    ensures { IfOk result (λ t. t ≡ made.type_tree at from (Some to)) }
{
    let to = Boxed::new(alloc, to)?;
    Ok(TypeTree {
        at,
        from,
        to: Some(to),
    })
}

/// `type = btype [-> type]`, as far as it goes.
#[cycle(types)]
pub fn ty<'a>(alloc: Global, left: usize, tokens: &'a [Token]) -> Found<'a, TypeTree>
    ensures { IfOk result (λ r. seen r ≡ (spec.type_readers left).ty tokens.now) }
{
    if left == 0 {
        return Ok(None);
    }
    let at = place_of(tokens);
    match btype(alloc, left - 1, tokens)? {
        None => Ok(None),
        Some((from, rest)) => match behind_arrow(rest) {
            None => Ok(Some((TypeTree { at, from, to: None }, rest))),
            Some(behind) => match ty(alloc, left - 1, behind)? {
                None => Ok(None),
                Some((to, last)) => Ok(Some((arrow_type(alloc, at, from, to)?, last))),
            },
        },
    }
}

/// `btype = atype {atype}`
#[cycle(types)]
pub fn btype<'a>(alloc: Global, left: usize, tokens: &'a [Token]) -> Found<'a, BtypeTree>
    ensures { IfOk result (λ r. seen r ≡ (spec.type_readers left).btype tokens.now) }
{
    if left == 0 {
        return Ok(None);
    }
    match atype(alloc, left - 1, tokens)? {
        None => Ok(None),
        Some((head, rest)) => match atypes(alloc, left - 1, rest)? {
            None => Ok(None),
            Some((args, last)) => {
                let at = place_of(tokens);
                Ok(Some((BtypeTree { at, head, args }, last)))
            }
        },
    }
}

/// `{atype}`, as many as there are.
#[cycle(types)]
pub fn atypes<'a>(alloc: Global, left: usize, tokens: &'a [Token]) -> Found<'a, Items<AtypeTree>>
    ensures { IfOk result (λ r. seen r ≡ (spec.type_readers left).atypes [] tokens.now) }
{
    let mut parts = Vec::new(alloc);
    let mut left = left;
    let mut rest = tokens;
    while left > 0 {
        left -= 1;
        if !is_atype_start(rest) {
            return Ok(Some((Items::from_vec(parts), rest)));
        }
        match atype(alloc, left, rest)? {
            None => return Ok(None),
            Some((part, behind)) => {
                parts.push(part)?;
                rest = behind;
            }
        }
    }
    Ok(None)
}

/// The constructor of types that a token writes, with the tokens behind it.
fn con_type<'a>(alloc: Global, token: &Token, rest: &'a [Token]) -> Found<'a, AtypeTree>
    ensures { IfOk result (λ r. seen r ≡ spec.con_type token.now rest.now) }
{
    let name = name_ref(alloc, token)?;
    Ok(Some((AtypeTree::Con { at: token.at, name }, rest)))
}

/// The variable of types that a token writes, with the tokens behind it.
fn var_type<'a>(alloc: Global, token: &Token, rest: &'a [Token]) -> Found<'a, AtypeTree>
    ensures { IfOk result (λ r. seen r ≡ spec.var_type token.now rest.now) }
{
    let name = name_ref(alloc, token)?;
    Ok(Some((AtypeTree::Var { at: token.at, name }, rest)))
}

/// `atype = qtycon | () | [] | (->) | (, {,}) | tyvar | ( type {, type} ) | [ type ]`
#[cycle(types)]
pub fn atype<'a>(alloc: Global, left: usize, tokens: &'a [Token]) -> Found<'a, AtypeTree>
    ensures { IfOk result (λ r. seen r ≡ (spec.type_readers left).atype tokens.now) }
{
    if left == 0 {
        return Ok(None);
    }
    match first_of(tokens) {
        None => Ok(None),
        Some(first) => match first.sign {
            Sign::Con => con_type(alloc, first.token, first.rest),
            Sign::QualifiedCon => con_type(alloc, first.token, first.rest),
            Sign::Var => var_type(alloc, first.token, first.rest),
            Sign::OpenParen => paren_type(alloc, left - 1, first.token.at, first.rest),
            Sign::OpenSquare => square_type(alloc, left - 1, first.token.at, first.rest),
            _ => Ok(None),
        },
    }
}

/// Behind an opening parenthesis at a place: the rest of `()`, `(->)` or `(, {,})`.
fn special(at: Pos, tokens: &[Token]) -> Option<(AtypeTree, &[Token])>
    ensures { seen result ≡ spec.special_at at tokens.now }
{
    match first_of(tokens) {
        None => None,
        Some(first) => match first.sign {
            Sign::CloseParen => Some((AtypeTree::Unit { at }, first.rest)),
            Sign::Arrow => match behind_close_paren(first.rest) {
                None => None,
                Some(rest) => Some((AtypeTree::Arrow { at }, rest)),
            },
            Sign::Comma => match more_commas(first.rest) {
                None => None,
                Some((commas, rest)) => Some((AtypeTree::TupleCon { at, commas }, rest)),
            },
            _ => None,
        },
    }
}

/// Behind an opening parenthesis at a place: the rest of an atype.
#[cycle(types)]
fn paren_type<'a>(alloc: Global, left: usize, at: Pos, tokens: &'a [Token]) -> Found<'a, AtypeTree>
    ensures { IfOk result (λ r. seen r ≡ spec.paren_type (spec.type_readers left) at tokens.now) }
{
    match special(at, tokens) {
        Some((part, rest)) => Ok(Some((part, rest))),
        None => match types(alloc, left, tokens)? {
            None => Ok(None),
            Some((parts, rest)) => match behind_close_paren(rest) {
                None => Ok(None),
                Some(last) => Ok(Some((AtypeTree::Tuple { at, parts }, last))),
            },
        },
    }
}

/// A list's type.
fn list_type(alloc: Global, at: Pos, part: TypeTree) -> Result<AtypeTree, NoMemory>
    ensures { IfOk result (λ t. t ≡ spec.list_type at part) }
{
    let part = Boxed::new(alloc, part)?;
    Ok(AtypeTree::List { at, part })
}

/// Behind an opening square bracket at a place: the rest of an atype.
#[cycle(types)]
fn square_type<'a>(alloc: Global, left: usize, at: Pos, tokens: &'a [Token]) -> Found<'a, AtypeTree>
    ensures { IfOk result (λ r. seen r ≡ spec.square_type (spec.type_readers left) at tokens.now) }
{
    match behind_close_square(tokens) {
        Some(rest) => Ok(Some((AtypeTree::ListCon { at }, rest))),
        None => match ty(alloc, left, tokens)? {
            None => Ok(None),
            Some((part, rest)) => match behind_close_square(rest) {
                None => Ok(None),
                Some(last) => Ok(Some((list_type(alloc, at, part)?, last))),
            },
        },
    }
}

/// `type {, type}`
#[cycle(types)]
fn types<'a>(alloc: Global, left: usize, tokens: &'a [Token]) -> Found<'a, Items<TypeTree>>
    ensures { IfOk result (λ r. seen r ≡ (spec.type_readers left).types [] tokens.now) }
{
    let mut parts = Vec::new(alloc);
    let mut left = left;
    let mut rest = tokens;
    while left > 0 {
        left -= 1;
        match ty(alloc, left, rest)? {
            None => return Ok(None),
            Some((part, behind)) => {
                parts.push(part)?;
                rest = behind;
            }
        }
        match behind_comma(rest) {
            None => return Ok(Some((Items::from_vec(parts), rest))),
            Some(behind) => rest = behind,
        }
    }
    Ok(None)
}

/// Whether an arrow stands first.
fn is_arrow(tokens: &[Token]) -> bool
    ensures { result ≡ begins reading.is_arrow tokens.now }
{
    match first_of(tokens) {
        None => false,
        Some(first) => match first.sign {
            Sign::Arrow => true,
            _ => false,
        },
    }
}

/// A type in front of an arrow that isn't its own: as far as an arrow follows it.
pub fn type_tail<'a>(alloc: Global, left: usize, tokens: &'a [Token]) -> Found<'a, TypeTree>
    ensures { IfOk result (λ r. seen r ≡ spec.type_tail left tokens.now) }
{
    if left == 0 {
        return Ok(None);
    }
    let at = place_of(tokens);
    match btype(alloc, left - 1, tokens)? {
        None => Ok(None),
        Some((from, rest)) => match behind_arrow(rest) {
            None => Ok(Some((TypeTree { at, from, to: None }, rest))),
            Some(behind) => match type_tail(alloc, left - 1, behind)? {
                None => Ok(Some((TypeTree { at, from, to: None }, rest))),
                Some((to, last)) => {
                    if is_arrow(last) {
                        Ok(Some((arrow_type(alloc, at, from, to)?, last)))
                    } else {
                        Ok(Some((TypeTree { at, from, to: None }, rest)))
                    }
                }
            },
        },
    }
}
