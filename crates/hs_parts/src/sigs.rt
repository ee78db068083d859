//! Signatures and fixities (Haskell 2010 Report, sections 4.4.1 and 4.4.2).
#![tactic(auto, using(crate::proofs::Steps::vars_step, crate::proofs::Steps::ops_step))]

ghost use Rattle.std.specs.Prelude.{◌≡◌, [], IfOk};
ghost use Rattle.hs_syntax.specs.Reading.{seen};
ghost use Rattle.hs_parts.specs.Grammar as grammar;
ghost use Rattle.hs_parts.specs.SigReaders as spec;

use crate::contexts::qualified;
use crate::names::{Found, op, var};
use crate::types::place_of;
use hs_syntax::behind::{behind_comma, behind_typed};
use hs_syntax::expr_tree::{FixTree, FixWord, SigTree};
use hs_syntax::name_ref::{NameRef, QopTree};
use hs_syntax::sign::{Sign, first_of};
use hs_syntax::token::Token;
use mk_base::list::List;
use mk_base::place::Pos;
use std::alloc::Global;

/// `var {, var}`
pub fn vars<'a>(alloc: Global, left: usize, tokens: &'a [Token]) -> Found<'a, List<NameRef>>
    ensures { IfOk result (λ r. seen r ≡ spec.vars_at left [] tokens.now) }
{
    let mut names = Vec::new(alloc);
    let mut left = left;
    let mut rest = tokens;
    while left > 0 {
        left -= 1;
        match var(alloc, rest)? {
            None => return Ok(None),
            Some((name, behind)) => {
                names.push(name)?;
                rest = behind;
            }
        }
        match behind_comma(rest) {
            None => return Ok(Some((List::from_vec(names), rest))),
            Some(behind) => rest = behind,
        }
    }
    Ok(None)
}

/// Variables and the `::` behind them.
pub fn typed_vars<'a>(alloc: Global, left: usize, tokens: &'a [Token]) -> Found<'a, List<NameRef>>
    ensures { IfOk result (λ r. seen r ≡ spec.typed_vars left tokens.now) }
{
    match vars(alloc, left, tokens)? {
        None => Ok(None),
        Some((names, rest)) => match behind_typed(rest) {
            None => Ok(None),
            Some(last) => Ok(Some((names, last))),
        },
    }
}

/// Behind the `::` of a signature whose names begin at a place: its type.
fn sig_of<'a>(
    alloc: Global,
    left: usize,
    at: Pos,
    names: List<NameRef>,
    tokens: &'a [Token],
) -> Found<'a, SigTree>
    ensures { IfOk result (λ r. seen r ≡ spec.sig_of left at names tokens.now) }
{
    match qualified(alloc, left, tokens)? {
        None => Ok(None),
        Some((ty, rest)) => Ok(Some((SigTree { at, names, ty }, rest))),
    }
}

/// `sig = var {, var} :: [context =>] type`, as far as it goes.
pub fn sig<'a>(alloc: Global, left: usize, tokens: &'a [Token]) -> Found<'a, SigTree>
    ensures { IfOk result (λ r. seen r ≡ spec.sig_at left tokens.now) }
{
    match typed_vars(alloc, left, tokens)? {
        None => Ok(None),
        Some((names, rest)) => sig_of(alloc, left, place_of(tokens), names, rest),
    }
}

/// `op {, op}`
fn ops<'a>(alloc: Global, left: usize, tokens: &'a [Token]) -> Found<'a, List<QopTree>>
    ensures { IfOk result (λ r. seen r ≡ spec.ops_at left [] tokens.now) }
{
    let mut ops = Vec::new(alloc);
    let mut left = left;
    let mut rest = tokens;
    while left > 0 {
        left -= 1;
        match op(alloc, rest)? {
            None => return Ok(None),
            Some((next, behind)) => {
                ops.push(next)?;
                rest = behind;
            }
        }
        match behind_comma(rest) {
            None => return Ok(Some((List::from_vec(ops), rest))),
            Some(behind) => rest = behind,
        }
    }
    Ok(None)
}

/// The value of one digit of ASCII; None for any other text.
fn digit_of(text: &[u8]) -> Option<u8>
    ensures { result ≡ grammar.digit_of text.now }
{
    match text {
        [byte] => {
            if *byte < 48 {
                None
            } else if *byte < 58 {
                Some(*byte - 48)
            } else {
                None
            }
        }
        _ => None,
    }
}

/// `[digit]`; None for a number that is no digit.
fn digit(tokens: &[Token]) -> Option<(Option<u8>, &[Token])>
    ensures { seen result ≡ spec.digit_at tokens.now }
{
    match first_of(tokens) {
        None => Some((None, tokens)),
        Some(first) => match first.sign {
            Sign::Number => match digit_of(first.token.text.as_slice()) {
                None => None,
                Some(digit) => Some((Some(digit), first.rest)),
            },
            _ => Some((None, tokens)),
        },
    }
}

/// Behind the word of a fixity at a place: its digit, where it has one, and its operators.
fn fix_behind<'a>(
    alloc: Global,
    left: usize,
    at: Pos,
    word: FixWord,
    tokens: &'a [Token],
) -> Found<'a, FixTree>
    ensures { IfOk result (λ r. seen r ≡ spec.fix_behind left at word tokens.now) }
{
    match digit(tokens) {
        None => Ok(None),
        Some((digit, rest)) => match ops(alloc, left, rest)? {
            None => Ok(None),
            Some((ops, last)) => Ok(Some((
                FixTree {
                    at,
                    word,
                    digit,
                    ops,
                },
                last,
            ))),
        },
    }
}

/// `fix = (infixl|infixr|infix) [digit] op {, op}`
pub fn fix<'a>(alloc: Global, left: usize, tokens: &'a [Token]) -> Found<'a, FixTree>
    ensures { IfOk result (λ r. seen r ≡ spec.fix_at left tokens.now) }
{
    match first_of(tokens) {
        None => Ok(None),
        Some(first) => {
            let at = first.token.at;
            match first.sign {
                Sign::Infixl => fix_behind(alloc, left, at, FixWord::Infixl, first.rest),
                Sign::Infixr => fix_behind(alloc, left, at, FixWord::Infixr, first.rest),
                Sign::Infix => fix_behind(alloc, left, at, FixWord::Infix, first.rest),
                _ => Ok(None),
            }
        }
    }
}
