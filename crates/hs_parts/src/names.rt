//! Names and operators (Haskell 2010 Report, section 3.2).
ghost use Rattle.std.specs.Prelude.{◌≡◌, ◌≤◌, ◌+◌, length, IfOk};
ghost use Rattle.hs_syntax.specs.Reading.{seen};
ghost use Rattle.hs_parts.specs.Names as names;
ghost use Rattle.hs_parts.specs.NameReaders as spec;

use hs_syntax::behind::{behind_backquote, behind_close_paren, behind_close_square, behind_comma};
use hs_syntax::name_ref::{NameRef, OpName, QopTree};
use hs_syntax::parted::name_ref;
use hs_syntax::pattern_tree::GconTree;
use hs_syntax::sign::{Sign, first_of};
use hs_syntax::token::Token;
use mk_base::memory::NoMemory;
use mk_base::place::Pos;
use std::alloc::Global;

/// What begins at a place, with the tokens behind it; None where nothing does.
pub type Found<'a, T> = Result<Option<(T, &'a [Token])>, NoMemory>;

/// A sort of names: identifiers and symbols of variables and of constructors, without a qualifier or with any.
#[derive(Clone, Copy)]
pub enum Sort {
    VarId,
    QualifiedVarId,
    ConId,
    QualifiedConId,
    VarSymbol,
    QualifiedVarSymbol,
    ConSymbol,
}

/// Whether a sign is a symbol of a variable without qualifier.
pub fn is_varsym(sign: Sign) -> bool
    ensures { result ≡ names.is_varsym sign }
{
    match sign {
        Sign::Minus => true,
        Sign::Bang => true,
        Sign::Star => true,
        Sign::VarSym => true,
        _ => false,
    }
}

/// Whether a sign is a symbol of a variable.
pub fn is_qvarsym(sign: Sign) -> bool
    ensures { result ≡ names.is_qvarsym sign }
{
    match sign {
        Sign::QualifiedVarSym => true,
        _ => is_varsym(sign),
    }
}

/// Whether a sign is a symbol of a constructor.
pub fn is_gconsym(sign: Sign) -> bool
    ensures { result ≡ names.is_gconsym sign }
{
    match sign {
        Sign::Colon => true,
        Sign::ConSym => true,
        Sign::QualifiedConSym => true,
        _ => false,
    }
}

/// Whether a sign is an identifier of a variable.
pub fn is_qvarid(sign: Sign) -> bool
    ensures { result ≡ names.is_qvarid sign }
{
    match sign {
        Sign::Var => true,
        Sign::QualifiedVar => true,
        _ => false,
    }
}

/// Whether a sign is an identifier of a constructor.
pub fn is_qconid(sign: Sign) -> bool
    ensures { result ≡ names.is_qconid sign }
{
    match sign {
        Sign::Con => true,
        Sign::QualifiedCon => true,
        _ => false,
    }
}

fn is_varid(sign: Sign) -> bool
    ensures { result ≡ spec.is_varid sign }
{
    match sign {
        Sign::Var => true,
        _ => false,
    }
}

fn is_conid(sign: Sign) -> bool
    ensures { result ≡ spec.is_conid sign }
{
    match sign {
        Sign::Con => true,
        _ => false,
    }
}

/// Whether a sign is of a sort of names.
fn fits(sort: Sort, sign: Sign) -> bool
    ensures { result ≡ spec.fits sort sign }
{
    match sort {
        Sort::VarId => is_varid(sign),
        Sort::QualifiedVarId => is_qvarid(sign),
        Sort::ConId => is_conid(sign),
        Sort::QualifiedConId => is_qconid(sign),
        Sort::VarSymbol => is_varsym(sign),
        Sort::QualifiedVarSymbol => is_qvarsym(sign),
        Sort::ConSymbol => is_gconsym(sign),
    }
}

/// The name that a token writes, with the tokens behind it.
pub fn named<'a>(alloc: Global, token: &Token, rest: &'a [Token]) -> Found<'a, NameRef>
    ensures { IfOk result (λ r. seen r ≡ spec.named token.now rest.now) }
{
    let name = name_ref(alloc, token)?;
    Ok(Some((name, rest)))
}

/// Behind an opening parenthesis: a name of a sort, and the closing one.
fn in_parens<'a>(alloc: Global, sort: Sort, tokens: &'a [Token]) -> Found<'a, NameRef>
    ensures { IfOk result (λ r. seen r ≡ spec.in_parens (spec.fits sort) tokens.now) }
{
    match first_of(tokens) {
        None => Ok(None),
        Some(first) => {
            if !fits(sort, first.sign) {
                return Ok(None);
            }
            match behind_close_paren(first.rest) {
                None => Ok(None),
                Some(rest) => named(alloc, first.token, rest),
            }
        }
    }
}

/// Behind a backquote: a name of a sort, and the other one.
fn in_quotes<'a>(alloc: Global, sort: Sort, tokens: &'a [Token]) -> Found<'a, NameRef>
    ensures { IfOk result (λ r. seen r ≡ spec.in_quotes (spec.fits sort) tokens.now) }
{
    match first_of(tokens) {
        None => Ok(None),
        Some(first) => {
            if !fits(sort, first.sign) {
                return Ok(None);
            }
            match behind_backquote(first.rest) {
                None => Ok(None),
                Some(rest) => named(alloc, first.token, rest),
            }
        }
    }
}

/// `var = varid | ( varsym )`
pub fn var<'a>(alloc: Global, tokens: &'a [Token]) -> Found<'a, NameRef>
    ensures { IfOk result (λ r. seen r ≡ spec.var_at tokens.now) }
{
    match first_of(tokens) {
        None => Ok(None),
        Some(first) => match first.sign {
            Sign::Var => named(alloc, first.token, first.rest),
            Sign::OpenParen => in_parens(alloc, Sort::VarSymbol, first.rest),
            _ => Ok(None),
        },
    }
}

/// `qvar = qvarid | ( qvarsym )`
pub fn qvar<'a>(alloc: Global, tokens: &'a [Token]) -> Found<'a, NameRef>
    ensures { IfOk result (λ r. seen r ≡ spec.qvar_at tokens.now) }
{
    match first_of(tokens) {
        None => Ok(None),
        Some(first) => match first.sign {
            Sign::Var => named(alloc, first.token, first.rest),
            Sign::QualifiedVar => named(alloc, first.token, first.rest),
            Sign::OpenParen => in_parens(alloc, Sort::QualifiedVarSymbol, first.rest),
            _ => Ok(None),
        },
    }
}

/// `qcon = qconid | ( gconsym )`
pub fn qcon<'a>(alloc: Global, tokens: &'a [Token]) -> Found<'a, NameRef>
    ensures { IfOk result (λ r. seen r ≡ spec.qcon_at tokens.now) }
{
    match first_of(tokens) {
        None => Ok(None),
        Some(first) => match first.sign {
            Sign::Con => named(alloc, first.token, first.rest),
            Sign::QualifiedCon => named(alloc, first.token, first.rest),
            Sign::OpenParen => in_parens(alloc, Sort::ConSymbol, first.rest),
            _ => Ok(None),
        },
    }
}

/// Behind the first comma in parentheses: how many commas there are, with the tokens behind the closing parenthesis.
pub fn more_commas(tokens: &[Token]) -> Option<(usize, &[Token])>
    ensures { seen result ≡ spec.more_commas tokens.now }
{
    let mut count = 1;
    let mut rest = tokens;
    while let Some(behind) = behind_comma(rest) {
        count += 1;
        rest = behind;
    }
    match behind_close_paren(rest) {
        None => None,
        Some(behind) => Some((count, behind)),
    }
}

/// The constructor that a token writes, at a place, with the tokens behind it.
fn named_con<'a>(alloc: Global, at: Pos, token: &Token, rest: &'a [Token]) -> Found<'a, GconTree>
    ensures { IfOk result (λ r. seen r ≡ spec.named_con at token.now rest.now) }
{
    let name = name_ref(alloc, token)?;
    Ok(Some((GconTree::Con { at, name }, rest)))
}

/// Behind an opening parenthesis at a place: the rest of `()`, `(, {,})` or `( gconsym )`.
fn paren_con<'a>(alloc: Global, at: Pos, tokens: &'a [Token]) -> Found<'a, GconTree>
    ensures { IfOk result (λ r. seen r ≡ spec.paren_con at tokens.now) }
{
    match first_of(tokens) {
        None => Ok(None),
        Some(first) => match first.sign {
            Sign::CloseParen => Ok(Some((GconTree::Unit { at }, first.rest))),
            Sign::Comma => match more_commas(first.rest) {
                None => Ok(None),
                Some((commas, rest)) => Ok(Some((GconTree::Tuple { at, commas }, rest))),
            },
            _ => match in_parens(alloc, Sort::ConSymbol, tokens)? {
                None => Ok(None),
                Some((name, rest)) => Ok(Some((GconTree::Con { at, name }, rest))),
            },
        },
    }
}

/// `gcon = qcon | () | [] | (, {,})`
pub fn gcon<'a>(alloc: Global, tokens: &'a [Token]) -> Found<'a, GconTree>
    ensures { IfOk result (λ r. seen r ≡ spec.gcon_at tokens.now) }
{
    match first_of(tokens) {
        None => Ok(None),
        Some(first) => {
            let at = first.token.at;
            match first.sign {
                Sign::Con => named_con(alloc, at, first.token, first.rest),
                Sign::QualifiedCon => named_con(alloc, at, first.token, first.rest),
                Sign::OpenParen => paren_con(alloc, at, first.rest),
                Sign::OpenSquare => match behind_close_square(first.rest) {
                    None => Ok(None),
                    Some(rest) => Ok(Some((GconTree::List { at }, rest))),
                },
                _ => Ok(None),
            }
        }
    }
}

/// The operator of a variable that a token writes, at a place, with the tokens behind it.
fn var_op<'a>(alloc: Global, at: Pos, token: &Token, rest: &'a [Token]) -> Found<'a, QopTree>
    ensures { IfOk result (λ r. seen r ≡ spec.var_op at token.now rest.now) }
{
    let name = name_ref(alloc, token)?;
    Ok(Some((QopTree::Var { at, name }, rest)))
}

/// The operator of a constructor that a token writes, at a place, with the tokens behind it.
fn con_op<'a>(alloc: Global, at: Pos, token: &Token, rest: &'a [Token]) -> Found<'a, QopTree>
    ensures { IfOk result (λ r. seen r ≡ spec.con_op at token.now rest.now) }
{
    let name = name_ref(alloc, token)?;
    Ok(Some((QopTree::Con { at, name }, rest)))
}

/// Behind the backquote of an operator at a place: an identifier of these sorts, and the other backquote.
fn quoted_op<'a>(
    alloc: Global,
    at: Pos,
    vars: Sort,
    cons: Sort,
    tokens: &'a [Token],
) -> Found<'a, QopTree>
    ensures { IfOk result (λ r. seen r ≡ spec.quoted_op at (spec.fits vars) (spec.fits cons) tokens.now) }
{
    match in_quotes(alloc, vars, tokens)? {
        Some((name, rest)) => Ok(Some((QopTree::Var { at, name }, rest))),
        None => match in_quotes(alloc, cons, tokens)? {
            None => Ok(None),
            Some((name, rest)) => Ok(Some((QopTree::Con { at, name }, rest))),
        },
    }
}

/// ``qop = qvarsym | gconsym | ` qvarid ` | ` qconid ` ``
pub fn qop<'a>(alloc: Global, tokens: &'a [Token]) -> Found<'a, QopTree>
    ensures { IfOk result (λ r. seen r ≡ spec.qop_at tokens.now) }
{
    match first_of(tokens) {
        None => Ok(None),
        Some(first) => {
            let at = first.token.at;
            match first.sign {
                Sign::Backquote => quoted_op(
                    alloc,
                    at,
                    Sort::QualifiedVarId,
                    Sort::QualifiedConId,
                    first.rest,
                ),
                _ => {
                    if is_qvarsym(first.sign) {
                        var_op(alloc, at, first.token, first.rest)
                    } else if is_gconsym(first.sign) {
                        con_op(alloc, at, first.token, first.rest)
                    } else {
                        Ok(None)
                    }
                }
            }
        }
    }
}

/// The operator that a token writes, at a place, with the tokens behind it.
fn named_op<'a>(alloc: Global, at: Pos, token: &Token, rest: &'a [Token]) -> Found<'a, OpName>
    ensures { IfOk result (λ r. seen r ≡ spec.named_op at token.now rest.now) }
{
    let name = name_ref(alloc, token)?;
    Ok(Some((OpName { at, name }, rest)))
}

/// Behind the backquote of an operator at a place: an identifier of a sort, and the other backquote.
fn quoted_name<'a>(alloc: Global, at: Pos, sort: Sort, tokens: &'a [Token]) -> Found<'a, OpName>
    ensures { IfOk result (λ r. seen r ≡ spec.quoted_name at (spec.fits sort) tokens.now) }
{
    match in_quotes(alloc, sort, tokens)? {
        None => Ok(None),
        Some((name, rest)) => Ok(Some((OpName { at, name }, rest))),
    }
}

/// ``qconop = gconsym | ` qconid ` ``
pub fn qconop<'a>(alloc: Global, tokens: &'a [Token]) -> Found<'a, OpName>
    ensures { IfOk result (λ r. seen r ≡ spec.qconop_at tokens.now) }
{
    match first_of(tokens) {
        None => Ok(None),
        Some(first) => {
            let at = first.token.at;
            match first.sign {
                Sign::Backquote => quoted_name(alloc, at, Sort::QualifiedConId, first.rest),
                _ => {
                    if is_gconsym(first.sign) {
                        named_op(alloc, at, first.token, first.rest)
                    } else {
                        Ok(None)
                    }
                }
            }
        }
    }
}

/// ``varop = varsym | ` varid ` ``
pub fn varop<'a>(alloc: Global, tokens: &'a [Token]) -> Found<'a, OpName>
    ensures { IfOk result (λ r. seen r ≡ spec.varop_at tokens.now) }
{
    match first_of(tokens) {
        None => Ok(None),
        Some(first) => {
            let at = first.token.at;
            match first.sign {
                Sign::Backquote => quoted_name(alloc, at, Sort::VarId, first.rest),
                _ => {
                    if is_varsym(first.sign) {
                        named_op(alloc, at, first.token, first.rest)
                    } else {
                        Ok(None)
                    }
                }
            }
        }
    }
}

/// ``op = varsym | consym | ` varid ` | ` conid ` ``, without qualifier
pub fn op<'a>(alloc: Global, tokens: &'a [Token]) -> Found<'a, QopTree>
    ensures { IfOk result (λ r. seen r ≡ spec.op_at tokens.now) }
{
    match first_of(tokens) {
        None => Ok(None),
        Some(first) => {
            let at = first.token.at;
            match first.sign {
                Sign::Backquote => quoted_op(alloc, at, Sort::VarId, Sort::ConId, first.rest),
                Sign::ConSym => con_op(alloc, at, first.token, first.rest),
                _ => {
                    if is_varsym(first.sign) {
                        var_op(alloc, at, first.token, first.rest)
                    } else {
                        Ok(None)
                    }
                }
            }
        }
    }
}
