//! Patterns (Haskell 2010 Report, section 3.17).
#![tactic(auto, using(crate::proofs::Steps::pattern_readers_step, crate::proofs::Steps::pattern_readers_end))]

ghost use Rattle.std.specs.Prelude.{◌≡◌, ◌++◌, ◌∷◌, [], IfOk};
ghost use Rattle.hs_syntax.specs.Made as made;
ghost use Rattle.hs_syntax.specs.Reading.{seen, begins, behind, tail_of};
ghost use Rattle.hs_parts.specs.PatternReaders as spec;

use crate::names::{Found, gcon, is_gconsym, is_varsym, qcon, qconop, qvar, var};
use crate::types::place_of;
use hs_syntax::behind::{behind_close_paren, behind_close_square, behind_comma, behind_equals};
use hs_syntax::name_ref::{NameRef, OpName};
use hs_syntax::pattern_tree::{ApatTree, FpatTree, GconTree, PatLink, PatOperand, PatTree};
use hs_syntax::sign::{Sign, first_of};
use hs_syntax::token::Token;
use mk_base::memory::NoMemory;
use mk_base::place::Pos;
use mk_base::plain::Plain;
use sqlite_items::{Boxed, Items};
use std::alloc::Global;

/// Whether an apat begins here.
pub fn is_apat_start(tokens: &[Token]) -> bool
    ensures { result ≡ begins spec.begins_apat tokens.now }
{
    match first_of(tokens) {
        None => false,
        Some(first) => match first.sign {
            Sign::Var => true,
            Sign::Con => true,
            Sign::QualifiedCon => true,
            Sign::Number => true,
            Sign::Quoted => true,
            Sign::Wild => true,
            Sign::OpenParen => true,
            Sign::OpenSquare => true,
            Sign::Tilde => true,
            _ => false,
        },
    }
}

/// The tokens behind `@`, where it stands first.
fn behind_as(tokens: &[Token]) -> Option<&[Token]>
    ensures { tail_of result ≡ behind spec.is_as tokens.now }
{
    match first_of(tokens) {
        None => None,
        Some(first) => match first.sign {
            Sign::As => Some(first.rest),
            _ => None,
        },
    }
}

/// The tokens behind a written opening brace, where it stands first.
pub fn behind_brace(tokens: &[Token]) -> Option<&[Token]>
    ensures { tail_of result ≡ behind spec.is_brace tokens.now }
{
    match first_of(tokens) {
        None => None,
        Some(first) => match first.sign {
            Sign::OpenBrace(put) => { if put { None } else { Some(first.rest) } }
            _ => None,
        },
    }
}

/// The tokens behind a written closing brace, where it stands first.
pub fn behind_close_brace(tokens: &[Token]) -> Option<&[Token]>
    ensures { tail_of result ≡ behind spec.is_close_brace tokens.now }
{
    match first_of(tokens) {
        None => None,
        Some(first) => match first.sign {
            Sign::CloseBrace(put) => { if put { None } else { Some(first.rest) } }
            _ => None,
        },
    }
}

/// A constructor that no written brace follows.
fn con<'a>(alloc: Global, tokens: &'a [Token]) -> Found<'a, GconTree>
    ensures { IfOk result (λ r. seen r ≡ spec.con_at tokens.now) }
{
    match gcon(alloc, tokens)? {
        None => Ok(None),
        Some((con, rest)) => match behind_brace(rest) {
            None => Ok(Some((con, rest))),
            Some(_) => Ok(None),
        },
    }
}

/// An operand and the operator behind it, put behind the links.
fn push_link(
    links: &mut Vec<PatLink>,
    at: Pos,
    operand: PatOperand,
    op: OpName,
) -> Result<(), NoMemory>
    ensures { IfOk result (λ u. links.new.items ≡ links.old.items ++ made.pat_link at operand op ∷ []) }
{
    links.push(PatLink { at, operand, op })?;
    Ok(())
}

/// `pattern = {operand qconop} operand`, as far as it goes.
#[cycle(patterns)]
pub fn pattern<'a>(alloc: Global, left: usize, tokens: &'a [Token]) -> Found<'a, PatTree>
    ensures { IfOk result (λ r. seen r ≡ spec.pattern_at left tokens.now) }
{
    let mut links = Vec::new(alloc);
    let mut left = left;
    let mut rest = tokens;
    while left > 0 {
        left -= 1;
        match operand(alloc, left, rest)? {
            None => return Ok(None),
            Some((last, behind)) => match qconop(alloc, behind)? {
                None => return Ok(Some((
                    PatTree {
                        at: place_of(tokens),
                        links: Items::from_vec(links),
                        last,
                    },
                    behind,
                ))),
                Some((op, next)) => {
                    push_link(&mut links, place_of(rest), last, op)?;
                    rest = next;
                }
            },
        }
    }
    Ok(None)
}

/// A number as an operand of a pattern, with the tokens behind it.
fn number<'a>(
    alloc: Global,
    at: Pos,
    minus: bool,
    token: &Token,
    rest: &'a [Token],
) -> Found<'a, PatOperand>
    ensures { IfOk result (λ r. seen r ≡ spec.number at minus token.now rest.now) }
{
    let number = token.copy(alloc)?;
    Ok(Some((PatOperand::Number { at, minus, number }, rest)))
}

/// Behind a minus at a place: its number.
fn minus_number<'a>(alloc: Global, at: Pos, tokens: &'a [Token]) -> Found<'a, PatOperand>
    ensures { IfOk result (λ r. seen r ≡ spec.minus_number at tokens.now) }
{
    match first_of(tokens) {
        None => Ok(None),
        Some(first) => match first.sign {
            Sign::Number => number(alloc, at, true, first.token, first.rest),
            _ => Ok(None),
        },
    }
}

/// `operand = [-] number | gcon {apat} | apat`
#[cycle(patterns)]
fn operand<'a>(alloc: Global, left: usize, tokens: &'a [Token]) -> Found<'a, PatOperand>
    ensures { IfOk result (λ r. seen r ≡ (spec.pattern_readers left).operand tokens.now) }
{
    if left == 0 {
        return Ok(None);
    }
    match first_of(tokens) {
        None => Ok(None),
        Some(first) => {
            let at = first.token.at;
            match first.sign {
                Sign::Number => number(alloc, at, false, first.token, first.rest),
                Sign::Minus => minus_number(alloc, at, first.rest),
                _ => match con(alloc, tokens)? {
                    Some((con, rest)) => match apats(alloc, left - 1, rest)? {
                        None => Ok(None),
                        Some((args, last)) => Ok(Some((
                            PatOperand::Applied { at, con, args },
                            last,
                        ))),
                    },
                    None => match single(alloc, left - 1, tokens)? {
                        None => Ok(None),
                        Some((pattern, rest)) => Ok(Some((
                            PatOperand::Single { at, pattern },
                            rest,
                        ))),
                    },
                },
            }
        }
    }
}

/// `{apat}`, as many as there are.
#[cycle(patterns)]
pub fn apats<'a>(alloc: Global, left: usize, tokens: &'a [Token]) -> Found<'a, Items<ApatTree>>
    ensures { IfOk result (λ r. seen r ≡ spec.apats_at left tokens.now) }
{
    let mut parts = Vec::new(alloc);
    let mut left = left;
    let mut rest = tokens;
    while left > 0 {
        left -= 1;
        if !is_apat_start(rest) {
            return Ok(Some((Items::from_vec(parts), rest)));
        }
        match apat(alloc, left, rest)? {
            None => return Ok(None),
            Some((part, behind)) => {
                parts.push(part)?;
                rest = behind;
            }
        }
    }
    Ok(None)
}

/// `apat {apat}`
pub fn some_apats<'a>(alloc: Global, left: usize, tokens: &'a [Token]) -> Found<'a, Items<ApatTree>>
    ensures { IfOk result (λ r. seen r ≡ spec.some_apats left tokens.now) }
{
    if !is_apat_start(tokens) {
        return Ok(None);
    }
    apats(alloc, left, tokens)
}

/// The literal that a token is, with the tokens behind it.
fn literal<'a>(alloc: Global, token: &Token, rest: &'a [Token]) -> Found<'a, ApatTree>
    ensures { IfOk result (λ r. seen r ≡ spec.literal token.now rest.now) }
{
    let literal = token.copy(alloc)?;
    Ok(Some((
        ApatTree::Literal {
            at: token.at,
            literal,
        },
        rest,
    )))
}

/// `apat = gcon | number | single`
#[cycle(patterns)]
fn apat<'a>(alloc: Global, left: usize, tokens: &'a [Token]) -> Found<'a, ApatTree>
    ensures { IfOk result (λ r. seen r ≡ (spec.pattern_readers left).apat tokens.now) }
{
    if left == 0 {
        return Ok(None);
    }
    match first_of(tokens) {
        None => Ok(None),
        Some(first) => match first.sign {
            Sign::Number => literal(alloc, first.token, first.rest),
            _ => match con(alloc, tokens)? {
                Some((con, rest)) => {
                    let at = first.token.at;
                    Ok(Some((ApatTree::Con { at, con }, rest)))
                }
                None => single(alloc, left - 1, tokens),
            },
        },
    }
}

/// Whether a symbol stands first with a closing parenthesis behind it.
fn is_symbol(tokens: &[Token]) -> bool
    ensures { result ≡ spec.begins_symbol tokens.now }
{
    match first_of(tokens) {
        None => false,
        Some(first) => {
            if is_varsym(first.sign) || is_gconsym(first.sign) {
                behind_close_paren(first.rest).is_some()
            } else {
                false
            }
        }
    }
}

/// Patterns in parentheses, where the closing one stands behind them.
fn tuple(at: Pos, parts: Items<PatTree>, tokens: &[Token]) -> Option<(ApatTree, &[Token])>
    ensures { seen result ≡ spec.tuple_pattern at parts tokens.now }
{
    match behind_close_paren(tokens) {
        None => None,
        Some(rest) => Some((ApatTree::Tuple { at, parts }, rest)),
    }
}

/// Patterns in square brackets, where the closing one stands behind them.
fn list(at: Pos, parts: Items<PatTree>, tokens: &[Token]) -> Option<(ApatTree, &[Token])>
    ensures { seen result ≡ spec.list_pattern at parts tokens.now }
{
    match behind_close_square(tokens) {
        None => None,
        Some(rest) => Some((ApatTree::List { at, parts }, rest)),
    }
}

/// `~ apat`
fn lazy(alloc: Global, at: Pos, pattern: ApatTree) -> Result<ApatTree, NoMemory>
    ensures { IfOk result (λ p. p ≡ spec.lazy_pattern at pattern) }
{
    let pattern = Boxed::new(alloc, pattern)?;
    Ok(ApatTree::Lazy { at, pattern })
}

/// `single = var [@ apat] | qcon { [fpat {, fpat}] } | character | string | _ | ( pattern {, pattern} )
/// | [ pattern {, pattern} ] | ~ apat`
#[cycle(patterns)]
fn single<'a>(alloc: Global, left: usize, tokens: &'a [Token]) -> Found<'a, ApatTree>
    ensures { IfOk result (λ r. seen r ≡ (spec.pattern_readers left).single tokens.now) }
{
    if left == 0 {
        return Ok(None);
    }
    match first_of(tokens) {
        None => Ok(None),
        Some(first) => {
            let at = first.token.at;
            match first.sign {
                Sign::Quoted => literal(alloc, first.token, first.rest),
                Sign::Wild => Ok(Some((ApatTree::Wild { at }, first.rest))),
                Sign::OpenParen => {
                    if is_symbol(first.rest) {
                        return named(alloc, left - 1, at, tokens);
                    }
                    match patterns(alloc, left - 1, first.rest)? {
                        None => Ok(None),
                        Some((parts, rest)) => Ok(tuple(at, parts, rest)),
                    }
                }
                Sign::OpenSquare => match patterns(alloc, left - 1, first.rest)? {
                    None => Ok(None),
                    Some((parts, rest)) => Ok(list(at, parts, rest)),
                },
                Sign::Tilde => match apat(alloc, left - 1, first.rest)? {
                    None => Ok(None),
                    Some((part, rest)) => Ok(Some((lazy(alloc, at, part)?, rest))),
                },
                _ => named(alloc, left - 1, at, tokens),
            }
        }
    }
}

/// `var [@ apat]`, or a constructor with its fields.
#[cycle(patterns)]
fn named<'a>(alloc: Global, left: usize, at: Pos, tokens: &'a [Token]) -> Found<'a, ApatTree>
    ensures { IfOk result (λ r. seen r ≡ spec.named_pattern (spec.pattern_readers left) at tokens.now) }
{
    match var(alloc, tokens)? {
        Some((name, rest)) => var_pattern(alloc, left, at, name, rest),
        None => match qcon(alloc, tokens)? {
            None => Ok(None),
            Some((con, rest)) => record(alloc, left, at, con, rest),
        },
    }
}

/// A variable with the pattern behind its `@`.
fn as_pattern(
    alloc: Global,
    at: Pos,
    name: NameRef,
    pattern: ApatTree,
) -> Result<ApatTree, NoMemory>
    ensures { IfOk result (λ p. p ≡ spec.as_pattern at name pattern) }
{
    let pattern = Boxed::new(alloc, pattern)?;
    Ok(ApatTree::Var {
        at,
        name,
        pattern: Some(pattern),
    })
}

/// A variable, and the pattern behind its `@`.
#[cycle(patterns)]
fn var_pattern<'a>(
    alloc: Global,
    left: usize,
    at: Pos,
    name: NameRef,
    tokens: &'a [Token],
) -> Found<'a, ApatTree>
    ensures { IfOk result (λ r. seen r ≡ spec.var_pattern (spec.pattern_readers left) at name tokens.now) }
{
    match behind_as(tokens) {
        None => Ok(Some((
            ApatTree::Var {
                at,
                name,
                pattern: None,
            },
            tokens,
        ))),
        Some(behind) => match apat(alloc, left, behind)? {
            None => Ok(None),
            Some((part, rest)) => Ok(Some((as_pattern(alloc, at, name, part)?, rest))),
        },
    }
}

/// The braces behind a constructor.
#[cycle(patterns)]
fn record<'a>(
    alloc: Global,
    left: usize,
    at: Pos,
    con: NameRef,
    tokens: &'a [Token],
) -> Found<'a, ApatTree>
    ensures { IfOk result (λ r. seen r ≡ spec.record_pattern (spec.pattern_readers left) at con tokens.now) }
{
    match behind_brace(tokens) {
        None => Ok(None),
        Some(inside) => match behind_close_brace(inside) {
            Some(rest) => Ok(Some((
                ApatTree::Record {
                    at,
                    con,
                    fields: Items::from_vec(Vec::new(alloc)),
                },
                rest,
            ))),
            None => match fpats(alloc, left, inside)? {
                None => Ok(None),
                Some((fields, rest)) => match behind_close_brace(rest) {
                    None => Ok(None),
                    Some(last) => Ok(Some((ApatTree::Record { at, con, fields }, last))),
                },
            },
        },
    }
}

/// `pattern {, pattern}`
#[cycle(patterns)]
fn patterns<'a>(alloc: Global, left: usize, tokens: &'a [Token]) -> Found<'a, Items<PatTree>>
    ensures { IfOk result (λ r. seen r ≡ (spec.pattern_readers left).patterns [] tokens.now) }
{
    let mut parts = Vec::new(alloc);
    let mut left = left;
    let mut rest = tokens;
    while left > 0 {
        left -= 1;
        match pattern(alloc, left, rest)? {
            None => return Ok(None),
            Some((part, behind)) => {
                parts.push(part)?;
                rest = behind;
            }
        }
        match behind_comma(rest) {
            None => return Ok(Some((Items::from_vec(parts), rest))),
            Some(behind) => rest = behind,
        }
    }
    Ok(None)
}

/// A field and the `=` behind it.
fn field<'a>(alloc: Global, tokens: &'a [Token]) -> Found<'a, NameRef>
    ensures { IfOk result (λ r. seen r ≡ spec.field_at tokens.now) }
{
    match qvar(alloc, tokens)? {
        None => Ok(None),
        Some((name, rest)) => match behind_equals(rest) {
            None => Ok(None),
            Some(behind) => Ok(Some((name, behind))),
        },
    }
}

/// A field with its pattern, put behind those before it.
fn push_field(
    fields: &mut Vec<FpatTree>,
    at: Pos,
    name: NameRef,
    pattern: PatTree,
) -> Result<(), NoMemory>
    ensures { IfOk result (λ u. fields.new.items ≡ fields.old.items ++ made.fpat_tree at name pattern ∷ []) }
{
    fields.push(FpatTree { at, name, pattern })?;
    Ok(())
}

/// `fpat {, fpat}` with `fpat = qvar = pattern`
#[cycle(patterns)]
fn fpats<'a>(alloc: Global, left: usize, tokens: &'a [Token]) -> Found<'a, Items<FpatTree>>
    ensures { IfOk result (λ r. seen r ≡ (spec.pattern_readers left).fpats [] tokens.now) }
{
    let mut fields = Vec::new(alloc);
    let mut left = left;
    let mut rest = tokens;
    while left > 0 {
        left -= 1;
        match field(alloc, rest)? {
            None => return Ok(None),
            Some((name, inside)) => match pattern(alloc, left, inside)? {
                None => return Ok(None),
                Some((part, behind)) => {
                    push_field(&mut fields, place_of(rest), name, part)?;
                    rest = behind;
                }
            },
        }
        match behind_comma(rest) {
            None => return Ok(Some((Items::from_vec(fields), rest))),
            Some(behind) => rest = behind,
        }
    }
    Ok(None)
}
