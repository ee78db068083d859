//! Parts of expressions that have no expression in them.
ghost use Rattle.std.specs.Prelude.{◌≡◌, true, IfOk};
ghost use Rattle.hs_syntax.specs.Reading.{seen};
ghost use Rattle.hs_parts.specs.PatternReaders.{pattern_at};
ghost use Rattle.expr_parts.specs.Expressions as spec;

use crate::look::{begins_close_paren, begins_comma, behind_empty, place_of};
use crate::piece::Chain;
use crate::tree::expr_of;
use hs_parts::contexts::{qualified, qualified_tail};
use hs_parts::names::{Found, gcon, qop, qvar};
use hs_parts::patterns::{pattern, some_apats};
use hs_parts::sigs::{fix, sig};
use hs_syntax::behind::{behind_arrow, behind_back, behind_close_paren, behind_typed};
use hs_syntax::expr_tree::{AexpTree, DeclTree, ExprTree, FixTree, SigTree};
use hs_syntax::name_ref::{NameRef, QopTree};
use hs_syntax::pattern_tree::{ApatTree, GconTree, PatTree};
use hs_syntax::sign::{Sign, first_of};
use hs_syntax::token::Token;
use hs_syntax::type_tree::QualifiedType;
use mk_base::memory::NoMemory;
use mk_base::place::Pos;
use mk_base::plain::Plain;
use sqlite_items::{Boxed, Items};
use std::alloc::Global;

/// An operator with which a chain goes on: no closing parenthesis stands behind it.
pub fn infix<'a>(alloc: Global, tokens: &'a [Token]) -> Found<'a, QopTree>
    ensures { IfOk result (λ r. seen r ≡ spec.infix_at tokens.now) }
{
    match qop(alloc, tokens)? {
        None => Ok(None),
        Some((op, rest)) => {
            if begins_close_paren(rest) {
                Ok(None)
            } else {
                Ok(Some((op, rest)))
            }
        }
    }
}

/// The operator of a left section, with the tokens behind its closing parenthesis.
pub fn section_end<'a>(alloc: Global, tokens: &'a [Token]) -> Found<'a, QopTree>
    ensures { IfOk result (λ r. seen r ≡ spec.section_end_at tokens.now) }
{
    match qop(alloc, tokens)? {
        None => Ok(None),
        Some((op, rest)) => match behind_close_paren(rest) {
            None => Ok(None),
            Some(last) => Ok(Some((op, last))),
        },
    }
}

/// The operator of a right section: any but the minus.
pub fn section_start<'a>(alloc: Global, tokens: &'a [Token]) -> Found<'a, QopTree>
    ensures { IfOk result (λ r. seen r ≡ spec.section_start_at tokens.now) }
{
    match first_of(tokens) {
        None => Ok(None),
        Some(first) => match first.sign {
            Sign::Minus => Ok(None),
            _ => qop(alloc, tokens),
        },
    }
}

/// The patterns of a lambda, with the tokens behind the arrow.
pub fn arguments<'a>(alloc: Global, left: usize, tokens: &'a [Token]) -> Found<'a, Items<ApatTree>>
    ensures { IfOk result (λ r. seen r ≡ spec.arguments_at left tokens.now) }
{
    match some_apats(alloc, left, tokens)? {
        None => Ok(None),
        Some((args, rest)) => match behind_arrow(rest) {
            None => Ok(None),
            Some(last) => Ok(Some((args, last))),
        },
    }
}

/// A pattern in a box, with the tokens behind it.
fn boxed_pattern<'a>(alloc: Global, tree: PatTree, rest: &'a [Token]) -> Found<'a, Boxed<PatTree>>
    ensures { IfOk result (λ r. seen r ≡ spec.found_pattern tree rest.now) }
{
    let made = Boxed::new(alloc, tree)?;
    Ok(Some((made, rest)))
}

/// A pattern, as far as it goes.
pub fn one_pattern<'a>(alloc: Global, left: usize, tokens: &'a [Token]) -> Found<'a, Boxed<PatTree>>
    ensures { IfOk result (λ r. seen r ≡ pattern_at left tokens.now) }
{
    match pattern(alloc, left, tokens)? {
        None => Ok(None),
        Some((tree, rest)) => boxed_pattern(alloc, tree, rest),
    }
}

/// A pattern, with the tokens behind the `<-`.
pub fn bound<'a>(alloc: Global, left: usize, tokens: &'a [Token]) -> Found<'a, Boxed<PatTree>>
    ensures { IfOk result (λ r. seen r ≡ spec.bound_at left tokens.now) }
{
    match pattern(alloc, left, tokens)? {
        None => Ok(None),
        Some((tree, rest)) => match behind_back(rest) {
            None => Ok(None),
            Some(last) => boxed_pattern(alloc, tree, last),
        },
    }
}

/// A variable at a place, with the tokens behind it.
fn var_tree<'a>(
    alloc: Global,
    at: Pos,
    name: NameRef,
    rest: &'a [Token],
) -> Found<'a, Boxed<AexpTree>>
    ensures { IfOk result (λ r. seen r ≡ spec.found_var at name rest.now) }
{
    let made = Boxed::new(alloc, AexpTree::Var { at, name })?;
    Ok(Some((made, rest)))
}

/// `qvar`
fn var_atom<'a>(alloc: Global, tokens: &'a [Token]) -> Found<'a, Boxed<AexpTree>>
    ensures { IfOk result (λ r. seen r ≡ spec.var_atom_at tokens.now) }
{
    match qvar(alloc, tokens)? {
        None => Ok(None),
        Some((name, rest)) => var_tree(alloc, place_of(tokens), name, rest),
    }
}

/// A construction without fields, where the constructor is one by name, with the tokens behind it.
fn record_tree<'a>(
    alloc: Global,
    at: Pos,
    con: GconTree,
    rest: &'a [Token],
) -> Found<'a, Boxed<AexpTree>>
    ensures { IfOk result (λ r. seen r ≡ spec.record_of at con rest.now) }
{
    match con {
        GconTree::Con { at: _, name } => {
            let made = Boxed::new(alloc, AexpTree::Record { at, con: name })?;
            Ok(Some((made, rest)))
        }
        _ => Ok(None),
    }
}

/// A constructor, with the tokens behind it.
fn con_tree<'a>(
    alloc: Global,
    at: Pos,
    con: GconTree,
    rest: &'a [Token],
) -> Found<'a, Boxed<AexpTree>>
    ensures { IfOk result (λ r. seen r ≡ spec.found_con at con rest.now) }
{
    let made = Boxed::new(alloc, AexpTree::Con { at, con })?;
    Ok(Some((made, rest)))
}

/// `gcon | qcon { }`
fn con_atom<'a>(alloc: Global, tokens: &'a [Token]) -> Found<'a, Boxed<AexpTree>>
    ensures { IfOk result (λ r. seen r ≡ spec.con_at tokens.now) }
{
    match gcon(alloc, tokens)? {
        None => Ok(None),
        Some((con, rest)) => match behind_empty(rest) {
            None => con_tree(alloc, place_of(tokens), con, rest),
            Some(last) => record_tree(alloc, place_of(tokens), con, last),
        },
    }
}

/// The literal that a token is, with the tokens behind it.
fn literal_tree<'a>(alloc: Global, token: &Token, rest: &'a [Token]) -> Found<'a, Boxed<AexpTree>>
    ensures { IfOk result (λ r. seen r ≡ spec.found_literal token.now rest.now) }
{
    let literal = token.copy(alloc)?;
    let made = Boxed::new(
        alloc,
        AexpTree::Literal {
            at: token.at,
            literal,
        },
    )?;
    Ok(Some((made, rest)))
}

/// A number, a character or a string.
fn literal<'a>(alloc: Global, tokens: &'a [Token]) -> Found<'a, Boxed<AexpTree>>
    ensures { IfOk result (λ r. seen r ≡ spec.literal_at tokens.now) }
{
    match first_of(tokens) {
        None => Ok(None),
        Some(first) => match first.sign {
            Sign::Number => literal_tree(alloc, first.token, first.rest),
            Sign::Quoted => literal_tree(alloc, first.token, first.rest),
            _ => Ok(None),
        },
    }
}

/// `gcon | literal | qcon { }`
fn con_or_literal<'a>(alloc: Global, tokens: &'a [Token]) -> Found<'a, Boxed<AexpTree>>
    ensures { IfOk result (λ r. seen r ≡ spec.con_or_literal_at tokens.now) }
{
    let found = con_atom(alloc, tokens)?;
    if found.is_some() {
        return Ok(found);
    }
    literal(alloc, tokens)
}

/// `qvar | gcon | literal | qcon { }`
pub fn atom<'a>(alloc: Global, tokens: &'a [Token]) -> Found<'a, Boxed<AexpTree>>
    ensures { IfOk result (λ r. seen r ≡ spec.atom_at tokens.now) }
{
    let found = var_atom(alloc, tokens)?;
    if found.is_some() {
        return Ok(found);
    }
    con_or_literal(alloc, tokens)
}

/// A type with a comma behind it, or else one as far as an arrow follows it.
fn type_before_sign<'a>(alloc: Global, left: usize, tokens: &'a [Token]) -> Found<'a, QualifiedType>
    ensures { IfOk result (λ r. seen r ≡ spec.type_before_sign_at left tokens.now) }
{
    let found = before_comma(alloc, left, tokens)?;
    if found.is_some() {
        return Ok(found);
    }
    qualified_tail(alloc, left, tokens)
}

/// The type behind the `::` of a guard's last operand: as far as it goes where a comma follows it, else as far as an
/// arrow follows it.
fn guard_type<'a>(alloc: Global, left: usize, tokens: &'a [Token]) -> Found<'a, QualifiedType>
    ensures { IfOk result (λ r. seen r ≡ spec.type_at left true tokens.now) }
{
    let found = type_before_sign(alloc, left, tokens)?;
    Ok(found)
}

/// A type with a comma behind it.
fn before_comma<'a>(alloc: Global, left: usize, tokens: &'a [Token]) -> Found<'a, QualifiedType>
    ensures { IfOk result (λ r. seen r ≡ spec.before_comma_at left tokens.now) }
{
    match qualified(alloc, left, tokens)? {
        None => Ok(None),
        Some((ty, rest)) => {
            if begins_comma(rest) {
                Ok(Some((ty, rest)))
            } else {
                Ok(None)
            }
        }
    }
}

/// The type behind `::`; at the end of an alternative's guard the arrow behind it may be the alternative's.
fn type_behind<'a>(
    alloc: Global,
    left: usize,
    tail: bool,
    tokens: &'a [Token],
) -> Found<'a, QualifiedType>
    ensures { IfOk result (λ r. seen r ≡ spec.type_at left tail tokens.now) }
{
    if tail {
        guard_type(alloc, left, tokens)
    } else {
        qualified(alloc, left, tokens)
    }
}

/// A chain with its type, as an expression, with the tokens behind it.
fn with_type<'a>(
    alloc: Global,
    at: Pos,
    chain: Chain,
    ty: QualifiedType,
    rest: &'a [Token],
) -> Found<'a, Boxed<ExprTree>>
    ensures { IfOk result (λ r. seen r ≡ spec.found_typed at chain ty rest.now) }
{
    let ty = Boxed::new(alloc, ty)?;
    let made = expr_of(alloc, at, chain.tree, Some(ty))?;
    Ok(Some((made, rest)))
}

/// A chain alone as an expression, with the tokens behind it.
fn without_type<'a>(
    alloc: Global,
    at: Pos,
    chain: Chain,
    rest: &'a [Token],
) -> Found<'a, Boxed<ExprTree>>
    ensures { IfOk result (λ r. seen r ≡ spec.found_plain at chain rest.now) }
{
    let made = expr_of(alloc, at, chain.tree, None)?;
    Ok(Some((made, rest)))
}

/// Behind the `::` of a chain: its type.
fn typed_behind<'a>(
    alloc: Global,
    left: usize,
    tail: bool,
    at: Pos,
    chain: Chain,
    tokens: &'a [Token],
) -> Found<'a, Boxed<ExprTree>>
    ensures { IfOk result (λ r. seen r ≡ spec.typed_behind left tail at chain tokens.now) }
{
    match type_behind(alloc, left, tail, tokens)? {
        None => Ok(None),
        Some((ty, rest)) => with_type(alloc, at, chain, ty, rest),
    }
}

/// An expression from its chain: with the type behind it, where there is one. None stands behind an open operand.
pub fn typed<'a>(
    alloc: Global,
    left: usize,
    tail: bool,
    at: Pos,
    chain: Chain,
    tokens: &'a [Token],
) -> Found<'a, Boxed<ExprTree>>
    ensures { IfOk result (λ r. seen r ≡ spec.typed_at left tail at chain tokens.now) }
{
    if chain.is_open {
        return without_type(alloc, at, chain, tokens);
    }
    match behind_typed(tokens) {
        None => without_type(alloc, at, chain, tokens),
        Some(rest) => typed_behind(alloc, left, tail, at, chain, rest),
    }
}

/// A signature as a declaration, with the tokens behind it.
fn sig_tree<'a>(
    alloc: Global,
    at: Pos,
    sig: SigTree,
    rest: &'a [Token],
) -> Found<'a, Boxed<DeclTree>>
    ensures { IfOk result (λ r. seen r ≡ spec.found_sig at sig rest.now) }
{
    let made = Boxed::new(alloc, DeclTree::Sig { at, sig })?;
    Ok(Some((made, rest)))
}

/// A signature.
fn sig_decl<'a>(alloc: Global, left: usize, tokens: &'a [Token]) -> Found<'a, Boxed<DeclTree>>
    ensures { IfOk result (λ r. seen r ≡ spec.sig_decl_at left tokens.now) }
{
    match sig(alloc, left, tokens)? {
        None => Ok(None),
        Some((sig, rest)) => sig_tree(alloc, place_of(tokens), sig, rest),
    }
}

/// A fixity as a declaration, with the tokens behind it.
fn fix_tree<'a>(
    alloc: Global,
    at: Pos,
    fix: FixTree,
    rest: &'a [Token],
) -> Found<'a, Boxed<DeclTree>>
    ensures { IfOk result (λ r. seen r ≡ spec.found_fix at fix rest.now) }
{
    let made = Boxed::new(alloc, DeclTree::Fix { at, fix })?;
    Ok(Some((made, rest)))
}

/// A fixity.
fn fix_decl<'a>(alloc: Global, left: usize, tokens: &'a [Token]) -> Found<'a, Boxed<DeclTree>>
    ensures { IfOk result (λ r. seen r ≡ spec.fix_decl_at left tokens.now) }
{
    match fix(alloc, left, tokens)? {
        None => Ok(None),
        Some((fix, rest)) => fix_tree(alloc, place_of(tokens), fix, rest),
    }
}

/// `sig | fix`
pub fn plain_decl<'a>(alloc: Global, left: usize, tokens: &'a [Token]) -> Found<'a, Boxed<DeclTree>>
    ensures { IfOk result (λ r. seen r ≡ spec.plain_decl_at left tokens.now) }
{
    let found = sig_decl(alloc, left, tokens)?;
    if found.is_some() {
        return Ok(found);
    }
    fix_decl(alloc, left, tokens)
}
