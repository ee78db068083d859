//! Contexts, and types with the contexts before them (Haskell 2010 Report, section 4.1.3).
#![tactic(auto, using(crate::proofs::Steps::classes_step, crate::proofs::Steps::classes_end))]

ghost use Rattle.std.specs.Prelude.{◌≡◌, [], Some, IfOk};
ghost use Rattle.hs_syntax.specs.Reading.{seen};
ghost use Rattle.hs_parts.specs.TypeReaders as spec;

use crate::names::Found;
use crate::types::{atypes, is_atype_start, place_of, ty, type_tail};
use hs_syntax::behind::{behind_close_paren, behind_comma, behind_implies};
use hs_syntax::name_ref::NameRef;
use hs_syntax::parted::name_ref;
use hs_syntax::sign::{Sign, first_of};
use hs_syntax::token::Token;
use hs_syntax::type_tree::{ClassTree, ContextTree, QualifiedType};
use mk_base::place::Pos;
use sqlite_items::Items;
use std::alloc::Global;

/// Behind the variable of an applied class: the types that it is applied to, and the closing parenthesis.
fn class_args<'a>(
    alloc: Global,
    left: usize,
    at: Pos,
    class: NameRef,
    var: NameRef,
    tokens: &'a [Token],
) -> Found<'a, ClassTree>
    ensures { IfOk result (λ r. seen r ≡ spec.class_args left at class var tokens.now) }
{
    if !is_atype_start(tokens) {
        return Ok(None);
    }
    match atypes(alloc, left, tokens)? {
        None => Ok(None),
        Some((args, rest)) => match behind_close_paren(rest) {
            None => Ok(None),
            Some(last) => Ok(Some((
                ClassTree::Applied {
                    at,
                    class,
                    var,
                    args,
                },
                last,
            ))),
        },
    }
}

/// Behind the parenthesis of an applied class: its variable, and the rest.
fn applied_class<'a>(
    alloc: Global,
    left: usize,
    at: Pos,
    class: NameRef,
    tokens: &'a [Token],
) -> Found<'a, ClassTree>
    ensures { IfOk result (λ r. seen r ≡ spec.applied_class left at class tokens.now) }
{
    match first_of(tokens) {
        None => Ok(None),
        Some(first) => match first.sign {
            Sign::Var => {
                let var = name_ref(alloc, first.token)?;
                class_args(alloc, left, at, class, var, first.rest)
            }
            _ => Ok(None),
        },
    }
}

/// Behind the name of a class: the variable, or the type in parentheses.
fn class_of<'a>(
    alloc: Global,
    left: usize,
    named: &Token,
    tokens: &'a [Token],
) -> Found<'a, ClassTree>
    ensures { IfOk result (λ r. seen r ≡ spec.class_of left named.now tokens.now) }
{
    let at = named.at;
    match first_of(tokens) {
        None => Ok(None),
        Some(first) => match first.sign {
            Sign::Var => {
                let class = name_ref(alloc, named)?;
                let var = name_ref(alloc, first.token)?;
                Ok(Some((ClassTree::Var { at, class, var }, first.rest)))
            }
            Sign::OpenParen => {
                let class = name_ref(alloc, named)?;
                applied_class(alloc, left, at, class, first.rest)
            }
            _ => Ok(None),
        },
    }
}

/// `class = qtycls tyvar | qtycls ( tyvar atype {atype} )`
fn class<'a>(alloc: Global, left: usize, tokens: &'a [Token]) -> Found<'a, ClassTree>
    ensures { IfOk result (λ r. seen r ≡ spec.class_at left tokens.now) }
{
    match first_of(tokens) {
        None => Ok(None),
        Some(first) => match first.sign {
            Sign::Con => class_of(alloc, left, first.token, first.rest),
            Sign::QualifiedCon => class_of(alloc, left, first.token, first.rest),
            _ => Ok(None),
        },
    }
}

/// `class {, class}`
fn classes<'a>(alloc: Global, left: usize, tokens: &'a [Token]) -> Found<'a, Items<ClassTree>>
    ensures { IfOk result (λ r. seen r ≡ spec.classes_at left [] tokens.now) }
{
    let mut parts = Vec::new(alloc);
    let mut left = left;
    let mut rest = tokens;
    while left > 0 {
        left -= 1;
        match class(alloc, left, rest)? {
            None => return Ok(None),
            Some((part, behind)) => {
                parts.push(part)?;
                rest = behind;
            }
        }
        match behind_comma(rest) {
            None => return Ok(Some((Items::from_vec(parts), rest))),
            Some(behind) => rest = behind,
        }
    }
    Ok(None)
}

/// Behind the opening parenthesis of a context at a place: its classes, and the closing one.
fn listed<'a>(alloc: Global, left: usize, at: Pos, tokens: &'a [Token]) -> Found<'a, ContextTree>
    ensures { IfOk result (λ r. seen r ≡ spec.listed_at left at tokens.now) }
{
    match behind_close_paren(tokens) {
        Some(rest) => Ok(Some((
            ContextTree::Listed {
                at,
                classes: Items::from_vec(Vec::new(alloc)),
            },
            rest,
        ))),
        None => match classes(alloc, left, tokens)? {
            None => Ok(None),
            Some((classes, rest)) => match behind_close_paren(rest) {
                None => Ok(None),
                Some(last) => Ok(Some((ContextTree::Listed { at, classes }, last))),
            },
        },
    }
}

/// `context = class | ( [class {, class}] )`
fn context<'a>(alloc: Global, left: usize, tokens: &'a [Token]) -> Found<'a, ContextTree>
    ensures { IfOk result (λ r. seen r ≡ spec.context_at left tokens.now) }
{
    match first_of(tokens) {
        None => Ok(None),
        Some(first) => {
            let at = first.token.at;
            match first.sign {
                Sign::OpenParen => listed(alloc, left, at, first.rest),
                _ => match class(alloc, left, tokens)? {
                    None => Ok(None),
                    Some((class, rest)) => Ok(Some((ContextTree::One { at, class }, rest))),
                },
            }
        }
    }
}

/// A context and the `=>` behind it.
fn context_before<'a>(alloc: Global, left: usize, tokens: &'a [Token]) -> Found<'a, ContextTree>
    ensures { IfOk result (λ r. seen r ≡ spec.context_before left tokens.now) }
{
    match context(alloc, left, tokens)? {
        None => Ok(None),
        Some((context, rest)) => match behind_implies(rest) {
            None => Ok(None),
            Some(last) => Ok(Some((context, last))),
        },
    }
}

/// A type behind its context.
fn after_context<'a>(
    alloc: Global,
    left: usize,
    at: Pos,
    context: ContextTree,
    tokens: &'a [Token],
) -> Found<'a, QualifiedType>
    ensures { IfOk result (λ r. seen r ≡ spec.typed_by at (Some context) ((spec.type_readers left).ty tokens.now)) }
{
    match ty(alloc, left, tokens)? {
        None => Ok(None),
        Some((ty, rest)) => Ok(Some((
            QualifiedType {
                at,
                context: Some(context),
                ty,
            },
            rest,
        ))),
    }
}

/// `[context =>] type`, as far as it goes.
pub fn qualified<'a>(alloc: Global, left: usize, tokens: &'a [Token]) -> Found<'a, QualifiedType>
    ensures { IfOk result (λ r. seen r ≡ spec.qualified_at left tokens.now) }
{
    let at = place_of(tokens);
    match context_before(alloc, left, tokens)? {
        Some((context, rest)) => after_context(alloc, left, at, context, rest),
        None => match ty(alloc, left, tokens)? {
            None => Ok(None),
            Some((ty, rest)) => Ok(Some((
                QualifiedType {
                    at,
                    context: None,
                    ty,
                },
                rest,
            ))),
        },
    }
}

/// A type in front of an arrow that isn't its own, behind its context.
fn tail_after_context<'a>(
    alloc: Global,
    left: usize,
    at: Pos,
    context: ContextTree,
    tokens: &'a [Token],
) -> Found<'a, QualifiedType>
    ensures { IfOk result (λ r. seen r ≡ spec.typed_by at (Some context) (spec.type_tail left tokens.now)) }
{
    match type_tail(alloc, left, tokens)? {
        None => Ok(None),
        Some((ty, rest)) => Ok(Some((
            QualifiedType {
                at,
                context: Some(context),
                ty,
            },
            rest,
        ))),
    }
}

/// `[context =>] type`, in front of an arrow that isn't its own: as far as an arrow follows it.
///
/// An alternative's guard may end so: in `| \x -> x :: A -> e` the second arrow is the alternative's.
pub fn qualified_tail<'a>(
    alloc: Global,
    left: usize,
    tokens: &'a [Token],
) -> Found<'a, QualifiedType>
    ensures { IfOk result (λ r. seen r ≡ spec.qualified_tail left tokens.now) }
{
    let at = place_of(tokens);
    match context_before(alloc, left, tokens)? {
        Some((context, rest)) => tail_after_context(alloc, left, at, context, rest),
        None => match type_tail(alloc, left, tokens)? {
            None => Ok(None),
            Some((ty, rest)) => Ok(Some((
                QualifiedType {
                    at,
                    context: None,
                    ty,
                },
                rest,
            ))),
        },
    }
}
