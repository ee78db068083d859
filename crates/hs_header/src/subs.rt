//! Types and classes in a list, and what is told of their parts (Haskell 2010 Report, sections 5.2 and 5.3).
ghost use Rattle.std.specs.Prelude.{◌≡◌, [], ◌∷◌, IfOk};
ghost use Rattle.hs_header.specs.Readers.{seen};
ghost use Rattle.hs_header.specs.Readers as spec;
ghost use Rattle.hs_syntax.specs.Signs as signs;

use crate::expected::{Found, Stop, Wanted, enclosed, expected};
use hs_syntax::header::{SubTree, Subs};
use hs_syntax::parted::name_ref;
use hs_syntax::sign::{Sign, first_of, sign_of};
use hs_syntax::token::Token;
use mk_base::list::List;
use mk_base::memory::NoMemory;
use mk_base::place::Pos;
use std::alloc::Global;

/// The part that an operator names, of an item at a place.
fn sub_named(alloc: Global, at: Pos, token: &Token) -> Result<SubTree, NoMemory>
    ensures { IfOk result (λ s. s ≡ spec.sub_named at token.now (signs.sign_of token.now)) }
{
    let name = name_ref(alloc, token)?;
    Ok(match sign_of(token) {
        Sign::ConSym => SubTree::Con { at, name },
        _ => SubTree::Var { at, name },
    })
}

/// A part.
#[tactic(auto, unfolding(crate::specs::Readers::sub_at))]
fn sub<'a>(alloc: Global, tokens: &'a [Token]) -> Found<'a, SubTree>
    ensures { IfOk result (λ r. seen r ≡ spec.sub_at tokens.now) }
{
    let Some(first) = first_of(tokens) else {
        return Ok(Err(Stop::End));
    };
    let at = first.token.at;
    match first.sign {
        Sign::Var => {
            let name = name_ref(alloc, first.token)?;
            Ok(Ok((SubTree::Var { at, name }, first.rest)))
        }
        Sign::Con => {
            let name = name_ref(alloc, first.token)?;
            Ok(Ok((SubTree::Con { at, name }, first.rest)))
        }
        Sign::OpenParen => match enclosed(Wanted::Symbol, first.rest) {
            Err(stop) => Ok(Err(stop)),
            Ok((token, behind)) => Ok(Ok((sub_named(alloc, at, token)?, behind))),
        },
        _ => Ok(Err(Stop::At(at))),
    }
}

/// The parts behind one, up to the closing parenthesis.
#[tactic(auto, using(crate::proofs::Steps::more_subs_step, crate::proofs::Steps::more_subs_end))]
fn more_subs<'a>(
    alloc: Global,
    left: usize,
    first: SubTree,
    tokens: &'a [Token],
) -> Found<'a, List<SubTree>>
    ensures { IfOk result (λ r. seen r ≡ spec.more_subs left (first ∷ []) tokens.now) }
{
    let mut parts = List::new(alloc);
    parts.push(first)?;
    let mut left = left;
    let mut rest = tokens;
    while left > 0 {
        left -= 1;
        let Some(next) = first_of(rest) else {
            return Ok(Err(Stop::End));
        };
        match next.sign {
            Sign::CloseParen => return Ok(Ok((parts, next.rest))),
            Sign::Comma => match sub(alloc, next.rest)? {
                Err(stop) => return Ok(Err(stop)),
                Ok((part, behind)) => {
                    parts.push(part)?;
                    rest = behind;
                }
            },
            _ => return Ok(Err(Stop::At(next.token.at))),
        }
    }
    Ok(Err(Stop::End))
}

/// Some parts, up to the closing parenthesis.
fn some_subs<'a>(alloc: Global, left: usize, tokens: &'a [Token]) -> Found<'a, Subs>
    ensures { IfOk result (λ r. seen r ≡ spec.some_subs left tokens.now) }
{
    match sub(alloc, tokens)? {
        Err(stop) => Ok(Err(stop)),
        Ok((first, rest)) => match more_subs(alloc, left, first, rest)? {
            Err(stop) => Ok(Err(stop)),
            Ok((parts, behind)) => Ok(Ok((Subs::Listed(parts), behind))),
        },
    }
}

/// What stands behind the opening parenthesis of the parts.
#[tactic(auto, unfolding(crate::specs::Readers::subs_at))]
fn subs<'a>(alloc: Global, left: usize, tokens: &'a [Token]) -> Found<'a, Subs>
    ensures { IfOk result (λ r. seen r ≡ spec.subs_at left tokens.now) }
{
    let Some(first) = first_of(tokens) else {
        return Ok(Err(Stop::End));
    };
    match first.sign {
        Sign::CloseParen => Ok(Ok((Subs::Listed(List::new(alloc)), first.rest))),
        Sign::Dots => match expected(Wanted::CloseParen, first.rest) {
            Err(stop) => Ok(Err(stop)),
            Ok((_, behind)) => Ok(Ok((Subs::All, behind))),
        },
        _ => some_subs(alloc, left, tokens),
    }
}

/// What is told of a type or class in parentheses behind it, if anything is.
#[tactic(auto, unfolding(crate::specs::Readers::told_at))]
pub fn told<'a>(alloc: Global, left: usize, tokens: &'a [Token]) -> Found<'a, Option<Subs>>
    ensures { IfOk result (λ r. seen r ≡ spec.told_at left tokens.now) }
{
    let Some(first) = first_of(tokens) else {
        return Ok(Ok((None, tokens)));
    };
    match first.sign {
        Sign::OpenParen => match subs(alloc, left, first.rest)? {
            Err(stop) => Ok(Err(stop)),
            Ok((parts, behind)) => Ok(Ok((Some(parts), behind))),
        },
        _ => Ok(Ok((None, tokens))),
    }
}
