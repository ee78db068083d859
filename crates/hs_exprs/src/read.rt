//! Expressions by descent, and the blocks of declarations in them (Haskell 2010 Report, sections 3 and 4.4).
//!
//! Each function has a number of steps left, which falls at each call that takes one and at each turn of a loop. Trees are
//! boxed where they are made, and arms with large locals are functions of their own, so that nested calls stay small.
#![tactic(auto, using(expr_parts::proofs::Steps::forms_step, expr_parts::proofs::Steps::forms_end))]

ghost use Rattle.std.specs.Prelude.{◌≡◌, [], false, IfOk};
ghost use Rattle.hs_syntax.specs.Reading.{seen};
ghost use Rattle.expr_parts.specs.Expressions as spec;
ghost use Rattle.hs_exprs.specs.Arms as steps;

use crate::side::{side, whole_clause};
use expr_parts::close::{
    comprehension, left_section, list, lone_list, open_range, range, right_section, tuple,
};
use expr_parts::look::{
    Separator, after_minus, begins_aexp, begins_bar, behind_body, behind_brace, behind_close_brace,
    behind_test, behind_yes, ends_item, opened, place_of, separator_of,
};
use expr_parts::part::{
    arguments, atom, bound, infix, one_pattern, plain_decl, section_end, section_start, typed,
};
use expr_parts::piece::{Body, Chain, Operand, Part};
use expr_parts::tree::{
    alt_of, apply_of, arm_of, bind_guard, case_of, clause_decl, closed_chain, do_of, is_test,
    let_chain, let_guard, let_test, one_exp, open_chain, push_alt, push_arg, push_arm, push_decl,
    push_exp, push_field, push_guard, push_link, push_qual, push_stmt, push_update, test_guard,
    two_exps, updated,
};
use hs_parts::names::{Found, qvar};
use hs_syntax::behind::{
    behind_bar, behind_close_square, behind_comma, behind_dots, behind_equals, behind_in,
    behind_of, behind_where,
};
use hs_syntax::expr_tree::{
    AexpTree, AltTree, ArmTree, Clause, DeclTree, ExprTree, FbindTree, GuardTree, OpenTree,
    QualTree,
};
use hs_syntax::name_ref::QopTree;
use hs_syntax::pattern_tree::{LhsTree, PatTree};
use hs_syntax::sign::{Sign, first_of};
use hs_syntax::token::Token;
use mk_base::place::Pos;
use sqlite_items::{Boxed, Items};
use std::alloc::Global;

/// `exp = chain [:: [context =>] type]`, as far as it goes; no `::` directly behind an open operand.
#[cycle(expression)]
pub fn exp<'a>(
    alloc: Global,
    left: usize,
    tail: bool,
    tokens: &'a [Token],
) -> Found<'a, Boxed<ExprTree>>
    ensures { IfOk result (λ r. seen r ≡ (spec.forms left).exp tail tokens.now) }
{
    if left == 0 {
        return Ok(None);
    }
    let at = place_of(tokens);
    match chain(alloc, left - 1, tail, at, tokens)? {
        None => Ok(None),
        Some((chain, rest)) => typed(alloc, left - 1, tail, at, chain, rest),
    }
}

/// `chain = {[-] closed qop} [-] (closed | open)`
#[cycle(expression)]
fn chain<'a>(
    alloc: Global,
    left: usize,
    tail: bool,
    at: Pos,
    tokens: &'a [Token],
) -> Found<'a, Chain>
    ensures { IfOk result (λ r. seen r ≡ (spec.forms left).chain tail at [] tokens.now) }
{
    let mut links = Vec::new(alloc);
    let mut left = left;
    let mut rest = tokens;
    while left > 0 {
        left -= 1;
        let place = place_of(rest);
        let (minus, inside) = after_minus(rest);
        match operand(alloc, left, tail, inside)? {
            None => return Ok(None),
            Some((part, behind)) => match part {
                Operand::Open(last) => {
                    let made = open_chain(alloc, at, links, place, minus, last)?;
                    return Ok(Some((made, behind)));
                }
                Operand::Closed(last) => match infix(alloc, behind)? {
                    None => {
                        let made = closed_chain(alloc, at, links, place, minus, last)?;
                        return Ok(Some((made, behind)));
                    }
                    Some((op, next)) => {
                        push_link(&mut links, place, minus, last, op)?;
                        rest = next;
                    }
                },
            },
        }
    }
    Ok(None)
}

/// An operand by its first token: `lambda | let .. in | if | case | do | aexp {aexp}`.
#[cycle(expression)]
fn operand<'a>(alloc: Global, left: usize, tail: bool, tokens: &'a [Token]) -> Found<'a, Operand>
    ensures { IfOk result (λ r. seen r ≡ (spec.forms left).operand tail tokens.now) }
{
    if left == 0 {
        return Ok(None);
    }
    match first_of(tokens) {
        None => Ok(None),
        Some(first) => {
            let at = first.token.at;
            match first.sign {
                Sign::Lambda => lambda(alloc, left - 1, tail, at, first.rest),
                Sign::Let => let_in(alloc, left - 1, tail, at, first.rest),
                Sign::If => if_else(alloc, left - 1, tail, at, first.rest),
                Sign::Case => case(alloc, left - 1, at, first.rest),
                Sign::Do => match opened(first.rest) {
                    None => Ok(None),
                    Some((put, rest)) => stmts(alloc, left - 1, at, put, rest),
                },
                _ => apply(alloc, left - 1, tokens),
            }
        }
    }
}

/// Behind a `\` at a place: `apat {apat} -> exp`.
#[cycle(expression)]
fn lambda<'a>(
    alloc: Global,
    left: usize,
    tail: bool,
    at: Pos,
    tokens: &'a [Token],
) -> Found<'a, Operand>
    ensures { IfOk result (λ r. seen r ≡ (spec.forms left).lambda tail at tokens.now) }
{
    if left == 0 {
        return Ok(None);
    }
    match arguments(alloc, left - 1, tokens)? {
        None => Ok(None),
        Some((args, rest)) => match exp(alloc, left - 1, tail, rest)? {
            None => Ok(None),
            Some((body, end)) => Ok(Some((
                Operand::Open(OpenTree::Lambda { at, args, body }),
                end,
            ))),
        },
    }
}

/// `block(decl)`
#[cycle(expression)]
fn block<'a>(alloc: Global, left: usize, tokens: &'a [Token]) -> Found<'a, Items<DeclTree>>
    ensures { IfOk result (λ r. seen r ≡ spec.block_at (spec.forms left) tokens.now) }
{
    match opened(tokens) {
        None => Ok(None),
        Some((put, rest)) => decls(alloc, left, put, rest),
    }
}

/// Behind a `let` at a place: `block(decl) in exp`.
#[cycle(expression)]
fn let_in<'a>(
    alloc: Global,
    left: usize,
    tail: bool,
    at: Pos,
    tokens: &'a [Token],
) -> Found<'a, Operand>
    ensures { IfOk result (λ r. seen r ≡ (spec.forms left).let_in tail at tokens.now) }
{
    if left == 0 {
        return Ok(None);
    }
    match opened(tokens) {
        None => Ok(None),
        Some((put, inside)) => match decls(alloc, left - 1, put, inside)? {
            None => Ok(None),
            Some((decls, rest)) => match behind_in(rest) {
                None => Ok(None),
                Some(more) => match exp(alloc, left - 1, tail, more)? {
                    None => Ok(None),
                    Some((body, end)) => Ok(Some((
                        Operand::Open(OpenTree::Let { at, decls, body }),
                        end,
                    ))),
                },
            },
        },
    }
}

/// Behind an `if` at a place: `exp [;] then exp [;] else exp`.
#[cycle(expression)]
fn if_else<'a>(
    alloc: Global,
    left: usize,
    tail: bool,
    at: Pos,
    tokens: &'a [Token],
) -> Found<'a, Operand>
    ensures { IfOk result (λ r. seen r ≡ (spec.forms left).if_else tail at tokens.now) }
{
    if left == 0 {
        return Ok(None);
    }
    match exp(alloc, left - 1, false, tokens)? {
        None => Ok(None),
        Some((test, rest)) => match behind_test(rest) {
            None => Ok(None),
            Some(more) => match exp(alloc, left - 1, false, more)? {
                None => Ok(None),
                Some((yes, next)) => match behind_yes(next) {
                    None => Ok(None),
                    Some(other) => match exp(alloc, left - 1, tail, other)? {
                        None => Ok(None),
                        Some((no, end)) => Ok(Some((
                            Operand::Open(OpenTree::If { at, test, yes, no }),
                            end,
                        ))),
                    },
                },
            },
        },
    }
}

/// Behind a `case` at a place: `exp of block(alt)`.
#[cycle(expression)]
fn case<'a>(alloc: Global, left: usize, at: Pos, tokens: &'a [Token]) -> Found<'a, Operand>
    ensures { IfOk result (λ r. seen r ≡ (spec.forms left).case_of at tokens.now) }
{
    if left == 0 {
        return Ok(None);
    }
    match exp(alloc, left - 1, false, tokens)? {
        None => Ok(None),
        Some((subject, rest)) => match behind_of(rest) {
            None => Ok(None),
            Some(more) => match opened(more) {
                None => Ok(None),
                Some((put, next)) => alts(alloc, left - 1, at, subject, put, next),
            },
        },
    }
}

/// The alternatives of a `case` at a place, in braces put by layout or written, from the first on.
#[cycle(expression)]
fn alts<'a>(
    alloc: Global,
    left: usize,
    at: Pos,
    subject: Boxed<ExprTree>,
    put: bool,
    tokens: &'a [Token],
) -> Found<'a, Operand>
    ensures { IfOk result (λ r. seen r ≡ (spec.forms left).alts at subject put [] tokens.now) }
{
    let mut alts = Vec::new(alloc);
    let mut left = left;
    let mut rest = tokens;
    while left > 0 {
        left -= 1;
        match separator_of(put, rest) {
            Separator::End(behind) => {
                let made = case_of(alloc, at, subject, alts)?;
                return Ok(Some((made, behind)));
            }
            Separator::Gap(behind) => rest = behind,
            Separator::Neither => match alt(alloc, left, rest)? {
                None => return Ok(None),
                Some((part, behind)) => {
                    if !ends_item(put, behind) {
                        return Ok(None);
                    }
                    push_alt(&mut alts, part)?;
                    rest = behind;
                }
            },
        }
    }
    Ok(None)
}

/// `alt = pattern -> exp [where block(decl)] | pattern {| guard {, guard} -> exp}+ [where block(decl)]`
#[cycle(expression)]
fn alt<'a>(alloc: Global, left: usize, tokens: &'a [Token]) -> Found<'a, Boxed<AltTree>>
    ensures { IfOk result (λ r. seen r ≡ (spec.forms left).alt tokens.now) }
{
    if left == 0 {
        return Ok(None);
    }
    match one_pattern(alloc, left - 1, tokens)? {
        None => Ok(None),
        Some((pattern, rest)) => match body(alloc, left - 1, true, rest)? {
            None => Ok(None),
            Some((body, end)) => {
                let made = alt_of(alloc, place_of(tokens), pattern, body)?;
                Ok(Some((made, end)))
            }
        },
    }
}

/// The statements of a `do` at a place, in braces put by layout or written, from the first on; the last is an expression.
#[cycle(expression)]
fn stmts<'a>(
    alloc: Global,
    left: usize,
    at: Pos,
    put: bool,
    tokens: &'a [Token],
) -> Found<'a, Operand>
    ensures { IfOk result (λ r. seen r ≡ (spec.forms left).stmts at put [] false tokens.now) }
{
    let mut stmts = Vec::new(alloc);
    let mut whole = false;
    let mut left = left;
    let mut rest = tokens;
    while left > 0 {
        left -= 1;
        match separator_of(put, rest) {
            Separator::End(behind) => {
                if !whole {
                    return Ok(None);
                }
                let made = do_of(alloc, at, stmts)?;
                return Ok(Some((made, behind)));
            }
            Separator::Gap(behind) => rest = behind,
            Separator::Neither => match part(alloc, left, rest)? {
                None => return Ok(None),
                Some((part, behind)) => {
                    if !ends_item(put, behind) {
                        return Ok(None);
                    }
                    whole = is_test(&part);
                    push_stmt(&mut stmts, place_of(rest), part)?;
                    rest = behind;
                }
            },
        }
    }
    Ok(None)
}

/// `aexp {aexp}`
#[cycle(expression)]
fn apply<'a>(alloc: Global, left: usize, tokens: &'a [Token]) -> Found<'a, Operand>
    ensures { IfOk result (λ r. seen r ≡ (spec.forms left).apply tokens.now) }
{
    if left == 0 {
        return Ok(None);
    }
    let mut left = left - 1;
    let at = place_of(tokens);
    let (head, mut rest) = match aexp(alloc, left, tokens)? {
        None => return Ok(None),
        Some(found) => found,
    };
    let mut args = Vec::new(alloc);
    while left > 0 {
        left -= 1;
        if !begins_aexp(rest) {
            let made = apply_of(alloc, at, head, args)?;
            return Ok(Some((made, rest)));
        }
        match aexp(alloc, left, rest)? {
            None => return Ok(None),
            Some((arg, behind)) => {
                push_arg(&mut args, arg)?;
                rest = behind;
            }
        }
    }
    Ok(None)
}

/// An atomic expression with the updates behind it.
#[cycle(expression)]
fn aexp<'a>(alloc: Global, left: usize, tokens: &'a [Token]) -> Found<'a, Boxed<AexpTree>>
    ensures { IfOk result (λ r. seen r ≡ (spec.forms left).aexp tokens.now) }
{
    if left == 0 {
        return Ok(None);
    }
    match simple(alloc, left - 1, tokens)? {
        None => Ok(None),
        Some((tree, rest)) => updates(alloc, left - 1, place_of(tokens), tree, rest),
    }
}

/// The updates behind an atomic expression at a place: `{{ fbind {, fbind} }}`.
#[cycle(expression)]
fn updates<'a>(
    alloc: Global,
    left: usize,
    at: Pos,
    tree: Boxed<AexpTree>,
    tokens: &'a [Token],
) -> Found<'a, Boxed<AexpTree>>
    ensures { IfOk result (λ r. seen r ≡ (spec.forms left).updates at tree [] tokens.now) }
{
    let mut updates = Vec::new(alloc);
    let mut left = left;
    let mut rest = tokens;
    while left > 0 {
        left -= 1;
        match behind_brace(rest) {
            None => {
                let made = updated(alloc, at, tree, updates)?;
                return Ok(Some((made, rest)));
            }
            Some(inside) => match fbinds(alloc, left, inside)? {
                None => return Ok(None),
                Some((fields, more)) => match behind_close_brace(more) {
                    None => return Ok(None),
                    Some(behind) => {
                        push_update(&mut updates, place_of(rest), fields)?;
                        rest = behind;
                    }
                },
            },
        }
    }
    Ok(None)
}

/// `fbind {, fbind}` with `fbind = qvar = exp`
#[cycle(expression)]
fn fbinds<'a>(alloc: Global, left: usize, tokens: &'a [Token]) -> Found<'a, Items<FbindTree>>
    ensures { IfOk result (λ r. seen r ≡ (spec.forms left).fbinds [] tokens.now) }
{
    let mut fields = Vec::new(alloc);
    let mut left = left;
    let mut rest = tokens;
    while left > 0 {
        left -= 1;
        match qvar(alloc, rest)? {
            None => return Ok(None),
            Some((name, next)) => match behind_equals(next) {
                None => return Ok(None),
                Some(more) => match exp(alloc, left, false, more)? {
                    None => return Ok(None),
                    Some((value, behind)) => {
                        push_field(&mut fields, place_of(rest), name, value)?;
                        rest = behind;
                    }
                },
            },
        }
        match behind_comma(rest) {
            None => return Ok(Some((Items::from_vec(fields), rest))),
            Some(behind) => rest = behind,
        }
    }
    Ok(None)
}

/// An atomic expression without the updates behind it.
#[cycle(expression)]
fn simple<'a>(alloc: Global, left: usize, tokens: &'a [Token]) -> Found<'a, Boxed<AexpTree>>
    ensures { IfOk result (λ r. seen r ≡ (spec.forms left).simple tokens.now) }
{
    if left == 0 {
        return Ok(None);
    }
    let found = atom(alloc, tokens)?;
    if found.is_some() {
        return Ok(found);
    }
    nested(alloc, left - 1, tokens)
}

/// An atomic expression in parentheses or brackets.
#[cycle(expression)]
fn nested<'a>(alloc: Global, left: usize, tokens: &'a [Token]) -> Found<'a, Boxed<AexpTree>>
    ensures { IfOk result (λ r. seen r ≡ steps.nested_at (spec.forms left) tokens.now) }
{
    match first_of(tokens) {
        None => Ok(None),
        Some(first) => match first.sign {
            Sign::OpenParen => paren(alloc, left, first.token.at, first.rest),
            Sign::OpenSquare => bracket(alloc, left, first.token.at, first.rest),
            _ => Ok(None),
        },
    }
}

/// Behind an opening parenthesis at a place: a section, or expressions.
#[cycle(expression)]
fn paren<'a>(alloc: Global, left: usize, at: Pos, tokens: &'a [Token]) -> Found<'a, Boxed<AexpTree>>
    ensures { IfOk result (λ r. seen r ≡ (spec.forms left).paren at tokens.now) }
{
    if left == 0 {
        return Ok(None);
    }
    match section_start(alloc, tokens)? {
        Some((op, rest)) => right(alloc, left - 1, at, op, rest),
        None => inside(alloc, left - 1, at, tokens),
    }
}

/// Behind the operator of a right section: its chain, and the closing parenthesis.
#[cycle(expression)]
fn right<'a>(
    alloc: Global,
    left: usize,
    at: Pos,
    op: QopTree,
    tokens: &'a [Token],
) -> Found<'a, Boxed<AexpTree>>
    ensures { IfOk result (λ r. seen r ≡ (spec.forms left).right at op tokens.now) }
{
    if left == 0 {
        return Ok(None);
    }
    match chain(alloc, left - 1, false, place_of(tokens), tokens)? {
        None => Ok(None),
        Some((chain, rest)) => right_section(alloc, at, op, chain.tree, rest),
    }
}

/// What stands in parentheses that open at a place, and is no right section.
#[cycle(expression)]
fn inside<'a>(
    alloc: Global,
    left: usize,
    at: Pos,
    tokens: &'a [Token],
) -> Found<'a, Boxed<AexpTree>>
    ensures { IfOk result (λ r. seen r ≡ spec.inside_at (spec.forms left) left at tokens.now) }
{
    let first = place_of(tokens);
    match chain(alloc, left, false, first, tokens)? {
        None => Ok(None),
        Some((chain, rest)) => match section_end(alloc, rest)? {
            Some((op, end)) => left_section(alloc, at, chain.tree, op, end),
            None => match typed(alloc, left, false, first, chain, rest)? {
                None => Ok(None),
                Some((part, more)) => in_parens(alloc, left, at, part, more),
            },
        },
    }
}

/// Expressions in parentheses that open at a place, from behind the first on.
#[cycle(expression)]
fn in_parens<'a>(
    alloc: Global,
    left: usize,
    at: Pos,
    part: Boxed<ExprTree>,
    tokens: &'a [Token],
) -> Found<'a, Boxed<AexpTree>>
    ensures { IfOk result (λ r. seen r ≡ spec.tuple_from (spec.forms left) at part tokens.now) }
{
    let first = one_exp(alloc, part)?;
    match exps(alloc, left, first, tokens)? {
        None => Ok(None),
        Some((parts, end)) => tuple(alloc, at, parts, end),
    }
}

/// `{, exp}`, behind the first ones.
#[cycle(expression)]
fn exps<'a>(
    alloc: Global,
    left: usize,
    first: Vec<ExprTree>,
    tokens: &'a [Token],
) -> Found<'a, Items<ExprTree>>
    ensures { IfOk result (λ r. seen r ≡ (spec.forms left).exps first.items tokens.now) }
{
    let mut parts = first;
    let mut left = left;
    let mut rest = tokens;
    while left > 0 {
        left -= 1;
        match behind_comma(rest) {
            None => return Ok(Some((Items::from_vec(parts), rest))),
            Some(inside) => match exp(alloc, left, false, inside)? {
                None => return Ok(None),
                Some((part, behind)) => {
                    push_exp(&mut parts, part)?;
                    rest = behind;
                }
            },
        }
    }
    Ok(None)
}

/// Behind an opening bracket at a place: a list, a range or a comprehension.
#[cycle(expression)]
fn bracket<'a>(
    alloc: Global,
    left: usize,
    at: Pos,
    tokens: &'a [Token],
) -> Found<'a, Boxed<AexpTree>>
    ensures { IfOk result (λ r. seen r ≡ (spec.forms left).bracket at tokens.now) }
{
    if left == 0 {
        return Ok(None);
    }
    match exp(alloc, left - 1, false, tokens)? {
        None => Ok(None),
        Some((part, rest)) => listed(alloc, left - 1, at, part, rest),
    }
}

/// What stands in brackets that open at a place, from behind the first expression on.
#[cycle(expression)]
fn listed<'a>(
    alloc: Global,
    left: usize,
    at: Pos,
    part: Boxed<ExprTree>,
    tokens: &'a [Token],
) -> Found<'a, Boxed<AexpTree>>
    ensures { IfOk result (λ r. seen r ≡ (spec.forms left).listed at part tokens.now) }
{
    if left == 0 {
        return Ok(None);
    }
    match first_of(tokens) {
        None => Ok(None),
        Some(first) => match first.sign {
            Sign::Bar => match quals(alloc, left - 1, first.rest)? {
                None => Ok(None),
                Some((quals, end)) => comprehension(alloc, at, part, quals, end),
            },
            Sign::Dots => limit(alloc, left - 1, at, part, None, first.rest),
            Sign::Comma => second(alloc, left - 1, at, part, first.rest),
            _ => lone_list(alloc, at, part, tokens),
        },
    }
}

/// What stands in brackets that open at a place, from the second expression on.
#[cycle(expression)]
fn second<'a>(
    alloc: Global,
    left: usize,
    at: Pos,
    part: Boxed<ExprTree>,
    tokens: &'a [Token],
) -> Found<'a, Boxed<AexpTree>>
    ensures { IfOk result (λ r. seen r ≡ (spec.forms left).second at part tokens.now) }
{
    if left == 0 {
        return Ok(None);
    }
    match exp(alloc, left - 1, false, tokens)? {
        None => Ok(None),
        Some((next, rest)) => match behind_dots(rest) {
            Some(more) => limit(alloc, left - 1, at, part, Some(next), more),
            None => {
                let first = two_exps(alloc, part, next)?;
                in_brackets(alloc, left - 1, at, first, rest)
            }
        },
    }
}

/// Expressions in brackets that open at a place, from behind the first ones on.
#[cycle(expression)]
fn in_brackets<'a>(
    alloc: Global,
    left: usize,
    at: Pos,
    first: Vec<ExprTree>,
    tokens: &'a [Token],
) -> Found<'a, Boxed<AexpTree>>
    ensures { IfOk result (λ r. seen r ≡ spec.list_at (spec.forms left) at first.items tokens.now) }
{
    match exps(alloc, left, first, tokens)? {
        None => Ok(None),
        Some((parts, end)) => list(alloc, at, parts, end),
    }
}

/// Behind the `..` of a range: its last expression, where it has one, and the closing bracket.
#[cycle(expression)]
fn limit<'a>(
    alloc: Global,
    left: usize,
    at: Pos,
    from: Boxed<ExprTree>,
    then: Option<Boxed<ExprTree>>,
    tokens: &'a [Token],
) -> Found<'a, Boxed<AexpTree>>
    ensures { IfOk result (λ r. seen r ≡ (spec.forms left).limit at from then tokens.now) }
{
    if left == 0 {
        return Ok(None);
    }
    match behind_close_square(tokens) {
        Some(rest) => open_range(alloc, at, from, then, rest),
        None => match exp(alloc, left - 1, false, tokens)? {
            None => Ok(None),
            Some((to, rest)) => range(alloc, at, from, then, to, rest),
        },
    }
}

/// `qual {, qual}`
#[cycle(expression)]
fn quals<'a>(alloc: Global, left: usize, tokens: &'a [Token]) -> Found<'a, Items<QualTree>>
    ensures { IfOk result (λ r. seen r ≡ (spec.forms left).quals [] tokens.now) }
{
    let mut quals = Vec::new(alloc);
    let mut left = left;
    let mut rest = tokens;
    while left > 0 {
        left -= 1;
        match part(alloc, left, rest)? {
            None => return Ok(None),
            Some((part, behind)) => {
                push_qual(&mut quals, place_of(rest), part)?;
                rest = behind;
            }
        }
        match behind_comma(rest) {
            None => return Ok(Some((Items::from_vec(quals), rest))),
            Some(behind) => rest = behind,
        }
    }
    Ok(None)
}

/// `pattern <- exp | let block(decl) | exp`: a qualifier or a statement.
#[cycle(expression)]
fn part<'a>(alloc: Global, left: usize, tokens: &'a [Token]) -> Found<'a, Part>
    ensures { IfOk result (λ r. seen r ≡ (spec.forms left).part tokens.now) }
{
    if left == 0 {
        return Ok(None);
    }
    match first_of(tokens) {
        None => Ok(None),
        Some(first) => match first.sign {
            Sign::Let => let_part(alloc, left - 1, first.token.at, first.rest),
            _ => match bound(alloc, left - 1, tokens)? {
                Some((pattern, rest)) => bind_part(alloc, left - 1, pattern, rest),
                None => match exp(alloc, left - 1, false, tokens)? {
                    None => Ok(None),
                    Some((value, end)) => Ok(Some((Part::Test(value), end))),
                },
            },
        },
    }
}

/// Behind the `<-` of a qualifier or a statement: its expression.
#[cycle(expression)]
fn bind_part<'a>(
    alloc: Global,
    left: usize,
    pattern: Boxed<PatTree>,
    tokens: &'a [Token],
) -> Found<'a, Part>
    ensures { IfOk result (λ r. seen r ≡ steps.bind_part_at (spec.forms left) pattern tokens.now) }
{
    match exp(alloc, left, false, tokens)? {
        None => Ok(None),
        Some((value, end)) => Ok(Some((Part::Bind(pattern, value), end))),
    }
}

/// Behind the `let` of a qualifier or a statement at a place: its block, and `in exp` where that follows.
#[cycle(expression)]
fn let_part<'a>(alloc: Global, left: usize, at: Pos, tokens: &'a [Token]) -> Found<'a, Part>
    ensures { IfOk result (λ r. seen r ≡ (spec.forms left).let_part at tokens.now) }
{
    if left == 0 {
        return Ok(None);
    }
    match block(alloc, left - 1, tokens)? {
        None => Ok(None),
        Some((decls, rest)) => match behind_in(rest) {
            None => Ok(Some((Part::Let(decls), rest))),
            Some(more) => match exp(alloc, left - 1, false, more)? {
                None => Ok(None),
                Some((value, end)) => {
                    let made = let_test(alloc, at, decls, value)?;
                    Ok(Some((made, end)))
                }
            },
        },
    }
}

/// What stands behind a left side, or behind the pattern of an alternative.
#[cycle(expression)]
fn body<'a>(
    alloc: Global,
    left: usize,
    in_alternative: bool,
    tokens: &'a [Token],
) -> Found<'a, Body>
    ensures { IfOk result (λ r. seen r ≡ (spec.forms left).body in_alternative tokens.now) }
{
    if left == 0 {
        return Ok(None);
    }
    match behind_body(in_alternative, tokens) {
        Some(rest) => match exp(alloc, left - 1, false, rest)? {
            None => Ok(None),
            Some((value, more)) => match locals(alloc, left - 1, more)? {
                None => Ok(None),
                Some((locals, end)) => Ok(Some((Body::Plain(value, locals), end))),
            },
        },
        None => match arms(alloc, left - 1, in_alternative, tokens)? {
            None => Ok(None),
            Some((arms, more)) => match locals(alloc, left - 1, more)? {
                None => Ok(None),
                Some((locals, end)) => Ok(Some((Body::Guarded(arms, locals), end))),
            },
        },
    }
}

/// `{| guard {, guard} = exp}+`, in an alternative with `->`.
#[cycle(expression)]
fn arms<'a>(
    alloc: Global,
    left: usize,
    in_alternative: bool,
    tokens: &'a [Token],
) -> Found<'a, Items<ArmTree>>
    ensures { IfOk result (λ r. seen r ≡ (spec.forms left).arms in_alternative [] tokens.now) }
{
    let mut arms = Vec::new(alloc);
    let mut left = left;
    let mut rest = tokens;
    while left > 0 {
        left -= 1;
        match arm(alloc, left, in_alternative, rest)? {
            None => return Ok(None),
            Some((part, behind)) => {
                push_arm(&mut arms, part)?;
                rest = behind;
            }
        }
        if !begins_bar(rest) {
            return Ok(Some((Items::from_vec(arms), rest)));
        }
    }
    Ok(None)
}

/// `| guard {, guard} = exp`, in an alternative with `->`.
#[cycle(expression)]
fn arm<'a>(
    alloc: Global,
    left: usize,
    in_alternative: bool,
    tokens: &'a [Token],
) -> Found<'a, Boxed<ArmTree>>
    ensures { IfOk result (λ r. seen r ≡ (spec.forms left).arm in_alternative tokens.now) }
{
    if left == 0 {
        return Ok(None);
    }
    match behind_bar(tokens) {
        None => Ok(None),
        Some(rest) => match guards(alloc, left - 1, in_alternative, rest)? {
            None => Ok(None),
            Some((guards, next)) => match behind_body(in_alternative, next) {
                None => Ok(None),
                Some(more) => match exp(alloc, left - 1, false, more)? {
                    None => Ok(None),
                    Some((value, end)) => {
                        let made = arm_of(alloc, place_of(tokens), guards, value)?;
                        Ok(Some((made, end)))
                    }
                },
            },
        },
    }
}

/// `guard {, guard}`
#[cycle(expression)]
fn guards<'a>(
    alloc: Global,
    left: usize,
    in_alternative: bool,
    tokens: &'a [Token],
) -> Found<'a, Items<GuardTree>>
    ensures { IfOk result (λ r. seen r ≡ (spec.forms left).guards in_alternative [] tokens.now) }
{
    let mut guards = Vec::new(alloc);
    let mut left = left;
    let mut rest = tokens;
    while left > 0 {
        left -= 1;
        match guard(alloc, left, in_alternative, rest)? {
            None => return Ok(None),
            Some((part, behind)) => {
                push_guard(&mut guards, part)?;
                rest = behind;
            }
        }
        match behind_comma(rest) {
            None => return Ok(Some((Items::from_vec(guards), rest))),
            Some(behind) => rest = behind,
        }
    }
    Ok(None)
}

/// `guard = pattern <- chain | let block(decl) | chain`
#[cycle(expression)]
fn guard<'a>(
    alloc: Global,
    left: usize,
    in_alternative: bool,
    tokens: &'a [Token],
) -> Found<'a, Boxed<GuardTree>>
    ensures { IfOk result (λ r. seen r ≡ (spec.forms left).guard in_alternative tokens.now) }
{
    if left == 0 {
        return Ok(None);
    }
    match first_of(tokens) {
        None => Ok(None),
        Some(first) => {
            let at = first.token.at;
            match first.sign {
                Sign::Let => guard_of_let(alloc, left - 1, in_alternative, at, first.rest),
                _ => guard_of_chain(alloc, left - 1, in_alternative, at, tokens),
            }
        }
    }
}

/// `pattern <- chain | chain` at a place.
#[cycle(expression)]
fn guard_of_chain<'a>(
    alloc: Global,
    left: usize,
    in_alternative: bool,
    at: Pos,
    tokens: &'a [Token],
) -> Found<'a, Boxed<GuardTree>>
    ensures { IfOk result (λ r. seen r ≡ spec.chain_guard_at (spec.forms left) left in_alternative at tokens.now) }
{
    match bound(alloc, left, tokens)? {
        Some((pattern, rest)) => bound_guard(alloc, left, in_alternative, at, pattern, rest),
        None => match chain(alloc, left, in_alternative, place_of(tokens), tokens)? {
            None => Ok(None),
            Some((chain, end)) => {
                let made = test_guard(alloc, at, chain.tree)?;
                Ok(Some((made, end)))
            }
        },
    }
}

/// Behind the `<-` of a guard at a place: its chain.
#[cycle(expression)]
fn bound_guard<'a>(
    alloc: Global,
    left: usize,
    in_alternative: bool,
    at: Pos,
    pattern: Boxed<PatTree>,
    tokens: &'a [Token],
) -> Found<'a, Boxed<GuardTree>>
    ensures { IfOk result (λ r. seen r ≡ steps.bound_guard_at (spec.forms left) in_alternative at pattern tokens.now) }
{
    match chain(alloc, left, in_alternative, place_of(tokens), tokens)? {
        None => Ok(None),
        Some((chain, end)) => {
            let made = bind_guard(alloc, at, pattern, chain)?;
            Ok(Some((made, end)))
        }
    }
}

/// Behind the `let` of a guard at a place: its block, and `in exp` where that follows.
#[cycle(expression)]
fn guard_of_let<'a>(
    alloc: Global,
    left: usize,
    in_alternative: bool,
    at: Pos,
    tokens: &'a [Token],
) -> Found<'a, Boxed<GuardTree>>
    ensures { IfOk result (λ r. seen r ≡ (spec.forms left).let_guard in_alternative at tokens.now) }
{
    if left == 0 {
        return Ok(None);
    }
    match block(alloc, left - 1, tokens)? {
        None => Ok(None),
        Some((decls, rest)) => match behind_in(rest) {
            None => {
                let made = let_guard(alloc, at, decls)?;
                Ok(Some((made, rest)))
            }
            Some(more) => match exp(alloc, left - 1, in_alternative, more)? {
                None => Ok(None),
                Some((value, end)) => {
                    let chain = let_chain(alloc, at, decls, value)?;
                    let made = test_guard(alloc, at, chain)?;
                    Ok(Some((made, end)))
                }
            },
        },
    }
}

/// `[where block(decl)]`
#[cycle(expression)]
fn locals<'a>(alloc: Global, left: usize, tokens: &'a [Token]) -> Found<'a, Option<Items<DeclTree>>>
    ensures { IfOk result (λ r. seen r ≡ (spec.forms left).locals tokens.now) }
{
    if left == 0 {
        return Ok(None);
    }
    match behind_where(tokens) {
        None => Ok(Some((None, tokens))),
        Some(rest) => match block(alloc, left - 1, rest)? {
            None => Ok(None),
            Some((decls, end)) => Ok(Some((Some(decls), end))),
        },
    }
}

/// The declarations of a block, in braces put by layout or written, from the first on.
#[cycle(expression)]
fn decls<'a>(
    alloc: Global,
    left: usize,
    put: bool,
    tokens: &'a [Token],
) -> Found<'a, Items<DeclTree>>
    ensures { IfOk result (λ r. seen r ≡ (spec.forms left).decls put [] tokens.now) }
{
    let mut decls = Vec::new(alloc);
    let mut left = left;
    let mut rest = tokens;
    while left > 0 {
        left -= 1;
        match separator_of(put, rest) {
            Separator::End(behind) => return Ok(Some((Items::from_vec(decls), behind))),
            Separator::Gap(behind) => rest = behind,
            Separator::Neither => match decl(alloc, left, rest)? {
                None => return Ok(None),
                Some((part, behind)) => {
                    if !ends_item(put, behind) {
                        return Ok(None);
                    }
                    push_decl(&mut decls, part)?;
                    rest = behind;
                }
            },
        }
    }
    Ok(None)
}

/// `decl = sig | fix | clause`, as far as it goes.
#[cycle(expression)]
pub fn decl<'a>(alloc: Global, left: usize, tokens: &'a [Token]) -> Found<'a, Boxed<DeclTree>>
    ensures { IfOk result (λ r. seen r ≡ (spec.forms left).decl tokens.now) }
{
    if left == 0 {
        return Ok(None);
    }
    let found = plain_decl(alloc, left - 1, tokens)?;
    if found.is_some() {
        return Ok(found);
    }
    clause_item(alloc, left - 1, tokens)
}

/// A clause as a declaration.
#[cycle(expression)]
fn clause_item<'a>(alloc: Global, left: usize, tokens: &'a [Token]) -> Found<'a, Boxed<DeclTree>>
    ensures { IfOk result (λ r. seen r ≡ steps.clause_item_at (spec.forms left) tokens.now) }
{
    match clause(alloc, left, tokens)? {
        None => Ok(None),
        Some((clause, rest)) => {
            let made = clause_decl(alloc, place_of(tokens), clause)?;
            Ok(Some((made, rest)))
        }
    }
}

/// `clause = lhs rhs`, as far as it goes.
#[cycle(expression)]
pub fn clause<'a>(alloc: Global, left: usize, tokens: &'a [Token]) -> Found<'a, Boxed<Clause>>
    ensures { IfOk result (λ r. seen r ≡ (spec.forms left).clause tokens.now) }
{
    if left == 0 {
        return Ok(None);
    }
    match side(alloc, tokens)? {
        None => Ok(None),
        Some((side, rest)) => clause_body(alloc, left - 1, tokens, side, rest),
    }
}

/// A clause from its left side, with which its tokens begin, and the tokens behind that.
#[cycle(expression)]
fn clause_body<'a>(
    alloc: Global,
    left: usize,
    tokens: &'a [Token],
    side: Boxed<LhsTree>,
    rest: &'a [Token],
) -> Found<'a, Boxed<Clause>>
    ensures { IfOk result (λ r. seen r ≡ steps.clause_body_at (spec.forms left) tokens.now side rest.now) }
{
    match body(alloc, left, false, rest)? {
        None => Ok(None),
        Some((body, end)) => {
            whole_clause(alloc, place_of(tokens), side, place_of(rest), body, end)
        }
    }
}
