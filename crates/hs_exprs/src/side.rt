//! Left sides of clauses in boxes, so that the calls that nest stay small.
ghost use Rattle.std.specs.Prelude.{◌≡◌, IfOk};
ghost use Rattle.hs_syntax.specs.Reading.{seen};
ghost use Rattle.hs_parts.specs.SideReaders.{side_at};
ghost use Rattle.hs_exprs.specs.Arms as steps;

use expr_parts::piece::Body;
use expr_parts::tree::clause_of;
use hs_parts::names::Found;
use hs_sides::lhs::lhs;
use hs_syntax::expr_tree::Clause;
use hs_syntax::pattern_tree::LhsTree;
use hs_syntax::token::Token;
use mk_base::place::Pos;
use sqlite_items::Boxed;
use std::alloc::Global;

/// A left side in a box, with the tokens behind it.
fn boxed_side<'a>(alloc: Global, tree: LhsTree, rest: &'a [Token]) -> Found<'a, Boxed<LhsTree>>
    ensures { IfOk result (λ r. seen r ≡ steps.found_side tree rest.now) }
{
    let made = Boxed::new(alloc, tree)?;
    Ok(Some((made, rest)))
}

/// The left side of a clause, with the tokens from the `=` or the bar behind it on.
pub fn side<'a>(alloc: Global, tokens: &'a [Token]) -> Found<'a, Boxed<LhsTree>>
    ensures { IfOk result (λ r. seen r ≡ side_at tokens.now) }
{
    match lhs(alloc, tokens)? {
        None => Ok(None),
        Some((tree, rest)) => boxed_side(alloc, tree, rest),
    }
}

/// A clause at a place, whose right side has a place of its own, with the tokens behind it.
pub fn whole_clause<'a>(
    alloc: Global,
    at: Pos,
    side: Boxed<LhsTree>,
    place: Pos,
    body: Body,
    rest: &'a [Token],
) -> Found<'a, Boxed<Clause>>
    ensures { IfOk result (λ r. seen r ≡ steps.found_clause at side place body rest.now) }
{
    let made = clause_of(alloc, at, side.into_inner(), place, body)?;
    Ok(Some((made, rest)))
}
