//! Signs at a place, and the tokens behind them.
ghost use Rattle.std.specs.Prelude.{◌≡◌};
ghost use Rattle.hs_syntax.specs.Reading.{seen, tail_of, begins, behind};
ghost use Rattle.hs_syntax.specs.Reading as reading;
ghost use Rattle.hs_parts.specs.Names.{place};
ghost use Rattle.hs_parts.specs.PatternReaders.{is_brace, is_close_brace};
ghost use Rattle.expr_parts.specs.Expressions as spec;

use hs_syntax::behind::{behind_else, behind_then};
use hs_syntax::sign::{Sign, first_of};
use hs_syntax::token::Token;
use mk_base::place::Pos;

/// What stands between the items of a block: a semicolon, its closing brace, or neither; with the tokens behind it.
#[derive(Drop)]
pub enum Separator<'a> {
    Gap(&'a [Token]),
    End(&'a [Token]),
    Neither,
}

/// The place of the first token; the first one of a source where there is none.
pub fn place_of(tokens: &[Token]) -> Pos
    ensures { result ≡ place tokens.now }
{
    match tokens {
        [] => Pos { line: 1, col: 1 },
        [token, ..] => token.at,
    }
}

/// Whether an atomic expression begins here.
pub fn begins_aexp(tokens: &[Token]) -> bool
    ensures { result ≡ begins spec.aexp_begins tokens.now }
{
    match first_of(tokens) {
        None => false,
        Some(first) => match first.sign {
            Sign::Var => true,
            Sign::QualifiedVar => true,
            Sign::Con => true,
            Sign::QualifiedCon => true,
            Sign::Number => true,
            Sign::Quoted => true,
            Sign::OpenParen => true,
            Sign::OpenSquare => true,
            _ => false,
        },
    }
}

/// Whether a `|` stands first.
pub fn begins_bar(tokens: &[Token]) -> bool
    ensures { result ≡ begins reading.is_bar tokens.now }
{
    match first_of(tokens) {
        None => false,
        Some(first) => match first.sign {
            Sign::Bar => true,
            _ => false,
        },
    }
}

/// Whether a comma stands first.
pub fn begins_comma(tokens: &[Token]) -> bool
    ensures { result ≡ begins reading.is_comma tokens.now }
{
    match first_of(tokens) {
        None => false,
        Some(first) => match first.sign {
            Sign::Comma => true,
            _ => false,
        },
    }
}

/// Whether a closing parenthesis stands first.
pub fn begins_close_paren(tokens: &[Token]) -> bool
    ensures { result ≡ begins reading.is_close_paren tokens.now }
{
    match first_of(tokens) {
        None => false,
        Some(first) => match first.sign {
            Sign::CloseParen => true,
            _ => false,
        },
    }
}

/// Whether a minus stands first, and the tokens behind it where it does.
pub fn after_minus(tokens: &[Token]) -> (bool, &[Token])
    ensures minus { result.0 ≡ begins spec.is_minus tokens.now }
    ensures rest { result.1.now ≡ spec.after spec.is_minus tokens.now }
{
    match first_of(tokens) {
        None => (false, tokens),
        Some(first) => match first.sign {
            Sign::Minus => (true, first.rest),
            _ => (false, tokens),
        },
    }
}

/// The tokens without a semicolon, where it stands first.
fn after_semicolon(tokens: &[Token]) -> &[Token]
    ensures { result.now ≡ spec.after reading.is_semicolon tokens.now }
{
    match first_of(tokens) {
        None => tokens,
        Some(first) => match first.sign {
            Sign::Semicolon => first.rest,
            _ => tokens,
        },
    }
}

/// The tokens behind `then`, where it stands first or behind a semicolon.
pub fn behind_test(tokens: &[Token]) -> Option<&[Token]>
    ensures { tail_of result ≡ spec.behind_then tokens.now }
{
    behind_then(after_semicolon(tokens))
}

/// The tokens behind `else`, where it stands first or behind a semicolon.
pub fn behind_yes(tokens: &[Token]) -> Option<&[Token]>
    ensures { tail_of result ≡ spec.behind_else tokens.now }
{
    behind_else(after_semicolon(tokens))
}

/// The tokens behind a written opening brace, where it stands first.
pub fn behind_brace(tokens: &[Token]) -> Option<&[Token]>
    ensures { tail_of result ≡ behind is_brace tokens.now }
{
    match first_of(tokens) {
        None => None,
        Some(first) => match first.sign {
            Sign::OpenBrace(false) => Some(first.rest),
            _ => None,
        },
    }
}

/// The tokens behind a written closing brace, where it stands first.
pub fn behind_close_brace(tokens: &[Token]) -> Option<&[Token]>
    ensures { tail_of result ≡ behind is_close_brace tokens.now }
{
    match first_of(tokens) {
        None => None,
        Some(first) => match first.sign {
            Sign::CloseBrace(false) => Some(first.rest),
            _ => None,
        },
    }
}

/// The tokens behind written braces with nothing between them, where they stand first.
pub fn behind_empty(tokens: &[Token]) -> Option<&[Token]>
    ensures { tail_of result ≡ spec.behind_empty tokens.now }
{
    match behind_brace(tokens) {
        None => None,
        Some(rest) => behind_close_brace(rest),
    }
}

/// The tokens behind the sign of a body, where it stands first: `->` in an alternative, `=` in a clause.
pub fn behind_body(in_alternative: bool, tokens: &[Token]) -> Option<&[Token]>
    ensures { tail_of result ≡ behind (spec.is_body in_alternative) tokens.now }
{
    if in_alternative {
        hs_syntax::behind::behind_arrow(tokens)
    } else {
        hs_syntax::behind::behind_equals(tokens)
    }
}

/// Whether layout put the opening brace of a block, and the tokens behind it, where one stands first.
pub fn opened(tokens: &[Token]) -> Option<(bool, &[Token])>
    ensures { seen result ≡ spec.opened tokens.now }
{
    match first_of(tokens) {
        None => None,
        Some(first) => match first.sign {
            Sign::OpenBrace(put) => Some((put, first.rest)),
            _ => None,
        },
    }
}

/// Whether a sign is the closing brace of a block, put by layout or written.
fn closes(put: bool, sign: Sign) -> bool
    ensures { result ≡ spec.closes put sign }
{
    match sign {
        Sign::CloseBrace(true) => put,
        Sign::CloseBrace(false) => !put,
        _ => false,
    }
}

/// Whether what stands first ends an item of a block, put by layout or written.
pub fn ends_item(put: bool, tokens: &[Token]) -> bool
    ensures { result ≡ begins (spec.ends_item put) tokens.now }
{
    match first_of(tokens) {
        None => false,
        Some(first) => match first.sign {
            Sign::Semicolon => true,
            _ => closes(put, first.sign),
        },
    }
}

/// What stands between the items of a block, put by layout or written.
pub fn separator_of(put: bool, tokens: &[Token]) -> Separator<'_>
    ensures { spec.separated result ≡ spec.between put tokens.now }
{
    match first_of(tokens) {
        None => Separator::Neither,
        Some(first) => match first.sign {
            Sign::Semicolon => Separator::Gap(first.rest),
            _ => {
                if closes(put, first.sign) {
                    Separator::End(first.rest)
                } else {
                    Separator::Neither
                }
            }
        },
    }
}
