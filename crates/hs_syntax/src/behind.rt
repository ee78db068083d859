//! The tokens behind a sign, where it stands first.
ghost use Rattle.std.specs.Prelude.{◌≡◌};
ghost use Rattle.hs_syntax.specs.Reading.{behind, tail_of};
ghost use Rattle.hs_syntax.specs.Reading as spec;

use crate::sign::{Sign, first_of};
use crate::token::Token;

/// The tokens behind a comma, where it stands first.
pub fn behind_comma(tokens: &[Token]) -> Option<&[Token]>
    ensures { tail_of result ≡ behind spec.is_comma tokens.now }
{
    match first_of(tokens) {
        None => None,
        Some(first) => match first.sign {
            Sign::Comma => Some(first.rest),
            _ => None,
        },
    }
}

/// The tokens behind an opening parenthesis, where it stands first.
pub fn behind_open_paren(tokens: &[Token]) -> Option<&[Token]>
    ensures { tail_of result ≡ behind spec.is_open_paren tokens.now }
{
    match first_of(tokens) {
        None => None,
        Some(first) => match first.sign {
            Sign::OpenParen => Some(first.rest),
            _ => None,
        },
    }
}

/// The tokens behind a closing parenthesis, where it stands first.
pub fn behind_close_paren(tokens: &[Token]) -> Option<&[Token]>
    ensures { tail_of result ≡ behind spec.is_close_paren tokens.now }
{
    match first_of(tokens) {
        None => None,
        Some(first) => match first.sign {
            Sign::CloseParen => Some(first.rest),
            _ => None,
        },
    }
}

/// The tokens behind an opening square bracket, where it stands first.
pub fn behind_open_square(tokens: &[Token]) -> Option<&[Token]>
    ensures { tail_of result ≡ behind spec.is_open_square tokens.now }
{
    match first_of(tokens) {
        None => None,
        Some(first) => match first.sign {
            Sign::OpenSquare => Some(first.rest),
            _ => None,
        },
    }
}

/// The tokens behind a closing square bracket, where it stands first.
pub fn behind_close_square(tokens: &[Token]) -> Option<&[Token]>
    ensures { tail_of result ≡ behind spec.is_close_square tokens.now }
{
    match first_of(tokens) {
        None => None,
        Some(first) => match first.sign {
            Sign::CloseSquare => Some(first.rest),
            _ => None,
        },
    }
}

/// The tokens behind `=`, where it stands first.
pub fn behind_equals(tokens: &[Token]) -> Option<&[Token]>
    ensures { tail_of result ≡ behind spec.is_equals tokens.now }
{
    match first_of(tokens) {
        None => None,
        Some(first) => match first.sign {
            Sign::Equals => Some(first.rest),
            _ => None,
        },
    }
}

/// The tokens behind `::`, where it stands first.
pub fn behind_typed(tokens: &[Token]) -> Option<&[Token]>
    ensures { tail_of result ≡ behind spec.is_typed tokens.now }
{
    match first_of(tokens) {
        None => None,
        Some(first) => match first.sign {
            Sign::Typed => Some(first.rest),
            _ => None,
        },
    }
}

/// The tokens behind `->`, where it stands first.
pub fn behind_arrow(tokens: &[Token]) -> Option<&[Token]>
    ensures { tail_of result ≡ behind spec.is_arrow tokens.now }
{
    match first_of(tokens) {
        None => None,
        Some(first) => match first.sign {
            Sign::Arrow => Some(first.rest),
            _ => None,
        },
    }
}

/// The tokens behind `<-`, where it stands first.
pub fn behind_back(tokens: &[Token]) -> Option<&[Token]>
    ensures { tail_of result ≡ behind spec.is_back tokens.now }
{
    match first_of(tokens) {
        None => None,
        Some(first) => match first.sign {
            Sign::Back => Some(first.rest),
            _ => None,
        },
    }
}

/// The tokens behind `|`, where it stands first.
pub fn behind_bar(tokens: &[Token]) -> Option<&[Token]>
    ensures { tail_of result ≡ behind spec.is_bar tokens.now }
{
    match first_of(tokens) {
        None => None,
        Some(first) => match first.sign {
            Sign::Bar => Some(first.rest),
            _ => None,
        },
    }
}

/// The tokens behind `..`, where it stands first.
pub fn behind_dots(tokens: &[Token]) -> Option<&[Token]>
    ensures { tail_of result ≡ behind spec.is_dots tokens.now }
{
    match first_of(tokens) {
        None => None,
        Some(first) => match first.sign {
            Sign::Dots => Some(first.rest),
            _ => None,
        },
    }
}

/// The tokens behind `=>`, where it stands first.
pub fn behind_implies(tokens: &[Token]) -> Option<&[Token]>
    ensures { tail_of result ≡ behind spec.is_implies tokens.now }
{
    match first_of(tokens) {
        None => None,
        Some(first) => match first.sign {
            Sign::Implies => Some(first.rest),
            _ => None,
        },
    }
}

/// The tokens behind a backquote, where it stands first.
pub fn behind_backquote(tokens: &[Token]) -> Option<&[Token]>
    ensures { tail_of result ≡ behind spec.is_backquote tokens.now }
{
    match first_of(tokens) {
        None => None,
        Some(first) => match first.sign {
            Sign::Backquote => Some(first.rest),
            _ => None,
        },
    }
}

/// The tokens behind a semicolon, where it stands first.
pub fn behind_semicolon(tokens: &[Token]) -> Option<&[Token]>
    ensures { tail_of result ≡ behind spec.is_semicolon tokens.now }
{
    match first_of(tokens) {
        None => None,
        Some(first) => match first.sign {
            Sign::Semicolon => Some(first.rest),
            _ => None,
        },
    }
}

/// The tokens behind `in`, where it stands first.
pub fn behind_in(tokens: &[Token]) -> Option<&[Token]>
    ensures { tail_of result ≡ behind spec.is_in tokens.now }
{
    match first_of(tokens) {
        None => None,
        Some(first) => match first.sign {
            Sign::In => Some(first.rest),
            _ => None,
        },
    }
}

/// The tokens behind `of`, where it stands first.
pub fn behind_of(tokens: &[Token]) -> Option<&[Token]>
    ensures { tail_of result ≡ behind spec.is_of tokens.now }
{
    match first_of(tokens) {
        None => None,
        Some(first) => match first.sign {
            Sign::Of => Some(first.rest),
            _ => None,
        },
    }
}

/// The tokens behind `then`, where it stands first.
pub fn behind_then(tokens: &[Token]) -> Option<&[Token]>
    ensures { tail_of result ≡ behind spec.is_then tokens.now }
{
    match first_of(tokens) {
        None => None,
        Some(first) => match first.sign {
            Sign::Then => Some(first.rest),
            _ => None,
        },
    }
}

/// The tokens behind `else`, where it stands first.
pub fn behind_else(tokens: &[Token]) -> Option<&[Token]>
    ensures { tail_of result ≡ behind spec.is_else tokens.now }
{
    match first_of(tokens) {
        None => None,
        Some(first) => match first.sign {
            Sign::Else => Some(first.rest),
            _ => None,
        },
    }
}

/// The tokens behind `where`, where it stands first.
pub fn behind_where(tokens: &[Token]) -> Option<&[Token]>
    ensures { tail_of result ≡ behind spec.is_where tokens.now }
{
    match first_of(tokens) {
        None => None,
        Some(first) => match first.sign {
            Sign::Where => Some(first.rest),
            _ => None,
        },
    }
}
