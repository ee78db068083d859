//! How far the tokens of a header go, by the signs alone.
ghost use Rattle.std.specs.Prelude.{◌≡◌};
ghost use Rattle.hs_header.specs.Stages as spec;

use hs_syntax::sign::{Sign, sign_of};
use hs_syntax::token::Token;

/// Where a token stands, as far as signs tell.
#[derive(Clone, Copy, Debug, PartialEq, Eq)]
pub enum Stage {
    /// Before the block's opening brace.
    Line,
    /// Behind that brace or a semicolon.
    Part,
    /// In an import.
    Import,
    /// Behind the first token that follows the imports.
    Over,
}

/// Before the opening brace.
fn in_line(sign: Sign) -> Stage
    ensures { result ≡ spec.in_line sign }
{
    match sign {
        Sign::OpenBrace(_) => Stage::Part,
        _ => Stage::Line,
    }
}

/// Behind that brace or a semicolon.
fn at_part(sign: Sign) -> Stage
    ensures { result ≡ spec.at_part sign }
{
    match sign {
        Sign::Import => Stage::Import,
        Sign::Semicolon => Stage::Part,
        _ => Stage::Over,
    }
}

/// In an import.
fn in_import(sign: Sign) -> Stage
    ensures { result ≡ spec.in_import sign }
{
    match sign {
        Sign::Semicolon => Stage::Part,
        Sign::CloseBrace(_) => Stage::Over,
        _ => Stage::Import,
    }
}

/// The stage behind a token.
fn over(stage: Stage, token: &Token) -> Stage
    ensures { result ≡ spec.over stage token.now }
{
    match stage {
        Stage::Line => in_line(sign_of(token)),
        Stage::Part => at_part(sign_of(token)),
        Stage::Import => in_import(sign_of(token)),
        Stage::Over => Stage::Over,
    }
}

/// The stage behind some tokens.
pub fn behind(stage: Stage, tokens: &[Token]) -> Stage
    ensures { result ≡ spec.behind stage tokens.now }
{
    let mut here = stage;
    for token in tokens {
        here = over(here, token);
    }
    here
}

/// Whether what follows the header is decided.
pub fn is_over(stage: Stage) -> bool
    ensures { result ≡ spec.is_over stage }
{
    match stage {
        Stage::Over => true,
        _ => false,
    }
}
