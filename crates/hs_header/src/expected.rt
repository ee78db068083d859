//! Single tokens that the grammar asks for.
ghost use Rattle.std.specs.Prelude.{◌≡◌, ◌&&◌};
ghost use Rattle.mk_base.specs.Texts.{same_text};
ghost use Rattle.hs_header.specs.Grammar as grammar;
ghost use Rattle.hs_header.specs.Readers.{token_seen};
ghost use Rattle.hs_header.specs.Readers as spec;

use hs_syntax::sign::{Sign, first_of};
use hs_syntax::token::Token;
use mk_base::memory::NoMemory;
use mk_base::place::Pos;

/// Why a reading stops.
#[derive(Clone, Copy, Debug, PartialEq, Eq)]
pub enum Stop {
    /// The tokens up to one at this place begin a header, and with it none.
    At(Pos),
    /// The tokens end before a header is whole.
    End,
}

/// What is read where tokens begin, with the tokens behind it; or where the reading stops.
pub type Found<'a, T> = Result<Result<(T, &'a [Token]), Stop>, NoMemory>;

/// A token that has to stand at a place.
#[derive(Clone, Copy)]
pub enum Wanted {
    OpenParen,
    CloseParen,
    Where,
    /// The name of a module, or a type or class that may be qualified.
    ModId,
    /// An operator of a variable.
    VarSym,
    /// An operator of a variable that may be qualified.
    QualifiedVarSym,
    /// An operator of a variable or a constructor.
    Symbol,
}

fn is_open_paren(sign: Sign) -> bool
    ensures { result ≡ spec.is_open_paren sign }
{
    match sign {
        Sign::OpenParen => true,
        _ => false,
    }
}

fn is_close_paren(sign: Sign) -> bool
    ensures { result ≡ spec.is_close_paren sign }
{
    match sign {
        Sign::CloseParen => true,
        _ => false,
    }
}

fn is_where(sign: Sign) -> bool
    ensures { result ≡ spec.is_where sign }
{
    match sign {
        Sign::Where => true,
        _ => false,
    }
}

fn is_qconid(sign: Sign) -> bool
    ensures { result ≡ grammar.is_qconid sign }
{
    match sign {
        Sign::Con => true,
        Sign::QualifiedCon => true,
        _ => false,
    }
}

fn is_varsym(sign: Sign) -> bool
    ensures { result ≡ grammar.is_varsym sign }
{
    match sign {
        Sign::Minus => true,
        Sign::Bang => true,
        Sign::Star => true,
        Sign::VarSym => true,
        _ => false,
    }
}

fn is_qvarsym(sign: Sign) -> bool
    ensures { result ≡ grammar.is_qvarsym sign }
{
    match sign {
        Sign::QualifiedVarSym => true,
        _ => is_varsym(sign),
    }
}

fn is_symbol(sign: Sign) -> bool
    ensures { result ≡ spec.is_symbol sign }
{
    match sign {
        Sign::ConSym => true,
        _ => is_varsym(sign),
    }
}

/// Whether a sign is one that has to stand there.
fn fits(wanted: Wanted, sign: Sign) -> bool
    ensures { result ≡ spec.fits wanted sign }
{
    match wanted {
        Wanted::OpenParen => is_open_paren(sign),
        Wanted::CloseParen => is_close_paren(sign),
        Wanted::Where => is_where(sign),
        Wanted::ModId => is_qconid(sign),
        Wanted::VarSym => is_varsym(sign),
        Wanted::QualifiedVarSym => is_qvarsym(sign),
        Wanted::Symbol => is_symbol(sign),
    }
}

/// The first token, where it is one that has to stand there, and the tokens behind it.
pub fn expected(wanted: Wanted, tokens: &[Token]) -> Result<(&Token, &[Token]), Stop>
    ensures { token_seen result ≡ spec.expected wanted tokens.now }
{
    match first_of(tokens) {
        None => Err(Stop::End),
        Some(first) => {
            if fits(wanted, first.sign) {
                Ok((first.token, first.rest))
            } else {
                Err(Stop::At(first.token.at))
            }
        }
    }
}

/// An operator with a closing parenthesis behind it, and the tokens behind that.
pub fn enclosed(wanted: Wanted, tokens: &[Token]) -> Result<(&Token, &[Token]), Stop>
    ensures { token_seen result ≡ spec.enclosed wanted tokens.now }
{
    match expected(wanted, tokens) {
        Err(stop) => Err(stop),
        Ok((token, rest)) => match expected(Wanted::CloseParen, rest) {
            Err(stop) => Err(stop),
            Ok((_, behind)) => Ok((token, behind)),
        },
    }
}

/// Whether a token is this variable.
pub fn is_word(sign: Sign, text: &[u8], word: &[u8]) -> bool
    ensures { result ≡ (grammar.is_var sign && same_text text.now word.now) }
{
    match sign {
        Sign::Var => text == word,
        _ => false,
    }
}
