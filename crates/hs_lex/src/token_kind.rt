//! The kinds of lexemes (Haskell 2010 Report, section 2.2).
ghost use Rattle.std.specs.Prelude.{◌≡◌};
ghost use Rattle.source_text.specs.Characters.{characters};
ghost use Rattle.hs_syntax.specs.declared.token.TokenKind.TheVariants as token;
ghost use Rattle.hs_lex.specs.Kinds.{begins_with, last_kind_at, large_kind, kind_of};

use crate::class::{Class, class_of};
use crate::item::Kind;
use crate::words::{is_operator_word, is_word};
use hs_syntax::token::TokenKind;
use source_text::character::next_char;

/// Whether a text begins with the character.
fn begins_with(c: u32, text: &[u8]) -> bool
    ensures { result ≡ begins_with c (characters text.now) }
{
    match next_char(text) {
        Some((d, _)) => d == c,
        None => false,
    }
}

/// The kind of a qualified name whose last part begins the bytes; none where a further qualifier does.
fn last_kind_at(bytes: &[u8]) -> Option<TokenKind>
    ensures { result ≡ last_kind_at (characters bytes.now) }
{
    match next_char(bytes) {
        Some((c, _)) => match class_of(c) {
            Class::Small => Some(TokenKind::QVarId),
            Class::Symbol => {
                if c == 58 {
                    Some(TokenKind::QConSym)
                } else {
                    Some(TokenKind::QVarSym)
                }
            }
            _ => None,
        },
        None => None,
    }
}

/// The kind of a name that begins large.
fn large_kind(text: &[u8]) -> TokenKind
    ensures { result ≡ large_kind token.ConId (characters text.now) }
{
    let mut kind = TokenKind::ConId;
    let mut rest = text;
    while let Some((c, after)) = next_char(rest) {
        if c == 46 {
            if let Some(last) = last_kind_at(after) {
                return last;
            }
            kind = TokenKind::QConId;
        }
        rest = after;
    }
    kind
}

/// The kind of the lexeme that an item with this text is.
pub fn kind_of(kind: Kind, text: &[u8]) -> TokenKind
    ensures { result ≡ kind_of kind (characters text.now) }
{
    match kind {
        Kind::SmallName => {
            if is_word(text) {
                TokenKind::Word
            } else {
                TokenKind::VarId
            }
        }
        Kind::LargeName => large_kind(text),
        Kind::Operator => {
            if is_operator_word(text) {
                return TokenKind::WordOp;
            }
            if begins_with(58, text) {
                TokenKind::ConSym
            } else {
                TokenKind::VarSym
            }
        }
        Kind::Number => TokenKind::Number,
        Kind::Fraction => TokenKind::Fraction,
        Kind::Quoted => TokenKind::Text,
        Kind::Char => TokenKind::Char,
        Kind::Special => TokenKind::Special,
        Kind::NestedComment | Kind::LineComment | Kind::Blank => TokenKind::Pragma,
    }
}
