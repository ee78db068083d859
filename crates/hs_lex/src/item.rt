//! What a source is made of.
ghost use Rattle.std.specs.Prelude.{◌≡◌, List, ℕ, MatchOption};
ghost use Rattle.source_text.specs.Characters.{characters};
ghost use Rattle.hs_lex.specs.Items.{IsItem, NoItem, is_lexeme, number_kind};

use crate::char_literal::char_at;
use crate::class::{Class, class_of};
use crate::name::{large_name_at, small_at};
use crate::nested::nested_comment_at;
use crate::number::{Form, number_at};
use crate::quoted::text_at;
use crate::sign::{line_comment_at, operator_at, special_at};
use source_text::character::next_char;

/// The kinds of items: white space of one character, comments, and lexemes.
#[derive(Clone, Copy, Debug, PartialEq, Eq)]
pub enum Kind {
    Blank,
    LineComment,
    NestedComment,
    SmallName,
    LargeName,
    Operator,
    Number,
    Fraction,
    Quoted,
    Char,
    Special,
}

/// Whether an item of the kind is a lexeme wherever it stands.
pub fn is_lexeme(kind: Kind) -> bool
    ensures { result ≡ is_lexeme kind }
{
    match kind {
        Kind::Blank | Kind::LineComment | Kind::NestedComment => false,
        _ => true,
    }
}

fn number_kind(form: Form) -> Kind
    ensures { result ≡ number_kind form }
{
    match form {
        Form::Integer => Kind::Number,
        Form::Float => Kind::Fraction,
    }
}

/// What stands at the front: white space, a comment or a lexeme, and what follows it.
pub fn item_at(bytes: &[u8]) -> Option<(Kind, &[u8])>
    ensures { MatchOption result (NoItem (characters bytes.now)) (λ p. (text : List ℕ) × IsItem p.0 text (characters bytes.now) (characters p.1.now)) }
{
    let Some((c, after)) = next_char(bytes) else {
        return None;
    };
    match class_of(c) {
        Class::White => Some((Kind::Blank, after)),
        Class::Small => match small_at(bytes) {
            Some(rest) => Some((Kind::SmallName, rest)),
            None => None,
        },
        Class::Large => match large_name_at(bytes) {
            Some(rest) => Some((Kind::LargeName, rest)),
            None => None,
        },
        Class::Digit => match number_at(bytes) {
            Some((form, rest)) => Some((number_kind(form), rest)),
            None => None,
        },
        Class::Symbol => {
            if let Some(rest) = line_comment_at(bytes) {
                return Some((Kind::LineComment, rest));
            }
            match operator_at(bytes) {
                Some(rest) => Some((Kind::Operator, rest)),
                None => None,
            }
        }
        Class::Special => {
            if let Some(rest) = nested_comment_at(bytes) {
                return Some((Kind::NestedComment, rest));
            }
            match special_at(bytes) {
                Some(rest) => Some((Kind::Special, rest)),
                None => None,
            }
        }
        Class::Quote => match text_at(bytes) {
            Some(rest) => Some((Kind::Quoted, rest)),
            None => None,
        },
        Class::Tick => match char_at(bytes) {
            Some(rest) => Some((Kind::Char, rest)),
            None => None,
        },
        Class::Other => None,
    }
}
