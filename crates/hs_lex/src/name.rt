//! Names.
ghost use Rattle.source_text.specs.Characters.{characters};
ghost use Rattle.hs_lex.specs.Reading.{IsLongest, Reads};
ghost use Rattle.hs_lex.specs.Lexemes.{IsName, IsPlain, IsTail, IsAnyTail, IsLargeName};
ghost use Rattle.hs_lex.specs.Behind.{Tells};

use crate::class::{Class, Part, class_of};
use crate::run::run;
use crate::sign::operator_at;
use crate::words::is_reserved;
use source_text::character::{next_char, text_between};

/// What stands behind a dot: the last part of a name, a further qualifier, or neither.
pub enum Behind<'a> {
    Last(&'a [u8]),
    Qualifier(&'a [u8]),
    Nothing,
}

pub fn small_at(bytes: &[u8]) -> Option<&[u8]>
    ensures { Reads (IsName Class.Small) (characters bytes.now) result }
{
    let Some((c, _)) = next_char(bytes) else {
        return None;
    };
    match class_of(c) {
        Class::Small => Some(run(Part::Name, bytes)),
        _ => None,
    }
}

fn large_at(bytes: &[u8]) -> Option<&[u8]>
    ensures { Reads (IsName Class.Large) (characters bytes.now) result }
{
    let Some((c, _)) = next_char(bytes) else {
        return None;
    };
    match class_of(c) {
        Class::Large => Some(run(Part::Name, bytes)),
        _ => None,
    }
}

/// A small name that isn't reserved, or an operator that isn't.
fn plain_at(bytes: &[u8]) -> Option<&[u8]>
    ensures { Reads IsPlain (characters bytes.now) result }
{
    if let Some(rest) = small_at(bytes) {
        if is_reserved(text_between(bytes, rest)) {
            return None;
        }
        return Some(rest);
    }
    if let Some(rest) = operator_at(bytes) {
        if is_reserved(text_between(bytes, rest)) {
            return None;
        }
        return Some(rest);
    }
    None
}

/// What stands at the front behind a dot.
fn behind_dot(bytes: &[u8]) -> Behind<'_>
    ensures { Tells (characters bytes.now) result }
{
    let Some((c, after)) = next_char(bytes) else {
        return Behind::Nothing;
    };
    if c != 46 {
        return Behind::Nothing;
    }
    if let Some(rest) = large_at(after) {
        return Behind::Qualifier(rest);
    }
    match plain_at(after) {
        Some(rest) => Behind::Last(rest),
        None => Behind::Nothing,
    }
}

/// What follows the qualifiers and the last part that stand behind a conid.
fn tail_at(bytes: &[u8]) -> &[u8]
    ensures { IsLongest IsAnyTail (characters bytes.now) (characters result.now) }
{
    let mut end = bytes;
    loop {
        match behind_dot(end) {
            Behind::Qualifier(rest) => end = rest,
            Behind::Last(rest) => return rest,
            Behind::Nothing => return end,
        }
    }
}

/// What follows a name that begins large, qualified or not.
pub fn large_name_at(bytes: &[u8]) -> Option<&[u8]>
    ensures { Reads IsLargeName (characters bytes.now) result }
{
    let Some(end) = large_at(bytes) else {
        return None;
    };
    Some(tail_at(end))
}
