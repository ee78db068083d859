//! Strings.
ghost use Rattle.std.specs.Prelude.{◌≡◌, ◌↔◌, IsTrue};
ghost use Rattle.source_text.specs.Characters.{characters};
ghost use Rattle.hs_lex.specs.Reading.{Reads};
ghost use Rattle.hs_lex.specs.Quoted.{IsPlain, IsPieceText, IsGapTail, IsPieces, IsText};

use crate::class::{Part, is_character, is_control};
use crate::escape::escape_at;
use crate::run::run;
use crate::sign::begins;
use source_text::character::next_char;

fn is_plain(c: u32) -> bool
    ensures { IsTrue result ↔ IsPlain c }
{
    is_character(c) && !is_control(c) && c != 34 && c != 92
}

/// What follows white space and a backslash.
fn gap_at(bytes: &[u8]) -> Option<&[u8]>
    ensures { Reads (λ l r. IsGapTail l) (characters bytes.now) result }
{
    if !begins(Part::White, bytes) {
        return None;
    }
    let rest = run(Part::White, bytes);
    let Some((c, after)) = next_char(rest) else {
        return None;
    };
    if c != 92 {
        return None;
    }
    Some(after)
}

/// What follows one piece of a string: a character, an escape or a gap.
fn piece_at(bytes: &[u8]) -> Option<&[u8]>
    ensures { Reads IsPieceText (characters bytes.now) result }
{
    let Some((c, after)) = next_char(bytes) else {
        return None;
    };
    if is_plain(c) {
        return Some(after);
    }
    if c != 92 {
        return None;
    }
    if let Some(rest) = escape_at(after) {
        return Some(rest);
    }
    gap_at(after)
}

/// What follows the pieces that stand there.
fn pieces(bytes: &[u8]) -> &[u8]
    ensures { IsPieces (characters bytes.now) (characters result.now) }
{
    let mut rest = bytes;
    while let Some(next) = piece_at(rest) {
        rest = next;
    }
    rest
}

/// What follows a string (Haskell 2010 Report, section 2.6). None where no string stands there.
///
/// A gap may hold any white space, also newlines; outside of gaps no control character stands in a string.
pub fn text_at(bytes: &[u8]) -> Option<&[u8]>
    ensures { Reads (λ l r. IsText l) (characters bytes.now) result }
{
    let Some((c, inside)) = next_char(bytes) else {
        return None;
    };
    if c != 34 {
        return None;
    }
    let rest = pieces(inside);
    let Some((d, after)) = next_char(rest) else {
        return None;
    };
    if d != 34 {
        return None;
    }
    Some(after)
}
