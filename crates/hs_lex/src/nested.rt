//! Nested comments.
ghost use Rattle.std.specs.Prelude.{◌≡◌, ◌<◌, ◌≤◌, true, length};
ghost use Rattle.source_text.specs.Characters.{characters};
ghost use Rattle.hs_lex.specs.Reading.{Reads};
ghost use Rattle.hs_lex.specs.Lexemes.{closes, IsNestedComment};
ghost use Rattle.hs_lex.specs.Signs.{Tells, IsShorter};

use crate::class::is_inside;
use source_text::character::next_char;

/// What stands at the front of the inside of a comment.
pub enum Sign<'a> {
    Opens(&'a [u8]),
    Closes(&'a [u8]),
    Other(&'a [u8]),
    Nothing,
}

/// The sign at the front: a pair that opens or closes a comment, or any other that may stand there and isn't the last.
fn sign_at(bytes: &[u8]) -> Sign<'_>
    ensures tells { Tells (characters bytes.now) result }
    ensures less { IsShorter (length bytes.now) result }
{
    let Some((c, next)) = next_char(bytes) else {
        return Sign::Nothing;
    };
    let Some((d, after)) = next_char(next) else {
        return Sign::Nothing;
    };
    if c == 123 && d == 45 {
        return Sign::Opens(after);
    }
    if c == 45 && d == 125 {
        return Sign::Closes(after);
    }
    if !is_inside(c) {
        return Sign::Nothing;
    }
    Sign::Other(next)
}

/// What follows the end of a comment, inside of which the bytes begin.
fn closing_at(bytes: &[u8]) -> Option<&[u8]>
    ensures { Reads (λ l r. closes 1 l ≡ true) (characters bytes.now) result }
{
    let mut depth: usize = 1;
    let mut rest = bytes;
    loop {
        match sign_at(rest) {
            Sign::Opens(after) => {
                depth += 1;
                rest = after;
            }
            Sign::Closes(after) => {
                if depth == 1 {
                    return Some(after);
                }
                depth -= 1;
                rest = after;
            }
            Sign::Other(after) => rest = after,
            Sign::Nothing => return None,
        }
    }
}

/// What follows a nested comment.
pub fn nested_comment_at(bytes: &[u8]) -> Option<&[u8]>
    ensures { Reads (λ l r. IsNestedComment l) (characters bytes.now) result }
{
    match sign_at(bytes) {
        Sign::Opens(inside) => closing_at(inside),
        Sign::Closes(_) => None,
        Sign::Other(_) => None,
        Sign::Nothing => None,
    }
}
