//! Characters in quotes.
ghost use Rattle.std.specs.Prelude.{◌≡◌, ◌↔◌, ◌≢◌, IsTrue, List, ℕ, ◌∷◌, false};
ghost use Rattle.source_text.specs.Characters.{characters};
ghost use Rattle.hs_lex.specs.Reading.{Reads};
ghost use Rattle.hs_lex.specs.Quoted.{IsGraphic, IsInside, IsChar, is_graphic, Differs};

use crate::class::{Class, class_of};
use crate::escape::escape_at;
use source_text::character::next_char;

fn is_graphic_class(class: Class) -> bool
    ensures { result ≡ is_graphic class }
{
    match class {
        Class::White => false,
        Class::Other => false,
        _ => true,
    }
}

fn is_graphic(c: u32) -> bool
    ensures { IsTrue result ↔ IsGraphic c }
{
    (is_graphic_class(class_of(c)) || c == 32) && c != 39 && c != 92
}

/// Whether the character stands at the front.
fn begins_with(d: u32, bytes: &[u8]) -> bool
    ensures no { result ≡ false → Differs d (characters bytes.now) }
    ensures yes { IsTrue result → Differs d (characters bytes.now) → ⊥ }
{
    match next_char(bytes) {
        Some((c, _)) => c == d,
        None => false,
    }
}

/// What follows what stands between the quotes: a character, or an escape other than `\&`.
fn inside_at(bytes: &[u8]) -> Option<&[u8]>
    ensures { Reads IsInside (characters bytes.now) result }
{
    let Some((c, after)) = next_char(bytes) else {
        return None;
    };
    if is_graphic(c) {
        return Some(after);
    }
    if c != 92 {
        return None;
    }
    if begins_with(38, after) {
        return None;
    }
    escape_at(after)
}

/// What follows a character in quotes (Haskell 2010 Report, section 2.6). None where none stands there.
pub fn char_at(bytes: &[u8]) -> Option<&[u8]>
    ensures { Reads (λ l r. IsChar l) (characters bytes.now) result }
{
    let Some((c, inside)) = next_char(bytes) else {
        return None;
    };
    if c != 39 {
        return None;
    }
    let Some(rest) = inside_at(inside) else {
        return None;
    };
    let Some((d, after)) = next_char(rest) else {
        return None;
    };
    if d != 39 {
        return None;
    }
    Some(after)
}
