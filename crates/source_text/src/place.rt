//! Lines and columns.
ghost use Rattle.std.specs.Prelude.{◌≡◌, ◌+◌, ◌*◌, ◌<◌, ◌≤◌, ◌^◌, ◌++◌, List, ℕ, length};
ghost use Rattle.source_text.specs.Characters.{characters};
ghost use Rattle.source_text.specs.Places.{step, after};
ghost use Rattle.source_text.specs.declared.place.Place.{Place};

use crate::character::next_char;

/// A line and a column, both from 1, and whether a carriage return stands before it.
#[derive(Clone, Copy, Debug, PartialEq, Eq)]
pub struct Place {
    pub line: u32,
    pub column: u32,
    pub after_return: bool,
}

/// The place behind one character.
pub fn step(place: Place, c: u32) -> Place
    requires line { place.line + 1 < 2 ^ 32 }
    requires column { place.column + 8 < 2 ^ 32 }
    ensures is { result ≡ step place c }
    ensures line { result.line ≤ place.line + 1 }
    ensures column { result.column ≤ place.column + 8 }
{
    if c == 10 && place.after_return {
        return Place {
            after_return: false,
            ..place
        };
    }
    if c == 10 || (c == 12 || c == 13) {
        return Place {
            line: place.line + 1,
            column: 1,
            after_return: c == 13,
        };
    }
    if c == 9 {
        return Place {
            column: (place.column + 7) / 8 * 8 + 1,
            after_return: false,
            ..place
        };
    }
    Place {
        column: place.column + 1,
        after_return: false,
        ..place
    }
}

/// The place behind a text.
pub fn advance(place: Place, text: &[u8]) -> Place
    requires line { place.line + length text.now + 1 < 2 ^ 32 }
    requires column { place.column + 8 * length text.now + 8 < 2 ^ 32 }
    ensures is { result ≡ after place (characters text.now) }
    ensures line { result.line ≤ place.line + length text.now }
    ensures column { result.column ≤ place.column + 8 * length text.now }
{
    let mut at = place;
    let mut rest = text;
    while let Some((c, next)) = next_char(rest) {
        at = step(at, c);
        rest = next;
    }
    at
}

/// A text may be cut anywhere, also between a carriage return and a line feed.
pub fn places_go_on()
    ensures { (place : Place) (l m : List ℕ) → after place (l ++ m) ≡ after (after place l) m }
{}
