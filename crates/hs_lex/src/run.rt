//! The longest run of a part.
ghost use Rattle.std.specs.Prelude.{◌≡◌, ◌≤◌, length};
ghost use Rattle.source_text.specs.Characters.{characters};
ghost use Rattle.hs_lex.specs.Reading.{Runs};

use crate::class::{Part, is_in};
use source_text::character::next_char;

/// What follows the longest run of `part`.
pub fn run(part: Part, bytes: &[u8]) -> &[u8]
    ensures runs { Runs part (characters bytes.now) (characters result.now) }
    ensures less { length result.now ≤ length bytes.now }
{
    let mut rest = bytes;
    while let Some((c, next)) = next_char(rest) {
        if !is_in(part, c) {
            return rest;
        }
        rest = next;
    }
    rest
}
