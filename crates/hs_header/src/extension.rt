//! Pragmas for LANGUAGE: which extensions they name, and what these say.
ghost use Rattle.std.specs.Prelude.{◌≡◌, ◌<◌, ◌≤◌, ◌+◌, ◌*◌, ◌^◌, ◌∷◌, [], length, MatchOption, MatchResult, IfSome, Ok, Err, None};
ghost use Rattle.std.specs.Str.{bytes_eq};
ghost use Rattle.source_text.specs.Characters.{characters};
ghost use Rattle.hs_lex.specs.Tokens.{position};
ghost use Rattle.hs_header.specs.Extensions.{words, with_word, with_words, flags_of, IsUnknown};

use crate::header_err::HeaderErr;
use hs_lex::class::{Part, is_in};
use hs_lex::cursor::position;
use hs_lex::run::run;
use hs_syntax::token::Token;
use mk_base::text::Text;
use source_text::character::{next_char, text_between};
use source_text::place::{Place, advance, step};
use std::alloc::Global;

/// What pragmas say: whether Prelude is imported where nothing else is said, and whether the monomorphism restriction
/// holds. None where no pragma says it.
#[derive(Clone, Copy, Debug, PartialEq, Eq)]
pub struct Flags {
    pub prelude: Option<bool>,
    pub restrict: Option<bool>,
}

/// A word of a pragma: the place of its first character, its text, and the place and the bytes behind it.
#[derive(Clone, Copy)]
struct Word<'a> {
    at: Place,
    text: &'a [u8],
    behind: Place,
    rest: &'a [u8],
}

/// The first word from a place on; None where there is none.
fn next_word(place: Place, bytes: &[u8]) -> Option<Word>
    requires line { place.line + length bytes.now + 1 < 2 ^ 32 }
    requires column { place.column + 8 * length bytes.now + 8 < 2 ^ 32 }
    ensures word { MatchOption result (words None place (characters bytes.now) ≡ []) (λ w. words None place (characters bytes.now) ≡ (position w.at, w.text.now) ∷ words None w.behind (characters w.rest.now)) }
    ensures less { IfSome result (λ w. length w.rest.now < length bytes.now) }
    ensures line { IfSome result (λ w. w.behind.line + length w.rest.now ≤ place.line + length bytes.now) }
    ensures column { IfSome result (λ w. w.behind.column + 8 * length w.rest.now ≤ place.column + 8 * length bytes.now) }
{
    let mut at = place;
    let mut rest = bytes;
    while let Some((c, next)) = next_char(rest) {
        if is_in(Part::Name, c) {
            let end = run(Part::Name, rest);
            let text = text_between(rest, end);
            return Some(Word {
                at,
                text,
                behind: advance(at, text),
                rest: end,
            });
        }
        at = step(at, c);
        rest = next;
    }
    None
}

fn is_text(text: &[u8], word: &[u8]) -> bool
    ensures { result ≡ bytes_eq text.now word.now }
{
    text == word
}

/// The flags with what a word says; None where it is no extension that is known.
#[tactic(auto, unfolding(crate::specs::Extensions::with_word))]
fn with_word(flags: Flags, word: &[u8]) -> Option<Flags>
    ensures { result ≡ with_word flags word.now }
{
    if is_text(word, b"ImplicitPrelude") {
        return Some(Flags {
            prelude: Some(true),
            ..flags
        });
    }
    if is_text(word, b"NoImplicitPrelude") {
        return Some(Flags {
            prelude: Some(false),
            ..flags
        });
    }
    if is_text(word, b"MonomorphismRestriction") {
        return Some(Flags {
            restrict: Some(true),
            ..flags
        });
    }
    if is_text(word, b"NoMonomorphismRestriction") {
        return Some(Flags {
            restrict: Some(false),
            ..flags
        });
    }
    if is_text(word, b"Haskell2010") {
        return Some(flags);
    }
    None
}

/// An unknown word.
fn unknown(alloc: Global, place: Place, word: &[u8]) -> HeaderErr
    ensures { IsUnknown (Err (position place, word.now)) result }
{
    match Text::from_slice(alloc, word) {
        Ok(name) => HeaderErr::Extension {
            at: position(place),
            name,
        },
        Err(_) => HeaderErr::NoMemory,
    }
}

/// The flags with what the words from a place on say, or the first one that is unknown.
fn with_words(alloc: Global, flags: Flags, place: Place, bytes: &[u8]) -> Result<Flags, HeaderErr>
    requires line { place.line + length bytes.now + 1 < 2 ^ 32 }
    requires column { place.column + 8 * length bytes.now + 8 < 2 ^ 32 }
    ensures { MatchResult result (λ f. with_words flags (words None place (characters bytes.now)) ≡ Ok f) (λ e. IsUnknown (with_words flags (words None place (characters bytes.now))) e) }
{
    let mut known = flags;
    let mut at = place;
    let mut rest = bytes;
    while let Some(word) = next_word(at, rest) {
        let Some(next) = with_word(known, word.text) else {
            return Err(unknown(alloc, word.at, word.text));
        };
        known = next;
        at = word.behind;
        rest = word.rest;
    }
    Ok(known)
}

/// The flags with what a pragma for LANGUAGE says, or the first extension in it that is unknown. A later extension wins
/// over an earlier one.
pub fn flags_of(alloc: Global, flags: Flags, token: &Token) -> Result<Flags, HeaderErr>
    requires line { token.now.at.line + length token.now.text + 1 < 2 ^ 32 }
    requires column { token.now.at.col + 8 * length token.now.text + 8 < 2 ^ 32 }
    ensures { MatchResult result (λ f. flags_of flags token.now ≡ Ok f) (λ e. IsUnknown (flags_of flags token.now) e) }
{
    let place = Place {
        line: token.at.line,
        column: token.at.col,
        after_return: false,
    };
    match next_word(place, token.text.as_slice()) {
        Some(keyword) => with_words(alloc, flags, keyword.behind, keyword.rest),
        None => Ok(flags),
    }
}
