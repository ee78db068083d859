//! Pragmas for LANGUAGE and SOURCE.
ghost use Rattle.std.specs.Prelude.{◌≡◌, ◌↔◌, ◌∷◌, ◌++◌, [], IsTrue, List, ℕ, MatchOption, codes};
ghost use Rattle.std.specs.Str.{bytes_eq};
ghost use Rattle.source_text.specs.Characters.{characters};
ghost use Rattle.hs_lex.specs.Pragmas.{IsIdentifier, IsLanguage, IsNames, IsSource};
ghost use Rattle.hs_lex.specs.Reading.{Ends, Runs};
ghost use Rattle.hs_lex.specs.Tokens.{IsPragma};

use crate::class::{Class, Part, class_of};
use crate::cursor::Stage;
use crate::run::run;
use crate::sign::begins;
use source_text::character::{next_char, text_between};

/// What follows a character that stands at the front.
fn after(c: u32, bytes: &[u8]) -> Option<&[u8]>
    ensures { MatchOption result ((m : List ℕ) → characters bytes.now ≡ c ∷ m → ⊥) (λ r. characters bytes.now ≡ c ∷ characters r.now) }
{
    match next_char(bytes) {
        Some((d, rest)) => { if d == c { Some(rest) } else { None } }
        None => None,
    }
}

/// What follows the opening of a pragma.
fn opening_at(bytes: &[u8]) -> Option<&[u8]>
    ensures { MatchOption result ((m : List ℕ) → characters bytes.now ≡ 123 ∷ 45 ∷ 35 ∷ m → ⊥) (λ r. characters bytes.now ≡ 123 ∷ 45 ∷ 35 ∷ characters r.now) }
{
    match after(123, bytes) {
        Some(dash) => match after(45, dash) {
            Some(sign) => match after(35, sign) {
                Some(rest) => Some(rest),
                None => None,
            },
            None => None,
        },
        None => None,
    }
}

/// Whether some bytes are the end of a pragma and no more.
fn closes(bytes: &[u8]) -> bool
    ensures { result ≡ bytes_eq (characters bytes.now) (codes "#-}") }
{
    bytes == b"#-}".as_slice()
}

/// What follows an identifier.
fn identifier_at(bytes: &[u8]) -> Option<&[u8]>
    ensures { MatchOption result ((n m : List ℕ) → IsIdentifier n → characters bytes.now ≡ n ++ m → ⊥) (λ r. (n : List ℕ) × IsIdentifier n × (characters bytes.now ≡ n ++ characters r.now) × Ends Part.Name (characters r.now)) }
{
    let Some((c, _)) = next_char(bytes) else {
        return None;
    };
    match class_of(c) {
        Class::Small => Some(run(Part::Name, bytes)),
        Class::Large => Some(run(Part::Name, bytes)),
        _ => None,
    }
}

/// Whether some bytes are identifiers, separated by commas, and the end of a pragma.
fn is_names(bytes: &[u8]) -> bool
    ensures { IsTrue result ↔ IsNames (characters bytes.now) }
{
    let mut rest = bytes;
    loop {
        let Some(behind) = identifier_at(rest) else {
            return false;
        };
        let end = run(Part::White, behind);
        match after(44, end) {
            Some(next) => rest = run(Part::White, next),
            None => return closes(end),
        }
    }
}

/// Whether the text of a comment is a pragma for LANGUAGE.
fn is_language(text: &[u8]) -> bool
    ensures { IsTrue result ↔ IsLanguage (characters text.now) }
{
    let Some(inside) = opening_at(text) else {
        return false;
    };
    let word = run(Part::White, inside);
    let gap = run(Part::Name, word);
    if !text_between(word, gap).eq_ignore_ascii_case(b"language") {
        return false;
    }
    if !begins(Part::White, gap) {
        return false;
    }
    is_names(run(Part::White, gap))
}

/// Whether the text of a comment is a pragma for SOURCE.
fn is_source(text: &[u8]) -> bool
    ensures { IsTrue result ↔ IsSource (characters text.now) }
{
    let Some(inside) = opening_at(text) else {
        return false;
    };
    let word = run(Part::White, inside);
    let behind = run(Part::Name, word);
    if !text_between(word, behind).eq_ignore_ascii_case(b"source") {
        return false;
    }
    closes(run(Part::White, behind))
}

/// Whether the text of a comment is a pragma that counts at the stage.
pub fn is_pragma(stage: Stage, text: &[u8]) -> bool
    ensures { IsTrue result ↔ IsPragma stage (characters text.now) }
{
    match stage {
        Stage::Front => is_language(text),
        Stage::Import => is_source(text),
        Stage::Later => false,
    }
}
