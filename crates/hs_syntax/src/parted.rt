//! Names as they stand in a tree: parted into qualifier and name (Haskell 2010 Report, section 2.4).
ghost use Rattle.std.specs.Prelude.{◌≡◌, ◌<◌, ◌≤◌, ◌-◌, ◌∷◌, ◌++◌, [], nat_eq, length, take, position, IfOk, IfSome, MatchOption};
ghost use Rattle.hs_syntax.specs.Names as spec;

use crate::name_ref::NameRef;
use crate::token::Token;
use mk_base::char_class::{CharClass, class_of};
use mk_base::memory::NoMemory;
use mk_base::text::Text;
use source_text::character::next_char;
use std::alloc::Global;

fn in_large(class: CharClass) -> bool
    ensures { result ≡ spec.in_large class }
{
    match class {
        CharClass::Large => true,
        _ => false,
    }
}

/// Whether a code is that of a large character.
#[tactic(auto, unfolding(crate::specs::Names::is_large))]
fn is_large(c: u32) -> bool
    ensures { result ≡ spec.is_large c }
{
    match char::from_u32(c) {
        Some(character) => in_large(class_of(character)),
        None => false,
    }
}

/// Whether some bytes begin with a large character.
fn begins_large(bytes: &[u8]) -> bool
    ensures { result ≡ spec.begins_large bytes.now }
{
    match next_char(bytes) {
        Some((c, _)) => is_large(c),
        None => false,
    }
}

/// How many bytes stand before the first dot; None where there is no dot.
fn dot_at(bytes: &[u8]) -> Option<usize>
    ensures { result ≡ position (λ b. nat_eq b 46) bytes.now }
{
    bytes.iter().position(|b| *b == b'.')
}

/// The piece before the first dot, and what stands behind that dot; None where there is no dot.
fn piece_at(bytes: &[u8]) -> Option<(&[u8], &[u8])>
    ensures pieces { MatchOption result (spec.between_dots bytes.now ≡ bytes.now ∷ []) (λ p. (spec.between_dots bytes.now ≡ p.0.now ∷ spec.between_dots p.1.now) × (bytes.now ≡ p.0.now ++ 46 ∷ p.1.now)) }
    ensures less { IfSome result (λ p. length p.1.now < length bytes.now) }
{
    match dot_at(bytes) {
        Some(size) => Some((&bytes[..size], &bytes[size + 1..])),
        None => None,
    }
}

/// What stands behind the qualifier and its dot.
fn behind_qualifier(text: &[u8]) -> &[u8]
    ensures less { length result.now ≤ length text.now }
    ensures name { result.now ≡ spec.dotted (spec.name_of (spec.between_dots text.now)) }
    ensures qualifier { take (length text.now - length result.now - 1) text.now ≡ spec.dotted (spec.qualifier_of (spec.between_dots text.now)) }
{
    let mut rest = text;
    while let Some((piece, next)) = piece_at(rest) {
        if !begins_large(piece) {
            return rest;
        }
        rest = next;
    }
    rest
}

/// The name that a token writes, parted from its qualifier.
pub fn name_ref(alloc: Global, token: &Token) -> Result<NameRef, NoMemory>
    ensures { IfOk result (λ n. n ≡ spec.name_ref token.now) }
{
    let bytes = token.text.as_slice();
    let name = behind_qualifier(bytes);
    let end = (bytes.len() - name.len()).saturating_sub(1);
    let qualifier = Text::from_slice(alloc, &bytes[..end])?;
    let text = Text::from_slice(alloc, name)?;
    Ok(NameRef {
        qualifier,
        text,
        at: token.at,
        to: None,
    })
}

/// The module's name that a token writes, with all its dots and no qualifier.
pub fn module_ref(alloc: Global, token: &Token) -> Result<NameRef, NoMemory>
    ensures { IfOk result (λ n. n ≡ spec.module_ref token.now) }
{
    let text = token.text.copy(alloc)?;
    Ok(NameRef {
        qualifier: Text::new(alloc),
        text,
        at: token.at,
        to: None,
    })
}
