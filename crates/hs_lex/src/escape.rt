//! Escapes in characters and strings.
ghost use Rattle.std.specs.Prelude.{◌≡◌, ◌≤◌, ◌+◌, ◌∷◌, List, ℕ, min, true, MatchOption};
ghost use Rattle.source_text.specs.Characters.{characters};
ghost use Rattle.hs_lex.specs.Reading.{Reads};
ghost use Rattle.hs_lex.specs.Quoted.{HasValue, IsNumeral, IsControl, IsAscii, IsEscape, digit_value, times, is_char_escape, one_of_two, one_of_three, pairs, triples};

use crate::class::{Part, is_in};
use crate::number::{Base, digits_of};
use crate::sign::begins;
use source_text::character::next_char;

/// The value of the last character there is.
const LIMIT: u32 = 0x10_ffff;

fn digit_value(c: u32) -> u32
    ensures is { result ≡ digit_value c }
    ensures small { result ≤ 15 }
{
    match c {
        48..=57 => c - 48,
        65..=70 => c - 55,
        97..=102 => c - 87,
        _ => 0,
    }
}

/// The value with the digit `c` behind it, or one past the limit.
fn with_digit(base: Base, value: u32, c: u32) -> u32
    requires { value ≤ 0x110000 }
    ensures { result ≡ min 0x110000 (times base value + digit_value c) }
{
    let shifted = match base {
        Base::Decimal => value * 10,
        Base::Octal => value * 8,
        Base::Hexadecimal => value * 16,
    };
    let next = shifted + digit_value(c);
    if next > LIMIT {
        return LIMIT + 1;
    }
    next
}

/// The value of the digits that stand there, or one past the limit, and what follows them.
fn value_at(base: Base, bytes: &[u8]) -> (u32, &[u8])
    ensures { HasValue base (characters bytes.now) (characters result.1.now) result.0 }
{
    let part = digits_of(base);
    let mut value = 0;
    let mut rest = bytes;
    while let Some((c, next)) = next_char(rest) {
        if !is_in(part, c) {
            return (value, rest);
        }
        value = with_digit(base, value, c);
        rest = next;
    }
    (value, rest)
}

/// What follows the digits of a numeric escape; None where its value is over the limit.
fn numeral_at(base: Base, bytes: &[u8]) -> Option<&[u8]>
    ensures { Reads (IsNumeral base) (characters bytes.now) result }
{
    if !begins(digits_of(base), bytes) {
        return None;
    }
    let (value, rest) = value_at(base, bytes);
    if value > LIMIT {
        return None;
    }
    Some(rest)
}

fn is_char_escape(c: u32) -> bool
    ensures { result ≡ is_char_escape c }
{
    match c {
        97 | 98 | 102 | 110 | 114 | 116 | 118 | 92 | 34 | 39 | 38 => true,
        _ => false,
    }
}

/// What follows the second character of a control escape.
fn control_at(bytes: &[u8]) -> Option<&[u8]>
    ensures { Reads (λ l r. IsControl l) (characters bytes.now) result }
{
    let Some((c, after)) = next_char(bytes) else {
        return None;
    };
    if c < 64 || c > 95 {
        return None;
    }
    Some(after)
}

/// Whether the two characters are a name: BS HT LF VT FF CR SO SI EM FS GS RS US SP.
fn is_pair(a: u32, b: u32) -> bool
    ensures { result ≡ one_of_two pairs a b }
{
    match (a, b) {
        (66, 83)
        | (72, 84)
        | (76, 70)
        | (86, 84)
        | (70, 70)
        | (67, 82)
        | (83, 79)
        | (83, 73)
        | (69, 77)
        | (70, 83)
        | (71, 83)
        | (82, 83)
        | (85, 83)
        | (83, 80) => true,
        _ => false,
    }
}

/// Whether the three characters are a name: NUL SOH STX ETX EOT ENQ ACK BEL DLE DC1 DC2 DC3 DC4 NAK SYN ETB CAN SUB
/// ESC DEL.
fn is_triple(a: u32, b: u32, c: u32) -> bool
    ensures { result ≡ one_of_three triples a b c }
{
    match (a, b, c) {
        (78, 85, 76)
        | (83, 79, 72)
        | (83, 84, 88)
        | (69, 84, 88)
        | (69, 79, 84)
        | (69, 78, 81)
        | (65, 67, 75)
        | (66, 69, 76)
        | (68, 76, 69)
        | (68, 67, 49)
        | (68, 67, 50)
        | (68, 67, 51)
        | (68, 67, 52)
        | (78, 65, 75)
        | (83, 89, 78)
        | (69, 84, 66)
        | (67, 65, 78)
        | (83, 85, 66)
        | (69, 83, 67)
        | (68, 69, 76) => true,
        _ => false,
    }
}

/// What follows the third character of a name, the first two of which are given.
fn third_at(a: u32, b: u32, bytes: &[u8]) -> Option<&[u8]>
    ensures { MatchOption result ((c : ℕ) (rest : List ℕ) → characters bytes.now ≡ c ∷ rest → one_of_three triples a b c ≡ true → ⊥) (λ p. (c : ℕ) × (characters bytes.now ≡ c ∷ characters p.now) × (one_of_three triples a b c ≡ true)) }
{
    let Some((c, after)) = next_char(bytes) else {
        return None;
    };
    if !is_triple(a, b, c) {
        return None;
    }
    Some(after)
}

/// What follows the name of a character; of SO and SOH the longer one is read.
fn ascii_at(bytes: &[u8]) -> Option<&[u8]>
    ensures { Reads IsAscii (characters bytes.now) result }
{
    let Some((a, behind_first)) = next_char(bytes) else {
        return None;
    };
    let Some((b, behind_second)) = next_char(behind_first) else {
        return None;
    };
    if let Some(rest) = third_at(a, b, behind_second) {
        return Some(rest);
    }
    if !is_pair(a, b) {
        return None;
    }
    Some(behind_second)
}

/// What follows an escape, behind whose backslash the bytes begin (Haskell 2010 Report, section 2.6). None where none
/// stands there, or only a numeric one over 10FFFF (hexadecimal).
pub fn escape_at(bytes: &[u8]) -> Option<&[u8]>
    ensures { Reads IsEscape (characters bytes.now) result }
{
    let Some((c, after)) = next_char(bytes) else {
        return None;
    };
    if is_char_escape(c) {
        return Some(after);
    }
    if c == 94 {
        return control_at(after);
    }
    if c == 111 {
        return numeral_at(Base::Octal, after);
    }
    if c == 120 {
        return numeral_at(Base::Hexadecimal, after);
    }
    if is_in(Part::Digit, c) {
        return numeral_at(Base::Decimal, bytes);
    }
    ascii_at(bytes)
}
