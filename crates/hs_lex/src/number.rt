//! Numbers.
ghost use Rattle.std.specs.Prelude.{◌≡◌, ◌≤◌, length};
ghost use Rattle.source_text.specs.Characters.{characters};
ghost use Rattle.hs_lex.specs.Reading.{IsLongest, Reads};
ghost use Rattle.hs_lex.specs.Numbers.{IsMany, IsDigits, IsFraction, IsExponent, IsDecimalNumber, IsMarked, IsNumber, ReadsForm, digits_of, marks, unsigned, is_sign, is_e};

use crate::class::{Part, is_in};
use crate::run::run;
use source_text::character::next_char;

/// The base of a number's digits.
#[derive(Clone, Copy, Debug, PartialEq, Eq)]
pub enum Base {
    Decimal,
    Octal,
    Hexadecimal,
}

/// Whether a number is an integer, or has a fraction or an exponent.
#[derive(Clone, Copy, Debug, PartialEq, Eq)]
pub enum Form {
    Integer,
    Float,
}

/// The part of the digits of a base.
pub fn digits_of(base: Base) -> Part
    ensures { result ≡ digits_of base }
{
    match base {
        Base::Decimal => Part::Digit,
        Base::Octal => Part::Octal,
        Base::Hexadecimal => Part::Hexadecimal,
    }
}

/// What follows one or more characters of the part, as many as stand there.
fn many_at(part: Part, bytes: &[u8]) -> Option<&[u8]>
    ensures { Reads (λ l r. IsMany part l) (characters bytes.now) result }
{
    let (c, _) = next_char(bytes)?;
    if !is_in(part, c) {
        return None;
    }
    Some(run(part, bytes))
}

/// What follows some digits.
fn digits_at(bytes: &[u8]) -> Option<&[u8]>
    ensures { Reads (λ l r. IsDigits l) (characters bytes.now) result }
{
    many_at(Part::Digit, bytes)
}

/// What follows a fraction, or nothing.
fn fraction_at(bytes: &[u8]) -> &[u8]
    ensures { IsLongest (λ l r. IsFraction l) (characters bytes.now) (characters result.now) }
{
    let Some((c, after)) = next_char(bytes) else {
        return bytes;
    };
    if c != 46 {
        return bytes;
    }
    match digits_at(after) {
        Some(rest) => rest,
        None => bytes,
    }
}

fn is_sign(c: u32) -> bool
    ensures { result ≡ is_sign c }
{
    c == 43 || c == 45
}

fn is_e(c: u32) -> bool
    ensures { result ≡ is_e c }
{
    c == 69 || c == 101
}

/// What follows digits with or without a sign.
fn signed_at(bytes: &[u8]) -> Option<&[u8]>
    ensures { Reads (λ l r. IsDigits (unsigned l)) (characters bytes.now) result }
{
    let (c, after) = next_char(bytes)?;
    if is_sign(c) {
        return digits_at(after);
    }
    digits_at(bytes)
}

/// What follows an exponent, or nothing.
fn exponent_at(start: &[u8]) -> &[u8]
    ensures { IsLongest (λ l r. IsExponent l) (characters start.now) (characters result.now) }
{
    let Some((c, after)) = next_char(start) else {
        return start;
    };
    if !is_e(c) {
        return start;
    }
    match signed_at(after) {
        Some(rest) => rest,
        None => start,
    }
}

/// What follows a number with decimal digits, and its form.
fn decimal_at(bytes: &[u8]) -> Option<(Form, &[u8])>
    ensures { ReadsForm IsDecimalNumber (characters bytes.now) result }
{
    let Some(whole) = digits_at(bytes) else {
        return None;
    };
    let fraction = fraction_at(whole);
    let rest = exponent_at(fraction);
    if rest.len() == whole.len() {
        return Some((Form::Integer, rest));
    }
    Some((Form::Float, rest))
}

fn marks(base: Base, c: u32) -> bool
    ensures { result ≡ marks base c }
{
    match base {
        Base::Decimal => false,
        Base::Octal => c == 111 || c == 79,
        Base::Hexadecimal => c == 120 || c == 88,
    }
}

/// What follows a 0, a letter of the base and digits of it.
fn marked_at(base: Base, bytes: &[u8]) -> Option<&[u8]>
    ensures { Reads (λ l r. IsMarked base l) (characters bytes.now) result }
{
    let Some((zero, after)) = next_char(bytes) else {
        return None;
    };
    if zero != 48 {
        return None;
    }
    let Some((mark, digits)) = next_char(after) else {
        return None;
    };
    if !marks(base, mark) {
        return None;
    }
    many_at(digits_of(base), digits)
}

/// What follows the longest number at the front, and its form (Haskell 2010 Report, section 2.5). None where no
/// number stands there.
///
/// Digits are those of ASCII. `0x` is the number 0 and what follows it, as no digit follows.
pub fn number_at(bytes: &[u8]) -> Option<(Form, &[u8])>
    ensures { ReadsForm IsNumber (characters bytes.now) result }
{
    if let Some(rest) = marked_at(Base::Octal, bytes) {
        return Some((Form::Integer, rest));
    }
    if let Some(rest) = marked_at(Base::Hexadecimal, bytes) {
        return Some((Form::Integer, rest));
    }
    decimal_at(bytes)
}
