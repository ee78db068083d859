//! Words and numbers, each up to the byte that ends it.
ghost use Rattle.std.specs.Prelude.{◌≡◌, ◌≤◌, ◌<◌, ◌^◌, ◌++◌, ◌∷◌, [], length, take, slice_index, IfSome, IfNone, IsTrue, false};
ghost use Rattle.std.specs.List.{AllByRecursion};
ghost use Rattle.std.specs.Fmt.{decimal};
ghost use Rattle.session_lang.specs.Front.{Tells};
ghost use Rattle.session_lang.specs.Numbers.{IsDigitByte, value_on};
ghost use Rattle.session_lang.specs.Spelling.{IsWordByte, IsPath};

use crate::front::Front;

/// How many bytes of a word stand at the front.
fn word_len(bytes: &[u8]) -> usize
    ensures within { result ≤ length bytes.now }
    ensures front { AllByRecursion IsWordByte (take result bytes.now) }
    ensures stop { result < length bytes.now → IsWordByte (slice_index bytes.now result) → ⊥ }
{
    for (i, b) in bytes.iter().enumerate() {
        if *b <= 32 || *b >= 127 {
            return i;
        }
    }
    bytes.len()
}

/// A path, up to the byte `stop`.
pub fn path_at(bytes: &[u8], stop: u8) -> Front<'_, &[u8]>
    requires { stop ≤ 32 }
    ensures { Tells IsPath (λ path. path ++ stop ∷ []) (λ path. path.now) bytes.now result }
{
    let count = word_len(bytes);
    if count > 255 {
        return Front::Bad;
    }
    if count == bytes.len() {
        return Front::More;
    }
    if count == 0 || bytes[count] != stop {
        return Front::Bad;
    }
    Front::Whole(&bytes[..count], &bytes[count + 1..])
}

/// How many digits stand at the front.
fn digits_len(bytes: &[u8]) -> usize
    ensures within { result ≤ length bytes.now }
    ensures front { AllByRecursion IsDigitByte (take result bytes.now) }
    ensures stop { result < length bytes.now → IsDigitByte (slice_index bytes.now result) → ⊥ }
{
    for (i, b) in bytes.iter().enumerate() {
        if *b < 48 || *b > 57 {
            return i;
        }
    }
    bytes.len()
}

/// What the digits write, where it is at most `most`.
fn value_within(digits: &[u8], most: u32) -> Option<u32>
    requires digits { AllByRecursion IsDigitByte digits.now }
    requires most { most < 2 ^ 28 }
    ensures found { IfSome result (λ n. (n ≡ value_on 0 digits.now) × (n ≤ most)) }
    ensures none { IfNone result (most < value_on 0 digits.now) }
{
    let mut value: u32 = 0;
    for b in digits {
        value = value * 10 + u32::from(*b - 48);
        if value > most {
            return None;
        }
    }
    Some(value)
}

/// Whether a zero leads other digits.
fn is_padded(digits: &[u8]) -> bool
    ensures yes { IsTrue result → (slice_index digits.now 0 ≡ 48) × (1 < length digits.now) }
    ensures no { result ≡ false → slice_index digits.now 0 ≡ 48 → length digits.now ≤ 1 }
{
    digits.len() > 1 && digits[0] == 48
}

/// A number from `least` to `most` without leading zeros, up to the byte `stop`.
pub fn number_at(bytes: &[u8], least: u32, most: u32, stop: u8) -> Front<'_, u32>
    requires least { least ≤ 1 }
    requires most { (1 ≤ most) × (most < 2 ^ 28) }
    requires stop { stop ≤ 32 }
    ensures { Tells (λ n. (least ≤ n) × (n ≤ most)) (λ n. decimal n ++ stop ∷ []) (λ n. n) bytes.now result }
{
    let count = digits_len(bytes);
    if count == 0 {
        return if bytes.is_empty() {
            Front::More
        } else {
            Front::Bad
        };
    }
    let digits = &bytes[..count];
    if is_padded(digits) {
        return Front::Bad;
    }
    let Some(value) = value_within(digits, most) else {
        return Front::Bad;
    };
    if value < least {
        return Front::Bad;
    }
    if count == bytes.len() {
        return Front::More;
    }
    if bytes[count] != stop {
        return Front::Bad;
    }
    Front::Whole(value, &bytes[count + 1..])
}

/// So many bytes, and a line feed.
pub fn body_at(bytes: &[u8], count: usize) -> Front<'_, &[u8]>
    requires { count < 2 ^ 32 }
    ensures { Tells (λ body. length body ≡ count) (λ body. body ++ 10 ∷ []) (λ body. body.now) bytes.now result }
{
    if bytes.len() <= count {
        return Front::More;
    }
    if bytes[count] != 10 {
        return Front::Bad;
    }
    Front::Whole(&bytes[..count], &bytes[count + 1..])
}

/// This very text.
pub fn text_at<'a>(bytes: &'a [u8], text: &[u8]) -> Front<'a, ()>
    ensures { Tells (λ _. Unit {0}) (λ _. text.now) (λ u. u) bytes.now result }
{
    for (i, b) in text.iter().enumerate() {
        if i == bytes.len() {
            return Front::More;
        }
        if bytes[i] != *b {
            return Front::Bad;
        }
    }
    Front::Whole((), &bytes[text.len()..])
}
