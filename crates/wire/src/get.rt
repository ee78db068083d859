//! Reading numbers and texts.
ghost use Rattle.std.specs.Prelude.{◌≡◌, ◌<◌, ◌≤◌, ◌^◌, IfSome, IfNone, ℕ, List, length};
ghost use Rattle.std.specs.Str.{is_utf8};
ghost use Rattle.wire.specs.Reading as reading;
ghost use Rattle.wire.specs.Reading.{Finds, joined, num_from_at, num_at, bytes_at, text_at};
ghost use Rattle.wire.specs.Wire as spelling;
ghost use Rattle.wire.specs.Wire.{IsNum, IsText, Stands, TextStands};

use std::str;

/// The number that begins at a place (unsigned LEB128, in the fewest bytes, below 2^32), and the place behind it.
/// None exactly where no such number begins there. Places count bytes from 0.
pub fn get_num(bytes: &[u8], at: usize) -> Option<(u64, usize)>
    ensures found { IfSome result (λ x. IsNum x.0 × Stands (spelling.num x.0) bytes.now at x.1) }
    ensures none { IfNone result ((n end : ℕ) → IsNum n → Stands (spelling.num n) bytes.now at end → ⊥) }
{
    let from = bytes.get(at..)?;
    let (number, rest) = number_at(from)?;
    Some((number, bytes.len() - rest.len()))
}

/// The text that begins at a place (its length in bytes, and so many bytes of UTF-8): the places where its bytes begin
/// and end. None exactly where no such text begins there. Places count bytes from 0.
pub fn get_text(bytes: &[u8], at: usize) -> Option<(usize, usize)>
    ensures found { IfSome result (λ x. TextStands bytes.now at x.0 x.1) }
    ensures none { IfNone result ((t : List ℕ) (end : ℕ) → IsText t → Stands (spelling.text t) bytes.now at end → ⊥) }
{
    let from = bytes.get(at..)?;
    let (text, rest) = words_at(from)?;
    let end = bytes.len() - rest.len();
    Some((end - text.len(), end))
}

/// The byte at the front, and the bytes behind it; None where there is none.
#[tactic(auto, unfolding(crate::specs::Reading::byte_at))]
pub fn byte_at(bytes: &[u8]) -> Option<(u8, &[u8])>
    ensures value { Finds (λ x. (x.0, x.1.now)) result (reading.byte_at bytes.now) }
    ensures shorter { IfSome result (λ x. length x.1.now < length bytes.now) }
{
    match bytes {
        [] => None,
        [first, rest @ ..] => Some((*first, rest)),
    }
}

/// The number at the front, in at most so many bytes more than one, and the bytes behind it.
#[tactic(auto, using(crate::proofs::Steps::no_byte, crate::proofs::Steps::one_byte, crate::proofs::Steps::no_more, crate::proofs::Steps::one_out, crate::proofs::Steps::one_joined))]
fn number_from(bytes: &[u8], more: u32) -> Option<(u64, &[u8])>
    ensures value { Finds (λ x. (x.0, x.1.now)) result (num_from_at more bytes.now) }
    ensures bound { IfSome result (λ x. x.0 < 2 ^ 32) }
    ensures shorter { IfSome result (λ x. length x.1.now < length bytes.now) }
{
    let (first, rest) = byte_at(bytes)?;
    if first < 128 {
        return Some((first as u64, rest));
    }
    if more == 0 {
        return None;
    }
    let (high, rest) = number_from(rest, more - 1)?;
    join(first, high, rest)
}

/// A number from its first byte, which is 128 or more, and from what the others stand for.
fn join(first: u8, high: u64, rest: &[u8]) -> Option<(u64, &[u8])>
    requires { 128 ≤ first }
    ensures value { Finds (λ x. (x.0, x.1.now)) result (joined first (high, rest.now)) }
    ensures bound { IfSome result (λ x. x.0 < 2 ^ 32) }
    ensures behind { IfSome result (λ x. x.1.now ≡ rest.now) }
{
    if high == 0 || 33_554_432 <= high {
        return None;
    }
    Some((first as u64 - 128 + 128 * high, rest))
}

/// The number at the front, in its one spelling, and the bytes behind it; None where there is none.
pub fn number_at(bytes: &[u8]) -> Option<(u64, &[u8])>
    ensures value { Finds (λ x. (x.0, x.1.now)) result (num_at bytes.now) }
    ensures bound { IfSome result (λ x. x.0 < 2 ^ 32) }
    ensures shorter { IfSome result (λ x. length x.1.now < length bytes.now) }
{
    number_from(bytes, 4)
}

/// So many bytes from the front, and the bytes behind them; None where there are fewer.
#[tactic(auto, unfolding(crate::specs::Reading::bytes_at))]
pub fn front_at(bytes: &[u8], count: u64) -> Option<(&[u8], &[u8])>
    ensures { Finds (λ x. (x.0.now, x.1.now)) result (bytes_at count bytes.now) }
{
    if (bytes.len() as u64) < count {
        return None;
    }
    Some(bytes.split_at(count as usize))
}

/// The bytes of the text at the front, and the bytes behind it; None where there is none.
#[tactic(auto, unfolding(crate::specs::Reading::text_at))]
pub fn words_at(bytes: &[u8]) -> Option<(&[u8], &[u8])>
    ensures { Finds (λ x. (x.0.now, x.1.now)) result (text_at bytes.now) }
{
    let (count, rest) = number_at(bytes)?;
    let (text, rest) = front_at(rest, count)?;
    if is_text(text) {
        Some((text, rest))
    } else {
        None
    }
}

/// Whether the bytes are UTF-8.
fn is_text(bytes: &[u8]) -> bool
    ensures { result ≡ is_utf8 bytes.now }
{
    match str::from_utf8(bytes) {
        Ok(_) => true,
        Err(_) => false,
    }
}
