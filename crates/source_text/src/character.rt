//! One character at a time.
ghost use Rattle.std.specs.Prelude.{◌≡◌, ◌<◌, ◌≤◌, ◌-◌, ◌∷◌, [], ◌++◌, List, ℕ, length, take, encode_utf8_all, MatchOption, IfSome};
ghost use Rattle.source_text.specs.Characters.{characters, AllCharacters};

/// What a byte reads as with which no well-formed character begins.
pub const NO_CHARACTER: u32 = 0x11_0000;

/// The first character, and what follows it. None where the bytes are at their end.
pub fn next_char(bytes: &[u8]) -> Option<(u32, &[u8])>
    ensures is { MatchOption result (characters bytes.now ≡ []) (λ p. characters bytes.now ≡ p.0 ∷ characters p.1.now) }
    ensures less { IfSome result (λ p. length p.1.now < length bytes.now) }
{
    if bytes.is_empty() {
        return None;
    }
    match bstr::decode_utf8(bytes) {
        (Some(c), size) => Some((c as u32, &bytes[size..])),
        (None, _) => Some((NO_CHARACTER, &bytes[1..])),
    }
}

/// The bytes from one place to a later one of the same source: what was read between them.
pub fn text_between<'a>(from: &'a [u8], to: &[u8]) -> &'a [u8]
    requires { length to.now ≤ length from.now }
    ensures bytes { result.now ≡ take (length from.now - length to.now) from.now }
    ensures reads { (l : List ℕ) → characters from.now ≡ l ++ characters to.now → characters result.now ≡ l }
    ensures spelled { (l : List ℕ) → characters from.now ≡ l ++ characters to.now → AllCharacters l → result.now ≡ encode_utf8_all l }
{
    &from[..from.len() - to.len()]
}
