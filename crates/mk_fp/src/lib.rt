//! Fingerprints of texts: MD5 (RFC 1321).
#![tactic(auto)]

ghost use Rattle.std.specs.Prelude.{◌≡◌, ◌↔◌, IsTrue, IfOk};
ghost use Rattle.md5.specs.Md5.{md5};
ghost use Rattle.hex.specs.Hex.{encode_lower};

use md5::{Digest, Md5};
use mk_base::fingerprint::Fingerprint;
use mk_base::memory::NoMemory;
use mk_base::text::Text;
use std::alloc::Global;

/// The fingerprint of a text: its MD5 digest (RFC 1321, section 3).
pub fn of_text(text: &[u8]) -> Fingerprint
    ensures { result.0 ≡ md5 text.now }
{
    Fingerprint(Md5::digest(text))
}

/// Whether two fingerprints are the same sixteen bytes.
pub fn same(a: &Fingerprint, b: &Fingerprint) -> bool
    ensures { IsTrue result ↔ (a.now ≡ b.now) }
{
    a == b
}

/// The 32 lower-case hexadecimal digits of a fingerprint, in the order in which a digest is printed.
pub fn to_hex(alloc: Global, fingerprint: &Fingerprint) -> Result<Text, NoMemory>
    ensures { IfOk result (λ t. t ≡ encode_lower fingerprint.now.0) }
{
    let digits = hex::encode(alloc, fingerprint.0)?;
    Ok(Text::from_vec(digits.into_bytes()))
}
