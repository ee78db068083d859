//! Fingerprints.

/// The sixteen bytes of an MD5 digest (RFC 1321), in the order in which the digest is printed.
#[derive(Clone, Copy, Debug, PartialEq, Eq, PartialOrd, Ord, Hash)]
pub struct Fingerprint(pub [u8; 16]);
