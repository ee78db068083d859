//! Fingerprints against the test suite of RFC 1321 (section A.5).

use mk_base::memory::NoMemory;
use mk_fp::{of_text, same, to_hex};
use std::alloc::Global;

fn prints(alloc: Global, text: &[u8], digits: &[u8]) -> Result<bool, NoMemory> {
    let hex = to_hex(alloc, &of_text(text))?;
    Ok(hex.as_slice() == digits)
}

#[test]
fn digests_are_those_of_the_rfc(rt: HostRuntime) {
    let alloc = rt.alloc();
    assert!(rt; prints(alloc, b"", b"d41d8cd98f00b204e9800998ecf8427e") == Ok(true));
    assert!(rt; prints(alloc, b"a", b"0cc175b9c0f1b6a831c399e269772661") == Ok(true));
    assert!(rt; prints(alloc, b"abc", b"900150983cd24fb0d6963f7d28e17f72") == Ok(true));
    assert!(rt;
        prints(
            alloc,
            b"message digest",
            b"f96b697d7cb7938d525a2f31aaf161d0"
        ) == Ok(true)
    );
    assert!(rt;
        prints(
            alloc,
            b"abcdefghijklmnopqrstuvwxyz",
            b"c3fcd3d76192e4007dfb496cca67e13b"
        ) == Ok(true)
    );
    assert!(rt;
        prints(
            alloc,
            b"ABCDEFGHIJKLMNOPQRSTUVWXYZabcdefghijklmnopqrstuvwxyz0123456789",
            b"d174ab98d277d9f5a5611c2c9f419d9f"
        ) == Ok(true)
    );
    assert!(rt;
        prints(
            alloc,
            b"12345678901234567890123456789012345678901234567890123456789012345678901234567890",
            b"57edf4a22be3c955ac49da2e2107b67a"
        ) == Ok(true)
    );
}

#[test]
fn one_byte_tells_two_fingerprints_apart(rt: HostRuntime) {
    assert!(rt; same(&of_text(b"abc"), &of_text(b"abc")));
    assert!(rt; !same(&of_text(b"abc"), &of_text(b"abd")));
}
