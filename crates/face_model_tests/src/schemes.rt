//! That schemes are told apart and copied.
use crate::samples::{check_plain, constraint, scheme};

#[test]
fn schemes_are_plain(rt: HostRuntime) {
    check_plain(&rt, constraint(&rt, b"Eq"), constraint(&rt, b"Ord"));
    check_plain(&rt, scheme(&rt, b"Eq"), scheme(&rt, b"Ord"));
}
