//! That exports are told apart and copied.
use crate::samples::{check_plain, name};
use face_model::export::{Export, order_exports};
use mk_base::name::Space;
use std::cmp::Ordering;

#[test]
fn exports_are_plain_and_ordered(rt: HostRuntime) {
    let alone = Export {
        name: name(&rt, Space::Con, b"Bag"),
        parent: None,
    };
    let owned = Export {
        name: name(&rt, Space::Con, b"Bag"),
        parent: Some(name(&rt, Space::Ty, b"Bag")),
    };
    let later = Export {
        name: name(&rt, Space::Con, b"Box"),
        parent: None,
    };
    assert_eq!(rt; order_exports(&alone, &owned), Ordering::Less);
    assert_eq!(rt; order_exports(&later, &owned), Ordering::Greater);
    assert_eq!(rt; order_exports(&owned, &owned), Ordering::Equal);
    check_plain(&rt, owned, alone);
}
