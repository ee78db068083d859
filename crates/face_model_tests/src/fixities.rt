//! That fixities are told apart and copied.
use crate::samples::check_plain;
use face_model::fixity::{Assoc, Fixity};

#[test]
fn fixities_are_plain(rt: HostRuntime) {
    check_plain(&rt, Assoc::Left, Assoc::Neither);
    let assoc = Assoc::Right;
    check_plain(&rt, Fixity { assoc, level: 5 }, Fixity { assoc, level: 6 });
}
