//! That insts are told apart and copied.
use crate::samples::{check_plain, constraint, name, one};
use face_model::inst::Inst;
use mk_base::name::Space;
use std::alloc::AllocGlobal;
use std::process::Abort;

fn inst(rt: &(impl Abort + AllocGlobal), class: &[u8]) -> Inst {
    Inst {
        class: name(rt, Space::Ty, b"Eq"),
        head: name(rt, Space::Ty, b"Bag"),
        vars: 1,
        context: one(rt, constraint(rt, class)),
    }
}

#[test]
fn insts_are_plain(rt: HostRuntime) {
    check_plain(&rt, inst(&rt, b"Eq"), inst(&rt, b"Ord"));
}
