//! That faces are told apart and copied.
use crate::samples::{check_plain, constraint, name, node, one, scheme};
use face_model::decl::{Body, Decl};
use face_model::export::Export;
use face_model::face::Face;
use face_model::inst::Inst;
use mk_base::name::Space;
use std::alloc::AllocGlobal;
use std::process::Abort;

fn decl(rt: &(impl Abort + AllocGlobal)) -> Decl {
    Decl {
        name: name(rt, Space::Var, b"size"),
        fixity: None,
        body: Body::Value(scheme(rt, b"Eq")),
    }
}

fn inst(rt: &(impl Abort + AllocGlobal)) -> Inst {
    Inst {
        class: name(rt, Space::Ty, b"Eq"),
        head: name(rt, Space::Ty, b"Bag"),
        vars: 1,
        context: one(rt, constraint(rt, b"Eq")),
    }
}

fn face(rt: &(impl Abort + AllocGlobal), export: &[u8]) -> Face {
    let export = Export {
        name: name(rt, Space::Var, export),
        parent: None,
    };
    Face {
        node: node(rt, b"Data.Bag"),
        decls: one(rt, decl(rt)),
        insts: one(rt, inst(rt)),
        exports: one(rt, export),
    }
}

#[test]
fn faces_are_plain(rt: HostRuntime) {
    check_plain(&rt, face(&rt, b"size"), face(&rt, b"count"));
}
