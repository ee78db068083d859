//! That decls are told apart and copied.
use crate::samples::{check_plain, name, one, scheme, text};
use face_model::decl::{Body, Constr, Decl, Field, Method};
use face_model::fixity::{Assoc, Fixity};
use mk_base::kind::Kind;
use mk_base::name::Space;
use mk_base::ty::Ty;
use std::alloc::AllocGlobal;
use std::process::Abort;

fn field(rt: &(impl Abort + AllocGlobal), var: u64) -> Field {
    Field {
        label: text(rt, b"size"),
        fixity: None,
        strict: true,
        ty: Ty::Var(var),
    }
}

fn constr(rt: &(impl Abort + AllocGlobal), var: u64) -> Constr {
    let fixity = Some(Fixity {
        assoc: Assoc::Right,
        level: 5,
    });
    Constr {
        occ: text(rt, b":+:"),
        fixity,
        fields: one(rt, field(rt, var)),
    }
}

fn method(rt: &(impl Abort + AllocGlobal), class: &[u8]) -> Method {
    Method {
        occ: text(rt, b"size"),
        fixity: None,
        scheme: scheme(rt, class),
    }
}

fn data(rt: &(impl Abort + AllocGlobal), renamed: bool) -> Body {
    Body::Alg {
        renamed,
        kinds: one(rt, Kind::Star),
        constrs: one(rt, constr(rt, 0)),
    }
}

fn synonym(rt: &(impl Abort + AllocGlobal), var: u64) -> Body {
    Body::Synonym {
        kinds: one(rt, Kind::Star),
        result: Kind::Star,
        body: Ty::Var(var),
    }
}

fn class(rt: &(impl Abort + AllocGlobal), of: &[u8]) -> Body {
    Body::Class {
        kind: Kind::Star,
        supers: one(rt, name(rt, Space::Ty, b"Eq")),
        methods: one(rt, method(rt, of)),
    }
}

fn hidden(rt: &(impl Abort + AllocGlobal)) -> Body {
    Body::Abstract {
        kinds: one(rt, Kind::Star),
    }
}

fn check_bodies(rt: &(impl Abort + AllocGlobal)) {
    let value = Body::Value(scheme(rt, b"Eq"));
    check_plain(rt, value, Body::Value(scheme(rt, b"Ord")));
    check_plain(rt, data(rt, false), data(rt, true));
    check_plain(rt, synonym(rt, 0), synonym(rt, 1));
    check_plain(rt, class(rt, b"Eq"), class(rt, b"Ord"));
    check_plain(rt, hidden(rt), data(rt, false));
}

fn decl(rt: &(impl Abort + AllocGlobal), renamed: bool) -> Decl {
    Decl {
        name: name(rt, Space::Ty, b"Bag"),
        fixity: None,
        body: data(rt, renamed),
    }
}

#[test]
fn decls_are_plain(rt: HostRuntime) {
    check_plain(&rt, field(&rt, 0), field(&rt, 1));
    check_plain(&rt, constr(&rt, 0), constr(&rt, 1));
    check_plain(&rt, method(&rt, b"Eq"), method(&rt, b"Ord"));
    check_bodies(&rt);
    check_plain(&rt, decl(&rt, false), decl(&rt, true));
}
