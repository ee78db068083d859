//! Values for tests, and what every type with `Plain` is tested for.
use face_model::scheme::{Constraint, Scheme};
use mk_base::list::List;
use mk_base::name::{ModName, Name, Node, Occ, Space, Unit};
use mk_base::plain::Plain;
use mk_base::text::Text;
use mk_base::ty::Ty;
use std::alloc::AllocGlobal;
use std::process::Abort;

/// That a value is the same as its copy, and not the same as the changed one.
pub(crate) fn check_plain<T: Plain>(rt: &(impl Abort + AllocGlobal), value: T, changed: T) {
    let copy = value.copy(rt.alloc()).expect(rt, "memory");
    assert!(rt; value.same(&copy), "the same as its copy");
    assert!(rt; copy.same(&value), "its copy is the same");
    assert!(rt; !value.same(&changed), "not the same when changed");
}

pub(crate) fn text(rt: &(impl Abort + AllocGlobal), bytes: &[u8]) -> Text {
    Text::from_slice(rt.alloc(), bytes).expect(rt, "memory")
}

/// The list of one item.
pub(crate) fn one<T: Drop>(rt: &(impl Abort + AllocGlobal), item: T) -> List<T> {
    let mut list = List::new(rt.alloc());
    list.push(item).expect(rt, "memory");
    list
}

/// A name of the module `Data.Bag` in the unit `bags`.
pub(crate) fn name(rt: &(impl Abort + AllocGlobal), space: Space, occ: &[u8]) -> Name {
    let unit = Unit {
        text: text(rt, b"bags"),
    };
    let module = ModName {
        text: text(rt, b"Data.Bag"),
    };
    let occ = Occ {
        space,
        text: text(rt, occ),
    };
    Name { unit, module, occ }
}

pub(crate) fn node(rt: &(impl Abort + AllocGlobal), module: &[u8]) -> Node {
    let module = ModName {
        text: text(rt, module),
    };
    Node {
        module,
        boot: false,
    }
}

/// `CLASS t0`.
pub(crate) fn constraint(rt: &(impl Abort + AllocGlobal), class: &[u8]) -> Constraint {
    let class = name(rt, Space::Ty, class);
    Constraint {
        class,
        ty: Ty::Var(0),
    }
}

/// `CLASS t0 => t0`, for any `t0`.
pub(crate) fn scheme(rt: &(impl Abort + AllocGlobal), class: &[u8]) -> Scheme {
    let context = one(rt, constraint(rt, class));
    Scheme {
        vars: 1,
        context,
        body: Ty::Var(0),
    }
}
