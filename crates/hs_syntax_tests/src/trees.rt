//! That copies are made with ample memory, and that a value is told from one with a change.
use hs_syntax::header::{ExportItem, Header, IitemTree, ImportItem, ImportList, SubTree, Subs};
use hs_syntax::name_ref::{NameRef, Target};
use mk_base::list::List;
use mk_base::name::{ModName, Name, Occ, Space, Unit};
use mk_base::place::Pos;
use mk_base::plain::Plain;
use mk_base::text::Text;
use std::alloc::AllocGlobal;
use std::process::Abort;

/// That a value is the same as its copy, and not the same as the changed one.
fn check_plain<T: Plain>(rt: &(impl Abort + AllocGlobal), value: T, changed: T) {
    let copy = value.copy(rt.alloc()).expect(rt, "memory");
    assert!(rt; value.same(&copy), "the same as its copy");
    assert!(rt; copy.same(&value), "its copy is the same");
    assert!(rt; !value.same(&changed), "not the same when changed");
}

fn text(rt: &(impl Abort + AllocGlobal), bytes: &[u8]) -> Text {
    Text::from_slice(rt.alloc(), bytes).expect(rt, "memory")
}

fn one<T: Drop>(rt: &(impl Abort + AllocGlobal), item: T) -> List<T> {
    let mut list = List::new(rt.alloc());
    list.push(item).expect(rt, "memory");
    list
}

fn place(col: u32) -> Pos {
    Pos { line: 1, col }
}

fn name_at(rt: &(impl Abort + AllocGlobal), bytes: &[u8], col: u32) -> NameRef {
    NameRef {
        qualifier: text(rt, b"Data.Bag"),
        text: text(rt, bytes),
        at: place(col),
        to: None,
    }
}

fn entity(rt: &(impl Abort + AllocGlobal), bytes: &[u8]) -> Name {
    let unit = Unit {
        text: text(rt, b"bags"),
    };
    let module = ModName {
        text: text(rt, b"Data.Bag"),
    };
    let occ = Occ {
        space: Space::Con,
        text: text(rt, bytes),
    };
    Name { unit, module, occ }
}

#[test]
fn names_are_copied_and_told_apart(rt: HostRuntime) {
    check_plain(&rt, name_at(&rt, b"Bag", 1), name_at(&rt, b"Bag", 2));
    check_plain(&rt, Target::Local(3), Target::Local(4));
    let bag = Target::Global {
        name: entity(&rt, b"Bag"),
        parent: Some(entity(&rt, b"T")),
    };
    let alone = Target::Global {
        name: entity(&rt, b"Bag"),
        parent: None,
    };
    check_plain(&rt, bag, alone);
}

fn field(rt: &(impl Abort + AllocGlobal)) -> Subs {
    let name = name_at(rt, b"size", 5);
    Subs::Listed(one(rt, SubTree::Var { at: place(5), name }))
}

fn constructor(rt: &(impl Abort + AllocGlobal)) -> Subs {
    let name = name_at(rt, b"size", 5);
    Subs::Listed(one(rt, SubTree::Con { at: place(5), name }))
}

fn bag(rt: &(impl Abort + AllocGlobal), subs: Option<Subs>) -> ExportItem {
    ExportItem::Type {
        at: place(3),
        name: name_at(rt, b"Bag", 3),
        subs,
    }
}

#[test]
fn exports_are_copied_and_told_apart(rt: HostRuntime) {
    check_plain(&rt, field(&rt), constructor(&rt));
    check_plain(&rt, bag(&rt, Some(Subs::All)), bag(&rt, None));
    check_plain(&rt, bag(&rt, Some(field(&rt))), bag(&rt, Some(Subs::All)));
    let value = ExportItem::Var {
        at: place(3),
        name: name_at(&rt, b"Bag", 3),
    };
    check_plain(&rt, value, bag(&rt, None));
    let module = ExportItem::Module {
        at: place(3),
        module: name_at(&rt, b"Bag", 10),
    };
    check_plain(&rt, module, bag(&rt, None));
}

fn import(rt: &(impl Abort + AllocGlobal), source: bool, hiding: bool) -> ImportItem {
    let name = name_at(rt, b"Bag", 20);
    let item = IitemTree::Type {
        at: place(20),
        name,
        subs: None,
    };
    ImportItem {
        at: place(1),
        source,
        qualified: true,
        module: name_at(rt, b"Data.Bag", 8),
        alias: Some(name_at(rt, b"B", 14)),
        list: Some(ImportList {
            hiding,
            items: one(rt, item),
        }),
    }
}

fn header(rt: &(impl Abort + AllocGlobal), prelude: Option<bool>) -> Header {
    Header {
        name: ModName {
            text: text(rt, b"Main"),
        },
        at: place(8),
        exports: Some(one(rt, bag(rt, None))),
        imports: one(rt, import(rt, false, false)),
        prelude,
        restrict: Some(false),
    }
}

#[test]
fn headers_are_copied_and_told_apart(rt: HostRuntime) {
    check_plain(&rt, import(&rt, true, true), import(&rt, false, true));
    check_plain(&rt, import(&rt, true, true), import(&rt, true, false));
    let value = IitemTree::Var {
        at: place(2),
        name: name_at(&rt, b"size", 2),
    };
    let other = IitemTree::Var {
        at: place(2),
        name: name_at(&rt, b"sizes", 2),
    };
    check_plain(&rt, value, other);
    check_plain(&rt, header(&rt, Some(true)), header(&rt, None));
}
