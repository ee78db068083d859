//! What no clause says: that calls succeed with ample memory, and what is printed.
use mk_base::char_class::{CharClass, class_of};
use mk_base::diag::{Diag, order_diags, same_diag};
use mk_base::fingerprint::Fingerprint;
use mk_base::kind::{Kind, copy_kind, print_kind, same_kind};
use mk_base::list::List;
use mk_base::memory::NoMemory;
use mk_base::name::{
    ModName, Name, Node, Occ, Space, Unit, order_names, order_nodes, same_name, same_node,
};
use mk_base::place::{NodeId, Pos};
use mk_base::plain::Plain;
use mk_base::text::Text;
use mk_base::ty::{Ty, copy_ty, levels_within, print_ty, same_ty};
use sqlite_items::Boxed;
use std::alloc::Global;
use std::cmp::Ordering;
use std::test::Fail;

fn name_of(alloc: Global, module: &[u8], space: Space, occ: &[u8]) -> Result<Name, NoMemory> {
    let unit = Unit {
        text: Text::from_slice(alloc, b"main")?,
    };
    let module = ModName {
        text: Text::from_slice(alloc, module)?,
    };
    let text = Text::from_slice(alloc, occ)?;
    Ok(Name {
        unit,
        module,
        occ: Occ { space, text },
    })
}

fn node_of(alloc: Global, module: &[u8], boot: bool) -> Result<Node, NoMemory> {
    let module = ModName {
        text: Text::from_slice(alloc, module)?,
    };
    Ok(Node { module, boot })
}

#[test]
fn lists_grow_and_shrink(rt: HostRuntime) -> Result<(), Fail> {
    let mut list: List<u8> = List::new(rt.alloc());
    assert!(rt; list.is_empty());
    list.extend(b"ab")?;
    list.push(b'c')?;
    list.push_number(1050)?;
    assert_eq!(rt; list.as_slice(), b"abc1050".as_slice());
    assert_eq!(rt; list.get(1).copied(), Some(b'b'));
    assert_eq!(rt; list.get(7).copied(), None);
    list.drop_front(3);
    assert_eq!(rt; list.len(), 4);
    assert!(rt; List::copy(&list, rt.alloc())?.same(&list));
    assert_eq!(rt; list.into_vec().as_slice(), b"1050".as_slice());
    let numbers = List::from_vec(Vec::from_slice(rt.alloc(), &[3u32, 5])?);
    let others = List::from_vec(Vec::from_slice(rt.alloc(), &[3u32, 6])?);
    assert!(rt; !numbers.same(&others));
    Ok(())
}

#[test]
fn texts_are_ordered_by_bytes(rt: HostRuntime) -> Result<(), Fail> {
    let mut text = Text::new(rt.alloc());
    text.push_slice(b"A.B")?;
    let same = text.copy(rt.alloc())?;
    let more = Text::from_slice(rt.alloc(), b"A.Ba")?;
    let cloned = text.clone()?;
    assert!(rt; text == same && text == cloned && text != more);
    assert!(rt; text < more);
    assert_eq!(rt; more.len(), 4);
    assert_eq!(rt; text.as_slice(), b"A.B".as_slice());
    assert_eq!(rt;
        Text::from_vec(text.into_vec()).as_slice(),
        b"A.B".as_slice()
    );
    Ok(())
}

#[test]
fn names_and_nodes_are_ordered(rt: HostRuntime) -> Result<(), Fail> {
    let value = name_of(rt.alloc(), b"A", Space::Var, b"f")?;
    let constructor = name_of(rt.alloc(), b"A", Space::Con, b"C")?;
    assert!(rt; same_name(&value, &value.copy(rt.alloc())?) && !same_name(&value, &constructor));
    assert_eq!(rt; order_names(&value, &constructor), Ordering::Less);
    let real = node_of(rt.alloc(), b"A", false)?;
    let boot = node_of(rt.alloc(), b"A", true)?;
    let later = node_of(rt.alloc(), b"A.B", true)?;
    assert!(rt; same_node(&real, &real.copy(rt.alloc())?) && !same_node(&real, &boot));
    assert_eq!(rt; order_nodes(&boot, &real), Ordering::Less);
    assert_eq!(rt; order_nodes(&real, &later), Ordering::Less);
    assert!(rt; boot < real && Plain::copy(&boot, rt.alloc())?.same(&boot));
    Ok(())
}

#[test]
fn diagnostics_are_ordered_by_place(rt: HostRuntime) -> Result<(), Fail> {
    let early = Diag {
        at: Pos { line: 2, col: 8 },
        code: 22,
        text: Text::from_slice(rt.alloc(), b"T is ambiguous")?,
    };
    let late = Diag {
        at: Pos { line: 2, col: 10 },
        code: 10,
        text: Text::from_slice(rt.alloc(), b"module A not found")?,
    };
    assert!(rt; same_diag(&early, &early.copy(rt.alloc())?) && !same_diag(&early, &late));
    assert_eq!(rt; order_diags(&early, &late), Ordering::Less);
    assert!(rt; NodeId(3) < NodeId(4) && Fingerprint([1; 16]).same(&Fingerprint([1; 16])));
    Ok(())
}

#[test]
fn kinds_and_types_are_printed(rt: HostRuntime) -> Result<(), Fail> {
    let alloc = rt.alloc();
    let inner = Kind::Arrow(
        Boxed::new(alloc, Kind::Star)?,
        Boxed::new(alloc, Kind::Star)?,
    );
    let kind = Kind::Arrow(Boxed::new(alloc, inner)?, Boxed::new(alloc, Kind::Star)?);
    assert!(rt; same_kind(&kind, &copy_kind(alloc, &kind)?) && !same_kind(&kind, &Kind::Star));
    let mut out = List::new(alloc);
    print_kind(&mut out, &kind)?;
    assert_eq!(rt; out.as_slice(), b"((* -> *) -> *)".as_slice());
    let con = Ty::Con(name_of(alloc, b"A", Space::Ty, b"T")?);
    let ty = Ty::App(Boxed::new(alloc, con)?, Boxed::new(alloc, Ty::Var(12))?);
    assert!(rt; same_ty(&ty, &copy_ty(alloc, &ty)?) && !same_ty(&ty, &Ty::Var(12)));
    let mut out = List::new(alloc);
    print_ty(&mut out, &ty)?;
    assert_eq!(rt; out.as_slice(), b"(A.T t12)".as_slice());
    assert_eq!(rt; levels_within(&ty, 2), Some(2));
    assert_eq!(rt; levels_within(&ty, 1), None);
    Ok(())
}

#[test]
fn characters_have_classes(rt: HostRuntime) {
    let rows = [
        (CharClass::Small, "az_\u{e9}\u{df}\u{3b1}"),
        (CharClass::Large, "AZ\u{c9}\u{3a3}\u{1c5}"),
        (CharClass::Digit, "09\u{663}"),
        (
            CharClass::Symbol,
            "!#$%&*+./<=>?@\\^|-~:\u{20ac}\u{2192}\u{ab}\u{203f}",
        ),
        (CharClass::Special, "(),;[]`{}"),
        (CharClass::White, "\t\n\u{b}\u{c}\r \u{a0}\u{2003}\u{85}"),
        (
            CharClass::Other,
            "\"'\0\u{1f}\u{7f}\u{3042}\u{aa}\u{2b0}\u{bd}\u{e000}",
        ),
    ];
    for (class, characters) in rows {
        for character in characters.chars() {
            assert_eq!(rt; class_of(character), class, "{character:?}");
        }
    }
}
