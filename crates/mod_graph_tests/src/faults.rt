//! Headers with faults, and trees in which Prelude is imported.
use crate::shown::check_shown;
use crate::table::{header, headers, node, text};
use hs_syntax::header::Header;
use mk_base::diag::Diag;
use mk_base::list::List;
use mk_base::memory::NoMemory;
use mk_base::place::Pos;
use mod_graph::input::HeaderOf;
use std::alloc::Global;
use std::test::Fail;

/// A file with this header, or with what stands in place of one.
fn file(
    alloc: Global,
    name: &[u8],
    size: u64,
    header: Result<Header, Diag>,
) -> Result<HeaderOf, NoMemory> {
    Ok(HeaderOf {
        node: node(alloc, name)?,
        size,
        header,
    })
}

/// Nodes that import each other and Prelude, with a fault in place of B's header and a header of D's that names E.
fn with_faults(alloc: Global) -> Result<List<HeaderOf>, NoMemory> {
    let fault = Diag {
        at: Pos { line: 7, col: 3 },
        code: 3,
        text: text(alloc, b"this is no module header")?,
    };
    let mut all = headers(alloc, b"A:C C:Prelude Prelude:")?;
    all.push(file(alloc, b"B", 1, Err(fault))?)?;
    all.push(file(alloc, b"D", 1, Ok(header(alloc, b"E", b"A")?))?)?;
    Ok(all)
}

/// A lone node beside one whose source is too large.
fn with_large(alloc: Global) -> Result<List<HeaderOf>, NoMemory> {
    let mut all = headers(alloc, b"A:")?;
    all.push(file(alloc, b"B", 2_000_000, Ok(header(alloc, b"Z", b"Q")?))?)?;
    Ok(all)
}

#[test]
fn headers_are_told_and_prelude_is_imported(rt: HostRuntime) -> Result<(), Fail> {
    let alloc = rt.alloc();
    let none = List::new(alloc);
    let all = with_faults(alloc)?;
    check_shown(
        &rt,
        alloc,
        &all,
        &none,
        true,
        b"B/1: e3@7 Prelude/4: e11@1 C/2:Prelude A/0:Prelude,C D/3:Prelude,C,A e13@1",
    )?;
    check_shown(
        &rt,
        alloc,
        &all,
        &none,
        false,
        b"B/1: e3@7 Prelude/4: C/2:Prelude A/0:Prelude,C D/3:Prelude,C,A e13@1",
    )?;
    let lone = with_large(alloc)?;
    check_shown(&rt, alloc, &lone, &none, true, b"A/0: e10@1 B/1: e6@1")?;
    Ok(())
}
