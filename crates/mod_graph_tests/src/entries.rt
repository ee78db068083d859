//! Headers with and without the implicit import, and the entries of a tree with their numbers and edges.
ghost use Rattle.std.specs.Prelude.{◌≡◌, ◌<◌, ◌^◌, IfOk, length};
ghost use Rattle.mod_graph.specs.Graph.{AreDistinct};
ghost use Rattle.mod_graph.specs.Names.{node_named};
ghost use Rattle.mod_graph.specs.Places.{AreNumbers};

use hs_syntax::header::{Header, ImportItem};
use hs_syntax::name_ref::NameRef;
use mk_base::list::List;
use mk_base::memory::NoMemory;
use mk_base::name::{ModName, Node};
use mk_base::place::Pos;
use mk_base::plain::Plain;
use mk_base::text::Text;
use mod_graph::edges::{module_edges, modules_of, node_edges};
use mod_graph::entries::{Entry, entries_of};
use mod_graph::input::HeaderOf;
use mod_graph::places::{Numbers, numbers_of};
use mod_graph::prelude::with_prelude;
use std::alloc::Global;
use std::test::Fail;

fn import(alloc: Global, name: &[u8], line: u32, qualified: bool) -> Result<ImportItem, NoMemory> {
    let module = NameRef {
        qualifier: Text::new(alloc),
        text: Text::from_slice(alloc, name)?,
        at: Pos { line, col: 8 },
        to: None,
    };
    Ok(ImportItem {
        at: Pos { line, col: 1 },
        source: false,
        qualified,
        module,
        alias: None,
        list: None,
    })
}

/// A header that imports these modules, a name a word.
fn header(alloc: Global, names: &[u8], qualified: bool) -> Result<Header, NoMemory> {
    let mut imports = List::new(alloc);
    let mut line: u32 = 2;
    for name in names.split(|byte| *byte == b' ') {
        if !name.is_empty() {
            imports.push(import(alloc, name, line, qualified)?)?;
            line = line.saturating_add(1);
        }
    }
    let text = Text::from_slice(alloc, b"M")?;
    Ok(Header {
        name: ModName { text },
        at: Pos { line: 1, col: 8 },
        exports: None,
        imports,
        prelude: None,
        restrict: Some(false),
    })
}

/// The names of the imports with their places, a word each.
fn shown(alloc: Global, header: &Header) -> Result<List<u8>, NoMemory> {
    let mut out = List::new(alloc);
    for import in header.imports.as_slice() {
        out.extend(import.module.text.as_slice())?;
        out.push(b'@')?;
        out.push_number(u64::from(import.module.at.line))?;
        out.push(b' ')?;
    }
    Ok(out)
}

#[test]
fn prelude_is_imported_where_nothing_else_is_said(rt: HostRuntime) -> Result<(), Fail> {
    let alloc = rt.alloc();
    let rows: [(&[u8], bool, bool, &[u8]); 7] = [
        (b"", false, true, b"Prelude@1 "),
        (b"", false, false, b""),
        (b"A B", false, true, b"Prelude@1 A@2 B@3 "),
        (b"A B", false, false, b"A@2 B@3 "),
        (b"A Prelude", false, true, b"A@2 Prelude@3 "),
        (b"Prelude", true, true, b"Prelude@2 "),
        (
            b"Preludes My.Prelude",
            false,
            true,
            b"Prelude@1 Preludes@2 My.Prelude@3 ",
        ),
    ];
    for (names, qualified, prelude, expected) in rows {
        let written = header(alloc, names, qualified)?;
        let effective = with_prelude(alloc, &written, prelude)?;
        assert_eq!(rt; shown(alloc, &effective)?.as_slice(), expected);
        assert!(rt; effective.restrict == Some(false) && effective.name.same(&written.name));
    }
    Ok(())
}

/// A node of this size, whose header names the module `M` and imports these.
fn file(
    alloc: Global,
    name: &[u8],
    boot: bool,
    size: u64,
    imports: &[u8],
) -> Result<HeaderOf, NoMemory>
    ensures { IfOk result (λ h. h.node ≡ node_named name.now boot) }
{
    let text = Text::from_slice(alloc, name)?;
    let node = Node {
        module: ModName { text },
        boot,
    };
    let header = Ok(header(alloc, imports, false)?);
    Ok(HeaderOf { node, size, header })
}

/// The modules B and A and the boot source of A, which is too large; A imports B, and B imports A, X and itself.
fn tree(alloc: Global) -> Result<List<HeaderOf>, NoMemory>
    ensures distinct { IfOk result (λ hs. AreDistinct hs) }
    ensures few { IfOk result (λ hs. length hs < 2 ^ 32) }
{
    let mut headers = List::new(alloc);
    headers.push(file(alloc, b"B", false, 20, b"A X B")?)?;
    headers.push(file(alloc, b"A", false, 1_048_576, b"B")?)?;
    headers.push(file(alloc, b"A", true, 1_048_577, b"B")?)?;
    Ok(headers)
}

/// A line for each entry: its module, `boot` where it is a boot node, the names of its imports, and its diagnostics.
fn shown_entries(alloc: Global, entries: &[Entry]) -> Result<List<u8>, NoMemory> {
    let mut out = List::new(alloc);
    for entry in entries {
        out.extend(entry.node.module.text.as_slice())?;
        if entry.node.boot {
            out.extend(b" boot")?;
        }
        for import in entry.imports.as_slice() {
            out.push(b' ')?;
            out.extend(import.module.text.as_slice())?;
        }
        for error in entry.own.as_slice() {
            out.extend(b"; ")?;
            out.push_number(u64::from(error.code))?;
            out.push(b' ')?;
            out.extend(error.text.as_slice())?;
        }
        out.push(b'\n')?;
    }
    Ok(out)
}

/// Puts the numbers of each row at the end, with a semicolon behind each row.
fn push_rows(out: &mut List<u8>, rows: &[Vec<usize>]) -> Result<(), NoMemory> {
    for row in rows {
        for number in row {
            out.push_number(*number as u64)?;
            out.push(b' ')?;
        }
        out.push(b';')?;
    }
    Ok(())
}

/// Puts the edges of the nodes at the end.
fn push_node_edges(
    out: &mut List<u8>,
    alloc: Global,
    entries: &[Entry],
    numbers: &Numbers,
) -> Result<(), NoMemory>
    requires { AreNumbers numbers.now entries.now }
{
    let edges = node_edges(alloc, entries, numbers)?;
    push_rows(out, &edges)
}

/// Puts the edges of the modules at the end.
fn push_module_edges(
    out: &mut List<u8>,
    alloc: Global,
    entries: &[Entry],
    numbers: &Numbers,
) -> Result<(), NoMemory>
    requires { AreNumbers numbers.now entries.now }
{
    let edges = module_edges(alloc, entries, numbers)?;
    push_rows(out, &edges)
}

/// Puts the module of each node at the end.
fn push_modules(
    out: &mut List<u8>,
    alloc: Global,
    entries: &[Entry],
    numbers: &Numbers,
) -> Result<(), NoMemory>
    requires { AreNumbers numbers.now entries.now }
{
    let mut modules = Vec::new(alloc);
    modules.push(modules_of(alloc, entries, numbers)?)?;
    push_rows(out, &modules)
}

/// The edges of the nodes, those of the modules, and the module of each node, a line each.
fn shown_edges(alloc: Global, entries: &[Entry]) -> Result<List<u8>, NoMemory> {
    let numbers = numbers_of(alloc, entries)?;
    let mut out = List::new(alloc);
    push_node_edges(&mut out, alloc, entries, &numbers)?;
    out.push(b'\n')?;
    push_module_edges(&mut out, alloc, entries, &numbers)?;
    out.push(b'\n')?;
    push_modules(&mut out, alloc, entries, &numbers)?;
    Ok(out)
}

#[test]
fn entries_stand_by_node_and_have_their_edges(rt: HostRuntime) -> Result<(), Fail> {
    let alloc = rt.alloc();
    let headers = tree(alloc)?;
    let entries = entries_of(alloc, headers.as_slice(), true)?;
    let shown = shown_entries(alloc, &entries)?;
    let expected =
        b"A boot; 6 source is too large\nA Prelude B; 13 header names M\nB Prelude A X B; 13 header names M\n";
    assert_eq!(rt; shown.as_slice(), expected.as_slice());
    let shown = shown_edges(alloc, &entries)?;
    assert_eq!(rt;
        shown.as_slice(),
        b";0 2 ;1 2 ;\n2 ;;0 2 ;\n0 0 2 ;".as_slice()
    );
    Ok(())
}
