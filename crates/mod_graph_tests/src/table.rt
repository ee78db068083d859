//! How the tables of the tests are read.
use hs_syntax::header::{Header, ImportItem};
use hs_syntax::name_ref::NameRef;
use mk_base::list::List;
use mk_base::memory::NoMemory;
use mk_base::name::{ModName, Node, Unit};
use mk_base::place::Pos;
use mk_base::text::Text;
use mod_graph::input::HeaderOf;
use package_graph::modules::{PackageModule, PackageState};
use std::alloc::Global;

/// A text of these bytes.
pub fn text(alloc: Global, bytes: &[u8]) -> Result<Text, NoMemory> {
    Text::from_slice(alloc, bytes)
}

/// The two parts before and behind the first such byte; the second is empty where there is none.
pub fn cut_at(bytes: &[u8], mark: u8) -> (&[u8], &[u8]) {
    match bytes.iter().position(|byte| *byte == mark) {
        Some(at) if at < bytes.len() => (&bytes[..at], &bytes[at + 1..]),
        _ => (bytes, &[]),
    }
}

/// A word without this byte at its end, and whether it was there.
fn without_end(bytes: &[u8], mark: u8) -> (&[u8], bool) {
    match bytes {
        [rest @ .., last] if *last == mark => (rest, true),
        _ => (bytes, false),
    }
}

/// An import, as a word of the table.
fn import(alloc: Global, word: &[u8], line: u32) -> Result<ImportItem, NoMemory> {
    let (name, source) = match word {
        [b'~', rest @ ..] => (rest, true),
        _ => (word, false),
    };
    let module = NameRef {
        qualifier: Text::new(alloc),
        text: text(alloc, name)?,
        at: Pos { line, col: 8 },
        to: None,
    };
    Ok(ImportItem {
        at: Pos { line, col: 1 },
        source,
        qualified: false,
        module,
        alias: None,
        list: None,
    })
}

/// A header of a module that imports these, with commas between.
pub fn header(alloc: Global, name: &[u8], imports: &[u8]) -> Result<Header, NoMemory> {
    let mut all = List::new(alloc);
    let mut line: u32 = 2;
    for word in imports.split(|byte| *byte == b',') {
        if !word.is_empty() {
            all.push(import(alloc, word, line)?)?;
            line = line.saturating_add(1);
        }
    }
    Ok(Header {
        name: ModName {
            text: text(alloc, name)?,
        },
        at: Pos { line: 1, col: 8 },
        exports: None,
        imports: all,
        prelude: None,
        restrict: None,
    })
}

/// A node, as a word of the table.
pub fn node(alloc: Global, word: &[u8]) -> Result<Node, NoMemory> {
    let (name, boot) = without_end(word, b'!');
    let text = text(alloc, name)?;
    Ok(Node {
        module: ModName { text },
        boot,
    })
}

/// The nodes of a tree, with spaces between.
pub fn headers(alloc: Global, words: &[u8]) -> Result<List<HeaderOf>, NoMemory> {
    let mut all = List::new(alloc);
    for word in words.split(|byte| *byte == b' ') {
        if !word.is_empty() {
            let (name, imports) = cut_at(word, b':');
            let node = node(alloc, name)?;
            let header = Ok(header(alloc, node.module.text.as_slice(), imports)?);
            all.push(HeaderOf {
                node,
                size: 10,
                header,
            })?;
        }
    }
    Ok(all)
}

/// A module of a package, as a word of the table.
fn package(alloc: Global, word: &[u8]) -> Result<PackageModule, NoMemory> {
    let (unit, rest) = cut_at(word, b'/');
    let (name, names) = cut_at(rest, b':');
    let (name, damaged) = without_end(name, b'*');
    let (name, dangling) = without_end(name, b'?');
    let mut reaches = List::new(alloc);
    for other in names.split(|byte| *byte == b',') {
        if !other.is_empty() {
            let text = text(alloc, other)?;
            reaches.push(ModName { text })?;
        }
    }
    let state = if damaged {
        PackageState::Damaged
    } else if dangling {
        PackageState::Dangling
    } else {
        PackageState::Good
    };
    Ok(PackageModule {
        unit: Unit {
            text: text(alloc, unit)?,
        },
        module: ModName {
            text: text(alloc, name)?,
        },
        reaches,
        state,
    })
}

/// The modules of packages, with spaces between.
pub fn packages(alloc: Global, words: &[u8]) -> Result<List<PackageModule>, NoMemory> {
    let mut all = List::new(alloc);
    for word in words.split(|byte| *byte == b' ') {
        if !word.is_empty() {
            all.push(package(alloc, word)?)?;
        }
    }
    Ok(all)
}
