//! The nodes of a tree by their names, each with what it imports and with what is wrong with its own file.
ghost use Rattle.std.specs.Prelude.{◌≡◌, ◌<◌, ◌≤◌, ◌*◌, ◌^◌, IfOk, length};
ghost use Rattle.mod_graph.specs.Entries as spec;
ghost use Rattle.mod_graph.specs.Graph.{AreDistinct};
ghost use Rattle.mod_graph.specs.Ranked.{headers_in, misnamed};

use crate::input::HeaderOf;
use crate::prelude::effective_imports;
use hs_syntax::header::{Header, ImportItem};
use mk_base::diag::Diag;
use mk_base::list::List;
use mk_base::memory::NoMemory;
use mk_base::name::{Node, order_nodes};
use mk_base::place::Pos;
use mk_base::text::Text;
use std::alloc::Global;

/// The most bytes that a source may have.
const MOST_BYTES: u64 = 1_048_576;

/// The most bytes that the sources up to one may have together.
const MOST_BYTES_TOGETHER: u64 = 268_435_456;

/// The most modules that a tree may have.
const MOST_MODULES: usize = 4096;

/// The place of what a source doesn't say.
const FIRST_PLACE: Pos = Pos { line: 1, col: 1 };

/// A node with its effective imports, and the diagnostics of its own file: of its size, its header and its number.
#[derive(Debug, Drop)]
pub struct Entry {
    pub node: Node,
    pub imports: List<ImportItem>,
    pub own: List<Diag>,
}

/// A header where it stands, to be put in the order of the nodes.
#[derive(Drop)]
struct Ranked<'a> {
    header: &'a HeaderOf,
}

/// Where these headers stand, in the same order.
fn rank<'a>(alloc: Global, headers: &'a [HeaderOf]) -> Result<Vec<Ranked<'a>>, NoMemory>
    ensures { IfOk result (λ v. headers_in v.items ≡ headers.now) }
{
    let mut ranked = Vec::new(alloc);
    for header in headers {
        ranked.push(Ranked { header })?;
    }
    Ok(ranked)
}

/// Puts headers of different nodes in the order of their nodes.
fn sort_ranked(ranked: &mut [Ranked<'_>])
    requires { AreDistinct (headers_in ranked.old) }
    ensures { headers_in ranked.new ≡ spec.by_node (headers_in ranked.old) }
{
    ranked.sort_unstable_by(|a, b| order_nodes(&a.header.node, &b.header.node));
}

/// What a source of this size counts among the bytes of all sources.
fn counted(size: u64) -> u64
    ensures counted { result ≡ spec.counted size }
    ensures most { result ≤ 1048577 }
{
    size.min(MOST_BYTES + 1)
}

/// Whether a source is too large, where the sources before it have so many bytes.
fn is_too_large(before: u64, size: u64) -> bool
    requires { before ≤ 2 ^ 32 * 1048577 }
    ensures { result ≡ spec.is_too_large before size }
{
    size > MOST_BYTES || before + counted(size) > MOST_BYTES_TOGETHER
}

/// What a module imports, the implicit import of Prelude too, where `prelude` says whether that is there if the module's
/// pragmas say nothing; nothing where a diagnostic stands in place of its header. NoMemory where memory runs out.
pub fn imports_in(
    alloc: Global,
    prelude: bool,
    header: &Result<Header, Diag>,
) -> Result<List<ImportItem>, NoMemory>
    ensures { IfOk result (λ is. is ≡ spec.imports_in prelude header.now) }
{
    match header {
        Ok(header) => effective_imports(alloc, header, header.prelude.unwrap_or(prelude)),
        Err(_) => Ok(List::new(alloc)),
    }
}

/// The effective imports of a module; none where its source is too large.
fn imports_unless(
    alloc: Global,
    large: bool,
    prelude: bool,
    header: &Result<Header, Diag>,
) -> Result<List<ImportItem>, NoMemory>
    ensures { IfOk result (λ is. is ≡ spec.imports_unless large prelude header.now) }
{
    if large {
        return Ok(List::new(alloc));
    }
    imports_in(alloc, prelude, header)
}

/// The diagnostic of a source that is too large.
fn too_large(alloc: Global) -> Result<Diag, NoMemory>
    ensures { IfOk result (λ d. d ≡ spec.too_large) }
{
    let text = Text::from_slice(alloc, b"source is too large")?;
    Ok(Diag {
        at: FIRST_PLACE,
        code: 6,
        text,
    })
}

/// The diagnostic of a node whose number is past the most.
fn too_many(alloc: Global) -> Result<Diag, NoMemory>
    ensures { IfOk result (λ d. d ≡ spec.too_many) }
{
    let text = Text::from_slice(alloc, b"too many modules")?;
    Ok(Diag {
        at: FIRST_PLACE,
        code: 7,
        text,
    })
}

/// The diagnostic of a header that names another module than its file.
fn misnamed_header(alloc: Global, header: &Header) -> Result<Diag, NoMemory>
    ensures { IfOk result (λ d. d ≡ misnamed header.now) }
{
    let mut text = Text::from_slice(alloc, b"header names ")?;
    text.push_slice(header.name.text.as_slice())?;
    Ok(Diag {
        at: header.at,
        code: 13,
        text,
    })
}

/// The diagnostics of a header, or of what stands in its place, in the file of the module with this name.
fn header_errors(
    alloc: Global,
    name: &Text,
    header: &Result<Header, Diag>,
) -> Result<List<Diag>, NoMemory>
    ensures { IfOk result (λ ds. ds ≡ spec.header_errors name.now header.now) }
{
    let mut errors = List::new(alloc);
    match header {
        Ok(header) => {
            if header.name.text != *name {
                errors.push(misnamed_header(alloc, header)?)?;
            }
        }
        Err(error) => errors.push(error.copy(alloc)?)?,
    }
    Ok(errors)
}

/// The diagnostics of a file: of its size or else its header, and of its number.
fn own_errors(
    alloc: Global,
    number: usize,
    large: bool,
    header: &HeaderOf,
) -> Result<List<Diag>, NoMemory>
    ensures { IfOk result (λ ds. ds ≡ spec.own_errors number large header.now) }
{
    let mut errors = if large {
        let mut errors = List::new(alloc);
        errors.push(too_large(alloc)?)?;
        errors
    } else {
        header_errors(alloc, &header.node.module.text, &header.header)?
    };
    if number >= MOST_MODULES {
        errors.push(too_many(alloc)?)?;
    }
    Ok(errors)
}

/// The entry of the node with this number.
fn entry_of(
    alloc: Global,
    prelude: bool,
    number: usize,
    large: bool,
    header: &HeaderOf,
) -> Result<Entry, NoMemory>
    ensures { IfOk result (λ e. e ≡ spec.entry_of prelude number large header.now) }
{
    let node = header.node.copy(alloc)?;
    let imports = imports_unless(alloc, large, prelude, &header.header)?;
    let own = own_errors(alloc, number, large, header)?;
    Ok(Entry { node, imports, own })
}

/// The entries of headers that stand in the order of their nodes.
fn entries_from(alloc: Global, ranked: &[Ranked<'_>], prelude: bool) -> Result<Vec<Entry>, NoMemory>
    requires { length ranked.now < 2 ^ 32 }
    ensures { IfOk result (λ es. es.items ≡ spec.entries_from prelude 0 0 (headers_in ranked.now)) }
{
    let mut entries = Vec::new(alloc);
    let mut before: u64 = 0;
    for (number, next) in ranked.iter().enumerate() {
        let header = next.header;
        let large = is_too_large(before, header.size);
        entries.push(entry_of(alloc, prelude, number, large, header)?)?;
        before += counted(header.size);
    }
    Ok(entries)
}

/// The entries of a tree, by node: by module, and the boot node before the real one. `prelude` says whether Prelude is
/// imported where a module's pragmas say nothing.
pub fn entries_of(
    alloc: Global,
    headers: &[HeaderOf],
    prelude: bool,
) -> Result<Vec<Entry>, NoMemory>
    requires distinct { AreDistinct headers.now }
    requires few { length headers.now < 2 ^ 32 }
    ensures { IfOk result (λ es. es.items ≡ spec.entries_of prelude headers.now) }
{
    let mut ranked = rank(alloc, headers)?;
    sort_ranked(&mut ranked);
    entries_from(alloc, &ranked, prelude)
}
