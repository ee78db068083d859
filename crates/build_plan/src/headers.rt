//! The headers of a tree's sources.
ghost use Rattle.std.specs.Prelude.{◌≡◌, ◌≤◌, IfOk, List as Row, ℕ, length, map};
ghost use Rattle.hs_header.specs.Reading.{header_of};
ghost use Rattle.mod_graph.specs.Entries as entries;
ghost use Rattle.build_plan.specs.Tree as spec;
ghost use Rattle.build_plan.specs.Positions.{pairs};

use crate::sources::Source;
use hs_header::header_err::HeaderErr;
use hs_header::read::read_header;
use hs_lex::told::no_lexeme;
use hs_syntax::header::{Header, ImportItem};
use mk_base::diag::Diag;
use mk_base::list::List;
use mk_base::memory::NoMemory;
use mk_base::name::{ModName, Node};
use mk_base::place::Pos;
use mk_base::text::Text;
use mod_graph::input::HeaderOf;
use mod_graph::prelude::effective_imports;
use std::alloc::Global;

/// The most bytes that a source may have.
const MOST_BYTES: usize = 1_048_576;

/// The diagnostic of a lexeme with which a source leaves the grammar of headers.
fn no_header(alloc: Global, at: Pos) -> Result<Diag, NoMemory>
    ensures { IfOk result (λ d. d ≡ spec.no_header at) }
{
    let text = Text::from_slice(alloc, b"this is no module header")?;
    Ok(Diag { at, code: 3, text })
}

/// The diagnostic of an extension that isn't known.
fn unknown_extension(alloc: Global, at: Pos, name: &Text) -> Result<Diag, NoMemory>
    ensures { IfOk result (λ d. d ≡ spec.unknown_extension at name.now) }
{
    let mut text = Text::from_slice(alloc, b"unknown extension ")?;
    text.push_slice(name.as_slice())?;
    Ok(Diag { at, code: 5, text })
}

/// The header that a file counts as which isn't read: of its module's name, without imports.
fn unread(alloc: Global, name: &ModName) -> Result<Header, NoMemory>
    ensures { IfOk result (λ h. h ≡ spec.unread name.now.text) }
{
    Ok(Header {
        name: name.copy(alloc)?,
        at: Pos { line: 1, col: 1 },
        exports: None,
        imports: List::new(alloc),
        prelude: Some(false),
        restrict: None,
    })
}

/// The header of a source, or the diagnostic that it has in place of one.
#[tactic(auto, using(crate::proofs::Told::unknown_told))]
fn told(alloc: Global, source: &[u8]) -> Result<Result<Header, Diag>, NoMemory>
    requires { length source.now ≤ 1048576 }
    ensures { IfOk result (λ r. r ≡ spec.told (header_of source.now)) }
{
    match read_header(alloc, source) {
        Ok(header) => Ok(Ok(header)),
        Err(HeaderErr::Lexeme(at)) => Ok(Err(no_lexeme(alloc, at)?)),
        Err(HeaderErr::Grammar(at)) => Ok(Err(no_header(alloc, at)?)),
        Err(HeaderErr::Extension { at, name }) => Ok(Err(unknown_extension(alloc, at, &name)?)),
        Err(HeaderErr::NoMemory) => Err(NoMemory),
    }
}

/// The header of a node's source; a boot file and a source of over 1,048,576 bytes aren't read.
fn header_at(alloc: Global, node: &Node, bytes: &[u8]) -> Result<Result<Header, Diag>, NoMemory>
    ensures { IfOk result (λ r. r ≡ spec.header_at node.now bytes.now) }
{
    if node.boot || bytes.len() > MOST_BYTES {
        return Ok(Ok(unread(alloc, &node.module)?));
    }
    told(alloc, bytes)
}

/// The headers of some sources, in their order.
pub fn headers_of(alloc: Global, sources: &[Source<'_>]) -> Result<List<HeaderOf>, NoMemory>
    ensures { IfOk result (λ hs. hs ≡ map spec.header_for (pairs sources.now)) }
{
    let mut headers = List::new(alloc);
    for source in sources {
        headers.push(HeaderOf {
            node: source.node.copy(alloc)?,
            size: source.bytes.len() as u64,
            header: header_at(alloc, &source.node, source.bytes)?,
        })?;
    }
    Ok(headers)
}

/// What a module imports, the implicit import of Prelude too; `prelude` says whether that is there where the module's
/// pragmas say nothing.
pub fn imports_in(
    alloc: Global,
    header: &Result<Header, Diag>,
    prelude: bool,
) -> Result<List<ImportItem>, NoMemory>
    ensures { IfOk result (λ is. is ≡ entries.imports_in prelude header.now) }
{
    match header {
        Ok(header) => effective_imports(alloc, header, header.prelude.unwrap_or(prelude)),
        Err(_) => Ok(List::new(alloc)),
    }
}
