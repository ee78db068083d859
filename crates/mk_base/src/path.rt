//! Module paths: which files are modules, and of which nodes.
ghost use Rattle.std.specs.Prelude.{◌≡◌, map, IfOk, MatchOption, true, false};
ghost use Rattle.std.specs.List.{list_all};
ghost use Rattle.std.specs.Str.{chars};
ghost use Rattle.mk_base.specs.declared.name.Node.{Node};
ghost use Rattle.mk_base.specs.Classes.{class_of};
ghost use Rattle.mk_base.specs.Paths as spec;
ghost use Rattle.mk_base.specs.Paths.{IsModulePath, PathsAreTheirSpelling, PathsReadAsTheirNodes, IfaceNamesDiffer, ends_with, stem, pieces, in_place_of};

use crate::char_class::{CharClass, class_of};
use crate::memory::NoMemory;
use crate::name::{ModName, Node};
use crate::text::Text;
use std::alloc::{AllocError, Global};

/// The node whose file has this path, with `/` between the parts; None exactly where it is no module path.
pub fn node_of_path(alloc: Global, path: &str) -> Result<Option<Node>, NoMemory>
    ensures node { IfOk result (λ o. o ≡ spec.node_of path.now) }
    ensures spelling { IfOk result (λ o. MatchOption o ((n : Node) → IsModulePath path.now n → ⊥) (λ n. IsModulePath path.now n)) }
{
    node_of(alloc, path.as_bytes())
}

/// The node of a file by the bytes of its name; a name that isn't UTF-8 is no module path.
#[tactic(auto, unfolding(crate::specs::Paths::node_of))]
pub fn node_of(alloc: Global, path: &[u8]) -> Result<Option<Node>, NoMemory>
    ensures { IfOk result (λ o. o ≡ spec.node_of path.now) }
{
    if let Some(front) = before_end(path, b".hs-boot") {
        return node_at(alloc, front, true);
    }
    match before_end(path, b".hs") {
        Some(front) => node_at(alloc, front, false),
        None => Ok(None),
    }
}

/// The path of a node's file: `A/B.hs`, and of a boot node `A/B.hs-boot`.
pub fn path_of(alloc: Global, node: &Node) -> Result<Text, NoMemory>
    ensures { IfOk result (λ t. t ≡ spec.path_of node.now) }
{
    let mut path = replaced(alloc, node.module.text.as_slice(), b'.', b'/')?;
    let end: &[u8] = if node.boot { b".hs-boot" } else { b".hs" };
    path.extend_from_slice(end)?;
    Ok(Text::from_vec(path))
}

/// The name of a node's interface: `A.B.hsi`, and of a boot node `A.B.hsi-boot`.
pub fn iface_name(alloc: Global, node: &Node) -> Result<Text, NoMemory>
    ensures { IfOk result (λ t. t ≡ spec.iface_name node.now) }
{
    let mut name = node.module.text.copy(alloc)?;
    let end: &[u8] = if node.boot { b".hsi-boot" } else { b".hsi" };
    name.push_slice(end)?;
    Ok(name)
}

/// A path reads as a node exactly where it is that node's module path.
pub fn paths_are_their_spelling()
    ensures { PathsAreTheirSpelling }
{}

/// The path of a module's node reads as that node.
pub fn paths_read_as_their_nodes()
    ensures { PathsReadAsTheirNodes }
{}

/// Two nodes have interfaces of different names.
pub fn iface_names_differ()
    ensures { IfaceNamesDiffer }
{}

/// The path without this end; None where it has another end.
fn before_end<'a>(path: &'a [u8], end: &[u8]) -> Option<&'a [u8]>
    ensures { MatchOption result (ends_with end.now path.now ≡ false) (λ s. (ends_with end.now path.now ≡ true) × (s.now ≡ stem end.now path.now)) }
{
    path.strip_suffix(end)
}

/// The node of a module path without its end.
fn node_at(alloc: Global, front: &[u8], boot: bool) -> Result<Option<Node>, NoMemory>
    ensures { IfOk result (λ node. node ≡ spec.node_at boot front.now) }
{
    if !are_segments(front) || front == b"Prim".as_slice() {
        return Ok(None);
    }
    let text = Text::from_vec(replaced(alloc, front, b'/', b'.')?);
    Ok(Some(Node {
        module: ModName { text },
        boot,
    }))
}

/// Whether the parts between slashes are parts of a module's name.
fn are_segments(front: &[u8]) -> bool
    ensures { result ≡ list_all spec.is_segment (pieces 47 front.now) }
{
    front.split(|b| *b == b'/').all(|part| is_segment(part))
}

/// Whether a text is one part of a module's name.
fn is_segment(part: &[u8]) -> bool
    ensures { result ≡ spec.is_segment part.now }
{
    match str::from_utf8(part) {
        Ok(part) => is_conid(part),
        Err(_) => false,
    }
}

/// Whether a text is a conid (Haskell 2010 Report, section 2.4).
fn is_conid(text: &str) -> bool
    ensures { result ≡ spec.is_conid (chars text.now) }
{
    let mut rest = text.chars();
    match rest.next() {
        Some(first) => is_large(first) && rest.all(|c| is_in_conid(c)),
        None => false,
    }
}

fn is_large(c: char) -> bool
    ensures { result ≡ spec.is_large (class_of c) }
{
    matches!(class_of(c), CharClass::Large)
}

/// Whether a character may follow in a conid.
fn is_in_conid(c: char) -> bool
    ensures { result ≡ spec.is_in_conid c }
{
    match class_of(c) {
        CharClass::Small | CharClass::Large | CharClass::Digit => true,
        _ => c == '\'',
    }
}

/// A copy with one byte in the place of another.
fn replaced(alloc: Global, text: &[u8], old: u8, new: u8) -> Result<Vec<u8>, AllocError>
    ensures { IfOk result (λ v. v.items ≡ map (in_place_of old new) text.now) }
{
    text.iter()
        .map(|b| if *b == old { new } else { *b })
        .collect(alloc)
}
