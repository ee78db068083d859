//! Kinds, read from bytes.
ghost use Rattle.std.specs.Prelude.{◌≡◌, ◌+◌, ◌<◌, IfSome, IfNone};
ghost use Rattle.decl_codec.specs.Answers.{Gives};
ghost use Rattle.decl_codec.specs.Blobs.{kind_nodes};
ghost use Rattle.decl_codec.specs.Reading as reading;

use crate::fault::Fault;
use mk_base::kind::Kind;
use sqlite_items::Boxed;
use std::alloc::Global;
use wire::get::byte_at;

/// A kind with at most so many levels, and the bytes behind it. It recurses no deeper than these.
#[tactic(auto, using(crate::proofs::Layers::kind_layer_of, crate::proofs::Layers::no_kind_levels, crate::proofs::Layers::no_kind_tag), unfolding(crate::specs::Reading::kind_layer, crate::specs::Reading::kind_tagged))]
fn kind_tree_at(alloc: Global, levels: u32, bytes: &[u8]) -> Result<(Kind, &[u8]), Fault>
    ensures { Gives (λ x. (x.0, x.1.now)) result (reading.kind_tree_at levels bytes.now) }
{
    if levels == 0 {
        return Err(Fault::Malformed);
    }
    let (tag, rest) = byte_at(bytes).ok_or(Fault::Malformed)?;
    if tag == 0 {
        return Ok((Kind::Star, rest));
    }
    if tag == 1 {
        let (from, rest) = kind_tree_at(alloc, levels - 1, rest)?;
        let (to, rest) = kind_tree_at(alloc, levels - 1, rest)?;
        let from = Boxed::new(alloc, from)?;
        let to = Boxed::new(alloc, to)?;
        return Ok((Kind::Arrow(from, to), rest));
    }
    Err(Fault::Malformed)
}

/// How many of so many nodes are left behind those of a kind; None where it has more.
fn nodes_left(kind: &Kind, most: u32) -> Option<u32>
    ensures found { IfSome result (λ left. left + kind_nodes kind.now ≡ most) }
    ensures none { IfNone result (most < kind_nodes kind.now) }
{
    if most == 0 {
        return None;
    }
    match kind {
        Kind::Star => Some(most - 1),
        Kind::Arrow(from, to) => {
            let left = nodes_left(from.get(), most - 1)?;
            nodes_left(to.get(), left)
        }
    }
}

/// A kind with at most 1,000 levels and 65,536 nodes, and the bytes behind it.
#[tactic(auto, unfolding(crate::specs::Reading::kind_at))]
pub fn kind_at(alloc: Global, bytes: &[u8]) -> Result<(Kind, &[u8]), Fault>
    ensures { Gives (λ x. (x.0, x.1.now)) result (reading.kind_at bytes.now) }
{
    let (kind, rest) = kind_tree_at(alloc, 1000, bytes)?;
    if nodes_left(&kind, 65_536).is_none() {
        return Err(Fault::Malformed);
    }
    Ok((kind, rest))
}
