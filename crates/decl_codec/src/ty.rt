//! Types, read from bytes.
ghost use Rattle.std.specs.Prelude.{◌≡◌, ◌+◌, ◌<◌, IfSome, IfNone};
ghost use Rattle.decl_codec.specs.Answers.{Gives};
ghost use Rattle.decl_codec.specs.Blobs.{nodes_of};
ghost use Rattle.decl_codec.specs.Reading as reading;

use crate::fault::Fault;
use crate::name::{below_at, name_at};
use mk_base::name::Name;
use mk_base::ty::Ty;
use sqlite_items::Boxed;
use std::alloc::Global;
use wire::get::byte_at;

/// A type with at most so many levels, its variables below the count, and the bytes behind it. It recurses no deeper
/// than these levels.
#[tactic(auto, using(crate::proofs::Layers::ty_layer_of, crate::proofs::Layers::no_ty_levels, crate::proofs::Layers::no_ty_tag), unfolding(crate::specs::Reading::ty_layer, crate::specs::Reading::ty_tagged))]
fn ty_tree_at<'a>(
    alloc: Global,
    names: &[Name],
    count: u64,
    levels: u32,
    bytes: &'a [u8],
) -> Result<(Ty, &'a [u8]), Fault>
    ensures { Gives (λ x. (x.0, x.1.now)) result (reading.ty_tree_at (reading.name_at names.now) levels count bytes.now) }
{
    if levels == 0 {
        return Err(Fault::Malformed);
    }
    let (tag, rest) = byte_at(bytes).ok_or(Fault::Malformed)?;
    if tag == 0 {
        let (number, rest) = below_at(count, rest).ok_or(Fault::Malformed)?;
        return Ok((Ty::Var(number), rest));
    }
    if tag == 1 {
        let (name, rest) = name_at(alloc, names, rest)?;
        return Ok((Ty::Con(name), rest));
    }
    if tag == 2 {
        let (function, rest) = ty_tree_at(alloc, names, count, levels - 1, rest)?;
        let (argument, rest) = ty_tree_at(alloc, names, count, levels - 1, rest)?;
        let function = Boxed::new(alloc, function)?;
        let argument = Boxed::new(alloc, argument)?;
        return Ok((Ty::App(function, argument), rest));
    }
    Err(Fault::Malformed)
}

/// How many of so many nodes are left behind those of a type; None where it has more.
fn nodes_left(ty: &Ty, most: u32) -> Option<u32>
    ensures found { IfSome result (λ left. left + nodes_of ty.now ≡ most) }
    ensures none { IfNone result (most < nodes_of ty.now) }
{
    if most == 0 {
        return None;
    }
    match ty {
        Ty::Var(_) | Ty::Con(_) => Some(most - 1),
        Ty::App(function, argument) => {
            let left = nodes_left(function.get(), most - 1)?;
            nodes_left(argument.get(), left)
        }
    }
}

/// A type with at most 1,000 levels and 65,536 nodes, its variables below the count, and the bytes behind it.
#[tactic(auto, unfolding(crate::specs::Reading::ty_at))]
pub fn ty_at<'a>(
    alloc: Global,
    names: &[Name],
    count: u64,
    bytes: &'a [u8],
) -> Result<(Ty, &'a [u8]), Fault>
    ensures { Gives (λ x. (x.0, x.1.now)) result (reading.ty_at (reading.name_at names.now) count bytes.now) }
{
    let (ty, rest) = ty_tree_at(alloc, names, count, 1000, bytes)?;
    if nodes_left(&ty, 65_536).is_none() {
        return Err(Fault::Malformed);
    }
    Ok((ty, rest))
}
