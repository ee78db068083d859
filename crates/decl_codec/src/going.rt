//! Going over the small parts of declarations without building them.
ghost use Rattle.std.specs.Prelude.{◌≡◌, ◌+◌, ◌<◌, ◌≤◌, ◌++◌, ◌∷◌, [], IfSome, IfOk, OnOk, length};
ghost use Rattle.wire.specs.Reading.{Finds};
ghost use Rattle.decl_codec.specs.Answers.{Gives};
ghost use Rattle.decl_codec.specs.Going as spec;
ghost use Rattle.decl_codec.specs.Going.{with_occs};
ghost use Rattle.decl_codec.specs.Blobs.{label_occs};

use crate::fault::Fault;
use crate::name::below_at;
use mk_base::list::List;
use mk_base::memory::NoMemory;
use mk_base::name::{Occ, Space};
use mk_base::text::Text;
use std::alloc::Global;
use wire::get::{byte_at, number_at};

/// What was seen on the way: the places of the names that occur, in their order, and the names that belong to
/// declarations (constructors, labels and methods).
#[derive(Debug, Drop)]
pub struct Seen {
    pub places: List<u64>,
    pub occs: List<Occ>,
}

/// The number of nodes of a kind with at most so many levels, and the bytes behind it.
#[tactic(auto, using(crate::proofs::Layers::go_kind_layer_of, crate::proofs::Layers::no_go_kind_levels, crate::proofs::Layers::no_go_kind_tag), unfolding(crate::specs::Going::go_kind_tagged))]
fn go_kind_tree(levels: u32, bytes: &[u8]) -> Option<(usize, &[u8])>
    ensures value { Finds (λ x. (x.0, x.1.now)) result (spec.go_kind_tree levels bytes.now) }
    ensures few { IfSome result (λ x. x.0 + length x.1.now ≤ length bytes.now) }
{
    if levels == 0 {
        return None;
    }
    let (tag, rest) = byte_at(bytes)?;
    if tag == 0 {
        return Some((1, rest));
    }
    if tag == 1 {
        let (from, rest) = go_kind_tree(levels - 1, rest)?;
        let (to, rest) = go_kind_tree(levels - 1, rest)?;
        return Some((from + to + 1, rest));
    }
    None
}

/// The bytes behind a kind; None where there is none.
#[tactic(auto, unfolding(crate::specs::Going::go_kind))]
pub fn go_kind(bytes: &[u8]) -> Option<&[u8]>
    ensures { Finds (λ rest. rest.now) result (spec.go_kind bytes.now) }
{
    let (nodes, rest) = go_kind_tree(1000, bytes)?;
    if 65_536 < nodes {
        return None;
    }
    Some(rest)
}

/// The bytes behind so many kinds.
fn go_kind_times(many: u64, bytes: &[u8]) -> Option<&[u8]>
    ensures { Finds (λ rest. rest.now) result (spec.go_kind_times many bytes.now) }
{
    let mut rest = bytes;
    for _ in 0..many {
        rest = go_kind(rest)?;
    }
    Some(rest)
}

/// How many kinds a list has, and the bytes behind it; None where there is none.
#[tactic(auto, unfolding(crate::specs::Going::go_kinds))]
pub fn go_kinds(bytes: &[u8]) -> Option<(u64, &[u8])>
    ensures { Finds (λ x. (x.0, x.1.now)) result (spec.go_kinds bytes.now) }
{
    let (many, rest) = number_at(bytes)?;
    let rest = go_kind_times(many, rest)?;
    Some((many, rest))
}

/// The bytes behind a name's place in a table of so many names; the place is kept.
#[tactic(auto, unfolding(crate::specs::Going::go_name))]
pub fn go_name<'a>(names: u64, seen: &mut Seen, bytes: &'a [u8]) -> Result<&'a [u8], Fault>
    ensures value { Gives (λ rest. (seen.new, rest.now)) result (spec.go_name names seen.old bytes.now) }
    ensures shorter { IfOk result (λ rest. length rest.now < length bytes.now) }
{
    let (place, rest) = below_at(names, bytes).ok_or(Fault::Malformed)?;
    seen.places.push(place)?;
    Ok(rest)
}

/// The number of nodes of a type with at most so many levels, its variables below the count, and the bytes behind it;
/// the places of its names are kept.
#[tactic(auto, using(crate::proofs::Layers::go_ty_layer_of, crate::proofs::Layers::no_go_ty_levels, crate::proofs::Layers::no_go_ty_tag), unfolding(crate::specs::Going::go_ty_tagged))]
fn go_ty_tree<'a>(
    names: u64,
    count: u64,
    levels: u32,
    seen: &mut Seen,
    bytes: &'a [u8],
) -> Result<(usize, &'a [u8]), Fault>
    ensures value { Gives (λ x. ((seen.new, x.0), x.1.now)) result (spec.go_ty_tree names levels count seen.old bytes.now) }
    ensures few { IfOk result (λ x. x.0 + length x.1.now ≤ length bytes.now) }
{
    if levels == 0 {
        return Err(Fault::Malformed);
    }
    let (tag, rest) = byte_at(bytes).ok_or(Fault::Malformed)?;
    if tag == 0 {
        let (_, rest) = below_at(count, rest).ok_or(Fault::Malformed)?;
        return Ok((1, rest));
    }
    if tag == 1 {
        let rest = go_name(names, seen, rest)?;
        return Ok((1, rest));
    }
    if tag == 2 {
        let (function, rest) = go_ty_tree(names, count, levels - 1, seen, rest)?;
        let (argument, rest) = go_ty_tree(names, count, levels - 1, seen, rest)?;
        return Ok((function + argument + 1, rest));
    }
    Err(Fault::Malformed)
}

/// The bytes behind a type; the places of its names are kept.
#[tactic(auto, unfolding(crate::specs::Going::go_ty))]
pub fn go_ty<'a>(
    names: u64,
    count: u64,
    seen: &mut Seen,
    bytes: &'a [u8],
) -> Result<&'a [u8], Fault>
    ensures { Gives (λ rest. (seen.new, rest.now)) result (spec.go_ty names count seen.old bytes.now) }
{
    let (nodes, rest) = go_ty_tree(names, count, 1000, seen, bytes)?;
    if 65_536 < nodes {
        return Err(Fault::Malformed);
    }
    Ok(rest)
}

/// Keeps a name that belongs to a declaration.
pub fn keep_occ(alloc: Global, seen: &mut Seen, space: Space, text: &[u8]) -> Result<(), NoMemory>
    ensures { OnOk result (seen.new ≡ with_occs seen.old (record { space = space; text = text.now } ∷ [])) }
{
    let text = Text::from_slice(alloc, text)?;
    seen.occs.push(Occ { space, text })
}

/// Keeps the label of a field; an empty text is no label.
pub fn keep_label(alloc: Global, seen: &mut Seen, label: &[u8]) -> Result<(), NoMemory>
    ensures { OnOk result (seen.new ≡ with_occs seen.old (label_occs label.now)) }
{
    if label.is_empty() {
        return Ok(());
    }
    keep_occ(alloc, seen, Space::Var, label)
}
