//! Exports, read from bytes.
ghost use Rattle.std.specs.Prelude.{◌≡◌};
ghost use Rattle.decl_codec.specs.Answers.{Gives};
ghost use Rattle.decl_codec.specs.Exports as reading;

use crate::fault::Fault;
use crate::items::Wired;
use crate::name::name_at;
use face_model::export::Export;
use mk_base::name::Name;
use std::alloc::Global;
use wire::get::number_at;

/// What an exported name belongs to: one more than the place of its parent, or 0 where it has none.
#[tactic(auto, unfolding(crate::specs::Exports::parent_at))]
fn parent_at<'a>(
    alloc: Global,
    names: &[Name],
    bytes: &'a [u8],
) -> Result<(Option<Name>, &'a [u8]), Fault>
    ensures { Gives (λ x. (x.0, x.1.now)) result (reading.parent_at names.now bytes.now) }
{
    let (number, rest) = number_at(bytes).ok_or(Fault::Malformed)?;
    if number == 0 {
        return Ok((None, rest));
    }
    if (names.len() as u64) < number {
        return Err(Fault::Malformed);
    }
    let parent = names[(number - 1) as usize].copy(alloc)?;
    Ok((Some(parent), rest))
}

impl Wired for Export {
    ghost use Rattle.decl_codec.specs.Exports as reading;

    ghost reads = { λ names count bytes. reading.export_at names bytes };

    #[tactic(auto, unfolding(crate::specs::Exports::export_at))]
    fn at<'a>(
        alloc: Global,
        names: &[Name],
        _count: u64,
        bytes: &'a [u8],
    ) -> Result<(Export, &'a [u8]), Fault> {
        let (name, rest) = name_at(alloc, names, bytes)?;
        let (parent, rest) = parent_at(alloc, names, rest)?;
        Ok((Export { name, parent }, rest))
    }
}
