//! Lists of anything that is read.
ghost use Rattle.std.specs.Prelude.{◌≡◌, ℕ, List, Option};
ghost use Rattle.wire.specs.Reading.{list_at, times};
ghost use Rattle.decl_codec.specs.Answers.{Gives};

use crate::fault::Fault;
use mk_base::list::List as Items;
use mk_base::name::Name;
use std::alloc::Global;
use wire::get::number_at;

/// What is read from bytes, with its names as places in a table and its type variables below a count.
pub trait Wired: Drop {
    ghost use Rattle.std.specs.Prelude.{ℕ, List, Option};
    ghost use Rattle.mk_base.specs.declared.name.Name as names;

    // the value at the front of some bytes
    ghost reads: { List names.Name → ℕ → List ℕ → Option (Self × List ℕ) };

    /// The value at the front of the bytes, and the bytes behind it.
    fn at<'a>(
        alloc: Global,
        names: &[Name],
        count: u64,
        bytes: &'a [u8],
    ) -> Result<(Self, &'a [u8]), Fault>
    where
        Self: Sized,
        ensures { Gives (λ x. (x.0, x.1.now)) result (reads names.now count bytes.now) };
}

/// So many values, one behind another.
fn times_at<'a, T: Wired>(
    alloc: Global,
    names: &[Name],
    count: u64,
    many: u64,
    bytes: &'a [u8],
) -> Result<(Items<T>, &'a [u8]), Fault>
    ensures { Gives (λ x. (x.0, x.1.now)) result (times (T.reads names.now count) many bytes.now) }
{
    let mut items = Items::new(alloc);
    let mut rest = bytes;
    for _ in 0..many {
        let (item, after) = T::at(alloc, names, count, rest)?;
        items.push(item)?;
        rest = after;
    }
    Ok((items, rest))
}

/// A count, and so many values. No memory is taken for the count alone.
#[tactic(auto, unfolding(wire::specs::Reading::list_at))]
pub fn items_at<'a, T: Wired>(
    alloc: Global,
    names: &[Name],
    count: u64,
    bytes: &'a [u8],
) -> Result<(Items<T>, &'a [u8]), Fault>
    ensures { Gives (λ x. (x.0, x.1.now)) result (list_at (T.reads names.now count) bytes.now) }
{
    let (many, rest) = number_at(bytes).ok_or(Fault::Malformed)?;
    times_at(alloc, names, count, many, rest)
}
