//! Names as bytes: as places in a table, and in full.
ghost use Rattle.std.specs.Prelude.{◌≡◌, ◌<◌, IfSome, length};
ghost use Rattle.wire.specs.Reading.{Finds};
ghost use Rattle.wire.specs.Reading as wire_reading;
ghost use Rattle.decl_codec.specs.Answers.{Gives};
ghost use Rattle.decl_codec.specs.Names.{no_name};
ghost use Rattle.decl_codec.specs.Reading as reading;

use crate::fault::Fault;
use mk_base::name::{ModName, Name, Occ, Space, Unit};
use mk_base::text::Text;
use std::alloc::Global;
use wire::get::{byte_at, number_at, words_at};

/// A number below the count, and the bytes behind it; None where there is none.
#[tactic(auto, unfolding(crate::specs::Reading::below_at))]
pub fn below_at(count: u64, bytes: &[u8]) -> Option<(u64, &[u8])>
    ensures value { Finds (λ x. (x.0, x.1.now)) result (reading.below_at count bytes.now) }
    ensures bound { IfSome result (λ x. x.0 < count) }
    ensures shorter { IfSome result (λ x. length x.1.now < length bytes.now) }
{
    let (number, rest) = number_at(bytes)?;
    if number < count {
        Some((number, rest))
    } else {
        None
    }
}

/// The name at a place of the table, and the bytes behind the place.
#[tactic(auto, unfolding(crate::specs::Reading::name_at))]
pub fn name_at<'a>(
    alloc: Global,
    names: &[Name],
    bytes: &'a [u8],
) -> Result<(Name, &'a [u8]), Fault>
    ensures { Gives (λ x. (x.0, x.1.now)) result (reading.name_at names.now bytes.now) }
{
    let (place, rest) = below_at(names.len() as u64, bytes).ok_or(Fault::Malformed)?;
    let name = names[place as usize].copy(alloc)?;
    Ok((name, rest))
}

/// The space of a byte: 0 values, 1 constructors, 2 types and classes; None at another byte.
fn space_of(byte: u8) -> Option<Space>
    ensures { result ≡ reading.space_of byte }
{
    if byte == 0 {
        return Some(Space::Var);
    }
    if byte == 1 {
        return Some(Space::Con);
    }
    if byte == 2 {
        return Some(Space::Ty);
    }
    None
}

/// A text, and the bytes behind it.
pub fn text_at(alloc: Global, bytes: &[u8]) -> Result<(Text, &[u8]), Fault>
    ensures { Gives (λ x. (x.0, x.1.now)) result (wire_reading.text_at bytes.now) }
{
    let (text, rest) = words_at(bytes).ok_or(Fault::Malformed)?;
    let text = Text::from_slice(alloc, text)?;
    Ok((text, rest))
}

/// A full name, and the bytes behind it.
#[tactic(auto, unfolding(crate::specs::Reading::full_name_at))]
pub fn full_name_at(alloc: Global, bytes: &[u8]) -> Result<(Name, &[u8]), Fault>
    ensures { Gives (λ x. (x.0, x.1.now)) result (reading.full_name_at bytes.now) }
{
    let (unit, rest) = text_at(alloc, bytes)?;
    let (module, rest) = text_at(alloc, rest)?;
    let (byte, rest) = byte_at(rest).ok_or(Fault::Malformed)?;
    let space = space_of(byte).ok_or(Fault::Malformed)?;
    let (text, rest) = text_at(alloc, rest)?;
    let name = Name {
        unit: Unit { text: unit },
        module: ModName { text: module },
        occ: Occ { space, text },
    };
    Ok((name, rest))
}
