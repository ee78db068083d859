//! Flags and fixities, read from bytes.
ghost use Rattle.std.specs.Prelude.{◌≡◌};
ghost use Rattle.wire.specs.Reading.{Finds};
ghost use Rattle.decl_codec.specs.Reading as reading;

use face_model::fixity::{Assoc, Fixity};
use wire::get::byte_at;

/// The flag of a byte: 0 or 1; None at another byte.
fn flag_of(byte: u8) -> Option<bool>
    ensures { result ≡ reading.flag_of byte }
{
    if byte == 0 {
        return Some(false);
    }
    if byte == 1 {
        return Some(true);
    }
    None
}

/// A flag, and the bytes behind it.
#[tactic(auto, unfolding(crate::specs::Reading::flag_at))]
pub fn flag_at(bytes: &[u8]) -> Option<(bool, &[u8])>
    ensures { Finds (λ x. (x.0, x.1.now)) result (reading.flag_at bytes.now) }
{
    let (byte, rest) = byte_at(bytes)?;
    let flag = flag_of(byte)?;
    Some((flag, rest))
}

/// The fixity of a byte: 0 is none, else one more than ten times the side and the level (0 to 9); None from 31 on.
fn fix_of(byte: u8) -> Option<Option<Fixity>>
    ensures { result ≡ reading.fix_of byte }
{
    if byte == 0 {
        return Some(None);
    }
    if byte < 11 {
        let level = byte - 1;
        let assoc = Assoc::Left;
        return Some(Some(Fixity { assoc, level }));
    }
    if byte < 21 {
        let level = byte - 11;
        let assoc = Assoc::Right;
        return Some(Some(Fixity { assoc, level }));
    }
    if byte < 31 {
        let level = byte - 21;
        let assoc = Assoc::Neither;
        return Some(Some(Fixity { assoc, level }));
    }
    None
}

/// A fixity where there is one, and the bytes behind it.
#[tactic(auto, unfolding(crate::specs::Reading::fix_at))]
pub fn fix_at(bytes: &[u8]) -> Option<(Option<Fixity>, &[u8])>
    ensures { Finds (λ x. (x.0, x.1.now)) result (reading.fix_at bytes.now) }
{
    let (byte, rest) = byte_at(bytes)?;
    let fixity = fix_of(byte)?;
    Some((fixity, rest))
}
