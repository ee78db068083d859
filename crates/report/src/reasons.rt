//! Why a node was checked.
ghost use Rattle.std.specs.Prelude.{◌≡◌, ◌++◌, OnOk, codes};
ghost use Rattle.report.specs.Report.{hash_or_none, hash_text, reason_text, was_now};

use face_model::result::Reason;
use hex::encode_to_slice;
use mk_base::fingerprint::Fingerprint;
use mk_base::list::List;
use mk_base::memory::NoMemory;

// The reason; a usage is named by `subject`.
pub fn push_reason(out: &mut List<u8>, reason: &Reason, subject: &[u8]) -> Result<(), NoMemory>
    ensures { OnOk result (out.new ≡ out.old ++ reason_text reason.now subject.now) }
{
    match reason {
        Reason::NoInterface => out.extend(b"no interface"),
        Reason::Malformed => out.extend(b"malformed interface"),
        Reason::Old { found: _ } => out.extend(b"old interface"),
        Reason::Damaged { kept, found } => push_damage(out, *kept, *found),
        Reason::Other => out.extend(b"other interface"),
        Reason::Source { was, now } => push_change(out, b"source", Some(*was), Some(*now)),
        Reason::Flags { was, now } => push_change(out, b"flags", Some(*was), Some(*now)),
        Reason::Usage { at: _, was, now } => push_change(out, subject, *was, *now),
    }
}

fn push_damage(out: &mut List<u8>, kept: Fingerprint, found: Fingerprint) -> Result<(), NoMemory>
    ensures { OnOk result (out.new ≡ out.old ++ codes "damaged interface: kept " ++ hash_text kept ++ codes " found " ++ hash_text found) }
{
    out.extend(b"damaged interface: kept ")?;
    push_hash(out, kept)?;
    out.extend(b" found ")?;
    push_hash(out, found)
}

fn push_change(
    out: &mut List<u8>,
    what: &[u8],
    was: Option<Fingerprint>,
    now: Option<Fingerprint>,
) -> Result<(), NoMemory>
    ensures { OnOk result (out.new ≡ out.old ++ was_now what.now (hash_or_none was) (hash_or_none now)) }
{
    out.extend(what)?;
    out.extend(b": was ")?;
    push_hash_or_none(out, was)?;
    out.extend(b" now ")?;
    push_hash_or_none(out, now)
}

fn push_hash_or_none(out: &mut List<u8>, hash: Option<Fingerprint>) -> Result<(), NoMemory>
    ensures { OnOk result (out.new ≡ out.old ++ hash_or_none hash) }
{
    match hash {
        Some(hash) => push_hash(out, hash),
        None => out.extend(b"none"),
    }
}

// The fingerprint in lower-case hexadecimal digits.
fn push_hash(out: &mut List<u8>, hash: Fingerprint) -> Result<(), NoMemory>
    ensures { OnOk result (out.new ≡ out.old ++ hash_text hash) }
{
    let mut digits = [0; 32];
    encode_to_slice(hash.0, &mut digits).unwrap();
    out.extend(&digits)
}
