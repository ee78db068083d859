//! Writing a whole text.
ghost use Rattle.std.specs.Prelude.{OnOk, OnErr};
ghost use Rattle.std.specs.Io.KnownBytes.{Appends};
ghost use Rattle.mk_io.specs.Outside.{HasIoCause, AppendsFront};

use crate::outside::{IoErr, Sink};

/// Writes a whole text, in as many pieces as the sink takes.
///
/// At an error the sink has taken a front of the text: at `Failed` with part of the piece that failed, at `NoMemory`
/// just the pieces before it. A fault is counted exactly at `Failed`.
pub fn write_all<K: Sink>(sink: &mut K, text: &[u8]) -> Result<(), IoErr>
    ensures ok { OnOk result (Appends (K.taken sink.old) (K.taken sink.new) text.now) }
    ensures err { OnErr result (AppendsFront (K.taken sink.old) (K.taken sink.new) text.now) }
    ensures cause { HasIoCause (K.faults sink.old) (K.faults sink.new) result }
{
    let mut at = 0;
    while at < text.len() {
        at += sink.write(&text[at..])?;
    }
    Ok(())
}
