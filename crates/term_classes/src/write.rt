//! Writes that can be undone.
ghost use Rattle.std.specs.Prelude.{◌≡◌, ◌<◌, OnOk, length, slice_set};
ghost use Rattle.term_classes.specs.Undo.{rewound, HoldsPlaces, IsPlace, Kept};

use crate::node::{Saved, Slot};
use mk_base::memory::NoMemory;

/// Writes a slot, and keeps what stood there.
pub fn write(
    slots: &mut [Slot],
    saved: &mut Vec<Saved>,
    at: usize,
    slot: Slot,
) -> Result<(), NoMemory>
    requires at { at < length slots.old }
    ensures slots { OnOk result (slots.new ≡ slice_set slots.old at slot) }
    ensures place { OnOk result (IsPlace saved.new.items at) }
    ensures kept { Kept slots.old slots.new saved.old.items saved.new.items }
{
    let before = slots[at];
    saved.push(Saved { at, slot: before })?;
    slots[at] = slot;
    Ok(())
}

/// Puts everything back that was written, the latest first.
pub fn undo(slots: &mut [Slot], saved: &mut Vec<Saved>)
    requires places { HoldsPlaces (length slots.old) saved.old.items }
    ensures { slots.new ≡ rewound saved.old.items slots.old }
{
    while let Some(Saved { at, slot }) = saved.pop() {
        slots[at] = slot;
    }
}
