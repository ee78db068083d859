//! Two classes made one.
ghost use Rattle.std.specs.Prelude.{◌≡◌, ◌≢◌, ◌<◌, ◌≤◌, ◌⊎◌, OnOk, length};
ghost use Rattle.term_classes.specs.Slots.{AreLinked, link_of, height_of};
ghost use Rattle.term_classes.specs.Undo.{Kept};
ghost use Rattle.term_classes.specs.Join.{JoinedAt};

use crate::node::{Saved, Slot};
use crate::write::write;
use mk_base::memory::NoMemory;

/// Links a root to another, no lower one.
fn link(
    slots: &mut [Slot],
    saved: &mut Vec<Saved>,
    from: usize,
    to: usize,
    shape: usize,
    rank: u64,
) -> Result<(), NoMemory>
    requires linked { AreLinked slots.old }
    requires from { (from < length slots.old) × (link_of slots.old from ≡ from) }
    requires to { (to < length slots.old) × (link_of slots.old to ≡ to) }
    requires other { from ≢ to }
    requires height { (height_of slots.old from ≤ height_of slots.old to) × (height_of slots.old to < 255) }
    ensures joined { OnOk result (JoinedAt slots.old slots.new from to shape rank saved.new.items) }
    ensures linked { OnOk result (AreLinked slots.new) }
    ensures kept { Kept slots.old slots.new saved.old.items saved.new.items }
{
    let lower = slots[from];
    let upper = slots[to];
    let height = if lower.height == upper.height {
        upper.height + 1
    } else {
        upper.height
    };
    let below = Slot {
        link: to,
        shape: lower.shape,
        rank: lower.rank,
        height: lower.height,
    };
    write(slots, saved, from, below)?;
    let above = Slot {
        link: to,
        shape,
        rank,
        height,
    };
    write(slots, saved, to, above)
}

/// Makes the classes of two roots one, whose shape and rank are given.
pub fn join(
    slots: &mut [Slot],
    saved: &mut Vec<Saved>,
    x: usize,
    y: usize,
    shape: usize,
    rank: u64,
) -> Result<(), NoMemory>
    requires linked { AreLinked slots.old }
    requires x { (x < length slots.old) × (link_of slots.old x ≡ x) }
    requires y { (y < length slots.old) × (link_of slots.old y ≡ y) }
    requires other { x ≢ y }
    ensures joined { OnOk result (JoinedAt slots.old slots.new x y shape rank saved.new.items ⊎ JoinedAt slots.old slots.new y x shape rank saved.new.items) }
    ensures linked { OnOk result (AreLinked slots.new) }
    ensures kept { Kept slots.old slots.new saved.old.items saved.new.items }
{
    if slots[x].height == 255 || slots[y].height == 255 {
        return Err(NoMemory);
    }
    if slots[x].height <= slots[y].height {
        link(slots, saved, x, y, shape, rank)
    } else {
        link(slots, saved, y, x, shape, rank)
    }
}
