//! Ceilings of classes: a number for each, such that what has a part in the class stands no lower. They tell how high a
//! class may stand, so that a variable can get a rank above those of the parts of its value. They only go down, so they
//! stay right where a call is undone.
ghost use Rattle.std.specs.Prelude.{◌≡◌, ◌≢◌, ◌<◌, ◌≤◌, ◌⊎◌, ℕ, OnOk, length};
ghost use Rattle.term_classes.specs.Slots.{AreLinked, link_of};
ghost use Rattle.term_classes.specs.Undo.{IsPlace, HoldsPlaces, Kept};
ghost use Rattle.term_classes.specs.Fits.{Sound, node_at};
ghost use Rattle.term_classes.specs.Ceilings.{ceiling_of, PartsCapped, IsCapped, Lowered, BothLow, AreJoined};

use crate::find::find;
use crate::join::join;
use crate::node::{Node, Saved, Slot};
use mk_base::memory::NoMemory;

/// How far a variable's class is put above the parts of its value where there is room, 2^20.
pub const GAP: u64 = 1048576;

/// Sees to it that the ceiling of a class is no higher than a number.
fn lower_ceiling(ceilings: &mut [u64], at: usize, most: u64)
    requires at { at < length ceilings.old }
    ensures lowered { Lowered ceilings.old ceilings.new }
    ensures under { ceiling_of ceilings.new at ≤ most }
{
    ceilings[at] = ceilings[at].min(most);
}

/// Gives two classes the lower of their ceilings.
fn lower_both(ceilings: &mut [u64], x: usize, y: usize)
    requires x { x < length ceilings.old }
    requires y { y < length ceilings.old }
    ensures { BothLow ceilings.old ceilings.new x y }
{
    let most = ceilings[x].min(ceilings[y]);
    lower_ceiling(ceilings, x, most);
    lower_ceiling(ceilings, y, most);
}

/// Sees to it that the ceilings of the parts of a term are no higher than a number.
pub fn cap_parts(nodes: &[Node], slots: &[Slot], ceilings: &mut [u64], at: usize, most: u64)
    requires sound { Sound nodes.now slots.now }
    requires len { length ceilings.old ≡ length slots.now }
    requires at { at < length nodes.now }
    ensures lowered { Lowered ceilings.old ceilings.new }
    ensures capped { PartsCapped (node_at nodes.now at) slots.now ceilings.new most }
{
    match &nodes[at] {
        Node::App(f, a) => {
            lower_ceiling(ceilings, find(slots, *f), most);
            lower_ceiling(ceilings, find(slots, *a), most);
        }
        _ => {}
    }
}

/// Sees to it that the ceilings of the parts of a class are no higher than its rank.
fn cap_class(nodes: &[Node], slots: &[Slot], ceilings: &mut [u64], at: usize)
    requires sound { Sound nodes.now slots.now }
    requires len { length ceilings.old ≡ length slots.now }
    requires at { at < length slots.now }
    ensures lowered { Lowered ceilings.old ceilings.new }
    ensures capped { link_of slots.now at ≡ at → IsCapped nodes.now slots.now ceilings.new at }
{
    cap_parts(nodes, slots, ceilings, slots[at].shape, slots[at].rank);
}

/// The same for all that was saved.
pub fn cap_saved(nodes: &[Node], slots: &[Slot], ceilings: &mut [u64], saved: &[Saved])
    requires sound { Sound nodes.now slots.now }
    requires len { length ceilings.old ≡ length slots.now }
    requires places { HoldsPlaces (length slots.now) saved.now }
    ensures lowered { Lowered ceilings.old ceilings.new }
    ensures capped { (i : ℕ) → IsPlace saved.now i → link_of slots.now i ≡ i → IsCapped nodes.now slots.now ceilings.new i }
{
    for one in saved {
        cap_class(nodes, slots, ceilings, one.at);
    }
}

/// The highest rank of the parts of a term; 0 where it has none.
pub fn floor_of(nodes: &[Node], slots: &[Slot], at: usize) -> u64
    requires sound { Sound nodes.now slots.now }
    requires at { at < length nodes.now }
{
    match &nodes[at] {
        Node::App(f, a) => slots[find(slots, *f)].rank.max(slots[find(slots, *a)].rank),
        _ => 0,
    }
}

/// A rank for two classes that are made one, above the floor where there is room.
fn joined_rank(low: u64, floor: u64, ceiling: u64) -> u64
    ensures { (result ≤ low) ⊎ (result < ceiling) }
{
    if floor < low {
        return low;
    }
    let high = floor.saturating_add(GAP).min(ceiling.saturating_sub(1));
    if high > floor {
        return high;
    }
    low
}

/// Makes the classes of two roots one, whose shape is given.
pub fn join_classes(
    nodes: &[Node],
    slots: &mut [Slot],
    saved: &mut Vec<Saved>,
    ceilings: &mut [u64],
    x: usize,
    y: usize,
    shape: usize,
) -> Result<(), NoMemory>
    requires sound { Sound nodes.now slots.old }
    requires len { length ceilings.old ≡ length slots.old }
    requires x { (x < length slots.old) × (link_of slots.old x ≡ x) }
    requires y { (y < length slots.old) × (link_of slots.old y ≡ y) }
    requires other { x ≢ y }
    requires shape { shape < length nodes.now }
    ensures joined { OnOk result (AreJoined slots.old slots.new ceilings.old x y shape saved.new.items) }
    ensures linked { OnOk result (AreLinked slots.new) }
    ensures kept { Kept slots.old slots.new saved.old.items saved.new.items }
    ensures lowered { Lowered ceilings.old ceilings.new }
    ensures low { OnOk result (BothLow ceilings.old ceilings.new x y) }
{
    let low = slots[x].rank.min(slots[y].rank);
    let ceiling = ceilings[x].min(ceilings[y]);
    let rank = joined_rank(low, floor_of(nodes, slots, shape), ceiling);
    join(slots, saved, x, y, shape, rank)?;
    lower_both(ceilings, x, y);
    Ok(())
}
