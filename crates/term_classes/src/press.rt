//! Room made for a class below what it stands in: the ranks of its parts are lowered, a few levels deep.
ghost use Rattle.std.specs.Prelude.{◌≡◌, ◌≢◌, ◌<◌, ◌≤◌, ◌⊎◌, ℕ, OnOk, length};
ghost use Rattle.term_classes.specs.Slots.{AreLinked, link_of};
ghost use Rattle.term_classes.specs.Undo.{Kept};
ghost use Rattle.term_classes.specs.Fits.{Sound};
ghost use Rattle.term_classes.specs.Ceilings.{Lowered, BothLow};
ghost use Rattle.term_classes.specs.Press.{Pressed, RoomJoined};

use crate::ceiling::{GAP, floor_of, join_classes};
use crate::find::find;
use crate::node::{Node, Saved, Slot};
use crate::settle::lower;
use mk_base::memory::NoMemory;

/// How many levels deep room is looked for.
const LEVELS: u32 = 16;

/// At how many classes room is looked for.
const VISITS: u32 = 32;

/// Lowers the rank of a class to at most a number, if its parts stand lower.
fn sink(
    nodes: &[Node],
    slots: &mut [Slot],
    saved: &mut Vec<Saved>,
    class: usize,
    most: u64,
) -> Result<(), NoMemory>
    requires sound { Sound nodes.now slots.old }
    requires class { class < length slots.old }
    ensures kept { Kept slots.old slots.new saved.old.items saved.new.items }
    ensures pressed { OnOk result (Pressed nodes.now slots.old slots.new saved.old.items saved.new.items) }
{
    let floor = floor_of(nodes, slots, slots[class].shape);
    let rank = floor.saturating_add(GAP).min(most);
    if rank <= floor {
        return Ok(());
    }
    lower(slots, saved, class, rank)?;
    Ok(())
}

/// Lowers the rank of a term's class to at most a number, if a few steps are enough for that.
fn press(
    nodes: &[Node],
    slots: &mut [Slot],
    saved: &mut Vec<Saved>,
    part: usize,
    most: u64,
    levels: u32,
    visits: &mut u32,
) -> Result<(), NoMemory>
    requires sound { Sound nodes.now slots.old }
    requires part { part < length slots.old }
    ensures kept { Kept slots.old slots.new saved.old.items saved.new.items }
    ensures pressed { OnOk result (Pressed nodes.now slots.old slots.new saved.old.items saved.new.items) }
{
    let class = find(slots, part);
    if levels == 0 || *visits == 0 || slots[class].rank <= most {
        return Ok(());
    }
    *visits -= 1;
    match &nodes[slots[class].shape] {
        Node::App(f, a) => {
            let below = most.saturating_sub(1);
            press(nodes, slots, saved, *f, below, levels - 1, visits)?;
            press(nodes, slots, saved, *a, below, levels - 1, visits)?;
            sink(nodes, slots, saved, class, most)?;
        }
        _ => {}
    }
    Ok(())
}

/// Looks for room between the parts of a term and a ceiling.
fn make_room(
    nodes: &[Node],
    slots: &mut [Slot],
    saved: &mut Vec<Saved>,
    shape: usize,
    ceiling: u64,
) -> Result<(), NoMemory>
    requires sound { Sound nodes.now slots.old }
    requires shape { shape < length nodes.now }
    ensures kept { Kept slots.old slots.new saved.old.items saved.new.items }
    ensures pressed { OnOk result (Pressed nodes.now slots.old slots.new saved.old.items saved.new.items) }
{
    match &nodes[shape] {
        Node::App(f, a) => {
            let mut visits = VISITS;
            let most = ceiling.saturating_sub(2);
            press(nodes, slots, saved, *f, most, LEVELS, &mut visits)?;
            press(nodes, slots, saved, *a, most, LEVELS, &mut visits)?;
        }
        _ => {}
    }
    Ok(())
}

/// The same where there is none.
fn find_room(
    nodes: &[Node],
    slots: &mut [Slot],
    saved: &mut Vec<Saved>,
    ceilings: &[u64],
    x: usize,
    y: usize,
    shape: usize,
) -> Result<(), NoMemory>
    requires sound { Sound nodes.now slots.old }
    requires len { length ceilings.now ≡ length slots.old }
    requires x { x < length slots.old }
    requires y { y < length slots.old }
    requires shape { shape < length nodes.now }
    ensures kept { Kept slots.old slots.new saved.old.items saved.new.items }
    ensures pressed { OnOk result (Pressed nodes.now slots.old slots.new saved.old.items saved.new.items) }
{
    let low = slots[x].rank.min(slots[y].rank);
    let ceiling = ceilings[x].min(ceilings[y]);
    let floor = floor_of(nodes, slots, shape);
    if floor < low || floor.saturating_add(1) < ceiling {
        return Ok(());
    }
    make_room(nodes, slots, saved, shape, ceiling)?;
    Ok(())
}

/// Makes the classes of two roots one, whose shape is given, where need be after room was looked for.
pub fn join_with_room(
    nodes: &[Node],
    slots: &mut [Slot],
    saved: &mut Vec<Saved>,
    ceilings: &mut [u64],
    x: usize,
    y: usize,
    shape: usize,
) -> Result<(), NoMemory>
    requires sound { Sound nodes.now slots.old }
    requires len { length ceilings.old ≡ length slots.old }
    requires x { (x < length slots.old) × (link_of slots.old x ≡ x) }
    requires y { (y < length slots.old) × (link_of slots.old y ≡ y) }
    requires other { x ≢ y }
    requires shape { shape < length nodes.now }
    ensures joined { OnOk result (RoomJoined nodes.now slots.old slots.new ceilings.old saved.old.items saved.new.items x y shape) }
    ensures linked { OnOk result (AreLinked slots.new) }
    ensures kept { Kept slots.old slots.new saved.old.items saved.new.items }
    ensures lowered { Lowered ceilings.old ceilings.new }
    ensures low { OnOk result (BothLow ceilings.old ceilings.new x y) }
{
    find_room(nodes, slots, saved, ceilings, x, y, shape)?;
    join_classes(nodes, slots, saved, ceilings, x, y, shape)?;
    Ok(())
}
