//! Two terms made equal, or nothing changed.
ghost use Rattle.std.specs.Prelude.{◌≡◌, ◌≢◌, ◌<◌, ◌≤◌, ◌+◌, ◌↔◌, ◌^◌, [], ℕ, true, false, Ok, length};
ghost use Rattle.unifiers.specs.Term.{Term};
ghost use Rattle.term_classes.specs.Undo.{Kept};
ghost use Rattle.term_classes.specs.Fits.{Fits, Sound};
ghost use Rattle.term_classes.specs.Ceilings.{AreCapped, Lowered};
ghost use Rattle.term_classes.specs.Settle.{AreOrdered, mark_of};

use crate::ceiling::cap_saved;
use crate::node::{Node, Pair, Saved, Slot};
use crate::settle::settle;
use crate::solve::solve;
use crate::write::undo;
use mk_base::memory::NoMemory;
use std::alloc::Global;

/// Makes two terms equal, and keeps what it wrote.
fn attempt(
    alloc: Global,
    nodes: &[Node],
    slots: &mut [Slot],
    saved: &mut Vec<Saved>,
    ceilings: &mut [u64],
    marks: &mut [u64],
    clock: u64,
    a: usize,
    b: usize,
) -> Result<bool, NoMemory>
    requires sound { Sound nodes.now slots.old }
    requires order { AreOrdered nodes.now slots.old }
    requires capped { AreCapped nodes.now slots.old ceilings.old }
    requires ceilings { length ceilings.old ≡ length slots.old }
    requires none { saved.old.items ≡ [] }
    requires len { length marks.old ≡ length slots.old }
    requires fresh { (i : ℕ) → mark_of marks.old i < clock }
    requires clock { clock + 1 < 2 ^ 64 }
    requires a { a < length slots.old }
    requires b { b < length slots.old }
    ensures kept { Kept slots.old slots.new saved.old.items saved.new.items }
    ensures sound { result ≡ Ok true → Sound nodes.now slots.new }
    ensures order { result ≡ Ok true → AreOrdered nodes.now slots.new }
    ensures capped { result ≡ Ok true → AreCapped nodes.now slots.new ceilings.new }
    ensures lowered { Lowered ceilings.old ceilings.new }
    ensures fits { result ≡ Ok true → (q : ℕ → Term) → Fits nodes.now slots.new q ↔ (Fits nodes.now slots.old q × (q a ≡ q b)) }
    ensures none_fits { result ≡ Ok false → (q : ℕ → Term) → Fits nodes.now slots.old q → q a ≡ q b → ⊥ }
    ensures bounded { (i : ℕ) → mark_of marks.new i ≤ clock + 1 }
{
    let mut todo = Vec::new(alloc);
    todo.push(Pair { left: a, right: b })?;
    if !solve(nodes, slots, saved, ceilings, &mut todo)? {
        return Ok(false);
    }
    if !settle(alloc, nodes, slots, saved, marks, clock)? {
        return Ok(false);
    }
    cap_saved(nodes, slots, ceilings, saved);
    Ok(true)
}

/// Makes two terms equal. False exactly where no terms for the classes make them equal; then nothing has changed.
pub fn unify(
    alloc: Global,
    nodes: &[Node],
    slots: &mut [Slot],
    ceilings: &mut [u64],
    marks: &mut [u64],
    clock: u64,
    a: usize,
    b: usize,
) -> Result<bool, NoMemory>
    requires sound { Sound nodes.now slots.old }
    requires order { AreOrdered nodes.now slots.old }
    requires capped { AreCapped nodes.now slots.old ceilings.old }
    requires ceilings { length ceilings.old ≡ length slots.old }
    requires len { length marks.old ≡ length slots.old }
    requires fresh { (i : ℕ) → mark_of marks.old i < clock }
    requires clock { clock + 1 < 2 ^ 64 }
    requires a { a < length slots.old }
    requires b { b < length slots.old }
    ensures sound { Sound nodes.now slots.new }
    ensures order { AreOrdered nodes.now slots.new }
    ensures capped { AreCapped nodes.now slots.new ceilings.new }
    ensures ceilings { length ceilings.new ≡ length slots.new }
    ensures fits { result ≡ Ok true → (q : ℕ → Term) → Fits nodes.now slots.new q ↔ (Fits nodes.now slots.old q × (q a ≡ q b)) }
    ensures none_fits { result ≡ Ok false → (q : ℕ → Term) → Fits nodes.now slots.old q → q a ≡ q b → ⊥ }
    ensures same { result ≢ Ok true → slots.new ≡ slots.old }
    ensures bounded { (i : ℕ) → mark_of marks.new i ≤ clock + 1 }
{
    let mut saved = Vec::new(alloc);
    match attempt(
        alloc, nodes, slots, &mut saved, ceilings, marks, clock, a, b,
    ) {
        Ok(true) => Ok(true),
        Ok(false) => {
            undo(slots, &mut saved);
            Ok(false)
        }
        Err(NoMemory) => {
            undo(slots, &mut saved);
            Err(NoMemory)
        }
    }
}
