//! Ranks put in order again, where no class is a part of itself.
ghost use Rattle.std.specs.Prelude.{◌≡◌, ◌≢◌, ◌<◌, ◌≤◌, ◌+◌, ◌↔◌, ◌⊎◌, ◌^◌, ◌++◌, ◌∷◌, [], ℕ, List, true, false, Ok, IfOk, slice_set, OnOk, length, take, ◌-◌, min};
ghost use Rattle.std.specs.List.{All};
ghost use Rattle.unifiers.specs.Term.{Term};
ghost use Rattle.term_classes.specs.Slots.{link_of, rank_of, shape_of, root};
ghost use Rattle.term_classes.specs.Undo.{Kept, IsPlace, HoldsPlaces};
ghost use Rattle.term_classes.specs.Fits.{Fits, Sound, OrderedBut, IsOrdered};
ghost use Rattle.term_classes.specs.Ceilings.{SameClasses};
ghost use Rattle.term_classes.specs.Settle.{IsPart, IsNext, Walk, OnPath, Turned, Reranked, mark_of, IsOn, left, AreRoots, AreOrdered};

use crate::find::find;
use crate::node::{Node, Saved, Slot};
use crate::write::write;
use mk_base::memory::NoMemory;
use std::alloc::Global;

/// What a walk meets below a class: one that wasn't met yet, one that is above it, or nothing that is left.
#[derive(Clone, Copy, Debug)]
pub enum Next {
    Down(usize),
    Loop(usize),
    Done,
}

/// Whether a class is a root that is out of order.
fn is_strained(nodes: &[Node], slots: &[Slot], at: usize) -> bool
    requires sound { Sound nodes.now slots.now }
    requires at { at < length slots.now }
    ensures root { result ≡ true → link_of slots.now at ≡ at }
    ensures order { result ≡ false → link_of slots.now at ≡ at → IsOrdered nodes.now slots.now at }
{
    if slots[at].link != at {
        return false;
    }
    match &nodes[slots[at].shape] {
        Node::App(f, a) => {
            let rank = slots[at].rank;
            let left = find(slots, *f);
            let right = find(slots, *a);
            slots[left].rank >= rank || slots[right].rank >= rank
        }
        _ => false,
    }
}

/// What is met at one part.
fn look(slots: &[Slot], marks: &[u64], clock: u64, base: u64, nodes: &[Node], part: usize) -> Next
    requires sound { Sound nodes.now slots.now }
    requires len { length marks.now ≡ length slots.now }
    requires part { part < length slots.now }
    ensures { IsNext nodes.now slots.now marks.now clock base (λ d. d ≡ root slots.now part) result }
{
    let d = find(slots, part);
    if slots[d].rank < base || marks[d] > clock {
        Next::Done
    } else if marks[d] == clock {
        Next::Loop(d)
    } else {
        Next::Down(d)
    }
}

/// What is met at the parts of a class.
fn next_part(
    nodes: &[Node],
    slots: &[Slot],
    marks: &[u64],
    clock: u64,
    base: u64,
    at: usize,
) -> Next
    requires sound { Sound nodes.now slots.now }
    requires len { length marks.now ≡ length slots.now }
    requires at { at < length slots.now }
    ensures { IsNext nodes.now slots.now marks.now clock base (IsPart nodes.now slots.now at) result }
{
    match &nodes[slots[at].shape] {
        Node::App(f, a) => match look(slots, marks, clock, base, nodes, *f) {
            Next::Done => look(slots, marks, clock, base, nodes, *a),
            Next::Loop(d) => Next::Loop(d),
            Next::Down(d) => Next::Down(d),
        },
        _ => Next::Done,
    }
}

/// Gives a class a rank that is no higher.
pub fn lower(
    slots: &mut [Slot],
    saved: &mut Vec<Saved>,
    at: usize,
    most: u64,
) -> Result<(), NoMemory>
    requires at { at < length slots.old }
    ensures kept { Kept slots.old slots.new saved.old.items saved.new.items }
    ensures rank { OnOk result (Reranked slots.old slots.new at (min (rank_of slots.old at) most)) }
    ensures place { OnOk result (IsPlace saved.new.items at) }
{
    let slot = slots[at];
    let rank = slot.rank.min(most);
    let lowered = Slot {
        link: slot.link,
        shape: slot.shape,
        rank,
        height: slot.height,
    };
    write(slots, saved, at, lowered)
}

/// Goes on to a class that wasn't met yet.
fn go_down(marks: &mut [u64], path: &mut Vec<usize>, clock: u64, to: usize) -> Result<(), NoMemory>
    requires to { to < length marks.old }
    ensures marks { OnOk result (marks.new ≡ slice_set marks.old to clock) }
    ensures path { OnOk result (path.new.items ≡ path.old.items ++ to ∷ []) }
    ensures bounded { ((i : ℕ) → mark_of marks.old i ≤ clock + 1) → (i : ℕ) → mark_of marks.new i ≤ clock + 1 }
{
    path.push(to)?;
    marks[to] = clock;
    Ok(())
}

/// Gives the last class of the path its rank, and goes back.
fn finish(
    slots: &mut [Slot],
    saved: &mut Vec<Saved>,
    marks: &mut [u64],
    path: &mut Vec<usize>,
    clock: u64,
    next: &mut u64,
    at: usize,
) -> Result<(), NoMemory>
    requires at { (at < length slots.old) × (at < length marks.old) }
    requires clock { clock + 1 < 2 ^ 64 }
    requires next { next.old + 1 < 2 ^ 64 }
    ensures kept { Kept slots.old slots.new saved.old.items saved.new.items }
    ensures rank { OnOk result (Reranked slots.old slots.new at (min (rank_of slots.old at) next.old)) }
    ensures marks { OnOk result (marks.new ≡ slice_set marks.old at (clock + 1)) }
    ensures path { OnOk result (path.new.items ≡ take (length path.old.items - 1) path.old.items) }
    ensures next { OnOk result (next.new ≡ next.old + 1) }
    ensures bounded { ((i : ℕ) → mark_of marks.old i ≤ clock + 1) → (i : ℕ) → mark_of marks.new i ≤ clock + 1 }
{
    lower(slots, saved, at, *next)?;
    marks[at] = clock + 1;
    *next += 1;
    let _ = path.pop();
    Ok(())
}

/// Goes down from the last class of the path or finishes it. False where it is a part of itself.
fn turn(
    nodes: &[Node],
    slots: &mut [Slot],
    saved: &mut Vec<Saved>,
    marks: &mut [u64],
    path: &mut Vec<usize>,
    starts: &[usize],
    clock: u64,
    low: u64,
    base: u64,
    next: &mut u64,
) -> Result<bool, NoMemory>
    requires walk { Walk nodes.now slots.old marks.old starts.now clock low next.old }
    requires on { OnPath nodes.now slots.old marks.old clock path.old.items }
    requires some { 0 < length path.old.items }
    requires base { base ≤ next.old }
    requires clock { clock + 1 < 2 ^ 64 }
    ensures kept { Kept slots.old slots.new saved.old.items saved.new.items }
    ensures turned { result ≡ Ok true → Turned nodes.now slots.old slots.new marks.old marks.new starts.now clock low next.new path.new.items }
    ensures base { result ≡ Ok true → base ≤ next.new }
    ensures fewer { result ≡ Ok true → left clock marks.new < left clock marks.old }
    ensures part_of_itself { result ≡ Ok false → (q : ℕ → Term) → Fits nodes.now slots.old q → ⊥ }
    ensures bounded { ((i : ℕ) → mark_of marks.old i ≤ clock + 1) → (i : ℕ) → mark_of marks.new i ≤ clock + 1 }
{
    let _ = starts;
    let _ = low;
    let at = path[path.len() - 1];
    match next_part(nodes, slots, marks, clock, base, at) {
        Next::Loop(_) => Ok(false),
        Next::Down(d) => {
            go_down(marks, path, clock, d)?;
            Ok(true)
        }
        Next::Done => {
            finish(slots, saved, marks, path, clock, next, at)?;
            Ok(true)
        }
    }
}

/// Walks all that is below a class. False where something is a part of itself.
fn walk(
    nodes: &[Node],
    slots: &mut [Slot],
    saved: &mut Vec<Saved>,
    marks: &mut [u64],
    path: &mut Vec<usize>,
    starts: &[usize],
    clock: u64,
    low: u64,
    base: u64,
    next: &mut u64,
    start: usize,
) -> Result<bool, NoMemory>
    requires walk { Walk nodes.now slots.old marks.old starts.now clock low next.old }
    requires on { OnPath nodes.now slots.old marks.old clock path.old.items }
    requires none { path.old.items ≡ [] }
    requires start { (start < length slots.old) × (link_of slots.old start ≡ start) × (mark_of marks.old start < clock) }
    requires base { base ≤ next.old }
    requires clock { clock + 1 < 2 ^ 64 }
    ensures kept { Kept slots.old slots.new saved.old.items saved.new.items }
    ensures turned { result ≡ Ok true → Turned nodes.now slots.old slots.new marks.old marks.new starts.now clock low next.new path.new.items }
    ensures none { result ≡ Ok true → path.new.items ≡ [] }
    ensures finished { result ≡ Ok true → clock < mark_of marks.new start }
    ensures base { result ≡ Ok true → base ≤ next.new }
    ensures part_of_itself { result ≡ Ok false → (q : ℕ → Term) → Fits nodes.now slots.old q → ⊥ }
    ensures bounded { ((i : ℕ) → mark_of marks.old i ≤ clock + 1) → (i : ℕ) → mark_of marks.new i ≤ clock + 1 }
{
    go_down(marks, path, clock, start)?;
    while path.len() > 0 {
        if !turn(
            nodes, slots, saved, marks, path, starts, clock, low, base, next,
        )? {
            return Ok(false);
        }
    }
    Ok(true)
}

/// The saved places that are roots out of order.
fn strained(
    alloc: Global,
    nodes: &[Node],
    slots: &[Slot],
    saved: &[Saved],
) -> Result<Vec<usize>, NoMemory>
    requires sound { Sound nodes.now slots.now }
    requires places { HoldsPlaces (length slots.now) saved.now }
    ensures roots { IfOk result (λ v. AreRoots slots.now v.items) }
    ensures all { IfOk result (λ v. (i : ℕ) → IsPlace saved.now i → link_of slots.now i ≡ i → IsOrdered nodes.now slots.now i ⊎ IsOn v.items i) }
{
    let mut found = Vec::new(alloc);
    for one in saved {
        if is_strained(nodes, slots, one.at) {
            found.push(one.at)?;
        }
    }
    Ok(found)
}

/// The lowest rank of some classes.
fn lowest(slots: &[Slot], starts: &[usize]) -> u64
    requires roots { AreRoots slots.now starts.now }
    ensures { (i : ℕ) → IsOn starts.now i → result ≤ rank_of slots.now i }
{
    let mut low = u64::MAX;
    for at in starts {
        low = low.min(slots[*at].rank);
    }
    low
}

/// The same for a class that may have been walked already.
fn walk_new(
    nodes: &[Node],
    slots: &mut [Slot],
    saved: &mut Vec<Saved>,
    marks: &mut [u64],
    path: &mut Vec<usize>,
    starts: &[usize],
    clock: u64,
    low: u64,
    base: u64,
    next: &mut u64,
    start: usize,
) -> Result<bool, NoMemory>
    requires walk { Walk nodes.now slots.old marks.old starts.now clock low next.old }
    requires on { OnPath nodes.now slots.old marks.old clock path.old.items }
    requires none { path.old.items ≡ [] }
    requires start { (start < length slots.old) × (link_of slots.old start ≡ start) }
    requires base { base ≤ next.old }
    requires clock { clock + 1 < 2 ^ 64 }
    ensures kept { Kept slots.old slots.new saved.old.items saved.new.items }
    ensures turned { result ≡ Ok true → Turned nodes.now slots.old slots.new marks.old marks.new starts.now clock low next.new path.new.items }
    ensures none { result ≡ Ok true → path.new.items ≡ [] }
    ensures finished { result ≡ Ok true → clock < mark_of marks.new start }
    ensures base { result ≡ Ok true → base ≤ next.new }
    ensures part_of_itself { result ≡ Ok false → (q : ℕ → Term) → Fits nodes.now slots.old q → ⊥ }
    ensures bounded { ((i : ℕ) → mark_of marks.old i ≤ clock + 1) → (i : ℕ) → mark_of marks.new i ≤ clock + 1 }
{
    if marks[start] >= clock {
        return Ok(true);
    }
    walk(
        nodes, slots, saved, marks, path, starts, clock, low, base, next, start,
    )
}

/// Walks all that is below the starts. False where something is a part of itself.
fn walk_all(
    alloc: Global,
    nodes: &[Node],
    slots: &mut [Slot],
    saved: &mut Vec<Saved>,
    marks: &mut [u64],
    starts: &[usize],
    clock: u64,
    low: u64,
    base: u64,
) -> Result<bool, NoMemory>
    requires walk { Walk nodes.now slots.old marks.old starts.now clock low base }
    requires fresh { (i : ℕ) → i < length slots.old → mark_of marks.old i < clock }
    requires starts { AreRoots slots.old starts.now }
    requires clock { clock + 1 < 2 ^ 64 }
    ensures kept { Kept slots.old slots.new saved.old.items saved.new.items }
    ensures sound { result ≡ Ok true → Sound nodes.now slots.new }
    ensures order { result ≡ Ok true → AreOrdered nodes.now slots.new }
    ensures fits { result ≡ Ok true → (q : ℕ → Term) → Fits nodes.now slots.new q ↔ Fits nodes.now slots.old q }
    ensures same { result ≡ Ok true → SameClasses slots.old slots.new }
    ensures part_of_itself { result ≡ Ok false → (q : ℕ → Term) → Fits nodes.now slots.old q → ⊥ }
    ensures bounded { ((i : ℕ) → mark_of marks.old i ≤ clock + 1) → (i : ℕ) → mark_of marks.new i ≤ clock + 1 }
{
    let mut next = base;
    let mut path = Vec::new(alloc);
    for start in starts {
        if !walk_new(
            nodes, slots, saved, marks, &mut path, starts, clock, low, base, &mut next, *start,
        )? {
            return Ok(false);
        }
    }
    Ok(true)
}

/// Puts the ranks in order again, where only what was saved may be out of order. False where a class is a part of itself.
pub fn settle(
    alloc: Global,
    nodes: &[Node],
    slots: &mut [Slot],
    saved: &mut Vec<Saved>,
    marks: &mut [u64],
    clock: u64,
) -> Result<bool, NoMemory>
    requires sound { Sound nodes.now slots.old }
    requires order { OrderedBut nodes.now slots.old saved.old.items }
    requires places { HoldsPlaces (length slots.old) saved.old.items }
    requires len { length marks.old ≡ length slots.old }
    requires fresh { (i : ℕ) → mark_of marks.old i < clock }
    requires clock { clock + 1 < 2 ^ 64 }
    ensures kept { Kept slots.old slots.new saved.old.items saved.new.items }
    ensures sound { result ≡ Ok true → Sound nodes.now slots.new }
    ensures order { result ≡ Ok true → AreOrdered nodes.now slots.new }
    ensures fits { result ≡ Ok true → (q : ℕ → Term) → Fits nodes.now slots.new q ↔ Fits nodes.now slots.old q }
    ensures same { result ≡ Ok true → SameClasses slots.old slots.new }
    ensures part_of_itself { result ≡ Ok false → (q : ℕ → Term) → Fits nodes.now slots.old q → ⊥ }
    ensures bounded { (i : ℕ) → mark_of marks.new i ≤ clock + 1 }
{
    let starts = strained(alloc, nodes, slots, saved)?;
    if starts.is_empty() {
        return Ok(true);
    }
    let low = lowest(slots, &starts);
    let count = slots.len() as u64;
    if low < count {
        return Err(NoMemory);
    }
    walk_all(
        alloc,
        nodes,
        slots,
        saved,
        marks,
        &starts,
        clock,
        low,
        low - count,
    )
}
