//! Pairs of terms made equal, class by class.
ghost use Rattle.std.specs.Prelude.{◌≡◌, ◌≢◌, ◌<◌, ◌↔◌, ◌⊎◌, ℕ, true, false, Ok, OnOk, length};
ghost use Rattle.unifiers.specs.Term.{Term};
ghost use Rattle.term_classes.specs.Slots.{link_of};
ghost use Rattle.term_classes.specs.Undo.{Kept};
ghost use Rattle.term_classes.specs.Fits.{Fits, AreEqual, ArePairsOf, Sound, OrderedBut, HasParts, node_at};
ghost use Rattle.term_classes.specs.Ceilings.{CappedBut, Lowered};
ghost use Rattle.term_classes.specs.Meets.{Meets, United};

use crate::find::find;
use crate::node::{Node, Pair, Saved, Slot};
use crate::press::join_with_room;
use mk_base::memory::NoMemory;
use mk_base::name::same_name;

/// What two shapes have in common: nothing, a shape, or a shape where two pairs of parts are equal.
#[derive(Clone, Copy, Debug)]
pub enum Meeting {
    Clash,
    Same(usize),
    Parts(Pair, Pair),
}

/// What two shapes have in common. Where their parts have to be equal the first one is the shape.
fn meet(nodes: &[Node], a: usize, b: usize) -> Meeting
    requires a { a < length nodes.now }
    requires b { b < length nodes.now }
    requires parts { (i : ℕ) → i < length nodes.now → HasParts (node_at nodes.now i) i }
    ensures { Meets nodes.now a b result }
{
    match (&nodes[a], &nodes[b]) {
        (Node::Free(_), _) => Meeting::Same(b),
        (_, Node::Free(_)) => Meeting::Same(a),
        (Node::App(f, s), Node::App(g, t)) => Meeting::Parts(
            Pair {
                left: *f,
                right: *g,
            },
            Pair {
                left: *s,
                right: *t,
            },
        ),
        (Node::Con(c), Node::Con(d)) => {
            if same_name(c, d) {
                Meeting::Same(a)
            } else {
                Meeting::Clash
            }
        }
        (Node::Rigid(m), Node::Rigid(n)) => {
            if m == n {
                Meeting::Same(a)
            } else {
                Meeting::Clash
            }
        }
        _ => Meeting::Clash,
    }
}

/// Makes two classes one, and leaves their parts to be made equal. False where no term has both shapes.
fn unite(
    nodes: &[Node],
    slots: &mut [Slot],
    saved: &mut Vec<Saved>,
    ceilings: &mut [u64],
    todo: &mut Vec<Pair>,
    x: usize,
    y: usize,
) -> Result<bool, NoMemory>
    requires sound { Sound nodes.now slots.old }
    requires len { length ceilings.old ≡ length slots.old }
    requires x { (x < length slots.old) × (link_of slots.old x ≡ x) }
    requires y { (y < length slots.old) × (link_of slots.old y ≡ y) }
    requires other { x ≢ y }
    ensures kept { Kept slots.old slots.new saved.old.items saved.new.items }
    ensures lowered { Lowered ceilings.old ceilings.new }
    ensures united { result ≡ Ok true → United nodes.now slots.old slots.new ceilings.old ceilings.new saved.old.items saved.new.items todo.old.items todo.new.items x y }
    ensures clash { result ≡ Ok false → (q : ℕ → Term) → Fits nodes.now slots.old q → q x ≡ q y → ⊥ }
{
    let a = slots[x].shape;
    let b = slots[y].shape;
    match meet(nodes, a, b) {
        Meeting::Clash => Ok(false),
        Meeting::Same(shape) => {
            join_with_room(nodes, slots, saved, ceilings, x, y, shape)?;
            Ok(true)
        }
        Meeting::Parts(one, two) => {
            join_with_room(nodes, slots, saved, ceilings, x, y, a)?;
            todo.push(one)?;
            todo.push(two)?;
            Ok(true)
        }
    }
}

/// Makes the classes of two terms one. False where no term has both shapes.
fn step(
    nodes: &[Node],
    slots: &mut [Slot],
    saved: &mut Vec<Saved>,
    ceilings: &mut [u64],
    todo: &mut Vec<Pair>,
    left: usize,
    right: usize,
) -> Result<bool, NoMemory>
    requires sound { Sound nodes.now slots.old }
    requires len { length ceilings.old ≡ length slots.old }
    requires left { left < length slots.old }
    requires right { right < length slots.old }
    ensures kept { Kept slots.old slots.new saved.old.items saved.new.items }
    ensures lowered { Lowered ceilings.old ceilings.new }
    ensures united { result ≡ Ok true → United nodes.now slots.old slots.new ceilings.old ceilings.new saved.old.items saved.new.items todo.old.items todo.new.items left right }
    ensures clash { result ≡ Ok false → (q : ℕ → Term) → Fits nodes.now slots.old q → q left ≡ q right → ⊥ }
{
    let x = find(slots, left);
    let y = find(slots, right);
    if x == y {
        return Ok(true);
    }
    unite(nodes, slots, saved, ceilings, todo, x, y)
}

/// Makes all pairs equal. False where that can't be.
pub fn solve(
    nodes: &[Node],
    slots: &mut [Slot],
    saved: &mut Vec<Saved>,
    ceilings: &mut [u64],
    todo: &mut Vec<Pair>,
) -> Result<bool, NoMemory>
    requires sound { Sound nodes.now slots.old }
    requires len { length ceilings.old ≡ length slots.old }
    requires pairs { ArePairsOf (length nodes.now) todo.old.items }
    requires order { OrderedBut nodes.now slots.old saved.old.items }
    requires capped { CappedBut nodes.now slots.old ceilings.old saved.old.items }
    ensures kept { Kept slots.old slots.new saved.old.items saved.new.items }
    ensures sound { result ≡ Ok true → Sound nodes.now slots.new }
    ensures order { result ≡ Ok true → OrderedBut nodes.now slots.new saved.new.items }
    ensures capped { result ≡ Ok true → CappedBut nodes.now slots.new ceilings.new saved.new.items }
    ensures lowered { Lowered ceilings.old ceilings.new }
    ensures fits { result ≡ Ok true → (q : ℕ → Term) → Fits nodes.now slots.new q ↔ (Fits nodes.now slots.old q × AreEqual todo.old.items q) }
    ensures clash { result ≡ Ok false → (q : ℕ → Term) → Fits nodes.now slots.old q → AreEqual todo.old.items q → ⊥ }
{
    while let Some(Pair { left, right }) = todo.pop() {
        if !step(nodes, slots, saved, ceilings, todo, left, right)? {
            return Ok(false);
        }
    }
    Ok(true)
}
