//! The order of the nodes by what each needs.

ghost use Rattle.std.specs.Prelude.{◌≡◌, ◌⊎◌, ◌<◌, ◌≤◌, ◌↔◌, ℕ, List, true, false, IfOk, get_or, take, length};
ghost use Rattle.std.specs.List.{All, Contains};
ghost use Rattle.numbered_nodes.specs.Bits.{has, room, room_for};
ghost use Rattle.numbered_nodes.specs.Edges.{Relates};
ghost use Rattle.numbered_nodes.specs.Order.{IsReady, IsIdle, IsNext, IsOrder, IsCycleFree};

use crate::sets::NumberSet;
use crate::waiting::{first_waiting, put_again};
use std::alloc::{AllocError, Global};

/// The set of all nodes below a count. AllocError where memory runs out.
fn all_nodes(alloc: Global, count: usize) -> Result<NumberSet, AllocError>
    ensures room { IfOk result (λ s. room s ≡ room_for count) }
    ensures all { IfOk result (λ s. (x : ℕ) → x < count → has s x ≡ true) }
{
    let mut all = NumberSet::empty(alloc, count)?;
    for node in 0..count {
        all.insert(node);
    }
    Ok(all)
}

/// The least unlisted node, from the set of all nodes.
fn least_left(all: &NumberSet, listed: &NumberSet, count: usize) -> usize
    requires all { (x : ℕ) → x < count → has all.now x ≡ true }
    requires room { (count ≤ room all.now) × (count ≤ room listed.now) }
    requires left { (x : ℕ) × (x < count) × (has listed.now x ≡ false) }
    ensures node { result < count }
    ensures new { has listed.now result ≡ false }
    ensures least { (y : ℕ) → y < result → has listed.now y ≡ true }
{
    match all.next_outside(listed, 0, count) {
        Some(least) => least,
        None => unreachable!(),
    }
}

/// The node that comes next, where some node is unlisted: the least unlisted one of those that are ready, and where there
/// is none the least unlisted one.
fn next_node(all: &NumberSet, ready: &NumberSet, listed: &NumberSet, count: usize) -> usize
    requires all { (x : ℕ) → x < count → has all.now x ≡ true }
    requires room { (count ≤ room all.now) × (count ≤ room ready.now) × (count ≤ room listed.now) }
    requires left { (x : ℕ) × (x < count) × (has listed.now x ≡ false) }
    ensures { IsNext (λ k. has ready.now k ≡ true) (λ k. has listed.now k ≡ true) count result }
{
    match ready.next_outside(listed, 0, count) {
        Some(node) => node,
        None => least_left(all, listed, count),
    }
}

/// The nodes 0, 1, .. in order, from a row for each with what it needs, which has room for their number: of the
/// unlisted nodes all of whose needs other than themselves are listed the least comes next, and where there is none
/// the least unlisted one. Each node comes once. AllocError where memory runs out.
pub fn order_of(alloc: Global, needs: &[NumberSet]) -> Result<Vec<usize>, AllocError>
    requires room { All (λ row. length needs.now ≤ room row) needs.now }
    ensures order { IfOk result (λ os. IsOrder (Relates needs.now) (length needs.now) os.items) }
    ensures all { IfOk result (λ os. (x : ℕ) → x < length needs.now → Contains os.items x) }
{
    let count = needs.len();
    let all = all_nodes(alloc, count)?;
    let mut listed = NumberSet::empty(alloc, count)?;
    let mut ready = NumberSet::empty(alloc, count)?;
    let mut waiting = first_waiting(alloc, needs, &listed, &mut ready)?;
    let mut order = Vec::new(alloc);
    for turn in 0..count {
        let node = next_node(&all, &ready, &listed, count);
        order.push(node)?;
        listed.insert(node);
        put_again(
            needs,
            node,
            &listed,
            turn % 2 == 0,
            &mut ready,
            &mut waiting,
        )?;
    }
    Ok(order)
}

/// There is one order alone, and no node stands in it twice.
pub fn order_is_one()
    ensures one { (needs : List (List ℕ)) (n : ℕ) (os ps : List ℕ) → IsOrder (Relates needs) n os → IsOrder (Relates needs) n ps → os ≡ ps }
    ensures once { (needs : List (List ℕ)) (n : ℕ) (os : List ℕ) → IsOrder (Relates needs) n os → (i j : ℕ) → i < j → j < n → get_or os i 0 ≡ get_or os j 0 → ⊥ }
{}

/// A node stands behind all that it needs where no cycle is before it, if a need of a need is a need.
pub fn needs_come_first()
    ensures { (needs : List (List ℕ)) (n : ℕ) → ((a b c : ℕ) → a < n → b < n → c < n → Relates needs a b → Relates needs b c → Relates needs a c) → (os : List ℕ) → IsOrder (Relates needs) n os → (i : ℕ) → i < n → IsCycleFree (Relates needs) n (get_or os i 0) → IsReady (Relates needs) n (Contains (take i os)) (get_or os i 0) }
{}
