//! Who is ready, and who waits: a node that isn't listed waits for one need that isn't listed either, until none is left.

ghost use Rattle.std.specs.Prelude.{◌≡◌, ◌⊎◌, ◌<◌, ◌≤◌, ◌++◌, ◌∷◌, ℕ, List, [], true, false, IfOk, IfSome, IfNone, OnOk, get_or, length};
ghost use Rattle.std.specs.List.{All};
ghost use Rattle.numbered_nodes.specs.Bits.{has, room};
ghost use Rattle.numbered_nodes.specs.Edges.{lists, HasEdge};
ghost use Rattle.numbered_nodes.specs.Waiting.{IsReadyNow, IsPlaced, IsMore};

use crate::sets::NumberSet;
use std::alloc::{AllocError, Global};

/// The least need of a node below a count, other than the node itself, that isn't listed.
fn first_left(row: &NumberSet, node: usize, listed: &NumberSet, count: usize) -> Option<usize>
    requires row { count ≤ room row.now }
    requires listed { count ≤ room listed.now }
    ensures some { IfSome result (λ z. (z < count) × (has row.now z ≡ true) × (has listed.now z ≡ false) × (z ≡ node → ⊥)) }
    ensures none { IfNone result ((z : ℕ) → z < count → has row.now z ≡ true → (z ≡ node → ⊥) → has listed.now z ≡ true) }
{
    match row.next_outside(listed, 0, count) {
        Some(need) => {
            if need == node {
                row.next_outside(listed, node + 1, count)
            } else {
                Some(need)
            }
        }
        None => None,
    }
}

/// Some need of a node below a count, other than the node itself, that isn't listed; None where none is left. Where `late` is
/// true the last needs are asked first, else the first. Both ways say the same, and which is taken is a matter of speed alone:
/// with one of them alone each node of a chain in one of its two directions would be looked at again at every turn, so
/// callers take now the one and now the other.
fn need_left(
    row: &NumberSet,
    node: usize,
    listed: &NumberSet,
    count: usize,
    late: bool,
) -> Option<usize>
    requires row { count ≤ room row.now }
    requires listed { count ≤ room listed.now }
    ensures some { IfSome result (λ z. (z < count) × (has row.now z ≡ true) × (has listed.now z ≡ false) × (z ≡ node → ⊥)) }
    ensures none { IfNone result ((z : ℕ) → z < count → has row.now z ≡ true → (z ≡ node → ⊥) → has listed.now z ≡ true) }
{
    if late {
        if let Some(need) = row.late_outside(listed, count) {
            if need != node {
                return Some(need);
            }
        }
    }
    first_left(row, node, listed, count)
}

/// Puts a node behind those that wait for a need.
fn wait_for(waiting: &mut [Vec<usize>], need: usize, node: usize) -> Result<(), AllocError>
    requires { need < length waiting.old }
    ensures len { length waiting.new ≡ length waiting.old }
    ensures more { OnOk result (get_or (lists waiting.new) need [] ≡ get_or (lists waiting.old) need [] ++ node ∷ []) }
    ensures others { OnOk result ((z : ℕ) → (z ≡ need → ⊥) → get_or (lists waiting.new) z [] ≡ get_or (lists waiting.old) z []) }
{
    waiting[need].push(node)?;
    Ok(())
}

/// Puts a node into the list of a need that is left, or into the set of those that are ready where none is.
/// AllocError where memory runs out.
fn put_node(
    needs: &[NumberSet],
    node: usize,
    listed: &NumberSet,
    late: bool,
    ready: &mut NumberSet,
    waiting: &mut [Vec<usize>],
) -> Result<(), AllocError>
    requires rows { All (λ row. length needs.now ≤ room row) needs.now }
    requires node { node < length needs.now }
    requires listed { length needs.now ≤ room listed.now }
    requires ready { length needs.now ≤ room ready.old }
    requires waiting { length waiting.old ≡ length needs.now }
    ensures room { room ready.new ≡ room ready.old }
    ensures len { length waiting.new ≡ length waiting.old }
    ensures more { OnOk result (IsMore needs.now (length needs.now) listed.now ready.old (lists waiting.old) ready.new (lists waiting.new)) }
    ensures placed { OnOk result (IsPlaced needs.now (length needs.now) listed.now ready.new (lists waiting.new) node) }
{
    match need_left(&needs[node], node, listed, needs.len(), late) {
        Some(need) => wait_for(waiting, need, node),
        None => {
            ready.insert(node);
            Ok(())
        }
    }
}

/// A list for each of the nodes below a count, in which no node waits. AllocError where memory runs out.
fn no_waiters(alloc: Global, count: usize) -> Result<Vec<Vec<usize>>, AllocError>
    ensures len { IfOk result (λ v. length v.items ≡ count) }
    ensures none { IfOk result (λ v. (z : ℕ) → get_or (lists v.items) z [] ≡ []) }
{
    let mut waiting = Vec::new(alloc);
    for node in 0..count {
        let _ = node;
        waiting.push(Vec::new(alloc))?;
    }
    Ok(waiting)
}

/// Puts each node into the list of a need, or into the set. AllocError where memory runs out.
fn put_all(
    needs: &[NumberSet],
    listed: &NumberSet,
    ready: &mut NumberSet,
    waiting: &mut [Vec<usize>],
) -> Result<(), AllocError>
    requires rows { All (λ row. length needs.now ≤ room row) needs.now }
    requires listed { length needs.now ≤ room listed.now }
    requires ready { length needs.now ≤ room ready.old }
    requires waiting { length waiting.old ≡ length needs.now }
    ensures room { room ready.new ≡ room ready.old }
    ensures len { length waiting.new ≡ length waiting.old }
    ensures more { OnOk result (IsMore needs.now (length needs.now) listed.now ready.old (lists waiting.old) ready.new (lists waiting.new)) }
    ensures placed { OnOk result ((x : ℕ) → x < length needs.now → IsPlaced needs.now (length needs.now) listed.now ready.new (lists waiting.new) x) }
{
    for node in 0..needs.len() {
        put_node(needs, node, listed, true, ready, waiting)?;
    }
    Ok(())
}

/// The lists of those who wait, one for each node, where the set of those that are ready is empty: each node is put into
/// one of them, or into the set. AllocError where memory runs out.
pub fn first_waiting(
    alloc: Global,
    needs: &[NumberSet],
    listed: &NumberSet,
    ready: &mut NumberSet,
) -> Result<Vec<Vec<usize>>, AllocError>
    requires rows { All (λ row. length needs.now ≤ room row) needs.now }
    requires listed { length needs.now ≤ room listed.now }
    requires ready { length needs.now ≤ room ready.old }
    requires none { (k : ℕ) → has ready.old k ≡ false }
    ensures room { room ready.new ≡ room ready.old }
    ensures len { IfOk result (λ v. length v.items ≡ length needs.now) }
    ensures ready { OnOk result ((x : ℕ) → has ready.new x ≡ true → IsReadyNow needs.now (length needs.now) listed.now x) }
    ensures range { IfOk result (λ v. (z x : ℕ) → HasEdge (lists v.items) z x → x < length needs.now) }
    ensures placed { IfOk result (λ v. (x : ℕ) → x < length needs.now → IsPlaced needs.now (length needs.now) listed.now ready.new (lists v.items) x) }
{
    let mut waiting = no_waiters(alloc, needs.len())?;
    put_all(needs, listed, ready, &mut waiting)?;
    Ok(waiting)
}

/// Puts those again that waited for a node which is listed now. Its own list stays as it is, since nobody looks at it again.
/// AllocError where memory runs out.
pub fn put_again(
    needs: &[NumberSet],
    node: usize,
    listed: &NumberSet,
    late: bool,
    ready: &mut NumberSet,
    waiting: &mut [Vec<usize>],
) -> Result<(), AllocError>
    requires rows { All (λ row. length needs.now ≤ room row) needs.now }
    requires node { (node < length needs.now) × (has listed.now node ≡ true) }
    requires range { (x : ℕ) → HasEdge (lists waiting.old) node x → x < length needs.now }
    requires listed { length needs.now ≤ room listed.now }
    requires ready { length needs.now ≤ room ready.old }
    requires waiting { length waiting.old ≡ length needs.now }
    ensures room { room ready.new ≡ room ready.old }
    ensures len { length waiting.new ≡ length waiting.old }
    ensures more { OnOk result (IsMore needs.now (length needs.now) listed.now ready.old (lists waiting.old) ready.new (lists waiting.new)) }
    ensures placed { OnOk result ((x : ℕ) → HasEdge (lists waiting.old) node x → IsPlaced needs.now (length needs.now) listed.now ready.new (lists waiting.new) x) }
{
    for i in 0..waiting[node].len() {
        let waiter = waiting[node][i];
        put_node(needs, waiter, listed, late, ready, waiting)?;
    }
    Ok(())
}
