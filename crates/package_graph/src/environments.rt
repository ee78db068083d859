//! The modules of packages in the environments of nodes.
ghost use Rattle.std.specs.Prelude.{◌≡◌, ◌<◌, ◌≤◌, ◌^◌, ◌||◌, ℕ, [], IfOk, true, false, get_or, length};
ghost use Rattle.std.specs.List.{All};
ghost use Rattle.numbered_nodes.specs.Bits.{has, room, room_for};
ghost use Rattle.numbered_nodes.specs.Chains.{below};
ghost use Rattle.numbered_nodes.specs.Edges.{HaveRoom};
ghost use Rattle.package_graph.specs.Environments.{among};

use mk_base::list::List;
use mk_base::memory::NoMemory;
use numbered_nodes::sets::NumberSet;
use std::alloc::Global;

/// The nodes that bring no module of a package in.
fn plain_nodes(alloc: Global, own: &[NumberSet], count: usize) -> Result<NumberSet, NoMemory>
    requires { HaveRoom (room_for count) own.now }
    ensures room { IfOk result (λ s. room s ≡ room_for (length own.now)) }
    ensures plain { IfOk result (λ s. (b k : ℕ) → has s b ≡ true → has (get_or own.now b []) k ≡ false) }
{
    let none = NumberSet::empty(alloc, count)?;
    let mut plain = NumberSet::empty(alloc, own.len())?;
    for b in 0..own.len() {
        if own[b].is_within(&none) {
            plain.insert(b);
        }
    }
    Ok(plain)
}

/// The row of a node, joined with those of the nodes that it needs, where plain nodes add nothing.
fn joined(
    alloc: Global,
    own: &[NumberSet],
    needed: &NumberSet,
    plain: &NumberSet,
    number: usize,
    count: usize,
) -> Result<NumberSet, NoMemory>
    requires number { number < length own.now }
    requires needed { length own.now ≤ room needed.now }
    requires plain_room { length own.now ≤ room plain.now }
    requires plain { (b k : ℕ) → has plain.now b ≡ true → has (get_or own.now b []) k ≡ false }
    requires room { HaveRoom (room_for count) own.now }
    ensures room { IfOk result (λ s. room s ≡ room_for count) }
    ensures has { IfOk result (λ s. (k : ℕ) → has s k ≡ among own.now needed.now number k) }
{
    let mut row = own[number].copy(alloc)?;
    let mut from = 0;
    while let Some(b) = needed.next_outside(plain, from, own.len()) {
        row.add_all(&own[b]);
        from = b + 1;
    }
    Ok(row)
}

/// The numbers below a count that stand in a row, rising, where `none` is a set of no number.
fn places_in(
    alloc: Global,
    row: &NumberSet,
    none: &NumberSet,
    count: usize,
) -> Result<List<u32>, NoMemory>
    requires room { count ≤ room row.now }
    requires none_room { count ≤ room none.now }
    requires none { (k : ℕ) → has none.now k ≡ false }
    requires few { count < 2 ^ 32 }
    ensures { IfOk result (λ ks. ks ≡ below count (has row.now)) }
{
    let mut places = List::new(alloc);
    let mut from = 0;
    while let Some(place) = row.next_outside(none, from, count) {
        places.push(place as u32)?;
        from = place + 1;
    }
    Ok(places)
}

/// For each of the nodes 0, 1, .. the numbers below `count` that it or one of its needs brings in, rising: `own` has a
/// row for each node with those that it brings in itself, `needs` one with the nodes that it needs. NoMemory where
/// memory runs out.
pub fn environments(
    alloc: Global,
    own: &[NumberSet],
    needs: &[NumberSet],
    count: usize,
) -> Result<Vec<List<u32>>, NoMemory>
    requires room { HaveRoom (room_for count) own.now }
    requires few { count < 2 ^ 32 }
    requires nodes { length needs.now ≡ length own.now }
    requires needs { All (λ row. length own.now ≤ room row) needs.now }
    ensures nodes { IfOk result (λ v. length v.items ≡ length own.now) }
    ensures numbers { IfOk result (λ v. (a : ℕ) → a < length own.now → get_or v.items a [] ≡ below count (among own.now (get_or needs.now a []) a)) }
{
    let plain = plain_nodes(alloc, own, count)?;
    let none = NumberSet::empty(alloc, count)?;
    let mut reached = Vec::new(alloc);
    for number in 0..own.len() {
        let row = joined(alloc, own, &needs[number], &plain, number, count)?;
        reached.push(places_in(alloc, &row, &none, count)?)?;
    }
    Ok(reached)
}
