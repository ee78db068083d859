//! What a graph lists for each place of its order.
ghost use Rattle.std.specs.Prelude.{◌≡◌, ◌<◌, ◌≤◌, ◌^◌, ◌&&◌, ℕ, IfOk, List as Row, [], false, length, map, not, get_or};
ghost use Rattle.std.specs.List.{All};
ghost use Rattle.numbered_nodes.specs.Bits.{has, room, room_for};
ghost use Rattle.numbered_nodes.specs.Chains.{below};
ghost use Rattle.mod_graph.specs.Errors.{errors_of};
ghost use Rattle.mod_graph.specs.Graph.{Input, entries as entries_in, ids, nodes_at};
ghost use Rattle.mod_graph.specs.Parts.{AreLists};
ghost use Rattle.mod_graph.specs.Places.{AreNumbers};
ghost use Rattle.mod_graph.specs.Rows.{AreRows};
ghost use Rattle.mod_graph.specs.Seen.{ArePlaces, is_place, places_needed};
ghost use Rattle.package_graph.specs.Tables.{AreTables};
ghost use Rattle.package_graph.specs.declared.modules.PackageModule.{PackageModule as ModuleOfPackage};

use crate::entries::Entry;
use crate::errors::node_errors;
use crate::places::Numbers;
use crate::reached::reached_packages;
use crate::rows::Rows;
use mk_base::diag::Diag;
use mk_base::list::List;
use mk_base::memory::NoMemory;
use mk_base::name::Node;
use mk_base::place::NodeId;
use mk_base::plain::Plain;
use numbered_nodes::sets::NumberSet;
use package_graph::packages::Packages;
use std::alloc::Global;

/// The nodes in their order, for each place what its node needs, its diagnostics and the package modules that it reaches,
/// and the place of each number.
#[derive(Drop)]
pub struct Lists {
    pub order: List<Node>,
    pub needs: List<List<NodeId>>,
    pub errors: List<List<Diag>>,
    pub reached: List<List<u32>>,
    pub places: Vec<usize>,
}

/// The nodes with these numbers.
fn nodes_in_order(alloc: Global, entries: &[Entry], order: &[usize]) -> Result<List<Node>, NoMemory>
    requires { All (λ k. k < length entries.now) order.now }
    ensures { IfOk result (λ ns. ns ≡ nodes_at entries.now order.now) }
{
    let mut nodes = List::new(alloc);
    for number in order {
        nodes.push(entries[*number].node.copy(alloc)?)?;
    }
    Ok(nodes)
}

/// The place in the order of the node with each number.
fn places_in_order(alloc: Global, order: &[usize]) -> Result<Vec<usize>, NoMemory>
    requires range { All (λ k. k < length order.now) order.now }
    requires once { (j k : ℕ) → j < length order.now → k < length order.now → get_or order.now j 0 ≡ get_or order.now k 0 → j ≡ k }
    ensures len { IfOk result (λ v. length v.items ≡ length order.now) }
    ensures range { IfOk result (λ v. All (λ k. k < length order.now) v.items) }
    ensures places { IfOk result (λ v. (k : ℕ) → k < length order.now → get_or v.items (get_or order.now k 0) 0 ≡ k) }
{
    let mut places = Vec::new(alloc);
    places.resize(order.len(), 0usize)?;
    for k in 0..order.len() {
        places[order[k]] = k;
    }
    Ok(places)
}

/// The places of the nodes in a row, as a set, where `none` is a set of no number.
fn placed_in(
    alloc: Global,
    places: &[usize],
    needed: &NumberSet,
    none: &NumberSet,
) -> Result<NumberSet, NoMemory>
    requires range { All (λ k. k < length places.now) places.now }
    requires needed { length places.now ≤ room needed.now }
    requires none_room { length places.now ≤ room none.now }
    requires none { (k : ℕ) → has none.now k ≡ false }
    ensures room { IfOk result (λ s. room s ≡ room_for (length places.now)) }
    ensures has { IfOk result (λ s. (k : ℕ) → has s k ≡ is_place needed.now places.now k) }
{
    let mut placed = NumberSet::empty(alloc, places.len())?;
    let mut from = 0;
    while let Some(number) = needed.next_outside(none, from, places.len()) {
        placed.insert(places[number]);
        from = number + 1;
    }
    Ok(placed)
}

/// The places below a count that stand in a set and not in another, rising.
fn listed(
    alloc: Global,
    placed: &NumberSet,
    skipped: &NumberSet,
    count: usize,
) -> Result<List<NodeId>, NoMemory>
    requires few { count < 2 ^ 32 }
    requires placed { count ≤ room placed.now }
    requires skipped { count ≤ room skipped.now }
    ensures { IfOk result (λ ns. ids ns ≡ below count (λ k. not (has skipped.now k) && has placed.now k)) }
{
    let mut nodes = List::new(alloc);
    let mut from = 0;
    while let Some(place) = placed.next_outside(skipped, from, count) {
        nodes.push(NodeId(place as u32))?;
        from = place + 1;
    }
    Ok(nodes)
}

/// The places of what the node at a place needs besides itself, rising, from its row and the place of each number.
fn needs_at(
    alloc: Global,
    order: &[usize],
    places: &[usize],
    needed: &NumberSet,
    place: usize,
) -> Result<List<NodeId>, NoMemory>
    requires few { length order.now < 2 ^ 32 }
    requires place { place < length order.now }
    requires places { ArePlaces places.now order.now }
    requires room { length order.now ≤ room needed.now }
    ensures { IfOk result (λ ns. ids ns ≡ places_needed needed.now order.now place) }
{
    let mut skipped = NumberSet::empty(alloc, order.len())?;
    let placed = placed_in(alloc, places, needed, &skipped)?;
    skipped.insert(place);
    listed(alloc, &placed, &skipped, order.len())
}

/// What each node needs, by place.
fn all_needs(alloc: Global, rows: &Rows, places: &[usize]) -> Result<List<List<NodeId>>, NoMemory>
    requires few { length rows.now.order.items < 2 ^ 32 }
    requires range { All (λ k. k < length rows.now.needs.items) rows.now.order.items }
    requires places { ArePlaces places.now rows.now.order.items }
    requires room { All (λ row. length rows.now.order.items ≤ room row) rows.now.needs.items }
    ensures len { IfOk result (λ all. length all ≡ length rows.now.order.items) }
    ensures needs { IfOk result (λ all. (k : ℕ) → k < length rows.now.order.items
        → ids (get_or all k []) ≡ places_needed (get_or rows.now.needs.items (get_or rows.now.order.items k 0) []) rows.now.order.items k) }
{
    let mut all = List::new(alloc);
    for place in 0..rows.order.len() {
        let needed = &rows.needs[rows.order[place]];
        all.push(needs_at(alloc, &rows.order, places, needed, place)?)?;
    }
    Ok(all)
}

/// The diagnostics of each node, by place.
fn all_errors(
    alloc: Global,
    entries: &[Entry],
    numbers: &Numbers,
    rows: &Rows,
    tables: &Packages,
) -> Result<List<List<Diag>>, NoMemory>
    requires numbers { AreNumbers numbers.now entries.now }
    requires rows { AreRows rows.now entries.now }
    requires range { All (λ k. k < length entries.now) rows.now.order.items }
    ensures { IfOk result (λ all. (ps : Row ModuleOfPackage) → AreTables tables.now ps → all ≡ map (errors_of entries.now ps) rows.now.order.items) }
{
    let mut all = List::new(alloc);
    for number in &rows.order {
        all.push(node_errors(alloc, entries, *number, numbers, rows, tables)?)?;
    }
    Ok(all)
}

/// The lists with these numbers.
fn picked(alloc: Global, lists: &[List<u32>], order: &[usize]) -> Result<List<List<u32>>, NoMemory>
    requires { All (λ k. k < length lists.now) order.now }
    ensures { IfOk result (λ all. all ≡ map (λ k. get_or lists.now k []) order.now) }
{
    let mut all = List::new(alloc);
    for number in order {
        all.push(lists[*number].copy(alloc)?)?;
    }
    Ok(all)
}

/// The lists of a tree.
pub fn lists_of(
    alloc: Global,
    entries: &[Entry],
    numbers: &Numbers,
    rows: &Rows,
    tables: &Packages,
) -> Result<Lists, NoMemory>
    requires few { length entries.now < 2 ^ 32 }
    requires few_packages { length tables.now.rows.items < 2 ^ 32 }
    requires numbers { AreNumbers numbers.now entries.now }
    requires rows { AreRows rows.now entries.now }
    requires made { (i : Input) × (entries.now ≡ entries_in i) × AreTables tables.now i.packages }
    ensures { IfOk result (λ l. AreLists l entries.now rows.now tables.now) }
{
    let by_number = reached_packages(alloc, entries, numbers, rows, tables)?;
    let order = nodes_in_order(alloc, entries, &rows.order)?;
    let places = places_in_order(alloc, &rows.order)?;
    let needs = all_needs(alloc, rows, &places)?;
    let errors = all_errors(alloc, entries, numbers, rows, tables)?;
    let reached = picked(alloc, &by_number, &rows.order)?;
    Ok(Lists {
        order,
        needs,
        errors,
        reached,
        places,
    })
}
