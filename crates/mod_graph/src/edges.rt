//! The edges of nodes and of modules, as lists of targets.
ghost use Rattle.std.specs.Prelude.{◌≡◌, ◌<◌, ◌↔◌, ◌++◌, ◌||◌, ℕ, IfOk, IfSome, OnOk, get_or, length, replicate, []};
ghost use Rattle.std.specs.List.{All};
ghost use Rattle.std.specs.Option.{option_to_list};
ghost use Rattle.numbered_nodes.specs.Edges.{lists, HasEdge};
ghost use Rattle.mod_graph.specs.Places.{AreNumbers, module_in};
ghost use Rattle.mod_graph.specs.Edges.{Leads, Joins, module_of};
ghost use Rattle.mod_graph.specs.Targets as spec;

use crate::entries::Entry;
use crate::places::{Numbers, module_number, node_number};
use hs_syntax::header::ImportItem;
use mk_base::memory::NoMemory;
use mk_base::name::Node;
use std::alloc::Global;

/// Puts a number at the end, if there is one.
fn push_number(row: &mut Vec<usize>, number: Option<usize>) -> Result<(), NoMemory>
    ensures { OnOk result (row.new.items ≡ row.old.items ++ option_to_list number) }
{
    if let Some(number) = number {
        row.push(number)?;
    }
    Ok(())
}

/// The number of the boot node of a real node's module.
fn own_boot(numbers: &Numbers, node: &Node) -> Option<usize>
    ensures { result ≡ spec.own_boot numbers.now node.now }
{
    if node.boot {
        return None;
    }
    node_number(numbers, true, &node.module.text)
}

/// The nodes that a node leads to: its own boot node, and what its imports ask for.
fn node_targets(alloc: Global, entry: &Entry, numbers: &Numbers) -> Result<Vec<usize>, NoMemory>
    ensures { IfOk result (λ row. row.items ≡ spec.node_targets numbers.now entry.now) }
{
    let mut row = Vec::new(alloc);
    push_number(&mut row, own_boot(numbers, &entry.node))?;
    for import in entry.imports.as_slice() {
        push_number(
            &mut row,
            node_number(numbers, import.source, &import.module.text),
        )?;
    }
    Ok(row)
}

/// The nodes that each node leads to.
pub fn node_edges(
    alloc: Global,
    entries: &[Entry],
    numbers: &Numbers,
) -> Result<Vec<Vec<usize>>, NoMemory>
    requires numbers { AreNumbers numbers.now entries.now }
    ensures len { IfOk result (λ v. length v.items ≡ length entries.now) }
    ensures edges { IfOk result (λ v. (a b : ℕ) → HasEdge (lists v.items) a b ↔ Leads entries.now a b) }
{
    let mut rows = Vec::new(alloc);
    for entry in entries {
        rows.push(node_targets(alloc, entry, numbers)?)?;
    }
    Ok(rows)
}

/// So many rows with no target.
fn empty_rows(alloc: Global, count: usize) -> Result<Vec<Vec<usize>>, NoMemory>
    ensures { IfOk result (λ v. lists v.items ≡ replicate count []) }
{
    let mut rows = Vec::new(alloc);
    for turn in 0..count {
        let _ = turn;
        rows.push(Vec::new(alloc))?;
    }
    Ok(rows)
}

/// Puts the numbers of the imported modules at the end.
fn push_modules(
    row: &mut Vec<usize>,
    imports: &[ImportItem],
    numbers: &Numbers,
) -> Result<(), NoMemory>
    ensures { OnOk result (row.new.items ≡ row.old.items ++ spec.module_targets numbers.now imports.now) }
{
    for import in imports {
        push_number(row, module_number(numbers, &import.module.text))?;
    }
    Ok(())
}

/// Puts the modules that a node imports into the row of its own module.
fn add_imports(rows: &mut [Vec<usize>], entry: &Entry, numbers: &Numbers) -> Result<(), NoMemory>
    requires { IfSome (module_in numbers.now entry.now.node.module.text) (λ x. x < length rows.old) }
    ensures len { length rows.new ≡ length rows.old }
    ensures targets { OnOk result ((x y : ℕ) → spec.has_target (lists rows.new) x y ≡ (spec.has_target (lists rows.old) x y || spec.joins_from numbers.now entry.now x y)) }
{
    if let Some(module) = module_number(numbers, &entry.node.module.text) {
        push_modules(&mut rows[module], entry.imports.as_slice(), numbers)?;
    }
    Ok(())
}

/// The modules that each module imports, in whatever form. A module has the number of its first node; the other numbers
/// have no edges.
pub fn module_edges(
    alloc: Global,
    entries: &[Entry],
    numbers: &Numbers,
) -> Result<Vec<Vec<usize>>, NoMemory>
    requires numbers { AreNumbers numbers.now entries.now }
    ensures len { IfOk result (λ v. length v.items ≡ length entries.now) }
    ensures edges { IfOk result (λ v. (x y : ℕ) → HasEdge (lists v.items) x y ↔ Joins entries.now x y) }
{
    let mut rows = empty_rows(alloc, entries.len())?;
    for entry in entries {
        add_imports(&mut rows, entry, numbers)?;
    }
    Ok(rows)
}

/// The module of each node.
pub fn modules_of(
    alloc: Global,
    entries: &[Entry],
    numbers: &Numbers,
) -> Result<Vec<usize>, NoMemory>
    requires numbers { AreNumbers numbers.now entries.now }
    ensures len { IfOk result (λ v. length v.items ≡ length entries.now) }
    ensures range { IfOk result (λ v. All (λ m. m < length entries.now) v.items) }
    ensures modules { IfOk result (λ v. (a : ℕ) → a < length entries.now → get_or v.items a 0 ≡ module_of entries.now a) }
{
    let mut modules = Vec::new(alloc);
    for entry in entries {
        let module = module_number(numbers, &entry.node.module.text);
        modules.push(module.unwrap_or(0))?;
    }
    Ok(modules)
}
