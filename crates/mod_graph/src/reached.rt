//! The modules of packages in the environments of nodes.
ghost use Rattle.std.specs.Prelude.{◌≡◌, ◌<◌, ◌≤◌, ◌^◌, ◌||◌, ℕ, [], IfOk, true, false, get_or, length, map};
ghost use Rattle.std.specs.List.{range_with_len};
ghost use Rattle.numbered_nodes.specs.Bits.{has, room, room_for};
ghost use Rattle.numbered_nodes.specs.Edges.{HaveRoom};
ghost use Rattle.numbered_nodes.specs.Chains.{below};
ghost use Rattle.mod_graph.specs.Environments.{brings_in, imports_bring, own_brings};
ghost use Rattle.mod_graph.specs.Found.{found_in};
ghost use Rattle.mod_graph.specs.Graph.{Input, entries as entries_in, in_environment};
ghost use Rattle.mod_graph.specs.Places.{AreNumbers};
ghost use Rattle.mod_graph.specs.Rows.{AreRows};
ghost use Rattle.package_graph.specs.Tables.{AreTables};

use crate::entries::Entry;
use crate::found::{Found, find_module};
use crate::places::Numbers;
use crate::rows::Rows;
use hs_syntax::header::ImportItem;
use mk_base::list::List;
use mk_base::memory::NoMemory;
use mk_base::text::Text;
use numbered_nodes::sets::NumberSet;
use package_graph::environments::environments;
use package_graph::packages::Packages;
use std::alloc::Global;

/// Puts what a module of this name reaches into the row, where it is a package's.
fn add_reached(numbers: &Numbers, packages: &Packages, name: &Text, row: &mut NumberSet)
    requires { room row.old ≡ room_for (length packages.now.rows.items) }
    ensures room { room row.new ≡ room row.old }
    ensures has { (k : ℕ) → has row.new k ≡ (has row.old k || brings_in packages.now (found_in numbers.now packages.now name.now) k) }
{
    if let Found::Package(place) = find_module(numbers, packages, name) {
        if let Some(reached) = packages.rows.get(place) {
            row.add_all(reached);
        }
    }
}

/// What the imported modules of packages reach.
fn own_row(
    alloc: Global,
    numbers: &Numbers,
    packages: &Packages,
    imports: &[ImportItem],
) -> Result<NumberSet, NoMemory>
    ensures room { IfOk result (λ s. room s ≡ room_for (length packages.now.rows.items)) }
    ensures has { IfOk result (λ s. (k : ℕ) → has s k ≡ imports_bring numbers.now packages.now imports.now k) }
{
    let mut row = NumberSet::empty(alloc, packages.rows.len())?;
    for import in imports {
        add_reached(numbers, packages, &import.module.text, &mut row);
    }
    Ok(row)
}

/// For each node what the modules of packages that it imports reach.
fn own_rows(
    alloc: Global,
    entries: &[Entry],
    numbers: &Numbers,
    packages: &Packages,
) -> Result<Vec<NumberSet>, NoMemory>
    ensures len { IfOk result (λ v. length v.items ≡ length entries.now) }
    ensures room { IfOk result (λ v. HaveRoom (room_for (length packages.now.rows.items)) v.items) }
    ensures has { IfOk result (λ v. (a k : ℕ) → a < length entries.now → has (get_or v.items a []) k ≡ own_brings numbers.now packages.now entries.now a k) }
{
    let mut rows = Vec::new(alloc);
    for entry in entries {
        rows.push(own_row(alloc, numbers, packages, entry.imports.as_slice())?)?;
    }
    Ok(rows)
}

/// For each node the places of the package modules that it or one of its needs reaches, rising.
pub fn reached_packages(
    alloc: Global,
    entries: &[Entry],
    numbers: &Numbers,
    rows: &Rows,
    packages: &Packages,
) -> Result<Vec<List<u32>>, NoMemory>
    requires numbers { AreNumbers numbers.now entries.now }
    requires rows { AreRows rows.now entries.now }
    requires few { length packages.now.rows.items < 2 ^ 32 }
    ensures { IfOk result (λ v. (i : Input) → entries.now ≡ entries_in i → AreTables packages.now i.packages
        → v.items ≡ map (λ a. below (length i.packages) (in_environment i a)) (range_with_len 0 (length entries.now))) }
{
    let own = own_rows(alloc, entries, numbers, packages)?;
    let reached = environments(alloc, &own, &rows.needs, packages.rows.len())?;
    Ok(reached)
}
