//! How the tables of the modules of packages come about.
ghost use Rattle.std.specs.Prelude.{◌≡◌, ◌<◌, ◌^◌, ◌||◌, ◌&&◌, ◌↔◌, ℕ, nat_eq, true, [], get_or, length, map, IfOk, OnOk, List as Row};
ghost use Rattle.std.specs.List.{All};
ghost use Rattle.std.specs.Option.{option_copied, option_or};
ghost use Rattle.indexmap.specs.IndexMap.{get};
ghost use Rattle.numbered_nodes.specs.Bits.{has, room, room_for};
ghost use Rattle.numbered_nodes.specs.Edges.{HaveRoom, Relates, lists};
ghost use Rattle.mk_base.specs.Texts.{same_text};
ghost use Rattle.package_graph.specs.Packages as packages_spec;
ghost use Rattle.package_graph.specs.Targets as targets_spec;
ghost use Rattle.package_graph.specs.Targets.{home_in, is_state, least_at, place_if, state_places, targets_in};
ghost use Rattle.package_graph.specs.Tables.{AreTables, first_in};

use crate::modules::{PackageModule, PackageState};
use crate::packages::Packages;
use indexmap::IndexMap;
use mk_base::memory::NoMemory;
use mk_base::name::ModName;
use mk_base::text::Text;
use numbered_nodes::search::reach_rows;
use numbered_nodes::sets::NumberSet;
use std::alloc::Global;

/// A module of a package, by the names of both.
#[derive(Clone, Copy, PartialEq, Eq, Hash)]
struct Home<'a> {
    unit: &'a Text,
    module: &'a Text,
}

/// Gives a name its place where it has none.
fn add_first(
    alloc: Global,
    firsts: &mut IndexMap<Text, usize>,
    name: &Text,
    place: usize,
) -> Result<(), NoMemory>
    ensures { OnOk result ((m : Row ℕ) → get same_text firsts.new m ≡ option_or (get same_text firsts.old m) (place_if (same_text m name.now) place)) }
{
    if firsts.get(name).is_none() {
        firsts.insert(name.copy(alloc)?, place)?;
    }
    Ok(())
}

/// The place of the first module of each name.
fn firsts_of(alloc: Global, modules: &[PackageModule]) -> Result<IndexMap<Text, usize>, NoMemory>
    ensures { IfOk result (λ t. (m : Row ℕ) → get same_text t m ≡ packages_spec.first_package modules.now m) }
{
    let mut firsts = IndexMap::new(alloc);
    for (place, module) in modules.iter().enumerate() {
        add_first(alloc, &mut firsts, &module.module.text, place)?;
    }
    Ok(firsts)
}

/// Gives a module of a package its place where it has none.
fn add_home<'a>(
    homes: &mut IndexMap<Home<'a>, usize>,
    home: Home<'a>,
    place: usize,
) -> Result<(), NoMemory>
    ensures { OnOk result ((u m : Row ℕ) → home_in homes.new u m ≡ option_or (home_in homes.old u m) (place_if (same_text u home.entry.unit.now && same_text m home.entry.«module».now) place)) }
{
    if homes.get(&home).is_none() {
        homes.insert(home, place)?;
    }
    Ok(())
}

/// The place of the first module of each name in each package.
fn homes_of(alloc: Global, modules: &[PackageModule]) -> Result<IndexMap<Home<'_>, usize>, NoMemory>
    ensures { IfOk result (λ t. (u m : Row ℕ) → home_in t u m ≡ packages_spec.in_package modules.now u m) }
{
    let mut homes = IndexMap::new(alloc);
    for (place, module) in modules.iter().enumerate() {
        let home = Home {
            unit: &module.unit.text,
            module: &module.module.text,
        };
        add_home(&mut homes, home, place)?;
    }
    Ok(homes)
}

/// Where a name in a package's module leads: to its own package, else to the first package that has it.
fn led_to(
    homes: &IndexMap<Home<'_>, usize>,
    firsts: &IndexMap<Text, usize>,
    unit: &Text,
    name: &Text,
) -> Option<usize>
    ensures { result ≡ option_or (home_in homes.now unit.now name.now) (get same_text firsts.now name.now) }
{
    let own = homes.get(&Home { unit, module: name });
    own.or(firsts.get(name)).copied()
}

/// The places to which these names lead in a module of a package.
fn targets_of(
    alloc: Global,
    homes: &IndexMap<Home<'_>, usize>,
    firsts: &IndexMap<Text, usize>,
    unit: &Text,
    names: &[ModName],
) -> Result<Vec<usize>, NoMemory>
    ensures { IfOk result (λ v. v.items ≡ targets_in homes.now firsts.now unit.now names.now) }
{
    let mut targets = Vec::new(alloc);
    for name in names {
        if let Some(place) = led_to(homes, firsts, unit, &name.text) {
            targets.push(place)?;
        }
    }
    Ok(targets)
}

/// The places to which the imports of each module lead.
fn package_edges(
    alloc: Global,
    modules: &[PackageModule],
    firsts: &IndexMap<Text, usize>,
) -> Result<Vec<Vec<usize>>, NoMemory>
    requires firsts { (m : Row ℕ) → get same_text firsts.now m ≡ packages_spec.first_package modules.now m }
    ensures { IfOk result (λ v. lists v.items ≡ map (targets_spec.package_targets modules.now) modules.now) }
{
    let homes = homes_of(alloc, modules)?;
    let mut edges = Vec::new(alloc);
    for module in modules {
        let names = module.reaches.as_slice();
        let targets = targets_of(alloc, &homes, firsts, &module.unit.text, names)?;
        edges.push(targets)?;
    }
    Ok(edges)
}

/// The rows, each with its own number in it.
fn with_themselves(mut rows: Vec<NumberSet>) -> Vec<NumberSet>
    requires room { HaveRoom (room_for (length rows.items)) rows.items }
    ensures count { length result.items ≡ length rows.items }
    ensures room { HaveRoom (room_for (length rows.items)) result.items }
    ensures rows { (j k : ℕ) → j < length rows.items → has (get_or result.items j []) k ≡ (nat_eq k j || has (get_or rows.items j []) k) }
{
    for j in 0..rows.len() {
        rows[j].insert(j);
    }
    rows
}

/// A row for each module, with itself and all that it reaches.
fn package_rows(
    alloc: Global,
    modules: &[PackageModule],
    firsts: &IndexMap<Text, usize>,
) -> Result<Vec<NumberSet>, NoMemory>
    requires firsts { (m : Row ℕ) → get same_text firsts.now m ≡ packages_spec.first_package modules.now m }
    ensures count { IfOk result (λ v. length v.items ≡ length modules.now) }
    ensures room { IfOk result (λ v. HaveRoom (room_for (length modules.now)) v.items) }
    ensures rows { IfOk result (λ v. (j k : ℕ) → j < length modules.now → k < length modules.now → Relates v.items j k ↔ (packages_spec.has_package modules.now j k ≡ true)) }
{
    let edges = package_edges(alloc, modules, firsts)?;
    let rows = reach_rows(alloc, &edges)?;
    Ok(with_themselves(rows))
}

/// Whether two states are the same.
fn same_state(a: PackageState, b: PackageState) -> bool
    ensures { result ≡ is_state a b }
{
    a == b
}

/// The places of the modules in a state.
fn places_in(
    alloc: Global,
    modules: &[PackageModule],
    state: PackageState,
) -> Result<Vec<usize>, NoMemory>
    ensures { IfOk result (λ v. v.items ≡ state_places (is_state state) 0 modules.now) }
{
    let mut places = Vec::new(alloc);
    for (place, module) in modules.iter().enumerate() {
        if same_state(state, module.state) {
            places.push(place)?;
        }
    }
    Ok(places)
}

/// The lesser of two texts.
fn lesser<'a>(a: &'a Text, b: Option<&'a Text>) -> &'a Text
    ensures { result.now ≡ packages_spec.lesser a.now (option_copied b.entry) }
{
    match b {
        Some(b) if a >= b => b,
        _ => a,
    }
}

/// The least name of the modules at these places that stand in a row.
fn least_name<'a>(
    modules: &'a [PackageModule],
    places: &[usize],
    row: &NumberSet,
) -> Option<&'a Text>
    requires places { All (λ k. k < length modules.now) places.now }
    requires room { room row.now ≡ room_for (length modules.now) }
    ensures { option_copied result ≡ least_at modules.now (has row.now) places.now }
{
    let mut least = None;
    for i in (0..places.len()).rev() {
        let place = places[i];
        if row.contains(place) {
            least = Some(lesser(&modules[place].module.text, least));
        }
    }
    least
}

/// A text of its own, where there is one.
fn owned(alloc: Global, text: Option<&Text>) -> Result<Option<Text>, NoMemory>
    ensures { IfOk result (λ t. t ≡ option_copied text.entry) }
{
    match text {
        Some(text) => Ok(Some(text.copy(alloc)?)),
        None => Ok(None),
    }
}

/// For each row the least name of the modules in a state that stand in it.
fn least_names(
    alloc: Global,
    modules: &[PackageModule],
    rows: &[NumberSet],
    state: PackageState,
) -> Result<Vec<Option<Text>>, NoMemory>
    requires room { HaveRoom (room_for (length modules.now)) rows.now }
    ensures { IfOk result (λ v. v.items ≡ map (λ row. least_at modules.now (has row) (state_places (is_state state) 0 modules.now)) rows.now) }
{
    let places = places_in(alloc, modules, state)?;
    let mut names = Vec::new(alloc);
    for row in rows {
        names.push(owned(alloc, least_name(modules, &places, row))?)?;
    }
    Ok(names)
}

/// The table of these modules.
pub fn packages_of(alloc: Global, modules: &[PackageModule]) -> Result<Packages, NoMemory>
    requires few { length modules.now < 2 ^ 32 }
    ensures { IfOk result (λ t. AreTables t modules.now) }
{
    let firsts = firsts_of(alloc, modules)?;
    let rows = package_rows(alloc, modules, &firsts)?;
    let damaged = least_names(alloc, modules, &rows, PackageState::Damaged)?;
    let dangling = least_names(alloc, modules, &rows, PackageState::Dangling)?;
    Ok(Packages {
        firsts,
        rows,
        damaged,
        dangling,
    })
}

/// The place of the first module of a name.
pub fn first_package(packages: &Packages, name: &Text) -> Option<usize>
    ensures { result ≡ first_in packages.now name.now }
{
    packages.firsts.get(name).copied()
}
