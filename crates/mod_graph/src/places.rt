//! The numbers of nodes and of modules by their names.
ghost use Rattle.std.specs.Prelude.{◌≡◌, ℕ, Bool, List as Row, IfOk, OnOk};
ghost use Rattle.indexmap.specs.IndexMap.{get};
ghost use Rattle.mod_graph.specs.Names.{same_text, same_node, node_named};
ghost use Rattle.mod_graph.specs.Places.{AreNumbers, number_in, module_in};
ghost use Rattle.mod_graph.specs.Targets.{or_number};

use crate::entries::Entry;
use indexmap::IndexMap;
use mk_base::memory::NoMemory;
use mk_base::name::Node;
use mk_base::text::Text;
use std::alloc::Global;

/// The numbers of nodes by the names of their modules, real and boot nodes apart.
#[derive(Drop)]
pub struct Numbers {
    pub reals: IndexMap<Text, usize>,
    pub boots: IndexMap<Text, usize>,
    pub modules: IndexMap<Text, usize>,
}

/// Gives a name this number where it has none yet.
fn add_name(
    alloc: Global,
    table: &mut IndexMap<Text, usize>,
    name: &Text,
    number: usize,
) -> Result<(), NoMemory>
    ensures { OnOk result ((m : Row ℕ) → get same_text table.new m ≡ or_number (get same_text table.old m) (same_text m name.now) number) }
{
    if !table.contains_key(name) {
        table.insert(name.copy(alloc)?, number)?;
    }
    Ok(())
}

/// Gives a node and its module this number where they have none yet.
fn add_node(
    alloc: Global,
    numbers: &mut Numbers,
    node: &Node,
    number: usize,
) -> Result<(), NoMemory>
    ensures nodes { OnOk result ((boot : Bool) (m : Row ℕ) → number_in numbers.new boot m ≡ or_number (number_in numbers.old boot m) (same_node (node_named m boot) node.now) number) }
    ensures modules { OnOk result ((m : Row ℕ) → module_in numbers.new m ≡ or_number (module_in numbers.old m) (same_text m node.now.module.text) number) }
{
    let name = &node.module.text;
    if node.boot {
        add_name(alloc, &mut numbers.boots, name, number)?;
    } else {
        add_name(alloc, &mut numbers.reals, name, number)?;
    }
    add_name(alloc, &mut numbers.modules, name, number)
}

/// The numbers of all nodes and modules; the number of a module is that of its first node.
pub fn numbers_of(alloc: Global, entries: &[Entry]) -> Result<Numbers, NoMemory>
    ensures { IfOk result (λ t. AreNumbers t entries.now) }
{
    let mut numbers = Numbers {
        reals: IndexMap::new(alloc),
        boots: IndexMap::new(alloc),
        modules: IndexMap::new(alloc),
    };
    for (number, entry) in entries.iter().enumerate() {
        add_node(alloc, &mut numbers, &entry.node, number)?;
    }
    Ok(numbers)
}

/// The number of a module's real node, or of its boot node.
pub fn node_number(numbers: &Numbers, boot: bool, name: &Text) -> Option<usize>
    ensures { result ≡ number_in numbers.now boot name.now }
{
    let table = if boot { &numbers.boots } else { &numbers.reals };
    table.get(name).copied()
}

/// The number of a module.
pub fn module_number(numbers: &Numbers, name: &Text) -> Option<usize>
    ensures { result ≡ module_in numbers.now name.now }
{
    numbers.modules.get(name).copied()
}
