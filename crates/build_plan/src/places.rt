//! Where a tree's nodes stand.
ghost use Rattle.std.specs.Prelude.{◌≡◌, ℕ, Bool, List as Row, Some, IfOk, OnOk, if◌then◌else◌};
ghost use Rattle.mod_graph.specs.Names.{node_named, same_node};
ghost use Rattle.build_plan.specs.Positions.{ArePlaces, pairs, place_in};

use crate::sources::Source;
use indexmap::IndexMap;
use mk_base::memory::NoMemory;
use mk_base::name::Node;
use mk_base::text::Text;
use std::alloc::Global;

/// The places of nodes by the names of their modules: of real nodes and of boot nodes.
#[derive(Drop)]
pub struct NodePlaces {
    pub reals: IndexMap<Text, usize>,
    pub boots: IndexMap<Text, usize>,
}

fn add_place(
    alloc: Global,
    places: &mut NodePlaces,
    node: &Node,
    place: usize,
) -> Result<(), NoMemory>
    ensures { OnOk result ((boot : Bool) (m : Row ℕ) → place_in places.new boot m ≡ (if same_node node.now (node_named m boot) then Some place else place_in places.old boot m)) }
{
    let module = node.module.text.copy(alloc)?;
    if node.boot {
        places.boots.insert(module, place)?;
    } else {
        places.reals.insert(module, place)?;
    }
    Ok(())
}

/// The places of all nodes.
pub fn places_of(alloc: Global, sources: &[Source<'_>]) -> Result<NodePlaces, NoMemory>
    ensures { IfOk result (λ p. ArePlaces p (pairs sources.now)) }
{
    let mut places = NodePlaces {
        reals: IndexMap::new(alloc),
        boots: IndexMap::new(alloc),
    };
    for (place, source) in sources.iter().enumerate() {
        add_place(alloc, &mut places, &source.node, place)?;
    }
    Ok(places)
}

/// The place of a module's real node, or of its boot node.
pub fn place_of(places: &NodePlaces, boot: bool, name: &Text) -> Option<usize>
    ensures { result ≡ place_in places.now boot name.now }
{
    let found = if boot {
        places.boots.get(name)
    } else {
        places.reals.get(name)
    };
    found.copied()
}
