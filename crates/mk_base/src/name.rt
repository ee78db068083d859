//! Names, compared by the bytes of unit, module, space and text.
ghost use Rattle.std.specs.Prelude.{◌≡◌, ◌↔◌, IsTrue, IfOk};
ghost use Rattle.std.specs.Ordering.{nat_cmp, bool_cmp, on, flip_args, then_cmp, as_partial_cmp};
ghost use Rattle.std.specs.Cmp.{partial_order_from_own_ties};
ghost use Rattle.std.specs.Cmp.Lexicographic.{slice_cmp};
ghost use Rattle.std.specs.Cmp.Rules.{comparing};
ghost use Rattle.std.proofs.Common.{rules};
ghost use Rattle.mk_base.specs.Order.{name_cmp, node_cmp};

use crate::memory::NoMemory;
use crate::text::Text;
use std::alloc::Global;
use std::cmp::Ordering;

/// The name of a unit: a tree of modules that is built as one.
#[derive(Clone, Debug, Drop, PartialEq, Eq, PartialOrd, Ord, Hash)]
pub struct Unit {
    pub text: Text,
}

/// The name of a module, with a dot between its parts (Haskell 2010 Report, section 5.1).
#[derive(Clone, Debug, Drop, PartialEq, Eq, PartialOrd, Ord, Hash)]
pub struct ModName {
    pub text: Text,
}

/// What a name is looked up among: values, constructors, or types and classes (Haskell 2010 Report, section 1.4).
#[derive(Clone, Copy, Debug, PartialEq, Eq, PartialOrd, Ord, Hash)]
pub enum Space {
    Var,
    Con,
    Ty,
}

/// A name as it occurs, without its module.
#[derive(Clone, Debug, Drop, PartialEq, Eq, PartialOrd, Ord, Hash)]
pub struct Occ {
    pub space: Space,
    pub text: Text,
}

/// The full name of an entity: the unit and module that declare it, and how it occurs there.
#[derive(Clone, Debug, Drop, PartialEq, Eq, PartialOrd, Ord, Hash)]
pub struct Name {
    pub unit: Unit,
    pub module: ModName,
    pub occ: Occ,
}

/// A node of the build: a module's source, or with `boot` its boot source.
#[derive(Clone, Debug, Drop, PartialEq, Eq, Hash)]
pub struct Node {
    pub module: ModName,
    pub boot: bool,
}

// By module, and then the boot node before the real one: the other way round than a derive has it.
impl Ord for Node {
    ghost cmp = { then_cmp (on (λ n. n.module.text) (slice_cmp nat_cmp)) (flip_args (on (λ n. n.boot) bool_cmp)) };

    ghost total = { Prim.search (comparing, rules) };

    ghost matches_partial_cmp = { Prim.search (comparing, rules) };

    ghost matches_eq = { Prim.search (comparing, rules) };

    fn cmp(&self, other: &Node) -> Ordering {
        self.module
            .cmp(&other.module)
            .then(other.boot.cmp(&self.boot))
    }
}

impl PartialOrd for Node {
    ghost partial_cmp = { as_partial_cmp (then_cmp (on (λ n. n.module.text) (slice_cmp nat_cmp)) (flip_args (on (λ n. n.boot) bool_cmp))) };

    ghost laws = { partial_order_from_own_ties (Prim.search (comparing, rules))
        (Prim.search (comparing, rules)) };

    fn partial_cmp(&self, other: &Node) -> Option<Ordering> {
        Some(self.cmp(other))
    }
}

impl Unit {
    /// A second unit name, equal to this one.
    pub fn copy(&self, alloc: Global) -> Result<Unit, NoMemory>
        ensures { IfOk result (λ u. u ≡ self.now) }
    {
        let text = self.text.copy(alloc)?;
        Ok(Unit { text })
    }
}

impl ModName {
    /// A second module name, equal to this one.
    pub fn copy(&self, alloc: Global) -> Result<ModName, NoMemory>
        ensures { IfOk result (λ m. m ≡ self.now) }
    {
        let text = self.text.copy(alloc)?;
        Ok(ModName { text })
    }
}

impl Occ {
    /// A second occurrence, equal to this one.
    pub fn copy(&self, alloc: Global) -> Result<Occ, NoMemory>
        ensures { IfOk result (λ o. o ≡ self.now) }
    {
        let text = self.text.copy(alloc)?;
        Ok(Occ {
            space: self.space,
            text,
        })
    }
}

impl Name {
    /// A second name, equal to this one.
    pub fn copy(&self, alloc: Global) -> Result<Name, NoMemory>
        ensures { IfOk result (λ n. n ≡ self.now) }
    {
        let unit = self.unit.copy(alloc)?;
        let module = self.module.copy(alloc)?;
        let occ = self.occ.copy(alloc)?;
        Ok(Name { unit, module, occ })
    }
}

impl Node {
    /// A second node, equal to this one.
    pub fn copy(&self, alloc: Global) -> Result<Node, NoMemory>
        ensures { IfOk result (λ n. n ≡ self.now) }
    {
        let module = self.module.copy(alloc)?;
        Ok(Node {
            module,
            boot: self.boot,
        })
    }
}

/// Whether two names are the same name.
pub fn same_name(a: &Name, b: &Name) -> bool
    ensures { IsTrue result ↔ (a.now ≡ b.now) }
{
    a == b
}

/// Whether two nodes are the same node.
pub fn same_node(a: &Node, b: &Node) -> bool
    ensures { IsTrue result ↔ (a.now ≡ b.now) }
{
    a == b
}

/// The order of names: by unit, module, space and text.
pub fn order_names(a: &Name, b: &Name) -> Ordering
    ensures { result ≡ name_cmp a.now b.now }
{
    a.cmp(b)
}

/// The order of nodes: by module, and the boot node before the real one.
pub fn order_nodes(a: &Node, b: &Node) -> Ordering
    ensures { result ≡ node_cmp a.now b.now }
{
    a.cmp(b)
}
