//! The graph of modules.
ghost use Rattle.std.specs.Prelude.{◌≡◌, ◌<◌, ◌≤◌, ◌^◌, ◌&&◌, ℕ, Bool, IfOk, IfSome, Some, true, false, List as Row, [], length, map, not, nat_eq, slice_get, get_or, is_some, codes};
ghost use Rattle.std.specs.List.{All};
ghost use Rattle.std.specs.Option.{ForSome, option_copied};
ghost use Rattle.numbered_nodes.specs.Bits.{has, room};
ghost use Rattle.mod_graph.specs.Graph.{Input, ids};
ghost use Rattle.mod_graph.specs.Names.{same_text};
ghost use Rattle.mod_graph.specs.Parts.{AreParts};
ghost use Rattle.mod_graph.specs.Places.{number_in};
ghost use Rattle.mod_graph.specs.Seen.{is_seen, number_seen, outside_seen};
ghost use Rattle.package_graph.specs.Tables.{first_in};

use crate::entries::entries_of;
use crate::input::{HeaderOf, ViewOf};
use crate::lists::{Lists, lists_of};
use crate::places::{Numbers, module_number, node_number, numbers_of};
use crate::rows::{Rows, rows_of};
use mk_base::diag::Diag;
use mk_base::list::List;
use mk_base::memory::NoMemory;
use mk_base::name::{ModName, Node};
use mk_base::place::NodeId;
use mk_base::plain::Plain;
use mk_base::text::Text;
use package_graph::modules::PackageModule;
use package_graph::packages::{Packages, first_package, packages_of};
use std::alloc::Global;

/// The graph of a tree's modules and of the packages beside it.
#[derive(Drop)]
pub struct Graph {
    /// The nodes in their order; a `NodeId` is a place in it.
    pub order: List<Node>,
    pub needs: List<List<NodeId>>,
    pub errors: List<List<Diag>>,
    pub reached: List<List<u32>>,
    pub packages: List<PackageModule>,
    pub numbers: Numbers,
    pub rows: Rows,
    pub tables: Packages,
    /// The place in the order of the node with each number.
    pub places: Vec<usize>,
    ghost needs_count: { length needs ≡ length order },
    ghost errors_count: { length errors ≡ length order },
    ghost reached_count: { length reached ≡ length order },
    ghost order_count: { length rows.order.items ≡ length order },
    ghost order_range: { All (λ k. k < length order) rows.order.items },
    ghost loops_count: { length rows.loops.items ≡ length order },
    ghost loops_range: { All (λ k. k < length order) rows.loops.items },
    ghost reach_count: { length rows.reach.items ≡ length order },
    ghost reach_room: { All (λ row. length order ≤ room row) rows.reach.items },
    ghost places_count: { length places.items ≡ length order },
    ghost places_range: { All (λ k. k < length order) places.items },
    ghost numbers_range: { (boot : Bool) (m : Row ℕ) → ForSome (number_in numbers boot m) (λ k. k < length order) },
    ghost firsts_range: { (m : Row ℕ) → ForSome (first_in tables m) (λ k. k < 2 ^ 32) },
}

impl Graph {
    ghost use Rattle.mk_base.specs.declared.name.Node.{Node as NodeOf};
    ghost use Rattle.mod_graph.specs.Graph.{AreDistinct, IsNodeOrder, IsView, entries, errors_by, loop_number, needs_in, reached_by, view_of};
    ghost use Rattle.mod_graph.specs.Kept.{IsGraph};
    ghost use Rattle.mod_graph.specs.declared.input.ViewOf.TheVariants as view;
    ghost use Rattle.mk_base.specs.declared.place.NodeId.{NodeId as Id};

    /// The graph of these headers, no two of one node, and of the modules of packages, where `prelude` says whether
    /// Prelude is imported where a module's pragmas say nothing. NoMemory where memory runs out.
    pub fn build(
        alloc: Global,
        headers: &List<HeaderOf>,
        packages: &List<PackageModule>,
        prelude: bool,
    ) -> Result<Graph, NoMemory>
        requires distinct { AreDistinct headers.now }
        requires few { length headers.now < 2 ^ 32 }
        requires few_packages { length packages.now < 2 ^ 32 }
        ensures { IfOk result (λ g. IsGraph (record { headers = headers.now; packages = packages.now; prelude = prelude }) g) }
    {
        let entries = entries_of(alloc, headers.as_slice(), prelude)?;
        let numbers = numbers_of(alloc, &entries)?;
        let rows = rows_of(alloc, &entries, &numbers)?;
        let tables = packages_of(alloc, packages.as_slice())?;
        let lists = lists_of(alloc, &entries, &numbers, &rows, &tables)?;
        let kept = packages.copy(alloc)?;
        Ok(Graph::from_parts(lists, kept, numbers, rows, tables))
    }

    /// The graph that keeps these parts.
    fn from_parts(
        lists: Lists,
        packages: List<PackageModule>,
        numbers: Numbers,
        rows: Rows,
        tables: Packages,
    ) -> Graph
        requires parts { (i : Input) × AreParts i lists packages numbers rows tables }
        requires few_packages { length packages < 2 ^ 32 }
        ensures { (i : Input) → AreParts i lists packages numbers rows tables → IsGraph i result }
    {
        let Lists {
            order,
            needs,
            errors,
            reached,
            places,
        } = lists;
        Graph {
            order,
            needs,
            errors,
            reached,
            packages,
            numbers,
            rows,
            tables,
            places,
        }
    }

    /// The nodes in their order: of the unlisted nodes all of whose needs are listed the least by name comes next, boot
    /// before real, and where there is none the least unlisted one.
    pub fn order(&self) -> &List<Node>
        ensures is { result.now ≡ self.now.order }
        ensures order { (i : Input) → IsGraph i self.now → IsNodeOrder (entries i) result.now }
    {
        &self.order
    }

    /// The number of a node's loop, equal exactly for nodes whose modules import each other, directly or not.
    pub fn loop_of(&self, n: NodeId) -> u32
        requires node { n.0 < length self.now.order }
        requires few { length self.now.order < 2 ^ 32 }
        ensures { (i : Input) (q : NodeOf) → IsGraph i self.now → slice_get self.now.order n.0 ≡ Some q → result ≡ loop_number (entries i) q }
    {
        self.rows.loops[self.rows.order[n.0 as usize]] as u32
    }

    /// What a node sees of a module: a node of the tree, a package's module, or Prim; None exactly where there is no
    /// such module, or no node of it that this one may see.
    pub fn view(&self, from: NodeId, name: &ModName) -> Option<ViewOf>
        requires node { from.0 < length self.now.order }
        requires few { length self.now.order < 2 ^ 32 }
        ensures { (i : Input) (q : NodeOf) → IsGraph i self.now → slice_get self.now.order from.0 ≡ Some q → IsView self.now.order result (view_of i q name.now.text) }
    {
        let name = &name.text;
        if module_number(&self.numbers, name).is_none() {
            return self.outside_view(name);
        }
        match self.seen_number(self.rows.order[from.0 as usize], name) {
            Some(number) => Some(self.node_view(number)),
            None => None,
        }
    }

    /// The node with a number, by its place in the order.
    fn node_view(&self, number: usize) -> ViewOf
        requires few { length self.now.order < 2 ^ 32 }
        requires number { number < length self.now.order }
        ensures { result ≡ view.Tree (record { 0 = get_or self.now.places.items number 0 }) }
    {
        ViewOf::Tree(NodeId(self.places[number] as u32))
    }

    /// Whether the node with the number `own` sees the real node with the number `real`: that is of another loop, or it
    /// reaches it.
    fn sees(&self, own: usize, real: usize) -> bool
        requires own { own < length self.now.order }
        requires real { real < length self.now.order }
        ensures { result ≡ is_seen self.now.rows own real }
    {
        self.rows.loops[own] != self.rows.loops[real] || self.rows.reach[own].contains(real)
    }

    /// The number of the node that the one with the number `own` sees of a module in the tree: the real node, else the
    /// boot node; None where it sees neither.
    fn seen_number(&self, own: usize, name: &Text) -> Option<usize>
        requires { own < length self.now.order }
        ensures is { result ≡ number_seen (is_seen self.now.rows own) (number_in self.now.numbers false name.now) (number_in self.now.numbers true name.now) }
        ensures range { IfSome result (λ k. k < length self.now.order) }
    {
        let boot = node_number(&self.numbers, true, name);
        match node_number(&self.numbers, false, name) {
            Some(real) => {
                if self.sees(own, real) {
                    Some(real)
                } else {
                    boot
                }
            }
            None => boot,
        }
    }

    /// What is seen of a module that isn't in the tree.
    fn outside_view(&self, name: &Text) -> Option<ViewOf>
        ensures { result ≡ outside_seen (same_text name.now (codes "Prim")) (first_in self.now.tables name.now) }
    {
        match first_package(&self.tables, name) {
            Some(at) => Some(ViewOf::Package(at as u32)),
            None => {
                if name.as_slice() == b"Prim".as_slice() {
                    Some(ViewOf::Prim)
                } else {
                    None
                }
            }
        }
    }

    /// What a node needs besides itself, by place in the order, rising.
    pub fn needs(&self, n: NodeId) -> &List<NodeId>
        requires { n.0 < length self.now.order }
        ensures { (i : Input) (q : NodeOf) → IsGraph i self.now → slice_get self.now.order n.0 ≡ Some q → ids result.now ≡ needs_in (entries i) self.now.order n.0 q }
    {
        &self.needs.as_slice()[n.0 as usize]
    }

    /// The diagnostics of the graph stage of a node, in order, each once.
    pub fn errors(&self, n: NodeId) -> &List<Diag>
        requires { n.0 < length self.now.order }
        ensures { (i : Input) (q : NodeOf) → IsGraph i self.now → slice_get self.now.order n.0 ≡ Some q → result.now ≡ errors_by i q }
    {
        &self.errors.as_slice()[n.0 as usize]
    }

    /// The places of the package modules in a node's environment: those that it or one of its needs reaches, rising.
    pub fn reached(&self, n: NodeId) -> &List<u32>
        requires { n.0 < length self.now.order }
        ensures { (i : Input) (q : NodeOf) → IsGraph i self.now → slice_get self.now.order n.0 ≡ Some q → result.now ≡ reached_by i q }
    {
        &self.reached.as_slice()[n.0 as usize]
    }

    /// The package module at a place; None exactly where there is no such place.
    pub fn package(&self, at: u32) -> Option<&PackageModule>
        ensures { (i : Input) → IsGraph i self.now → option_copied result ≡ slice_get i.packages at }
    {
        self.packages.get(at as usize)
    }
}
