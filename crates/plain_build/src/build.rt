//! The build, node by node in order.
ghost use Rattle.std.specs.Prelude.{◌≡◌, ◌+◌, ◌≤◌, ◌<◌, ◌^◌, ℕ, true, List as Row, IfOk, OnOk, length, codes};
ghost use Rattle.mk_base.specs.declared.name.Node.{Node};
ghost use Rattle.build_theory.specs.Laws.{AreDistinct as AreApart, IsExact, IsIn, IsOrdered};
ghost use Rattle.build_theory.specs.Machine.{HasNoCycleBefore, HasPlace};
ghost use Rattle.plain_build.specs.Ordered.{BuildsAreOrdered};
ghost use Rattle.build_plan.specs.Plan.{IsPlan};
ghost use Rattle.plain_build.specs.Plain.{PlainTree, plain};
ghost use Rattle.plain_build.specs.Done.{sorted_tree};
ghost use Rattle.plain_build.specs.Result.{AreDistinct, AreResults, AreShort, IsUnitName, built, checks_in, nodes_in};

use crate::done::Done;
use crate::node::{Building, build_node};
use build_plan::plan::{Plan, plan_of};
use face_model::result::{BuildResult, NodeResult};
use mk_base::list::List;
use mk_base::memory::NoMemory;
use mk_base::name::Unit;
use mk_base::steps::{Ledger, Steps};
use mk_io::file::File;
use module_check::check::CheckSettings;
use std::alloc::Global;

/// A tree to be built: its unit, its flags, its files, and the stored interfaces, which count as none so far.
#[derive(Debug, Drop)]
pub struct PlainBuild {
    pub unit: Unit,
    pub prelude: bool,
    pub restrict: bool,
    pub files: List<File>,
    pub store: List<File>,
}

/// Builds a tree, as over an empty store, and counts the checks.
pub fn build_plain<L: Ledger>(
    alloc: Global,
    input: &PlainBuild,
    steps: &mut Steps<L>,
) -> Result<BuildResult, NoMemory>
    requires unit { IsUnitName input.now.unit.text }
    requires other_unit { input.now.unit.text ≡ codes "prim" → ⊥ }
    requires files { AreDistinct input.now.files }
    requires store { AreDistinct input.now.store }
    requires few { length input.now.files < 2 ^ 32 }
    requires names { AreShort input.now.files }
    ensures build { IfOk result (λ b. AreResults input.now.unit.text (nodes_in (built input.now)) b.nodes (built input.now)) }
    ensures checks { OnOk result (steps.new ≡ steps.old + checks_in (built input.now)) }
    ensures later { steps.old ≤ steps.new }
{
    let plan = plan_of(alloc, input.files.as_slice(), input.prelude)?;
    let nodes = build_nodes(alloc, input, &plan, steps)?;
    Ok(BuildResult { nodes })
}

/// Builds the nodes in their order.
fn build_nodes<L: Ledger>(
    alloc: Global,
    input: &PlainBuild,
    plan: &Plan<'_>,
    steps: &mut Steps<L>,
) -> Result<List<NodeResult>, NoMemory>
    requires plan { IsPlan (sorted_tree input.now) plan.now }
    ensures build { IfOk result (λ rs. AreResults input.now.unit.text (nodes_in (built input.now)) rs (built input.now)) }
    ensures checks { OnOk result (steps.new ≡ steps.old + checks_in (built input.now)) }
    ensures later { steps.old ≤ steps.new }
{
    let settings = CheckSettings {
        unit: Unit {
            text: input.unit.text.copy(alloc)?,
        },
        restrict: input.restrict,
    };
    let building = Building {
        input,
        settings,
        plan,
    };
    let mut done = Done {
        results: List::new(alloc),
        contents: Vec::new(alloc),
        sound: Vec::new(alloc),
    };
    for (place, source) in plan.nodes.as_slice().iter().enumerate() {
        build_node(alloc, &building, place as u32, source, &mut done, steps)?;
    }
    Ok(done.results)
}

/// The language meets what the laws of builds ask: its nodes are ordered and told apart.
pub fn plain_is_lawful()
    ensures ordered { IsOrdered plain }
    ensures exact { IsExact plain }
{}

/// What a need of a node needs, the node needs too.
pub fn needs_lead_on()
    ensures { (t : PlainTree) (a b c : Node) → plain.needs t a b ≡ true → plain.needs t b c ≡ true → plain.needs t a c ≡ true }
{}

/// The order has a node before which there is no cycle of needs behind all that it needs.
pub fn needs_stand_before_nodes()
    ensures { (t : PlainTree) → AreApart plain t.sources → (q : Node × Row ℕ) → IsIn q t.sources → HasNoCycleBefore plain t q.0 → HasPlace plain t q }
{}

/// The diagnostics of each node of a build stand in the order of their places, numbers and texts, no two alike.
pub fn diagnostics_are_ordered()
    ensures { BuildsAreOrdered }
{}
