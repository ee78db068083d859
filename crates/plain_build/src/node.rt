//! The build of one node, behind those before it.
ghost use Rattle.std.specs.Prelude.{◌≡◌, ◌+◌, ◌≤◌, slice_get, Some, None, OnOk};
ghost use Rattle.build_plan.specs.Plan.{IsPlan};
ghost use Rattle.build_plan.specs.Tree.{ordered};
ghost use Rattle.plain_build.specs.Plain as spec;
ghost use Rattle.plain_build.specs.Result.{is_checked};
ghost use Rattle.plain_build.specs.Soundness as soundness_spec;
ghost use Rattle.plain_build.specs.Done.{IsDone, IsUnblocked, judged_next, sorted_tree};

use crate::build::PlainBuild;
use crate::done::{Done, how_checked, put_sound, put_unsound};
use build_plan::plan::{Plan, PlannedNode, imports_at};
use face_model::result::How;
use mk_base::list::List;
use mk_base::memory::NoMemory;
use mk_base::place::NodeId;
use mk_base::steps::{Ledger, Steps};
use module_check::check::{CheckSettings, check};
use std::alloc::Global;
use unbuilt_forms::told::told;

/// What the build of each node goes by: the tree, what of it a check goes by, and the plan.
#[derive(Drop)]
pub struct Building<'a> {
    pub input: &'a PlainBuild,
    pub settings: CheckSettings,
    pub plan: &'a Plan<'a>,
}

/// Whether the node at this place is done and sound.
fn is_sound_at(sound: &[bool], place: usize) -> bool
    ensures { result ≡ soundness_spec.is_sound_at sound.now place }
{
    match sound.get(place) {
        Some(kept) => *kept,
        None => false,
    }
}

/// The first of some needs that isn't sound, or isn't done yet.
fn first_unsound(needs: &[NodeId], sound: &[bool]) -> Option<NodeId>
    ensures { result ≡ soundness_spec.first_unsound sound.now needs.now }
{
    for need in needs {
        if !is_sound_at(sound, need.0 as usize) {
            return Some(*need);
        }
    }
    None
}

/// Checks a node without graph errors whose needs are sound, and keeps its result. The check counts one step.
fn build_checked<L: Ledger>(
    alloc: Global,
    building: &Building<'_>,
    place: u32,
    source: &PlannedNode<'_>,
    done: &mut Done,
    steps: &mut Steps<L>,
) -> Result<(), NoMemory>
    requires plan { IsPlan (sorted_tree building.now.input.now) building.now.plan.now }
    requires settings { building.now.settings ≡ spec.check_settings (sorted_tree building.now.input.now).settings }
    requires source { slice_get (ordered (sorted_tree building.now.input.now)) place ≡ Some (source.now.node, source.now.bytes.now) }
    requires done { IsDone (sorted_tree building.now.input.now) done.old place }
    requires free { IsUnblocked (sorted_tree building.now.input.now) source.now.node place }
    ensures done { OnOk result (IsDone (sorted_tree building.now.input.now) done.new (place + 1)) }
    ensures checked { OnOk result (is_checked (judged_next (sorted_tree building.now.input.now) (source.now.node, source.now.bytes.now) place).how ≡ 1) }
    ensures ticked { OnOk result (steps.new ≡ steps.old + 1) }
    ensures later { steps.old ≤ steps.new }
{
    let node = &source.node;
    let places = imports_at(alloc, building.plan, place)?;
    let unit = building.input.unit.text.as_slice();
    let contents = done.contents.as_slice();
    match check(
        alloc,
        &building.settings,
        node,
        source.bytes,
        contents,
        places.as_slice(),
        steps,
    )? {
        Ok(content) => put_sound(alloc, done, unit, node, content),
        Err(diags) => put_unsound(alloc, done, node, how_checked(alloc), diags),
    }
}

/// Builds the node at a place. A check counts one step.
pub fn build_node<L: Ledger>(
    alloc: Global,
    building: &Building<'_>,
    place: u32,
    source: &PlannedNode<'_>,
    done: &mut Done,
    steps: &mut Steps<L>,
) -> Result<(), NoMemory>
    requires plan { IsPlan (sorted_tree building.now.input.now) building.now.plan.now }
    requires settings { building.now.settings ≡ spec.check_settings (sorted_tree building.now.input.now).settings }
    requires source { slice_get (ordered (sorted_tree building.now.input.now)) place ≡ Some (source.now.node, source.now.bytes.now) }
    requires done { IsDone (sorted_tree building.now.input.now) done.old place }
    ensures done { OnOk result (IsDone (sorted_tree building.now.input.now) done.new (place + 1)) }
    ensures checks { OnOk result (steps.new ≡ steps.old + is_checked (judged_next (sorted_tree building.now.input.now) (source.now.node, source.now.bytes.now) place).how) }
    ensures later { steps.old ≤ steps.new }
{
    let node = &source.node;
    let errors = told(
        alloc,
        node,
        building.plan.graph.errors(NodeId(place)).as_slice(),
    )?;
    if !errors.is_empty() {
        return put_unsound(alloc, done, node, How::Graph, errors);
    }
    let needs = building.plan.graph.needs(NodeId(place));
    if let Some(need) = first_unsound(needs.as_slice(), done.sound.as_slice()) {
        return put_unsound(alloc, done, node, How::Blocked(need), List::new(alloc));
    }
    build_checked(alloc, building, place, source, done, steps)
}
