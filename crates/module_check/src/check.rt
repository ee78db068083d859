//! The check of one module.
ghost use Rattle.std.specs.Prelude.{◌≡◌, ◌+◌, ◌∷◌, ◌<◌, ◌≤◌, [], IfOk, length};
ghost use Rattle.std.specs.List.{AllByRecursion};
ghost use Rattle.plain_scope.specs.Scope.{contents_at};
ghost use Rattle.module_check.specs.Check as spec;
ghost use Rattle.module_check.specs.Laws.{ChecksAreOrdered, SoundFits};

use crate::items::items_of;
use mk_base::diag::Diag;
use mk_base::list::List;
use mk_base::memory::NoMemory;
use mk_base::name::{Node, Unit};
use mk_base::steps::{Ledger, Steps};
use plain_form::form::Written;
use plain_scope::scope::{Checked, Content, check as check_scope};
use std::alloc::Global;

/// What is set for every module's check: the name of its unit, and whether the monomorphism restriction holds where
/// the module's pragmas say nothing.
#[derive(Debug, Drop)]
pub struct CheckSettings {
    pub unit: Unit,
    pub restrict: bool,
}

/// What the last stage makes of a module: what it offers, or its diagnostics.
fn outcome_of(checked: Checked) -> Result<Content, List<Diag>>
    ensures { result ≡ spec.outcome_of checked }
{
    match checked {
        Checked::Sound(content) => Ok(content),
        Checked::Wrong(diags) => Err(diags),
    }
}

/// A list of this diagnostic alone.
fn only(alloc: Global, diag: Diag) -> Result<List<Diag>, NoMemory>
    ensures { IfOk result (λ ds. ds ≡ diag ∷ []) }
{
    let mut diags = List::new(alloc);
    diags.push(diag)?;
    Ok(diags)
}

/// The stages behind the items of a module.
fn behind_items(
    alloc: Global,
    settings: &CheckSettings,
    node: &Node,
    items: &Written,
    contents: &[Content],
    imports: &[usize],
) -> Result<Result<Content, List<Diag>>, NoMemory>
    requires within { AllByRecursion (λ i. i < length contents.now) imports.now }
    ensures { IfOk result (λ r. r ≡ spec.behind_items settings.now node.now items.now (contents_at contents.now imports.now)) }
{
    let unit = settings.unit.text.as_slice();
    let name = node.module.text.as_slice();
    let checked = check_scope(alloc, unit, name, items, contents, imports)?;
    Ok(outcome_of(checked))
}

/// Takes a module through its stages: its lexemes, its items, its scope. Answers what it offers, or the diagnostics of
/// the first stage that has any. Its imports offer the contents at these places. Each check counts one step.
pub fn check<L: Ledger>(
    alloc: Global,
    settings: &CheckSettings,
    node: &Node,
    source: &[u8],
    contents: &[Content],
    imports: &[usize],
    steps: &mut Steps<L>,
) -> Result<Result<Content, List<Diag>>, NoMemory>
    requires source { length source.now ≤ 1048576 }
    requires within { AllByRecursion (λ i. i < length contents.now) imports.now }
    ensures check { IfOk result (λ r. r ≡ spec.check settings.now node.now source.now (contents_at contents.now imports.now)) }
    ensures ticked { steps.new ≡ steps.old + 1 }
{
    steps.tick();
    match items_of(alloc, node, source)? {
        Ok(items) => behind_items(alloc, settings, node, &items, contents, imports),
        Err(diag) => Ok(Err(only(alloc, diag)?)),
    }
}

/// The diagnostics of a check stand in the order of their places, numbers and texts, no two alike.
pub fn diagnostics_are_ordered()
    ensures { ChecksAreOrdered }
{}

/// What a sound module offers is sound, and fits its spelling as an interface.
pub fn sound_modules_fit()
    ensures { SoundFits }
{}
