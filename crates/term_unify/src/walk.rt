//! The variables of a value, by first place.
ghost use Rattle.std.specs.Prelude.{◌≡◌, ◌<◌, ◌++◌, ◌∷◌, [], ℕ, ◌≤◌, slice_set, IfOk, OnOk, length};
ghost use Rattle.unifiers.specs.Reading.{places};
ghost use Rattle.term_classes.specs.Fits.{Sound};
ghost use Rattle.term_classes.specs.Settle.{AreOrdered, mark_of};
ghost use Rattle.term_unify.specs.Arena.{solved_at, AreNatural, AreNumbered};
ghost use Rattle.term_unify.specs.Walk.{Gathers, Visited};
ghost use Rattle.term_unify.specs.declared.walk.Visit.TheVariants.{Enter, Leave};

use mk_base::memory::NoMemory;
use std::alloc::Global;
use term_classes::find::find;
use term_classes::node::{Node, Slot};

/// What is left of a walk: a term whose variables are to be found, or a class that is left, since all of its variables
/// were found.
#[derive(Clone, Copy, Debug)]
pub enum Visit {
    Enter(usize),
    Leave(usize),
}

/// Marks a class: all of its variables were found.
fn leave(marks: &mut [u64], clock: u64, class: usize)
    requires class { class < length marks.old }
    ensures marks { marks.new ≡ slice_set marks.old class clock }
    ensures bounded { ((i : ℕ) → mark_of marks.old i ≤ clock) → (i : ℕ) → mark_of marks.new i ≤ clock }
    ensures len { length marks.new ≡ length marks.old }
{
    marks[class] = clock;
}

/// Finds the variable of a class that is one.
fn find_variable(
    marks: &mut [u64],
    clock: u64,
    found: &mut Vec<u64>,
    class: usize,
    number: u64,
) -> Result<(), NoMemory>
    requires class { class < length marks.old }
    ensures marks { OnOk result (marks.new ≡ slice_set marks.old class clock) }
    ensures found { OnOk result (found.new.items ≡ found.old.items ++ number ∷ []) }
    ensures bounded { ((i : ℕ) → mark_of marks.old i ≤ clock) → (i : ℕ) → mark_of marks.new i ≤ clock }
    ensures len { length marks.new ≡ length marks.old }
{
    found.push(number)?;
    leave(marks, clock, class);
    Ok(())
}

/// Leaves the parts of a class to be entered, and then the class to be left.
fn enter_parts(todo: &mut Vec<Visit>, class: usize, f: usize, a: usize) -> Result<(), NoMemory>
    ensures todo { OnOk result (todo.new.items ≡ todo.old.items ++ Leave class ∷ Enter a ∷ Enter f ∷ []) }
{
    todo.push(Visit::Leave(class))?;
    todo.push(Visit::Enter(a))?;
    todo.push(Visit::Enter(f))?;
    Ok(())
}

/// Goes on with a term.
fn enter(
    nodes: &[Node],
    slots: &[Slot],
    variables: &[usize],
    marks: &mut [u64],
    clock: u64,
    todo: &mut Vec<Visit>,
    found: &mut Vec<u64>,
    at: usize,
) -> Result<(), NoMemory>
    requires sound { Sound nodes.now slots.now }
    requires order { AreOrdered nodes.now slots.now }
    requires natural { AreNatural nodes.now slots.now }
    requires numbered { AreNumbered nodes.now variables.now }
    requires gathers { Gathers nodes.now slots.now variables.now marks.old clock found.old.items (todo.old.items ++ Enter at ∷ []) }
    ensures visited { OnOk result (Visited nodes.now slots.now variables.now marks.new clock found.old.items found.new.items (todo.old.items ++ Enter at ∷ []) todo.new.items) }
    ensures bounded { ((i : ℕ) → mark_of marks.old i ≤ clock) → (i : ℕ) → mark_of marks.new i ≤ clock }
    ensures len { length marks.new ≡ length marks.old }
{
    let _ = variables;
    let class = find(slots, at);
    if marks[class] == clock {
        return Ok(());
    }
    match &nodes[slots[class].shape] {
        Node::Free(number) => find_variable(marks, clock, found, class, *number)?,
        Node::Rigid(number) => find_variable(marks, clock, found, class, *number)?,
        Node::Con(_) => {}
        Node::App(f, a) => enter_parts(todo, class, *f, *a)?,
    }
    Ok(())
}

/// Goes on with what was left last.
fn turn(
    nodes: &[Node],
    slots: &[Slot],
    variables: &[usize],
    marks: &mut [u64],
    clock: u64,
    todo: &mut Vec<Visit>,
    found: &mut Vec<u64>,
    visit: Visit,
) -> Result<(), NoMemory>
    requires sound { Sound nodes.now slots.now }
    requires order { AreOrdered nodes.now slots.now }
    requires natural { AreNatural nodes.now slots.now }
    requires numbered { AreNumbered nodes.now variables.now }
    requires gathers { Gathers nodes.now slots.now variables.now marks.old clock found.old.items (todo.old.items ++ visit ∷ []) }
    ensures visited { OnOk result (Visited nodes.now slots.now variables.now marks.new clock found.old.items found.new.items (todo.old.items ++ visit ∷ []) todo.new.items) }
    ensures bounded { ((i : ℕ) → mark_of marks.old i ≤ clock) → (i : ℕ) → mark_of marks.new i ≤ clock }
    ensures len { length marks.new ≡ length marks.old }
{
    match visit {
        Visit::Enter(at) => enter(nodes, slots, variables, marks, clock, todo, found, at),
        Visit::Leave(class) => {
            leave(marks, clock, class);
            Ok(())
        }
    }
}

/// The numbers of the variables of a term under the kept solution, by first place; each class is walked once. All marks
/// are below the clock, and then up to it.
pub fn variables_of(
    alloc: Global,
    nodes: &[Node],
    slots: &[Slot],
    variables: &[usize],
    marks: &mut [u64],
    clock: u64,
    at: usize,
) -> Result<Vec<u64>, NoMemory>
    requires sound { Sound nodes.now slots.now }
    requires order { AreOrdered nodes.now slots.now }
    requires natural { AreNatural nodes.now slots.now }
    requires numbered { AreNumbered nodes.now variables.now }
    requires len { length marks.old ≡ length slots.now }
    requires fresh { (i : ℕ) → mark_of marks.old i < clock }
    requires at { at < length slots.now }
    ensures found { IfOk result (λ v. v.items ≡ places [] (solved_at nodes.now slots.now at)) }
    ensures bounded { (i : ℕ) → mark_of marks.new i ≤ clock }
    ensures len { length marks.new ≡ length slots.now }
{
    let mut found = Vec::new(alloc);
    let mut todo = Vec::new(alloc);
    todo.push(Visit::Enter(at))?;
    while let Some(visit) = todo.pop() {
        turn(
            nodes, slots, variables, marks, clock, &mut todo, &mut found, visit,
        )?;
    }
    Ok(found)
}
