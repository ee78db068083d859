//! Terms read back as types.
ghost use Rattle.std.specs.Prelude.{◌<◌, ◌≡◌, IfOk, length};
ghost use Rattle.term_classes.specs.Fits.{Sound};
ghost use Rattle.term_classes.specs.Settle.{AreOrdered};
ghost use Rattle.term_unify.specs.Arena.{solved_at};
ghost use Rattle.term_unify.specs.Read.{IsRead, term_of};
ghost use Rattle.unifiers.specs.Term.Term.{var, con, app};

use mk_base::memory::NoMemory;
use mk_base::name::Name;
use mk_base::ty::Ty;
use sqlite_items::Boxed;
use std::alloc::Global;
use term_classes::find::find;
use term_classes::node::{Node, Slot};

/// A type that is a variable.
fn variable(number: u64) -> Ty
    ensures { term_of result ≡ var number }
{
    Ty::Var(number)
}

/// A type that is a constructor.
fn constructor(name: Name) -> Ty
    ensures { term_of result ≡ con name }
{
    Ty::Con(name)
}

/// A type that is an application.
fn applied(alloc: Global, f: Ty, a: Ty) -> Result<Ty, NoMemory>
    ensures { IfOk result (λ t. term_of t ≡ app (term_of f) (term_of a)) }
{
    let f = Boxed::new(alloc, f)?;
    let a = Boxed::new(alloc, a)?;
    Ok(Ty::App(f, a))
}

/// The type of a term under the kept solution. None where it has more levels or more nodes than are left; it recurses
/// no deeper than the levels.
pub fn read(
    alloc: Global,
    nodes: &[Node],
    slots: &[Slot],
    at: usize,
    levels: u32,
    left: &mut u32,
) -> Result<Option<Ty>, NoMemory>
    requires sound { Sound nodes.now slots.now }
    requires order { AreOrdered nodes.now slots.now }
    requires at { at < length slots.now }
    ensures { IfOk result (λ o. IsRead (solved_at nodes.now slots.now at) levels left.old left.new o) }
{
    if levels == 0 || *left == 0 {
        return Ok(None);
    }
    *left -= 1;
    let shape = slots[find(slots, at)].shape;
    match &nodes[shape] {
        Node::Free(number) => Ok(Some(variable(*number))),
        Node::Rigid(number) => Ok(Some(variable(*number))),
        Node::Con(name) => Ok(Some(constructor(name.copy(alloc)?))),
        Node::App(f, a) => {
            let Some(first) = read(alloc, nodes, slots, *f, levels - 1, left)? else {
                return Ok(None);
            };
            let Some(second) = read(alloc, nodes, slots, *a, levels - 1, left)? else {
                return Ok(None);
            };
            Ok(Some(applied(alloc, first, second)?))
        }
    }
}
