//! Copies of operators and constructors.
ghost use Rattle.std.specs.Prelude.{◌≡◌, IfOk};

use hs_syntax::name_ref::{OpName, QopTree};
use hs_syntax::pattern_tree::GconTree;
use mk_base::list::List;
use mk_base::memory::NoMemory;
use mk_base::plain::Plain;
use std::alloc::Global;

/// An operator once more.
pub fn copy_op(alloc: Global, a: &OpName) -> Result<OpName, NoMemory>
    ensures { IfOk result (λ c. c ≡ a.now) }
{
    Ok(OpName {
        at: a.at,
        name: a.name.copy(alloc)?,
    })
}

/// An operator once more.
pub fn copy_qop(alloc: Global, a: &QopTree) -> Result<QopTree, NoMemory>
    ensures { IfOk result (λ c. c ≡ a.now) }
{
    match a {
        QopTree::Var { at, name } => Ok(QopTree::Var {
            at: *at,
            name: name.copy(alloc)?,
        }),
        QopTree::Con { at, name } => Ok(QopTree::Con {
            at: *at,
            name: name.copy(alloc)?,
        }),
    }
}

/// A list of operators once more.
pub fn copy_qops(alloc: Global, a: &[QopTree]) -> Result<List<QopTree>, NoMemory>
    ensures { IfOk result (λ c. c ≡ a.now) }
{
    let mut out = Vec::new(alloc);
    for part in a {
        out.push(copy_qop(alloc, part)?)?;
    }
    Ok(List::from_vec(out))
}

/// A constructor once more.
pub fn copy_gcon(alloc: Global, a: &GconTree) -> Result<GconTree, NoMemory>
    ensures { IfOk result (λ c. c ≡ a.now) }
{
    match a {
        GconTree::Con { at, name } => Ok(GconTree::Con {
            at: *at,
            name: name.copy(alloc)?,
        }),
        GconTree::Unit { at } => Ok(GconTree::Unit { at: *at }),
        GconTree::List { at } => Ok(GconTree::List { at: *at }),
        GconTree::Tuple { at, commas } => Ok(GconTree::Tuple {
            at: *at,
            commas: *commas,
        }),
    }
}
