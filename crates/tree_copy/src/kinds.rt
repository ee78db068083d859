//! Copies of kinds, and the parameters of abstract types.
ghost use Rattle.std.specs.Prelude.{◌≡◌, IfOk};

use hs_syntax::item::{AkindTree, KindTree, ParamTree};
use mk_base::list::List;
use mk_base::memory::NoMemory;
use mk_base::plain::Plain;
use sqlite_items::Boxed;
use std::alloc::Global;

/// A kind once more.
#[cycle(kinds)]
pub fn copy_kind(alloc: Global, a: &KindTree) -> Result<KindTree, NoMemory>
    ensures { IfOk result (λ c. c ≡ a.now) }
{
    Ok(KindTree {
        at: a.at,
        from: copy_akind(alloc, &a.from)?,
        to: copy_optional_kind(alloc, &a.to)?,
    })
}

/// A kind once more, in a box.
#[cycle(kinds)]
fn boxed_kind(alloc: Global, a: &KindTree) -> Result<Boxed<KindTree>, NoMemory>
    ensures { IfOk result (λ c. c ≡ a.now) }
{
    let copy = copy_kind(alloc, a)?;
    Ok(Boxed::new(alloc, copy)?)
}

/// A kind once more, where it is there.
#[cycle(kinds)]
fn copy_optional_kind(
    alloc: Global,
    a: &Option<Boxed<KindTree>>,
) -> Result<Option<Boxed<KindTree>>, NoMemory>
    ensures { IfOk result (λ c. c ≡ a.now) }
{
    match a {
        None => Ok(None),
        Some(x) => Ok(Some(boxed_kind(alloc, x.get())?)),
    }
}

/// An atomic kind once more.
#[cycle(kinds)]
fn copy_akind(alloc: Global, a: &AkindTree) -> Result<AkindTree, NoMemory>
    ensures { IfOk result (λ c. c ≡ a.now) }
{
    match a {
        AkindTree::Star { at } => Ok(AkindTree::Star { at: *at }),
        AkindTree::Paren { at, kind } => Ok(AkindTree::Paren {
            at: *at,
            kind: boxed_kind(alloc, kind.get())?,
        }),
    }
}

/// A parameter of an abstract type once more.
fn copy_param(alloc: Global, a: &ParamTree) -> Result<ParamTree, NoMemory>
    ensures { IfOk result (λ c. c ≡ a.now) }
{
    match a {
        ParamTree::Plain { at, name } => Ok(ParamTree::Plain {
            at: *at,
            name: name.copy(alloc)?,
        }),
        ParamTree::Kinded { at, name, kind } => Ok(ParamTree::Kinded {
            at: *at,
            name: name.copy(alloc)?,
            kind: copy_kind(alloc, kind)?,
        }),
    }
}

/// A list of parameters of an abstract type once more.
pub fn copy_params(alloc: Global, a: &[ParamTree]) -> Result<List<ParamTree>, NoMemory>
    ensures { IfOk result (λ c. c ≡ a.now) }
{
    let mut out = Vec::new(alloc);
    for part in a {
        out.push(copy_param(alloc, part)?)?;
    }
    Ok(List::from_vec(out))
}
