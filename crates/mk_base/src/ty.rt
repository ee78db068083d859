//! Types.
ghost use Rattle.std.specs.Prelude.{◌≡◌, ◌↔◌, ◌++◌, ◌≤◌, ◌<◌, ℕ, List as Row, IsTrue, IfOk, OnOk, OnErr, IfSome, IfNone};
ghost use Rattle.mk_base.specs.Types.{ty_text, levels_of};

use crate::list::List;
use crate::memory::NoMemory;
use crate::name::{Name, same_name};
use sqlite_items::Boxed;
use std::alloc::Global;

/// A type without synonyms: a variable by its number, a constructor, or an application.
#[derive(Debug, Drop)]
pub enum Ty {
    Var(u64),
    Con(Name),
    App(Boxed<Ty>, Boxed<Ty>),
}

/// Whether two types are the same type, variable by variable.
pub fn same_ty(a: &Ty, b: &Ty) -> bool
    ensures { IsTrue result ↔ (a.now ≡ b.now) }
{
    match (a, b) {
        (Ty::Var(x), Ty::Var(y)) => *x == *y,
        (Ty::Con(x), Ty::Con(y)) => same_name(x, y),
        (Ty::App(f, x), Ty::App(g, y)) => same_ty(f.get(), g.get()) && same_ty(x.get(), y.get()),
        _ => false,
    }
}

/// A second type, equal to this one.
pub fn copy_ty(alloc: Global, ty: &Ty) -> Result<Ty, NoMemory>
    ensures { IfOk result (λ c. c ≡ ty.now) }
{
    match ty {
        Ty::Var(n) => Ok(Ty::Var(*n)),
        Ty::Con(name) => Ok(Ty::Con(name.copy(alloc)?)),
        Ty::App(f, x) => {
            let f = Boxed::new(alloc, copy_ty(alloc, f.get())?)?;
            let x = Boxed::new(alloc, copy_ty(alloc, x.get())?)?;
            Ok(Ty::App(f, x))
        }
    }
}

/// Puts the text of a type behind `out`: a variable as `t` and its number, a constructor as `MODULE.OCC`,
/// and every application in parentheses. At want of memory `out` is as before.
pub fn print_ty(out: &mut List<u8>, ty: &Ty) -> Result<(), NoMemory>
    ensures ok { OnOk result (out.new ≡ out.old ++ ty_text ty.now) }
    ensures err { OnErr result (out.new ≡ out.old) }
{
    let before = out.len();
    let result = put_ty(out, ty);
    if result.is_err() {
        out.truncate(before);
    }
    result
}

/// Puts the text of a type behind `out`, or at want of memory a beginning of it.
fn put_ty(out: &mut List<u8>, ty: &Ty) -> Result<(), NoMemory>
    ensures ok { OnOk result (out.new ≡ out.old ++ ty_text ty.now) }
    ensures err { OnErr result ((more : Row ℕ) × (out.new ≡ out.old ++ more)) }
{
    match ty {
        Ty::Var(n) => {
            out.push(b't')?;
            out.push_number(*n)?;
        }
        Ty::Con(name) => {
            out.extend(name.module.text.as_slice())?;
            out.push(b'.')?;
            out.extend(name.occ.text.as_slice())?;
        }
        Ty::App(f, x) => {
            out.push(b'(')?;
            put_ty(out, f.get())?;
            out.push(b' ')?;
            put_ty(out, x.get())?;
            out.push(b')')?;
        }
    }
    Ok(())
}

/// The number of levels of a type, the nodes of its longest path from the root, where that is at most `most`.
/// It recurses no deeper than `most`.
pub fn levels_within(ty: &Ty, most: u32) -> Option<u32>
    ensures found { IfSome result (λ n. (n ≡ levels_of ty.now) × (n ≤ most)) }
    ensures none { IfNone result (most < levels_of ty.now) }
{
    if most == 0 {
        return None;
    }
    match ty {
        Ty::Var(_) | Ty::Con(_) => Some(1),
        Ty::App(f, x) => {
            let left = levels_within(f.get(), most - 1)?;
            let right = levels_within(x.get(), most - 1)?;
            Some(left.max(right) + 1)
        }
    }
}
