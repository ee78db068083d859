//! The declarations of an interface in their order.
ghost use Rattle.std.specs.Prelude.{◌≡◌, IfOk};
ghost use Rattle.std.specs.List.Sorted.{IsPermutation};
ghost use Rattle.std.specs.declared.cmp.Ordering.TheVariants.{Less};
ghost use Rattle.mk_base.specs.Order.{text_cmp};
ghost use Rattle.plain_scope.specs.declared.scope.DataDecl.{DataDecl as Decl};
ghost use Rattle.plain_scope.specs.Offered.{AreBefore, IsSound};

use mk_base::memory::NoMemory;
use mk_base::plain::Plain;
use plain_scope::scope::{Content, DataDecl};
use std::alloc::Global;
use std::cmp::Ordering;

/// A second declaration, equal to this one.
fn copy_decl(alloc: Global, decl: &DataDecl) -> Result<DataDecl, NoMemory>
    ensures { IfOk result (λ d. d ≡ decl.now) }
{
    let ty = decl.ty.copy(alloc)?;
    let con = decl.con.copy(alloc)?;
    let fields = Plain::copy(&decl.fields, alloc)?;
    Ok(DataDecl { ty, con, fields })
}

/// The declarations once more, in their order.
fn copy_decls(alloc: Global, datas: &[DataDecl]) -> Result<Vec<DataDecl>, NoMemory>
    ensures { IfOk result (λ v. v.items ≡ datas.now) }
{
    let mut copies = Vec::new(alloc);
    for decl in datas {
        copies.push(copy_decl(alloc, decl)?)?;
    }
    Ok(copies)
}

/// The declarations of a sound module, ordered by their types' names.
pub fn sorted_decls(alloc: Global, content: &Content) -> Result<Vec<DataDecl>, NoMemory>
    requires { AreBefore (λ (a b : Decl). a.ty ≡ b.ty → ⊥) content.now.datas }
    ensures same { IfOk result (λ v. IsPermutation content.now.datas v.items) }
    ensures sorted { IfOk result (λ v. AreBefore (λ (a b : Decl). text_cmp a.ty b.ty ≡ Less) v.items) }
{
    let mut decls = copy_decls(alloc, content.datas.as_slice())?;
    decls.sort_unstable_by(
        |a: &DataDecl, b: &DataDecl| -> Ordering
            ensures { result ≡ text_cmp a.now.ty b.now.ty }
        { a.ty.cmp(&b.ty) },
    );
    Ok(decls)
}
