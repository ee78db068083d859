//! The exports of an interface in their order.
ghost use Rattle.std.specs.Prelude.{◌≡◌, ◌++◌, ◌∷◌, [], IfOk, OnOk};
ghost use Rattle.std.specs.List.Sorted.{IsPermutation};
ghost use Rattle.std.specs.declared.option.Option.{Option as Maybe};
ghost use Rattle.std.specs.declared.cmp.Ordering.TheVariants.{Less};
ghost use Rattle.mk_base.specs.Order.{name_cmp};
ghost use Rattle.mk_base.specs.declared.name.Name.{Name as FullName};
ghost use Rattle.mk_base.specs.declared.name.Space.TheVariants.{Con as IsCon, Ty as IsTy};
ghost use Rattle.plain_scope.specs.Scope as scope;
ghost use Rattle.plain_scope.specs.Offered.{AreBefore, IsSound};
ghost use Rattle.plain_face.specs.Interface.{exports_in};

use crate::table::full_name;
use mk_base::memory::NoMemory;
use mk_base::name::{Name, Space};
use mk_base::text::Text;
use plain_scope::scope::{Content, DataDecl};
use std::alloc::Global;
use std::cmp::Ordering;

/// A name that is exported, and the type of a constructor.
pub type Export = (Name, Option<Name>);

/// Puts the two exports of a declaration behind the others: its type, and its constructor with the type.
fn push_exports(
    alloc: Global,
    exports: &mut Vec<Export>,
    unit: &[u8],
    module_name: &Text,
    decl: &DataDecl,
) -> Result<(), NoMemory>
    ensures { OnOk result (exports.new.items ≡ exports.old.items ++ ((scope.entity unit.now module_name.now IsTy decl.now.ty, None)
        ∷ (scope.entity unit.now module_name.now IsCon decl.now.con, Some (scope.entity unit.now module_name.now IsTy decl.now.ty)) ∷ [])) }
{
    let ty = full_name(alloc, unit, module_name, Space::Ty, &decl.ty)?;
    let con = full_name(alloc, unit, module_name, Space::Con, &decl.con)?;
    let parent = ty.copy(alloc)?;
    exports.push((ty, None))?;
    exports.push((con, Some(parent)))?;
    Ok(())
}

/// The exports of a module, in the order of its declarations.
fn written_exports(alloc: Global, unit: &[u8], content: &Content) -> Result<Vec<Export>, NoMemory>
    ensures { IfOk result (λ v. v.items ≡ exports_in unit.now content.now) }
{
    let mut exports = Vec::new(alloc);
    for decl in content.datas.as_slice() {
        push_exports(alloc, &mut exports, unit, &content.module, decl)?;
    }
    Ok(exports)
}

/// The exports of a sound module, ordered by name.
pub fn sorted_exports(
    alloc: Global,
    unit: &[u8],
    content: &Content,
) -> Result<Vec<Export>, NoMemory>
    requires { IsSound unit.now content.now }
    ensures same { IfOk result (λ v. IsPermutation (exports_in unit.now content.now) v.items) }
    ensures sorted { IfOk result (λ v. AreBefore (λ (a b : FullName × Maybe FullName). name_cmp a.0 b.0 ≡ Less) v.items) }
{
    let mut exports = written_exports(alloc, unit, content)?;
    exports.sort_unstable_by(
        |a: &Export, b: &Export| -> Ordering
            ensures { result ≡ name_cmp a.now.0 b.now.0 }
        { a.0.cmp(&b.0) },
    );
    Ok(exports)
}
