//! The table of the names that an interface speaks of.
ghost use Rattle.std.specs.Prelude.{◌≡◌, ◌∷◌, ◌++◌, ◌≤◌, IfOk, OnOk, length};
ghost use Rattle.mk_base.specs.declared.name.Space.TheVariants.{Con as IsCon, Ty as IsTy};
ghost use Rattle.plain_scope.specs.Scope as scope;
ghost use Rattle.plain_scope.specs.Offered.{names_in};
ghost use Rattle.plain_face.specs.Interface.{IsTable};

use mk_base::memory::NoMemory;
use mk_base::name::{ModName, Name, Occ, Space, Unit};
use mk_base::text::Text;
use plain_scope::scope::{Content, DataDecl};
use std::alloc::Global;

/// The full name of what a module of the unit declares.
pub fn full_name(
    alloc: Global,
    unit: &[u8],
    module_name: &Text,
    space: Space,
    text: &Text,
) -> Result<Name, NoMemory>
    ensures { IfOk result (λ n. n ≡ scope.entity unit.now module_name.now space text.now) }
{
    let unit = Text::from_slice(alloc, unit)?;
    let module = module_name.copy(alloc)?;
    let text = text.copy(alloc)?;
    Ok(Name {
        unit: Unit { text: unit },
        module: ModName { text: module },
        occ: Occ { space, text },
    })
}

/// Puts the names of a declaration's fields behind the others.
fn push_fields(alloc: Global, names: &mut Vec<Name>, fields: &[Name]) -> Result<(), NoMemory>
    ensures { OnOk result (names.new.items ≡ names.old.items ++ fields.now) }
{
    for field in fields {
        names.push(field.copy(alloc)?)?;
    }
    Ok(())
}

/// Puts the names that a declaration speaks of behind the others.
fn push_names(
    alloc: Global,
    names: &mut Vec<Name>,
    unit: &[u8],
    module_name: &Text,
    decl: &DataDecl,
) -> Result<(), NoMemory>
    ensures { OnOk result (names.new.items ≡ names.old.items ++ (scope.entity unit.now module_name.now IsTy decl.now.ty ∷ scope.entity unit.now module_name.now IsCon decl.now.con ∷ decl.now.fields)) }
{
    names.push(full_name(alloc, unit, module_name, Space::Ty, &decl.ty)?)?;
    names.push(full_name(alloc, unit, module_name, Space::Con, &decl.con)?)?;
    push_fields(alloc, names, decl.fields.as_slice())
}

/// The names that a module's interface speaks of, in the order of its declarations.
fn spoken_names(alloc: Global, unit: &[u8], content: &Content) -> Result<Vec<Name>, NoMemory>
    ensures { IfOk result (λ v. v.items ≡ names_in unit.now content.now) }
{
    let mut names = Vec::new(alloc);
    for decl in content.datas.as_slice() {
        push_names(alloc, &mut names, unit, &content.module, decl)?;
    }
    Ok(names)
}

/// The name table of a module's interface.
pub fn name_table(alloc: Global, unit: &[u8], content: &Content) -> Result<Vec<Name>, NoMemory>
    ensures table { IfOk result (λ v. IsTable unit.now content.now v.items) }
    ensures bound { IfOk result (λ v. length v.items ≤ length (names_in unit.now content.now)) }
{
    let mut names = spoken_names(alloc, unit, content)?;
    names.sort_unstable();
    names.dedup();
    Ok(names)
}
