//! The table of the names of types that are in scope.
ghost use Rattle.std.specs.Prelude.{◌≡◌, ◌<◌, ℕ, List as Row, IfOk, OnOk, length};
ghost use Rattle.std.specs.List.{AllByRecursion};
ghost use Rattle.mk_base.specs.declared.name.Space.TheVariants.{Ty as OfType};
ghost use Rattle.plain_scope.specs.Scope.{entity, same_entity as same_entity_of, same_space as same_space_of, heads, content_heads, contents_at, scope};
ghost use Rattle.plain_scope.specs.Table.{IsTable, use_in, with_type, with_types, with_contents};

use crate::scope::{Content, DataDecl};
use indexmap::IndexMap;
use mk_base::memory::NoMemory;
use mk_base::name::{ModName, Name, Occ, Space, Unit};
use mk_base::text::Text;
use plain_form::form::{DataItem, Written};
use std::alloc::Global;

/// What the name of a type refers to: an entity, or none where it is ambiguous.
pub type Types = IndexMap<Text, Option<Name>>;

fn same_space(a: Space, b: Space) -> bool
    ensures { result ≡ same_space_of a b }
{
    match (a, b) {
        (Space::Var, Space::Var) => true,
        (Space::Con, Space::Con) => true,
        (Space::Ty, Space::Ty) => true,
        _ => false,
    }
}

fn same_entity(a: &Name, b: &Name) -> bool
    ensures { result ≡ same_entity_of a.now b.now }
{
    a.unit.text == b.unit.text
        && a.module.text == b.module.text
        && same_space(a.occ.space, b.occ.space)
        && a.occ.text == b.occ.text
}

fn type_name(alloc: Global, unit: &[u8], home: &[u8], ty: &Text) -> Result<Name, NoMemory>
    ensures { IfOk result (λ n. n ≡ entity unit.now home.now OfType ty.now) }
{
    let unit = Unit {
        text: Text::from_slice(alloc, unit)?,
    };
    let module = ModName {
        text: Text::from_slice(alloc, home)?,
    };
    let text = ty.copy(alloc)?;
    Ok(Name {
        unit,
        module,
        occ: Occ {
            space: Space::Ty,
            text,
        },
    })
}

/// Brings a module's type into scope.
fn add_type(
    alloc: Global,
    types: &mut Types,
    unit: &[u8],
    home: &[u8],
    ty: &Text,
) -> Result<(), NoMemory>
    ensures { OnOk result ((text : Row ℕ) → use_in types.new text ≡ with_type unit.now home.now ty.now text (use_in types.old text)) }
{
    let entity = type_name(alloc, unit, home, ty)?;
    let entry = match types.get(ty) {
        None => Some(entity),
        Some(None) => return Ok(()),
        Some(Some(found)) if same_entity(found, &entity) => return Ok(()),
        Some(Some(_)) => None,
    };
    types.insert(ty.copy(alloc)?, entry)?;
    Ok(())
}

fn add_items(
    alloc: Global,
    types: &mut Types,
    unit: &[u8],
    home: &[u8],
    datas: &[DataItem],
) -> Result<(), NoMemory>
    ensures { OnOk result ((text : Row ℕ) → use_in types.new text ≡ with_types unit.now home.now (heads datas.now) text (use_in types.old text)) }
{
    for item in datas {
        add_type(alloc, types, unit, home, &item.ty.text)?;
    }
    Ok(())
}

fn add_decls(
    alloc: Global,
    types: &mut Types,
    unit: &[u8],
    home: &[u8],
    datas: &[DataDecl],
) -> Result<(), NoMemory>
    ensures { OnOk result ((text : Row ℕ) → use_in types.new text ≡ with_types unit.now home.now (content_heads datas.now) text (use_in types.old text)) }
{
    for declared in datas {
        add_type(alloc, types, unit, home, &declared.ty)?;
    }
    Ok(())
}

fn add_imports(
    alloc: Global,
    types: &mut Types,
    unit: &[u8],
    contents: &[Content],
    imports: &[usize],
) -> Result<(), NoMemory>
    requires within { AllByRecursion (λ i. i < length contents.now) imports.now }
    ensures { OnOk result ((text : Row ℕ) → use_in types.new text ≡ with_contents unit.now (contents_at contents.now imports.now) text (use_in types.old text)) }
{
    for place in imports {
        let content = &contents[*place];
        add_decls(
            alloc,
            types,
            unit,
            content.module.as_slice(),
            content.datas.as_slice(),
        )?;
    }
    Ok(())
}

/// The table of a module's names of types: its own, and those of its imports.
pub fn types_in_scope(
    alloc: Global,
    unit: &[u8],
    name: &[u8],
    written: &Written,
    contents: &[Content],
    imports: &[usize],
) -> Result<Types, NoMemory>
    requires within { AllByRecursion (λ i. i < length contents.now) imports.now }
    ensures { IfOk result (λ types. IsTable types (scope unit.now name.now written.now (contents_at contents.now imports.now))) }
{
    let mut types: Types = IndexMap::new(alloc);
    add_items(alloc, &mut types, unit, name, written.datas.as_slice())?;
    add_imports(alloc, &mut types, unit, contents, imports)?;
    Ok(types)
}
