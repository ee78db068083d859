//! Interfaces against worked bytes.
ghost use Rattle.std.specs.Prelude.{◌≡◌, ◌≤◌, IfOk, length};
ghost use Rattle.std.specs.List.{All};
ghost use Rattle.mk_base.specs.declared.name.Space.TheVariants.{Ty as OfType};
ghost use Rattle.plain_scope.specs.Scope.{entity};
ghost use Rattle.plain_face.specs.Sizes.{NameFits};

use mk_base::list::List;
use mk_base::memory::NoMemory;
use mk_base::name::{ModName, Name, Occ, Space, Unit};
use mk_base::text::Text;
use plain_face::interface::interface_bytes;
use plain_scope::scope::{Content, DataDecl};
use std::alloc::Global;
use std::test::Fail;

/// The full name of a type.
fn type_named(alloc: Global, unit: &[u8], module: &[u8], text: &[u8]) -> Result<Name, NoMemory>
    ensures { IfOk result (λ n. n ≡ entity unit.now module.now OfType text.now) }
{
    Ok(Name {
        unit: Unit {
            text: Text::from_slice(alloc, unit)?,
        },
        module: ModName {
            text: Text::from_slice(alloc, module)?,
        },
        occ: Occ {
            space: Space::Ty,
            text: Text::from_slice(alloc, text)?,
        },
    })
}

/// The interface of a module of unit `main` with one data type.
fn interface_of(
    alloc: Global,
    module_name: &[u8],
    ty: &[u8],
    con: &[u8],
    fields: List<Name>,
) -> Result<List<u8>, NoMemory>
    requires short { (length module_name.now ≤ 8) × (length ty.now ≤ 8) × (length con.now ≤ 8) × (length fields ≤ 8) }
    requires fields { All NameFits fields }
{
    let decl = DataDecl {
        ty: Text::from_slice(alloc, ty)?,
        con: Text::from_slice(alloc, con)?,
        fields,
    };
    let module = Text::from_slice(alloc, module_name)?;
    let mut datas = List::new(alloc);
    datas.push(decl)?;
    interface_bytes(alloc, b"main", &Content { module, datas })
}

#[test]
fn module_with_a_type_alone(rt: HostRuntime) -> Result<(), Fail> {
    let alloc = rt.alloc();
    let bytes = interface_of(alloc, b"A", b"T", b"C", List::new(alloc))?;
    let expected = b"HSFI\x00\x04main\x01A\x00\
        \x02\x04main\x01A\x01\x01C\x04main\x01A\x02\x01T\
        \x01\x01\x08\
        \x00\x01\x00\x01\x01C\x00\x00\
        \x02\x00\x02\x01\x00";
    assert_eq!(rt; bytes.as_slice(), expected.as_slice());
    Ok(())
}

#[test]
fn field_of_another_module(rt: HostRuntime) -> Result<(), Fail> {
    let alloc = rt.alloc();
    let mut fields = List::new(alloc);
    fields.push(type_named(alloc, b"main", b"A", b"T")?)?;
    let bytes = interface_of(alloc, b"B", b"U", b"D", fields)?;
    let expected = b"HSFI\x00\x04main\x01B\x00\
        \x03\x04main\x01A\x02\x01T\x04main\x01B\x01\x01D\x04main\x01B\x02\x01U\
        \x01\x02\x0d\
        \x00\x01\x00\x01\x01D\x00\x01\x00\x00\x00\x01\x00\
        \x02\x01\x03\x02\x00";
    assert_eq!(rt; bytes.as_slice(), expected.as_slice());
    Ok(())
}
