//! The sections of an interface.
ghost use Rattle.std.specs.Prelude.{◌≡◌, ◌++◌, ◌∷◌, [], ◌≤◌, ◌<◌, ◌^◌, IfOk, OnOk, length};
ghost use Rattle.std.specs.List.{All, flat_map};
ghost use Rattle.wire.specs.Wire as spelling;
ghost use Rattle.plain_face.specs.Interface.{blob, export_bytes, field_bytes, name_bytes, parent_bytes, place, space_byte};
ghost use Rattle.plain_face.specs.Sizes.{DeclFits, entry_bytes, IsOrdered, NameFits};

use crate::exports::Export;
use crate::place::place_of;
use crate::table::full_name;
use mk_base::list::List;
use mk_base::memory::NoMemory;
use mk_base::name::{Name, Space};
use mk_base::text::Text;
use plain_scope::scope::DataDecl;
use std::alloc::Global;
use wire::put::{put_num, put_text};

/// Puts what an interface begins with: the magic bytes, version 0, the unit, the module, and that the source is no boot source.
pub fn put_head(out: &mut List<u8>, unit: &[u8], module_name: &Text) -> Result<(), NoMemory>
    requires unit { length unit.now ≤ 64 }
    requires module { length module_name.now < 2 ^ 32 }
    ensures { OnOk result (out.new ≡ out.old ++ 72 ∷ 83 ∷ 70 ∷ 73 ∷ 0 ∷ (spelling.text unit.now ++ (spelling.text module_name.now ++ 0 ∷ []))) }
{
    out.extend(b"HSFI\x00")?;
    put_text(out, unit)?;
    put_text(out, module_name.as_slice())?;
    out.push(0)
}

/// The byte of a space.
fn byte_of_space(space: Space) -> u8
    ensures { result ≡ space_byte space }
{
    match space {
        Space::Var => 0,
        Space::Con => 1,
        Space::Ty => 2,
    }
}

/// Puts a name of the table.
fn put_name(out: &mut List<u8>, name: &Name) -> Result<(), NoMemory>
    requires { NameFits name.now }
    ensures { OnOk result (out.new ≡ out.old ++ name_bytes name.now) }
{
    put_text(out, name.unit.text.as_slice())?;
    put_text(out, name.module.text.as_slice())?;
    out.push(byte_of_space(name.occ.space))?;
    put_text(out, name.occ.text.as_slice())
}

/// Puts the names of the table.
fn put_names(out: &mut List<u8>, names: &[Name]) -> Result<(), NoMemory>
    requires { All NameFits names.now }
    ensures { OnOk result (out.new ≡ out.old ++ flat_map name_bytes names.now) }
{
    for name in names {
        put_name(out, name)?;
    }
    Ok(())
}

/// Puts the place of a name in the table.
fn put_place(out: &mut List<u8>, names: &[Name], name: &Name) -> Result<(), NoMemory>
    requires { IsOrdered names.now }
    ensures { OnOk result (out.new ≡ out.old ++ spelling.num (place names.now name.now)) }
{
    put_num(out, place_of(names, name) as u64)
}

/// Puts a field of a constructor.
fn put_field(out: &mut List<u8>, names: &[Name], field: &Name) -> Result<(), NoMemory>
    requires { IsOrdered names.now }
    ensures { OnOk result (out.new ≡ out.old ++ field_bytes names.now field.now) }
{
    out.extend(&[0, 0, 0, 1])?;
    put_place(out, names, field)
}

/// Puts the fields of a constructor.
fn put_fields(out: &mut List<u8>, names: &[Name], fields: &[Name]) -> Result<(), NoMemory>
    requires { IsOrdered names.now }
    ensures { OnOk result (out.new ≡ out.old ++ flat_map (field_bytes names.now) fields.now) }
{
    for field in fields {
        put_field(out, names, field)?;
    }
    Ok(())
}

/// Puts the blob of a declaration.
fn put_blob(out: &mut List<u8>, names: &[Name], decl: &DataDecl) -> Result<(), NoMemory>
    requires order { IsOrdered names.now }
    requires fits { DeclFits decl.now }
    ensures { OnOk result (out.new ≡ out.old ++ blob names.now decl.now) }
{
    out.extend(&[0, 1, 0, 1])?;
    put_text(out, decl.con.as_slice())?;
    out.push(0)?;
    put_num(out, decl.fields.len() as u64)?;
    put_fields(out, names, decl.fields.as_slice())
}

/// Puts the blobs of the declarations.
fn put_blobs(out: &mut List<u8>, names: &[Name], decls: &[DataDecl]) -> Result<(), NoMemory>
    requires order { IsOrdered names.now }
    requires fits { All DeclFits decls.now }
    ensures { OnOk result (out.new ≡ out.old ++ flat_map (blob names.now) decls.now) }
{
    for decl in decls {
        put_blob(out, names, decl)?;
    }
    Ok(())
}

/// How many bytes the blob of a declaration has.
fn blob_len(alloc: Global, names: &[Name], decl: &DataDecl) -> Result<usize, NoMemory>
    requires order { IsOrdered names.now }
    requires fits { DeclFits decl.now }
    ensures exact { IfOk result (λ n. n ≡ length (blob names.now decl.now)) }
    ensures bound { IfOk result (λ n. n < 2 ^ 32) }
{
    let mut bytes = List::new(alloc);
    put_blob(&mut bytes, names, decl)?;
    Ok(bytes.len())
}

/// Puts the index entry of a declaration: the place of its type, and the length of its blob.
fn put_entry(
    alloc: Global,
    out: &mut List<u8>,
    unit: &[u8],
    module_name: &Text,
    names: &[Name],
    decl: &DataDecl,
) -> Result<(), NoMemory>
    requires order { IsOrdered names.now }
    requires fits { DeclFits decl.now }
    ensures { OnOk result (out.new ≡ out.old ++ entry_bytes unit.now module_name.now names.now decl.now) }
{
    let ty = full_name(alloc, unit, module_name, Space::Ty, &decl.ty)?;
    put_place(out, names, &ty)?;
    put_num(out, blob_len(alloc, names, decl)? as u64)
}

/// Puts the index entries of the declarations.
fn put_entries(
    alloc: Global,
    out: &mut List<u8>,
    unit: &[u8],
    module_name: &Text,
    names: &[Name],
    decls: &[DataDecl],
) -> Result<(), NoMemory>
    requires order { IsOrdered names.now }
    requires fits { All DeclFits decls.now }
    ensures { OnOk result (out.new ≡ out.old ++ flat_map (entry_bytes unit.now module_name.now names.now) decls.now) }
{
    for decl in decls {
        put_entry(alloc, out, unit, module_name, names, decl)?;
    }
    Ok(())
}

/// Puts the type of an exported constructor: its place and 1, or 0 where there is none.
fn put_parent(out: &mut List<u8>, names: &[Name], parent: &Option<Name>) -> Result<(), NoMemory>
    requires { IsOrdered names.now }
    ensures { OnOk result (out.new ≡ out.old ++ parent_bytes names.now parent.now) }
{
    match parent {
        Some(ty) => put_num(out, place_of(names, ty) as u64 + 1),
        None => put_num(out, 0),
    }
}

/// Puts an export.
fn put_export(out: &mut List<u8>, names: &[Name], export: &Export) -> Result<(), NoMemory>
    requires { IsOrdered names.now }
    ensures { OnOk result (out.new ≡ out.old ++ export_bytes names.now export.now) }
{
    put_place(out, names, &export.0)?;
    put_parent(out, names, &export.1)
}

/// Puts the exports.
fn put_exports(out: &mut List<u8>, names: &[Name], exports: &[Export]) -> Result<(), NoMemory>
    requires { IsOrdered names.now }
    ensures { OnOk result (out.new ≡ out.old ++ flat_map (export_bytes names.now) exports.now) }
{
    for export in exports {
        put_export(out, names, export)?;
    }
    Ok(())
}

/// Puts the name table, the index, the blobs and the exports.
pub fn put_sections(
    alloc: Global,
    out: &mut List<u8>,
    unit: &[u8],
    module_name: &Text,
    names: &[Name],
    decls: &[DataDecl],
    exports: &[Export],
) -> Result<(), NoMemory>
    requires order { IsOrdered names.now }
    requires names { All NameFits names.now }
    requires fits { All DeclFits decls.now }
    requires decls { length decls.now ≤ 1048576 }
    requires exports { length exports.now ≤ 2097152 }
    ensures { OnOk result (out.new ≡ out.old ++ (spelling.list_of name_bytes names.now ++ (spelling.list_of (entry_bytes unit.now module_name.now names.now) decls.now
        ++ (flat_map (blob names.now) decls.now ++ spelling.list_of (export_bytes names.now) exports.now)))) }
{
    put_num(out, names.len() as u64)?;
    put_names(out, names)?;
    put_num(out, decls.len() as u64)?;
    put_entries(alloc, out, unit, module_name, names, decls)?;
    put_blobs(out, names, decls)?;
    put_num(out, exports.len() as u64)?;
    put_exports(out, names, exports)
}
