//! Rows of the face of `Prim`.
use crate::shown::{
    put_constrs, put_context, put_fixity, put_kind, put_kinds, put_method_names, put_methods,
    put_name, put_scheme, put_type_name, put_type_names, put_word,
};
use face_model::decl::{Body, Constr, Decl, Method};
use face_model::export::Export;
use face_model::face::Face;
use face_model::inst::Inst;
use mk_base::kind::Kind;
use mk_base::list::List;
use mk_base::memory::NoMemory;
use mk_base::name::{Name, Space};
use mk_base::ty::{Ty, print_ty};
use prim_table::table::prim_face;
use std::alloc::Global;
use std::process::Abort;

/// Which rows.
#[derive(Clone, Copy)]
pub enum Part {
    /// `class`, the name and its kind; superclasses; methods.
    Classes,
    /// Data types, synonyms and abstract types, with their kinds and what they are.
    Types,
    /// Values, with the number of their variables and their types.
    Values,
    /// Each fixity, and whose it is.
    Fixities,
    /// Exports without a parent.
    Names,
    /// Exports with their parents.
    Parts,
}

fn put_class(
    out: &mut List<u8>,
    name: &Name,
    kind: &Kind,
    supers: &[Name],
    methods: &[Method],
) -> Result<(), NoMemory> {
    out.extend(b"class")?;
    put_type_name(out, name)?;
    put_kind(out, kind)?;
    out.push(b';')?;
    put_type_names(out, supers)?;
    out.push(b';')?;
    put_method_names(out, methods)?;
    out.push(b'\n')
}

fn put_if_class(out: &mut List<u8>, decl: &Decl) -> Result<(), NoMemory> {
    match &decl.body {
        Body::Class {
            kind,
            supers,
            methods,
        } => put_class(out, &decl.name, kind, supers.as_slice(), methods.as_slice()),
        _ => Ok(()),
    }
}

fn put_type(out: &mut List<u8>, sort: &[u8], name: &Name, kinds: &[Kind]) -> Result<(), NoMemory> {
    out.extend(sort)?;
    put_type_name(out, name)?;
    put_kinds(out, kinds)
}

fn sort_text(renamed: bool) -> &'static [u8] {
    if renamed { b"newtype" } else { b"data" }
}

fn put_data(
    out: &mut List<u8>,
    name: &Name,
    renamed: bool,
    kinds: &[Kind],
    constrs: &[Constr],
) -> Result<(), NoMemory> {
    put_type(out, sort_text(renamed), name, kinds)?;
    put_constrs(out, constrs)?;
    out.push(b'\n')
}

fn put_synonym(
    out: &mut List<u8>,
    name: &Name,
    kinds: &[Kind],
    to: &Kind,
    body: &Ty,
) -> Result<(), NoMemory> {
    put_type(out, b"type", name, kinds)?;
    out.extend(b" ::")?;
    put_kind(out, to)?;
    out.extend(b" = ")?;
    print_ty(out, body)?;
    out.push(b'\n')
}

fn put_abstract(out: &mut List<u8>, name: &Name, kinds: &[Kind]) -> Result<(), NoMemory> {
    put_type(out, b"abstract", name, kinds)?;
    out.push(b'\n')
}

fn put_if_type(out: &mut List<u8>, decl: &Decl) -> Result<(), NoMemory> {
    match &decl.body {
        Body::Alg {
            renamed,
            kinds,
            constrs,
        } => put_data(
            out,
            &decl.name,
            *renamed,
            kinds.as_slice(),
            constrs.as_slice(),
        ),
        Body::Synonym {
            kinds,
            result: to,
            body,
        } => put_synonym(out, &decl.name, kinds.as_slice(), to, body),
        Body::Abstract { kinds } => put_abstract(out, &decl.name, kinds.as_slice()),
        _ => Ok(()),
    }
}

fn put_if_value(out: &mut List<u8>, decl: &Decl) -> Result<(), NoMemory> {
    match &decl.body {
        Body::Value(scheme) => {
            put_name(out, &decl.name, Space::Var)?;
            put_scheme(out, scheme)?;
            out.push(b'\n')
        }
        _ => Ok(()),
    }
}

fn put_method_fixities(out: &mut List<u8>, methods: &[Method]) -> Result<(), NoMemory> {
    for method in methods {
        put_fixity(out, &method.fixity, method.occ.as_slice())?;
    }
    Ok(())
}

fn put_constr_fixities(out: &mut List<u8>, constrs: &[Constr]) -> Result<(), NoMemory> {
    for constr in constrs {
        put_fixity(out, &constr.fixity, constr.occ.as_slice())?;
    }
    Ok(())
}

fn put_fixities(out: &mut List<u8>, decl: &Decl) -> Result<(), NoMemory> {
    put_fixity(out, &decl.fixity, decl.name.occ.text.as_slice())?;
    match &decl.body {
        Body::Class { methods, .. } => put_method_fixities(out, methods.as_slice()),
        Body::Alg { constrs, .. } => put_constr_fixities(out, constrs.as_slice()),
        _ => Ok(()),
    }
}

fn put_decl(out: &mut List<u8>, part: Part, decl: &Decl) -> Result<(), NoMemory> {
    match part {
        Part::Classes => put_if_class(out, decl),
        Part::Types => put_if_type(out, decl),
        Part::Values => put_if_value(out, decl),
        Part::Fixities => put_fixities(out, decl),
        _ => Ok(()),
    }
}

fn put_decls(out: &mut List<u8>, part: Part, decls: &[Decl]) -> Result<(), NoMemory> {
    for decl in decls {
        put_decl(out, part, decl)?;
    }
    Ok(())
}

fn space_text(space: Space) -> &'static [u8] {
    match space {
        Space::Var => b"variable ",
        Space::Con => b"constructor ",
        Space::Ty => b"type ",
    }
}

fn put_exported(out: &mut List<u8>, export: &Export) -> Result<(), NoMemory> {
    let space = export.name.occ.space;
    out.extend(space_text(space))?;
    put_name(out, &export.name, space)
}

fn put_export(out: &mut List<u8>, part: Part, export: &Export) -> Result<(), NoMemory> {
    match &export.parent {
        None => put_alone(out, part, export),
        Some(parent) => put_part(out, part, export, parent),
    }
}

fn put_alone(out: &mut List<u8>, part: Part, export: &Export) -> Result<(), NoMemory> {
    match part {
        Part::Names => {
            put_exported(out, export)?;
            out.push(b'\n')
        }
        _ => Ok(()),
    }
}

fn put_part(
    out: &mut List<u8>,
    part: Part,
    export: &Export,
    parent: &Name,
) -> Result<(), NoMemory> {
    match part {
        Part::Parts => {
            put_exported(out, export)?;
            put_type_name(out, parent)?;
            out.push(b'\n')
        }
        _ => Ok(()),
    }
}

fn put_exports(out: &mut List<u8>, part: Part, exports: &[Export]) -> Result<(), NoMemory> {
    for export in exports {
        put_export(out, part, export)?;
    }
    Ok(())
}

fn shown(alloc: Global, part: Part) -> Result<List<u8>, NoMemory> {
    let face = prim_face(alloc)?;
    let mut out = List::new(alloc);
    put_decls(&mut out, part, face.decls.as_slice())?;
    put_exports(&mut out, part, face.exports.as_slice())?;
    Ok(out)
}

fn put_inst(out: &mut List<u8>, inst: &Inst) -> Result<(), NoMemory> {
    put_name(out, &inst.class, Space::Ty)?;
    put_type_name(out, &inst.head)?;
    out.push(b' ')?;
    out.push_number(u64::from(inst.vars))?;
    out.push(b';')?;
    put_context(out, inst.context.as_slice())?;
    out.push(b'\n')
}

fn put_insts_of(out: &mut List<u8>, class: &[u8], insts: &[Inst]) -> Result<(), NoMemory> {
    for inst in insts {
        if inst.class.occ.text.as_slice() == class {
            put_inst(out, inst)?;
        }
    }
    Ok(())
}

fn shown_insts(alloc: Global, class: &[u8]) -> Result<List<u8>, NoMemory> {
    let face = prim_face(alloc)?;
    let mut out = List::new(alloc);
    put_insts_of(&mut out, class, face.insts.as_slice())?;
    Ok(out)
}

fn put_methods_of(out: &mut List<u8>, class: &[u8], decl: &Decl) -> Result<(), NoMemory> {
    match &decl.body {
        Body::Class { methods, .. } => {
            if decl.name.occ.text.as_slice() == class {
                put_methods(out, methods.as_slice())?;
            }
            Ok(())
        }
        _ => Ok(()),
    }
}

fn put_all_methods_of(out: &mut List<u8>, class: &[u8], decls: &[Decl]) -> Result<(), NoMemory> {
    for decl in decls {
        put_methods_of(out, class, decl)?;
    }
    Ok(())
}

fn shown_methods(alloc: Global, class: &[u8]) -> Result<List<u8>, NoMemory> {
    let face = prim_face(alloc)?;
    let mut out = List::new(alloc);
    put_all_methods_of(&mut out, class, face.decls.as_slice())?;
    Ok(out)
}

/// The rows of a part of `Prim` are these.
pub fn run(rt: &impl Abort, alloc: Global, part: Part, rows: &[u8]) -> Result<(), NoMemory> {
    let found = shown(alloc, part)?;
    assert!(rt; found.as_slice() == rows);
    Ok(())
}

/// The rows of the instances of a class are these: the class, the type's name, the number of its variables, and the
/// context.
pub fn run_insts(
    rt: &impl Abort,
    alloc: Global,
    class: &[u8],
    rows: &[u8],
) -> Result<(), NoMemory> {
    let found = shown_insts(alloc, class)?;
    assert!(rt; found.as_slice() == rows);
    Ok(())
}

/// The rows of the methods of a class are these: the name, the number of variables, the context, and the type.
pub fn run_methods(
    rt: &impl Abort,
    alloc: Global,
    class: &[u8],
    rows: &[u8],
) -> Result<(), NoMemory> {
    let found = shown_methods(alloc, class)?;
    assert!(rt; found.as_slice() == rows);
    Ok(())
}

/// How many declarations, instances and exports `Prim` has.
pub fn counts(alloc: Global) -> Result<(usize, usize, usize), NoMemory> {
    let face = prim_face(alloc)?;
    Ok((face.decls.len(), face.insts.len(), face.exports.len()))
}
