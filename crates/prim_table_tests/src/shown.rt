//! Parts of declarations in rows.
use face_model::decl::{Constr, Field, Method};
use face_model::fixity::{Assoc, Fixity};
use face_model::scheme::{Constraint, Scheme};
use mk_base::kind::{Kind, print_kind};
use mk_base::list::List;
use mk_base::memory::NoMemory;
use mk_base::name::{Name, Space};
use mk_base::ty::print_ty;

/// Whether a name is of the unit `prim`, its module `Prim`, and a space.
fn is_own(name: &Name, space: Space) -> bool {
    name.unit.text.as_slice() == b"prim".as_slice()
        && name.module.text.as_slice() == b"Prim".as_slice()
        && name.occ.space == space
}

/// A name of `Prim`.
pub fn put_name(out: &mut List<u8>, name: &Name, space: Space) -> Result<(), NoMemory> {
    if is_own(name, space) {
        out.extend(name.occ.text.as_slice())
    } else {
        out.push(b'?')
    }
}

/// A space and a name of a type or a class.
pub fn put_type_name(out: &mut List<u8>, name: &Name) -> Result<(), NoMemory> {
    out.push(b' ')?;
    put_name(out, name, Space::Ty)
}

/// A space and a text.
pub fn put_word(out: &mut List<u8>, word: &[u8]) -> Result<(), NoMemory> {
    out.push(b' ')?;
    out.extend(word)
}

/// A space and a kind.
pub fn put_kind(out: &mut List<u8>, kind: &Kind) -> Result<(), NoMemory> {
    out.push(b' ')?;
    print_kind(out, kind)
}

/// Each kind behind a space.
pub fn put_kinds(out: &mut List<u8>, kinds: &[Kind]) -> Result<(), NoMemory> {
    for kind in kinds {
        put_kind(out, kind)?;
    }
    Ok(())
}

/// Each name of a type or a class behind a space.
pub fn put_type_names(out: &mut List<u8>, names: &[Name]) -> Result<(), NoMemory> {
    for name in names {
        put_type_name(out, name)?;
    }
    Ok(())
}

/// A space, the class and the type.
fn put_constraint(out: &mut List<u8>, constraint: &Constraint) -> Result<(), NoMemory> {
    put_type_name(out, &constraint.class)?;
    out.push(b' ')?;
    print_ty(out, &constraint.ty)
}

/// Each constraint behind a space.
pub fn put_context(out: &mut List<u8>, context: &[Constraint]) -> Result<(), NoMemory> {
    for constraint in context {
        put_constraint(out, constraint)?;
    }
    Ok(())
}

/// The number of variables, the context and the type.
pub fn put_scheme(out: &mut List<u8>, scheme: &Scheme) -> Result<(), NoMemory> {
    out.push(b' ')?;
    out.push_number(u64::from(scheme.vars))?;
    put_context(out, scheme.context.as_slice())?;
    out.extend(b" :: ")?;
    print_ty(out, &scheme.body)
}

/// A space and the name of each method.
pub fn put_method_names(out: &mut List<u8>, methods: &[Method]) -> Result<(), NoMemory> {
    for method in methods {
        put_word(out, method.occ.as_slice())?;
    }
    Ok(())
}

fn put_method(out: &mut List<u8>, method: &Method) -> Result<(), NoMemory> {
    out.extend(method.occ.as_slice())?;
    put_scheme(out, &method.scheme)?;
    out.push(b'\n')
}

/// A line for each method.
pub fn put_methods(out: &mut List<u8>, methods: &[Method]) -> Result<(), NoMemory> {
    for method in methods {
        put_method(out, method)?;
    }
    Ok(())
}

/// A space and the type of the field; `!` is in front of a strict one, and a label behind it.
fn put_field(out: &mut List<u8>, field: &Field) -> Result<(), NoMemory> {
    out.push(b' ')?;
    if field.strict {
        out.push(b'!')?;
    }
    print_ty(out, &field.ty)?;
    out.extend(field.label.as_slice())
}

fn put_fields(out: &mut List<u8>, fields: &[Field]) -> Result<(), NoMemory> {
    for field in fields {
        put_field(out, field)?;
    }
    Ok(())
}

/// A sign, the constructor, and its fields.
fn put_constr(out: &mut List<u8>, constr: &Constr) -> Result<(), NoMemory> {
    out.extend(b" | ")?;
    out.extend(constr.occ.as_slice())?;
    put_fields(out, constr.fields.as_slice())
}

/// All constructors.
pub fn put_constrs(out: &mut List<u8>, constrs: &[Constr]) -> Result<(), NoMemory> {
    for constr in constrs {
        put_constr(out, constr)?;
    }
    Ok(())
}

fn side(assoc: Assoc) -> &'static [u8] {
    match assoc {
        Assoc::Left => b"infixl ",
        Assoc::Right => b"infixr ",
        Assoc::Neither => b"infix ",
    }
}

/// A line with the fixity of an operator, where it has one.
pub fn put_fixity(out: &mut List<u8>, fixity: &Option<Fixity>, occ: &[u8]) -> Result<(), NoMemory> {
    if let Some(fixity) = fixity {
        out.extend(side(fixity.assoc))?;
        out.push_number(u64::from(fixity.level))?;
        put_word(out, occ)?;
        out.push(b'\n')?;
    }
    Ok(())
}
