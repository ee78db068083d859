//! The declarations (Haskell 2010 Report, chapter 9), each put behind others.
#![tactic(auto, using(crate::proofs::Steps::stars_end, crate::proofs::Steps::stars_step, crate::proofs::Steps::fields_end, crate::proofs::Steps::fields_step, crate::proofs::Steps::commas_end, crate::proofs::Steps::commas_step, crate::proofs::Steps::tuples_end, crate::proofs::Steps::tuples_step))]

ghost use Rattle.std.specs.Prelude.{◌≡◌, ◌≤◌, ◌+◌, ◌++◌, ◌∷◌, [], None as Without, IfOk, OnOk};
ghost use Rattle.prim_table.specs.Spelled as spelling;
ghost use Rattle.prim_table.specs.Types as spec;

use crate::spelled::{own, spelled};
use face_model::decl::{Body, Constr, Decl, Field};
use face_model::fixity::{Assoc, Fixity};
use face_model::scheme::Scheme;
use mk_base::kind::Kind;
use mk_base::list::List;
use mk_base::memory::NoMemory;
use mk_base::name::Space;
use mk_base::text::Text;
use mk_base::ty::Ty;
use std::alloc::Global;

/// A type or class under a name.
pub fn type_decl(alloc: Global, occ: &[u8], body: Body) -> Result<Decl, NoMemory>
    ensures { IfOk result (λ d. d ≡ spec.type_decl occ.now body) }
{
    let name = own(alloc, Space::Ty, occ)?;
    Ok(Decl {
        name,
        fixity: None,
        body,
    })
}

/// The kinds of so many parameters that are types.
fn stars(alloc: Global, count: usize) -> Result<List<Kind>, NoMemory>
    ensures { IfOk result (λ ks. ks ≡ spec.stars count) }
{
    if count == 0 {
        return Ok(List::new(alloc));
    }
    let mut kinds = stars(alloc, count - 1)?;
    kinds.push(Kind::Star)?;
    Ok(kinds)
}

/// A type whose constructors nobody sees.
pub fn opaque(alloc: Global, out: &mut List<Decl>, occ: &[u8], count: usize) -> Result<(), NoMemory>
    ensures { OnOk result (out.new ≡ out.old ++ spec.opaque occ.now count ∷ []) }
{
    let kinds = stars(alloc, count)?;
    let decl = type_decl(alloc, occ, Body::Abstract { kinds })?;
    out.push(decl)
}

/// A synonym of a type.
pub fn synonym(
    alloc: Global,
    out: &mut List<Decl>,
    occ: &[u8],
    count: usize,
    ty: &[u8],
) -> Result<(), NoMemory>
    ensures { OnOk result (out.new ≡ out.old ++ spec.synonym occ.now count ty.now ∷ []) }
{
    let kinds = stars(alloc, count)?;
    let body = Body::Synonym {
        kinds,
        result: Kind::Star,
        body: spelled(alloc, ty)?,
    };
    let decl = type_decl(alloc, occ, body)?;
    out.push(decl)
}

fn field(alloc: Global, ty: Ty) -> Field
    ensures { result ≡ spec.field ty }
{
    Field {
        label: Text::new(alloc),
        fixity: None,
        strict: false,
        ty,
    }
}

/// Fields of the first so many variables.
fn fields(alloc: Global, count: usize) -> Result<List<Field>, NoMemory>
    ensures { IfOk result (λ fs. fs ≡ spec.fields count) }
{
    if count == 0 {
        return Ok(List::new(alloc));
    }
    let mut parts = fields(alloc, count - 1)?;
    parts.push(field(alloc, Ty::Var((count - 1) as u64)))?;
    Ok(parts)
}

/// A constructor behind others.
fn constr(
    alloc: Global,
    out: &mut List<Constr>,
    occ: &[u8],
    fixity: Option<Fixity>,
    fields: List<Field>,
) -> Result<(), NoMemory>
    ensures { OnOk result (out.new ≡ out.old ++ spec.constr occ.now fixity fields ∷ []) }
{
    let occ = Text::from_slice(alloc, occ)?;
    out.push(Constr {
        occ,
        fixity,
        fields,
    })
}

/// A constructor without fields behind others.
pub fn constant(alloc: Global, out: &mut List<Constr>, occ: &[u8]) -> Result<(), NoMemory>
    ensures { OnOk result (out.new ≡ out.old ++ spec.constant occ.now ∷ []) }
{
    constr(alloc, out, occ, None, List::new(alloc))
}

/// An algebraic data type.
pub fn data_type(
    alloc: Global,
    out: &mut List<Decl>,
    occ: &[u8],
    count: usize,
    constrs: List<Constr>,
) -> Result<(), NoMemory>
    ensures { OnOk result (out.new ≡ out.old ++ spec.data_type occ.now count constrs ∷ []) }
{
    let kinds = stars(alloc, count)?;
    let body = Body::Alg {
        renamed: false,
        kinds,
        constrs,
    };
    let decl = type_decl(alloc, occ, body)?;
    out.push(decl)
}

/// So many commas.
fn commas(alloc: Global, count: usize) -> Result<List<u8>, NoMemory>
    ensures { IfOk result (λ cs. cs ≡ spec.commas count) }
{
    if count == 0 {
        return Ok(List::new(alloc));
    }
    let mut text = commas(alloc, count - 1)?;
    text.push(b',')?;
    Ok(text)
}

/// The name of tuples of one more part than commas.
pub fn tuple_name(alloc: Global, count: usize) -> Result<List<u8>, NoMemory>
    ensures { IfOk result (λ t. t ≡ spec.tuple_name count) }
{
    let inside = commas(alloc, count)?;
    let mut text = List::new(alloc);
    text.push(b'(')?;
    text.extend(inside.as_slice())?;
    text.push(b')')?;
    Ok(text)
}

fn tuple_constrs(alloc: Global, name: &[u8], count: usize) -> Result<List<Constr>, NoMemory>
    requires { count ≤ 100 }
    ensures { IfOk result (λ cs. cs ≡ spec.constr name.now Without (spec.fields (count + 1)) ∷ []) }
{
    let mut constrs = List::new(alloc);
    let parts = fields(alloc, count + 1)?;
    constr(alloc, &mut constrs, name, None, parts)?;
    Ok(constrs)
}

/// Tuples of one more part than commas.
fn tuple(alloc: Global, out: &mut List<Decl>, count: usize) -> Result<(), NoMemory>
    requires { count ≤ 100 }
    ensures { OnOk result (out.new ≡ out.old ++ spec.tuple count ∷ []) }
{
    let name = tuple_name(alloc, count)?;
    let constrs = tuple_constrs(alloc, name.as_slice(), count)?;
    data_type(alloc, out, name.as_slice(), count + 1, constrs)
}

/// Tuples of 2 to one more than so many parts.
pub fn tuples(alloc: Global, out: &mut List<Decl>, count: usize) -> Result<(), NoMemory>
    requires { count ≤ 100 }
    ensures { OnOk result (out.new ≡ spec.tuples count out.old) }
{
    if count == 0 {
        return Ok(());
    }
    tuples(alloc, out, count - 1)?;
    tuple(alloc, out, count)
}

fn list_fields(alloc: Global) -> Result<List<Field>, NoMemory>
    ensures { IfOk result (λ fs. fs ≡ spec.list_fields) }
{
    let mut parts = List::new(alloc);
    parts.push(field(alloc, Ty::Var(0)))?;
    let list = spelled(alloc, b"[0")?;
    parts.push(field(alloc, list))?;
    Ok(parts)
}

/// Lists.
pub fn lists(alloc: Global, out: &mut List<Decl>) -> Result<(), NoMemory>
    ensures { OnOk result (out.new ≡ out.old ++ spec.lists ∷ []) }
{
    let mut constrs = List::new(alloc);
    constant(alloc, &mut constrs, b"[]")?;
    let fixity = Some(Fixity {
        assoc: Assoc::Right,
        level: 5,
    });
    let parts = list_fields(alloc)?;
    constr(alloc, &mut constrs, b":", fixity, parts)?;
    data_type(alloc, out, b"[]", 1, constrs)
}

fn value_with(
    alloc: Global,
    out: &mut List<Decl>,
    fixity: Option<Fixity>,
    occ: &[u8],
    vars: u32,
    ty: &[u8],
) -> Result<(), NoMemory>
    ensures { OnOk result (out.new ≡ out.old ++ spec.value_with fixity occ.now vars ty.now ∷ []) }
{
    let name = own(alloc, Space::Var, occ)?;
    let body = Body::Value(Scheme {
        vars,
        context: List::new(alloc),
        body: spelled(alloc, ty)?,
    });
    out.push(Decl { name, fixity, body })
}

fn value(
    alloc: Global,
    out: &mut List<Decl>,
    occ: &[u8],
    vars: u32,
    ty: &[u8],
) -> Result<(), NoMemory>
    ensures { OnOk result (out.new ≡ out.old ++ spec.value occ.now vars ty.now ∷ []) }
{
    value_with(alloc, out, None, occ, vars, ty)
}

/// The values that are no methods.
pub fn values(alloc: Global) -> Result<List<Decl>, NoMemory>
    ensures { IfOk result (λ ds. ds ≡ spec.values) }
{
    let mut out = List::new(alloc);
    value(alloc, &mut out, b"appendFile", 0, b">[C>[C@WU")?;
    value(alloc, &mut out, b"error", 1, b">[C0")?;
    value(alloc, &mut out, b"getChar", 0, b"@WC")?;
    value(alloc, &mut out, b"getContents", 0, b"@W[C")?;
    value(alloc, &mut out, b"getLine", 0, b"@W[C")?;
    value(alloc, &mut out, b"putChar", 0, b">C@WU")?;
    value(alloc, &mut out, b"putStr", 0, b">[C@WU")?;
    value(alloc, &mut out, b"readFile", 0, b">[C@W[C")?;
    let fixity = Some(Fixity {
        assoc: Assoc::Right,
        level: 0,
    });
    value_with(alloc, &mut out, fixity, b"seq", 2, b">0>11")?;
    value(alloc, &mut out, b"writeFile", 0, b">[C>[C@WU")?;
    Ok(out)
}
