//! Declarations, read from bytes.
ghost use Rattle.std.specs.Prelude.{◌≡◌};
ghost use Rattle.decl_codec.specs.Answers.{Gives};
ghost use Rattle.decl_codec.specs.Reading as reading;

use crate::fault::Fault;
use crate::items::{Wired, items_at};
use crate::kind::kind_at;
use crate::name::{name_at, text_at};
use crate::parts::{fix_at, flag_at};
use crate::ty::ty_at;
use face_model::decl::{Body, Constr, Decl, Field, Method};
use face_model::scheme::{Constraint, Scheme};
use mk_base::kind::Kind;
use mk_base::name::Name;
use std::alloc::Global;
use wire::get::{byte_at, number_at};

impl Wired for Kind {
    ghost use Rattle.decl_codec.specs.Reading as reading;

    ghost reads = { λ names count bytes. reading.kind_at bytes };

    fn at<'a>(
        alloc: Global,
        _names: &[Name],
        _count: u64,
        bytes: &'a [u8],
    ) -> Result<(Kind, &'a [u8]), Fault> {
        kind_at(alloc, bytes)
    }
}

// a name by its place
impl Wired for Name {
    ghost use Rattle.decl_codec.specs.Reading as reading;

    ghost reads = { λ names count bytes. reading.name_at names bytes };

    fn at<'a>(
        alloc: Global,
        names: &[Name],
        _count: u64,
        bytes: &'a [u8],
    ) -> Result<(Name, &'a [u8]), Fault> {
        name_at(alloc, names, bytes)
    }
}

impl Wired for Constraint {
    ghost use Rattle.decl_codec.specs.Reading as reading;

    ghost reads = { λ names count bytes. reading.constraint_at (reading.name_at names) count bytes };

    #[tactic(auto, unfolding(crate::specs::Reading::constraint_at))]
    fn at<'a>(
        alloc: Global,
        names: &[Name],
        count: u64,
        bytes: &'a [u8],
    ) -> Result<(Constraint, &'a [u8]), Fault> {
        let (class, rest) = name_at(alloc, names, bytes)?;
        let (ty, rest) = ty_at(alloc, names, count, rest)?;
        Ok((Constraint { class, ty }, rest))
    }
}

/// A scheme, and the bytes behind it.
#[tactic(auto, unfolding(crate::specs::Reading::scheme_at))]
fn scheme_at<'a>(
    alloc: Global,
    names: &[Name],
    bytes: &'a [u8],
) -> Result<(Scheme, &'a [u8]), Fault>
    ensures { Gives (λ x. (x.0, x.1.now)) result (reading.scheme_at (reading.name_at names.now) bytes.now) }
{
    let (vars, rest) = number_at(bytes).ok_or(Fault::Malformed)?;
    let (context, rest) = items_at::<Constraint>(alloc, names, vars, rest)?;
    let (body, rest) = ty_at(alloc, names, vars, rest)?;
    let vars = vars as u32;
    Ok((
        Scheme {
            vars,
            context,
            body,
        },
        rest,
    ))
}

impl Wired for Field {
    ghost use Rattle.decl_codec.specs.Reading as reading;

    ghost reads = { λ names count bytes. reading.field_at (reading.name_at names) count bytes };

    #[tactic(auto, unfolding(crate::specs::Reading::field_at))]
    fn at<'a>(
        alloc: Global,
        names: &[Name],
        count: u64,
        bytes: &'a [u8],
    ) -> Result<(Field, &'a [u8]), Fault> {
        let (label, rest) = text_at(alloc, bytes)?;
        let (fixity, rest) = fix_at(rest).ok_or(Fault::Malformed)?;
        let (strict, rest) = flag_at(rest).ok_or(Fault::Malformed)?;
        let (ty, rest) = ty_at(alloc, names, count, rest)?;
        Ok((
            Field {
                label,
                fixity,
                strict,
                ty,
            },
            rest,
        ))
    }
}

impl Wired for Constr {
    ghost use Rattle.decl_codec.specs.Reading as reading;

    ghost reads = { λ names count bytes. reading.constr_at (reading.name_at names) count bytes };

    #[tactic(auto, unfolding(crate::specs::Reading::constr_at))]
    fn at<'a>(
        alloc: Global,
        names: &[Name],
        count: u64,
        bytes: &'a [u8],
    ) -> Result<(Constr, &'a [u8]), Fault> {
        let (occ, rest) = text_at(alloc, bytes)?;
        let (fixity, rest) = fix_at(rest).ok_or(Fault::Malformed)?;
        let (fields, rest) = items_at::<Field>(alloc, names, count, rest)?;
        Ok((
            Constr {
                occ,
                fixity,
                fields,
            },
            rest,
        ))
    }
}

impl Wired for Method {
    ghost use Rattle.decl_codec.specs.Reading as reading;

    ghost reads = { λ names count bytes. reading.method_at (reading.name_at names) bytes };

    #[tactic(auto, unfolding(crate::specs::Reading::method_at))]
    fn at<'a>(
        alloc: Global,
        names: &[Name],
        _count: u64,
        bytes: &'a [u8],
    ) -> Result<(Method, &'a [u8]), Fault> {
        let (occ, rest) = text_at(alloc, bytes)?;
        let (fixity, rest) = fix_at(rest).ok_or(Fault::Malformed)?;
        let (scheme, rest) = scheme_at(alloc, names, rest)?;
        Ok((
            Method {
                occ,
                fixity,
                scheme,
            },
            rest,
        ))
    }
}

/// The declaration of a value, and the bytes behind it.
#[tactic(auto, unfolding(crate::specs::Reading::value_at))]
fn value_at<'a>(alloc: Global, names: &[Name], bytes: &'a [u8]) -> Result<(Body, &'a [u8]), Fault>
    ensures { Gives (λ x. (x.0, x.1.now)) result (reading.value_at (reading.name_at names.now) bytes.now) }
{
    let (scheme, rest) = scheme_at(alloc, names, bytes)?;
    Ok((Body::Value(scheme), rest))
}

/// An algebraic data type, and the bytes behind it.
#[tactic(auto, unfolding(crate::specs::Reading::alg_at))]
fn alg_at<'a>(
    alloc: Global,
    names: &[Name],
    renamed: bool,
    bytes: &'a [u8],
) -> Result<(Body, &'a [u8]), Fault>
    ensures { Gives (λ x. (x.0, x.1.now)) result (reading.alg_at (reading.name_at names.now) renamed bytes.now) }
{
    let (kinds, rest) = items_at::<Kind>(alloc, names, 0, bytes)?;
    let count = kinds.len() as u64;
    let (constrs, rest) = items_at::<Constr>(alloc, names, count, rest)?;
    Ok((
        Body::Alg {
            renamed,
            kinds,
            constrs,
        },
        rest,
    ))
}

/// A type synonym, and the bytes behind it.
#[tactic(auto, unfolding(crate::specs::Reading::synonym_at))]
fn synonym_at<'a>(alloc: Global, names: &[Name], bytes: &'a [u8]) -> Result<(Body, &'a [u8]), Fault>
    ensures { Gives (λ x. (x.0, x.1.now)) result (reading.synonym_at (reading.name_at names.now) bytes.now) }
{
    let (kinds, rest) = items_at::<Kind>(alloc, names, 0, bytes)?;
    let (to, rest) = kind_at(alloc, rest)?;
    let count = kinds.len() as u64;
    let (body, rest) = ty_at(alloc, names, count, rest)?;
    Ok((
        Body::Synonym {
            kinds,
            result: to,
            body,
        },
        rest,
    ))
}

/// A class, and the bytes behind it.
#[tactic(auto, unfolding(crate::specs::Reading::class_at))]
fn class_at<'a>(alloc: Global, names: &[Name], bytes: &'a [u8]) -> Result<(Body, &'a [u8]), Fault>
    ensures { Gives (λ x. (x.0, x.1.now)) result (reading.class_at (reading.name_at names.now) bytes.now) }
{
    let (kind, rest) = kind_at(alloc, bytes)?;
    let (supers, rest) = items_at::<Name>(alloc, names, 0, rest)?;
    let (methods, rest) = items_at::<Method>(alloc, names, 0, rest)?;
    Ok((
        Body::Class {
            kind,
            supers,
            methods,
        },
        rest,
    ))
}

/// An abstract type, and the bytes behind it.
#[tactic(auto, unfolding(crate::specs::Reading::abstract_at))]
fn abstract_at<'a>(
    alloc: Global,
    names: &[Name],
    bytes: &'a [u8],
) -> Result<(Body, &'a [u8]), Fault>
    ensures { Gives (λ x. (x.0, x.1.now)) result (reading.abstract_at (reading.name_at names.now) bytes.now) }
{
    let (kinds, rest) = items_at::<Kind>(alloc, names, 0, bytes)?;
    Ok((Body::Abstract { kinds }, rest))
}

/// What a name is declared as, behind its tag, and the bytes behind it.
#[tactic(auto, unfolding(crate::specs::Reading::body_tagged))]
fn body_tagged<'a>(
    alloc: Global,
    names: &[Name],
    tag: u8,
    rest: &'a [u8],
) -> Result<(Body, &'a [u8]), Fault>
    ensures { Gives (λ x. (x.0, x.1.now)) result (reading.body_tagged (reading.name_at names.now) (tag, rest.now)) }
{
    if tag == 0 {
        return value_at(alloc, names, rest);
    }
    if tag == 1 {
        return alg_at(alloc, names, false, rest);
    }
    if tag == 2 {
        return alg_at(alloc, names, true, rest);
    }
    if tag == 3 {
        return synonym_at(alloc, names, rest);
    }
    if tag == 4 {
        return class_at(alloc, names, rest);
    }
    if tag == 5 {
        return abstract_at(alloc, names, rest);
    }
    Err(Fault::Malformed)
}

/// What a name is declared as, and the bytes behind it.
#[tactic(auto, unfolding(crate::specs::Reading::body_at))]
fn body_at<'a>(alloc: Global, names: &[Name], bytes: &'a [u8]) -> Result<(Body, &'a [u8]), Fault>
    ensures { Gives (λ x. (x.0, x.1.now)) result (reading.body_at (reading.name_at names.now) bytes.now) }
{
    let (tag, rest) = byte_at(bytes).ok_or(Fault::Malformed)?;
    body_tagged(alloc, names, tag, rest)
}

/// The declaration of a name, and the bytes behind it.
#[tactic(auto, unfolding(crate::specs::Reading::decl_at))]
pub fn decl_at<'a>(
    alloc: Global,
    names: &[Name],
    name: &Name,
    bytes: &'a [u8],
) -> Result<(Decl, &'a [u8]), Fault>
    ensures { Gives (λ x. (x.0, x.1.now)) result (reading.decl_at (reading.name_at names.now) name.now bytes.now) }
{
    let (fixity, rest) = fix_at(bytes).ok_or(Fault::Malformed)?;
    let (body, rest) = body_at(alloc, names, rest)?;
    let name = name.copy(alloc)?;
    Ok((Decl { name, fixity, body }, rest))
}
