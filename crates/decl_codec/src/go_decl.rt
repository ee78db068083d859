//! Going over declarations without building them.
ghost use Rattle.decl_codec.specs.Answers.{Gives};
ghost use Rattle.decl_codec.specs.Going as spec;

use crate::fault::Fault;
use crate::going::{Seen, go_kind, go_kinds, go_name, go_ty, keep_label, keep_occ};
use crate::parts::{fix_at, flag_at};
use mk_base::name::Space;
use std::alloc::Global;
use wire::get::{byte_at, number_at, words_at};

/// A part that is gone over: which one, in a table of so many names.
pub trait Part: Drop {
    ghost use Rattle.std.specs.Prelude.{ℕ, List};
    ghost use Rattle.decl_codec.specs.Going.{Went};
    ghost use Rattle.decl_codec.specs.declared.going.Seen as seen;

    // what is kept on the way over the part, and the bytes behind it
    ghost goes: { ℕ → ℕ → seen.Seen → List ℕ → Went };

    /// The bytes behind the part at the front, its type variables below a count.
    fn go<'a>(
        alloc: Global,
        names: u64,
        count: u64,
        seen: &mut Seen,
        bytes: &'a [u8],
    ) -> Result<&'a [u8], Fault>
    where
        Self: Sized,
        ensures { Gives (λ rest. (seen.new, rest.now)) result (goes names count seen.old bytes.now) };
}

/// The parts that lists have.

#[derive(Clone, Copy, Debug)]
pub struct AName;

#[derive(Clone, Copy, Debug)]
pub struct AConstraint;

#[derive(Clone, Copy, Debug)]
pub struct AField;

#[derive(Clone, Copy, Debug)]
pub struct AConstr;

#[derive(Clone, Copy, Debug)]
pub struct AMethod;

/// The bytes behind so many parts.
fn go_times<'a, P: Part>(
    alloc: Global,
    names: u64,
    count: u64,
    many: u64,
    seen: &mut Seen,
    bytes: &'a [u8],
) -> Result<&'a [u8], Fault>
    ensures { Gives (λ rest. (seen.new, rest.now)) result (spec.go_times (P.goes names count) many seen.old bytes.now) }
{
    let mut rest = bytes;
    for _ in 0..many {
        rest = P::go(alloc, names, count, seen, rest)?;
    }
    Ok(rest)
}

/// The bytes behind a list of parts.
#[tactic(auto, unfolding(crate::specs::Going::go_list))]
fn go_list<'a, P: Part>(
    alloc: Global,
    names: u64,
    count: u64,
    seen: &mut Seen,
    bytes: &'a [u8],
) -> Result<&'a [u8], Fault>
    ensures { Gives (λ rest. (seen.new, rest.now)) result (spec.go_list (P.goes names count) seen.old bytes.now) }
{
    let (many, rest) = number_at(bytes).ok_or(Fault::Malformed)?;
    go_times::<P>(alloc, names, count, many, seen, rest)
}

impl Part for AName {
    ghost use Rattle.decl_codec.specs.Going as spec;

    ghost goes = { λ names count. spec.go_name names };

    fn go<'a>(
        _alloc: Global,
        names: u64,
        _count: u64,
        seen: &mut Seen,
        bytes: &'a [u8],
    ) -> Result<&'a [u8], Fault> {
        go_name(names, seen, bytes)
    }
}

impl Part for AConstraint {
    ghost use Rattle.decl_codec.specs.Going as spec;

    ghost goes = { λ names count. spec.go_constraint names count };

    #[tactic(auto, unfolding(crate::specs::Going::go_constraint))]
    fn go<'a>(
        _alloc: Global,
        names: u64,
        count: u64,
        seen: &mut Seen,
        bytes: &'a [u8],
    ) -> Result<&'a [u8], Fault> {
        let rest = go_name(names, seen, bytes)?;
        go_ty(names, count, seen, rest)
    }
}

/// The bytes behind a scheme.
#[tactic(auto, unfolding(crate::specs::Going::go_scheme))]
fn go_scheme<'a>(
    alloc: Global,
    names: u64,
    seen: &mut Seen,
    bytes: &'a [u8],
) -> Result<&'a [u8], Fault>
    ensures { Gives (λ rest. (seen.new, rest.now)) result (spec.go_scheme names seen.old bytes.now) }
{
    let (vars, rest) = number_at(bytes).ok_or(Fault::Malformed)?;
    let rest = go_list::<AConstraint>(alloc, names, vars, seen, rest)?;
    go_ty(names, vars, seen, rest)
}

impl Part for AField {
    ghost use Rattle.decl_codec.specs.Going as spec;

    ghost goes = { λ names count. spec.go_field names count };

    #[tactic(auto, unfolding(crate::specs::Going::go_field))]
    fn go<'a>(
        alloc: Global,
        names: u64,
        count: u64,
        seen: &mut Seen,
        bytes: &'a [u8],
    ) -> Result<&'a [u8], Fault> {
        let (label, rest) = words_at(bytes).ok_or(Fault::Malformed)?;
        let (_, rest) = fix_at(rest).ok_or(Fault::Malformed)?;
        let (_, rest) = flag_at(rest).ok_or(Fault::Malformed)?;
        keep_label(alloc, seen, label)?;
        go_ty(names, count, seen, rest)
    }
}

impl Part for AConstr {
    ghost use Rattle.decl_codec.specs.Going as spec;

    ghost goes = { λ names count. spec.go_constr names count };

    #[tactic(auto, unfolding(crate::specs::Going::go_constr))]
    fn go<'a>(
        alloc: Global,
        names: u64,
        count: u64,
        seen: &mut Seen,
        bytes: &'a [u8],
    ) -> Result<&'a [u8], Fault> {
        let (occ, rest) = words_at(bytes).ok_or(Fault::Malformed)?;
        let (_, rest) = fix_at(rest).ok_or(Fault::Malformed)?;
        keep_occ(alloc, seen, Space::Con, occ)?;
        go_list::<AField>(alloc, names, count, seen, rest)
    }
}

impl Part for AMethod {
    ghost use Rattle.decl_codec.specs.Going as spec;

    ghost goes = { λ names count. spec.go_method names };

    #[tactic(auto, unfolding(crate::specs::Going::go_method))]
    fn go<'a>(
        alloc: Global,
        names: u64,
        _count: u64,
        seen: &mut Seen,
        bytes: &'a [u8],
    ) -> Result<&'a [u8], Fault> {
        let (occ, rest) = words_at(bytes).ok_or(Fault::Malformed)?;
        let (_, rest) = fix_at(rest).ok_or(Fault::Malformed)?;
        keep_occ(alloc, seen, Space::Var, occ)?;
        go_scheme(alloc, names, seen, rest)
    }
}

/// The bytes behind an algebraic data type.
#[tactic(auto, unfolding(crate::specs::Going::go_alg))]
fn go_alg<'a>(
    alloc: Global,
    names: u64,
    seen: &mut Seen,
    bytes: &'a [u8],
) -> Result<&'a [u8], Fault>
    ensures { Gives (λ rest. (seen.new, rest.now)) result (spec.go_alg names seen.old bytes.now) }
{
    let (count, rest) = go_kinds(bytes).ok_or(Fault::Malformed)?;
    go_list::<AConstr>(alloc, names, count, seen, rest)
}

/// The bytes behind a type synonym.
#[tactic(auto, unfolding(crate::specs::Going::go_synonym))]
fn go_synonym<'a>(
    alloc: Global,
    names: u64,
    seen: &mut Seen,
    bytes: &'a [u8],
) -> Result<&'a [u8], Fault>
    ensures { Gives (λ rest. (seen.new, rest.now)) result (spec.go_synonym names seen.old bytes.now) }
{
    let (count, rest) = go_kinds(bytes).ok_or(Fault::Malformed)?;
    let rest = go_kind(rest).ok_or(Fault::Malformed)?;
    go_ty(names, count, seen, rest)
}

/// The bytes behind a class.
#[tactic(auto, unfolding(crate::specs::Going::go_class))]
fn go_class<'a>(
    alloc: Global,
    names: u64,
    seen: &mut Seen,
    bytes: &'a [u8],
) -> Result<&'a [u8], Fault>
    ensures { Gives (λ rest. (seen.new, rest.now)) result (spec.go_class names seen.old bytes.now) }
{
    let rest = go_kind(bytes).ok_or(Fault::Malformed)?;
    let rest = go_list::<AName>(alloc, names, 0, seen, rest)?;
    go_list::<AMethod>(alloc, names, 0, seen, rest)
}

/// The bytes behind an abstract type.
#[tactic(auto, unfolding(crate::specs::Going::go_abstract))]
fn go_abstract<'a>(seen: &mut Seen, bytes: &'a [u8]) -> Result<&'a [u8], Fault>
    ensures { Gives (λ rest. (seen.new, rest.now)) result (spec.go_abstract seen.old bytes.now) }
{
    let _ = seen;
    let (_, rest) = go_kinds(bytes).ok_or(Fault::Malformed)?;
    Ok(rest)
}

/// The bytes behind what a name is declared as, behind its tag.
#[tactic(auto, unfolding(crate::specs::Going::go_tagged))]
fn go_tagged<'a>(
    alloc: Global,
    names: u64,
    seen: &mut Seen,
    tag: u8,
    rest: &'a [u8],
) -> Result<&'a [u8], Fault>
    ensures { Gives (λ rest. (seen.new, rest.now)) result (spec.go_tagged names seen.old (tag, rest.now)) }
{
    if tag == 0 {
        return go_scheme(alloc, names, seen, rest);
    }
    if tag == 1 {
        return go_alg(alloc, names, seen, rest);
    }
    if tag == 2 {
        return go_alg(alloc, names, seen, rest);
    }
    if tag == 3 {
        return go_synonym(alloc, names, seen, rest);
    }
    if tag == 4 {
        return go_class(alloc, names, seen, rest);
    }
    if tag == 5 {
        return go_abstract(seen, rest);
    }
    Err(Fault::Malformed)
}

/// The bytes behind a declaration in a table of so many names. What is seen on the way is kept.
#[tactic(auto, unfolding(crate::specs::Going::go_decl))]
pub fn go_decl<'a>(
    alloc: Global,
    names: u64,
    seen: &mut Seen,
    bytes: &'a [u8],
) -> Result<&'a [u8], Fault>
    ensures { Gives (λ rest. (seen.new, rest.now)) result (spec.go_decl names seen.old bytes.now) }
{
    let (_, rest) = fix_at(bytes).ok_or(Fault::Malformed)?;
    let (tag, rest) = byte_at(rest).ok_or(Fault::Malformed)?;
    go_tagged(alloc, names, seen, tag, rest)
}
