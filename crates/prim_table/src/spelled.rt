//! Types, methods and names from short spellings.
#![tactic(auto, using(crate::proofs::Steps::read_end, crate::proofs::Steps::read_nothing, crate::proofs::Steps::read_step))]

ghost use Rattle.std.specs.Prelude.{◌≡◌, IfOk};
ghost use Rattle.prim_table.specs.Spelled as spec;

use face_model::scheme::Constraint;
use mk_base::memory::NoMemory;
use mk_base::name::{ModName, Name, Occ, Space, Unit};
use mk_base::text::Text;
use mk_base::ty::Ty;
use sqlite_items::Boxed;
use std::alloc::Global;

/// A name of the unit `prim` and its module `Prim`.
pub fn own(alloc: Global, space: Space, text: &[u8]) -> Result<Name, NoMemory>
    ensures { IfOk result (λ n. n ≡ spec.own space text.now) }
{
    let unit = Text::from_slice(alloc, b"prim")?;
    let module = Text::from_slice(alloc, b"Prim")?;
    let occ = Text::from_slice(alloc, text)?;
    Ok(Name {
        unit: Unit { text: unit },
        module: ModName { text: module },
        occ: Occ { space, text: occ },
    })
}

fn con(alloc: Global, text: &[u8]) -> Result<Ty, NoMemory>
    ensures { IfOk result (λ t. t ≡ spec.con text.now) }
{
    Ok(Ty::Con(own(alloc, Space::Ty, text)?))
}

fn applied(alloc: Global, f: Ty, a: Ty) -> Result<Ty, NoMemory>
    ensures { IfOk result (λ t. t ≡ spec.applied f a) }
{
    let f = Boxed::new(alloc, f)?;
    let a = Boxed::new(alloc, a)?;
    Ok(Ty::App(f, a))
}

fn with_one(alloc: Global, text: &[u8], a: Ty) -> Result<Ty, NoMemory>
    ensures { IfOk result (λ t. t ≡ spec.applied (spec.con text.now) a) }
{
    let f = con(alloc, text)?;
    applied(alloc, f, a)
}

fn with_two(alloc: Global, text: &[u8], a: Ty, b: Ty) -> Result<Ty, NoMemory>
    ensures { IfOk result (λ t. t ≡ spec.applied (spec.applied (spec.con text.now) a) b) }
{
    let f = with_one(alloc, text, a)?;
    applied(alloc, f, b)
}

/// The name of the type that a letter spells.
fn letter(c: u8) -> &'static [u8]
    ensures { result.now ≡ spec.letter c }
{
    if c == b'B' {
        b"Bool"
    } else if c == b'C' {
        b"Char"
    } else if c == b'D' {
        b"Double"
    } else if c == b'F' {
        b"Float"
    } else if c == b'I' {
        b"Int"
    } else if c == b'O' {
        b"Ordering"
    } else if c == b'R' {
        b"Ratio"
    } else if c == b'W' {
        b"IO"
    } else if c == b'Z' {
        b"Integer"
    } else {
        b"()"
    }
}

/// A type in prefix form, and what is behind it.
#[cycle(reading)]
fn read<'a>(alloc: Global, left: usize, text: &'a [u8]) -> Result<(Ty, &'a [u8]), NoMemory>
    ensures { IfOk result (λ r. (r.0, r.1.now) ≡ spec.read left text.now) }
{
    if left == 0 {
        return Ok((con(alloc, b"()")?, text));
    }
    match text.split_first() {
        None => Ok((con(alloc, b"()")?, text)),
        Some((c, rest)) => read_as(alloc, left - 1, *c, rest),
    }
}

/// A type behind its first sign.
#[cycle(reading)]
fn read_as<'a>(
    alloc: Global,
    left: usize,
    c: u8,
    rest: &'a [u8],
) -> Result<(Ty, &'a [u8]), NoMemory>
    ensures { IfOk result (λ r. (r.0, r.1.now) ≡ spec.read_as (spec.read left) c rest.now) }
{
    if c == b'>' {
        let (a, rest) = read(alloc, left, rest)?;
        let (b, rest) = read(alloc, left, rest)?;
        Ok((with_two(alloc, b"->", a, b)?, rest))
    } else if c == b'[' {
        let (a, rest) = read(alloc, left, rest)?;
        Ok((with_one(alloc, b"[]", a)?, rest))
    } else if c == b',' {
        let (a, rest) = read(alloc, left, rest)?;
        let (b, rest) = read(alloc, left, rest)?;
        Ok((with_two(alloc, b"(,)", a, b)?, rest))
    } else if c == b'@' {
        let (a, rest) = read(alloc, left, rest)?;
        let (b, rest) = read(alloc, left, rest)?;
        Ok((applied(alloc, a, b)?, rest))
    } else if c < b':' {
        Ok((Ty::Var(u64::from(c).saturating_sub(48)), rest))
    } else {
        Ok((con(alloc, letter(c))?, rest))
    }
}

/// The type that a text spells.
pub fn spelled(alloc: Global, text: &[u8]) -> Result<Ty, NoMemory>
    ensures { IfOk result (λ t. t ≡ spec.spelled text.now) }
{
    let (ty, _) = read(alloc, text.len(), text)?;
    Ok(ty)
}

/// A class on a variable.
pub fn on(alloc: Global, class: &[u8], variable: u64) -> Result<Constraint, NoMemory>
    ensures { IfOk result (λ c. c ≡ spec.on class.now variable) }
{
    Ok(Constraint {
        class: own(alloc, Space::Ty, class)?,
        ty: Ty::Var(variable),
    })
}
