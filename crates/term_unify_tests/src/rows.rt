//! How the table of terms is read: each sign of a word makes a term of those before it.
use mk_base::list::List;
use mk_base::memory::NoMemory;
use mk_base::name::{ModName, Name, Occ, Space, Unit};
use mk_base::text::Text;
use mk_base::ty::Ty;
use std::alloc::Global;
use std::process::Abort;
use term_unify::terms::{TermId, Terms};

/// The constructor of a letter.
fn name(alloc: Global, letter: u8) -> Result<Name, NoMemory> {
    let unit = Unit {
        text: Text::from_slice(alloc, b"main")?,
    };
    let module = ModName {
        text: Text::from_slice(alloc, b"M")?,
    };
    let text = Text::from_slice(alloc, &[letter])?;
    let occ = Occ {
        space: Space::Ty,
        text,
    };
    Ok(Name { unit, module, occ })
}

/// The variables 0 to 5, which are to be solved, and the rigid ones 6 and 7.
pub fn eight_variables(terms: &mut Terms) -> Result<(), NoMemory> {
    for _ in 0..6 {
        terms.fresh()?;
    }
    terms.rigid()?;
    terms.rigid()?;
    Ok(())
}

/// A term applied to another.
pub fn apply(rt: &impl Abort, terms: &mut Terms, f: TermId, a: TermId) -> Result<TermId, NoMemory> {
    assert!(rt; f.0 < terms.size() && a.0 < terms.size());
    terms.app(f, a)
}

/// The variable of a digit.
pub fn variable(rt: &impl Abort, terms: &Terms, digit: u8) -> TermId {
    let number = u64::from(digit.saturating_sub(b'0'));
    assert!(rt; number < terms.count());
    terms.variable(number)
}

/// The term that one more sign makes of the terms before it.
fn push_sign(
    rt: &impl Abort,
    alloc: Global,
    terms: &mut Terms,
    stack: &mut Vec<TermId>,
    sign: u8,
) -> Result<(), NoMemory> {
    if sign.is_ascii_digit() {
        stack.push(variable(rt, terms, sign))?;
    } else if sign.is_ascii_alphabetic() {
        stack.push(terms.con(&name(alloc, sign)?)?)?;
    } else {
        let a = stack.pop().expect(rt, "an argument");
        let f = stack.pop().expect(rt, "a function");
        stack.push(apply(rt, terms, f, a)?)?;
    }
    Ok(())
}

/// The term of a word: a digit is a variable, a letter a constructor, and `@` applies the last but one term to the last.
pub fn term(
    rt: &impl Abort,
    alloc: Global,
    terms: &mut Terms,
    word: &[u8],
) -> Result<TermId, NoMemory> {
    let mut stack = Vec::new(alloc);
    for sign in word {
        push_sign(rt, alloc, terms, &mut stack, *sign)?;
    }
    let last = stack.pop().expect(rt, "a term");
    assert!(rt; stack.is_empty() && last.0 < terms.size());
    Ok(last)
}

/// Puts the word of a type behind `out`.
pub fn put_type(out: &mut List<u8>, ty: &Ty) -> Result<(), NoMemory> {
    match ty {
        Ty::Var(number) => out.push_number(*number)?,
        Ty::Con(name) => out.extend(name.occ.text.as_slice())?,
        Ty::App(f, x) => {
            put_type(out, f.get())?;
            put_type(out, x.get())?;
            out.push(b'@')?;
        }
    }
    Ok(())
}
