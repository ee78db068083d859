//! Carries out commands on terms, a line each, for comparisons with other unifiers and for times. Terms are numbered from 0 in the order in
//! which they are made: `v` makes a variable, `r` a rigid one, `c X` a constructor, `a F X` an application; `u A B` makes
//! two equal and prints t or f, `p T` prints what is read back of one, `h T` how many variables it holds, and `n` begins
//! anew.
#![tactic(auto)]

use mk_base::list::List;
use mk_base::memory::NoMemory;
use mk_base::name::{ModName, Name, Occ, Space, Unit};
use mk_base::text::Text;
use mk_base::ty::Ty;
use std::alloc::Global;
use std::io;
use term_unify::terms::{TermId, Terms};

/// The number that some digits spell.
fn number(digits: &[u8]) -> u64 {
    let mut value: u64 = 0;
    for digit in digits {
        value = value
            .saturating_mul(10)
            .saturating_add(u64::from(digit.saturating_sub(b'0')));
    }
    value
}

/// The two parts before and behind the first space.
fn cut(bytes: &[u8]) -> (&[u8], &[u8]) {
    match bytes.iter().position(|byte| *byte == b' ') {
        Some(at) if at < bytes.len() => (&bytes[..at], &bytes[at + 1..]),
        _ => (bytes, &[]),
    }
}

/// The constructor of a letter.
fn name(alloc: Global, letter: &[u8]) -> Result<Name, NoMemory> {
    let unit = Unit {
        text: Text::from_slice(alloc, b"main")?,
    };
    let module = ModName {
        text: Text::from_slice(alloc, b"M")?,
    };
    let occ = Occ {
        space: Space::Ty,
        text: Text::from_slice(alloc, letter)?,
    };
    Ok(Name { unit, module, occ })
}

/// Puts a type behind `out`, an application by `@`.
fn put_type(out: &mut List<u8>, ty: &Ty) -> Result<(), NoMemory> {
    match ty {
        Ty::Var(number) => {
            out.push_number(*number)?;
            out.push(b' ')?;
        }
        Ty::Con(name) => {
            out.extend(name.occ.text.as_slice())?;
            out.push(b' ')?;
        }
        Ty::App(f, x) => {
            out.extend(b"@ ")?;
            put_type(out, f.get())?;
            put_type(out, x.get())?;
        }
    }
    Ok(())
}

/// Reads a term back.
fn put_term(terms: &Terms, out: &mut List<u8>, t: u64) -> Result<(), NoMemory> {
    if t >= terms.size() {
        return Ok(());
    }
    match terms.read_back(TermId(t))? {
        Some(ty) => put_type(out, &ty)?,
        None => out.push(b'-')?,
    }
    out.push(b'\n')
}

/// Makes two terms equal.
fn put_unify(terms: &mut Terms, out: &mut List<u8>, a: u64, b: u64) -> Result<(), NoMemory> {
    if a >= terms.size() || b >= terms.size() {
        return Ok(());
    }
    let answer = terms.unify(TermId(a), TermId(b))?;
    out.push(if answer { b't' } else { b'f' })?;
    out.push(b'\n')
}

/// How many variables a term holds.
fn put_count(terms: &mut Terms, out: &mut List<u8>, t: u64) -> Result<(), NoMemory> {
    if t >= terms.size() {
        return Ok(());
    }
    let found = terms.variables(TermId(t))?;
    out.push_number(found.len() as u64)?;
    out.push(b'\n')
}

/// Makes an application.
fn apply(terms: &mut Terms, f: u64, x: u64) -> Result<(), NoMemory> {
    if f < terms.size() && x < terms.size() {
        terms.app(TermId(f), TermId(x))?;
    }
    Ok(())
}

/// Carries out a command that makes a term.
fn make(alloc: Global, terms: &mut Terms, word: u8, rest: &[u8]) -> Result<(), NoMemory> {
    if word == b'v' {
        terms.fresh()?;
    } else if word == b'r' {
        terms.rigid()?;
    } else if word == b'c' {
        terms.con(&name(alloc, rest)?)?;
    } else if word == b'a' {
        let (f, x) = cut(rest);
        apply(terms, number(f), number(x))?;
    }
    Ok(())
}

/// Carries out a command.
fn command(
    alloc: Global,
    terms: &mut Terms,
    out: &mut List<u8>,
    line: &[u8],
) -> Result<(), NoMemory> {
    let (words, rest) = cut(line);
    let word = if words.is_empty() { b' ' } else { words[0] };
    let (a, b) = cut(rest);
    if word == b'n' {
        *terms = Terms::new(alloc);
        Ok(())
    } else if word == b'u' {
        put_unify(terms, out, number(a), number(b))
    } else if word == b'p' {
        put_term(terms, out, number(a))
    } else if word == b'h' {
        put_count(terms, out, number(a))
    } else {
        make(alloc, terms, word, rest)
    }
}

fn main(rt: HostRuntime) -> io::Result<()> {
    let mut terms = Terms::new(rt.alloc());
    let mut out = List::new(rt.alloc());
    for line in rt.lines(rt.alloc()) {
        let text = line?;
        if command(rt.alloc(), &mut terms, &mut out, text.as_bytes()).is_err() {
            break;
        }
    }
    for row in out.as_slice().split(|byte| *byte == b'\n') {
        if let Ok(text) = str::from_utf8(row) {
            println!(rt; "{text}")?;
        }
    }
    Ok(())
}
