//! Pairs of terms, solved by hand.
use crate::rows::{eight_variables, put_type, term};
use mk_base::list::List;
use mk_base::memory::NoMemory;
use std::alloc::Global;
use std::process::Abort;
use std::test::Fail;
use term_unify::terms::{TermId, Terms};

// A word is a term, a sign and another term or text:
// `=` makes both equal, `/` can't make them equal and changes nothing, `>` reads the first back as the text, `~` reads both
// back as the same, `&` has the first one's variables, by first place, and `:` holds the variable, where `!` doesn't.
const ROWS: &str = "
0/00@
00@/0
0/0a@
0/a0@
0/ab@0@c@
0=0 0>0
0=1 0~1
a=a a/b
a/aa@ ab@/a
0=a 0>a 0/b 0>a
0=6 0>6 0=6 0/7 0/a
6=6 6/7 6/a 6/ab@ 6/6a@ ab@/6
0=61@ 0>61@ 1=7 0>67@
01@=ab@ 0>a 1>b
01@=10@ 0~1 00@~11@
0a@/bc@ 0>0
01@2@/ab@1@1c@@1@ 0>0 1>1 2>2
0=1a@ 1=b 0>ba@
1=b 0=1a@ 0>ba@
0=1a@ 1=2a@ 2/0a@ 2>2 0>2a@a@
0=1a@ 1=2a@ 2=6 0>6a@a@
0=1a@ 2=3a@ 0=2 1~3 0~2
0=1a@ 2=bc@ 0/2 1>1 0>1a@
0=11@ 1=22@ 2=aa@ 0>aa@aa@@aa@aa@@@
0=11@ 1=22@ 2/0 2/1 2/30@ 3>3
01@=22@ 02@~12@
0=1 1=2 2=3 0=a 3>a 2/b
0=12@ 3=45@ 0=3 1=a 5=b 4>a 2>b
01@2@&012 20@1@2@&201 00@&0 a& aa@&
0=12@ 0&12 03@0@&123 6&6 06@&126
0=12@ 1=22@ 0&2 0:2 0!1 0!0 06@:6 06@!7 a!0
0=a 0!6 01@:1
";

/// The two parts before and behind the first byte that is no part of a term.
fn cut(word: &[u8]) -> (&[u8], u8, &[u8]) {
    match word
        .iter()
        .position(|byte| !byte.is_ascii_alphanumeric() && *byte != b'@')
    {
        Some(at) if at < word.len() => (&word[..at], word[at], &word[at + 1..]),
        _ => (word, b' ', &[]),
    }
}

/// Makes two terms equal.
fn unify(rt: &impl Abort, terms: &mut Terms, a: TermId, b: TermId) -> Result<bool, NoMemory> {
    assert!(rt; a.0 < terms.size() && b.0 < terms.size());
    terms.unify(a, b)
}

/// The word of a term's type.
fn read(rt: &impl Abort, alloc: Global, terms: &Terms, t: TermId) -> Result<List<u8>, NoMemory> {
    assert!(rt; t.0 < terms.size());
    let ty = terms.read_back(t)?.expect(rt, "a type");
    let mut text = List::new(alloc);
    put_type(&mut text, &ty)?;
    Ok(text)
}

/// The numbers of a term's variables.
fn numbers(
    rt: &impl Abort,
    alloc: Global,
    terms: &mut Terms,
    t: TermId,
) -> Result<List<u8>, NoMemory> {
    assert!(rt; t.0 < terms.size());
    let mut text = List::new(alloc);
    for number in terms.variables(t)?.as_slice() {
        text.push_number(*number)?;
    }
    Ok(text)
}

/// Whether a term holds the variable of a digit.
fn holds(rt: &impl Abort, terms: &mut Terms, t: TermId, text: &[u8]) -> Result<bool, NoMemory> {
    assert!(rt; t.0 < terms.size() && text.len() == 1);
    terms.holds(t, u64::from(text[0].saturating_sub(b'0')))
}

/// Checks what is read of a term.
fn check_text(
    rt: &impl Abort,
    alloc: Global,
    terms: &mut Terms,
    t: TermId,
    sign: u8,
    text: &[u8],
) -> Result<(), NoMemory> {
    if sign == b'>' {
        assert!(rt; read(rt, alloc, terms, t)?.as_slice() == text);
    } else if sign == b'&' {
        assert!(rt; numbers(rt, alloc, terms, t)?.as_slice() == text);
    } else {
        assert!(rt; holds(rt, terms, t, text)? == (sign == b':'));
    }
    Ok(())
}

/// Checks two terms against each other.
fn check_terms(
    rt: &impl Abort,
    alloc: Global,
    terms: &mut Terms,
    t: TermId,
    sign: u8,
    word: &[u8],
) -> Result<(), NoMemory> {
    let u = term(rt, alloc, terms, word)?;
    if sign == b'~' {
        let text = read(rt, alloc, terms, t)?;
        assert!(rt; text.as_slice() == read(rt, alloc, terms, u)?.as_slice());
    } else {
        assert!(rt; unify(rt, terms, t, u)? == (sign == b'='));
    }
    Ok(())
}

/// Checks a word.
fn check_word(
    rt: &impl Abort,
    alloc: Global,
    terms: &mut Terms,
    word: &[u8],
) -> Result<(), NoMemory> {
    let (left, sign, right) = cut(word);
    let t = term(rt, alloc, terms, left)?;
    if sign == b'=' || sign == b'/' || sign == b'~' {
        check_terms(rt, alloc, terms, t, sign, right)
    } else {
        check_text(rt, alloc, terms, t, sign, right)
    }
}

/// Checks the words of a line, one after another.
fn check_row(rt: &impl Abort, alloc: Global, row: &[u8]) -> Result<(), NoMemory> {
    let mut terms = Terms::new(alloc);
    eight_variables(&mut terms)?;
    for word in row.split(|byte| *byte == b' ') {
        if !word.is_empty() {
            check_word(rt, alloc, &mut terms, word)?;
        }
    }
    Ok(())
}

#[test]
fn pairs_are_solved(rt: HostRuntime) -> Result<(), Fail> {
    for row in ROWS.as_bytes().split(|byte| *byte == b'\n') {
        check_row(&rt, rt.alloc(), row)?;
    }
    Ok(())
}
