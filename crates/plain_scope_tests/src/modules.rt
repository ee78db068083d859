//! Tests of the check of a module.
ghost use Rattle.std.specs.Prelude.{◌<◌, IfOk};
ghost use Rattle.std.specs.List.{AllByRecursion};

use mk_base::diag::Diag;
use mk_base::list::List;
use mk_base::memory::NoMemory;
use mk_base::place::Pos;
use mk_base::text::Text;
use plain_form::form::{DataItem, Word, Written};
use plain_scope::scope::{Checked, Content, DataDecl, check, diagnostics_are_ordered};
use std::alloc::Global;
use std::test::Fail;

/// The column behind a part of a row and the byte that ends it.
fn behind(col: u32, part: &[u8]) -> u32 {
    col.saturating_add(part.len().min(999) as u32)
        .saturating_add(1)
}

/// The words of a part of a row, which begins at this place.
fn words_of(alloc: Global, part: &[u8], start: Pos) -> Result<List<Word>, NoMemory> {
    let mut words = List::new(alloc);
    let mut at = start;
    for word in part.split(|b| *b == b' ') {
        if !word.is_empty() {
            let text = Text::from_slice(alloc, word)?;
            words.push(Word { text, at })?;
        }
        at.col = behind(at.col, word);
    }
    Ok(words)
}

fn same_word(alloc: Global, word: &Word) -> Result<Word, NoMemory> {
    let text = word.text.copy(alloc)?;
    Ok(Word { text, at: word.at })
}

/// The data type `TYPE = CONSTRUCTOR FIELD ..`, where it is one.
fn item_of(alloc: Global, words: &[Word]) -> Result<Option<DataItem>, NoMemory> {
    if words.len() < 3 {
        return Ok(None);
    }
    let ty = same_word(alloc, &words[0])?;
    let con = same_word(alloc, &words[2])?;
    let mut fields = List::new(alloc);
    for word in &words[3..] {
        fields.push(same_word(alloc, word)?)?;
    }
    Ok(Some(DataItem { ty, con, fields }))
}

/// The data types that a row begins with: the first on line 1, each on the next line, at the columns of the row.
fn datas_of(alloc: Global, part: &[u8]) -> Result<List<DataItem>, NoMemory> {
    let mut datas = List::new(alloc);
    let mut at = Pos { line: 1, col: 1 };
    for item in part.split(|b| *b == b';') {
        let words = words_of(alloc, item, at)?;
        if let Some(data) = item_of(alloc, words.as_slice())? {
            datas.push(data)?;
        }
        at.line = at.line.saturating_add(1);
        at.col = behind(at.col, item);
    }
    Ok(datas)
}

/// The places of contents that are there, each a digit.
fn places_of(alloc: Global, digits: &[u8], count: usize) -> Result<List<usize>, NoMemory>
    ensures { IfOk result (λ places. AllByRecursion (λ i. i < count) places) }
{
    let mut places = List::new(alloc);
    for digit in digits {
        let place = (*digit as usize).saturating_sub(48);
        if place < count {
            places.push(place)?;
        }
    }
    Ok(places)
}

/// A content with these data types: a type and its constructor from each pair of words.
fn content_of(alloc: Global, module: &[u8], words: &[u8]) -> Result<Content, NoMemory> {
    let words = words_of(alloc, words, Pos { line: 1, col: 1 })?;
    let mut datas = List::new(alloc);
    for pair in words.as_slice().chunks(2) {
        if pair.len() == 2 {
            datas.push(DataDecl {
                ty: pair[0].text.copy(alloc)?,
                con: pair[1].text.copy(alloc)?,
                fields: List::new(alloc),
            })?;
        }
    }
    Ok(Content {
        module: Text::from_slice(alloc, module)?,
        datas,
    })
}

/// The contents that the tests import.
fn contents(alloc: Global) -> Result<List<Content>, NoMemory> {
    let mut contents = List::new(alloc);
    contents.push(content_of(alloc, b"A", b"T MkT Int Int")?)?;
    contents.push(content_of(alloc, b"B", b"T B Word MkWord Word Again")?)?;
    contents.push(content_of(alloc, b"", b"Empty MkEmpty")?)?;
    Ok(contents)
}

fn print_diags(out: &mut List<u8>, diags: &[Diag]) -> Result<(), NoMemory> {
    for diag in diags {
        out.push_number(u64::from(diag.at.line))?;
        out.push(b':')?;
        out.push_number(u64::from(diag.at.col))?;
        out.extend(b" E")?;
        out.push_number(u64::from(diag.code))?;
        out.push(b' ')?;
        out.extend(diag.text.as_slice())?;
        out.push(b';')?;
    }
    Ok(())
}

fn print_decl(out: &mut List<u8>, decl: &DataDecl) -> Result<(), NoMemory> {
    out.extend(decl.ty.as_slice())?;
    out.extend(b" = ")?;
    out.extend(decl.con.as_slice())?;
    for name in decl.fields.as_slice() {
        out.push(b' ')?;
        out.extend(name.unit.text.as_slice())?;
        out.push(b':')?;
        out.extend(name.module.text.as_slice())?;
        out.push(b'.')?;
        out.extend(name.occ.text.as_slice())?;
    }
    out.push(b';')
}

fn print_content(out: &mut List<u8>, content: &Content) -> Result<(), NoMemory> {
    for decl in content.datas.as_slice() {
        print_decl(out, decl)?;
    }
    Ok(())
}

/// What the check says of module `M`: the diagnostics, or the sound module's data types.
fn report(alloc: Global, datas: &[u8], digits: &[u8]) -> Result<List<u8>, NoMemory> {
    let contents = contents(alloc)?;
    let contents = contents.as_slice();
    let places = places_of(alloc, digits, contents.len())?;
    let datas = datas_of(alloc, datas)?;
    let written = Written { datas };
    let mut out = List::new(alloc);
    match check(alloc, b"main", b"M", &written, contents, places.as_slice())? {
        Checked::Wrong(diags) => print_diags(&mut out, diags.as_slice())?,
        Checked::Sound(content) => print_content(&mut out, &content)?,
    }
    Ok(out)
}

fn part(row: &[u8], number: usize) -> &[u8] {
    row.split(|b| *b == b'|').nth(number).unwrap_or(b"")
}

// The data types, the places of the contents that are imported, and what the check says.
const ROWS: &[u8] = b"||
T = C||T = C;
T = C T U;U = D||T = C main:M.T main:M.U;U = D;
U = D T Int|0|U = D main:A.T main:A.Int;
T = C Lost||1:7 E21 Lost is not in scope;
T  =  C   Lost||1:11 E21 Lost is not in scope;
Type = Con Int Lost Int Gone|0|1:16 E21 Lost is not in scope;1:25 E21 Gone is not in scope;
U = D Word T Int|01|1:12 E22 T is ambiguous;
U = D Word Int|01|U = D main:B.Word main:A.Int;
U = D T|00|U = D main:A.T;
U = D T|001|1:7 E22 T is ambiguous;
T = C;U = D T|0|2:13 E22 T is ambiguous;
T = C;U = D Int|0|T = C;U = D main:A.Int;
Int = C;Int = D;Int = E||2:9 E23 Int is defined twice;3:17 E23 Int is defined twice;
T = Con;U = Con;Long = Con||2:13 E23 Con is defined twice;3:24 E23 Con is defined twice;
T = C;T = D;U = E T||2:7 E23 T is defined twice;
T = T T||T = T main:M.T;
A = B;B = A||A = B;B = A;
U = MkT;V = C MkT|0|2:15 E21 MkT is not in scope;
U = D Word|1|U = D main:B.Word;
U = D Word MkWord|1|1:12 E21 MkWord is not in scope;
U = D Empty|2|U = D main:.Empty;
U = D T Lost;U = D T Lost|01|1:7 E22 T is ambiguous;1:9 E21 Lost is not in scope;2:14 E23 U is defined twice;2:18 E23 D is defined twice;2:20 E22 T is ambiguous;2:22 E21 Lost is not in scope;
T = U;U = D U T D||2:17 E21 D is not in scope;";

#[test]
fn modules_are_checked(rt: HostRuntime) -> Result<(), Fail> {
    assert_eq!(rt; ROWS.split(|b| *b == b'\n').count(), 24);
    for row in ROWS.split(|b| *b == b'\n') {
        let got = report(rt.alloc(), part(row, 0), part(row, 1))?;
        assert_eq!(rt; got.as_slice(), part(row, 2));
    }
    diagnostics_are_ordered();
    Ok(())
}
