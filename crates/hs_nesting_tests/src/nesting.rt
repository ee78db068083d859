//! Where nesting passes 500, and where it doesn't.
use hs_lex::lex::lex;
use hs_nesting::nesting::nesting;
use hs_syntax::token::{PutSign, Token, TokenKind};
use mk_base::memory::NoMemory;
use mk_base::place::Pos;
use mk_base::text::Text;
use std::alloc::Global;

/// A source of one line: what stands first, a part, how many times that stands, and what stands last. Then the column
/// at which nesting passes 500, if it does.
type Row = (
    &'static [u8],
    &'static [u8],
    usize,
    &'static [u8],
    Option<u32>,
);

fn source_of(alloc: Global, row: Row) -> Result<Vec<u8>, NoMemory> {
    let mut source = Vec::new(alloc);
    source.extend_from_slice(row.0)?;
    for _ in 0..row.2 {
        source.extend_from_slice(row.1)?;
    }
    source.extend_from_slice(row.3)?;
    Ok(source)
}

fn is_row(alloc: Global, row: Row) -> bool {
    let Ok(source) = source_of(alloc, row) else {
        return false;
    };
    if source.len() > 1048576 {
        return false;
    }
    match lex(alloc, &source) {
        Ok(tokens) => is_over_at(nesting(tokens.as_slice()), row.4),
        Err(_) => false,
    }
}

fn is_over_at(found: Option<Pos>, col: Option<u32>) -> bool {
    match (found, col) {
        (Some(at), Some(col)) => at.line == 1 && at.col == col,
        (None, None) => true,
        _ => false,
    }
}

fn are_rows(alloc: Global, rows: &[Row]) -> bool {
    for row in rows {
        if !is_row(alloc, *row) {
            return false;
        }
    }
    true
}

/// Each open bracket counts 1, and a closing one closes the innermost level, whatever its sort.
#[test]
fn brackets(rt: HostRuntime) {
    const ROWS: [Row; 12] = [
        (b"", b"(", 500, b"", None),
        (b"", b"(", 501, b"", Some(501)),
        (b"", b"[", 500, b"] x", None),
        (b"", b"[", 501, b"", Some(501)),
        (b"", b"{ ", 501, b"", Some(1001)),
        (b"", b"()", 600, b"", None),
        (b"", b"(]", 600, b"", None),
        (b"", b"[}", 600, b"", None),
        (b")]} ", b"(", 500, b"", None),
        (b")]} ", b"(", 501, b"", Some(505)),
        (b"", b"(", 500, b") ( ) [ [", Some(509)),
        (b"", b"(x,y)", 600, b"", None),
    ];
    assert!(rt; are_rows(rt.alloc(), &ROWS));
}

/// Each word and each operator counts 1 at its level.
#[test]
fn words_and_operators(rt: HostRuntime) {
    const ROWS: [Row; 19] = [
        (b"", b"\\ ", 501, b"", Some(1001)),
        (b"", b"let ", 501, b"", Some(2001)),
        (b"", b"if ", 501, b"", Some(1501)),
        (b"", b"case ", 501, b"", Some(2501)),
        (b"", b"do ", 501, b"", Some(1501)),
        (b"", b"~ ", 501, b"", Some(1001)),
        (b"", b"@ ", 501, b"", Some(1001)),
        (b"", b"-> ", 501, b"", Some(1501)),
        (b"", b"a + ", 500, b"a", None),
        (b"", b"a + ", 501, b"a", Some(2003)),
        (b"", b"- ", 501, b"", Some(1001)),
        (b"", b"! ", 501, b"", Some(1001)),
        (b"", b"* ", 501, b"", Some(1001)),
        (b"", b"A.+ ", 501, b"", Some(2001)),
        (b"", b": ", 501, b"", Some(1001)),
        (b"", b":+ ", 501, b"", Some(1501)),
        (b"", b"A.:+ ", 501, b"", Some(2501)),
        (b"", b"`x` ", 500, b"y", None),
        (b"", b"`x` ", 501, b"y", Some(2001)),
    ];
    assert!(rt; are_rows(rt.alloc(), &ROWS));
}

/// A separator lets its own level count anew, and no other one.
#[test]
fn separators(rt: HostRuntime) {
    const ROWS: [Row; 13] = [
        (b"", b"+ ", 500, b", + +", None),
        (b"", b"+ ", 500, b"; + +", None),
        (b"", b"+ ", 500, b"| + +", None),
        (b"", b"+ ", 500, b"= +", Some(1003)),
        (b"", b"+ ", 500, b"()", Some(1001)),
        (b"", b"+ ", 499, b"() + +", Some(1004)),
        (b"", b"+ ", 498, b"( + ) + + +", Some(1007)),
        (b"+ ( ", b"+ ", 498, b"+", Some(1001)),
        (b"+ ( ", b"+ ", 498, b", + +", None),
        (b"", b"+(, ", 250, b"x", None),
        (b"", b"+(, ", 251, b"x", Some(1001)),
        (b"", b"(+), ", 600, b"", None),
        (
            b"",
            b":: = <- => .. in of then else where x 1 'c' ",
            600,
            b"",
            None,
        ),
    ];
    assert!(rt; are_rows(rt.alloc(), &ROWS));
}

fn put(alloc: Global, sign: PutSign, col: u32) -> Token {
    Token {
        kind: TokenKind::Special,
        text: Text::new(alloc),
        start: 0,
        end: 0,
        at: Pos { line: 1, col },
        put: Some(sign),
    }
}

fn put_braces(alloc: Global, count: u32) -> Result<Vec<Token>, NoMemory> {
    let mut tokens = Vec::new(alloc);
    for col in 0..count {
        tokens.push(put(alloc, PutSign::Open, col))?;
        tokens.push(put(alloc, PutSign::Semicolon, col))?;
    }
    Ok(tokens)
}

/// A brace that layout puts counts like a written one.
#[test]
fn put_braces_count(rt: HostRuntime) {
    let alloc = rt.alloc();
    match (put_braces(alloc, 500), put_braces(alloc, 501)) {
        (Ok(within), Ok(over)) => {
            assert!(rt; is_over_at(nesting(&within), None));
            assert!(rt; is_over_at(nesting(&over), Some(500)));
        }
        _ => assert!(rt; false),
    }
}
