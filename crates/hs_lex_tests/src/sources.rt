//! What no clause says: that sources of every kind lex with ample memory.
ghost use Rattle.std.specs.Prelude.{◌≤◌, length, IfSome};
ghost use Rattle.hs_lex.specs.Tokens.{IsReached};

use hs_lex::cursor::{Cursor, start};
use hs_lex::lex::{LexErr, lex, next_token, read};
use hs_syntax::token::TokenKind::*;
use hs_syntax::token::{Token, TokenKind};
use std::alloc::Global;

/// The kind of a token, its text, its line and its column.
type Row = (TokenKind, &'static [u8], u32, u32);

fn is_row(token: &Token, row: Row) -> bool {
    token.kind == row.0
        && token.text.as_slice() == row.1
        && token.at.line == row.2
        && token.at.col == row.3
        && token.put.is_none()
}

fn are_rows(tokens: &[Token], rows: &[Row]) -> bool {
    if tokens.len() != rows.len() {
        return false;
    }
    for i in 0..rows.len() {
        if i >= tokens.len() || !is_row(&tokens[i], rows[i]) {
            return false;
        }
    }
    true
}

fn lexes_as(alloc: Global, source: &[u8], rows: &[Row]) -> bool {
    if source.len() > 1048576 {
        return false;
    }
    match lex(alloc, source) {
        Ok(tokens) => are_rows(tokens.as_slice(), rows),
        Err(_) => false,
    }
}

fn fails_at(alloc: Global, source: &[u8], line: u32, col: u32) -> bool {
    if source.len() > 1048576 {
        return false;
    }
    match lex(alloc, source) {
        Err(LexErr::NoLexeme(at)) => at.line == line && at.col == col,
        _ => false,
    }
}

/// Names, qualified names and reserved words.
#[test]
fn names(rt: HostRuntime) {
    const ROWS: [(&[u8], &[Row]); 18] = [
        (b"x", &[(VarId, b"x", 1, 1)]),
        (b"_", &[(Word, b"_", 1, 1)]),
        (b"_x'1", &[(VarId, b"_x'1", 1, 1)]),
        (b"where", &[(Word, b"where", 1, 1)]),
        (b"wherex", &[(VarId, b"wherex", 1, 1)]),
        (b"Case", &[(ConId, b"Case", 1, 1)]),
        (b"A.B.c", &[(QVarId, b"A.B.c", 1, 1)]),
        (b"A.B", &[(QConId, b"A.B", 1, 1)]),
        (
            b"A.where",
            &[
                (ConId, b"A", 1, 1),
                (VarSym, b".", 1, 2),
                (Word, b"where", 1, 3),
            ],
        ),
        (b"A.wherex", &[(QVarId, b"A.wherex", 1, 1)]),
        (b"A.B.", &[(QConId, b"A.B", 1, 1), (VarSym, b".", 1, 4)]),
        (b"A.+", &[(QVarSym, b"A.+", 1, 1)]),
        (b"A.:+", &[(QConSym, b"A.:+", 1, 1)]),
        (b"A..b", &[(QVarSym, b"A..", 1, 1), (VarId, b"b", 1, 4)]),
        (b"A...", &[(ConId, b"A", 1, 1), (VarSym, b"...", 1, 2)]),
        (
            b"A.--x",
            &[
                (ConId, b"A", 1, 1),
                (VarSym, b".--", 1, 2),
                (VarId, b"x", 1, 5),
            ],
        ),
        (b"A.B.=", &[(QConId, b"A.B", 1, 1), (VarSym, b".=", 1, 4)]),
        (
            b"A.b.c",
            &[
                (QVarId, b"A.b", 1, 1),
                (VarSym, b".", 1, 4),
                (VarId, b"c", 1, 5),
            ],
        ),
    ];
    for (source, rows) in ROWS {
        assert!(rt; lexes_as(rt.alloc(), source, rows));
    }
}

const SIGNS: [(&[u8], &[Row]); 18] = [
    (
        b"= == =>",
        &[
            (WordOp, b"=", 1, 1),
            (VarSym, b"==", 1, 3),
            (WordOp, b"=>", 1, 6),
        ],
    ),
    (
        b": :: :+ :::",
        &[
            (WordOp, b":", 1, 1),
            (WordOp, b"::", 1, 3),
            (ConSym, b":+", 1, 6),
            (ConSym, b":::", 1, 9),
        ],
    ),
    (
        b".. ... .",
        &[
            (WordOp, b"..", 1, 1),
            (VarSym, b"...", 1, 4),
            (VarSym, b".", 1, 8),
        ],
    ),
    (
        b"\\x -> x",
        &[
            (WordOp, b"\\", 1, 1),
            (VarId, b"x", 1, 2),
            (WordOp, b"->", 1, 4),
            (VarId, b"x", 1, 7),
        ],
    ),
    (
        b"a <- b|c",
        &[
            (VarId, b"a", 1, 1),
            (WordOp, b"<-", 1, 3),
            (VarId, b"b", 1, 6),
            (WordOp, b"|", 1, 7),
            (VarId, b"c", 1, 8),
        ],
    ),
    (
        b"x@ ~y",
        &[
            (VarId, b"x", 1, 1),
            (WordOp, b"@", 1, 2),
            (WordOp, b"~", 1, 4),
            (VarId, b"y", 1, 5),
        ],
    ),
    (b"--|", &[(VarSym, b"--|", 1, 1)]),
    (
        b"a --> b",
        &[
            (VarId, b"a", 1, 1),
            (VarSym, b"-->", 1, 3),
            (VarId, b"b", 1, 7),
        ],
    ),
    (b"|--", &[(VarSym, b"|--", 1, 1)]),
    (b"- -", &[(VarSym, b"-", 1, 1), (VarSym, b"-", 1, 3)]),
    (
        b"(a,b)",
        &[
            (Special, b"(", 1, 1),
            (VarId, b"a", 1, 2),
            (Special, b",", 1, 3),
            (VarId, b"b", 1, 4),
            (Special, b")", 1, 5),
        ],
    ),
    (
        b"[];`{}",
        &[
            (Special, b"[", 1, 1),
            (Special, b"]", 1, 2),
            (Special, b";", 1, 3),
            (Special, b"`", 1, 4),
            (Special, b"{", 1, 5),
            (Special, b"}", 1, 6),
        ],
    ),
    (
        b"A.1",
        &[
            (ConId, b"A", 1, 1),
            (VarSym, b".", 1, 2),
            (Number, b"1", 1, 3),
        ],
    ),
    (
        b"\xe2\x88\x80x",
        &[(VarSym, b"\xe2\x88\x80", 1, 1), (VarId, b"x", 1, 2)],
    ),
    (b"\xe2\x86\x92", &[(VarSym, b"\xe2\x86\x92", 1, 1)]),
    (
        b"\xce\xbbx \xc3\x89a",
        &[(VarId, b"\xce\xbbx", 1, 1), (ConId, b"\xc3\x89a", 1, 4)],
    ),
    (b"\xc7\x85", &[(ConId, b"\xc7\x85", 1, 1)]),
    (
        b"a\xd9\xa3+\xc3\x97",
        &[(VarId, b"a\xd9\xa3", 1, 1), (VarSym, b"+\xc3\x97", 1, 3)],
    ),
];

/// Operators, reserved operators and special characters.
#[test]
fn signs(rt: HostRuntime) {
    for (source, rows) in SIGNS {
        assert!(rt; lexes_as(rt.alloc(), source, rows));
    }
}

/// White space, comments, lines and columns.
#[test]
fn comments_and_places(rt: HostRuntime) {
    const ROWS: [(&[u8], &[Row]); 18] = [
        (b"", &[]),
        (b" \n", &[]),
        (b"a -- b\nc", &[(VarId, b"a", 1, 1), (VarId, b"c", 2, 1)]),
        (b"a --\tb\r\nc", &[(VarId, b"a", 1, 1), (VarId, b"c", 2, 1)]),
        (
            b"a\rb\x0cc",
            &[
                (VarId, b"a", 1, 1),
                (VarId, b"b", 2, 1),
                (VarId, b"c", 3, 1),
            ],
        ),
        (b"\tx", &[(VarId, b"x", 1, 9)]),
        (b"a\tb", &[(VarId, b"a", 1, 1), (VarId, b"b", 1, 9)]),
        (
            b"12345678\tx",
            &[(Number, b"12345678", 1, 1), (VarId, b"x", 1, 17)],
        ),
        (b"{- {- -} -} x", &[(VarId, b"x", 1, 13)]),
        (b"{--}x", &[(VarId, b"x", 1, 5)]),
        (b"{-\n-} x", &[(VarId, b"x", 2, 4)]),
        (b"{-# INLINE f #-} x", &[(VarId, b"x", 1, 18)]),
        (b"--", &[]),
        (b"---x", &[]),
        (
            b"\xef\xbb\xbfx y",
            &[(VarId, b"x", 1, 1), (VarId, b"y", 1, 3)],
        ),
        (b"{-\xc2\x85-}x", &[(VarId, b"x", 1, 6)]),
        (
            b"\xc3\xa9 x",
            &[(VarId, b"\xc3\xa9", 1, 1), (VarId, b"x", 1, 3)],
        ),
        (b"\xc2\xa0x", &[(VarId, b"x", 1, 2)]),
    ];
    for (source, rows) in ROWS {
        assert!(rt; lexes_as(rt.alloc(), source, rows));
    }
}

const LITERALS: [(&[u8], &[Row]); 17] = [
    (b"12", &[(Number, b"12", 1, 1)]),
    (
        b"0x1F 0o17",
        &[(Number, b"0x1F", 1, 1), (Number, b"0o17", 1, 6)],
    ),
    (
        b"'a' '\\''",
        &[(Char, b"'a'", 1, 1), (Char, b"'\\''", 1, 5)],
    ),
    (b"f'x' 'x'", &[(VarId, b"f'x'", 1, 1), (Char, b"'x'", 1, 6)]),
    (b"1.5", &[(Fraction, b"1.5", 1, 1)]),
    (b"1e5", &[(Fraction, b"1e5", 1, 1)]),
    (
        b"1.5e-3x",
        &[(Fraction, b"1.5e-3", 1, 1), (VarId, b"x", 1, 7)],
    ),
    (
        b"1.e",
        &[
            (Number, b"1", 1, 1),
            (VarSym, b".", 1, 2),
            (VarId, b"e", 1, 3),
        ],
    ),
    (
        b"1..2",
        &[
            (Number, b"1", 1, 1),
            (WordOp, b"..", 1, 2),
            (Number, b"2", 1, 4),
        ],
    ),
    (b"1e", &[(Number, b"1", 1, 1), (VarId, b"e", 1, 2)]),
    (b"0x", &[(Number, b"0", 1, 1), (VarId, b"x", 1, 2)]),
    (
        b"1.5e+x",
        &[
            (Fraction, b"1.5", 1, 1),
            (VarId, b"e", 1, 4),
            (VarSym, b"+", 1, 5),
            (VarId, b"x", 1, 6),
        ],
    ),
    (b"\"\"", &[(Text, b"\"\"", 1, 1)]),
    (
        b"\"a\\\"b\" x",
        &[(Text, b"\"a\\\"b\"", 1, 1), (VarId, b"x", 1, 8)],
    ),
    (
        b"\"a\\\n \\b\"c",
        &[(Text, b"\"a\\\n \\b\"", 1, 1), (VarId, b"c", 2, 5)],
    ),
    (
        b"f\"-- {-\"",
        &[(VarId, b"f", 1, 1), (Text, b"\"-- {-\"", 1, 2)],
    ),
    (
        b"\"\xe3\x81\x82\"x",
        &[(Text, b"\"\xe3\x81\x82\"", 1, 1), (VarId, b"x", 1, 4)],
    ),
];

/// Numbers and strings.
#[test]
fn literals(rt: HostRuntime) {
    for (source, rows) in LITERALS {
        assert!(rt; lexes_as(rt.alloc(), source, rows));
    }
}

/// Pragmas for LANGUAGE.
#[test]
fn language_pragmas(rt: HostRuntime) {
    const ROWS: [(&[u8], &[Row]); 14] = [
        (
            b"{-# LANGUAGE A #-}",
            &[(Pragma, b"{-# LANGUAGE A #-}", 1, 1)],
        ),
        (
            b"{-#language A,B#-} x",
            &[(Pragma, b"{-#language A,B#-}", 1, 1), (VarId, b"x", 1, 20)],
        ),
        (
            b"{-# LANGUAGE\n A ,\tB #-}\nmodule",
            &[
                (Pragma, b"{-# LANGUAGE\n A ,\tB #-}", 1, 1),
                (Word, b"module", 3, 1),
            ],
        ),
        (b"x {-# LANGUAGE A #-}", &[(VarId, b"x", 1, 1)]),
        (b"{-# LANGUAGE #-}", &[]),
        (b"{-# LANGUAGE A B #-}", &[]),
        (b"{-# LANGUAGE A,, B #-}", &[]),
        (b"{-# LANGUAGE A, #-}", &[]),
        (b"{-# LANGUAGEA #-}", &[]),
        (b"{-# LANGUAGE {- c -} A #-}", &[]),
        (
            b"{-# LANGUAGE A #-} {-# Language where #-}",
            &[
                (Pragma, b"{-# LANGUAGE A #-}", 1, 1),
                (Pragma, b"{-# Language where #-}", 1, 20),
            ],
        ),
        (
            b"{- c -} {-# LANGUAGE A #-}",
            &[(Pragma, b"{-# LANGUAGE A #-}", 1, 9)],
        ),
        (
            b"{-# SOURCE #-} {-# LANGUAGE A #-}",
            &[(Pragma, b"{-# LANGUAGE A #-}", 1, 16)],
        ),
        (
            b"{-# LANGUAGE A #-} x {-# LANGUAGE B #-}",
            &[(Pragma, b"{-# LANGUAGE A #-}", 1, 1), (VarId, b"x", 1, 20)],
        ),
    ];
    for (source, rows) in ROWS {
        assert!(rt; lexes_as(rt.alloc(), source, rows));
    }
}

const SOURCE_PRAGMAS: [(&[u8], &[Row]); 10] = [
    (b"{-# SOURCE #-} x", &[(VarId, b"x", 1, 16)]),
    (
        b"import {-# SOURCE #-} A",
        &[
            (Word, b"import", 1, 1),
            (Pragma, b"{-# SOURCE #-}", 1, 8),
            (ConId, b"A", 1, 23),
        ],
    ),
    (
        b"import{-#source#-}A",
        &[
            (Word, b"import", 1, 1),
            (Pragma, b"{-#source#-}", 1, 7),
            (ConId, b"A", 1, 19),
        ],
    ),
    (
        b"import A {-# SOURCE #-}",
        &[(Word, b"import", 1, 1), (ConId, b"A", 1, 8)],
    ),
    (
        b"import {-# SOURCE #-}{-# SOURCE #-} A",
        &[
            (Word, b"import", 1, 1),
            (Pragma, b"{-# SOURCE #-}", 1, 8),
            (ConId, b"A", 1, 37),
        ],
    ),
    (
        b"import {- c -} {-# SOURCE #-} A",
        &[
            (Word, b"import", 1, 1),
            (Pragma, b"{-# SOURCE #-}", 1, 16),
            (ConId, b"A", 1, 31),
        ],
    ),
    (
        b"import qualified {-# SOURCE #-} A",
        &[
            (Word, b"import", 1, 1),
            (VarId, b"qualified", 1, 8),
            (ConId, b"A", 1, 33),
        ],
    ),
    (
        b"import {-# SOURCE x #-} A",
        &[(Word, b"import", 1, 1), (ConId, b"A", 1, 25)],
    ),
    (
        b"import {-# LANGUAGE A #-} A",
        &[(Word, b"import", 1, 1), (ConId, b"A", 1, 27)],
    ),
    (
        b"import\n{-# sOURCE\n#-}\nA",
        &[
            (Word, b"import", 1, 1),
            (Pragma, b"{-# sOURCE\n#-}", 2, 1),
            (ConId, b"A", 4, 1),
        ],
    ),
];

/// Pragmas for SOURCE.
#[test]
fn source_pragmas(rt: HostRuntime) {
    for (source, rows) in SOURCE_PRAGMAS {
        assert!(rt; lexes_as(rt.alloc(), source, rows));
    }
}

/// Where nothing begins.
#[test]
fn faults(rt: HostRuntime) {
    const ROWS: [(&[u8], u32, u32); 20] = [
        (b"x{- a", 1, 2),
        (b" '\\x110000'", 1, 2),
        (b"'\\SO\\&H'", 1, 1),
        (b"{-}", 1, 1),
        (b"a {- {- -} ", 1, 3),
        (b"-- \xff", 1, 1),
        (b"x \xff", 1, 3),
        (b"ab\n\xe3\x81", 2, 1),
        (b"x\xef\xbb\xbf", 1, 2),
        (b"{- \x01 -}", 1, 1),
        (b"-- \x0b\n", 1, 1),
        (b"\"ab", 1, 1),
        (b"\"\t\"", 1, 1),
        (b"\xd9\xa3", 1, 1),
        (b"x\xc2\xb9", 1, 2),
        (b"\xe3\x81\x82", 1, 1),
        (b"{- \xff -}", 1, 1),
        (b"ab \x01", 1, 4),
        (b"\"\xff\"", 1, 1),
        (b"\xef\xbb\xbf\x00", 1, 1),
    ];
    for (source, line, col) in ROWS {
        assert!(rt; fails_at(rt.alloc(), source, line, col));
    }
}

/// The cursor behind the lexeme that follows a cursor, where the lexeme is the row's.
fn read_row(alloc: Global, source: &[u8], cursor: Cursor, row: Row) -> Option<Cursor>
    requires size { length source.now ≤ 1048576 }
    requires reached { IsReached source.now cursor }
    ensures { IfSome result (IsReached source.now) }
{
    match read(alloc, source, cursor) {
        Ok(Some((token, next))) => {
            if is_row(&token, row) {
                Some(next)
            } else {
                None
            }
        }
        _ => None,
    }
}

fn is_at_end(alloc: Global, source: &[u8], cursor: Cursor) -> bool
    requires size { length source.now ≤ 1048576 }
    requires reached { IsReached source.now cursor }
{
    match read(alloc, source, cursor) {
        Ok(None) => true,
        _ => false,
    }
}

fn begins_with_row(alloc: Global, source: &[u8], row: Row) -> bool
    requires { length source.now ≤ 1048576 }
{
    let _first = start(source);
    match next_token(alloc, source, 0) {
        Ok(Some(token)) => is_row(&token, row),
        _ => false,
    }
}

/// One lexeme after another, behind a cursor.
#[test]
fn lexemes_one_by_one(rt: HostRuntime) {
    let alloc = rt.alloc();
    let source: &[u8] = b"-- a\nimport {- b -} {-# SOURCE #-} A -- c";
    assert!(rt; begins_with_row(alloc, source, (Word, b"import", 2, 1)));
    let Some(word) = read_row(alloc, source, start(source), (Word, b"import", 2, 1)) else {
        assert!(rt; false, "import");
        return;
    };
    let Some(pragma) = read_row(alloc, source, word, (Pragma, b"{-# SOURCE #-}", 2, 16)) else {
        assert!(rt; false, "pragma");
        return;
    };
    let Some(name) = read_row(alloc, source, pragma, (ConId, b"A", 2, 31)) else {
        assert!(rt; false, "name");
        return;
    };
    assert!(rt; is_at_end(alloc, source, name));
}
