//! Numbers, characters and strings as the Report has them.
use hs_lex::cursor::start;
use hs_lex::lex::{LexErr, read};
use hs_syntax::token::TokenKind;
use std::alloc::Global;

// Sources, and how many bytes stand behind the lexeme at their front.
const ESCAPES: [(&[u8], usize); 9] = [
    (b"\"\\a\\b\\f\\n\\r\\t\\v\\\\\\\"\\'\\&\"", 0),
    (b"\"\\^A\\^Z\\^@\\^[\\^\\\\^]\\^^\\^_\"", 0),
    (
        b"\"\\NUL\\SOH\\STX\\ETX\\EOT\\ENQ\\ACK\\BEL\\BS\\HT\\LF\\VT\\FF\\CR\\SO\\SI\\DLE\"",
        0,
    ),
    (
        b"\"\\DC1\\DC2\\DC3\\DC4\\NAK\\SYN\\ETB\\CAN\\EM\\SUB\\ESC\\FS\\GS\\RS\\US\\SP\\DEL\"",
        0,
    ),
    (b"\"\\1114111\"", 0),
    (b"\"\\x10ffff\"", 0),
    (b"\"\\o4177777\"", 0),
    (b"\"\\0000000000001114111\"", 0),
    (b"\"\\x000000000000000000010FFFF\"", 0),
];

const STRINGS: [(&[u8], usize); 11] = [
    (b"\"\\SO\\&H\" x", 2),
    (b"\"\\SOH\"", 0),
    (b"\"a\\ \t\n\r\n \\b\" x", 2),
    (b"\"\\\"\"x", 1),
    (b"\"'\"", 0),
    (b"\"\xe3\x81\x82\"", 0),
    (b"\"\xc2\xa0\"", 0),
    (b"\"\" \"", 2),
    (b"\"\\12a\\x4g\\o78\"", 0),
    (b"\"{- -- \"", 0),
    (b"\"\\^\\\" x", 2),
];

const CHARACTERS: [(&[u8], usize); 19] = [
    (b"'a'", 0),
    (b"' '", 0),
    (b"'\"'", 0),
    (b"'\\''", 0),
    (b"'\\\"'", 0),
    (b"'\\\\'", 0),
    (b"'\\SOH'", 0),
    (b"'\\SO'", 0),
    (b"'\\x41'", 0),
    (b"'\\1114111'", 0),
    (b"'\\^A'", 0),
    (b"'\\DEL'", 0),
    (b"'_'", 0),
    (b"'('", 0),
    (b"'1'", 0),
    (b"'\xc3\xa9'", 0),
    (b"'\xce\xa3'", 0),
    (b"'\xe2\x86\x92'", 0),
    (b"'a' b", 2),
];

const INTEGERS: [(&[u8], usize); 18] = [
    (b"0", 0),
    (b"0x", 1),
    (b"0xG", 2),
    (b"0x1G", 1),
    (b"0xfF09", 0),
    (b"0X0a", 0),
    (b"0o17", 0),
    (b"0O7", 0),
    (b"0o8", 2),
    (b"0o78", 1),
    (b"1.", 1),
    (b"1e", 1),
    (b"0x1.5", 2),
    (b"007", 0),
    (b"1..2", 3),
    (b"12_3", 2),
    (b"0b1", 2),
    (b"1.e5", 3),
];

const FLOATS: [(&[u8], usize); 7] = [
    (b"1.5e+x", 3),
    (b"1.5e-10", 0),
    (b"1E5", 0),
    (b"1e5.2", 2),
    (b"1.5.2", 2),
    (b"0.0", 0),
    (b"1e+5 ", 1),
];

// Sources at whose front no such lexeme stands.
const NO_STRINGS: [&[u8]; 10] = [
    b"",
    b"\"",
    b"\"abc",
    b"\"abc\\\"",
    b"\"a\tb\"",
    b"\"a\nb\"",
    b"\"\x7f\"",
    b"\"\xc2\x85\"",
    b"\"\xff\"",
    b"\"\xed\xa0\x80\"",
];

const NO_ESCAPES: [&[u8]; 12] = [
    b"\"\\1114112\"",
    b"\"\\x110000\"",
    b"\"\\o4200000\"",
    b"\"\\q\"",
    b"\"\\\\\\\"",
    b"\"\\ x\"",
    b"\"\\^a\"",
    b"\"\\X41\"",
    b"\"\\x\"",
    b"\"\\o8\"",
    b"\"\\Nul\"",
    b"\"\\99999999999999999999\"",
];

const NO_CHARACTERS: [&[u8]; 19] = [
    b"",
    b"'",
    b"''",
    b"'''",
    b"'ab'",
    b"'\\&'",
    b"'\\SO\\&H'",
    b"'a",
    b"'\\'",
    b"'\t'",
    b"'\n'",
    b"'\xe3\x81\x82'",
    b"'\xc2\xa0'",
    b"'\xff'",
    b"'\\1114112'",
    b"'\\x110000'",
    b"'\\ \\'",
    b"'\\Soh'",
    b"a'",
];

const NO_NUMBERS: [&[u8]; 6] = [b"", b"x1", b".5", b"\xd9\xa1", b"e5", b"-1"];

/// Whether a lexeme of the kind stands at the front, with so many bytes behind it.
fn begins(alloc: Global, source: &[u8], kind: TokenKind, left: usize) -> bool {
    if source.len() > 1048576 {
        return false;
    }
    match read(alloc, source, start(source)) {
        Ok(Some((token, next))) => {
            token.kind == kind && source.len().saturating_sub(next.at) == left
        }
        _ => false,
    }
}

/// Whether no lexeme of the kind stands at the front.
fn lacks(alloc: Global, source: &[u8], kind: TokenKind) -> bool {
    if source.len() > 1048576 {
        return false;
    }
    match read(alloc, source, start(source)) {
        Ok(Some((token, _))) => token.kind != kind,
        Ok(None) => true,
        Err(LexErr::NoLexeme(_)) => true,
        Err(LexErr::NoMemory) => false,
    }
}

#[test]
fn reads_escapes(rt: HostRuntime) {
    for (source, left) in ESCAPES {
        assert!(rt;
            begins(rt.alloc(), source, TokenKind::Text, left),
            "{source:?}"
        );
    }
}

#[test]
fn reads_strings(rt: HostRuntime) {
    for (source, left) in STRINGS {
        assert!(rt;
            begins(rt.alloc(), source, TokenKind::Text, left),
            "{source:?}"
        );
    }
}

#[test]
fn reads_characters(rt: HostRuntime) {
    for (source, left) in CHARACTERS {
        assert!(rt;
            begins(rt.alloc(), source, TokenKind::Char, left),
            "{source:?}"
        );
    }
}

#[test]
fn refuses_strings(rt: HostRuntime) {
    for source in NO_STRINGS {
        assert!(rt; lacks(rt.alloc(), source, TokenKind::Text), "{source:?}");
    }
}

#[test]
fn refuses_escapes(rt: HostRuntime) {
    for source in NO_ESCAPES {
        assert!(rt; lacks(rt.alloc(), source, TokenKind::Text), "{source:?}");
    }
}

#[test]
fn refuses_characters(rt: HostRuntime) {
    for source in NO_CHARACTERS {
        assert!(rt; lacks(rt.alloc(), source, TokenKind::Char), "{source:?}");
    }
}

#[test]
fn refuses_numbers(rt: HostRuntime) {
    for source in NO_NUMBERS {
        assert!(rt; lacks(rt.alloc(), source, TokenKind::Number), "{source:?}");
        assert!(rt;
            lacks(rt.alloc(), source, TokenKind::Fraction),
            "{source:?}"
        );
    }
}

#[test]
fn reads_integers(rt: HostRuntime) {
    for (source, left) in INTEGERS {
        assert!(rt;
            begins(rt.alloc(), source, TokenKind::Number, left),
            "{source:?}"
        );
    }
}

#[test]
fn reads_floats(rt: HostRuntime) {
    for (source, left) in FLOATS {
        assert!(rt;
            begins(rt.alloc(), source, TokenKind::Fraction, left),
            "{source:?}"
        );
    }
}
