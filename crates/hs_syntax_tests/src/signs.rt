//! What each lexeme is to the grammar.
use hs_syntax::sign::{Sign, sign_of};
use hs_syntax::token::{PutSign, Token, TokenKind};
use mk_base::place::Pos;
use mk_base::text::Text;
use std::alloc::AllocGlobal;
use std::process::Abort;

/// The place of a sign among all.
fn place_of(sign: Sign) -> u8 {
    match sign {
        Sign::Var => 0,
        Sign::QualifiedVar => 1,
        Sign::Con => 2,
        Sign::QualifiedCon => 3,
        Sign::Minus => 4,
        Sign::Bang => 5,
        Sign::Star => 6,
        Sign::VarSym => 7,
        Sign::QualifiedVarSym => 8,
        Sign::ConSym => 9,
        Sign::QualifiedConSym => 10,
        Sign::Number => 11,
        Sign::Quoted => 12,
        Sign::Pragma => 13,
        Sign::OpenBrace(_) => 14,
        Sign::CloseBrace(_) => 15,
        Sign::Semicolon => 16,
        Sign::OpenParen => 17,
        Sign::CloseParen => 18,
        Sign::OpenSquare => 19,
        Sign::CloseSquare => 20,
        Sign::Comma => 21,
        Sign::Backquote => 22,
        Sign::Case => 23,
        Sign::Class => 24,
        Sign::Data => 25,
        Sign::Default => 26,
        Sign::Deriving => 27,
        Sign::Do => 28,
        Sign::Else => 29,
        Sign::Foreign => 30,
        Sign::If => 31,
        Sign::Import => 32,
        Sign::In => 33,
        Sign::Infix => 34,
        Sign::Infixl => 35,
        Sign::Infixr => 36,
        Sign::Instance => 37,
        Sign::Let => 38,
        Sign::Module => 39,
        Sign::Newtype => 40,
        Sign::Of => 41,
        Sign::Then => 42,
        Sign::TypeWord => 43,
        Sign::Where => 44,
        Sign::Wild => 45,
        Sign::Dots => 46,
        Sign::Colon => 47,
        Sign::Typed => 48,
        Sign::Equals => 49,
        Sign::Lambda => 50,
        Sign::Bar => 51,
        Sign::Back => 52,
        Sign::Arrow => 53,
        Sign::As => 54,
        Sign::Tilde => 55,
        Sign::Implies => 56,
        Sign::Other => 57,
    }
}

/// That a lexeme of a kind is the sign at this place.
fn check(rt: &(impl Abort + AllocGlobal), kind: TokenKind, text: &[u8], place: u8) {
    let text = Text::from_slice(rt.alloc(), text).expect(rt, "memory");
    let token = Token {
        kind,
        text,
        start: 0,
        end: 0,
        at: Pos { line: 1, col: 1 },
        put: None,
    };
    assert_eq!(rt; place_of(sign_of(&token)), place);
}

/// That what layout puts is the sign at this place, and is known to be put.
fn check_put(rt: &(impl Abort + AllocGlobal), put: PutSign, place: u8) {
    let token = Token {
        kind: TokenKind::Special,
        text: Text::new(rt.alloc()),
        start: 0,
        end: 0,
        at: Pos { line: 1, col: 1 },
        put: Some(put),
    };
    let sign = sign_of(&token);
    assert_eq!(rt; place_of(sign), place);
    match sign {
        Sign::OpenBrace(put) => assert!(rt; put),
        Sign::CloseBrace(put) => assert!(rt; put),
        _ => {}
    }
}

/// The reserved words of the Report, and a word that is none.
#[test]
fn reserved_words_are_told_apart(rt: HostRuntime) {
    check(&rt, TokenKind::Word, b"case", 23);
    check(&rt, TokenKind::Word, b"class", 24);
    check(&rt, TokenKind::Word, b"data", 25);
    check(&rt, TokenKind::Word, b"default", 26);
    check(&rt, TokenKind::Word, b"deriving", 27);
    check(&rt, TokenKind::Word, b"do", 28);
    check(&rt, TokenKind::Word, b"else", 29);
    check(&rt, TokenKind::Word, b"foreign", 30);
    check(&rt, TokenKind::Word, b"if", 31);
    check(&rt, TokenKind::Word, b"import", 32);
    check(&rt, TokenKind::Word, b"in", 33);
    check(&rt, TokenKind::Word, b"infix", 34);
    check(&rt, TokenKind::Word, b"infixl", 35);
    check(&rt, TokenKind::Word, b"infixr", 36);
    check(&rt, TokenKind::Word, b"instance", 37);
    check(&rt, TokenKind::Word, b"let", 38);
    check(&rt, TokenKind::Word, b"module", 39);
    check(&rt, TokenKind::Word, b"newtype", 40);
    check(&rt, TokenKind::Word, b"of", 41);
    check(&rt, TokenKind::Word, b"then", 42);
    check(&rt, TokenKind::Word, b"type", 43);
    check(&rt, TokenKind::Word, b"where", 44);
    check(&rt, TokenKind::Word, b"_", 45);
    check(&rt, TokenKind::Word, b"iff", 57);
}

/// The reserved operators of the Report, and one that is none.
#[test]
fn reserved_operators_are_told_apart(rt: HostRuntime) {
    check(&rt, TokenKind::WordOp, b"..", 46);
    check(&rt, TokenKind::WordOp, b":", 47);
    check(&rt, TokenKind::WordOp, b"::", 48);
    check(&rt, TokenKind::WordOp, b"=", 49);
    check(&rt, TokenKind::WordOp, b"\\", 50);
    check(&rt, TokenKind::WordOp, b"|", 51);
    check(&rt, TokenKind::WordOp, b"<-", 52);
    check(&rt, TokenKind::WordOp, b"->", 53);
    check(&rt, TokenKind::WordOp, b"@", 54);
    check(&rt, TokenKind::WordOp, b"~", 55);
    check(&rt, TokenKind::WordOp, b"=>", 56);
    check(&rt, TokenKind::WordOp, b"-", 57);
}

/// The special characters.
#[test]
fn special_characters_are_told_apart(rt: HostRuntime) {
    check(&rt, TokenKind::Special, b"(", 17);
    check(&rt, TokenKind::Special, b")", 18);
    check(&rt, TokenKind::Special, b",", 21);
    check(&rt, TokenKind::Special, b";", 16);
    check(&rt, TokenKind::Special, b"[", 19);
    check(&rt, TokenKind::Special, b"]", 20);
    check(&rt, TokenKind::Special, b"`", 22);
    check(&rt, TokenKind::Special, b"{", 14);
    check(&rt, TokenKind::Special, b"}", 15);
}

/// Operators of variables.
#[test]
fn operators_that_mean_more_are_told_apart(rt: HostRuntime) {
    check(&rt, TokenKind::VarSym, b"-", 4);
    check(&rt, TokenKind::VarSym, b"!", 5);
    check(&rt, TokenKind::VarSym, b"*", 6);
    check(&rt, TokenKind::VarSym, b"--|", 7);
    check(&rt, TokenKind::VarSym, b"+", 7);
    check(&rt, TokenKind::VarSym, b"**", 7);
}

/// Names and literals by their kinds, and what layout puts.
#[test]
fn kinds_are_told_apart(rt: HostRuntime) {
    check(&rt, TokenKind::VarId, b"x", 0);
    check(&rt, TokenKind::ConId, b"x", 2);
    check(&rt, TokenKind::ConSym, b"x", 9);
    check(&rt, TokenKind::QVarId, b"x", 1);
    check(&rt, TokenKind::QConId, b"x", 3);
    check(&rt, TokenKind::QVarSym, b"x", 8);
    check(&rt, TokenKind::QConSym, b"x", 10);
    check(&rt, TokenKind::Number, b"x", 11);
    check(&rt, TokenKind::Fraction, b"x", 11);
    check(&rt, TokenKind::Char, b"x", 12);
    check(&rt, TokenKind::Text, b"x", 12);
    check(&rt, TokenKind::Pragma, b"x", 13);
    check_put(&rt, PutSign::Open, 14);
    check_put(&rt, PutSign::Semicolon, 16);
    check_put(&rt, PutSign::Close, 15);
}
