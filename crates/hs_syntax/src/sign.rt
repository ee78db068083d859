//! What a token is to the grammar, and the first token of some.
ghost use Rattle.std.specs.Prelude.{◌≡◌, [], ◌∷◌, MatchOption};
ghost use Rattle.hs_syntax.specs.Signs as spec;

use crate::token::{PutSign, Token, TokenKind};

/// What a token is to the grammar: each reserved word, reserved operator and bracket by itself, names and literals by
/// their sort (Haskell 2010 Report, section 2.2).
#[derive(Clone, Copy)]
pub enum Sign {
    /// A variable without qualifier; `as`, `qualified` and `hiding` among them.
    Var,
    QualifiedVar,
    Con,
    QualifiedCon,
    /// `-`
    Minus,
    /// `!`
    Bang,
    /// `*`
    Star,
    /// Any other operator of a variable without qualifier.
    VarSym,
    QualifiedVarSym,
    /// An operator of a constructor without qualifier; `:` is a sign of its own.
    ConSym,
    QualifiedConSym,
    Number,
    /// A character or a string.
    Quoted,
    Pragma,
    /// An opening brace, and whether layout put it.
    OpenBrace(bool),
    /// A closing brace, and whether layout put it.
    CloseBrace(bool),
    /// A semicolon, put or written.
    Semicolon,
    OpenParen,
    CloseParen,
    OpenSquare,
    CloseSquare,
    Comma,
    Backquote,
    Case,
    Class,
    Data,
    Default,
    Deriving,
    Do,
    Else,
    Foreign,
    If,
    Import,
    In,
    Infix,
    Infixl,
    Infixr,
    Instance,
    Let,
    Module,
    Newtype,
    Of,
    Then,
    TypeWord,
    Where,
    /// `_`
    Wild,
    /// `..`
    Dots,
    /// `:`
    Colon,
    /// `::`
    Typed,
    /// `=`
    Equals,
    /// `\`
    Lambda,
    /// `|`
    Bar,
    /// `<-`
    Back,
    /// `->`
    Arrow,
    /// `@`
    As,
    /// `~`
    Tilde,
    /// `=>`
    Implies,
    /// What the lexer gives for no source.
    Other,
}

/// What a token is to the grammar.
#[tactic(auto, unfolding(crate::specs::Signs::sign_of))]
pub fn sign_of(token: &Token) -> Sign
    ensures { result ≡ spec.sign_of token.now }
{
    match token.put {
        Some(PutSign::Open) => Sign::OpenBrace(true),
        Some(PutSign::Semicolon) => Sign::Semicolon,
        Some(PutSign::Close) => Sign::CloseBrace(true),
        None => written(token.kind, token.text.as_slice()),
    }
}

/// What a written lexeme is to the grammar.
fn written(kind: TokenKind, text: &[u8]) -> Sign
    ensures { result ≡ spec.written kind text.now }
{
    match kind {
        TokenKind::VarId => Sign::Var,
        TokenKind::ConId => Sign::Con,
        TokenKind::VarSym => operator(text),
        TokenKind::ConSym => Sign::ConSym,
        TokenKind::QVarId => Sign::QualifiedVar,
        TokenKind::QConId => Sign::QualifiedCon,
        TokenKind::QVarSym => Sign::QualifiedVarSym,
        TokenKind::QConSym => Sign::QualifiedConSym,
        TokenKind::Word => reserved_word(text),
        TokenKind::WordOp => reserved_operator(text),
        TokenKind::Special => special(text),
        TokenKind::Number => Sign::Number,
        TokenKind::Fraction => Sign::Number,
        TokenKind::Char => Sign::Quoted,
        TokenKind::Text => Sign::Quoted,
        TokenKind::Pragma => Sign::Pragma,
    }
}

fn operator(text: &[u8]) -> Sign
    ensures { result ≡ spec.operator text.now }
{
    if text == b"-".as_slice() {
        Sign::Minus
    } else if text == b"!".as_slice() {
        Sign::Bang
    } else if text == b"*".as_slice() {
        Sign::Star
    } else {
        Sign::VarSym
    }
}

fn special(text: &[u8]) -> Sign
    ensures { result ≡ spec.special text.now }
{
    if text == b"(".as_slice() {
        Sign::OpenParen
    } else if text == b")".as_slice() {
        Sign::CloseParen
    } else if text == b",".as_slice() {
        Sign::Comma
    } else if text == b";".as_slice() {
        Sign::Semicolon
    } else if text == b"[".as_slice() {
        Sign::OpenSquare
    } else if text == b"]".as_slice() {
        Sign::CloseSquare
    } else if text == b"`".as_slice() {
        Sign::Backquote
    } else if text == b"{".as_slice() {
        Sign::OpenBrace(false)
    } else if text == b"}".as_slice() {
        Sign::CloseBrace(false)
    } else {
        Sign::Other
    }
}

fn reserved_operator(text: &[u8]) -> Sign
    ensures { result ≡ spec.reserved_operator text.now }
{
    if text == b"=".as_slice() {
        Sign::Equals
    } else if text == b"->".as_slice() {
        Sign::Arrow
    } else if text == b"::".as_slice() {
        Sign::Typed
    } else if text == b"|".as_slice() {
        Sign::Bar
    } else if text == b"<-".as_slice() {
        Sign::Back
    } else if text == b"\\".as_slice() {
        Sign::Lambda
    } else if text == b":".as_slice() {
        Sign::Colon
    } else if text == b"..".as_slice() {
        Sign::Dots
    } else if text == b"@".as_slice() {
        Sign::As
    } else if text == b"~".as_slice() {
        Sign::Tilde
    } else if text == b"=>".as_slice() {
        Sign::Implies
    } else {
        Sign::Other
    }
}

fn reserved_word(text: &[u8]) -> Sign
    ensures { result ≡ spec.reserved_word text.now }
{
    let size = text.len();
    if size < 4 {
        short_word(text)
    } else if size < 6 {
        middle_word(text)
    } else {
        long_word(text)
    }
}

/// The reserved words of one to three letters.
fn short_word(text: &[u8]) -> Sign
    ensures { result ≡ spec.short_word text.now }
{
    if text == b"do".as_slice() {
        Sign::Do
    } else if text == b"if".as_slice() {
        Sign::If
    } else if text == b"in".as_slice() {
        Sign::In
    } else if text == b"of".as_slice() {
        Sign::Of
    } else if text == b"let".as_slice() {
        Sign::Let
    } else if text == b"_".as_slice() {
        Sign::Wild
    } else {
        Sign::Other
    }
}

/// The reserved words of four and five letters.
fn middle_word(text: &[u8]) -> Sign
    ensures { result ≡ spec.middle_word text.now }
{
    if text == b"case".as_slice() {
        Sign::Case
    } else if text == b"data".as_slice() {
        Sign::Data
    } else if text == b"else".as_slice() {
        Sign::Else
    } else if text == b"then".as_slice() {
        Sign::Then
    } else if text == b"type".as_slice() {
        Sign::TypeWord
    } else if text == b"where".as_slice() {
        Sign::Where
    } else if text == b"class".as_slice() {
        Sign::Class
    } else if text == b"infix".as_slice() {
        Sign::Infix
    } else {
        Sign::Other
    }
}

/// The reserved words of six letters and more.
fn long_word(text: &[u8]) -> Sign
    ensures { result ≡ spec.long_word text.now }
{
    if text == b"import".as_slice() {
        Sign::Import
    } else if text == b"module".as_slice() {
        Sign::Module
    } else if text == b"instance".as_slice() {
        Sign::Instance
    } else if text == b"infixl".as_slice() {
        Sign::Infixl
    } else if text == b"infixr".as_slice() {
        Sign::Infixr
    } else if text == b"deriving".as_slice() {
        Sign::Deriving
    } else if text == b"newtype".as_slice() {
        Sign::Newtype
    } else if text == b"default".as_slice() {
        Sign::Default
    } else if text == b"foreign".as_slice() {
        Sign::Foreign
    } else {
        Sign::Other
    }
}

/// The first token of some, what it is, and the tokens behind it.
#[derive(Drop)]
pub struct First<'a> {
    pub token: &'a Token,
    pub sign: Sign,
    pub rest: &'a [Token],
}

/// The first token; None where there is none.
pub fn first_of(tokens: &[Token]) -> Option<First<'_>>
    ensures { MatchOption result (tokens.now ≡ []) (λ f. (tokens.now ≡ f.token.now ∷ f.rest.now) × (f.sign ≡ spec.sign_of f.token.now)) }
{
    match tokens {
        [] => None,
        [token, rest @ ..] => Some(First {
            token,
            sign: sign_of(token),
            rest,
        }),
    }
}
