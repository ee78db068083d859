//! What a lexeme is to layout.
ghost use Rattle.std.specs.Prelude.{◌≡◌};
ghost use Rattle.hs_layout.specs.Roles.{word_role, other_word_role, operator_role, special_role, role_of, is_branch};

use hs_syntax::token::{Token, TokenKind};

/// What a lexeme is to layout.
///
/// Fixity is `infix`, `infixl` or `infixr`; Bar, Equals, Arrow, Lambda and Typed are the reserved operators
/// `|`, `=`, `->`, `\` and `::`; Variable and Operator are identifiers of variables and symbol operators, also qualified,
/// and the reserved operator `:`, which is one too.
#[derive(Clone, Copy, PartialEq, Eq)]
pub enum Role {
    Module,
    Let,
    Where,
    Do,
    Of,
    Case,
    If,
    Then,
    Else,
    In,
    Fixity,
    OpenParen,
    CloseParen,
    OpenBracket,
    CloseBracket,
    OpenBrace,
    CloseBrace,
    Comma,
    Semicolon,
    Bar,
    Equals,
    Arrow,
    Lambda,
    Typed,
    Variable,
    Operator,
    Other,
}

/// The role of a reserved word.
fn word_role(text: &[u8]) -> Role
    ensures { result ≡ word_role text.now }
{
    if text == b"let".as_slice() {
        Role::Let
    } else if text == b"where".as_slice() {
        Role::Where
    } else if text == b"do".as_slice() {
        Role::Do
    } else if text == b"of".as_slice() {
        Role::Of
    } else if text == b"case".as_slice() {
        Role::Case
    } else if text == b"if".as_slice() {
        Role::If
    } else if text == b"then".as_slice() {
        Role::Then
    } else if text == b"else".as_slice() {
        Role::Else
    } else if text == b"in".as_slice() {
        Role::In
    } else {
        other_word_role(text)
    }
}

/// The role of a reserved word that opens no block and is none of an expression.
fn other_word_role(text: &[u8]) -> Role
    ensures { result ≡ other_word_role text.now }
{
    if text == b"module".as_slice() {
        Role::Module
    } else if text == b"infix".as_slice() {
        Role::Fixity
    } else if text == b"infixl".as_slice() {
        Role::Fixity
    } else if text == b"infixr".as_slice() {
        Role::Fixity
    } else {
        Role::Other
    }
}

/// The role of a reserved operator.
fn operator_role(text: &[u8]) -> Role
    ensures { result ≡ operator_role text.now }
{
    match text {
        b"|" => Role::Bar,
        b"=" => Role::Equals,
        b"->" => Role::Arrow,
        b"\\" => Role::Lambda,
        b"::" => Role::Typed,
        b":" => Role::Operator,
        _ => Role::Other,
    }
}

/// The role of a special character.
fn special_role(text: &[u8]) -> Role
    ensures { result ≡ special_role text.now }
{
    match text {
        b"(" => Role::OpenParen,
        b")" => Role::CloseParen,
        b"[" => Role::OpenBracket,
        b"]" => Role::CloseBracket,
        b"{" => Role::OpenBrace,
        b"}" => Role::CloseBrace,
        b"," => Role::Comma,
        b";" => Role::Semicolon,
        _ => Role::Other,
    }
}

/// What a lexeme is to layout, by its kind and its text.
pub fn role_of(token: &Token) -> Role
    ensures { result ≡ role_of token.now }
{
    match token.kind {
        TokenKind::Word => word_role(token.text.as_slice()),
        TokenKind::WordOp => operator_role(token.text.as_slice()),
        TokenKind::Special => special_role(token.text.as_slice()),
        TokenKind::VarId => Role::Variable,
        TokenKind::QVarId => Role::Variable,
        TokenKind::VarSym => Role::Operator,
        TokenKind::ConSym => Role::Operator,
        TokenKind::QVarSym => Role::Operator,
        TokenKind::QConSym => Role::Operator,
        _ => Role::Other,
    }
}

/// Whether a role is `then` or `else`.
pub fn is_branch(role: Role) -> bool
    ensures { result ≡ is_branch role }
{
    match role {
        Role::Then | Role::Else => true,
        _ => false,
    }
}
