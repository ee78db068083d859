//! Tokens: the lexemes of a source, and the braces and semicolons that layout puts between them.
use mk_base::memory::NoMemory;
use mk_base::place::Pos;
use mk_base::plain::Plain;
use mk_base::text::Text;
use std::alloc::Global;

/// The kinds of lexemes (Haskell 2010 Report, section 2.2).
///
/// A kind that begins with Q is a qualified name. Word is a reserved word, WordOp a reserved operator, Special one of
/// ``( ) , ; [ ] ` { }``, Number an integer, and Fraction a number with a fraction or an exponent. Pragma is a pragma
/// that counts: one for LANGUAGE before the first other lexeme, or one for SOURCE behind `import`.
#[derive(Clone, Copy, Debug, PartialEq, Eq, PartialOrd, Ord, Hash)]
pub enum TokenKind {
    VarId,
    ConId,
    VarSym,
    ConSym,
    QVarId,
    QConId,
    QVarSym,
    QConSym,
    Word,
    WordOp,
    Special,
    Number,
    Fraction,
    Char,
    Text,
    Pragma,
}

/// A sign that layout puts: an opening brace, a semicolon or a closing brace (Haskell 2010 Report, section 10.3).
#[derive(Clone, Copy, Debug, PartialEq, Eq, PartialOrd, Ord, Hash)]
pub enum PutSign {
    Open,
    Semicolon,
    Close,
}

/// A token of a source.
#[derive(Debug, Drop)]
pub struct Token {
    /// The kind of lexeme; Special for a sign that layout put.
    pub kind: TokenKind,
    /// The lexeme as it is written, in UTF-8; empty for a sign that layout put.
    pub text: Text,
    /// The byte at which the lexeme begins, counted from 0.
    pub start: u32,
    /// The byte behind the lexeme, counted from 0.
    pub end: u32,
    /// The line and the column of its first character.
    pub at: Pos,
    /// The sign that it is, where layout put it; None for a lexeme.
    pub put: Option<PutSign>,
}

impl Plain for TokenKind {
    fn same(&self, other: &TokenKind) -> bool {
        *self == *other
    }

    fn copy(&self, _alloc: Global) -> Result<TokenKind, NoMemory> {
        Ok(*self)
    }
}

impl Plain for PutSign {
    fn same(&self, other: &PutSign) -> bool {
        *self == *other
    }

    fn copy(&self, _alloc: Global) -> Result<PutSign, NoMemory> {
        Ok(*self)
    }
}

impl Plain for Token {
    fn same(&self, other: &Token) -> bool {
        self.kind == other.kind
            && self.text == other.text
            && self.start == other.start
            && self.end == other.end
            && self.at == other.at
            && self.put.same(&other.put)
    }

    fn copy(&self, alloc: Global) -> Result<Token, NoMemory> {
        let text = self.text.copy(alloc)?;
        Ok(Token {
            kind: self.kind,
            text,
            start: self.start,
            end: self.end,
            at: self.at,
            put: self.put,
        })
    }
}
