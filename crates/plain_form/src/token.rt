//! Tests of a token.
ghost use Rattle.std.specs.Prelude.{◌≡◌, IfOk};
ghost use Rattle.plain_form.specs.Form as spec;

use crate::form::Word;
use crate::word::is_con;
use hs_syntax::token::{PutSign, Token, TokenKind};
use mk_base::memory::NoMemory;
use std::alloc::Global;

/// Whether a token is a pragma.
pub fn is_pragma(kind: TokenKind) -> bool
    ensures { result ≡ spec.is_pragma kind }
{
    match kind {
        TokenKind::Pragma => true,
        _ => false,
    }
}

/// Whether a lexeme of this kind is the name of a module.
fn is_module_kind(kind: TokenKind) -> bool
    ensures { result ≡ spec.is_module_kind kind }
{
    match kind {
        TokenKind::ConId => true,
        TokenKind::QConId => true,
        _ => false,
    }
}

/// Whether a written lexeme has this text and isn't the name of a module.
fn is_written(text: &[u8], kind: TokenKind, written: &[u8]) -> bool
    ensures { result ≡ spec.is_written text.now kind written.now }
{
    !is_module_kind(kind) && written == text
}

/// Whether a token is this lexeme.
pub fn is_text(token: &Token, text: &[u8]) -> bool
    ensures { result ≡ spec.is_text text.now token.now }
{
    match token.put {
        None => is_written(text, token.kind, token.text.as_slice()),
        Some(_) => false,
    }
}

/// Whether a token is a name: a word of ASCII letters and digits that begins with a capital.
pub fn is_name(token: &Token) -> bool
    ensures { result ≡ spec.is_name token.now }
{
    match token.put {
        None => is_con(token.text.as_slice()),
        Some(_) => false,
    }
}

/// Whether a token is the name of a module.
pub fn is_module(token: &Token) -> bool
    ensures { result ≡ spec.is_module token.now }
{
    match token.put {
        None => is_module_kind(token.kind),
        Some(_) => false,
    }
}

/// Whether a token is the name of a module that may be imported: any but `Prim`.
pub fn is_import(token: &Token) -> bool
    ensures { result ≡ spec.is_import token.now }
{
    is_module(token) && token.text.as_slice() != b"Prim".as_slice()
}

/// Whether layout put a token that is an opening brace; None where the token is none.
pub fn opened(token: &Token) -> Option<bool>
    ensures { result ≡ spec.opened token.now.put token.now.kind token.now.text }
{
    match token.put {
        Some(PutSign::Open) => Some(true),
        Some(PutSign::Semicolon) => None,
        Some(PutSign::Close) => None,
        None => {
            if is_written(b"{", token.kind, token.text.as_slice()) {
                Some(false)
            } else {
                None
            }
        }
    }
}

/// Whether a token closes a brace that layout put, or one that was written.
pub fn is_closing(put: bool, token: &Token) -> bool
    ensures { result ≡ spec.is_closing put token.now.put token.now.kind token.now.text }
{
    match token.put {
        Some(PutSign::Open) => false,
        Some(PutSign::Semicolon) => false,
        Some(PutSign::Close) => put,
        None => !put && is_written(b"}", token.kind, token.text.as_slice()),
    }
}

/// Whether a token is a semicolon.
pub fn is_next(token: &Token) -> bool
    ensures { result ≡ spec.is_next token.now }
{
    match token.put {
        Some(PutSign::Open) => false,
        Some(PutSign::Semicolon) => true,
        Some(PutSign::Close) => false,
        None => is_written(b";", token.kind, token.text.as_slice()),
    }
}

/// A token as a word.
pub fn word_of(alloc: Global, token: &Token) -> Result<Word, NoMemory>
    ensures { IfOk result (λ w. w ≡ spec.word_of token.now) }
{
    let text = token.text.copy(alloc)?;
    Ok(Word { text, at: token.at })
}
