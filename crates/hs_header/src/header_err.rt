//! Why a source has no header.
use mk_base::place::Pos;
use mk_base::text::Text;
use std::str::from_utf8;
use thiserror::Error;

/// A name in print; nothing where it isn't UTF-8.
fn shown(name: &Text) -> &str {
    match from_utf8(name.as_slice()) {
        Ok(text) => text,
        Err(_) => "",
    }
}

/// Why a source has no header.
#[derive(Debug, Drop, Error)]
pub enum HeaderErr {
    /// Neither white space nor a comment nor a lexeme begins at this place, and all lexemes before it are the header's.
    #[error("no lexeme begins here")]
    Lexeme(Pos),
    /// With the lexeme at this place the lexemes of the header are no longer a prefix of its grammar; where the input ends
    /// too early, this is its last lexeme.
    #[error("this is no module header")]
    Grammar(Pos),
    /// A pragma names an extension that isn't known, at this place; its name in UTF-8.
    #[error("unknown extension {}", shown(.name))]
    Extension { at: Pos, name: Text },
    /// Memory ran out.
    #[error("out of memory")]
    NoMemory,
}
