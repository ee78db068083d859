//! Sources as tokens, with what they are, counted by hand.
//!
//! A row is a source's tokens and what is read of them, with a tilde between; a blank is between two tokens. A brace or
//! a semicolon with `+` behind it is one that layout put, a word that begins with `#` a pragma, and one that begins with
//! a capital a name, qualified where a dot is in it. What is read is the place that is told of what leaves the form, or
//! a bar and each data type with a semicolon.
use hs_syntax::token::{PutSign, Token, TokenKind};
use mk_base::list::List;
use mk_base::memory::NoMemory;
use mk_base::place::Pos;
use mk_base::text::Text;
use plain_form::form::{Reading, Word, form_is_its_spelling, read_form, words_rise_with_lexemes};
use std::alloc::Global;
use std::test::Fail;

const FORMS: &str = "
module A where {+ }+~|
module A where { }~|
module C where {+ import A ;+ import B ;+ data T = C ;+ data U = D A B }+~|T=C;U=D A B;
module C where { import B ; import A }~|
module B where { data T = C ;+ data T = C T9 }~|T=C;T=C T9;
module A where {+ import A ;+ import Z }+~|
module Data.Map where {+ import Data.List ;+ import Prim1 ;+ import Prim.A ;+ import A.Prim }+~|
module A where {+ ;+ }+~|
module A where { ; ; ; data T = C ; ; }~|T=C;
module A where {+ ;+ import A ;+ ; import B ;+ ;+ data T = C ;+ ;+ data U = D ;+ }+~|T=C;U=D;
#a #b module A where {+ }+~|
#a module #b A #c where #d {+ #e import #f B #g ;+ data T #h = C #i D }+ #j~|T=C D;";

const LEAVES: &str = "
Module A where {+ }+~1:1
#a where~1:1
{+ data T = C }+~1:1
module where {+ }+~1:8
module a where {+ }+~1:8
module A ( ) where {+ }+~1:10
module A.B ( T , C ) where {+ }+~1:12
module A where }+~1:16
module A where import B~1:16
module A where {+ }~1:19
module A where { }+~1:18
module A where {+ }+ }+~1:22
module A where {+ import B }+ x~1:31
module A where {+ f = C }+~1:19
module A where {+ import B ;+ type T = C }+~1:31
module B where {+ data T = C ;+ import A }+~1:33
module B where {+ data T = C ;+ ;+ import A }+~1:36";

const IMPORTS: &str = "
module A where {+ import qualified B }+~1:19
module A where {+ import B as C }+~1:19
module A where {+ import B hiding ( x ) }+~1:19
module A where {+ import B ( ) }+~1:19
module A where {+ import Prim }+~1:19
module A where {+ import b }+~1:19
module A where {+ import ;+ import B }+~1:19
module A where {+ import }+~1:19
module A where {+ import B import C }+~1:19
module A where {+ import B }~1:19
module A where {+ import B ;+ import Prim ( x ) }+~1:31
module A where {+ ;+ import B ;+ ;+ import C ;+ import D as E }+~1:49
#a module A where {+ #b import #c qualified B }+~1:25";

const DATAS: &str = "
module A where {+ data t = C }+~1:24
module A where {+ data T_ = C }+~1:24
module A where {+ data B.T = C }+~1:24
module A where {+ data T }+~1:26
module A where {+ data T a = C }+~1:26
module A where {+ data T = c }+~1:28
module A where {+ data T = C f }+~1:30
module A where {+ data T = C B.U }+~1:30
module A where {+ data T = C | D }+~1:30
module A where {+ data T = C deriving Eq }+~1:30
module A where {+ data T = C }~1:30
module A where {+ import B ;+ data T = C #a data }+~1:45";

const ENDS: &str = "
~1:1
#a~1:1
module~1:1
#a module~1:4
module A where #a~1:10
module A where {+~1:16
module B where {+ import~1:19
module B where {+ import A~1:26
module B where {+ import A ;+~1:28
module A where {+ data~1:19
module A where {+ data T~1:24
module A where {+ data T =~1:26
module A where {+ data T = C~1:28
module A where {+ data T = C F~1:30
module A where {+ data T = C ;+ #a #b~1:30";

fn sign_of(word: &[u8]) -> Option<PutSign> {
    match word {
        b"{+" => Some(PutSign::Open),
        b";+" => Some(PutSign::Semicolon),
        b"}+" => Some(PutSign::Close),
        _ => None,
    }
}

fn kind_of(word: &[u8]) -> TokenKind {
    match word {
        [b'#', ..] => TokenKind::Pragma,
        [b'A'..=b'Z', rest @ ..] => {
            if rest.iter().any(|byte| *byte == b'.') {
                TokenKind::QConId
            } else {
                TokenKind::ConId
            }
        }
        _ => TokenKind::Special,
    }
}

/// The token that a word of a row stands for, in the first line at this column.
fn token_at(alloc: Global, word: &[u8], col: u32) -> Result<Token, NoMemory> {
    let sign = sign_of(word);
    let text = if sign.is_some() {
        Text::new(alloc)
    } else {
        Text::from_slice(alloc, word)?
    };
    Ok(Token {
        kind: kind_of(word),
        text,
        start: col,
        end: col,
        at: Pos { line: 1, col },
        put: sign,
    })
}

/// The column behind these bytes and a blank.
fn column_behind(word: &[u8], col: u32) -> u32 {
    let mut behind = col.saturating_add(1);
    for _ in word {
        behind = behind.saturating_add(1);
    }
    behind
}

fn tokens_of(alloc: Global, text: &[u8]) -> Result<List<Token>, NoMemory> {
    let mut tokens = List::new(alloc);
    let mut col = 1;
    for word in text.split(|byte| *byte == b' ') {
        if !word.is_empty() {
            tokens.push(token_at(alloc, word, col)?)?;
        }
        col = column_behind(word, col);
    }
    Ok(tokens)
}

fn show_words(out: &mut List<u8>, before: u8, words: &[Word]) -> Result<(), NoMemory> {
    for word in words {
        out.push(before)?;
        out.extend(word.text.as_slice())?;
    }
    Ok(())
}

fn shown(alloc: Global, reading: &Reading) -> Result<List<u8>, NoMemory> {
    let mut out = List::new(alloc);
    match reading {
        Reading::Leaves(at) => {
            out.push_number(u64::from(at.line))?;
            out.push(b':')?;
            out.push_number(u64::from(at.col))?;
        }
        Reading::Form(written) => {
            out.push(b'|')?;
            for data in written.datas.as_slice() {
                out.extend(data.ty.text.as_slice())?;
                out.push(b'=')?;
                out.extend(data.con.text.as_slice())?;
                show_words(&mut out, b' ', data.fields.as_slice())?;
                out.push(b';')?;
            }
        }
    }
    Ok(out)
}

/// The two parts before and behind the first tilde; the second is empty where there is none.
fn cut_at(text: &[u8]) -> (&[u8], &[u8]) {
    match text.iter().position(|byte| *byte == b'~') {
        Some(at) if at < text.len() => (&text[..at], &text[at + 1..]),
        _ => (text, &[]),
    }
}

/// Whether the row's tokens are read as it says.
fn is_read(alloc: Global, row: &[u8]) -> Result<bool, NoMemory> {
    let (tokens, expected) = cut_at(row);
    let tokens = tokens_of(alloc, tokens)?;
    let reading = read_form(alloc, tokens.as_slice())?;
    let shown = shown(alloc, &reading)?;
    Ok(shown.as_slice() == expected)
}

#[test]
fn modules_of_the_form(rt: HostRuntime) -> Result<(), Fail> {
    for row in FORMS.as_bytes().split(|byte| *byte == b'\n') {
        if !row.is_empty() {
            assert!(rt; is_read(rt.alloc(), row)?, "{row:?}");
        }
    }
    form_is_its_spelling();
    words_rise_with_lexemes();
    Ok(())
}

#[test]
fn tokens_that_leave_the_form(rt: HostRuntime) -> Result<(), Fail> {
    for rows in [LEAVES, IMPORTS, DATAS] {
        for row in rows.as_bytes().split(|byte| *byte == b'\n') {
            if !row.is_empty() {
                assert!(rt; is_read(rt.alloc(), row)?, "{row:?}");
            }
        }
    }
    Ok(())
}

#[test]
fn tokens_that_end_too_early(rt: HostRuntime) -> Result<(), Fail> {
    for row in ENDS.as_bytes().split(|byte| *byte == b'\n') {
        if !row.is_empty() {
            assert!(rt; is_read(rt.alloc(), row)?, "{row:?}");
        }
    }
    Ok(())
}
