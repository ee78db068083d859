//! Headers as tokens, with what is read of them, counted by hand.
//!
//! A row is the tokens and what is read of them, with a tilde between; a blank is between two tokens. A brace or a
//! semicolon with `+` behind it is one that layout put, and `%` is the pragma for SOURCE. What is read is where it ends
//! (`=` and the column of the token behind the header, `=` alone at the end of the input), and the header: its name
//! with its column, the exports and each import. Behind `@` stands a tree's column, behind `:` that of its name, where
//! it is another one. Where nothing is read it is `!` and the column of the token that leaves the grammar, or `!` alone
//! where the input ends too early.
use hs_header::header::{Stop, parse_header};
use hs_header::law::header_is_told;
use hs_syntax::header::{ExportItem, Header, IitemTree, ImportItem, SubTree, Subs};
use hs_syntax::name_ref::NameRef;
use hs_syntax::token::{PutSign, Token, TokenKind};
use mk_base::list::List;
use mk_base::memory::NoMemory;
use mk_base::place::Pos;
use mk_base::text::Text;
use std::alloc::Global;
use std::test::Fail;

const HEADERS: &str = "
{+ }+~=4 Main@1(main@1)
{+ x }+~=4 Main@1(main@1)
{ import A } x~=12 Main@1(main@1)import@3 A@10
{+ import A ; import B }+~=24 Main@1(main@1)import@4 A@11;import@15 B@22
module A where {+~= A@8
module A.B where {+ ; ;+ import C ;+ ; f }+~=40 A.B@8;import@26 C@33
module A ( ) where { }~=22 A@8()
module A ( , ) where { }~=24 A@8()
module A ( f , ) where { ; }~=28 A@8(f@12)
module A ( B.f , ( + ) , ( B.+ ) ) where {+ f~=45 A@8(B.f@12,+@18:20,B.+@26:28)
module A ( T , B.U ( .. ) , V ( ) ) where {+ f~=46 A@8(T@12,B.U@16(..),V@29())
module A ( T ( C , f , ( + ) , ( :+ ) ) ) where {+ f~=52 A@8(T@12(C@16,f@20,+@24:26,:+@32:34))
module A ( module B , module C.D , ) where {+ }+~=47 A@8(module B@12:19,module C.D@23:30)
module A ( as , hiding , qualified ) where {+ }+~=47 A@8(as@12,hiding@17,qualified@26)";

const IMPORTS: &str = "
{+ import % qualified A.B as C.D }+~=34 Main@1(main@1)import@4 source qualified A.B@23 as C.D@30
{+ import % A ;+ import qualified B~= Main@1(main@1)import@4 source A@13;import@18 qualified B@35
{+ import A ( ) ; import B ( , ) ; }+~=36 Main@1(main@1)import@4 A@11();import@19 B@26()
{+ import A hiding ( ) ; import B as C~= Main@1(main@1)import@4 A@11 hiding();import@26 B@33 as C@38
{+ import A ( hiding , as , )~= Main@1(main@1)import@4 A@11(hiding@15,as@24)
{+ import A as B ( ( + ) , T ( x , ) )~!36
{ import qualified A as B hiding ( x , T ( .. ) , U ( C , ( :+ ) , f ) ) ; f~=76 Main@1(main@1)import@3 qualified A@20 as B@25 hiding(x@36,T@40(..),U@51(C@55,:+@59:61,f@68))
{+ import A ( ( + ) , T ) ;+ x }+~=30 Main@1(main@1)import@4 A@11(+@15:17,T@23)";

const LEAVES: &str = "
x~!1
module a where~!8
module A x~!10
module A ( f , , ) where~!16
module A ( f g ) where~!14
module A ( , f ) where~!14
module A ( ( :+ ) ) where~!14
module A ( T ( .. , ) )~!19
module A ( T ( f , ) )~!20
module A ( T ( A.f ) )~!16
module A where x~!16
{+ import A x }+~!13
{+ import A import B }+~!13
{+ import A }~!13
{ import A }+~!12
{+ import A ( B.f )~!15
{+ import qualified % A~!21
{+ import A hiding x~!20
{+ import A as b~!16
{+ import % % A~!13";

const SHORT: &str = "
~!
module~!
module A~!
module A ( f )~!
module A where~!
{+ import~!
{+ import qualified~!
{+ import A as~!
{+ import A hiding~!
{+ import A ( x , T~!";

fn sign_of(word: &[u8]) -> Option<PutSign> {
    match word {
        b"{+" => Some(PutSign::Open),
        b";+" => Some(PutSign::Semicolon),
        b"}+" => Some(PutSign::Close),
        _ => None,
    }
}

/// The kind of a name without a qualifier, by its first byte.
fn plain_kind(first: u8) -> TokenKind {
    match first {
        b'a'..=b'z' => TokenKind::VarId,
        b'A'..=b'Z' => TokenKind::ConId,
        b':' => TokenKind::ConSym,
        _ => TokenKind::VarSym,
    }
}

fn qualified_kind(last: u8) -> TokenKind {
    match last {
        b'a'..=b'z' => TokenKind::QVarId,
        b'A'..=b'Z' => TokenKind::QConId,
        _ => TokenKind::QVarSym,
    }
}

fn kind_of(word: &[u8]) -> TokenKind {
    match word {
        b"module" => TokenKind::Word,
        b"where" => TokenKind::Word,
        b"import" => TokenKind::Word,
        b".." => TokenKind::WordOp,
        b"%" => TokenKind::Pragma,
        [b'(' | b')' | b',' | b';' | b'{' | b'}', ..] => TokenKind::Special,
        [_, b'.', last] => qualified_kind(*last),
        [first, ..] => plain_kind(*first),
        [] => TokenKind::Special,
    }
}

/// The token that a word of a row stands for, in the first line at this column.
fn token_at(alloc: Global, word: &[u8], col: u32) -> Result<Token, NoMemory> {
    let sign = sign_of(word);
    let text = if sign.is_some() {
        Text::new(alloc)
    } else {
        Text::from_slice(alloc, word)?
    };
    Ok(Token {
        kind: kind_of(word),
        text,
        start: col,
        end: col,
        at: Pos { line: 1, col },
        put: sign,
    })
}

/// The column behind these bytes and a blank.
fn column_behind(word: &[u8], col: u32) -> u32 {
    let mut behind = col.saturating_add(1);
    for _ in word {
        behind = behind.saturating_add(1);
    }
    behind
}

fn tokens_of(alloc: Global, text: &[u8]) -> Result<List<Token>, NoMemory> {
    let mut tokens = List::new(alloc);
    let mut col = 1;
    for word in text.split(|byte| *byte == b' ') {
        if !word.is_empty() {
            tokens.push(token_at(alloc, word, col)?)?;
        }
        col = column_behind(word, col);
    }
    Ok(tokens)
}

/// A tree's column and that of its name, where it is another one.
fn show_place(out: &mut List<u8>, at: Pos, name: Pos) -> Result<(), NoMemory> {
    out.push(b'@')?;
    out.push_number(u64::from(at.col))?;
    if at != name {
        out.push(b':')?;
        out.push_number(u64::from(name.col))?;
    }
    Ok(())
}

fn show_name(out: &mut List<u8>, at: Pos, name: &NameRef) -> Result<(), NoMemory> {
    if name.qualifier.len() > 0 {
        out.extend(name.qualifier.as_slice())?;
        out.push(b'.')?;
    }
    out.extend(name.text.as_slice())?;
    show_place(out, at, name.at)
}

fn show_sub(out: &mut List<u8>, sub: &SubTree) -> Result<(), NoMemory> {
    match sub {
        SubTree::Var { at, name } => show_name(out, *at, name),
        SubTree::Con { at, name } => show_name(out, *at, name),
    }
}

fn show_subs(out: &mut List<u8>, subs: &Subs) -> Result<(), NoMemory> {
    match subs {
        Subs::All => out.extend(b"(..)"),
        Subs::Listed(names) => {
            let mut before = b'(';
            for name in names.as_slice() {
                out.push(before)?;
                show_sub(out, name)?;
                before = b',';
            }
            if names.len() == 0 {
                out.push(b'(')?;
            }
            out.push(b')')
        }
    }
}

fn show_former(
    out: &mut List<u8>,
    at: Pos,
    name: &NameRef,
    subs: &Option<Subs>,
) -> Result<(), NoMemory> {
    show_name(out, at, name)?;
    match subs {
        None => Ok(()),
        Some(subs) => show_subs(out, subs),
    }
}

fn show_export(out: &mut List<u8>, item: &ExportItem) -> Result<(), NoMemory> {
    match item {
        ExportItem::Var { at, name } => show_name(out, *at, name),
        ExportItem::Type { at, name, subs } => show_former(out, *at, name, subs),
        ExportItem::Module { at, module } => {
            out.extend(b"module ")?;
            show_name(out, *at, module)
        }
    }
}

fn show_exports(out: &mut List<u8>, items: &[ExportItem]) -> Result<(), NoMemory> {
    out.push(b'(')?;
    let mut first = true;
    for item in items {
        if !first {
            out.push(b',')?;
        }
        show_export(out, item)?;
        first = false;
    }
    out.push(b')')
}

fn show_iitem(out: &mut List<u8>, item: &IitemTree) -> Result<(), NoMemory> {
    match item {
        IitemTree::Var { at, name } => show_name(out, *at, name),
        IitemTree::Type { at, name, subs } => show_former(out, *at, name, subs),
    }
}

fn show_iitems(out: &mut List<u8>, items: &[IitemTree]) -> Result<(), NoMemory> {
    out.push(b'(')?;
    let mut first = true;
    for item in items {
        if !first {
            out.push(b',')?;
        }
        show_iitem(out, item)?;
        first = false;
    }
    out.push(b')')
}

fn show_words(out: &mut List<u8>, item: &ImportItem) -> Result<(), NoMemory> {
    if item.source {
        out.extend(b" source")?;
    }
    if item.qualified {
        out.extend(b" qualified")?;
    }
    out.push(b' ')?;
    show_name(out, item.module.at, &item.module)
}

fn show_import(out: &mut List<u8>, item: &ImportItem) -> Result<(), NoMemory> {
    out.extend(b"import")?;
    show_place(out, item.at, item.at)?;
    show_words(out, item)?;
    match &item.alias {
        None => {}
        Some(alias) => {
            out.extend(b" as ")?;
            show_name(out, alias.at, alias)?;
        }
    }
    match &item.list {
        None => Ok(()),
        Some(list) => {
            if list.hiding {
                out.extend(b" hiding")?;
            }
            show_iitems(out, list.items.as_slice())
        }
    }
}

fn show_imports(out: &mut List<u8>, items: &[ImportItem]) -> Result<(), NoMemory> {
    let mut first = true;
    for item in items {
        if !first {
            out.push(b';')?;
        }
        show_import(out, item)?;
        first = false;
    }
    Ok(())
}

fn show_header(out: &mut List<u8>, header: &Header) -> Result<(), NoMemory> {
    out.push(b' ')?;
    out.extend(header.name.text.as_slice())?;
    show_place(out, header.at, header.at)?;
    match &header.exports {
        None => {}
        Some(items) => show_exports(out, items.as_slice())?,
    }
    match &header.exports {
        None if header.imports.len() > 0 => out.push(b';')?,
        _ => {}
    }
    show_imports(out, header.imports.as_slice())
}

/// What is read where the reading stops at a token.
fn show_end(out: &mut List<u8>, mark: u8, behind: &[Token]) -> Result<(), NoMemory> {
    out.push(mark)?;
    match behind {
        [] => Ok(()),
        [token, ..] => out.push_number(u64::from(token.at.col)),
    }
}

/// What is read of the tokens, as a row shows it.
fn shown(alloc: Global, tokens: &[Token]) -> Result<List<u8>, NoMemory> {
    let mut out = List::new(alloc);
    match parse_header(alloc, tokens)? {
        Ok((header, behind)) => {
            show_end(&mut out, b'=', behind)?;
            show_header(&mut out, &header)?;
        }
        Err(Stop::At(at)) => {
            out.push(b'!')?;
            out.push_number(u64::from(at.col))?;
        }
        Err(Stop::End) => out.push(b'!')?,
    }
    Ok(out)
}

/// The two parts before and behind the first tilde; the second is empty where there is none.
fn cut_at(text: &[u8]) -> (&[u8], &[u8]) {
    match text.iter().position(|byte| *byte == b'~') {
        Some(at) if at < text.len() => (&text[..at], &text[at + 1..]),
        _ => (text, &[]),
    }
}

/// Whether the row's tokens are read as it says.
fn is_read(alloc: Global, row: &[u8]) -> Result<bool, NoMemory> {
    let (tokens, expected) = cut_at(row);
    let tokens = tokens_of(alloc, tokens)?;
    let shown = shown(alloc, tokens.as_slice())?;
    Ok(shown.as_slice() == expected)
}

#[test]
fn headers(rt: HostRuntime) -> Result<(), Fail> {
    for row in HEADERS.as_bytes().split(|byte| *byte == b'\n') {
        if !row.is_empty() {
            assert!(rt; is_read(rt.alloc(), row)?, "{row:?}");
        }
    }
    header_is_told();
    Ok(())
}

#[test]
fn imports(rt: HostRuntime) -> Result<(), Fail> {
    for row in IMPORTS.as_bytes().split(|byte| *byte == b'\n') {
        if !row.is_empty() {
            assert!(rt; is_read(rt.alloc(), row)?, "{row:?}");
        }
    }
    Ok(())
}

#[test]
fn tokens_that_leave_the_grammar(rt: HostRuntime) -> Result<(), Fail> {
    for row in LEAVES.as_bytes().split(|byte| *byte == b'\n') {
        if !row.is_empty() {
            assert!(rt; is_read(rt.alloc(), row)?, "{row:?}");
        }
    }
    Ok(())
}

#[test]
fn tokens_that_end_too_early(rt: HostRuntime) -> Result<(), Fail> {
    for row in SHORT.as_bytes().split(|byte| *byte == b'\n') {
        if !row.is_empty() {
            assert!(rt; is_read(rt.alloc(), row)?, "{row:?}");
        }
    }
    Ok(())
}
