//! Short sources: words split at blanks, and what layout puts between them.
//!
//! In an expected text a brace or a semicolon alone is one that is put; one that stands in the source has an
//! apostrophe behind it.
use hs_layout::braced::braced;
use hs_syntax::token::{PutSign, Token, TokenKind};
use mk_base::list::List;
use mk_base::memory::NoMemory;
use mk_base::place::Pos;
use mk_base::text::Text;
use std::alloc::Global;
use std::process::Abort;
use std::test::Fail;

/// A source that is cut into tokens.
#[derive(Drop)]
struct Scan {
    tokens: List<Token>,
    word: Vec<u8>,
    in_text: bool,
    begin: Pos,
    start: u32,
    at: Pos,
    byte: u32,
}

fn kind_of(word: &[u8]) -> TokenKind {
    match word {
        b"let" | b"where" | b"do" | b"of" | b"case" | b"if" | b"then" | b"else" | b"in" => {
            TokenKind::Word
        }
        b"module" | b"infix" | b"infixl" | b"infixr" | b"class" => TokenKind::Word,
        b"|" | b"=" | b"->" | b"<-" | b"::" | b":" | b"\\" => TokenKind::WordOp,
        b"(" | b")" | b"[" | b"]" | b"{" | b"}" | b"," | b";" => TokenKind::Special,
        _ => kind_of_other(word),
    }
}

fn kind_of_other(word: &[u8]) -> TokenKind {
    match word {
        [b'{', ..] => TokenKind::Pragma,
        [b'"', ..] => TokenKind::Text,
        [b'a'..=b'z', ..] => TokenKind::VarId,
        [b'A'..=b'Z', ..] => TokenKind::ConId,
        [b'0'..=b'9', ..] => TokenKind::Number,
        _ => TokenKind::VarSym,
    }
}

fn end_word(alloc: Global, scan: &mut Scan) -> Result<(), NoMemory> {
    if scan.word.is_empty() {
        return Ok(());
    }
    let kind = kind_of(&scan.word);
    let text = Text::from_slice(alloc, &scan.word)?;
    scan.word.clear();
    scan.tokens.push(Token {
        kind,
        text,
        start: scan.start,
        end: scan.byte,
        at: scan.begin,
        put: None,
    })
}

fn advance(scan: &mut Scan, byte: u8) {
    scan.byte = scan.byte.saturating_add(1);
    if byte == b'\n' {
        scan.at.line = scan.at.line.saturating_add(1);
        scan.at.col = 1;
    } else if byte == b'\t' {
        scan.at.col = (scan.at.col.saturating_add(7) / 8 * 8).saturating_add(1);
    } else {
        scan.at.col = scan.at.col.saturating_add(1);
    }
}

fn take_byte(alloc: Global, scan: &mut Scan, byte: u8) -> Result<(), NoMemory> {
    if !scan.in_text && (byte == b' ' || byte == b'\n' || byte == b'\t') {
        end_word(alloc, scan)?;
    } else {
        if scan.word.is_empty() {
            scan.begin = scan.at;
            scan.start = scan.byte;
        }
        if byte == b'"' {
            scan.in_text = !scan.in_text;
        }
        scan.word.push(byte)?;
    }
    advance(scan, byte);
    Ok(())
}

fn tokens_of(alloc: Global, source: &str) -> Result<List<Token>, NoMemory> {
    let first = Pos { line: 1, col: 1 };
    let mut scan = Scan {
        tokens: List::new(alloc),
        word: Vec::new(alloc),
        in_text: false,
        begin: first,
        start: 0,
        at: first,
        byte: 0,
    };
    for byte in source.as_bytes() {
        take_byte(alloc, &mut scan, *byte)?;
    }
    end_word(alloc, &mut scan)?;
    Ok(scan.tokens)
}

fn show(token: &Token, out: &mut Vec<u8>) -> Result<(), NoMemory> {
    if !out.is_empty() {
        out.push(b' ')?;
    }
    match token.put {
        Some(PutSign::Open) => out.push(b'{')?,
        Some(PutSign::Semicolon) => out.push(b';')?,
        Some(PutSign::Close) => out.push(b'}')?,
        None => {
            let text = token.text.as_slice();
            out.extend_from_slice(text)?;
            if let b"{" | b";" | b"}" = text {
                out.push(b'\'')?;
            }
        }
    }
    Ok(())
}

fn shown(alloc: Global, source: &str) -> Result<Vec<u8>, NoMemory> {
    let tokens = tokens_of(alloc, source)?;
    let pieces = braced(alloc, &tokens)?;
    let mut out = Vec::new(alloc);
    for token in pieces.as_slice() {
        show(token, &mut out)?;
    }
    Ok(out)
}

fn run(rt: &impl Abort, alloc: Global, rows: &[(&str, &str)]) -> Result<(), NoMemory> {
    for (source, want) in rows {
        let found = shown(alloc, source)?;
        assert!(rt; found.as_slice() == want.as_bytes(), "{source}");
    }
    Ok(())
}

/// A few declarations, each with the braces and semicolons that it has by the Report's algorithm.
#[test]
fn short_declarations(rt: HostRuntime) -> Result<(), Fail> {
    const ROWS: [(&str, &str); 7] = [
        ("f = let x = 1 in x", "{ f = let { x = 1 } in x }"),
        (
            "g = [ y | x <- z , let y = x , y ]",
            "{ g = [ y | x <- z , let { y = x } , y ] }",
        ),
        (
            "h = do\n  a\n  where b = c",
            "{ h = do { a ; } where { b = c } }",
        ),
        (
            "k x = case x of\n  A -> b\n  where b = x",
            "{ k x = case x of { A -> b ; } where { b = x } }",
        ),
        (
            "u = [ case x of A -> b | x <- z ]",
            "{ u = [ case x of { A -> b } | x <- z ] }",
        ),
        ("v x | let y = x = y", "{ v x | let { y = x } = y }"),
        (
            "w x = case x of A | let y = x -> y",
            "{ w x = case x of { A | let { y = x } -> y } }",
        ),
    ];
    run(&rt, rt.alloc(), &ROWS)?;
    Ok(())
}

/// Blocks that open and close by lines alone.
#[test]
fn lines_and_blocks(rt: HostRuntime) -> Result<(), Fail> {
    const ROWS: [(&str, &str); 20] = [
        ("", "{ }"),
        ("a", "{ a }"),
        ("a\nb", "{ a ; b }"),
        ("a\n b", "{ a b }"),
        (" a\nb", "{ a } b"),
        ("module M where", "module M where { }"),
        (
            "module M where\na = b\nc = d",
            "module M where { a = b ; c = d }",
        ),
        ("module M where\n\n  a\n  b", "module M where { a ; b }"),
        ("{ a ; b }", "{' a ;' b }'"),
        ("module M where { a\nb }", "module M where {' a b }'"),
        ("f = do\na", "{ f = do { } ; a }"),
        ("f = a where\ng = b", "{ f = a where { } ; g = b }"),
        ("f = do\n  a\n  b\ng", "{ f = do { a ; b } ; g }"),
        (
            "f = do\n  do\n    do\n      a",
            "{ f = do { do { do { a } } } }",
        ),
        (
            "f = do case x of y -> let z = do w",
            "{ f = do { case x of { y -> let { z = do { w } } } } }",
        ),
        ("f = do\n\ta\n        b", "{ f = do { a ; b } }"),
        ("f = do\n  a\n   b\n  c", "{ f = do { a b ; c } }"),
        ("where", "{ where { } }"),
        ("x {\na\nb }\ny", "{ x {' a b }' ; y }"),
        ("x = { do\n a }", "{ x = {' do { a } }' }"),
    ];
    run(&rt, rt.alloc(), &ROWS)?;
    Ok(())
}

/// Words that wait for another.
#[test]
fn let_and_case(rt: HostRuntime) -> Result<(), Fail> {
    const ROWS: [(&str, &str); 15] = [
        ("f = let\n  a = b\n in c", "{ f = let { a = b } in c }"),
        (
            "f = let x = let y = 1 in y in x",
            "{ f = let { x = let { y = 1 } in y } in x }",
        ),
        ("f = ( let x = 1 in x )", "{ f = ( let { x = 1 } in x ) }"),
        ("f = ( let x = 1 )", "{ f = ( let { x = 1 } ) }"),
        (
            "f = do { let x = 1 ; y }",
            "{ f = do {' let { x = 1 ;' y } }' }",
        ),
        (
            "f = do\n  let x = 1\n  y",
            "{ f = do { let { x = 1 } ; y } }",
        ),
        (
            "f = do\n  let x = 1\n      y = 2\n  z",
            "{ f = do { let { x = 1 ; y = 2 } ; z } }",
        ),
        ("f = do let x = 1 in x", "{ f = do { let { x = 1 } in x } }"),
        (
            "f = do\n  let x = 1\n  a in b",
            "{ f = do { let { x = 1 } ; a in b } }",
        ),
        (
            "f = case x of y -> let z = 1 in z",
            "{ f = case x of { y -> let { z = 1 } in z } }",
        ),
        ("f = let { x = 1 } in x", "{ f = let {' x = 1 }' in x }"),
        (
            "f = ( case x of a -> b , c )",
            "{ f = ( case x of { a -> b } , c ) }",
        ),
        (
            "f = case a of b -> case c of d -> e",
            "{ f = case a of { b -> case c of { d -> e } } }",
        ),
        (
            "f = case do a of b -> c",
            "{ f = case do { a } of { b -> c } }",
        ),
        ("f = ( of do a of b", "{ f = ( of { do { a of { b } } } }"),
    ];
    run(&rt, rt.alloc(), &ROWS)?;
    Ok(())
}

/// If, then and else, with and without semicolons.
#[test]
fn branches(rt: HostRuntime) -> Result<(), Fail> {
    const ROWS: [(&str, &str); 11] = [
        (
            "f = do\n  if a\n  then b\n  else c",
            "{ f = do { if a ; then b ; else c } }",
        ),
        (
            "f = do\n  if a\n    then b\n    else c\n  d",
            "{ f = do { if a then b else c ; d } }",
        ),
        (
            "f = do\n  if a then do\n    b\n  else do\n    c",
            "{ f = do { if a then do { b } ; else do { c } } }",
        ),
        (
            "f = if do a then do b else c",
            "{ f = if do { a } then do { b } else c }",
        ),
        (
            "f = do\n  if a then b\n  c else d",
            "{ f = do { if a then b ; c else d } }",
        ),
        (
            "f = if x then do\n  if a then b\n  c else d",
            "{ f = if x then do { if a then b ; c } else d }",
        ),
        (
            "f = do { if a ; then b ; else c }",
            "{ f = do {' if a ;' then b ;' else c }' }",
        ),
        (
            "f = if x then do if a ; then b else c else d",
            "{ f = if x then do { if a ;' then b else c } else d }",
        ),
        (
            "f = if x then do if a ; c else d",
            "{ f = if x then do { if a ;' c } else d }",
        ),
        (
            "f = if a then ( do b else c )",
            "{ f = if a then ( do { b else c } ) }",
        ),
        ("f = do a then b", "{ f = do { a then b } }"),
    ];
    run(&rt, rt.alloc(), &ROWS)?;
    Ok(())
}

/// The frame to which a comma belongs.
#[test]
fn commas(rt: HostRuntime) -> Result<(), Fail> {
    const ROWS: [(&str, &str); 18] = [
        (
            "f x | a , let y = b , c = d",
            "{ f x | a , let { y = b } , c = d }",
        ),
        ("f = ( do a , b )", "{ f = ( do { a } , b ) }"),
        (
            "f = [ let x = 1 in x , y ]",
            "{ f = [ let { x = 1 } in x , y ] }",
        ),
        (
            "f = ( let a , b :: c in d )",
            "{ f = ( let { a , b :: c } in d ) }",
        ),
        (
            "f = ( let ( + ) , b :: c in d )",
            "{ f = ( let { ( + ) , b :: c } in d ) }",
        ),
        ("f = ( let ( a + ) , b )", "{ f = ( let { ( a + ) } , b ) }"),
        (
            "f = ( let infixl 5 + , * in d )",
            "{ f = ( let { infixl 5 + , * } in d ) }",
        ),
        ("f = ( let a = b , c )", "{ f = ( let { a = b } , c ) }"),
        (
            "f = ( let a = b ; c , d :: e in f )",
            "{ f = ( let { a = b ;' c , d :: e } in f ) }",
        ),
        (
            "f = ( case x of a | b , c -> d )",
            "{ f = ( case x of { a | b , c -> d } ) }",
        ),
        (
            "f = ( case x of a | b -> c , d )",
            "{ f = ( case x of { a | b -> c } , d ) }",
        ),
        ("f = a , b", "{ f = a , b }"),
        ("f = do a , b", "{ f = do { a , b } }"),
        ("f = ( do a | b , c )", "{ f = ( do { a | b } , c ) }"),
        (
            "f = ( let g a | b , c = d in e )",
            "{ f = ( let { g a | b , c = d } in e ) }",
        ),
        (
            "f = ( let x = R { a = b , c = d } , e )",
            "{ f = ( let { x = R {' a = b , c = d }' } , e ) }",
        ),
        ("f = [ x | do a , b ]", "{ f = [ x | do { a } , b ] }"),
        ("f = ( A , let B , c )", "{ f = ( A , let { B } , c ) }"),
    ];
    run(&rt, rt.alloc(), &ROWS)?;
    Ok(())
}

/// Operators in parentheses, which are names, and semicolons in parentheses, behind which alone lexemes count.
#[test]
fn operators_in_parentheses(rt: HostRuntime) -> Result<(), Fail> {
    const ROWS: [(&str, &str); 8] = [
        (
            "f = ( let ( : ) , b :: c in d )",
            "{ f = ( let { ( : ) , b :: c } in d ) }",
        ),
        (
            "f = ( let a , ( :+ ) , b :: c in d )",
            "{ f = ( let { a , ( :+ ) , b :: c } in d ) }",
        ),
        ("f = ( let ( : + ) , b )", "{ f = ( let { ( : + ) } , b ) }"),
        ("f = ( let ( :: ) , b )", "{ f = ( let { ( :: ) } , b ) }"),
        ("f = ( let : , b )", "{ f = ( let { : } , b ) }"),
        (
            "f = ( let A ; ( : ) , b :: c in d )",
            "{ f = ( let { A ;' ( : ) , b :: c } in d ) }",
        ),
        (
            "f = ( let ( a ; + ) , b :: c in d )",
            "{ f = ( let { ( a ;' + ) , b :: c } in d ) }",
        ),
        (
            "f = ( let A ( ; : ) , b )",
            "{ f = ( let { A ( ;' : ) , b } ) }",
        ),
    ];
    run(&rt, rt.alloc(), &ROWS)?;
    Ok(())
}

/// Where, behind blocks of do and behind semicolons.
#[test]
fn bindings_behind(rt: HostRuntime) -> Result<(), Fail> {
    const ROWS: [(&str, &str); 10] = [
        ("f = do a where b = c", "{ f = do { a } where { b = c } }"),
        (
            "f = case x of\n  a -> b where c = d",
            "{ f = case x of { a -> b where { c = d } } }",
        ),
        (
            "f = case x of\n  a -> do b\n  where c = d",
            "{ f = case x of { a -> do { b } ; } where { c = d } }",
        ),
        (
            "f = do\n  do\n    a\n  where b",
            "{ f = do { do { a } ; } where { b } }",
        ),
        ("f = do\n  a\n where b", "{ f = do { a } where { b } }"),
        (
            "class A b where\n  c :: d\n  e :: f",
            "{ class A b where { c :: d ; e :: f } }",
        ),
        ("f = do do a where b", "{ f = do { do { a } } where { b } }"),
        ("f = a\nwhere b", "{ f = a ; } where { b }"),
        (
            "f = case x of\n  a -> b ;\n  where c",
            "{ f = case x of { a -> b ;' ; } where { c } }",
        ),
        (
            "f = case x of\n  a -> b\n   where c = d\n  e -> g",
            "{ f = case x of { a -> b where { c = d } ; e -> g } }",
        ),
    ];
    run(&rt, rt.alloc(), &ROWS)?;
    Ok(())
}

/// Bars, equals signs and arrows that close blocks.
#[test]
fn guards(rt: HostRuntime) -> Result<(), Fail> {
    const ROWS: [(&str, &str); 17] = [
        (
            "f = [ x | let y = 1 | z ]",
            "{ f = [ x | let { y = 1 } | z ] }",
        ),
        (
            "f = [ let g | a = b in g | c ]",
            "{ f = [ let { g | a = b } in g | c ] }",
        ),
        (
            "f = [ case x of a | b -> c | d -> e ]",
            "{ f = [ case x of { a | b -> c | d -> e } ] }",
        ),
        (
            "f = ( case x of a -> b | c )",
            "{ f = ( case x of { a -> b | c } ) }",
        ),
        (
            "f x | case y of a -> b = c",
            "{ f x | case y of { a -> b } = c }",
        ),
        ("f x | do a = b", "{ f x | do { a } = b }"),
        ("f x | let y = 1 , z = w", "{ f x | let { y = 1 } , z = w }"),
        (
            "f = case x of a | let b = \\ c -> d -> e",
            "{ f = case x of { a | let { b = \\ c -> d -> e } } }",
        ),
        (
            "f = case x of a | let b = c :: d -> e",
            "{ f = case x of { a | let { b = c :: d -> e } } }",
        ),
        (
            "f = case x of a | let b = do c -> d",
            "{ f = case x of { a | let { b = do { c -> d } } } }",
        ),
        ("f | let y = do a = b", "{ f | let { y = do { a } } = b }"),
        (
            "f = [ x | y <- do z | w ]",
            "{ f = [ x | y <- do { z } | w ] }",
        ),
        (
            "k = case x of a | let y = 1 -> let z = 2 in z in b",
            "{ k = case x of { a | let { y = 1 } -> let { z = 2 } in z in b } }",
        ),
        ("f = [ do a | b ]", "{ f = [ do { a } | b ] }"),
        ("f = [ do do a | b ]", "{ f = [ do { do { a } } | b ] }"),
        (
            "f = [ let a = do b | c ]",
            "{ f = [ let { a = do { b } } | c ] }",
        ),
        ("data T = A | B", "{ data T = A | B }"),
    ];
    run(&rt, rt.alloc(), &ROWS)?;
    Ok(())
}

/// Parentheses, brackets and written braces around blocks.
#[test]
fn brackets(rt: HostRuntime) -> Result<(), Fail> {
    const ROWS: [(&str, &str); 13] = [
        ("f = ( do a ) b", "{ f = ( do { a } ) b }"),
        ("f = ( [ do a ) b", "{ f = ( [ do { a } ) b }"),
        ("f = a ) b", "{ f = a ) b }"),
        ("f = do a ) b", "{ f = do { a ) b } }"),
        ("f = ( { do a ) b }", "{ f = ( {' do { a ) b } }' }"),
        ("f = a } b", "{ f = a }' b }"),
        ("f = do { a\n ; b }\ng", "{ f = do {' a ;' b }' ; g }"),
        ("f = ( a +\n  b\n  + )\ng", "{ f = ( a + b + ) ; g }"),
        ("f = (\n  do a\n     b\n  )", "{ f = ( do { a ; b } ) }"),
        ("f = (\na )", "{ f = ( ; a ) }"),
        ("f = [\n  a ,\n  b ]", "{ f = [ a , b ] }"),
        ("f = ( do\n  ( a\n  b ) )", "{ f = ( do { ( a ; b ) } ) }"),
        ("f = do {\n a\n b\n}", "{ f = do {' a b }' }"),
    ];
    run(&rt, rt.alloc(), &ROWS)?;
    Ok(())
}

/// A semicolon within brackets clears the frames up to the enclosing context, however often one came before.
#[test]
fn semicolons_in_brackets(rt: HostRuntime) -> Result<(), Fail> {
    const ROWS: [(&str, &str); 12] = [
        (
            "f = ( if ( a b ) do c then d )",
            "{ f = ( if ( a b ) do { c } then d ) }",
        ),
        (
            "f = ( if ( a ; b ) do c then d )",
            "{ f = ( if ( a ;' b ) do { c then d } ) }",
        ),
        (
            "f = ( if ( a\nb ) do c then d )",
            "{ f = ( if ( a ; b ) do { c then d } ) }",
        ),
        (
            "f = ( if [ ( a ; b ) ] do c then d )",
            "{ f = ( if [ ( a ;' b ) ] do { c then d } ) }",
        ),
        (
            "f = ( if ( a ; then b ) do c then d )",
            "{ f = ( if ( a ;' then b ) do { c } then d ) }",
        ),
        (
            "f = ( if ( a ; then b ; c ) do d then e )",
            "{ f = ( if ( a ;' then b ;' c ) do { d then e } ) }",
        ),
        (
            "f = ( ( a ; b ; c ) if ( d ; e ) do g then h )",
            "{ f = ( ( a ;' b ;' c ) if ( d ;' e ) do { g then h } ) }",
        ),
        (
            "f = ( if { ( a ; b ) } do c then d )",
            "{ f = ( if {' ( a ;' b ) }' do { c } then d ) }",
        ),
        (
            "f = ( if do ( a ; b ) do c then d )",
            "{ f = ( if do { ( a ;' b ) do { c } } then d ) }",
        ),
        (
            "f = ( case x of a ( ; + ) , d -> e )",
            "{ f = ( case x of { a ( ;' + ) , d -> e } ) }",
        ),
        (
            "f = ( case x of a | ( ( b ; c ) ) , d )",
            "{ f = ( case x of { a | ( ( b ;' c ) ) } , d ) }",
        ),
        (
            "f = ( case x of a | ( b ; then c ) , d )",
            "{ f = ( case x of { a | ( b ;' then c ) } , d ) }",
        ),
    ];
    run(&rt, rt.alloc(), &ROWS)?;
    Ok(())
}

/// Pragmas stand for nothing, and texts may go over lines.
#[test]
fn pragmas_and_texts(rt: HostRuntime) -> Result<(), Fail> {
    const ROWS: [(&str, &str); 9] = [
        ("{-#P#-} module M where\na", "{-#P#-} module M where { a }"),
        ("{-#P#-}\na\nb", "{-#P#-} { a ; b }"),
        ("f = do {-#P#-}\n  a", "{ f = do {-#P#-} { a } }"),
        ("a\n{-#P#-}\nb", "{ a {-#P#-} ; b }"),
        ("a\n{-#P#-} b", "{ a {-#P#-} b }"),
        ("f = do  a\n{-#P#-} b", "{ f = do { a {-#P#-} ; b } }"),
        (
            "f = do\n  \"x\\\n\\y\" a\n  b",
            "{ f = do { \"x\\\n\\y\" a ; b } }",
        ),
        ("\"x\\\n\n\\y\" a\nb", "{ \"x\\\n\n\\y\" a ; b }"),
        ("{-#P#-}", "{-#P#-} { }"),
    ];
    run(&rt, rt.alloc(), &ROWS)?;
    Ok(())
}

/// Where the signs stand that are put; at the end of the input at the last token, which may be a pragma.
#[test]
fn places(rt: HostRuntime) -> Result<(), Fail> {
    const ROWS: [(bool, u32, u32, u32, u32); 6] = [
        (true, 0, 0, 1, 1),
        (false, 0, 2, 1, 1),
        (true, 5, 5, 2, 3),
        (false, 5, 7, 2, 3),
        (true, 7, 7, 2, 3),
        (true, 7, 7, 2, 3),
    ];
    stand_at(&rt, rt.alloc(), "do\n  ab", &ROWS)?;
    const NOTHING: [(bool, u32, u32, u32, u32); 2] = [(true, 0, 0, 1, 1), (true, 0, 0, 1, 1)];
    stand_at(&rt, rt.alloc(), "", &NOTHING)?;
    const PRAGMA: [(bool, u32, u32, u32, u32); 3] = [
        (false, 0, 7, 1, 1),
        (true, 7, 7, 1, 1),
        (true, 7, 7, 1, 1),
    ];
    stand_at(&rt, rt.alloc(), "{-#P#-}", &PRAGMA)?;
    const BEHIND: [(bool, u32, u32, u32, u32); 4] = [
        (true, 0, 0, 1, 1),
        (false, 0, 1, 1, 1),
        (false, 2, 9, 2, 1),
        (true, 9, 9, 2, 1),
    ];
    stand_at(&rt, rt.alloc(), "a\n{-#P#-}", &BEHIND)?;
    Ok(())
}

/// That the tokens stand where the rows say: whether each is put, its bytes, its line and its column.
fn stand_at(
    rt: &impl Abort,
    alloc: Global,
    source: &str,
    rows: &[(bool, u32, u32, u32, u32)],
) -> Result<(), NoMemory> {
    let tokens = tokens_of(alloc, source)?;
    let pieces = braced(alloc, &tokens)?;
    assert_eq!(rt; pieces.len(), rows.len());
    for (token, (put, start, end, line, col)) in pieces.as_slice().iter().zip(rows) {
        assert!(rt;
            token.put.is_some() == *put && token.start == *start && token.end == *end,
            "{source}"
        );
        assert!(rt; token.at.line == *line && token.at.col == *col, "{source}");
    }
    Ok(())
}
