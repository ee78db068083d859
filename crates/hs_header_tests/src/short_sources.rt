//! Short sources, and the header that each has.
//!
//! A row is a source, a bar and what is expected. In a source `~` stands for a line feed. A name stands with its
//! qualifier before a slash and its place behind an at sign; before an equals sign stands the place of its item, where
//! that is another one. Items begin with v, t, c or m: a value, a type, a constructor or a module.
use hs_header::header_err::HeaderErr;
use hs_header::read::read_header;
use hs_syntax::header::{ExportItem, Header, IitemTree, ImportItem, ImportList, SubTree, Subs};
use hs_syntax::name_ref::NameRef;
use mk_base::list::List;
use mk_base::memory::NoMemory;
use mk_base::place::Pos;
use mk_base::text::Text;
use std::alloc::Global;
use std::process::Abort;
use std::test::Fail;

fn show_place(out: &mut List<u8>, at: Pos) -> Result<(), NoMemory> {
    out.push_number(u64::from(at.line))?;
    out.push(b':')?;
    out.push_number(u64::from(at.col))
}

fn show_name(out: &mut List<u8>, name: &NameRef) -> Result<(), NoMemory> {
    if name.qualifier.len() > 0 {
        out.extend(name.qualifier.as_slice())?;
        out.push(b'/')?;
    }
    out.extend(name.text.as_slice())?;
    out.push(b'@')?;
    show_place(out, name.at)
}

fn show_item(out: &mut List<u8>, mark: &[u8], at: Pos, name: &NameRef) -> Result<(), NoMemory> {
    out.extend(mark)?;
    if at != name.at {
        show_place(out, at)?;
        out.push(b'=')?;
    }
    show_name(out, name)
}

fn show_sub(out: &mut List<u8>, sub: &SubTree) -> Result<(), NoMemory> {
    match sub {
        SubTree::Var { at, name } => show_item(out, b" v ", *at, name),
        SubTree::Con { at, name } => show_item(out, b" c ", *at, name),
    }
}

fn show_listed(out: &mut List<u8>, subs: &List<SubTree>) -> Result<(), NoMemory> {
    out.push(b'(')?;
    for sub in subs.as_slice() {
        show_sub(out, sub)?;
    }
    out.push(b')')
}

fn show_subs(out: &mut List<u8>, subs: &Option<Subs>) -> Result<(), NoMemory> {
    match subs {
        None => Ok(()),
        Some(Subs::All) => out.extend(b"(..)"),
        Some(Subs::Listed(subs)) => show_listed(out, subs),
    }
}

fn show_export(out: &mut List<u8>, item: &ExportItem) -> Result<(), NoMemory> {
    match item {
        ExportItem::Var { at, name } => show_item(out, b" v ", *at, name),
        ExportItem::Type { at, name, subs } => {
            show_item(out, b" t ", *at, name)?;
            show_subs(out, subs)
        }
        ExportItem::Module { at, module } => show_item(out, b" m ", *at, module),
    }
}

fn show_exports(out: &mut List<u8>, exports: &Option<List<ExportItem>>) -> Result<(), NoMemory> {
    let Some(items) = exports else {
        return Ok(());
    };
    out.extend(b" (")?;
    for item in items.as_slice() {
        show_export(out, item)?;
    }
    out.extend(b" )")
}

fn show_iitem(out: &mut List<u8>, item: &IitemTree) -> Result<(), NoMemory> {
    match item {
        IitemTree::Var { at, name } => show_item(out, b" v ", *at, name),
        IitemTree::Type { at, name, subs } => {
            show_item(out, b" t ", *at, name)?;
            show_subs(out, subs)
        }
    }
}

fn show_list(out: &mut List<u8>, list: &ImportList) -> Result<(), NoMemory> {
    if list.hiding {
        out.extend(b" hiding")?;
    }
    out.extend(b" (")?;
    for item in list.items.as_slice() {
        show_iitem(out, item)?;
    }
    out.extend(b" )")
}

fn show_marks(out: &mut List<u8>, import: &ImportItem) -> Result<(), NoMemory> {
    out.extend(b" ; ")?;
    show_place(out, import.at)?;
    if import.source {
        out.extend(b" source")?;
    }
    if import.qualified {
        out.extend(b" qualified")?;
    }
    out.push(b' ')
}

fn show_import(out: &mut List<u8>, import: &ImportItem) -> Result<(), NoMemory> {
    show_marks(out, import)?;
    show_name(out, &import.module)?;
    if let Some(alias) = &import.alias {
        show_item(out, b" as ", alias.at, alias)?;
    }
    match &import.list {
        Some(list) => show_list(out, list),
        None => Ok(()),
    }
}

fn show_flag(out: &mut List<u8>, name: &[u8], flag: Option<bool>) -> Result<(), NoMemory> {
    match flag {
        None => return Ok(()),
        Some(true) => out.extend(b" +")?,
        Some(false) => out.extend(b" -")?,
    }
    out.extend(name)
}

fn show_header(out: &mut List<u8>, header: &Header) -> Result<(), NoMemory> {
    out.extend(header.name.text.as_slice())?;
    out.push(b'@')?;
    show_place(out, header.at)?;
    show_exports(out, &header.exports)?;
    for import in header.imports.as_slice() {
        show_import(out, import)?;
    }
    show_flag(out, b"prelude", header.prelude)?;
    show_flag(out, b"restrict", header.restrict)
}

fn show_error(out: &mut List<u8>, error: &HeaderErr) -> Result<(), NoMemory> {
    match error {
        HeaderErr::Lexeme(at) => {
            out.extend(b"lexeme ")?;
            show_place(out, *at)
        }
        HeaderErr::Grammar(at) => {
            out.extend(b"grammar ")?;
            show_place(out, *at)
        }
        HeaderErr::Extension { at, name } => {
            out.extend(b"extension ")?;
            show_place(out, *at)?;
            out.push(b' ')?;
            out.extend(name.as_slice())
        }
        HeaderErr::NoMemory => Err(NoMemory),
    }
}

fn source_of(alloc: Global, text: &[u8]) -> Result<List<u8>, NoMemory> {
    let mut source = List::new(alloc);
    for byte in text {
        source.push(if *byte == b'~' { b'\n' } else { *byte })?;
    }
    Ok(source)
}

fn shown(alloc: Global, text: &[u8]) -> Result<List<u8>, NoMemory> {
    let mut out = List::new(alloc);
    let source = source_of(alloc, text)?;
    if source.len() > 1048576 {
        return Ok(out);
    }
    match read_header(alloc, source.as_slice()) {
        Ok(header) => show_header(&mut out, &header)?,
        Err(error) => show_error(&mut out, &error)?,
    }
    Ok(out)
}

fn run(rt: &impl Abort, alloc: Global, rows: &str) -> Result<(), NoMemory> {
    for row in rows.lines() {
        let (source, want) = row.split_once('|').unwrap_or((row, ""));
        let found = shown(alloc, source.as_bytes())?;
        assert!(rt; found.as_slice() == want.as_bytes(), "{row}");
    }
    Ok(())
}

/// An unknown extension is told by its name.
#[test]
fn messages(rt: HostRuntime) -> Result<(), Fail> {
    let alloc = rt.alloc();
    let name = Text::from_slice(alloc, b"GADTs")?;
    let error = HeaderErr::Extension {
        at: Pos { line: 1, col: 1 },
        name,
    };
    let message = format!(in alloc; "{error}")?;
    assert!(rt; message.as_str() == "unknown extension GADTs");
    Ok(())
}

/// The `module` line.
#[test]
fn modules(rt: HostRuntime) -> Result<(), Fail> {
    const ROWS: &str = "\
        |Main@1:1 ( v main@1:1 )\n\
        x = 1|Main@1:1 ( v main@1:1 )\n\
        module A where|A@1:8\n\
        module A.B.C where|A.B.C@1:8\n\
        \x20module A where|A@1:9\n\
        module~A~where|A@2:1\n\
        module A where {}|A@1:8\n\
        module A () where|A@1:8 ( )\n\
        module A (,) where|A@1:8 ( )\n\
        module A (f) where|A@1:8 ( v f@1:11 )\n\
        module A (f,) where|A@1:8 ( v f@1:11 )\n\
        module A (f, g, h) where|A@1:8 ( v f@1:11 v g@1:14 v h@1:17 )\n\
        module A (f,,) where|grammar 1:13\n\
        module A (,,) where|grammar 1:12\n\
        module A (, f) where|grammar 1:13\n\
        module where|grammar 1:8\n\
        module a where|grammar 1:8\n\
        module A = x|grammar 1:10\n\
        module A.b where|grammar 1:8\n\
        module A x \"|grammar 1:10";
    run(&rt, rt.alloc(), ROWS)?;
    Ok(())
}

/// Exports.
#[test]
fn exports(rt: HostRuntime) -> Result<(), Fail> {
    const ROWS: &str = "\
        module A (B.f, (+)) where|A@1:8 ( v B/f@1:11 v 1:16=+@1:17 )\n\
        module A ((B.+), (B..)) where|A@1:8 ( v 1:11=B/+@1:12 v 1:18=B/.@1:19 )\n\
        module A ((:+)) where|grammar 1:12\n\
        module A (T, T(..), T()) where|A@1:8 ( t T@1:11 t T@1:14(..) t T@1:21() )\n\
        module A (T(A, b)) where|A@1:8 ( t T@1:11( c A@1:13 v b@1:16) )\n\
        module A (T(A,)) where|grammar 1:15\n\
        module A (T((:+), (+))) where|A@1:8 ( t T@1:11( c 1:13=:+@1:14 v 1:19=+@1:20) )\n\
        module A (M.T(..)) where|A@1:8 ( t M/T@1:11(..) )\n\
        module A (module B, module B.C) where|A@1:8 ( m 1:11=B@1:18 m 1:21=B.C@1:28 )\n\
        module A (module b) where|grammar 1:18\n\
        module A (B.C.d, B.C.D) where|A@1:8 ( v B.C/d@1:11 t B.C/D@1:18 )\n\
        module A (T(B.c)) where|grammar 1:13\n\
        module A (T(.., c)) where|grammar 1:15\n\
        module A (f g) where|grammar 1:13\n\
        module A (1) where|grammar 1:11\n\
        module A (as, hiding, qualified) where|A@1:8 ( v as@1:11 v hiding@1:15 v qualified@1:23 )\n\
        module A ((..)) where|grammar 1:12\n\
        module A ((+) where|grammar 1:15\n\
        module A (~  é~ , É~ ) where|A@1:8 ( v é@2:3 t É@3:4 )";
    run(&rt, rt.alloc(), ROWS)?;
    Ok(())
}

/// Imports.
#[test]
fn imports(rt: HostRuntime) -> Result<(), Fail> {
    const ROWS: &str = "\
        import A|Main@1:1 ( v main@1:1 ) ; 1:1 A@1:8\n\
        module M where~import A~import B.C|M@1:8 ; 2:1 A@2:8 ; 3:1 B.C@3:8\n\
        module M where~import qualified A|M@1:8 ; 2:1 qualified A@2:18\n\
        module M where~import A as B|M@1:8 ; 2:1 A@2:8 as B@2:13\n\
        import qualified A.B as C.D hiding ()|Main@1:1 ( v main@1:1 ) ; 1:1 qualified A.B@1:18 as C.D@1:25 hiding ( )\n\
        module M where~import A ()~import A (,)|M@1:8 ; 2:1 A@2:8 ( ) ; 3:1 A@3:8 ( )\n\
        module M where~import A (f, T)|M@1:8 ; 2:1 A@2:8 ( v f@2:11 t T@2:14 )\n\
        module M where~import A as B (f,)|M@1:8 ; 2:1 A@2:8 as B@2:13 ( v f@2:16 )\n\
        import A (f,,)|grammar 1:13\n\
        module M where~import A hiding (T(..), U(V, w), (+))|M@1:8 ; 2:1 A@2:8 hiding ( t T@2:18(..) t U@2:25( c V@2:27 v w@2:30) v 2:34=+@2:35 )\n\
        import A (T((:+)), U(), as)|Main@1:1 ( v main@1:1 ) ; 1:1 A@1:8 ( t T@1:11( c 1:13=:+@1:14) t U@1:20() v as@1:25 )\n\
        import A (T(B,))|grammar 1:15\n\
        import A (B.f)|grammar 1:11\n\
        import A (module B)|grammar 1:11\n\
        import A ((:+))|grammar 1:12\n\
        import as|grammar 1:8\n\
        import A as b|grammar 1:13\n\
        import A as B as C|grammar 1:15\n\
        import A () hiding (f)|grammar 1:13\n\
        import A qualified|grammar 1:10";
    run(&rt, rt.alloc(), ROWS)?;
    Ok(())
}

/// What follows the imports.
#[test]
fn ends(rt: HostRuntime) -> Result<(), Fail> {
    const ROWS: &str = "\
        import A x|grammar 1:10\n\
        import A import B|grammar 1:10\n\
        module M where~import A~x = 1|M@1:8 ; 2:1 A@2:8\n\
        module M where~import A;x = 1|M@1:8 ; 2:1 A@2:8\n\
        module M where~imports = 1|M@1:8\n\
        module M where~import_ = 1|M@1:8\n\
        module M where~x = 1~import A|M@1:8\n\
        module M where~import A~ (f)|M@1:8 ; 2:1 A@2:8 ( v f@3:3 )\n\
        module M where~  import A~  import B|M@1:8 ; 2:3 A@2:10 ; 3:3 B@3:10\n\
        module M where~  import A~import B|M@1:8 ; 2:3 A@2:10\n\
        module M where {import A; import B}|M@1:8 ; 1:17 A@1:24 ; 1:27 B@1:34\n\
        module M where {;;import A;;import B;}|M@1:8 ; 1:19 A@1:26 ; 1:29 B@1:36\n\
        module M where {import A~import B}|grammar 2:1\n\
        {import A}|Main@1:1 ( v main@1:1 ) ; 1:2 A@1:9\n\
        {}|Main@1:1 ( v main@1:1 )\n\
        ;import A|Main@1:1 ( v main@1:1 ) ; 1:2 A@1:9\n\
        module M where import A}|grammar 1:24\n\
        module M where }|M@1:8\n\
        module M where import A; }|M@1:8 ; 1:16 A@1:23";
    run(&rt, rt.alloc(), ROWS)?;
    Ok(())
}

/// Pragmas.
#[test]
fn pragmas(rt: HostRuntime) -> Result<(), Fail> {
    const ROWS: &str = "\
        {-# LANGUAGE Haskell2010 #-}|Main@1:1 ( v main@1:1 )\n\
        {-# LANGUAGE NoImplicitPrelude #-}~module M where|M@2:8 -prelude\n\
        {-# LANGUAGE ImplicitPrelude #-}~module M where|M@2:8 +prelude\n\
        {-#language  NoMonomorphismRestriction#-}module M where|M@1:49 -restrict\n\
        {-# LANGUAGE MonomorphismRestriction , NoImplicitPrelude #-}~module M where|M@2:8 -prelude +restrict\n\
        {-# LanguagE~  NoImplicitPrelude,~  ImplicitPrelude~#-}~module M where|M@5:8 +prelude\n\
        {-# LANGUAGE ImplicitPrelude #-}~{-# LANGUAGE NoImplicitPrelude #-}~module M where|M@3:8 -prelude\n\
        {-# LANGUAGE GADTs #-}|extension 1:14 GADTs\n\
        {-# LANGUAGE Haskell2010, Foo, Bar #-}|extension 1:27 Foo\n\
        {-# LANGUAGE~ Haskell2010,~   Foo' #-}|extension 3:4 Foo'\n\
        {-# LANGUAGE\tFoo #-}|extension 1:17 Foo\n\
        {-# LANGUAGE noImplicitPrelude #-}|extension 1:14 noImplicitPrelude\n\
        {-# OPTIONS x #-}~{-# LANGUAGE #-}~module M where|M@3:8\n\
        module M where~{-# LANGUAGE Foo #-}~import A|M@1:8 ; 3:1 A@3:8\n\
        -- x~{-# LANGUAGE NoImplicitPrelude #-}~import A|Main@1:1 ( v main@1:1 ) ; 3:1 A@3:8 -prelude\n\
        module M where~import {-# SOURCE #-} A|M@1:8 ; 2:1 source A@2:23\n\
        module M where~import {-# SOURCE #-} qualified A|M@1:8 ; 2:1 source qualified A@2:33\n\
        import {-#source#-} A|Main@1:1 ( v main@1:1 ) ; 1:1 source A@1:21\n\
        import qualified {-# SOURCE #-} A|Main@1:1 ( v main@1:1 ) ; 1:1 qualified A@1:33\n\
        import {-# LANGUAGE Foo #-} A|Main@1:1 ( v main@1:1 ) ; 1:1 A@1:29";
    run(&rt, rt.alloc(), ROWS)?;
    Ok(())
}

/// Headers that are cut off.
#[test]
fn cuts(rt: HostRuntime) -> Result<(), Fail> {
    const ROWS: &str = "\
        module|grammar 1:1\n\
        module A|grammar 1:8\n\
        module A (|grammar 1:10\n\
        module A (f|grammar 1:11\n\
        module A (f,|grammar 1:12\n\
        module A (f)|grammar 1:12\n\
        module A (T(|grammar 1:12\n\
        module A (T(..|grammar 1:13\n\
        module A ((+|grammar 1:12\n\
        module A (module|grammar 1:11\n\
        import|grammar 1:1\n\
        import qualified|grammar 1:8\n\
        import {-# SOURCE #-}|grammar 1:8\n\
        { import {-# SOURCE #-}|grammar 1:10\n\
        import A as|grammar 1:10\n\
        import A hiding|grammar 1:10\n\
        import A (|grammar 1:10\n\
        import A (f|grammar 1:11\n\
        module A where {|A@1:8\n\
        module A where {import B|A@1:8 ; 1:17 B@1:24";
    run(&rt, rt.alloc(), ROWS)?;
    Ok(())
}

/// Places at which no lexeme begins.
#[test]
fn bad_lexemes(rt: HostRuntime) -> Result<(), Fail> {
    const ROWS: &str = "\
        \"|lexeme 1:1\n\
        module A (f, \"|lexeme 1:14\n\
        module A where~import B~\"|lexeme 3:1\n\
        module A where~import B~x \"|A@1:8 ; 2:1 B@2:8\n\
        module A where x \"|A@1:8\n\
        import B C \"|grammar 1:10\n\
        {-# LANGUAGE NoImplicitPrelude #-} \"|lexeme 1:36\n\
        {-# LANGUAGE Foo #-} \"|extension 1:14 Foo";
    run(&rt, rt.alloc(), ROWS)?;
    Ok(())
}
