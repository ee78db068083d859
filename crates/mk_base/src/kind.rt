//! Kinds.
ghost use Rattle.std.specs.Prelude.{◌≡◌, ◌↔◌, ◌++◌, ℕ, List as Row, IsTrue, IfOk, OnOk, OnErr};
ghost use Rattle.mk_base.specs.Kinds.{kind_text};

use crate::list::List;
use crate::memory::NoMemory;
use sqlite_items::Boxed;
use std::alloc::Global;

/// A kind (Haskell 2010 Report, section 4.1.1): that of types with values, or that of type functions.
#[derive(Debug, Drop)]
pub enum Kind {
    Star,
    Arrow(Boxed<Kind>, Boxed<Kind>),
}

/// Whether two kinds are the same kind.
pub fn same_kind(a: &Kind, b: &Kind) -> bool
    ensures { IsTrue result ↔ (a.now ≡ b.now) }
{
    match (a, b) {
        (Kind::Star, Kind::Star) => true,
        (Kind::Arrow(f, x), Kind::Arrow(g, y)) => {
            same_kind(f.get(), g.get()) && same_kind(x.get(), y.get())
        }
        _ => false,
    }
}

/// A second kind, equal to this one.
pub fn copy_kind(alloc: Global, kind: &Kind) -> Result<Kind, NoMemory>
    ensures { IfOk result (λ c. c ≡ kind.now) }
{
    match kind {
        Kind::Star => Ok(Kind::Star),
        Kind::Arrow(f, x) => {
            let f = Boxed::new(alloc, copy_kind(alloc, f.get())?)?;
            let x = Boxed::new(alloc, copy_kind(alloc, x.get())?)?;
            Ok(Kind::Arrow(f, x))
        }
    }
}

/// Puts the text of a kind behind `out`: `*` and `->`, with every arrow in parentheses. At want of memory `out` is as
/// before.
pub fn print_kind(out: &mut List<u8>, kind: &Kind) -> Result<(), NoMemory>
    ensures ok { OnOk result (out.new ≡ out.old ++ kind_text kind.now) }
    ensures err { OnErr result (out.new ≡ out.old) }
{
    let before = out.len();
    let result = put_kind(out, kind);
    if result.is_err() {
        out.truncate(before);
    }
    result
}

/// Puts the text of a kind behind `out`, or at want of memory a beginning of it.
fn put_kind(out: &mut List<u8>, kind: &Kind) -> Result<(), NoMemory>
    ensures ok { OnOk result (out.new ≡ out.old ++ kind_text kind.now) }
    ensures err { OnErr result ((more : Row ℕ) × (out.new ≡ out.old ++ more)) }
{
    match kind {
        Kind::Star => out.push(b'*')?,
        Kind::Arrow(f, x) => {
            out.push(b'(')?;
            put_kind(out, f.get())?;
            out.extend(b" -> ")?;
            put_kind(out, x.get())?;
            out.push(b')')?;
        }
    }
    Ok(())
}
