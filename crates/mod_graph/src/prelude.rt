//! The implicit import of Prelude (Haskell 2010 Report, section 5.6.1).
ghost use Rattle.std.specs.Prelude.{◌≡◌, ◌∷◌, IfOk};
ghost use Rattle.mod_graph.specs.Prelude as spec;

use hs_syntax::header::{Header, ImportItem};
use hs_syntax::name_ref::NameRef;
use mk_base::list::List;
use mk_base::memory::NoMemory;
use mk_base::place::Pos;
use mk_base::plain::Plain;
use mk_base::text::Text;
use std::alloc::Global;

/// The import of Prelude that no source writes; it stands at 1:1.
fn implicit_import(alloc: Global) -> Result<ImportItem, NoMemory>
    ensures { IfOk result (λ i. i ≡ spec.implicit_import) }
{
    let at = Pos { line: 1, col: 1 };
    let module = NameRef {
        qualifier: Text::new(alloc),
        text: Text::from_slice(alloc, b"Prelude")?,
        at,
        to: None,
    };
    Ok(ImportItem {
        at,
        source: false,
        qualified: false,
        module,
        alias: None,
        list: None,
    })
}

/// Whether some import is one of Prelude, in whatever form.
fn names_prelude(imports: &[ImportItem]) -> bool
    ensures { result ≡ spec.names_prelude imports.now }
{
    imports.iter().any(|import| import.module.text.as_slice() == b"Prelude".as_slice())
}

/// The implicit import, and then copies of these.
fn behind_implicit(alloc: Global, imports: &[ImportItem]) -> Result<List<ImportItem>, NoMemory>
    ensures { IfOk result (λ is. is ≡ spec.implicit_import ∷ imports.now) }
{
    let mut all = List::new(alloc);
    all.push(implicit_import(alloc)?)?;
    for import in imports {
        all.push(import.copy(alloc)?)?;
    }
    Ok(all)
}

/// The effective header of a module. Where `prelude`, which is what the flags and the module's pragmas say, is true and
/// no import names Prelude, the module imports it as if by a first import at 1:1; else it is the header as it stands.
pub fn with_prelude(alloc: Global, header: &Header, prelude: bool) -> Result<Header, NoMemory>
    ensures { IfOk result (λ h. h ≡ spec.with_prelude header.now prelude) }
{
    let imports = header.imports.as_slice();
    if !prelude || names_prelude(imports) {
        return header.copy(alloc);
    }
    let imports = behind_implicit(alloc, imports)?;
    Ok(Header {
        name: header.name.copy(alloc)?,
        at: header.at,
        exports: header.exports.copy(alloc)?,
        imports,
        prelude: header.prelude,
        restrict: header.restrict,
    })
}

/// The imports of the effective header of a module.
pub fn effective_imports(
    alloc: Global,
    header: &Header,
    prelude: bool,
) -> Result<List<ImportItem>, NoMemory>
    ensures { IfOk result (λ is. is ≡ (spec.with_prelude header.now prelude).imports) }
{
    let imports = header.imports.as_slice();
    if prelude && !names_prelude(imports) {
        return behind_implicit(alloc, imports);
    }
    header.imports.copy(alloc)
}
