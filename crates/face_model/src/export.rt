//! Exported names.
ghost use Rattle.std.specs.Prelude.{◌≡◌};
ghost use Rattle.face_model.specs.Exports.{export_cmp};

use mk_base::memory::NoMemory;
use mk_base::name::Name;
use mk_base::plain::Plain;
use std::alloc::Global;
use std::cmp::Ordering;

/// An exported name (Haskell 2010 Report, section 5.2).
#[derive(Clone, Debug, Drop, PartialEq, Eq, PartialOrd, Ord, Hash)]
pub struct Export {
    /// The name.
    pub name: Name,
    /// The type or class to which a constructor, a field or a method belongs.
    pub parent: Option<Name>,
}

impl Plain for Export {
    fn same(&self, other: &Export) -> bool {
        self.name.same(&other.name) && self.parent.same(&other.parent)
    }

    fn copy(&self, alloc: Global) -> Result<Export, NoMemory> {
        let name = self.name.copy(alloc)?;
        let parent = self.parent.copy(alloc)?;
        Ok(Export { name, parent })
    }
}

/// The order of exports: by name, then those without a parent, then by parent.
pub fn order_exports(a: &Export, b: &Export) -> Ordering
    ensures { result ≡ export_cmp a.now b.now }
{
    a.cmp(b)
}
