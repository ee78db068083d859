//! The modules of packages, as they are handed in.
use mk_base::list::List;
use mk_base::memory::NoMemory;
use mk_base::name::{ModName, Unit};
use mk_base::plain::Plain;
use std::alloc::Global;

/// Whether a package's interface can be used: its bytes are an interface of its unit and module, and all names in it
/// are there.
#[derive(Clone, Copy, Debug, PartialEq, Eq)]
pub enum PackageState {
    Good,
    Damaged,
    Dangling,
}

/// A module of a package, with the modules that its interface imports.
#[derive(Debug, Drop)]
pub struct PackageModule {
    pub unit: Unit,
    pub module: ModName,
    pub reaches: List<ModName>,
    pub state: PackageState,
}

impl Plain for PackageState {
    fn same(&self, other: &PackageState) -> bool {
        *self == *other
    }

    fn copy(&self, _alloc: Global) -> Result<PackageState, NoMemory> {
        Ok(*self)
    }
}

impl Plain for PackageModule {
    fn same(&self, other: &PackageModule) -> bool {
        self.unit.same(&other.unit)
            && self.module.same(&other.module)
            && self.reaches.same(&other.reaches)
            && self.state.same(&other.state)
    }

    fn copy(&self, alloc: Global) -> Result<PackageModule, NoMemory> {
        Ok(PackageModule {
            unit: self.unit.copy(alloc)?,
            module: self.module.copy(alloc)?,
            reaches: self.reaches.copy(alloc)?,
            state: self.state.copy(alloc)?,
        })
    }
}
