//! How operators group.
use mk_base::memory::NoMemory;
use mk_base::plain::Plain;
use std::alloc::Global;

/// To which side an operator groups with others of its level: `infixl`, `infixr` or `infix`.
#[derive(Clone, Copy, Debug, PartialEq, Eq, PartialOrd, Ord, Hash)]
pub enum Assoc {
    Left,
    Right,
    Neither,
}

/// The fixity of an operator (Haskell 2010 Report, section 4.4.2).
#[derive(Clone, Copy, Debug, PartialEq, Eq, PartialOrd, Ord, Hash)]
pub struct Fixity {
    /// The side to which it groups.
    pub assoc: Assoc,
    /// How tightly it binds, from 0 to 9.
    pub level: u8,
}

impl Plain for Assoc {
    fn same(&self, other: &Assoc) -> bool {
        *self == *other
    }

    fn copy(&self, _alloc: Global) -> Result<Assoc, NoMemory> {
        Ok(*self)
    }
}

impl Plain for Fixity {
    fn same(&self, other: &Fixity) -> bool {
        *self == *other
    }

    fn copy(&self, _alloc: Global) -> Result<Fixity, NoMemory> {
        Ok(*self)
    }
}
