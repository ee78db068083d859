//! Values that are told apart and copied exactly.
ghost use Rattle.std.specs.Prelude.{◌≡◌, ◌↔◌, IsTrue, IfOk};

use crate::diag::Diag;
use crate::fingerprint::Fingerprint;
use crate::kind::{Kind, copy_kind, same_kind};
use crate::list::List;
use crate::memory::NoMemory;
use crate::name::{ModName, Name, Node, Occ, Space, Unit};
use crate::place::{NodeId, Pos};
use crate::text::Text;
use crate::ty::{Ty, copy_ty, same_ty};
use std::alloc::Global;

/// Plain data: two values are told apart exactly, and a copy is equal to the original.
pub trait Plain: Drop {
    /// Whether the two are the same value.
    fn same(&self, other: &Self) -> bool
        ensures { IsTrue result ↔ (self.now ≡ other.now) };

    /// A second value, equal to this one.
    fn copy(&self, alloc: Global) -> Result<Self, NoMemory>
        ensures { IfOk result (λ c. c ≡ self.now) };
}

impl Plain for u8 {
    fn same(&self, other: &u8) -> bool {
        *self == *other
    }

    fn copy(&self, _alloc: Global) -> Result<u8, NoMemory> {
        Ok(*self)
    }
}

impl Plain for u32 {
    fn same(&self, other: &u32) -> bool {
        *self == *other
    }

    fn copy(&self, _alloc: Global) -> Result<u32, NoMemory> {
        Ok(*self)
    }
}

impl Plain for u64 {
    fn same(&self, other: &u64) -> bool {
        *self == *other
    }

    fn copy(&self, _alloc: Global) -> Result<u64, NoMemory> {
        Ok(*self)
    }
}

impl Plain for bool {
    fn same(&self, other: &bool) -> bool {
        *self == *other
    }

    fn copy(&self, _alloc: Global) -> Result<bool, NoMemory> {
        Ok(*self)
    }
}

impl Plain for Space {
    fn same(&self, other: &Space) -> bool {
        *self == *other
    }

    fn copy(&self, _alloc: Global) -> Result<Space, NoMemory> {
        Ok(*self)
    }
}

impl Plain for NodeId {
    fn same(&self, other: &NodeId) -> bool {
        *self == *other
    }

    fn copy(&self, _alloc: Global) -> Result<NodeId, NoMemory> {
        Ok(*self)
    }
}

impl Plain for Pos {
    fn same(&self, other: &Pos) -> bool {
        *self == *other
    }

    fn copy(&self, _alloc: Global) -> Result<Pos, NoMemory> {
        Ok(*self)
    }
}

impl Plain for Fingerprint {
    fn same(&self, other: &Fingerprint) -> bool {
        *self == *other
    }

    fn copy(&self, _alloc: Global) -> Result<Fingerprint, NoMemory> {
        Ok(*self)
    }
}

impl Plain for Text {
    fn same(&self, other: &Text) -> bool {
        self == other
    }

    fn copy(&self, alloc: Global) -> Result<Text, NoMemory> {
        Text::copy(self, alloc)
    }
}

impl Plain for Unit {
    fn same(&self, other: &Unit) -> bool {
        self == other
    }

    fn copy(&self, alloc: Global) -> Result<Unit, NoMemory> {
        Unit::copy(self, alloc)
    }
}

impl Plain for ModName {
    fn same(&self, other: &ModName) -> bool {
        self == other
    }

    fn copy(&self, alloc: Global) -> Result<ModName, NoMemory> {
        ModName::copy(self, alloc)
    }
}

impl Plain for Occ {
    fn same(&self, other: &Occ) -> bool {
        self == other
    }

    fn copy(&self, alloc: Global) -> Result<Occ, NoMemory> {
        Occ::copy(self, alloc)
    }
}

impl Plain for Name {
    fn same(&self, other: &Name) -> bool {
        self == other
    }

    fn copy(&self, alloc: Global) -> Result<Name, NoMemory> {
        Name::copy(self, alloc)
    }
}

impl Plain for Node {
    fn same(&self, other: &Node) -> bool {
        self == other
    }

    fn copy(&self, alloc: Global) -> Result<Node, NoMemory> {
        Node::copy(self, alloc)
    }
}

impl Plain for Diag {
    fn same(&self, other: &Diag) -> bool {
        self == other
    }

    fn copy(&self, alloc: Global) -> Result<Diag, NoMemory> {
        Diag::copy(self, alloc)
    }
}

impl Plain for Kind {
    fn same(&self, other: &Kind) -> bool {
        same_kind(self, other)
    }

    fn copy(&self, alloc: Global) -> Result<Kind, NoMemory> {
        copy_kind(alloc, self)
    }
}

impl Plain for Ty {
    fn same(&self, other: &Ty) -> bool {
        same_ty(self, other)
    }

    fn copy(&self, alloc: Global) -> Result<Ty, NoMemory> {
        copy_ty(alloc, self)
    }
}

impl<T: Plain> Plain for Option<T> {
    fn same(&self, other: &Option<T>) -> bool {
        match (self, other) {
            (Some(a), Some(b)) => a.same(b),
            (None, None) => true,
            _ => false,
        }
    }

    fn copy(&self, alloc: Global) -> Result<Option<T>, NoMemory> {
        match self {
            Some(a) => Ok(Some(a.copy(alloc)?)),
            None => Ok(None),
        }
    }
}

impl<T: Plain> Plain for List<T> {
    fn same(&self, other: &List<T>) -> bool {
        same_items(self.as_slice(), other.as_slice())
    }

    fn copy(&self, alloc: Global) -> Result<List<T>, NoMemory> {
        let items = copied_items(alloc, self.as_slice())?;
        Ok(List::from_vec(items))
    }
}

/// Whether two slices have the same elements.
pub fn same_items<T: Plain>(a: &[T], b: &[T]) -> bool
    ensures { IsTrue result ↔ (a.now ≡ b.now) }
{
    let count = a.len();
    if b.len() != count {
        return false;
    }
    for i in 0..count {
        if !a[i].same(&b[i]) {
            return false;
        }
    }
    true
}

/// The same elements again.
pub fn copied_items<T: Plain>(alloc: Global, from: &[T]) -> Result<Vec<T>, NoMemory>
    ensures { IfOk result (λ v. v.items ≡ from.now) }
{
    let mut to = Vec::new(alloc);
    for x in from {
        to.push(x.copy(alloc)?)?;
    }
    Ok(to)
}
