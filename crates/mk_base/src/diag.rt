//! Diagnostics.
ghost use Rattle.std.specs.Prelude.{◌≡◌, ◌↔◌, IsTrue, IfOk};
ghost use Rattle.mk_base.specs.Order.{diag_cmp};

use crate::memory::NoMemory;
use crate::place::Pos;
use crate::text::Text;
use std::alloc::Global;
use std::cmp::Ordering;

/// A diagnostic: its place, its number (21 for `E21`), and its text without place and number.
#[derive(Clone, Debug, Drop, PartialEq, Eq, PartialOrd, Ord, Hash)]
pub struct Diag {
    pub at: Pos,
    pub code: u8,
    pub text: Text,
}

impl Diag {
    /// A second diagnostic, equal to this one.
    pub fn copy(&self, alloc: Global) -> Result<Diag, NoMemory>
        ensures { IfOk result (λ d. d ≡ self.now) }
    {
        let text = self.text.copy(alloc)?;
        Ok(Diag {
            at: self.at,
            code: self.code,
            text,
        })
    }
}

/// Whether two diagnostics are alike in place, number and text.
pub fn same_diag(a: &Diag, b: &Diag) -> bool
    ensures { IsTrue result ↔ (a.now ≡ b.now) }
{
    a == b
}

/// The order of diagnostics: by line, column, number and the bytes of the text.
pub fn order_diags(a: &Diag, b: &Diag) -> Ordering
    ensures { result ≡ diag_cmp a.now b.now }
{
    a.cmp(b)
}
