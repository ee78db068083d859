//! A file: its name and its bytes.
ghost use Rattle.std.specs.Prelude.{◌≡◌, ◌↔◌, IsTrue, IfOk};

use mk_base::list::List;
use mk_base::memory::NoMemory;
use mk_base::plain::Plain;
use mk_base::text::Text;
use std::alloc::Global;

/// A file: its name, and all of its bytes in order.
#[derive(Debug, Drop)]
pub struct File {
    pub name: Text,
    pub bytes: List<u8>,
}

impl File {
    /// A second file, equal to this one. At `NoMemory` this one is as before.
    pub fn copy(&self, alloc: Global) -> Result<File, NoMemory>
        ensures { IfOk result (λ f. f ≡ self.now) }
    {
        let name = self.name.copy(alloc)?;
        let bytes = self.bytes.copy(alloc)?;
        Ok(File { name, bytes })
    }
}

/// Whether two files are the same in name and bytes.
pub fn same_file(a: &File, b: &File) -> bool
    ensures { IsTrue result ↔ (a.now ≡ b.now) }
{
    a.name == b.name && a.bytes.same(&b.bytes)
}

impl Plain for File {
    fn same(&self, other: &File) -> bool {
        same_file(self, other)
    }

    fn copy(&self, alloc: Global) -> Result<File, NoMemory> {
        File::copy(self, alloc)
    }
}
