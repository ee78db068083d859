//! Writing the plain interface of a module.
ghost use Rattle.std.specs.Prelude.{IfOk};
ghost use Rattle.plain_scope.specs.Offered.{Fits, IsSound};
ghost use Rattle.plain_face.specs.Interface.{IsInterface};

use crate::decls::sorted_decls;
use crate::exports::sorted_exports;
use crate::sections::{put_head, put_sections};
use crate::table::name_table;
use mk_base::list::List;
use mk_base::memory::NoMemory;
use plain_scope::scope::Content;
use std::alloc::Global;

/// The plain interface of a sound module.
pub fn interface_bytes(alloc: Global, unit: &[u8], content: &Content) -> Result<List<u8>, NoMemory>
    requires sound { IsSound unit.now content.now }
    requires fits { Fits unit.now content.now }
    ensures { IfOk result (λ bytes. IsInterface unit.now content.now bytes) }
{
    let names = name_table(alloc, unit, content)?;
    let decls = sorted_decls(alloc, content)?;
    let exports = sorted_exports(alloc, unit, content)?;
    let mut out = List::new(alloc);
    put_head(&mut out, unit, &content.module)?;
    put_sections(
        alloc,
        &mut out,
        unit,
        &content.module,
        names.as_slice(),
        decls.as_slice(),
        exports.as_slice(),
    )?;
    Ok(out)
}
