//! The face of the module `Prim` (Haskell 2010 Report, chapters 6 and 9).
ghost use Rattle.std.specs.Prelude.{◌≡◌, IfOk};
ghost use Rattle.face_model.specs.Formed.{FaceFormed};
ghost use Rattle.prim_table.specs.Table as spec;

use crate::decls::decls;
use crate::exports::exports;
use crate::insts::insts;
use face_model::face::Face;
use mk_base::memory::NoMemory;
use mk_base::name::{ModName, Node};
use mk_base::text::Text;
use std::alloc::Global;

/// The face of the module `Prim` of the unit `prim`: declarations and exports by name, instances by class and type.
///
/// Want of memory is the only error.
pub fn prim_face(alloc: Global) -> Result<Face, NoMemory>
    ensures { IfOk result (λ f. f ≡ spec.prim_face) }
{
    let text = Text::from_slice(alloc, b"Prim")?;
    let node = Node {
        module: ModName { text },
        boot: false,
    };
    let decls = decls(alloc)?;
    let insts = insts(alloc)?;
    let exports = exports(alloc)?;
    Ok(Face {
        node,
        decls,
        insts,
        exports,
    })
}

/// In the face each type variable is below the count of its scheme or of its list of kinds, and each constraint of an
/// instance is on one of its variables.
pub fn prim_face_is_formed()
    ensures { FaceFormed spec.prim_face }
{}
