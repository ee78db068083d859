//! What a module sees of other modules.
ghost use Rattle.std.specs.Prelude.{◌≡◌, IfOk};
ghost use Rattle.face_model.specs.Environments.{Faces, AreFormed, first_decl, first_print, exports_of, insts_of, insts_up_to};

use crate::decl::Decl;
use crate::export::Export;
use crate::inst::Inst;
use mk_base::fingerprint::Fingerprint;
use mk_base::list::List;
use mk_base::memory::NoMemory;
use mk_base::name::{ModName, Name};
use std::alloc::Global;

/// An environment: a list of faces, each with the fingerprints of its declarations.
///
/// In each face the constraints of an instance are on its variables, and each type variable is below the count of its
/// scheme or of its list of kinds. No call changes the list, nor does want of memory, which is every call's only error.
pub trait Env {
    /// The list.
    ghost faces: { Self → Faces };

    /// The first declaration of a name; None exactly where the list has none.
    fn lookup(&mut self, alloc: Global, name: &Name) -> Result<Option<Decl>, NoMemory>
        ensures found { IfOk result (λ d. d ≡ first_decl (faces self.old) name.now) }
        ensures same { faces self.new ≡ faces self.old }
        ensures formed { AreFormed (faces self.old) };

    /// The instances of a class at a type constructor, by the names of their modules and then by place; those of
    /// several modules of one name in the order of the list.
    fn insts(&mut self, alloc: Global, class: &Name, head: &Name) -> Result<List<Inst>, NoMemory>
        ensures found { IfOk result (λ is. is ≡ insts_of (faces self.old) class.now head.now) }
        ensures same { faces self.new ≡ faces self.old }
        ensures formed { AreFormed (faces self.old) };

    /// How many of these instances stand in modules up to one by name, so that those of one more face can be put
    /// between them.
    fn insts_up_to(
        &mut self,
        alloc: Global,
        class: &Name,
        head: &Name,
        module: &ModName,
    ) -> Result<usize, NoMemory>
        ensures found { IfOk result (λ n. n ≡ insts_up_to (faces self.old) class.now head.now «module».now) }
        ensures same { faces self.new ≡ faces self.old }
        ensures formed { AreFormed (faces self.old) };

    /// What the first face of a module exports; None exactly where the list has no face of it.
    fn exports(&mut self, alloc: Global, module: &ModName) -> Result<Option<List<Export>>, NoMemory>
        ensures found { IfOk result (λ es. es ≡ exports_of (faces self.old) «module».now) }
        ensures same { faces self.new ≡ faces self.old }
        ensures formed { AreFormed (faces self.old) };

    /// The fingerprint of the first declaration of a name; None exactly where the list has no such declaration, or
    /// that one has no fingerprint.
    fn fingerprint(&mut self, alloc: Global, name: &Name) -> Result<Option<Fingerprint>, NoMemory>
        ensures found { IfOk result (λ p. p ≡ first_print (faces self.old) name.now) }
        ensures same { faces self.new ≡ faces self.old }
        ensures formed { AreFormed (faces self.old) };
}
