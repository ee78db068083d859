//! The environment of all faces that are kept.
ghost use Rattle.std.specs.Prelude.{◌≡◌};

use crate::shared::SharedFaces;
use crate::sight::Seen;
use face_model::decl::Decl;
use face_model::env::Env;
use face_model::export::Export;
use face_model::inst::Inst;
use mk_base::fingerprint::Fingerprint;
use mk_base::list::List;
use mk_base::memory::NoMemory;
use mk_base::name::{ModName, Name};
use std::alloc::Global;
use std::marker::Model;

/// An environment that owns its faces. No question goes through their list.
#[derive(Drop)]
pub struct PlainEnv {
    faces: SharedFaces,
}

impl Model for PlainEnv {
    ghost use Rattle.std.specs.Coded.{codes};
    ghost use Rattle.mk_base.specs.contracts.ty.Ty as e;
    ghost use Rattle.mk_base.specs.contracts.kind.Kind as k;
    ghost use Rattle.face_model.specs.Environments.{Faces};

    ghost Value = { Faces };

    ghost coded = { Prim.hlevel (codes, e.the_row.coded, k.the_row.coded) };

    ghost view = { λ e. e.faces };
}

impl PlainEnv {
    /// The environment of these faces, in their order, with no memory.
    pub fn new(faces: SharedFaces) -> PlainEnv
        ensures { result ≡ faces }
    {
        PlainEnv { faces }
    }

    /// The faces back, with no memory.
    pub fn into_faces(self) -> SharedFaces
        ensures { result ≡ self }
    {
        let PlainEnv { faces } = self;
        faces
    }
}

impl Env for PlainEnv {
    ghost faces = { λ e. e };

    fn lookup(&mut self, alloc: Global, name: &Name) -> Result<Option<Decl>, NoMemory> {
        self.faces.lookup(alloc, Seen::All, name)
    }

    fn insts(&mut self, alloc: Global, class: &Name, head: &Name) -> Result<List<Inst>, NoMemory> {
        self.faces.insts(alloc, Seen::All, class, head)
    }

    fn insts_up_to(
        &mut self,
        _alloc: Global,
        class: &Name,
        head: &Name,
        module: &ModName,
    ) -> Result<usize, NoMemory> {
        Ok(self.faces.insts_up_to(Seen::All, class, head, module))
    }

    fn exports(
        &mut self,
        alloc: Global,
        module: &ModName,
    ) -> Result<Option<List<Export>>, NoMemory> {
        self.faces.exports(alloc, Seen::All, module)
    }

    fn fingerprint(
        &mut self,
        _alloc: Global,
        name: &Name,
    ) -> Result<Option<Fingerprint>, NoMemory> {
        Ok(self.faces.fingerprint(Seen::All, name))
    }
}
