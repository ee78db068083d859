//! The environment of some of the faces that are kept.
ghost use Rattle.std.specs.Prelude.{◌≡◌};
ghost use Rattle.face_envs.specs.Sight.{AreRising, at_places};

use crate::shared::SharedFaces;
use crate::sight::Seen;
use face_model::decl::Decl;
use face_model::env::Env;
use face_model::export::Export;
use face_model::inst::Inst;
use mk_base::fingerprint::Fingerprint;
use mk_base::list::List;
use mk_base::memory::NoMemory;
use mk_base::name::{ModName, Name};
use std::alloc::Global;
use std::marker::Model;

/// An environment over lent faces: those at some places. It copies none of them, makes no table, and no question goes
/// through the list.
#[derive(Drop)]
pub struct SeenEnv<'a> {
    shared: &'a SharedFaces,
    places: &'a [usize],
}

impl<'a> Model for SeenEnv<'a> {
    ghost use Rattle.std.specs.Coded.{codes};
    ghost use Rattle.mk_base.specs.contracts.ty.Ty as e;
    ghost use Rattle.mk_base.specs.contracts.kind.Kind as k;
    ghost use Rattle.face_model.specs.Environments.{Faces};
    ghost use Rattle.face_envs.specs.Sight.{AreRising, at_places};

    ghost Value = { Faces };

    ghost coded = { Prim.hlevel (codes, e.the_row.coded, k.the_row.coded) };

    ghost view = { λ e. at_places e.shared.now e.places.now };

    ghost invariant = { λ e. AreRising e.places.now };
}

impl<'a> SeenEnv<'a> {
    /// The environment of the faces at some places, counted from 0, each greater than the one before it. A place that
    /// has no face is passed over.
    pub fn new(shared: &'a SharedFaces, places: &'a [usize]) -> SeenEnv<'a>
        requires { AreRising places.now }
        ensures { result ≡ at_places shared.now places.now }
    {
        SeenEnv { shared, places }
    }
}

impl Env for SeenEnv<'_> {
    ghost faces = { λ e. e };

    fn lookup(&mut self, alloc: Global, name: &Name) -> Result<Option<Decl>, NoMemory> {
        self.shared.lookup(alloc, Seen::Places(self.places), name)
    }

    fn insts(&mut self, alloc: Global, class: &Name, head: &Name) -> Result<List<Inst>, NoMemory> {
        self.shared
            .insts(alloc, Seen::Places(self.places), class, head)
    }

    fn insts_up_to(
        &mut self,
        _alloc: Global,
        class: &Name,
        head: &Name,
        module: &ModName,
    ) -> Result<usize, NoMemory> {
        Ok(
            self.shared
                .insts_up_to(Seen::Places(self.places), class, head, module),
        )
    }

    fn exports(
        &mut self,
        alloc: Global,
        module: &ModName,
    ) -> Result<Option<List<Export>>, NoMemory> {
        self.shared
            .exports(alloc, Seen::Places(self.places), module)
    }

    fn fingerprint(
        &mut self,
        _alloc: Global,
        name: &Name,
    ) -> Result<Option<Fingerprint>, NoMemory> {
        Ok(self.shared.fingerprint(Seen::Places(self.places), name))
    }
}
