//! What a module sees of other modules and of itself.
ghost use Rattle.own_env.specs.Own.{with_own};
ghost use Rattle.own_env.specs.Queries.{OwnAnswersAreTold};

use crate::own_face::OwnFace;
use face_envs::tables::is_later;
use face_model::decl::Decl;
use face_model::env::Env;
use face_model::export::Export;
use face_model::inst::Inst;
use mk_base::fingerprint::Fingerprint;
use mk_base::list::List;
use mk_base::memory::NoMemory;
use mk_base::name::{ModName, Name};
use std::alloc::Global;

/// An environment with one face more behind its own, which has no fingerprints.
///
/// `insts_up_to` answers NoMemory also where the count of the environment and that of the face have a sum that no
/// `usize` holds.
#[derive(Drop)]
pub struct OwnEnv<'a, E> {
    /// The environment.
    pub outer: &'a mut E,
    /// The face.
    pub own: &'a OwnFace<'a>,
}

impl<E: Env> Env for OwnEnv<'_, E> {
    ghost faces = { λ s. with_own (E.faces s.outer.now) s.own.now };

    fn lookup(&mut self, alloc: Global, name: &Name) -> Result<Option<Decl>, NoMemory> {
        let _own = self.own.face();
        match self.outer.lookup(alloc, name)? {
            Some(decl) => Ok(Some(decl)),
            None => self.own.decl(alloc, name),
        }
    }

    fn insts(&mut self, alloc: Global, class: &Name, head: &Name) -> Result<List<Inst>, NoMemory> {
        let own = self.own.face();
        let front = self
            .outer
            .insts_up_to(alloc, class, head, &own.node.module)?;
        let others = self.outer.insts(alloc, class, head)?;
        self.own.put_between(alloc, class, head, others, front)
    }

    fn insts_up_to(
        &mut self,
        alloc: Global,
        class: &Name,
        head: &Name,
        module: &ModName,
    ) -> Result<usize, NoMemory> {
        let own = self.own.face();
        let count = self.outer.insts_up_to(alloc, class, head, module)?;
        if is_later(&own.node.module, module) {
            return Ok(count);
        }
        match count.checked_add(self.own.count(class, head)) {
            Some(count) => Ok(count),
            None => Err(NoMemory),
        }
    }

    fn exports(
        &mut self,
        alloc: Global,
        module: &ModName,
    ) -> Result<Option<List<Export>>, NoMemory> {
        let _own = self.own.face();
        match self.outer.exports(alloc, module)? {
            Some(exports) => Ok(Some(exports)),
            None => self.own.exports(alloc, module),
        }
    }

    fn fingerprint(&mut self, alloc: Global, name: &Name) -> Result<Option<Fingerprint>, NoMemory> {
        let _own = self.own.face();
        self.outer.fingerprint(alloc, name)
    }
}

/// What is asked of faces with one more behind them is told by what is asked of those in front.
pub fn own_answers_are_told()
    ensures { OwnAnswersAreTold }
{}
