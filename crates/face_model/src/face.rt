//! What a module offers to the modules that import it.
use crate::decl::Decl;
use crate::export::Export;
use crate::inst::Inst;
use mk_base::list::List;
use mk_base::memory::NoMemory;
use mk_base::name::Node;
use mk_base::plain::Plain;
use std::alloc::Global;

/// The face of a node: all that other modules can see of it. It refers to everything by name.
#[derive(Debug, Drop)]
pub struct Face {
    /// The node.
    pub node: Node,
    /// What it declares; constructors, fields and methods stand with their type or class.
    pub decls: List<Decl>,
    /// The instances that it declares.
    pub insts: List<Inst>,
    /// The names that it exports, its own and those of other modules.
    pub exports: List<Export>,
}

impl Plain for Face {
    fn same(&self, other: &Face) -> bool {
        self.node.same(&other.node)
            && self.decls.same(&other.decls)
            && self.insts.same(&other.insts)
            && self.exports.same(&other.exports)
    }

    fn copy(&self, alloc: Global) -> Result<Face, NoMemory> {
        let node = self.node.copy(alloc)?;
        let decls = self.decls.copy(alloc)?;
        let insts = self.insts.copy(alloc)?;
        let exports = self.exports.copy(alloc)?;
        Ok(Face {
            node,
            decls,
            insts,
            exports,
        })
    }
}
