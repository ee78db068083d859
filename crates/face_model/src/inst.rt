//! Instances of classes.
use crate::scheme::Constraint;
use mk_base::list::List;
use mk_base::memory::NoMemory;
use mk_base::name::Name;
use mk_base::plain::Plain;
use std::alloc::Global;

/// An instance of a class: that of a type constructor at type variables (Haskell 2010 Report, section 4.3.2).
#[derive(Debug, Drop)]
pub struct Inst {
    /// The name of the class.
    pub class: Name,
    /// The name of the type constructor.
    pub head: Name,
    /// How many type variables the constructor is applied to; they are the numbers below this one.
    pub vars: u32,
    /// The constraints on the variables.
    pub context: List<Constraint>,
}

impl Plain for Inst {
    fn same(&self, other: &Inst) -> bool {
        self.class.same(&other.class)
            && self.head.same(&other.head)
            && self.vars == other.vars
            && self.context.same(&other.context)
    }

    fn copy(&self, alloc: Global) -> Result<Inst, NoMemory> {
        let class = self.class.copy(alloc)?;
        let head = self.head.copy(alloc)?;
        let context = self.context.copy(alloc)?;
        Ok(Inst {
            class,
            head,
            vars: self.vars,
            context,
        })
    }
}
