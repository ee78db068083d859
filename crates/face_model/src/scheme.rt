//! Types with a context, for any types in place of their variables.
use mk_base::list::List;
use mk_base::memory::NoMemory;
use mk_base::name::Name;
use mk_base::plain::Plain;
use mk_base::ty::Ty;
use std::alloc::Global;

/// A constraint: a type is an instance of a class (Haskell 2010 Report, section 4.1.3).
#[derive(Debug, Drop)]
pub struct Constraint {
    /// The name of the class.
    pub class: Name,
    /// The type, with its synonyms expanded.
    pub ty: Ty,
}

/// A type scheme: a type with a context, for any types in place of its variables (Haskell 2010 Report, section 4.1.4).
#[derive(Debug, Drop)]
pub struct Scheme {
    /// How many type variables there are; they are the numbers below this one.
    pub vars: u32,
    /// What has to hold of the types that stand for the variables.
    pub context: List<Constraint>,
    /// The type, with its synonyms expanded.
    pub body: Ty,
}

impl Plain for Constraint {
    fn same(&self, other: &Constraint) -> bool {
        self.class.same(&other.class) && self.ty.same(&other.ty)
    }

    fn copy(&self, alloc: Global) -> Result<Constraint, NoMemory> {
        let class = self.class.copy(alloc)?;
        let ty = self.ty.copy(alloc)?;
        Ok(Constraint { class, ty })
    }
}

impl Plain for Scheme {
    fn same(&self, other: &Scheme) -> bool {
        self.vars == other.vars && self.context.same(&other.context) && self.body.same(&other.body)
    }

    fn copy(&self, alloc: Global) -> Result<Scheme, NoMemory> {
        let context = self.context.copy(alloc)?;
        let body = self.body.copy(alloc)?;
        Ok(Scheme {
            vars: self.vars,
            context,
            body,
        })
    }
}
