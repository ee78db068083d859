//! What constraints come to.
ghost use Rattle.std.specs.Prelude.{◌≡◌, ◌≤◌, ◌^◌, IfOk, OnErr};
ghost use Rattle.class_env.specs.Answers.{fails_at};

use face_model::scheme::Constraint;
use mk_base::list::List;
use mk_base::memory::NoMemory;
use mk_base::name::Name;
use std::alloc::Global;

/// A class and a type constructor.
#[derive(Debug, Drop)]
pub struct Pair {
    /// The name of the class.
    pub class: Name,
    /// The name of the type constructor.
    pub head: Name,
}

/// Why a constraint has no result.
#[derive(Debug, Drop)]
pub enum Fault {
    /// No instance of the class at the constructor has as many variables as the constructor has arguments.
    NoInstance(Pair),
    /// Several instances have.
    Several(Pair),
    /// The type is a variable that is applied to types.
    NoInstanceVar,
}

/// What is gathered from constraints.
#[derive(Debug, Drop)]
pub struct Gathered {
    /// The constraints that are left, each on a variable.
    pub rest: List<Constraint>,
    /// The pairs whose instances were looked up.
    pub met: List<Pair>,
}

/// What a list of constraints comes to.
#[derive(Debug, Drop)]
pub enum Reduced {
    /// Each constraint has a result.
    Rest {
        /// The constraints that are left, each on a variable, in the order in which they are come upon. One that is
        /// come upon several times is here as often.
        rest: List<Constraint>,
        /// The pairs whose instances were looked up, in the same order and with the same repetition.
        met: List<Pair>,
    },
    /// The first constraint without a result, at a place counted from 0: it needs a pair that has no instance with as
    /// many variables as the constructor has arguments.
    NoInstance {
        at: u32,
        pair: Pair,
    },
    /// The same for a pair that has several such instances.
    Several {
        at: u32,
        pair: Pair,
    },
    /// The same for a variable that is applied to types.
    NoInstanceVar {
        at: u32,
    },
}

impl Pair {
    /// A second pair, equal to this one.
    pub fn copy(&self, alloc: Global) -> Result<Pair, NoMemory>
        ensures { IfOk result (λ p. p ≡ self.now) }
    {
        let class = self.class.copy(alloc)?;
        let head = self.head.copy(alloc)?;
        Ok(Pair { class, head })
    }
}

impl Fault {
    /// The fault as that of the constraint at a place; want of memory exactly where the place is 2^32 or more.
    pub fn at(self, at: usize) -> Result<Reduced, NoMemory>
        ensures told { IfOk result (λ r. r ≡ fails_at at self) }
        ensures far { OnErr result (2 ^ 32 ≤ at) }
    {
        match u32::try_from(at) {
            Ok(at) => Ok(self.told(at)),
            Err(_) => Err(NoMemory),
        }
    }

    fn told(self, at: u32) -> Reduced
        ensures { result ≡ fails_at at self }
    {
        match self {
            Fault::NoInstance(pair) => Reduced::NoInstance { at, pair },
            Fault::Several(pair) => Reduced::Several { at, pair },
            Fault::NoInstanceVar => Reduced::NoInstanceVar { at },
        }
    }
}
