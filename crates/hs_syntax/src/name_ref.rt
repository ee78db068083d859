//! Names in a tree, and what they refer to.
ghost use Rattle.std.specs.Prelude.{◌≡◌, ◌↔◌, IsTrue, IfOk};

use mk_base::memory::NoMemory;
use mk_base::name::Name;
use mk_base::place::Pos;
use mk_base::plain::Plain;
use mk_base::text::Text;
use sqlite_items::Boxed;
use std::alloc::Global;

/// What a name refers to (Haskell 2010 Report, section 5.5).
#[derive(Debug, Drop)]
pub enum Target {
    /// An entity by its full name, with the type or class that it belongs to, if it belongs to one.
    Global { name: Name, parent: Option<Name> },
    /// A value that the module itself binds, by its number there.
    Local(u32),
}

/// A name as it is written in a source: a variable, a constructor, a type, a class or a module.
#[derive(Debug, Drop)]
pub struct NameRef {
    /// The module before the last dot of a qualified name; empty for any other name.
    pub qualifier: Text,
    /// The name itself, in UTF-8; for an operator without parentheses or backquotes, for a module with all its dots.
    pub text: Text,
    /// The place of the name's own lexeme.
    pub at: Pos,
    /// What it refers to, where that is known; a parser leaves it open.
    pub to: Option<Boxed<Target>>,
}

/// An operator, as it stands between operands.
#[derive(Debug, Drop)]
pub struct OpName {
    /// The place of the operator, or of its first backquote.
    pub at: Pos,
    /// Its name, without backquotes.
    pub name: NameRef,
}

/// `qop`: an operator of a variable or of a constructor.
#[derive(Debug, Drop)]
pub enum QopTree {
    Var { at: Pos, name: NameRef },
    Con { at: Pos, name: NameRef },
}

impl Plain for Target {
    fn same(&self, other: &Target) -> bool {
        match (self, other) {
            (Target::Global { name: a, parent: p }, Target::Global { name: b, parent: q }) =>
                a.same(b) && p.same(q),
            (Target::Local(a), Target::Local(b)) => *a == *b,
            _ => false,
        }
    }

    fn copy(&self, alloc: Global) -> Result<Target, NoMemory> {
        match self {
            Target::Global { name, parent } => {
                let name = name.copy(alloc)?;
                let parent = parent.copy(alloc)?;
                Ok(Target::Global { name, parent })
            }
            Target::Local(number) => Ok(Target::Local(*number)),
        }
    }
}

/// Whether two names refer to the same thing.
fn same_target(a: &Option<Boxed<Target>>, b: &Option<Boxed<Target>>) -> bool
    ensures { IsTrue result ↔ (a.now ≡ b.now) }
{
    match (a, b) {
        (None, None) => true,
        (Some(x), Some(y)) => x.get().same(y.get()),
        _ => false,
    }
}

/// What a name refers to, once more.
fn copy_target(alloc: Global, to: &Option<Boxed<Target>>) -> Result<Option<Boxed<Target>>, NoMemory>
    ensures { IfOk result (λ c. c ≡ to.now) }
{
    match to {
        None => Ok(None),
        Some(target) => {
            let target = target.get().copy(alloc)?;
            Ok(Some(Boxed::new(alloc, target)?))
        }
    }
}

impl Plain for NameRef {
    fn same(&self, other: &NameRef) -> bool {
        self.qualifier.same(&other.qualifier)
            && self.text.same(&other.text)
            && self.at == other.at
            && same_target(&self.to, &other.to)
    }

    fn copy(&self, alloc: Global) -> Result<NameRef, NoMemory> {
        let qualifier = self.qualifier.copy(alloc)?;
        let text = self.text.copy(alloc)?;
        let to = copy_target(alloc, &self.to)?;
        Ok(NameRef {
            qualifier,
            text,
            at: self.at,
            to,
        })
    }
}
