//! The header of a module: its name, its exports and its imports (Haskell 2010 Report, sections 5.1 to 5.3).
//!
//! One type for each nonterminal, one variant for each alternative. Each tree has the place of its first lexeme.
use crate::name_ref::NameRef;
use mk_base::list::List;
use mk_base::memory::NoMemory;
use mk_base::name::ModName;
use mk_base::place::Pos;
use mk_base::plain::Plain;
use std::alloc::Global;

/// One of the names below a type or a class: a field or a method, or a constructor.
#[derive(Debug, Drop)]
pub enum SubTree {
    Var { at: Pos, name: NameRef },
    Con { at: Pos, name: NameRef },
}

/// What is told in parentheses behind a type or a class: `(..)`, or a list of names.
#[derive(Debug, Drop)]
pub enum Subs {
    All,
    Listed(List<SubTree>),
}

/// An export: a value, a type or class with what is told of its parts, or all that a module brings into scope.
#[derive(Debug, Drop)]
pub enum ExportItem {
    Var {
        at: Pos,
        name: NameRef,
    },
    Type {
        at: Pos,
        name: NameRef,
        subs: Option<Subs>,
    },
    Module {
        at: Pos,
        module: NameRef,
    },
}

/// A name in the list of an import: a value, or a type or class with what is told of its parts.
#[derive(Debug, Drop)]
pub enum IitemTree {
    Var {
        at: Pos,
        name: NameRef,
    },
    Type {
        at: Pos,
        name: NameRef,
        subs: Option<Subs>,
    },
}

/// The list of an import; with `hiding` the names that it leaves out.
#[derive(Debug, Drop)]
pub struct ImportList {
    pub hiding: bool,
    pub items: List<IitemTree>,
}

/// An import of a module; with `source` it is marked `{-# SOURCE #-}` and means the module's boot source.
#[derive(Debug, Drop)]
pub struct ImportItem {
    pub at: Pos,
    pub source: bool,
    pub qualified: bool,
    pub module: NameRef,
    pub alias: Option<NameRef>,
    pub list: Option<ImportList>,
}

/// The header of a module.
#[derive(Debug, Drop)]
pub struct Header {
    /// The module's name; `Main` where there is no `module` line.
    pub name: ModName,
    /// The place of that name in the `module` line; 1:1 where there is none.
    pub at: Pos,
    /// The exports, where they are listed.
    pub exports: Option<List<ExportItem>>,
    /// The imports, in the order of the source.
    pub imports: List<ImportItem>,
    /// Whether Prelude is imported where nothing else is said, where a pragma says it.
    pub prelude: Option<bool>,
    /// Whether the monomorphism restriction holds, where a pragma says it.
    pub restrict: Option<bool>,
}

impl Plain for SubTree {
    fn same(&self, other: &SubTree) -> bool {
        match (self, other) {
            (SubTree::Var { at: p, name: a }, SubTree::Var { at: q, name: b }) => {
                *p == *q && a.same(b)
            }
            (SubTree::Con { at: p, name: a }, SubTree::Con { at: q, name: b }) => {
                *p == *q && a.same(b)
            }
            _ => false,
        }
    }

    fn copy(&self, alloc: Global) -> Result<SubTree, NoMemory> {
        match self {
            SubTree::Var { at, name } => {
                let name = name.copy(alloc)?;
                Ok(SubTree::Var { at: *at, name })
            }
            SubTree::Con { at, name } => {
                let name = name.copy(alloc)?;
                Ok(SubTree::Con { at: *at, name })
            }
        }
    }
}

impl Plain for Subs {
    fn same(&self, other: &Subs) -> bool {
        match (self, other) {
            (Subs::All, Subs::All) => true,
            (Subs::Listed(a), Subs::Listed(b)) => a.same(b),
            _ => false,
        }
    }

    fn copy(&self, alloc: Global) -> Result<Subs, NoMemory> {
        match self {
            Subs::All => Ok(Subs::All),
            Subs::Listed(names) => Ok(Subs::Listed(names.copy(alloc)?)),
        }
    }
}

impl Plain for ExportItem {
    fn same(&self, other: &ExportItem) -> bool {
        match (self, other) {
            (ExportItem::Var { at: p, name: a }, ExportItem::Var { at: q, name: b }) => {
                *p == *q && a.same(b)
            }
            (
                ExportItem::Type {
                    at: p,
                    name: a,
                    subs: s,
                },
                ExportItem::Type {
                    at: q,
                    name: b,
                    subs: t,
                },
            ) => *p == *q && a.same(b) && s.same(t),
            (ExportItem::Module { at: p, module: a }, ExportItem::Module { at: q, module: b }) => {
                *p == *q && a.same(b)
            }
            _ => false,
        }
    }

    fn copy(&self, alloc: Global) -> Result<ExportItem, NoMemory> {
        match self {
            ExportItem::Var { at, name } => {
                let name = name.copy(alloc)?;
                Ok(ExportItem::Var { at: *at, name })
            }
            ExportItem::Type { at, name, subs } => {
                let name = name.copy(alloc)?;
                let subs = subs.copy(alloc)?;
                Ok(ExportItem::Type {
                    at: *at,
                    name,
                    subs,
                })
            }
            ExportItem::Module { at, module } => {
                let module = module.copy(alloc)?;
                Ok(ExportItem::Module { at: *at, module })
            }
        }
    }
}

impl Plain for IitemTree {
    fn same(&self, other: &IitemTree) -> bool {
        match (self, other) {
            (IitemTree::Var { at: p, name: a }, IitemTree::Var { at: q, name: b }) => {
                *p == *q && a.same(b)
            }
            (
                IitemTree::Type {
                    at: p,
                    name: a,
                    subs: s,
                },
                IitemTree::Type {
                    at: q,
                    name: b,
                    subs: t,
                },
            ) => *p == *q && a.same(b) && s.same(t),
            _ => false,
        }
    }

    fn copy(&self, alloc: Global) -> Result<IitemTree, NoMemory> {
        match self {
            IitemTree::Var { at, name } => {
                let name = name.copy(alloc)?;
                Ok(IitemTree::Var { at: *at, name })
            }
            IitemTree::Type { at, name, subs } => {
                let name = name.copy(alloc)?;
                let subs = subs.copy(alloc)?;
                Ok(IitemTree::Type {
                    at: *at,
                    name,
                    subs,
                })
            }
        }
    }
}

impl Plain for ImportList {
    fn same(&self, other: &ImportList) -> bool {
        self.hiding == other.hiding && self.items.same(&other.items)
    }

    fn copy(&self, alloc: Global) -> Result<ImportList, NoMemory> {
        let items = self.items.copy(alloc)?;
        Ok(ImportList {
            hiding: self.hiding,
            items,
        })
    }
}

impl Plain for ImportItem {
    fn same(&self, other: &ImportItem) -> bool {
        self.at == other.at
            && self.source == other.source
            && self.qualified == other.qualified
            && self.module.same(&other.module)
            && self.alias.same(&other.alias)
            && self.list.same(&other.list)
    }

    fn copy(&self, alloc: Global) -> Result<ImportItem, NoMemory> {
        let module = self.module.copy(alloc)?;
        let alias = self.alias.copy(alloc)?;
        let list = self.list.copy(alloc)?;
        Ok(ImportItem {
            at: self.at,
            source: self.source,
            qualified: self.qualified,
            module,
            alias,
            list,
        })
    }
}

impl Plain for Header {
    fn same(&self, other: &Header) -> bool {
        self.name.same(&other.name)
            && self.at == other.at
            && self.exports.same(&other.exports)
            && self.imports.same(&other.imports)
            && self.prelude.same(&other.prelude)
            && self.restrict.same(&other.restrict)
    }

    fn copy(&self, alloc: Global) -> Result<Header, NoMemory> {
        let name = self.name.copy(alloc)?;
        let exports = self.exports.copy(alloc)?;
        let imports = self.imports.copy(alloc)?;
        Ok(Header {
            name,
            at: self.at,
            exports,
            imports,
            prelude: self.prelude,
            restrict: self.restrict,
        })
    }
}
