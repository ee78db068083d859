//! Types, and the contexts before them (Haskell 2010 Report, sections 4.1.2 and 4.1.3).
//!
//! One type for each nonterminal, one variant for each alternative. Each tree has the place of its first lexeme.
use crate::name_ref::NameRef;
use mk_base::list::List;
use mk_base::place::Pos;
use sqlite_items::{Boxed, Items};

/// `type = btype [-> type]`
#[cycle(types)]
#[derive(Drop)]
pub struct TypeTree {
    pub at: Pos,
    pub from: BtypeTree,
    pub to: Option<Boxed<TypeTree>>,
}

/// `btype = atype {atype}`: a type with those that it is applied to.
#[cycle(types)]
#[derive(Drop)]
pub struct BtypeTree {
    pub at: Pos,
    pub head: AtypeTree,
    pub args: Items<AtypeTree>,
}

/// `atype = qtycon | () | [] | (->) | (, {,}) | tyvar | ( type {, type} ) | [ type ]`
#[cycle(types)]
#[derive(Drop)]
pub enum AtypeTree {
    Con { at: Pos, name: NameRef },
    Unit { at: Pos },
    ListCon { at: Pos },
    Arrow { at: Pos },
    /// `commas` is at least 1.
    TupleCon { at: Pos, commas: usize },
    Var { at: Pos, name: NameRef },
    /// One type is that type in parentheses, two or more are a tuple's.
    Tuple { at: Pos, parts: Items<TypeTree> },
    List { at: Pos, part: Boxed<TypeTree> },
}

/// `class = qtycls tyvar | qtycls ( tyvar atype {atype} )`
#[derive(Drop)]
pub enum ClassTree {
    Var {
        at: Pos,
        class: NameRef,
        var: NameRef,
    },
    /// `args` has one type or more.
    Applied {
        at: Pos,
        class: NameRef,
        var: NameRef,
        args: Items<AtypeTree>,
    },
}

/// `context = class | ( [class {, class}] )`
#[derive(Drop)]
pub enum ContextTree {
    One { at: Pos, class: ClassTree },
    Listed { at: Pos, classes: Items<ClassTree> },
}

/// `[context =>] type`: a type with the context that stands before it.
#[derive(Drop)]
pub struct QualifiedType {
    pub at: Pos,
    pub context: Option<ContextTree>,
    pub ty: TypeTree,
}

/// `sclass = qtycls tyvar`
#[derive(Drop)]
pub struct SclassTree {
    pub at: Pos,
    pub class: NameRef,
    pub var: NameRef,
}

/// `scontext = sclass | ( [sclass {, sclass}] )`
#[derive(Drop)]
pub enum ScontextTree {
    One { at: Pos, class: SclassTree },
    Listed { at: Pos, classes: List<SclassTree> },
}
