//! The items of a module, and of a boot file (Haskell 2010 Report, sections 4.1 to 4.3).
//!
//! One type for each nonterminal, one variant for each alternative. Each tree has the place of its first lexeme.
use crate::expr_tree::{Clause, DeclTree, FixTree, SigTree};
use crate::name_ref::{NameRef, OpName};
use crate::type_tree::{AtypeTree, BtypeTree, ScontextTree, TypeTree};
use mk_base::list::List;
use mk_base::name::Name;
use mk_base::place::Pos;
use sqlite_items::Boxed;

/// `[!] atype`: a field without a name.
#[derive(Drop)]
pub struct StrictTree {
    pub at: Pos,
    pub strict: bool,
    pub ty: AtypeTree,
}

/// `cty = btype | ! atype`: a field at a side of an operator.
#[derive(Drop)]
pub enum CtyTree {
    Plain { at: Pos, ty: BtypeTree },
    Strict { at: Pos, ty: AtypeTree },
}

/// `type | ! atype`: what a field with a name holds.
#[derive(Drop)]
pub enum FieldType {
    Plain { at: Pos, ty: TypeTree },
    Strict { at: Pos, ty: AtypeTree },
}

/// `field = var {, var} :: (type | ! atype)`
#[derive(Drop)]
pub struct FieldTree {
    pub at: Pos,
    pub names: List<NameRef>,
    pub ty: FieldType,
}

/// `constr = con {[!] atype} | cty conop cty | con { [field {, field}] }`
#[derive(Drop)]
pub enum ConstrTree {
    Plain {
        at: Pos,
        con: NameRef,
        fields: List<StrictTree>,
    },
    Infix {
        at: Pos,
        left: CtyTree,
        op: OpName,
        right: CtyTree,
    },
    Record {
        at: Pos,
        con: NameRef,
        fields: List<FieldTree>,
    },
}

/// `deriving = deriving (qtycls | ( [qtycls {, qtycls}] ))`
#[derive(Drop)]
pub enum DerivingTree {
    One { at: Pos, class: NameRef },
    Listed { at: Pos, classes: List<NameRef> },
}

/// `cdecl = sig | fix | clause`, in a class; a clause there is of a function or variable.
#[derive(Drop)]
pub enum CdeclTree {
    Sig { at: Pos, sig: SigTree },
    Fix { at: Pos, fix: FixTree },
    Clause { at: Pos, clause: Clause },
}

/// `kind = akind [-> kind]`
#[cycle(kinds)]
#[derive(Drop)]
pub struct KindTree {
    pub at: Pos,
    pub from: AkindTree,
    pub to: Option<Boxed<KindTree>>,
}

/// `akind = * | ( kind )`
#[cycle(kinds)]
#[derive(Drop)]
pub enum AkindTree {
    Star { at: Pos },
    Paren { at: Pos, kind: Boxed<KindTree> },
}

/// `tyvar | ( tyvar :: kind )`: a parameter of an abstract type.
#[derive(Drop)]
pub enum ParamTree {
    Plain {
        at: Pos,
        name: NameRef,
    },
    Kinded {
        at: Pos,
        name: NameRef,
        kind: KindTree,
    },
}

/// An item of a module.
///
/// `item = type tycon {tyvar} = type | data tycon {tyvar} [= constr {| constr}] [deriving]
/// | newtype tycon {tyvar} = con atype [deriving] | newtype tycon {tyvar} = con { var :: type } [deriving]
/// | class [scontext =>] tycls tyvar [where block(cdecl)] | instance [scontext =>] qtycls atype [where block(clause)]
/// | decl`, and in a boot file `data tycon {tyvar | ( tyvar :: kind )}`, an abstract type.
#[derive(Drop)]
pub enum Item {
    Type {
        at: Pos,
        name: NameRef,
        params: List<NameRef>,
        ty: TypeTree,
    },
    Data {
        at: Pos,
        name: NameRef,
        params: List<NameRef>,
        constrs: Option<List<ConstrTree>>,
        deriving: Option<DerivingTree>,
    },
    Newtype {
        at: Pos,
        name: NameRef,
        params: List<NameRef>,
        con: NameRef,
        ty: AtypeTree,
        deriving: Option<DerivingTree>,
    },
    NewtypeRecord {
        at: Pos,
        name: NameRef,
        params: List<NameRef>,
        con: NameRef,
        field: NameRef,
        ty: TypeTree,
        deriving: Option<DerivingTree>,
    },
    Class {
        at: Pos,
        context: Option<ScontextTree>,
        class: NameRef,
        var: NameRef,
        body: Option<List<CdeclTree>>,
    },
    Instance {
        at: Pos,
        context: Option<ScontextTree>,
        class: NameRef,
        head: AtypeTree,
        body: Option<List<Clause>>,
    },
    Decl {
        at: Pos,
        decl: DeclTree,
    },
    Abstract {
        at: Pos,
        name: NameRef,
        params: List<ParamTree>,
    },
}

/// The items of a module with each name resolved: to an entity by its full name, or to a value of the module by its
/// number.
///
/// A chain has at most one operator or one minus; an operand with an operator or a minus of its own stands in
/// parentheses, whose place is that of its first lexeme.
#[derive(Drop)]
pub struct Renamed {
    pub items: List<Item>,
    /// The number of each value of the module's top level, with its full name.
    pub tops: List<(u32, Name)>,
}
