//! Expressions, and the declarations in them (Haskell 2010 Report, sections 3 and 4.4).
//!
//! One type for each nonterminal, one variant for each alternative. Each tree has the place of its first lexeme. What
//! nests without a limit in the source, such as updates of one record one behind another, is a flat list here.
use crate::name_ref::{NameRef, OpName, QopTree};
use crate::pattern_tree::{ApatTree, GconTree, LhsTree, PatTree};
use crate::token::Token;
use crate::type_tree::QualifiedType;
use mk_base::list::List;
use mk_base::place::Pos;
use sqlite_items::{Boxed, Items};

/// `exp = chain [:: [context =>] type]`
#[cycle(expressions)]
#[derive(Drop)]
pub struct ExprTree {
    pub at: Pos,
    pub chain: ChainTree,
    pub ty: Option<Boxed<QualifiedType>>,
}

/// `chain = {[-] closed qop} [-] (closed | open)`: operands with operators between them, as a flat list.
#[cycle(expressions)]
#[derive(Drop)]
pub struct ChainTree {
    pub at: Pos,
    pub links: Items<LinkTree>,
    pub last: LastTree,
}

/// `[-] closed qop`: an operand of a chain, and the operator behind it. Its place is that of the minus, where there is one.
#[cycle(expressions)]
#[derive(Drop)]
pub struct LinkTree {
    pub at: Pos,
    pub minus: bool,
    pub operand: ClosedTree,
    pub op: QopTree,
}

/// `[-] (closed | open)`: the last operand of a chain. Its place is that of the minus, where there is one.
#[cycle(expressions)]
#[derive(Drop)]
pub enum LastTree {
    Closed {
        at: Pos,
        minus: bool,
        operand: ClosedTree,
    },
    Open {
        at: Pos,
        minus: bool,
        operand: OpenTree,
    },
}

/// `open = \ apat {apat} -> exp | let block(decl) in exp | if exp [;] then exp [;] else exp`: an operand that goes on as
/// far as it can.
#[cycle(expressions)]
#[derive(Drop)]
pub enum OpenTree {
    /// `args` has one pattern or more.
    Lambda {
        at: Pos,
        args: Items<ApatTree>,
        body: Boxed<ExprTree>,
    },
    Let {
        at: Pos,
        decls: Items<DeclTree>,
        body: Boxed<ExprTree>,
    },
    If {
        at: Pos,
        test: Boxed<ExprTree>,
        yes: Boxed<ExprTree>,
        no: Boxed<ExprTree>,
    },
}

/// `closed = case exp of block(alt) | do block(stmt) | aexp {aexp}`
#[cycle(expressions)]
#[derive(Drop)]
pub enum ClosedTree {
    Case {
        at: Pos,
        subject: Boxed<ExprTree>,
        alts: Items<AltTree>,
    },
    Do {
        at: Pos,
        stmts: Items<StmtTree>,
    },
    Apply {
        at: Pos,
        head: AexpTree,
        args: Items<AexpTree>,
    },
}

/// `alt = pattern -> exp [where block(decl)] | pattern {| guard {, guard} -> exp}+ [where block(decl)]`
#[cycle(expressions)]
#[derive(Drop)]
pub enum AltTree {
    Plain {
        at: Pos,
        pattern: PatTree,
        body: ExprTree,
        locals: Option<Items<DeclTree>>,
    },
    /// `arms` has one arm or more.
    Guarded {
        at: Pos,
        pattern: PatTree,
        arms: Items<ArmTree>,
        locals: Option<Items<DeclTree>>,
    },
}

/// `| guard {, guard} = exp`, in an alternative with `->`: what holds where all its guards do.
#[cycle(expressions)]
#[derive(Drop)]
pub struct ArmTree {
    pub at: Pos,
    pub guards: Items<GuardTree>,
    pub body: ExprTree,
}

/// `guard = pattern <- chain | let block(decl) | chain`
#[cycle(expressions)]
#[derive(Drop)]
pub enum GuardTree {
    Bind {
        at: Pos,
        pattern: PatTree,
        chain: ChainTree,
    },
    Let {
        at: Pos,
        decls: Items<DeclTree>,
    },
    Test {
        at: Pos,
        chain: ChainTree,
    },
}

/// `qual = pattern <- exp | let block(decl) | exp`
#[cycle(expressions)]
#[derive(Drop)]
pub enum QualTree {
    Bind {
        at: Pos,
        pattern: PatTree,
        exp: ExprTree,
    },
    Let {
        at: Pos,
        decls: Items<DeclTree>,
    },
    Test {
        at: Pos,
        exp: ExprTree,
    },
}

/// `stmt = exp | pattern <- exp | let block(decl)`
#[cycle(expressions)]
#[derive(Drop)]
pub enum StmtTree {
    Exp {
        at: Pos,
        exp: ExprTree,
    },
    Bind {
        at: Pos,
        pattern: PatTree,
        exp: ExprTree,
    },
    Let {
        at: Pos,
        decls: Items<DeclTree>,
    },
}

/// `aexp = qvar | gcon | literal | ( exp {, exp} ) | [ exp {, exp} ] | [ exp [, exp] .. [exp] ] | [ exp | qual {, qual} ]
/// | ( chain qop ) | ( qop chain ) | aexp { fbind {, fbind} } | qcon { }`
#[cycle(expressions)]
#[derive(Drop)]
pub enum AexpTree {
    Var {
        at: Pos,
        name: NameRef,
    },
    Con {
        at: Pos,
        con: GconTree,
    },
    Literal {
        at: Pos,
        literal: Token,
    },
    /// One expression is that expression in parentheses, two or more are a tuple's.
    Tuple {
        at: Pos,
        parts: Items<ExprTree>,
    },
    /// `parts` has one expression or more.
    List {
        at: Pos,
        parts: Items<ExprTree>,
    },
    Range {
        at: Pos,
        from: Boxed<ExprTree>,
        then: Option<Boxed<ExprTree>>,
        to: Option<Boxed<ExprTree>>,
    },
    Comprehension {
        at: Pos,
        body: Boxed<ExprTree>,
        quals: Items<QualTree>,
    },
    LeftSection {
        at: Pos,
        chain: Boxed<ChainTree>,
        op: QopTree,
    },
    RightSection {
        at: Pos,
        op: QopTree,
        chain: Boxed<ChainTree>,
    },
    /// The record is no Update itself; `updates` has one or more, the innermost first. Where the record is a
    /// constructor by its name alone, the first is its construction.
    Update {
        at: Pos,
        record: Boxed<AexpTree>,
        updates: Items<UpdateTree>,
    },
    /// A construction without fields.
    Record {
        at: Pos,
        con: NameRef,
    },
}

/// `{ fbind {, fbind} }`: the fields that are given to a record, one or more.
#[cycle(expressions)]
#[derive(Drop)]
pub struct UpdateTree {
    pub at: Pos,
    pub fields: Items<FbindTree>,
}

/// `fbind = qvar = exp`
#[cycle(expressions)]
#[derive(Drop)]
pub struct FbindTree {
    pub at: Pos,
    pub name: NameRef,
    pub exp: ExprTree,
}

/// `sig = var {, var} :: [context =>] type`
#[derive(Drop)]
pub struct SigTree {
    pub at: Pos,
    pub names: List<NameRef>,
    pub ty: QualifiedType,
}

/// `infixl`, `infixr` or `infix`.
#[derive(Clone, Copy, Debug, PartialEq, Eq)]
pub enum FixWord {
    Infixl,
    Infixr,
    Infix,
}

/// `fix = (infixl|infixr|infix) [digit] op {, op}`
#[derive(Drop)]
pub struct FixTree {
    pub at: Pos,
    pub word: FixWord,
    pub digit: Option<u8>,
    pub ops: List<QopTree>,
}

/// `decl = sig | fix | clause`
#[cycle(expressions)]
#[derive(Drop)]
pub enum DeclTree {
    Sig { at: Pos, sig: SigTree },
    Fix { at: Pos, fix: FixTree },
    Clause { at: Pos, clause: Clause },
}

/// `clause = lhs rhs`
#[cycle(expressions)]
#[derive(Drop)]
pub struct Clause {
    pub at: Pos,
    pub lhs: LhsTree,
    pub rhs: RhsTree,
}

/// `rhs = = exp [where block(decl)] | {| guard {, guard} = exp}+ [where block(decl)]`
#[cycle(expressions)]
#[derive(Drop)]
pub enum RhsTree {
    Plain {
        at: Pos,
        body: ExprTree,
        locals: Option<Items<DeclTree>>,
    },
    /// `arms` has one arm or more.
    Guarded {
        at: Pos,
        arms: Items<ArmTree>,
        locals: Option<Items<DeclTree>>,
    },
}
