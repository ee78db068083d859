//! Patterns and left sides (Haskell 2010 Report, sections 3.17 and 4.4.3).
//!
//! One type for each nonterminal, one variant for each alternative. Each tree has the place of its first lexeme.
use crate::name_ref::{NameRef, OpName};
use crate::token::Token;
use mk_base::place::Pos;
use sqlite_items::{Boxed, Items};

/// `gcon = qcon | () | [] | (, {,})`
#[derive(Drop)]
pub enum GconTree {
    Con { at: Pos, name: NameRef },
    Unit { at: Pos },
    List { at: Pos },
    /// `commas` is at least 1.
    Tuple { at: Pos, commas: usize },
}

/// `pattern`: operands with operators of constructors between them, as a flat list.
#[cycle(patterns)]
#[derive(Drop)]
pub struct PatTree {
    pub at: Pos,
    pub links: Items<PatLink>,
    pub last: PatOperand,
}

/// An operand of a pattern, and the operator behind it.
#[cycle(patterns)]
#[derive(Drop)]
pub struct PatLink {
    pub at: Pos,
    pub operand: PatOperand,
    pub op: OpName,
}

/// `[-] number | gcon {apat} | apat`: an operand of a pattern.
///
/// A lone number is a Number, and a lone constructor is an Applied one.
#[cycle(patterns)]
#[derive(Drop)]
pub enum PatOperand {
    Number {
        at: Pos,
        minus: bool,
        number: Token,
    },
    Applied {
        at: Pos,
        con: GconTree,
        args: Items<ApatTree>,
    },
    Single {
        at: Pos,
        pattern: ApatTree,
    },
}

/// `apat = var [@ apat] | gcon | qcon { [fpat {, fpat}] } | literal | _ | ( pattern {, pattern} ) | [ pattern {, pattern} ] | ~ apat`
#[cycle(patterns)]
#[derive(Drop)]
pub enum ApatTree {
    Var {
        at: Pos,
        name: NameRef,
        pattern: Option<Boxed<ApatTree>>,
    },
    Con {
        at: Pos,
        con: GconTree,
    },
    Record {
        at: Pos,
        con: NameRef,
        fields: Items<FpatTree>,
    },
    Literal {
        at: Pos,
        literal: Token,
    },
    Wild {
        at: Pos,
    },
    /// One pattern is that pattern in parentheses, two or more are a tuple's.
    Tuple {
        at: Pos,
        parts: Items<PatTree>,
    },
    List {
        at: Pos,
        parts: Items<PatTree>,
    },
    Lazy {
        at: Pos,
        pattern: Boxed<ApatTree>,
    },
}

/// `fpat = qvar = pattern`: a field of a record with its pattern.
#[cycle(patterns)]
#[derive(Drop)]
pub struct FpatTree {
    pub at: Pos,
    pub name: NameRef,
    pub pattern: PatTree,
}

/// `lhs = var {apat} | ( lhs ) apat {apat} | pattern varop pattern | pattern`: what stands before `=` or the guards of
/// a clause.
///
/// A lone variable is a Function without patterns.
#[cycle(left_sides)]
#[derive(Drop)]
pub enum LhsTree {
    Function {
        at: Pos,
        name: NameRef,
        args: Items<ApatTree>,
    },
    /// `args` has one pattern or more.
    Applied {
        at: Pos,
        lhs: Boxed<LhsTree>,
        args: Items<ApatTree>,
    },
    Infix {
        at: Pos,
        left: PatTree,
        op: OpName,
        right: PatTree,
    },
    Pattern {
        at: Pos,
        pattern: PatTree,
    },
}
