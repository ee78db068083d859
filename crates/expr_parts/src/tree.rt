//! Trees from their parts. What is read on the way is boxed here, where it is made.
ghost use Rattle.std.specs.Prelude.{◌≡◌, ◌++◌, ◌∷◌, [], IfOk};
ghost use Rattle.hs_syntax.specs.Made as made;
ghost use Rattle.expr_parts.specs.Expressions as spec;

use crate::piece::{Body, Chain, Operand, Part};
use hs_syntax::expr_tree::{
    AexpTree, AltTree, ArmTree, ChainTree, Clause, ClosedTree, DeclTree, ExprTree, FbindTree,
    GuardTree, LastTree, LinkTree, OpenTree, QualTree, RhsTree, StmtTree, UpdateTree,
};
use hs_syntax::name_ref::{NameRef, QopTree};
use hs_syntax::pattern_tree::{LhsTree, PatTree};
use hs_syntax::type_tree::QualifiedType;
use mk_base::memory::NoMemory;
use mk_base::place::Pos;
use sqlite_items::{Boxed, Items};
use std::alloc::Global;

/// `chain [:: [context =>] type]`
pub fn expr_of(
    alloc: Global,
    at: Pos,
    chain: Boxed<ChainTree>,
    ty: Option<Boxed<QualifiedType>>,
) -> Result<Boxed<ExprTree>, NoMemory>
    ensures { IfOk result (λ e. e ≡ made.expr_tree at chain ty) }
{
    let chain = chain.into_inner();
    let made = Boxed::new(alloc, ExprTree { at, chain, ty })?;
    Ok(made)
}

/// An operand of a chain and the operator behind it, put behind the links.
pub fn push_link(
    links: &mut Vec<LinkTree>,
    at: Pos,
    minus: bool,
    operand: Boxed<ClosedTree>,
    op: QopTree,
) -> Result<(), NoMemory>
    ensures { IfOk result (λ u. links.new.items ≡ links.old.items ++ made.link_tree at minus operand op ∷ []) }
{
    let operand = operand.into_inner();
    links.push(LinkTree {
        at,
        minus,
        operand,
        op,
    })?;
    Ok(())
}

/// A chain whose last operand, at a place, is open.
pub fn open_chain(
    alloc: Global,
    at: Pos,
    links: Vec<LinkTree>,
    place: Pos,
    minus: bool,
    operand: OpenTree,
) -> Result<Chain, NoMemory>
    ensures { IfOk result (λ c. c ≡ spec.open_chain at links.items place minus operand) }
{
    let last = LastTree::Open {
        at: place,
        minus,
        operand,
    };
    let links = Items::from_vec(links);
    let tree = Boxed::new(alloc, ChainTree { at, links, last })?;
    Ok(Chain {
        tree,
        is_open: true,
    })
}

/// A chain whose last operand, at a place, is closed.
pub fn closed_chain(
    alloc: Global,
    at: Pos,
    links: Vec<LinkTree>,
    place: Pos,
    minus: bool,
    operand: Boxed<ClosedTree>,
) -> Result<Chain, NoMemory>
    ensures { IfOk result (λ c. c ≡ spec.closed_chain at links.items place minus operand) }
{
    let last = LastTree::Closed {
        at: place,
        minus,
        operand: operand.into_inner(),
    };
    let links = Items::from_vec(links);
    let tree = Boxed::new(alloc, ChainTree { at, links, last })?;
    Ok(Chain {
        tree,
        is_open: false,
    })
}

/// `let block(decl) in exp` as a chain.
pub fn let_chain(
    alloc: Global,
    at: Pos,
    decls: Items<DeclTree>,
    body: Boxed<ExprTree>,
) -> Result<Boxed<ChainTree>, NoMemory>
    ensures { IfOk result (λ c. c ≡ spec.let_chain at decls body) }
{
    let last = LastTree::Open {
        at,
        minus: false,
        operand: OpenTree::Let { at, decls, body },
    };
    let links = Items::new(alloc);
    let tree = Boxed::new(alloc, ChainTree { at, links, last })?;
    Ok(tree)
}

/// `let block(decl) in exp` as an expression that is a qualifier or a statement.
pub fn let_test(
    alloc: Global,
    at: Pos,
    decls: Items<DeclTree>,
    body: Boxed<ExprTree>,
) -> Result<Part, NoMemory>
    ensures { IfOk result (λ p. p ≡ spec.let_test at decls body) }
{
    let chain = let_chain(alloc, at, decls, body)?;
    let exp = expr_of(alloc, at, chain, None)?;
    Ok(Part::Test(exp))
}

/// `case exp of block(alt)`
pub fn case_of(
    alloc: Global,
    at: Pos,
    subject: Boxed<ExprTree>,
    alts: Vec<AltTree>,
) -> Result<Operand, NoMemory>
    ensures { IfOk result (λ o. o ≡ spec.case_operand at subject alts.items) }
{
    let alts = Items::from_vec(alts);
    let made = Boxed::new(alloc, ClosedTree::Case { at, subject, alts })?;
    Ok(Operand::Closed(made))
}

/// `do block(stmt)`
pub fn do_of(alloc: Global, at: Pos, stmts: Vec<StmtTree>) -> Result<Operand, NoMemory>
    ensures { IfOk result (λ o. o ≡ spec.do_operand at stmts.items) }
{
    let stmts = Items::from_vec(stmts);
    let made = Boxed::new(alloc, ClosedTree::Do { at, stmts })?;
    Ok(Operand::Closed(made))
}

/// `aexp {aexp}`
pub fn apply_of(
    alloc: Global,
    at: Pos,
    head: Boxed<AexpTree>,
    args: Vec<AexpTree>,
) -> Result<Operand, NoMemory>
    ensures { IfOk result (λ o. o ≡ spec.apply_operand at head args.items) }
{
    let head = head.into_inner();
    let args = Items::from_vec(args);
    let made = Boxed::new(alloc, ClosedTree::Apply { at, head, args })?;
    Ok(Operand::Closed(made))
}

/// An argument, put behind those before it.
pub fn push_arg(args: &mut Vec<AexpTree>, arg: Boxed<AexpTree>) -> Result<(), NoMemory>
    ensures { IfOk result (λ u. args.new.items ≡ args.old.items ++ arg ∷ []) }
{
    args.push(arg.into_inner())?;
    Ok(())
}

/// An expression, put behind those before it.
pub fn push_exp(parts: &mut Vec<ExprTree>, part: Boxed<ExprTree>) -> Result<(), NoMemory>
    ensures { IfOk result (λ u. parts.new.items ≡ parts.old.items ++ part ∷ []) }
{
    parts.push(part.into_inner())?;
    Ok(())
}

/// One expression alone.
pub fn one_exp(alloc: Global, part: Boxed<ExprTree>) -> Result<Vec<ExprTree>, NoMemory>
    ensures { IfOk result (λ v. v.items ≡ part ∷ []) }
{
    let mut parts = Vec::new(alloc);
    parts.push(part.into_inner())?;
    Ok(parts)
}

/// Two expressions.
pub fn two_exps(
    alloc: Global,
    first: Boxed<ExprTree>,
    second: Boxed<ExprTree>,
) -> Result<Vec<ExprTree>, NoMemory>
    ensures { IfOk result (λ v. v.items ≡ first ∷ second ∷ []) }
{
    let mut parts = one_exp(alloc, first)?;
    push_exp(&mut parts, second)?;
    Ok(parts)
}

/// `( exp {, exp} )`
pub fn tuple_of(alloc: Global, at: Pos, parts: Items<ExprTree>) -> Result<Boxed<AexpTree>, NoMemory>
    ensures { IfOk result (λ x. x ≡ spec.tuple_of at parts) }
{
    let made = Boxed::new(alloc, AexpTree::Tuple { at, parts })?;
    Ok(made)
}

/// `[ exp {, exp} ]`
pub fn list_of(alloc: Global, at: Pos, parts: Items<ExprTree>) -> Result<Boxed<AexpTree>, NoMemory>
    ensures { IfOk result (λ x. x ≡ spec.list_of at parts) }
{
    let made = Boxed::new(alloc, AexpTree::List { at, parts })?;
    Ok(made)
}

/// `[ exp ]`
pub fn lone_list_of(
    alloc: Global,
    at: Pos,
    part: Boxed<ExprTree>,
) -> Result<Boxed<AexpTree>, NoMemory>
    ensures { IfOk result (λ x. x ≡ spec.list_of at (part ∷ [])) }
{
    let parts = one_exp(alloc, part)?;
    list_of(alloc, at, Items::from_vec(parts))
}

/// `[ exp [, exp] .. [exp] ]`
pub fn range_of(
    alloc: Global,
    at: Pos,
    from: Boxed<ExprTree>,
    then: Option<Boxed<ExprTree>>,
    to: Option<Boxed<ExprTree>>,
) -> Result<Boxed<AexpTree>, NoMemory>
    ensures { IfOk result (λ x. x ≡ spec.range_of at from then to) }
{
    let made = Boxed::new(alloc, AexpTree::Range { at, from, then, to })?;
    Ok(made)
}

/// `[ exp | qual {, qual} ]`
pub fn comprehension_of(
    alloc: Global,
    at: Pos,
    body: Boxed<ExprTree>,
    quals: Items<QualTree>,
) -> Result<Boxed<AexpTree>, NoMemory>
    ensures { IfOk result (λ x. x ≡ spec.comprehension_of at body quals) }
{
    let made = Boxed::new(alloc, AexpTree::Comprehension { at, body, quals })?;
    Ok(made)
}

/// `( chain qop )`
pub fn left_section_of(
    alloc: Global,
    at: Pos,
    chain: Boxed<ChainTree>,
    op: QopTree,
) -> Result<Boxed<AexpTree>, NoMemory>
    ensures { IfOk result (λ x. x ≡ spec.left_section_of at chain op) }
{
    let made = Boxed::new(alloc, AexpTree::LeftSection { at, chain, op })?;
    Ok(made)
}

/// `( qop chain )`
pub fn right_section_of(
    alloc: Global,
    at: Pos,
    op: QopTree,
    chain: Boxed<ChainTree>,
) -> Result<Boxed<AexpTree>, NoMemory>
    ensures { IfOk result (λ x. x ≡ spec.right_section_of at op chain) }
{
    let made = Boxed::new(alloc, AexpTree::RightSection { at, op, chain })?;
    Ok(made)
}

/// A record with the updates behind it: itself, where there are none.
pub fn updated(
    alloc: Global,
    at: Pos,
    tree: Boxed<AexpTree>,
    updates: Vec<UpdateTree>,
) -> Result<Boxed<AexpTree>, NoMemory>
    ensures { IfOk result (λ x. x ≡ spec.updated at tree updates.items) }
{
    if updates.is_empty() {
        return Ok(tree);
    }
    let updates = Items::from_vec(updates);
    let made = Boxed::new(
        alloc,
        AexpTree::Update {
            at,
            record: tree,
            updates,
        },
    )?;
    Ok(made)
}

/// `{ fbind {, fbind} }`, put behind the updates before it.
pub fn push_update(
    updates: &mut Vec<UpdateTree>,
    at: Pos,
    fields: Items<FbindTree>,
) -> Result<(), NoMemory>
    ensures { IfOk result (λ u. updates.new.items ≡ updates.old.items ++ made.update_tree at fields ∷ []) }
{
    updates.push(UpdateTree { at, fields })?;
    Ok(())
}

/// `qvar = exp`, put behind the fields before it.
pub fn push_field(
    fields: &mut Vec<FbindTree>,
    at: Pos,
    name: NameRef,
    exp: Boxed<ExprTree>,
) -> Result<(), NoMemory>
    ensures { IfOk result (λ u. fields.new.items ≡ fields.old.items ++ made.fbind_tree at name exp ∷ []) }
{
    let exp = exp.into_inner();
    fields.push(FbindTree { at, name, exp })?;
    Ok(())
}

/// A qualifier at a place.
fn qual_of(at: Pos, part: Part) -> QualTree
    ensures { result ≡ spec.qual_of at part }
{
    match part {
        Part::Bind(pattern, exp) => QualTree::Bind {
            at,
            pattern: pattern.into_inner(),
            exp: exp.into_inner(),
        },
        Part::Let(decls) => QualTree::Let { at, decls },
        Part::Test(exp) => QualTree::Test {
            at,
            exp: exp.into_inner(),
        },
    }
}

/// A qualifier, put behind those before it.
pub fn push_qual(quals: &mut Vec<QualTree>, at: Pos, part: Part) -> Result<(), NoMemory>
    ensures { IfOk result (λ u. quals.new.items ≡ quals.old.items ++ spec.qual_of at part ∷ []) }
{
    quals.push(qual_of(at, part))?;
    Ok(())
}

/// A statement at a place.
fn stmt_of(at: Pos, part: Part) -> StmtTree
    ensures { result ≡ spec.stmt_of at part }
{
    match part {
        Part::Bind(pattern, exp) => StmtTree::Bind {
            at,
            pattern: pattern.into_inner(),
            exp: exp.into_inner(),
        },
        Part::Let(decls) => StmtTree::Let { at, decls },
        Part::Test(exp) => StmtTree::Exp {
            at,
            exp: exp.into_inner(),
        },
    }
}

/// Whether a statement is an expression.
pub fn is_test(part: &Part) -> bool
    ensures { result ≡ spec.is_test part.now }
{
    match part {
        Part::Bind(_, _) => false,
        Part::Let(_) => false,
        Part::Test(_) => true,
    }
}

/// A statement, put behind those before it.
pub fn push_stmt(stmts: &mut Vec<StmtTree>, at: Pos, part: Part) -> Result<(), NoMemory>
    ensures { IfOk result (λ u. stmts.new.items ≡ stmts.old.items ++ spec.stmt_of at part ∷ []) }
{
    stmts.push(stmt_of(at, part))?;
    Ok(())
}

/// `= exp [where block(decl)]`, or arms.
fn rhs_of(at: Pos, body: Body) -> RhsTree
    ensures { result ≡ spec.rhs_of at body }
{
    match body {
        Body::Plain(body, locals) => RhsTree::Plain {
            at,
            body: body.into_inner(),
            locals,
        },
        Body::Guarded(arms, locals) => RhsTree::Guarded { at, arms, locals },
    }
}

/// `lhs rhs`, where the right side has a place of its own.
pub fn clause_of(
    alloc: Global,
    at: Pos,
    lhs: LhsTree,
    place: Pos,
    body: Body,
) -> Result<Boxed<Clause>, NoMemory>
    ensures { IfOk result (λ c. c ≡ made.clause at lhs (spec.rhs_of place body)) }
{
    let rhs = rhs_of(place, body);
    let made = Boxed::new(alloc, Clause { at, lhs, rhs })?;
    Ok(made)
}

/// A clause as a declaration.
pub fn clause_decl(
    alloc: Global,
    at: Pos,
    clause: Boxed<Clause>,
) -> Result<Boxed<DeclTree>, NoMemory>
    ensures { IfOk result (λ d. d ≡ spec.clause_decl at clause) }
{
    let clause = clause.into_inner();
    let made = Boxed::new(alloc, DeclTree::Clause { at, clause })?;
    Ok(made)
}

/// A declaration, put behind those before it.
pub fn push_decl(decls: &mut Vec<DeclTree>, decl: Boxed<DeclTree>) -> Result<(), NoMemory>
    ensures { IfOk result (λ u. decls.new.items ≡ decls.old.items ++ decl ∷ []) }
{
    decls.push(decl.into_inner())?;
    Ok(())
}

/// A pattern with what stands behind it, as an alternative.
pub fn alt_of(
    alloc: Global,
    at: Pos,
    pattern: Boxed<PatTree>,
    body: Body,
) -> Result<Boxed<AltTree>, NoMemory>
    ensures { IfOk result (λ x. x ≡ spec.alt_of at pattern body) }
{
    let pattern = pattern.into_inner();
    let alt = match body {
        Body::Plain(body, locals) => AltTree::Plain {
            at,
            pattern,
            body: body.into_inner(),
            locals,
        },
        Body::Guarded(arms, locals) => AltTree::Guarded {
            at,
            pattern,
            arms,
            locals,
        },
    };
    let made = Boxed::new(alloc, alt)?;
    Ok(made)
}

/// An alternative, put behind those before it.
pub fn push_alt(alts: &mut Vec<AltTree>, alt: Boxed<AltTree>) -> Result<(), NoMemory>
    ensures { IfOk result (λ u. alts.new.items ≡ alts.old.items ++ alt ∷ []) }
{
    alts.push(alt.into_inner())?;
    Ok(())
}

/// Guards, and what holds where they do.
pub fn arm_of(
    alloc: Global,
    at: Pos,
    guards: Items<GuardTree>,
    body: Boxed<ExprTree>,
) -> Result<Boxed<ArmTree>, NoMemory>
    ensures { IfOk result (λ x. x ≡ made.arm_tree at guards body) }
{
    let body = body.into_inner();
    let made = Boxed::new(alloc, ArmTree { at, guards, body })?;
    Ok(made)
}

/// An arm, put behind those before it.
pub fn push_arm(arms: &mut Vec<ArmTree>, arm: Boxed<ArmTree>) -> Result<(), NoMemory>
    ensures { IfOk result (λ u. arms.new.items ≡ arms.old.items ++ arm ∷ []) }
{
    arms.push(arm.into_inner())?;
    Ok(())
}

/// `pattern <- chain`
pub fn bind_guard(
    alloc: Global,
    at: Pos,
    pattern: Boxed<PatTree>,
    chain: Chain,
) -> Result<Boxed<GuardTree>, NoMemory>
    ensures { IfOk result (λ g. g ≡ spec.bind_guard at pattern chain) }
{
    let pattern = pattern.into_inner();
    let chain = chain.tree.into_inner();
    let made = Boxed::new(alloc, GuardTree::Bind { at, pattern, chain })?;
    Ok(made)
}

/// A chain as a guard.
pub fn test_guard(
    alloc: Global,
    at: Pos,
    chain: Boxed<ChainTree>,
) -> Result<Boxed<GuardTree>, NoMemory>
    ensures { IfOk result (λ g. g ≡ spec.test_guard at chain) }
{
    let chain = chain.into_inner();
    let made = Boxed::new(alloc, GuardTree::Test { at, chain })?;
    Ok(made)
}

/// `let block(decl)` as a guard.
pub fn let_guard(
    alloc: Global,
    at: Pos,
    decls: Items<DeclTree>,
) -> Result<Boxed<GuardTree>, NoMemory>
    ensures { IfOk result (λ g. g ≡ spec.let_guard_of at decls) }
{
    let made = Boxed::new(alloc, GuardTree::Let { at, decls })?;
    Ok(made)
}

/// A guard, put behind those before it.
pub fn push_guard(guards: &mut Vec<GuardTree>, guard: Boxed<GuardTree>) -> Result<(), NoMemory>
    ensures { IfOk result (λ u. guards.new.items ≡ guards.old.items ++ guard ∷ []) }
{
    guards.push(guard.into_inner())?;
    Ok(())
}
