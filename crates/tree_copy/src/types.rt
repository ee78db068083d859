//! Copies of types, and the contexts before them.
ghost use Rattle.std.specs.Prelude.{◌≡◌, IfOk};

use hs_syntax::type_tree::{
    AtypeTree, BtypeTree, ClassTree, ContextTree, QualifiedType, SclassTree, ScontextTree, TypeTree,
};
use mk_base::list::List;
use mk_base::memory::NoMemory;
use mk_base::plain::Plain;
use sqlite_items::{Boxed, Items};
use std::alloc::Global;

/// A type once more.
#[cycle(types)]
pub fn copy_type(alloc: Global, a: &TypeTree) -> Result<TypeTree, NoMemory>
    ensures { IfOk result (λ c. c ≡ a.now) }
{
    Ok(TypeTree {
        at: a.at,
        from: copy_btype(alloc, &a.from)?,
        to: copy_optional_type(alloc, &a.to)?,
    })
}

/// A type once more, in a box.
#[cycle(types)]
fn boxed_type(alloc: Global, a: &TypeTree) -> Result<Boxed<TypeTree>, NoMemory>
    ensures { IfOk result (λ c. c ≡ a.now) }
{
    let copy = copy_type(alloc, a)?;
    Ok(Boxed::new(alloc, copy)?)
}

/// A type once more, where it is there.
#[cycle(types)]
fn copy_optional_type(
    alloc: Global,
    a: &Option<Boxed<TypeTree>>,
) -> Result<Option<Boxed<TypeTree>>, NoMemory>
    ensures { IfOk result (λ c. c ≡ a.now) }
{
    match a {
        None => Ok(None),
        Some(x) => Ok(Some(boxed_type(alloc, x.get())?)),
    }
}

/// A type with what it is applied to once more.
#[cycle(types)]
pub fn copy_btype(alloc: Global, a: &BtypeTree) -> Result<BtypeTree, NoMemory>
    ensures { IfOk result (λ c. c ≡ a.now) }
{
    Ok(BtypeTree {
        at: a.at,
        head: copy_atype(alloc, &a.head)?,
        args: copy_atypes(alloc, a.args.as_slice())?,
    })
}

/// An atomic type once more.
#[cycle(types)]
pub fn copy_atype(alloc: Global, a: &AtypeTree) -> Result<AtypeTree, NoMemory>
    ensures { IfOk result (λ c. c ≡ a.now) }
{
    match a {
        AtypeTree::Con { at, name } => Ok(AtypeTree::Con {
            at: *at,
            name: name.copy(alloc)?,
        }),
        AtypeTree::Unit { at } => Ok(AtypeTree::Unit { at: *at }),
        AtypeTree::ListCon { at } => Ok(AtypeTree::ListCon { at: *at }),
        AtypeTree::Arrow { at } => Ok(AtypeTree::Arrow { at: *at }),
        AtypeTree::TupleCon { at, commas } => Ok(AtypeTree::TupleCon {
            at: *at,
            commas: *commas,
        }),
        AtypeTree::Var { at, name } => Ok(AtypeTree::Var {
            at: *at,
            name: name.copy(alloc)?,
        }),
        AtypeTree::Tuple { at, parts } => Ok(AtypeTree::Tuple {
            at: *at,
            parts: copy_types(alloc, parts.as_slice())?,
        }),
        AtypeTree::List { at, part } => Ok(AtypeTree::List {
            at: *at,
            part: boxed_type(alloc, part.get())?,
        }),
    }
}

/// A list of types once more.
#[cycle(types)]
fn copy_types(alloc: Global, a: &[TypeTree]) -> Result<Items<TypeTree>, NoMemory>
    ensures { IfOk result (λ c. c ≡ a.now) }
{
    let mut out = Vec::new(alloc);
    for part in a {
        out.push(copy_type(alloc, part)?)?;
    }
    Ok(Items::from_vec(out))
}

/// A list of atomic types once more.
#[cycle(types)]
pub fn copy_atypes(alloc: Global, a: &[AtypeTree]) -> Result<Items<AtypeTree>, NoMemory>
    ensures { IfOk result (λ c. c ≡ a.now) }
{
    let mut out = Vec::new(alloc);
    for part in a {
        out.push(copy_atype(alloc, part)?)?;
    }
    Ok(Items::from_vec(out))
}

/// A class of a context once more.
pub fn copy_class(alloc: Global, a: &ClassTree) -> Result<ClassTree, NoMemory>
    ensures { IfOk result (λ c. c ≡ a.now) }
{
    match a {
        ClassTree::Var { at, class, var } => Ok(ClassTree::Var {
            at: *at,
            class: class.copy(alloc)?,
            var: var.copy(alloc)?,
        }),
        ClassTree::Applied {
            at,
            class,
            var,
            args,
        } => Ok(ClassTree::Applied {
            at: *at,
            class: class.copy(alloc)?,
            var: var.copy(alloc)?,
            args: copy_atypes(alloc, args.as_slice())?,
        }),
    }
}

/// A list of classes once more.
fn copy_classes(alloc: Global, a: &[ClassTree]) -> Result<Items<ClassTree>, NoMemory>
    ensures { IfOk result (λ c. c ≡ a.now) }
{
    let mut out = Vec::new(alloc);
    for part in a {
        out.push(copy_class(alloc, part)?)?;
    }
    Ok(Items::from_vec(out))
}

/// A context once more.
pub fn copy_context(alloc: Global, a: &ContextTree) -> Result<ContextTree, NoMemory>
    ensures { IfOk result (λ c. c ≡ a.now) }
{
    match a {
        ContextTree::One { at, class } => Ok(ContextTree::One {
            at: *at,
            class: copy_class(alloc, class)?,
        }),
        ContextTree::Listed { at, classes } => Ok(ContextTree::Listed {
            at: *at,
            classes: copy_classes(alloc, classes.as_slice())?,
        }),
    }
}

/// A context once more, where it is there.
fn copy_optional_context(
    alloc: Global,
    a: &Option<ContextTree>,
) -> Result<Option<ContextTree>, NoMemory>
    ensures { IfOk result (λ c. c ≡ a.now) }
{
    match a {
        None => Ok(None),
        Some(x) => Ok(Some(copy_context(alloc, x)?)),
    }
}

/// A type with its context once more.
pub fn copy_qualified(alloc: Global, a: &QualifiedType) -> Result<QualifiedType, NoMemory>
    ensures { IfOk result (λ c. c ≡ a.now) }
{
    Ok(QualifiedType {
        at: a.at,
        context: copy_optional_context(alloc, &a.context)?,
        ty: copy_type(alloc, &a.ty)?,
    })
}

/// A type with its context once more, in a box.
fn boxed_qualified(alloc: Global, a: &QualifiedType) -> Result<Boxed<QualifiedType>, NoMemory>
    ensures { IfOk result (λ c. c ≡ a.now) }
{
    let copy = copy_qualified(alloc, a)?;
    Ok(Boxed::new(alloc, copy)?)
}

/// A type with its context once more, where it is there.
pub fn copy_optional_qualified(
    alloc: Global,
    a: &Option<Boxed<QualifiedType>>,
) -> Result<Option<Boxed<QualifiedType>>, NoMemory>
    ensures { IfOk result (λ c. c ≡ a.now) }
{
    match a {
        None => Ok(None),
        Some(x) => Ok(Some(boxed_qualified(alloc, x.get())?)),
    }
}

/// A class of a simple context once more.
pub fn copy_sclass(alloc: Global, a: &SclassTree) -> Result<SclassTree, NoMemory>
    ensures { IfOk result (λ c. c ≡ a.now) }
{
    Ok(SclassTree {
        at: a.at,
        class: a.class.copy(alloc)?,
        var: a.var.copy(alloc)?,
    })
}

/// A list of classes of a simple context once more.
fn copy_sclasses(alloc: Global, a: &[SclassTree]) -> Result<List<SclassTree>, NoMemory>
    ensures { IfOk result (λ c. c ≡ a.now) }
{
    let mut out = Vec::new(alloc);
    for part in a {
        out.push(copy_sclass(alloc, part)?)?;
    }
    Ok(List::from_vec(out))
}

/// A simple context once more.
pub fn copy_scontext(alloc: Global, a: &ScontextTree) -> Result<ScontextTree, NoMemory>
    ensures { IfOk result (λ c. c ≡ a.now) }
{
    match a {
        ScontextTree::One { at, class } => Ok(ScontextTree::One {
            at: *at,
            class: copy_sclass(alloc, class)?,
        }),
        ScontextTree::Listed { at, classes } => Ok(ScontextTree::Listed {
            at: *at,
            classes: copy_sclasses(alloc, classes.as_slice())?,
        }),
    }
}

/// A simple context once more, where it is there.
pub fn copy_optional_scontext(
    alloc: Global,
    a: &Option<ScontextTree>,
) -> Result<Option<ScontextTree>, NoMemory>
    ensures { IfOk result (λ c. c ≡ a.now) }
{
    match a {
        None => Ok(None),
        Some(x) => Ok(Some(copy_scontext(alloc, x)?)),
    }
}
