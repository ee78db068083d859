//! Methods, each put behind others.
ghost use Rattle.std.specs.Prelude.{◌≡◌, ◌++◌, ◌∷◌, [], None as Without, IfOk, OnOk};
ghost use Rattle.prim_table.specs.Spelled as spec;
ghost use Rattle.prim_table.specs.Classes as classes;

use crate::spelled::{on, spelled};
use face_model::decl::Method;
use face_model::fixity::{Assoc, Fixity};
use face_model::scheme::{Constraint, Scheme};
use mk_base::list::List;
use mk_base::memory::NoMemory;
use mk_base::text::Text;
use std::alloc::Global;

/// A method with a context of its own.
fn method_in(
    alloc: Global,
    context: List<Constraint>,
    fixity: Option<Fixity>,
    occ: &[u8],
    vars: u32,
    ty: &[u8],
) -> Result<Method, NoMemory>
    ensures { IfOk result (λ m. m ≡ spec.method_in context fixity occ.now vars ty.now) }
{
    let occ = Text::from_slice(alloc, occ)?;
    let body = spelled(alloc, ty)?;
    Ok(Method {
        occ,
        fixity,
        scheme: Scheme {
            vars,
            context,
            body,
        },
    })
}

/// A method without a fixity.
pub fn method(
    alloc: Global,
    out: &mut List<Method>,
    occ: &[u8],
    vars: u32,
    ty: &[u8],
) -> Result<(), NoMemory>
    ensures { OnOk result (out.new ≡ out.old ++ spec.method occ.now vars ty.now ∷ []) }
{
    let method = method_in(alloc, List::new(alloc), None, occ, vars, ty)?;
    out.push(method)
}

/// A method with a fixity.
pub fn operator(
    alloc: Global,
    out: &mut List<Method>,
    occ: &[u8],
    assoc: Assoc,
    level: u8,
    vars: u32,
    ty: &[u8],
) -> Result<(), NoMemory>
    ensures { OnOk result (out.new ≡ out.old ++ spec.operator occ.now assoc level vars ty.now ∷ []) }
{
    let fixity = Some(Fixity { assoc, level });
    let method = method_in(alloc, List::new(alloc), fixity, occ, vars, ty)?;
    out.push(method)
}

/// A method from a type to itself.
pub fn unary(alloc: Global, out: &mut List<Method>, occ: &[u8]) -> Result<(), NoMemory>
    ensures { OnOk result (out.new ≡ out.old ++ classes.unary occ.now ∷ []) }
{
    method(alloc, out, occ, 1, b">00")
}

/// The context that the second variable is of an integral type.
fn integral(alloc: Global) -> Result<List<Constraint>, NoMemory>
    ensures { IfOk result (λ cs. cs ≡ classes.integral) }
{
    let mut context = List::new(alloc);
    context.push(on(alloc, b"Integral", 1)?)?;
    Ok(context)
}

/// A method to any integral type.
pub fn rounding(
    alloc: Global,
    out: &mut List<Method>,
    occ: &[u8],
    ty: &[u8],
) -> Result<(), NoMemory>
    ensures { OnOk result (out.new ≡ out.old ++ classes.rounding occ.now ty.now ∷ []) }
{
    let context = integral(alloc)?;
    let method = method_in(alloc, context, None, occ, 2, ty)?;
    out.push(method)
}
