//! The instances (Haskell 2010 Report, section 6.3), each put behind others.
#![tactic(auto, using(crate::proofs::Steps::each_end, crate::proofs::Steps::each_step, crate::proofs::Steps::at_tuples_end, crate::proofs::Steps::at_tuples_step))]

ghost use Rattle.std.specs.Prelude.{◌≡◌, ◌≤◌, ◌+◌, ◌++◌, ◌∷◌, [], codes, IfOk, OnOk};
ghost use Rattle.prim_table.specs.Spelled as spelling;
ghost use Rattle.prim_table.specs.Insts as spec;

use crate::spelled::{on, own};
use crate::types::tuple_name;
use face_model::inst::Inst;
use face_model::scheme::Constraint;
use mk_base::list::List;
use mk_base::memory::NoMemory;
use mk_base::name::Space;
use std::alloc::Global;

fn inst(
    alloc: Global,
    out: &mut List<Inst>,
    class: &[u8],
    head: &[u8],
    vars: u32,
    context: List<Constraint>,
) -> Result<(), NoMemory>
    ensures { OnOk result (out.new ≡ out.old ++ spec.inst class.now head.now vars context ∷ []) }
{
    let class = own(alloc, Space::Ty, class)?;
    let head = own(alloc, Space::Ty, head)?;
    out.push(Inst {
        class,
        head,
        vars,
        context,
    })
}

fn plain(alloc: Global, out: &mut List<Inst>, class: &[u8], head: &[u8]) -> Result<(), NoMemory>
    ensures { OnOk result (out.new ≡ out.old ++ spec.plain class.now head.now ∷ []) }
{
    inst(alloc, out, class, head, 0, List::new(alloc))
}

/// The class on each of so many variables.
fn each(alloc: Global, class: &[u8], count: u32) -> Result<List<Constraint>, NoMemory>
    ensures { IfOk result (λ cs. cs ≡ spec.each class.now count) }
{
    if count == 0 {
        return Ok(List::new(alloc));
    }
    let mut context = each(alloc, class, count - 1)?;
    context.push(on(alloc, class, u64::from(count - 1))?)?;
    Ok(context)
}

/// The instance at tuples of one more part than commas.
fn at_tuple(alloc: Global, out: &mut List<Inst>, class: &[u8], count: u32) -> Result<(), NoMemory>
    requires { count ≤ 100 }
    ensures { OnOk result (out.new ≡ out.old ++ spec.at_tuple class.now count ∷ []) }
{
    let name = tuple_name(alloc, count as usize)?;
    let context = each(alloc, class, count + 1)?;
    inst(alloc, out, class, name.as_slice(), count + 1, context)
}

/// The instances at tuples of up to one more part than so many commas.
fn at_tuples(alloc: Global, out: &mut List<Inst>, class: &[u8], count: u32) -> Result<(), NoMemory>
    requires { count ≤ 100 }
    ensures { OnOk result (out.new ≡ spec.at_tuples class.now count out.old) }
{
    if count == 0 {
        return Ok(());
    }
    at_tuples(alloc, out, class, count - 1)?;
    at_tuple(alloc, out, class, count)
}

fn on_first(alloc: Global, class: &[u8]) -> Result<List<Constraint>, NoMemory>
    ensures { IfOk result (λ cs. cs ≡ spelling.on class.now 0 ∷ []) }
{
    let mut context = List::new(alloc);
    context.push(on(alloc, class, 0)?)?;
    Ok(context)
}

fn integral(alloc: Global) -> Result<List<Constraint>, NoMemory>
    ensures { IfOk result (λ cs. cs ≡ spec.integral) }
{
    on_first(alloc, b"Integral")
}

fn at_ratio(alloc: Global, out: &mut List<Inst>, class: &[u8]) -> Result<(), NoMemory>
    ensures { OnOk result (out.new ≡ out.old ++ spec.at_ratio class.now spec.integral ∷ []) }
{
    let context = integral(alloc)?;
    inst(alloc, out, class, b"Ratio", 1, context)
}

fn at_lists(alloc: Global, out: &mut List<Inst>, class: &[u8]) -> Result<(), NoMemory>
    ensures { OnOk result (out.new ≡ out.old ++ spec.at_lists class.now ∷ []) }
{
    let context = on_first(alloc, class)?;
    inst(alloc, out, class, b"[]", 1, context)
}

fn basic(alloc: Global, out: &mut List<Inst>, class: &[u8]) -> Result<(), NoMemory>
    ensures { OnOk result (out.new ≡ spec.basic class.now out.old) }
{
    plain(alloc, out, class, b"Bool")?;
    plain(alloc, out, class, b"Char")?;
    plain(alloc, out, class, b"Double")?;
    plain(alloc, out, class, b"Float")?;
    plain(alloc, out, class, b"Int")?;
    plain(alloc, out, class, b"Integer")?;
    plain(alloc, out, class, b"Ordering")
}

fn general(
    alloc: Global,
    out: &mut List<Inst>,
    class: &[u8],
    context: List<Constraint>,
) -> Result<(), NoMemory>
    ensures { OnOk result (out.new ≡ spec.general class.now context out.old) }
{
    plain(alloc, out, class, b"()")?;
    at_tuples(alloc, out, class, 14)?;
    basic(alloc, out, class)?;
    inst(alloc, out, class, b"Ratio", 1, context)?;
    at_lists(alloc, out, class)
}

fn compared(alloc: Global, out: &mut List<Inst>, class: &[u8]) -> Result<(), NoMemory>
    ensures { OnOk result (out.new ≡ spec.compared class.now out.old) }
{
    let context = integral(alloc)?;
    general(alloc, out, class, context)
}

fn printed(alloc: Global, out: &mut List<Inst>, class: &[u8]) -> Result<(), NoMemory>
    ensures { OnOk result (out.new ≡ spec.printed class.now out.old) }
{
    let mut context = integral(alloc)?;
    context.push(on(alloc, class, 0)?)?;
    general(alloc, out, class, context)
}

fn bounded(alloc: Global, out: &mut List<Inst>) -> Result<(), NoMemory>
    ensures { OnOk result (out.new ≡ spec.bounded out.old) }
{
    plain(alloc, out, b"Bounded", b"()")?;
    at_tuples(alloc, out, b"Bounded", 14)?;
    plain(alloc, out, b"Bounded", b"Bool")?;
    plain(alloc, out, b"Bounded", b"Char")?;
    plain(alloc, out, b"Bounded", b"Int")?;
    plain(alloc, out, b"Bounded", b"Ordering")
}

fn enumerated(alloc: Global, out: &mut List<Inst>) -> Result<(), NoMemory>
    ensures { OnOk result (out.new ≡ spec.enumerated out.old) }
{
    plain(alloc, out, b"Enum", b"()")?;
    basic(alloc, out, b"Enum")?;
    at_ratio(alloc, out, b"Enum")
}

fn floating(alloc: Global, out: &mut List<Inst>, class: &[u8]) -> Result<(), NoMemory>
    ensures { OnOk result (out.new ≡ spec.floating class.now out.old) }
{
    plain(alloc, out, class, b"Double")?;
    plain(alloc, out, class, b"Float")
}

fn fractional(alloc: Global, out: &mut List<Inst>, class: &[u8]) -> Result<(), NoMemory>
    ensures { OnOk result (out.new ≡ spec.fractional class.now out.old) }
{
    floating(alloc, out, class)?;
    at_ratio(alloc, out, class)
}

fn integers(alloc: Global, out: &mut List<Inst>, class: &[u8]) -> Result<(), NoMemory>
    ensures { OnOk result (out.new ≡ spec.integers class.now out.old) }
{
    plain(alloc, out, class, b"Int")?;
    plain(alloc, out, class, b"Integer")
}

fn numeric(alloc: Global, out: &mut List<Inst>, class: &[u8]) -> Result<(), NoMemory>
    ensures { OnOk result (out.new ≡ spec.numeric class.now out.old) }
{
    floating(alloc, out, class)?;
    integers(alloc, out, class)?;
    at_ratio(alloc, out, class)
}

fn constructors(alloc: Global, out: &mut List<Inst>, class: &[u8]) -> Result<(), NoMemory>
    ensures { OnOk result (out.new ≡ spec.constructors class.now out.old) }
{
    plain(alloc, out, class, b"IO")?;
    plain(alloc, out, class, b"[]")
}

fn first_insts(alloc: Global) -> Result<List<Inst>, NoMemory>
    ensures { IfOk result (λ is. is ≡ spec.first_insts) }
{
    let mut out = List::new(alloc);
    bounded(alloc, &mut out)?;
    enumerated(alloc, &mut out)?;
    compared(alloc, &mut out, b"Eq")?;
    floating(alloc, &mut out, b"Floating")?;
    fractional(alloc, &mut out, b"Fractional")?;
    constructors(alloc, &mut out, b"Functor")?;
    integers(alloc, &mut out, b"Integral")?;
    Ok(out)
}

fn second_insts(alloc: Global, out: &mut List<Inst>) -> Result<(), NoMemory>
    ensures { OnOk result (out.new ≡ spec.second_insts out.old) }
{
    constructors(alloc, out, b"Monad")?;
    numeric(alloc, out, b"Num")?;
    compared(alloc, out, b"Ord")
}

fn third_insts(alloc: Global, out: &mut List<Inst>) -> Result<(), NoMemory>
    ensures { OnOk result (out.new ≡ spec.third_insts out.old) }
{
    printed(alloc, out, b"Read")?;
    numeric(alloc, out, b"Real")
}

fn fourth_insts(alloc: Global, out: &mut List<Inst>) -> Result<(), NoMemory>
    ensures { OnOk result (out.new ≡ spec.fourth_insts out.old) }
{
    fractional(alloc, out, b"RealFrac")?;
    printed(alloc, out, b"Show")
}

/// All instances, by class and then by type.
pub fn insts(alloc: Global) -> Result<List<Inst>, NoMemory>
    ensures { IfOk result (λ is. is ≡ spec.insts) }
{
    let mut out = first_insts(alloc)?;
    second_insts(alloc, &mut out)?;
    third_insts(alloc, &mut out)?;
    fourth_insts(alloc, &mut out)?;
    Ok(out)
}
