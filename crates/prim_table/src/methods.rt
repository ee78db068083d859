//! The classes' methods (Haskell 2010 Report, section 6.3 and chapter 9).
ghost use Rattle.std.specs.Prelude.{◌≡◌, IfOk};
ghost use Rattle.prim_table.specs.Classes as classes;

use crate::put::{method, operator, rounding, unary};
use face_model::decl::Method;
use face_model::fixity::Assoc;
use mk_base::list::List;
use mk_base::memory::NoMemory;
use std::alloc::Global;

/// The methods of `Eq`.
pub fn eq_methods(alloc: Global) -> Result<List<Method>, NoMemory>
    ensures { IfOk result (λ ms. ms ≡ classes.eq_methods) }
{
    let mut out = List::new(alloc);
    operator(alloc, &mut out, b"==", Assoc::Neither, 4, 1, b">0>0B")?;
    operator(alloc, &mut out, b"/=", Assoc::Neither, 4, 1, b">0>0B")?;
    Ok(out)
}

/// The methods of `Ord`.
pub fn ord_methods(alloc: Global) -> Result<List<Method>, NoMemory>
    ensures { IfOk result (λ ms. ms ≡ classes.ord_methods) }
{
    let mut out = List::new(alloc);
    method(alloc, &mut out, b"compare", 1, b">0>0O")?;
    operator(alloc, &mut out, b"<", Assoc::Neither, 4, 1, b">0>0B")?;
    operator(alloc, &mut out, b"<=", Assoc::Neither, 4, 1, b">0>0B")?;
    operator(alloc, &mut out, b">=", Assoc::Neither, 4, 1, b">0>0B")?;
    operator(alloc, &mut out, b">", Assoc::Neither, 4, 1, b">0>0B")?;
    method(alloc, &mut out, b"max", 1, b">0>00")?;
    method(alloc, &mut out, b"min", 1, b">0>00")?;
    Ok(out)
}

/// The methods of `Enum`.
pub fn enum_methods(alloc: Global) -> Result<List<Method>, NoMemory>
    ensures { IfOk result (λ ms. ms ≡ classes.enum_methods) }
{
    let mut out = List::new(alloc);
    method(alloc, &mut out, b"succ", 1, b">00")?;
    method(alloc, &mut out, b"pred", 1, b">00")?;
    method(alloc, &mut out, b"toEnum", 1, b">I0")?;
    method(alloc, &mut out, b"fromEnum", 1, b">0I")?;
    method(alloc, &mut out, b"enumFrom", 1, b">0[0")?;
    method(alloc, &mut out, b"enumFromThen", 1, b">0>0[0")?;
    method(alloc, &mut out, b"enumFromTo", 1, b">0>0[0")?;
    method(alloc, &mut out, b"enumFromThenTo", 1, b">0>0>0[0")?;
    Ok(out)
}

/// The methods of `Bounded`.
pub fn bounded_methods(alloc: Global) -> Result<List<Method>, NoMemory>
    ensures { IfOk result (λ ms. ms ≡ classes.bounded_methods) }
{
    let mut out = List::new(alloc);
    method(alloc, &mut out, b"minBound", 1, b"0")?;
    method(alloc, &mut out, b"maxBound", 1, b"0")?;
    Ok(out)
}

/// The methods of `Num`.
pub fn num_methods(alloc: Global) -> Result<List<Method>, NoMemory>
    ensures { IfOk result (λ ms. ms ≡ classes.num_methods) }
{
    let mut out = List::new(alloc);
    operator(alloc, &mut out, b"+", Assoc::Left, 6, 1, b">0>00")?;
    operator(alloc, &mut out, b"-", Assoc::Left, 6, 1, b">0>00")?;
    operator(alloc, &mut out, b"*", Assoc::Left, 7, 1, b">0>00")?;
    method(alloc, &mut out, b"negate", 1, b">00")?;
    method(alloc, &mut out, b"abs", 1, b">00")?;
    method(alloc, &mut out, b"signum", 1, b">00")?;
    method(alloc, &mut out, b"fromInteger", 1, b">Z0")?;
    Ok(out)
}

/// The methods of `Real`.
pub fn real_methods(alloc: Global) -> Result<List<Method>, NoMemory>
    ensures { IfOk result (λ ms. ms ≡ classes.real_methods) }
{
    let mut out = List::new(alloc);
    method(alloc, &mut out, b"toRational", 1, b">0@RZ")?;
    Ok(out)
}

/// The methods of `Integral`.
pub fn integral_methods(alloc: Global) -> Result<List<Method>, NoMemory>
    ensures { IfOk result (λ ms. ms ≡ classes.integral_methods) }
{
    let mut out = List::new(alloc);
    operator(alloc, &mut out, b"quot", Assoc::Left, 7, 1, b">0>00")?;
    operator(alloc, &mut out, b"rem", Assoc::Left, 7, 1, b">0>00")?;
    operator(alloc, &mut out, b"div", Assoc::Left, 7, 1, b">0>00")?;
    operator(alloc, &mut out, b"mod", Assoc::Left, 7, 1, b">0>00")?;
    method(alloc, &mut out, b"quotRem", 1, b">0>0,00")?;
    method(alloc, &mut out, b"divMod", 1, b">0>0,00")?;
    method(alloc, &mut out, b"toInteger", 1, b">0Z")?;
    Ok(out)
}

/// The methods of `Fractional`.
pub fn fractional_methods(alloc: Global) -> Result<List<Method>, NoMemory>
    ensures { IfOk result (λ ms. ms ≡ classes.fractional_methods) }
{
    let mut out = List::new(alloc);
    operator(alloc, &mut out, b"/", Assoc::Left, 7, 1, b">0>00")?;
    method(alloc, &mut out, b"recip", 1, b">00")?;
    method(alloc, &mut out, b"fromRational", 1, b">@RZ0")?;
    Ok(out)
}

/// The methods of `Floating`.
pub fn floating_methods(alloc: Global) -> Result<List<Method>, NoMemory>
    ensures { IfOk result (λ ms. ms ≡ classes.floating_methods) }
{
    let mut out = List::new(alloc);
    method(alloc, &mut out, b"pi", 1, b"0")?;
    unary(alloc, &mut out, b"exp")?;
    unary(alloc, &mut out, b"log")?;
    unary(alloc, &mut out, b"sqrt")?;
    unary(alloc, &mut out, b"sin")?;
    unary(alloc, &mut out, b"cos")?;
    unary(alloc, &mut out, b"tan")?;
    unary(alloc, &mut out, b"asin")?;
    unary(alloc, &mut out, b"acos")?;
    unary(alloc, &mut out, b"atan")?;
    unary(alloc, &mut out, b"sinh")?;
    unary(alloc, &mut out, b"cosh")?;
    unary(alloc, &mut out, b"tanh")?;
    unary(alloc, &mut out, b"asinh")?;
    unary(alloc, &mut out, b"acosh")?;
    unary(alloc, &mut out, b"atanh")?;
    operator(alloc, &mut out, b"**", Assoc::Right, 8, 1, b">0>00")?;
    method(alloc, &mut out, b"logBase", 1, b">0>00")?;
    Ok(out)
}

/// The methods of `RealFrac`.
pub fn real_frac_methods(alloc: Global) -> Result<List<Method>, NoMemory>
    ensures { IfOk result (λ ms. ms ≡ classes.real_frac_methods) }
{
    let mut out = List::new(alloc);
    rounding(alloc, &mut out, b"properFraction", b">0,10")?;
    rounding(alloc, &mut out, b"truncate", b">01")?;
    rounding(alloc, &mut out, b"round", b">01")?;
    rounding(alloc, &mut out, b"ceiling", b">01")?;
    rounding(alloc, &mut out, b"floor", b">01")?;
    Ok(out)
}

/// The methods of `Functor`.
pub fn functor_methods(alloc: Global) -> Result<List<Method>, NoMemory>
    ensures { IfOk result (λ ms. ms ≡ classes.functor_methods) }
{
    let mut out = List::new(alloc);
    method(alloc, &mut out, b"fmap", 3, b">>12>@01@02")?;
    Ok(out)
}

/// The methods of `Monad`.
pub fn monad_methods(alloc: Global) -> Result<List<Method>, NoMemory>
    ensures { IfOk result (λ ms. ms ≡ classes.monad_methods) }
{
    let mut out = List::new(alloc);
    operator(alloc, &mut out, b">>=", Assoc::Left, 1, 3, b">@01>>1@02@02")?;
    operator(alloc, &mut out, b">>", Assoc::Left, 1, 3, b">@01>@02@02")?;
    method(alloc, &mut out, b"return", 2, b">1@01")?;
    method(alloc, &mut out, b"fail", 2, b">[C@01")?;
    Ok(out)
}

/// The methods of `Show`.
pub fn show_methods(alloc: Global) -> Result<List<Method>, NoMemory>
    ensures { IfOk result (λ ms. ms ≡ classes.show_methods) }
{
    let mut out = List::new(alloc);
    method(alloc, &mut out, b"showsPrec", 1, b">I>0>[C[C")?;
    method(alloc, &mut out, b"show", 1, b">0[C")?;
    method(alloc, &mut out, b"showList", 1, b">[0>[C[C")?;
    Ok(out)
}

/// The methods of `Read`.
pub fn read_methods(alloc: Global) -> Result<List<Method>, NoMemory>
    ensures { IfOk result (λ ms. ms ≡ classes.read_methods) }
{
    let mut out = List::new(alloc);
    method(alloc, &mut out, b"readsPrec", 1, b">I>[C[,0[C")?;
    method(alloc, &mut out, b"readList", 1, b">[C[,[0[C")?;
    Ok(out)
}
