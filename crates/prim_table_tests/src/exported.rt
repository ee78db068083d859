//! Exports: names alone, and those with the type or class that they belong to. Names of special syntax are not among them.
use crate::rows::{Part, run};
use std::test::Fail;

/// Values that are no methods, types and classes.
#[test]
fn names_alone(rt: HostRuntime) -> Result<(), Fail> {
    const ROWS: &[u8] = b"\
        variable appendFile\n\
        variable error\n\
        variable getChar\n\
        variable getContents\n\
        variable getLine\n\
        variable putChar\n\
        variable putStr\n\
        variable readFile\n\
        variable seq\n\
        variable writeFile\n\
        type Bool\n\
        type Bounded\n\
        type Char\n\
        type Double\n\
        type Enum\n\
        type Eq\n\
        type Float\n\
        type Floating\n\
        type Fractional\n\
        type Functor\n\
        type IO\n\
        type Int\n\
        type Integer\n\
        type Integral\n\
        type Monad\n\
        type Num\n\
        type Ord\n\
        type Ordering\n\
        type Ratio\n\
        type Rational\n\
        type Read\n\
        type ReadS\n\
        type Real\n\
        type RealFrac\n\
        type Show\n\
        type ShowS\n\
        type String\n";
    run(&rt, rt.alloc(), Part::Names, ROWS)?;
    Ok(())
}

/// Methods and constructors.
#[test]
fn names_with_parents(rt: HostRuntime) -> Result<(), Fail> {
    const ROWS: &[u8] = b"\
        variable * Num\n\
        variable ** Floating\n\
        variable + Num\n\
        variable - Num\n\
        variable / Fractional\n\
        variable /= Eq\n\
        variable < Ord\n\
        variable <= Ord\n\
        variable == Eq\n\
        variable > Ord\n\
        variable >= Ord\n\
        variable >> Monad\n\
        variable >>= Monad\n\
        variable abs Num\n\
        variable acos Floating\n\
        variable acosh Floating\n\
        variable asin Floating\n\
        variable asinh Floating\n\
        variable atan Floating\n\
        variable atanh Floating\n\
        variable ceiling RealFrac\n\
        variable compare Ord\n\
        variable cos Floating\n\
        variable cosh Floating\n\
        variable div Integral\n\
        variable divMod Integral\n\
        variable enumFrom Enum\n\
        variable enumFromThen Enum\n\
        variable enumFromThenTo Enum\n\
        variable enumFromTo Enum\n\
        variable exp Floating\n\
        variable fail Monad\n\
        variable floor RealFrac\n\
        variable fmap Functor\n\
        variable fromEnum Enum\n\
        variable fromInteger Num\n\
        variable fromRational Fractional\n\
        variable log Floating\n\
        variable logBase Floating\n\
        variable max Ord\n\
        variable maxBound Bounded\n\
        variable min Ord\n\
        variable minBound Bounded\n\
        variable mod Integral\n\
        variable negate Num\n\
        variable pi Floating\n\
        variable pred Enum\n\
        variable properFraction RealFrac\n\
        variable quot Integral\n\
        variable quotRem Integral\n\
        variable readList Read\n\
        variable readsPrec Read\n\
        variable recip Fractional\n\
        variable rem Integral\n\
        variable return Monad\n\
        variable round RealFrac\n\
        variable show Show\n\
        variable showList Show\n\
        variable showsPrec Show\n\
        variable signum Num\n\
        variable sin Floating\n\
        variable sinh Floating\n\
        variable sqrt Floating\n\
        variable succ Enum\n\
        variable tan Floating\n\
        variable tanh Floating\n\
        variable toEnum Enum\n\
        variable toInteger Integral\n\
        variable toRational Real\n\
        variable truncate RealFrac\n\
        constructor EQ Ordering\n\
        constructor False Bool\n\
        constructor GT Ordering\n\
        constructor LT Ordering\n\
        constructor True Bool\n";
    run(&rt, rt.alloc(), Part::Parts, ROWS)?;
    Ok(())
}
