//! The classes, with their superclasses and methods, and all fixities.
use crate::rows::{Part, run};
use std::test::Fail;

/// Every class: its kind, superclasses and methods.
#[test]
fn all_classes(rt: HostRuntime) -> Result<(), Fail> {
    const ROWS: &[u8] = b"\
        class Bounded *;; minBound maxBound\n\
        class Enum *;; succ pred toEnum fromEnum enumFrom enumFromThen enumFromTo enumFromThenTo\n\
        class Eq *;; == /=\n\
        class Floating *; Fractional; pi exp log sqrt sin cos tan asin acos atan sinh cosh tanh asinh acosh atanh ** logBase\n\
        class Fractional *; Num; / recip fromRational\n\
        class Functor (* -> *);; fmap\n\
        class Integral *; Real Enum; quot rem div mod quotRem divMod toInteger\n\
        class Monad (* -> *);; >>= >> return fail\n\
        class Num *;; + - * negate abs signum fromInteger\n\
        class Ord *; Eq; compare < <= >= > max min\n\
        class Read *;; readsPrec readList\n\
        class Real *; Num Ord; toRational\n\
        class RealFrac *; Real Fractional; properFraction truncate round ceiling floor\n\
        class Show *;; showsPrec show showList\n";
    run(&rt, rt.alloc(), Part::Classes, ROWS)?;
    Ok(())
}

/// Every fixity, in the order of the declarations: values, methods, and the constructor of lists.
#[test]
fn all_fixities(rt: HostRuntime) -> Result<(), Fail> {
    const ROWS: &[u8] = b"\
        infixr 0 seq\n\
        infix 4 ==\n\
        infix 4 /=\n\
        infixr 8 **\n\
        infixl 7 /\n\
        infixl 7 quot\n\
        infixl 7 rem\n\
        infixl 7 div\n\
        infixl 7 mod\n\
        infixl 1 >>=\n\
        infixl 1 >>\n\
        infixl 6 +\n\
        infixl 6 -\n\
        infixl 7 *\n\
        infix 4 <\n\
        infix 4 <=\n\
        infix 4 >=\n\
        infix 4 >\n\
        infixr 5 :\n";
    run(&rt, rt.alloc(), Part::Fixities, ROWS)?;
    Ok(())
}
