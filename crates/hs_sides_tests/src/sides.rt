//! Left sides.
use crate::rows::{run, run_places};
use std::test::Fail;

/// A variable and the patterns behind it; a variable alone is a function as well.
#[test]
fn functions(rt: HostRuntime) -> Result<(), Fail> {
    const ROWS: &str = "\
        x =;(function x) 1\n\
        f = 1;(function f) 2\n\
        f | x = y;(function f) 4\n\
        f );(function f) 1\n\
        (-) =;(function -) 1\n\
        f x =;(function f x) 1\n\
        f x y z |;(function f x y z) 1\n\
        f (Just x) =;(function f (tuple (con .Just x))) 1\n\
        f Nothing _ 1 \"s\" =;(function f .Nothing _ 1 \"s\") 1\n\
        f ~x y@z [] () =;(function f (lazy x) y@ z nil unit) 1\n\
        f P {} P {x = y} =;(function f (record .P) (record .P (x = y))) 1\n\
        f M.X =;(function f .M/X) 1\n\
        f (-1) =;(function f (tuple (minus 1))) 1\n\
        (+) x y =;(function + x y) 1\n\
        as hiding =;(function as hiding) 1\n\
        f;none\n\
        f x;none\n\
        f x -> y;none\n\
        f :: a;none\n\
        M.f x =;none\n\
        f M.x =;none";
    run(&rt, rt.alloc(), ROWS)?;
    Ok(())
}

/// Two patterns with the operator of a variable between them.
#[test]
fn operators(rt: HostRuntime) -> Result<(), Fail> {
    const ROWS: &str = "\
        x + y =;(infix x + y) 1\n\
        x `f` y =;(infix x f y) 1\n\
        x . y |;(infix x . y) 1\n\
        f !x =;(infix f ! x) 1\n\
        f -1 =;(infix f - (number 1)) 1\n\
        x - -1 =;(infix x - (minus 1)) 1\n\
        n + 1 =;(infix n + (number 1)) 1\n\
        -1 * x =;(infix (minus 1) * x) 1\n\
        x : xs + y =;(infix (chain x .: xs) + y) 1\n\
        x + y : ys =;(infix x + (chain y .: ys)) 1\n\
        Just x + Just y |;(infix (con .Just x) + (con .Just y)) 1\n\
        (x : xs) + y =;(infix (tuple (chain x .: xs)) + y) 1\n\
        x@y + _ =;(infix x@ y + _) 1\n\
        x + y + z =;none\n\
        f x + y =;none\n\
        x + f y =;none\n\
        x M.+ y =;none\n\
        x `M.f` y =;none\n\
        x + =;none\n\
        + x =;none\n\
        x `f y =;none\n\
        x + y;none";
    run(&rt, rt.alloc(), ROWS)?;
    Ok(())
}

/// A left side in parentheses with patterns behind it.
#[test]
fn applied(rt: HostRuntime) -> Result<(), Fail> {
    const ROWS: &str = "\
        (f) x =;(applied (function f) x) 1\n\
        (f x) y =;(applied (function f x) y) 1\n\
        (f x) y z |;(applied (function f x) y z) 1\n\
        ((f x) y) z w =;(applied (applied (function f x) y) z w) 1\n\
        (x + y) z =;(applied (infix x + y) z) 1\n\
        (x `f` y) z w |;(applied (infix x f y) z w) 1\n\
        ((+) x) y =;(applied (function + x) y) 1\n\
        ((x + y) z) _ =;(applied (applied (infix x + y) z) _) 1\n\
        (f x) [] (Just y) 1 =;(applied (function f x) nil (tuple (con .Just y)) 1) 1\n\
        (f x) =;none\n\
        (x + y) =;none\n\
        ((f)) x =;none\n\
        (x : xs) y =;none\n\
        (x, y) z =;none\n\
        (f x) + y =;none\n\
        (f x y =;none\n\
        (f = x) y =;none\n\
        (f | x) y =;none\n\
        (f x) y;none\n\
        (M.f x) y =;none\n\
        (n + 1) =;none\n\
        (f x) (n + 1) =;none";
    run(&rt, rt.alloc(), ROWS)?;
    Ok(())
}

/// A pattern, where it is no lone variable.
#[test]
fn pattern_sides(rt: HostRuntime) -> Result<(), Fail> {
    const ROWS: &str = "\
        Just x =;(pattern (con .Just x)) 1\n\
        Nothing |;(pattern (con .Nothing)) 1\n\
        (x) =;(pattern (tuple x)) 1\n\
        ((f)) =;(pattern (tuple (tuple f))) 1\n\
        (x, y) =;(pattern (tuple x y)) 1\n\
        [x] |;(pattern (list x)) 1\n\
        x : xs =;(pattern (chain x .: xs)) 1\n\
        x `P` y =;(pattern (chain x .P y)) 1\n\
        x :+ y M.:+ z =;(pattern (chain x .:+ y .M/:+ z)) 1\n\
        x@y =;(pattern x@ y) 1\n\
        ~x =;(pattern (lazy x)) 1\n\
        _ =;(pattern _) 1\n\
        1 =;(pattern (number 1)) 1\n\
        -1 =;(pattern (minus 1)) 1\n\
        () =;(pattern (con unit)) 1\n\
        (:+) x =;(pattern (con .:+ x)) 1\n\
        P {x = y} =;(pattern (record .P (x = y))) 1\n\
        Just x;none\n\
        x y : ys =;none\n\
        !x =;none\n\
        =;none\n\
        ;none";
    run(&rt, rt.alloc(), ROWS)?;
    Ok(())
}

/// Where the trees of left sides stand.
#[test]
fn places_of_sides(rt: HostRuntime) -> Result<(), Fail> {
    const ROWS: &str = "\
        (x `f` y) z =;(applied (infix x@2@2@2@2 f@5@4 y@8@8@8@8)@2 z@11@11)@1 1\n\
        (+) x =;(function +@2 x@5@5)@1 1\n\
        \x20(x) =;(pattern (tuple x@3@3@3@3)@2@2@2)@2 1";
    run_places(&rt, rt.alloc(), ROWS)?;
    Ok(())
}
