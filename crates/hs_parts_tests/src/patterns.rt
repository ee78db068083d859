//! Patterns.
use crate::rows::{Part, run, run_places};
use std::test::Fail;

/// Variables, tuples, lists and constructors.
#[test]
fn atomic_patterns(rt: HostRuntime) -> Result<(), Fail> {
    const ROWS: &str = "\
        x;x\n\
        as;as\n\
        _;_\n\
        (x);(tuple x)\n\
        (x, y);(tuple x y)\n\
        (a, b, c, d, e, f, g, h, i, j, k, l, m, n, o);(tuple a b c d e f g h i j k l m n o)\n\
        [x];(list x)\n\
        [x, y, _];(list x y _)\n\
        \"s\";\"s\"\n\
        'c';'c'\n\
        [];(con nil)\n\
        ();(con unit)\n\
        (,);(con ,)\n\
        (,,) x y z;(con ,, x y z)\n\
        [] x;(con nil x)\n\
        () x;(con unit x)\n\
        (+);+\n\
        (:);(con .:)\n\
        (:) x xs;(con .: x xs)\n\
        (M.:+) x;(con .M/:+ x)";
    run(&rt, rt.alloc(), Part::Pattern, ROWS)?;
    Ok(())
}

/// Constructors that are applied or not, and numbers.
#[test]
fn operands(rt: HostRuntime) -> Result<(), Fail> {
    const ROWS: &str = "\
        Nothing;(con .Nothing)\n\
        Just x;(con .Just x)\n\
        M.Just x;(con .M/Just x)\n\
        Just Nothing;(con .Just .Nothing)\n\
        Just Nothing x;(con .Just .Nothing x)\n\
        Just (Just x);(con .Just (tuple (con .Just x)))\n\
        P x 1 'c' \"s\" _;(con .P x 1 'c' \"s\" _)\n\
        P [] () (,) [y] (z) (+);(con .P nil unit , (list y) (tuple z) +)\n\
        1;(number 1)\n\
        1.5;(number 1.5)\n\
        0x1F;(number 0x1F)\n\
        -1;(minus 1)\n\
        - 1.5;(minus 1.5)\n\
        (-1);(tuple (minus 1))\n\
        [-1, 2];(list (minus 1) (number 2))\n\
        Just (-1);(con .Just (tuple (minus 1)))\n\
        Just -1;none\n\
        -x;none\n\
        - -1;none\n\
        -'c';none\n\
        1 x;none";
    run(&rt, rt.alloc(), Part::Pattern, ROWS)?;
    Ok(())
}

/// As-patterns and lazy ones.
#[test]
fn as_and_lazy(rt: HostRuntime) -> Result<(), Fail> {
    const ROWS: &str = "\
        x@y;x@ y\n\
        x @ y;x@ y\n\
        x@(Just y);x@ (tuple (con .Just y))\n\
        x@Nothing;x@ .Nothing\n\
        x@1;x@ 1\n\
        x@[];x@ nil\n\
        x@y@_;x@ y@ _\n\
        (+)@x;+@ x\n\
        hiding@qualified;hiding@ qualified\n\
        x@Just y;none\n\
        x@ -1;none\n\
        X@y;none\n\
        M.x@y;none\n\
        ~x;(lazy x)\n\
        ~(x, y);(lazy (tuple x y))\n\
        ~ ~x;(lazy (lazy x))\n\
        ~Nothing;(lazy .Nothing)\n\
        Just ~x;(con .Just (lazy x))\n\
        x@ ~y;x@ (lazy y)\n\
        ~x@y;(lazy x@ y)\n\
        ~Just x;none\n\
        !x;none";
    run(&rt, rt.alloc(), Part::Pattern, ROWS)?;
    Ok(())
}

/// Records.
#[test]
fn records(rt: HostRuntime) -> Result<(), Fail> {
    const ROWS: &str = "\
        P {};(record .P)\n\
        P {x = y};(record .P (x = y))\n\
        P {x = 1, y = Just z};(record .P (x = (number 1)) (y = (con .Just z)))\n\
        M.P {M.x = y};(record .M/P (M/x = y))\n\
        P {(+) = y, (M.+) = z};(record .P (+ = y) (M/+ = z))\n\
        (:+) {};(record .:+)\n\
        P {x = Q {y = z}};(record .P (x = (record .Q (y = z))))\n\
        P {x = y : z};(record .P (x = (chain y .: z)))\n\
        Q P {x = y} z;(con .Q (record .P (x = y)) z)\n\
        x@P {};x@ (record .P)\n\
        ~P {};(lazy (record .P))\n\
        P {} x;none\n\
        P {x};none\n\
        P {..};none\n\
        P {x = y,};none\n\
        P {, x = y};none\n\
        P {x = };none\n\
        P {X = y};none\n\
        P {x = y;none\n\
        () {};none\n\
        x {};none";
    run(&rt, rt.alloc(), Part::Pattern, ROWS)?;
    Ok(())
}

/// Operators between patterns.
#[test]
fn chains(rt: HostRuntime) -> Result<(), Fail> {
    const ROWS: &str = "\
        x : xs;(chain x .: xs)\n\
        x : y : zs;(chain x .: y .: zs)\n\
        Just x :+ 1;(chain (con .Just x) .:+ (number 1))\n\
        x `P` y;(chain x .P y)\n\
        x `M.P` y;(chain x .M/P y)\n\
        x M.:+ y;(chain x .M/:+ y)\n\
        -1 : xs;(chain (minus 1) .: xs)\n\
        x : -1;(chain x .: (minus 1))\n\
        (x : xs);(tuple (chain x .: xs))\n\
        x : [] : _;(chain x .: (con nil) .: _)\n\
        x@y : z;(chain x@ y .: z)\n\
        [x : y, z];(list (chain x .: y) z)\n\
        Just [x] : ys;(chain (con .Just (list x)) .: ys)\n\
        x `f` y;none\n\
        x + y;none\n\
        n + 1;none\n\
        x :;none\n\
        : x;none\n\
        x : : y;none\n\
        x `P y;none\n\
        (`P`);none";
    run(&rt, rt.alloc(), Part::Pattern, ROWS)?;
    Ok(())
}

/// What is no pattern.
#[test]
fn no_patterns(rt: HostRuntime) -> Result<(), Fail> {
    const ROWS: &str = "\
        ;none\n\
        M.x;none\n\
        (M.+);none\n\
        x y;none\n\
        (x) y;none\n\
        _ x;none\n\
        (x;none\n\
        x);none\n\
        [x;none\n\
        (x];none\n\
        (x,);none\n\
        (,x);none\n\
        [x,];none\n\
        [,];none\n\
        x, y;none\n\
        (x -> y);none\n\
        (x :: a);none\n\
        x = y;none\n\
        \\x;none\n\
        let;none";
    run(&rt, rt.alloc(), Part::Pattern, ROWS)?;
    Ok(())
}

/// Where the trees of patterns stand.
#[test]
fn places_of_patterns(rt: HostRuntime) -> Result<(), Fail> {
    const ROWS: &str = "\
        \x20x@(Just 1) : _;(chain x@2@ (tuple (con .Just@5@5 1@10@10)@5@5)@4@2@2@2 .:@13@13 _@15@15)@2\n\
        - 1;(minus 1@3)@1@1\n\
        P {x = y};(record .P@1 (x@4 = y@8@8@8@8)@4)@1@1@1\n\
        ~(:+);(lazy .:+@3@2@2)@1@1@1";
    run_places(&rt, rt.alloc(), Part::Pattern, ROWS)?;
    Ok(())
}
