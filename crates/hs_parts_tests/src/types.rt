//! Types.
use crate::rows::{Part, run, run_places};
use std::test::Fail;

/// What a type is applied to, and what it is by itself.
#[test]
fn atomic_types(rt: HostRuntime) -> Result<(), Fail> {
    const ROWS: &str = "\
        a;a\n\
        Int;.Int\n\
        M.Int;.M/Int\n\
        A.B.C;.A.B/C\n\
        as;as\n\
        ();unit\n\
        ( );unit\n\
        [];nil\n\
        (->);->\n\
        (,);,\n\
        (,,);,,\n\
        (,,,,,,,,,,,,,,);,,,,,,,,,,,,,,\n\
        (a);(tuple a)\n\
        ((a));(tuple (tuple a))\n\
        (a, b);(tuple a b)\n\
        (a, b, c, d, e, f, g, h, i, j, k, l, m, n, o);(tuple a b c d e f g h i j k l m n o)\n\
        [a];(list a)\n\
        [[Int]];(list (list .Int))";
    run(&rt, rt.alloc(), Part::Type, ROWS)?;
    Ok(())
}

/// Types that are applied, and types with arrows.
#[test]
fn applied_types(rt: HostRuntime) -> Result<(), Fail> {
    const ROWS: &str = "\
        Maybe a;(of .Maybe a)\n\
        Either a b;(of .Either a b)\n\
        m a;(of m a)\n\
        (m) a;(of (tuple m) a)\n\
        Maybe (Maybe a);(of .Maybe (tuple (of .Maybe a)))\n\
        [] a;(of nil a)\n\
        (->) a b;(of -> a b)\n\
        (,) a b;(of , a b)\n\
        () a;(of unit a)\n\
        f [a] (b, c) ();(of f (list a) (tuple b c) unit)\n\
        a -> b;(-> a b)\n\
        a -> b -> c;(-> a (-> b c))\n\
        (a -> b) -> c;(-> (tuple (-> a b)) c)\n\
        [a -> b];(list (-> a b))\n\
        (a -> b, c);(tuple (-> a b) c)\n\
        Maybe a -> IO ();(-> (of .Maybe a) (of .IO unit))\n\
        a b ->c;(-> (of a b) c)\n\
        (->) -> a;(-> -> a)\n\
        (,) -> (,,);(-> , ,,)";
    run(&rt, rt.alloc(), Part::Type, ROWS)?;
    Ok(())
}

/// What is no type.
#[test]
fn no_types(rt: HostRuntime) -> Result<(), Fail> {
    const ROWS: &str = "\
        ;none\n\
        M.a;none\n\
        _;none\n\
        1;none\n\
        \"a\";none\n\
        (+);none\n\
        (:+);none\n\
        !a;none\n\
        (a,);none\n\
        (,a);none\n\
        (a ->);none\n\
        (-> a);none\n\
        [,];none\n\
        [a, b];none\n\
        (a;none\n\
        a);none\n\
        (a];none\n\
        a, b;none\n\
        a ->;none\n\
        -> a;none\n\
        a -> -> b;none";
    run(&rt, rt.alloc(), Part::Type, ROWS)?;
    Ok(())
}

/// What is no type, but stands beside types elsewhere.
#[test]
fn no_types_by_themselves(rt: HostRuntime) -> Result<(), Fail> {
    const ROWS: &str = "\
        Eq a => a;none\n\
        () => a;none\n\
        (Eq a => a);none\n\
        forall a . a;none\n\
        a + b;none\n\
        a `b` c;none\n\
        a :: b;none\n\
        a = b;none";
    run(&rt, rt.alloc(), Part::Type, ROWS)?;
    Ok(())
}

/// Where the trees of types stand.
#[test]
fn places_of_types(rt: HostRuntime) -> Result<(), Fail> {
    const ROWS: &str = "\
        a -> B c;(-> a@1@1@1 (of .B@6@6 c@8@8)@6@6)@1\n\
        [()];(list unit@2@2@2)@1@1@1\n\
        \x20(M.T, (,));(tuple .M/T@3@3@3@3 ,@8@8@8)@2@2@2";
    run_places(&rt, rt.alloc(), Part::Type, ROWS)?;
    Ok(())
}
