//! Signatures, their contexts, and fixities.
use crate::rows::{Part, run, run_places};
use std::test::Fail;

/// Signatures.
#[test]
fn signatures(rt: HostRuntime) -> Result<(), Fail> {
    const ROWS: &str = "\
        f :: Int;(sig f .Int) 0\n\
        f, g, h :: a;(sig f g h a) 0\n\
        (+), f :: a -> b;(sig + f (-> a b)) 0\n\
        f :: a = x;(sig f a) 2\n\
        f :: Eq a => a;(sig f (=> (one (class .Eq a)) a)) 0\n\
        f :: (Eq a) => a;(sig f (=> (listed (class .Eq a)) a)) 0\n\
        f :: (Eq a, M.Ord b) => a -> b;(sig f (=> (listed (class .Eq a) (class .M/Ord b)) (-> a b))) 0\n\
        f :: () => a;(sig f (=> (listed) a)) 0\n\
        f :: Monad (m a) => b;(sig f (=> (one (class .Monad m a)) b)) 0\n\
        f :: (Eq (m a [b])) => c;(sig f (=> (listed (class .Eq m a (list b))) c)) 0\n\
        f :: (Eq a) -> a;(sig f (-> (tuple (of .Eq a)) a)) 0\n\
        f :: ();(sig f unit) 0\n\
        f ::;none\n\
        :: a;none\n\
        f, :: a;none\n\
        f g :: a;none\n\
        F :: a;none\n\
        M.f :: a;none\n\
        (f) :: a;none\n\
        f : a;none";
    run(&rt, rt.alloc(), Part::Sig, ROWS)?;
    Ok(())
}

/// What is no context is left with the arrow behind it.
#[test]
fn no_contexts(rt: HostRuntime) -> Result<(), Fail> {
    const ROWS: &str = "\
        f :: Eq (m) => a;(sig f (of .Eq (tuple m))) 2\n\
        f :: Eq Int => a;(sig f (of .Eq .Int)) 2\n\
        f :: Eq a b => a;(sig f (of .Eq a b)) 2\n\
        f :: eq a => a;(sig f (of eq a)) 2\n\
        f :: ((Eq a)) => a;(sig f (tuple (tuple (of .Eq a)))) 2\n\
        f :: Eq a => Eq b => a;(sig f (=> (one (class .Eq a)) (of .Eq b))) 2\n\
        f :: a -> Eq a => a;(sig f (-> a (of .Eq a))) 2\n\
        f :: (Eq a,) => a;none\n\
        f :: => a;none\n\
        f :: Eq a =>;none";
    run(&rt, rt.alloc(), Part::Sig, ROWS)?;
    Ok(())
}

/// Fixities.
#[test]
fn fixities(rt: HostRuntime) -> Result<(), Fail> {
    const ROWS: &str = "\
        infixl 6 +;(infixl 6 +) 0\n\
        infixr 5 :+;(infixr 5 .:+) 0\n\
        infix 4 ==, /=;(infix 4 == /=) 0\n\
        infixl 9 `f`, `P`;(infixl 9 f .P) 0\n\
        infixl 0 -, !, *;(infixl 0 - ! *) 0\n\
        infixr +;(infixr +) 0\n\
        infixl 6 + *;(infixl 6 +) 1\n\
        infixl -1 +;(infixl -) 2\n\
        infixl 10 +;none\n\
        infixl 00 +;none\n\
        infixl 0x1 +;none\n\
        infixl 1.5 +;none\n\
        infixl 6 7 +;none\n\
        infixl;none\n\
        infixl 6;none\n\
        infixl 6 f;none\n\
        infixl 6 (+);none\n\
        infixl 6 :;none\n\
        infixl 6 +,;none\n\
        infixl 6 , +;none\n\
        6 +;none\n\
        ;none";
    run(&rt, rt.alloc(), Part::Fix, ROWS)?;
    Ok(())
}

/// Operators with qualifiers and reserved ones have no fixity.
#[test]
fn no_operators(rt: HostRuntime) -> Result<(), Fail> {
    const ROWS: &str = "\
        infixl 6 M.+;none\n\
        infixl 6 M.:+;none\n\
        infixl 6 `M.f`;none\n\
        infixl 6 `M.P`;none\n\
        infixl 6 `f;none\n\
        infixl 6 ~;none\n\
        infixl 6 =;none";
    run(&rt, rt.alloc(), Part::Fix, ROWS)?;
    Ok(())
}

/// Where the trees of signatures stand.
#[test]
fn places_of_signatures(rt: HostRuntime) -> Result<(), Fail> {
    const ROWS: &str = "\
        f, (+) :: Eq a => a;(sig f@1 +@5 (=> (one (class .Eq@11 a@14)@11)@11 a@19@19@19@19)@11)@1 0";
    run_places(&rt, rt.alloc(), Part::Sig, ROWS)?;
    Ok(())
}

/// Where the trees of fixities stand.
#[test]
fn places_of_fixities(rt: HostRuntime) -> Result<(), Fail> {
    const ROWS: &str = "\
        infixl 6 +, `f`;(infixl 6 +@10@10 f@14@13)@1 0";
    run_places(&rt, rt.alloc(), Part::Fix, ROWS)?;
    Ok(())
}
