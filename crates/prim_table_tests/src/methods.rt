//! The types of methods and values, with the class variable first.
use crate::rows::{Part, run, run_methods};
use std::test::Fail;

/// The methods of `Bounded`.
#[test]
fn bounded_methods(rt: HostRuntime) -> Result<(), Fail> {
    const ROWS: &[u8] = b"\
        minBound 1 :: t0\n\
        maxBound 1 :: t0\n";
    run_methods(&rt, rt.alloc(), b"Bounded", ROWS)?;
    Ok(())
}

/// The methods of `Enum`.
#[test]
fn enum_methods(rt: HostRuntime) -> Result<(), Fail> {
    const ROWS: &[u8] = b"\
        succ 1 :: ((Prim.-> t0) t0)\n\
        pred 1 :: ((Prim.-> t0) t0)\n\
        toEnum 1 :: ((Prim.-> Prim.Int) t0)\n\
        fromEnum 1 :: ((Prim.-> t0) Prim.Int)\n\
        enumFrom 1 :: ((Prim.-> t0) (Prim.[] t0))\n\
        enumFromThen 1 :: ((Prim.-> t0) ((Prim.-> t0) (Prim.[] t0)))\n\
        enumFromTo 1 :: ((Prim.-> t0) ((Prim.-> t0) (Prim.[] t0)))\n\
        enumFromThenTo 1 :: ((Prim.-> t0) ((Prim.-> t0) ((Prim.-> t0) (Prim.[] t0))))\n";
    run_methods(&rt, rt.alloc(), b"Enum", ROWS)?;
    Ok(())
}

/// The methods of `Eq`.
#[test]
fn eq_methods(rt: HostRuntime) -> Result<(), Fail> {
    const ROWS: &[u8] = b"\
        == 1 :: ((Prim.-> t0) ((Prim.-> t0) Prim.Bool))\n\
        /= 1 :: ((Prim.-> t0) ((Prim.-> t0) Prim.Bool))\n";
    run_methods(&rt, rt.alloc(), b"Eq", ROWS)?;
    Ok(())
}

/// The methods of `Floating`.
#[test]
fn floating_methods(rt: HostRuntime) -> Result<(), Fail> {
    const ROWS: &[u8] = b"\
        pi 1 :: t0\n\
        exp 1 :: ((Prim.-> t0) t0)\n\
        log 1 :: ((Prim.-> t0) t0)\n\
        sqrt 1 :: ((Prim.-> t0) t0)\n\
        sin 1 :: ((Prim.-> t0) t0)\n\
        cos 1 :: ((Prim.-> t0) t0)\n\
        tan 1 :: ((Prim.-> t0) t0)\n\
        asin 1 :: ((Prim.-> t0) t0)\n\
        acos 1 :: ((Prim.-> t0) t0)\n\
        atan 1 :: ((Prim.-> t0) t0)\n\
        sinh 1 :: ((Prim.-> t0) t0)\n\
        cosh 1 :: ((Prim.-> t0) t0)\n\
        tanh 1 :: ((Prim.-> t0) t0)\n\
        asinh 1 :: ((Prim.-> t0) t0)\n\
        acosh 1 :: ((Prim.-> t0) t0)\n\
        atanh 1 :: ((Prim.-> t0) t0)\n\
        ** 1 :: ((Prim.-> t0) ((Prim.-> t0) t0))\n\
        logBase 1 :: ((Prim.-> t0) ((Prim.-> t0) t0))\n";
    run_methods(&rt, rt.alloc(), b"Floating", ROWS)?;
    Ok(())
}

/// The methods of `Fractional`.
#[test]
fn fractional_methods(rt: HostRuntime) -> Result<(), Fail> {
    const ROWS: &[u8] = b"\
        / 1 :: ((Prim.-> t0) ((Prim.-> t0) t0))\n\
        recip 1 :: ((Prim.-> t0) t0)\n\
        fromRational 1 :: ((Prim.-> (Prim.Ratio Prim.Integer)) t0)\n";
    run_methods(&rt, rt.alloc(), b"Fractional", ROWS)?;
    Ok(())
}

/// The methods of `Functor`.
#[test]
fn functor_methods(rt: HostRuntime) -> Result<(), Fail> {
    const ROWS: &[u8] = b"\
        fmap 3 :: ((Prim.-> ((Prim.-> t1) t2)) ((Prim.-> (t0 t1)) (t0 t2)))\n";
    run_methods(&rt, rt.alloc(), b"Functor", ROWS)?;
    Ok(())
}

/// The methods of `Integral`.
#[test]
fn integral_methods(rt: HostRuntime) -> Result<(), Fail> {
    const ROWS: &[u8] = b"\
        quot 1 :: ((Prim.-> t0) ((Prim.-> t0) t0))\n\
        rem 1 :: ((Prim.-> t0) ((Prim.-> t0) t0))\n\
        div 1 :: ((Prim.-> t0) ((Prim.-> t0) t0))\n\
        mod 1 :: ((Prim.-> t0) ((Prim.-> t0) t0))\n\
        quotRem 1 :: ((Prim.-> t0) ((Prim.-> t0) ((Prim.(,) t0) t0)))\n\
        divMod 1 :: ((Prim.-> t0) ((Prim.-> t0) ((Prim.(,) t0) t0)))\n\
        toInteger 1 :: ((Prim.-> t0) Prim.Integer)\n";
    run_methods(&rt, rt.alloc(), b"Integral", ROWS)?;
    Ok(())
}

/// The methods of `Monad`.
#[test]
fn monad_methods(rt: HostRuntime) -> Result<(), Fail> {
    const ROWS: &[u8] = b"\
        >>= 3 :: ((Prim.-> (t0 t1)) ((Prim.-> ((Prim.-> t1) (t0 t2))) (t0 t2)))\n\
        >> 3 :: ((Prim.-> (t0 t1)) ((Prim.-> (t0 t2)) (t0 t2)))\n\
        return 2 :: ((Prim.-> t1) (t0 t1))\n\
        fail 2 :: ((Prim.-> (Prim.[] Prim.Char)) (t0 t1))\n";
    run_methods(&rt, rt.alloc(), b"Monad", ROWS)?;
    Ok(())
}

/// The methods of `Num`.
#[test]
fn num_methods(rt: HostRuntime) -> Result<(), Fail> {
    const ROWS: &[u8] = b"\
        + 1 :: ((Prim.-> t0) ((Prim.-> t0) t0))\n\
        - 1 :: ((Prim.-> t0) ((Prim.-> t0) t0))\n\
        * 1 :: ((Prim.-> t0) ((Prim.-> t0) t0))\n\
        negate 1 :: ((Prim.-> t0) t0)\n\
        abs 1 :: ((Prim.-> t0) t0)\n\
        signum 1 :: ((Prim.-> t0) t0)\n\
        fromInteger 1 :: ((Prim.-> Prim.Integer) t0)\n";
    run_methods(&rt, rt.alloc(), b"Num", ROWS)?;
    Ok(())
}

/// The methods of `Ord`.
#[test]
fn ord_methods(rt: HostRuntime) -> Result<(), Fail> {
    const ROWS: &[u8] = b"\
        compare 1 :: ((Prim.-> t0) ((Prim.-> t0) Prim.Ordering))\n\
        < 1 :: ((Prim.-> t0) ((Prim.-> t0) Prim.Bool))\n\
        <= 1 :: ((Prim.-> t0) ((Prim.-> t0) Prim.Bool))\n\
        >= 1 :: ((Prim.-> t0) ((Prim.-> t0) Prim.Bool))\n\
        > 1 :: ((Prim.-> t0) ((Prim.-> t0) Prim.Bool))\n\
        max 1 :: ((Prim.-> t0) ((Prim.-> t0) t0))\n\
        min 1 :: ((Prim.-> t0) ((Prim.-> t0) t0))\n";
    run_methods(&rt, rt.alloc(), b"Ord", ROWS)?;
    Ok(())
}

/// The methods of `Read`.
#[test]
fn read_methods(rt: HostRuntime) -> Result<(), Fail> {
    const ROWS: &[u8] = b"\
        readsPrec 1 :: ((Prim.-> Prim.Int) ((Prim.-> (Prim.[] Prim.Char)) (Prim.[] ((Prim.(,) t0) (Prim.[] Prim.Char)))))\n\
        readList 1 :: ((Prim.-> (Prim.[] Prim.Char)) (Prim.[] ((Prim.(,) (Prim.[] t0)) (Prim.[] Prim.Char))))\n";
    run_methods(&rt, rt.alloc(), b"Read", ROWS)?;
    Ok(())
}

/// The methods of `Real`.
#[test]
fn real_methods(rt: HostRuntime) -> Result<(), Fail> {
    const ROWS: &[u8] = b"\
        toRational 1 :: ((Prim.-> t0) (Prim.Ratio Prim.Integer))\n";
    run_methods(&rt, rt.alloc(), b"Real", ROWS)?;
    Ok(())
}

/// The methods of `RealFrac`.
#[test]
fn real_frac_methods(rt: HostRuntime) -> Result<(), Fail> {
    const ROWS: &[u8] = b"\
        properFraction 2 Integral t1 :: ((Prim.-> t0) ((Prim.(,) t1) t0))\n\
        truncate 2 Integral t1 :: ((Prim.-> t0) t1)\n\
        round 2 Integral t1 :: ((Prim.-> t0) t1)\n\
        ceiling 2 Integral t1 :: ((Prim.-> t0) t1)\n\
        floor 2 Integral t1 :: ((Prim.-> t0) t1)\n";
    run_methods(&rt, rt.alloc(), b"RealFrac", ROWS)?;
    Ok(())
}

/// The methods of `Show`.
#[test]
fn show_methods(rt: HostRuntime) -> Result<(), Fail> {
    const ROWS: &[u8] = b"\
        showsPrec 1 :: ((Prim.-> Prim.Int) ((Prim.-> t0) ((Prim.-> (Prim.[] Prim.Char)) (Prim.[] Prim.Char))))\n\
        show 1 :: ((Prim.-> t0) (Prim.[] Prim.Char))\n\
        showList 1 :: ((Prim.-> (Prim.[] t0)) ((Prim.-> (Prim.[] Prim.Char)) (Prim.[] Prim.Char)))\n";
    run_methods(&rt, rt.alloc(), b"Show", ROWS)?;
    Ok(())
}

/// The values that are no methods.
#[test]
fn all_values(rt: HostRuntime) -> Result<(), Fail> {
    const ROWS: &[u8] = b"\
        appendFile 0 :: ((Prim.-> (Prim.[] Prim.Char)) ((Prim.-> (Prim.[] Prim.Char)) (Prim.IO Prim.())))\n\
        error 1 :: ((Prim.-> (Prim.[] Prim.Char)) t0)\n\
        getChar 0 :: (Prim.IO Prim.Char)\n\
        getContents 0 :: (Prim.IO (Prim.[] Prim.Char))\n\
        getLine 0 :: (Prim.IO (Prim.[] Prim.Char))\n\
        putChar 0 :: ((Prim.-> Prim.Char) (Prim.IO Prim.()))\n\
        putStr 0 :: ((Prim.-> (Prim.[] Prim.Char)) (Prim.IO Prim.()))\n\
        readFile 0 :: ((Prim.-> (Prim.[] Prim.Char)) (Prim.IO (Prim.[] Prim.Char)))\n\
        seq 2 :: ((Prim.-> t0) ((Prim.-> t1) t1))\n\
        writeFile 0 :: ((Prim.-> (Prim.[] Prim.Char)) ((Prim.-> (Prim.[] Prim.Char)) (Prim.IO Prim.())))\n";
    run(&rt, rt.alloc(), Part::Values, ROWS)?;
    Ok(())
}
