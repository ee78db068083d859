//! Instances: the class, the name of the type, the number of its variables, and the context.
use crate::rows::run_insts;
use std::test::Fail;

/// The instances of `Bounded`.
#[test]
fn bounded_instances(rt: HostRuntime) -> Result<(), Fail> {
    const ROWS: &[u8] = b"\
        Bounded () 0;\n\
        Bounded (,) 2; Bounded t0 Bounded t1\n\
        Bounded (,,) 3; Bounded t0 Bounded t1 Bounded t2\n\
        Bounded (,,,) 4; Bounded t0 Bounded t1 Bounded t2 Bounded t3\n\
        Bounded (,,,,) 5; Bounded t0 Bounded t1 Bounded t2 Bounded t3 Bounded t4\n\
        Bounded (,,,,,) 6; Bounded t0 Bounded t1 Bounded t2 Bounded t3 Bounded t4 Bounded t5\n\
        Bounded (,,,,,,) 7; Bounded t0 Bounded t1 Bounded t2 Bounded t3 Bounded t4 Bounded t5 Bounded t6\n\
        Bounded (,,,,,,,) 8; Bounded t0 Bounded t1 Bounded t2 Bounded t3 Bounded t4 Bounded t5 Bounded t6 Bounded t7\n\
        Bounded (,,,,,,,,) 9; Bounded t0 Bounded t1 Bounded t2 Bounded t3 Bounded t4 Bounded t5 Bounded t6 Bounded t7 Bounded t8\n\
        Bounded (,,,,,,,,,) 10; Bounded t0 Bounded t1 Bounded t2 Bounded t3 Bounded t4 Bounded t5 Bounded t6 Bounded t7 Bounded t8 Bounded t9\n\
        Bounded (,,,,,,,,,,) 11; Bounded t0 Bounded t1 Bounded t2 Bounded t3 Bounded t4 Bounded t5 Bounded t6 Bounded t7 Bounded t8 Bounded t9 Bounded t10\n\
        Bounded (,,,,,,,,,,,) 12; Bounded t0 Bounded t1 Bounded t2 Bounded t3 Bounded t4 Bounded t5 Bounded t6 Bounded t7 Bounded t8 Bounded t9 Bounded t10 Bounded t11\n\
        Bounded (,,,,,,,,,,,,) 13; Bounded t0 Bounded t1 Bounded t2 Bounded t3 Bounded t4 Bounded t5 Bounded t6 Bounded t7 Bounded t8 Bounded t9 Bounded t10 Bounded t11 Bounded t12\n\
        Bounded (,,,,,,,,,,,,,) 14; Bounded t0 Bounded t1 Bounded t2 Bounded t3 Bounded t4 Bounded t5 Bounded t6 Bounded t7 Bounded t8 Bounded t9 Bounded t10 Bounded t11 Bounded t12 Bounded t13\n\
        Bounded (,,,,,,,,,,,,,,) 15; Bounded t0 Bounded t1 Bounded t2 Bounded t3 Bounded t4 Bounded t5 Bounded t6 Bounded t7 Bounded t8 Bounded t9 Bounded t10 Bounded t11 Bounded t12 Bounded t13 Bounded t14\n\
        Bounded Bool 0;\n\
        Bounded Char 0;\n\
        Bounded Int 0;\n\
        Bounded Ordering 0;\n";
    run_insts(&rt, rt.alloc(), b"Bounded", ROWS)?;
    Ok(())
}

/// The instances of `Enum`.
#[test]
fn enum_instances(rt: HostRuntime) -> Result<(), Fail> {
    const ROWS: &[u8] = b"\
        Enum () 0;\n\
        Enum Bool 0;\n\
        Enum Char 0;\n\
        Enum Double 0;\n\
        Enum Float 0;\n\
        Enum Int 0;\n\
        Enum Integer 0;\n\
        Enum Ordering 0;\n\
        Enum Ratio 1; Integral t0\n";
    run_insts(&rt, rt.alloc(), b"Enum", ROWS)?;
    Ok(())
}

/// The instances of `Eq`.
#[test]
fn eq_instances(rt: HostRuntime) -> Result<(), Fail> {
    const ROWS: &[u8] = b"\
        Eq () 0;\n\
        Eq (,) 2; Eq t0 Eq t1\n\
        Eq (,,) 3; Eq t0 Eq t1 Eq t2\n\
        Eq (,,,) 4; Eq t0 Eq t1 Eq t2 Eq t3\n\
        Eq (,,,,) 5; Eq t0 Eq t1 Eq t2 Eq t3 Eq t4\n\
        Eq (,,,,,) 6; Eq t0 Eq t1 Eq t2 Eq t3 Eq t4 Eq t5\n\
        Eq (,,,,,,) 7; Eq t0 Eq t1 Eq t2 Eq t3 Eq t4 Eq t5 Eq t6\n\
        Eq (,,,,,,,) 8; Eq t0 Eq t1 Eq t2 Eq t3 Eq t4 Eq t5 Eq t6 Eq t7\n\
        Eq (,,,,,,,,) 9; Eq t0 Eq t1 Eq t2 Eq t3 Eq t4 Eq t5 Eq t6 Eq t7 Eq t8\n\
        Eq (,,,,,,,,,) 10; Eq t0 Eq t1 Eq t2 Eq t3 Eq t4 Eq t5 Eq t6 Eq t7 Eq t8 Eq t9\n\
        Eq (,,,,,,,,,,) 11; Eq t0 Eq t1 Eq t2 Eq t3 Eq t4 Eq t5 Eq t6 Eq t7 Eq t8 Eq t9 Eq t10\n\
        Eq (,,,,,,,,,,,) 12; Eq t0 Eq t1 Eq t2 Eq t3 Eq t4 Eq t5 Eq t6 Eq t7 Eq t8 Eq t9 Eq t10 Eq t11\n\
        Eq (,,,,,,,,,,,,) 13; Eq t0 Eq t1 Eq t2 Eq t3 Eq t4 Eq t5 Eq t6 Eq t7 Eq t8 Eq t9 Eq t10 Eq t11 Eq t12\n\
        Eq (,,,,,,,,,,,,,) 14; Eq t0 Eq t1 Eq t2 Eq t3 Eq t4 Eq t5 Eq t6 Eq t7 Eq t8 Eq t9 Eq t10 Eq t11 Eq t12 Eq t13\n\
        Eq (,,,,,,,,,,,,,,) 15; Eq t0 Eq t1 Eq t2 Eq t3 Eq t4 Eq t5 Eq t6 Eq t7 Eq t8 Eq t9 Eq t10 Eq t11 Eq t12 Eq t13 Eq t14\n\
        Eq Bool 0;\n\
        Eq Char 0;\n\
        Eq Double 0;\n\
        Eq Float 0;\n\
        Eq Int 0;\n\
        Eq Integer 0;\n\
        Eq Ordering 0;\n\
        Eq Ratio 1; Integral t0\n\
        Eq [] 1; Eq t0\n";
    run_insts(&rt, rt.alloc(), b"Eq", ROWS)?;
    Ok(())
}

/// The instances of `Floating`.
#[test]
fn floating_instances(rt: HostRuntime) -> Result<(), Fail> {
    const ROWS: &[u8] = b"\
        Floating Double 0;\n\
        Floating Float 0;\n";
    run_insts(&rt, rt.alloc(), b"Floating", ROWS)?;
    Ok(())
}

/// The instances of `Fractional`.
#[test]
fn fractional_instances(rt: HostRuntime) -> Result<(), Fail> {
    const ROWS: &[u8] = b"\
        Fractional Double 0;\n\
        Fractional Float 0;\n\
        Fractional Ratio 1; Integral t0\n";
    run_insts(&rt, rt.alloc(), b"Fractional", ROWS)?;
    Ok(())
}

/// The instances of `Functor`.
#[test]
fn functor_instances(rt: HostRuntime) -> Result<(), Fail> {
    const ROWS: &[u8] = b"\
        Functor IO 0;\n\
        Functor [] 0;\n";
    run_insts(&rt, rt.alloc(), b"Functor", ROWS)?;
    Ok(())
}

/// The instances of `Integral`.
#[test]
fn integral_instances(rt: HostRuntime) -> Result<(), Fail> {
    const ROWS: &[u8] = b"\
        Integral Int 0;\n\
        Integral Integer 0;\n";
    run_insts(&rt, rt.alloc(), b"Integral", ROWS)?;
    Ok(())
}

/// The instances of `Monad`.
#[test]
fn monad_instances(rt: HostRuntime) -> Result<(), Fail> {
    const ROWS: &[u8] = b"\
        Monad IO 0;\n\
        Monad [] 0;\n";
    run_insts(&rt, rt.alloc(), b"Monad", ROWS)?;
    Ok(())
}

/// The instances of `Num`.
#[test]
fn num_instances(rt: HostRuntime) -> Result<(), Fail> {
    const ROWS: &[u8] = b"\
        Num Double 0;\n\
        Num Float 0;\n\
        Num Int 0;\n\
        Num Integer 0;\n\
        Num Ratio 1; Integral t0\n";
    run_insts(&rt, rt.alloc(), b"Num", ROWS)?;
    Ok(())
}

/// The instances of `Ord`.
#[test]
fn ord_instances(rt: HostRuntime) -> Result<(), Fail> {
    const ROWS: &[u8] = b"\
        Ord () 0;\n\
        Ord (,) 2; Ord t0 Ord t1\n\
        Ord (,,) 3; Ord t0 Ord t1 Ord t2\n\
        Ord (,,,) 4; Ord t0 Ord t1 Ord t2 Ord t3\n\
        Ord (,,,,) 5; Ord t0 Ord t1 Ord t2 Ord t3 Ord t4\n\
        Ord (,,,,,) 6; Ord t0 Ord t1 Ord t2 Ord t3 Ord t4 Ord t5\n\
        Ord (,,,,,,) 7; Ord t0 Ord t1 Ord t2 Ord t3 Ord t4 Ord t5 Ord t6\n\
        Ord (,,,,,,,) 8; Ord t0 Ord t1 Ord t2 Ord t3 Ord t4 Ord t5 Ord t6 Ord t7\n\
        Ord (,,,,,,,,) 9; Ord t0 Ord t1 Ord t2 Ord t3 Ord t4 Ord t5 Ord t6 Ord t7 Ord t8\n\
        Ord (,,,,,,,,,) 10; Ord t0 Ord t1 Ord t2 Ord t3 Ord t4 Ord t5 Ord t6 Ord t7 Ord t8 Ord t9\n\
        Ord (,,,,,,,,,,) 11; Ord t0 Ord t1 Ord t2 Ord t3 Ord t4 Ord t5 Ord t6 Ord t7 Ord t8 Ord t9 Ord t10\n\
        Ord (,,,,,,,,,,,) 12; Ord t0 Ord t1 Ord t2 Ord t3 Ord t4 Ord t5 Ord t6 Ord t7 Ord t8 Ord t9 Ord t10 Ord t11\n\
        Ord (,,,,,,,,,,,,) 13; Ord t0 Ord t1 Ord t2 Ord t3 Ord t4 Ord t5 Ord t6 Ord t7 Ord t8 Ord t9 Ord t10 Ord t11 Ord t12\n\
        Ord (,,,,,,,,,,,,,) 14; Ord t0 Ord t1 Ord t2 Ord t3 Ord t4 Ord t5 Ord t6 Ord t7 Ord t8 Ord t9 Ord t10 Ord t11 Ord t12 Ord t13\n\
        Ord (,,,,,,,,,,,,,,) 15; Ord t0 Ord t1 Ord t2 Ord t3 Ord t4 Ord t5 Ord t6 Ord t7 Ord t8 Ord t9 Ord t10 Ord t11 Ord t12 Ord t13 Ord t14\n\
        Ord Bool 0;\n\
        Ord Char 0;\n\
        Ord Double 0;\n\
        Ord Float 0;\n\
        Ord Int 0;\n\
        Ord Integer 0;\n\
        Ord Ordering 0;\n\
        Ord Ratio 1; Integral t0\n\
        Ord [] 1; Ord t0\n";
    run_insts(&rt, rt.alloc(), b"Ord", ROWS)?;
    Ok(())
}

/// The instances of `Read`.
#[test]
fn read_instances(rt: HostRuntime) -> Result<(), Fail> {
    const ROWS: &[u8] = b"\
        Read () 0;\n\
        Read (,) 2; Read t0 Read t1\n\
        Read (,,) 3; Read t0 Read t1 Read t2\n\
        Read (,,,) 4; Read t0 Read t1 Read t2 Read t3\n\
        Read (,,,,) 5; Read t0 Read t1 Read t2 Read t3 Read t4\n\
        Read (,,,,,) 6; Read t0 Read t1 Read t2 Read t3 Read t4 Read t5\n\
        Read (,,,,,,) 7; Read t0 Read t1 Read t2 Read t3 Read t4 Read t5 Read t6\n\
        Read (,,,,,,,) 8; Read t0 Read t1 Read t2 Read t3 Read t4 Read t5 Read t6 Read t7\n\
        Read (,,,,,,,,) 9; Read t0 Read t1 Read t2 Read t3 Read t4 Read t5 Read t6 Read t7 Read t8\n\
        Read (,,,,,,,,,) 10; Read t0 Read t1 Read t2 Read t3 Read t4 Read t5 Read t6 Read t7 Read t8 Read t9\n\
        Read (,,,,,,,,,,) 11; Read t0 Read t1 Read t2 Read t3 Read t4 Read t5 Read t6 Read t7 Read t8 Read t9 Read t10\n\
        Read (,,,,,,,,,,,) 12; Read t0 Read t1 Read t2 Read t3 Read t4 Read t5 Read t6 Read t7 Read t8 Read t9 Read t10 Read t11\n\
        Read (,,,,,,,,,,,,) 13; Read t0 Read t1 Read t2 Read t3 Read t4 Read t5 Read t6 Read t7 Read t8 Read t9 Read t10 Read t11 Read t12\n\
        Read (,,,,,,,,,,,,,) 14; Read t0 Read t1 Read t2 Read t3 Read t4 Read t5 Read t6 Read t7 Read t8 Read t9 Read t10 Read t11 Read t12 Read t13\n\
        Read (,,,,,,,,,,,,,,) 15; Read t0 Read t1 Read t2 Read t3 Read t4 Read t5 Read t6 Read t7 Read t8 Read t9 Read t10 Read t11 Read t12 Read t13 Read t14\n\
        Read Bool 0;\n\
        Read Char 0;\n\
        Read Double 0;\n\
        Read Float 0;\n\
        Read Int 0;\n\
        Read Integer 0;\n\
        Read Ordering 0;\n\
        Read Ratio 1; Integral t0 Read t0\n\
        Read [] 1; Read t0\n";
    run_insts(&rt, rt.alloc(), b"Read", ROWS)?;
    Ok(())
}

/// The instances of `Real`.
#[test]
fn real_instances(rt: HostRuntime) -> Result<(), Fail> {
    const ROWS: &[u8] = b"\
        Real Double 0;\n\
        Real Float 0;\n\
        Real Int 0;\n\
        Real Integer 0;\n\
        Real Ratio 1; Integral t0\n";
    run_insts(&rt, rt.alloc(), b"Real", ROWS)?;
    Ok(())
}

/// The instances of `RealFrac`.
#[test]
fn real_frac_instances(rt: HostRuntime) -> Result<(), Fail> {
    const ROWS: &[u8] = b"\
        RealFrac Double 0;\n\
        RealFrac Float 0;\n\
        RealFrac Ratio 1; Integral t0\n";
    run_insts(&rt, rt.alloc(), b"RealFrac", ROWS)?;
    Ok(())
}

/// The instances of `Show`.
#[test]
fn show_instances(rt: HostRuntime) -> Result<(), Fail> {
    const ROWS: &[u8] = b"\
        Show () 0;\n\
        Show (,) 2; Show t0 Show t1\n\
        Show (,,) 3; Show t0 Show t1 Show t2\n\
        Show (,,,) 4; Show t0 Show t1 Show t2 Show t3\n\
        Show (,,,,) 5; Show t0 Show t1 Show t2 Show t3 Show t4\n\
        Show (,,,,,) 6; Show t0 Show t1 Show t2 Show t3 Show t4 Show t5\n\
        Show (,,,,,,) 7; Show t0 Show t1 Show t2 Show t3 Show t4 Show t5 Show t6\n\
        Show (,,,,,,,) 8; Show t0 Show t1 Show t2 Show t3 Show t4 Show t5 Show t6 Show t7\n\
        Show (,,,,,,,,) 9; Show t0 Show t1 Show t2 Show t3 Show t4 Show t5 Show t6 Show t7 Show t8\n\
        Show (,,,,,,,,,) 10; Show t0 Show t1 Show t2 Show t3 Show t4 Show t5 Show t6 Show t7 Show t8 Show t9\n\
        Show (,,,,,,,,,,) 11; Show t0 Show t1 Show t2 Show t3 Show t4 Show t5 Show t6 Show t7 Show t8 Show t9 Show t10\n\
        Show (,,,,,,,,,,,) 12; Show t0 Show t1 Show t2 Show t3 Show t4 Show t5 Show t6 Show t7 Show t8 Show t9 Show t10 Show t11\n\
        Show (,,,,,,,,,,,,) 13; Show t0 Show t1 Show t2 Show t3 Show t4 Show t5 Show t6 Show t7 Show t8 Show t9 Show t10 Show t11 Show t12\n\
        Show (,,,,,,,,,,,,,) 14; Show t0 Show t1 Show t2 Show t3 Show t4 Show t5 Show t6 Show t7 Show t8 Show t9 Show t10 Show t11 Show t12 Show t13\n\
        Show (,,,,,,,,,,,,,,) 15; Show t0 Show t1 Show t2 Show t3 Show t4 Show t5 Show t6 Show t7 Show t8 Show t9 Show t10 Show t11 Show t12 Show t13 Show t14\n\
        Show Bool 0;\n\
        Show Char 0;\n\
        Show Double 0;\n\
        Show Float 0;\n\
        Show Int 0;\n\
        Show Integer 0;\n\
        Show Ordering 0;\n\
        Show Ratio 1; Integral t0 Show t0\n\
        Show [] 1; Show t0\n";
    run_insts(&rt, rt.alloc(), b"Show", ROWS)?;
    Ok(())
}
