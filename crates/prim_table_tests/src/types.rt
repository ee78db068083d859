//! Data types with their constructors and fields, synonyms, and types without constructors.
use crate::rows::{Part, counts, run};
use std::test::Fail;

/// Every type that is no class, with the kinds of its parameters.
#[test]
fn all_types(rt: HostRuntime) -> Result<(), Fail> {
    const ROWS: &[u8] = b"\
        data () | ()\n\
        data (,) * * | (,) t0 t1\n\
        data (,,) * * * | (,,) t0 t1 t2\n\
        data (,,,) * * * * | (,,,) t0 t1 t2 t3\n\
        data (,,,,) * * * * * | (,,,,) t0 t1 t2 t3 t4\n\
        data (,,,,,) * * * * * * | (,,,,,) t0 t1 t2 t3 t4 t5\n\
        data (,,,,,,) * * * * * * * | (,,,,,,) t0 t1 t2 t3 t4 t5 t6\n\
        data (,,,,,,,) * * * * * * * * | (,,,,,,,) t0 t1 t2 t3 t4 t5 t6 t7\n\
        data (,,,,,,,,) * * * * * * * * * | (,,,,,,,,) t0 t1 t2 t3 t4 t5 t6 t7 t8\n\
        data (,,,,,,,,,) * * * * * * * * * * | (,,,,,,,,,) t0 t1 t2 t3 t4 t5 t6 t7 t8 t9\n\
        data (,,,,,,,,,,) * * * * * * * * * * * | (,,,,,,,,,,) t0 t1 t2 t3 t4 t5 t6 t7 t8 t9 t10\n\
        data (,,,,,,,,,,,) * * * * * * * * * * * * | (,,,,,,,,,,,) t0 t1 t2 t3 t4 t5 t6 t7 t8 t9 t10 t11\n\
        data (,,,,,,,,,,,,) * * * * * * * * * * * * * | (,,,,,,,,,,,,) t0 t1 t2 t3 t4 t5 t6 t7 t8 t9 t10 t11 t12\n\
        data (,,,,,,,,,,,,,) * * * * * * * * * * * * * * | (,,,,,,,,,,,,,) t0 t1 t2 t3 t4 t5 t6 t7 t8 t9 t10 t11 t12 t13\n\
        data (,,,,,,,,,,,,,,) * * * * * * * * * * * * * * * | (,,,,,,,,,,,,,,) t0 t1 t2 t3 t4 t5 t6 t7 t8 t9 t10 t11 t12 t13 t14\n\
        abstract -> * *\n\
        data Bool | False | True\n\
        abstract Char\n\
        abstract Double\n\
        abstract Float\n\
        abstract IO *\n\
        abstract Int\n\
        abstract Integer\n\
        data Ordering | LT | EQ | GT\n\
        abstract Ratio *\n\
        type Rational :: * = (Prim.Ratio Prim.Integer)\n\
        type ReadS * :: * = ((Prim.-> (Prim.[] Prim.Char)) (Prim.[] ((Prim.(,) t0) (Prim.[] Prim.Char))))\n\
        type ShowS :: * = ((Prim.-> (Prim.[] Prim.Char)) (Prim.[] Prim.Char))\n\
        type String :: * = (Prim.[] Prim.Char)\n\
        data [] * | [] | : t0 (Prim.[] t0)\n";
    run(&rt, rt.alloc(), Part::Types, ROWS)?;
    Ok(())
}

/// How many declarations, instances and exports there are in all.
#[test]
fn all_counts(rt: HostRuntime) -> Result<(), Fail> {
    assert!(rt; counts(rt.alloc())? == (54, 148, 112));
    Ok(())
}
