//! How far terms are read back, and terms with nothing solved.
use crate::rows::{apply, eight_variables, term, variable};
use mk_base::memory::NoMemory;
use std::alloc::Global;
use std::process::Abort;
use std::test::Fail;
use term_unify::terms::{TermId, Terms};

/// The variable 0 applied to itself, and what that gives to 0, so many times in all.
fn chain(
    rt: &impl Abort,
    alloc: Global,
    terms: &mut Terms,
    count: u32,
) -> Result<TermId, NoMemory> {
    let mut t = term(rt, alloc, terms, b"0")?;
    for _ in 0..count {
        let zero = variable(rt, terms, b'0');
        t = apply(rt, terms, t, zero)?;
    }
    Ok(t)
}

/// The variable 0 doubled so many times.
fn doubled(
    rt: &impl Abort,
    alloc: Global,
    terms: &mut Terms,
    count: u32,
) -> Result<TermId, NoMemory> {
    let mut t = term(rt, alloc, terms, b"0")?;
    for _ in 0..count {
        t = apply(rt, terms, t, t)?;
    }
    Ok(t)
}

/// Whether a term can be read back.
fn is_read(rt: &impl Abort, terms: &Terms, t: TermId) -> Result<bool, NoMemory> {
    assert!(rt; t.0 < terms.size());
    Ok(terms.read_back(t)?.is_some())
}

/// Checks that 1,000 levels are read back, and not more.
fn check_levels(rt: &impl Abort, alloc: Global) -> Result<(), NoMemory> {
    let mut terms = Terms::new(alloc);
    eight_variables(&mut terms)?;
    let t = chain(rt, alloc, &mut terms, 999)?;
    assert!(rt; is_read(rt, &terms, t)?);
    let zero = variable(rt, &terms, b'0');
    let u = apply(rt, &mut terms, t, zero)?;
    assert!(rt; !is_read(rt, &terms, u)?);
    Ok(())
}

/// Checks that 65,536 nodes are read back, and not more, whether they are shared or not.
fn check_nodes(rt: &impl Abort, alloc: Global) -> Result<(), NoMemory> {
    let mut terms = Terms::new(alloc);
    eight_variables(&mut terms)?;
    let t = doubled(rt, alloc, &mut terms, 15)?;
    assert!(rt; is_read(rt, &terms, t)?);
    let zero = variable(rt, &terms, b'0');
    let u = apply(rt, &mut terms, t, zero)?;
    assert!(rt; !is_read(rt, &terms, u)?);
    let many = doubled(rt, alloc, &mut terms, 40)?;
    assert!(rt; !is_read(rt, &terms, many)?);
    Ok(())
}

/// Makes two terms equal.
fn unify(rt: &impl Abort, terms: &mut Terms, a: TermId, b: TermId) -> Result<bool, NoMemory> {
    assert!(rt; a.0 < terms.size() && b.0 < terms.size());
    terms.unify(a, b)
}

/// Checks that rigid variables can be solved, and that nothing is.
fn check_relaxed(rt: &impl Abort, alloc: Global) -> Result<(), NoMemory> {
    let mut terms = Terms::new(alloc);
    eight_variables(&mut terms)?;
    let one = term(rt, alloc, &mut terms, b"06@")?;
    let two = term(rt, alloc, &mut terms, b"a7@")?;
    assert!(rt; !unify(rt, &mut terms, one, two)?);
    let zero = variable(rt, &terms, b'0');
    assert!(rt; unify(rt, &mut terms, zero, two)?);
    let mut relaxed = terms.relaxed()?;
    assert!(rt; relaxed.size() == terms.size() && relaxed.count() == 8);
    assert!(rt; unify(rt, &mut relaxed, one, two)?);
    assert!(rt; !unify(rt, &mut relaxed, zero, two)?);
    Ok(())
}

#[test]
fn limits_and_relaxed_terms(rt: HostRuntime) -> Result<(), Fail> {
    check_levels(&rt, rt.alloc())?;
    check_nodes(&rt, rt.alloc())?;
    check_relaxed(&rt, rt.alloc())?;
    Ok(())
}
