//! Trees that nest deep.
use crate::rows::{Part, is_read};
use mk_base::memory::NoMemory;
use std::alloc::Global;

/// How often two texts stand, the one in front, what stands in the middle, and the other one behind.
type Row = (Part, usize, &'static [u8], &'static [u8], &'static [u8]);

fn push_all(out: &mut Vec<u8>, part: &[u8], count: usize) -> Result<(), NoMemory> {
    for _ in 0..count {
        out.extend_from_slice(part)?;
    }
    Ok(())
}

fn source_of(alloc: Global, row: Row) -> Result<Vec<u8>, NoMemory> {
    let mut source = Vec::new(alloc);
    push_all(&mut source, row.2, row.1)?;
    source.extend_from_slice(row.3)?;
    push_all(&mut source, row.4, row.1)?;
    Ok(source)
}

fn is_row(alloc: Global, row: Row) -> bool {
    match source_of(alloc, row) {
        Ok(source) => is_read(alloc, row.0, &source),
        Err(_) => false,
    }
}

fn are_rows(alloc: Global, rows: &[Row]) -> bool {
    for row in rows {
        if !is_row(alloc, *row) {
            return false;
        }
    }
    true
}

/// Types.
#[test]
fn deep_types(rt: HostRuntime) {
    const ROWS: [Row; 4] = [
        (Part::Type, 500, b"(", b"a", b")"),
        (Part::Type, 500, b"[", b"a", b"]"),
        (Part::Type, 500, b"T (", b"a", b")"),
        (Part::Type, 500, b"a -> ", b"a", b""),
    ];
    assert!(rt; are_rows(rt.alloc(), &ROWS));
}

/// Patterns.
#[test]
fn deep_patterns(rt: HostRuntime) {
    const ROWS: [Row; 6] = [
        (Part::Pattern, 500, b"(", b"x", b")"),
        (Part::Pattern, 500, b"[", b"x", b"]"),
        (Part::Pattern, 500, b"~ ", b"x", b""),
        (Part::Pattern, 500, b"x@", b"y", b""),
        (Part::Pattern, 500, b"P (", b"x", b")"),
        (Part::Pattern, 500, b"P {x = ", b"y", b"}"),
    ];
    assert!(rt; are_rows(rt.alloc(), &ROWS));
}
