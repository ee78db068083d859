//! Left sides that nest deep.
use crate::rows::is_read;
use mk_base::memory::NoMemory;
use std::alloc::Global;

/// How often two texts stand, the one in front, what stands in the middle, and the other one behind.
type Row = (usize, &'static [u8], &'static [u8], &'static [u8]);

fn push_all(out: &mut Vec<u8>, part: &[u8], count: usize) -> Result<(), NoMemory> {
    for _ in 0..count {
        out.extend_from_slice(part)?;
    }
    Ok(())
}

fn source_of(alloc: Global, row: Row) -> Result<Vec<u8>, NoMemory> {
    let mut source = Vec::new(alloc);
    push_all(&mut source, row.1, row.0)?;
    source.extend_from_slice(row.2)?;
    push_all(&mut source, row.3, row.0)?;
    source.extend_from_slice(b" =")?;
    Ok(source)
}

fn is_row(alloc: Global, row: Row) -> bool {
    match source_of(alloc, row) {
        Ok(source) => is_read(alloc, &source),
        Err(_) => false,
    }
}

fn are_rows(alloc: Global, rows: &[Row]) -> bool {
    for row in rows {
        if !is_row(alloc, *row) {
            return false;
        }
    }
    true
}

/// Left sides of some hundred levels.
#[test]
fn deep_sides(rt: HostRuntime) {
    const ROWS: [Row; 4] = [
        (300, b"(", b"f x", b") y"),
        (300, b"(", b"x", b")"),
        (500, b"~ ", b"x", b""),
        (300, b"(", b"x + y", b") z"),
    ];
    assert!(rt; are_rows(rt.alloc(), &ROWS));
}
