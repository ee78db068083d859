//! How the tables of the tests are read.
use std::alloc::{AllocError, Global};

/// The two parts before and behind the bar of a line.
pub fn cut(line: &[u8]) -> (&[u8], &[u8]) {
    match line.iter().position(|byte| *byte == b'|') {
        Some(at) if at < line.len() => (&line[..at], &line[at + 1..]),
        _ => (line, &[]),
    }
}

/// The digits of a word.
fn digits(alloc: Global, word: &[u8]) -> Result<Vec<usize>, AllocError> {
    let mut row = Vec::new(alloc);
    for byte in word {
        if byte.is_ascii_digit() {
            row.push(usize::from(byte.saturating_sub(b'0')))?;
        }
    }
    Ok(row)
}

/// The digits of each word.
pub fn rows(alloc: Global, text: &[u8]) -> Result<Vec<Vec<usize>>, AllocError> {
    let mut rows = Vec::new(alloc);
    for word in text.split(|byte| *byte == b' ') {
        if !word.is_empty() {
            rows.push(digits(alloc, word)?)?;
        }
    }
    Ok(rows)
}
