//! How the table of bindings is read.
use bind_groups::binding::Binding;
use mk_base::list::List;
use mk_base::memory::NoMemory;
use mk_base::place::Pos;
use std::alloc::Global;

/// The two parts before and behind the first such byte; the second is empty where there is none.
pub fn cut_at(bytes: &[u8], mark: u8) -> (&[u8], &[u8]) {
    match bytes.iter().position(|byte| *byte == mark) {
        Some(at) if at < bytes.len() => (&bytes[..at], &bytes[at + 1..]),
        _ => (bytes, &[]),
    }
}

/// The number of a letter or a digit: a name stands for its byte, and 'Z' for the greatest number of all.
fn name_of(byte: u8) -> u32 {
    if byte == b'Z' {
        u32::MAX
    } else {
        u32::from(byte)
    }
}

/// The names of a word.
fn names(alloc: Global, word: &[u8]) -> Result<List<u32>, NoMemory> {
    let mut names = List::new(alloc);
    for byte in word {
        names.push(name_of(*byte))?;
    }
    Ok(names)
}

/// A binding, as a word of the table.
fn binding(alloc: Global, word: &[u8]) -> Result<Binding, NoMemory> {
    let (bound, uses) = cut_at(word, b'=');
    let (free, signed) = cut_at(bound, b':');
    Ok(Binding {
        names: names(alloc, if signed.is_empty() { free } else { signed })?,
        signed: !signed.is_empty(),
        uses: names(alloc, uses)?,
        at: Pos { line: 1, col: 1 },
    })
}

/// The bindings of a line.
pub fn bindings(alloc: Global, text: &[u8]) -> Result<List<Binding>, NoMemory> {
    let mut all = List::new(alloc);
    for word in text.split(|byte| *byte == b' ') {
        if !word.is_empty() {
            all.push(binding(alloc, word)?)?;
        }
    }
    Ok(all)
}

/// The numbers of each word, which are digits.
pub fn groups(alloc: Global, text: &[u8]) -> Result<List<List<u32>>, NoMemory> {
    let mut all = List::new(alloc);
    for word in text.split(|byte| *byte == b' ') {
        if !word.is_empty() {
            let mut group = List::new(alloc);
            for byte in word {
                group.push(u32::from(byte.saturating_sub(b'0')))?;
            }
            all.push(group)?;
        }
    }
    Ok(all)
}
