//! What layout knows between two lexemes.
ghost use Rattle.std.specs.Prelude.{◌≡◌, ◌≤◌, length, false, IfOk};
ghost use Rattle.hs_layout.specs.Braced.{newline, newlines, start, is_first_of_line};

use crate::frame::{Context, Sort};
use crate::frames::Frames;
use crate::rules::frame_of;
use mk_base::memory::NoMemory;
use mk_base::place::Pos;
use std::alloc::Global;

/// Where a sign is put: a place, and the byte there, counted from 0.
#[derive(Clone, Copy)]
pub struct Spot {
    pub at: Pos,
    pub byte: u32,
}

/// What layout knows between two lexemes.
#[derive(Drop)]
pub struct State {
    pub frames: Frames,
    /// The block that opens at the next lexeme.
    pub opens: Option<Context>,
    /// Whether the last lexeme is a semicolon.
    pub semicolon: bool,
    /// The line on which the last lexeme begins, counted from 1, or 0.
    pub line: u32,
    /// The line breaks in the last lexeme.
    pub breaks: usize,
    /// The place of the last token, be it a pragma, and the byte behind it.
    pub end: Spot,
}

/// Whether a byte breaks the line, where a carriage return stands before it or doesn't.
fn newline(behind_return: bool, byte: u8) -> usize
    ensures is { result ≡ newline behind_return byte }
    ensures most { result ≤ 1 }
{
    if byte == b'\n' {
        return if behind_return { 0 } else { 1 };
    }
    if byte == b'\r' || byte == 12 { 1 } else { 0 }
}

/// How many line breaks a text has: CR LF, CR, LF and FF.
pub fn newlines(text: &[u8]) -> usize
    ensures { result ≡ newlines false text.now }
{
    let mut count = 0;
    let mut behind_return = false;
    for byte in text {
        count += newline(behind_return, *byte);
        behind_return = *byte == b'\r';
    }
    count
}

/// The state before the first lexeme.
pub fn start(alloc: Global) -> Result<State, NoMemory>
    ensures { IfOk result (λ st. st ≡ start) }
{
    let mut frames = Frames::new(alloc);
    frames.push(frame_of(alloc, Sort::Context, Context::Outside, 0))?;
    Ok(State {
        frames,
        opens: Some(Context::Start),
        semicolon: false,
        line: 0,
        breaks: 0,
        end: Spot {
            at: Pos { line: 1, col: 1 },
            byte: 0,
        },
    })
}
