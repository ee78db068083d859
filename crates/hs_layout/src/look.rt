//! Which frame a rule looks for, and what it meets on the way there.
ghost use Rattle.std.specs.Prelude.{◌≡◌};
ghost use Rattle.hs_layout.specs.Looks.{on_if, through, look_at, look_paren, look_bracket, look_brace, look_note, look_comma, look_inner, look_bar, look_equals, look_arrow};

use crate::frame::{Context, Frame, Note, Sort, is_block, is_put, takes_comma};

/// Which frame a rule looks for, from the nearest down.
///
/// Inner is the bracket of a list with blocks and notes alone above it. Deeper and From are the first frame that isn't
/// deeper than a column, and that isn't as deep either. Do, Bar, Equals and Arrow are the first frame that isn't a block
/// which `where` or the operator closes. End is none.
#[derive(Clone, Copy, PartialEq, Eq)]
pub enum Target {
    Paren,
    Bracket,
    Brace,
    Note(Note),
    Comma,
    Inner,
    Deeper(u32),
    From(u32),
    Do,
    Bar,
    Equals,
    Arrow,
    End,
}

/// Whether a frame is the one that is looked for, lies on the way there, or bars it.
#[derive(Clone, Copy, PartialEq, Eq)]
pub enum Look {
    Here,
    On,
    Nowhere,
}

/// On where the frame is to be closed, and here where it is to stay.
fn on_if(closes: bool) -> Look
    ensures { result ≡ on_if closes }
{
    if closes { Look::On } else { Look::Here }
}

/// On at a block, and nowhere at another context.
fn through(context: Context) -> Look
    ensures { result ≡ through context }
{
    if is_block(context) {
        Look::On
    } else {
        Look::Nowhere
    }
}

/// Looks for a parenthesis.
fn look_paren(frame: &Frame) -> Look
    ensures { result ≡ look_paren frame.now.sort frame.now.context }
{
    match frame.sort {
        Sort::Paren => Look::Here,
        Sort::Bracket => Look::On,
        Sort::Context => through(frame.context),
    }
}

/// Looks for a bracket.
fn look_bracket(frame: &Frame) -> Look
    ensures { result ≡ look_bracket frame.now.sort frame.now.context }
{
    match frame.sort {
        Sort::Paren => Look::On,
        Sort::Bracket => Look::Here,
        Sort::Context => through(frame.context),
    }
}

/// Looks for a written brace.
fn look_brace(frame: &Frame) -> Look
    ensures { result ≡ look_brace frame.now.sort frame.now.context }
{
    match frame.sort {
        Sort::Paren => Look::On,
        Sort::Bracket => Look::On,
        Sort::Context => {
            if frame.context == Context::Brace {
                Look::Here
            } else {
                through(frame.context)
            }
        }
    }
}

/// Looks for a note with no parenthesis, bracket or written brace above it.
fn look_note(note: Note, frame: &Frame) -> Look
    ensures { result ≡ look_note note frame.now }
{
    if frame.notes.has(note) {
        return Look::Here;
    }
    if is_put(frame) {
        Look::On
    } else {
        Look::Nowhere
    }
}

/// Looks for the frame to which a comma belongs.
fn look_comma(frame: &Frame) -> Look
    ensures { result ≡ look_comma frame.now.sort frame.now.context frame.now.seen }
{
    match frame.sort {
        Sort::Paren => Look::Here,
        Sort::Bracket => Look::Here,
        Sort::Context => match frame.context {
            Context::Outside => Look::Nowhere,
            Context::Brace => Look::Here,
            context => on_if(!takes_comma(context, frame.seen)),
        },
    }
}

/// Looks for the bracket of a list with blocks and notes alone above it.
fn look_inner(frame: &Frame) -> Look
    ensures { result ≡ look_inner frame.now.sort frame.now.context }
{
    match frame.sort {
        Sort::Paren => Look::Nowhere,
        Sort::Bracket => Look::Here,
        Sort::Context => through(frame.context),
    }
}

/// Passes blocks of `do`, and those in which a body stands with no bar before it.
fn look_bar(frame: &Frame) -> Look
    ensures { result ≡ look_bar frame.now }
{
    on_if(is_put(frame) && (frame.context == Context::Do || frame.seen.body))
}

/// Passes blocks of `do` and of `of`, and those of `let` in which an equals sign came with no bar since.
fn look_equals(frame: &Frame) -> Look
    ensures { result ≡ look_equals frame.now.sort frame.now.context frame.now.seen }
{
    match frame.sort {
        Sort::Context => match frame.context {
            Context::Do => Look::On,
            Context::Of => Look::On,
            Context::Let => on_if(frame.seen.bound),
            _ => Look::Here,
        },
        _ => Look::Here,
    }
}

/// Passes blocks of `let` in which an equals sign came with no lambda and no double colon since.
fn look_arrow(frame: &Frame) -> Look
    ensures { result ≡ look_arrow frame.now.sort frame.now.context frame.now.seen }
{
    match frame.sort {
        Sort::Context => match frame.context {
            Context::Let => on_if(frame.seen.plain),
            _ => Look::Here,
        },
        _ => Look::Here,
    }
}

/// What a frame is to a rule that looks for this one.
pub fn look_at(target: Target, frame: &Frame) -> Look
    ensures { result ≡ look_at target frame.now }
{
    match target {
        Target::Paren => look_paren(frame),
        Target::Bracket => look_bracket(frame),
        Target::Brace => look_brace(frame),
        Target::Note(note) => look_note(note, frame),
        Target::Comma => look_comma(frame),
        Target::Inner => look_inner(frame),
        Target::Deeper(column) => on_if(column < frame.column),
        Target::From(column) => on_if(column <= frame.column),
        Target::Do => on_if(frame.context == Context::Do),
        Target::Bar => look_bar(frame),
        Target::Equals => look_equals(frame),
        Target::Arrow => look_arrow(frame),
        Target::End => Look::On,
    }
}
