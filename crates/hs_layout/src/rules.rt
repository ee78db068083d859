//! The rules of layout, each on the frames that are open and the signs that are put.
ghost use Rattle.std.specs.Prelude.{◌≡◌, ◌∷◌, OnOk, MatchOption, IfNone, if◌then◌else◌};
ghost use Rattle.hs_layout.specs.Follows.{Follows};
ghost use Rattle.hs_layout.specs.Below.{IsSought};
ghost use Rattle.hs_layout.specs.Looks.{look_top, reaches};
ghost use Rattle.hs_layout.specs.Rules.{stay, close, down_to, indentation, context_of, is_direct, is_level, renewed, renew, onto, punctuate, at_line, at_opening, see_top, frame, at_end_of, pop, counted, with_notes, behind, answered, at_answer, no_notes, at_comma, at_where, without_let, at_bar, at_sign, at_lexeme, add_note, opened, behind_lexeme};

use crate::frame::{Context, Frame, Lead, Note, Sort, is_block, is_put, nothing_seen, see};
use crate::frames::Frames;
use crate::look::{Look, Target, look_at};
use crate::notes::{Notes, same_note};
use crate::role::Role;
use crate::stack::Stack;
use hs_syntax::token::PutSign;
use mk_base::memory::NoMemory;
use std::alloc::Global;

/// What the nearest frame is to a rule that looks for this one; it is there where no frame is left.
fn look_top(target: Target, frames: &Frames) -> Look
    ensures { result ≡ look_top target frames.now }
{
    match frames.top() {
        Some(frame) => look_at(target, frame),
        None => Look::Here,
    }
}

/// Closes the nearest frame. Where it is a block, its closing brace is put.
fn close(frames: &mut Frames, signs: &mut Vec<PutSign>) -> Result<(), NoMemory>
    ensures { OnOk result (Follows (close frames.old) frames.new signs.old.items signs.new.items) }
{
    let Some(frame) = frames.pop() else {
        return Ok(());
    };
    if is_put(&frame) {
        signs.push(PutSign::Close)?;
    }
    Ok(())
}

/// Closes the frames above the one that is looked for.
pub fn down_to(
    target: Target,
    frames: &mut Frames,
    signs: &mut Vec<PutSign>,
) -> Result<(), NoMemory>
    ensures { OnOk result (Follows (down_to target frames.old) frames.new signs.old.items signs.new.items) }
{
    while look_top(target, frames) == Look::On {
        close(frames, signs)?;
    }
    Ok(())
}

/// The indentation that holds in the nearest frame.
fn indentation(frames: &Frames) -> u32
    ensures { result ≡ indentation frames.now }
{
    match frames.top() {
        Some(frame) => frame.column,
        None => 0,
    }
}

/// The context that the nearest frame is or stands in.
fn context_of(frames: &Frames) -> Context
    ensures { result ≡ context_of frames.now }
{
    match frames.top() {
        Some(frame) => frame.context,
        None => Context::Outside,
    }
}

/// Whether the enclosing context is a block of that indentation.
fn is_level(column: u32, frames: &Frames) -> bool
    ensures { result ≡ is_level column frames.now }
{
    match frames.top() {
        Some(frame) => is_block(frame.context) && column == frame.column,
        None => false,
    }
}

/// Whether the nearest frame is a block whose brace is put.
fn is_direct(frames: &Frames) -> bool
    ensures { result ≡ is_direct frames.now }
{
    match frames.top() {
        Some(frame) => is_put(frame),
        None => false,
    }
}

/// A frame in which nothing has come.
pub fn frame_of(alloc: Global, sort: Sort, context: Context, column: u32) -> Frame
    ensures { result ≡ frame sort context column }
{
    Frame {
        sort,
        context,
        column,
        notes: Notes::new(alloc),
        seen: nothing_seen(),
    }
}

/// The nearest frame has seen a further lexeme.
fn see_top(role: Role, frames: &mut Frames) -> Result<(), NoMemory>
    ensures { OnOk result (frames.new ≡ see_top role frames.old) }
{
    let Some(mut frame) = frames.pop() else {
        return Ok(());
    };
    frame.seen = see(role, frame.seen);
    frames.push(frame)
}

/// The frames, the nearest last, back on top of others.
fn put_back(mut held: Stack<Frame>, frames: &mut Frames) -> Result<(), NoMemory>
    ensures { OnOk result (frames.new ≡ onto held frames.old) }
{
    while let Some(frame) = held.pop() {
        frames.push(frame)?;
    }
    Ok(())
}

/// A frame behind a semicolon.
fn renewed(alloc: Global, keep: bool, frame: Frame) -> Frame
    ensures { result ≡ renewed keep frame }
{
    let mut frame = frame;
    if !keep {
        frame.notes = Notes::new(alloc);
    }
    frame.seen = nothing_seen();
    frame
}

/// Takes the nearest frame off, where a semicolon changes it or one below it up to the enclosing context.
#[tactic(auto, using(crate::proofs::Settled::settled_stays))]
fn pop_unsettled(keep: bool, frames: &mut Frames) -> Option<Frame>
    ensures taken { MatchOption result (renew keep frames.old ≡ frames.old) (λ x. frames.old ≡ x ∷ frames.new) }
    ensures settled { IfNone result (frames.new ≡ frames.old) }
{
    if frames.is_settled(keep) {
        return None;
    }
    frames.pop()
}

/// Behind a semicolon nothing is seen up to the enclosing context, and the notes go unless they are kept.
///
/// The walk ends where the frames that are left are settled. Each that it takes but the nearest lies under a frame
/// whose entry says that what is below isn't settled. Behind the walk that entry says that it is, and so it stays while
/// the frame is open: a lexeme touches the nearest frame alone, and another walk unsettles nothing. So all walks
/// together take at most one frame each, and two for each frame that was ever opened (one where notes are kept, one
/// where they go): the whole is linear in the tokens.
pub fn renew(alloc: Global, keep: bool, frames: &mut Frames) -> Result<(), NoMemory>
    ensures { OnOk result (frames.new ≡ renew keep frames.old) }
{
    let mut held = Stack::new(alloc);
    while let Some(frame) = pop_unsettled(keep, frames) {
        let whole = frame.sort == Sort::Context;
        held.push(renewed(alloc, keep, frame))?;
        if whole {
            break;
        }
    }
    put_back(held, frames)
}

/// A semicolon, where the enclosing context is a block of this indentation.
fn punctuate(
    alloc: Global,
    column: u32,
    keep: bool,
    frames: &mut Frames,
    signs: &mut Vec<PutSign>,
) -> Result<(), NoMemory>
    ensures { OnOk result (Follows (punctuate column keep frames.old) frames.new signs.old.items signs.new.items) }
{
    if is_level(column, frames) {
        signs.push(PutSign::Semicolon)?;
        renew(alloc, keep, frames)?;
    }
    Ok(())
}

/// The first lexeme of a line, at a column (Haskell 2010 Report, section 10.3).
pub fn at_line(
    alloc: Global,
    column: u32,
    keep: bool,
    frames: &mut Frames,
    signs: &mut Vec<PutSign>,
) -> Result<(), NoMemory>
    ensures { OnOk result (Follows (at_line column keep frames.old) frames.new signs.old.items signs.new.items) }
{
    down_to(Target::Deeper(column), frames, signs)?;
    punctuate(alloc, column, keep, frames, signs)
}

/// The lexeme at which a block opens, at a column (Haskell 2010 Report, section 10.3).
pub fn at_opening(
    alloc: Global,
    context: Context,
    column: u32,
    keep: bool,
    frames: &mut Frames,
    signs: &mut Vec<PutSign>,
) -> Result<(), NoMemory>
    ensures { OnOk result (Follows (at_opening context column keep frames.old) frames.new signs.old.items signs.new.items) }
{
    signs.push(PutSign::Open)?;
    if indentation(frames) < column {
        return frames.push(frame_of(alloc, Sort::Context, context, column));
    }
    signs.push(PutSign::Close)?;
    at_line(alloc, column, keep, frames, signs)
}

/// As what a bracket with its contents is seen: an operator alone in parentheses as a name.
fn counted(sort: Sort, lead: Lead) -> Role
    ensures { result ≡ counted sort lead }
{
    match (sort, lead) {
        (Sort::Paren, Lead::Operator) => Role::Variable,
        _ => Role::Other,
    }
}

/// Takes the nearest frame off, where it isn't a block whose brace is put.
fn pop(frames: &mut Frames) -> Result<(), NoMemory>
    ensures { OnOk result (frames.new ≡ pop frames.old) }
{
    let Some(frame) = frames.pop() else {
        return Ok(());
    };
    if is_put(&frame) {
        return frames.push(frame);
    }
    see_top(counted(frame.sort, frame.seen.lead), frames)
}

/// A closing parenthesis, bracket or brace.
fn at_end_of(target: Target, frames: &mut Frames, signs: &mut Vec<PutSign>) -> Result<(), NoMemory>
    requires { IsSought target }
    ensures { OnOk result (Follows (at_end_of target frames.old) frames.new signs.old.items signs.new.items) }
{
    if frames.reaches(target) {
        down_to(target, frames, signs)?;
        return pop(frames);
    }
    see_top(Role::Other, frames)
}

/// Drops the notes down to the nearest that is the same, and that one too.
fn drop_note(note: Note, notes: &mut Notes)
    ensures { notes.new ≡ behind note notes.old }
{
    while let Some(other) = notes.pop() {
        if same_note(other, note) {
            break;
        }
    }
}

/// The word for which a note waited.
fn answer(note: Note, notes: &mut Notes) -> Result<(), NoMemory>
    ensures { OnOk result (notes.new ≡ answered note notes.old) }
{
    drop_note(note, notes);
    match note {
        Note::If => notes.push(Note::Then),
        _ => Ok(()),
    }
}

/// The word for which a note of the nearest frame waited.
fn answer_top(note: Note, frames: &mut Frames) -> Result<(), NoMemory>
    ensures { OnOk result (frames.new ≡ with_notes (answered note) frames.old) }
{
    let Some(mut frame) = frames.pop() else {
        return Ok(());
    };
    answer(note, &mut frame.notes)?;
    frames.push(frame)
}

/// The words `of`, `then`, `else` and `in`, by the note that waits for each.
fn at_answer(note: Note, frames: &mut Frames, signs: &mut Vec<PutSign>) -> Result<(), NoMemory>
    ensures { OnOk result (Follows (at_answer note frames.old) frames.new signs.old.items signs.new.items) }
{
    if frames.reaches(Target::Note(note)) {
        down_to(Target::Note(note), frames, signs)?;
        return answer_top(note, frames);
    }
    Ok(())
}

/// Drops the notes of the nearest frame.
fn drop_notes(alloc: Global, frames: &mut Frames) -> Result<(), NoMemory>
    ensures { OnOk result (frames.new ≡ with_notes no_notes frames.old) }
{
    let Some(mut frame) = frames.pop() else {
        return Ok(());
    };
    frame.notes = Notes::new(alloc);
    frames.push(frame)
}

/// A comma.
fn at_comma(alloc: Global, frames: &mut Frames, signs: &mut Vec<PutSign>) -> Result<(), NoMemory>
    ensures { OnOk result (Follows (at_comma frames.old) frames.new signs.old.items signs.new.items) }
{
    if frames.reaches(Target::Comma) {
        down_to(Target::Comma, frames, signs)?;
        return drop_notes(alloc, frames);
    }
    Ok(())
}

/// The word `where` at a column, and whether a semicolon was put right before it.
fn at_where(
    semicolon: bool,
    column: u32,
    frames: &mut Frames,
    signs: &mut Vec<PutSign>,
) -> Result<(), NoMemory>
    ensures { OnOk result (Follows (at_where semicolon column frames.old) frames.new signs.old.items signs.new.items) }
{
    if semicolon {
        down_to(Target::From(column), frames, signs)?;
    }
    down_to(Target::Do, frames, signs)
}

/// Drops the nearest note where it is one of `let`.
fn drop_let(notes: &mut Notes) -> Result<(), NoMemory>
    ensures { OnOk result (notes.new ≡ without_let notes.old) }
{
    let Some(note) = notes.pop() else {
        return Ok(());
    };
    if same_note(note, Note::Let) {
        return Ok(());
    }
    notes.push(note)
}

/// Drops the nearest note of the nearest frame where it is one of `let`.
fn drop_let_top(frames: &mut Frames) -> Result<(), NoMemory>
    ensures { OnOk result (frames.new ≡ with_notes without_let frames.old) }
{
    let Some(mut frame) = frames.pop() else {
        return Ok(());
    };
    drop_let(&mut frame.notes)?;
    frames.push(frame)
}

/// An equals sign or an arrow.
fn at_sign(target: Target, frames: &mut Frames, signs: &mut Vec<PutSign>) -> Result<(), NoMemory>
    ensures { OnOk result (Follows (at_sign (down_to target frames.old) frames.old) frames.new signs.old.items signs.new.items) }
{
    if is_direct(frames) {
        down_to(target, frames, signs)?;
        return drop_let_top(frames);
    }
    Ok(())
}

/// Closes the blocks that a bar ends, where it stands in a list. No list is looked for where no block would end.
#[tactic(auto, using(crate::proofs::Closing::nothing_closes))]
fn close_at_bar(frames: &mut Frames, signs: &mut Vec<PutSign>) -> Result<(), NoMemory>
    ensures { OnOk result (Follows (if reaches Target.Inner frames.old then down_to Target.Bar frames.old else stay frames.old) frames.new signs.old.items signs.new.items) }
{
    if look_top(Target::Bar, frames) != Look::On {
        return Ok(());
    }
    if frames.reaches(Target::Inner) {
        return down_to(Target::Bar, frames, signs);
    }
    Ok(())
}

/// A bar.
fn at_bar(frames: &mut Frames, signs: &mut Vec<PutSign>) -> Result<(), NoMemory>
    ensures { OnOk result (Follows (at_bar frames.old) frames.new signs.old.items signs.new.items) }
{
    if is_direct(frames) {
        close_at_bar(frames, signs)?;
        return drop_let_top(frames);
    }
    Ok(())
}

/// The rule of a lexeme at a column; whether a semicolon was put right before it.
pub fn at_lexeme(
    alloc: Global,
    role: Role,
    semicolon: bool,
    column: u32,
    frames: &mut Frames,
    signs: &mut Vec<PutSign>,
) -> Result<(), NoMemory>
    ensures { OnOk result (Follows (at_lexeme role semicolon column frames.old) frames.new signs.old.items signs.new.items) }
{
    match role {
        Role::CloseParen => at_end_of(Target::Paren, frames, signs),
        Role::CloseBracket => at_end_of(Target::Bracket, frames, signs),
        Role::CloseBrace => at_end_of(Target::Brace, frames, signs),
        Role::Of => at_answer(Note::Case, frames, signs),
        Role::Then => at_answer(Note::If, frames, signs),
        Role::Else => at_answer(Note::Then, frames, signs),
        Role::In => at_answer(Note::Let, frames, signs),
        Role::Comma => at_comma(alloc, frames, signs),
        Role::Where => at_where(semicolon, column, frames, signs),
        Role::Bar => at_bar(frames, signs),
        Role::Equals => at_sign(Target::Equals, frames, signs),
        Role::Arrow => at_sign(Target::Arrow, frames, signs),
        _ => Ok(()),
    }
}

/// Notes a word in the nearest frame.
fn add_note(note: Note, frames: &mut Frames) -> Result<(), NoMemory>
    ensures { OnOk result (frames.new ≡ with_notes (add_note note) frames.old) }
{
    let Some(mut frame) = frames.pop() else {
        return Ok(());
    };
    frame.notes.push(note)?;
    frames.push(frame)
}

/// Opens a parenthesis or a bracket.
fn open_in(alloc: Global, sort: Sort, frames: &mut Frames) -> Result<(), NoMemory>
    ensures { OnOk result (frames.new ≡ frame sort (context_of frames.old) (indentation frames.old) ∷ frames.old) }
{
    let context = context_of(frames);
    let column = indentation(frames);
    frames.push(frame_of(alloc, sort, context, column))
}

/// What a lexeme opens behind itself.
fn open_behind(alloc: Global, role: Role, frames: &mut Frames) -> Result<(), NoMemory>
    ensures { OnOk result (frames.new ≡ opened role frames.old) }
{
    match role {
        Role::OpenParen => open_in(alloc, Sort::Paren, frames),
        Role::OpenBracket => open_in(alloc, Sort::Bracket, frames),
        Role::OpenBrace => frames.push(frame_of(alloc, Sort::Context, Context::Brace, 0)),
        Role::Let => add_note(Note::Let, frames),
        Role::Case => add_note(Note::Case, frames),
        Role::If => add_note(Note::If, frames),
        _ => Ok(()),
    }
}

/// The frames behind a lexeme.
pub fn behind_lexeme(alloc: Global, role: Role, frames: &mut Frames) -> Result<(), NoMemory>
    ensures { OnOk result (frames.new ≡ behind_lexeme role frames.old) }
{
    see_top(role, frames)?;
    open_behind(alloc, role, frames)
}
