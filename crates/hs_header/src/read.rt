//! The header of a source.
ghost use Rattle.std.specs.Prelude.{◌≡◌, ◌≤◌, List, ℕ, length, IfOk, OnOk, MatchResult, Ok, Err};
ghost use Rattle.mk_base.specs.declared.place.Pos.{Pos};
ghost use Rattle.hs_lex.specs.Tokens.{IsReached};
ghost use Rattle.hs_lex.specs.Slow.{lexemes_from};
ghost use Rattle.hs_header.specs.Reading.{IsHeaderOf, IsBadAt, IsNoneAt, IsUnknownAt, IsFault, whole, cut, header_of};
ghost use Rattle.hs_header.specs.Reading as spec;
ghost use Rattle.hs_header.specs.Gathering.{IsGathered, IsTurned, IsPassed, IsEnded, bad_at, conclusion, rest_in_front, rest_of, with_lexeme};
ghost use Rattle.hs_layout.specs.Braced as braced;

use crate::extension::{Flags, flags_of};
use crate::header::{Stop, read_tokens};
use crate::header_err::HeaderErr;
use crate::stage::{Stage, behind, is_over};
use hs_layout::braced::{finish, take_token};
use hs_layout::state::{State as Layout, start as start_layout};
use hs_lex::cursor::{Cursor, start as start_cursor};
use hs_lex::lex::{LexErr, read};
use hs_syntax::header::Header;
use hs_syntax::token::{Token, TokenKind};
use mk_base::list::List as TokenList;
use mk_base::memory::NoMemory;
use mk_base::place::Pos;
use std::alloc::Global;

/// Where a reading stands in or behind the pragmas for LANGUAGE.
#[derive(Clone, Copy)]
pub struct Front {
    pub cursor: Cursor,
    /// What the pragmas say.
    pub flags: Flags,
    /// The place of the last lexeme; 1:1 before the first.
    pub last: Pos,
}

/// What was read behind these pragmas.
#[derive(Drop)]
pub struct Progress {
    pub cursor: Cursor,
    pub layout: Layout,
    /// The lexemes with the signs that layout puts before each.
    pub tokens: TokenList<Token>,
    pub stage: Stage,
    /// The place of the last lexeme; 1:1 before the first.
    pub last: Pos,
}

/// Why the reading of lexemes ends.
#[derive(Clone, Copy)]
pub enum Ending {
    /// The input ends.
    Input,
    /// No lexeme begins at this place.
    Bad(Pos),
    /// What follows the imports, or that there is no header, is told by the lexemes so far.
    Decided,
}

/// The tokens by which the header is decided.
#[derive(Drop)]
pub struct Gathered {
    pub tokens: TokenList<Token>,
    pub ending: Ending,
    /// The place of the last lexeme; 1:1 where there is none.
    pub last: Pos,
}

fn is_pragma(token: &Token) -> bool
    ensures { result ≡ braced.is_pragma token.now.kind }
{
    match token.kind {
        TokenKind::Pragma => true,
        _ => false,
    }
}

/// Over one pragma in front; None where another lexeme, a bad place or the end of the input follows.
fn over_pragma(alloc: Global, source: &[u8], front: Front) -> Result<Option<Front>, HeaderErr>
    requires size { length source.now ≤ 1048576 }
    requires reached { IsReached source.now front.cursor }
    ensures { MatchResult result (λ o. IsPassed source.now front o) (λ e. IsFault (rest_in_front source.now front) e) }
{
    match read(alloc, source, front.cursor) {
        Ok(Some((token, behind))) => {
            if !is_pragma(&token) {
                return Ok(None);
            }
            match flags_of(alloc, front.flags, &token) {
                Err(error) => Err(error),
                Ok(flags) => Ok(Some(Front {
                    cursor: behind,
                    flags,
                    last: token.at,
                })),
            }
        }
        Ok(None) => Ok(None),
        Err(LexErr::NoLexeme(_)) => Ok(None),
        Err(LexErr::NoMemory) => Err(HeaderErr::NoMemory),
    }
}

/// Over the pragmas in front.
fn over_pragmas(alloc: Global, source: &[u8], front: Front) -> Result<Front, HeaderErr>
    requires size { length source.now ≤ 1048576 }
    requires reached { IsReached source.now front.cursor }
    ensures { MatchResult result (λ k. IsReached source.now k.cursor × (rest_of source.now k ≡ rest_in_front source.now front)) (λ e. IsFault (rest_in_front source.now front) e) }
{
    let mut here = front;
    loop {
        match over_pragma(alloc, source, here) {
            Err(error) => return Err(error),
            Ok(None) => return Ok(here),
            Ok(Some(next)) => here = next,
        }
    }
}

/// Puts a lexeme, with the signs before it, behind the tokens.
fn take(alloc: Global, token: &Token, known: &mut Progress) -> Result<(), NoMemory>
    ensures { OnOk result (known.new ≡ with_lexeme known.old token.now) }
{
    let from = known.tokens.len();
    take_token(alloc, token, &mut known.layout, &mut known.tokens)?;
    known.stage = behind(known.stage, &known.tokens.as_slice()[from..]);
    known.last = token.at;
    Ok(())
}

/// Reads one lexeme; answers why the reading ends, where it does.
fn turn(alloc: Global, source: &[u8], known: &mut Progress) -> Result<Option<Ending>, NoMemory>
    requires size { length source.now ≤ 1048576 }
    requires reached { IsReached source.now known.old.cursor }
    ensures { IfOk result (λ o. IsTurned source.now known.old o known.new) }
{
    match read(alloc, source, known.cursor) {
        Ok(Some((token, behind))) => {
            take(alloc, &token, known)?;
            known.cursor = behind;
            if is_over(known.stage) {
                Ok(Some(Ending::Decided))
            } else {
                Ok(None)
            }
        }
        Ok(None) => Ok(Some(Ending::Input)),
        Err(LexErr::NoLexeme(at)) => Ok(Some(Ending::Bad(at))),
        Err(LexErr::NoMemory) => Err(NoMemory),
    }
}

/// The tokens where the reading of lexemes has ended.
fn ended(alloc: Global, known: Progress, ending: Ending) -> Result<Gathered, NoMemory>
    ensures { IfOk result (λ g. IsEnded known ending g) }
{
    let Progress {
        cursor: _,
        layout,
        mut tokens,
        stage: _,
        last,
    } = known;
    match ending {
        Ending::Input => finish(alloc, layout, &mut tokens)?,
        _ => {}
    }
    Ok(Gathered {
        tokens,
        ending,
        last,
    })
}

/// The tokens from a cursor on by which the header is decided.
fn gather(alloc: Global, source: &[u8], front: Front) -> Result<Gathered, NoMemory>
    requires size { length source.now ≤ 1048576 }
    requires reached { IsReached source.now front.cursor }
    ensures { IfOk result (λ g. IsGathered front.last (lexemes_from source.now front.cursor) g) }
{
    let mut known = Progress {
        cursor: front.cursor,
        layout: start_layout(alloc)?,
        tokens: TokenList::new(alloc),
        stage: Stage::Line,
        last: front.last,
    };
    loop {
        if let Some(ending) = turn(alloc, source, &mut known)? {
            return ended(alloc, known, ending);
        }
    }
}

/// The header with what the pragmas say.
fn flagged(header: Header, flags: Flags) -> Header
    ensures { result ≡ spec.flagged header flags }
{
    let mut header = header;
    header.prelude = flags.prelude;
    header.restrict = flags.restrict;
    header
}

/// A header that was read with these tokens behind it.
fn whole(
    header: Header,
    flags: Flags,
    ending: Ending,
    behind: &[Token],
) -> Result<Header, HeaderErr>
    ensures { MatchResult result (λ h. whole (bad_at ending) behind.now (spec.flagged header flags) ≡ Ok h) (λ e. IsFault (whole (bad_at ending) behind.now (spec.flagged header flags)) e) }
{
    match ending {
        Ending::Bad(at) => {
            if behind.is_empty() {
                Err(HeaderErr::Lexeme(at))
            } else {
                Ok(flagged(header, flags))
            }
        }
        _ => Ok(flagged(header, flags)),
    }
}

/// Where the tokens end too early.
fn cut(ending: Ending, last: Pos) -> HeaderErr
    ensures { IsFault (cut (bad_at ending) last) result }
{
    match ending {
        Ending::Bad(at) => HeaderErr::Lexeme(at),
        _ => HeaderErr::Grammar(last),
    }
}

/// The header of the tokens that were gathered.
fn conclude(alloc: Global, flags: Flags, gathered: &Gathered) -> Result<Header, HeaderErr>
    ensures { MatchResult result (λ h. conclusion flags gathered.now ≡ Ok h) (λ e. IsFault (conclusion flags gathered.now) e) }
{
    match read_tokens(alloc, gathered.tokens.as_slice()) {
        Ok(Ok((header, behind))) => whole(header, flags, gathered.ending, behind),
        Ok(Err(Stop::At(at))) => Err(HeaderErr::Grammar(at)),
        Ok(Err(Stop::End)) => Err(cut(gathered.ending, gathered.last)),
        Err(_) => Err(HeaderErr::NoMemory),
    }
}

/// The header behind the pragmas in front.
fn behind_front(alloc: Global, source: &[u8], front: Front) -> Result<Header, HeaderErr>
    requires size { length source.now ≤ 1048576 }
    requires reached { IsReached source.now front.cursor }
    ensures { MatchResult result (λ h. rest_of source.now front ≡ Ok h) (λ e. IsFault (rest_of source.now front) e) }
{
    match gather(alloc, source, front) {
        Ok(gathered) => conclude(alloc, front.flags, &gathered),
        Err(_) => Err(HeaderErr::NoMemory),
    }
}

/// The header of a source, as the function of it.
fn header_in(alloc: Global, source: &[u8]) -> Result<Header, HeaderErr>
    requires { length source.now ≤ 1048576 }
    ensures { MatchResult result (λ h. header_of source.now ≡ Ok h) (λ e. IsFault (header_of source.now) e) }
{
    let front = Front {
        cursor: start_cursor(source),
        flags: Flags {
            prelude: None,
            restrict: None,
        },
        last: Pos { line: 1, col: 1 },
    };
    match over_pragmas(alloc, source, front) {
        Ok(front) => behind_front(alloc, source, front),
        Err(error) => Err(error),
    }
}

/// The header of a source: the pragmas for LANGUAGE, the `module` line and the imports. Nothing is read past the first
/// lexeme that follows the imports.
///
/// Errors: the first place at which no lexeme begins, where all lexemes before it are the header's; the lexeme with which
/// the header's grammar is left; an extension that isn't known; want of memory.
pub fn read_header(alloc: Global, source: &[u8]) -> Result<Header, HeaderErr>
    requires { length source.now ≤ 1048576 }
    ensures ok { IfOk result (λ h. IsHeaderOf source.now h) }
    ensures lexeme { (at : Pos) → result ≡ Err (HeaderErr.Lexeme at) → IsBadAt source.now at }
    ensures grammar { (at : Pos) → result ≡ Err (HeaderErr.Grammar at) → IsNoneAt source.now at }
    ensures unknown { (at : Pos) (name : List ℕ) → result ≡ Err (HeaderErr.Extension at name) → IsUnknownAt source.now at name }
{
    header_in(alloc, source)
}
