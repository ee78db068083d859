//! Where a reading of a source stands, and one item further.
ghost use Rattle.std.specs.Prelude.{◌≡◌, ◌↔◌, ◌≤◌, ◌<◌, ◌-◌, ◌+◌, ◌*◌, ◌^◌, IsTrue, IfOk, OnOk, ◌++◌, List, ℕ, length, take, drop, MatchOption};
ghost use Rattle.source_text.specs.Characters.{characters};
ghost use Rattle.hs_lex.specs.Items.{NoItem};
ghost use Rattle.hs_lex.specs.Tokens.{IsReached, IsToken, IsTurn, IsTaken, IsWithin, ahead, start, behind_token, position, token_at, tokens_at};

use crate::item::{Kind, is_lexeme, item_at};
use crate::pragma::is_pragma;
use crate::token_kind::kind_of;
use crate::words::is_import;
use hs_syntax::token::{Token, TokenKind};
use mk_base::list::List;
use mk_base::memory::NoMemory;
use mk_base::place::Pos;
use mk_base::text::Text;
use source_text::character::text_between;
use source_text::place::{Place, advance};
use std::alloc::Global;

/// Which pragmas count: before the first other lexeme those for LANGUAGE, directly behind `import` one for SOURCE,
/// and none later.
#[derive(Clone, Copy, Debug, PartialEq, Eq)]
pub enum Stage {
    Front,
    Import,
    Later,
}

/// Where a reading stands: behind so many bytes of the source, at a place, and at a stage.
#[derive(Clone, Copy, Debug, PartialEq, Eq)]
pub struct Cursor {
    pub at: usize,
    pub place: Place,
    pub stage: Stage,
}

/// One item read: the kind of lexeme that it is, if it's one, and the cursor behind it.
#[derive(Clone, Copy, Debug, PartialEq, Eq)]
pub struct Turn {
    pub kind: Option<TokenKind>,
    pub to: Cursor,
}

/// How many bytes a leading U+FEFF takes, where one stands there.
fn mark_length(source: &[u8]) -> usize
    ensures { result ≡ (start source.now).at }
{
    if source.starts_with(b"\xEF\xBB\xBF") {
        3
    } else {
        0
    }
}

/// The first cursor of a source: behind a leading U+FEFF, in line 1 and column 1.
pub fn start(source: &[u8]) -> Cursor
    ensures is { result ≡ start source.now }
    ensures reached { IsReached source.now result }
{
    Cursor {
        at: mark_length(source),
        place: Place {
            line: 1,
            column: 1,
            after_return: false,
        },
        stage: Stage::Front,
    }
}

/// The line and the column of a place.
pub fn position(place: Place) -> Pos
    ensures { result ≡ position place }
{
    Pos {
        line: place.line,
        col: place.column,
    }
}

/// Whether an item is a lexeme at the stage.
fn is_token(stage: Stage, kind: Kind, text: &[u8]) -> bool
    ensures { IsTrue result ↔ IsToken stage kind (characters text.now) }
{
    match kind {
        Kind::NestedComment => is_pragma(stage, text),
        _ => is_lexeme(kind),
    }
}

/// The stage behind a lexeme.
fn behind_token(stage: Stage, kind: Kind, text: &[u8]) -> Stage
    ensures { result ≡ behind_token stage kind (characters text.now) }
{
    match (stage, kind) {
        (Stage::Front, Kind::NestedComment) => Stage::Front,
        _ => {
            if is_import(text) {
                Stage::Import
            } else {
                Stage::Later
            }
        }
    }
}

/// The turn over an item with this text.
fn turn_over(cursor: Cursor, kind: Kind, text: &[u8]) -> Turn
    requires line { cursor.place.line + length text.now + 1 < 2 ^ 32 }
    requires column { cursor.place.column + 8 * length text.now + 8 < 2 ^ 32 }
    requires at { cursor.at + length text.now < 2 ^ 32 }
    ensures { IsTurn cursor kind (characters text.now) result }
{
    let at = cursor.at + text.len();
    let place = advance(cursor.place, text);
    if !is_token(cursor.stage, kind, text) {
        let to = Cursor {
            at,
            place,
            stage: cursor.stage,
        };
        return Turn { kind: None, to };
    }
    let stage = behind_token(cursor.stage, kind, text);
    Turn {
        kind: Some(kind_of(kind, text)),
        to: Cursor { at, place, stage },
    }
}

/// The turn over the item that stands at the cursor; none where nothing begins or the source is at its end.
pub fn turn_at(source: &[u8], cursor: Cursor) -> Option<Turn>
    requires size { length source.now ≤ 1048576 }
    requires within { IsWithin source.now cursor }
    ensures { MatchOption result (NoItem (ahead source.now cursor)) (λ t. IsTaken source.now cursor t) }
{
    let rest = &source[cursor.at..];
    match item_at(rest) {
        Some((kind, after)) => Some(turn_over(cursor, kind, text_between(rest, after))),
        None => None,
    }
}

/// The token of a kind between two cursors.
pub fn token_at(
    alloc: Global,
    source: &[u8],
    from: Cursor,
    kind: TokenKind,
    to: Cursor,
) -> Result<Token, NoMemory>
    requires size { length source.now ≤ 1048576 }
    requires order { from.at ≤ to.at }
    requires within { to.at ≤ length source.now }
    ensures { IfOk result (λ t. t ≡ token_at source.now from kind to) }
{
    let text = Text::from_slice(alloc, &source[from.at..to.at])?;
    Ok(Token {
        kind,
        text,
        start: from.at as u32,
        end: to.at as u32,
        at: position(from.place),
        put: None,
    })
}

/// Puts the token of a turn at the end, where it has one.
pub fn push_turn(
    alloc: Global,
    source: &[u8],
    from: Cursor,
    turn: Turn,
    tokens: &mut List<Token>,
) -> Result<(), NoMemory>
    requires size { length source.now ≤ 1048576 }
    requires order { from.at ≤ turn.to.at }
    requires within { turn.to.at ≤ length source.now }
    ensures { OnOk result (tokens.new ≡ tokens.old ++ tokens_at source.now from turn.kind turn.to) }
{
    match turn.kind {
        Some(kind) => tokens.push(token_at(alloc, source, from, kind, turn.to)?),
        None => Ok(()),
    }
}
