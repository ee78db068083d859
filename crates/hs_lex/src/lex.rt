//! The lexemes of a source.
ghost use Rattle.std.specs.Prelude.{◌≡◌, ◌↔◌, ◌⊎◌, ◌++◌, ◌∷◌, ◌≤◌, List, [], ℕ, true, false, codes, length, drop, map, IfOk, MatchOption, Ok, Err, Some, None};
ghost use Rattle.source_text.specs.Characters.{characters};
ghost use Rattle.mk_base.specs.declared.place.Pos.{Pos};
ghost use Rattle.hs_syntax.specs.declared.token.Token.{Token};
ghost use Rattle.hs_syntax.specs.Rising.{AreRising};
ghost use Rattle.hs_lex.specs.declared.item.Kind.{Kind};
ghost use Rattle.hs_lex.specs.declared.cursor.Cursor.{Cursor};
ghost use Rattle.hs_lex.specs.declared.cursor.Stage.{Stage};
ghost use Rattle.hs_lex.specs.Items.{Is, IsItem, NoItem, Leads};
ghost use Rattle.hs_lex.specs.Tokens.{Lexes, IsFirstBad, IsReached, IsNext, IsBlank, IsBadFrom, IsPlace, IsRead, IsStuck, IsToken, Tokens, ahead};
ghost use Rattle.hs_lex.specs.Tokens as tokens;
ghost use Rattle.hs_lex.specs.Answers.{IsAnswered, AnswersExclude};
ghost use Rattle.hs_lex.specs.Deciding.{is, is_token};
ghost use Rattle.hs_lex.specs.Slow.{item_at, lexemes_of, read_source};

use crate::cursor::{Cursor, Turn, position, push_turn, start, token_at, turn_at};
use hs_syntax::token::{Token, TokenKind};
use mk_base::list::List as TokenList;
use mk_base::place::Pos;
use std::alloc::Global;
use thiserror::Error;

/// Why a source has no lexemes.
#[derive(Clone, Copy, Debug, PartialEq, Eq, Drop, Error)]
pub enum LexErr {
    /// Neither white space nor a comment nor a lexeme begins at this place, and none did at an earlier one.
    #[error("no lexeme begins here")]
    NoLexeme(Pos),
    /// Memory ran out.
    #[error("out of memory")]
    NoMemory,
}

/// The lexemes of the source, in order.
pub fn lex(alloc: Global, source: &[u8]) -> Result<TokenList<Token>, LexErr>
    requires { length source.now ≤ 1048576 }
    ensures ok { IfOk result (λ ts. Lexes source.now ts) }
    ensures bad { (at : Pos) → result ≡ Err (LexErr.NoLexeme at) → IsFirstBad source.now at }
{
    let mut tokens = TokenList::new(alloc);
    let mut cursor = start(source);
    while let Some(turn) = turn_at(source, cursor) {
        match push_turn(alloc, source, cursor, turn, &mut tokens) {
            Ok(()) => cursor = turn.to,
            Err(_) => return Err(LexErr::NoMemory),
        }
    }
    if cursor.at == source.len() {
        return Ok(tokens);
    }
    Err(LexErr::NoLexeme(position(cursor.place)))
}

/// The first lexeme behind a cursor that was reached from the start, and the cursor behind it; none where only white
/// space and comments follow.
pub fn read(alloc: Global, source: &[u8], cursor: Cursor) -> Result<Option<(Token, Cursor)>, LexErr>
    requires size { length source.now ≤ 1048576 }
    requires reached { IsReached source.now cursor }
    ensures found { (t : Token) (c : Cursor) → result ≡ Ok (Some (t, c)) → IsNext source.now cursor t c }
    ensures reached { (t : Token) (c : Cursor) → result ≡ Ok (Some (t, c)) → IsReached source.now c }
    ensures none { result ≡ Ok None → IsBlank source.now cursor }
    ensures bad { (at : Pos) → result ≡ Err (LexErr.NoLexeme at) → IsBadFrom source.now cursor at }
{
    let mut here = cursor;
    while let Some(turn) = turn_at(source, here) {
        if let Some(kind) = turn.kind {
            return match token_at(alloc, source, here, kind, turn.to) {
                Ok(token) => Ok(Some((token, turn.to))),
                Err(_) => Err(LexErr::NoMemory),
            };
        }
        here = turn.to;
    }
    if here.at == source.len() {
        return Ok(None);
    }
    Err(LexErr::NoLexeme(position(here.place)))
}

/// The cursor behind the first `at` bytes of the source, where these are 0 or end with some item of the reading.
pub fn cursor_at(source: &[u8], at: usize) -> Cursor
    requires size { length source.now ≤ 1048576 }
    requires place { (c : Cursor) × IsPlace source.now at c }
    ensures { (c : Cursor) → IsPlace source.now at c → c ≡ result }
{
    let mut cursor = start(source);
    while cursor.at < at {
        match turn_at(source, cursor) {
            Some(turn) => cursor = turn.to,
            None => return cursor,
        }
    }
    cursor
}

/// The first lexeme from the byte `at` on, which is 0 or the one behind some item of the reading; none where only white
/// space and comments follow. It reads the source from its start: for one lexeme after another use `read`.
pub fn next_token(alloc: Global, source: &[u8], at: usize) -> Result<Option<Token>, LexErr>
    requires size { length source.now ≤ 1048576 }
    requires place { (c : Cursor) × IsPlace source.now at c }
    ensures found { (c : Cursor) (t : Token) → IsPlace source.now at c → result ≡ Ok (Some t) → (d : Cursor) × IsNext source.now c t d }
    ensures none { (c : Cursor) → IsPlace source.now at c → result ≡ Ok None → IsBlank source.now c }
    ensures bad { (c : Cursor) (place : Pos) → IsPlace source.now at c → result ≡ Err (LexErr.NoLexeme place) → IsBadFrom source.now c place }
{
    match read(alloc, source, cursor_at(source, at)) {
        Ok(Some((token, _))) => Ok(Some(token)),
        Ok(None) => Ok(None),
        Err(LexErr::NoLexeme(place)) => Err(LexErr::NoLexeme(place)),
        Err(LexErr::NoMemory) => Err(LexErr::NoMemory),
    }
}

/// Of what `next_token` may answer behind a cursor one holds, and no two hold together.
pub fn next_token_answers_once()
    ensures one { (source : List ℕ) (c : Cursor) → IsAnswered source c }
    ensures apart { (source : List ℕ) (c : Cursor) → AnswersExclude source c }
{}

/// A source has one list of lexemes.
pub fn lexemes_are_unique()
    ensures { (source : List ℕ) (ts us : List Token) → Lexes source ts → Lexes source us → ts ≡ us }
{}

/// A source has one first place at which nothing begins.
pub fn first_bad_is_unique()
    ensures { (source : List ℕ) (a b : Pos) → IsFirstBad source a → IsFirstBad source b → a ≡ b }
{}

/// No source has both.
pub fn lexes_or_not()
    ensures { (source : List ℕ) (ts : List Token) (a : Pos) → Lexes source ts → IsFirstBad source a → ⊥ }
{}

/// Each lexeme stands before those that follow it: on an earlier line, or further left on the same line.
pub fn lexemes_rise()
    ensures { (source : List ℕ) (ts : List Token) → Lexes source ts → AreRising (map (λ (t : Token). t.at) ts) }
{}

/// Behind the bytes of some items stands what follows them.
pub fn items_lead_to_bytes()
    ensures { (source : List ℕ) (is : List (Kind × List ℕ)) (c d : Cursor) (ts : List Token) (rest : List ℕ) → Leads is (ahead source c) rest → Tokens source c is ts d → ahead source d ≡ rest }
{}

/// The tests of a text tell its kinds and whether it is a lexeme, and the slow search finds the item that stands at a
/// place, or that none does.
pub fn items_are_decided()
    ensures kind { (k : Kind) (l rest : List ℕ) → (is k l rest ≡ true) ↔ Is k l rest }
    ensures lexeme { (s : Stage) (k : Kind) (l : List ℕ) → (is_token s k l ≡ true) ↔ IsToken s k l }
    ensures item { (cs : List ℕ) → MatchOption (item_at cs) (NoItem cs) (λ i. (rest : List ℕ) × IsItem i.0 i.1 cs rest) }
{}

/// The lexemes of a source are those that the slow function reads, and its first bad place is the one that it finds.
pub fn reading_is_lexing()
    ensures lexes { (source : List ℕ) (ts : List Token) → (read_source source ≡ Ok ts) ↔ Lexes source ts }
    ensures bad { (source : List ℕ) (at : Pos) → (read_source source ≡ Err at) ↔ IsFirstBad source at }
{}

/// The lexemes that are kept are those of the source where it has no bad place, and else those before its first one.
pub fn kept_lexemes_are_read()
    ensures whole { (source : List ℕ) (ts : List Token) → (lexemes_of source ≡ (ts, None)) ↔ Lexes source ts }
    ensures bad { (source : List ℕ) (ts : List Token) (at : Pos) → (lexemes_of source ≡ (ts, Some at)) ↔ ((is : List (Kind × List ℕ)) × (d : Cursor) × IsRead source (tokens.start source) is ts d × IsStuck source d at) }
{}

/// Each source has lexemes, or a first place at which nothing begins.
pub fn every_source_is_read()
    ensures { (source : List ℕ) → ((ts : List Token) × Lexes source ts) ⊎ ((at : Pos) × IsFirstBad source at) }
{}

/// A name behind a blank, and a string that isn't closed, as the slow function reads them.
pub fn short_sources_are_read()
    ensures name { read_source (codes " x") ≡ Ok (record { kind = TokenKind.VarId; text = codes "x"; start = 1; end = 2; at = record { line = 1; col = 2 }; put = None } ∷ []) }
    ensures string { read_source (codes "a \"b") ≡ Err (record { line = 1; col = 3 }) }
{}
