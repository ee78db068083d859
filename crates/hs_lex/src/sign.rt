//! Operators, line comments, special characters and blanks.
ghost use Rattle.std.specs.Prelude.{◌≡◌, ◌↔◌, IsTrue, false};
ghost use Rattle.source_text.specs.Characters.{characters};
ghost use Rattle.hs_lex.specs.Reading.{Ends, Reads};
ghost use Rattle.hs_lex.specs.Lexemes.{IsDashes, IsOperator, IsLineComment, EndsLine, IsOne, IsSpecial};

use crate::class::{Class, Part, class_of, is_in};
use crate::run::run;
use source_text::character::next_char;

/// Whether a character of the part stands at the front.
pub fn begins(part: Part, bytes: &[u8]) -> bool
    ensures yes { IsTrue result → Ends part (characters bytes.now) → ⊥ }
    ensures no { result ≡ false → Ends part (characters bytes.now) }
{
    match next_char(bytes) {
        Some((c, _)) => is_in(part, c),
        None => false,
    }
}

/// What follows two or more dashes with no symbol behind them.
fn dashes_at(bytes: &[u8]) -> Option<&[u8]>
    ensures { Reads (λ l r. IsDashes l × Ends Part.Symbol r) (characters bytes.now) result }
{
    let Some((c, after)) = next_char(bytes) else {
        return None;
    };
    if c != 45 {
        return None;
    }
    let Some((d, _)) = next_char(after) else {
        return None;
    };
    if d != 45 {
        return None;
    }
    let rest = run(Part::Dash, bytes);
    if begins(Part::Symbol, rest) {
        return None;
    }
    Some(rest)
}

/// Whether a line ends here.
fn ends_line(bytes: &[u8]) -> bool
    ensures { IsTrue result ↔ EndsLine (characters bytes.now) }
{
    match next_char(bytes) {
        Some((c, _)) => c == 10 || (c == 12 || c == 13),
        None => true,
    }
}

/// What follows a line comment.
pub fn line_comment_at(bytes: &[u8]) -> Option<&[u8]>
    ensures { Reads IsLineComment (characters bytes.now) result }
{
    let Some(line) = dashes_at(bytes) else {
        return None;
    };
    let rest = run(Part::Comment, line);
    if !ends_line(rest) {
        return None;
    }
    Some(rest)
}

/// What follows an operator.
pub fn operator_at(bytes: &[u8]) -> Option<&[u8]>
    ensures { Reads IsOperator (characters bytes.now) result }
{
    if !begins(Part::Symbol, bytes) {
        return None;
    }
    if let Some(_) = dashes_at(bytes) {
        return None;
    }
    Some(run(Part::Symbol, bytes))
}

/// What follows a special character; a brace before a dash is none.
pub fn special_at(bytes: &[u8]) -> Option<&[u8]>
    ensures { Reads IsSpecial (characters bytes.now) result }
{
    let Some((c, after)) = next_char(bytes) else {
        return None;
    };
    match class_of(c) {
        Class::Special => {}
        _ => return None,
    }
    if c != 123 {
        return Some(after);
    }
    if begins(Part::Dash, after) {
        return None;
    }
    Some(after)
}
