//! The one pass over the tokens.
ghost use Rattle.std.specs.Prelude.{◌≡◌, [], ◌∷◌, ◌++◌, map, false, IfOk, OnOk, nat_lt, ◌+◌};
ghost use Rattle.hs_layout.specs.Follows.{Follows};
ghost use Rattle.hs_layout.specs.Roles.{role_of};
ghost use Rattle.hs_layout.specs.Braced.{bars_opening, opening_at, at_mark, is_semicolon, ends_in_semicolon, behind_semicolon, marked, before, opener, is_semicolon_role, behind_token, behind_pragma, end_of, state_behind, spot_of, put_token, pieces, after, at_last, at_end, braced};

use crate::frame::Context;
use crate::frames::Frames;
use crate::look::Target;
use crate::role::{Role, is_branch, role_of};
use crate::rules::{at_lexeme, at_line, at_opening, behind_lexeme, down_to, renew};
use crate::state::{Spot, State, newlines, start};
use hs_syntax::token::{PutSign, Token, TokenKind};
use mk_base::list::List;
use mk_base::memory::NoMemory;
use mk_base::plain::Plain;
use mk_base::text::Text;
use std::alloc::Global;

/// Whether no block opens at a lexeme: at a written brace, and at the header of a module.
fn bars_opening(context: Context, role: Role) -> bool
    ensures { result ≡ bars_opening context role }
{
    match role {
        Role::OpenBrace => true,
        Role::Module => context == Context::Start,
        _ => false,
    }
}

/// The block that opens at a lexeme.
fn opening_at(opens: Option<Context>, role: Role) -> Option<Context>
    ensures { result ≡ opening_at opens role }
{
    match opens {
        Some(context) => {
            if bars_opening(context, role) {
                None
            } else {
                Some(context)
            }
        }
        None => None,
    }
}

/// The signs before a lexeme that opens a block or a line.
fn at_mark(
    alloc: Global,
    opening: Option<Context>,
    first: bool,
    column: u32,
    keep: bool,
    frames: &mut Frames,
    signs: &mut Vec<PutSign>,
) -> Result<(), NoMemory>
    ensures { OnOk result (Follows (at_mark opening first column keep frames.old) frames.new signs.old.items signs.new.items) }
{
    match opening {
        Some(context) => at_opening(alloc, context, column, keep, frames, signs),
        None => {
            if first {
                at_line(alloc, column, keep, frames, signs)
            } else {
                Ok(())
            }
        }
    }
}

/// Whether a sign is a semicolon.
fn is_semicolon(sign: PutSign) -> bool
    ensures { result ≡ is_semicolon sign }
{
    match sign {
        PutSign::Semicolon => true,
        _ => false,
    }
}

/// Whether the last sign is a semicolon.
fn ends_in_semicolon(signs: &[PutSign]) -> bool
    ensures { result ≡ ends_in_semicolon false signs.now }
{
    let mut found = false;
    for sign in signs {
        found = is_semicolon(*sign);
    }
    found
}

/// Whether a lexeme in this line is the first of it.
fn is_first(state: &State, line: u32) -> bool
    ensures { result ≡ nat_lt (state.now.line + state.now.breaks) line }
{
    line > state.line && (line - state.line) as usize > state.breaks
}

/// The frames behind a semicolon of the source.
fn behind_semicolon(
    alloc: Global,
    semicolon: bool,
    keep: bool,
    frames: &mut Frames,
) -> Result<(), NoMemory>
    ensures { OnOk result (frames.new ≡ behind_semicolon semicolon keep frames.old) }
{
    if semicolon {
        renew(alloc, keep, frames)?;
    }
    Ok(())
}

/// The context that opens behind a lexeme.
fn opener(role: Role) -> Option<Context>
    ensures { result ≡ opener role }
{
    match role {
        Role::Let => Some(Context::Let),
        Role::Where => Some(Context::Where),
        Role::Do => Some(Context::Do),
        Role::Of => Some(Context::Of),
        _ => None,
    }
}

/// Whether a lexeme is a semicolon.
fn is_semicolon_role(role: Role) -> bool
    ensures { result ≡ is_semicolon_role role }
{
    match role {
        Role::Semicolon => true,
        _ => false,
    }
}

/// A sign that is put.
fn put_token(alloc: Global, spot: Spot, sign: PutSign) -> Token
    ensures { result ≡ put_token spot sign }
{
    Token {
        kind: TokenKind::Special,
        text: Text::new(alloc),
        start: spot.byte,
        end: spot.byte,
        at: spot.at,
        put: Some(sign),
    }
}

/// Puts the signs behind the tokens so far.
fn put_signs(
    alloc: Global,
    spot: Spot,
    signs: &[PutSign],
    out: &mut List<Token>,
) -> Result<(), NoMemory>
    ensures { OnOk result (out.new ≡ out.old ++ map (put_token spot) signs.now) }
{
    for sign in signs {
        out.push(put_token(alloc, spot, *sign))?;
    }
    Ok(())
}

/// The signs before a lexeme, and the frames before it.
fn before(
    alloc: Global,
    token: &Token,
    role: Role,
    state: &mut State,
    signs: &mut Vec<PutSign>,
) -> Result<(), NoMemory>
    requires { signs.old.items ≡ [] }
    ensures { OnOk result ((signs.new.items ≡ (before state.old token.now role).puts) × (state.new ≡ record state.old { frames = (before state.old token.now role).frames })) }
{
    let column = token.at.col;
    let keep = is_branch(role);
    let first = is_first(state, token.at.line);
    let opening = opening_at(state.opens, role);
    behind_semicolon(alloc, state.semicolon, keep, &mut state.frames)?;
    at_mark(
        alloc,
        opening,
        first,
        column,
        keep,
        &mut state.frames,
        signs,
    )?;
    let semicolon = ends_in_semicolon(signs);
    at_lexeme(alloc, role, semicolon, column, &mut state.frames, signs)
}

/// Where the signs stand that are put at the end of the input, where this token is the last one.
fn end_of(token: &Token) -> Spot
    ensures { result ≡ end_of token.now }
{
    Spot {
        at: token.at,
        byte: token.end,
    }
}

/// The state behind a lexeme.
fn behind(alloc: Global, token: &Token, role: Role, state: &mut State) -> Result<(), NoMemory>
    ensures { OnOk result (state.new ≡ behind_token state.old.frames token.now role) }
{
    behind_lexeme(alloc, role, &mut state.frames)?;
    state.opens = opener(role);
    state.semicolon = is_semicolon_role(role);
    state.line = token.at.line;
    state.breaks = newlines(token.text.as_slice());
    state.end = end_of(token);
    Ok(())
}

/// A lexeme, with the signs before it.
fn take_lexeme(
    alloc: Global,
    token: &Token,
    state: &mut State,
    out: &mut List<Token>,
) -> Result<(), NoMemory>
    ensures { OnOk result ((state.new ≡ state_behind state.old token.now (role_of token.now)) × (out.new ≡ out.old ++ (map (put_token (spot_of token.now)) (before state.old token.now (role_of token.now)).puts ++ token.now ∷ []))) }
{
    let role = role_of(token);
    let mut signs = Vec::new(alloc);
    before(alloc, token, role, state, &mut signs)?;
    let spot = Spot {
        at: token.at,
        byte: token.start,
    };
    put_signs(alloc, spot, &signs, out)?;
    out.push(token.copy(alloc)?)?;
    behind(alloc, token, role, state)
}

/// A pragma, as it stands.
fn take_pragma(
    alloc: Global,
    token: &Token,
    state: &mut State,
    out: &mut List<Token>,
) -> Result<(), NoMemory>
    ensures { OnOk result ((state.new ≡ behind_pragma state.old token.now) × (out.new ≡ out.old ++ token.now ∷ [])) }
{
    out.push(token.copy(alloc)?)?;
    state.end = end_of(token);
    Ok(())
}

/// Puts a token behind `out`: a pragma as it stands, and a lexeme with the signs before it. For who reads the lexemes
/// of a source one after another: the state begins with that of `start`, and `finish` puts the signs at the end.
pub fn take_token(
    alloc: Global,
    token: &Token,
    state: &mut State,
    out: &mut List<Token>,
) -> Result<(), NoMemory>
    ensures { OnOk result ((state.new ≡ after state.old token.now) × (out.new ≡ out.old ++ pieces state.old token.now)) }
{
    match token.kind {
        TokenKind::Pragma => take_pragma(alloc, token, state, out),
        _ => take_lexeme(alloc, token, state, out),
    }
}

/// Puts the signs at the end of the input behind `out`.
pub fn finish(alloc: Global, state: State, out: &mut List<Token>) -> Result<(), NoMemory>
    ensures { OnOk result (out.new ≡ out.old ++ map (put_token state.end) (at_end state).puts) }
{
    let State {
        mut frames,
        opens,
        semicolon: _,
        line: _,
        breaks: _,
        end,
    } = state;
    let mut signs = Vec::new(alloc);
    if let Some(context) = opens {
        at_opening(alloc, context, 0, false, &mut frames, &mut signs)?;
    }
    down_to(Target::End, &mut frames, &mut signs)?;
    put_signs(alloc, end, &signs, out)
}

/// The tokens with the braces and semicolons that stand for lines and indentation (Haskell 2010 Report, section 10.3).
///
/// Lines and columns count from 1, bytes from 0. A sign that is put has kind Special and no text; it stands where the
/// next lexeme begins. At the end of the input it has the place of the last token, be that a pragma, and stands where
/// that ends; where there is no token, at 1:1 and byte 0. A pragma is passed on as if it weren't there. Nothing is refused: a bracket or a word that nothing waits for closes nothing.
pub fn braced(alloc: Global, tokens: &List<Token>) -> Result<List<Token>, NoMemory>
    ensures { IfOk result (λ r. r ≡ braced tokens.now) }
{
    let mut out = List::new(alloc);
    let mut state = start(alloc)?;
    for token in tokens.as_slice() {
        take_token(alloc, token, &mut state, &mut out)?;
    }
    finish(alloc, state, &mut out)?;
    Ok(out)
}
