//! How deep the lexemes of a source nest.
ghost use Rattle.std.specs.Prelude.{◌≡◌, ◌≤◌, ◌↔◌, [], ◌∷◌, IsTrue};
ghost use Rattle.hs_nesting.specs.Nesting as spec;

use hs_syntax::sign::{Sign, sign_of};
use hs_syntax::token::Token;
use mk_base::place::Pos;
use std::marker::Model;

/// How much may nest.
const MOST: usize = 500;

/// What a lexeme is to nesting.
#[derive(Clone, Copy)]
pub enum Role {
    /// An opening bracket or brace.
    Opens,
    /// A closing bracket or brace.
    Closes,
    /// `;`, `,` or `|`
    Separates,
    /// A word or an operator that counts.
    Counts,
    /// A backquote, of which the first of a pair counts.
    Quotes,
    Nothing,
}

/// What a lexeme is to nesting.
fn role_of(sign: Sign) -> Role
    ensures { result ≡ spec.role_of sign }
{
    match sign {
        Sign::OpenBrace(_) => Role::Opens,
        Sign::OpenParen => Role::Opens,
        Sign::OpenSquare => Role::Opens,
        Sign::CloseBrace(_) => Role::Closes,
        Sign::CloseParen => Role::Closes,
        Sign::CloseSquare => Role::Closes,
        Sign::Semicolon => Role::Separates,
        Sign::Comma => Role::Separates,
        Sign::Bar => Role::Separates,
        Sign::Lambda => Role::Counts,
        Sign::Let => Role::Counts,
        Sign::If => Role::Counts,
        Sign::Case => Role::Counts,
        Sign::Do => Role::Counts,
        Sign::Tilde => Role::Counts,
        Sign::As => Role::Counts,
        Sign::Arrow => Role::Counts,
        Sign::VarSym => Role::Counts,
        Sign::Minus => Role::Counts,
        Sign::Bang => Role::Counts,
        Sign::Star => Role::Counts,
        Sign::QualifiedVarSym => Role::Counts,
        Sign::ConSym => Role::Counts,
        Sign::QualifiedConSym => Role::Counts,
        Sign::Colon => Role::Counts,
        Sign::Backquote => Role::Quotes,
        _ => Role::Nothing,
    }
}

/// Whether a backquote is open behind a lexeme.
fn quoted_behind(role: Role, quoted: bool) -> bool
    ensures { result ≡ spec.quoted_behind role quoted }
{
    match role {
        Role::Quotes => !quoted,
        _ => quoted,
    }
}

/// What each open level counts, which contracts see as a list, the innermost level first.
#[derive(Drop)]
struct Levels {
    /// What each level counts; the outermost level has the last place.
    counts: [usize; 501],
    /// The place of the innermost level.
    innermost: usize,
    /// The open brackets, and what all levels count.
    depth: usize,
}

impl Model for Levels {
    ghost use Rattle.std.specs.Prelude.{List, ℕ, ◌≡◌, ◌≤◌, drop};
    ghost use Rattle.hs_nesting.specs.Nesting as spec;

    ghost Value = { List ℕ };

    ghost view = { λ it. drop it.innermost it.counts };

    ghost invariant = { λ it. (it.innermost ≤ 500) × ((it.depth ≡ spec.depth (drop it.innermost it.counts)) × (it.depth ≤ 500)) };
}

impl Levels {
    /// The outermost level alone.
    fn new() -> Levels
        ensures { result ≡ 0 ∷ [] }
    {
        Levels {
            counts: [0; 501],
            innermost: MOST,
            depth: 0,
        }
    }

    /// Whether the levels are as deep as they may be.
    fn is_full(&self) -> bool
        ensures { IsTrue result ↔ (spec.depth self.now ≡ 500) }
    {
        self.depth == MOST
    }

    /// Opens a level; false, with nothing changed, where that is too deep.
    fn open(&mut self) -> bool
        ensures fits { result ≡ spec.fits (0 ∷ self.old) }
        ensures levels { IsTrue result → self.new ≡ 0 ∷ self.old }
    {
        if self.is_full() {
            return false;
        }
        self.innermost -= 1;
        self.counts[self.innermost] = 0;
        self.depth += 1;
        true
    }

    /// Closes the innermost level; the outermost stays.
    fn close(&mut self)
        ensures fits { spec.depth self.new ≤ 500 }
        ensures levels { self.new ≡ spec.closed self.old }
    {
        if self.innermost < MOST {
            self.depth -= 1 + self.counts[self.innermost];
            self.innermost += 1;
        }
    }

    /// Lets the innermost level count anew.
    fn separate(&mut self)
        ensures fits { spec.depth self.new ≤ 500 }
        ensures levels { self.new ≡ spec.separated self.old }
    {
        self.depth -= self.counts[self.innermost];
        self.counts[self.innermost] = 0;
    }

    /// Counts one more at the innermost level; false, with nothing changed, where that is too deep.
    fn count(&mut self) -> bool
        ensures fits { result ≡ spec.fits (spec.counted self.old) }
        ensures levels { IsTrue result → self.new ≡ spec.counted self.old }
    {
        if self.is_full() {
            return false;
        }
        self.counts[self.innermost] += 1;
        self.depth += 1;
        true
    }

    /// Takes a lexeme; false where the levels behind it are too deep.
    fn take(&mut self, role: Role, quoted: bool) -> bool
        requires { spec.depth self.old ≤ 500 }
        ensures fits { result ≡ spec.fits (spec.levels_behind role quoted self.old) }
        ensures levels { IsTrue result → self.new ≡ spec.levels_behind role quoted self.old }
    {
        match role {
            Role::Opens => self.open(),
            Role::Closes => {
                self.close();
                true
            }
            Role::Separates => {
                self.separate();
                true
            }
            Role::Counts => self.count(),
            Role::Quotes => quoted || self.count(),
            Role::Nothing => true,
        }
    }
}

/// The place of the first lexeme at which nesting passes 500; None exactly where there is none.
///
/// Each open bracket or brace counts 1, written or put by layout, and each level counts its words
/// `` \ let if case do ~ @ -> `` and its operators since its last `;`, `,` or `|`. An operator counts at its lexeme, also
/// in parentheses, and a name in backquotes at the first of them. A closing bracket closes the innermost level, whatever
/// its sort. It takes no memory.
pub fn nesting(tokens: &[Token]) -> Option<Pos>
    ensures { result ≡ spec.nesting tokens.now }
{
    let mut levels = Levels::new();
    let mut quoted = false;
    for token in tokens {
        let role = role_of(sign_of(token));
        if !levels.take(role, quoted) {
            return Some(token.at);
        }
        quoted = quoted_behind(role, quoted);
    }
    None
}

/// Nesting passes 500 nowhere exactly where the levels fit behind each beginning of a source, and else at the first
/// lexeme behind which they don't; so what begins a source nests no deeper than the source.
pub fn nesting_passes_first()
    ensures nowhere { spec.PassesNowhere }
    ensures first { spec.PassesFirst }
    ensures fronts { spec.FrontsNestNoDeeper }
{}
