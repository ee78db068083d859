//! The frames of layout: what is open where a lexeme stands.
ghost use Rattle.std.specs.Prelude.{◌≡◌};
ghost use Rattle.hs_layout.specs.Frames.{is_block, is_put, nothing_seen, is_nothing, is_unseen, is_renewed, more_names, other_lead, lead_after, see, not_plain, takes_comma};

use crate::notes::Notes;
use crate::role::Role;

/// What encloses a lexeme: nothing, written braces, or a block whose brace is put, by the word that opened it.
///
/// Start is the block of a module without a header.
#[derive(Clone, Copy, PartialEq, Eq)]
pub enum Context {
    Outside,
    Brace,
    Start,
    Let,
    Where,
    Do,
    Of,
}

/// What a frame is: a context itself, or a parenthesis or a bracket in one.
#[derive(Clone, Copy, PartialEq, Eq)]
pub enum Sort {
    Context,
    Paren,
    Bracket,
}

/// A word that waits for another: `case` for `of`, `if` for `then`, then that for `else`, and `let` for `in`.
#[derive(Clone, Copy, PartialEq, Eq)]
pub enum Note {
    Case,
    If,
    Then,
    Let,
}

/// What the lexemes directly in a frame are, since its last semicolon.
///
/// Names: only variables, operators in parentheses and commas. Operator: one operator alone. Fixity: the first is
/// `infix`, `infixl` or `infixr`.
#[derive(Clone, Copy, PartialEq, Eq)]
pub enum Lead {
    Nothing,
    Names,
    Operator,
    Fixity,
    Other,
}

/// What came directly in a frame since its last semicolon.
#[derive(Clone, Copy, PartialEq, Eq)]
pub struct Seen {
    pub lead: Lead,
    /// A bar.
    pub bar: bool,
    /// A bar, with no equals sign or arrow since.
    pub guard: bool,
    /// An equals sign or an arrow, with no bar before it.
    pub body: bool,
    /// An equals sign, with no bar since.
    pub bound: bool,
    /// An equals sign, with no lambda and no double colon since.
    pub plain: bool,
}

/// A frame, with the notes above it and below the next frame.
#[derive(Drop)]
pub struct Frame {
    pub sort: Sort,
    /// The context itself, or the one in which the parenthesis or bracket stands.
    pub context: Context,
    /// The indentation of that context, counted as columns are, from 1; 0 where it is no block.
    pub column: u32,
    pub notes: Notes,
    pub seen: Seen,
}

/// Whether a context is a block whose brace is put.
pub fn is_block(context: Context) -> bool
    ensures { result ≡ is_block context }
{
    match context {
        Context::Outside => false,
        Context::Brace => false,
        _ => true,
    }
}

/// Whether a frame is itself a block whose brace is put.
pub fn is_put(frame: &Frame) -> bool
    ensures { result ≡ is_put frame.now }
{
    match frame.sort {
        Sort::Context => is_block(frame.context),
        _ => false,
    }
}

/// What a frame has seen where nothing has come yet.
pub fn nothing_seen() -> Seen
    ensures { result ≡ nothing_seen }
{
    Seen {
        lead: Lead::Nothing,
        bar: false,
        guard: false,
        body: false,
        bound: false,
        plain: false,
    }
}

/// Whether no lexeme has come yet.
fn is_nothing(lead: Lead) -> bool
    ensures { result ≡ is_nothing lead }
{
    match lead {
        Lead::Nothing => true,
        _ => false,
    }
}

/// Whether nothing has come yet.
fn is_unseen(seen: Seen) -> bool
    ensures { result ≡ is_unseen seen }
{
    is_nothing(seen.lead) && !(seen.bar || seen.guard || seen.body || seen.bound || seen.plain)
}

/// Whether a semicolon leaves a frame as it is: nothing is seen, and no note stands that isn't kept.
pub fn is_renewed(keep: bool, frame: &Frame) -> bool
    ensures { result ≡ is_renewed keep frame.now }
{
    is_unseen(frame.seen) && (keep || frame.notes.is_empty())
}

/// The lead behind a variable, an operator in parentheses or a comma.
fn more_names(lead: Lead) -> Lead
    ensures { result ≡ more_names lead }
{
    match lead {
        Lead::Nothing => Lead::Names,
        Lead::Names => Lead::Names,
        Lead::Fixity => Lead::Fixity,
        _ => Lead::Other,
    }
}

/// The lead behind another lexeme: its own where it is the first.
fn other_lead(own: Lead, lead: Lead) -> Lead
    ensures { result ≡ other_lead own lead }
{
    match lead {
        Lead::Nothing => own,
        Lead::Fixity => Lead::Fixity,
        _ => Lead::Other,
    }
}

/// The lead behind a further lexeme. What brackets hold counts where they close.
fn lead_after(role: Role, lead: Lead) -> Lead
    ensures { result ≡ lead_after role lead }
{
    match role {
        Role::OpenParen | Role::CloseParen | Role::CloseBracket | Role::CloseBrace => lead,
        Role::Variable | Role::Comma => more_names(lead),
        Role::Operator => other_lead(Lead::Operator, lead),
        Role::Fixity => other_lead(Lead::Fixity, lead),
        _ => other_lead(Lead::Other, lead),
    }
}

/// What a frame has seen behind a further lexeme directly in it.
pub fn see(role: Role, before: Seen) -> Seen
    ensures { result ≡ see role before }
{
    let lead = lead_after(role, before.lead);
    match role {
        Role::Bar => Seen {
            lead,
            bar: true,
            guard: true,
            bound: false,
            ..before
        },
        Role::Equals => Seen {
            lead,
            guard: false,
            body: before.body || !before.bar,
            bound: true,
            plain: true,
            ..before
        },
        Role::Arrow => Seen {
            lead,
            guard: false,
            body: before.body || !before.bar,
            ..before
        },
        Role::Lambda => not_plain(lead, before),
        Role::Typed => not_plain(lead, before),
        _ => Seen { lead, ..before },
    }
}

/// What is seen behind a lambda or a double colon.
fn not_plain(lead: Lead, before: Seen) -> Seen
    ensures { result ≡ not_plain lead before }
{
    Seen {
        lead,
        plain: false,
        ..before
    }
}

/// Whether a comma may belong to a block that has seen this: a guard is open, or only names or a fixity came.
pub fn takes_comma(context: Context, seen: Seen) -> bool
    ensures { result ≡ takes_comma context seen }
{
    if context == Context::Do {
        return false;
    }
    match seen.lead {
        Lead::Nothing => true,
        Lead::Names => true,
        Lead::Fixity => true,
        _ => seen.guard,
    }
}
