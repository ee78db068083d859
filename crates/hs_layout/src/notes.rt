//! The words that wait for others.
ghost use Rattle.std.specs.Prelude.{◌≡◌, ◌∷◌, [], OnOk, OnErr, MatchOption, IfNone, true, if◌then◌else◌};
ghost use Rattle.hs_layout.specs.Notes.{same_note, has, is_none_left, waits_of};

use crate::frame::Note;
use crate::stack::Stack;
use mk_base::memory::NoMemory;
use std::alloc::Global;
use std::marker::Model;

/// Which words wait, at a note or below it in its frame.
#[derive(Clone, Copy)]
pub struct Waits {
    pub case_note: bool,
    pub if_note: bool,
    pub then_note: bool,
    pub let_note: bool,
}

/// A note, and which words wait from it down.
#[derive(Clone, Copy)]
pub struct Waiting {
    pub note: Note,
    pub waits: Waits,
}

/// The notes of a frame, which contracts see as a list, the nearest first.
#[derive(Drop)]
pub struct Notes {
    entries: Stack<Waiting>,
}

impl Model for Notes {
    ghost use Rattle.std.specs.Prelude.{List as Row};
    ghost use Rattle.hs_layout.specs.declared.frame.Note.{Note as Word};

    ghost Value = { Row Word };

    ghost use Rattle.hs_layout.specs.Notes.{notes_of, IsCounted};

    ghost view = { λ it. notes_of it.entries };

    ghost invariant = { λ it. IsCounted it.entries };
}

/// Whether two notes are the same.
pub fn same_note(a: Note, b: Note) -> bool
    ensures { result ≡ same_note a b }
{
    match (a, b) {
        (Note::Case, Note::Case) => true,
        (Note::If, Note::If) => true,
        (Note::Then, Note::Then) => true,
        (Note::Let, Note::Let) => true,
        _ => false,
    }
}

/// Whether a note is that one, or else what is said of those below it.
fn or_below(own: Note, note: Note, below: bool) -> bool
    ensures { result ≡ (if same_note own note then true else below) }
{
    if same_note(own, note) { true } else { below }
}

impl Notes {
    /// No notes, which take no memory yet.
    pub fn new(alloc: Global) -> Notes
        ensures { result ≡ [] }
    {
        Notes {
            entries: Stack::new(alloc),
        }
    }

    /// Which words wait.
    fn waits(&self) -> Waits
        ensures { result ≡ waits_of self.now }
    {
        match self.entries.get(0) {
            Some(entry) => entry.waits,
            None => Waits {
                case_note: false,
                if_note: false,
                then_note: false,
                let_note: false,
            },
        }
    }

    /// Whether a note stands among these.
    pub fn has(&self, note: Note) -> bool
        ensures { result ≡ has note self.now }
    {
        let waits = self.waits();
        match note {
            Note::Case => waits.case_note,
            Note::If => waits.if_note,
            Note::Then => waits.then_note,
            Note::Let => waits.let_note,
        }
    }

    /// Whether no note is left.
    pub fn is_empty(&self) -> bool
        ensures { result ≡ is_none_left self.now }
    {
        match self.entries.get(0) {
            Some(_) => false,
            None => true,
        }
    }

    /// Takes the nearest note off.
    pub fn pop(&mut self) -> Option<Note>
        ensures taken { MatchOption result (self.old ≡ []) (λ x. self.old ≡ x ∷ self.new) }
        ensures empty { IfNone result (self.new ≡ []) }
    {
        match self.entries.pop() {
            Some(entry) => {
                let Waiting { note, waits: _ } = entry;
                Some(note)
            }
            None => None,
        }
    }

    /// Puts a note on top.
    pub fn push(&mut self, note: Note) -> Result<(), NoMemory>
        ensures ok { OnOk result (self.new ≡ note ∷ self.old) }
        ensures err { OnErr result (self.new ≡ self.old) }
    {
        let below = self.waits();
        let waits = Waits {
            case_note: or_below(note, Note::Case, below.case_note),
            if_note: or_below(note, Note::If, below.if_note),
            then_note: or_below(note, Note::Then, below.then_note),
            let_note: or_below(note, Note::Let, below.let_note),
        };
        self.entries.push(Waiting { note, waits })
    }
}
