//! The frames that are open.
ghost use Rattle.std.specs.Prelude.{◌≡◌, ◌∷◌, [], if◌then◌else◌, OnOk, OnErr, MatchOption, IfNone, drop};
ghost use Rattle.hs_layout.specs.Looks.{reaches};
ghost use Rattle.hs_layout.specs.Below.{below_of, flag, is_settled, IsSought};

use crate::frame::{Frame, Note, Sort, is_renewed};
use crate::look::{Look, Target, look_at};
use crate::stack::Stack;
use mk_base::memory::NoMemory;
use std::alloc::Global;
use std::marker::Model;

/// What is known of the frames below a frame, so that no rule passes frames that stay as they are.
///
/// First which frames a rule can reach there. Then whether a semicolon changes nothing in those up to the enclosing
/// context: bare where it drops the notes, and unseen where it keeps them.
#[derive(Clone, Copy)]
pub struct Below {
    pub paren: bool,
    pub bracket: bool,
    pub brace: bool,
    pub inner: bool,
    pub comma: bool,
    pub case_note: bool,
    pub if_note: bool,
    pub then_note: bool,
    pub let_note: bool,
    pub bare: bool,
    pub unseen: bool,
}

/// A frame, and what can be reached below it.
#[derive(Drop)]
pub struct Entry {
    pub frame: Frame,
    pub below: Below,
}

/// The frames that are open, which contracts see as a list, the nearest first.
#[derive(Drop)]
pub struct Frames {
    entries: Stack<Entry>,
}

impl Model for Frames {
    ghost use Rattle.std.specs.Prelude.{List as Row};
    ghost use Rattle.hs_layout.specs.declared.frame.Frame.{Frame as Open};

    ghost Value = { Row Open };

    ghost use Rattle.hs_layout.specs.Below.{frames_of, IsCached};

    ghost view = { λ it. frames_of it.entries };

    ghost invariant = { λ it. IsCached it.entries };
}

/// Whether a frame that a rule looks for can be reached below.
fn flag(target: Target, below: &Below) -> bool
    ensures { result ≡ flag target below.now }
{
    match target {
        Target::Paren => below.paren,
        Target::Bracket => below.bracket,
        Target::Brace => below.brace,
        Target::Inner => below.inner,
        Target::Comma => below.comma,
        Target::Note(Note::Case) => below.case_note,
        Target::Note(Note::If) => below.if_note,
        Target::Note(Note::Then) => below.then_note,
        Target::Note(Note::Let) => below.let_note,
        _ => false,
    }
}

/// Whether a semicolon changes nothing below a frame, up to the enclosing context.
fn settled_below(keep: bool, below: &Below) -> bool
    ensures { result ≡ (if keep then below.now.unseen else below.now.bare) }
{
    if keep { below.unseen } else { below.bare }
}

impl Frames {
    /// No frames, which take no memory yet.
    pub fn new(alloc: Global) -> Frames
        ensures { result ≡ [] }
    {
        Frames {
            entries: Stack::new(alloc),
        }
    }

    /// The nearest frame.
    pub fn top(&self) -> Option<&Frame>
        ensures { MatchOption result (self.now ≡ []) (λ x. self.now ≡ x.now ∷ drop 1 self.now) }
    {
        match self.entries.get(0) {
            Some(entry) => Some(&entry.frame),
            None => None,
        }
    }

    /// Whether the frame that a rule looks for is there, with none in between that bars it.
    pub fn reaches(&self, target: Target) -> bool
        requires { IsSought target }
        ensures { result ≡ reaches target self.now }
    {
        match self.entries.get(0) {
            Some(entry) => match look_at(target, &entry.frame) {
                Look::Here => true,
                Look::On => flag(target, &entry.below),
                Look::Nowhere => false,
            },
            None => false,
        }
    }

    /// Whether a semicolon changes nothing in the frames up to the enclosing context. Notes are kept or dropped.
    pub fn is_settled(&self, keep: bool) -> bool
        ensures { result ≡ is_settled keep self.now }
    {
        match self.entries.get(0) {
            Some(entry) => {
                is_renewed(keep, &entry.frame)
                    && (entry.frame.sort == Sort::Context || settled_below(keep, &entry.below))
            }
            None => true,
        }
    }

    /// What is known of the frames from the nearest down.
    fn below(&self) -> Below
        ensures { result ≡ below_of self.now }
    {
        Below {
            paren: self.reaches(Target::Paren),
            bracket: self.reaches(Target::Bracket),
            brace: self.reaches(Target::Brace),
            inner: self.reaches(Target::Inner),
            comma: self.reaches(Target::Comma),
            case_note: self.reaches(Target::Note(Note::Case)),
            if_note: self.reaches(Target::Note(Note::If)),
            then_note: self.reaches(Target::Note(Note::Then)),
            let_note: self.reaches(Target::Note(Note::Let)),
            bare: self.is_settled(false),
            unseen: self.is_settled(true),
        }
    }

    /// Takes the nearest frame off.
    pub fn pop(&mut self) -> Option<Frame>
        ensures taken { MatchOption result (self.old ≡ []) (λ x. self.old ≡ x ∷ self.new) }
        ensures empty { IfNone result (self.new ≡ []) }
    {
        match self.entries.pop() {
            Some(entry) => {
                let Entry { frame, below: _ } = entry;
                Some(frame)
            }
            None => None,
        }
    }

    /// Opens a frame on top.
    pub fn push(&mut self, frame: Frame) -> Result<(), NoMemory>
        ensures ok { OnOk result (self.new ≡ frame ∷ self.old) }
        ensures err { OnErr result (self.new ≡ self.old) }
    {
        let below = self.below();
        self.entries.push(Entry { frame, below })
    }
}
