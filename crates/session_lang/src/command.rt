//! The first command of some bytes, and where it stands in them.
ghost use Rattle.std.specs.Prelude.{◌≡◌, ◌≢◌, ◌↔◌, ℕ, ◌++◌, [], List, length};
ghost use Rattle.session_lang.specs.Spelling.{Said, IsCommand, spelling};
ghost use Rattle.session_lang.specs.Meant.{said, said_by, AreSpansOf, HasSpans, IsWholeOf, IsMore, IsBad};

use crate::front::Front;
use crate::piece::{Piece, piece_at};

/// The bytes from `start` up to `end`, which isn't among them. Places are counted in bytes from 0.
#[derive(Clone, Copy, Debug, PartialEq, Eq)]
pub struct Span {
    pub start: usize,
    pub end: usize,
}

/// A command. Its spans lie in the bytes that it was read from.
#[derive(Clone, Copy, Debug, PartialEq, Eq)]
pub enum Command {
    /// `put PATH LEN` and a line feed, LEN bytes and a line feed: the file at `path` holds `body`.
    Put { path: Span, body: Span },
    /// `flags`, any number of words with a space before each, and a line feed: the flags from here on. The span holds the words and the spaces.
    Flags(Span),
    /// `build JOBS` and a line feed: a build by so many jobs.
    Build(u32),
    /// `quit` and a line feed.
    Quit,
    /// `del PATH` and a line feed: the file at the path is gone.
    Del(Span),
}

/// What some bytes begin with.
#[derive(Clone, Copy, Debug, PartialEq, Eq)]
pub enum Parsed {
    /// A command, which takes the first `used` bytes.
    Whole { command: Command, used: usize },
    /// A proper beginning of a command, as no bytes are.
    More,
    /// Neither, however the bytes go on.
    Bad,
}

/// A command of `used` bytes, with the places of its parts.
fn placed(piece: Piece<'_>, used: usize) -> Command
    requires { used ≡ length (spelling (said_by piece)) }
    ensures says { (rest : List ℕ) → said (spelling (said_by piece.entry) ++ rest) result ≡ said_by piece.entry }
    ensures spans { AreSpansOf used result }
{
    match piece {
        Piece::Put { path, body } => Command::Put {
            path: Span {
                start: 4,
                end: 4 + path.len(),
            },
            body: Span {
                start: used - 1 - body.len(),
                end: used - 1,
            },
        },
        Piece::Flags(words) => Command::Flags(Span {
            start: 5,
            end: 5 + words.len(),
        }),
        Piece::Build(jobs) => Command::Build(jobs),
        Piece::Quit => Command::Quit,
        Piece::Del(path) => Command::Del(Span {
            start: 4,
            end: 4 + path.len(),
        }),
    }
}

/// The command that the bytes begin with. It takes no memory.
pub fn next_command(bytes: &[u8]) -> Parsed
    // Whole exactly where the bytes begin with that command's spelling, which is what it takes.
    ensures whole { (c : Said) (n : ℕ) → IsWholeOf bytes.now result c n ↔ (IsCommand c × (n ≡ length (spelling c)) × ((rest : List ℕ) × (bytes.now ≡ spelling c ++ rest))) }
    // The spans lie in what the command takes.
    ensures spans { HasSpans (length bytes.now) result }
    // More exactly where they are a proper beginning of some command's spelling.
    ensures more { IsMore result ↔ ((c : Said) × (more : List ℕ) × IsCommand c × (more ≢ []) × (bytes.now ++ more ≡ spelling c)) }
    // Bad exactly where they neither begin with a spelling nor begin one.
    ensures bad { IsBad result ↔ ((c : Said) (more rest : List ℕ) → IsCommand c → bytes.now ++ more ≡ spelling c ++ rest → ⊥) }
{
    match piece_at(bytes) {
        Front::Whole(piece, rest) => {
            let used = bytes.len() - rest.len();
            Parsed::Whole {
                command: placed(piece, used),
                used,
            }
        }
        Front::More => Parsed::More,
        Front::Bad => Parsed::Bad,
    }
}

/// No command's spelling begins another's.
pub fn no_spelling_begins_another()
    ensures { (c d : Said) (x y : List ℕ) → IsCommand c → IsCommand d → spelling c ++ x ≡ spelling d ++ y → (c ≡ d) × (x ≡ y) }
{}
