//! The readers of the commands, one for each, whose answers lend from the bytes.
ghost use Rattle.std.specs.Prelude.{◌≡◌, ℕ, ◌≤◌, ◌++◌, ◌∷◌, [], List, length, codes};
ghost use Rattle.std.specs.Fmt.{decimal};
ghost use Rattle.session_lang.specs.Front.{Tells, either_of};
ghost use Rattle.session_lang.specs.Spelling.{IsCommand, IsPath, IsFlagWord, IsFlagWords, spelling, line, spaced};
ghost use Rattle.session_lang.specs.Meant.{form, said_by};

use crate::front::Front;
use crate::token::{body_at, number_at, path_at, text_at};

/// A command, with the parts of the bytes that hold what it says.
#[derive(Clone, Copy)]
pub enum Piece<'a> {
    Put { path: &'a [u8], body: &'a [u8] },
    Flags(&'a [u8]),
    Build(u32),
    Quit,
    Del(&'a [u8]),
}

/// A length, a line feed, so many bytes and a line feed.
fn sized_at(bytes: &[u8]) -> Front<'_, &[u8]>
    ensures { Tells (λ body. length body ≤ 1048576) (λ body. line (decimal (length body)) ++ line body) (λ body. body.now) bytes.now result }
{
    match number_at(bytes, 0, 1_048_576, b'\n') {
        Front::Whole(count, rest) => body_at(rest, count as usize),
        Front::More => Front::More,
        Front::Bad => Front::Bad,
    }
}

/// A path, a space, and sized bytes.
fn file_at(bytes: &[u8]) -> Front<'_, (&[u8], &[u8])>
    ensures { Tells {A = List ℕ × List ℕ} (λ file. IsPath file.0 × (length file.1 ≤ 1048576))
        (λ file. spaced file.0 ++ (line (decimal (length file.1)) ++ line file.1)) (λ file. (file.0.now, file.1.now)) bytes.now result }
{
    match path_at(bytes, b' ') {
        Front::Whole(path, rest) => match sized_at(rest) {
            Front::Whole(body, rest) => Front::Whole((path, body), rest),
            Front::More => Front::More,
            Front::Bad => Front::Bad,
        },
        Front::More => Front::More,
        Front::Bad => Front::Bad,
    }
}

/// This very text, which is handed back.
fn same_at<'a>(bytes: &'a [u8], text: &'a [u8]) -> Front<'a, &'a [u8]>
    ensures { Tells {A = List ℕ} (λ word. word ≡ text.now) (λ word. word) (λ word. word.now) bytes.now result }
{
    match text_at(bytes, text) {
        Front::Whole(_, rest) => Front::Whole(text, rest),
        Front::More => Front::More,
        Front::Bad => Front::Bad,
    }
}

/// A space and a word of a `flags` command.
fn flag_word_at(bytes: &[u8]) -> Front<'_, &[u8]>
    ensures { Tells {A = List ℕ} IsFlagWord (λ word. word) (λ word. word.now) bytes.now result }
{
    let read = same_at(bytes, b" ImplicitPrelude");
    let read = either(read, same_at(bytes, b" NoImplicitPrelude"));
    let read = either(read, same_at(bytes, b" MonomorphismRestriction"));
    let read = either(read, same_at(bytes, b" NoMonomorphismRestriction"));
    either(read, same_at(bytes, b" Haskell2010"))
}

/// The words of a `flags` command, each behind a space, up to the line feed.
fn flag_words_at(bytes: &[u8]) -> Front<'_, &[u8]>
    ensures { Tells IsFlagWords line (λ words. words.now) bytes.now result }
{
    let mut at = 0;
    while at < bytes.len() {
        if bytes[at] == 10 {
            return Front::Whole(&bytes[..at], &bytes[at + 1..]);
        }
        match flag_word_at(&bytes[at..]) {
            Front::Whole(word, _) => at += word.len(),
            Front::More => return Front::More,
            Front::Bad => return Front::Bad,
        }
    }
    Front::More
}

fn put_at(bytes: &[u8]) -> Front<'_, Piece<'_>>
    ensures { Tells (λ c. IsCommand c × (form c ≡ 0)) spelling said_by bytes.now result }
{
    match text_at(bytes, b"put ") {
        Front::Whole(_, rest) => match file_at(rest) {
            Front::Whole((path, body), rest) => Front::Whole(Piece::Put { path, body }, rest),
            Front::More => Front::More,
            Front::Bad => Front::Bad,
        },
        Front::More => Front::More,
        Front::Bad => Front::Bad,
    }
}

fn flags_at(bytes: &[u8]) -> Front<'_, Piece<'_>>
    ensures { Tells (λ c. IsCommand c × (form c ≡ 1)) spelling said_by bytes.now result }
{
    match text_at(bytes, b"flags") {
        Front::Whole(_, rest) => match flag_words_at(rest) {
            Front::Whole(words, rest) => Front::Whole(Piece::Flags(words), rest),
            Front::More => Front::More,
            Front::Bad => Front::Bad,
        },
        Front::More => Front::More,
        Front::Bad => Front::Bad,
    }
}

fn build_at(bytes: &[u8]) -> Front<'_, Piece<'_>>
    ensures { Tells (λ c. IsCommand c × (form c ≡ 2)) spelling said_by bytes.now result }
{
    match text_at(bytes, b"build ") {
        Front::Whole(_, rest) => match number_at(rest, 1, 1, b'\n') {
            Front::Whole(jobs, rest) => Front::Whole(Piece::Build(jobs), rest),
            Front::More => Front::More,
            Front::Bad => Front::Bad,
        },
        Front::More => Front::More,
        Front::Bad => Front::Bad,
    }
}

fn quit_at(bytes: &[u8]) -> Front<'_, Piece<'_>>
    ensures { Tells (λ c. IsCommand c × (form c ≡ 3)) spelling said_by bytes.now result }
{
    match text_at(bytes, b"quit\n") {
        Front::Whole(_, rest) => Front::Whole(Piece::Quit, rest),
        Front::More => Front::More,
        Front::Bad => Front::Bad,
    }
}

fn del_at(bytes: &[u8]) -> Front<'_, Piece<'_>>
    ensures { Tells (λ c. IsCommand c × (form c ≡ 4)) spelling said_by bytes.now result }
{
    match text_at(bytes, b"del ") {
        Front::Whole(_, rest) => match path_at(rest, b'\n') {
            Front::Whole(path, rest) => Front::Whole(Piece::Del(path), rest),
            Front::More => Front::More,
            Front::Bad => Front::Bad,
        },
        Front::More => Front::More,
        Front::Bad => Front::Bad,
    }
}

/// The first of two that is whole, and else more where one is.
fn either<'a, T: Copy>(first: Front<'a, T>, second: Front<'a, T>) -> Front<'a, T>
    ensures { result ≡ either_of first.entry second.entry }
{
    match first {
        Front::Whole(found, rest) => Front::Whole(found, rest),
        Front::More => match second {
            Front::Whole(found, rest) => Front::Whole(found, rest),
            Front::More | Front::Bad => Front::More,
        },
        Front::Bad => second,
    }
}

/// The command that the bytes begin with.
pub fn piece_at(bytes: &[u8]) -> Front<'_, Piece<'_>>
    ensures { Tells IsCommand spelling said_by bytes.now result }
{
    let read = put_at(bytes);
    let read = either(read, flags_at(bytes));
    let read = either(read, build_at(bytes));
    let read = either(read, quit_at(bytes));
    either(read, del_at(bytes))
}
