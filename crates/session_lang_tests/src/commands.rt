//! The first command of some bytes.

use session_lang::command::{Command, Parsed, Span, next_command};

fn put(path: (usize, usize), body: (usize, usize), used: usize) -> Parsed {
    Parsed::Whole {
        command: Command::Put {
            path: Span {
                start: path.0,
                end: path.1,
            },
            body: Span {
                start: body.0,
                end: body.1,
            },
        },
        used,
    }
}

fn whole(command: Command, used: usize) -> Parsed {
    Parsed::Whole { command, used }
}

/// First commands of some bytes, with their spans, and what begins none.
#[test]
fn reads_first_commands(rt: HostRuntime) {
    let rows: [(&[u8], Parsed); 16] = [
        (b"put A.hs 3\nabc\n", put((4, 8), (11, 14), 15)),
        (b"put A.hs 0\n\nquit\n", put((4, 8), (11, 11), 12)),
        (b"put x 12\nput A.hs 3\na\nrest", put((4, 5), (9, 21), 22)),
        (
            b"flags NoImplicitPrelude\nbuild 1\n",
            whole(Command::Flags(Span { start: 5, end: 23 }), 24),
        ),
        (b"build 1\n", whole(Command::Build(1), 8)),
        (b"quit\nand anything", whole(Command::Quit, 5)),
        (b"", Parsed::More),
        (b"flags No", Parsed::More),
        (b"build 1", Parsed::More),
        (b"build 2\n", Parsed::Bad),
        (b"build 01\n", Parsed::Bad),
        (b"put A.hs 03\nabc\n", Parsed::Bad),
        (b"put A.hs 3\nabcd", Parsed::Bad),
        (b"put A.hs 1048577", Parsed::Bad),
        (b"put  3\nabc\n", Parsed::Bad),
        (b"Quit\n", Parsed::Bad),
    ];
    for (bytes, parsed) in rows {
        assert_eq!(rt; next_command(bytes), parsed);
    }
}

/// The words of `flags`, each with one space before it.
#[test]
fn reads_words_of_flags(rt: HostRuntime) {
    let rows: [(&[u8], Parsed); 17] = [
        (
            b"flags\nquit\n",
            whole(Command::Flags(Span { start: 5, end: 5 }), 6),
        ),
        (
            b"flags Haskell2010 ImplicitPrelude\n",
            whole(Command::Flags(Span { start: 5, end: 33 }), 34),
        ),
        (
            b"flags NoMonomorphismRestriction\n\n",
            whole(Command::Flags(Span { start: 5, end: 31 }), 32),
        ),
        (
            b"flags MonomorphismRestriction\n",
            whole(Command::Flags(Span { start: 5, end: 29 }), 30),
        ),
        (b"flags", Parsed::More),
        (b"flags ", Parsed::More),
        (b"flags NoImplicitPrelude", Parsed::More),
        (b"flags NoImplicitPrelude ", Parsed::More),
        (b"flags NoImplicitPrelude No", Parsed::More),
        (b"flags \n", Parsed::Bad),
        (b"flags NoImplicitPrelude \n", Parsed::Bad),
        (b"flags  ImplicitPrelude\n", Parsed::Bad),
        (b"flags implicitPrelude", Parsed::Bad),
        (b"flags ImplicitPreludes\n", Parsed::Bad),
        (b"flags NoHaskell2010", Parsed::Bad),
        (b"flags Haskell2010\tImplicitPrelude\n", Parsed::Bad),
        (b"flagsX", Parsed::Bad),
    ];
    for (bytes, parsed) in rows {
        assert_eq!(rt; next_command(bytes), parsed);
    }
}

/// Paths of `del`, which end at the line feed.
#[test]
fn reads_deletions(rt: HostRuntime) {
    let rows: [(&[u8], Parsed); 7] = [
        (
            b"del A.hs\nquit\n",
            whole(Command::Del(Span { start: 4, end: 8 }), 9),
        ),
        (b"del", Parsed::More),
        (b"del ", Parsed::More),
        (b"del A.hs", Parsed::More),
        (b"del \n", Parsed::Bad),
        (b"del A.hs \n", Parsed::Bad),
        (b"del A.hs 0\n\n", Parsed::Bad),
    ];
    for (bytes, parsed) in rows {
        assert_eq!(rt; next_command(bytes), parsed);
    }
}

/// Each front of a command could still be one.
#[test]
fn a_proper_beginning_goes_on(rt: HostRuntime) {
    let bytes = b"put A.hs 3\nabc\n";
    for count in 0..bytes.len() {
        assert_eq!(rt; next_command(&bytes[..count]), Parsed::More);
    }
}

/// A path of 255 bytes is read, and a longer one is bad.
#[test]
fn a_path_has_at_most_255_bytes(rt: HostRuntime) {
    let mut longest = [b'a'; 262];
    longest[..4].copy_from_slice(b"put ");
    longest[259..].copy_from_slice(b" 0\n");
    assert_eq!(rt; next_command(&longest), Parsed::More);
    let mut longer = [b'a'; 263];
    longer[..4].copy_from_slice(b"put ");
    longer[260..].copy_from_slice(b" 0\n");
    assert_eq!(rt; next_command(&longer), Parsed::Bad);
}
