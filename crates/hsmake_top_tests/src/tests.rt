//! Sessions in memory, with what they come to.

ghost use Rattle.std.specs.Prelude.{◌≡◌, ◌≤◌, ◌<◌, None};

use hsmake_top::run::run_alone;
use mk_base::list::List;
use mk_base::plain::Plain;
use mk_base::status::Status;
use mk_base::steps::{Ledger, Steps, Tokens};
use mk_io::memory::{MemSink, MemSource};
use mk_io::outside::{IoErr, Sink};
use std::alloc::Global;
use std::cell::Cell;
use std::marker::Brand;
use std::sync::ledger::Blank;
use std::test::Fail;
use std::thread::Threads;

const EMPTY_BUILD: &[u8] = b"build: 0 ok, 0 checked, 0 failed, 0 blocked\n";

/// A ledger that shows its count.
#[derive(Drop)]
struct Shown<'a, K: std::sync::ledger::Ledger> {
    tokens: Tokens<K>,
    seen: &'a Cell<u64>,
}

impl<'a, K: std::sync::ledger::Ledger> Ledger for Shown<'a, K> {
    ghost count = { λ s. s.tokens.book.total };

    fn add_one(&mut self) {
        self.tokens.add_one();
        self.seen.set(self.seen.get().saturating_add(1));
    }
}

/// A sink in memory that takes at most `piece` bytes a write.
#[derive(Drop)]
struct PieceSink {
    memory: MemSink,
    piece: usize,
    ghost some: { 1 ≤ piece },
}

impl Sink for PieceSink {
    ghost taken = { λ _. None };

    ghost faults = { λ s. s.memory.faults };

    fn write(&mut self, bytes: &[u8]) -> Result<usize, IoErr> {
        let count = self.piece.min(bytes.len());
        self.memory.write(&bytes[..count])
    }
}

/// How the streams of a session behave: the most bytes of a read and of a write, and the calls, from 0, that fail.
#[derive(Clone, Copy)]
pub(crate) struct Streams<'a> {
    pub(crate) read_piece: usize,
    pub(crate) reads: &'a [u64],
    pub(crate) write_piece: usize,
    pub(crate) writes: &'a [u64],
}

/// What a session came to: its answer, what was written, how many modules were checked, how often each stream failed,
/// and how many bytes of the input are left.
#[derive(Drop)]
pub(crate) struct Outcome {
    pub(crate) status: Status,
    pub(crate) written: List<u8>,
    pub(crate) checks: u64,
    pub(crate) read_faults: u64,
    pub(crate) write_faults: u64,
    pub(crate) left: usize,
}

fn run_counted<K: std::sync::ledger::Ledger, R: Threads, O: Sink>(
    threads: &R,
    alloc: Global,
    blank: Blank,
    words: &[String],
    input: &mut MemSource,
    output: &mut O,
    seen: &Cell<u64>,
) -> Status
    requires name { blank.name ≡ K.name }
    requires parts { blank.parts ≡ K.parts }
    requires one { 0 < blank.parts }
{
    let (book, share) = blank.open::<K>();
    let tokens = Tokens { book, share };
    let mut steps = Steps::new(threads, Shown { tokens, seen });
    run_alone(alloc, words, input, output, &mut steps)
}

fn run<R: Threads, O: Sink>(
    threads: &R,
    alloc: Global,
    words: &[String],
    input: &mut MemSource,
    output: &mut O,
    seen: &Cell<u64>,
) -> Status {
    run_counted::<Brand, R, O>(threads, alloc, Blank::new(1), words, input, output, seen)
}

/// What a session of this script comes to over such streams.
pub(crate) fn play<R: Threads>(
    threads: &R,
    alloc: Global,
    script: &[u8],
    streams: Streams<'_>,
) -> Result<Outcome, Fail>
    requires read { 1 ≤ streams.read_piece }
    requires write { 1 ≤ streams.write_piece }
{
    let mut words = Vec::new(alloc);
    words.push(String::from_str(alloc, "session")?)?;
    let left = List::from_vec(Vec::from_slice(alloc, script)?);
    let reads = List::from_vec(Vec::from_slice(alloc, streams.reads)?);
    let mut input = MemSource::new(left, streams.read_piece, reads);
    let writes = List::from_vec(Vec::from_slice(alloc, streams.writes)?);
    let mut output = PieceSink {
        memory: MemSink::new(alloc, writes),
        piece: streams.write_piece,
    };
    let seen = Cell::new(0);
    let status = run(threads, alloc, &words, &mut input, &mut output, &seen);
    let written = output.memory.taken.copy(alloc)?;
    Ok(Outcome {
        status,
        written,
        checks: seen.get(),
        read_faults: input.faults,
        write_faults: output.memory.faults,
        left: input.left.len(),
    })
}

/// The answer to a script that comes in pieces, and what was written, where the listed reads and writes fail.
pub(crate) fn answer<R: Threads>(
    threads: &R,
    alloc: Global,
    script: &[u8],
    piece: usize,
    reads: &[u64],
    writes: &[u64],
) -> Result<(Status, List<u8>), Fail>
    requires { 1 ≤ piece }
{
    let streams = Streams {
        read_piece: piece,
        reads,
        write_piece: 1_000_000,
        writes,
    };
    let outcome = play(threads, alloc, script, streams)?;
    Ok((outcome.status, outcome.written))
}

/// Scripts with their answers and outputs, read by pieces of several sizes.
#[test]
fn a_script_is_answered_alike_in_any_pieces(rt: HostRuntime) -> Result<(), Fail> {
    let rows: [(&[u8], Status, &[u8], &[u8]); 7] = [
        (b"quit\n", Status::Done, b"", b""),
        (b"build 1\nquit\n", Status::Done, EMPTY_BUILD, b""),
        (
            b"build 1\nfoo\n",
            Status::BadScript,
            EMPTY_BUILD,
            b"bad script at byte 8\n",
        ),
        (
            b"build 1\n",
            Status::BadScript,
            EMPTY_BUILD,
            b"bad script at byte 8\n",
        ),
        (
            b"put A.hs 3\nab",
            Status::BadScript,
            b"",
            b"bad script at byte 0\n",
        ),
        (
            b"put A.hs 2\nab\nput A.hs 1\nc\nflags NoImplicitPrelude\nput B.hs 0\n\nbuild 2\n",
            Status::BadScript,
            b"",
            b"bad script at byte 63\n",
        ),
        (b"", Status::BadScript, b"", b"bad script at byte 0\n"),
    ];
    for (script, status, first, last) in rows {
        for piece in [1usize, 2, 1000] {
            let (answered, written) = answer(&rt, rt.alloc(), script, piece, &[], &[])?;
            assert_eq!(rt; answered, status);
            let mut expected = Vec::from_slice(rt.alloc(), first)?;
            expected.extend_from_slice(last)?;
            assert_eq!(rt; written.as_slice(), expected.as_slice());
        }
    }
    Ok(())
}

/// A file that is longer than a read.
#[test]
fn a_file_is_read_past_a_buffer(rt: HostRuntime) -> Result<(), Fail> {
    let alloc = rt.alloc();
    let mut script = Vec::from_slice(alloc, b"put A.hs 9000\n")?;
    script.extend_from_slice(&[b'x'; 9000])?;
    script.extend_from_slice(b"\nfoo\n")?;
    for piece in [7usize, 10_000] {
        let (status, written) = answer(&rt, rt.alloc(), &script, piece, &[], &[])?;
        assert_eq!(rt; status, Status::BadScript);
        assert_eq!(rt; written.as_slice(), b"bad script at byte 9015\n".as_slice());
    }
    Ok(())
}

/// A fault of either stream is the answer.
#[test]
fn faults_are_answered(rt: HostRuntime) -> Result<(), Fail> {
    let (status, written) = answer(&rt, rt.alloc(), b"foo\n", 1000, &[0], &[])?;
    assert_eq!(rt; status, Status::ReadFault);
    assert_eq!(rt; written.len(), 0);
    let (status, written) = answer(&rt, rt.alloc(), b"put A.hs 0\n\nfoo\n", 5, &[2], &[])?;
    assert_eq!(rt; status, Status::ReadFault);
    assert_eq!(rt; written.len(), 0);
    let (status, written) = answer(&rt, rt.alloc(), b"foo\n", 1000, &[], &[0])?;
    assert_eq!(rt; status, Status::WriteFault);
    assert_eq!(rt; written.len(), 0);
    Ok(())
}

/// A faulty command line prints the usage line, and reads nothing.
#[test]
fn other_words_are_answered_by_the_usage_line(rt: HostRuntime) -> Result<(), Fail> {
    let alloc = rt.alloc();
    let words = Vec::new(alloc);
    let left = List::from_vec(Vec::from_slice(alloc, b"quit\n")?);
    let mut input = MemSource::new(left, 1000, List::new(alloc));
    let mut output = MemSink::new(alloc, List::new(alloc));
    let seen = Cell::new(0);
    assert_eq!(rt;
        run(&rt, alloc, &words, &mut input, &mut output, &seen),
        Status::Usage
    );
    let line =
        b"usage: hsmake session | make [--jobs N] [--unit NAME] [--prelude] [EXT ...] | show FILE\n";
    assert_eq!(rt; output.taken.as_slice(), line.as_slice());
    assert_eq!(rt; input.calls, 0);
    Ok(())
}
