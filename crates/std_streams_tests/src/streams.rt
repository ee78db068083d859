//! Streams that fail, are interrupted, or take nothing.

use mk_io::outside::{Failed, IoErr, Sink, Source};
use std::io;
use std::io::{ErrorKind, Read, Write};
use std_streams::streams::{Input, Output};

/// What a call of a stream comes to: so many bytes at most, or an error.
#[derive(Clone, Copy)]
enum Step {
    Moves(usize),
    Fails(ErrorKind),
}

/// A stream whose calls come to these steps, one after another, and then to nothing.
#[derive(Drop)]
struct Played<'a> {
    steps: &'a [Step],
    calls: usize,
}

impl<'a> Played<'a> {
    fn play(&mut self) -> io::Result<usize> {
        let step = self.steps.get(self.calls);
        self.calls = self.calls.saturating_add(1);
        match step {
            Some(Step::Moves(count)) => Ok(*count),
            Some(Step::Fails(kind)) => Err(io::Error::from(*kind)),
            None => Ok(0),
        }
    }
}

impl<'a> Read for Played<'a> {
    fn read(&mut self, buf: &mut [u8]) -> io::Result<usize> {
        let count = self.play()?.min(buf.len());
        buf[..count].fill(b'x');
        Ok(count)
    }
}

impl<'a> Write for Played<'a> {
    fn write(&mut self, buf: &[u8]) -> io::Result<usize> {
        let count = self.play()?;
        Ok(count.min(buf.len()))
    }

    fn flush(&mut self) -> io::Result<()> {
        Ok(())
    }
}

/// The answers to two reads of at most four bytes, and then the calls of the stream and the faults.
fn two_reads(steps: &[Step]) -> (Result<usize, Failed>, Result<usize, Failed>, usize, u64) {
    let mut input = Input {
        stream: Played { steps, calls: 0 },
        faults: 0,
    };
    let mut buf = [0u8; 4];
    let first = input.read(&mut buf);
    let second = input.read(&mut buf);
    (first, second, input.stream.calls, input.faults)
}

/// The same of two writes of four bytes.
fn two_writes(steps: &[Step]) -> (Result<usize, IoErr>, Result<usize, IoErr>, usize, u64) {
    let mut output = Output {
        stream: Played { steps, calls: 0 },
        faults: 0,
    };
    let first = output.write(b"word");
    let second = output.write(b"word");
    (first, second, output.stream.calls, output.faults)
}

/// A read that a signal interrupted goes on, and each other failure is one fault, behind which the stream is read on.
#[test]
fn reads_fail_or_go_on(rt: HostRuntime) {
    let waits = Step::Fails(ErrorKind::Interrupted);
    let breaks = Step::Fails(ErrorKind::BrokenPipe);
    let three = Step::Moves(3);
    assert_eq!(rt; two_reads(&[three, Step::Moves(9)]), (Ok(3), Ok(4), 2, 0));
    assert_eq!(rt; two_reads(&[three]), (Ok(3), Ok(0), 2, 0));
    assert_eq!(rt; two_reads(&[waits, waits, three]), (Ok(3), Ok(0), 4, 0));
    assert_eq!(rt; two_reads(&[breaks, three]), (Err(Failed), Ok(3), 2, 1));
    assert_eq!(rt;
        two_reads(&[waits, breaks, waits, three]),
        (Err(Failed), Ok(3), 4, 1)
    );
    assert_eq!(rt;
        two_reads(&[breaks, breaks]),
        (Err(Failed), Err(Failed), 2, 2)
    );
}

/// The same of writes, of which one that takes nothing is a fault too.
#[test]
fn writes_fail_or_go_on(rt: HostRuntime) {
    let waits = Step::Fails(ErrorKind::Interrupted);
    let breaks = Step::Fails(ErrorKind::StorageFull);
    let none = Step::Moves(0);
    let three = Step::Moves(3);
    let failed = Err(IoErr::Failed);
    assert_eq!(rt; two_writes(&[three, Step::Moves(9)]), (Ok(3), Ok(4), 2, 0));
    assert_eq!(rt;
        two_writes(&[waits, three, waits, waits, three]),
        (Ok(3), Ok(3), 5, 0)
    );
    assert_eq!(rt; two_writes(&[none, three]), (failed, Ok(3), 2, 1));
    assert_eq!(rt; two_writes(&[breaks, three]), (failed, Ok(3), 2, 1));
    assert_eq!(rt; two_writes(&[waits, none, breaks]), (failed, failed, 3, 2));
}
