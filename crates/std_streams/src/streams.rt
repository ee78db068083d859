//! Streams of std, with their faults counted. They tell nothing of what they hold.
ghost use Rattle.std.specs.Prelude.{None};

use mk_io::outside::{Failed, IoErr, Sink, Source};
use std::io::{ErrorKind, Read, Write};

/// A stream that is read, and how often it has failed. A read that a signal interrupted is tried again.
#[derive(Drop)]
pub struct Input<R: Read + Drop> {
    pub stream: R,
    pub faults: u64,
}

impl<R: Read + Drop> Source for Input<R> {
    ghost left = { λ _. None };

    ghost faults = { λ s. s.faults };

    fn read(&mut self, buf: &mut [u8]) -> Result<usize, Failed> {
        for _ in 0..u64::MAX {
            match self.stream.read(buf) {
                Ok(count) => return Ok(count),
                Err(error) => {
                    if error.kind() != ErrorKind::Interrupted {
                        break;
                    }
                }
            }
        }
        self.faults = self.faults.saturating_add(1);
        Err(Failed)
    }
}

/// A stream that is written, and how often it has failed. A write that a signal interrupted is tried again; one that takes nothing has failed.
#[derive(Drop)]
pub struct Output<W: Write + Drop> {
    pub stream: W,
    pub faults: u64,
}

impl<W: Write + Drop> Sink for Output<W> {
    ghost taken = { λ _. None };

    ghost faults = { λ s. s.faults };

    fn write(&mut self, bytes: &[u8]) -> Result<usize, IoErr> {
        for _ in 0..u64::MAX {
            match self.stream.write(bytes) {
                Ok(count) => {
                    if count > 0 || bytes.is_empty() {
                        return Ok(count);
                    }
                    break;
                }
                Err(error) => {
                    if error.kind() != ErrorKind::Interrupted {
                        break;
                    }
                }
            }
        }
        self.faults = self.faults.saturating_add(1);
        Err(IoErr::Failed)
    }
}
