//! What the program reads from and writes to.
ghost use Rattle.std.specs.Prelude.{◌≡◌, List, ℕ};
ghost use Rattle.std.specs.declared.option.Option.{Option};
ghost use Rattle.std.specs.Io.{ReadsAtMost};
ghost use Rattle.std.specs.Io.KnownBytes.{ReadConsumes};
ghost use Rattle.mk_io.specs.Outside.{HasCause, HasIoCause, Puts};
ghost use Rattle.mk_io.specs.declared.outside.IoErr.{IoErr};

use mk_base::memory::NoMemory;
use std::alloc::AllocError;
use thiserror::Error;

/// A read failed: the source gave nothing, and the bytes that are left are as before.
#[derive(Clone, Copy, Debug, PartialEq, Eq, Hash, Error)]
#[error("the read failed")]
pub struct Failed;

/// Why a read or a write did not go through.
#[derive(Clone, Copy, Debug, PartialEq, Eq, Hash, Error)]
pub enum IoErr {
    /// The outside failed, and counted a fault. A source has left what it had; a sink may have taken a front of what
    /// it was given.
    #[error("reading or writing failed")]
    Failed,
    /// Memory ran out: what the refused call was given was not taken, and no fault was counted.
    #[error("out of memory")]
    NoMemory,
}

impl From<Failed> for IoErr {
    ghost from_gives = { λ _ e. e ≡ IoErr.Failed };

    fn from(_failed: Failed) -> IoErr {
        IoErr::Failed
    }
}

impl From<NoMemory> for IoErr {
    ghost from_gives = { λ _ e. e ≡ IoErr.NoMemory };

    fn from(_refused: NoMemory) -> IoErr {
        IoErr::NoMemory
    }
}

impl From<AllocError> for IoErr {
    ghost from_gives = { λ _ e. e ≡ IoErr.NoMemory };

    fn from(_refused: AllocError) -> IoErr {
        IoErr::NoMemory
    }
}

/// What bytes are read from.
pub trait Source {
    /// The bytes that are left, where the source tells.
    ghost left: { Self → Option (List ℕ) };

    /// How often it has failed: a count that stays at 18446744073709551615 once it is there.
    ghost faults: { Self → ℕ };

    /// Reads bytes into the front of `buf`, and answers how many.
    ///
    /// At `Ok(n)` the first `n` bytes of `buf` are just the next `n` bytes that were left, and 0 comes into a buffer
    /// with room only at the end. At `Failed` what is left is as before. A fault is counted exactly at `Failed`.
    fn read(&mut self, buf: &mut [u8]) -> Result<usize, Failed>
        ensures bound { ReadsAtMost result buf.new }
        ensures bytes { ReadConsumes (left self.old) (left self.new) result buf.new }
        ensures cause { HasCause (faults self.old) (faults self.new) result };
}

/// What bytes are written to.
pub trait Sink {
    /// The bytes that it has taken, where the sink tells.
    ghost taken: { Self → Option (List ℕ) };

    /// How often it has failed: a count that stays at 18446744073709551615 once it is there.
    ghost faults: { Self → ℕ };

    /// Writes bytes from the front of `bytes`, and answers how many.
    ///
    /// At `Ok(n)` the sink has taken the first `n` bytes, at least one where there is one. At `Failed` it has taken
    /// some front, maybe none or all; at `NoMemory` nothing. A fault is counted exactly at `Failed`.
    fn write(&mut self, bytes: &[u8]) -> Result<usize, IoErr>
        ensures puts { Puts (taken self.old) (taken self.new) result bytes.now }
        ensures cause { HasIoCause (faults self.old) (faults self.new) result };
}
