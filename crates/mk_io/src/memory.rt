//! A source and a sink in memory, which fail where they are told to.
ghost use Rattle.std.specs.Prelude.{◌≡◌, ◌≤◌, ◌+◌, ◌^◌, ◌↔◌, ◌++◌, [], Some, min, length, drop, IfOk, OnErr, IsErr, IsErrOf, OnOk, Contains};
ghost use Rattle.std.specs.Io.{ReadsAtMost};
ghost use Rattle.std.specs.Io.KnownBytes.{ReadConsumes};
ghost use Rattle.mk_io.specs.Outside.{HasCause, HasIoCause, Puts, next_count};

use crate::outside::{Failed, IoErr, Sink, Source};
use mk_base::list::List;
use std::alloc::Global;

/// Gives at most `piece` bytes a read, and fails at the calls whose numbers, from 0, are listed in `fails`.
///
/// `calls` counts the reads so far and `faults` those that failed; each stays at 18446744073709551615 once it is there.
#[derive(Debug, Drop)]
pub struct MemSource {
    pub left: List<u8>,
    pub piece: usize,
    pub fails: List<u64>,
    pub calls: u64,
    pub faults: u64,
    pub ghost some: { 1 ≤ piece },
}

impl MemSource {
    /// A source with these bytes left, before its first read. `piece` is in bytes, `fails` lists calls from 0.
    pub fn new(left: List<u8>, piece: usize, fails: List<u64>) -> MemSource
        requires { 1 ≤ piece }
        ensures bytes { result.left ≡ left }
        ensures piece { result.piece ≡ piece }
        ensures fails { result.fails ≡ fails }
        ensures calls { result.calls ≡ 0 }
        ensures faults { result.faults ≡ 0 }
    {
        MemSource {
            left,
            piece,
            fails,
            calls: 0,
            faults: 0,
        }
    }
}

impl Source for MemSource {
    ghost left = { λ s. Some s.left };

    ghost faults = { λ s. s.faults };

    /// Reads as many bytes as `piece`, the buffer and what is left allow, or fails where the call is listed.
    fn read(&mut self, buf: &mut [u8]) -> Result<usize, Failed>
        ensures bound { ReadsAtMost result buf.new }
        ensures bytes { ReadConsumes (Some self.old.left) (Some self.new.left) result buf.new }
        ensures cause { HasCause self.old.faults self.new.faults result }
        ensures refused { IsErr result ↔ Contains self.old.fails self.old.calls }
        ensures count { IfOk result (λ n. n ≡ min (min self.old.piece (length buf.old)) (length self.old.left)) }
        ensures behind { IfOk result (λ n. drop n buf.new ≡ drop n buf.old) }
        ensures calls { self.new.calls ≡ next_count self.old.calls }
        ensures counted { OnErr result (self.new.faults ≡ next_count self.old.faults) }
        ensures left { OnErr result (self.new.left ≡ self.old.left) }
        ensures buffer { OnErr result (buf.new ≡ buf.old) }
        ensures piece { self.new.piece ≡ self.old.piece }
        ensures fails { self.new.fails ≡ self.old.fails }
    {
        let call = self.calls;
        self.calls = call.saturating_add(1);
        if self.fails.as_slice().contains(&call) {
            self.faults = self.faults.saturating_add(1);
            return Err(Failed);
        }
        let count = self.piece.min(buf.len()).min(self.left.len());
        let front = &self.left.as_slice()[..count];
        buf[..count].copy_from_slice(front);
        self.left.drop_front(count);
        Ok(count)
    }
}

/// Keeps what it is given, and fails at the calls whose numbers, from 0, are listed in `fails`.
///
/// `calls` counts the writes so far and `faults` those that failed; each stays at 18446744073709551615 once it is there.
#[derive(Debug, Drop)]
pub struct MemSink {
    pub taken: List<u8>,
    pub fails: List<u64>,
    pub calls: u64,
    pub faults: u64,
}

impl MemSink {
    /// A sink that has taken nothing, before its first write. `fails` lists calls from 0.
    pub fn new(alloc: Global, fails: List<u64>) -> MemSink
        ensures taken { result.taken ≡ [] }
        ensures fails { result.fails ≡ fails }
        ensures calls { result.calls ≡ 0 }
        ensures faults { result.faults ≡ 0 }
    {
        MemSink {
            taken: List::new(alloc),
            fails,
            calls: 0,
            faults: 0,
        }
    }
}

impl Sink for MemSink {
    ghost taken = { λ s. Some s.taken };

    ghost faults = { λ s. s.faults };

    /// Takes all of the bytes, or nothing: where the call is listed it fails, and else memory may run out.
    fn write(&mut self, bytes: &[u8]) -> Result<usize, IoErr>
        ensures puts { Puts (Some self.old.taken) (Some self.new.taken) result bytes.now }
        ensures cause { HasIoCause self.old.faults self.new.faults result }
        ensures refused { IsErrOf result IoErr.Failed ↔ Contains self.old.fails self.old.calls }
        ensures count { IfOk result (λ n. n ≡ length bytes.now) }
        ensures whole { OnOk result (self.new.taken ≡ self.old.taken ++ bytes.now) }
        ensures none { OnErr result (self.new.taken ≡ self.old.taken) }
        ensures calls { self.new.calls ≡ next_count self.old.calls }
        ensures counted { IsErrOf result IoErr.Failed → self.new.faults ≡ next_count self.old.faults }
        ensures fails { self.new.fails ≡ self.old.fails }
    {
        let call = self.calls;
        self.calls = call.saturating_add(1);
        if self.fails.as_slice().contains(&call) {
            self.faults = self.faults.saturating_add(1);
            return Err(IoErr::Failed);
        }
        self.taken.extend(bytes)?;
        Ok(bytes.len())
    }
}
