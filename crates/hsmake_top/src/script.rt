//! A script, read piece by piece and command by command.
ghost use Rattle.std.specs.Prelude.{◌≡◌, ◌≤◌, ◌<◌, ◌+◌, [], ℕ, List, IfOk, Ok, true, false, length, drop};
ghost use Rattle.std.specs.Option.{IfSome};
ghost use Rattle.std.specs.Io.KnownBytes.{Consumes, IsAtEnd, Keeps};
ghost use Rattle.mk_io.specs.Outside.{HasIoCause, IsFailed};
ghost use Rattle.session_lang.specs.Script.{limit};
ghost use Rattle.hsmake_top.specs.Ahead.{pending, place, seen, IsLastRead, IsLonger, IsNext, IsWithin, ReadsOn, StopsInPart};

use mk_io::outside::{IoErr, Source};
use session_lang::command::{Command, Parsed, next_command};
use std::alloc::Global;

/// How many bytes of a script are looked at.
const LIMIT: usize = 268_435_456;

/// A script: the bytes that were read and are kept, how many of them the commands so far took, and how many bytes of
/// the input stood before those that are kept.
#[derive(Drop)]
pub struct Script {
    buffer: Vec<u8>,
    at: usize,
    start: usize,
}

/// What came of reading on: bytes, the end of the input, or the limit in the middle of the input.
#[derive(Clone, Copy, Debug)]
enum More {
    Read,
    End,
    Cut,
}

/// What a script goes on with: a command that takes `used` bytes, or none, with the bad place, counted in bytes from 0.
#[derive(Clone, Copy, Debug)]
pub enum Next {
    Whole { command: Command, used: usize },
    Bad(usize),
}

/// Takes bytes off the front.
fn drop_front(bytes: &mut Vec<u8>, count: usize)
    requires { count ≤ length bytes.old.items }
    ensures { bytes.new.items ≡ drop count bytes.old.items }
{
    let rest = bytes.len() - count;
    bytes.rotate_left(count);
    bytes.truncate(rest);
}

/// Whether the input has one more byte, which is taken.
fn goes_on<S: Source>(input: &mut S) -> Result<bool, IoErr>
    ensures more { result ≡ Ok true → IfSome (S.left input.old) (λ bytes. 0 < length bytes) }
    ensures end { result ≡ Ok false → IsAtEnd (S.left input.old) }
    ensures last { (last : List ℕ) × Consumes (S.left input.old) (S.left input.new) last × (length last ≤ 1) }
    ensures stopped { IsFailed result → Keeps (S.left input.old) (S.left input.new) }
    ensures cause { HasIoCause (S.faults input.old) (S.faults input.new) result }
{
    let mut piece = [0u8; 1];
    let count = input.read(&mut piece)?;
    Ok(count > 0)
}

impl Script {
    /// A script of which nothing was read.
    pub fn new(alloc: Global) -> Script
        ensures within { IsWithin result }
        ensures pending { pending result ≡ [] }
        ensures place { place result ≡ 0 }
    {
        Script {
            buffer: Vec::new(alloc),
            at: 0,
            start: 0,
        }
    }

    /// The bytes that were read and that no command has taken.
    pub fn ahead(&self) -> &[u8]
        requires { IsWithin self.now }
        ensures { result.now ≡ pending self.now }
    {
        &self.buffer[self.at..]
    }

    /// Takes the bytes of a command.
    pub fn advance(&mut self, used: usize)
        requires within { IsWithin self.old }
        requires used { used ≤ length (pending self.old) }
        ensures within { IsWithin self.new }
        ensures pending { pending self.new ≡ drop used (pending self.old) }
        ensures place { place self.new ≡ place self.old + used }
    {
        self.at += used;
    }

    /// Gives up the bytes that the commands so far took.
    fn shift(&mut self)
        requires { IsWithin self.old }
        ensures within { IsWithin self.new }
        ensures pending { pending self.new ≡ pending self.old }
        ensures place { place self.new ≡ place self.old }
        ensures seen { seen self.new ≡ seen self.old }
        ensures at { self.new.at ≡ 0 }
    {
        if self.at > 0 {
            drop_front(&mut self.buffer, self.at);
            self.start += self.at;
            self.at = 0;
        }
    }

    /// Reads more bytes, up to the limit. At `Cut` the limit was reached, and a byte behind it was taken from the input.
    fn read_more<S: Source>(&mut self, input: &mut S) -> Result<More, IoErr>
        requires { IsWithin self.old }
        ensures within { IsWithin self.new }
        ensures read { result ≡ Ok More.Read → (bytes : List ℕ) × Consumes (S.left input.old) (S.left input.new) bytes × IsLonger self.old self.new bytes × (seen self.old < seen self.new) }
        ensures place { place self.new ≡ place self.old }
        ensures end { result ≡ Ok More.End → IsAtEnd (S.left input.old) }
        ensures cut { result ≡ Ok More.Cut → (seen self.old ≡ limit) × IfSome (S.left input.old) (λ bytes. 0 < length bytes) }
        ensures last { IsLastRead (S.left input.old) (S.left input.new) (seen self.old) }
        ensures stopped { IsFailed result → Keeps (S.left input.old) (S.left input.new) }
        ensures cause { HasIoCause (S.faults input.old) (S.faults input.new) result }
    {
        let room = LIMIT - self.start - self.buffer.len();
        if room == 0 {
            return if goes_on(input)? {
                Ok(More::Cut)
            } else {
                Ok(More::End)
            };
        }
        self.shift();
        let mut piece = [0u8; 8192];
        let most = room.min(8192);
        let count = input.read(&mut piece[..most])?;
        if count == 0 {
            return Ok(More::End);
        }
        self.buffer.extend_from_slice(&piece[..count])?;
        Ok(More::Read)
    }

    /// The next command, for which as much is read as it takes, or the bad place.
    pub fn next<S: Source>(&mut self, input: &mut S) -> Result<Next, IoErr>
        requires { IsWithin self.old }
        ensures within { IsWithin self.new }
        ensures next { IfOk result (λ next. IsNext (S.left input.old) (S.left input.new) self.old self.new next) }
        ensures reads { ReadsOn (S.left input.old) (S.left input.new) (place self.old) (pending self.old) }
        ensures stopped { IsFailed result → StopsInPart (S.left input.old) (S.left input.new) (place self.old) (pending self.old) }
        ensures cause { HasIoCause (S.faults input.old) (S.faults input.new) result }
    {
        loop {
            match next_command(self.ahead()) {
                Parsed::Whole { command, used } => return Ok(Next::Whole { command, used }),
                Parsed::Bad => return Ok(Next::Bad(self.start + self.at)),
                Parsed::More => {}
            }
            match self.read_more(input)? {
                More::Read => {}
                More::End => return Ok(Next::Bad(self.start + self.at)),
                More::Cut => return Ok(Next::Bad(LIMIT)),
            }
        }
    }
}
