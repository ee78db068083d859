//! Counters that cost nothing, and that generic code can't make.
ghost use Rattle.std.specs.Prelude.{◌≡◌, ◌+◌, ◌<◌, ℕ};

use std::marker::Model;
use std::sync::ledger::{Book, Share};
use std::thread::Threads;

/// What keeps a count. Code that is generic in it can't make one.
pub trait Ledger: Drop {
    /// The count so far.
    ghost count: { Self → ℕ };

    /// Adds one to the count.
    fn add_one(&mut self)
        ensures { count self.new ≡ count self.old + 1 };
}

/// The tokens of a ledger of std, which take no bytes.
#[derive(Drop)]
pub struct Tokens<K: std::sync::ledger::Ledger> {
    pub book: Book<K>,
    pub share: Share<K>,
    pub ghost some: { 0 < share.parts },
}

impl<K: std::sync::ledger::Ledger> Ledger for Tokens<K> {
    ghost count = { λ t. t.book.total };

    fn add_one(&mut self) {
        self.book.add(&mut self.share, 1);
    }
}

/// How many modules were checked. Only `tick` changes it.
#[derive(Drop)]
pub struct Steps<L: Ledger> {
    ledger: L,
}

impl<L: Ledger> Model for Steps<L> {
    ghost Value = { ℕ };

    ghost view = { λ s. L.count s.ledger };
}

impl<L: Ledger> Steps<L> {
    /// A counter at 0. It takes the runtime, so that code which is given none has nothing to make one with.
    pub fn new<R: Threads>(_rt: &R, ledger: L) -> Steps<L>
        requires { L.count ledger ≡ 0 }
        ensures { result ≡ 0 }
    {
        Steps { ledger }
    }

    /// Counts one check.
    pub fn tick(&mut self)
        ensures { self.new ≡ self.old + 1 }
    {
        self.ledger.add_one();
    }
}

/// How many declarations were decoded. Only `tick` changes it.
#[derive(Drop)]
pub struct Decodes<L: Ledger> {
    ledger: L,
}

impl<L: Ledger> Model for Decodes<L> {
    ghost Value = { ℕ };

    ghost view = { λ s. L.count s.ledger };
}

impl<L: Ledger> Decodes<L> {
    /// A counter at 0.
    pub fn new(ledger: L) -> Decodes<L>
        requires { L.count ledger ≡ 0 }
        ensures { result ≡ 0 }
    {
        Decodes { ledger }
    }

    /// Counts one decoded declaration.
    pub fn tick(&mut self)
        ensures { self.new ≡ self.old + 1 }
    {
        self.ledger.add_one();
    }
}
