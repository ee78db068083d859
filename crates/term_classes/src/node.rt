//! What the arena holds.
use mk_base::name::Name;

/// A term as it was made. Its parts stand before it.
#[derive(Debug, Drop)]
pub enum Node {
    /// A variable that is to be solved, by its number.
    Free(u64),
    /// A variable that stays as it is, by its number.
    Rigid(u64),
    /// A constructor.
    Con(Name),
    /// A term applied to another, by their places.
    App(usize, usize),
}

/// What is known of a term: another of its class or itself, a term that says what the class is, its rank, and how
/// far the links below it go.
#[derive(Clone, Copy, Debug)]
pub struct Slot {
    pub link: usize,
    pub shape: usize,
    pub rank: u64,
    pub height: u8,
}

/// A slot as it was before a write.
#[derive(Clone, Copy, Debug)]
pub struct Saved {
    pub at: usize,
    pub slot: Slot,
}

/// Two terms that are to be made equal.
#[derive(Clone, Copy, Debug)]
pub struct Pair {
    pub left: usize,
    pub right: usize,
}
