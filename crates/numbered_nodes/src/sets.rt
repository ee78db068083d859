//! Sets of numbers below a bound, one bit each.

ghost use Rattle.std.specs.Prelude.{◌≡◌, ◌↔◌, true, IsTrue, IfSome, IfNone, ◌≤◌, ◌<◌, ◌||◌, ℕ, IfOk, nat_eq, false, ◌*◌, ◌+◌};
ghost use Rattle.numbered_nodes.specs.Bits.{room, room_for, has};

use crate::word::{below, next_bit};
use std::alloc::{AllocError, Global};
use std::marker::Model;

/// A set of numbers from 0, which has room for those below a bound. Contracts see it as its words of 64 bits.
#[derive(Drop)]
pub struct NumberSet {
    words: Vec<u64>,
}

impl Model for NumberSet {
    ghost use Rattle.std.specs.Prelude.{List, ℕ};

    ghost Value = { List ℕ };

    ghost view = { λ s. s.words.items };
}

impl NumberSet {
    /// The set of no number, with room for the numbers below `bound` and for `bound` itself. AllocError where
    /// memory runs out.
    pub fn empty(alloc: Global, bound: usize) -> Result<NumberSet, AllocError>
        ensures room { IfOk result (λ s. room s ≡ room_for bound) }
        ensures none { IfOk result (λ s. (k : ℕ) → has s k ≡ false) }
    {
        let mut words = Vec::new(alloc);
        for turn in 0..bound / 64 + 1 {
            let _ = turn;
            words.push(0)?;
        }
        Ok(NumberSet { words })
    }

    /// Whether a number that the set has room for stands in it.
    pub fn contains(&self, number: usize) -> bool
        requires { number < room self.now }
        ensures { result ≡ has self.now number }
    {
        self.words[number / 64] >> (number % 64) & 1 == 1
    }

    /// Puts a number that the set has room for into it.
    pub fn insert(&mut self, number: usize)
        requires { number < room self.old }
        ensures room { room self.new ≡ room self.old }
        ensures has { (k : ℕ) → has self.new k ≡ (nat_eq k number || has self.old k) }
    {
        let at = number / 64;
        self.words[at] = self.words[at] | 1 << (number % 64);
    }

    /// Puts all numbers of another set of the same room into it.
    pub fn add_all(&mut self, other: &NumberSet)
        requires { room self.old ≡ room other.now }
        ensures room { room self.new ≡ room self.old }
        ensures has { (k : ℕ) → has self.new k ≡ (has self.old k || has other.now k) }
    {
        for i in 0..self.words.len() {
            self.words[i] = self.words[i] | other.words[i];
        }
    }

    /// A set of the same numbers and the same room. AllocError where memory runs out.
    pub fn copy(&self, alloc: Global) -> Result<NumberSet, AllocError>
        ensures { IfOk result (λ s. s ≡ self.now) }
    {
        let words = Vec::from_slice(alloc, &self.words)?;
        Ok(NumberSet { words })
    }

    /// Whether all its numbers are in another set of the same room.
    pub fn is_within(&self, other: &NumberSet) -> bool
        requires { room self.now ≡ room other.now }
        ensures { IsTrue result ↔ ((k : ℕ) → has self.now k ≡ true → has other.now k ≡ true) }
    {
        for i in 0..self.words.len() {
            let mine = self.words[i];
            let theirs = other.words[i];
            if mine | theirs != theirs {
                return false;
            }
        }
        true
    }

    /// The least number of the word `at`, from its place `low` on and below `bound`, that stands in this set and not in
    /// the other.
    fn outside_in(&self, other: &NumberSet, at: usize, low: usize, bound: usize) -> Option<usize>
        requires mine { bound ≤ room self.now }
        requires theirs { bound ≤ room other.now }
        requires at { at * 64 < bound }
        requires low { low < 64 }
        ensures some { IfSome result (λ k. (at * 64 + low ≤ k) × (k < bound) × (has self.now k ≡ true) × (has other.now k ≡ false)) }
        ensures least { IfSome result (λ k. (j : ℕ) → at * 64 + low ≤ j → j < k → has self.now j ≡ true → has other.now j ≡ true) }
        ensures none { IfNone result ((j : ℕ) → at * 64 + low ≤ j → j < at * 64 + 64 → j < bound → has self.now j ≡ true → has other.now j ≡ true) }
    {
        let mine = self.words[at];
        let theirs = other.words[at];
        match next_bit(mine & !theirs, low) {
            Some(place) => below(at * 64 + place, bound),
            None => None,
        }
    }

    /// The least number below `bound` that stands in this set and not in the other, in the words from `start` on.
    fn first_outside(&self, other: &NumberSet, start: usize, bound: usize) -> Option<usize>
        requires mine { bound ≤ room self.now }
        requires theirs { bound ≤ room other.now }
        ensures some { IfSome result (λ k. (start * 64 ≤ k) × (k < bound) × (has self.now k ≡ true) × (has other.now k ≡ false)) }
        ensures least { IfSome result (λ k. (j : ℕ) → start * 64 ≤ j → j < k → has self.now j ≡ true → has other.now j ≡ true) }
        ensures none { IfNone result ((j : ℕ) → start * 64 ≤ j → j < bound → has self.now j ≡ true → has other.now j ≡ true) }
    {
        for i in start..bound.div_ceil(64) {
            if let Some(number) = self.outside_in(other, i, 0, bound) {
                return Some(number);
            }
        }
        None
    }

    /// The least number from `from` on and below `bound` that stands in this set and not in the other, where both have room for them;
    /// None where there is none. A word of 64 numbers without one is passed by in one step.
    pub fn next_outside(&self, other: &NumberSet, from: usize, bound: usize) -> Option<usize>
        requires mine { bound ≤ room self.now }
        requires theirs { bound ≤ room other.now }
        ensures some { IfSome result (λ k. (from ≤ k) × (k < bound) × (has self.now k ≡ true) × (has other.now k ≡ false)) }
        ensures least { IfSome result (λ k. (j : ℕ) → from ≤ j → j < k → has self.now j ≡ true → has other.now j ≡ true) }
        ensures none { IfNone result ((j : ℕ) → from ≤ j → j < bound → has self.now j ≡ true → has other.now j ≡ true) }
    {
        if from >= bound {
            return None;
        }
        match self.outside_in(other, from / 64, from % 64, bound) {
            Some(number) => Some(number),
            None => self.first_outside(other, from / 64 + 1, bound),
        }
    }

    /// A number below `bound` that stands in this set and not in the other, where both have room for it, from the last word
    /// of 64 numbers that has one; None where there is none.
    pub fn late_outside(&self, other: &NumberSet, bound: usize) -> Option<usize>
        requires mine { bound ≤ room self.now }
        requires theirs { bound ≤ room other.now }
        ensures some { IfSome result (λ k. (k < bound) × (has self.now k ≡ true) × (has other.now k ≡ false)) }
        ensures none { IfNone result ((j : ℕ) → j < bound → has self.now j ≡ true → has other.now j ≡ true) }
    {
        let words = bound.div_ceil(64);
        for turn in 0..words {
            if let Some(number) = self.outside_in(other, words - 1 - turn, 0, bound) {
                return Some(number);
            }
        }
        None
    }
}
