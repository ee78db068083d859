//! Words of 64 bits.
ghost use Rattle.std.specs.Prelude.{◌≡◌, ◌≤◌, ◌<◌, ℕ, Some, None, IfSome, IfNone, nat_lt, if◌then◌else◌};
ghost use Rattle.std.specs.Int.{bit_at};

/// The least place from `low` on at which a word has a 1; None where there is none.
pub fn next_bit(word: u64, low: usize) -> Option<usize>
    requires { low < 64 }
    ensures some { IfSome result (λ p. (low ≤ p) × (p < 64) × (bit_at word p ≡ 1)) }
    ensures least { IfSome result (λ p. (j : ℕ) → low ≤ j → j < p → bit_at word j ≡ 0) }
    ensures none { IfNone result ((j : ℕ) → low ≤ j → j < 64 → bit_at word j ≡ 0) }
{
    let rest = word >> low;
    if rest == 0 {
        return None;
    }
    Some(low + rest.trailing_zeros() as usize)
}

/// A number, where it is below a bound.
pub fn below(number: usize, bound: usize) -> Option<usize>
    ensures { result ≡ (if nat_lt number bound then Some number else None) }
{
    if number < bound { Some(number) } else { None }
}
