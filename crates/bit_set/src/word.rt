//! A single word of 64 bits, the lowest of which has the number 0.

ghost use Rattle.std.specs.Prelude.{◌≡◌, ◌≢◌, ℕ, ◌<◌, ◌≤◌, cond, IfSome, IfNone};
ghost use Rattle.std.specs.Int.{bit_at};

/// The word with this bit set or cleared.
pub(crate) fn with_bit(word: u64, bit: u32, is_set: bool) -> u64
    requires { bit < 64 }
    ensures same { bit_at result bit ≡ cond is_set 1 0 }
    ensures others { (k : ℕ) → k < 64 → k ≢ bit → bit_at result k ≡ bit_at word k }
{
    if is_set {
        word | 1 << bit
    } else {
        word & !(1 << bit)
    }
}

/// Whether this bit is set.
pub(crate) fn has_bit(word: u64, bit: u32) -> bool
    requires { bit < 64 }
    ensures { bit_at word bit ≡ cond result 1 0 }
{
    word >> bit & 1 == 1
}

/// The lowest bit that is set, from this one on.
pub(crate) fn lowest_from(word: u64, bit: u32) -> Option<u32>
    requires { bit < 64 }
    ensures set { IfSome result (λ k. (bit ≤ k) × (k < 64) × (bit_at word k ≡ 1)) }
    ensures lowest { IfSome result (λ k. (j : ℕ) → bit ≤ j → j < k → bit_at word j ≡ 0) }
    ensures none { IfNone result ((j : ℕ) → bit ≤ j → bit_at word j ≡ 0) }
{
    let rest = word >> bit;
    if rest == 0 {
        None
    } else {
        Some(bit + rest.trailing_zeros())
    }
}
