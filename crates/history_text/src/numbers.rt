//! Words that are so many numbers.

ghost use Rattle.std.specs.Prelude.{◌≡◌, ◌≢◌, ◌∷◌, [], ℕ, IfSome, IfNone, decimal};
ghost use Rattle.trace_lines.specs.Words.{seen};
ghost use Rattle.history_text.specs.HistoryText.{IsSmall};

use crate::word::small;

/// The one number that these words are.
pub fn one(words: &[&[u8]]) -> Option<u32>
    ensures some { IfSome result (λ a. seen words.now ≡ decimal a ∷ []) }
    ensures none { IfNone result ((a : ℕ) → IsSmall a → seen words.now ≢ decimal a ∷ []) }
{
    let [a] = words else {
        return None;
    };
    small(a)
}

/// The two numbers that these words are.
pub fn two(words: &[&[u8]]) -> Option<(u32, u32)>
    ensures some { IfSome result (λ n. seen words.now ≡ decimal n.0 ∷ decimal n.1 ∷ []) }
    ensures none { IfNone result ((a b : ℕ) → IsSmall a → IsSmall b → seen words.now ≢ decimal a ∷ decimal b ∷ []) }
{
    let [a, b] = words else {
        return None;
    };
    Some((small(a)?, small(b)?))
}

/// The number that each of three words is.
pub fn three(a: &[u8], b: &[u8], c: &[u8]) -> Option<(u32, u32, u32)>
    ensures some { IfSome result (λ n. (a.now ≡ decimal n.0) × (b.now ≡ decimal n.1) × (c.now ≡ decimal n.2)) }
    ensures none { IfNone result ((x y z : ℕ) → IsSmall x → IsSmall y → IsSmall z
        → a.now ≡ decimal x → b.now ≡ decimal y → c.now ≡ decimal z → ⊥) }
{
    Some((small(a)?, small(b)?, small(c)?))
}
