//! Hexadecimal numbers.

ghost use Rattle.std.specs.Prelude.{◌≡◌, ◌+◌, ◌*◌, ◌^◌, ◌<◌, ◌≤◌, IfSome, IfNone, true, false};
ghost use Rattle.lackey_lines.specs.Accesses.{hex_number, hex_value, is_hex};

/// The digit that a byte is, of lower case.
fn digit_of(byte: u8) -> Option<u64>
    ensures some { IfSome result (λ digit. (is_hex byte ≡ true) × (digit ≡ hex_value byte)) }
    ensures small { IfSome result (λ digit. digit < 16) }
    ensures none { IfNone result (is_hex byte ≡ false) }
{
    match byte {
        b'0'..=b'9' => Some(u64::from(byte - b'0')),
        b'a'..=b'f' => Some(u64::from(byte - b'a') + 10),
        _ => None,
    }
}

/// The number that a digit behind this number makes, below 2^64.
fn with_digit(number: u64, digit: u64) -> Option<u64>
    requires { digit < 16 }
    ensures some { IfSome result (λ n. (number < 2 ^ 60) × (n ≡ number * 16 + digit)) }
    ensures none { IfNone result (2 ^ 60 ≤ number) }
{
    if number < 1 << 60 {
        Some(number * 16 + digit)
    } else {
        None
    }
}

/// The number that a word is: hexadecimal digits, at least one, below 2^64.
pub fn hex_number(word: &[u8]) -> Option<u64>
    ensures { result ≡ hex_number word.now }
{
    if word.is_empty() {
        return None;
    }
    let mut number = 0;
    for byte in word {
        number = with_digit(number, digit_of(*byte)?)?;
    }
    Some(number)
}
