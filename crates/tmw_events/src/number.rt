ghost use Rattle.std.specs.Prelude.{◌≡◌, ℕ, ◌<◌, ◌^◌, IfSome, IfNone, SomeIff};
ghost use Rattle.std.specs.Str.Parse.{AllDigits, digits_value};
ghost use Rattle.std.specs.Fmt.{decimal};

/// Returns the 64-bit number that these bytes write in decimal, without sign and without leading zeros. `None` for
/// all other bytes.
pub fn number_of(bytes: &[u8]) -> Option<u64>
    ensures some { IfSome result (λ number. bytes.now ≡ decimal number) }
    ensures none { IfNone result ((number : ℕ) → number < 2 ^ 64 → bytes.now ≡ decimal number → ⊥) }
{
    if bytes.is_empty() {
        return None;
    }
    if bytes[0] == b'0' && bytes.len() > 1 {
        return None;
    }
    digits_number(bytes)
}

/// The number that these digits write, where they are digits and it has 64 bits.
fn digits_number(bytes: &[u8]) -> Option<u64>
    ensures { SomeIff result (AllDigits 10 bytes.now × (digits_value 10 bytes.now < 2 ^ 64))
        (digits_value 10 bytes.now) }
{
    let mut number: u64 = 0;
    for byte in bytes {
        if !byte.is_ascii_digit() {
            return None;
        }
        let Some(tenfold) = number.checked_mul(10) else {
            return None;
        };
        let Some(sum) = tenfold.checked_add((*byte - b'0') as u64) else {
            return None;
        };
        number = sum;
    }
    Some(number)
}
