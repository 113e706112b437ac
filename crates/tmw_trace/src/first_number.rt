ghost use Rattle.tmw_trace.specs.Shared.{decimal, get_or, line};
ghost use Rattle.std.specs.Prelude.{IfSome, drop, length, ◌++◌, ◌<◌, ◌≡◌, ◌≤◌};

/// Reads the number that these bytes begin with, up to a line feed, and returns it and the length of both. A number
/// of twenty digits, which may be too large for 64 bits, is left to `number_of`.
#[inline(always)]
pub fn first_number(bytes: &[u8]) -> Option<(u64, usize)>
    requires long { 20 ≤ length bytes.now }
    ensures some { IfSome result
        (λ found. bytes.now ≡ line (decimal found.0) ++ drop found.1 bytes.now) }
    ensures within { IfSome result (λ found. found.1 ≤ 20) }
{
    match bytes {
        [b'0', b'\n', ..] => Some((0, 2)),
        [first, ..] if b'1' <= *first && *first <= b'9' => first_digits(bytes),
        _ => None,
    }
}

/// Reads a number that begins with a digit other than 0. Nineteen digits need no check for overflow.
#[inline(always)]
fn first_digits(bytes: &[u8]) -> Option<(u64, usize)>
    requires long { 20 ≤ length bytes.now }
    requires above { 48 < get_or bytes.now 0 0 }
    requires digit { get_or bytes.now 0 0 ≤ 57 }
    ensures some { IfSome result
        (λ found. bytes.now ≡ line (decimal found.0) ++ drop found.1 bytes.now) }
    ensures within { IfSome result (λ found. found.1 ≤ 20) }
{
    let mut number: u64 = 0;
    for index in 0..20 {
        // (48 is the digit 0, and a byte below it wraps to more than 9)
        let digit = u64::from(bytes[index]).wrapping_sub(48);
        if digit > 9 {
            if bytes[index] != b'\n' {
                return None;
            }
            return Some((number, index + 1));
        }
        if index == 19 {
            return None;
        }
        number = number * 10 + digit;
    }
    None
}
