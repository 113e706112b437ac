ghost use Rattle.tmw_trace.specs.Shared.{IsNoHeader, Registers};
ghost use Rattle.std.specs.Prelude.{All, IfNone, IfSome, List, drop, length, take, true, ℕ, ◌+◌, ◌<◌, ◌^◌, ◌≡◌};
ghost use Rattle.tmw_trace.specs.Version.{are_zeros};
ghost use Rattle.tmw_trace.specs.Text.{header_text, numbers_text, values_text, trace_grammar, FitsHeader};
ghost use Rattle.tmw_trace.specs.declared.header.Header.{Header};
ghost use Rattle.tmw_trace.specs.FirstValue.{HasStart, IsFirstValue, IsNoFirstValue};

use crate::header::Header;
use crate::version::Version;
use tmw_events::{MOST_REGISTERS, Registers, number_of};
use tmw_lines::length_before;

/// Returns the header whose text these bytes are, and `None` for all other bytes. The text is a trace's first line
/// without its line feed.
pub fn header_of(bytes: &[u8]) -> Option<Header>
    ensures some { IfSome result (λ header. bytes.now ≡ header_text header) }
    ensures fits { IfSome result FitsHeader }
    ensures none { IfNone result (IsNoHeader trace_grammar bytes.now) }
{
    match bytes {
        [
            b'o',
            b'p',
            b'a',
            b'c',
            b'i',
            b't',
            b'y',
            b'-',
            b't',
            b'r',
            b'a',
            b'c',
            b'e',
            b' ',
            rest @ ..,
        ] => { numbers_of(rest) }
        _ => None,
    }
}

/// The header that follows its first word.
fn numbers_of(bytes: &[u8]) -> Option<Header>
    ensures some { IfSome result (λ header. bytes.now ≡ numbers_text header) }
    ensures fits { IfSome result FitsHeader }
    ensures none { IfNone result
        ((header : Header) → FitsHeader header → bytes.now ≡ numbers_text header → ⊥) }
{
    match bytes {
        [version, b' ', registers, values @ ..] => {
            let Some(registers) = registers_of(*registers) else {
                return None;
            };
            start_of(*version, registers, values)
        }
        _ => None,
    }
}

/// The header with this version's digit, these registers and the values at the start that follow.
fn start_of(version: u8, registers: Registers, values: &[u8]) -> Option<Header>
    ensures some { IfSome result (λ header. HasStart version registers.number values.now header) }
    ensures fits { IfSome result FitsHeader }
    ensures none { IfNone result ((header : Header) → FitsHeader header
        → HasStart version registers.number values.now header → ⊥) }
{
    match version {
        b'1' if values.is_empty() => Some(Header {
            version: Version::One,
            registers,
            initial: [0; MOST_REGISTERS],
        }),
        b'2' => {
            let Some(initial) = values_of(registers, values) else {
                return None;
            };
            Some(Header {
                version: Version::Two,
                registers,
                initial,
            })
        }
        _ => None,
    }
}

/// The number of registers that this byte is the digit of.
fn registers_of(byte: u8) -> Option<Registers>
    ensures some { IfSome result (λ registers. byte ≡ 48 + registers.number) }
    ensures none { IfNone result ((registers : Registers) → byte ≡ 48 + registers.number → ⊥) }
{
    if byte < b'0' {
        return None;
    }
    Registers::new(byte - b'0')
}

/// The values that these bytes are the text of, each after one space: as many as there are registers.
fn values_of(registers: Registers, bytes: &[u8]) -> Option<[u64; MOST_REGISTERS]>
    ensures some { IfSome result
        (λ values. bytes.now ≡ values_text (take registers.number values)) }
    ensures fit { IfSome result (All (λ value. value < 2 ^ 64)) }
    ensures zeros { IfSome result (λ values. are_zeros (drop registers.number values) ≡ true) }
    ensures none { IfNone result ((values : List ℕ) → length values ≡ registers.number
        → All (λ value. value < 2 ^ 64) values → bytes.now ≡ values_text values → ⊥) }
{
    let mut values = [0; MOST_REGISTERS];
    let mut rest = bytes;
    for index in 0..registers.number as usize {
        let Some((value, length)) = first_value(rest) else {
            return None;
        };
        values[index] = value;
        rest = &rest[length..];
    }
    if rest.is_empty() { Some(values) } else { None }
}

/// Reads the value after the space at the front, up to the next space or the end, and returns it and the length of
/// both.
pub fn first_value(bytes: &[u8]) -> Option<(u64, usize)>
    ensures some { IfSome result (λ found. IsFirstValue found.0 found.1 bytes.now) }
    ensures none { IfNone result (IsNoFirstValue bytes.now) }
{
    match bytes {
        [b' ', rest @ ..] => {
            let length = length_before(rest, b' ');
            let Some(value) = number_of(&rest[..length]) else {
                return None;
            };
            Some((value, length + 1))
        }
        _ => None,
    }
}
