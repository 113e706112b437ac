ghost use Rattle.tmw_trace.specs.Shared.{Puts, line};
ghost use Rattle.std.specs.Prelude.{◌≡◌};
ghost use Rattle.tmw_trace.specs.Text.{header_text, initial_text, numbers_text, values_text, version_digit};

use crate::header::Header;
use crate::version::Version;
use tmw_streams::{IoFault, Sink, put_all, put_with_number};

/// Writes the header's line, with its line feed. It takes no memory. After a failed write a beginning of the line went out,
/// and not all of it.
pub fn put_header<K: Sink>(sink: &mut K, header: &Header) -> Result<(), IoFault>
    ensures { Puts K.to sink.old (line (header_text header.now)) sink.new result }
{
    put_header_text(sink, header)?;
    put_all(sink, b"\n")
}

/// Writes the header's text.
fn put_header_text<K: Sink>(sink: &mut K, header: &Header) -> Result<(), IoFault>
    ensures { Puts K.to sink.old (header_text header.now) sink.new result }
{
    put_all(sink, b"opacity-trace ")?;
    put_numbers(sink, header)
}

/// Writes the version, the number of registers, and the values at the start.
fn put_numbers<K: Sink>(sink: &mut K, header: &Header) -> Result<(), IoFault>
    ensures { Puts K.to sink.old (numbers_text header.now) sink.new result }
{
    let registers = header.registers.get();
    put_all(sink, &[digit_of(header.version), b' ', b'0' + registers])?;
    put_initial(sink, header.version, &header.initial[..registers as usize])
}

/// Writes the values at the start, where the version tells them.
fn put_initial<K: Sink>(sink: &mut K, version: Version, values: &[u64]) -> Result<(), IoFault>
    ensures { Puts K.to sink.old (initial_text version values.now) sink.new result }
{
    match version {
        Version::One => Ok(()),
        Version::Two => put_values(sink, values),
    }
}

/// Writes each of the values after one space.
fn put_values<K: Sink>(sink: &mut K, values: &[u64]) -> Result<(), IoFault>
    ensures { Puts K.to sink.old (values_text values.now) sink.new result }
{
    for value in values {
        put_with_number(sink, b" ", *value)?;
    }
    Ok(())
}

/// The version's digit.
fn digit_of(version: Version) -> u8
    ensures { result ≡ version_digit version }
{
    match version {
        Version::One => b'1',
        Version::Two => b'2',
    }
}
