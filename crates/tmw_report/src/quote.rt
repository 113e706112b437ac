ghost use Rattle.tmw_report.specs.Shared.{Puts, front_of, version_digit};
ghost use Rattle.std.specs.Prelude.{◌≡◌, ◌<◌};
ghost use Rattle.tmw_lines.specs.Lines.{format_by, unread_bytes};
ghost use Rattle.tmw_report.specs.SendText.{fault_of};
ghost use Rattle.tmw_report.specs.Quote.{advice_of, escaped, escaped_byte, hex_digit, is_empty_header, number_of, quote_end, quoted, wrong_of};
ghost use Rattle.tmw_report.specs.QuotesHeld.{QuotesHeld, text_of};

use crate::fault::Fault;
use crate::fault_answer::fault_of;
use crate::fault_line::put_numbered;
use tmw_lines::TextFault;
use tmw_streams::{IoFault, Sink, Texts, put_all, put_lines};
use tmw_trace::{TraceLines, Version};

/// The most bytes of a line that are quoted.
const MOST_QUOTED: usize = 80;

/// The message for an empty first line.
const EMPTY: &[u8] =
    b"error: the input is empty or begins with an empty line; the first line must be a header, such as opacity-trace 1 8";

/// A line of a trace that has a fault.
#[derive(Drop)]
pub(crate) struct Quote<'a> {
    number: u64,
    fault: Fault,
    version: Version,
    line: &'a [u8],
}

/// The texts of such lines.
struct QuoteTexts;

impl Texts<Quote<'_>> for QuoteTexts {
    ghost text = { text_of };

    fn put_text<K: Sink>(sink: &mut K, quote: &Quote<'_>) -> Result<(), IoFault> {
        if is_empty_header(quote.fault, quote.line) {
            return put_all(sink, EMPTY);
        }
        let wrong = wrong_of(quote.fault, quote.version);
        put_numbered(sink, b"error: line ", quote.number, wrong)?;
        put_quoted(sink, quote.line)?;
        put_all(sink, advice_of(quote.fault))
    }
}

/// Returns the fault that reports a fault which the reader of a trace has returned. It tells on the sink for errors which
/// line has the fault, what is wrong with that line and how it begins, as far as the sink takes it; and nothing of a fault
/// that is at no line. It takes no memory.
pub fn quote_fault<E: Sink>(errors: &mut E, lines: &TraceLines, fault: TextFault) -> Fault
    ensures fault { result ≡ fault_of fault }
    ensures told { QuotesHeld E.to (number_of (fault_of fault)) (fault_of fault)
        (format_by lines.now) (front_of (unread_bytes lines.now)) errors.old errors.new }
{
    let fault = fault_of(fault);
    send_quote(errors, lines, fault);
    fault
}

/// Tells on the sink for errors which line has the fault.
fn send_quote<E: Sink>(errors: &mut E, lines: &TraceLines, fault: Fault)
    ensures { QuotesHeld E.to (number_of fault) fault (format_by lines.now)
        (front_of (unread_bytes lines.now)) errors.old errors.new }
{
    let Some(number) = number_of(fault) else {
        return;
    };
    let quote = Quote {
        number,
        fault,
        version: lines.format(),
        line: lines.front(),
    };
    let _sent = put_lines::<QuoteTexts, Quote<'_>, E>(errors, &[quote]);
}

/// The number of the line that the fault is at.
fn number_of(fault: Fault) -> Option<u64>
    ensures { result ≡ number_of fault }
{
    match fault {
        Fault::BadHeader => Some(1),
        Fault::BadLine(number) | Fault::Cut(number) => Some(number),
        _ => None,
    }
}

/// Tells whether that line is the first and empty, as that of no bytes at all is.
fn is_empty_header(fault: Fault, line: &[u8]) -> bool
    ensures { result ≡ is_empty_header fault line.now }
{
    matches!(fault, Fault::BadHeader) && line.is_empty()
}

/// What is wrong with that line.
fn wrong_of(fault: Fault, version: Version) -> &'static [u8]
    ensures { result.now ≡ wrong_of fault (version_digit version) }
{
    match (fault, version) {
        (Fault::BadHeader, _) => b" is not a header, such as opacity-trace 1 8: ",
        (Fault::Cut(_), _) => b" is incomplete (no newline at the end): ",
        (_, Version::One) => b" is not an event of a version 1 trace: ",
        (_, Version::Two) => b" is not an event of a version 2 trace: ",
    }
}

/// Returns what the message advises after the quoted line, if anything. Without its first line, a trace is empty.
fn advice_of(fault: Fault) -> &'static [u8]
    ensures { result.now ≡ advice_of fault }
{
    match fault {
        Fault::Cut(number) if number > 1 => {
            b". Was the recorder killed? Drop this line with: sed '$d'"
        }
        _ => b"",
    }
}

/// Writes the line's first bytes in quotes.
fn put_quoted<K: Sink>(sink: &mut K, line: &[u8]) -> Result<(), IoFault>
    ensures { Puts K.to sink.old (quoted line.now) sink.new result }
{
    put_all(sink, b"\"")?;
    put_escaped(sink, &line[..MOST_QUOTED.min(line.len())])?;
    put_all(sink, quote_end(line))
}

/// The end of a quoted line.
fn quote_end(line: &[u8]) -> &'static [u8]
    ensures { result.now ≡ quote_end line.now }
{
    if line.len() > MOST_QUOTED {
        b"\"..."
    } else {
        b"\""
    }
}

/// Writes each of the bytes as it is quoted.
fn put_escaped<K: Sink>(sink: &mut K, bytes: &[u8]) -> Result<(), IoFault>
    ensures { Puts K.to sink.old (escaped bytes.now) sink.new result }
{
    for byte in bytes {
        put_escaped_byte(sink, *byte)?;
    }
    Ok(())
}

/// Writes the byte as it is quoted.
fn put_escaped_byte<K: Sink>(sink: &mut K, byte: u8) -> Result<(), IoFault>
    ensures { Puts K.to sink.old (escaped_byte byte) sink.new result }
{
    if byte == b'"' || byte == b'\\' {
        return put_all(sink, &[b'\\', byte]);
    }
    if byte >= b' ' && byte <= b'~' {
        return put_all(sink, &[byte]);
    }
    put_all(
        sink,
        &[b'\\', b'x', hex_digit(byte / 16), hex_digit(byte % 16)],
    )
}

/// The digit of base sixteen.
fn hex_digit(number: u8) -> u8
    requires { number < 16 }
    ensures { result ≡ hex_digit number }
{
    if number < 10 {
        b'0' + number
    } else {
        b'a' - 10 + number
    }
}
