//! What the sentences on a violation are made of, as they print it.
ghost use Rattle.std.specs.Prelude.{Some};
ghost use Rattle.tmw_show.specs.SentenceParts.{before_text, left_text, read_text, writer_text};

use std::fmt;
use tmw_reason::ValueSource;
use tmw_texts::{TransactionName, Value};

/// Prints who read which value from which register. These values have names.
#[derive(Clone, Copy)]
pub struct Read<'a>(pub &'a [u64], pub ValueSource);

impl fmt::Display for Read<'_> {
    ghost output = { λ read. Some (read_text read.0.now read.1) };

    fn fmt<W: fmt::Write>(&self, f: &mut fmt::Formatter<W>) -> fmt::Result {
        let (reader, register) = (TransactionName(self.1.reader), self.1.register.get());
        let value = Value(self.0, self.1.value);
        write!(f, "{reader} read {value} from register {register}")
    }
}

/// Prints who left which value. These values have names.
#[derive(Clone, Copy)]
pub struct Left<'a>(pub &'a [u64], pub usize, pub u64);

impl fmt::Display for Left<'_> {
    ghost output = { λ left. Some (left_text left.0.now left.1 left.2) };

    fn fmt<W: fmt::Write>(&self, f: &mut fmt::Formatter<W>) -> fmt::Result {
        let (rival, value) = (TransactionName(self.1), Value(self.0, self.2));
        write!(f, "{rival} left {value}")
    }
}

/// Prints the transaction that left a value, or the start.
#[derive(Clone, Copy)]
pub struct Writer(pub Option<usize>);

impl fmt::Display for Writer {
    ghost output = { λ writer. Some (writer_text writer.0) };

    fn fmt<W: fmt::Write>(&self, f: &mut fmt::Formatter<W>) -> fmt::Result {
        match self.0 {
            Some(place) => {
                let writer = TransactionName(place);
                write!(f, "{writer}")
            }
            None => write!(f, "the start"),
        }
    }
}

/// Prints that the one stands before the other.
#[derive(Clone, Copy)]
pub struct Before(pub usize, pub usize);

impl fmt::Display for Before {
    ghost output = { λ pair. Some (before_text pair.0 pair.1) };

    fn fmt<W: fmt::Write>(&self, f: &mut fmt::Formatter<W>) -> fmt::Result {
        let (one, other) = (TransactionName(self.0), TransactionName(self.1));
        write!(f, "{one} before {other}")
    }
}
