ghost use Rattle.std.specs.Prelude.{◌≡◌, ℕ, List, [], ◌∷◌, ◌++◌, IfOk};
ghost use Rattle.tmw_streams.specs.BoundedSink.{bounded_bytes};
ghost use Rattle.tmw_streams.specs.ItemLines.{lines_of};
ghost use Rattle.tmw_streams.specs.PutsOn.{PutsOn};
ghost use Rattle.tmw_streams.specs.Transfers.{Puts};

use crate::bounded_sink::BoundedSink;
use crate::io_fault::IoFault;
use crate::put_bytes::put_all;
use crate::sink::Sink;

/// How items of a type are written: each has a text.
pub trait Texts<I> {
    /// The item's text.
    ghost text: { I → List ℕ };

    /// Writes the item's text, without a line feed. After a failed write a beginning of it went out, and not all.
    fn put_text<K: Sink>(sink: &mut K, item: &I) -> Result<(), IoFault>
        ensures { Puts K.to sink.old (text item.now) sink.new result };
}

/// Writes a line for each item, as many together as 4,096 bytes hold; a longer line goes out alone. It takes no
/// memory. After a failed write a beginning of the lines went out, and not all of them.
pub fn put_lines<T: Texts<I>, I, K: Sink>(sink: &mut K, items: &[I]) -> Result<(), IoFault>
    ensures { Puts K.to sink.old (lines_of T.text items.now) sink.new result }
{
    let mut held = BoundedSink::new();
    for item in items {
        pass_line::<T, I, K>(&mut held, sink, item)?;
    }
    put_all(sink, held.bytes())
}

/// Holds the item's line after the bytes held. If it doesn't fit, these and the line go out.
fn pass_line<T: Texts<I>, I, K: Sink>(
    held: &mut BoundedSink,
    sink: &mut K,
    item: &I,
) -> Result<(), IoFault>
    ensures { PutsOn K.to sink.old (bounded_bytes held.old ++ (T.text item.now ++ 10 ∷ []))
        (bounded_bytes held.new) sink.new result }
{
    let count = held.len();
    match put_line::<T, I, BoundedSink>(held, item) {
        Ok(()) => Ok(()),
        Err(_) => {
            held.truncate(count);
            put_all(sink, held.bytes())?;
            held.clear();
            put_line::<T, I, K>(sink, item)
        }
    }
}

/// Writes the item's line, with its line feed.
fn put_line<T: Texts<I>, I, K: Sink>(sink: &mut K, item: &I) -> Result<(), IoFault>
    ensures { Puts K.to sink.old (T.text item.now ++ 10 ∷ []) sink.new result }
{
    T::put_text(sink, item)?;
    put_all(sink, b"\n")
}
