ghost use Rattle.std.specs.Prelude.{◌++◌, decimal};
ghost use Rattle.tmw_streams.specs.Transfers.{Puts};

use crate::io_fault::IoFault;
use crate::sink::Sink;
use itoa::Buffer;

/// Writes all of the bytes, by as many calls of `put` as it takes. After a failed write a beginning of them went out,
/// and not all. It takes no memory.
pub fn put_all<K: Sink>(sink: &mut K, bytes: &[u8]) -> Result<(), IoFault>
    ensures { Puts K.to sink.old bytes.now sink.new result }
{
    let mut at = 0;
    while at < bytes.len() {
        at += sink.put(&bytes[at..])?;
    }
    Ok(())
}

/// Writes all of the bytes and then a number, in decimal digits. After a failed write a beginning of them went out, and not
/// all. It takes no memory.
pub fn put_with_number<K: Sink>(sink: &mut K, before: &[u8], number: u64) -> Result<(), IoFault>
    ensures { Puts K.to sink.old (before.now ++ decimal number) sink.new result }
{
    put_all(sink, before)?;
    put_all(sink, Buffer::new().format(number).as_bytes())
}
