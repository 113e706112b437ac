ghost use Rattle.std.specs.Prelude.{◌≡◌, ◌<◌, ◌≤◌, ◌+◌, ◌++◌, length, vec_capacity, IfOk, IfErr, OnOk, OnErr};
ghost use Rattle.tmw_streams.specs.ReadFailures.{NoEndAfter, IsFullAfter, failures_behind_read};
ghost use Rattle.tmw_streams.specs.Transfers.{Reads};

use crate::read_fault::ReadFault;
use crate::source::Source;
use std::alloc::AllocError;

/// The most bytes that one read may tell.
const MOST_READ: usize = 4096;

/// Reads all bytes that the source still has, up to its end, and appends them to `bytes`. Room is made before each
/// read, so `bytes` holds all that was read, whatever the result. `Io` follows a failed read. `Memory` follows a
/// failed allocation: it comes only if `bytes` is full, and only tests show that the allocation failed. Nothing is
/// read after either.
pub fn read_all<S: Source>(source: &mut S, bytes: &mut Vec<u8>) -> Result<(), ReadFault>
    // Each byte told is held, so that no read was made for which there was no memory.
    ensures held { Reads S.from source.old source.new bytes.old.items bytes.new.items }
    ensures ended { OnOk result (S.from.ended source.new) }
    ensures no_end { IfErr result (NoEndAfter (S.from.ended source.new)) }
    ensures full { IfErr result (IsFullAfter bytes.new) }
    ensures well { OnOk result (S.from.failures source.new ≡ S.from.failures source.old) }
    ensures failed { IfErr result
        (λ fault. S.from.failures source.new ≡ failures_behind_read fault
        (S.from.failures source.old)) }
{
    let mut buffer = [0; MOST_READ];
    'reads: loop {
        let Ok(room) = room_for_more(bytes) else {
            return Err(ReadFault::Memory);
        };
        match source.read(&mut buffer[..room]) {
            Err(_) => return Err(ReadFault::Io),
            Ok(0) => return Ok(()),
            Ok(count) => hold(bytes, &buffer[..count]),
        }
    }
}

/// Makes room after the bytes if there is none, and returns how much there is for one read.
fn room_for_more(bytes: &mut Vec<u8>) -> Result<usize, AllocError>
    ensures same { bytes.new.items ≡ bytes.old.items }
    ensures some { IfOk result (λ room. 0 < room) }
    ensures most { IfOk result (λ room. room ≤ 4096) }
    ensures room { IfOk result (λ room. length bytes.new.items + room ≤ vec_capacity bytes.new) }
    ensures full { OnErr result (vec_capacity bytes.new ≡ length bytes.new.items) }
{
    if bytes.len() == bytes.capacity() {
        bytes.reserve(MOST_READ)?;
    }
    Ok((bytes.capacity() - bytes.len()).min(MOST_READ))
}

/// Holds bytes for which there is room.
fn hold(bytes: &mut Vec<u8>, more: &[u8])
    requires { length bytes.old.items + length more.now ≤ vec_capacity bytes.old }
    ensures { bytes.new.items ≡ bytes.old.items ++ more.now }
{
    let _held = bytes.extend_from_slice(more);
}
