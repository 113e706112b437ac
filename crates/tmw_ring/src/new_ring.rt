//! A new ring, with all its ends.
ghost use Rattle.tmw_ring.specs.Shared.{IsNoRing};
ghost use Rattle.std.specs.Prelude.{IfErr, IfOk, OnOk, [], length, ◌≡◌};
ghost use Rattle.tmw_ring.specs.NewRing.{AreNewWriters, IsNewRing};
ghost use Rattle.tmw_ring.specs.SeatPart.{new_parts, new_reader};
ghost use Rattle.tmw_ring.specs.SeatParts.{IsReader};

use crate::cell_layout::whole;
use crate::ring_ends::{Reader, Ring, Writer};
use crate::rule::RingSeat;
use crate::seat_parts::SecondPart;
use crate::table_words::FIRST_CELL;
use atomic_table::Table;
use std::alloc::{AllocError, Global};
use tmw_events::Ix;
use tmw_ring_defs::{RingFault, RingSize};

/// Makes a new ring, with so many writers, in the order of their numbers, and its reader. The numbers of its cells
/// and its writers are tested before its limit.
pub fn ring(
    alloc: Global,
    cells: u64,
    writers: u64,
    limit: u64,
) -> Result<(Ring, Vec<Writer>, Reader), RingFault>
    ensures ok { IfOk result (λ made. IsNewRing cells writers limit made.0 made.1.items made.2) }
    ensures err { IfErr result (IsNoRing cells writers limit) }
{
    let size = RingSize::new(cells, writers, limit)?;
    let words = vec![in alloc; 0; FIRST_CELL + 2 * whole(size.cells) as usize]?;
    let (table, mut seat) = Table::of_words(alloc, words.as_slice(), &size)?;
    let ring = Ring { table, size };
    let writers = deal(alloc, &ring, &mut seat)?;
    Ok((ring, writers, Reader { front: 0, seat }))
}

/// Cuts each writer's part off a seat that has all parts of a new ring.
fn deal(alloc: Global, ring: &Ring, seat: &mut RingSeat) -> Result<Vec<Writer>, AllocError>
    requires table { seat.old.table_id ≡ ring.now.table }
    requires parts { seat.old.me ≡ (new_parts ring.now.size, []) }
    ensures count { IfOk result (λ writers. length writers.items ≡ ring.now.size.writers) }
    ensures writers { IfOk result (λ writers. AreNewWriters ring.now writers.items) }
    ensures table { OnOk result (seat.new.table_id ≡ seat.old.table_id) }
    ensures reader { OnOk result (IsReader (new_reader ring.now.size) seat.new.me) }
{
    let count = ring.size.writers as u8;
    let mut writers = Vec::with_capacity(alloc, usize::from(count))?;
    for number in 0..count {
        let own = ring.table.shared.split_seat::<SecondPart>(seat);
        writers.push_reserved(Writer {
            number: Ix { number },
            seat: own,
        });
    }
    Ok(writers)
}
