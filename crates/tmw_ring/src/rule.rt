//! The rule of the ring's table, which each step keeps.
ghost use Rattle.tmw_ring.specs.SeatPart.{new_parts};
ghost use Rattle.tmw_ring.specs.Rule.{Shown};

use crate::seat_part::Part;
use atomic_table::{Seat, Table, TableRule};
use std::alloc::Global;
use std::collections::LinkedList;
use tmw_ring_defs::RingSize;

/// The rule of a ring's table: the words and all parts show one sound ring of the table's size.
pub struct RingRule;

impl TableRule<(), LinkedList<Part>, RingSize> for RingRule {
    ghost holds = { Shown };

    ghost first = { new_parts };
}

/// The table of a ring, which has words and no slot.
pub type RingTable = Table<(), LinkedList<Part>, RingSize, RingRule, Global>;

/// A seat at a ring's table.
pub type RingSeat = Seat<(), LinkedList<Part>>;
