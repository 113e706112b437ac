//! How the parts of a seat are split off, and joined with another's.
ghost use Rattle.std.specs.Prelude.{[], ◌++◌};
ghost use Rattle.tmw_ring.specs.SeatParts.{second_alone, without_second};

use crate::seat_part::Part;
use atomic_table::{Join, Split};
use std::collections::LinkedList;

/// The split by which the second part goes to a seat of its own.
pub struct SecondPart;

impl Split<LinkedList<Part>> for SecondPart {
    ghost left = { without_second };

    ghost right = { second_alone };
}

/// The split by which all parts go to a seat of their own.
pub struct AllParts;

impl Split<LinkedList<Part>> for AllParts {
    ghost left = { λ _. [] };

    ghost right = { λ parts. parts };
}

/// The join by which a seat takes in the parts of another, after its own.
pub struct BothParts;

impl Join<LinkedList<Part>> for BothParts {
    ghost both = { λ parts others. parts ++ others };

    ghost spent = { [] };
}
