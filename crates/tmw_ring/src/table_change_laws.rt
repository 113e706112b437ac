//! What a change of a ring's table can be, whoever makes it.
ghost use Rattle.tmw_ring.specs.TableChangeLaws.{RunLaw, SeatLaw, EmptySeatLaw, ClaimLaw, NotReadyLaw, FrontLaw, SilentLaw};

use crate::seat_part::Part;
use atomic_table::Play;
use std::collections::LinkedList;

/// States that the ring's table is safe against any code: what a change of one seat can be.
///
/// Take a change of one seat alone, before and after which the table's rule holds. Say that its parts stay those of
/// their actors, and know a run that has gone on. Then the ring has run on by steps of its machine, made by these
/// actors alone. A seat without a part changes no word.
pub fn law_runs()
    ensures seat { SeatLaw }
    ensures run { RunLaw }
    ensures empty { EmptySeatLaw }
{}

/// States that what the ring's steps tell is true.
///
/// Take whatever a play tells of a step of a seat with one part. It can be allowed only if the ring's machine makes
/// the steps that it claims, and answers them so. If it claims that the next place is not published, there is another
/// stamp; if it claims to see front, it is front. If it claims no step, no word changes.
pub fn law_claims<M: Play<(), LinkedList<Part>>>()
    ensures claim { ClaimLaw M.then }
    ensures not_ready { NotReadyLaw M.then }
    ensures front { FrontLaw M.then }
    ensures silent { SilentLaw M.then }
{}
