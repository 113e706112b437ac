ghost use Rattle.tmw_ring_defs.specs.OneLog.{OneLogLaw, OneRunLaw};
ghost use Rattle.tmw_ring_defs.specs.RingSound.{StepLaw};
ghost use Rattle.tmw_ring_defs.specs.RoomLaw.{RoomLaw};

/// States the inductive invariant of the ring's protocol.
///
/// A step of a ring's machine from a sound state leaves a sound state. It leaves alone the cell of every place that
/// is published and not yet taken.
pub fn law_4()
    ensures { StepLaw }
{}

/// States that the ring is linearizable to a sequential log.
///
/// Whatever steps a new ring's machine makes, in whatever order, its places and the events that are taken are the
/// answers of one sequential log. Each claim appends its writer's event to that log.
pub fn law_one_log()
    ensures { OneLogLaw }
{}

/// States that each run of the ring is linearizable.
///
/// A run of a new ring, whoever makes its steps, is one of the ring's machine. So its places and the events that are
/// taken are the answers of one sequential log: the log that the ring then has.
pub fn law_one_run()
    ensures { OneRunLaw }
{}

/// States how long room for several records lasts.
///
/// Say that front was seen, and then a tail with room for so many records. Then every record that begins later finds
/// room, until so many more places are claimed, by any writer.
pub fn law_room()
    ensures { RoomLaw }
{}
