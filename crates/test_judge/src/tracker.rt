//! Which event is ill-formed, and by which fault.
use tmw_events::{Event, Ix, Kind, Registers};
use tmw_wellformed::{End, Malformed, Note, Tracker};

const FIRST: Ix = Ix { number: 0 };

const SECOND: Ix = Ix { number: 1 };

const ONE: Registers = Registers { number: 1 };

/// What the last of these events of a thread is answered, in a run with one register.
fn last_answer(kinds: &[Kind]) -> Option<Result<Note, Malformed>> {
    let mut tracker = Tracker::new(ONE);
    let mut answer = None;
    for kind in kinds {
        answer = Some(tracker.step(Event {
            thread: FIRST,
            kind: *kind,
        }));
    }
    answer
}

#[test]
fn first_fault_is_named(rt: HostRuntime) {
    let read = Kind::R(FIRST);
    let past = Kind::R(SECOND);
    assert_eq!(rt; last_answer(&[Kind::V(1)]), Some(Err(Malformed::Idle)));
    assert_eq!(rt; last_answer(&[read, past]), Some(Err(Malformed::Register)));
    assert_eq!(rt; last_answer(&[read, Kind::T]), Some(Err(Malformed::Busy)));
    assert_eq!(rt;
        last_answer(&[read, Kind::K]),
        Some(Err(Malformed::Mismatch))
    );
    assert_eq!(rt;
        last_answer(&[Kind::X, Kind::C]),
        Some(Err(Malformed::Mismatch))
    );
    assert_eq!(rt;
        last_answer(&[Kind::T, Kind::V(0)]),
        Some(Err(Malformed::Mismatch))
    );
}

#[test]
fn abort_request_and_abort_event_make_a_transaction(rt: HostRuntime) {
    let mut tracker = Tracker::new(ONE);
    let request = tracker.step(Event {
        thread: FIRST,
        kind: Kind::X,
    });
    assert_eq!(rt;
        request,
        Ok(Note {
            begins: true,
            ends: None
        })
    );
    assert_eq!(rt; tracker.live(), 1);
    let end = tracker.step(Event {
        thread: FIRST,
        kind: Kind::A,
    });
    assert_eq!(rt;
        end,
        Ok(Note {
            begins: false,
            ends: Some(End::Abort)
        })
    );
    assert_eq!(rt; tracker.live(), 0);
}
