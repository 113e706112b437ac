use tmw_events::{Event, Ix, Kind};

pub const FIRST: Ix = Ix { number: 0 };

pub const SECOND: Ix = Ix { number: 1 };

/// Makes an event of the first thread.
pub const fn one(kind: Kind) -> Event {
    Event {
        thread: FIRST,
        kind,
    }
}

/// Makes an event of the second thread.
pub const fn other(kind: Kind) -> Event {
    Event {
        thread: SECOND,
        kind,
    }
}

/// Makes a history in which the second thread reads what the first has written before that asks to commit.
pub const fn dirty_read() -> [Event; 8] {
    [
        one(Kind::W(FIRST, 1)),
        one(Kind::K),
        other(Kind::R(FIRST)),
        other(Kind::V(1)),
        one(Kind::T),
        one(Kind::C),
        other(Kind::T),
        other(Kind::C),
    ]
}
