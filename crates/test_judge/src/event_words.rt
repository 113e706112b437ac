//! Words of single events, worked out by hand.
use tmw_events::{Event, Ix, Kind, pack, unpack};

const fn event(thread: Ix, kind: Kind) -> Event {
    Event { thread, kind }
}

const ZERO: Ix = Ix { number: 0 };

const TWO: Ix = Ix { number: 2 };

const THREE: Ix = Ix { number: 3 };

const FIVE: Ix = Ix { number: 5 };

const SEVEN: Ix = Ix { number: 7 };

/// Some events with their words.
fn packed() -> [(Event, (u64, u64)); 5] {
    [
        (event(THREE, Kind::W(FIVE, 77)), (157, 77)),
        (event(SEVEN, Kind::A), (504, 0)),
        (event(ZERO, Kind::R(ZERO)), (0, 0)),
        (event(TWO, Kind::N(THREE, 7)), (531, 7)),
        (event(ZERO, Kind::N(ZERO, 0)), (512, 0)),
    ]
}

#[test]
fn two_words_are_an_event(rt: HostRuntime) {
    for (event, words) in packed() {
        assert_eq!(rt; pack(event), words);
        assert_eq!(rt; unpack(words.0, words.1), Some(event));
    }
    for (header, value) in [(505, 0), (576, 0), (0, 9)] {
        assert_eq!(rt; unpack(header, value), None);
    }
}
