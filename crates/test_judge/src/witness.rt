//! What the contracts leave open: that an order stays known while one exists, and is found again from the window.
use std::alloc::{AllocError, Global};
use std::test::Fail;
use test_support::{FIRST, SECOND, one, other};
use tmw_cuts::{States, Window};
use tmw_defs::Criterion;
use tmw_events::{Event, Kind, Registers};
use tmw_witness::Witness;

const TWO: Registers = Registers { number: 2 };

/// The second reads what the first has written and committed, though it began before: it goes to a later rank.
const fn moved() -> [Event; 8] {
    [
        other(Kind::R(SECOND)),
        other(Kind::V(0)),
        one(Kind::W(FIRST, 1)),
        one(Kind::K),
        one(Kind::T),
        one(Kind::C),
        other(Kind::R(FIRST)),
        other(Kind::V(1)),
    ]
}

/// A reader stays before a writer that commits meanwhile.
const fn staying() -> [Event; 8] {
    [
        other(Kind::R(FIRST)),
        other(Kind::V(0)),
        one(Kind::W(FIRST, 1)),
        one(Kind::K),
        one(Kind::T),
        one(Kind::C),
        other(Kind::T),
        other(Kind::C),
    ]
}

/// The second reads what the first has asked to commit and has not committed: no order is known then.
const fn lost() -> [Event; 5] {
    [
        one(Kind::W(FIRST, 1)),
        one(Kind::K),
        one(Kind::T),
        other(Kind::R(FIRST)),
        other(Kind::V(1)),
    ]
}

/// Of two that have asked to commit the first aborts. Neither was held.
const fn asked() -> [Event; 7] {
    [
        one(Kind::W(FIRST, 1)),
        one(Kind::K),
        one(Kind::T),
        other(Kind::W(FIRST, 2)),
        other(Kind::K),
        other(Kind::T),
        one(Kind::A),
    ]
}

/// Returns whether an order is known after each of these events, and whether one is found after the last.
fn known_after(alloc: Global, events: &[Event]) -> Result<(usize, bool), AllocError> {
    let mut window = Window::open(TWO);
    let mut witness = Witness::new([0; 8]);
    let mut count = 0usize;
    for event in events {
        let Ok(step) = window.next(*event) else {
            return Ok((count, false));
        };
        if window.count() < 8 {
            window.take(*event, step);
            witness.follow(&window, *event, step);
        }
        count = count.saturating_add(usize::from(witness.is_known()));
    }
    Ok((
        count,
        witness.finds(Criterion::Opacity, &States::zeros(alloc)?, &window),
    ))
}

#[test]
fn an_order_stays_known_or_is_found_again(rt: HostRuntime) -> Result<(), Fail> {
    for (events, known) in [
        (moved().as_slice(), 8),
        (staying().as_slice(), 8),
        (asked().as_slice(), 7),
        (lost().as_slice(), 4),
    ] {
        let answer = known_after(rt.alloc(), events)?;
        assert_eq!(rt; answer, (known, true), "of {events:?}");
    }
    Ok(())
}
