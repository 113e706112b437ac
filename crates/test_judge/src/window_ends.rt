//! The ends of windows over one register, worked out by hand.
use std::alloc::{AllocError, Global};
use std::process::Abort;
use test_support::{FIRST, one, other};
use tmw_cuts::{States, Window};
use tmw_defs::Criterion;
use tmw_events::{Event, Kind, Registers};
use tmw_search::{EndStates, outcomes, possible};
use tmw_wellformed::Tracker;

const ONE: Registers = Registers { number: 1 };

/// Makes two transactions that write different values at once.
const fn writers() -> [Event; 8] {
    [
        one(Kind::W(FIRST, 1)),
        other(Kind::W(FIRST, 2)),
        one(Kind::K),
        other(Kind::K),
        one(Kind::T),
        other(Kind::T),
        one(Kind::C),
        other(Kind::C),
    ]
}

/// Makes a transaction that reads 2.
const fn reader_of_2() -> [Event; 4] {
    [
        one(Kind::R(FIRST)),
        one(Kind::V(2)),
        one(Kind::T),
        one(Kind::C),
    ]
}

/// Makes the window of these events, up to the first that is ill-formed or begins a ninth transaction.
fn window_of(events: &[Event]) -> Window {
    let mut tracker = Tracker::new(ONE);
    let mut window = Window::open(ONE);
    for event in events {
        let Ok(note) = tracker.step(*event) else {
            return window;
        };
        if note.begins && window.count() >= 8 {
            return window;
        }
        window.push(*event, note);
    }
    window
}

/// Makes the set of the states with these values of the register.
fn states_of(alloc: Global, values: &[u64]) -> Result<States, AllocError> {
    let mut states = States::empty(alloc);
    for value in values {
        states.insert([*value, 0, 0, 0, 0, 0, 0, 0])?;
    }
    Ok(states)
}

/// Returns what the register may hold after these events, from these values, if that is at most `cap` values.
fn ends_of(
    alloc: Global,
    values: &[u64],
    events: &[Event],
    cap: u8,
) -> Result<Option<Vec<u64>>, AllocError> {
    let states = states_of(alloc, values)?;
    let found = outcomes(Criterion::Opacity, alloc, &states, &window_of(events), cap)?;
    let EndStates::Few(ends) = found else {
        return Ok(None);
    };
    let mut list = Vec::new(alloc);
    for end in ends.states() {
        list.push(end[0])?;
    }
    Ok(Some(list))
}

/// Returns whether a serial order of these events is legal from one of these values.
fn is_possible(alloc: Global, values: &[u64], events: &[Event]) -> Result<bool, AllocError> {
    let states = states_of(alloc, values)?;
    possible(Criterion::Opacity, alloc, &states, &window_of(events))
}

/// Values before a window, how many ends are asked for at most, and the ends if they are so few.
type Case = (&'static [u64], u8, Option<&'static [u64]>);

const OF_WRITERS: [Case; 2] = [(&[0], 2, Some(&[1, 2])), (&[0], 1, None)];

const OF_READER: [Case; 2] = [(&[1, 2], 2, Some(&[2])), (&[1], 1, Some(&[]))];

const OF_NONE: [Case; 3] = [
    (&[3, 4, 5], 4, Some(&[3, 4, 5])),
    (&[3, 4, 5], 3, Some(&[3, 4, 5])),
    (&[3, 4, 5], 2, None),
];

/// Compares the ends of the window of these events with those worked out.
fn expect(
    rt: &(impl Abort + AllocGlobal),
    events: &[Event],
    cases: &[Case],
) -> Result<(), AllocError> {
    for (values, cap, want) in cases {
        let ends = ends_of(rt.alloc(), values, events, *cap)?;
        let found = is_possible(rt.alloc(), values, events)?;
        let right = ends.as_deref() == *want && found == (*want != Some(&[]));
        assert!(rt; right, "from {values:?} of {events:?}: {ends:?}, {found}");
    }
    Ok(())
}

#[test]
fn windows_have_the_ends_worked_out_by_hand(rt: HostRuntime) -> Result<(), AllocError> {
    expect(&rt, &writers(), &OF_WRITERS)?;
    expect(&rt, &reader_of_2(), &OF_READER)?;
    expect(&rt, &[], &OF_NONE)
}
