//! Tests of the machine that a user steps: steps that are gone on with where memory for them was refused.
use std::alloc::Global;
use std::test::Fail;
use test_support::{FIRST, SECOND, one, other};
use tmw_events::{Event, Kind};
use tmw_ring_steps::{Sim, Step};

/// Two writers record an event each, and the reader takes both.
const PAIR: [Step; 16] = [
    Step::Front(FIRST, Kind::V(5)),
    Step::Front(SECOND, Kind::T),
    Step::Tail(FIRST),
    Step::Tail(SECOND),
    Step::Claim(FIRST),
    Step::Claim(SECOND),
    Step::Fill(SECOND),
    Step::Publish(SECOND),
    Step::Fill(FIRST),
    Step::Publish(FIRST),
    Step::Peek,
    Step::Read,
    Step::Free,
    Step::Peek,
    Step::Read,
    Step::Free,
];

/// Runs the steps that were not made yet, and tells whether log and taken events are then those of the steps that were made: an
/// event more for each claim, and for each place that was freed.
fn runs_on(alloc: Global, sim: &mut Sim, steps: &[Step], log: &[Event]) -> bool {
    let made = sim.made() as usize;
    let Some(rest) = steps.get(made..) else {
        return false;
    };
    if made > 1_000 {
        return false;
    }
    let _ = sim.run(alloc, rest);
    let (mut claims, mut frees) = (0usize, 0usize);
    for step in steps.iter().take(sim.made() as usize) {
        match step {
            Step::Claim(_) => claims = claims.saturating_add(1),
            Step::Free => frees = frees.saturating_add(1),
            _ => {}
        }
    }
    log.get(..claims) == Some(sim.log()) && log.get(..frees) == Some(sim.taken())
}

/// Passes also if any one allocation in it fails, as tests/refused.sh lets it.
#[test]
fn a_refused_growth_loses_no_step(rt: HostRuntime) -> Result<(), Fail> {
    let (pairs, events) = ([PAIR; 5], [[one(Kind::V(5)), other(Kind::T)]; 5]);
    let mut sim = Sim::new(rt.alloc(), 2, 2, 100)?;
    for _ in 0..2 {
        assert!(rt;
            runs_on(
                rt.alloc(),
                &mut sim,
                pairs.as_flattened(),
                events.as_flattened()
            )
        );
    }
    assert_eq!(rt; (sim.made(), sim.taken().len()), (80, 10));
    Ok(())
}
