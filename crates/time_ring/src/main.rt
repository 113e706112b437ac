//! Times a running ring, and is no part of the product: `measure/ring.sh` runs it. Writers record events in threads
//! of their own, the main thread takes them, and one line says how many it has taken.
#![tactic(auto)]

mod pause;
mod plan;
mod record;
mod run;
mod take;

use plan::plan_of;
use run::run;
use std::env;
use std::process::ExitCode;

/// The exit status if the words are wrong, or the ring or its threads can't be made.
const FAULT_STATUS: u8 = 4;

fn main(rt: HostRuntime) -> ExitCode {
    let Ok(words) = env::args(&rt) else {
        return refused(&rt, "the words can't be read");
    };
    let mut kept = Vec::new(rt.alloc());
    for word in words {
        if kept.push(word).is_err() {
            return refused(&rt, "out of memory");
        }
    }
    let Some(plan) = plan_of(kept.as_slice()) else {
        return refused(&rt, "usage: time_ring [CELLS WRITERS EVENTS]");
    };
    match run(&rt, rt.alloc(), plan) {
        Ok((taken, _reader)) => match println!(rt; "taken {taken}") {
            Ok(()) => ExitCode::from(0),
            Err(_) => ExitCode::from(FAULT_STATUS),
        },
        Err(fault) => {
            let _printed = eprintln!(rt; "{fault}");
            ExitCode::from(FAULT_STATUS)
        }
    }
}

/// Says on standard error why nothing was run.
fn refused(rt: &impl Eprint, why: &str) -> ExitCode {
    let _printed = eprintln!(rt; "{why}");
    ExitCode::from(FAULT_STATUS)
}
