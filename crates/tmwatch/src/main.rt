//! `tmwatch judge`: reads a recorded run of a transactional memory from standard input, and writes on standard output, in a line
//! for each criterion that is asked for, whether the run meets it so far, or at which event it is violated, undecided or malformed.
//! `tmwatch show`: writes that line, and the events and states that it comes from. `tmwatch drive`: runs a workload over a
//! transactional memory, and judges the run. `tmwatch bench`: runs a workload by threads, and judges what they record.
//! `tmwatch steps`: reads a list of a ring's steps, and writes what each of them answers.
#![tactic(auto)]

mod output;
mod terminal;

use output::Output;
use std::alloc::AllocError;
use std::io::{ErrorKind, IsTerminal};
use std::process::ExitCode;
use std::sync::Wait;
use std::thread::Threads;
use std::{env, io};
use terminal::Terminal;
use tmw_bench::Progress;
use tmw_command::{Memories, run_command};
use tmw_events::Registers;
use tmw_memories::{GlobalLock, NoRec, Torn};
use tmw_report::{Fault, answer_fault};
use tmw_streams::{Sink, Source, StdSink, StdSource, put_all};
use tmw_tm::Tm;

/// How many registers each memory has: as many as a workload may have.
const REGISTERS: Registers = Registers { number: 8 };

/// The message for an argument that is not UTF-8.
const NOT_UTF8: &[u8] =
    b"error: an argument is not valid UTF-8\n\nFor more information, try '--help'.\n";

/// The message for a failed write to standard output.
const NOT_WRITTEN: &[u8] =
    b"error: cannot write to standard output (disk full?). The output is incomplete; run again\n";

fn main(rt: HostRuntime) -> ExitCode {
    let mut source = StdSource::new(rt.stdin());
    let mut sink = Output::new(StdSink::new(rt.stdout()));
    let mut errors = StdSink::new(rt.stderr());
    let words = words_of(&rt);
    if matches!(words, Err(Fault::Usage)) {
        let _told = put_all(&mut errors, NOT_UTF8);
    }
    let terminal = Terminal::new(rt.stderr());
    let told = if rt.stderr().is_terminal() {
        Some(&terminal)
    } else {
        None
    };
    let status = match run(&rt, words, &mut source, &mut sink, &mut errors, &told) {
        Ok(status) => status,
        Err(_) => answer_fault(&mut sink, Fault::Memory),
    };
    if sink.has_failed() {
        let _told = put_all(&mut errors, NOT_WRITTEN);
    }
    ExitCode::from(status)
}

/// Makes the memories, and runs the command line with them.
fn run<R: AllocGlobal + Threads + Wait + Sync, S: Source, K: Sink, E: Sink, P: Progress>(
    rt: &R,
    words: Result<Vec<String>, Fault>,
    source: &mut S,
    sink: &mut K,
    errors: &mut E,
    progress: &P,
) -> Result<u8, AllocError> {
    // Made before the words are read, so that a failed allocation is `memory` whatever the command.
    let norec: Box<dyn Tm + Sync> = Box::new(rt.alloc(), NoRec::new(REGISTERS))?;
    let lock: Box<dyn Tm + Sync> = Box::new(rt.alloc(), GlobalLock::new(REGISTERS))?;
    let torn: Box<dyn Tm + Sync> = Box::new(rt.alloc(), Torn::new(REGISTERS))?;
    let memories = Memories {
        norec: &*norec,
        lock: &*lock,
        torn: &*torn,
    };
    Ok(run_command(rt, words, source, sink, errors, memories, progress))
}

/// The words of the command line. The first is the program's name: `tmwatch`, however it was started.
fn words_of(rt: &HostRuntime) -> Result<Vec<String>, Fault> {
    let arguments = env::args(rt).map_err(unread)?;
    let mut words = Vec::new(rt.alloc());
    for word in arguments {
        if words.push(word).is_err() {
            return Err(Fault::Memory);
        }
    }
    if let Some(name) = words.first_mut() {
        name.clear();
        if name.push_str("tmwatch").is_err() {
            return Err(Fault::Memory);
        }
    }
    Ok(words)
}

/// Why there are no words: memory was refused, or one of them is not UTF-8.
fn unread(error: io::Error) -> Fault {
    match error.kind() {
        ErrorKind::OutOfMemory => Fault::Memory,
        _ => Fault::Usage,
    }
}
