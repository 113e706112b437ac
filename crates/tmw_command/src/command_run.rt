ghost use Rattle.tmw_command.specs.Shared.{IsPut, IsSent, memory_is};
ghost use Rattle.std.specs.Prelude.{map, string_bytes};
ghost use Rattle.std.specs.Result.{result_map_both};
ghost use Rattle.tmw_command.specs.RunCommand.{AnswersRefusal, RunsCommand, RunsOrder, by_which, streams};

use crate::bench::run_bench_cmd;
use crate::memories::Memories;
use std::alloc::Global;
use std::sync::Wait;
use std::thread::Threads;
use tmw_args::{Order, Refusal, read_words};
use tmw_bench::Progress;
use tmw_drive_command::run_drive;
use tmw_judge::run_judge_with;
use tmw_report::{FAULT_STATUS, Fault, answer_fault};
use tmw_show::run_show;
use tmw_steps::run_steps;
use tmw_streams::{Sink, Source, put_all};
use tmw_tm::Tm;

/// Which program this is: its name and version, and what it judges by.
// The program's own line and not clap's, so that a clause has its bytes.
const VERSION_LINE: &str =
    "tmwatch 0.1.0, by opacity (Guerraoui and Kapalka 2008) and by strict serializability\n";

/// Runs the command line of these words, and returns the exit status. The first word is the program's name.
///
/// An order runs from the source to the sink. `drive` and `bench` take the memory that they name of these, each of
/// which should be new. Help and the version are written to the sink. Of wrong words the fault's line is written to the
/// sink, and what is wrong with them to the sink for errors. If `words` is a fault, only its line is written. A bench
/// that keeps no log tells `progress` how far it has come, unless it is to be quiet.
///
/// The status is the order's, 0 after help and the version, and 4 after any fault and after help or a version that was
/// cut short. It waits only in a bench, for the threads that this starts.
pub fn run_command<
    S: Source,
    K: Sink,
    E: Sink,
    R: AllocGlobal + Threads + Wait + Sync,
    P: Progress,
>(
    rt: &R,
    words: Result<Vec<String>, Fault>,
    source: &mut S,
    sink: &mut K,
    errors: &mut E,
    memories: Memories<&(dyn Tm + Sync)>,
    progress: &P,
) -> u8
    ensures { RunsCommand S.from K.to E.to
        (by_which (λ memory. memory_is (has memory.now) (gives memory.now)) memories.entry)
        (result_map_both (λ given. map string_bytes given.items) (λ fault. fault) words)
        (streams source.old sink.old errors.old) (streams source.new sink.new errors.new) result }
{
    match words {
        Ok(words) => match read_words(rt.alloc(), &words) {
            Ok(order) => run_order(rt, order, source, sink, errors, memories, progress),
            Err(refusal) => answer_refusal(refusal, sink, errors),
        },
        Err(fault) => answer_fault(sink, fault),
    }
}

/// Runs an order's command, over the memory that it names.
fn run_order<S: Source, K: Sink, E: Sink, R: AllocGlobal + Threads + Wait + Sync, P: Progress>(
    rt: &R,
    order: Order,
    source: &mut S,
    sink: &mut K,
    errors: &mut E,
    memories: Memories<&(dyn Tm + Sync)>,
    progress: &P,
) -> u8
    ensures { RunsOrder S.from K.to E.to
        (by_which (λ memory. memory_is (has memory.now) (gives memory.now)) memories.entry) order
        (streams source.old sink.old errors.old) (streams source.new sink.new errors.new) result }
{
    let alloc = rt.alloc();
    match order {
        Order::Judge(options) => run_judge_with(alloc, source, sink, errors, options),
        Order::Show(options) => run_show(alloc, source, sink, errors, options),
        Order::Drive {
            memory,
            written,
            bounds,
        } => run_drive(alloc, source, sink, memories.pick(memory), written, bounds),
        Order::Bench { memory, options } => {
            let picked = memories.pick(memory);
            run_bench_cmd(rt, source, sink, errors, picked, &options, progress)
        }
        Order::Steps => run_steps(alloc, source, sink),
    }
}

/// Answers words that give no order.
fn answer_refusal<K: Sink, E: Sink>(refusal: Refusal, sink: &mut K, errors: &mut E) -> u8
    ensures { AnswersRefusal K.to E.to refusal
        sink.old sink.new errors.old errors.new result }
{
    match refusal {
        Refusal::Help(text) => answer_text(sink, text.as_str()),
        Refusal::Version => answer_text(sink, VERSION_LINE),
        Refusal::Usage(text) => {
            send(errors, text.as_str());
            answer_fault(sink, Fault::Usage)
        }
        Refusal::Memory => answer_fault(sink, Fault::Memory),
    }
}

/// Writes a text that was asked for, with exit status 0.
fn answer_text<K: Sink>(sink: &mut K, text: &str) -> u8
    ensures { IsPut K.to sink.old sink.new text.now 0 result }
{
    match put_all(sink, text.as_bytes()) {
        Ok(()) => 0,
        Err(_) => FAULT_STATUS,
    }
}

/// Sends a text as far as the sink takes it.
fn send<E: Sink>(errors: &mut E, text: &str)
    ensures { IsSent E.to errors.old errors.new text.now }
{
    let _sent = put_all(errors, text.as_bytes());
}
