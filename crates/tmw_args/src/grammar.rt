ghost use Rattle.std.specs.Prelude.{◌≡◌, IfOk, IsOkAnd, Some, codes, false, true};
ghost use Rattle.clap.specs.Words.{AddsSubcommand, app_of, new_app, rule_of};
ghost use Rattle.clap.specs.declared.builder.texts.Texts.TheVariants.{One};
ghost use Rattle.clap.specs.declared.builder.value_parser.ValueParser.TheVariants.{Names, Unsigned};
ghost use Rattle.tmw_args.specs.Grammar.{IsProgram, bench_among, drive_among, flag_rule, judge_among, one_to, show_among, steps, value_rule, wanting, with_before, with_bounds, with_counts, with_criterion, with_flag, with_memory, with_run_flags};

use clap::builder::ValueParser;
use clap::{Arg, ArgAction, Command, value_parser};
use std::alloc::{AllocError, Global};

/// The names of the memories.
static MEMORIES: [&str; 3] = ["norec", "lock", "torn"];

/// The names of what a trace is judged by.
static CRITERIA: [&str; 3] = ["opacity", "strict", "both"];

/// The names of what a trace is shown by.
static SHOWN: [&str; 2] = ["opacity", "strict"];

// A line of help has at most 80 columns, and a command's help 40 lines: nothing here wraps a text.

const JUDGE_CRITERION_HELP: &str = "opacity, strict or both";

const SUMMARY_HELP: &str = "Also count transactions, overlaps and cuts";

const FIRST_HELP: &str = "Stop reading once the verdict is final";

const SHOW_CRITERION_HELP: &str = "opacity or strict";

const MEMORY_HELP: &str = "norec, lock or torn (has a bug)";

const TRACE_HELP: &str = "Print the trace before the report";

const TRACE_ONLY_HELP: &str = "Print only the trace";

const SHOW_TRACE_HELP: &str = "Print the window as traces instead";

const SHOW_PAGE_HELP: &str = "Print an HTML page instead";

const WHY_HELP: &str = "Show only events that matter, and say why";

const SKIPPED_HELP: &str = "Events before the trace, 0 to 10^15";

const BENCH_SHOW_HELP: &str = "Print what `show` prints instead of the report";

const QUIET_HELP: &str = "Do not show progress on a terminal";

const RING_HELP: &str = "Ring cells, one per script to 4096";

const PATIENCE_HELP: &str = "Tries on a full ring, 1 to 10^9";

const ROUNDS_HELP: &str = "Times to run the workload, 1 to 10^9";

const WINDOW_HELP: &str = "Most transactions per window, 1 to 8";

const STATES_HELP: &str = "Most states at a cut, 1 to 64";

const PROGRAM_HELP: &str = "Every command reads standard input and writes standard output.
`tmwatch COMMAND --help` describes both, with an example.

Exit status:
  0  opaque (or strict) so far; also --help, --version and a good `steps`
  1  violated
  2  undecided: the run exceeded --window or --states
  3  malformed: no run can have these events
  4  fault: bad options or input, out of memory or threads, or failed I/O

A fault is reported as one line of JSON on standard output. If standard output
cannot be written, standard error says so.";

const JUDGE_HELP: &str =
    "Reads a trace from standard input. Its first line is `opacity-trace 1 R` for R
registers that start at 0, or `opacity-trace 2 R V ..` with their start values.
Each further line is one event: `0 W 1 5` means that thread 0 writes 5 to
register 1. docs/FORMATS.md lists all events.

Prints one line of JSON, with `both` one line per criterion: the verdict, the
number of events and, if the run went wrong, the event at which it did.

--summary adds a line of counts: transactions and how they ended, overlaps,
cuts, and the largest window. It counts up to the event at which the run went
wrong (if malformed, without that event), or to the end. If nothing is wrong, a
line `untested` may follow, which names what the run did not test.
--first stops at the event that makes the verdict final: violated, undecided or
malformed (with `both`, at the event that makes both final). Use it to stop a
long run at its violation: `producer | tmwatch judge --first`.

A cut is a point at which no transaction is open; a window begins at a cut. If a
window has more than --window transactions, or if more than --states states of
the registers are possible at a cut, the verdict is `undecided`.

Exit status: 0 opaque (or strict) so far, 1 violated, 2 undecided, 3 malformed,
4 fault.

Example: tmwatch judge --criterion both < run.trace";

const SHOW_HELP: &str =
    "Reads a trace from standard input, like `judge`, and prints the same first line.
Below it come the states of the registers in which the last window may start,
one per line, and the window's events in one column per thread. The event at
which the run went wrong is marked with what is wrong. If nothing is wrong, the
window ends with the trace.

--why shows only events that suffice for the violation, and explains why no
serial order of their transactions is possible.
--page prints an HTML page that draws the window; it needs no network.
--trace prints a trace of the window for each state in which it may start, and
nothing else.
--skipped numbers events as in the whole run, if the trace is only the end of
it. The bench in C prints the number to use. The JSON line and standard error
still count from 1.

`--criterion both` is not allowed here, because the two windows usually differ.
Run `show` twice instead.

Exit status: 0 opaque (or strict) so far, 1 violated, 2 undecided, 3 malformed,
4 fault.

Example: tmwatch show --why < run.trace";

const DRIVE_HELP: &str =
    "Reads a workload as JSON from standard input: the number of registers, a list of
transactions for each thread, and the order in which the threads make calls:
  {\"registers\":1,\"scripts\":[[[\"W 0 5\",\"T\"]]],\"order\":[0,0]}

Prints the verdict on opacity as one line of JSON. --trace prints the trace
before it; --summary prints the counts of `judge --summary` after it.
--trace-only prints the trace alone, ready for `judge` or `show`, and overrides
the other two.

Exit status: 0 opaque so far, 1 violated, 2 undecided, 4 fault.

Example: tmwatch drive --memory torn --trace < workload.json";

const BENCH_HELP: &str =
    "Reads a workload as JSON from standard input (see `drive --help`). Each script
runs in a thread of its own, so the order is ignored. Stops after the round in
which the verdict becomes final.

Prints the verdict on opacity as one line of JSON, then how each thread ended.
If one of its events finds the ring full --patience times, a thread stops and
ends `full`.
--trace prints the trace before the report; --summary prints the counts last.
--show and --why draw the last window; with --trace they print only traces of
it. --trace-only prints the trace of the run alone, ready for `judge` or `show`,
and overrides all of these.

Exit status: 0 opaque so far, 1 violated, 2 undecided, 4 fault.

Example: tmwatch bench --memory norec --rounds 1000 < workload.json";

const STEPS_HELP: &str =
    "Reads a line `ring-steps 1 CELLS WRITERS LIMIT` from standard input, then one
step per line, such as `front 0 W 0 5`. docs/FORMATS.md lists the steps.

Prints one reply per step, then the number of places claimed and of events
taken: `log 2 taken 1`.

Exit status: 0, or 4 for a fault.

Example: tmwatch steps < stopped_writer.steps";

/// Makes the program's commands, with their options and help.
pub fn new_program<'a>(alloc: Global) -> Result<Command<'a>, AllocError>
    ensures { IfOk result (λ command. IsProgram (app_of command)) }
{
    let judging = with_command(bare_program(alloc), new_judge(alloc, CRITERIA.as_slice()))?;
    let showing = with_command(judging, new_show(alloc, SHOWN.as_slice()))?;
    let memories = MEMORIES.as_slice();
    let driving = with_command(showing, new_drive(alloc, memories))?;
    let benching = with_command(driving, new_bench(alloc, memories))?;
    benching.subcommand(new_steps(alloc))
}

/// The program with one more command, where there was memory for that.
fn with_command<'a>(
    program: Command<'a>,
    command: Result<Command<'a>, AllocError>,
) -> Result<Command<'a>, AllocError>
    ensures { IfOk result
        (λ given. IsOkAnd command.entry (λ added. AddsSubcommand program.entry added given)) }
{
    program.subcommand(command?)
}

/// The program without its commands.
fn bare_program<'a>(alloc: Global) -> Command<'a>
    ensures { app_of result ≡ wanting (new_app (codes "tmwatch")) }
{
    let about = "Check runs of transactional memories for opacity or strict serializability";
    described(alloc, "tmwatch", about, PROGRAM_HELP)
        .version("0.1.0")
        .subcommand_required(true)
        .disable_help_subcommand(true)
}

/// The command `judge`, by criteria of these names.
fn new_judge<'a>(alloc: Global, criteria: &'a [&'a str]) -> Result<Command<'a>, AllocError>
    ensures { IfOk result (λ command. app_of command ≡ judge_among (Names criteria.entry)) }
{
    let about = "Check a trace for opacity or strict serializability";
    let judge = described(alloc, "judge", about, JUDGE_HELP);
    let judged = with_criterion(alloc, judge, criteria, JUDGE_CRITERION_HELP)?;
    let counted = with_flag(alloc, judged, "summary", SUMMARY_HELP)?;
    with_bounds(alloc, with_flag(alloc, counted, "first", FIRST_HELP)?)
}

/// The command `show`, by criteria of these names.
fn new_show<'a>(alloc: Global, criteria: &'a [&'a str]) -> Result<Command<'a>, AllocError>
    ensures { IfOk result (λ command. app_of command ≡ show_among (Names criteria.entry)) }
{
    let about = "Check a trace, and draw the window in which it went wrong";
    let show = described(alloc, "show", about, SHOW_HELP);
    let judged = with_criterion(alloc, show, criteria, SHOW_CRITERION_HELP)?;
    let traced = with_flag(alloc, judged, "trace", SHOW_TRACE_HELP)?;
    let paged = with_flag(alloc, traced, "page", SHOW_PAGE_HELP)?;
    with_bounds(
        alloc,
        with_before(alloc, with_flag(alloc, paged, "why", WHY_HELP)?)?,
    )
}

/// The command `drive`, over memories of these names.
fn new_drive<'a>(alloc: Global, memories: &'a [&'a str]) -> Result<Command<'a>, AllocError>
    ensures { IfOk result (λ command. app_of command ≡ drive_among (Names memories.entry)) }
{
    let about = "Run a workload on a built-in memory in one thread, and check the run";
    let drive = described(alloc, "drive", about, DRIVE_HELP);
    with_bounds(alloc, with_memory(alloc, drive, memories)?)
}

/// The command `bench`, over memories of these names.
fn new_bench<'a>(alloc: Global, memories: &'a [&'a str]) -> Result<Command<'a>, AllocError>
    ensures { IfOk result (λ command. app_of command ≡ bench_among (Names memories.entry)) }
{
    let about = "Run a workload on a built-in memory in threads, and check the run";
    let bench = described(alloc, "bench", about, BENCH_HELP);
    let remembered = with_memory(alloc, bench, memories)?;
    let shown = with_flag(alloc, remembered, "show", BENCH_SHOW_HELP)?;
    let explained = with_flag(alloc, shown, "why", WHY_HELP)?;
    let quiet = with_flag(alloc, explained, "quiet", QUIET_HELP)?;
    with_bounds(alloc, with_counts(alloc, quiet)?)
}

/// The command `steps`.
fn new_steps<'a>(alloc: Global) -> Command<'a>
    ensures { app_of result ≡ steps }
{
    let about = "Run the lock-free ring step by step";
    described(alloc, "steps", about, STEPS_HELP)
}

/// A command of this name without options, with what its help begins and ends with.
fn described<'a>(alloc: Global, name: &'a str, about: &'a str, after_help: &'a str) -> Command<'a>
    ensures { app_of result ≡ new_app name.entry.now }
{
    Command::new(alloc, name)
        .about(about)
        .after_help(after_help)
}

/// The command with what to judge by, one of these names, as an option.
fn with_criterion<'a>(
    alloc: Global,
    command: Command<'a>,
    criteria: &'a [&'a str],
    help: &'a str,
) -> Result<Command<'a>, AllocError>
    ensures { IfOk result
        (λ given. app_of given ≡ with_criterion (Names criteria.entry) (app_of command.entry)) }
{
    let criterion = value_option(
        alloc,
        "criterion",
        "CRITERION",
        ValueParser::Names(criteria),
        "opacity",
        help,
    );
    command.arg(criterion)
}

/// The command with this flag as an option.
fn with_flag<'a>(
    alloc: Global,
    command: Command<'a>,
    name: &'a str,
    help: &'a str,
) -> Result<Command<'a>, AllocError>
    ensures { IfOk result
        (λ given. app_of given ≡ with_flag name.entry.now (app_of command.entry)) }
{
    command.arg(flag_option(alloc, name, help))
}

/// The command with a memory, one of these names, and with what is written of a run on it as options.
fn with_memory<'a>(
    alloc: Global,
    command: Command<'a>,
    memories: &'a [&'a str],
) -> Result<Command<'a>, AllocError>
    ensures { IfOk result
        (λ given. app_of given ≡ with_memory (Names memories.entry) (app_of command.entry)) }
{
    let memory = value_option(
        alloc,
        "memory",
        "MEMORY",
        ValueParser::Names(memories),
        "norec",
        MEMORY_HELP,
    );
    with_run_flags(alloc, command.arg(memory)?)
}

/// The command with the three flags that say what is written of a run as options.
fn with_run_flags<'a>(alloc: Global, command: Command<'a>) -> Result<Command<'a>, AllocError>
    ensures { IfOk result (λ given. app_of given ≡ with_run_flags (app_of command.entry)) }
{
    let traced = with_flag(alloc, command, "trace", TRACE_HELP)?;
    let alone = with_flag(alloc, traced, "trace-only", TRACE_ONLY_HELP)?;
    with_flag(alloc, alone, "summary", SUMMARY_HELP)
}

/// The command with the three counts of a bench as options.
fn with_counts<'a>(alloc: Global, command: Command<'a>) -> Result<Command<'a>, AllocError>
    ensures { IfOk result (λ counted. app_of counted ≡ with_counts (app_of command.entry)) }
{
    command
        .arg(count_option(alloc, "ring", 1, 4096, "256", RING_HELP))?
        .arg(count_option(
            alloc,
            "patience",
            1,
            1_000_000_000,
            "1000000",
            PATIENCE_HELP,
        ))?
        .arg(count_option(alloc, "rounds", 1, 1_000_000_000, "1", ROUNDS_HELP))
}

/// Returns the command with the option for the number of events of the run before the trace.
fn with_before<'a>(alloc: Global, command: Command<'a>) -> Result<Command<'a>, AllocError>
    ensures { IfOk result (λ given. app_of given ≡ with_before (app_of command.entry)) }
{
    command.arg(count_option(
        alloc,
        "skipped",
        0,
        1_000_000_000_000_000,
        "0",
        SKIPPED_HELP,
    ))
}

/// The command with the two bounds of judging as options.
fn with_bounds<'a>(alloc: Global, command: Command<'a>) -> Result<Command<'a>, AllocError>
    ensures { IfOk result (λ bounded. app_of bounded ≡ with_bounds (app_of command.entry)) }
{
    command
        .arg(number_option(alloc, "window", 8, "8", WINDOW_HELP))?
        .arg(number_option(alloc, "states", 64, "64", STATES_HELP))
}

/// A flag of this name.
fn flag_option<'a>(alloc: Global, name: &'a str, help: &'a str) -> Arg<'a>
    ensures rule { rule_of result ≡ flag_rule name.entry.now }
    ensures local { result.global ≡ false }
    ensures told { result.help ≡ Some help.entry }
{
    Arg::new(alloc, name)
        .long(name)
        .help(help)
        .action(ArgAction::SetTrue)
}

/// An option that takes one number, from 1 to `most`.
fn number_option<'a>(
    alloc: Global,
    name: &'a str,
    most: u8,
    default: &'a str,
    help: &'a str,
) -> Arg<'a>
    ensures rule { rule_of result ≡ value_rule name.entry.now (one_to most) default.entry.now }
    ensures local { result.global ≡ false }
    ensures told { result.help ≡ Some help.entry }
{
    let values = value_parser!(u8).range(1..=i64::from(most));
    value_option(alloc, name, "N", values, default, help)
}

/// An option that takes one large number, from `least` to `most`.
fn count_option<'a>(
    alloc: Global,
    name: &'a str,
    least: u64,
    most: u64,
    default: &'a str,
    help: &'a str,
) -> Arg<'a>
    ensures rule { rule_of result ≡ value_rule name.entry.now (Unsigned least most) default.entry.now }
    ensures local { result.global ≡ false }
    ensures told { result.help ≡ Some help.entry }
{
    let values = ValueParser::unsigned(least, most);
    value_option(alloc, name, "N", values, default, help)
}

/// An option that takes one of these values, which its help names itself.
fn value_option<'a>(
    alloc: Global,
    name: &'a str,
    value_name: &'a str,
    values: ValueParser<'a>,
    default: &'a str,
    help: &'a str,
) -> Arg<'a>
    ensures rule { rule_of result ≡ value_rule name.entry.now values.entry default.entry.now }
    ensures local { result.global ≡ false }
    ensures told { (result.help ≡ Some help.entry) × (result.val_names ≡ One value_name.entry)
        × (result.hide_possible_values ≡ true) }
{
    Arg::new(alloc, name)
        .long(name)
        .value_name(value_name)
        .help(help)
        .default_value(default)
        .value_parser(values)
        .hide_possible_values(true)
}
