ghost use Rattle.std.specs.Prelude.{◌≡◌, ◌≤◌, List, IfErr, IfOk, IfSome, map, option_map};
ghost use Rattle.clap.specs.Walk.{texts};
ghost use Rattle.clap.specs.Words.{App, Text, app_of, first_of, found_of, kind_of, rows_of, subcommand_rows_of};
ghost use Rattle.tmw_args.specs.Grammar.{IsProgram};
ghost use Rattle.tmw_args.specs.ReadWords.{FailsAs};
ghost use Rattle.tmw_args.specs.CommandOrder.{Asks, asked_in, bench_in, bounds_in, criterion_in, drive_in, flag_in, form_by, form_in, help_as_flag, judge_in, memory_in, names_help, number_in, order_in, run_options_in, settings_in, show_in};

use crate::bench_options::BenchOptions;
use crate::command_order::Order;
use crate::criterion_names::{asked_named, criterion_named};
use crate::grammar::new_program;
use crate::run_options::RunOptions;
use crate::which_memory::Which;
use clap::error::ErrorKind;
use clap::{ArgMatches, Command, Error};
use std::alloc::{AllocError, Global};
use std::convert::AsStr;
use tmw_defs::{Asked, Criterion};
use tmw_options::{Bounds, Form, JudgeOptions, Settings, ShowOptions};

/// The most cells of a ring.
const MOST_CELLS: u64 = 4096;

/// The most tries of a record, and the most runs of a workload.
const MOST_TIMES: u64 = 1_000_000_000;

/// The most events that are recorded in all.
const LIMIT: u64 = 1 << 40;

/// The most transactions in a window.
const MOST_TRANSACTIONS: u64 = 8;

/// The most outcomes at a cut.
const MOST_STATES: u64 = 64;

/// The most events before a trace.
const MOST_BEFORE: u64 = 1_000_000_000_000_000;

/// Parses the words of the command line. The first is the program's name, and is passed over.
///
/// The error is clap's. Its kind tells whether help or the version is requested, what is wrong with the words, or that
/// an allocation failed.
pub fn parse<S: AsStr>(alloc: Global, words: &[S]) -> Result<Order, Error>
    ensures order { IfOk result
        (λ order. (program : App) × IsProgram program × Asks program (map S.text words.now) order) }
    ensures refused { IfErr result
        (λ error. (program : App) × IsProgram program
        × FailsAs program (map S.text words.now) (kind_of error)) }
{
    let spelled = help_as_flag(alloc, words)?;
    let mut program = new_program(alloc)?;
    parse_by(&mut program, &spelled)
}

/// Parses words in which `help` is spelled as a flag already, by the program.
fn parse_by<'a>(program: &mut Command<'a>, spelled: &'a [&'a str]) -> Result<Order, Error>
    requires { IsProgram (app_of program.old) }
    ensures order { IfOk result
        (λ order. (words : List Text) → texts spelled.now ≡ help_as_flag words
        → Asks (app_of program.old) words order) }
    ensures refused { IfErr result
        (λ error. (words : List Text) → texts spelled.now ≡ help_as_flag words
        → FailsAs (app_of program.old) words (kind_of error)) }
{
    let matches = program.try_get_matches_from_mut(spelled)?;
    match order_of(&matches) {
        Some(order) => Ok(order),
        None => Err(program.error(
            ErrorKind::ArgumentConflict,
            "the argument '--page' cannot be used with '--trace'",
        )?),
    }
}

/// The words, where `help` in place of a command is `--help` behind all others.
fn help_as_flag<S: AsStr>(alloc: Global, words: &[S]) -> Result<Vec<&str>, AllocError>
    ensures { IfOk result (λ spelled. texts spelled.items ≡ help_as_flag (map S.text words.now)) }
{
    let mut spelled = texts_of(alloc, words)?;
    if names_help(&spelled) {
        spelled.remove(1);
        spelled.push("--help")?;
    }
    Ok(spelled)
}

/// The words as texts.
fn texts_of<S: AsStr>(alloc: Global, words: &[S]) -> Result<Vec<&str>, AllocError>
    ensures { IfOk result (λ spelled. texts spelled.items ≡ map S.text words.now) }
{
    let mut spelled = Vec::new(alloc);
    for word in words {
        spelled.push(word.as_str())?;
    }
    Ok(spelled)
}

/// Whether `help` stands in place of a command.
fn names_help(words: &[&str]) -> bool
    ensures { result ≡ names_help (texts words.now) }
{
    match words {
        [_, word, ..] => *word == "help",
        _ => false,
    }
}

/// The order that the matches hold.
fn order_of(matches: &ArgMatches<'_>) -> Option<Order>
    ensures { result ≡ order_in (subcommand_rows_of matches.now) }
{
    match matches.subcommand()? {
        ("judge", judge) => judge_of(judge),
        ("show", show) => show_of(show),
        ("drive", drive) => drive_of(drive),
        ("bench", bench) => bench_of(bench),
        ("steps", _) => Some(Order::Steps),
        _ => None,
    }
}

/// The order that the matches of `judge` hold.
fn judge_of(judge: &ArgMatches<'_>) -> Option<Order>
    ensures { result ≡ judge_in (rows_of (found_of judge.now)) }
{
    let asked = asked_of(judge)?;
    let summary = flag_of(judge, "summary")?;
    let first = flag_of(judge, "first")?;
    let bounds = bounds_of(judge)?;
    Some(Order::Judge(JudgeOptions {
        bounds,
        asked,
        first,
        summary,
    }))
}

/// The criteria that the matches of `judge` name.
fn asked_of(judge: &ArgMatches<'_>) -> Option<Asked>
    ensures { result ≡ asked_in (rows_of (found_of judge.now)) }
{
    asked_named(text_of(judge, "criterion")?)
}

/// The order that the matches of `show` hold.
fn show_of(show: &ArgMatches<'_>) -> Option<Order>
    ensures { result ≡ show_in (rows_of (found_of show.now)) }
{
    let criterion = criterion_of(show)?;
    let form = form_of(show)?;
    let why = flag_of(show, "why")?;
    let before = count_of(show, "skipped", 0, MOST_BEFORE)?;
    let bounds = bounds_of(show)?;
    Some(Order::Show(ShowOptions {
        criterion,
        form,
        why,
        before,
        bounds,
    }))
}

/// The criterion that the matches of `show` name.
fn criterion_of(show: &ArgMatches<'_>) -> Option<Criterion>
    ensures { result ≡ criterion_in (rows_of (found_of show.now)) }
{
    criterion_named(text_of(show, "criterion")?)
}

/// The form that the flags `--trace` and `--page` of the matches of `show` ask for.
fn form_of(show: &ArgMatches<'_>) -> Option<Form>
    ensures { result ≡ form_in (rows_of (found_of show.now)) }
{
    let trace = flag_of(show, "trace")?;
    let page = flag_of(show, "page")?;
    form_by(trace, page)
}

/// The form that these two flags ask for.
fn form_by(trace: bool, page: bool) -> Option<Form>
    ensures { result ≡ form_by trace page }
{
    match (trace, page) {
        (false, false) => Some(Form::Drawing),
        (true, false) => Some(Form::Traces),
        (false, true) => Some(Form::Page),
        (true, true) => None,
    }
}

/// The order that the matches of `drive` hold.
fn drive_of(drive: &ArgMatches<'_>) -> Option<Order>
    ensures { result ≡ drive_in (rows_of (found_of drive.now)) }
{
    let memory = memory_of(drive)?;
    let written = run_options_of(drive)?;
    let bounds = bounds_of(drive)?;
    Some(Order::Drive {
        memory,
        written,
        bounds,
    })
}

/// The order that the matches of `bench` hold.
fn bench_of(bench: &ArgMatches<'_>) -> Option<Order>
    ensures { result ≡ bench_in (rows_of (found_of bench.now)) }
{
    let memory = memory_of(bench)?;
    let written = run_options_of(bench)?;
    let settings = settings_of(bench)?;
    let show = flag_of(bench, "show")?;
    let why = flag_of(bench, "why")?;
    let quiet = flag_of(bench, "quiet")?;
    let options = BenchOptions {
        written,
        settings,
        show: show || why,
        why,
        quiet,
    };
    Some(Order::Bench { memory, options })
}

/// The memory that the matches of a command name.
fn memory_of(matches: &ArgMatches<'_>) -> Option<Which>
    ensures { result ≡ memory_in (rows_of (found_of matches.now)) }
{
    Which::named(text_of(matches, "memory")?)
}

/// What the flags that the matches of a command have say is written of a run.
fn run_options_of(matches: &ArgMatches<'_>) -> Option<RunOptions>
    ensures { result ≡ run_options_in (rows_of (found_of matches.now)) }
{
    let trace = flag_of(matches, "trace")?;
    let trace_only = flag_of(matches, "trace-only")?;
    let summary = flag_of(matches, "summary")?;
    Some(RunOptions {
        trace,
        trace_only,
        summary,
    })
}

/// The text that the matches of a command hold for this option.
fn text_of<'a>(matches: &ArgMatches<'a>, option: &str) -> Option<&'a str>
    ensures { option_map (λ text. text.now) result ≡ first_of option.now (rows_of (found_of matches.now)) }
{
    matches.get_str(option)
}

/// Whether the matches of a command have this flag.
fn flag_of(matches: &ArgMatches<'_>, name: &str) -> Option<bool>
    ensures { result ≡ flag_in name.now (rows_of (found_of matches.now)) }
{
    matches.get_one::<bool>(name)
}

/// The settings that the matches of `bench` hold.
fn settings_of(bench: &ArgMatches<'_>) -> Option<Settings>
    ensures { result ≡ settings_in (rows_of (found_of bench.now)) }
{
    let cells = count_of(bench, "ring", 1, MOST_CELLS)?;
    let patience = count_of(bench, "patience", 1, MOST_TIMES)?;
    let rounds = count_of(bench, "rounds", 1, MOST_TIMES)?;
    let bounds = bounds_of(bench)?;
    Some(Settings {
        cells,
        limit: LIMIT,
        patience,
        rounds,
        bounds,
    })
}

/// The number from `least` to `most` that the matches of a command hold for this option.
fn count_of(matches: &ArgMatches<'_>, name: &str, least: u64, most: u64) -> Option<u64>
    ensures number { result ≡ number_in least most name.now (rows_of (found_of matches.now)) }
    ensures range { IfSome result (λ number. (least ≤ number) × (number ≤ most)) }
{
    let number = matches.get_one::<u64>(name)?;
    if number < least || number > most {
        return None;
    }
    Some(number)
}

/// The bounds that the matches of a command hold.
fn bounds_of(matches: &ArgMatches<'_>) -> Option<Bounds>
    ensures { result ≡ bounds_in (rows_of (found_of matches.now)) }
{
    let window = count_of(matches, "window", 1, MOST_TRANSACTIONS)?;
    let states = count_of(matches, "states", 1, MOST_STATES)?;
    Some(Bounds {
        window: window as u8,
        states: states as u8,
    })
}
