ghost use Rattle.std.specs.Prelude.{map};
ghost use Rattle.clap.specs.Words.{kind_of};
ghost use Rattle.tmw_args.specs.ReadWords.{IsReading, IsRefusal};

use crate::command_order::Order;
use crate::parse::parse;
use crate::refusal::Refusal;
use clap::Error;
use clap::error::ErrorKind;
use std::alloc::{AllocError, Global};
use std::convert::AsStr;

/// Reads the words of the command line. The first is the program's name, and is passed over. Right words are refused
/// only after a failed allocation.
pub fn read_words<S: AsStr>(alloc: Global, words: &[S]) -> Result<Order, Refusal>
    ensures { IsReading (map S.text words.now) result }
{
    match parse(alloc, words) {
        Ok(order) => Ok(order),
        Err(error) => Err(refusal_of(alloc, words, &error)),
    }
}

/// The refusal that an error of clap's is told by, with its text.
fn refusal_of<S: AsStr>(alloc: Global, words: &[S], error: &Error) -> Refusal
    ensures { IsRefusal (kind_of error.now) result }
{
    let kind = error.kind();
    if kind == ErrorKind::OutOfMemory {
        return Refusal::Memory;
    }
    if kind == ErrorKind::DisplayVersion {
        return Refusal::Version;
    }
    match error.to_string(alloc) {
        Ok(text) if kind == ErrorKind::DisplayHelp => Refusal::Help(text),
        Ok(mut text) => {
            if kind == ErrorKind::UnknownArgument && add_input(&mut text, words).is_err() {
                return Refusal::Memory;
            }
            Refusal::Usage(text)
        }
        Err(_) => Refusal::Memory,
    }
}

/// Adds how a file is read, if these words name a command that reads a trace or steps: the unknown word may be a file's name.
fn add_input<S: AsStr>(text: &mut String, words: &[S]) -> Result<(), AllocError> {
    let [_, command, ..] = words else {
        return Ok(());
    };
    let command = command.as_str();
    if command == "judge" || command == "show" || command == "steps" {
        text.push('\n')?;
        text.push_str(command)?;
        text.push_str(" reads standard input: tmwatch ")?;
        text.push_str(command)?;
        text.push_str(" < FILE\n")?;
    }
    Ok(())
}
