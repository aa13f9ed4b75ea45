//! The words of a lint, read by `clap`.
ghost use Rattle.std.specs.Prelude.{◌≡◌, IfOk, false, map, string_bytes};
ghost use Rattle.clap.specs.Words.{app_of, first_value, found_of, kind_of, rule_of};
ghost use Rattle.licence_lint.specs.Asked.{FoundSays, IsAsked, IsAskedBy, RefusalShows, lint_app, name_rule, span_rule};

use crate::names::{LintNames, read_names};
use clap::error::ErrorKind;
use clap::{Arg, ArgAction, ArgMatches, Command, Error};
use licence_tool::Words;
use std::alloc::{AllocError, Global};

/// What the words ask for.
#[derive(Debug, Drop)]
pub enum Asked<'a> {
    /// To lint these files.
    Lint(LintNames<'a>),
    /// To show this text, which is help or the version.
    Shown(String),
    /// Nothing that there is.
    Usage,
    /// There was too little memory to read them.
    NoMemory,
}

/// A word that names a file.
fn name_arg<'a>(alloc: Global, id: &'a str, help: &'a str) -> Arg<'a>
    ensures rule { rule_of result ≡ name_rule id.entry.now }
    ensures local { result.global ≡ false }
{
    Arg::new(alloc, id)
        .required(true)
        .action(ArgAction::Set)
        .help(help)
}

/// An option with a value.
fn span_arg<'a>(alloc: Global, id: &'a str, value: &'a str, help: &'a str) -> Arg<'a>
    ensures rule { rule_of result ≡ span_rule id.entry.now }
    ensures local { result.global ≡ false }
{
    Arg::new(alloc, id)
        .long(id)
        .value_name(value)
        .action(ArgAction::Set)
        .help(help)
}

/// The command line that is read.
fn lint_command<'a>(alloc: Global) -> Result<Command<'a>, AllocError>
    ensures { IfOk result (λ command. app_of command ≡ lint_app) }
{
    let licence = name_arg(alloc, "LICENCE", "The licence file");
    let options = name_arg(alloc, "OPTIONS", "The options file");
    let within = span_arg(
        alloc,
        "expires-within",
        "DAYS",
        "Tell of pools that expire within so many days of the day of --on, or have expired",
    );
    let on = span_arg(
        alloc,
        "on",
        "DAY",
        "The day from which --expires-within counts, as 31-dec-2026",
    );
    Command::new(alloc, "licence_lint")
        .version("1")
        .about("Advice on a licence and an options file: the slips that are no faults")
        .no_binary_name(true)
        .arg(licence)?
        .arg(options)?
        .arg(within)?
        .arg(on)
}

/// What is asked for where clap takes the words.
fn found_in<'a>(matches: &ArgMatches<'a>) -> Asked<'a>
    ensures { FoundSays (first_value (found_of matches.now)) result }
{
    let licence = matches.get_str("LICENCE");
    let options = matches.get_str("OPTIONS");
    let within = matches.get_str("expires-within");
    let on = matches.get_str("on");
    match read_names(licence, options, within, on) {
        Some(names) => Asked::Lint(names),
        None => Asked::Usage,
    }
}

/// What is asked for where clap doesn't.
fn refused<'a>(alloc: Global, error: &Error) -> Asked<'a>
    ensures { RefusalShows (kind_of error.now) result }
{
    match error.kind() {
        ErrorKind::OutOfMemory => Asked::NoMemory,
        ErrorKind::DisplayHelp | ErrorKind::DisplayVersion => match error.to_string(alloc) {
            Ok(text) => Asked::Shown(text),
            Err(_) => Asked::NoMemory,
        },
        _ => Asked::Usage,
    }
}

/// What words ask for.
fn read_texts<'a>(alloc: Global, words: &'a [String]) -> Asked<'a>
    ensures { IsAskedBy (map string_bytes words.entry.now) result }
{
    let Ok(command) = lint_command(alloc) else {
        return Asked::NoMemory;
    };
    match command.try_get_matches_from(words) {
        Ok(matches) => found_in(&matches),
        Err(error) => refused(alloc, &error),
    }
}

/// What the words of a command line ask for. Memory may be wanted to read them.
pub fn read_words<'a>(alloc: Global, words: &'a Words) -> Asked<'a>
    ensures { IsAsked words.entry.now result }
{
    match words {
        Words::Text(words) => read_texts(alloc, words.as_slice()),
        Words::NotText => Asked::Usage,
        Words::NoMemory => Asked::NoMemory,
    }
}
