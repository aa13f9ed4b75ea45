//! The words of the program, read by `clap`.
use crate::ending::End;
use crate::errands::pace_of;
use clap::error::ErrorKind;
use clap::{Arg, ArgAction, ArgMatches, Command, Error};
use client_talk::{Cause, Client, Pace};
use std::alloc::{AllocError, Global};

/// The commands, as the help lists them.
const COMMANDS: &str =
    "Commands:\n  ask REQUEST           ask one request, as \"CHECKOUT edit 1.0\", and print the reply\n  status FEATURE..      print a table of the seats of each feature\n  hold FEATURE VERSION  take a seat and keep it until standard input ends;\n                        with --wait, wait for one in the queue\n  reread NUMBER         let the rule set of this number hold\n  shutdown              end all sessions";

/// Who a client is where the words don't say: what the environment tells, if it does.
#[derive(Drop)]
pub struct Defaults {
    /// The user: USER.
    pub user: Option<String>,
    /// The host: HOSTNAME, or the name that the system has.
    pub host: Option<String>,
    /// The display: DISPLAY.
    pub display: Option<String>,
    /// The project: LM_PROJECT.
    pub project: Option<String>,
}

/// What the words say.
#[derive(Drop)]
pub struct Said<'a> {
    /// The path of the daemon's socket.
    pub socket: &'a str,
    /// The command.
    pub command: &'a str,
    /// The words behind it.
    pub words: Vec<&'a str>,
    /// How often a BEAT is asked.
    pub pace: Pace,
    /// Who asks.
    pub client: Client<'a>,
}

/// A word that is needed.
fn word_arg<'a>(alloc: Global, id: &'a str, help: &'a str) -> Arg<'a> {
    Arg::new(alloc, id)
        .required(true)
        .action(ArgAction::Set)
        .help(help)
}

/// An option with a value.
fn option_arg<'a>(alloc: Global, id: &'a str, value: &'a str, help: &'a str) -> Arg<'a> {
    Arg::new(alloc, id)
        .long(id)
        .value_name(value)
        .action(ArgAction::Set)
        .help(help)
}

/// The words behind the command.
fn words_arg<'a>(alloc: Global) -> Arg<'a> {
    Arg::new(alloc, "WORD")
        .num_args(0..)
        .action(ArgAction::Append)
        .help("What the command takes")
}

/// An option without a value.
fn flag_arg<'a>(alloc: Global, id: &'a str, help: &'a str) -> Arg<'a> {
    Arg::new(alloc, id)
        .long(id)
        .action(ArgAction::SetTrue)
        .help(help)
}

/// The command line that is read. It fails where memory ran out.
pub fn client_command<'a>(alloc: Global) -> Result<Command<'a>, AllocError> {
    Command::new(alloc, "licence_client")
        .version("1")
        .about("Asks the licence daemon at a socket")
        .no_binary_name(true)
        .after_help(COMMANDS)
        .arg(word_arg(alloc, "SOCKET", "The path of the daemon's socket"))?
        .arg(word_arg(alloc, "COMMAND", "ask, status, hold, reread or shutdown"))?
        .arg(words_arg(alloc))?
        .arg(option_arg(alloc, "user", "NAME", "Who asks; else USER, or nobody"))?
        .arg(option_arg(
            alloc,
            "host",
            "NAME",
            "On which host; else HOSTNAME, or the system's name, or localhost",
        ))?
        .arg(option_arg(
            alloc,
            "display",
            "NAME",
            "At which display; else DISPLAY, or none",
        ))?
        .arg(option_arg(
            alloc,
            "project",
            "NAME",
            "For which project; else LM_PROJECT, or none",
        ))?
        .arg(option_arg(
            alloc,
            "every",
            "SECONDS",
            "How many seconds hold lets pass between BEATs, 1 to 86400; else 300 with a seat and 10 without",
        ))?
        .arg(flag_arg(
            alloc,
            "wait",
            "hold waits in the queue where no seat is free",
        ))
}

/// The value of an option, or its default, or else this word.
fn value_or<'a>(
    matches: &ArgMatches<'a>,
    id: &str,
    default: &'a Option<String>,
    word: &'a str,
) -> &'a str {
    if let Some(value) = matches.get_str(id) {
        return value;
    }
    match default {
        Some(text) => text.as_str(),
        None => word,
    }
}

/// Who asks, by the options and the defaults.
fn client_in<'a>(matches: &ArgMatches<'a>, defaults: &'a Defaults) -> Client<'a> {
    Client {
        user: value_or(matches, "user", &defaults.user, "nobody"),
        host: value_or(matches, "host", &defaults.host, "localhost"),
        display: value_or(matches, "display", &defaults.display, "none"),
        project: value_or(matches, "project", &defaults.project, "none"),
    }
}

/// The words behind the command. `None` comes where memory ran out.
fn words_in<'a>(alloc: Global, matches: &ArgMatches<'a>) -> Option<Vec<&'a str>> {
    match matches.get_strs("WORD") {
        Some(words) => words.to_vec(alloc).ok(),
        None => Some(Vec::new(alloc)),
    }
}

/// What words say that clap takes: `Usage` where the seconds are none.
pub fn said_in<'a>(
    alloc: Global,
    matches: &ArgMatches<'a>,
    defaults: &'a Defaults,
) -> Result<Said<'a>, End> {
    let Some(socket) = matches.get_str("SOCKET") else {
        return Err(End::Usage);
    };
    let Some(command) = matches.get_str("COMMAND") else {
        return Err(End::Usage);
    };
    let Some(pace) = pace_of(matches.get_str("every"), matches.get_flag("wait")) else {
        return Err(End::Usage);
    };
    match words_in(alloc, matches) {
        Some(words) => Ok(Said {
            socket,
            command,
            words,
            pace,
            client: client_in(matches, defaults),
        }),
        None => Err(End::Stopped(Cause::NoMemory)),
    }
}

/// What comes of words that clap doesn't take: a text to show, or an end.
pub fn refused(alloc: Global, error: &Error) -> Result<String, End> {
    match error.kind() {
        ErrorKind::OutOfMemory => Err(End::Stopped(Cause::NoMemory)),
        ErrorKind::DisplayHelp | ErrorKind::DisplayVersion => match error.to_string(alloc) {
            Ok(text) => Ok(text),
            Err(_) => Err(End::Stopped(Cause::NoMemory)),
        },
        _ => Err(End::Usage),
    }
}
