ghost use Rattle.std.specs.Prelude.{◌≡◌, ◌≤◌, IfSome, length, map, string_bytes};
ghost use Rattle.std.specs.List.{list_all};
ghost use Rattle.std.specs.Option.{option_map};
ghost use Rattle.licence_tool.specs.Command.{IsWithinLimits, check_of, command_of, events_of, is_plain_word, file_names, run_named, run_of, third_in};
ghost use Rattle.licence_tool.specs.Words.{command_in};

use crate::numbers::number_within;
use crate::words::Words;

/// The names of the files of a replay, a report, an audit or a usage.
#[derive(Clone, Copy, Debug)]
pub struct RunNames<'a> {
    /// The name of the licence file.
    pub licence: &'a str,
    /// The name of the options file, whose rules hold at first.
    pub options: &'a str,
    /// The name of the third file: the script of a replay or a report, or the log of an audit or a usage.
    pub third: &'a str,
    /// The names of the further options files, three at most, whose rules the third file may ask for.
    pub more: &'a [String],
}

/// What is told of a script that was played.
#[derive(Clone, Copy, Debug, PartialEq, Eq)]
pub enum ScriptReport {
    /// The reply to each of its lines, as `replay` tells them.
    Replies,
    /// How each pool stands after its last line, as `report` tells it.
    Pools,
}

/// What is told of a log that is a run.
#[derive(Clone, Copy, Debug, PartialEq, Eq)]
pub enum LogReport {
    /// How often each user was granted a licence, as `audit` tells it.
    Users,
    /// The sums of each pool's days, as `usage` tells them.
    Days,
}

/// A command, with the names of its files.
#[derive(Clone, Copy, Debug)]
pub enum Command<'a> {
    /// Tells what the daemon will do with a licence and an options file.
    Check {
        /// The name of the licence file.
        licence: &'a str,
        /// The name of the options file.
        options: &'a str,
    },
    /// Plays a script of requests against a licence and options files, and tells this of it.
    Replay(ScriptReport, RunNames<'a>),
    /// Judges a log by a licence and options files, and writes this report on one that is a run.
    Audit(LogReport, RunNames<'a>),
    /// Replays the first so many events of the trial, 1 to 1,000,000, and tells how often each reply came.
    Trial(u32),
}

/// What the third file of a command is.
#[derive(Clone, Copy, Debug, PartialEq, Eq)]
pub enum Third {
    /// The script of a replay or a report. So it is also said of a command that has no third file.
    Script,
    /// The log of an audit or a usage.
    Log,
}

/// The most further options files that a command may name.
const MORE_LIMIT: usize = 3;

/// The most events that a trial may have.
const EVENT_LIMIT: u64 = 1_000_000;

/// Whether a word may name a file: it isn't empty and doesn't begin with `-`.
pub fn is_plain_word(word: &str) -> bool
    ensures { result ≡ is_plain_word word.now }
{
    match word.as_bytes().first() {
        None => false,
        Some(byte) => *byte != b'-',
    }
}

/// Whether each of the words may name a file.
fn are_plain(words: &[String]) -> bool
    ensures { result ≡ list_all (λ word. is_plain_word (string_bytes word)) words.now }
{
    words.iter().all(|word| is_plain_word(word.as_str()))
}

/// The check of two words that may name files. `None` comes exactly where they aren't.
fn read_check(names: &[String]) -> Option<Command<'_>>
    ensures { option_map file_names result ≡ check_of (map string_bytes names.now) }
{
    let [licence, options] = names else {
        return None;
    };
    let command = Command::Check {
        licence: licence.as_str(),
        options: options.as_str(),
    };
    if are_plain(names) {
        Some(command)
    } else {
        None
    }
}

/// The files of a replay, a report, an audit or a usage: three to six words that may name files. `None` comes exactly
/// where they aren't.
fn read_run(names: &[String]) -> Option<RunNames<'_>>
    ensures run { option_map run_named result ≡ run_of (map string_bytes names.now) }
    ensures few { IfSome result (λ run. length run.more.now ≤ 3) }
{
    let [licence, options, third, more @ ..] = names else {
        return None;
    };
    let run = RunNames {
        licence: licence.as_str(),
        options: options.as_str(),
        third: third.as_str(),
        more,
    };
    if are_plain(names) && more.len() <= MORE_LIMIT {
        Some(run)
    } else {
        None
    }
}

/// How many events a trial is to have: one word, a number from 1 to 1,000,000. `None` comes exactly where the words are
/// none.
fn read_events(words: &[String]) -> Option<u32>
    ensures events { result ≡ events_of (map string_bytes words.now) }
    ensures within { IfSome result (λ events. events ≤ 1000000) }
{
    let [word] = words else {
        return None;
    };
    number_within(word.as_str(), 1, EVENT_LIMIT)
}

/// The command that the words are, without the program's name. `None` comes exactly where they are neither `check` and
/// two words that may name files, nor `replay`, `report`, `audit` or `usage` and three to six of them, nor
/// `trial-replay` and a number from 1 to 1,000,000.
pub fn read_command(words: &[String]) -> Option<Command<'_>>
    ensures command { option_map file_names result ≡ command_of (map string_bytes words.now) }
    ensures within { IfSome result IsWithinLimits }
{
    let [verb, names @ ..] = words else {
        return None;
    };
    if verb.as_str() == "check" {
        read_check(names)
    } else if verb.as_str() == "replay" {
        Some(Command::Replay(ScriptReport::Replies, read_run(names)?))
    } else if verb.as_str() == "report" {
        Some(Command::Replay(ScriptReport::Pools, read_run(names)?))
    } else if verb.as_str() == "audit" {
        Some(Command::Audit(LogReport::Users, read_run(names)?))
    } else if verb.as_str() == "usage" {
        Some(Command::Audit(LogReport::Days, read_run(names)?))
    } else if verb.as_str() == "trial-replay" {
        Some(Command::Trial(read_events(names)?))
    } else {
        None
    }
}

/// What the third file of the command is that the words ask for.
pub fn third_of(words: &Words) -> Third
    ensures { result ≡ third_in (command_in words.now) }
{
    let Words::Text(words) = words else {
        return Third::Script;
    };
    match read_command(words.as_slice()) {
        Some(Command::Audit(_, _)) => Third::Log,
        _ => Third::Script,
    }
}
