ghost use Rattle.std.specs.Prelude.{◌≡◌, ◌≢◌, ◌↔◌, ◌⊎◌, ◌≤◌, ℕ, List, Ok, Err, true};
ghost use Rattle.outside.specs.Told.{HasRisen};
ghost use Rattle.licence_tool.specs.Asked.{Asks, FailedAt, HasFailed, files_of};
ghost use Rattle.licence_tool.specs.Command.{third_in};
ghost use Rattle.licence_tool.specs.Files.{are_told};
ghost use Rattle.licence_tool.specs.Outcome.{Due, IsRefuted, IsTold, outcome_of};
ghost use Rattle.licence_tool.specs.Status.{has_own_fault, is_refusal, line_of};
ghost use Rattle.licence_tool.specs.Tool.{Comes, ForFiles, GainsLine, IsSure, WritesAll, WritesPrefix, WritesHistories, WritesNo};
ghost use Rattle.licence_tool.specs.Words.{IsNoCommand, command_in};

use crate::command::third_of;
use crate::err_line::{put_status, write_line};
use crate::perform::perform;
use crate::room::ROOM;
use crate::status::Status;
use crate::words::Words;
use outside::{Files, Sink};
use std::alloc::Global;

/// Runs one command and ends with its status. `words` are those behind the program's name: `check LICENCE OPTIONS`, or
/// `replay LICENCE OPTIONS SCRIPT`, `report LICENCE OPTIONS SCRIPT`, `audit LICENCE OPTIONS LOG` or `usage LICENCE
/// OPTIONS LOG` with up to three further options files behind, or `trial-replay EVENTS`, which names no file. A word
/// that is no UTF-8 is no command, and want of memory for the words is `NoMemory`. What the command writes goes to
/// `out`, and for every status but `Done` one line goes to `err`; a fault there changes no status.
///
/// The order is: the words, then file by file its reading, its length and its grammar, then the memory for the text,
/// and then the writing. Want of memory may come at each of these, but not after the first byte was written to `out`.
///
/// `Comes` says what comes of the files: what is due where all are accepted, or the status of the first file at fault,
/// in that order. A check, a replay, a report and a trial owe a text; an audit and a usage owe their verdict on the
/// log, which is a text on `Done` where the log is a run, of its users or of its days, and another on `AuditNo` where
/// it is none.
pub fn tool<F: Files, O: Sink, E: Sink>(
    alloc: Global,
    words: &Words,
    files: &mut F,
    out: &mut O,
    err: &mut E,
) -> Status
    // The words are no command exactly where the status says so.
    ensures usage { (result ≡ Status.Usage) ↔ IsNoCommand words.now }
    ensures no_words { words.now ≡ Words.NoMemory → result ≡ Status.NoMemory }

    // The files are asked for in their order, each once, up to the one of which the status speaks.
    ensures asked { Asks 1 (files_of (command_in words.now)) (F.asked files.old) (F.asked files.new) (F.failed files.old) (F.failed files.new) result }

    // On Done out gained exactly the text that comes of the files.
    ensures done { result ≡ Status.Done
        → ForFiles (command_in words.now) (F.contents files.old)
        (λ told. WritesAll (HasFailed (F.failed files.old) (F.failed files.new)) told (O.held out.old) (O.held out.new)) }

    // On AuditNo the log is no run, its line is the first that shows it, and out gained exactly the text that tells so.
    ensures not_run { (line : ℕ) → result ≡ Status.AuditNo line
        → ForFiles (command_in words.now) (F.contents files.old)
        (λ told. WritesNo (HasFailed (F.failed files.old) (F.failed files.new)) told line (O.held out.old) (O.held out.new)) }

    // On Done of a replay or a report that text tells of histories, one for each pool, which are lawful runs of the
    // pool's rule sets. The events of a trial are a run of the rules of its pool.
    ensures histories { result ≡ Status.Done
        → ForFiles (command_in words.now) (F.contents files.old)
        (λ told. WritesHistories (HasFailed (F.failed files.old) (F.failed files.new)) told (O.held out.old) (O.held out.new)) }

    // On WriteFault it gained a prefix of what was to be written, and else nothing.
    ensures written { result ≡ Status.WriteFault
        → ForFiles (command_in words.now) (F.contents files.old)
        (λ told. WritesPrefix (HasFailed (F.failed files.old) (F.failed files.new)) told (O.held out.old) (O.held out.new)) }
    ensures unwritten { result ≢ Status.Done → ((line : ℕ) → result ≢ Status.AuditNo line) → result ≢ Status.WriteFault → O.held out.new ≡ O.held out.old }

    // A status of a file that is refused or too long is what comes of the files, and its fault is never want of memory.
    ensures refused { is_refusal result ≡ true
        → ForFiles (command_in words.now) (F.contents files.old)
        (λ told. Comes (HasFailed (F.failed files.old) (F.failed files.new)) told (Err result)) }
    ensures own_fault { has_own_fault result ≡ true }

    // A read fault comes only of the file whose reading failed, before which all were accepted.
    ensures read_fault { (file : ℕ) → result ≡ Status.ReadFault file
        → FailedAt 1 (files_of (command_in words.now)) (F.failed files.old) (F.failed files.new) file
        × ForFiles (command_in words.now) (F.contents files.old)
        (λ told. Comes (HasFailed (F.failed files.old) (F.failed files.new)) told (Err result)) }

    // A write fault comes only where the count of faults rose.
    ensures write_fault { result ≡ Status.WriteFault → HasRisen (O.faults out.old) (O.faults out.new) }

    // Standard error gained exactly the line of the status, which is none on Done, or a prefix of it at a fault of its
    // own.
    ensures err_line { GainsLine (E.held err.old) (E.held err.new)
        (HasRisen (E.faults err.old) (E.faults err.new)) (line_of (third_in (command_in words.now)) result) }

    // Where it is told of all files what they hold, just these bytes decide what comes of them.
    ensures told { ForFiles (command_in words.now) (F.contents files.old)
        (λ told. are_told told ≡ true → IsSure told (outcome_of told)) }

    // What surely comes of the files comes, unless memory is wanted or a fault rose: Done with the text, AuditNo with
    // the line, or the status.
    ensures complete { ForFiles (command_in words.now) (F.contents files.old)
        (λ told. (due : Due) (text : List ℕ) → IsSure told (Ok due) → IsTold due text
        → ¬ HasFailed (F.failed files.old) (F.failed files.new)
        → ¬ HasRisen (O.faults out.old) (O.faults out.new)
        → (result ≡ Status.Done) ⊎ (result ≡ Status.NoMemory)) }
    ensures no_comes { ForFiles (command_in words.now) (F.contents files.old)
        (λ told. (due : Due) (line : ℕ) (text : List ℕ) → IsSure told (Ok due) → IsRefuted due line text
        → ¬ HasFailed (F.failed files.old) (F.failed files.new)
        → ¬ HasRisen (O.faults out.old) (O.faults out.new)
        → (result ≡ Status.AuditNo line) ⊎ (result ≡ Status.NoMemory)) }
    ensures refusal_comes { ForFiles (command_in words.now) (F.contents files.old)
        (λ told. (status : Status) → IsSure told (Err status)
        → ¬ HasFailed (F.failed files.old) (F.failed files.new)
        → (result ≡ status) ⊎ (result ≡ Status.NoMemory)) }
{
    let status = perform(alloc, words, files, out);
    let mut room = [0; ROOM];
    let end = put_status(&mut room, third_of(words), &status);
    write_line(err, &room[..end]);
    status
}
