//! The top call.
ghost use Rattle.std.specs.Prelude.{◌≡◌, None};
ghost use Rattle.licence_tool.specs.Asked.{Asks, HasFailed};
ghost use Rattle.licence_tool.specs.Tool.{GainsLine};
ghost use Rattle.outside.specs.Told.{HasRisen};
ghost use Rattle.licence_lint.specs.Asked.{IsNoLint, lint_in};
ghost use Rattle.licence_lint.specs.Lint.{ForLint, IsComplete, IsLinted, IsUnlinted, files_of};
ghost use Rattle.licence_lint.specs.Status.{lint_line, reading_in};

use crate::files::{lint_files, show};
use crate::status::{LintStatus, put_lint_status};
use crate::words::{Asked, read_words};
use licence_tool::{ROOM, Status, Words, write_line};
use outside::{Files, Sink};
use std::alloc::Global;

/// Does what the words ask for, without the line on standard error.
fn perform<F: Files, O: Sink>(
    alloc: Global,
    words: &Words,
    files: &mut F,
    out: &mut O,
) -> LintStatus
    ensures usage { result ≡ LintStatus.Tool Status.Usage → IsNoLint words.now }
    ensures no_words { words.now ≡ Words.NoMemory → result ≡ LintStatus.Tool Status.NoMemory }
    ensures unlinted { lint_in words.now ≡ None → IsUnlinted (HasRisen (O.faults out.old) (O.faults out.new)) words.now (O.held out.old) (O.held out.new) result }
    ensures asked { Asks 1 (files_of (lint_in words.now)) (F.asked files.old) (F.asked files.new) (F.failed files.old) (F.failed files.new) (reading_in result) }
    ensures advice { ForLint (lint_in words.now) (F.contents files.old) (λ horizon told.
        IsLinted horizon (HasFailed (F.failed files.old) (F.failed files.new)) (HasRisen (O.faults out.old) (O.faults out.new)) told (O.held out.old) (O.held out.new) result) }
{
    match read_words(alloc, words) {
        Asked::Lint(names) => lint_files(alloc, &names, files, out),
        Asked::Shown(text) => show(text.as_str(), out),
        Asked::Usage => LintStatus::Tool(Status::Usage),
        Asked::NoMemory => LintStatus::Tool(Status::NoMemory),
    }
}

/// Runs the program and ends with its status. `words` are those behind the program's name: `LICENCE OPTIONS`, with
/// `--expires-within DAYS` and `--on DAY`, both or neither, in any order that clap takes; or `--help` or `--version`,
/// whose text is clap's. A word that is no UTF-8 is no lint, and want of memory for the words is `NoMemory`.
///
/// The advice on the two files goes to `out`, and for every status but `Done` and `Advised` one line goes to `err`; a
/// fault there changes no status. `Done` comes without advice, and nothing is written then; `Advised` with some. The
/// order is: the words, then file by file its reading, its length and its grammar, then the memory for the advice, and
/// then the writing. Want of memory may come at each of these, but not after the first byte was written to `out`.
pub fn lint<F: Files, O: Sink, E: Sink>(
    alloc: Global,
    words: &Words,
    files: &mut F,
    out: &mut O,
    err: &mut E,
) -> LintStatus
    // Usage comes only of words that are no lint and don't ask for help.
    ensures usage { result ≡ LintStatus.Tool Status.Usage → IsNoLint words.now }
    ensures no_words { words.now ≡ Words.NoMemory → result ≡ LintStatus.Tool Status.NoMemory }

    // Of words that are no lint nothing is written but a text that they ask for.
    ensures unlinted { lint_in words.now ≡ None → IsUnlinted (HasRisen (O.faults out.old) (O.faults out.new)) words.now (O.held out.old) (O.held out.new) result }

    // The files of a lint are asked for in their order, each once, up to the one of which the status speaks, and only
    // the reading of a read fault failed; without a lint none is asked for.
    ensures asked { Asks 1 (files_of (lint_in words.now)) (F.asked files.old) (F.asked files.new) (F.failed files.old) (F.failed files.new) (reading_in result) }

    // What came of the files of a lint. On Done they are accepted and there is no advice on them; on Advised out gained
    // exactly the text of the advice on them, and on WriteFault, where its count of faults rose, a prefix of it; else
    // nothing. Each other status is of the first file at fault, with its fault.
    ensures advice { ForLint (lint_in words.now) (F.contents files.old) (λ horizon told.
        IsLinted horizon (HasFailed (F.failed files.old) (F.failed files.new)) (HasRisen (O.faults out.old) (O.faults out.new)) told (O.held out.old) (O.held out.new) result) }

    // Standard error gained exactly the line of the status, or a prefix of it at a fault of its own.
    ensures err_line { GainsLine (E.held err.old) (E.held err.new) (HasRisen (E.faults err.old) (E.faults err.new)) (lint_line result) }

    // What surely comes of the files comes, unless memory is wanted or a fault rose.
    ensures complete { ForLint (lint_in words.now) (F.contents files.old) (λ horizon told.
        IsComplete horizon (HasFailed (F.failed files.old) (F.failed files.new)) (HasRisen (O.faults out.old) (O.faults out.new)) told result) }
{
    let status = perform(alloc, words, files, out);
    let mut room = [0; ROOM];
    let end = put_lint_status(&mut room, &status);
    write_line(err, &room[..end]);
    status
}
