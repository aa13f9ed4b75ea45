//! The files of a lint, and what is written of them.
ghost use Rattle.std.specs.Prelude.{◌≡◌, ◌∷◌, []};
ghost use Rattle.licence_tool.specs.Asked.{Asks, HasFailed};
ghost use Rattle.licence_tool.specs.Tool.{status_of};
ghost use Rattle.outside.specs.Told.{HasRisen};
ghost use Rattle.licence_lint.specs.Lint.{AdviceSays, IsHeardOf, IsLinted, ShowSays};
ghost use Rattle.licence_lint.specs.Status.{reading_in};

use crate::names::LintNames;
use crate::status::LintStatus;
use licence_tool::{Status, read_licence_file, read_options_file};
use lint_advice::{Advice, advice_of, advice_text};
use outside::{Files, Sink};
use std::alloc::Global;

/// The advice on the files of a lint. The status of an error is that of the first file at fault, or `NoMemory`.
fn read_advice<F: Files>(
    alloc: Global,
    names: &LintNames<'_>,
    files: &mut F,
) -> Result<Vec<Advice>, Status>
    ensures says { IsHeardOf names.now.horizon (HasFailed (F.failed files.old) (F.failed files.new))
        (record { licence = F.contents files.old names.now.licence.now; options = F.contents files.old names.now.options.now }) result }
    ensures asked { Asks 1 (names.now.licence.now ∷ names.now.options.now ∷ []) (F.asked files.old) (F.asked files.new) (F.failed files.old) (F.failed files.new) (status_of result) }
{
    let licence = read_licence_file(alloc, files, names.licence)?;
    let options = read_options_file(alloc, files, names.options, 0)?;
    match advice_of(alloc, &licence, &options, names.horizon) {
        Ok(advice) => Ok(advice),
        Err(_) => Err(Status::NoMemory),
    }
}

/// Writes advice. Without any nothing is written.
fn write_advice<O: Sink>(alloc: Global, advice: &[Advice], out: &mut O) -> LintStatus
    ensures { AdviceSays (HasRisen (O.faults out.old) (O.faults out.new)) (O.held out.old) (O.held out.new) advice.now result }
{
    if advice.is_empty() {
        return LintStatus::Tool(Status::Done);
    }
    let Ok(text) = advice_text(alloc, advice) else {
        return LintStatus::Tool(Status::NoMemory);
    };
    match out.write(text.as_slice()) {
        Ok(()) => LintStatus::Advised,
        Err(_) => LintStatus::Tool(Status::WriteFault),
    }
}

/// Reads the files of a lint, and writes the advice on them.
pub fn lint_files<F: Files, O: Sink>(
    alloc: Global,
    names: &LintNames<'_>,
    files: &mut F,
    out: &mut O,
) -> LintStatus
    ensures says { IsLinted names.now.horizon (HasFailed (F.failed files.old) (F.failed files.new)) (HasRisen (O.faults out.old) (O.faults out.new))
        (record { licence = F.contents files.old names.now.licence.now; options = F.contents files.old names.now.options.now })
        (O.held out.old) (O.held out.new) result }
    ensures asked { Asks 1 (names.now.licence.now ∷ names.now.options.now ∷ []) (F.asked files.old) (F.asked files.new) (F.failed files.old) (F.failed files.new) (reading_in result) }
{
    match read_advice(alloc, names, files) {
        Ok(advice) => write_advice(alloc, advice.as_slice(), out),
        Err(status) => LintStatus::Tool(status),
    }
}

/// Writes a text that was asked for in place of a lint.
pub fn show<O: Sink>(text: &str, out: &mut O) -> LintStatus
    ensures { ShowSays (HasRisen (O.faults out.old) (O.faults out.new)) (O.held out.old) (O.held out.new) text.now result }
{
    match out.write(text.as_bytes()) {
        Ok(()) => LintStatus::Tool(Status::Done),
        Err(_) => LintStatus::Tool(Status::WriteFault),
    }
}
