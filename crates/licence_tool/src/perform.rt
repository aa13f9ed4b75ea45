ghost use Rattle.std.specs.Prelude.{◌≡◌, ◌<◌, ◌≤◌, ◌↔◌, ◌⊎◌, ◌∷◌, [], ℕ, List, None, IfOk, length, map, string_bytes, true};
ghost use Rattle.std.specs.List.{list_all};
ghost use Rattle.check_text.specs.Check.{check_of};
ghost use Rattle.log_audit.specs.Audited.{sets_of};
ghost use Rattle.log_audit.specs.Log.{is_fit as is_fit_at};
ghost use Rattle.outside.specs.Told.{HasRisen, Wrote};
ghost use Rattle.script_text.specs.Fits.{is_fit};
ghost use Rattle.scripts.specs.Laws.{Histories};
ghost use Rattle.scripts.specs.Reports.{report_of};
ghost use Rattle.scripts.specs.Script.{output_of};
ghost use Rattle.options_machine.specs.Run.{IsRun};
ghost use Rattle.trial_replay.specs.Replayed.{run_of, trial_text};
ghost use Rattle.trial_replay.specs.Terms.{bench_sets};
ghost use Rattle.licence_tool.specs.Asked.{Asks, HasFailed, files_of};
ghost use Rattle.licence_tool.specs.AuditText.{no_text};
ghost use Rattle.licence_tool.specs.Command.{command_of, Audit, Check, Replay};
ghost use Rattle.licence_tool.specs.Outcome.{IsRunText, Verdict, script_output};
ghost use Rattle.licence_tool.specs.Tool.{DueSays, ForFiles, IsDone, WritingSays, status_of};
ghost use Rattle.licence_tool.specs.Words.{IsNoCommand, command_in};

use crate::audit_text::{NO_ROOM, put_no, yes_text};
use crate::command::{Command, LogReport, ScriptReport, read_command};
use crate::reading::{
    read_licence_file, read_log_file, read_options_file, read_script_file, read_sets,
};
use crate::status::Status;
use crate::usage_text::usage_text;
use crate::words::Words;
use check_text::check_text;
use feature_lines::{Licence, Pool};
use lic_types::NoMemory;
use log_audit::{Audited, Numbered, Sums, audit_entries};
use options_machine::Reply;
use options_text::Options;
use outside::{Files, Sink, WriteFailed};
use script_text::ScriptLine;
use scripts::{PlayFault, play, report_script};
use std::alloc::Global;
use trial_replay::trial_text;

/// Writes a text.
fn write_text<O: Sink>(text: &[u8], out: &mut O) -> Result<(), Status>
    ensures { WritingSays (HasRisen (O.faults out.old) (O.faults out.new)) (O.held out.old) (O.held out.new) text.now (status_of result) }
{
    match out.write(text) {
        Ok(()) => Ok(()),
        Err(_) => Err(Status::WriteFault),
    }
}

/// Writes the text that tells of a licence and an options file.
fn write_check<O: Sink>(
    alloc: Global,
    licence: &Licence,
    options: &Options,
    out: &mut O,
) -> Result<(), Status>
    ensures { WritingSays (HasRisen (O.faults out.old) (O.faults out.new)) (O.held out.old) (O.held out.new) (check_of licence.now options.now) (status_of result) }
{
    let Ok(text) = check_text(alloc, licence, options) else {
        return Err(Status::NoMemory);
    };
    write_text(text.as_slice(), out)
}

/// Writes what the lines of a script are answered.
fn write_replies<O: Sink>(
    alloc: Global,
    licence: &Licence,
    sets: &[Options],
    script: &[ScriptLine<'_>],
    out: &mut O,
) -> Result<(), Status>
    requires fit { list_all is_fit script.now ≡ true }
    requires some { 0 < length sets.now }
    requires few { length sets.now ≤ 4 }
    ensures says { WritingSays (HasRisen (O.faults out.old) (O.faults out.new)) (O.held out.old) (O.held out.new) (output_of licence.now.pools sets.now script.now) (status_of result) }
    ensures histories { Histories licence.now.pools sets.now script.now }
{
    match play(alloc, licence, sets, script, out) {
        Ok(()) => Ok(()),
        Err(PlayFault::WriteFailed) => Err(Status::WriteFault),
        Err(PlayFault::NoMemory) => Err(Status::NoMemory),
    }
}

/// Writes how the pools stand after a script.
fn write_pools<O: Sink>(
    alloc: Global,
    licence: &Licence,
    sets: &[Options],
    script: &[ScriptLine<'_>],
    out: &mut O,
) -> Result<(), Status>
    requires fit { list_all is_fit script.now ≡ true }
    requires some { 0 < length sets.now }
    requires few { length sets.now ≤ 4 }
    ensures says { WritingSays (HasRisen (O.faults out.old) (O.faults out.new)) (O.held out.old) (O.held out.new) (report_of licence.now.pools sets.now script.now) (status_of result) }
    ensures histories { Histories licence.now.pools sets.now script.now }
{
    let Ok(text) = report_script(alloc, licence, sets, script) else {
        return Err(Status::NoMemory);
    };
    write_text(text.as_slice(), out)
}

/// Plays a script and writes what is to be told of it.
fn write_replay<O: Sink>(
    alloc: Global,
    report: ScriptReport,
    licence: &Licence,
    sets: &[Options],
    script: &[ScriptLine<'_>],
    out: &mut O,
) -> Result<(), Status>
    requires fit { list_all is_fit script.now ≡ true }
    requires some { 0 < length sets.now }
    requires few { length sets.now ≤ 4 }
    ensures says { WritingSays (HasRisen (O.faults out.old) (O.faults out.new)) (O.held out.old) (O.held out.new) (script_output report licence.now.pools sets.now script.now) (status_of result) }
    ensures histories { Histories licence.now.pools sets.now script.now }
{
    match report {
        ScriptReport::Replies => write_replies(alloc, licence, sets, script, out),
        ScriptReport::Pools => write_pools(alloc, licence, sets, script, out),
    }
}

/// The text of this report on a log that is a run of these pools, with these sums. The one error is want of memory.
fn run_text(
    alloc: Global,
    report: LogReport,
    pools: &[Pool],
    sums: &Sums,
) -> Result<Vec<u8>, NoMemory>
    ensures { IfOk result (λ text. IsRunText report pools.now sums.now text.items) }
{
    match report {
        LogReport::Users => yes_text(alloc, sums),
        LogReport::Days => usage_text(alloc, pools, sums.days()),
    }
}

/// Writes that a log is no run, with its first line that shows it and what holds there.
fn write_no<O: Sink>(
    line: u32,
    place: u64,
    moment: u64,
    reply: &Reply,
    out: &mut O,
) -> Result<(), WriteFailed>
    ensures { Wrote O.held O.faults out.old out.new (no_text line place moment reply.now) result }
{
    let mut room = [0; NO_ROOM];
    let end = put_no(&mut room, line, place, moment, reply);
    out.write(&room[..end])
}

/// Writes what an audit shows of the entries of a log: this report, where they are a run. `AuditNo` comes where they
/// are none and that was written.
#[tactic(auto, using(crate::proofs::Verdicts::no_written))]
fn write_audit<O: Sink>(
    alloc: Global,
    report: LogReport,
    licence: &Licence,
    sets: &[Options],
    log: &[Numbered],
    out: &mut O,
) -> Result<(), Status>
    requires fit { list_all (is_fit_at (length licence.now.pools)) log.now ≡ true }
    requires some { 0 < length sets.now }
    requires few { length sets.now ≤ 4 }
    ensures { DueSays (HasRisen (O.faults out.old) (O.faults out.new)) (O.held out.old) (O.held out.new) (Verdict report licence.now.pools (map (sets_of sets.now) licence.now.pools) log.now) (status_of result) }
{
    match audit_entries(alloc, licence, sets, log) {
        Ok(Audited::Yes(sums)) => {
            let Ok(text) = run_text(alloc, report, licence.pools(), &sums) else {
                return Err(Status::NoMemory);
            };
            write_text(text.as_slice(), out)
        }
        Ok(
            Audited::No {
                line,
                place,
                moment,
                reply,
            },
        ) => match write_no(line, place, moment, &reply, out) {
            Ok(()) => Err(Status::AuditNo(line)),
            Err(_) => Err(Status::WriteFault),
        },
        Err(NoMemory) => Err(Status::NoMemory),
    }
}

/// Tells what the daemon will do with a licence and an options file.
fn check<F: Files, O: Sink>(
    alloc: Global,
    licence: &str,
    options: &str,
    files: &mut F,
    out: &mut O,
) -> Result<(), Status>
    ensures asked { Asks 1 (licence.now ∷ options.now ∷ []) (F.asked files.old) (F.asked files.new) (F.failed files.old) (F.failed files.new) (status_of result) }
    ensures says { IsDone (HasFailed (F.failed files.old) (F.failed files.new)) (HasRisen (O.faults out.old) (O.faults out.new))
        (Check (record { licence = F.contents files.old licence.now; options = F.contents files.old options.now }))
        (O.held out.old) (O.held out.new) (status_of result) }
{
    let licence = read_licence_file(alloc, files, licence)?;
    let options = read_options_file(alloc, files, options, 0)?;
    write_check(alloc, &licence, &options, out)
}

/// Plays a script against a licence and options files, and tells this of it.
fn replay<F: Files, O: Sink>(
    alloc: Global,
    report: ScriptReport,
    licence: &str,
    options: &str,
    script: &str,
    more: &[String],
    files: &mut F,
    out: &mut O,
) -> Result<(), Status>
    requires { length more.now ≤ 3 }
    ensures asked { Asks 1 (licence.now ∷ options.now ∷ script.now ∷ map string_bytes more.now) (F.asked files.old) (F.asked files.new) (F.failed files.old) (F.failed files.new) (status_of result) }
    ensures says { IsDone (HasFailed (F.failed files.old) (F.failed files.new)) (HasRisen (O.faults out.old) (O.faults out.new))
        (Replay report (record { licence = F.contents files.old licence.now; options = F.contents files.old options.now; third = F.contents files.old script.now; more = map (λ name. F.contents files.old (string_bytes name)) more.now }))
        (O.held out.old) (O.held out.new) (status_of result) }
{
    let licence = read_licence_file(alloc, files, licence)?;
    let options = read_options_file(alloc, files, options, 0)?;
    let mut text = Vec::new(alloc);
    let script = read_script_file(alloc, files, script, &mut text)?;
    let sets = read_sets(alloc, files, more, options)?;
    write_replay(
        alloc,
        report,
        &licence,
        sets.as_slice(),
        script.as_slice(),
        out,
    )
}

/// Judges a log by a licence and options files, and writes this report on one that is a run.
fn audit<F: Files, O: Sink>(
    alloc: Global,
    report: LogReport,
    licence: &str,
    options: &str,
    log: &str,
    further: &[String],
    files: &mut F,
    out: &mut O,
) -> Result<(), Status>
    requires { length further.now ≤ 3 }
    ensures asked { Asks 1 (licence.now ∷ options.now ∷ log.now ∷ map string_bytes further.now) (F.asked files.old) (F.asked files.new) (F.failed files.old) (F.failed files.new) (status_of result) }
    ensures says { IsDone (HasFailed (F.failed files.old) (F.failed files.new)) (HasRisen (O.faults out.old) (O.faults out.new))
        (Audit report (record { licence = F.contents files.old licence.now; options = F.contents files.old options.now; third = F.contents files.old log.now; more = map (λ name. F.contents files.old (string_bytes name)) further.now }))
        (O.held out.old) (O.held out.new) (status_of result) }
{
    let licence = read_licence_file(alloc, files, licence)?;
    let options = read_options_file(alloc, files, options, 0)?;
    let log = read_log_file(alloc, files, log, licence.pools().len())?;
    let sets = read_sets(alloc, files, further, options)?;
    write_audit(
        alloc,
        report,
        &licence,
        sets.as_slice(),
        log.as_slice(),
        out,
    )
}

/// Replays the first so many events of the trial, and tells how often each reply came.
fn trial<O: Sink>(alloc: Global, events: u32, out: &mut O) -> Result<(), Status>
    requires { events ≤ 1000000 }
    ensures says { WritingSays (HasRisen (O.faults out.old) (O.faults out.new)) (O.held out.old) (O.held out.new) (trial_text events) (status_of result) }
    ensures run { IsRun bench_sets (run_of events) }
{
    let Ok(text) = trial_text(alloc, events) else {
        return Err(Status::NoMemory);
    };
    write_text(text.as_slice(), out)
}

/// The status of what was done.
fn status_of(done: Result<(), Status>) -> Status
    ensures { result ≡ status_of done }
{
    match done {
        Ok(()) => Status::Done,
        Err(status) => status,
    }
}

/// Does what these words ask for, without the line on standard error.
fn perform_words<F: Files, O: Sink>(
    alloc: Global,
    words: &[String],
    files: &mut F,
    out: &mut O,
) -> Status
    ensures usage { (result ≡ Status.Usage) ↔ (command_of (map string_bytes words.now) ≡ None) }
    ensures unwritten { result ≡ Status.Usage → O.held out.new ≡ O.held out.old }
    ensures asked { Asks 1 (files_of (command_of (map string_bytes words.now))) (F.asked files.old) (F.asked files.new) (F.failed files.old) (F.failed files.new) result }
    ensures says { ForFiles (command_of (map string_bytes words.now)) (F.contents files.old) (λ told.
        IsDone (HasFailed (F.failed files.old) (F.failed files.new)) (HasRisen (O.faults out.old) (O.faults out.new)) told
        (O.held out.old) (O.held out.new) result) }
{
    match read_command(words) {
        None => Status::Usage,
        Some(Command::Check { licence, options }) => {
            status_of(check(alloc, licence, options, files, out))
        }
        Some(Command::Replay(report, names)) => status_of(replay(
            alloc,
            report,
            names.licence,
            names.options,
            names.third,
            names.more,
            files,
            out,
        )),
        Some(Command::Audit(report, names)) => status_of(audit(
            alloc,
            report,
            names.licence,
            names.options,
            names.third,
            names.more,
            files,
            out,
        )),
        Some(Command::Trial(events)) => status_of(trial(alloc, events, out)),
    }
}

/// Does what the words ask for, without the line on standard error.
pub fn perform<F: Files, O: Sink>(
    alloc: Global,
    words: &Words,
    files: &mut F,
    out: &mut O,
) -> Status
    ensures usage { (result ≡ Status.Usage) ↔ IsNoCommand words.now }
    ensures no_words { words.now ≡ Words.NoMemory → result ≡ Status.NoMemory }
    ensures idle { command_in words.now ≡ None → (result ≡ Status.Usage) ⊎ (result ≡ Status.NoMemory) }
    ensures unwritten { command_in words.now ≡ None → O.held out.new ≡ O.held out.old }
    ensures asked { Asks 1 (files_of (command_in words.now)) (F.asked files.old) (F.asked files.new) (F.failed files.old) (F.failed files.new) result }
    ensures says { ForFiles (command_in words.now) (F.contents files.old) (λ told.
        IsDone (HasFailed (F.failed files.old) (F.failed files.new)) (HasRisen (O.faults out.old) (O.faults out.new)) told
        (O.held out.old) (O.held out.new) result) }
{
    match words {
        Words::Text(words) => perform_words(alloc, words.as_slice(), files, out),
        Words::NotText => Status::Usage,
        Words::NoMemory => Status::NoMemory,
    }
}
