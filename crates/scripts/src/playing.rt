ghost use Rattle.std.specs.Prelude.{◌≡◌, ◌≢◌, ◌≤◌, ◌<◌, ◌+◌, ◌++◌, ℕ, List, [], Err, None, OnOk, Some, length, map, true};
ghost use Rattle.std.specs.List.{list_all};
ghost use Rattle.lic_types.specs.declared.limits.TheConstants.{PARTY_LIMIT};
ghost use Rattle.options_machine.specs.Run.{IsBelow};
ghost use Rattle.options_machine.specs.Step.{set_asked};
ghost use Rattle.outside.specs.Told.{HasRisen, TakesPrefix, Wrote, held_after};
ghost use Rattle.script_text.specs.Fits.{is_fit};
ghost use Rattle.scripts.specs.declared.answers.TheConstants.{LINE_ROOM};
ghost use Rattle.scripts.specs.declared.gathered.TheConstants.{GATHER_LIMIT};
ghost use Rattle.scripts.specs.Laws.{Histories};
ghost use Rattle.scripts.specs.PoolRuns.{entered_at, is_ready, pools_of, run_of, run_walk};
ghost use Rattle.scripts.specs.Script.{output_of};
ghost use Rattle.scripts.specs.Walk.{after_asked, after_line, after_sent, asked_answer, line_answer, sent_answer, set_answer};

use crate::answers::Answer;
use crate::fault::PlayFault;
use crate::gathered::Gathered;
use crate::histories::tell_histories;
use crate::making::make_runs;
use crate::pool_run::PoolRun;
use crate::routing::find;
use feature_lines::{Found, Licence};
use options_text::Options;
use outside::{Sink, WriteFailed};
use script_text::ScriptLine;
use std::alloc::Global;

/// Makes the entry of a line at each pool, in their order.
fn enter_each(sets: usize, runs: &mut [PoolRun], line: &ScriptLine<'_>)
    requires party { line.now.party < PARTY_LIMIT }
    requires fits { IsBelow (set_asked line.now.kind) sets }
    requires ready { list_all (is_ready sets) runs.old ≡ true }
    ensures { runs.new ≡ map (entered_at line.now) runs.old }
{
    for run in runs.iter_mut() {
        run.enter(line);
    }
}

/// Answers a line that asks for the rule set of this number, and makes its entries where there is one.
fn answer_reread(sets: usize, runs: &mut [PoolRun], line: &ScriptLine<'_>, set: u32) -> Answer
    requires party { line.now.party < PARTY_LIMIT }
    requires asked { set_asked line.now.kind ≡ Some set }
    requires ready { list_all (is_ready sets) runs.old ≡ true }
    ensures runs { runs.new ≡ after_asked run_walk sets runs.old line.now (Some set) }
    ensures answer { result ≡ set_answer sets set }
{
    if (set as usize) < sets {
        enter_each(sets, runs, line);
        Answer::Reread(set)
    } else {
        Answer::NoRules(set)
    }
}

/// Makes the entry of a line at the pool of this place, and gives its answer.
fn answer_at(sets: usize, runs: &mut [PoolRun], line: &ScriptLine<'_>, at: usize) -> Answer
    requires there { at < length runs.old }
    requires party { line.now.party < PARTY_LIMIT }
    requires asked { set_asked line.now.kind ≡ None }
    requires ready { list_all (is_ready sets) runs.old ≡ true }
    ensures runs { runs.new ≡ after_sent run_walk runs.old line.now (Found.Pool at) }
    ensures answer { result ≡ sent_answer run_walk runs.old line.now (Found.Pool at) }
{
    let run = &mut runs[at];
    let place = run.entries;
    Answer::Entry(run.enter(line), place)
}

/// Answers a line that asks for no rule set: it goes to a pool and makes its entry there, or goes nowhere.
fn answer_request(
    licence: &Licence,
    sets: usize,
    runs: &mut [PoolRun],
    line: &ScriptLine<'_>,
) -> Answer
    requires pools { pools_of runs.old ≡ licence.now.pools }
    requires party { line.now.party < PARTY_LIMIT }
    requires asked { set_asked line.now.kind ≡ None }
    requires ready { list_all (is_ready sets) runs.old ≡ true }
    ensures runs { runs.new ≡ after_asked run_walk sets runs.old line.now None }
    ensures answer { result ≡ asked_answer run_walk sets runs.old line.now None }
{
    match find(licence, runs, line) {
        Found::Pool(at) => answer_at(sets, runs, line, at),
        Found::Unknown => Answer::Unknown,
        Found::Expired(day) => Answer::Expired(day),
    }
}

/// Makes the entries of a line, and gives its answer.
pub(crate) fn answer_line(
    licence: &Licence,
    sets: usize,
    runs: &mut [PoolRun],
    line: &ScriptLine<'_>,
) -> Answer
    requires pools { pools_of runs.old ≡ licence.now.pools }
    requires party { line.now.party < PARTY_LIMIT }
    requires ready { list_all (is_ready sets) runs.old ≡ true }
    ensures runs { runs.new ≡ after_line run_walk sets runs.old line.now }
    ensures answer { result ≡ line_answer run_walk sets runs.old line.now }
{
    match line.kind().set_asked() {
        Some(set) => answer_reread(sets, runs, line, set),
        None => answer_request(licence, sets, runs, line),
    }
}

/// Writes what was gathered, unless there is room for one line more.
fn make_room<O: Sink>(gathered: &mut Gathered, out: &mut O) -> Result<(), WriteFailed>
    ensures wrote { (written : List ℕ) × (gathered.old ≡ written ++ gathered.new) × Wrote O.held O.faults out.old out.new written result }
    ensures room { OnOk result (length gathered.new + LINE_ROOM ≤ GATHER_LIMIT) }
{
    if gathered.has_room() {
        Ok(())
    } else {
        gathered.write(out)
    }
}

/// Plays the lines of a script at the pools of a licence, before any of them has an entry. The output lines are
/// gathered, so that few writes are made.
fn play_lines<O: Sink>(
    licence: &Licence,
    options: &[Options],
    runs: &mut [PoolRun],
    lines: &[ScriptLine<'_>],
    gathered: &mut Gathered,
    out: &mut O,
) -> Result<(), WriteFailed>
    requires fit { list_all is_fit lines.now ≡ true }
    requires opened { runs.old ≡ map (run_of options.now) licence.now.pools }
    requires none { gathered.old ≡ [] }
    ensures { Wrote O.held O.faults out.old out.new (output_of licence.now.pools options.now lines.now) result }
{
    for line in lines {
        let answer = answer_line(licence, options.len(), runs, line);
        make_room(gathered, out)?;
        gathered.add(&answer);
    }
    gathered.write(out)
}

/// Plays a script on the pools of a licence, each with one rule set for each of the options files, and writes one
/// output line for each of its lines, in order. The set of number 0 holds at first. Where a write fails, a prefix of
/// these lines was written.
///
/// A REREAD line makes an entry at each pool and is answered `REREAD n`, where there is a set of its number, and else
/// `NORULES n`. Any other line goes to the first pool of its feature's name at which its party holds a seat or waits by
/// the last reply to it there that no REREAD line got; where there is none, with a version to the pool that
/// `Licence::find` gives at the line's own moment, and without one to the first pool of the name. Its answer is the
/// reply's words with the place of its entry in the pool, from 0, or `UNKNOWN`, or `EXPIRED d-mmm-yyyy`, where no entry
/// is made. These lines are this project's own.
///
/// `WriteFailed` comes exactly where a write fails. `NoMemory` comes where there is too little memory for the books of
/// the pools; all memory is taken before the first write.
pub fn play<O: Sink>(
    alloc: Global,
    licence: &Licence,
    options: &[Options],
    lines: &[ScriptLine<'_>],
    out: &mut O,
) -> Result<(), PlayFault>
    requires fit { list_all is_fit lines.now ≡ true }
    requires some { 0 < length options.now }
    requires few { length options.now ≤ 4 }
    ensures ok { OnOk result (O.held out.new ≡ held_after (O.held out.old) (output_of licence.now.pools options.now lines.now)) }
    ensures prefix { result ≡ Err PlayFault.WriteFailed → TakesPrefix (O.held out.old) (O.held out.new) (output_of licence.now.pools options.now lines.now) }
    ensures failed { result ≡ Err PlayFault.WriteFailed → HasRisen (O.faults out.old) (O.faults out.new) }
    ensures memory { result ≡ Err PlayFault.NoMemory → O.held out.new ≡ O.held out.old }
    ensures steady { result ≢ Err PlayFault.WriteFailed → O.faults out.new ≡ O.faults out.old }
    ensures later { O.faults out.old ≤ O.faults out.new }
    // The histories that it makes are lawful runs.
    ensures histories { Histories licence.now.pools options.now lines.now }
{
    tell_histories(licence, options, lines);
    let mut runs = make_runs(alloc, licence.pools(), options)?;
    let mut gathered = Gathered::make(alloc)?;
    play_lines(
        licence,
        options,
        runs.as_mut_slice(),
        lines,
        &mut gathered,
        out,
    )?;
    Ok(())
}
