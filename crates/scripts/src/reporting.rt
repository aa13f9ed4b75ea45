ghost use Rattle.std.specs.Prelude.{◌≡◌, ◌≤◌, ◌<◌, ◌++◌, ◌^◌, IfOk, OnOk, length, map, true};
ghost use Rattle.std.specs.List.{list_all};
ghost use Rattle.script_text.specs.Fits.{is_fit};
ghost use Rattle.scripts.specs.Laws.{Histories};
ghost use Rattle.scripts.specs.Played.{AreRunsOf};
ghost use Rattle.scripts.specs.PoolRuns.{run_of};
ghost use Rattle.scripts.specs.Reports.{report_of, run_reports};
ghost use Rattle.scripts.specs.Script.{ledgers_of};

use crate::histories::tell_histories;
use crate::making::make_runs;
use crate::playing::answer_line;
use crate::pool_run::PoolRun;
use feature_lines::Licence;
use lic_types::NoMemory;
use options_text::Options;
use script_text::ScriptLine;
use stat_report::report;
use std::alloc::Global;

/// Makes the entries of the lines of a script at the pools of a licence, before any of them has an entry.
fn enter_lines(
    licence: &Licence,
    options: &[Options],
    runs: &mut [PoolRun],
    lines: &[ScriptLine<'_>],
)
    requires fit { list_all is_fit lines.now ≡ true }
    requires opened { runs.old ≡ map (run_of options.now) licence.now.pools }
    ensures runs { AreRunsOf (length options.now) (length lines.now) runs.new (ledgers_of licence.now.pools options.now lines.now) }
    ensures len { length runs.new ≡ length runs.old }
{
    for line in lines {
        let _ = answer_line(licence, options.len(), runs, line);
    }
}

/// Writes the reports of pools, which are numbered from 0.
fn put_reports(alloc: Global, text: &mut Vec<u8>, runs: &[PoolRun]) -> Result<(), NoMemory>
    requires { length runs.now < 2 ^ 32 }
    ensures { OnOk result (text.new.items ≡ text.old.items ++ run_reports 0 runs.now) }
{
    for (at, run) in runs.iter().enumerate() {
        let told = report(alloc, at as u32, &run.pool, &run.book)?;
        text.extend_from_slice(told.as_slice())?;
    }
    Ok(())
}

/// Plays a script on the pools of a licence as [`crate::play`] does, but writes none of its output lines: the text that
/// it gives tells of each pool how it stands after the last line. The one error is want of memory.
pub fn report_script(
    alloc: Global,
    licence: &Licence,
    options: &[Options],
    lines: &[ScriptLine<'_>],
) -> Result<Vec<u8>, NoMemory>
    requires fit { list_all is_fit lines.now ≡ true }
    requires some { 0 < length options.now }
    requires few { length options.now ≤ 4 }
    ensures text { IfOk result (λ text. text.items ≡ report_of licence.now.pools options.now lines.now) }
    // The histories that it makes are lawful runs.
    ensures histories { Histories licence.now.pools options.now lines.now }
{
    tell_histories(licence, options, lines);
    let mut runs = make_runs(alloc, licence.pools(), options)?;
    enter_lines(licence, options, runs.as_mut_slice(), lines);
    let mut text = Vec::new(alloc);
    put_reports(alloc, &mut text, runs.as_slice())?;
    Ok(text)
}
