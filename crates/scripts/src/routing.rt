ghost use Rattle.std.specs.Prelude.{◌≡◌};
ghost use Rattle.std.specs.List.{position_from};
ghost use Rattle.scripts.specs.PoolRuns.{pools_of, run_walk};
ghost use Rattle.scripts.specs.Walk.{is_kept, is_named, found_by_route, destination};

use crate::pool_run::PoolRun;
use feature_lines::{Found, Licence};
use lic_types::NameRef;
use script_text::ScriptLine;

/// The first pool of the name at which the party keeps a place.
fn first_kept(runs: &[PoolRun], name: &NameRef<'_>, party: u32) -> Option<usize>
    ensures { result ≡ position_from (is_kept run_walk name.now party) 0 runs.now }
{
    runs.iter().position(|run| run.keeps(name, party))
}

/// The first pool of the name.
fn first_named(runs: &[PoolRun], name: &NameRef<'_>) -> Option<usize>
    ensures { result ≡ position_from (is_named run_walk name.now) 0 runs.now }
{
    runs.iter().position(|run| run.is_named(name))
}

/// Where a line of a party that keeps no place goes: with a version to the pool that serves it at the line's own
/// moment, and else to the first pool of the name.
fn route(licence: &Licence, runs: &[PoolRun], line: &ScriptLine<'_>, name: &NameRef<'_>) -> Found
    requires { pools_of runs.now ≡ licence.now.pools }
    ensures { result ≡ found_by_route run_walk runs.now name.now line.now.moment line.now.version }
{
    match line.version() {
        Some(version) => licence.find(&name.name(), version, line.moment()),
        None => match first_named(runs, name) {
            Some(at) => Found::Pool(at),
            None => Found::Unknown,
        },
    }
}

/// Where a line goes: to the first pool of its feature's name at which its party keeps a place, if there is one.
pub(crate) fn find(licence: &Licence, runs: &[PoolRun], line: &ScriptLine<'_>) -> Found
    requires { pools_of runs.now ≡ licence.now.pools }
    ensures { result ≡ destination run_walk runs.now line.now line.now.feature }
{
    let Some(name) = line.feature() else {
        return Found::Unknown;
    };
    match first_kept(runs, name, line.party()) {
        Some(at) => Found::Pool(at),
        None => route(licence, runs, line, name),
    }
}
